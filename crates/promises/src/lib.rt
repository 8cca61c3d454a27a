#![tactic(auto)]
// What is promised, in one place: specs/ has the words and proofs/ the theorems. There is no code here.
