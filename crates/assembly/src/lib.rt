#![tactic(auto)]
// Demand 3: what a frame holds after any files were offered, and that their order changes nothing. There is no code here:
// specs/ has the words and proofs/ the theorems.
