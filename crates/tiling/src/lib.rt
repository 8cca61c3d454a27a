#![tactic(auto)]
// Demand 2: a file is accepted exactly when it is a good header and then its counts, and reading and writing are
// inverse. There is no code here: specs/ has the words and proofs/ the theorems.
