// Demand 3: specs/ has the histories of a park and the claims about them, proofs/ the theorems; no function.
#![tactic(auto)]
