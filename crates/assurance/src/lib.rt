// What an owner can rely on beyond demand 3: specs/ has the claims, proofs/ the theorems; no function.
#![tactic(auto)]
