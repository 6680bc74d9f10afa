// The fourteen marked examples of document 01 and the examples of its table of no: specs/ has them, proofs/ computes them; no function.
#![tactic(auto)]
