// The folds over lists that the definitions of the other crates use: specs/ has them, and no function.
#![tactic(auto)]
