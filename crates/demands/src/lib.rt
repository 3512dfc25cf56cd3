// demands: the demands as theorems over the definitions. It has no code: see specs/ and proofs/.
#![tactic(auto)]
