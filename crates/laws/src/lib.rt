// laws: laws of the definitions that more than one theorem needs. It has no code: see specs/ and proofs/.
#![tactic(auto)]
