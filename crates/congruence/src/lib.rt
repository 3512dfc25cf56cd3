// congruence: what merging makes of a sheet, without the order of pairs. It has no code: see specs/ and proofs/.
#![tactic(auto)]
