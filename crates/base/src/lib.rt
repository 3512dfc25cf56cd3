// base: the tools that definitions and proofs share. It has no code: see specs/.
#![tactic(auto)]
