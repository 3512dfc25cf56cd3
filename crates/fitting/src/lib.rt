// fitting: what fits the base fits a child. It has no code: see specs/.
#![tactic(auto)]
