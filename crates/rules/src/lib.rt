// rules: document 01 as definitions. It has no code: see specs/.
#![tactic(auto)]
