// placing: children placed one at a time. It has no code: see specs/.
#![tactic(auto)]
