// soundness: every call makes a sound pool of a sound one. It has no code: see specs/.
#![tactic(auto)]
