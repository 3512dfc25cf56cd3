// images: an image read back is its state. It has no code: see specs/.
#![tactic(auto)]
