// texts: laws of reading a book. It has no code: see specs/.
#![tactic(auto)]
