// Document 02, change 4: what the promise says (specs/) and its laws (proofs/). There is no code here.
#![tactic(auto)]
