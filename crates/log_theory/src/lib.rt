// Document 02, change 5: the laws of a log whose lines take links away and add links (proofs/). There is no code here.
#![tactic(auto)]
