// Case texts, read and written: see proofs/. There is no code here.
#![tactic(auto)]
