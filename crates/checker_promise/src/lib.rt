// The checker's promise: specs/Lists states it, proofs/ proves it. There is no code here.
#![tactic(auto)]
