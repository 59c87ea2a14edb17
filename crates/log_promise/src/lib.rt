// The promise of a log's replay: specs/Lists states it, proofs/ proves it. There is no code here.
#![tactic(auto)]
