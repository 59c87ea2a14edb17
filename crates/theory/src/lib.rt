// Laws of the definitions: see proofs/. There is no code here.
#![tactic(auto)]
