// Arc consistency over an abstract network: see specs/ and proofs/. There is no code here.
#![tactic(auto)]
