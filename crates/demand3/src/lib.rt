// Demand 3 of the tender as one statement: see specs/. Its proof is engine's proofs/Demand3.
#![tactic(auto)]
