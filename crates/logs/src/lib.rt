// Links that leave and join, and the plain replay of a log: see specs/. There is no code here.
#![tactic(auto)]
