// The library's calls on all input: see specs/. There is no code here.
#![tactic(auto)]
