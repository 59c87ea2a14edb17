// Pair rounds as mathematics (document 02, change 1). No code.
#![tactic(auto)]
