// The engine's press as mathematics. No code.
#![tactic(auto)]
