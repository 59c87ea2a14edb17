// The engine's runs as mathematics. No code.
#![tactic(auto)]
