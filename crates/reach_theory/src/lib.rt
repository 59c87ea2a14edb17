// Tables that the engine's rounds reach, as mathematics. No code.
#![tactic(auto)]
