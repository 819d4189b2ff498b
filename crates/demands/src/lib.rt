// The user's three demands as three types, each with its proof. It has no code.
#![tactic(auto)]
