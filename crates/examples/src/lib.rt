// The sheet of examples as one table and one fact. It has no code.
#![tactic(auto)]
