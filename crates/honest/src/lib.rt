// What the calls answer, and a search played call by call. It has no code.
#![tactic(auto)]
