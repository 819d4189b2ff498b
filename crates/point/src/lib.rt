// The incremental distributed point function: definitions and theorems, no code.
#![tactic(auto)]
