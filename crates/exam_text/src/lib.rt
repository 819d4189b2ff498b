// Exam sheets and their texts: definitions and theorems. It has no code.
#![tactic(auto)]
