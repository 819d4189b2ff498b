// Theory: weights of reports as signed numbers, and totals of them. There is no code.
#![tactic(auto)]
