// The table of worked sums: no code.
#![tactic(auto)]
