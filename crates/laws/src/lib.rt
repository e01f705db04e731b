// What follows from the model: no code.
#![tactic(auto)]
