// The demands, as statements about the model: no code.
#![tactic(auto)]
