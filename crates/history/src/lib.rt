// What is put to a processor and what it reads: no code.
#![tactic(auto)]
