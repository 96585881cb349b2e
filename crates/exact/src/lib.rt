// The exact picture and demand 3: definitions and laws, no code.
#![tactic(auto)]
