// A picture's three passes: definitions and laws, no code.
#![tactic(auto)]
