// A picture that is moved by quarter turns and then straightened: what both calls promise together. No code.
#![tactic(auto)]
