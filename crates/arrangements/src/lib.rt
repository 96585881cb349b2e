// Pictures arranged anew, by definition: each place of what is written holds the sample at one place of what is read. No code.
#![tactic(auto)]
