// The line format: what a line of the line program says, and the answer to it, by definition, with the laws of both. `fields` reads lines,
// `texts` writes answers, `hexlines` has the call.
#![tactic(auto)]
