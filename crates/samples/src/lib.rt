// Document 01's starred samples: definitions and one computed test, no code.
#![tactic(auto)]
