#![tactic(auto)]

// What a number and a line are as bytes: definitions and laws, no code.
