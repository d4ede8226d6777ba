#![tactic(auto)]

// The demands as theorems over the rules: see specs/Demands.antt. There is no code here.
