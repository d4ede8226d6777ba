// Expressions: an expression's value and level, and what a statement may assign.
#![tactic(auto)]

pub mod assigned;
pub mod values;
