// What expressions and steps are made of: mark sets, the operators, and memory; and words that are copied.
#![tactic(auto)]

pub mod copy;
pub mod marks;
pub mod memory;
pub mod operators;
