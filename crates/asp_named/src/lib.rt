//! Consequences by name: a program in which an atom says of each output whether it is shown.
#![tactic(auto)]

pub mod laws;
pub mod named;
