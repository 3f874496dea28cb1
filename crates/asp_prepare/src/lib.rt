//! What is searched of a program, and what a report on that says of the program.
#![tactic(auto)]

pub mod asked;
pub mod layout;
pub mod prepared;
pub mod told;
