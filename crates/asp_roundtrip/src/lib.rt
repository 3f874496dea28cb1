//! The canonical text of a program reads as the program.
#![tactic(auto)]

pub mod laws;
pub mod rows;
