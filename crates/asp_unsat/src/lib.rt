//! Which of the literals that answers have to meet no stable model has together.
#![tactic(auto)]

pub mod blamed;
pub mod laws;
