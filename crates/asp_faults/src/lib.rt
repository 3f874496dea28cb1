//! What a program says of a fault of a text that it read.
#![tactic(auto)]

mod texts;
mod writes;

pub use texts::write_fault;
pub use writes::{write, write_both, write_three};
