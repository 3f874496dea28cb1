//! An outlet that writes no more answers than its limit says.
#![tactic(auto)]

mod front;
mod limited;

pub use limited::LimitedOutlet;
