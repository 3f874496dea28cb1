//! What is counted of a run while it goes on, and who hears of it.
#![tactic(auto)]

pub mod counts;
pub mod tallies;
pub mod watch;
