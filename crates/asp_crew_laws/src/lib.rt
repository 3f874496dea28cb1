//! What a run's journal says: when all was found, what a number that ended leaves behind, and what a search may take for
//! known.
#![tactic(auto)]

pub mod laws;
pub mod lows;
pub mod report;
