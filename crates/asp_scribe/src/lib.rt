//! The text of a run's proof, written while the run goes on.
#![tactic(auto)]

pub mod ending;
mod list;
pub mod scribe;
