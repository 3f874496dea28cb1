//! Atoms that are the same as another one give way to the least of them.
#![tactic(auto)]

pub mod copies;
pub mod laws;
pub mod merge;
pub mod reduce;
mod rename;
