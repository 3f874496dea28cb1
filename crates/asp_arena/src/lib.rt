//! Lists of literals in one array.
#![tactic(auto)]

pub mod arena;
pub mod span;
