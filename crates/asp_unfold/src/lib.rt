//! Minimise statements speak of the literals that define atoms, in place of these.
#![tactic(auto)]

pub mod laws;
mod table;
pub mod unfold;
