//! The exact check of stable models.
#![tactic(auto)]

pub mod check;
pub mod found;
pub mod lacks;
pub mod laws;
mod least;
mod marks;
mod merge;
mod names;
mod parts;
pub mod rows;
mod values;
