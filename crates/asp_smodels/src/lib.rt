//! Reads ground logic programs in the smodels text format.
#![tactic(auto)]

pub mod laws;
mod lines;
mod parts;
mod reader;
pub mod rows;
mod rules;

pub use reader::read_smodels;
