//! A query to a program, by a search that is kept over several of them.
#![tactic(auto)]

mod answer;
pub mod kept;
mod leaf;
