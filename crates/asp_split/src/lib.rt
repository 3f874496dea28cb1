//! A program in parts: cubes of assumptions under which its answers, one part's after the other's, are those of the whole.
#![tactic(auto)]

pub mod cubes;
mod divide;
pub mod divider;
pub mod laws;
pub mod leaf;
mod open;
mod probe;
mod rounds;
