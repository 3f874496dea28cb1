//! The meaning of ground logic programs: rules, answer sets and costs.
#![tactic(auto)]

pub mod atoms;
pub mod cost;
mod extras;
pub mod holding;
pub mod in_force;
pub mod interp;
pub mod laws;
pub mod outputs;
pub mod plain;
pub mod program;
pub mod results;
pub mod rows;
pub mod rules;
pub mod seq;
pub mod sound;
pub mod stable;
mod subsets;
pub mod view;
