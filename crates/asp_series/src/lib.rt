//! A series of queries to a program, one after another, each with the units that those before it left.
#![tactic(auto)]

pub mod ask;
pub mod cores;
pub mod end;
pub mod find;
pub mod literals;
pub mod series;
pub mod solver;
