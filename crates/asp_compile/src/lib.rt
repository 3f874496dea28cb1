//! What compiling makes of a program: the tables of its variables.
#![tactic(auto)]

mod barred;
mod bodies;
pub mod compile;
mod form;
mod heads;
mod held;
mod names;
mod numbered;
mod rules;
mod tables;
