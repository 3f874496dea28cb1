//! The exact check of answers, with memory that is kept from one to the next.
#![tactic(auto)]

pub mod checker;
mod derive;
mod holding;
mod order;
mod ranks;
