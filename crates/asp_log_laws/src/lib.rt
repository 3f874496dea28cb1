//! What holds of a log when several threads add to it.
#![tactic(auto)]

pub mod together;
