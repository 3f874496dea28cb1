//! The propagators of a program as one: weight bodies, the cost bound, and unfounded sets.
#![tactic(auto)]

pub mod laws;
pub mod propagators;
