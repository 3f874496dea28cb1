//! A trail with all that follows it: the store of nogoods, and a propagator.
#![tactic(auto)]

pub mod engine;
pub mod laws;
pub mod locks;
pub mod propagator;
pub mod rounds;
pub mod telling;
