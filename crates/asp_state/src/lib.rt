//! What a search has on its trail under a cube: the cube, its decisions, and what follows.
#![tactic(auto)]

pub mod assume;
pub mod begun;
pub mod completed;
mod preferred;
pub mod state;
mod unlisted;
