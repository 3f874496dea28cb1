//! What makes a proof right, what a right one shows, and the check of a proof.
#![tactic(auto)]

mod answers;
pub mod blocks;
pub mod bounds;
mod chase;
pub mod close;
pub mod confirm;
pub mod error;
mod found;
mod hints;
pub mod judge;
mod known;
pub mod laws;
mod levels;
pub mod lines;
pub mod loops;
mod members;
mod named;
pub mod nogoods;
mod open;
mod promise;
pub mod propagator;
mod root;
mod rows;
pub mod run;
mod scales;
mod seek;
pub mod set_list;
mod stream;
pub mod sweep;
pub mod watches;
pub mod weights;
