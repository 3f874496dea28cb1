//! What a run writes down of its proof.
#![tactic(auto)]

mod finds;
mod places;
pub mod recorder;
pub mod scroll;
mod state;
pub mod tape;
