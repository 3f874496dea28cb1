//! Lanes of offered leaves: each worker offers on a lane of its own, and every worker takes from any lane.
#![tactic(auto)]

mod lane;
mod once;
mod pool;

pub use lane::Lane;
pub use once::{Leaf, Once, Share, Take};
pub use pool::{Pass, Pool, Stolen};
