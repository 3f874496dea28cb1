//! The bound of a search for an optimum: which values can't lead to a smaller cost.
#![tactic(auto)]

mod before;
pub mod bound;
mod find;
pub mod given;
mod late;
pub mod laws;
mod levels;
mod lists;
mod near;
mod needed;
mod place;
mod priced;
mod raisers;
mod reach;
mod reasons;
mod rise;
mod starts;
mod sums;
mod weights;
