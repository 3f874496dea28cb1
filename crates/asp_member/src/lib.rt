//! Whether a set is a stable model, for the checker of proofs.
#![tactic(auto)]

pub mod merge;
mod order;
pub mod stable;
pub mod weighing;
