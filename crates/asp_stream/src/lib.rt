//! One search that tells its answers in their order while it goes on.
//!
//! What a search finds comes in any order. This crate tells an answer as soon as no smaller one can come: those found wait until the
//! floor passes them, the least set that an answer still to come may be. Then they are told and forgotten, so memory doesn't grow
//! with their number.
#![tactic(auto)]

mod leaf;
mod low;
mod pace;
mod part;
mod run;
mod stream;
mod told;
mod waiting;

pub use run::{stream_alone, stream_ties};
pub use told::{End, Told, into_joined, into_report};
