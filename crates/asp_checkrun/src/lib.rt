//! The checker of proofs from its arguments to what it writes.
#![tactic(auto)]

mod gather;
mod notes;
mod runs;
mod status;
mod texts;
mod words;

pub use gather::collect_words;
pub use runs::{end_without_words, run};
pub use status::Status;
