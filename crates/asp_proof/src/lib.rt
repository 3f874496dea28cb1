//! The text of a proof: what a finished run says to whoever checks it.
#![tactic(auto)]

pub mod changes;
mod error;
mod fields;
pub mod laws;
pub mod lines;
pub mod proof;
mod reader;
mod write;

pub use error::ProofError;
pub use reader::LineReader;
pub use write::{put_field, put_head, put_lines, put_list, write_proof};
