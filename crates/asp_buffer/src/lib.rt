//! Bytes on their way to a sink.
#![tactic(auto)]

mod buffer;

pub use buffer::{ROOM, Waiting, flush, put, put_number};
