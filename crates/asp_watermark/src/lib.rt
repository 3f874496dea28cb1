//! Which answers of a search are complete while it goes on: those below its watermark.
#![tactic(auto)]

pub mod laws;
