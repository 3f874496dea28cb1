//! Writes a program's answers to a sink as they are heard.
#![tactic(auto)]

mod closing;
mod laws;
mod listing;
mod outlet;
mod reader;

pub use listing::Listing;
pub use outlet::Outlet;
pub use reader::Reader;
