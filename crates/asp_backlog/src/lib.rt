//! The answers of a search that were found and can't be told yet, since a smaller one may still come.
#![tactic(auto)]

pub mod backlog;
pub mod laws;
