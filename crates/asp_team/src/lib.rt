//! Runs of many workers, side by side.
#![tactic(auto)]

mod crew;
mod lead;
pub mod many;
mod team;

pub use asp_counts::watch;
pub use asp_crew_laws::report;
pub use asp_worker::{gate, halt};
