//! The results of a run as JSON.
#![tactic(auto)]

mod answers;
mod cores;
mod entries;
mod laws;
mod lists;
mod quoting;
mod text;

pub use entries::{Sums, print_entry, print_opening, print_sums};
pub use laws::quoted_text_is_read_back;
pub use text::print_json;
