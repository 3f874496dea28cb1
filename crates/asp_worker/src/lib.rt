//! What one of several workers does: it takes paths of the search from the book or from another worker's lane, searches them, splits
//! them where others have none, and ends when no path is left.
#![tactic(auto)]

mod engine;
mod find;
pub mod gate;
mod gather;
pub mod halt;
mod path;
mod share;
mod sharing;
mod stop;
pub mod work;
pub mod worker;
mod writing;
