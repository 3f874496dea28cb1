//! A row of slots for learnt nogoods, to which many searches add and from which they read.
//!
//! A word counts the numbers that were drawn. A seat that draws a number is the only one that fills the slot with that
//! number, and a reader waits until it is filled. No lock is held meanwhile.
//!
//! A shelf is a log of either kind, this one or that of blocks.
#![tactic(auto)]

mod block_log;
mod calls;
mod law;
mod row;
mod shelf;
mod shown;
mod slot;
mod view;

pub use block_log::BlockLog;
pub use calls::{RowFull, append, read};
pub use row::{Row, RowSeat};
pub use shelf::{Shelf, ShelfSeat};
pub use shown::Shown;
pub use slot::{Placed, Stored};
pub use view::View;
