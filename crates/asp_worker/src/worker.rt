//! What a worker has, and what all workers share.
use asp_book::book::Book;
use asp_counts::tallies::Tallies;
use asp_model::results::Mode;
use asp_pool::{Lane, Pass, Pool};
use asp_recorder::scroll::Scroll;
use asp_slots::{Shelf, ShelfSeat};
use asp_vault::{Seat, Vault};
use std::alloc::Global;

/// What all workers share.
#[derive(Drop)]
pub struct Shared<'a> {
    /// Where each worker's search takes its memory.
    pub alloc: Global,
    /// What is sought.
    pub mode: Mode,
    /// How many different answers are enough. With 0 there is no limit.
    pub models: u64,
    /// How many workers there are, 1 to 64.
    pub workers: u32,
    /// The paths and what was recorded.
    pub book: Vault<Book>,
    /// The nogoods that the workers tell one another.
    pub log: Shelf,
    /// A way to each worker's lane.
    pub pool: Pool,
    /// What each worker did.
    pub tallies: Tallies,
    /// Where the lines of the run's proof go, if one is wanted.
    pub scroll: Option<&'a Scroll>,
}

/// What a worker brings to its work, and has again when it has ended. Its search lives in its thread alone.
#[derive(Drop)]
pub struct Worker {
    /// Its seat at the book. The number is 1 to 64.
    pub seat: Seat<Book>,
    /// Its seat at the log.
    pub pages: ShelfSeat,
    /// Where it offers paths.
    pub lane: Lane,
    /// With which it takes paths from the lanes of others.
    pub pass: Pass,
    /// Whether it ended for want of memory.
    pub short: bool,
}
