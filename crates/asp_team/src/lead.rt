//! What the main thread has of a team.
use asp_book::book::Book;
use asp_slots::ShelfSeat;
use asp_vault::Seat;

/// The main thread's own seats, to which those of its workers come back.
#[derive(Drop)]
pub struct Lead {
    /// Its seat at the book, the first.
    pub seat: Seat<Book>,
    /// Its seat at the log, the first.
    pub pages: ShelfSeat,
    /// Whether a worker that has come back had ended for want of memory.
    pub short: bool,
}
