//! An answer with its row.

use asp_model::interp::Interp;
use asp_rows::row::Row;

/// An answer that was found, with its row, which is made before the book is taken.
#[derive(Drop)]
pub struct Listing {
    /// Its row among the program's atoms.
    pub row: Row,
    /// Its atoms.
    pub set: Interp,
}
