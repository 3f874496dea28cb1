//! Parts of a program, and what is known of them.
use asp_core::entry::Entry;
use asp_rows::rows::Rows;
use asp_split::leaf::Leaf;

/// The answers of a part.
#[derive(Drop)]
pub(crate) struct Found {
    /// The answers, in order.
    pub rows: Rows,
    /// The entry of each answer's delivery.
    pub entries: Vec<Entry>,
}

/// A part.
#[derive(Drop)]
pub(crate) struct Part {
    /// Its literals, and by which atom it can be divided.
    pub leaf: Leaf,
    /// Its answers, if it was searched.
    pub found: Option<Found>,
    /// How often it was given up where it couldn't be divided. A measure for the policy alone.
    pub tries: u32,
}
