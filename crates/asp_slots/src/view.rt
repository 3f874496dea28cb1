//! What a seat knows.
use std::collections::LinkedList;

/// What a seat knows, for contracts: no value of it is made.
pub struct View {
    /// How many numbers were drawn when it last looked.
    pub seen: u64,
    /// The numbers that it drew, the last first.
    pub own: LinkedList<u64>,
}
