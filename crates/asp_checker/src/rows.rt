//! The nogoods that are known while a proof's lines are judged.

use crate::bounds::Bound;
use crate::set_list::SetSlice;
use asp_vars::nogood::Lits;

/// The nogoods of the completion and of the lines.
#[derive(Drop)]
pub struct Rows {
    /// Those that are known for good.
    pub kept: Vec<Lits>,
    /// Those in places: each is known until another line takes its place.
    pub placed: Vec<Lits>,
}

/// All that is known before a line.
#[derive(Clone, Copy)]
pub struct Before<'a> {
    /// The sets found that are avoided.
    pub listed: &'a SetSlice<'a>,
    /// The nogoods that are known for good.
    pub kept: &'a [Lits],
    /// The nogoods in places.
    pub placed: &'a [Lits],
    /// The cost that is to be bettered.
    pub bound: &'a Option<Bound>,
}
