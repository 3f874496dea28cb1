//! Leaves: cubes that stand for the answers under them.

use asp_model::program::Atom;
use asp_model::seq::Seq;

/// A part of the program's answers.
#[derive(Drop)]
pub struct Leaf {
    /// The literals, as in an aspif text, that the part's answers meet besides the assumptions.
    pub cube: Seq<i32>,
    /// The least atom that propagation leaves open, by which the part is divided; none where no atom is open.
    pub next: Option<Atom>,
    /// How many variables propagation leaves open, at most 2147483647.
    pub width: usize,
}
