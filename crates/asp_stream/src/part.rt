//! The open leaves that wait to be worked on.
ghost use Rattle.std.specs.Prelude.{◌≡◌, false, Some, IsTrue};
ghost use Rattle.std.specs.List.{AllByRecursion};
ghost use Rattle.asp_model.specs.Sets.{IsAscending};
ghost use Rattle.asp_rows.specs.Listed.{IsRowOf};
ghost use Rattle.asp_watermark.specs.Floors.{is_below};

use asp_backlog::backlog::is_before;
use asp_model::program::Atom;
use asp_path::tree::Leaf;
use asp_rows::row::Row;

/// An open leaf.
#[derive(Drop)]
pub(crate) struct Part {
    /// The leaf.
    pub leaf: Leaf,
    /// A set of atoms that each answer has which is still to come there.
    pub low: Row,
    /// So many of the answers that wait lie in it. A measure for the policy alone.
    pub own: usize,
    /// By so much its limit is raised. A measure for the policy alone.
    pub factor: usize,
}

/// Whether no part's low comes before the row.
pub(crate) fn none_before(parts: &[Part], row: &Row, atoms: &[Atom]) -> bool
    requires ascending { IsAscending atoms.now }
    requires row { IsRowOf atoms.now row.now }
    requires parts { AllByRecursion (λ p. IsRowOf atoms.now p.low) parts.now }
    ensures { IsTrue result → AllByRecursion (λ p. is_below (Some row.now.set) p.low.set ≡ false) parts.now }
{
    for part in parts {
        if is_before(&part.low, row, atoms) {
            return false;
        }
    }
    true
}
