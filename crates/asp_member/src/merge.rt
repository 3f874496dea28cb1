//! Two ascending lists read side by side.
ghost use Rattle.std.specs.Prelude.{◌≡◌, ℕ, ◌<◌, ◌≤◌, IsTrue, length, slice_index};
ghost use Rattle.asp_model.specs.Sets.{IsAscending, has};
ghost use Rattle.asp_found.specs.Merges.{IsReached};

use asp_model::program::Atom;

/// The first place from this one on whose atom isn't below the given one.
pub fn skip(atoms: &[Atom], from: usize, atom: Atom) -> usize
    requires within { from ≤ length atoms.now }
    requires before { (k : ℕ) → k < from → slice_index atoms.now k < atom }
    ensures { IsReached atoms.now result atom }
{
    for place in from..atoms.len() {
        if atoms[place] >= atom {
            return place;
        }
    }
    atoms.len()
}

/// Whether the atom stands at the place up to which those below it were skipped.
pub fn stands_at(atoms: &[Atom], place: usize, atom: Atom) -> bool
    requires ascending { IsAscending atoms.now }
    requires reached { IsReached atoms.now place atom }
    ensures has { result ≡ has atoms.now atom }
    ensures here { IsTrue result → (place < length atoms.now) × (slice_index atoms.now place ≡ atom) }
{
    place < atoms.len() && atoms[place] == atom
}
