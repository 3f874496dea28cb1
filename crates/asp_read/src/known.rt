//! The atoms that stood so far.
ghost use Rattle.std.specs.Prelude.{◌≡◌, ℕ, [], length, slice_index, IfOk, OnOk};
ghost use Rattle.asp_model.specs.Sets.{with_atom};
ghost use Rattle.asp_read.specs.Gives.{Gives};
ghost use Rattle.asp_read.specs.Fields.{room_for};

use crate::atom_set::AtomSet;
use crate::error::{LineError, broken};
use crate::fault::FaultKind;
use asp_model::program::Atom;
use std::alloc::{AllocError, Global};
use std::marker::Model;

/// The most different atoms of a program.
const MOST_ATOMS: u32 = 1_000_000;

/// How many atoms are found at once.
const RECENT_PLACES: u32 = 1 << 20;

/// The least atom that has no mark of 8 bits.
const FIRST_UNMARKED: u32 = 255 * RECENT_PLACES;

/// How many places the table of atoms may have for each atom that stood. Each took two bytes of the text at least, so the
/// table has at most 32 places for each byte that was read, whatever number stood there.
const PLACES_AN_ATOM: u32 = 64;

/// How many places the table of atoms has at most.
const MOST_PLACES: u32 = 1 << 21;

/// A set of atoms. Each atom but the greatest has a place of a fixed number of them, and a mark that tells it from the
/// others of its place. A place has the mark of the atom that was last asked for there, or 0: that atom is found by one
/// comparison, and so is one that stands in the table of atoms.
#[derive(Drop)]
pub struct KnownAtoms {
    /// The set.
    atoms: AtomSet,
    /// At each place the mark of the atom that was last asked for there, or 0.
    recent: Vec<u8>,
    /// How many atoms the set has.
    count: u32,
}

impl Model for KnownAtoms {
    ghost use Rattle.asp_model.specs.Sets.{Atoms};
    ghost use Rattle.asp_read.specs.Known.{IsKnown};

    ghost Value = { Atoms };

    ghost view = { λ s. s.atoms };

    ghost invariant = { λ s. IsKnown s.atoms s.recent.items s.count };
}

impl KnownAtoms {
    pub fn new(alloc: Global) -> Result<Self, AllocError>
        ensures { IfOk result (λ known. known ≡ []) }
    {
        let recent = zeros(alloc, RECENT_PLACES as usize)?;
        Ok(KnownAtoms {
            atoms: AtomSet::new(alloc),
            recent,
            count: 0,
        })
    }

    /// Takes an atom, unless it would be one too many. The line is that from the atom's field on.
    pub fn take(&mut self, atom: Atom, line: &[u8]) -> Result<(), LineError>
        ensures room { Gives (λ u. u) result (room_for self.old atom line.now) }
        ensures taken { OnOk result (self.new ≡ with_atom atom self.old) }
    {
        if self.atoms.is_near(atom) {
            return Ok(());
        }
        if atom >= FIRST_UNMARKED {
            return self.take_unless_full(atom, line);
        }
        let place = (atom % RECENT_PLACES) as usize;
        let mark = (atom / RECENT_PLACES + 1) as u8;
        if self.recent[place] == mark {
            return Ok(());
        }
        self.take_unless_full(atom, line)?;
        self.recent[place] = mark;
        Ok(())
    }

    fn take_unless_full(&mut self, atom: Atom, line: &[u8]) -> Result<(), LineError>
        ensures room { Gives (λ u. u) result (room_for self.old atom line.now) }
        ensures taken { OnOk result (self.new ≡ with_atom atom self.old) }
    {
        if self.atoms.has(atom) {
            return Ok(());
        }
        if self.count >= MOST_ATOMS {
            return Err(broken(FaultKind::Atoms, line));
        }
        self.atoms.insert(atom, reach(self.count))?;
        self.count += 1;
        Ok(())
    }
}

// How many places the table of atoms may have for the next atom, where so many stood.
fn reach(count: u32) -> u32 {
    let places = count.saturating_add(1).saturating_mul(PLACES_AN_ATOM);
    places.min(MOST_PLACES)
}

fn zeros(alloc: Global, count: usize) -> Result<Vec<u8>, AllocError>
    ensures zeros { IfOk result (λ v. (k : ℕ) → slice_index v.items k ≡ 0) }
    ensures len { IfOk result (λ v. length v.items ≡ count) }
{
    vec![in alloc; 0; count]
}
