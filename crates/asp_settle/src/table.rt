//! Sets of atoms as tables of flags.
ghost use Rattle.std.specs.Prelude.{◌≡◌, ◌<◌, ◌≤◌, ◌+◌, ◌*◌, nat_lt, ℕ, false, length, replicate, slice_set, IfOk};
ghost use Rattle.asp_model.specs.Sets.{has};
ghost use Rattle.asp_settle.specs.Tables.{places_from};

use asp_model::interp::Interp;
use asp_model::program::Atom;
use std::alloc::{AllocError, Global};
use std::marker::Model;

/// How many places a table may have for each rule.
const PLACES_A_RULE: usize = 16;

/// A set of atoms as a table of flags.
#[derive(Drop)]
pub struct AtomTable {
    /// For each atom from 0 on whether it is in the set. Greater ones aren't.
    flags: Vec<bool>,
}

impl Model for AtomTable {
    ghost use Rattle.asp_model.specs.Sets.{Atoms};
    ghost use Rattle.asp_settle.specs.Tables.{places_from};
    ghost use Rattle.std.specs.Prelude.{◌≤◌, length};

    ghost Value = { Atoms };

    ghost view = { λ t. places_from 0 t.flags.items };

    ghost invariant = { λ t. length t.flags.items ≤ 4294967296 };
}

/// How many places the table of a program with so many rules has, where its atoms are below a number.
pub(crate) fn places(above: usize, rules: usize) -> usize
    requires few { rules ≤ 268435456 }
    requires most { above ≤ 4294967296 }
    ensures reaches { (a : ℕ) → a < above → nat_lt a result ≡ nat_lt a (16 * (rules + 1)) }
    ensures most { result ≤ 4294967296 }
{
    above.min(PLACES_A_RULE * (rules + 1))
}

pub(crate) fn set_flag(flags: &mut [bool], atom: Atom, up: bool)
    ensures { flags.new ≡ slice_set flags.old atom up }
{
    let place = atom as usize;
    if place < flags.len() {
        flags[place] = up;
    }
}

pub(crate) fn no_flags(alloc: Global, count: usize) -> Result<Vec<bool>, AllocError>
    ensures { IfOk result (λ flags. flags.items ≡ replicate count false) }
{
    vec![in alloc; false; count]
}

impl AtomTable {
    /// The atoms whose flags are up.
    pub(crate) fn from_flags(flags: Vec<bool>) -> AtomTable
        requires { length flags.items ≤ 4294967296 }
        ensures { result ≡ places_from 0 flags.items }
    {
        AtomTable { flags }
    }

    /// Whether the atom is in the set.
    pub fn has(&self, atom: Atom) -> bool
        ensures { result ≡ has self.now atom }
    {
        let place = atom as usize;
        place < self.flags.len() && self.flags[place]
    }

    /// The set.
    pub fn to_set(&self, alloc: Global) -> Result<Interp, AllocError>
        ensures { IfOk result (λ set. set ≡ self.now) }
    {
        let mut atoms = Vec::new(alloc);
        for (place, flag) in self.flags.as_slice().iter().enumerate() {
            if *flag {
                atoms.push(place as Atom)?;
            }
        }
        Ok(Interp::from_ascending(atoms))
    }
}
