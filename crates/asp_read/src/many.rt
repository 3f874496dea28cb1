//! Many fields of one kind.
ghost use Rattle.std.specs.Prelude.{◌≡◌, List, ℕ, length, map, IfOk};
ghost use Rattle.asp_model.specs.Sets.{Atoms, with_atom, with_atoms};
ghost use Rattle.asp_model.specs.Holding.{atom_of};
ghost use Rattle.asp_read.specs.Gives.{Gives};
ghost use Rattle.asp_read.specs.Fields.{Reads, atom_at, literal_at, weighted_at, weighted_atom, many_at};

use crate::error::LineError;
use crate::field::{atom, literal, weighted};
use crate::known::KnownAtoms;
use asp_model::program::Atom;
use asp_model::seq::Seq;
use std::alloc::Global;

/// A kind of field, or of two, with one atom.
pub trait Entry {
    type Item: Drop;

    /// What stands at the front of a line, where these atoms are known, and what follows it.
    ghost entry_at: { Self → Atoms → List ℕ → Reads Self.Item };

    /// The item's atom.
    ghost entry_atom: { Self → Self.Item → ℕ };

    fn read<'a>(
        &self,
        line: &'a [u8],
        known: &mut KnownAtoms,
    ) -> Result<(Self::Item, &'a [u8]), LineError>
        ensures item { Gives (λ x. (x.0, x.1.now)) result (entry_at self.now known.old line.now) }
        ensures known { IfOk result (λ x. known.new ≡ with_atom (entry_atom self.now x.0) known.old) };
}

#[derive(Clone, Copy)]
pub struct Atoms;

impl Entry for Atoms {
    type Item = Atom;

    ghost entry_at = { λ _. atom_at };

    ghost entry_atom = { λ _ atom. atom };

    fn read<'a>(
        &self,
        line: &'a [u8],
        known: &mut KnownAtoms,
    ) -> Result<(Atom, &'a [u8]), LineError> {
        atom(line, known)
    }
}

#[derive(Clone, Copy)]
pub struct Literals;

impl Entry for Literals {
    type Item = i32;

    ghost entry_at = { λ _. literal_at };

    ghost entry_atom = { λ _. atom_of };

    fn read<'a>(
        &self,
        line: &'a [u8],
        known: &mut KnownAtoms,
    ) -> Result<(i32, &'a [u8]), LineError> {
        literal(line, known)
    }
}

/// Literals with a weight of at least this.
#[derive(Clone, Copy)]
pub struct Weights(pub i32);

impl Entry for Weights {
    type Item = (i32, i32);

    ghost entry_at = { λ w. weighted_at w.0 };

    ghost entry_atom = { λ _. weighted_atom };

    fn read<'a>(
        &self,
        line: &'a [u8],
        known: &mut KnownAtoms,
    ) -> Result<((i32, i32), &'a [u8]), LineError> {
        weighted(line, self.0, known)
    }
}

// For how many items room is made at first: no more than their count, and than the line has bytes for, but for a few.
fn places(count: u32, line: &[u8]) -> usize {
    (count as usize).min(line.len() / 4 + 2)
}

pub fn many<'a, E: Entry>(
    alloc: Global,
    entry: &E,
    count: u32,
    line: &'a [u8],
    known: &mut KnownAtoms,
) -> Result<(Seq<E::Item>, &'a [u8]), LineError>
    ensures items { Gives (λ x. (x.0, x.1.now)) result (many_at (E.entry_atom entry.now) (E.entry_at entry.now) count known.old line.now) }
    ensures len { IfOk result (λ x. length x.0 ≡ count) }
    ensures known { IfOk result (λ x. known.new ≡ with_atoms known.old (map (E.entry_atom entry.now) x.0)) }
{
    let mut items = Vec::with_capacity(alloc, places(count, line))?;
    let mut rest = line;
    for _ in 0..count {
        let (item, after) = entry.read(rest, known)?;
        items.push(item)?;
        rest = after;
    }
    Ok((Seq::from_vec(items), rest))
}
