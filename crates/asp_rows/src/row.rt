//! A set among some atoms as a row of bits.
ghost use Rattle.std.specs.Prelude.{◌≡◌, ◌*◌, ◌^◌, ◌<◌, ◌≤◌, ℕ, length, map, slice_index, IfOk};
ghost use Rattle.asp_model.specs.Sets.{IsAscending, has};
ghost use Rattle.asp_rows.specs.Bits.{encode, value, IsBitAt};

use crate::bits::{Bit, bit_at, bit_of};
use crate::place::{begin, find, reaches};
use asp_model::interp::Interp;
use asp_model::program::Atom;
use asp_vars::snapshot::Snapshot;
use smallvec::SmallVec;
use std::alloc::{AllocError, Global};

/// A set among some atoms: a bit for each of them. Rows among the same atoms stand in the order of their sets.
#[derive(Drop)]
#[derive_where(PartialEq, Eq, PartialOrd, Ord)]
pub struct Row {
    /// 64 bits a word, of the last word as many as are left: of the first atom the highest. Two words need no memory of their own.
    pub words: SmallVec<u64, 2>,
    /// The set, as a fact without bytes.
    #[derive_where(skip)]
    pub set: Snapshot<Interp>,
}

// A word with so many zeros behind it.
fn shift(word: u64, zeros: usize) -> u64
    requires few { zeros < 64 }
    requires room { word * 2 ^ zeros < 2 ^ 64 }
    ensures { result ≡ word * 2 ^ zeros }
{
    word << zeros
}

// The same, where it may have no other bits.
fn with_zeros(word: u64, zeros: usize) -> u64
    requires few { zeros ≤ 64 }
    requires room { word * 2 ^ zeros < 2 ^ 64 }
    ensures { result ≡ word * 2 ^ zeros }
{
    if zeros == 64 { 0 } else { shift(word, zeros) }
}

// The bits of at most 64 atoms, by the set's own atoms. The place is where the set's first atom is looked for that isn't below
// these, and moves behind the last one that isn't above them: any place will do.
fn word(set: &[Atom], atoms: &[Atom], place: &mut usize) -> u64
    requires set { IsAscending set.now }
    requires ascending { IsAscending atoms.now }
    requires some { 0 < length atoms.now }
    requires few { length atoms.now ≤ 64 }
    ensures { result ≡ value (map (has set.now) atoms.now) }
{
    let last = atoms[atoms.len() - 1];
    let mut next = begin(set, *place, atoms[0]);
    let mut word = 0;
    let mut from = 0;
    while reaches(set, next, last) {
        let at = find(atoms, from, set[next]);
        word = shift(word, at - from);
        from = at;
        if atoms[at] == set[next] {
            word = 2 * word + 1;
            from = at + 1;
        }
        next += 1;
    }
    *place = next;
    with_zeros(word, atoms.len() - from)
}

impl Row {
    ghost use Rattle.asp_rows.specs.Listed.{IsRowOf};

    /// The row of a set.
    pub fn of(alloc: Global, atoms: &[Atom], set: &Interp) -> Result<Row, AllocError>
        requires { IsAscending atoms.now }
        ensures words { IfOk result (λ row. row.words.items ≡ encode atoms.now set.now) }
        ensures set { IfOk result (λ row. row.set ≡ set.now) }
    {
        let mut words = SmallVec::with_capacity(alloc, atoms.len().div_ceil(64))?;
        let mut place = 0;
        let mut from = 0;
        while from < atoms.len() {
            let to = from + (atoms.len() - from).min(64);
            words.push(word(set.as_slice(), &atoms[from..to], &mut place))?;
            from = to;
        }
        Ok(Row {
            words,
            set: Snapshot::of(set),
        })
    }

    /// Whether the set has the atom of this bit, which is one of these atoms.
    pub fn has(&self, atoms: &[Atom], bit: Bit) -> bool
        requires row { IsRowOf atoms.now self.now }
        requires bit { (place : ℕ) × IsBitAt (length atoms.now) place bit }
        ensures { (place : ℕ) → IsBitAt (length atoms.now) place bit → result ≡ has self.now.set (slice_index atoms.now place) }
    {
        let _ = atoms;
        (self.words.as_slice()[bit.word] >> bit.behind) % 2 == 1
    }

    /// Whether the atom is in the set.
    pub fn has_atom(&self, atoms: &[Atom], atom: Atom) -> bool
        requires row { IsRowOf atoms.now self.now }
        requires ascending { IsAscending atoms.now }
        ensures { result ≡ has self.now.set atom }
    {
        match bit_of(atoms, atom) {
            Some(bit) => self.has(atoms, bit),
            None => false,
        }
    }

    /// The set as the list of its atoms.
    pub(crate) fn to_set(&self, alloc: Global, atoms: &[Atom]) -> Result<Interp, AllocError>
        requires row { IsRowOf atoms.now self.now }
        requires ascending { IsAscending atoms.now }
        ensures { IfOk result (λ set. set ≡ self.now.set) }
    {
        let mut set = Vec::new(alloc);
        for place in 0..atoms.len() {
            if self.has(atoms, bit_at(atoms.len(), place)) {
                set.push(atoms[place])?;
            }
        }
        Ok(Interp::from_ascending(set))
    }
}
