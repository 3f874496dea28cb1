//! Sets in a list, each kept as a row of bits: 8 bytes for each 64 of the program's atoms, however many the set has.
ghost use Rattle.std.specs.Prelude.{◌≡◌, ◌^◌, ◌<◌, ◌++◌, ◌∷◌, [], length, map, slice_index_or, IfOk, OnOk, OnErr};
ghost use Rattle.asp_model.specs.Models.{atoms_of};
ghost use Rattle.asp_model.specs.Sets.{IsAscending, has};
ghost use Rattle.asp_proof.specs.Changes.{last_of};
ghost use Rattle.asp_rows.specs.Bits.{IsAmong};
ghost use Rattle.asp_rows.specs.Listed.{AreRows, IsRowOf};

use asp_model::interp::Interp;
use asp_model::program::Atom;
use asp_rows::bits::bit_at;
use asp_rows::row::Row;
use asp_rows::rows::Rows;
use asp_vars::compiled::Compiled;
use std::alloc::{AllocError, Global};
use std::marker::Model;

/// Sets of some atoms in a list, each a row of bits. Contracts see the atoms and the list of the sets.
#[derive(Drop)]
pub struct SetList {
    /// The sets.
    rows: Rows,
    /// The first one, by which costs are judged, as the list of its atoms; the empty set where there is none.
    first: Interp,
    /// The last one, by which the next is told.
    last: Interp,
}

impl Model for SetList {
    ghost use Rattle.std.specs.Prelude.{◌≡◌, [], slice_index_or};
    ghost use Rattle.asp_proof.specs.Changes.{last_of};
    ghost use Rattle.asp_rows.specs.Listed.{Listed};

    ghost Value = { Listed };

    ghost view = { λ l. l.rows };

    ghost invariant = { λ l. (l.first ≡ slice_index_or l.rows.sets 0 []) × (l.last ≡ last_of l.rows.sets) };
}

impl SetList {
    /// No sets of the program's atoms.
    pub(crate) fn new(alloc: Global, compiled: &Compiled) -> Result<SetList, AllocError>
        ensures { IfOk result (λ list. list ≡ record { atoms = atoms_of compiled.now; sets = [] }) }
    {
        let atoms = compiled.atoms().copy()?;
        Ok(SetList {
            rows: Rows::new(alloc, atoms),
            first: Interp::new(alloc),
            last: Interp::new(alloc),
        })
    }

    /// How many sets there are: fewer than any memory has bits.
    pub(crate) fn len(&self) -> usize
        ensures count { result ≡ length self.now.sets }
        ensures few { result < 2 ^ 62 }
    {
        let _ = &self.last;
        self.rows.as_slice().len()
    }

    /// The first set; the empty set where there is none.
    pub(crate) fn first(&self) -> &Interp
        ensures { result.now ≡ slice_index_or self.now.sets 0 [] }
    {
        let _ = &self.rows;
        &self.first
    }

    /// The last set; the empty set where there is none.
    pub(crate) fn last(&self) -> &Interp
        ensures { result.now ≡ last_of self.now.sets }
    {
        let _ = &self.rows;
        &self.last
    }

    /// The atoms, ascending.
    pub(crate) fn atoms(&self) -> &Interp
        ensures { result.now ≡ self.now.atoms }
    {
        let _ = &self.last;
        self.rows.atoms()
    }

    /// A row for each set, in their order.
    pub(crate) fn rows(&self) -> &[Row]
        ensures sets { map (λ row. row.set) result.now ≡ self.now.sets }
        ensures rows { AreRows self.now.atoms result.now }
    {
        let _ = &self.last;
        self.rows.as_slice()
    }

    /// Adds a set at the end. Want of memory leaves all as it was.
    pub(crate) fn push(&mut self, alloc: Global, set: Interp) -> Result<(), AllocError>
        requires { IsAmong self.old.atoms set }
        ensures ok { OnOk result (self.new ≡ record self.old { sets = self.old.sets ++ set ∷ [] }) }
        ensures err { OnErr result (self.new ≡ self.old) }
    {
        if self.rows.len() == 0 {
            return self.push_first(alloc, set);
        }
        self.rows.push(alloc, &set)?;
        self.last = set;
        Ok(())
    }

    // The same, where there is no set yet.
    fn push_first(&mut self, alloc: Global, set: Interp) -> Result<(), AllocError>
        requires none { self.old.sets ≡ [] }
        requires among { IsAmong self.old.atoms set }
        ensures ok { OnOk result (self.new ≡ record self.old { sets = set ∷ [] }) }
        ensures err { OnErr result (self.new ≡ self.old) }
    {
        let first = set.copy()?;
        self.rows.push(alloc, &set)?;
        self.first = first;
        self.last = set;
        Ok(())
    }
}

/// Sets of a list, some of them or none. Contracts see the list of these.
#[derive(Drop)]
pub struct SetSlice<'a> {
    /// The atoms among which the sets are, ascending.
    atoms: &'a [Atom],
    /// A row for each set.
    rows: &'a [Row],
}

impl<'a> Model for SetSlice<'a> {
    ghost use Rattle.std.specs.Prelude.{List, map};
    ghost use Rattle.asp_model.specs.Sets.{Atoms, IsAscending};
    ghost use Rattle.asp_rows.specs.Listed.{AreRows};
    ghost use Rattle.asp_rows.specs.declared.row.Row.{Row};

    ghost Value = { List Atoms };

    ghost view = { λ s. map (λ (row : Row). row.set) s.rows.now };

    ghost invariant = { λ s. IsAscending s.atoms.now × AreRows s.atoms.now s.rows.now };
}

impl<'a> SetSlice<'a> {
    /// All sets of a list.
    pub(crate) fn all(list: &'a SetList) -> SetSlice<'a>
        ensures { result ≡ list.now.sets }
    {
        SetSlice {
            atoms: list.atoms().as_slice(),
            rows: list.rows(),
        }
    }

    /// No sets.
    pub(crate) fn none() -> SetSlice<'a>
        ensures { result ≡ [] }
    {
        SetSlice {
            atoms: &[],
            rows: &[],
        }
    }

    /// How many sets there are.
    pub(crate) fn len(&self) -> usize
        ensures { result ≡ length self.now }
    {
        let _ = &self.atoms;
        self.rows.len()
    }

    /// Whether the set at a place has the atom, which mostly stands at this one of the places of the list's atoms.
    pub(crate) fn has(&self, place: usize, at: usize, atom: Atom) -> bool
        requires { place < length self.now }
        ensures { result ≡ has (slice_index_or self.now place []) atom }
    {
        has_at(self.atoms, &self.rows[place], at, atom)
    }
}

// Whether a row's set has the atom, which mostly stands at this place of the atoms.
fn has_at(atoms: &[Atom], row: &Row, at: usize, atom: Atom) -> bool
    requires ascending { IsAscending atoms.now }
    requires row { IsRowOf atoms.now row.now }
    ensures { result ≡ has row.now.set atom }
{
    if at < atoms.len() && atoms[at] == atom {
        return row.has(atoms, bit_at(atoms.len(), at));
    }
    row.has_atom(atoms, atom)
}
