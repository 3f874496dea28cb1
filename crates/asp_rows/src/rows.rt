//! Sets among the same atoms as rows of bits.
ghost use Rattle.std.specs.Prelude.{◌≡◌, ◌++◌, ◌∷◌, [], length, map, take, IfOk, OnOk, OnErr};
ghost use Rattle.asp_rows.specs.Bits.{IsAmong};
ghost use Rattle.asp_rows.specs.Listed.{IsRowOf, SortsSingle};

use crate::row::Row;
use asp_model::interp::Interp;
use std::alloc::{AllocError, Global};
use std::marker::Model;

/// Sets among the same atoms, each a row of bits. Contracts see the atoms and the list of the sets.
#[derive(Drop)]
pub struct Rows {
    /// The atoms.
    atoms: Interp,
    /// A row for each set.
    rows: Vec<Row>,
}

impl Model for Rows {
    ghost use Rattle.std.specs.Prelude.{map};
    ghost use Rattle.asp_rows.specs.Listed.{Listed, AreRows};
    ghost use Rattle.asp_rows.specs.declared.row.Row.{Row};

    ghost Value = { Listed };

    ghost view = { λ r. record { atoms = r.atoms; sets = map (λ (x : Row). x.set) r.rows.items } };

    ghost invariant = { λ r. AreRows r.atoms r.rows.items };
}

impl Rows {
    ghost use Rattle.asp_rows.specs.Listed.{AreRows};

    /// No sets.
    pub fn new(alloc: Global, atoms: Interp) -> Rows
        ensures { result ≡ record { atoms = atoms; sets = [] } }
    {
        Rows {
            atoms,
            rows: Vec::new(alloc),
        }
    }

    /// The atoms, ascending.
    pub fn atoms(&self) -> &Interp
        ensures { result.now ≡ self.now.atoms }
    {
        let _ = &self.rows;
        &self.atoms
    }

    /// How many sets there are.
    pub fn len(&self) -> usize
        ensures { result ≡ length self.now.sets }
    {
        self.rows.len()
    }

    /// A row for each set, in their order.
    pub fn as_slice(&self) -> &[Row]
        ensures sets { map (λ row. row.set) result.now ≡ self.now.sets }
        ensures rows { AreRows self.now.atoms result.now }
    {
        self.rows.as_slice()
    }

    /// A list of the sets.
    pub fn to_sets(&self, alloc: Global) -> Result<Vec<Interp>, AllocError>
        ensures { IfOk result (λ sets. sets.items ≡ self.now.sets) }
    {
        let atoms = self.atoms.as_slice();
        let mut sets = Vec::with_capacity(alloc, self.rows.len())?;
        for row in &self.rows {
            sets.push(row.to_set(alloc, atoms)?)?;
        }
        Ok(sets)
    }

    /// Adds a set at the end. Want of memory leaves all as it was.
    pub fn push(&mut self, alloc: Global, set: &Interp) -> Result<(), AllocError>
        requires { IsAmong self.old.atoms set.now }
        ensures ok { OnOk result (self.new ≡ record self.old { sets = self.old.sets ++ set.now ∷ [] }) }
        ensures err { OnErr result (self.new ≡ self.old) }
    {
        let row = Row::of(alloc, self.atoms.as_slice(), set)?;
        self.rows.push(row)?;
        Ok(())
    }

    /// Adds the set of a row among these atoms at the end. Want of memory leaves all as it was.
    pub fn push_row(&mut self, added: Row) -> Result<(), AllocError>
        requires { IsRowOf self.old.atoms added }
        ensures ok { OnOk result (self.new ≡ record self.old { sets = self.old.sets ++ added.set ∷ [] }) }
        ensures err { OnErr result (self.new ≡ self.old) }
    {
        self.rows.push(added)?;
        Ok(())
    }

    /// Keeps the first sets, so many, or all where there are fewer.
    pub fn truncate(&mut self, len: usize)
        ensures { self.new ≡ record self.old { sets = take len self.old.sets } }
    {
        self.rows.truncate(len);
    }

    /// Sorts the sets and drops repeats. It takes no memory.
    pub fn make_single(&mut self)
        ensures atoms { self.new.atoms ≡ self.old.atoms }
        ensures sets { SortsSingle self.old.sets self.new.sets }
    {
        // (Rows stand in the order of their sets because the atoms ascend.)
        let _ascending = self.atoms.as_slice();
        self.rows.sort_unstable();
        self.rows.dedup();
    }
}
