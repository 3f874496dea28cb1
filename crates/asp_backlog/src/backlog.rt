//! The answers that were found and can't be told yet.
ghost use Rattle.std.specs.Prelude.{◌≡◌, [], filter, length, map, not, IfOk, OnErr, OnOk, Some};
ghost use Rattle.asp_model.specs.Sets.{IsAscending};
ghost use Rattle.asp_rows.specs.Bits.{IsAmong};
ghost use Rattle.asp_rows.specs.Listed.{AreRows, IsRowOf};
ghost use Rattle.asp_watermark.specs.Floors.{is_below};
ghost use Rattle.asp_backlog.specs.Backlogs.{BeginsBelow, PopsBelow, with_waiting};

use asp_model::interp::Interp;
use asp_model::program::Atom;
use asp_rows::row::Row;
use asp_rows::rows::Rows;
use std::alloc::{AllocError, Global};
use std::cmp::Ordering;
use std::collections::BTreeSet;
use std::marker::Model;

/// The different answers that were found and aren't below the floor, in their order. Contracts see the program's atoms, the floor and
/// those answers.
#[derive(Drop)]
pub struct Backlog {
    /// Where memory comes from.
    alloc: Global,
    /// The program's atoms, ascending.
    atoms: Interp,
    /// The floor. All that comes before it was told.
    floor: Row,
    /// The answers.
    rows: BTreeSet<Row>,
}

impl Model for Backlog {
    ghost use Rattle.asp_backlog.specs.Backlogs.{Pending};

    ghost Value = { Pending };

    ghost use Rattle.asp_backlog.specs.Stored.{IsBacklog, pending_of};

    ghost view = { pending_of };

    ghost invariant = { IsBacklog };
}

/// Whether the row's set comes before the other's, both among these atoms.
pub fn is_before(row: &Row, floor: &Row, atoms: &[Atom]) -> bool
    requires ascending { IsAscending atoms.now }
    requires row { IsRowOf atoms.now row.now }
    requires floor { IsRowOf atoms.now floor.now }
    ensures { result ≡ is_below (Some floor.now.set) row.now.set }
{
    let _ = atoms;
    match row.cmp(floor) {
        Ordering::Less => true,
        Ordering::Equal => false,
        Ordering::Greater => false,
    }
}

// Whether the first row's set comes before the floor.
fn begins_below(rows: &BTreeSet<Row>, floor: &Row, atoms: &[Atom]) -> bool
    requires ascending { IsAscending atoms.now }
    requires rows { AreRows atoms.now rows.now.keys }
    requires floor { IsRowOf atoms.now floor.now }
    ensures { BeginsBelow floor.now.set rows.now.keys result }
{
    match rows.first() {
        Some(row) => is_before(row, floor, atoms),
        None => false,
    }
}

// Takes out the first row, if its set comes before the floor.
fn pop_below(rows: &mut BTreeSet<Row>, floor: &Row, atoms: &[Atom]) -> Option<Row>
    requires ascending { IsAscending atoms.now }
    requires rows { AreRows atoms.now rows.old.keys }
    requires floor { IsRowOf atoms.now floor.now }
    ensures { PopsBelow floor.now.set rows.old.keys rows.new.keys result }
{
    if begins_below(rows, floor, atoms) {
        rows.pop_first()
    } else {
        None
    }
}

// Takes out all rows whose sets come before the floor, in their order.
fn take_below(rows: &mut BTreeSet<Row>, floor: &Row, taken: &mut Rows) -> Result<(), AllocError>
    requires rows { AreRows taken.old.atoms rows.old.keys }
    requires floor { IsRowOf taken.old.atoms floor.now }
    requires none { taken.old.sets ≡ [] }
    ensures taken { OnOk result (taken.new ≡ record taken.old { sets = filter (is_below (Some floor.now.set)) (map (λ row. row.set) rows.old.keys) }) }
    ensures rest { OnOk result (map (λ row. row.set) rows.new.keys ≡ filter (λ S. not (is_below (Some floor.now.set) S)) (map (λ row. row.set) rows.old.keys)) }
    ensures rows { AreRows taken.old.atoms rows.new.keys }
{
    'taking: loop {
        match pop_below(rows, floor, taken.atoms().as_slice()) {
            None => return Ok(()),
            Some(row) => taken.push_row(row)?,
        }
    }
}

// Takes out all rows.
fn take_all(mut rows: BTreeSet<Row>, taken: &mut Rows) -> Result<(), AllocError>
    requires rows { AreRows taken.old.atoms rows.keys }
    requires none { taken.old.sets ≡ [] }
    ensures { OnOk result (taken.new ≡ record taken.old { sets = map (λ row. row.set) rows.keys }) }
{
    'taking: loop {
        match rows.pop_first() {
            None => return Ok(()),
            Some(row) => taken.push_row(row)?,
        }
    }
}

impl Backlog {
    /// No answer waits, and none is below the floor.
    pub fn new(alloc: Global, atoms: &Interp) -> Result<Backlog, AllocError>
        ensures { IfOk result (λ b. b ≡ record { atoms = atoms.now; floor = []; sets = [] }) }
    {
        let atoms = atoms.copy()?;
        let floor = Row::of(alloc, atoms.as_slice(), &Interp::new(alloc))?;
        Ok(Backlog {
            alloc,
            atoms,
            floor,
            rows: BTreeSet::new(alloc),
        })
    }

    /// How many answers wait.
    pub fn len(&self) -> usize
        ensures { result ≡ length self.now.sets }
    {
        let _ = &self.floor;
        self.rows.len()
    }

    /// The answers that wait, a row for each, in their order.
    pub fn rows(&self) -> &BTreeSet<Row>
        ensures { map (λ row. row.set) result.now.keys ≡ self.now.sets }
    {
        let _ = &self.floor;
        &self.rows
    }

    /// Whether the row's set comes before the floor.
    pub fn passed(&self, row: &Row) -> bool
        requires { IsRowOf self.now.atoms row.now }
        ensures { result ≡ is_below (Some self.now.floor) row.now.set }
    {
        is_before(row, &self.floor, self.atoms.as_slice())
    }

    /// Adds an answer, unless it is there or comes before the floor.
    ///
    /// For want of memory, the one error, it stays as it was.
    pub fn add(&mut self, set: &Interp) -> Result<(), AllocError>
        requires { IsAmong self.old.atoms set.now }
        ensures ok { OnOk result (self.new ≡ record self.old { sets = with_waiting self.old.floor set.now self.old.sets }) }
        ensures err { OnErr result (self.new ≡ self.old) }
    {
        let row = Row::of(self.alloc, self.atoms.as_slice(), set)?;
        if is_before(&row, &self.floor, self.atoms.as_slice()) {
            return Ok(());
        }
        self.rows.insert(row)?;
        Ok(())
    }

    /// Raises the floor, and takes out the answers that come before it, in their order.
    pub fn raise(&mut self, floor: Row) -> Result<Rows, AllocError>
        requires { IsRowOf self.old.atoms floor }
        ensures below { IfOk result (λ rows. rows ≡ record { atoms = self.old.atoms; sets = filter (is_below (Some floor.set)) self.old.sets }) }
        ensures rest { OnOk result (self.new ≡ record self.old { floor = floor.set; sets = filter (λ S. not (is_below (Some floor.set) S)) self.old.sets }) }
    {
        let mut taken = Rows::new(self.alloc, self.atoms.copy()?);
        take_below(&mut self.rows, &floor, &mut taken)?;
        self.floor = floor;
        Ok(taken)
    }

    /// All answers that wait, in their order.
    pub fn into_rows(self) -> Result<Rows, AllocError>
        ensures { IfOk result (λ rows. rows ≡ record { atoms = self.atoms; sets = self.sets }) }
    {
        let Backlog {
            alloc,
            atoms,
            floor: _,
            rows,
        } = self;
        let mut taken = Rows::new(alloc, atoms);
        take_all(rows, &mut taken)?;
        Ok(taken)
    }
}
