//! What was told, what waits and what is to be worked on.
ghost use Rattle.std.specs.Prelude.{◌≡◌, ◌+◌, ◌∷◌, ◌<◌, ◌^◌, [], ℕ, List, false, length, Some, IfOk, IfSome, IsSome, IsTrue, OnOk};
ghost use Rattle.std.specs.List.{AllByRecursion};
ghost use Rattle.asp_model.specs.Models.{atoms_of};
ghost use Rattle.asp_model.specs.Sets.{Atoms};
ghost use Rattle.asp_vars.specs.Literals.{Literal};
ghost use Rattle.asp_vars.specs.Numbering.{IsVar, var_count};
ghost use Rattle.asp_rows.specs.Listed.{IsRowOf};
ghost use Rattle.asp_path.specs.declared.status.Status.TheVariants as status;
ghost use Rattle.asp_path.specs.Trees.{cube_of, status_of};
ghost use Rattle.asp_core.specs.Boards.{is_answer, lists};
ghost use Rattle.asp_core.specs.declared.event.Event.TheVariants as event;
ghost use Rattle.asp_book.specs.Books.{board, with_events};
ghost use Rattle.asp_search.specs.Beside.{IsOpen};
ghost use Rattle.asp_ledger.specs.Ledgers.{ListsAnswers};
ghost use Rattle.asp_watermark.specs.Floors.{IsLow};
ghost use Rattle.asp_stream.specs.Streams.{HasHalves, IsCrowded, IsFrontOf, IsStart, IsStreamOf, Keeps, Knows, MayRise, divided_by, leaves_of};

use crate::low::low;
use crate::pace::Pace;
use crate::part::{Part, none_before};
use crate::waiting::{count_without, is_set, nth};
use asp_backlog::backlog::Backlog;
use asp_core::goal::Goal;
use asp_ledger::ledger::Ledger;
use asp_model::interp::Interp;
use asp_outlet::Reader;
use asp_path::tree::Leaf;
use asp_propagate::propagator::Propagator;
use asp_rows::bits::{Bit, bit_of};
use asp_rows::row::Row;
use asp_search::search::Search;
use asp_vars::compiled::Compiled;
use asp_vars::lit::Lit;
use std::alloc::{AllocError, Global};

/// A stream between two steps.
#[derive(Drop)]
pub(crate) struct Stream<'a> {
    /// Where memory comes from.
    pub alloc: Global,
    /// The program.
    pub compiled: &'a Compiled,
    /// What happened.
    pub ledger: Ledger,
    /// The answers that were found and not told.
    pub backlog: Backlog,
    /// The open leaves, but for the one that is worked on: the next one last.
    pub parts: Vec<Part>,
    /// When the leaf is looked at and split.
    pub pace: Pace,
    /// How many answers were told.
    pub heard: usize,
}

/// What is seen of a leaf that is worked on.
#[derive(Drop)]
pub(crate) enum View {
    /// It is worked on.
    Open,
    /// Too many answers wait in it: it is to be split by this literal.
    Crowded(Lit),
    /// The reader wants no more.
    Unwanted,
}

// The row of no atoms.
fn nothing(alloc: Global, compiled: &Compiled) -> Result<Row, AllocError>
    ensures row { IfOk result (IsRowOf (atoms_of compiled.now)) }
    ensures set { IfOk result (λ row. row.set ≡ []) }
{
    Row::of(alloc, compiled.atoms().as_slice(), &Interp::new(alloc))
}

impl<'a> Stream<'a> {
    /// A stream of all answers that the goal lists, of which nothing was told: the one leaf waits to be worked on.
    pub fn start(
        alloc: Global,
        compiled: &'a Compiled,
        goal: &Goal,
        budget: u64,
    ) -> Result<Stream<'a>, AllocError>
        requires { ListsAnswers goal.now }
        ensures { IfOk result (IsStart compiled.now goal.now budget) }
    {
        let ledger = Ledger::start(alloc, compiled, goal, budget)?;
        let backlog = Backlog::new(alloc, compiled.atoms())?;
        let low = nothing(alloc, compiled)?;
        let mut parts = Vec::new(alloc);
        parts.push(Part {
            leaf: 0,
            low,
            own: 0,
            factor: 1,
        })?;
        let pace = Pace::new(compiled.atoms().as_slice().len());
        Ok(Stream {
            alloc,
            compiled,
            ledger,
            backlog,
            parts,
            pace,
            heard: 0,
        })
    }

    /// Delivers an answer that the goal lists, which waits from now on, if it isn't there.
    pub fn deliver(&mut self, set: &Interp) -> Result<(), AllocError>
        requires answer { IsTrue (is_answer self.old.ledger.task set.now) }
        requires listed { IsTrue (lists self.old.ledger.task set.now) }
        requires program { self.old.ledger.task.program ≡ self.old.compiled.now }
        requires atoms { self.old.backlog.atoms ≡ atoms_of self.old.compiled.now }
        ensures ledger { OnOk result (self.new.ledger ≡ with_events self.old.ledger (event.Deliver 0 set.now ∷ [])) }
        ensures same { (self.new.compiled ≡ self.old.compiled) × (self.new.parts ≡ self.old.parts) }
        ensures told { OnOk result ((all heard : List Atoms) (leaves : List ℕ) → IsStreamOf self.old all heard leaves → IsStreamOf self.new all heard leaves) }
    {
        self.ledger.lawful();
        self.ledger.deliver(set)?;
        self.backlog.add(set)?;
        Ok(())
    }
}

// Whether the low comes before neither the floor nor the low of a part.
fn may_rise(stream: &Stream<'_>, low: &Row) -> bool
    requires atoms { stream.now.backlog.atoms ≡ atoms_of stream.now.compiled.now }
    requires row { IsRowOf (atoms_of stream.now.compiled.now) low.now }
    requires parts { AllByRecursion (λ p. IsRowOf (atoms_of stream.now.compiled.now) p.low) stream.now.parts.items }
    ensures { IsTrue result → MayRise stream.now.backlog.floor stream.now.parts.items low.now.set }
{
    !stream.backlog.passed(low)
        && none_before(
            stream.parts.as_slice(),
            low,
            stream.compiled.atoms().as_slice(),
        )
}

/// So many answers more than those. There is no number for more than 2^64 - 2 of them: before that memory is wanting.
pub(crate) fn count_on(heard: usize, more: usize) -> Result<usize, AllocError>
    ensures sum { IfOk result (λ n. n ≡ heard + more) }
    ensures room { IfOk result (λ n. n + 1 < 2 ^ 64) }
{
    match heard.checked_add(more) {
        Some(count) if count < usize::MAX => Ok(count),
        _ => Err(AllocError),
    }
}

// Raises the floor to the low of the leaf that is worked on, and tells what comes before it. False where no more are wanted.
fn raise<R: Reader>(
    stream: &mut Stream<'_>,
    leaf: Leaf,
    low: Row,
    reader: &mut R,
) -> Result<bool, AllocError>
    requires stream { IsStreamOf stream.old (R.all reader.old) (R.heard reader.old) (leaf ∷ leaves_of stream.old.parts.items) }
    requires program { R.program reader.old ≡ stream.old.compiled.now }
    requires low { IsLow (board stream.old.ledger) leaf low.set }
    requires row { IsRowOf (atoms_of stream.old.compiled.now) low }
    requires rises { MayRise stream.old.backlog.floor stream.old.parts.items low.set }
    ensures keeps { Keeps stream.old stream.new }
    ensures stream { IfOk result (λ wanted. IsStreamOf stream.new (R.all reader.new) (R.heard reader.new) (leaf ∷ leaves_of stream.new.parts.items)) }
    ensures unwanted { IfOk result (λ wanted. wanted ≡ false → R.wants reader.new ≡ false) }
    ensures front { IsFrontOf stream.old.compiled.now (R.all reader.old) (R.program reader.new) (R.all reader.new) (R.heard reader.new) }
    ensures after { R.IsAfter reader.old reader.new }
{
    stream.ledger.lawful();
    let rows = stream.backlog.raise(low)?;
    stream.heard = count_on(stream.heard, rows.len())?;
    stream.pace.tell(rows.len());
    Ok(reader.hear(&rows))
}

/// Tells what comes before the low of the leaf that is worked on, where this low comes before no other. False where no more are wanted.
pub(crate) fn tell<R: Reader>(
    stream: &mut Stream<'_>,
    leaf: Leaf,
    low: Row,
    reader: &mut R,
) -> Result<bool, AllocError>
    requires stream { IsStreamOf stream.old (R.all reader.old) (R.heard reader.old) (leaf ∷ leaves_of stream.old.parts.items) }
    requires program { R.program reader.old ≡ stream.old.compiled.now }
    requires low { IsLow (board stream.old.ledger) leaf low.set }
    requires row { IsRowOf (atoms_of stream.old.compiled.now) low }
    ensures keeps { Keeps stream.old stream.new }
    ensures stream { IfOk result (λ wanted. IsStreamOf stream.new (R.all reader.new) (R.heard reader.new) (leaf ∷ leaves_of stream.new.parts.items)) }
    ensures unwanted { IfOk result (λ wanted. wanted ≡ false → R.wants reader.new ≡ false) }
    ensures front { IsFrontOf stream.old.compiled.now (R.all reader.old) (R.program reader.new) (R.all reader.new) (R.heard reader.new) }
    ensures after { R.IsAfter reader.old reader.new }
{
    stream.ledger.lawful();
    if may_rise(stream, &low) {
        raise(stream, leaf, low, reader)
    } else {
        Ok(true)
    }
}

// Whether the last answer that waits in the leaf has the atom of the bit.
fn has_last(last: Option<&Row>, bit: Option<Bit>) -> bool {
    match (last, bit) {
        (Some(row), Some(bit)) => is_set(row, bit),
        _ => false,
    }
}

// Whether the literal's variable splits the leaf: it is open, or answers that wait have its atom and none that comes has.
fn splits<P: Propagator>(
    search: &Search<'_, P>,
    lit: Lit,
    last: Option<&Row>,
    bit: Option<Bit>,
) -> bool
    requires { IsVar (var_count search.now.program) lit.var }
    ensures { (q : List Literal) → search.now.cube ≡ Some q → IsTrue result → IsOpen search.now.program q lit }
{
    if !search.is_open(lit) {
        return false;
    }
    match search.fixed(lit.var()) {
        None => true,
        Some(true) => false,
        Some(false) => has_last(last, bit),
    }
}

// The literal by which the leaf is to be split, if it is: that its least open atom is false.
fn cut<P: Propagator>(stream: &Stream<'_>, search: &Search<'_, P>) -> Option<Lit>
    requires { search.now.program ≡ stream.now.compiled.now }
    ensures open { (q : List Literal) → search.now.cube ≡ Some q → IfSome result (IsOpen search.now.program q) }
    ensures room { IsSome result → length (board stream.now.ledger).nodes < 4194304 }
{
    let waiting = stream.backlog.len();
    if !stream.ledger.room() || !stream.pace.is_crowded(waiting) {
        return None;
    }
    let last = nth(stream.backlog.rows(), stream.pace.own(waiting));
    let atoms = stream.compiled.atoms().as_slice();
    for atom in atoms {
        let lit = Lit::new(stream.compiled.atom_var(*atom), false);
        if splits(search, lit, last, bit_of(atoms, *atom)) {
            return Some(lit);
        }
    }
    None
}

/// Looks at the leaf that is worked on, where that is due: what can be told is, and where too many answers are left it is to be split.
pub(crate) fn look<P: Propagator, R: Reader>(
    stream: &mut Stream<'_>,
    leaf: Leaf,
    search: &Search<'_, P>,
    reader: &mut R,
) -> Result<View, AllocError>
    requires stream { IsStreamOf stream.old (R.all reader.old) (R.heard reader.old) (leaf ∷ leaves_of stream.old.parts.items) }
    requires program { R.program reader.old ≡ stream.old.compiled.now }
    requires knows { Knows stream.old.ledger search.now leaf }
    ensures keeps { Keeps stream.old stream.new }
    ensures stream { IfOk result (λ view. IsStreamOf stream.new (R.all reader.new) (R.heard reader.new) (leaf ∷ leaves_of stream.new.parts.items)) }
    ensures view { IfOk result (IsCrowded stream.old.ledger leaf) }
    ensures unwanted { IfOk result (λ view. view ≡ View.Unwanted → R.wants reader.new ≡ false) }
    ensures front { IsFrontOf stream.old.compiled.now (R.all reader.old) (R.program reader.new) (R.all reader.new) (R.heard reader.new) }
    ensures after { R.IsAfter reader.old reader.new }
{
    stream.ledger.lawful();
    if !stream.pace.is_due(stream.backlog.len()) {
        return Ok(View::Open);
    }
    let low = low(stream.alloc, stream.compiled, search, &[])?;
    if !tell(stream, leaf, low, reader)? {
        return Ok(View::Unwanted);
    }
    match cut(stream, search) {
        Some(lit) => Ok(View::Crowded(lit)),
        None => {
            stream.pace.go_on(stream.backlog.len());
            Ok(View::Open)
        }
    }
}

// So many of the answers that wait in the leaf lie in its first half.
fn first_own(stream: &Stream<'_>, lit: Lit, own: usize) -> usize {
    let atoms = stream.compiled.atoms().as_slice();
    let place = (lit.var() as usize).saturating_sub(1);
    if place >= atoms.len() {
        return own;
    }
    match bit_of(atoms, atoms[place]) {
        Some(bit) => count_without(stream.backlog.rows(), bit).min(own),
        None => own,
    }
}

// The parts of a leaf's two halves, of which the first is worked on next.
fn push_halves(
    stream: &mut Stream<'_>,
    leaves: (Leaf, Leaf),
    lit: Lit,
    first: Row,
    second: Row,
) -> Result<(), AllocError>
    ensures same { stream.new ≡ record stream.old { parts = stream.new.parts } }
    ensures parts { OnOk result (HasHalves leaves first second stream.old.parts.items stream.new.parts.items) }
{
    let own = stream.pace.own(stream.backlog.len());
    let first_own = first_own(stream, lit, own);
    let second_own = own.saturating_sub(first_own);
    let factor = stream.pace.factor_after(own, second_own);
    stream.parts.push(Part {
        leaf: leaves.1,
        low: second,
        own: second_own,
        factor,
    })?;
    stream.parts.push(Part {
        leaf: leaves.0,
        low: first,
        own: first_own,
        factor,
    })?;
    Ok(())
}

/// Splits the leaf that is worked on: its halves are open, and wait to be worked on, the first before the second.
pub(crate) fn divide<P: Propagator>(
    stream: &mut Stream<'_>,
    leaf: Leaf,
    lit: Lit,
    search: &Search<'_, P>,
) -> Result<(), AllocError>
    requires held { status_of (board stream.old.ledger).nodes leaf ≡ status.Held 0 }
    requires knows { Knows stream.old.ledger search.now leaf }
    requires program { stream.old.ledger.task.program ≡ stream.old.compiled.now }
    requires open { IsOpen stream.old.ledger.task.program (cube_of (board stream.old.ledger).nodes leaf) lit }
    requires room { length (board stream.old.ledger).nodes < 4194304 }
    ensures compiled { stream.new.compiled ≡ stream.old.compiled }
    ensures ledger { OnOk result (stream.new.ledger ≡ divided_by stream.old.ledger leaf lit) }
    ensures parts { OnOk result (length stream.new.parts.items ≡ length stream.old.parts.items + 2) }
    ensures stream { OnOk result ((all heard : List Atoms) → IsStreamOf stream.old all heard (leaf ∷ leaves_of stream.old.parts.items) → IsStreamOf stream.new all heard (leaves_of stream.new.parts.items)) }
{
    stream.ledger.lawful();
    let first = low(stream.alloc, stream.compiled, search, &[])?;
    let more = [lit.complement()];
    let second = low(stream.alloc, stream.compiled, search, more.as_slice())?;
    match stream.ledger.split(leaf, lit)? {
        None => unreachable!(),
        Some(leaves) => {
            stream.ledger.release(leaves.0)?;
            push_halves(stream, leaves, lit, first, second)?;
            Ok(())
        }
    }
}
