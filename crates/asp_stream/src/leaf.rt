//! One leaf, by one search, whose answers are told while it goes on.
ghost use Rattle.std.specs.Prelude.{◌≡◌, ◌+◌, ◌∷◌, ◌<◌, ◌≤◌, false, List, None, ℕ, IfOk, IsSome, Some, length};
ghost use Rattle.std.specs.List.{All};
ghost use Rattle.asp_model.specs.Models.{atoms_of};
ghost use Rattle.asp_model.specs.Sets.{Atoms};
ghost use Rattle.asp_model.specs.declared.results.Mode.TheVariants.{Enum};
ghost use Rattle.asp_vars.specs.Numbering.{var_count};
ghost use Rattle.asp_trail.specs.Trails.{IsVar};
ghost use Rattle.asp_path.specs.declared.status.Status.TheVariants as status;
ghost use Rattle.asp_path.specs.Trees.{cube_of, status_of};
ghost use Rattle.asp_core.specs.Invariant.{IsCube};
ghost use Rattle.asp_book.specs.Books.{board};
ghost use Rattle.asp_search_laws.specs.Steps.{IsStep};
ghost use Rattle.asp_crew.specs.Running.{IsAlone, IsReady, IsUnderway};
ghost use Rattle.asp_stream.specs.Streams.{IsFrontOf, IsPart, IsStreamOf, leaves_of};
ghost use Rattle.asp_stream.specs.Leaves.{EndsLeaf, GoesOn, IsStreamAfter, LeavesHeld, LeavesPart, parts_left};

use crate::part::Part;
use crate::stream::{Stream, View, divide, look, tell};
use crate::told::End;
use asp_counts::counts::Counts;
use asp_counts::watch::Watch;
use asp_outlet::Reader;
use asp_path::tree::Leaf;
use asp_propagate::propagator::Propagator;
use asp_search::search::Search;
use asp_search_laws::step::Step;
use asp_vars::fuel::{Conflict, Fuel};
use asp_vars::lit::Lit;
use asp_vars::nogood::Nogood;
use std::alloc::AllocError;

/// How a step left the path.
#[derive(Drop)]
pub(crate) enum Course {
    /// The search goes on.
    Open,
    /// Nothing else is to be found below the path, by this nogood.
    Closed(Nogood),
    /// A conflict was met, and no unit is left for it.
    Unpaid(Conflict),
}

/// How a search left the path.
#[derive(Drop)]
pub(crate) enum Left {
    /// Nothing else is to be found below the path, by this nogood.
    Closed(Nogood),
    /// A conflict was met, and no unit is left for it.
    Unpaid(Conflict),
    /// Too many answers wait: the leaf is to be split by this literal.
    Crowded(Lit),
    /// The reader wants no more.
    Unwanted,
}

// One step, which is counted.
fn step<P: Propagator>(
    search: &mut Search<'_, P>,
    fuel: &mut Fuel,
    counts: &mut Counts,
) -> Result<Step, AllocError>
    requires entered { IsSome search.old.cube }
    requires program { fuel.old.program ≡ search.old.program }
    ensures ok { IfOk result (IsStep (P.gives search.old.program search.old.bound) (P.silent search.old.program search.old.bound) search.old search.new fuel.old fuel.new) }
    ensures few { IfOk result (λ r. length search.new.entries ≤ var_count search.new.program + 1) }
{
    let step = search.step(fuel)?;
    counts.count(&step, search.implied() as u64, search.extra() as u64);
    Ok(step)
}

// One step. It is counted, and an answer is delivered.
fn advance<P: Propagator>(
    stream: &mut Stream<'_>,
    search: &mut Search<'_, P>,
    fuel: &mut Fuel,
    counts: &mut Counts,
) -> Result<Course, AllocError>
    requires underway { IsUnderway Enum stream.old.ledger search.old fuel.old }
    requires program { stream.old.ledger.task.program ≡ stream.old.compiled.now }
    requires atoms { stream.old.backlog.atoms ≡ atoms_of stream.old.compiled.now }
    ensures goes { IfOk result (GoesOn stream.old.ledger stream.new.ledger search.old search.new fuel.old fuel.new) }
    ensures stream { IfOk result (λ c. (all heard : List Atoms) (leaves : List ℕ) → IsStreamOf stream.old all heard leaves → IsStreamOf stream.new all heard leaves) }
    ensures same { (stream.new.compiled ≡ stream.old.compiled) × (stream.new.parts ≡ stream.old.parts) }
{
    stream.ledger.lawful();
    match step(search, fuel, counts)? {
        Step::Decided => Ok(Course::Open),
        Step::Learnt => Ok(Course::Open),
        Step::Restarted => Ok(Course::Open),
        Step::Answer(set) => {
            stream.deliver(&set)?;
            Ok(Course::Open)
        }
        Step::Closed(nogood) => Ok(Course::Closed(nogood)),
        Step::NoFuel(conflict) => Ok(Course::Unpaid(conflict)),
    }
}

// Steps until nothing else is to be found below the path, too many answers wait, none is wanted, or a conflict is met when no unit is
// left. After each the counts are told, and what can be told of the answers.
fn run<P: Propagator, W: Watch, R: Reader>(
    stream: &mut Stream<'_>,
    leaf: Leaf,
    search: &mut Search<'_, P>,
    fuel: &mut Fuel,
    counts: &mut Counts,
    watch: &mut W,
    reader: &mut R,
) -> Result<Left, AllocError>
    requires underway { IsUnderway Enum stream.old.ledger search.old fuel.old }
    requires cube { search.old.cube ≡ Some (cube_of (board stream.old.ledger).nodes leaf) }
    requires stream { IsStreamOf stream.old (R.all reader.old) (R.heard reader.old) (leaf ∷ leaves_of stream.old.parts.items) }
    requires program { R.program reader.old ≡ stream.old.compiled.now }
    ensures same { (stream.new.compiled ≡ stream.old.compiled) × (stream.new.parts ≡ stream.old.parts) }
    ensures ends { IfOk result (EndsLeaf stream.old.ledger stream.new.ledger leaf search.old search.new fuel.new) }
    ensures unwanted { IfOk result (λ left. left ≡ Left.Unwanted → R.wants reader.new ≡ false) }
    ensures stream { IfOk result (λ left. IsStreamOf stream.new (R.all reader.new) (R.heard reader.new) (leaf ∷ leaves_of stream.new.parts.items)) }
    ensures front { IsFrontOf stream.old.compiled.now (R.all reader.old) (R.program reader.new) (R.all reader.new) (R.heard reader.new) }
    ensures after { R.IsAfter reader.old reader.new }
    ensures heard { W.IsAfter watch.old watch.new }
{
    stream.ledger.lawful();
    'steps: loop {
        let course = advance(stream, search, fuel, counts)?;
        watch.tell(counts, None);
        match course {
            Course::Open => {}
            Course::Closed(nogood) => return Ok(Left::Closed(nogood)),
            Course::Unpaid(conflict) => return Ok(Left::Unpaid(conflict)),
        }
        match look(stream, leaf, search, reader)? {
            View::Open => {}
            View::Crowded(lit) => return Ok(Left::Crowded(lit)),
            View::Unwanted => return Ok(Left::Unwanted),
        }
    }
}

// The literals of a leaf that is held.
fn cube_of(stream: &Stream<'_>, leaf: Leaf) -> Result<Vec<Lit>, AllocError>
    requires held { status_of (board stream.now.ledger).nodes leaf ≡ status.Held 0 }
    ensures value { IfOk result (λ cube. cube.items ≡ cube_of (board stream.now.ledger).nodes leaf) }
    ensures cube { IfOk result (λ cube. IsCube stream.now.ledger.task cube.items) }
    ensures vars { IfOk result (λ cube. All (λ l. IsVar (var_count stream.now.ledger.task.program) l.var) cube.items) }
{
    stream.ledger.lawful();
    let cube = stream.ledger.cube(stream.alloc, leaf)?;
    Ok(cube)
}

// Steps on the leaf's path, from its beginning.
fn search_leaf<P: Propagator, W: Watch, R: Reader>(
    stream: &mut Stream<'_>,
    leaf: Leaf,
    search: &mut Search<'_, P>,
    fuel: &mut Fuel,
    counts: &mut Counts,
    watch: &mut W,
    reader: &mut R,
) -> Result<Option<End>, AllocError>
    requires ready { IsReady Enum stream.old.ledger search.old fuel.old }
    requires held { status_of (board stream.old.ledger).nodes leaf ≡ status.Held 0 }
    requires stream { IsStreamOf stream.old (R.all reader.old) (R.heard reader.old) (leaf ∷ leaves_of stream.old.parts.items) }
    requires program { R.program reader.old ≡ stream.old.compiled.now }
    ensures compiled { stream.new.compiled ≡ stream.old.compiled }
    ensures leaves { IfOk result (LeavesHeld stream.old.ledger stream.new.ledger leaf search.new fuel.new) }
    ensures less { IfOk result (λ end. end ≡ None → parts_left stream.new.ledger stream.new.parts.items < 1 + parts_left stream.old.ledger stream.old.parts.items) }
    ensures stream { IfOk result (IsStreamAfter stream.new (R.all reader.new) (R.heard reader.new)) }
    ensures unwanted { IfOk result (λ end. end ≡ Some End.Unwanted → R.wants reader.new ≡ false) }
    ensures front { IsFrontOf stream.old.compiled.now (R.all reader.old) (R.program reader.new) (R.all reader.new) (R.heard reader.new) }
    ensures after { R.IsAfter reader.old reader.new }
    ensures heard { W.IsAfter watch.old watch.new }
{
    stream.ledger.lawful();
    let cube = cube_of(stream, leaf)?;
    search.enter(cube.as_slice())?;
    match run(stream, leaf, search, fuel, counts, watch, reader)? {
        Left::Closed(nogood) => {
            stream.ledger.close(leaf, nogood.lits)?;
            Ok(None)
        }
        Left::Crowded(lit) => {
            divide(stream, leaf, lit, search)?;
            Ok(None)
        }
        Left::Unpaid(conflict) => {
            stream.ledger.release(leaf)?;
            Ok(Some(End::Unpaid(conflict)))
        }
        Left::Unwanted => {
            stream.ledger.release(leaf)?;
            Ok(Some(End::Unwanted))
        }
    }
}

/// Works on a part, whose leaf then is closed, split, or open as before: where no answer more is wanted, or a conflict was met and no
/// unit is left, and then the stream is at its end.
pub(crate) fn work_off<P: Propagator, W: Watch, R: Reader>(
    stream: &mut Stream<'_>,
    part: Part,
    search: &mut Search<'_, P>,
    fuel: &mut Fuel,
    counts: &mut Counts,
    watch: &mut W,
    reader: &mut R,
) -> Result<Option<End>, AllocError>
    requires ready { IsReady Enum stream.old.ledger search.old fuel.old }
    requires alone { IsAlone (board stream.old.ledger) }
    requires part { IsPart (board stream.old.ledger) part }
    requires stream { IsStreamOf stream.old (R.all reader.old) (R.heard reader.old) (part.leaf ∷ leaves_of stream.old.parts.items) }
    requires program { R.program reader.old ≡ stream.old.compiled.now }
    ensures compiled { stream.new.compiled ≡ stream.old.compiled }
    ensures leaves { IfOk result (LeavesPart stream.old.ledger stream.new.ledger search.new fuel.new) }
    ensures less { IfOk result (λ end. end ≡ None → parts_left stream.new.ledger stream.new.parts.items < 1 + parts_left stream.old.ledger stream.old.parts.items) }
    ensures stream { IfOk result (IsStreamAfter stream.new (R.all reader.new) (R.heard reader.new)) }
    ensures unwanted { IfOk result (λ end. end ≡ Some End.Unwanted → R.wants reader.new ≡ false) }
    ensures front { IsFrontOf stream.old.compiled.now (R.all reader.old) (R.program reader.new) (R.all reader.new) (R.heard reader.new) }
    ensures after { R.IsAfter reader.old reader.new }
    ensures heard { W.IsAfter watch.old watch.new }
{
    stream.ledger.lawful();
    let Part {
        leaf,
        low,
        own,
        factor,
    } = part;
    let taken = stream.ledger.take(leaf)?;
    if !taken {
        return Ok(None);
    }
    let wanted = tell(stream, leaf, low, reader)?;
    if !wanted {
        stream.ledger.release(leaf)?;
        return Ok(Some(End::Unwanted));
    }
    stream.pace.begin(stream.backlog.len(), own, factor);
    search_leaf(stream, leaf, search, fuel, counts, watch, reader)
}
