//! One leaf, by one search.
//!
//! What is left to do is read as a number with four digits: the units left, the stable models not yet found, the nogoods
//! learnt since the last restart, and the variables without a value. A conflict takes a unit, an answer is found once (and
//! excuses all that show nothing else, where consequences are sought), a restart forgets the nogoods that made it due, and a
//! decision gives a variable a value. Each lowers its digit and leaves the digits before it, so a leaf is worked off.
ghost use Rattle.std.specs.Prelude.{◌≡◌, ◌+◌, ◌≤◌, false, IfOk, OnOk, IsSome, IsTrue, length};
ghost use Rattle.std.specs.List.{All};
ghost use Rattle.asp_vars.specs.Numbering.{var_count};
ghost use Rattle.asp_trail.specs.Trails.{IsVar};
ghost use Rattle.asp_path.specs.declared.status.Status.TheVariants as status;
ghost use Rattle.asp_path.specs.Trees.{cube_of, status_of};
ghost use Rattle.asp_core.specs.Boards.{is_answer, is_enough};
ghost use Rattle.asp_core.specs.Invariant.{IsCube};
ghost use Rattle.asp_book.specs.Books.{board};
ghost use Rattle.asp_search_laws.specs.Steps.{IsStep};
ghost use Rattle.asp_crew.specs.Running.{QueryStands, IsReady, IsUnderway, MayRecord, OnlyRecords, IsRecorded, Goes, Ends, LeavesLeaf};

use crate::known::take_known;
use asp_book::book::Book;
use asp_counts::counts::Counts;
use asp_counts::watch::{Best, Watch};
use asp_model::interp::Interp;
use asp_model::results::Mode;
use asp_path::tree::Leaf;
use asp_propagate::propagator::Propagator;
use asp_recorder::recorder::Recorder;
use asp_search::search::Search;
use asp_search_laws::step::Step;
use asp_vars::fuel::{Conflict, Fuel};
use asp_vars::lit::Lit;
use asp_vars::nogood::Nogood;
use std::alloc::AllocError;

/// How a step left the path.
#[derive(Drop)]
pub(crate) enum Course {
    /// The search goes on.
    Open,
    /// Nothing else is to be found below the path, by this nogood.
    Closed(Nogood),
    /// A conflict was met, and no unit is left for it.
    Unpaid(Conflict),
}

/// How a search left the path.
#[derive(Drop)]
pub(crate) enum Left {
    /// As many answers as asked for were found.
    Enough,
    /// Nothing else is to be found below the path, by this nogood.
    Closed(Nogood),
    /// A conflict was met, and no unit is left for it.
    Unpaid(Conflict),
}

// Delivers an answer, or records it as the best.
fn record(book: &mut Book, mode: Mode, set: Interp) -> Result<(), AllocError>
    requires may { MayRecord mode book.old.task set }
    requires answer { IsTrue (is_answer book.old.task set) }
    requires wanted { is_enough (board book.old) ≡ false }
    ensures only { OnOk result (OnlyRecords book.old book.new) }
    ensures recorded { OnOk result (IsRecorded mode (board book.old) (board book.new) set) }
{
    match mode {
        Mode::Enum | Mode::Consequences(_) => {
            let _listed = book.deliver(0, set)?;
            Ok(())
        }
        Mode::Opt => {
            let _best = book.improve(0, set)?;
            Ok(())
        }
    }
}

// Writes down the answer that a step found, if somebody wants it: before the nogoods that follow from it.
fn note_found<P: Propagator>(
    recorder: &Recorder,
    search: &Search<'_, P>,
    step: &Step,
) -> Result<(), AllocError> {
    match step {
        Step::Answer(set) => recorder.found(set, search.bound()),
        _ => Ok(()),
    }
}

// Writes down the answer that a step found, and the nogood that it kept or by which it closed the path, if there is one and somebody
// wants it.
fn note<P: Propagator>(
    recorder: Option<&Recorder>,
    search: &Search<'_, P>,
    step: &Step,
) -> Result<(), AllocError> {
    if let Some(recorder) = recorder {
        note_found(recorder, search, step)?;
        recorder.place_given(search.given())?;
        if let Some(nogood) = search.kept() {
            let id = search.kept_number();
            recorder.add_learned(id, nogood, search.uses())?;
        }
        if let Step::Closed(nogood) = step {
            recorder.add_learned(None, nogood.lits.as_slice(), search.uses())?;
        }
    }
    Ok(())
}

// One step, which is counted, and of which is written down what it keeps.
fn step<P: Propagator>(
    search: &mut Search<'_, P>,
    fuel: &mut Fuel,
    counts: &mut Counts,
    recorder: Option<&Recorder>,
) -> Result<Step, AllocError>
    requires entered { IsSome search.old.cube }
    requires program { fuel.old.program ≡ search.old.program }
    ensures ok { IfOk result (IsStep (P.gives search.old.program search.old.bound) (P.silent search.old.program search.old.bound) search.old search.new fuel.old fuel.new) }
    ensures few { IfOk result (λ r. length search.new.entries ≤ var_count search.new.program + 1) }
{
    let step = search.step(fuel)?;
    counts.count(&step, search.implied() as u64, search.extra() as u64);
    note(recorder, search, &step)?;
    Ok(step)
}

// One step, where more answers are wanted. It is counted, and an answer is recorded; after the first the search takes over what the board
// knows.
fn advance<P: Propagator>(
    book: &mut Book,
    mode: Mode,
    search: &mut Search<'_, P>,
    fuel: &mut Fuel,
    counts: &mut Counts,
    recorder: Option<&Recorder>,
) -> Result<Course, AllocError>
    requires underway { IsUnderway mode book.old search.old fuel.old }
    requires wanted { is_enough (board book.old) ≡ false }
    ensures { IfOk result (Goes mode book.old book.new search.old search.new fuel.old fuel.new) }
{
    let knew = search.unshown_atoms();
    match step(search, fuel, counts, recorder)? {
        Step::Decided => Ok(Course::Open),
        Step::Learnt => Ok(Course::Open),
        Step::Restarted => Ok(Course::Open),
        Step::Answer(set) => {
            record(book, mode, set)?;
            take_known(book, search, knew)?;
            Ok(Course::Open)
        }
        Step::Closed(nogood) => Ok(Course::Closed(nogood)),
        Step::NoFuel(conflict) => Ok(Course::Unpaid(conflict)),
    }
}

// The best answer on the board, if there is one.
fn best(book: &Book) -> Option<Best<'_>> {
    match book.state().best() {
        None => None,
        Some((set, cost)) => Some(Best {
            cost,
            set: Some(set),
        }),
    }
}

// Tells what was counted, and the best answer where one is sought.
fn tell<W: Watch>(mode: Mode, book: &Book, counts: &Counts, watch: &mut W)
    ensures { W.IsAfter watch.old watch.new }
{
    match mode {
        Mode::Enum | Mode::Consequences(_) => watch.tell(counts, None),
        Mode::Opt => watch.tell(counts, best(book)),
    }
}

// Steps until nothing else is to be found below the path, as many answers as asked for were found, or a conflict is met when
// no unit is left. After each the counts are told.
fn run<P: Propagator, W: Watch>(
    book: &mut Book,
    mode: Mode,
    search: &mut Search<'_, P>,
    fuel: &mut Fuel,
    counts: &mut Counts,
    watch: &mut W,
    recorder: Option<&Recorder>,
) -> Result<Left, AllocError>
    requires { IsUnderway mode book.old search.old fuel.old }
    ensures ends { IfOk result (Ends mode book.old book.new search.old search.new fuel.new) }
    ensures heard { W.IsAfter watch.old watch.new }
{
    'steps: loop {
        if book.enough() {
            return Ok(Left::Enough);
        }
        let course = advance(book, mode, search, fuel, counts, recorder)?;
        tell(mode, book, counts, watch);
        match course {
            Course::Open => {}
            Course::Closed(nogood) => return Ok(Left::Closed(nogood)),
            Course::Unpaid(conflict) => return Ok(Left::Unpaid(conflict)),
        }
    }
}

// The literals of a leaf that number 0 holds.
fn cube_of(book: &Book, leaf: Leaf) -> Result<Vec<Lit>, AllocError>
    requires task { QueryStands book.now.task }
    requires held { status_of (board book.now).nodes leaf ≡ status.Held 0 }
    ensures value { IfOk result (λ cube. cube.items ≡ cube_of (board book.now).nodes leaf) }
    ensures cube { IfOk result (λ cube. IsCube book.now.task cube.items) }
    ensures vars { IfOk result (λ cube. All (λ l. IsVar (var_count book.now.task.program) l.var) cube.items) }
{
    let _lawful = book.journal();
    let cube = book.cube(leaf)?;
    Ok(cube)
}

/// Works off a leaf that number 0 holds: it is closed then, or open again where as many answers as asked for were found, or
/// a conflict was met and no unit is left.
pub(crate) fn work_off<P: Propagator, W: Watch>(
    book: &mut Book,
    mode: Mode,
    search: &mut Search<'_, P>,
    fuel: &mut Fuel,
    leaf: Leaf,
    counts: &mut Counts,
    watch: &mut W,
    recorder: Option<&Recorder>,
) -> Result<Option<Conflict>, AllocError>
    requires ready { IsReady mode book.old search.old fuel.old }
    requires held { status_of (board book.old).nodes leaf ≡ status.Held 0 }
    ensures leaves { IfOk result (LeavesLeaf mode book.old book.new leaf search.new fuel.new) }
    ensures heard { W.IsAfter watch.old watch.new }
{
    let cube = cube_of(book, leaf)?;
    search.enter(cube.as_slice())?;
    match run(book, mode, search, fuel, counts, watch, recorder)? {
        Left::Closed(nogood) => {
            book.close(0, leaf, nogood.lits.as_slice())?;
            Ok(None)
        }
        Left::Enough => {
            book.release(0, leaf);
            Ok(None)
        }
        Left::Unpaid(conflict) => {
            book.release(0, leaf);
            Ok(Some(conflict))
        }
    }
}
