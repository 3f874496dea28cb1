//! How a worker searches a path.
ghost use Rattle.std.specs.Prelude.{◌≡◌, ◌<◌, ◌≤◌, IfOk, IfErr, IsSome, IsTrue, OnOk, OnErr};
ghost use Rattle.asp_vars.specs.Conflicts.{has_all};
ghost use Rattle.asp_vars.specs.Entailment.{HitsOnly};
ghost use Rattle.asp_vault.specs.Seats.{view, IsOf, IsBeside};
ghost use Rattle.asp_path.specs.Trees.{cube_of};
ghost use Rattle.asp_core.specs.Boards.{is_excused};
ghost use Rattle.asp_book.specs.Calls.{task_of, seen_board};
ghost use Rattle.asp_search_laws.specs.Steps.{IsStep};
ghost use Rattle.asp_slots.specs.Shelves.{seen_count};
ghost use Rattle.asp_worker.specs.Seats.{IsReady, Keeps, IsSettled, Passes, Holds, IsFree};
ghost use Rattle.asp_worker.specs.Working.{GoesOn, IsOn, IsOff, IsCourse, IsStop, IsWay, Pays};

use crate::engine::Engine;
use crate::gather::answer;
use crate::halt::Halt;
use crate::share::{STRIDE, begin, is_enough, share};
use crate::sharing::{export, lease, refresh};
use crate::stop::Stop;
use crate::worker::{Shared, Worker};
use crate::writing::note;
use asp_book::book::Book;
use asp_book::desk;
use asp_counts::counts::Counts;
use asp_counts::watch::{Best, Watch};
use asp_path::tree::Leaf;
use asp_propagate::propagator::Propagator;
use asp_recorder::recorder::Recorder;
use asp_search::search::Search;
use asp_search_laws::step::Step;
use asp_vars::fuel::Fuel;
use asp_vars::nogood::Nogood;
use asp_vault::Seat;
use std::alloc::AllocError;
use std::sync::Wait;

/// How a worker left a path.
#[derive(Clone, Copy, PartialEq, Eq)]
pub(crate) enum Way {
    /// It is closed.
    Closed,
    /// As many answers as asked for were delivered, no unit was left, or the worker was stopped. It still has the path, and ends.
    Left,
    /// Memory was wanting. The worker still has it, and ends.
    Short,
}

/// How a step left the path.
#[derive(Drop)]
pub(crate) enum Course {
    /// There is more to search.
    Open,
    /// Nothing is left to be found, by this nogood.
    Done(Nogood),
    /// No unit was left for a conflict.
    Spent,
}

// Closes a path of which nothing is left to be found, by this nogood.
fn close<R: Wait>(
    rt: &R,
    shared: &Shared<'_>,
    seat: &mut Seat<Book>,
    leaf: Leaf,
    nogood: &Nogood,
) -> Result<(), AllocError>
    requires of { IsOf shared.now.book seat.old }
    requires settled { IsSettled (view seat.old) }
    requires held { Holds (view seat.old) leaf }
    requires within { IsTrue (has_all (cube_of (seen_board (view seat.old)).nodes leaf) nogood.now.lits) }
    requires done { HitsOnly (task_of (view seat.old)).program (is_excused (seen_board (view seat.old))) nogood.now.lits }
    ensures of { IsBeside seat.old seat.new }
    ensures passes { Passes (view seat.old) (view seat.new) }
    ensures ok { OnOk result (IsFree (view seat.new)) }
    ensures err { OnErr result (Holds (view seat.new) leaf) }
{
    desk::close(rt, &shared.book, seat, leaf, nogood.lits.as_slice())
}

/// One step of the search, which is counted and written down.
pub(crate) fn step<R: Wait, P: Propagator>(
    rt: &R,
    shared: &Shared<'_>,
    search: &mut Search<'_, P>,
    fuel: &mut Fuel,
    did: &mut Counts,
    recorder: Option<&Recorder>,
) -> Result<Step, AllocError>
    requires entered { IsSome search.old.cube }
    requires program { fuel.old.program ≡ search.old.program }
    ensures ok { IfOk result (IsStep (P.gives search.old.program search.old.bound) (P.silent search.old.program search.old.bound) search.old search.new fuel.old fuel.new) }
    ensures err { OnErr result (Pays search.old fuel.old fuel.new) }
{
    let step = search.step(fuel)?;
    did.count(&step, search.implied() as u64, search.extra() as u64);
    note(rt, shared, search, &step, recorder)?;
    Ok(step)
}

// A step of the search, and what it asks for.
fn advance<R: Wait, P: Propagator>(
    rt: &R,
    shared: &Shared<'_>,
    worker: &mut Worker,
    engine: &mut Engine<'_, P>,
    leaf: Leaf,
) -> Result<Course, Stop>
    requires ready { IsReady shared.now worker.old }
    requires on { IsOn shared.now.mode (view worker.old.seat) engine.old.search engine.old.fuel leaf }
    requires read { engine.old.read ≤ seen_count worker.old.pages }
    ensures keeps { Keeps worker.old worker.new }
    ensures ready { IsReady shared.now worker.new }
    ensures read { engine.new.read ≤ seen_count worker.new.pages }
    ensures ok { OnOk result (IsOn shared.now.mode (view worker.new.seat) engine.new.search engine.new.fuel leaf) }
    ensures course { IfOk result (IsCourse (view worker.new.seat) engine.new.search leaf) }
    ensures err { OnErr result (IsOff (view worker.new.seat) engine.new.fuel leaf) }
    ensures stop { IfErr result (IsStop (view worker.new.seat)) }
{
    let _leaf = leaf;
    match step(
        rt,
        shared,
        &mut engine.search,
        &mut engine.fuel,
        &mut engine.did,
        engine.recorder,
    )? {
        Step::Decided => Ok(Course::Open),
        Step::Learnt => {
            export(
                rt,
                shared,
                &mut worker.pages,
                &engine.search,
                engine.recorder,
            );
            Ok(Course::Open)
        }
        Step::Restarted => {
            refresh(rt, shared, worker, engine)?;
            Ok(Course::Open)
        }
        Step::Answer(set) => answer(rt, shared, worker, engine, leaf, set),
        Step::NoFuel(_) => {
            let leased = lease(rt, shared, &mut worker.seat, engine)?;
            if leased {
                Ok(Course::Open)
            } else {
                Ok(Course::Spent)
            }
        }
        Step::Closed(nogood) => Ok(Course::Done(nogood)),
    }
}

// What the best answer costs that this search knows of, if there is one.
fn best<'a, P: Propagator>(search: &'a Search<'_, P>) -> Option<Best<'a>> {
    match search.bound() {
        None => None,
        Some(cost) => Some(Best { cost, set: None }),
    }
}

// Where it is time, tells what this worker did, and the watch what all did, with the cost of the best answer that this one
// knows of.
fn tell<R: Wait, P: Propagator, W: Watch>(
    rt: &R,
    shared: &Shared<'_>,
    number: u32,
    engine: &Engine<'_, P>,
    watch: &mut W,
)
    ensures { W.IsAfter watch.old watch.new }
{
    if engine.step % STRIDE != 0 {
        return;
    }
    let sum = shared.tallies.tell(rt, number, &engine.did);
    watch.tell(&sum, best(&engine.search));
}

// Steps until the path is closed or left.
fn search_path<R: Wait, P: Propagator, H: Halt, W: Watch>(
    rt: &R,
    shared: &Shared<'_>,
    halt: &H,
    worker: &mut Worker,
    engine: &mut Engine<'_, P>,
    leaf: &mut Leaf,
    watch: &mut W,
) -> Result<Way, Stop>
    requires ready { IsReady shared.now worker.old }
    requires number { 0 < (view worker.old.seat).number }
    requires on { IsOn shared.now.mode (view worker.old.seat) engine.old.search engine.old.fuel leaf.old }
    requires read { engine.old.read ≤ seen_count worker.old.pages }
    ensures keeps { Keeps worker.old worker.new }
    ensures ready { IsReady shared.now worker.new }
    ensures read { engine.new.read ≤ seen_count worker.new.pages }
    ensures ok { IfOk result (IsWay (H.never halt.now → ⊥) shared.now.mode (view worker.new.seat) engine.new.search engine.new.fuel leaf.new) }
    ensures err { OnErr result (IsOff (view worker.new.seat) engine.new.fuel leaf.new) }
    ensures stop { IfErr result (IsStop (view worker.new.seat)) }
    ensures heard { W.IsAfter watch.old watch.new }
{
    let number = worker.seat.number() - 1;
    'steps: for _ in rt.forever() {
        if halt.stop(number, engine.step) {
            return Ok(Way::Left);
        }
        engine.step = engine.step.wrapping_add(1);
        let course = advance(rt, shared, worker, engine, *leaf)?;
        tell(rt, shared, worker.seat.number(), engine, watch);
        match course {
            Course::Open => share(rt, shared, worker, engine, leaf)?,
            Course::Spent => return Ok(Way::Left),
            Course::Done(nogood) => {
                close(rt, shared, &mut worker.seat, *leaf, &nogood)?;
                return Ok(Way::Closed);
            }
        }
    }
    unreachable!()
}

// Begins a path, if answers are wanted still, and searches it.
fn try_path<R: Wait, P: Propagator, H: Halt, W: Watch>(
    rt: &R,
    shared: &Shared<'_>,
    halt: &H,
    worker: &mut Worker,
    engine: &mut Engine<'_, P>,
    leaf: &mut Leaf,
    watch: &mut W,
) -> Result<Way, Stop>
    requires ready { IsReady shared.now worker.old }
    requires number { 0 < (view worker.old.seat).number }
    requires held { Holds (view worker.old.seat) leaf.old }
    requires going { GoesOn shared.now.mode (view worker.old.seat) engine.old.search engine.old.fuel }
    requires read { engine.old.read ≤ seen_count worker.old.pages }
    ensures keeps { Keeps worker.old worker.new }
    ensures ready { IsReady shared.now worker.new }
    ensures read { engine.new.read ≤ seen_count worker.new.pages }
    ensures ok { IfOk result (IsWay (H.never halt.now → ⊥) shared.now.mode (view worker.new.seat) engine.new.search engine.new.fuel leaf.new) }
    ensures err { OnErr result (IsOff (view worker.new.seat) engine.new.fuel leaf.new) }
    ensures stop { IfErr result (IsStop (view worker.new.seat)) }
    ensures heard { W.IsAfter watch.old watch.new }
{
    if is_enough(rt, shared, worker) {
        return Err(Stop::Enough);
    }
    begin(rt, shared, worker, engine, *leaf)?;
    search_path(rt, shared, halt, worker, engine, leaf, watch)
}

/// Searches a path that the worker holds. Where it isn't closed then, the worker holds the path in `leaf`.
pub(crate) fn path<R: Wait, P: Propagator, H: Halt, W: Watch>(
    rt: &R,
    shared: &Shared<'_>,
    halt: &H,
    worker: &mut Worker,
    engine: &mut Engine<'_, P>,
    leaf: &mut Leaf,
    watch: &mut W,
) -> Way
    requires ready { IsReady shared.now worker.old }
    requires number { 0 < (view worker.old.seat).number }
    requires held { Holds (view worker.old.seat) leaf.old }
    requires going { GoesOn shared.now.mode (view worker.old.seat) engine.old.search engine.old.fuel }
    requires read { engine.old.read ≤ seen_count worker.old.pages }
    ensures keeps { Keeps worker.old worker.new }
    ensures ready { IsReady shared.now worker.new }
    ensures read { engine.new.read ≤ seen_count worker.new.pages }
    ensures way { IsWay (H.never halt.now → ⊥) shared.now.mode (view worker.new.seat) engine.new.search engine.new.fuel leaf.new result }
    ensures heard { W.IsAfter watch.old watch.new }
{
    match try_path(rt, shared, halt, worker, engine, leaf, watch) {
        Ok(way) => way,
        Err(Stop::Enough) => Way::Left,
        Err(Stop::Memory) => Way::Short,
    }
}
