//! How a worker gives away half of its path, and when it gives all of it up.
ghost use Rattle.std.specs.Prelude.{◌≡◌, ◌≤◌, List, Some, true, false, IsTrue, OnOk, OnErr, IfErr};
ghost use Rattle.asp_vars.specs.Literals.{Literal};
ghost use Rattle.asp_vault.specs.Seats.{view, IsOf, IsBeside};
ghost use Rattle.asp_path.specs.Trees.{cube_of};
ghost use Rattle.asp_core.specs.Boards.{is_enough};
ghost use Rattle.asp_core.specs.Events.{has_var, IsVariable};
ghost use Rattle.asp_book.specs.Calls.{task_of, seen_board};
ghost use Rattle.asp_search.specs.Beside.{Enters, IsOpen};
ghost use Rattle.asp_slots.specs.Shelves.{seen_count};
ghost use Rattle.asp_worker.specs.Seats.{IsReady, Keeps, IsSettled, Idles, Passes, Holds, HoldsHalf};
ghost use Rattle.asp_worker.specs.Working.{GoesOn, IsOn, IsOff, IsStop};

use crate::engine::Engine;
use crate::sharing::refresh;
use crate::stop::Stop;
use crate::worker::{Shared, Worker};
use asp_book::book::Book;
use asp_book::desk;
use asp_path::tree::Leaf;
use asp_pool::Lane;
use asp_propagate::propagator::Propagator;
use asp_search::search::Search;
use asp_vars::lit::Lit;
use asp_vault::Seat;
use std::alloc::AllocError;
use std::sync::Wait;

/// After so many steps a worker tells what it did, and looks whether others want a path, and whether answers are wanted still.
pub(crate) const STRIDE: u64 = 32;

/// A worker gives nothing away before it has met so many conflicts ..
const CONFLICTS: u64 = 500;

/// .. or found so many answers ..
const ANSWERS: u64 = 64;

/// .. or made so many steps without a conflict.
const STEPS: u64 = 2000;

// Begins the search of a path that the worker holds.
fn enter<R: Wait, P: Propagator>(
    rt: &R,
    shared: &Shared<'_>,
    seat: &mut Seat<Book>,
    search: &mut Search<'_, P>,
    leaf: Leaf,
) -> Result<(), AllocError>
    requires of { IsOf shared.now.book seat.old }
    requires settled { IsSettled (view seat.old) }
    requires held { Holds (view seat.old) leaf }
    requires program { search.old.program ≡ (task_of (view seat.old)).program }
    ensures of { IsBeside seat.old seat.new }
    ensures idles { Idles (view seat.old) (view seat.new) }
    ensures ok { OnOk result (Enters search.old search.new (cube_of (seen_board (view seat.new)).nodes leaf)) }
    ensures err { OnErr result (search.new.program ≡ search.old.program) }
{
    let cube = desk::cube(rt, &shared.book, seat, leaf)?;
    search.enter(cube.as_slice())
}

/// Begins the search of a path that the worker holds, with what others have found.
pub(crate) fn begin<R: Wait, P: Propagator>(
    rt: &R,
    shared: &Shared<'_>,
    worker: &mut Worker,
    engine: &mut Engine<'_, P>,
    leaf: Leaf,
) -> Result<(), AllocError>
    requires ready { IsReady shared.now worker.old }
    requires held { Holds (view worker.old.seat) leaf }
    requires going { GoesOn shared.now.mode (view worker.old.seat) engine.old.search engine.old.fuel }
    requires read { engine.old.read ≤ seen_count worker.old.pages }
    ensures keeps { Keeps worker.old worker.new }
    ensures ready { IsReady shared.now worker.new }
    ensures idles { Idles (view worker.old.seat) (view worker.new.seat) }
    ensures read { engine.new.read ≤ seen_count worker.new.pages }
    ensures ok { OnOk result (IsOn shared.now.mode (view worker.new.seat) engine.new.search engine.new.fuel leaf) }
    ensures err { OnErr result (IsOff (view worker.new.seat) engine.new.fuel leaf) }
{
    enter(rt, shared, &mut worker.seat, &mut engine.search, leaf)?;
    refresh(rt, shared, worker, engine)
}

// What becomes of a half that this worker doesn't go on with.
#[derive(Clone, Copy)]
enum Other {
    // It is offered to all.
    Offered,
    // This worker takes it itself, once its own half is closed.
    Rest,
}

// Offers a half, or keeps it in mind.
fn put(lane: &mut Lane, rest: &mut Option<Leaf>, half: Leaf, other: Other) {
    match other {
        Other::Offered => {
            let _offered = lane.offer(half);
        }
        Other::Rest => *rest = Some(half),
    }
}

// Splits the path on a literal, and puts the half that hasn't it where it belongs.
fn divide<R: Wait>(
    rt: &R,
    shared: &Shared<'_>,
    worker: &mut Worker,
    rest: &mut Option<Leaf>,
    leaf: Leaf,
    lit: Lit,
    other: Other,
) -> Result<Option<Leaf>, AllocError>
    requires ready { IsReady shared.now worker.old }
    requires held { Holds (view worker.old.seat) leaf }
    requires variable { IsVariable (task_of (view worker.old.seat)).program lit.var }
    requires new { has_var (cube_of (seen_board (view worker.old.seat)).nodes leaf) lit.var ≡ false }
    ensures keeps { Keeps worker.old worker.new }
    ensures ready { IsReady shared.now worker.new }
    ensures pages { worker.new.pages ≡ worker.old.pages }
    ensures passes { Passes (view worker.old.seat) (view worker.new.seat) }
    ensures half { HoldsHalf (view worker.old.seat) (view worker.new.seat) leaf lit result }
{
    match desk::split(rt, &shared.book, &mut worker.seat, leaf, lit)? {
        None => Ok(None),
        Some((mine, half)) => {
            put(&mut worker.lane, rest, half, other);
            Ok(Some(mine))
        }
    }
}

// Splits the path on a literal, puts the half that hasn't it where it belongs, and goes on with the other.
//
// The path that the worker then has is in `leaf`, also after want of memory.
fn split_on<R: Wait, P: Propagator>(
    rt: &R,
    shared: &Shared<'_>,
    worker: &mut Worker,
    engine: &mut Engine<'_, P>,
    leaf: &mut Leaf,
    lit: Lit,
    other: Other,
) -> Result<(), AllocError>
    requires ready { IsReady shared.now worker.old }
    requires on { IsOn shared.now.mode (view worker.old.seat) engine.old.search engine.old.fuel leaf.old }
    requires open { (q : List Literal) → engine.old.search.cube ≡ Some q → IsOpen engine.old.search.program q lit }
    requires read { engine.old.read ≤ seen_count worker.old.pages }
    ensures keeps { Keeps worker.old worker.new }
    ensures ready { IsReady shared.now worker.new }
    ensures read { engine.new.read ≤ seen_count worker.new.pages }
    ensures ok { OnOk result (IsOn shared.now.mode (view worker.new.seat) engine.new.search engine.new.fuel leaf.new) }
    ensures err { OnErr result (IsOff (view worker.new.seat) engine.new.fuel leaf.new) }
{
    match divide(rt, shared, worker, &mut engine.rest, *leaf, lit, other)? {
        None => Ok(()),
        Some(half) => {
            *leaf = half;
            begin(rt, shared, worker, engine, half)
        }
    }
}

// Where others want a path, splits that of this worker, offers one half and goes on with the other: by a literal that all answers have
// that were found on it, so that the other half has none of them.
//
// The path that the worker then has is in `leaf`, also after want of memory.
fn offer_half<R: Wait, P: Propagator>(
    rt: &R,
    shared: &Shared<'_>,
    worker: &mut Worker,
    engine: &mut Engine<'_, P>,
    leaf: &mut Leaf,
) -> Result<(), AllocError>
    requires ready { IsReady shared.now worker.old }
    requires on { IsOn shared.now.mode (view worker.old.seat) engine.old.search engine.old.fuel leaf.old }
    requires read { engine.old.read ≤ seen_count worker.old.pages }
    ensures keeps { Keeps worker.old worker.new }
    ensures ready { IsReady shared.now worker.new }
    ensures read { engine.new.read ≤ seen_count worker.new.pages }
    ensures ok { OnOk result (IsOn shared.now.mode (view worker.new.seat) engine.new.search engine.new.fuel leaf.new) }
    ensures err { OnErr result (IsOff (view worker.new.seat) engine.new.fuel leaf.new) }
{
    match engine.search.divider() {
        None => Ok(()),
        Some(lit) => {
            if !desk::wanted(rt, &shared.book, &mut worker.seat, shared.workers) {
                return Ok(());
            }
            split_on(rt, shared, worker, engine, leaf, lit, Other::Offered)
        }
    }
}

// Sheds what was searched. Once a decision under which answers were found is taken back, the tree still has both of its halves, and
// a half that is given away later would have these answers in it again. So the path is split on that decision: the half that was
// searched is closed with the next step, and then this worker takes the other.
//
// The path that the worker then has is in `leaf`, also after want of memory.
fn shed<R: Wait, P: Propagator>(
    rt: &R,
    shared: &Shared<'_>,
    worker: &mut Worker,
    engine: &mut Engine<'_, P>,
    leaf: &mut Leaf,
) -> Result<(), AllocError>
    requires ready { IsReady shared.now worker.old }
    requires on { IsOn shared.now.mode (view worker.old.seat) engine.old.search engine.old.fuel leaf.old }
    requires read { engine.old.read ≤ seen_count worker.old.pages }
    ensures keeps { Keeps worker.old worker.new }
    ensures ready { IsReady shared.now worker.new }
    ensures read { engine.new.read ≤ seen_count worker.new.pages }
    ensures ok { OnOk result (IsOn shared.now.mode (view worker.new.seat) engine.new.search engine.new.fuel leaf.new) }
    ensures err { OnErr result (IsOff (view worker.new.seat) engine.new.fuel leaf.new) }
{
    match engine.search.searched() {
        None => Ok(()),
        Some(lit) => split_on(rt, shared, worker, engine, leaf, lit, Other::Rest),
    }
}

/// Whether as many answers as asked for were delivered.
pub(crate) fn is_enough<R: Wait>(rt: &R, shared: &Shared<'_>, worker: &mut Worker) -> bool
    requires ready { IsReady shared.now worker.old }
    ensures keeps { Keeps worker.old worker.new }
    ensures ready { IsReady shared.now worker.new }
    ensures idles { Idles (view worker.old.seat) (view worker.new.seat) }
    ensures enough { IsTrue result → is_enough (seen_board (view worker.new.seat)) ≡ true }
{
    if shared.models == 0 {
        return false;
    }
    desk::enough(rt, &shared.book, &mut worker.seat)
}

// Whether the search knows by now on what a path is split well. What needs no conflict is split sooner: there all are as good.
fn is_ripe<P: Propagator>(engine: &Engine<'_, P>) -> bool {
    let did = &engine.did;
    did.conflicts >= CONFLICTS
        || did.answers >= ANSWERS
        || (did.conflicts == 0 && engine.step >= STEPS)
}

// Where it is time, stops if as many answers as asked for were delivered, and else gives half of the path away if others want one.
//
// The path that the worker then has is in `leaf`, also after an error.
fn offer<R: Wait, P: Propagator>(
    rt: &R,
    shared: &Shared<'_>,
    worker: &mut Worker,
    engine: &mut Engine<'_, P>,
    leaf: &mut Leaf,
) -> Result<(), Stop>
    requires ready { IsReady shared.now worker.old }
    requires on { IsOn shared.now.mode (view worker.old.seat) engine.old.search engine.old.fuel leaf.old }
    requires read { engine.old.read ≤ seen_count worker.old.pages }
    ensures keeps { Keeps worker.old worker.new }
    ensures ready { IsReady shared.now worker.new }
    ensures read { engine.new.read ≤ seen_count worker.new.pages }
    ensures ok { OnOk result (IsOn shared.now.mode (view worker.new.seat) engine.new.search engine.new.fuel leaf.new) }
    ensures err { OnErr result (IsOff (view worker.new.seat) engine.new.fuel leaf.new) }
    ensures stop { IfErr result (IsStop (view worker.new.seat)) }
{
    if engine.step % STRIDE != 0 {
        return Ok(());
    }
    if is_enough(rt, shared, worker) {
        return Err(Stop::Enough);
    }
    if !is_ripe(engine) {
        return Ok(());
    }
    offer_half(rt, shared, worker, engine, leaf)?;
    Ok(())
}

/// Sheds what was searched, and where it is time stops if as many answers as asked for were delivered, and else gives half of
/// the path away if others want one.
///
/// The path that the worker then has is in `leaf`, also after an error.
pub(crate) fn share<R: Wait, P: Propagator>(
    rt: &R,
    shared: &Shared<'_>,
    worker: &mut Worker,
    engine: &mut Engine<'_, P>,
    leaf: &mut Leaf,
) -> Result<(), Stop>
    requires ready { IsReady shared.now worker.old }
    requires on { IsOn shared.now.mode (view worker.old.seat) engine.old.search engine.old.fuel leaf.old }
    requires read { engine.old.read ≤ seen_count worker.old.pages }
    ensures keeps { Keeps worker.old worker.new }
    ensures ready { IsReady shared.now worker.new }
    ensures read { engine.new.read ≤ seen_count worker.new.pages }
    ensures ok { OnOk result (IsOn shared.now.mode (view worker.new.seat) engine.new.search engine.new.fuel leaf.new) }
    ensures err { OnErr result (IsOff (view worker.new.seat) engine.new.fuel leaf.new) }
    ensures stop { IfErr result (IsStop (view worker.new.seat)) }
{
    shed(rt, shared, worker, engine, leaf)?;
    offer(rt, shared, worker, engine, leaf)
}
