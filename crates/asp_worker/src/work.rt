//! A worker's work from its beginning to its end.
ghost use Rattle.std.specs.Prelude.{◌≡◌, ◌<◌, ◌≤◌, IfOk, OnErr, OnOk};
ghost use Rattle.asp_vault.specs.Seats.{view};
ghost use Rattle.asp_core.specs.Units.{out_of};
ghost use Rattle.asp_book.specs.Calls.{seen_board};
ghost use Rattle.asp_crew_laws.specs.Gone.{IsSmall};
ghost use Rattle.asp_slots.specs.Shelves.{seen_count};
ghost use Rattle.asp_worker.specs.Seats.{IsIdle, IsPlaced, IsReady, IsRunOf, Keeps, Holds, HasCause, IsFree, Owes, OwnAre, MayWork, Worked};
ghost use Rattle.asp_worker.specs.Working.{GoesOn, Ended};

use crate::engine::{Engine, ended, start};
use crate::find::find;
use crate::gate::Gate;
use crate::halt::Halt;
use crate::path::{Way, path};
use crate::worker::{Shared, Worker};
use asp_book::desk;
use asp_counts::counts::Counts;
use asp_counts::watch::Watch;
use asp_path::tree::Leaf;
use asp_proof::proof::Sought;
use asp_propagate::propagator::Propagator;
use asp_recorder::recorder::Recorder;
use asp_vars::compiled::Compiled;
use asp_vars::fuel::Fuel;
use std::alloc::AllocError;
use std::sync::Wait;

// Searches a path, and opens it again where it isn't closed.
fn try_path<R: Wait, P: Propagator, H: Halt, W: Watch>(
    rt: &R,
    shared: &Shared<'_>,
    halt: &H,
    worker: &mut Worker,
    engine: &mut Engine<'_, P>,
    leaf: Leaf,
    watch: &mut W,
) -> Way
    requires ready { IsReady shared.now worker.old }
    requires number { 0 < (view worker.old.seat).number }
    requires held { Holds (view worker.old.seat) leaf }
    requires going { GoesOn shared.now.mode (view worker.old.seat) engine.old.search engine.old.fuel }
    requires read { engine.old.read ≤ seen_count worker.old.pages }
    ensures keeps { Keeps worker.old worker.new }
    ensures placed { IsPlaced shared.now worker.new }
    ensures read { engine.new.read ≤ seen_count worker.new.pages }
    ensures free { IsFree (view worker.new.seat) }
    ensures owes { Owes (view worker.new.seat) engine.new.fuel }
    ensures small { OwnAre IsSmall (view worker.new.seat) }
    ensures going { Ended (H.never halt.now → ⊥) shared.now.mode (view worker.new.seat) engine.new.search engine.new.fuel result }
    ensures heard { W.IsAfter watch.old watch.new }
{
    let mut held = leaf;
    let way = path(rt, shared, halt, worker, engine, &mut held, watch);
    match way {
        Way::Closed => Way::Closed,
        Way::Left => {
            desk::release(rt, &shared.book, &mut worker.seat, held);
            Way::Left
        }
        Way::Short => {
            desk::release(rt, &shared.book, &mut worker.seat, held);
            Way::Short
        }
    }
}

// Searches a path, and then others that it takes. Says whether it ended for want of memory.
fn search_paths<R: Wait, P: Propagator, G: Gate, H: Halt, W: Watch>(
    rt: &R,
    shared: &Shared<'_>,
    gate: &G,
    halt: &H,
    worker: &mut Worker,
    engine: &mut Engine<'_, P>,
    first: Leaf,
    watch: &mut W,
) -> bool
    requires ready { IsReady shared.now worker.old }
    requires number { 0 < (view worker.old.seat).number }
    requires held { Holds (view worker.old.seat) first }
    requires going { GoesOn shared.now.mode (view worker.old.seat) engine.old.search engine.old.fuel }
    requires read { engine.old.read ≤ seen_count worker.old.pages }
    ensures keeps { Keeps worker.old worker.new }
    ensures placed { IsPlaced shared.now worker.new }
    ensures free { IsFree (view worker.new.seat) }
    ensures owes { Owes (view worker.new.seat) engine.new.fuel }
    ensures small { OwnAre IsSmall (view worker.new.seat) }
    ensures cause { HasCause (H.never halt.now → ⊥) result (view worker.old.seat).seen (view worker.new.seat) }
    ensures heard { W.IsAfter watch.old watch.new }
{
    let mut leaf = first;
    'paths: for _ in rt.forever() {
        gate.pass(worker.seat.number() - 1, engine.turn);
        engine.turn = engine.turn.wrapping_add(1);
        match try_path(rt, shared, halt, worker, engine, leaf, watch) {
            Way::Closed => {}
            Way::Left => return false,
            Way::Short => return true,
        }
        match find(
            rt,
            shared,
            &mut worker.seat,
            &mut worker.lane,
            &mut worker.pass,
            engine.rest.take(),
        ) {
            Err(_) => return true,
            Ok(found) => match found {
                None => return false,
                Some(next) => leaf = next,
            },
        }
    }
    unreachable!()
}

// A search that begins with a path: its units, what it did, and whether memory was wanting. Without memory for a search the path
// is given back.
fn search_from<R: Wait, G: Gate, H: Halt, W: Watch>(
    rt: &R,
    shared: &Shared<'_>,
    compiled: &Compiled,
    gate: &G,
    halt: &H,
    worker: &mut Worker,
    first: Leaf,
    watch: &mut W,
) -> Result<(Fuel, Counts, bool), AllocError>
    requires ready { IsReady shared.now worker.old }
    requires number { 0 < (view worker.old.seat).number }
    requires run { IsRunOf compiled.now shared.now.mode (view worker.old.seat) }
    requires held { Holds (view worker.old.seat) first }
    requires home { out_of (seen_board (view worker.old.seat)).out (view worker.old.seat).number ≡ 0 }
    ensures keeps { Keeps worker.old worker.new }
    ensures placed { IsPlaced shared.now worker.new }
    ensures free { OnOk result (IsFree (view worker.new.seat)) }
    ensures owes { IfOk result (λ r. Owes (view worker.new.seat) r.0) }
    ensures small { OwnAre IsSmall (view worker.new.seat) }
    ensures cause { IfOk result (λ r. HasCause (H.never halt.now → ⊥) r.2 (view worker.old.seat).seen (view worker.new.seat)) }
    ensures idle { OnErr result (IsIdle (view worker.new.seat)) }
    ensures heard { W.IsAfter watch.old watch.new }
{
    let recorder = Recorder::new(shared.alloc, Sought::All);
    match start(shared, compiled, &recorder) {
        Err(error) => {
            desk::release(rt, &shared.book, &mut worker.seat, first);
            Err(error)
        }
        Ok(mut engine) => {
            let short = search_paths(rt, shared, gate, halt, worker, &mut engine, first, watch);
            let (fuel, did) = ended(engine);
            Ok((fuel, did, short))
        }
    }
}

// A search of paths until none is left or wanted: its units, what it did, and whether memory was wanting. It begins once there is
// a path: a worker that never has one takes no memory for a search. Without memory for one the worker has nothing.
fn searched<R: Wait, G: Gate, H: Halt, W: Watch>(
    rt: &R,
    shared: &Shared<'_>,
    compiled: &Compiled,
    gate: &G,
    halt: &H,
    worker: &mut Worker,
    watch: &mut W,
) -> Result<(Fuel, Counts, bool), AllocError>
    requires { MayWork compiled.now shared.now worker.old }
    ensures keeps { Keeps worker.old worker.new }
    ensures placed { IsPlaced shared.now worker.new }
    ensures free { OnOk result (IsFree (view worker.new.seat)) }
    ensures owes { IfOk result (λ r. Owes (view worker.new.seat) r.0) }
    ensures small { OwnAre IsSmall (view worker.new.seat) }
    ensures cause { IfOk result (λ r. HasCause (H.never halt.now → ⊥) r.2 (view worker.old.seat).seen (view worker.new.seat)) }
    ensures idle { OnErr result (IsIdle (view worker.new.seat)) }
    ensures heard { W.IsAfter watch.old watch.new }
{
    let found = find(
        rt,
        shared,
        &mut worker.seat,
        &mut worker.lane,
        &mut worker.pass,
        None,
    )?;
    match found {
        None => Ok((Fuel::of(compiled, 0), Counts::new(), false)),
        Some(first) => search_from(rt, shared, compiled, gate, halt, worker, first, watch),
    }
}

/// A worker's whole work: it searches paths until none is left or wanted, and gives all back. On the way the watch hears now
/// and then what all workers did so far.
// Where no thread can be made, all workers are called on one stack, a few calls deep: what a search needs of it stays out of
// those frames.
#[inline(never)]
pub fn work<R: Wait, G: Gate, H: Halt, W: Watch>(
    rt: &R,
    shared: &Shared<'_>,
    compiled: &Compiled,
    gate: &G,
    halt: &H,
    worker: &mut Worker,
    watch: &mut W,
)
    requires { MayWork compiled.now shared.now worker.old }
    ensures work { Worked (H.never halt.now → ⊥) shared.now worker.old worker.new }
    ensures heard { W.IsAfter watch.old watch.new }
{
    match searched(rt, shared, compiled, gate, halt, worker, watch) {
        Ok((fuel, did, short)) => {
            worker.short = short;
            let _sum = shared.tallies.tell(rt, worker.seat.number(), &did);
            desk::back(rt, &shared.book, &mut worker.seat, fuel);
        }
        Err(_) => worker.short = true,
    }
}
