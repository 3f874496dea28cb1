//! Workers side by side.
ghost use Rattle.std.specs.Prelude.{◌≡◌, ◌||◌, length};
ghost use Rattle.std.specs.List.{All, AllZip};
ghost use denote.Param.Send.{IsSync};
ghost use Rattle.asp_vault.specs.Seats.{view};
ghost use Rattle.asp_slots.specs.Shelves.{TakesBack};
ghost use Rattle.asp_worker.specs.Seats.{MayWork, Worked};
ghost use Rattle.asp_team.specs.Joined.{CameBack, CameHome, IsBack, IsLead, Joins, MayJoin, StayHome};

use crate::lead::Lead;
use asp_counts::watch::{Unwatched, Watch};
use asp_vars::compiled::Compiled;
use asp_worker::gate::Gate;
use asp_worker::halt::Halt;
use asp_worker::work::work;
use asp_worker::worker::{Shared, Worker};
use std::sync::Wait;
use std::thread;
use std::thread::{Threads, join_mut};

fn either(one: bool, other: bool) -> bool
    ensures { result ≡ (one || other) }
{
    one || other
}

// Takes a worker's seats back.
fn joined(shared: &Shared<'_>, lead: Lead, worker: Worker) -> Lead
    requires lead { IsLead shared.now lead }
    requires back { IsBack shared.now (view lead.seat).about worker }
    ensures lead { IsLead shared.now result }
    ensures joins { Joins (view lead.seat) (view result.seat) 1 }
    ensures pages_join { TakesBack lead.pages result.pages 1 }
    ensures stay { StayHome lead result }
    ensures came { CameBack result worker }
{
    let Lead {
        mut seat,
        mut pages,
        short,
    } = lead;
    let short = either(short, worker.short);
    let Worker {
        seat: other,
        pages: others,
        lane: _,
        pass: _,
        short: _,
    } = worker;
    shared.book.join(&mut seat, other);
    shared.log.join(&mut pages, others);
    Lead { seat, pages, short }
}

// Takes the seats of all workers back.
fn all_joined(shared: &Shared<'_>, lead: Lead, mut workers: Vec<Worker>) -> Lead
    requires lead { IsLead shared.now lead }
    requires back { All (IsBack shared.now (view lead.seat).about) workers.items }
    ensures lead { IsLead shared.now result }
    ensures joins { Joins (view lead.seat) (view result.seat) (length workers.items) }
    ensures pages_join { TakesBack lead.pages result.pages (length workers.items) }
    ensures stay { StayHome lead result }
    ensures came { All (CameBack result) workers.items }
{
    let mut lead = lead;
    'workers: while let Some(worker) = workers.pop() {
        lead = joined(shared, lead, worker);
    }
    lead
}

// Each worker works, in a thread of its own where one can be made. They are halved again and again: where no thread can be
// made, calls nest as deep as the logarithm of their number.
fn halved<R: Threads + Wait + Sync, G: Gate + Sync, H: Halt + Sync>(
    rt: &R,
    shared: &Shared<'_>,
    compiled: &Compiled,
    gate: &G,
    halt: &H,
    workers: &mut [Worker],
)
    requires { All (MayWork compiled.now shared.now) workers.old }
    ensures { AllZip (Worked (H.never halt.now → ⊥) shared.now) workers.old workers.new }
{
    let count = workers.len();
    let one = move |_: usize, worker: &mut Worker|
        requires { MayWork compiled.now shared.now worker.now }
        ensures { Worked (H.never halt.entry.now → ⊥) shared.entry.now worker.entry.now worker.exit.now }
    { work(rt, shared, compiled, gate, halt, worker, &mut Unwatched) };
    thread::for_each_mut(rt, workers, count.max(1), &one);
}

// The same. One alone needs no halves. And as `work` is called in two places, it isn't made part of the frames that nest.
fn each<R: Threads + Wait + Sync, G: Gate + Sync, H: Halt + Sync>(
    rt: &R,
    shared: &Shared<'_>,
    compiled: &Compiled,
    gate: &G,
    halt: &H,
    workers: &mut [Worker],
)
    requires { All (MayWork compiled.now shared.now) workers.old }
    ensures { AllZip (Worked (H.never halt.now → ⊥) shared.now) workers.old workers.new }
{
    if workers.len() == 1 {
        work(
            rt,
            shared,
            compiled,
            gate,
            halt,
            &mut workers[0],
            &mut Unwatched,
        );
    } else {
        halved(rt, shared, compiled, gate, halt, workers);
    }
}

// One worker works in this thread, with the watch, and the others beside it.
fn beside<R: Threads + Wait + Sync, G: Gate + Sync, H: Halt + Sync, W: Watch>(
    rt: &R,
    shared: &Shared<'_>,
    compiled: &Compiled,
    gate: &G,
    halt: &H,
    others: &mut [Worker],
    worker: &mut Worker,
    watch: &mut W,
)
    requires others { All (MayWork compiled.now shared.now) others.old }
    requires worker { MayWork compiled.now shared.now worker.old }
    ensures others { AllZip (Worked (H.never halt.now → ⊥) shared.now) others.old others.new }
    ensures worker { Worked (H.never halt.now → ⊥) shared.now worker.old worker.new }
    ensures heard { W.IsAfter watch.old watch.new }
{
    let mut there = ||
        requires sync { IsSync R.row × IsSync G.row × IsSync H.row }
        requires others { All (MayWork compiled.now shared.now) others.now }
        ensures { AllZip (Worked (H.never halt.entry.now → ⊥) shared.entry.now) others.entry.now others.exit.now }
    { each(rt, shared, compiled, gate, halt, others) };
    let mut here = ||
        requires { MayWork compiled.now shared.now worker.now }
        ensures work { Worked (H.never halt.entry.now → ⊥) shared.entry.now worker.entry.now worker.exit.now }
        ensures heard { W.IsAfter watch.entry.now watch.exit.now }
    { work(rt, shared, compiled, gate, halt, worker, watch) };
    join_mut(rt, &mut there, &mut here);
}

/// All workers work, each in a thread of its own where one can be made, and come back. The watch hears what all did, from the
/// worker that works in this thread.
// Where no thread can be made, the workers are called one after another, each a few frames deep, however many they are.
pub fn crew<R: Threads + Wait + Sync, G: Gate + Sync, H: Halt + Sync, W: Watch>(
    rt: &R,
    shared: &Shared<'_>,
    compiled: &Compiled,
    gate: &G,
    halt: &H,
    lead: Lead,
    mut workers: Vec<Worker>,
    watch: &mut W,
) -> Lead
    requires lead { IsLead shared.now lead }
    requires workers { All (MayJoin compiled.now shared.now (view lead.seat).about) workers.items }
    ensures lead { IsLead shared.now result }
    ensures joins { Joins (view lead.seat) (view result.seat) (length workers.items) }
    ensures pages_join { TakesBack lead.pages result.pages (length workers.items) }
    ensures stay { StayHome lead result }
    ensures came { All (CameHome (H.never halt.now → ⊥) result) workers.items }
    ensures heard { W.IsAfter watch.old watch.new }
{
    match workers.pop() {
        None => lead,
        Some(mut worker) => {
            beside(
                rt,
                shared,
                compiled,
                gate,
                halt,
                workers.as_mut_slice(),
                &mut worker,
                watch,
            );
            let lead = all_joined(shared, lead, workers);
            joined(shared, lead, worker)
        }
    }
}
