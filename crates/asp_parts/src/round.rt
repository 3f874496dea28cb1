//! One round: each worker works on some of the first parts.
ghost use Rattle.std.specs.Prelude.{◌<◌, ◌≤◌, IfOk, IfSome, List, OnOk, length, slice_index_or};
ghost use Rattle.asp_model.specs.declared.program.Program.{Program};
ghost use Rattle.asp_parts.specs.declared.part.Part.{Part};
ghost use Rattle.asp_parts.specs.Parts.{AreParts, ArePieces, HasSame, IsPart, IsTurned};
ghost use Rattle.asp_parts.specs.Rounds.{AreWorkers, HasDone, HaveDone, IsWorker};

use crate::pace::{Allowance, Pace, share_of};
use crate::part::Part;
use crate::worker::{Done, Worker, work};
use asp_counts::counts::Counts;
use asp_vars::compiled::Compiled;
use std::alloc::{AllocError, Global};
use std::sync::atomic::AtomicU64;
use std::thread::Threads;
use std::{mem, thread};

/// Who works.
#[derive(Drop)]
pub(crate) struct Crew<'a> {
    /// The workers.
    pub workers: Vec<Worker<'a>>,
    /// How far the run is. A measure for the policy alone.
    pub pace: Pace,
    /// What was done before the run.
    pub before: Counts,
    /// What was done, with what the workers did.
    pub counts: Counts,
}

// The place of the first part that is worked on in this round. So many wait at most before no later one is begun.
fn front_of(parts: &[Part], share: usize, waiting: usize) -> usize
    ensures { result ≤ length parts.now }
{
    let mut open: usize = 0;
    let mut rows: usize = 0;
    for behind in 0..parts.len() {
        let place = parts.len() - 1 - behind;
        match &parts[place].found {
            Some(found) => rows = rows.saturating_add(found.rows.len()),
            None => open = open.saturating_add(1),
        }
        if open >= share || rows >= waiting {
            return place;
        }
    }
    0
}

// Each worker works, in a thread of its own where one can be made.
fn each<T: Threads + Sync>(
    rt: &T,
    compiled: &Compiled,
    workers: &mut [Worker<'_>],
    allowance: Allowance,
    parts: &[Part],
    front: usize,
)
    requires workers { AreWorkers compiled.now workers.old }
    requires parts { AreParts compiled.now parts.now }
    ensures { HaveDone compiled.now parts.now workers.new }
{
    let _ = compiled;
    let next = AtomicU64::new(0);
    let count = workers.len();
    let allowance = Allowance {
        parts: (parts.len() - front.min(parts.len())) as u64,
        ..allowance
    };
    let taken = &next;
    let one = move |_: usize, worker: &mut Worker<'_>|
        requires worker { IsWorker worker.now.bench.compiled.now worker.now }
        requires parts { AreParts worker.now.bench.compiled.now parts.now }
        ensures { HasDone worker.entry.now.bench.compiled.now parts.entry.now worker.exit.now }
    { work(worker, allowance, parts, front, taken) };
    thread::for_each_mut(rt, workers, count.max(1), &one);
}

// What the workers did, beside what was done before.
fn sum_of(before: &Counts, workers: &[Worker<'_>]) -> Counts {
    let mut sum = *before;
    for worker in workers {
        sum.add(&worker.bench.counts);
    }
    sum
}

// Who did the part at this place as the next one.
fn holder_of(workers: &[Worker<'_>], place: usize) -> Option<usize>
    ensures { IfSome result (λ at. at < length workers.now) }
{
    for (at, worker) in workers.iter().enumerate() {
        if let Some(done) = worker.done.last() {
            if done.place == place {
                return Some(at);
            }
        }
    }
    None
}

// What came in the place of a part by this worker, if that is the next one that it did.
fn next_of(worker: &mut Worker<'_>, place: usize) -> Option<Vec<Part>>
    ensures kept { (p : Program) (all : List Part) → HasDone p all worker.old → HasDone p all worker.new }
    ensures pieces { (p : Program) (all : List Part) (t : Part) → HasDone p all worker.old → IfSome result (λ ts. ArePieces p (slice_index_or all place t).leaf.cube ts.items) }
{
    match worker.done.pop() {
        None => None,
        Some(done) => {
            let Done {
                place: there,
                parts,
            } = done;
            if there == place { Some(parts) } else { None }
        }
    }
}

// What came in the place of a part, if anything did.
fn taken_of(workers: &mut [Worker<'_>], place: usize) -> Option<Vec<Part>>
    ensures kept { (p : Program) (all : List Part) → HaveDone p all workers.old → HaveDone p all workers.new }
    ensures pieces { (p : Program) (all : List Part) (t : Part) → HaveDone p all workers.old → IfSome result (λ ts. ArePieces p (slice_index_or all place t).leaf.cube ts.items) }
{
    match holder_of(workers, place) {
        None => None,
        Some(at) => next_of(&mut workers[at], place),
    }
}

// Puts what came in the place of a part after the others, the next one first. Where nothing came it is the part itself.
fn put_turned(
    compiled: &Compiled,
    back: &mut Vec<Part>,
    whole: Part,
    pieces: Option<Vec<Part>>,
) -> Result<(), AllocError>
    requires whole { IsPart compiled.now whole }
    requires pieces { IfSome pieces (λ ts. ArePieces compiled.now whole.leaf.cube ts.items) }
    ensures { OnOk result (IsTurned compiled.now whole back.old.items back.new.items) }
{
    let _ = compiled;
    match pieces {
        None => {
            back.push(whole)?;
            Ok(())
        }
        Some(pieces) => {
            mem::drop(whole);
            let mut pieces = pieces;
            pieces.reverse();
            back.append(&mut pieces)?;
            Ok(())
        }
    }
}

// The parts, with what the workers made of them.
fn put_together(
    alloc: Global,
    compiled: &Compiled,
    workers: &mut [Worker<'_>],
    parts: Vec<Part>,
) -> Result<Vec<Part>, AllocError>
    requires parts { AreParts compiled.now parts.items }
    requires done { HaveDone compiled.now parts.items workers.old }
    ensures done { HaveDone compiled.now parts.items workers.new }
    ensures same { IfOk result (λ new. HasSame compiled.now parts.items new.items) }
{
    let mut left = parts;
    let mut back = Vec::with_capacity(alloc, left.len())?;
    'parts: while let Some(part) = left.pop() {
        let pieces = taken_of(workers, left.len());
        put_turned(compiled, &mut back, part, pieces)?;
    }
    back.reverse();
    Ok(back)
}

// Whether memory was wanting for one.
fn is_short(workers: &[Worker<'_>]) -> bool {
    for worker in workers {
        if worker.short {
            return true;
        }
    }
    false
}

// What the workers make of the parts in one round. What they did until then is counted, beside what was done before.
fn made_of<T: Threads + Sync>(
    rt: &T,
    alloc: Global,
    compiled: &Compiled,
    workers: &mut [Worker<'_>],
    parts: Vec<Part>,
    pace: &mut Pace,
    before: &Counts,
    counts: &mut Counts,
) -> Result<Vec<Part>, AllocError>
    requires workers { AreWorkers compiled.now workers.old }
    requires parts { AreParts compiled.now parts.items }
    ensures workers { AreWorkers compiled.now workers.new }
    ensures same { IfOk result (λ new. HasSame compiled.now parts.items new.items) }
{
    let allowance = pace.allowance();
    let front = front_of(parts.as_slice(), share_of(workers.len()), allowance.waiting);
    each(rt, compiled, workers, allowance, parts.as_slice(), front);
    *counts = sum_of(before, workers);
    pace.see(counts.conflicts);
    if is_short(workers) {
        return Err(AllocError);
    }
    put_together(alloc, compiled, workers, parts)
}

/// One round: what the workers make of the parts comes in their place. Want of memory is the one error.
pub(crate) fn round<T: Threads + Sync>(
    rt: &T,
    alloc: Global,
    compiled: &Compiled,
    crew: &mut Crew<'_>,
    parts: &mut Vec<Part>,
) -> Result<(), AllocError>
    requires workers { AreWorkers compiled.now crew.old.workers.items }
    requires parts { AreParts compiled.now parts.old.items }
    ensures workers { AreWorkers compiled.now crew.new.workers.items }
    ensures same { OnOk result (HasSame compiled.now parts.old.items parts.new.items) }
{
    let whole = mem::replace(parts, Vec::new(alloc));
    let made = made_of(
        rt,
        alloc,
        compiled,
        crew.workers.as_mut_slice(),
        whole,
        &mut crew.pace,
        &crew.before,
        &mut crew.counts,
    )?;
    let none = mem::replace(parts, made);
    mem::drop(none);
    Ok(())
}
