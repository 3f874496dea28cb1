//! A worker: one search for one part after another.
ghost use Rattle.std.specs.Prelude.{◌≡◌, ◌<◌, ◌∷◌, ◌++◌, IfOk, IfSome, OnOk, length, reverse};
ghost use Rattle.asp_split.specs.Dividing.{AreLeaves, IsLeaf, part, sets_of};
ghost use Rattle.asp_parts.specs.Parts.{AreParts, ArePieces, HasSame, IsListed, IsPlaced};
ghost use Rattle.asp_parts.specs.Rounds.{HasDone, IsBench, IsWorker};

use crate::found::found;
use crate::pace::{Allowance, Limit, all_pieces, units_of};
use crate::part::{Found, Part};
use asp_counts::counts::Counts;
use asp_counts::watch::Unwatched;
use asp_propagators::propagators::Propagators;
use asp_query::kept::KeptSearch;
use asp_split::divider::Divider;
use asp_split::leaf::Leaf;
use asp_vars::compiled::Compiled;
use std::alloc::{AllocError, Global};
use std::mem;
use std::sync::atomic::{AtomicU64, Ordering};

/// The parts that come in the place of one.
#[derive(Drop)]
pub(crate) struct Done {
    /// Where that part stands.
    pub place: usize,
    /// What comes in its place, the next one last.
    pub parts: Vec<Part>,
}

/// What a worker works with.
#[derive(Drop)]
pub(crate) struct Bench<'a> {
    /// Where memory comes from.
    pub alloc: Global,
    /// The program.
    pub compiled: &'a Compiled,
    /// Who divides parts.
    pub divider: Divider<'a, Propagators<'a>>,
    /// The search that is kept.
    pub search: KeptSearch<'a>,
    /// What it does in this round at most.
    pub allowance: Allowance,
    /// How wide a part is that is searched.
    pub limit: Limit,
    /// What it did so far.
    pub counts: Counts,
    /// What it had done when the round began.
    pub before: Counts,
}

/// A worker.
#[derive(Drop)]
pub(crate) struct Worker<'a> {
    /// What it works with.
    pub bench: Bench<'a>,
    /// What came of its parts, that of the next part last.
    pub done: Vec<Done>,
    /// Whether memory was wanting.
    pub short: bool,
}

/// Puts parts for the leaves after the others, the last leaf's first.
pub(crate) fn put_all(
    compiled: &Compiled,
    parts: &mut Vec<Part>,
    mut leaves: Vec<Leaf>,
    tries: u32,
) -> Result<(), AllocError>
    requires { AreLeaves compiled.now leaves.items }
    ensures { OnOk result (IsPlaced compiled.now parts.old.items parts.new.items (sets_of compiled.now leaves.items)) }
{
    let _ = compiled;
    'leaves: while let Some(leaf) = leaves.pop() {
        parts.push(Part {
            leaf,
            found: None,
            tries,
        })?;
    }
    Ok(())
}

// Searches a part. None where it is given up.
fn ask(bench: &mut Bench<'_>, leaf: &Leaf, tries: u32) -> Result<Option<Found>, AllocError>
    requires { IsBench bench.old.compiled.now bench.old }
    ensures kept { IsBench bench.old.compiled.now bench.new }
    ensures found { IfOk result (λ o. IfSome o (IsListed bench.old.compiled.now (part bench.old.compiled.now leaf.now.cube))) }
{
    let units = units_of(bench.allowance, tries);
    let before = bench.counts;
    match bench.search.ask(
        leaf.cube.as_slice(),
        units,
        bench.limit.room(bench.allowance),
        &mut bench.counts,
        &mut Unwatched,
    )? {
        None => {
            let done = bench.counts.since(&before);
            let crowded = done.answers > bench.limit.room(bench.allowance) as u64;
            bench.limit.lose(leaf.width, crowded);
            Ok(None)
        }
        Some(report) => {
            let done = bench.counts.since(&before);
            bench
                .limit
                .find(bench.allowance, done.answers, done.conflicts);
            let found = found(
                bench.alloc,
                bench.compiled.atoms(),
                report.results.answers.rows(),
            )?;
            Ok(Some(found))
        }
    }
}

// Whether so much was done in this round; less is enough where another worker found no part any more.
fn is_spent(bench: &Bench<'_>, next: &AtomicU64) -> bool {
    let done = bench.counts.since(&bench.before);
    let others_wait = next.load(Ordering::SeqCst) > bench.allowance.parts;
    bench
        .allowance
        .is_spent(done.answers, done.conflicts, others_wait)
}

// Puts a part that was given up after the others, in pieces.
fn put_back(
    bench: &mut Bench<'_>,
    waiting: &mut Vec<Part>,
    whole: Part,
    pieces: usize,
) -> Result<(), AllocError>
    requires bench { IsBench bench.old.compiled.now bench.old }
    requires leaf { IsLeaf bench.old.compiled.now whole.leaf }
    requires some { 0 < pieces }
    ensures kept { IsBench bench.old.compiled.now bench.new }
    ensures placed { OnOk result (IsPlaced bench.old.compiled.now waiting.old.items waiting.new.items (part bench.old.compiled.now whole.leaf.cube)) }
{
    let Part { leaf, found, tries } = whole;
    mem::drop(found);
    let tries = if leaf.next.is_none() {
        tries.saturating_add(1)
    } else {
        0
    };
    let leaves = bench.divider.divide(leaf, pieces)?;
    put_all(bench.compiled, waiting, leaves, tries)
}

// Whether a part is divided before it is searched.
fn is_wide(bench: &Bench<'_>, leaf: &Leaf) -> bool {
    leaf.next.is_some() && bench.limit.is_wide(leaf.width)
}

// Searches a part: it comes to those that are done, or in pieces to those that wait.
fn take_one(
    bench: &mut Bench<'_>,
    waiting: &mut Vec<Part>,
    done: &mut Vec<Part>,
    whole: Part,
) -> Result<(), AllocError>
    requires bench { IsBench bench.old.compiled.now bench.old }
    requires row { AreParts bench.old.compiled.now (waiting.old.items ++ whole ∷ reverse done.old.items) }
    ensures kept { IsBench bench.old.compiled.now bench.new }
    ensures same { OnOk result (HasSame bench.old.compiled.now (waiting.old.items ++ whole ∷ reverse done.old.items) (waiting.new.items ++ reverse done.new.items)) }
{
    if whole.found.is_some() {
        done.push(whole)?;
        return Ok(());
    }
    if is_wide(bench, &whole.leaf) {
        let pieces = bench.limit.pieces(whole.leaf.width);
        return put_back(bench, waiting, whole, pieces);
    }
    match ask(bench, &whole.leaf, whole.tries)? {
        None => put_back(bench, waiting, whole, all_pieces()),
        Some(found) => {
            let Part {
                leaf,
                found: _,
                tries,
            } = whole;
            done.push(Part {
                leaf,
                found: Some(found),
                tries,
            })?;
            Ok(())
        }
    }
}

// Works on the parts that wait until none does, or as much was done as may be.
fn take_all(
    bench: &mut Bench<'_>,
    next: &AtomicU64,
    waiting: &mut Vec<Part>,
    done: &mut Vec<Part>,
) -> Result<(), AllocError>
    requires bench { IsBench bench.old.compiled.now bench.old }
    requires row { AreParts bench.old.compiled.now (waiting.old.items ++ reverse done.old.items) }
    ensures kept { IsBench bench.old.compiled.now bench.new }
    ensures same { OnOk result (HasSame bench.old.compiled.now (waiting.old.items ++ reverse done.old.items) (waiting.new.items ++ reverse done.new.items)) }
{
    for _ in 0..u32::MAX {
        if is_spent(bench, next) {
            return Ok(());
        }
        match waiting.pop() {
            None => return Ok(()),
            Some(part) => take_one(bench, waiting, done, part)?,
        }
    }
    Ok(())
}

// Works on a part until it is searched to its end, or as much was done as may be.
fn work_off(
    bench: &mut Bench<'_>,
    next: &AtomicU64,
    leaf: Leaf,
    tries: u32,
) -> Result<Vec<Part>, AllocError>
    requires bench { IsBench bench.old.compiled.now bench.old }
    requires leaf { IsLeaf bench.old.compiled.now leaf }
    ensures kept { IsBench bench.old.compiled.now bench.new }
    ensures pieces { IfOk result (λ parts. ArePieces bench.old.compiled.now leaf.cube parts.items) }
{
    let mut waiting = Vec::new(bench.alloc);
    let mut done = Vec::new(bench.alloc);
    waiting.push(Part {
        leaf,
        found: None,
        tries,
    })?;
    take_all(bench, next, &mut waiting, &mut done)?;
    done.reverse();
    waiting.append(&mut done)?;
    Ok(waiting)
}

// The same leaf.
fn copied(alloc: Global, leaf: &Leaf) -> Result<Leaf, AllocError>
    ensures { IfOk result (λ copy. copy ≡ leaf.now) }
{
    Ok(Leaf {
        cube: leaf.cube.copy(alloc)?,
        next: leaf.next,
        width: leaf.width,
    })
}

// Works on the part at this place, if it wasn't searched yet.
fn take(
    worker: &mut Worker<'_>,
    next: &AtomicU64,
    parts: &[Part],
    place: usize,
) -> Result<(), AllocError>
    requires parts { AreParts worker.old.bench.compiled.now parts.now }
    requires within { place < length parts.now }
    requires worker { HasDone worker.old.bench.compiled.now parts.now worker.old }
    ensures { HasDone worker.old.bench.compiled.now parts.now worker.new }
{
    let part = &parts[place];
    if part.found.is_some() {
        return Ok(());
    }
    let leaf = copied(worker.bench.alloc, &part.leaf)?;
    let parts = work_off(&mut worker.bench, next, leaf, part.tries)?;
    worker.done.push(Done { place, parts })?;
    Ok(())
}

// Takes one part after another that nobody else has taken, until as much was done as may be. Those before the front are taken by nobody.
fn take_in_turn(
    worker: &mut Worker<'_>,
    parts: &[Part],
    front: usize,
    next: &AtomicU64,
) -> Result<(), AllocError>
    requires parts { AreParts worker.old.bench.compiled.now parts.now }
    requires worker { HasDone worker.old.bench.compiled.now parts.now worker.old }
    ensures { HasDone worker.old.bench.compiled.now parts.now worker.new }
{
    for _ in 0..parts.len() {
        if is_spent(&worker.bench, next) {
            return Ok(());
        }
        let behind = next.fetch_add(1, Ordering::SeqCst) as usize;
        if behind >= parts.len() - front.min(parts.len()) {
            return Ok(());
        }
        take(worker, next, parts, parts.len() - 1 - behind)?;
    }
    Ok(())
}

/// Works on one part after another that nobody else has taken, the last one first and none before the front, until as much was done as may be
/// done in this round.
pub(crate) fn work(
    worker: &mut Worker<'_>,
    allowance: Allowance,
    parts: &[Part],
    front: usize,
    next: &AtomicU64,
)
    requires worker { IsWorker worker.old.bench.compiled.now worker.old }
    requires parts { AreParts worker.old.bench.compiled.now parts.now }
    ensures { HasDone worker.old.bench.compiled.now parts.now worker.new }
{
    worker.done.clear();
    worker.bench.allowance = allowance;
    worker.bench.before = worker.bench.counts;
    let taken = take_in_turn(worker, parts, front, next);
    worker.done.reverse();
    worker.short = taken.is_err();
}
