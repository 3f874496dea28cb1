//! A run of many workers.
ghost use Rattle.std.specs.Prelude.{◌≡◌, ℕ, ◌^◌, ◌<◌, ◌≤◌, Bool, List, ◌++◌, true, length, None, Some, IfOk, OnOk};
ghost use Rattle.asp_vault.specs.Seats.{view};
ghost use Rattle.asp_book.specs.Books.{board};
ghost use Rattle.asp_core.specs.declared.event.Event.{Event};
ghost use Rattle.asp_counts.specs.Counting.{together};
ghost use Rattle.asp_counts.specs.Tallies.{count_of};
ghost use Rattle.asp_counts.specs.Telling.{AreNumbered};
ghost use Rattle.asp_crew_laws.specs.Gone.{IsCrewGone, IsShared};
ghost use Rattle.asp_crew_laws.specs.Reports.{IsReport, IsIdle as IsIdleBoard};
ghost use Rattle.asp_crew_laws.specs.Runs.{asks, task_of};
ghost use Rattle.asp_crew_laws.specs.Working.{MayBegin};
ghost use Rattle.asp_crew.specs.Refuting.{HasCore};
ghost use Rattle.asp_crew.specs.Running.{Finishes, QueryStands};
ghost use Rattle.asp_slots.specs.Shelves.{HasAllBack};
ghost use Rattle.asp_worker.specs.Seats.{IsIdle};
ghost use Rattle.asp_team.specs.Joined.{IsHome, IsLead};
ghost use Rattle.asp_team.specs.Teams.{HaveLeft, IsAllBack, IsTeam};

use crate::crew::crew;
use crate::lead::Lead;
use crate::team::{Team, gathered};
use asp_book::book::Book;
use asp_counts::counts::Counts;
use asp_counts::tallies::{Tallies, WorkerCounts, sum_of};
use asp_counts::watch::Watch;
use asp_crew::finish::finish_program;
use asp_crew::reported::reported;
use asp_crew::ties::with_ties;
use asp_crew_laws::report::Report;
use asp_model::results::Ask;
use asp_recorder::recorder::Recorder;
use asp_recorder::scroll::Scroll;
use asp_vars::compiled::Compiled;
use asp_vars::fuel::Conflict;
use asp_worker::gate::Gate;
use asp_worker::halt::{Halt, NoHalt};
use asp_worker::worker::Shared;
use std::alloc::{AllocError, Global};
use std::mem;
use std::sync::Wait;
use std::thread::Threads;

/// Who gets the lines of a run's proof.
#[derive(Clone, Copy)]
pub struct Record<'a> {
    /// The workers' lines.
    pub scroll: &'a Scroll,
    /// The main thread's lines, behind those of the workers.
    pub recorder: &'a Recorder,
}

/// What is asked of many workers.
#[derive(Clone, Copy)]
pub struct Plan<'a> {
    /// What is asked of the program.
    pub ask: Ask,
    /// How many workers there are, 1 to 64.
    pub workers: u32,
    /// How many units there are for all of them.
    pub budget: u64,
    /// Who gets the lines of a proof, if one is wanted. No consequences are asked for then.
    pub proof: Option<Record<'a>>,
    /// Whether several workers tell one another nogoods by a row of slots, in place of blocks under a lock.
    pub row: bool,
}

/// What a run of many workers did.
#[derive(Drop)]
pub struct Deeds {
    /// What its searches did together, the main thread's at the end too.
    pub sum: Counts,
    /// What each worker did, in the order of their numbers.
    pub workers: Vec<WorkerCounts>,
}

impl Deeds {
    /// Nothing yet.
    pub fn new(alloc: Global) -> Deeds {
        Deeds {
            sum: Counts::new(),
            workers: Vec::new(alloc),
        }
    }

    // What the workers did who told of it.
    fn of(tallies: Tallies) -> Deeds
        ensures workers { AreNumbered (count_of tallies) result.workers.items }
        ensures sum { result.sum ≡ together (λ w. w.counts) result.workers.items }
    {
        let workers = tallies.into_counts();
        Deeds {
            sum: sum_of(workers.as_slice()),
            workers,
        }
    }
}

// The book, how many nogoods were shared, and what was told, once every worker has come back.
fn dismissed(shared: Shared<'_>, lead: Lead) -> (Book, u32, Tallies)
    requires lead { IsLead shared lead }
    requires all { IsAllBack (view lead.seat) × HasAllBack lead.pages }
    requires idle { IsIdle (view lead.seat) }
    requires home { (n : ℕ) → 0 < n → n ≤ (view lead.seat).splits → IsHome (view lead.seat) n }
    ensures task { Some result.0.task ≡ (view lead.seat).about }
    ensures idle { IsIdleBoard (board result.0) }
    ensures tallies { result.2 ≡ shared.entry.tallies }
    ensures crew { (never : Bool) (begun : List Event) → HaveLeft lead never begun → (rest : List Event) × (result.0.journal ≡ begun ++ rest) ×
        IsCrewGone result.0.task (view lead.seat).splits lead.short never begun rest }
{
    let Lead {
        mut seat,
        pages,
        short: _,
    } = lead;
    shared.book.look(&mut seat);
    let Shared {
        alloc: _,
        mode: _,
        models: _,
        workers: _,
        book,
        log,
        pool: _,
        tallies,
        scroll: _,
    } = shared;
    (book.close(seat), log.close(pages), tallies)
}

// Who gets the lines of the main thread's searches, if a proof is wanted.
fn recorder_of<'a>(plan: Plan<'a>) -> Option<&'a Recorder> {
    match plan.proof {
        None => None,
        Some(record) => Some(record.recorder),
    }
}

// Who gets the lines of the workers, if a proof is wanted.
fn scroll_of<'a>(plan: Plan<'a>) -> Option<&'a Scroll> {
    match plan.proof {
        None => None,
        Some(record) => Some(record.scroll),
    }
}

// Hands the workers' lines that nobody has taken to the recorder, if a proof is wanted.
fn hand_over<R: Wait>(rt: &R, plan: Plan<'_>) {
    if let Some(record) = plan.proof {
        record.scroll.hand_over(rt, record.recorder);
    }
}

// What was left open is worked off. The recorder gets what is found, if a proof is wanted.
fn work_off<'a, W: Watch>(
    alloc: Global,
    compiled: &'a Compiled,
    plan: Plan<'a>,
    book: &mut Book,
    counts: &mut Counts,
    watch: &mut W,
) -> Result<Option<Conflict>, AllocError>
    requires task { QueryStands book.old.task }
    requires goal { MayBegin plan.ask.mode None book.old.task.goal }
    requires of { book.old.task.program ≡ compiled.now }
    requires fits { book.old.task.budget < 2 ^ 64 }
    requires idle { IsIdleBoard (board book.old) }
    ensures finishes { IfOk result (Finishes book.old book.new) }
    ensures heard { W.IsAfter watch.old watch.new }
{
    let recorder = recorder_of(plan);
    finish_program(
        alloc,
        compiled,
        plan.ask.mode,
        None,
        book,
        counts,
        watch,
        recorder,
    )
}

// What the workers left open is worked off, once they have come back.
fn ended<W: Watch>(
    alloc: Global,
    compiled: &Compiled,
    plan: Plan<'_>,
    shared: Shared<'_>,
    lead: Lead,
    deeds: &mut Deeds,
    watch: &mut W,
) -> Result<Report, AllocError>
    requires lead { IsLead shared lead }
    requires all { IsAllBack (view lead.seat) × HasAllBack lead.pages }
    requires idle { IsIdle (view lead.seat) }
    requires home { (n : ℕ) → 0 < n → n ≤ (view lead.seat).splits → IsHome (view lead.seat) n }
    requires some { 0 < (view lead.seat).splits }
    requires about { (view lead.seat).about ≡ Some (task_of compiled.now plan.ask plan.budget) }
    ensures report { IfOk result (IsReport compiled.now (asks plan.entry.ask.mode plan.entry.ask.models plan.entry.ask.by_name) plan.entry.budget) }
    ensures second { IfOk result (λ r. r.second ≡ None) }
    ensures core { IfOk result (HasCore compiled.now) }
    ensures shared { IfOk result (λ r. (never : Bool) (begun : List Event) → HaveLeft lead never begun → IsShared (task_of compiled.now plan.entry.ask plan.entry.budget) r.short never r.journal) }
    ensures workers { AreNumbered (count_of shared.entry.tallies) deeds.new.workers.items }
    ensures heard { W.IsAfter watch.old watch.new }
{
    let short = lead.short;
    let (mut book, log, tallies) = dismissed(shared, lead);
    *deeds = Deeds::of(tallies);
    match work_off(alloc, compiled, plan, &mut book, &mut deeds.sum, watch) {
        Ok(unpaid) => {
            let report = reported(alloc, compiled, plan.ask, book, unpaid, log, short)?;
            Ok(report)
        }
        Err(error) => {
            mem::drop(book);
            Err(error)
        }
    }
}

// The same, with a second search where all optima are asked for.
fn finished<W: Watch>(
    alloc: Global,
    compiled: &Compiled,
    plan: Plan<'_>,
    shared: Shared<'_>,
    lead: Lead,
    deeds: &mut Deeds,
    watch: &mut W,
) -> Result<Report, AllocError>
    requires lead { IsLead shared lead }
    requires all { IsAllBack (view lead.seat) × HasAllBack lead.pages }
    requires idle { IsIdle (view lead.seat) }
    requires home { (n : ℕ) → 0 < n → n ≤ (view lead.seat).splits → IsHome (view lead.seat) n }
    requires some { 0 < (view lead.seat).splits }
    requires about { (view lead.seat).about ≡ Some (task_of compiled.now plan.ask plan.budget) }
    ensures report { IfOk result (IsReport compiled.now plan.entry.ask plan.entry.budget) }
    ensures core { IfOk result (HasCore compiled.now) }
    ensures shared { IfOk result (λ r. (never : Bool) (begun : List Event) → HaveLeft lead never begun → IsShared (task_of compiled.now plan.entry.ask plan.entry.budget) r.short never r.journal) }
    ensures workers { AreNumbered (count_of shared.entry.tallies) deeds.new.workers.items }
    ensures heard { W.IsAfter watch.old watch.new }
{
    let report = ended(alloc, compiled, plan, shared, lead, deeds, watch)?;
    with_ties(
        alloc,
        compiled,
        plan.ask,
        report,
        &mut deeds.sum,
        watch,
        recorder_of(plan),
    )
}

// A run of workers who are ready. The watch comes back, whatever comes of it.
fn worked<R: Threads + Wait + Sync, G: Gate + Sync, H: Halt + Sync, W: Watch + Drop>(
    rt: &R,
    compiled: &Compiled,
    plan: Plan<'_>,
    team: Team<'_>,
    gate: &G,
    halt: &H,
    deeds: &mut Deeds,
    mut watch: W,
) -> (Result<Report, AllocError>, W)
    requires team { IsTeam compiled.now plan.ask plan.budget team }
    requires some { 0 < length team.workers.items }
    ensures report { IfOk result.0 (IsReport compiled.now plan.entry.ask plan.entry.budget) }
    ensures core { IfOk result.0 (HasCore compiled.now) }
    ensures shared { IfOk result.0 (λ r. (never : Bool) → (never ≡ true → H.never halt.now) → IsShared (task_of compiled.now plan.entry.ask plan.entry.budget) r.short never r.journal) }
    ensures workers { AreNumbered (count_of team.entry.shared.tallies) deeds.new.workers.items }
    ensures heard { W.IsAfter watch result.1 }
{
    let Team {
        shared,
        lead,
        workers,
    } = team;
    let alloc = shared.alloc;
    let lead = crew(rt, &shared, compiled, gate, halt, lead, workers, &mut watch);
    hand_over(rt, plan);
    let report = finished(alloc, compiled, plan, shared, lead, deeds, &mut watch);
    (report, watch)
}

/// A run of so many workers, 1 to 64, which pass the gate before each path and are stopped by `halt`. What it did is in
/// `deeds` then. The watch hears now and then what all did so far, from the worker that works in this thread, and what the
/// main thread does at the end; it comes back.
///
/// One worker begins, and gives halves of its path to the others. What they leave open, since they were stopped or short of memory
/// or units, the main thread works off when all have come back, until as many answers as asked for were found. Under a halt
/// that never stops anybody it closes no path of the first search, and no worker gives one back, unless memory or units were
/// wanting or it was enough. A second search, where all optima are asked for, is the main thread's alone, and the watch hears
/// of it too. Nothing says that a worker comes back. Want of memory in the main thread is the one error.
pub fn solve_with<R: Threads + Wait + Sync, G: Gate + Sync, H: Halt + Sync, W: Watch + Drop>(
    rt: &R,
    alloc: Global,
    compiled: &Compiled,
    plan: Plan<'_>,
    gate: &G,
    halt: &H,
    deeds: &mut Deeds,
    watch: W,
) -> (Result<Report, AllocError>, W)
    requires count { (1 ≤ plan.workers) × (plan.workers ≤ 64) }
    ensures report { IfOk result.0 (IsReport compiled.now plan.entry.ask plan.entry.budget) }
    ensures core { IfOk result.0 (HasCore compiled.now) }
    ensures shared { IfOk result.0 (λ r. (never : Bool) → (never ≡ true → H.never halt.now) → IsShared (task_of compiled.now plan.entry.ask plan.entry.budget) r.short never r.journal) }
    ensures workers { OnOk result.0 (AreNumbered plan.entry.workers deeds.new.workers.items) }
    ensures heard { W.IsAfter watch result.1 }
{
    match gathered(
        alloc,
        compiled,
        plan.ask,
        plan.budget,
        plan.workers,
        scroll_of(plan),
        plan.row,
    ) {
        Err(error) => (Err(error), watch),
        Ok(team) => worked(rt, compiled, plan, team, gate, halt, deeds, watch),
    }
}

/// A run of so many workers, 1 to 64, none of whom is stopped.
pub fn solve<R: Threads + Wait + Sync, G: Gate + Sync, W: Watch + Drop>(
    rt: &R,
    alloc: Global,
    compiled: &Compiled,
    plan: Plan<'_>,
    gate: &G,
    deeds: &mut Deeds,
    watch: W,
) -> (Result<Report, AllocError>, W)
    requires count { (1 ≤ plan.workers) × (plan.workers ≤ 64) }
    ensures report { IfOk result.0 (IsReport compiled.now plan.entry.ask plan.entry.budget) }
    ensures core { IfOk result.0 (HasCore compiled.now) }
    ensures shared { IfOk result.0 (λ r. IsShared (task_of compiled.now plan.entry.ask plan.entry.budget) r.short true r.journal) }
    ensures workers { OnOk result.0 (AreNumbered plan.entry.workers deeds.new.workers.items) }
    ensures heard { W.IsAfter watch result.1 }
{
    solve_with(rt, alloc, compiled, plan, gate, &NoHalt, deeds, watch)
}
