//! Workers side by side, who search a query of a series from scratch.
//!
//! Threads are made for a query and joined before its results are written. An easy query is none of theirs: where a search is kept over
//! the queries, one that it finishes within so few conflicts; and of a small program one that a trial of one search finishes.
ghost use Rattle.std.specs.Prelude.{◌≡◌, ◌≤◌, IfOk, false};
ghost use Rattle.asp_crew_laws.specs.Reports.{IsReport};
ghost use Rattle.asp_counts.specs.Counting.{joined, keeping};
ghost use Rattle.asp_cli.specs.Values.{is_row};

use asp_cli::Options;
use asp_counts::counts::Counts;
use asp_counts::watch::{Best, Unwatched, Watch};
use asp_crew::alone::solve_alone;
use asp_crew::report::Report;
use asp_model::results::{Ask, End};
use asp_series::solver::Solver;
use asp_team::gate::OpenGate;
use asp_team::many;
use asp_team::many::{Deeds, Plan};
use asp_vars::compiled::Compiled;
use std::alloc::{AllocError, Global};
use std::mem;
use std::sync::Wait;
use std::thread::Threads;

/// How many conflicts a search that is kept, or a trial, may meet before workers begin.
const PATIENCE: u64 = 1000;

/// A program is small with fewer atoms and bodies than this: to begin a search of it takes less than threads do.
const SMALL: u64 = 1000;

/// How many answers a trial looks for, where all are asked for.
const TRIED: u64 = 1000;

/// For so many atoms and bodies a search that is kept may meet one conflict more: so long it takes to begin from scratch.
const SHARE: u64 = 8;

/// Workers side by side. They pass no gate: only a function's own bounds can go to other threads, and not those of an `impl`.
#[derive(Drop)]
pub struct Crew<'a, R> {
    /// Who makes threads.
    pub rt: &'a R,
    /// How many there are.
    pub workers: u32,
    /// Whether they tell one another nogoods by a row of slots.
    pub row: bool,
    ghost some: { 1 ≤ workers },
    ghost few: { workers ≤ 64 },
}

/// Who hears what workers do for a query, and tells it with what was done before.
#[derive(Drop)]
pub struct InSeries<'a, W> {
    /// Who is told.
    pub watch: &'a mut W,
    /// What was done before.
    pub before: Counts,
}

impl<'a, W> InSeries<'a, W> {
    // So much was done before.
    fn new(watch: &'a mut W, before: Counts) -> InSeries<'a, W>
        ensures same { result.watch.ghost_name ≡ watch.entry.ghost_name }
        ensures now { result.watch.now ≡ watch.old }
    {
        InSeries { watch, before }
    }
}

// Nothing more is told.
fn close<W>(watch: &mut W)
    ensures { watch.new ≡ watch.old }
{
    let _ = watch;
}

// What was done before, and these.
fn with_before(before: &Counts, counts: &Counts) -> Counts
    ensures { result ≡ joined before.now counts.now }
{
    let mut sum = *before;
    sum.add(counts);
    sum
}

impl<W: Watch> Watch for InSeries<'_, W> {
    ghost use Rattle.std.proofs.Common.{◌∙◌, refl};
    ghost use Rattle.std.specs.Prelude.{◌≡◌};

    ghost IsAfter = { λ p q. (q.watch.ghost_name ≡ p.watch.ghost_name) × (q.before ≡ p.before)
        × W.IsAfter p.watch.now q.watch.now };

    fn tell(&mut self, counts: &Counts, best: Option<Best<'_>>) {
        self.watch.tell(&with_before(&self.before, counts), best);
    }

    fn end_query(&mut self, counts: &Counts) {
        self.watch.end_query(&with_before(&self.before, counts));
    }

    fn end_series(&mut self) {
        self.watch.end_series();
    }

    ghost begins = { λ w. (refl, refl, W.begins w.watch.now) };

    ghost goes_on = { λ u v w a b. (b.0 ∙ a.0, b.1 ∙ a.1, W.goes_on u.watch.now v.watch.now w.watch.now a.2 b.2) };
}

// What was done before another search begins, which keeps no nogood of an earlier one.
fn emptied(counts: &Counts) -> Counts
    ensures { result ≡ keeping 0 counts.now }
{
    Counts {
        kept: 0,
        dropped: counts.dropped.saturating_add(counts.kept),
        ..*counts
    }
}

// How many atoms and bodies a program has.
fn size(compiled: &Compiled) -> u64 {
    compiled.atom_count().saturating_add(compiled.body_count()) as u64
}

// What a trial looks for.
fn tried(ask: Ask) -> Ask {
    Ask {
        models: if ask.models == 0 { TRIED } else { ask.models },
        ..ask
    }
}

// Whether a search ended with all that was asked for.
fn is_over(ask: Ask, end: End) -> bool {
    match end {
        End::Finished => true,
        End::Limited => ask.models != 0,
        End::Unfinished => false,
    }
}

// Whether one search doesn't have soon all that is asked for. Then its trial is counted.
fn fails(
    alloc: Global,
    compiled: &Compiled,
    ask: Ask,
    counts: &mut Counts,
) -> Result<bool, AllocError> {
    let mut trial = emptied(counts);
    let report = solve_alone(
        alloc,
        compiled,
        tried(ask),
        PATIENCE,
        &mut trial,
        &mut Unwatched,
        None,
    )?;
    let is_over = is_over(ask, report.results.end);
    mem::drop(report);
    if !is_over {
        *counts = trial;
    }
    Ok(!is_over)
}

// Whether workers are to search: a program that isn't small, and one of which a trial fails.
fn is_hard(
    alloc: Global,
    compiled: &Compiled,
    ask: Ask,
    units: u64,
    counts: &mut Counts,
) -> Result<bool, AllocError> {
    if units <= PATIENCE {
        return Ok(false);
    }
    if size(compiled) >= SMALL {
        return Ok(true);
    }
    fails(alloc, compiled, ask, counts)
}

// What workers find. What they do is added to what was done before.
fn search<R: Threads + Wait + Sync, W: Watch>(
    crew: &Crew<'_, R>,
    alloc: Global,
    compiled: &Compiled,
    ask: Ask,
    units: u64,
    counts: &mut Counts,
    watch: &mut W,
) -> Result<Report, AllocError>
    ensures report { IfOk result (IsReport compiled.now ask units) }
    ensures heard { W.IsAfter watch.old watch.new }
{
    let plan = Plan {
        ask,
        workers: crew.workers,
        budget: units,
        proof: None,
        row: crew.row,
    };
    let mut deeds = Deeds::new(alloc);
    *counts = emptied(counts);
    let before = InSeries::new(watch, *counts);
    let (report, told) = many::solve(
        crew.rt, alloc, compiled, plan, &OpenGate, &mut deeds, before,
    );
    let InSeries { watch, before: _ } = told;
    close(watch);
    counts.add(&deeds.sum);
    mem::drop(deeds);
    report
}

impl<'a, R> Crew<'a, R> {
    /// As many as are asked for.
    pub fn new(rt: &'a R, options: &Options) -> Crew<'a, R>
        requires some { 1 ≤ options.now.workers }
        requires few { options.now.workers ≤ 64 }
        ensures workers { result.workers ≡ options.now.workers }
        ensures row { result.row ≡ is_row options.now.log }
    {
        Crew {
            rt,
            workers: options.workers,
            row: options.log.is_row(),
        }
    }
}

impl<R: Threads + Wait + Sync> Solver for Crew<'_, R> {
    ghost use denote.Param.Send.{IsSync};

    ghost may = { λ crew. IsSync R.row };

    fn patience(&self, compiled: &Compiled) -> u64 {
        PATIENCE + size(compiled) / SHARE
    }

    fn solve<W: Watch>(
        &self,
        alloc: Global,
        compiled: &Compiled,
        ask: Ask,
        units: u64,
        counts: &mut Counts,
        watch: &mut W,
    ) -> Result<Report, AllocError> {
        if !is_hard(alloc, compiled, ask, units, counts)? {
            return solve_alone(alloc, compiled, ask, units, counts, watch, None);
        }
        search(self, alloc, compiled, ask, units, counts, watch)
    }
}
