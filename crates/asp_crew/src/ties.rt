//! A second search, for all answers that are as good as the best one.
//!
//! It begins anew, on a board of its own: nothing that the first search learnt is kept, since much of that holds below the cost
//! of the best alone. The best is the first answer on the board.
ghost use Rattle.std.specs.Prelude.{◌≡◌, ℕ, ◌+◌, None, IfOk, MatchOption};
ghost use Rattle.asp_model.specs.Costs.{cost, just_above, IsOptimum};
ghost use Rattle.asp_book.specs.Books.{board};
ghost use Rattle.asp_crew_laws.specs.Reports.{joined, IsIdle, IsReport, IsWhole};
ghost use Rattle.asp_crew_laws.specs.Runs.{asks, ties_of};
ghost use Rattle.asp_crew.specs.Refuting.{HasCore};
ghost use Rattle.asp_crew.specs.Twice.{IsSearched, IsSecond};

use crate::finish::finish_program;
use crate::report::Report;
use crate::reported::told;
use asp_book::book::Book;
use asp_core::goal::Goal;
use asp_core::state::State;
use asp_counts::counts::Counts;
use asp_counts::watch::Watch;
use asp_model::cost::{Cost, cost_just_above};
use asp_model::interp::Interp;
use asp_model::results::{Ask, End, Mode, Results};
use asp_recorder::recorder::Recorder;
use asp_vars::compiled::Compiled;
use std::alloc::{AllocError, Global};
use std::mem;

fn copy(bound: &Option<Cost>) -> Result<Option<Cost>, AllocError>
    ensures { IfOk result (λ copy. copy ≡ bound.now) }
{
    match bound {
        None => Ok(None),
        Some(cost) => Ok(Some(cost.copy()?)),
    }
}

// A book of the answers that cost less than the bound, with so many units, on which the best is delivered.
fn opened(
    alloc: Global,
    compiled: &Compiled,
    ask: Ask,
    bound: &Option<Cost>,
    best: &Interp,
    budget: u64,
) -> Result<Book, AllocError>
    requires best { IsOptimum compiled.now best.now (cost compiled.now best.now) }
    requires bound { bound.now ≡ just_above (cost compiled.now best.now) }
    ensures task { IfOk result (λ book. book.task ≡ ties_of compiled.now ask (cost compiled.now best.now) budget) }
    ensures idle { IfOk result (λ book. IsIdle (board book)) }
{
    let above = copy(bound)?;
    let set = best.copy()?;
    let state = State::start(
        alloc,
        compiled,
        Goal::Ties(above),
        budget,
        ask.models,
        [].as_slice(),
    )?;
    let mut book = Book::new(alloc, compiled, state)?;
    match book.deliver(0, set) {
        Ok(_listed) => Ok(book),
        Err(error) => {
            mem::drop(book);
            Err(error)
        }
    }
}

// A second search is written down from now on, which begins with the best: much that a first one finds holds below the cost of the
// best alone.
fn begin_second(recorder: Option<&Recorder>, best: &Interp) -> Result<(), AllocError> {
    match recorder {
        None => Ok(()),
        Some(recorder) => recorder.begin_second(best),
    }
}

// A search for all answers that cost no more than this best one, with so many units. The recorder, if there is one, gets what it finds.
fn search<W: Watch>(
    alloc: Global,
    compiled: &Compiled,
    ask: Ask,
    best: &Interp,
    budget: u64,
    counts: &mut Counts,
    watch: &mut W,
    recorder: Option<&Recorder>,
) -> Result<Report, AllocError>
    requires { IsOptimum compiled.now best.now (cost compiled.now best.now) }
    ensures ties { IfOk result (IsSearched (ties_of compiled.now ask (cost compiled.now best.now) budget)) }
    ensures heard { W.IsAfter watch.old watch.new }
{
    begin_second(recorder, best)?;
    let bound = cost_just_above(alloc, compiled.program(), best)?;
    let mut book = opened(alloc, compiled, ask, &bound, best, budget)?;
    match finish_program(
        alloc,
        compiled,
        Mode::Enum,
        bound,
        &mut book,
        counts,
        watch,
        recorder,
    ) {
        Ok(unpaid) => Ok(told(Mode::Opt, book, unpaid, 0, false)),
        Err(error) => {
            mem::drop(book);
            Err(error)
        }
    }
}

// The second search's report, if one is wanted.
fn second<W: Watch>(
    alloc: Global,
    compiled: &Compiled,
    ask: Ask,
    report: &Report,
    counts: &mut Counts,
    watch: &mut W,
    recorder: Option<&Recorder>,
) -> Result<Option<Report>, AllocError>
    requires { (units : ℕ) × IsReport compiled.now (asks ask.mode ask.models ask.by_name) units report.now }
    ensures second { IfOk result (λ ties. MatchOption ties (IsWhole ask.all_optima report.now.results.end report.now.results.best) (IsSecond compiled.now ask report.now)) }
    ensures heard { W.IsAfter watch.old watch.new }
{
    if !ask.all_optima {
        return Ok(None);
    }
    match report.results.end {
        End::Finished => match &report.results.best {
            None => Ok(None),
            Some((best, _)) => {
                let left = report.paid.left();
                let ties = search(alloc, compiled, ask, best, left, counts, watch, recorder)?;
                Ok(Some(ties))
            }
        },
        End::Limited | End::Unfinished => Ok(None),
    }
}

/// The report of two searches: of a first one, which found what the optima cost, and of one for all optima, whose units were
/// those that the first left.
pub fn joined(first: Report, ties: Report) -> Report
    requires program { ties.paid.program ≡ first.paid.program }
    requires units { ties.paid.left + ties.spent ≡ first.paid.left }
    requires spent { first.paid.burnt ≡ first.spent }
    requires burnt { ties.paid.burnt ≡ ties.spent }
    ensures { result ≡ joined first ties }
{
    let Report {
        results,
        journal,
        second: _,
        spent,
        leaves: _,
        log,
        short,
        unpaid: _,
        mut paid,
        core: _,
    } = first;
    let Report {
        results: found,
        journal: second,
        second: _,
        spent: more,
        leaves,
        log: _,
        short: _,
        unpaid,
        paid: rest,
        core: _,
    } = ties;
    let left = paid.left();
    let _given = paid.part(left);
    paid.merge(rest);
    Report {
        results: Results {
            mode: results.mode,
            end: found.end,
            answers: found.answers,
            best: results.best,
            known: results.known,
        },
        journal,
        second: Some(second),
        spent: spent + more,
        leaves,
        log,
        short,
        unpaid,
        paid,
        core: None,
    }
}

/// The report of a run from that of its first search. Where all optima are asked for, and the first search was finished and
/// had found one, a second search goes over the answers that cost no more, with the units that were left. The recorder, if there
/// is one, gets what that one finds.
///
/// Want of memory is the one error. What the second search does is added to the counts, and told after each step.
pub fn with_ties<W: Watch>(
    alloc: Global,
    compiled: &Compiled,
    ask: Ask,
    report: Report,
    counts: &mut Counts,
    watch: &mut W,
    recorder: Option<&Recorder>,
) -> Result<Report, AllocError>
    requires report { (units : ℕ) × IsReport compiled.now (asks ask.mode ask.models ask.by_name) units report }
    requires second { report.second ≡ None }
    ensures report { IfOk result (λ r. (units : ℕ) → IsReport compiled.now (asks ask.mode ask.models ask.by_name) units report → IsReport compiled.now ask units r) }
    ensures log { IfOk result (λ r. r.log ≡ report.log) }
    ensures short { IfOk result (λ r. r.short ≡ report.short) }
    ensures same { IfOk result (λ r. (r.journal ≡ report.journal) × (r.short ≡ report.short)) }
    ensures core { IfOk result (λ r. HasCore compiled.now report → HasCore compiled.now r) }
    ensures heard { W.IsAfter watch.old watch.new }
{
    match second(alloc, compiled, ask, &report, counts, watch, recorder) {
        Ok(None) => Ok(report),
        Ok(Some(ties)) => Ok(joined(report, ties)),
        Err(error) => {
            mem::drop(report);
            Err(error)
        }
    }
}
