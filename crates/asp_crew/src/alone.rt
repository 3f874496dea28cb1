//! A run of one search, which waits for nobody.
ghost use Rattle.std.specs.Prelude.{◌≡◌, false, None, IfOk};
ghost use Rattle.asp_crew_laws.specs.Reports.{IsReport};
ghost use Rattle.asp_crew_laws.specs.Runs.{asks};
ghost use Rattle.asp_crew.specs.Refuting.{HasCore};

use crate::finish::finish_program;
use crate::report::Report;
use crate::reported::reported;
use crate::ties::with_ties;
use asp_book::book::Book;
use asp_core::goal::Goal;
use asp_core::state::State;
use asp_counts::counts::Counts;
use asp_counts::watch::Watch;
use asp_model::results::Ask;
use asp_recorder::recorder::Recorder;
use asp_vars::compiled::Compiled;
use std::alloc::{AllocError, Global};
use std::mem;

// A first search, whose recorder, if there is one, gets what it finds.
fn first<W: Watch>(
    alloc: Global,
    compiled: &Compiled,
    ask: Ask,
    budget: u64,
    counts: &mut Counts,
    watch: &mut W,
    recorder: Option<&Recorder>,
) -> Result<Report, AllocError>
    ensures report { IfOk result (IsReport compiled.now (asks ask.mode ask.models ask.by_name) budget) }
    ensures second { IfOk result (λ r. r.second ≡ None) }
    ensures log { IfOk result (λ r. r.log ≡ 0) }
    ensures short { IfOk result (λ r. r.short ≡ false) }
    ensures core { IfOk result (HasCore compiled.now) }
    ensures heard { W.IsAfter watch.old watch.new }
{
    let state = State::start(
        alloc,
        compiled,
        Goal::of(ask.mode, ask.by_name),
        budget,
        ask.limit(),
        [].as_slice(),
    )?;
    let mut book = Book::new(alloc, compiled, state)?;
    match finish_program(
        alloc, compiled, ask.mode, None, &mut book, counts, watch, recorder,
    ) {
        Ok(unpaid) => reported(alloc, compiled, ask, book, unpaid, 0, false),
        Err(error) => {
            mem::drop(book);
            Err(error)
        }
    }
}

/// What is asked of a program: its answers, all or as many as are enough; what is in some or in each of them; or one that none
/// betters, or all of these, for which a second search begins when the first has found what they cost. A search does it after
/// the other, with a budget of so many units together. The recorder, if there is one, gets why there is nothing else; no consequences
/// are asked for then.
///
/// It returns: of the units left, the stable models not yet found, the nogoods learnt since the last restart and the
/// variables without a value, in this order, each step lowers the first that it changes. Want of memory is the one error, and a
/// recorder that is closed. What it does is added to the counts, and told after each step.
pub fn solve_alone<W: Watch>(
    alloc: Global,
    compiled: &Compiled,
    ask: Ask,
    budget: u64,
    counts: &mut Counts,
    watch: &mut W,
    recorder: Option<&Recorder>,
) -> Result<Report, AllocError>
    ensures report { IfOk result (IsReport compiled.now ask budget) }
    ensures log { IfOk result (λ r. r.log ≡ 0) }
    ensures short { IfOk result (λ r. r.short ≡ false) }
    ensures core { IfOk result (HasCore compiled.now) }
    ensures heard { W.IsAfter watch.old watch.new }
{
    let report = first(alloc, compiled, ask, budget, counts, watch, recorder)?;
    with_ties(alloc, compiled, ask, report, counts, watch, recorder)
}
