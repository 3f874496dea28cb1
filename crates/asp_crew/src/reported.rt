//! The report from a board.
ghost use Rattle.std.specs.Prelude.{◌≡◌, IfOk, None};
ghost use Rattle.asp_book.specs.Books.{board, IsJournalOf};
ghost use Rattle.asp_crew_laws.specs.Reports.{IsIdle, IsReport, IsToldBy, IsWorkedOff, end_by};
ghost use Rattle.asp_crew_laws.specs.Runs.{asks};
ghost use Rattle.asp_crew.specs.Refuting.{HasCore};
ghost use Rattle.asp_crew.specs.Running.{IsRunFor};

use crate::cores::{core, with_core};
use crate::report::Report;
use asp_book::book::Book;
use asp_model::results::{Ask, End, Mode, Results};
use asp_model::seq::Seq;
use asp_rows::sets::Sets;
use asp_vars::compiled::Compiled;
use asp_vars::fuel::Conflict;
use std::alloc::{AllocError, Global};
use std::mem;

fn end_by(enough: bool, closed: bool) -> End
    ensures { result ≡ end_by enough closed }
{
    if enough {
        End::Limited
    } else if closed {
        End::Finished
    } else {
        End::Unfinished
    }
}

/// What one search has to say whose journal is the book's: the answers that were delivered in order, each once, and the best.
/// So many nogoods were shared, and `short` says whether a worker ended for want of memory.
pub fn told(mode: Mode, book: Book, unpaid: Option<Conflict>, log: u32, short: bool) -> Report
    requires idle { IsIdle (board book) }
    requires over { IsWorkedOff (board book) unpaid }
    ensures told { IsToldBy (board book) result }
    ensures lawful { IsJournalOf book.task book.journal }
    ensures journal { result.journal ≡ book.journal }
    ensures second { result.second ≡ None }
    ensures mode { result.results.mode ≡ mode }
    ensures log { result.log ≡ log }
    ensures short { result.short ≡ short }
{
    let (state, journal, paid) = book.end();
    let end = end_by(state.enough(), state.finished());
    let leaves = state.leaves();
    let spent = state.spent();
    let (mut answers, best, known) = state.into_found();
    answers.make_single();
    Report {
        results: Results {
            mode,
            end,
            answers: Sets::from_rows(answers),
            best,
            known,
        },
        journal: Seq::from_vec(journal),
        second: None,
        spent,
        leaves,
        log,
        short,
        unpaid,
        paid,
        core: None,
    }
}

/// The report of a run's first search. Want of memory is the one error.
pub fn reported(
    alloc: Global,
    compiled: &Compiled,
    ask: Ask,
    book: Book,
    unpaid: Option<Conflict>,
    log: u32,
    short: bool,
) -> Result<Report, AllocError>
    requires of { book.task.program ≡ compiled.now }
    requires task { IsRunFor ask book.task }
    requires idle { IsIdle (board book) }
    requires over { IsWorkedOff (board book) unpaid }
    ensures report { IfOk result (IsReport book.task.program (asks ask.mode ask.models ask.by_name) book.task.budget) }
    ensures journal { IfOk result (λ r. r.journal ≡ book.journal) }
    ensures second { IfOk result (λ r. r.second ≡ None) }
    ensures log { IfOk result (λ r. r.log ≡ log) }
    ensures short { IfOk result (λ r. r.short ≡ short) }
    ensures core { IfOk result (HasCore compiled.now) }
{
    match core(alloc, compiled, ask, &book) {
        Ok(core) => {
            let report = told(ask.mode, book, unpaid, log, short);
            Ok(with_core(report, core))
        }
        Err(error) => {
            mem::drop(book);
            Err(error)
        }
    }
}
