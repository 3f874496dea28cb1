//! What is found of a query.
ghost use Rattle.std.specs.Prelude.{◌≡◌, if◌then◌else◌, true, [], None, Some, IfOk, IfSome};
ghost use Rattle.asp_core.specs.Boards.{sought, wanted};
ghost use Rattle.asp_core.specs.Sorting.{sorted_once};
ghost use Rattle.asp_book.specs.Books.{board};
ghost use Rattle.asp_crew.specs.Refuting.{is_nothing};
ghost use Rattle.asp_crew.specs.Running.{IsAlone};
ghost use Rattle.asp_unsat.specs.Cores.{blamed_by};
ghost use Rattle.asp_query.specs.Kept.{IsBegun, IsFree, IsFresh, IsOver, IsQueryReport, IsWorkedThrough};
ghost use Rattle.asp_query.specs.Turns.{ClosesAll, IsAsking};

use crate::leaf::{Limits, work_off};
use asp_book::book::Book;
use asp_counts::counts::Counts;
use asp_counts::watch::Watch;
use asp_crew::report::Report;
use asp_crew::reported::told;
use asp_model::results::Mode;
use asp_model::seq::Seq;
use asp_propagate::propagator::Propagator;
use asp_search::search::Search;
use asp_unsat::blamed::add_blamed;
use asp_vars::compiled::Compiled;
use asp_vars::fuel::Fuel;
use std::alloc::{AllocError, Global};
use std::mem;

// Works on one leaf after another. All are closed where the reply is true; else nothing can be said of the query by this search.
fn work_off_all<P: Propagator, W: Watch>(
    book: &mut Book,
    literals: &[i32],
    search: &mut Search<'_, P>,
    fuel: &mut Fuel,
    limits: Limits,
    counts: &mut Counts,
    watch: &mut W,
) -> Result<bool, AllocError>
    requires asking { IsAsking book.old search.old fuel.old }
    requires wanted { literals.now ≡ wanted book.old.task }
    requires alone { IsAlone (board book.old) }
    ensures leaves { IfOk result (λ done. done ≡ true → ClosesAll book.old book.new search.new fuel.new) }
    ensures free { IfOk result (λ done. IsFree book.old.task.program search.new) }
    ensures heard { W.IsAfter watch.old watch.new }
{
    'leaves: loop {
        match book.take(0)? {
            None => return Ok(true),
            Some(leaf) => {
                if !work_off(book, literals, leaf, search, fuel, limits, counts, watch)? {
                    return Ok(false);
                }
            }
        }
    }
}

// Works the board off with all units of the pool, but gives up beyond its limits.
fn search_all<P: Propagator, W: Watch>(
    book: &mut Book,
    literals: &[i32],
    search: &mut Search<'_, P>,
    limits: Limits,
    counts: &mut Counts,
    watch: &mut W,
) -> Result<bool, AllocError>
    requires begun { IsBegun book.old search.old }
    requires wanted { literals.now ≡ wanted book.old.task }
    ensures ends { IfOk result (λ done. done ≡ true → IsOver book.old book.new search.new) }
    ensures free { IfOk result (λ done. IsFree book.old.task.program search.new) }
    ensures heard { W.IsAfter watch.old watch.new }
{
    let _lawful = book.journal();
    let mut fuel = book.lease(0, u64::MAX)?;
    let done = work_off_all(book, literals, search, &mut fuel, limits, counts, watch)?;
    if done {
        book.back(0, fuel);
    }
    Ok(done)
}

// Whether no answer was recorded.
fn has_nothing(book: &Book) -> bool
    requires { sought (board book.now).task.goal ≡ None }
    ensures { result ≡ is_nothing (board book.now).answers }
{
    book.state().answers().len() == 0
}

// Of the literals that are wanted those that stand in nogoods by which leaves were closed, where no answer was recorded.
fn core(
    alloc: Global,
    compiled: &Compiled,
    book: &Book,
    literals: &[i32],
) -> Result<Option<Seq<i32>>, AllocError>
    requires through { IsWorkedThrough book.now }
    requires program { compiled.now ≡ book.now.task.program }
    requires wanted { literals.now ≡ wanted book.now.task }
    ensures { IfOk result (λ core. core ≡ (if is_nothing (board book.now).answers then Some (blamed_by compiled.now (board book.now).reasons literals.now) else None)) }
{
    if !has_nothing(book) {
        return Ok(None);
    }
    let mut core = Vec::new(alloc);
    add_blamed(alloc, &mut core, compiled, book.state().reasons(), literals)?;
    Ok(Some(Seq::from_vec(core)))
}

// What is told of a query whose leaves are all closed.
fn report(
    alloc: Global,
    compiled: &Compiled,
    book: Book,
    literals: &[i32],
) -> Result<Report, AllocError>
    requires through { IsWorkedThrough book }
    requires program { compiled.now ≡ book.task.program }
    requires wanted { literals.now ≡ wanted book.task }
    ensures report { IfOk result (IsQueryReport book.task) }
    ensures answers { IfOk result (λ r. r.results.answers ≡ sorted_once (board book).answers) }
{
    match core(alloc, compiled, &book, literals) {
        Ok(core) => {
            let mut report = told(Mode::Enum, book, None, 0, false);
            report.core = core;
            Ok(report)
        }
        Err(error) => {
            mem::drop(book);
            Err(error)
        }
    }
}

/// What is found of a query, whose book has just begun, by a search that knows no answer. None where nothing can be said of it by this
/// search, or it goes beyond its limits.
pub(crate) fn answer<P: Propagator, W: Watch>(
    alloc: Global,
    compiled: &Compiled,
    book: Book,
    literals: &[i32],
    search: &mut Search<'_, P>,
    limits: Limits,
    counts: &mut Counts,
    watch: &mut W,
) -> Result<Option<Report>, AllocError>
    requires begun { IsBegun book search.old }
    requires program { compiled.now ≡ book.task.program }
    requires wanted { literals.now ≡ wanted book.task }
    ensures report { IfOk result (λ o. IfSome o (IsQueryReport book.task)) }
    ensures free { IfOk result (λ o. IsFree book.task.program search.new) }
    ensures fresh { IfOk result (λ o. IfSome o (λ r. r.results.answers ≡ [] → IsFresh book.task.program search.new)) }
    ensures heard { W.IsAfter watch.old watch.new }
{
    let mut book = book;
    match search_all(&mut book, literals, search, limits, counts, watch) {
        Ok(true) => {
            let report = report(alloc, compiled, book, literals)?;
            Ok(Some(report))
        }
        Ok(false) => {
            mem::drop(book);
            Ok(None)
        }
        Err(error) => {
            mem::drop(book);
            Err(error)
        }
    }
}
