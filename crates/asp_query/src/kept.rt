//! A search that is kept over several queries to a program.
ghost use Rattle.std.specs.Prelude.{◌≡◌, ◌++◌, [], Some, IfOk, IfSome};
ghost use Rattle.asp_core.specs.Boards.{IsQuery, wanted};
ghost use Rattle.asp_query.specs.Kept.{IsBegun, IsFree, IsFresh, IsQueryReport, all_stand, query_of};

use crate::answer::answer;
use crate::leaf::Limits;
use asp_book::book::Book;
use asp_core::goal::Goal;
use asp_core::state::State;
use asp_counts::counts::Counts;
use asp_counts::watch::Watch;
use asp_crew::report::Report;
use asp_model::results::Mode;
use asp_propagators::propagators::Propagators;
use asp_search::search::Search;
use asp_vars::compiled::Compiled;
use asp_vars::lit::Lit;
use std::alloc::{AllocError, Global};
use std::marker::Model;
use std::mem;

/// A program with a search of it that is kept over several queries.
#[derive(Drop)]
pub struct KeptSearch<'a> {
    /// Where memory comes from.
    alloc: Global,
    /// The program.
    compiled: &'a Compiled,
    /// How many units a query takes at most.
    most: u64,
    /// A search that knows no answer. None before the first query, and where memory was wanting.
    search: Option<Search<'a, Propagators<'a>>>,
}

impl<'a> Model for KeptSearch<'a> {
    ghost use Rattle.asp_model.specs.declared.program.Program.{Program};
    ghost use Rattle.asp_query.specs.Kept.{IsFreshIf};

    ghost Value = { Program };

    ghost view = { λ k. k.compiled.now };

    ghost invariant = { λ k. IsFreshIf k.compiled.now k.search };
}

// Puts a value in the place of another.
fn put<T: Drop>(place: &mut Option<T>, value: T)
    ensures { place.new ≡ Some value }
{
    *place = Some(value);
}

// A search that has entered no literal.
fn begin<'a>(
    alloc: Global,
    compiled: &'a Compiled,
) -> Result<Search<'a, Propagators<'a>>, AllocError>
    ensures { IfOk result (IsFresh compiled.now) }
{
    let propagators = Propagators::new(alloc, compiled)?;
    let mut search = Search::new(alloc, compiled, Mode::Enum, propagators)?;
    let none: [Lit; 0] = [];
    search.enter(&none)?;
    Ok(search)
}

// The search, when it has forgotten the answers that it found.
fn begun_again<'a>(
    search: Search<'a, Propagators<'a>>,
) -> Result<Search<'a, Propagators<'a>>, AllocError>
    requires { IsFree search.program search }
    ensures { IfOk result (IsFresh search.entry.program) }
{
    let mut search = search;
    search.forget_answers();
    let none: [Lit; 0] = [];
    match search.enter(&none) {
        Ok(()) => Ok(search),
        Err(error) => {
            mem::drop(search);
            Err(error)
        }
    }
}

// Whether the query's atoms all stand in the program.
fn all_stand(compiled: &Compiled, query: &[i32]) -> bool
    ensures { result ≡ all_stand compiled.now query.now }
{
    let atoms = compiled.atoms();
    query
        .iter()
        .all(|literal| atoms.has(literal.unsigned_abs()))
}

// A book for a query, at which nothing has happened.
fn book_of(
    alloc: Global,
    compiled: &Compiled,
    query: &[i32],
    budget: u64,
) -> Result<Book, AllocError>
    requires { IsQuery compiled.now query.now }
    ensures { IfOk result (λ b. b ≡ record { task = query_of compiled.now query.now budget; journal = [] }) }
{
    let state = State::start(alloc, compiled, Goal::Enum, budget, 0, query)?;
    Book::new(alloc, compiled, state)
}

// The literals that each answer of the query has.
fn wanted_of(alloc: Global, compiled: &Compiled, query: &[i32]) -> Result<Vec<i32>, AllocError>
    ensures { IfOk result (λ wanted. wanted.items ≡ compiled.now.assumptions ++ query.now) }
{
    let mut wanted = compiled.program().assumptions.as_slice().to_vec(alloc)?;
    wanted.extend_from_slice(query)?;
    Ok(wanted)
}

impl<'a> KeptSearch<'a> {
    /// Nothing was asked yet, and no search is made. A query takes at most so many units of it.
    pub fn new(alloc: Global, compiled: &'a Compiled, most: u64) -> KeptSearch<'a>
        ensures { result ≡ compiled.now }
    {
        KeptSearch {
            alloc,
            compiled,
            most,
            search: None,
        }
    }

    /// All answers of the program that have the query's literals, with so many units, or where there are none a core: literals of the
    /// program's assumptions and the query that no stable model has together. None where nothing can be said of the query by the search
    /// that is kept: an atom of the query doesn't stand in the program, a set was found that isn't the query's and which no clause rules
    /// out, a conflict was met for which no unit was left, more units were spent than a query takes at most, or more answers were found
    /// than there is room for. Then the query is to be searched from scratch, or in parts.
    ///
    /// Want of memory is the one error. What it does is added to the counts, and told after each step.
    pub fn ask<W: Watch>(
        &mut self,
        query: &[i32],
        budget: u64,
        room: usize,
        counts: &mut Counts,
        watch: &mut W,
    ) -> Result<Option<Report>, AllocError>
        ensures same { self.new ≡ self.old }
        ensures stands { IfOk result (λ o. IfSome o (λ r. IsQuery self.old query.now)) }
        ensures report { IfOk result (λ o. IfSome o (IsQueryReport (query_of self.old query.now budget))) }
        ensures heard { W.IsAfter watch.old watch.new }
    {
        if !all_stand(self.compiled, query) {
            return Ok(None);
        }
        let wanted = wanted_of(self.alloc, self.compiled, query)?;
        let book = book_of(self.alloc, self.compiled, query, budget)?;
        let limits = Limits {
            units: budget.saturating_sub(self.most),
            answers: counts.answers.saturating_add(room as u64),
        };
        match self.begun() {
            Ok(search) => self.search(search, book, wanted.as_slice(), limits, counts, watch),
            Err(error) => {
                mem::drop(book);
                Err(error)
            }
        }
    }

    // The search that is kept, or a new one. None is kept then.
    fn begun(&mut self) -> Result<Search<'a, Propagators<'a>>, AllocError>
        ensures same { self.new ≡ self.old }
        ensures fresh { IfOk result (IsFresh self.old) }
    {
        match self.search.take() {
            Some(search) => Ok(search),
            None => begin(self.alloc, self.compiled),
        }
    }

    // Keeps the search, when it has forgotten what it found.
    fn keep_anew(&mut self, search: Search<'a, Propagators<'a>>)
        requires { IsFree self.old search }
        ensures { self.new ≡ self.old }
    {
        if let Ok(search) = begun_again(search) {
            put(&mut self.search, search);
        }
    }

    // Keeps the search. What it found is forgotten.
    fn keep(&mut self, search: Search<'a, Propagators<'a>>, report: &Report)
        requires free { IsFree self.old search }
        requires fresh { report.now.results.answers ≡ [] → IsFresh self.old search }
        ensures { self.new ≡ self.old }
    {
        if report.results.answers.rows().len() == 0 {
            put(&mut self.search, search);
        } else {
            self.keep_anew(search);
        }
    }

    // Asks the query of a search, and keeps that.
    fn search<W: Watch>(
        &mut self,
        search: Search<'a, Propagators<'a>>,
        book: Book,
        literals: &[i32],
        limits: Limits,
        counts: &mut Counts,
        watch: &mut W,
    ) -> Result<Option<Report>, AllocError>
        requires begun { IsBegun book search }
        requires program { book.task.program ≡ self.old }
        requires wanted { literals.now ≡ wanted book.task }
        ensures same { self.new ≡ self.old }
        ensures report { IfOk result (λ o. IfSome o (IsQueryReport book.task)) }
        ensures heard { W.IsAfter watch.old watch.new }
    {
        let mut search = search;
        match answer(
            self.alloc,
            self.compiled,
            book,
            literals,
            &mut search,
            limits,
            counts,
            watch,
        ) {
            Ok(Some(report)) => {
                self.keep(search, &report);
                Ok(Some(report))
            }
            Ok(None) => {
                self.keep_anew(search);
                Ok(None)
            }
            Err(error) => {
                mem::drop(search);
                Err(error)
            }
        }
    }
}
