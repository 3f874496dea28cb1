//! The leaf of a query, by a search that has entered no cube.
//!
//! The literals that each answer of the query has are decided first. The leaf is closed where the search has nothing left,
//! and where one of these literals is false by decisions that are all among them: then by that literal and these decisions. An
//! answer that lacks one of them, which nothing rules out, ends the search for the query, as a conflict without a unit does:
//! then nothing is said of it.
ghost use Rattle.std.specs.Prelude.{◌≡◌, ◌+◌, ◌≤◌, false, true, length, IfOk, IsSome, IsTrue};
ghost use Rattle.asp_model.specs.Holding.{all_hold};
ghost use Rattle.asp_vars.specs.Numbering.{var_count};
ghost use Rattle.asp_path.specs.declared.status.Status.TheVariants as status;
ghost use Rattle.asp_path.specs.Trees.{cube_of, status_of};
ghost use Rattle.asp_core.specs.Boards.{is_answer, is_enough, lists, wanted};
ghost use Rattle.asp_book.specs.Books.{board};
ghost use Rattle.asp_search_laws.specs.Steps.{IsStep};
ghost use Rattle.asp_query.specs.Kept.{IsFree};
ghost use Rattle.asp_query.specs.Turns.{ClosesLeaf, IsAsking, IsDelivered, Leaves, Turns};

use asp_book::book::Book;
use asp_counts::counts::Counts;
use asp_counts::watch::Watch;
use asp_model::holding::all_hold;
use asp_model::interp::Interp;
use asp_path::tree::Leaf;
use asp_propagate::propagator::Propagator;
use asp_search::search::Search;
use asp_search_laws::step::Step;
use asp_vars::fuel::Fuel;
use asp_vars::lit::Lit;
use std::alloc::AllocError;
use std::mem;

/// Where a search gives a query up. No contract speaks of this.
#[derive(Clone, Copy)]
pub(crate) struct Limits {
    /// When fewer units are left.
    pub units: u64,
    /// When more answers are counted.
    pub answers: u64,
}

// Whether the search goes on.
fn is_within(fuel: &Fuel, counts: &Counts, limits: Limits) -> bool {
    fuel.left() >= limits.units && counts.answers <= limits.answers
}

/// How a step left the query.
#[derive(Clone, Copy)]
pub(crate) enum Turn {
    /// The search goes on.
    Open,
    /// The program has no other answer.
    Exhausted,
    /// Nothing can be said of the query by this search.
    Lost,
}

/// How a search left the query.
#[derive(Drop)]
pub(crate) enum Left {
    /// The program has no other answer.
    Exhausted,
    /// The query has no other answer: none has these of its literals.
    Refuted(Vec<Lit>),
    /// Nothing can be said of the query by this search.
    Lost,
}

// Delivers an answer that has all that is wanted. Another one is nothing that this search could leave out for the query alone.
fn deliver(book: &mut Book, literals: &[i32], set: Interp) -> Result<Turn, AllocError>
    requires listed { IsTrue (lists book.old.task set) }
    requires answer { all_hold set literals.now ≡ true → IsTrue (is_answer book.old.task set) }
    requires more { is_enough (board book.old) ≡ false }
    ensures { IfOk result (IsDelivered book.old book.new set) }
{
    if !all_hold(&set, literals) {
        mem::drop(set);
        return Ok(Turn::Lost);
    }
    let _listed = book.deliver(0, set)?;
    Ok(Turn::Open)
}

// One step, which is counted.
fn step<P: Propagator>(
    search: &mut Search<'_, P>,
    fuel: &mut Fuel,
    counts: &mut Counts,
) -> Result<Step, AllocError>
    requires entered { IsSome search.old.cube }
    requires program { fuel.old.program ≡ search.old.program }
    ensures ok { IfOk result (IsStep (P.gives search.old.program search.old.bound) (P.silent search.old.program search.old.bound) search.old search.new fuel.old fuel.new) }
    ensures few { IfOk result (λ r. length search.new.entries ≤ var_count search.new.program + 1) }
{
    let step = search.step(fuel)?;
    counts.count(&step, search.implied() as u64, search.extra() as u64);
    Ok(step)
}

// One step. An answer of the query is delivered.
fn advance<P: Propagator>(
    book: &mut Book,
    literals: &[i32],
    search: &mut Search<'_, P>,
    fuel: &mut Fuel,
    counts: &mut Counts,
) -> Result<Turn, AllocError>
    requires asking { IsAsking book.old search.old fuel.old }
    requires wanted { literals.now ≡ wanted book.old.task }
    ensures { IfOk result (Turns book.old book.new search.old search.new fuel.old fuel.new) }
{
    match step(search, fuel, counts)? {
        Step::Decided => Ok(Turn::Open),
        Step::Learnt => Ok(Turn::Open),
        Step::Restarted => Ok(Turn::Open),
        Step::Answer(set) => deliver(book, literals, set),
        Step::Closed(_) => Ok(Turn::Exhausted),
        Step::NoFuel(_) => Ok(Turn::Lost),
    }
}

// Steps until nothing else is to be found, or nothing can be said of the query, or a limit is passed. After each the counts are told.
fn run<P: Propagator, W: Watch>(
    book: &mut Book,
    literals: &[i32],
    cube: &[Lit],
    search: &mut Search<'_, P>,
    fuel: &mut Fuel,
    limits: Limits,
    counts: &mut Counts,
    watch: &mut W,
) -> Result<Left, AllocError>
    requires asking { IsAsking book.old search.old fuel.old }
    requires wanted { literals.now ≡ wanted book.old.task }
    ensures leaves { IfOk result (Leaves book.old book.new search.new fuel.new cube.now) }
    ensures heard { W.IsAfter watch.old watch.new }
{
    'steps: loop {
        if !is_within(fuel, counts, limits) {
            return Ok(Left::Lost);
        }
        search.propagate()?;
        if let Some(refutation) = search.refutation(cube)? {
            return Ok(Left::Refuted(refutation));
        }
        let turn = advance(book, literals, search, fuel, counts)?;
        watch.tell(counts, None);
        match turn {
            Turn::Open => {}
            Turn::Exhausted => return Ok(Left::Exhausted),
            Turn::Lost => return Ok(Left::Lost),
        }
    }
}

// The literals of a leaf that number 0 holds.
fn cube_of(book: &Book, leaf: Leaf) -> Result<Vec<Lit>, AllocError>
    requires { status_of (board book.now).nodes leaf ≡ status.Held 0 }
    ensures { IfOk result (λ cube. cube.items ≡ cube_of (board book.now).nodes leaf) }
{
    book.cube(leaf)
}

/// Works on a leaf that number 0 holds. It is closed where the reply is true; else nothing can be said of the query by this search.
pub(crate) fn work_off<P: Propagator, W: Watch>(
    book: &mut Book,
    literals: &[i32],
    leaf: Leaf,
    search: &mut Search<'_, P>,
    fuel: &mut Fuel,
    limits: Limits,
    counts: &mut Counts,
    watch: &mut W,
) -> Result<bool, AllocError>
    requires asking { IsAsking book.old search.old fuel.old }
    requires wanted { literals.now ≡ wanted book.old.task }
    requires held { status_of (board book.old).nodes leaf ≡ status.Held 0 }
    ensures leaves { IfOk result (λ done. done ≡ true → ClosesLeaf book.old book.new leaf search.new fuel.new) }
    ensures free { IfOk result (λ done. IsFree book.old.task.program search.new) }
    ensures heard { W.IsAfter watch.old watch.new }
{
    let cube = cube_of(book, leaf)?;
    search.decide_first(cube.as_slice())?;
    match run(
        book,
        literals,
        cube.as_slice(),
        search,
        fuel,
        limits,
        counts,
        watch,
    )? {
        Left::Exhausted => {
            let none: [Lit; 0] = [];
            book.close(0, leaf, &none)?;
            Ok(true)
        }
        Left::Refuted(refutation) => {
            book.close(0, leaf, refutation.as_slice())?;
            Ok(true)
        }
        Left::Lost => Ok(false),
    }
}
