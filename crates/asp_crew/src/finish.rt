//! All that is open on a board, by one search.
ghost use Rattle.std.specs.Prelude.{◌≡◌, ◌+◌, ◌^◌, ◌<◌, [], None, IfOk, OnOk, replicate};
ghost use Rattle.asp_vars.specs.Numbering.{var_count};
ghost use Rattle.asp_book.specs.Books.{board};
ghost use Rattle.asp_search_laws.specs.Searching.{Searching};
ghost use Rattle.asp_crew_laws.specs.Reports.{IsIdle};
ghost use Rattle.asp_crew_laws.specs.Working.{IsAtWork, MayBegin};
ghost use Rattle.asp_crew.specs.Running.{QueryStands, IsReady, IsAlone, LeavesAll, Finishes};

use crate::leaf::work_off;
use asp_book::book::Book;
use asp_counts::counts::Counts;
use asp_counts::watch::Watch;
use asp_model::cost::Cost;
use asp_model::results::Mode;
use asp_path::tree::Leaf;
use asp_propagate::propagator::Propagator;
use asp_propagators::propagators::Propagators;
use asp_recorder::recorder::Recorder;
use asp_search::search::Search;
use asp_vars::compiled::Compiled;
use asp_vars::fuel::{Conflict, Fuel};
use std::alloc::{AllocError, Global};
use std::mem;

// Takes one open leaf after another, until none is open, as many answers as asked for were found, or a conflict is met when
// no unit is left.
fn work_off_all<P: Propagator, W: Watch>(
    book: &mut Book,
    mode: Mode,
    search: &mut Search<'_, P>,
    fuel: &mut Fuel,
    counts: &mut Counts,
    watch: &mut W,
    recorder: Option<&Recorder>,
) -> Result<Option<Conflict>, AllocError>
    requires ready { IsReady mode book.old search.old fuel.old }
    requires alone { IsAlone (board book.old) }
    ensures leaves { IfOk result (LeavesAll mode book.old book.new search.new fuel.new) }
    ensures heard { W.IsAfter watch.old watch.new }
{
    'leaves: loop {
        if book.enough() {
            return Ok(None);
        }
        match book.take(0)? {
            None => return Ok(None),
            Some(leaf) => match work_off(book, mode, search, fuel, leaf, counts, watch, recorder)? {
                None => {}
                Some(conflict) => return Ok(Some(conflict)),
            },
        }
    }
}

// Writes down the cube of each node, behind those of its halves.
fn note_cubes(book: &Book, recorder: &Recorder) -> Result<(), AllocError> {
    let nodes = book.nodes();
    for behind in 0..nodes {
        let node = nodes - 1 - behind;
        let cube = book.cube(node as Leaf)?;
        recorder.add_cube(cube.as_slice())?;
    }
    Ok(())
}

// Writes down why nothing is left below the tree's nodes, if all leaves are closed and somebody wants it.
fn note_tree(
    book: &Book,
    unpaid: &Option<Conflict>,
    recorder: Option<&Recorder>,
) -> Result<(), AllocError> {
    match recorder {
        Some(recorder) if unpaid.is_none() && !book.enough() => note_cubes(book, recorder),
        _ => Ok(()),
    }
}

/// What a search is for.
#[derive(Drop)]
pub struct Aim<'a> {
    /// The program whose answers are sought.
    pub compiled: &'a Compiled,
    /// Whether all of them are sought, what they have in common, or a cheapest one.
    pub mode: Mode,
    /// The cost below which they are sought, if there is one.
    pub bound: Option<Cost>,
}

// From now on only answers below the bound are sought, if there is one.
fn set_bound<P: Propagator>(
    search: &mut Search<'_, P>,
    bound: Option<Cost>,
) -> Result<(), AllocError>
    requires { search.old.bound ≡ None }
    ensures { OnOk result (search.new ≡ record search.old { bound = bound }) }
{
    match bound {
        None => Ok(()),
        Some(bound) => search.set_bound(bound),
    }
}

// From now on it is noted by which nogoods each step finds what it keeps, if somebody wants it.
fn note_uses<P: Propagator>(search: &mut Search<'_, P>, recorder: Option<&Recorder>)
    ensures { search.new ≡ search.old }
{
    if recorder.is_some() {
        search.note();
    }
}

// Works off all that is open below the bound, if there is one.
fn work_off_below<P: Propagator, W: Watch>(
    book: &mut Book,
    mode: Mode,
    bound: Option<Cost>,
    search: &mut Search<'_, P>,
    fuel: &mut Fuel,
    counts: &mut Counts,
    watch: &mut W,
    recorder: Option<&Recorder>,
) -> Result<Option<Conflict>, AllocError>
    requires ready { IsReady mode book.old (record search.old { bound = bound }) fuel.old }
    requires unbounded { search.old.bound ≡ None }
    requires alone { IsAlone (board book.old) }
    ensures leaves { IfOk result (LeavesAll mode book.old book.new search.new fuel.new) }
    ensures heard { W.IsAfter watch.old watch.new }
{
    set_bound(search, bound)?;
    work_off_all(book, mode, search, fuel, counts, watch, recorder)
}

// Works off all that is open by a search that is made for it, with the units that number 0 has.
fn search_all<P: Propagator, W: Watch>(
    alloc: Global,
    aim: Aim<'_>,
    book: &mut Book,
    propagator: P,
    fuel: &mut Fuel,
    counts: &mut Counts,
    watch: &mut W,
    recorder: Option<&Recorder>,
) -> Result<Option<Conflict>, AllocError>
    requires task { QueryStands book.old.task }
    requires of { book.old.task.program ≡ aim.compiled.now }
    requires work { IsAtWork (board book.old) 0 aim.mode [] aim.bound fuel.old }
    requires alone { IsAlone (board book.old) }
    requires program { (P.told propagator).program ≡ aim.compiled.now }
    requires fresh { (P.told propagator).values ≡ replicate (var_count aim.compiled.now + 1) None }
    requires unbounded { P.bound propagator ≡ None }
    ensures leaves { IfOk result (λ o. (s : Searching) × LeavesAll aim.entry.mode book.old book.new s fuel.new o) }
    ensures heard { W.IsAfter watch.old watch.new }
{
    let Aim {
        compiled,
        mode,
        bound,
    } = aim;
    let mut search = Search::new(alloc, compiled, mode, propagator)?;
    note_uses(&mut search, recorder);
    let unpaid = work_off_below(
        book,
        mode,
        bound,
        &mut search,
        fuel,
        counts,
        watch,
        recorder,
    );
    mem::drop(search);
    unpaid
}

/// Number 0 works off every open leaf, with all units of the pool, or until as many answers as asked for were found. The
/// conflict for which none was left, where one was met. The recorder gets what the search keeps, and where all leaves are
/// closed the cube of each node, behind those of its halves. With a bound from the beginning only answers that cost less are
/// found.
///
/// No leaf is held before, and no units are out. It returns: each leaf is worked off, and the search ends with the first that
/// it opens again. Want of memory is the one error. What it does is counted, and told after each step.
pub fn finish<P: Propagator, W: Watch>(
    alloc: Global,
    aim: Aim<'_>,
    book: &mut Book,
    propagator: P,
    counts: &mut Counts,
    watch: &mut W,
    recorder: Option<&Recorder>,
) -> Result<Option<Conflict>, AllocError>
    requires task { QueryStands book.old.task }
    requires goal { MayBegin aim.mode aim.bound book.old.task.goal }
    requires of { book.old.task.program ≡ aim.compiled.now }
    requires fits { book.old.task.budget < 2 ^ 64 }
    requires idle { IsIdle (board book.old) }
    requires program { (P.told propagator).program ≡ aim.compiled.now }
    requires fresh { (P.told propagator).values ≡ replicate (var_count aim.compiled.now + 1) None }
    requires unbounded { P.bound propagator ≡ None }
    ensures finishes { IfOk result (Finishes book.old book.new) }
    ensures heard { W.IsAfter watch.old watch.new }
{
    let _lawful = book.journal();
    let mut fuel = book.lease(0, u64::MAX)?;
    let unpaid = search_all(
        alloc, aim, book, propagator, &mut fuel, counts, watch, recorder,
    )?;
    book.back(0, fuel);
    note_tree(book, &unpaid, recorder)?;
    Ok(unpaid)
}

/// `finish` by the program's propagators. The recorder gets the loops whose nogoods they give, too.
pub fn finish_program<'a, W: Watch>(
    alloc: Global,
    compiled: &'a Compiled,
    mode: Mode,
    bound: Option<Cost>,
    book: &mut Book,
    counts: &mut Counts,
    watch: &mut W,
    recorder: Option<&'a Recorder>,
) -> Result<Option<Conflict>, AllocError>
    requires task { QueryStands book.old.task }
    requires goal { MayBegin mode bound book.old.task.goal }
    requires of { book.old.task.program ≡ compiled.now }
    requires fits { book.old.task.budget < 2 ^ 64 }
    requires idle { IsIdle (board book.old) }
    ensures finishes { IfOk result (Finishes book.old book.new) }
    ensures heard { W.IsAfter watch.old watch.new }
{
    let mut propagator = Propagators::new(alloc, compiled)?;
    propagator.record(recorder);
    let aim = Aim {
        compiled,
        mode,
        bound,
    };
    finish(alloc, aim, book, propagator, counts, watch, recorder)
}
