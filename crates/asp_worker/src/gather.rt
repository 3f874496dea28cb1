//! How a worker gathers answers, and delivers several in one turn of the book's lock.
ghost use Rattle.std.specs.Prelude.{◌≡◌, ◌≤◌, ◌++◌, ◌∷◌, ℕ, List, [], IsTrue, OnOk, OnErr, IfOk, IfErr, IfSome};
ghost use Rattle.asp_model.specs.declared.results.Mode.TheVariants as mode;
ghost use Rattle.asp_model.specs.Models.{atoms_of};
ghost use Rattle.asp_rows.specs.Listed.{IsRowFor};
ghost use Rattle.asp_rows.specs.declared.row.Row.{Row as RowOf};
ghost use Rattle.asp_vars.specs.Literals.{Literal};
ghost use Rattle.asp_vars.specs.Paid.{Units};
ghost use Rattle.asp_vault.specs.Seats.{view, IsOf, IsBeside};
ghost use Rattle.asp_core.specs.declared.event.Event.{Event};
ghost use Rattle.asp_path.specs.Trees.{cube_of};
ghost use Rattle.asp_book.specs.Calls.{seen_board, IsCall};
ghost use Rattle.asp_book.specs.Replies.{deliveries};
ghost use Rattle.asp_search_laws.specs.Searching.{Searching};
ghost use Rattle.asp_slots.specs.Shelves.{seen_count};
ghost use Rattle.asp_worker.specs.Seats.{IsReady, IsSettled, Idles, Keeps};
ghost use Rattle.asp_worker.specs.Working.{IsOn, IsOff, IsCourse, IsPause, IsStop, Finds, Gathers};

use crate::engine::Engine;
use crate::path::{Course, step};
use crate::share::STRIDE;
use crate::sharing::{record, refresh, row_of};
use crate::stop::Stop;
use crate::worker::{Shared, Worker};
use asp_book::book::Book;
use asp_book::desk;
use asp_book::listing::Listing;
use asp_model::interp::Interp;
use asp_model::results::Mode;
use asp_path::tree::Leaf;
use asp_propagate::propagator::Propagator;
use asp_search::search::Search;
use asp_search_laws::step::Step;
use asp_vars::nogood::Nogood;
use asp_vault::Seat;
use std::alloc::{AllocError, Global};
use std::sync::Wait;

/// How many answers are delivered in one turn.
const TOGETHER: usize = 8;

/// How many steps are made for them at most.
const STEPS: u32 = 16;

/// Why no more answers are gathered.
#[derive(Drop)]
pub(crate) enum Pause {
    /// Enough were gathered for one turn, or a conflict is to be paid for, or it is time to share.
    Due,
    /// The search has begun again, and may take over what others found.
    Restarted,
    /// Nothing is left to be found, by this nogood.
    Closed(Nogood),
}

// Whether answers may wait for others: all are asked for.
fn may_wait(shared: &Shared<'_>) -> bool
    ensures { IsTrue result → shared.now.mode ≡ mode.Enum }
{
    shared.models == 0 && matches!(shared.mode, Mode::Enum)
}

// Keeps an answer with its row.
fn keep<P: Propagator>(
    alloc: Global,
    search: &Search<'_, P>,
    found: &mut Vec<Listing>,
    set: Interp,
) -> Result<(), AllocError>
    ensures { OnOk result ((row : RowOf) × IsRowFor (atoms_of search.now.program) set row × (found.new.items ≡ found.old.items ++ record { row = row; set = set } ∷ [])) }
{
    let row = row_of(alloc, search, &set)?;
    found.push(Listing { row, set })?;
    Ok(())
}

// One step more, which pays for no conflict: as long as answers wait, the board doesn't have them, and a unit may be burnt only by
// answers that it has. A conflict is met again by the step after they were delivered.
fn turn<R: Wait, P: Propagator>(
    rt: &R,
    shared: &Shared<'_>,
    engine: &mut Engine<'_, P>,
    found: &mut Vec<Listing>,
) -> Result<Option<Pause>, AllocError>
    requires program { engine.old.fuel.program ≡ engine.old.search.program }
    requires gathers { (s : Searching) × (q : List Literal) × Gathers s engine.old.search q found.old.items }
    ensures engine { (engine.new.fuel ≡ engine.old.fuel) × (engine.new.read ≡ engine.old.read) }
    ensures gathers { OnOk result ((s : Searching) (q : List Literal) → Gathers s engine.old.search q found.old.items → Gathers s engine.new.search q found.new.items) }
    ensures pause { IfOk result (λ r. IfSome r (IsPause engine.new.search)) }
{
    let mut none = engine.fuel.part(0);
    match step(
        rt,
        shared,
        &mut engine.search,
        &mut none,
        &mut engine.did,
        engine.recorder,
    )? {
        Step::Decided => Ok(None),
        Step::Answer(set) => {
            keep(shared.alloc, &engine.search, found, set)?;
            Ok(None)
        }
        Step::Restarted => Ok(Some(Pause::Restarted)),
        Step::Closed(nogood) => Ok(Some(Pause::Closed(nogood))),
        Step::Learnt => Ok(Some(Pause::Due)),
        Step::NoFuel(_) => Ok(Some(Pause::Due)),
    }
}

// Whether the answers that wait are to be delivered now.
fn is_due<P: Propagator>(engine: &Engine<'_, P>, found: &Vec<Listing>) -> bool {
    found.len() >= TOGETHER || engine.step % STRIDE == 0 || engine.search.searched().is_some()
}

// Gathers the answers that the next steps find.
fn gather<R: Wait, P: Propagator>(
    rt: &R,
    shared: &Shared<'_>,
    engine: &mut Engine<'_, P>,
    found: &mut Vec<Listing>,
) -> Result<Pause, AllocError>
    requires program { engine.old.fuel.program ≡ engine.old.search.program }
    requires gathers { (s : Searching) × (q : List Literal) × Gathers s engine.old.search q found.old.items }
    ensures engine { (engine.new.fuel ≡ engine.old.fuel) × (engine.new.read ≡ engine.old.read) }
    ensures gathers { OnOk result ((s : Searching) (q : List Literal) → Gathers s engine.old.search q found.old.items → Gathers s engine.new.search q found.new.items) }
    ensures pause { IfOk result (IsPause engine.new.search) }
{
    'steps: for _ in 0..STEPS {
        if is_due(engine, found) {
            return Ok(Pause::Due);
        }
        engine.step = engine.step.wrapping_add(1);
        if let Some(pause) = turn(rt, shared, engine, found)? {
            return Ok(pause);
        }
    }
    Ok(Pause::Due)
}

// Delivers the answers that were gathered, in one turn.
fn list_all<R: Wait>(
    rt: &R,
    shared: &Shared<'_>,
    seat: &mut Seat<Book>,
    found: Vec<Listing>,
) -> Result<(), Stop>
    requires of { IsOf shared.now.book seat.old }
    requires settled { IsSettled (view seat.old) }
    requires found { (s t : Searching) × (u : Units) × (leaf : ℕ) × IsOn shared.now.mode (view seat.old) s u leaf × Gathers s t (cube_of (seen_board (view seat.old)).nodes leaf) found.items }
    ensures of { IsBeside seat.old seat.new }
    ensures idles { Idles (view seat.old) (view seat.new) }
    ensures ok { OnOk result ((before : List Event) × IsCall (view seat.old) (view seat.new) before (deliveries (view seat.old).number found.items)) }
    ensures stop { IfErr result (IsStop (view seat.new)) }
{
    let listed = desk::list_all(rt, &shared.book, seat, found)?;
    if listed { Ok(()) } else { Err(Stop::Enough) }
}

// Delivers an answer that the search has found with those that it finds next.
fn answers<R: Wait, P: Propagator>(
    rt: &R,
    shared: &Shared<'_>,
    worker: &mut Worker,
    engine: &mut Engine<'_, P>,
    leaf: Leaf,
    set: Interp,
) -> Result<Course, Stop>
    requires ready { IsReady shared.now worker.old }
    requires listing { shared.now.mode ≡ mode.Enum }
    requires found { (s : Searching) × Finds shared.now.mode (view worker.old.seat) s engine.old.search engine.old.fuel leaf set }
    requires read { engine.old.read ≤ seen_count worker.old.pages }
    ensures keeps { Keeps worker.old worker.new }
    ensures ready { IsReady shared.now worker.new }
    ensures read { engine.new.read ≤ seen_count worker.new.pages }
    ensures ok { OnOk result (IsOn shared.now.mode (view worker.new.seat) engine.new.search engine.new.fuel leaf) }
    ensures course { IfOk result (IsCourse (view worker.new.seat) engine.new.search leaf) }
    ensures err { OnErr result (IsOff (view worker.new.seat) engine.new.fuel leaf) }
    ensures stop { IfErr result (IsStop (view worker.new.seat)) }
{
    let _leaf = leaf;
    let mut found = Vec::new(shared.alloc);
    keep(shared.alloc, &engine.search, &mut found, set)?;
    let pause = gather(rt, shared, engine, &mut found)?;
    list_all(rt, shared, &mut worker.seat, found)?;
    match pause {
        Pause::Due => Ok(Course::Open),
        Pause::Restarted => {
            refresh(rt, shared, worker, engine)?;
            Ok(Course::Open)
        }
        Pause::Closed(nogood) => Ok(Course::Done(nogood)),
    }
}

/// Records an answer that the search has found, unless there are as many as asked for. Where all are asked for, it goes on a few
/// steps first, and delivers what these find with it.
pub(crate) fn answer<R: Wait, P: Propagator>(
    rt: &R,
    shared: &Shared<'_>,
    worker: &mut Worker,
    engine: &mut Engine<'_, P>,
    leaf: Leaf,
    set: Interp,
) -> Result<Course, Stop>
    requires ready { IsReady shared.now worker.old }
    requires found { (s : Searching) × Finds shared.now.mode (view worker.old.seat) s engine.old.search engine.old.fuel leaf set }
    requires read { engine.old.read ≤ seen_count worker.old.pages }
    ensures keeps { Keeps worker.old worker.new }
    ensures ready { IsReady shared.now worker.new }
    ensures read { engine.new.read ≤ seen_count worker.new.pages }
    ensures ok { OnOk result (IsOn shared.now.mode (view worker.new.seat) engine.new.search engine.new.fuel leaf) }
    ensures course { IfOk result (IsCourse (view worker.new.seat) engine.new.search leaf) }
    ensures err { OnErr result (IsOff (view worker.new.seat) engine.new.fuel leaf) }
    ensures stop { IfErr result (IsStop (view worker.new.seat)) }
{
    if may_wait(shared) {
        return answers(rt, shared, worker, engine, leaf, set);
    }
    record(rt, shared, &mut worker.seat, engine, set)?;
    Ok(Course::Open)
}
