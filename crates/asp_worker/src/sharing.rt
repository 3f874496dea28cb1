//! What a search tells the others, and what it takes over from them.
ghost use Rattle.std.specs.Prelude.{◌≡◌, ◌≤◌, ◌<◌, ◌^◌, ◌↔◌, ℕ, Some, false, IsTrue, length, OnOk, OnErr, IfOk, IfErr, All};
ghost use Rattle.std.specs.Option.{option_copied};
ghost use Rattle.asp_model.specs.declared.results.Mode.TheVariants as mode;
ghost use Rattle.asp_model.specs.Asked.{reasoning_of};
ghost use Rattle.asp_model.specs.Consequences.{unshown};
ghost use Rattle.asp_model.specs.Sets.{IsSubset};
ghost use Rattle.asp_model.specs.Models.{atoms_of};
ghost use Rattle.asp_rows.specs.Listed.{IsRowFor};
ghost use Rattle.asp_vars.specs.Paid.{Units};
ghost use Rattle.asp_vault.specs.Seats.{view, IsOf, IsBeside};
ghost use Rattle.asp_log.specs.Entries.{IsEntry};
ghost use Rattle.asp_book.specs.Calls.{seen_board};
ghost use Rattle.asp_search.specs.Beside.{count_unshown, left_to_show, Leaves};
ghost use Rattle.asp_search_laws.specs.Searching.{Searching};
ghost use Rattle.asp_slots.specs.Shelves.{program_of, seen_count, listed, IsAt, ReadsOn};
ghost use Rattle.asp_crew_laws.specs.Runs.{is_opt};
ghost use Rattle.asp_worker.specs.Seats.{IsReady, Keeps, IsSettled, Idles, Leases, WasEmpty};
ghost use Rattle.asp_worker.specs.Sharing.{is_fewer, is_smaller, lowered, ImportsAll, ImportsNew, Remembers, RemembersAll, TakesBest, TakesKnown, TakesOver};
ghost use Rattle.asp_worker.specs.Working.{GoesOn, Finds, IsStop};

use crate::engine::Engine;
use crate::stop::Stop;
use crate::worker::{Shared, Worker};
use crate::writing::{best_turn, find_imported, note_import, tell};
use asp_book::book::Book;
use asp_book::desk;
use asp_model::cost::Cost;
use asp_model::interp::Interp;
use asp_model::results::Mode;
use asp_propagate::propagator::Propagator;
use asp_recorder::recorder::Recorder;
use asp_rows::row::Row;
use asp_search::search::{Search, count_unshown};
use asp_slots::{ShelfSeat, Shown};
use asp_vars::known::Known;
use asp_vault::Seat;
use std::alloc::{AllocError, Global};
use std::sync::Wait;

/// How many units a worker leases at a time.
pub(crate) const LEASE: u64 = 64;

// Whether a cost is smaller than the bound, if there is one.
fn beats(cost: &Cost, bound: Option<&Cost>) -> bool
    ensures { result ≡ is_smaller cost.now (option_copied bound.entry) }
{
    match bound {
        None => true,
        Some(bound) => *cost < *bound,
    }
}

// Seeks only answers that cost less than this one, if it is smaller than the bound.
fn lower_bound<P: Propagator>(search: &mut Search<'_, P>, cost: Cost) -> Result<(), AllocError>
    ensures ok { OnOk result (search.new ≡ lowered search.old cost) }
    ensures err { OnErr result (Leaves search.old search.new) }
{
    if !beats(&cost, search.bound()) {
        return Ok(());
    }
    search.set_bound(cost)
}

// Imports those entries of the log that count for the search.
fn import_all<P: Propagator>(
    search: &mut Search<'_, P>,
    recorder: Option<&Recorder>,
    entries: &Shown,
) -> Result<(), AllocError>
    requires few { length (listed entries.now) < 2 ^ 32 }
    requires good { All (IsEntry search.old.program) (listed entries.now) }
    ensures ok { OnOk result (ImportsAll (listed entries.now) search.old search.new) }
    ensures err { OnErr result (Remembers search.old search.new) }
{
    for i in 0..entries.len() {
        let used = search.import(entries.entry(i))?;
        note_import(search, recorder, entries.entry(i), used);
    }
    Ok(())
}

// Imports what is new in the log.
fn import_new<R: Wait, P: Propagator>(
    rt: &R,
    shared: &Shared<'_>,
    pages: &mut ShelfSeat,
    search: &mut Search<'_, P>,
    recorder: Option<&Recorder>,
    read: &mut u32,
) -> Result<(), AllocError>
    requires at { IsAt shared.now.log pages.old }
    requires program { program_of shared.now.log ≡ search.old.program }
    requires read { read.old ≤ seen_count pages.old }
    ensures reads { ReadsOn pages.old pages.new }
    ensures read { read.new ≤ seen_count pages.new }
    ensures ok { OnOk result (ImportsNew pages.new read.old search.old search.new) }
    ensures all { OnOk result (read.new ≡ seen_count pages.new) }
    ensures err { OnErr result (Remembers search.old search.new) }
{
    if shared.log.count(pages) <= u64::from(*read) {
        return Ok(());
    }
    let entries = shared.log.read(rt, shared.alloc, pages, *read)?;
    import_all(search, recorder, &entries)?;
    find_imported(rt, shared, recorder);
    *read += entries.len();
    Ok(())
}

// Whether these answers show more than those that the search knows.
fn show_more<P: Propagator>(known: &Known, search: &Search<'_, P>) -> bool
    ensures { result ≡ is_fewer (count_unshown known.now.reasoning known.now.program known.now.sets) (left_to_show search.now) }
{
    match (count_unshown(known), search.unshown_atoms()) {
        (None, _) => false,
        (Some(_), None) => true,
        (Some(count), Some(left)) => count < left,
    }
}

// Leaves out what shows nothing beside the answers delivered, where they show more than those that the search knows.
fn take_known<P: Propagator>(search: &mut Search<'_, P>, known: Known) -> Result<(), AllocError>
    requires program { known.program ≡ search.old.program }
    requires reasoning { Some known.reasoning ≡ reasoning_of search.old.mode }
    requires all { IsSubset (unshown known.reasoning known.program known.sets) (unshown known.reasoning known.program search.old.known) }
    ensures ok { OnOk result (TakesKnown search.old search.new known) }
    ensures err { OnErr result (Leaves search.old search.new) }
{
    if show_more(&known, search) {
        search.set_known(known)
    } else {
        Ok(())
    }
}

// Takes over the cost of the best answer, if one is sought, and the answers delivered where consequences are.
fn take_best<R: Wait, P: Propagator>(
    rt: &R,
    shared: &Shared<'_>,
    seat: &mut Seat<Book>,
    search: &mut Search<'_, P>,
) -> Result<(), AllocError>
    requires of { IsOf shared.now.book seat.old }
    requires settled { IsSettled (view seat.old) }
    requires going { (u : Units) × GoesOn shared.now.mode (view seat.old) search.old u }
    ensures of { IsBeside seat.old seat.new }
    ensures idles { Idles (view seat.old) (view seat.new) }
    ensures ok { OnOk result (TakesBest shared.now.mode (seen_board (view seat.new)) search.old search.new) }
    ensures err { OnErr result (Remembers search.old search.new) }
{
    match shared.mode {
        Mode::Enum => Ok(()),
        Mode::Opt => match desk::best(rt, &shared.book, seat)? {
            None => Ok(()),
            Some(best) => lower_bound(search, best),
        },
        Mode::Consequences(_) => match desk::known(rt, &shared.book, seat)? {
            None => Ok(()),
            Some(known) => take_known(search, known),
        },
    }
}

/// Takes over what others have found: the best cost first, since a nogood below a cost that the search hasn't reached is passed
/// over, and isn't looked at again. After want of memory it may be that no path is entered.
pub(crate) fn refresh<R: Wait, P: Propagator>(
    rt: &R,
    shared: &Shared<'_>,
    worker: &mut Worker,
    engine: &mut Engine<'_, P>,
) -> Result<(), AllocError>
    requires ready { IsReady shared.now worker.old }
    requires going { GoesOn shared.now.mode (view worker.old.seat) engine.old.search engine.old.fuel }
    requires read { engine.old.read ≤ seen_count worker.old.pages }
    ensures keeps { Keeps worker.old worker.new }
    ensures ready { IsReady shared.now worker.new }
    ensures idles { Idles (view worker.old.seat) (view worker.new.seat) }
    ensures read { engine.new.read ≤ seen_count worker.new.pages }
    ensures fuel { engine.new.fuel ≡ engine.old.fuel }
    ensures ok { OnOk result (TakesOver shared.now.mode (seen_board (view worker.new.seat)) worker.new.pages engine.old.read engine.old.search engine.new.search) }
    ensures all { OnOk result (engine.new.read ≡ seen_count worker.new.pages) }
    ensures err { OnErr result (RemembersAll shared.now.mode (seen_board (view worker.new.seat)) engine.old.search engine.new.search) }
{
    take_best(rt, shared, &mut worker.seat, &mut engine.search)?;
    import_new(
        rt,
        shared,
        &mut worker.pages,
        &mut engine.search,
        engine.recorder,
        &mut engine.read,
    )
}

/// Tells the others what the last step learnt, if that is of use to them and there is room and memory for it.
pub(crate) fn export<R: Wait, P: Propagator>(
    rt: &R,
    shared: &Shared<'_>,
    pages: &mut ShelfSeat,
    search: &Search<'_, P>,
    recorder: Option<&Recorder>,
)
    requires at { IsAt shared.now.log pages.old }
    requires program { program_of shared.now.log ≡ search.now.program }
    ensures { ReadsOn pages.old pages.new }
{
    if shared.log.is_full(pages) {
        return;
    }
    if let Ok(Some(nogood)) = search.export() {
        if tell(rt, shared, search, recorder, &nogood) {
            let _told = shared.log.append(rt, pages, nogood);
        }
    }
}

/// The row of an answer, which is made before the lock is taken.
pub(crate) fn row_of<P: Propagator>(
    alloc: Global,
    search: &Search<'_, P>,
    set: &Interp,
) -> Result<Row, AllocError>
    ensures { IfOk result (IsRowFor (atoms_of search.now.program) set.now) }
{
    let atoms = search.atoms().as_slice();
    let row = Row::of(alloc, atoms, set)?;
    Ok(row)
}

// Delivers an answer that an enumeration has found, unless as many as asked for were delivered before.
fn list<R: Wait, P: Propagator>(
    rt: &R,
    shared: &Shared<'_>,
    seat: &mut Seat<Book>,
    engine: &mut Engine<'_, P>,
    set: Interp,
) -> Result<(), Stop>
    requires of { IsOf shared.now.book seat.old }
    requires settled { IsSettled (view seat.old) }
    requires listing { shared.now.mode ≡ mode.Enum }
    requires found { (s : Searching) × (leaf : ℕ) × Finds shared.now.mode (view seat.old) s engine.old.search engine.old.fuel leaf set }
    ensures of { IsBeside seat.old seat.new }
    ensures idles { Idles (view seat.old) (view seat.new) }
    ensures engine { (engine.new.search ≡ engine.old.search) × (engine.new.fuel ≡ engine.old.fuel) × (engine.new.read ≡ engine.old.read) }
    ensures ok { OnOk result (GoesOn shared.now.mode (view seat.new) engine.new.search engine.new.fuel) }
    ensures stop { IfErr result (IsStop (view seat.new)) }
{
    let row = row_of(shared.alloc, &engine.search, &set)?;
    let listed = desk::list(rt, &shared.book, seat, row, set)?;
    if listed { Ok(()) } else { Err(Stop::Enough) }
}

// Tells of an answer that the search has found where consequences are sought, unless as many as asked for were delivered before.
fn deliver<R: Wait, P: Propagator>(
    rt: &R,
    shared: &Shared<'_>,
    seat: &mut Seat<Book>,
    engine: &mut Engine<'_, P>,
    set: Interp,
) -> Result<(), Stop>
    requires of { IsOf shared.now.book seat.old }
    requires settled { IsSettled (view seat.old) }
    requires listing { is_opt shared.now.mode ≡ false }
    requires found { (s : Searching) × (leaf : ℕ) × Finds shared.now.mode (view seat.old) s engine.old.search engine.old.fuel leaf set }
    ensures of { IsBeside seat.old seat.new }
    ensures idles { Idles (view seat.old) (view seat.new) }
    ensures engine { (engine.new.search ≡ engine.old.search) × (engine.new.fuel ≡ engine.old.fuel) × (engine.new.read ≡ engine.old.read) }
    ensures ok { OnOk result (GoesOn shared.now.mode (view seat.new) engine.new.search engine.new.fuel) }
    ensures stop { IfErr result (IsStop (view seat.new)) }
{
    let told = desk::deliver(rt, &shared.book, seat, set)?;
    if told { Ok(()) } else { Err(Stop::Enough) }
}

// Makes an answer that the search has found the best one, or takes over the cost of one that is no dearer.
fn improve<R: Wait, P: Propagator>(
    rt: &R,
    shared: &Shared<'_>,
    seat: &mut Seat<Book>,
    engine: &mut Engine<'_, P>,
    set: Interp,
) -> Result<(), AllocError>
    requires of { IsOf shared.now.book seat.old }
    requires settled { IsSettled (view seat.old) }
    requires found { (s : Searching) × (leaf : ℕ) × Finds mode.Opt (view seat.old) s engine.old.search engine.old.fuel leaf set }
    ensures of { IsBeside seat.old seat.new }
    ensures idles { Idles (view seat.old) (view seat.new) }
    ensures engine { (engine.new.fuel ≡ engine.old.fuel) × (engine.new.read ≡ engine.old.read) }
    ensures ok { OnOk result (GoesOn mode.Opt (view seat.new) engine.new.search engine.new.fuel × (engine.new.search.cube ≡ engine.old.search.cube)) }
    ensures err { OnErr result (engine.new.search.program ≡ engine.old.search.program) }
{
    let _turn = best_turn(rt, shared, &engine.search, &set)?;
    match desk::improve(rt, &shared.book, seat, set)? {
        None => Ok(()),
        Some(best) => lower_bound(&mut engine.search, best),
    }
}

/// Records an answer that the search has found, unless there are as many as asked for.
pub(crate) fn record<R: Wait, P: Propagator>(
    rt: &R,
    shared: &Shared<'_>,
    seat: &mut Seat<Book>,
    engine: &mut Engine<'_, P>,
    set: Interp,
) -> Result<(), Stop>
    requires of { IsOf shared.now.book seat.old }
    requires settled { IsSettled (view seat.old) }
    requires found { (s : Searching) × (leaf : ℕ) × Finds shared.now.mode (view seat.old) s engine.old.search engine.old.fuel leaf set }
    ensures of { IsBeside seat.old seat.new }
    ensures idles { Idles (view seat.old) (view seat.new) }
    ensures engine { (engine.new.fuel ≡ engine.old.fuel) × (engine.new.read ≡ engine.old.read) }
    ensures ok { OnOk result (GoesOn shared.now.mode (view seat.new) engine.new.search engine.new.fuel × (engine.new.search.cube ≡ engine.old.search.cube)) }
    ensures stop { IfErr result (IsStop (view seat.new)) }
{
    match shared.mode {
        Mode::Enum => list(rt, shared, seat, engine, set),
        Mode::Consequences(_) => deliver(rt, shared, seat, engine, set),
        Mode::Opt => {
            improve(rt, shared, seat, engine, set)?;
            Ok(())
        }
    }
}

/// Leases units. False where none was left.
pub(crate) fn lease<R: Wait, P: Propagator>(
    rt: &R,
    shared: &Shared<'_>,
    seat: &mut Seat<Book>,
    engine: &mut Engine<'_, P>,
) -> Result<bool, AllocError>
    requires of { IsOf shared.now.book seat.old }
    requires settled { IsSettled (view seat.old) }
    requires going { GoesOn shared.now.mode (view seat.old) engine.old.search engine.old.fuel }
    requires none { engine.old.fuel.left ≡ 0 }
    ensures of { IsBeside seat.old seat.new }
    ensures leases { Leases (view seat.old) (view seat.new) }
    ensures engine { (engine.new.search ≡ engine.old.search) × (engine.new.read ≡ engine.old.read) }
    ensures going { GoesOn shared.now.mode (view seat.new) engine.new.search engine.new.fuel }
    ensures some { IfOk result (λ b. IsTrue b ↔ (0 < engine.new.fuel.left)) }
    ensures few { engine.new.fuel.left ≤ 64 }
    ensures spent { IfOk result (λ b. b ≡ false → WasEmpty (view seat.new)) }
{
    let units = desk::lease(rt, &shared.book, seat, LEASE)?;
    let some = units.left() > 0;
    engine.fuel.merge(units);
    Ok(some)
}
