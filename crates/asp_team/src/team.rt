//! A team: what its workers share, the main thread's seats, and the workers before they begin.
ghost use Rattle.std.specs.Prelude.{◌≡◌, ◌+◌, ◌^◌, ◌<◌, ◌≤◌, ◌&&◌, ℕ, nat_lt, [], length, IfOk, OnOk};
ghost use Rattle.asp_vault.specs.Rules.{opened, parted};
ghost use Rattle.asp_vault.specs.Seats.{view, IsOf};
ghost use Rattle.asp_pool.specs.Lists.{Every};
ghost use Rattle.asp_pool.specs.Pools.{IsOfPool};
ghost use Rattle.asp_book.specs.Calls.{task_of as seen_task};
ghost use Rattle.asp_counts.specs.Tallies.{count_of};
ghost use Rattle.asp_crew_laws.specs.Runs.{task_of};
ghost use Rattle.asp_slots.specs.Shelves.{is_row, HasRoom, HasSplit};
ghost use Rattle.asp_team.specs.Joined.{MayJoin};
ghost use Rattle.asp_team.specs.Teams.{AreReady, HasOut, IsHost, IsTeam};

use crate::lead::Lead;
use asp_book::book::Book;
use asp_core::goal::Goal;
use asp_core::state::State;
use asp_counts::tallies::Tallies;
use asp_model::results::Ask;
use asp_pool::{Lane, Pass, Pool};
use asp_recorder::scroll::Scroll;
use asp_slots::Shelf;
use asp_vars::compiled::Compiled;
use asp_vault::{Seat, Vault};
use asp_worker::worker::{Shared, Worker};
use std::alloc::{AllocError, Global};
use std::mem;

/// How many entries the log may have.
const LOG_LIMIT: u32 = 1048576;

/// A run before its workers begin.
#[derive(Drop)]
pub(crate) struct Team<'a> {
    /// What the workers share.
    pub(crate) shared: Shared<'a>,
    /// The main thread's seats.
    pub(crate) lead: Lead,
    /// Their numbers are 1 and those that follow.
    pub(crate) workers: Vec<Worker>,
}

// A vault with the book of a run at which nothing has happened yet, and its first seat.
fn start(
    alloc: Global,
    compiled: &Compiled,
    ask: Ask,
    budget: u64,
) -> Result<(Vault<Book>, Seat<Book>), AllocError>
    ensures of { IfOk result (λ r. IsOf r.0 r.1) }
    ensures view { IfOk result (λ r. view r.1 ≡ opened (task_of compiled.now ask budget) []) }
{
    let state = State::start(
        alloc,
        compiled,
        Goal::of(ask.mode, ask.by_name),
        budget,
        ask.limit(),
        [].as_slice(),
    )?;
    let book = Book::new(alloc, compiled, state)?;
    Vault::make(alloc, book)
}

// The next worker, with a lane and a pass.
fn next(shared: &Shared<'_>, lead: &mut Lead, lane: Lane, pass: Pass) -> Worker
    requires host { IsHost shared.now lead.old }
    requires room { ((view lead.old.seat).splits + 1 < 2 ^ 32) × HasRoom lead.old.pages }
    requires pass { IsOfPool shared.now.pool pass }
    ensures host { IsHost shared.now lead.new }
    ensures seat { view lead.new.seat ≡ parted (view lead.old.seat) }
    ensures pages { (n : ℕ) → HasSplit lead.old.pages n → HasSplit lead.new.pages (n + 1) }
    ensures number { (view result.seat).number ≡ (view lead.old.seat).splits + 1 }
    ensures began { (view result.seat).seen ≡ (view lead.old.seat).seen }
    ensures may { MayJoin (seen_task (view lead.old.seat)).program shared.now (view lead.old.seat).about result }
{
    Worker {
        seat: shared.book.split(&mut lead.seat),
        pages: shared.log.split(&mut lead.pages),
        lane,
        pass,
        short: false,
    }
}

// Adds the next worker, who takes a pass.
fn add(
    shared: &Shared<'_>,
    lead: &mut Lead,
    workers: &mut Vec<Worker>,
    lane: Lane,
    passes: &mut Vec<Pass>,
) -> Result<(), AllocError>
    requires host { IsHost shared.now lead.old }
    requires ready { AreReady shared.now lead.old workers.old.items }
    requires few { length workers.old.items < 64 }
    requires some { 0 < length passes.old.items }
    requires passes { Every (IsOfPool shared.now.pool) passes.old.items }
    ensures host { IsHost shared.now lead.new }
    ensures about { (view lead.new.seat).about ≡ (view lead.old.seat).about }
    ensures ready { OnOk result (AreReady shared.now lead.new workers.new.items) }
    ensures more { OnOk result (length workers.new.items ≡ length workers.old.items + 1) }
    ensures fewer { length passes.new.items + 1 ≡ length passes.old.items }
    ensures passes { Every (IsOfPool shared.now.pool) passes.new.items }
{
    match passes.pop() {
        None => unreachable!(),
        Some(pass) => {
            workers.push(next(shared, lead, lane, pass))?;
            Ok(())
        }
    }
}

// A worker for each lane. The only error is want of memory.
fn workers(
    shared: &Shared<'_>,
    lead: &mut Lead,
    mut lanes: Vec<Lane>,
    mut passes: Vec<Pass>,
) -> Result<Vec<Worker>, AllocError>
    requires host { IsHost shared.now lead.old }
    requires none_out { HasOut (view lead.old.seat) 0 × HasSplit lead.old.pages 0 }
    requires few { length lanes.items ≤ 64 }
    requires even { length passes.items ≡ length lanes.items }
    requires passes { Every (IsOfPool shared.now.pool) passes.items }
    ensures host { OnOk result (IsHost shared.now lead.new) }
    ensures about { OnOk result ((view lead.new.seat).about ≡ (view lead.old.seat).about) }
    ensures ready { IfOk result (λ all. AreReady shared.now lead.new all.items) }
    ensures count { IfOk result (λ all. length all.items ≡ length lanes.items) }
{
    let mut workers = Vec::with_capacity(shared.alloc, lanes.len())?;
    lanes.reverse();
    'lanes: while let Some(lane) = lanes.pop() {
        add(shared, lead, &mut workers, lane, &mut passes)?;
    }
    Ok(workers)
}

/// So many workers, 1 to 64, with what they share and what the main thread has. The scroll, if there is one, gets the lines of their
/// proof. Their log is a row of slots where this is wanted and there are several.
pub(crate) fn gathered<'a>(
    alloc: Global,
    compiled: &Compiled,
    ask: Ask,
    budget: u64,
    count: u32,
    scroll: Option<&'a Scroll>,
    row: bool,
) -> Result<Team<'a>, AllocError>
    requires { (1 ≤ count) × (count ≤ 64) }
    ensures team { IfOk result (IsTeam compiled.now ask budget) }
    ensures count { IfOk result (λ team. length team.workers.items ≡ count) }
    ensures log { IfOk result (λ team. is_row team.shared.log ≡ (row && nat_lt 1 count)) }
    ensures tallies { IfOk result (λ team. count_of team.shared.tallies ≡ count) }
{
    let (pool, lanes, passes) = Pool::new(alloc, count)?;
    let tallies = Tallies::new(alloc, count)?;
    let (log, pages) = Shelf::make(alloc, compiled, LOG_LIMIT, row && count > 1)?;
    let (book, seat) = start(alloc, compiled, ask, budget)?;
    let shared = Shared {
        alloc,
        mode: ask.mode,
        models: ask.limit(),
        workers: count,
        book,
        log,
        pool,
        tallies,
        scroll,
    };
    let mut lead = Lead {
        seat,
        pages,
        short: false,
    };
    match workers(&shared, &mut lead, lanes, passes) {
        Ok(workers) => Ok(Team {
            shared,
            lead,
            workers,
        }),
        Err(error) => {
            mem::drop(lead);
            mem::drop(shared);
            Err(error)
        }
    }
}
