//! How a worker finds a path.
ghost use Rattle.std.specs.Prelude.{◌≡◌, ◌<◌, IfOk};
ghost use Rattle.asp_vault.specs.Seats.{view, IsOf, IsBeside};
ghost use Rattle.asp_pool.specs.Pools.{IsOfPool, lane_count};
ghost use Rattle.asp_worker.specs.Seats.{IsSettled, Idles, Passes, IsFree, IsQuietSince, IsQuietIf, Sees, Takes};

use crate::worker::Shared;
use asp_book::book::Book;
use asp_book::desk;
use asp_path::tree::Leaf;
use asp_pool::{Lane, Pass, Stolen};
use asp_vault::Seat;
use std::alloc::AllocError;
use std::sync::Wait;
use std::thread;
use std::thread::Parker;
use std::time::Duration;

// In the first of so many rounds a worker that looks for a path looks at the board, which takes the lock. Between them it yields.
const ROUNDS: u32 = 64;

// In each later round it looks at the board, and then it sleeps: a microsecond at first, and twice as long each time, up to so many
// doublings.
const DOUBLINGS: u32 = 10;

// Takes a path, if it is open.
fn try_take<R: Wait>(
    rt: &R,
    shared: &Shared<'_>,
    seat: &mut Seat<Book>,
    leaf: Leaf,
) -> Result<Option<Leaf>, AllocError>
    requires of { IsOf shared.now.book seat.old }
    requires settled { IsSettled (view seat.old) }
    requires free { IsFree (view seat.old) }
    ensures of { IsBeside seat.old seat.new }
    ensures passes { Passes (view seat.old) (view seat.new) }
    ensures takes { Takes (view seat.new) result }
{
    let taken = desk::take_this(rt, &shared.book, seat, leaf)?;
    if taken { Ok(Some(leaf)) } else { Ok(None) }
}

// Takes a path that this worker offered.
fn take_own<R: Wait>(
    rt: &R,
    shared: &Shared<'_>,
    seat: &mut Seat<Book>,
    lane: &mut Lane,
) -> Result<Option<Leaf>, AllocError>
    requires of { IsOf shared.now.book seat.old }
    requires settled { IsSettled (view seat.old) }
    requires free { IsFree (view seat.old) }
    ensures of { IsBeside seat.old seat.new }
    ensures passes { Passes (view seat.old) (view seat.new) }
    ensures takes { Takes (view seat.new) result }
{
    'offers: for _ in rt.forever() {
        match lane.own() {
            None => break,
            Some(leaf) => {
                let taken = try_take(rt, shared, seat, leaf)?;
                if taken.is_some() {
                    return Ok(taken);
                }
            }
        }
    }
    Ok(None)
}

// Takes a path that the lane's worker offered, if that is another.
fn take_from<R: Wait>(
    rt: &R,
    shared: &Shared<'_>,
    seat: &mut Seat<Book>,
    pass: &mut Pass,
    lane: u32,
) -> Result<Option<Leaf>, AllocError>
    requires of { IsOf shared.now.book seat.old }
    requires settled { IsSettled (view seat.old) }
    requires free { IsFree (view seat.old) }
    requires pool { IsOfPool shared.now.pool pass.old }
    requires lane { lane < lane_count shared.now.pool }
    ensures of { IsBeside seat.old seat.new }
    ensures passes { Passes (view seat.old) (view seat.new) }
    ensures pool { IsOfPool shared.now.pool pass.new }
    ensures takes { Takes (view seat.new) result }
{
    let _lanes = shared.pool.lanes();
    if lane + 1 == seat.number() {
        return Ok(None);
    }
    'offers: for _ in rt.forever() {
        match shared.pool.steal(pass, lane) {
            Stolen::Empty | Stolen::Again => break,
            Stolen::Got(leaf) => {
                let taken = try_take(rt, shared, seat, leaf)?;
                if taken.is_some() {
                    return Ok(taken);
                }
            }
        }
    }
    Ok(None)
}

// Takes a path that another worker offered.
fn take_other<R: Wait>(
    rt: &R,
    shared: &Shared<'_>,
    seat: &mut Seat<Book>,
    pass: &mut Pass,
) -> Result<Option<Leaf>, AllocError>
    requires of { IsOf shared.now.book seat.old }
    requires settled { IsSettled (view seat.old) }
    requires free { IsFree (view seat.old) }
    requires pool { IsOfPool shared.now.pool pass.old }
    ensures of { IsBeside seat.old seat.new }
    ensures passes { Passes (view seat.old) (view seat.new) }
    ensures pool { IsOfPool shared.now.pool pass.new }
    ensures takes { Takes (view seat.new) result }
{
    for lane in 0..shared.pool.lanes() {
        let taken = take_from(rt, shared, seat, pass, lane)?;
        if taken.is_some() {
            return Ok(taken);
        }
    }
    Ok(None)
}

// Takes a path that was offered, by this worker or by another.
fn take_offered<R: Wait>(
    rt: &R,
    shared: &Shared<'_>,
    seat: &mut Seat<Book>,
    lane: &mut Lane,
    pass: &mut Pass,
) -> Result<Option<Leaf>, AllocError>
    requires of { IsOf shared.now.book seat.old }
    requires settled { IsSettled (view seat.old) }
    requires free { IsFree (view seat.old) }
    requires pool { IsOfPool shared.now.pool pass.old }
    ensures of { IsBeside seat.old seat.new }
    ensures passes { Passes (view seat.old) (view seat.new) }
    ensures pool { IsOfPool shared.now.pool pass.new }
    ensures takes { Takes (view seat.new) result }
{
    let own = take_own(rt, shared, seat, lane)?;
    if own.is_some() {
        return Ok(own);
    }
    take_other(rt, shared, seat, pass)
}

/// What a worker without a path sees on the board.
#[derive(Clone, Copy)]
pub(crate) enum Sight {
    /// A path that nobody offered, which it took.
    Taken(Leaf),
    /// No path was open, and none was held.
    Nothing,
    /// Others have paths, or it didn't look.
    Others,
}

// How many paths are open, and how many are held.
fn count_paths<R: Wait>(rt: &R, shared: &Shared<'_>, seat: &mut Seat<Book>) -> (usize, usize)
    requires of { IsOf shared.now.book seat.old }
    requires settled { IsSettled (view seat.old) }
    ensures of { IsBeside seat.old seat.new }
    ensures idles { Idles (view seat.old) (view seat.new) }
    ensures quiet { result.0 ≡ 0 → IsQuietSince (view seat.old).seen (view seat.new) }
{
    let open = desk::open_leaves(rt, &shared.book, seat);
    let held = desk::held_leaves(rt, &shared.book, seat);
    (open, held)
}

// Whether a round is one in which the board is looked at.
fn is_due(round: u32) -> bool {
    round == 0 || round >= ROUNDS
}

// Lets others work before the next round.
fn pause<R: Wait>(rt: &R, parker: &Parker, round: u32) {
    if round < ROUNDS {
        thread::yield_now();
    } else {
        let doublings = (round - ROUNDS).min(DOUBLINGS);
        parker.park_timeout(rt, Duration::from_micros(1 << doublings));
    }
}

// Where it is time, looks at the board, and takes an open path if none is held. While another has a path, one that nobody offered
// may be the rest of it: answers that were found there would be found again.
fn survey<R: Wait>(
    rt: &R,
    shared: &Shared<'_>,
    seat: &mut Seat<Book>,
    round: u32,
) -> Result<Sight, AllocError>
    requires of { IsOf shared.now.book seat.old }
    requires settled { IsSettled (view seat.old) }
    requires free { IsFree (view seat.old) }
    ensures of { IsBeside seat.old seat.new }
    ensures passes { Passes (view seat.old) (view seat.new) }
    ensures sees { Sees (view seat.old).seen (view seat.new) result }
{
    if !is_due(round) {
        return Ok(Sight::Others);
    }
    let (open, held) = count_paths(rt, shared, seat);
    if held != 0 {
        return Ok(Sight::Others);
    }
    if open == 0 {
        return Ok(Sight::Nothing);
    }
    match desk::take(rt, &shared.book, seat)? {
        None => Ok(Sight::Others),
        Some(leaf) => Ok(Sight::Taken(leaf)),
    }
}

// Takes the path, if there is one and it is open.
fn take_rest<R: Wait>(
    rt: &R,
    shared: &Shared<'_>,
    seat: &mut Seat<Book>,
    rest: Option<Leaf>,
) -> Result<Option<Leaf>, AllocError>
    requires of { IsOf shared.now.book seat.old }
    requires settled { IsSettled (view seat.old) }
    requires free { IsFree (view seat.old) }
    ensures of { IsBeside seat.old seat.new }
    ensures passes { Passes (view seat.old) (view seat.new) }
    ensures takes { Takes (view seat.new) result }
{
    match rest {
        None => Ok(None),
        Some(leaf) => try_take(rt, shared, seat, leaf),
    }
}

// Takes a path, and waits for one as long as another worker has one. `None` where no worker has any.
//
// What others offer is seen outside the lock.
fn look_for<R: Wait>(
    rt: &R,
    shared: &Shared<'_>,
    seat: &mut Seat<Book>,
    lane: &mut Lane,
    pass: &mut Pass,
) -> Result<Option<Leaf>, AllocError>
    requires of { IsOf shared.now.book seat.old }
    requires settled { IsSettled (view seat.old) }
    requires free { IsFree (view seat.old) }
    requires pool { IsOfPool shared.now.pool pass.old }
    ensures of { IsBeside seat.old seat.new }
    ensures passes { Passes (view seat.old) (view seat.new) }
    ensures pool { IsOfPool shared.now.pool pass.new }
    ensures takes { Takes (view seat.new) result }
    ensures quiet { IfOk result (IsQuietIf (view seat.old).seen (view seat.new)) }
{
    // Nobody wakes it: each sleep ends by itself.
    let parker = Parker::new();
    let mut round: u32 = 0;
    'rounds: for _ in rt.forever() {
        let taken = take_offered(rt, shared, seat, lane, pass)?;
        if taken.is_some() {
            return Ok(taken);
        }
        match survey(rt, shared, seat, round)? {
            Sight::Taken(leaf) => return Ok(Some(leaf)),
            Sight::Nothing => return Ok(None),
            Sight::Others => {}
        }
        pause(rt, &parker, round);
        round = round.saturating_add(1);
    }
    unreachable!()
}

/// Takes a path, and waits for one as long as another worker has one. `None` where no worker has any.
///
/// The rest of a path of which the other half was closed comes first, if there is one and it is open.
pub(crate) fn find<R: Wait>(
    rt: &R,
    shared: &Shared<'_>,
    seat: &mut Seat<Book>,
    lane: &mut Lane,
    pass: &mut Pass,
    rest: Option<Leaf>,
) -> Result<Option<Leaf>, AllocError>
    requires of { IsOf shared.now.book seat.old }
    requires settled { IsSettled (view seat.old) }
    requires free { IsFree (view seat.old) }
    requires pool { IsOfPool shared.now.pool pass.old }
    ensures of { IsBeside seat.old seat.new }
    ensures passes { Passes (view seat.old) (view seat.new) }
    ensures pool { IsOfPool shared.now.pool pass.new }
    ensures takes { Takes (view seat.new) result }
    ensures quiet { IfOk result (IsQuietIf (view seat.old).seen (view seat.new)) }
{
    let taken = take_rest(rt, shared, seat, rest)?;
    if taken.is_some() {
        return Ok(taken);
    }
    look_for(rt, shared, seat, lane, pass)
}
