//! A pool: a lane and a pass for each worker, and a way from each pass to each lane.
ghost use Rattle.crossbeam_deque.specs.Handles.{stealer_flavor};
ghost use Rattle.std.specs.Prelude.{◌≡◌, ◌^◌, ◌<◌, length};
ghost use Rattle.asp_pool.specs.Lists.{Every};

use crate::lane::{Lane, Seat, Thief};
use crate::once::{Leaf, Takes};
use crossbeam_deque::Steal;
use std::alloc::{AllocError, Global};

/// What every worker shares: a way to each lane.
#[derive(Drop)]
pub struct Pool {
    /// The other end of each lane, at the place of its owner's number.
    pub(crate) thieves: Vec<Thief>,
    ghost fifo: { Every (λ thief. stealer_flavor thief ≡ 0) thieves.items },
    ghost few: { length thieves.items < 2 ^ 32 },
}

/// What one worker knows of each lane.
#[derive(Drop)]
pub struct Pass {
    /// What is known of each lane, in the order of the lanes.
    pub(crate) seats: Vec<Seat>,
}

/// The answer to an attempt to steal.
#[derive(Debug, Clone, Copy, PartialEq, Eq, Drop)]
pub enum Stolen {
    /// The first leaf of the lane.
    Got(Leaf),
    /// The lane was empty at one moment of the call.
    Empty,
    /// Another took a leaf of the lane in between, or the lane was empty at one moment of the call.
    Again,
}

impl Pool {
    ghost use Rattle.std.specs.Prelude.{◌≡◌, ◌<◌, ◌⊎◌, ◌∷◌, [], length, slice_set, IfOk};
    ghost use mathlib.Core.Option.{some};
    ghost use lib.ListN.{get_elem?};
    ghost use Rattle.crossbeam_deque.specs.Handles.{view, taken, IsPassOf, stealer_deque, stealer_flavor};
    ghost use Rattle.asp_pool.specs.declared.once.Share.{Share};
    ghost use Rattle.asp_pool.specs.Lists.{Every};
    ghost use Rattle.asp_pool.specs.Once.{TakesNext, WasEmpty};
    ghost use Rattle.asp_pool.specs.Pools.{IsOfPool, lane_count, pass_shares, Rises, MatchStolen, IsFresh, IsFreshLane, Serves, HasJoined};

    /// How many lanes there are.
    pub fn lanes(&self) -> u32
        ensures { result ≡ lane_count self.now }
    {
        self.thieves.len() as u32
    }

    /// Takes the first leaf of a lane.
    pub fn steal(&self, pass: &mut Pass, lane: u32) -> Stolen
        requires of_pool { IsOfPool self.now pass.old }
        requires exists { lane < lane_count self.now }
        ensures same { IsOfPool self.now pass.new }
        ensures taken { (v w : Share) × (get_elem? (pass_shares pass.old) lane ≡ some v) × (pass_shares pass.new ≡ slice_set (pass_shares pass.old) lane w) × MatchStolen result (λ leaf. TakesNext v (leaf ∷ []) w) ((w ≡ v) × WasEmpty v) ((w ≡ v) × (Rises lane pass.old pass.new ⊎ WasEmpty v)) }
    {
        let at = lane as usize;
        Pool::steal_at(&self.thieves[at], &mut pass.seats[at])
    }

    // The same, by one way and the seat at its lane.
    fn steal_at(thief: &Thief, seat: &mut Seat) -> Stolen
        requires fifo { stealer_flavor thief.now ≡ 0 }
        requires of_lane { IsPassOf (stealer_deque thief.now) seat.old }
        ensures same { IsPassOf (stealer_deque thief.now) seat.new }
        ensures taken { MatchStolen result (λ leaf. TakesNext (view seat.old) (leaf ∷ []) (view seat.new)) ((view seat.new ≡ view seat.old) × WasEmpty (view seat.old)) ((view seat.new ≡ view seat.old) × ((taken seat.old < taken seat.new) ⊎ WasEmpty (view seat.old))) }
    {
        match thief.steal_as::<Takes>(seat) {
            Steal::Success(leaf) => Stolen::Got(leaf),
            Steal::Empty => Stolen::Empty,
            Steal::Retry => Stolen::Again,
        }
    }

    // A seat at each lane.
    fn pass(&self, alloc: Global) -> Result<Pass, AllocError>
        ensures { IfOk result (λ pass. IsOfPool self.now pass × IsFresh pass) }
    {
        let mut seats = Vec::new(alloc);
        for thief in self.thieves.iter() {
            seats.push(thief.pass())?;
        }
        Ok(Pass { seats })
    }

    // The lanes, and a way to each.
    fn open(alloc: Global, lanes: u32) -> Result<(Pool, Vec<Lane>), AllocError>
        ensures { IfOk result (λ made. (length made.1.items ≡ lanes) × Serves made.0 made.1.items × Every IsFreshLane made.1.items) }
    {
        let mut owners = Vec::new(alloc);
        let mut thieves = Vec::new(alloc);
        for index in 0..lanes {
            let owner = Lane::new(alloc)?;
            thieves.push(owner.thief()?)?;
            owners.push(owner)?;
        }
        Ok((Pool { thieves }, owners))
    }

    /// A pool of so many lanes, of which each owner has one, with a pass for each owner. The only error is want of memory.
    pub fn new(alloc: Global, lanes: u32) -> Result<(Pool, Vec<Lane>, Vec<Pass>), AllocError>
        ensures count { IfOk result (λ made. lane_count made.0 ≡ lanes) }
        ensures lanes { IfOk result (λ made. (length made.1.items ≡ lanes) × Serves made.0 made.1.items × Every IsFreshLane made.1.items) }
        ensures passes { IfOk result (λ made. (length made.2.items ≡ lanes) × Every (λ pass. IsOfPool made.0 pass × IsFresh pass) made.2.items) }
    {
        let (pool, owners) = Pool::open(alloc, lanes)?;
        let mut passes = Vec::new(alloc);
        for index in 0..lanes {
            passes.push(pool.pass(alloc)?)?;
        }
        Ok((pool, owners, passes))
    }

    /// Takes what a pass knows into the lanes. What each lane was handed then counts the pass's leaves too, and no place of its offers stands there twice.
    pub fn join(&self, lanes: &mut Vec<Lane>, pass: Pass)
        requires of_pool { IsOfPool self.now pass × Serves self.now lanes.old.items }
        ensures same { Serves self.now lanes.new.items }
        ensures joined { HasJoined 0 lanes.old.items lanes.new.items (pass_shares pass) }
    {
        let Pass { mut seats } = pass;
        'seats: while let Some(seat) = seats.pop() {
            let index = seats.len();
            lanes[index].join(seat);
        }
    }
}
