//! The owner's end of a lane.
ghost use Rattle.std.specs.Prelude.{◌≡◌, ◌≤◌, true, length};
ghost use Rattle.crossbeam_deque.specs.Handles.{worker_capacity, worker_flavor, worker_index, worker_view};

use crate::once::{Account, Joins, Leaf, Offers, Once, Share, Takes};
use crossbeam_deque::{Stealer, Worker};
use std::alloc::{AllocError, Global};

/// The most offers that a lane takes.
pub const OFFERS: u32 = 4096;

/// What a pass has of one lane.
pub(crate) type Seat = crossbeam_deque::Pass<Leaf, Share>;

/// A way to one lane, by which any thread takes from it.
pub(crate) type Thief = Stealer<Leaf, Global, Share, Once>;

/// The end of a lane at which its owner offers leaves, and takes them back.
#[derive(Drop)]
pub struct Lane {
    /// The owner's end of the deque.
    pub(crate) worker: Worker<Leaf, Global, Share, Once>,
    /// How many offers there were so far: at most 4096.
    pub(crate) offered: u32,
    ghost fifo: { worker_flavor worker ≡ 0 },
    ghost roomy: { 4096 ≤ worker_capacity worker },
    ghost counted: { (length (worker_view worker).sent ≡ offered) × (worker_index worker ≤ offered) × (offered ≤ 4096) },
    ghost owner: { (worker_view worker).offers ≡ true },
}

impl Lane {
    ghost use Rattle.std.specs.Prelude.{◌≡◌, ◌++◌, ◌∷◌, ◌≤◌, [], true, false, length, IfOk, MatchOption, MatchBool, ◌<◌};
    ghost use Rattle.crossbeam_deque.specs.Handles.{view, IsPassOf, stealer_deque, stealer_flavor, worker_deque};
    ghost use Rattle.asp_pool.specs.Once.{TakesNext, WasEmpty, joined, IsUnique, IsOffered};
    ghost use Rattle.asp_pool.specs.Lanes.{lane_share, lane_sent, lane_got, SameLane};

    // A lane on which nothing was offered.
    pub(crate) fn new(alloc: Global) -> Result<Lane, AllocError>
        ensures { IfOk result (λ lane. (lane_sent lane ≡ []) × (lane_got lane ≡ [])) }
    {
        let worker = Worker::fifo_as(alloc, OFFERS as usize)?;
        Ok(Lane { worker, offered: 0 })
    }

    // A way to this lane.
    pub(crate) fn thief(&self) -> Result<Thief, AllocError>
        ensures { IfOk result (λ thief. (stealer_deque thief ≡ worker_deque self.now.worker) × (stealer_flavor thief ≡ 0)) }
    {
        self.worker.stealer()
    }

    /// Offers a leaf at the end of the lane. `false` exactly where 4,096 leaves were offered on this lane before.
    pub fn offer(&mut self, leaf: Leaf) -> bool
        ensures same { SameLane self.old self.new × (lane_got self.new ≡ lane_got self.old) }
        ensures offered { MatchBool result (lane_sent self.new ≡ lane_sent self.old ++ leaf ∷ []) (lane_sent self.new ≡ lane_sent self.old) }
        ensures full { MatchBool result (length (lane_sent self.old) < 4096) (length (lane_sent self.old) ≡ 4096) }
    {
        if self.offered >= OFFERS {
            return false;
        }
        match self.worker.push_as::<Offers>(leaf) {
            Ok(()) => {
                self.offered += 1;
                true
            }
            Err(_) => unreachable!(),
        }
    }

    /// Takes the first leaf of the lane. `None` only where the lane was empty at one moment of the call.
    pub fn own(&mut self) -> Option<Leaf>
        ensures same { SameLane self.old self.new × (lane_sent self.new ≡ lane_sent self.old) }
        ensures taken { MatchOption result ((lane_got self.new ≡ lane_got self.old) × WasEmpty (lane_share self.old)) (λ leaf. TakesNext (lane_share self.old) (leaf ∷ []) (lane_share self.new)) }
    {
        self.worker.pop_as::<Takes>()
    }

    // Takes what a seat at this lane knows into the lane, and tells that no place of its offers was handed out twice.
    pub(crate) fn join(&mut self, seat: Seat)
        requires { IsPassOf (worker_deque self.old.worker) seat }
        ensures same { SameLane self.old self.new }
        ensures joined { lane_share self.new ≡ joined (lane_share self.old) (view seat) }
        ensures once { IsUnique (lane_got self.new) × IsOffered (lane_sent self.new) (lane_got self.new) }
    {
        self.worker.absorb::<Joins>(seat);
        self.worker.len_as::<Account>();
    }
}
