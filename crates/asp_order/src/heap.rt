//! The unassigned variables, the most active one first.
ghost use Rattle.std.specs.Prelude.{◌≡◌, ◌+◌, ◌-◌, ◌/◌, ◌^◌, ◌<◌, ◌≤◌, ◌↔◌, [], length, map, max, slice_set, slice_index, true, false, IsNone, IfSome, IfNone, OnOk, OnErr};
ghost use Rattle.std.specs.List.{All};
ghost use Rattle.asp_order.specs.Heaps.{is_in, IsFirst, reserved, rescaled, raised, bumped, decayed};

use crate::sift::{order, rise, take_first};
use std::alloc::{AllocError, Global};
use std::marker::Model;

/// A variable's number.
pub type Var = u32;

/// By how much a bump raises an activity at first, and at least.
pub const LEAST_INCREMENT: u64 = 1024;

/// No activity and no increment passes this number.
pub const LIMIT: u64 = 1 << 60;

/// What activities and increment are divided by where one would pass the limit.
pub const DIVISOR: u64 = 1 << 30;

/// A binary heap of variables, by activity, and among equals by number. Each variable that was reserved has an
/// activity, in the heap or not.
#[derive(Drop)]
pub struct Heap {
    /// By variable, at most `LIMIT`.
    activities: Vec<u64>,
    /// By variable, whether it is in the heap.
    members: Vec<bool>,
    /// By variable, its place among the items if it is in the heap.
    places: Vec<usize>,
    /// The variables in the heap: none comes before the one at its parent's place.
    items: Vec<Var>,
    /// By how much a bump raises an activity now: from `LEAST_INCREMENT` to `LIMIT`.
    increment: u64,
}

impl Model for Heap {
    ghost use Rattle.std.specs.Vec.{vec_capacity};
    ghost use Rattle.asp_order.specs.Heaps.{Ranking};
    ghost use Rattle.asp_order.specs.Sifting.{IsRanked};

    ghost Value = { Ranking };

    ghost view = { λ h. record { activities = h.activities.items; members = h.members.items; increment = h.increment } };

    ghost invariant = { λ h. IsRanked h.activities.items h.members.items h.places.items h.items.items h.increment (vec_capacity h.items) };
}

// Divides all activities, rounding down.
fn divide(activities: &mut [u64])
    ensures { activities.new ≡ map (λ a. a / 2 ^ 30) activities.old }
{
    for activity in activities.iter_mut() {
        *activity /= DIVISOR;
    }
}

impl Heap {
    /// An empty heap, with no activities.
    pub fn new(alloc: Global) -> Heap
        ensures { result ≡ record { activities = []; members = []; increment = 1024 } }
    {
        Heap {
            activities: Vec::new(alloc),
            members: Vec::new(alloc),
            places: Vec::new(alloc),
            items: Vec::new(alloc),
            increment: LEAST_INCREMENT,
        }
    }

    /// Gives the variables up to n an activity, which is 0, and room in the heap.
    pub fn reserve(&mut self, n: usize) -> Result<(), AllocError>
        ensures ok { OnOk result (self.new ≡ reserved self.old n) }
        ensures err { OnErr result (self.new ≡ self.old) }
    {
        let count = n.checked_add(1).ok_or(AllocError)?;
        let len = self.activities.len();
        if count <= len {
            return Ok(());
        }
        self.items.reserve(count.saturating_sub(self.items.len()))?;
        self.members.reserve(count - len)?;
        self.places.reserve(count - len)?;
        self.activities.resize(count, 0)?;

        // Nothing fails from here on, since there is room.
        self.members.resize(count, false)?;
        self.places.resize(count, 0)?;
        Ok(())
    }

    /// Whether the variable is in the heap now. It answers for any number, false beyond those that were reserved.
    pub fn has(&self, var: Var) -> bool
        ensures { result ≡ is_in self.now.members var }
    {
        self.members.get(var as usize).copied().unwrap_or(false)
    }

    /// Whether the variable is in the heap, before all others of it.
    pub(crate) fn is_first(&self, var: Var) -> bool {
        match self.items.first() {
            None => false,
            Some(first) => *first == var,
        }
    }

    /// Puts the variable into the heap.
    pub fn push(&mut self, var: Var)
        requires known { var < length self.old.activities }
        requires new { is_in self.old.members var ≡ false }
        ensures { self.new ≡ record self.old { members = slice_set self.old.members var true } }
    {
        let at = self.items.len();
        self.items.push_reserved(var);
        self.places[var as usize] = at;
        self.members[var as usize] = true;
        rise(
            self.items.as_mut_slice(),
            self.places.as_mut_slice(),
            self.activities.as_slice(),
            at + 1,
            at,
        );
    }

    /// Takes the first variable out, if there is one.
    pub fn pop(&mut self) -> Option<Var>
        ensures empty { IsNone result ↔ All (λ m. m ≡ false) self.old.members }
        ensures first { IfSome result (IsFirst self.old) }
        ensures some { IfSome result (λ v. self.new ≡ record self.old { members = slice_set self.old.members v false }) }
        ensures none { IfNone result (self.new ≡ self.old) }
    {
        let var = take_first(
            &mut self.items,
            self.places.as_mut_slice(),
            self.activities.as_slice(),
        )?;
        self.members[var as usize] = false;
        Some(var)
    }

    // Divides the activities and the increment, and makes a heap again.
    fn rescale(&mut self)
        ensures rescaled { self.new ≡ rescaled self.old }
        ensures activities { All (λ a. a ≤ 2 ^ 30) self.new.activities }
        ensures increment { self.new.increment ≤ 2 ^ 30 }
    {
        divide(self.activities.as_mut_slice());
        self.increment = (self.increment / DIVISOR).max(LEAST_INCREMENT);
        order(
            self.items.as_mut_slice(),
            self.places.as_mut_slice(),
            self.activities.as_slice(),
        );
    }

    // Raises the variable's activity, and lets it rise where it is in the heap.
    fn raise(&mut self, var: Var)
        requires known { var < length self.old.activities }
        requires fits { slice_index self.old.activities var + self.old.increment ≤ 2 ^ 60 }
        ensures { self.new ≡ raised self.old var }
    {
        self.activities[var as usize] += self.increment;
        if self.members[var as usize] {
            let at = self.places[var as usize];
            let len = self.items.len();
            rise(
                self.items.as_mut_slice(),
                self.places.as_mut_slice(),
                self.activities.as_slice(),
                len,
                at,
            );
        }
    }

    /// Raises the variable's activity by the increment.
    pub fn bump(&mut self, var: Var)
        requires { var < length self.old.activities }
        ensures { self.new ≡ bumped self.old var }
    {
        if self.activities[var as usize] + self.increment > LIMIT {
            self.rescale();
        }
        self.raise(var);
    }

    /// Raises the increment by its sixteenth, rounded down.
    pub fn decay(&mut self)
        ensures { self.new ≡ decayed self.old }
    {
        if self.increment + self.increment / 16 > LIMIT {
            self.rescale();
        }
        self.increment += self.increment / 16;
    }
}
