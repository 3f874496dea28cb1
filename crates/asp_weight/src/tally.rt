//! The counters of weight bodies, and the queue of those to be looked at.
ghost use Rattle.std.specs.Prelude.{◌≡◌, ◌<◌, ◌≤◌, ◌+◌, ◌^◌, [], false, IfOk, IfNone, IfSome, length, replicate};
ghost use Rattle.std.specs.List.{All, range_with_len};
ghost use Rattle.std.specs.Bool.{beq};
ghost use Rattle.asp_weight.specs.Tallied.{fresh, tally_at, sum_for, raised, lowered, raise, lower, raise_all, lower_all, settled, begin, newest, CanRaise, CanLower};

use crate::held::Held;
use crate::item::Place;
use std::alloc::{AllocError, Global};
use std::marker::Model;

/// The sums of the weights of a body's true literals and of its false ones, and whether it is to be looked at. The items
/// before the start have values.
#[derive(Clone, Copy)]
pub struct Tally {
    /// The weights of the true literals together.
    pub reached: u64,
    /// The weights of the false literals together.
    pub missed: u64,
    /// So many of the row's first items have values: the next look begins behind them.
    pub start: u32,
    /// Whether the body is in the queue.
    pub queued: bool,
}

/// A counter for each weight body. The queue has room for all of them.
#[derive(Drop)]
pub struct Tallies {
    /// By weight body.
    tallies: Vec<Tally>,
    /// The numbers of the bodies that are to be looked at, each once; the last one comes first.
    queue: Vec<u32>,
}

impl Model for Tallies {
    ghost use Rattle.std.specs.Vec.{vec_capacity};
    ghost use Rattle.asp_weight.specs.Tallied.{Tallied, IsQueue};

    ghost Value = { Tallied };

    ghost view = { λ t. record { tallies = t.tallies.items; queue = t.queue.items } };

    ghost invariant = { λ t. IsQueue t.tallies.items t.queue.items (vec_capacity t.queue) };
}

impl Tallies {
    /// So many counters, all of them queued.
    pub fn new(alloc: Global, count: u32) -> Result<Tallies, AllocError>
        ensures { IfOk result (λ t. t.tallies ≡ replicate count fresh) }
    {
        let tallies = vec![in alloc; Tally {
            reached: 0,
            missed: 0,
            start: 0,
            queued: true
        }; count as usize]?;
        let queue = numbers(alloc, count)?;
        Ok(Tallies { tallies, queue })
    }

    /// A body's counter.
    pub fn at(&self, body: usize) -> &Tally
        requires { body < length self.now.tallies }
        ensures { result.now ≡ tally_at self.now.tallies body }
    {
        &self.tallies[body]
    }

    /// The body that was queued last.
    pub fn newest(&self) -> Option<usize>
        ensures none { IfNone result (self.now.queue ≡ []) }
        ensures silence { IfNone result (All (λ t. t.queued ≡ false) self.now.tallies) }
        ensures newest { IfSome result (λ w. (0 < length self.now.queue) × (w ≡ newest self.now.queue)) }
        ensures within { IfSome result (λ w. w < length self.now.tallies) }
    {
        self.queue.last().map(|body| *body as usize)
    }

    /// Takes the body that was queued last from the queue.
    pub fn settle(&mut self)
        requires { 0 < length self.old.queue }
        ensures tallies { self.new.tallies ≡ settled (newest self.old.queue) self.old.tallies }
        ensures queue { length self.new.queue + 1 ≡ length self.old.queue }
    {
        if let Some(body) = self.queue.pop() {
            self.tallies[body as usize].queued = false;
        }
    }

    /// The next look at the body begins at that item.
    pub fn begin_at(&mut self, body: usize, start: u32)
        requires { body < length self.old.tallies }
        ensures tallies { self.new.tallies ≡ begin body start self.old.tallies }
        ensures queue { self.new.queue ≡ self.old.queue }
    {
        self.tallies[body].start = start;
    }

    // Adds a literal's weight to its side, and queues the body.
    #[inline(always)]
    fn raise_at(&mut self, place: &Place, truth: bool)
        requires body { place.now.body < length self.old.tallies }
        requires fits { sum_for (beq place.now.truth truth) (tally_at self.old.tallies place.now.body) + place.now.weight < 2 ^ 64 }
        ensures { self.new.tallies ≡ raise truth self.old.tallies place.now }
    {
        let body = place.body as usize;
        let tally = self.tallies[body];
        self.tallies[body] = raised(&tally, place.truth == truth, place.weight);
        if tally.queued {
            return;
        }
        self.queue.push_reserved(place.body);
    }

    // Takes a literal's weight from its side, and queues the body.
    #[inline(always)]
    fn lower_at(&mut self, place: &Place, truth: bool)
        requires body { place.now.body < length self.old.tallies }
        requires fits { place.now.weight ≤ sum_for (beq place.now.truth truth) (tally_at self.old.tallies place.now.body) }
        ensures { self.new.tallies ≡ lower truth self.old.tallies place.now }
    {
        let body = place.body as usize;
        let tally = self.tallies[body];
        self.tallies[body] = lowered(&tally, place.truth == truth, place.weight);
        if tally.queued {
            return;
        }
        self.queue.push_reserved(place.body);
    }

    /// A variable with these places got the value: their bits are set too.
    pub fn raise(&mut self, held: &mut Held, places: &[Place], truth: bool)
        requires { CanRaise truth self.old.tallies places.now }
        ensures { self.new.tallies ≡ raise_all truth self.old.tallies places.now }
    {
        for place in places {
            self.raise_at(place, truth);
            held.set(place, truth);
        }
    }

    /// A variable with these places lost the value, and they their bits.
    pub fn lower(&mut self, held: &mut Held, places: &[Place], truth: bool)
        requires { CanLower truth self.old.tallies places.now }
        ensures { self.new.tallies ≡ lower_all truth self.old.tallies places.now }
    {
        for place in places {
            self.lower_at(place, truth);
            held.unset(place, truth);
        }
    }
}

// The numbers below the count.
fn numbers(alloc: Global, count: u32) -> Result<Vec<u32>, AllocError>
    ensures { IfOk result (λ v. v.items ≡ range_with_len 0 count) }
{
    let mut numbers = Vec::new(alloc);
    for number in 0..count {
        numbers.push(number)?;
    }
    Ok(numbers)
}

fn raised(tally: &Tally, side: bool, weight: u64) -> Tally
    requires { sum_for side tally.now + weight < 2 ^ 64 }
    ensures { result ≡ raised side weight tally.now }
{
    if side {
        Tally {
            reached: tally.reached + weight,
            missed: tally.missed,
            start: tally.start,
            queued: true,
        }
    } else {
        Tally {
            reached: tally.reached,
            missed: tally.missed + weight,
            start: tally.start,
            queued: true,
        }
    }
}

// The variable may stand anywhere in the row, so the next look begins at the first item.
fn lowered(tally: &Tally, side: bool, weight: u64) -> Tally
    requires { weight ≤ sum_for side tally.now }
    ensures { result ≡ lowered side weight tally.now }
{
    let start = 0;
    if side {
        Tally {
            reached: tally.reached - weight,
            missed: tally.missed,
            start,
            queued: true,
        }
    } else {
        Tally {
            reached: tally.reached,
            missed: tally.missed - weight,
            start,
            queued: true,
        }
    }
}
