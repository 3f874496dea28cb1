//! When a search restarts, and when it drops nogoods.
ghost use Rattle.std.specs.Prelude.{◌≡◌, ◌+◌, ◌-◌, ◌*◌, ◌^◌, ◌<◌, ◌≤◌, ◌↔◌, min, IsTrue};

use crate::reduce::Reduce;
use std::marker::Model;

/// Fewer learnt nogoods never make a restart due.
pub const LEAST: u64 = 64;

/// So many learnt nogoods always make a restart due.
pub const MOST: u64 = 1_000_000;

// So many learnt nogoods make the first restart due.
const FIRST: u64 = 100;

/// What is counted from restart to restart, and what makes the next restart due.
///
/// Restarts get rarer geometrically (Walsh, 'Search in a Small World', 1999), and alone would leave more and more
/// nogoods to be looked at: where far too many are kept, one is due early.
#[derive(Drop)]
pub struct Pace {
    /// How many restarts there were. Stands still at the greatest `u64`.
    restarts: u64,
    /// How many nogoods were learnt since the last restart. Stands still at the greatest `u64`.
    learnt: u64,
    /// How many learnt nogoods make the next restart due, whatever is kept: `LEAST` to `MOST`.
    wait: u64,
    /// How many learnt nogoods make, with those that the last dropping left, twice as many as reductions allow.
    full: u64,
    /// How many reductions there were.
    reductions: Reduce,
    /// So many nogoods that may be dropped are never many.
    few: usize,
    /// More nogoods that may be dropped are many: `few`, and twice those that the last dropping left.
    crowd: usize,
}

impl Model for Pace {
    ghost use Rattle.asp_order.specs.Pacing.{Paced, IsPaced};

    ghost Value = { Paced };

    ghost view = { λ p. record { restarts = p.restarts; learnt = p.learnt; reductions = p.reductions; few = p.few; crowd = p.crowd } };

    ghost invariant = { λ p. IsPaced p.wait };
}

// Half more, but no more than the most.
fn longer(wait: u64) -> u64
    requires { wait ≤ MOST }
    ensures grows { wait ≤ result }
    ensures most { result ≤ MOST }
{
    let more = wait + wait / 2;
    if more < MOST { more } else { MOST }
}

// How many more nogoods make, with so many, twice as many as reductions allow.
fn room(reductions: &Reduce, extra: usize) -> u64 {
    reductions.limit().saturating_mul(2).saturating_sub(extra) as u64
}

impl Pace {
    /// Nothing happened so far. So many nogoods that may be dropped are never many.
    pub fn new(few: usize) -> Pace
        ensures { result ≡ record { restarts = 0; learnt = 0; reductions = 0; few = few; crowd = few } }
    {
        let reductions = Reduce::new();
        Pace {
            restarts: 0,
            learnt: 0,
            wait: FIRST,
            full: room(&reductions, 0),
            reductions,
            few,
            crowd: few,
        }
    }

    /// One more nogood was learnt. The count stands still at the greatest `u64`.
    pub fn count(&mut self)
        ensures { self.new ≡ record self.old { learnt = min (self.old.learnt + 1) (2 ^ 64 - 1) } }
    {
        self.learnt = self.learnt.saturating_add(1);
    }

    /// Nothing was learnt since.
    pub fn begin(&mut self)
        ensures { self.new ≡ record self.old { learnt = 0 } }
    {
        self.full = self.full.saturating_sub(self.learnt);
        self.learnt = 0;
    }

    /// Whether so many nogoods that may be dropped are many: more than twice those that the last dropping left, and
    /// `few` more. Then what propagators gave is to go, which costs less than what is dropped has cost.
    pub fn is_crowded(&self, extra: usize) -> bool
        ensures { IsTrue result ↔ (self.now.crowd < extra) }
    {
        extra > self.crowd
    }

    // Whether as many nogoods were learnt as the schedule has.
    fn has_waited(&self) -> bool
        ensures least { IsTrue result → LEAST ≤ self.now.learnt }
        ensures most { MOST ≤ self.now.learnt → IsTrue result }
    {
        self.learnt >= self.wait
    }

    /// Whether a restart is due where so many nogoods are kept that may be dropped: as many were learnt as the schedule
    /// has, or 64 at least, and many are kept, or twice as many as reductions allow.
    pub fn is_due(&self, extra: usize) -> bool
        ensures least { IsTrue result → LEAST ≤ self.now.learnt }
        ensures most { MOST ≤ self.now.learnt → IsTrue result }
        ensures crowded { LEAST ≤ self.now.learnt → self.now.crowd < extra → IsTrue result }
    {
        if self.has_waited() {
            return true;
        }
        self.learnt >= LEAST && (self.learnt >= self.full || self.is_crowded(extra))
    }

    /// After a restart. The count of restarts stands still at the greatest `u64`.
    pub fn restarted(&mut self)
        ensures { self.new ≡ record self.old { restarts = min (self.old.restarts + 1) (2 ^ 64 - 1); learnt = 0 } }
    {
        if self.has_waited() {
            self.wait = longer(self.wait);
        }
        self.restarts = self.restarts.saturating_add(1);
        self.begin();
    }

    /// Whether so many nogoods that may be dropped are too many.
    pub fn is_full(&self, extra: usize) -> bool
        ensures { IsTrue result ↔ (2000 + 500 * self.now.reductions < extra) }
    {
        self.reductions.due(extra)
    }

    /// After a reduction. The count stands still at the greatest `usize`.
    pub fn reduced(&mut self)
        ensures { self.new ≡ record self.old { reductions = min (self.old.reductions + 1) (2 ^ 64 - 1) } }
    {
        self.reductions.done();
    }

    /// Nogoods were dropped, and so many are left that may be dropped.
    pub fn dropped(&mut self, extra: usize)
        ensures { self.new ≡ record self.old { crowd = min (self.old.few + 2 * extra) (2 ^ 64 - 1) } }
    {
        self.full = self.learnt.saturating_add(room(&self.reductions, extra));
        self.crowd = extra.saturating_mul(2).saturating_add(self.few);
    }
}
