//! When learnt nogoods are dropped.
ghost use Rattle.std.specs.Prelude.{◌≡◌, ◌+◌, ◌-◌, ◌*◌, ◌^◌, ◌<◌, ◌↔◌, min, IsTrue};

use std::marker::Model;

/// How many nogoods may be kept before the first reduction.
pub const FIRST: usize = 2000;

/// How many more each reduction allows.
pub const STEP: usize = 500;

/// The count of the reductions so far, by which the next one falls due.
#[derive(Drop)]
pub struct Reduce {
    /// Stands still at the greatest `usize`.
    count: usize,
}

impl Model for Reduce {
    ghost use Rattle.std.specs.Prelude.{ℕ};

    ghost Value = { ℕ };

    ghost view = { λ r. r.count };
}

impl Reduce {
    /// No reduction so far.
    pub fn new() -> Reduce
        ensures { result ≡ 0 }
    {
        Reduce { count: 0 }
    }

    /// How many nogoods that may be dropped are kept after the reductions so far. Stands still at the greatest `usize`.
    pub fn limit(&self) -> usize
        ensures { result ≡ min (FIRST + STEP * self.now) (2 ^ 64 - 1) }
    {
        self.count.saturating_mul(STEP).saturating_add(FIRST)
    }

    /// Whether so many nogoods that may be dropped are more than are kept after the reductions so far.
    pub fn due(&self, extra: usize) -> bool
        ensures { IsTrue result ↔ (FIRST + STEP * self.now < extra) }
    {
        extra > self.limit()
    }

    /// One more reduction. The count stands still at the greatest `usize`.
    pub fn done(&mut self)
        ensures { self.new ≡ min (self.old + 1) (2 ^ 64 - 1) }
    {
        self.count = self.count.saturating_add(1);
    }
}
