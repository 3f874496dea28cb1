//! What tells a worker to stop.

/// What each worker asks before each step of its search, but for those by which it gathers answers: up to 16 after one was found.
pub trait Halt {
    ghost use Rattle.std.specs.Prelude.{◌≡◌, false};

    // It never stops anybody.
    ghost never: { Self → Type 0 };

    /// Whether the worker with this number stops before this step of its own, both counted from 0. Steps that it wasn't asked before
    /// are counted, too.
    fn stop(&self, worker: u32, step: u64) -> bool
        ensures { never self.now → result ≡ false };
}

/// It never stops anybody.
#[derive(Clone, Copy)]
pub struct NoHalt;

impl Halt for NoHalt {
    ghost never = { λ h. Unit {0} };

    fn stop(&self, _worker: u32, _step: u64) -> bool {
        false
    }
}
