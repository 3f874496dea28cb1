//! Why a worker gives up a path.

use std::alloc::AllocError;

/// Why a worker gives up a path before it is closed.
#[derive(Clone, Copy)]
pub(crate) enum Stop {
    /// As many answers as asked for were delivered.
    Enough,
    /// Memory was wanting.
    Memory,
}

impl From<AllocError> for Stop {
    ghost use Rattle.std.specs.Prelude.{◌≡◌};
    ghost use Rattle.asp_worker.specs.declared.stop.Stop.TheVariants.{Memory};

    // It is the want of memory.
    ghost from_gives = { λ _ s. s ≡ Memory };

    fn from(_error: AllocError) -> Stop {
        Stop::Memory
    }
}
