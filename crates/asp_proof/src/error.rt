//! Why no proof was read.
ghost use Rattle.std.specs.Prelude.{◌≡◌};
ghost use Rattle.asp_proof.specs.declared.error.ProofError.TheVariants.{Memory};

use std::alloc::{AllocError, AllocFailed};

/// Why no proof was read.
#[derive(Clone, Copy, Debug, PartialEq, Eq)]
pub enum ProofError {
    /// Memory ran out.
    Memory,
    /// The source failed.
    ReadFault,
    /// A line is longer than a line may be.
    TooLong,
    /// The first line with which no proof's text begins, counted from 1.
    Refused(usize),
}

impl From<AllocError> for ProofError {
    ghost from_gives = { λ _ e. e ≡ Memory };

    fn from(_e: AllocError) -> ProofError {
        ProofError::Memory
    }
}

impl<T: Drop> From<AllocFailed<T>> for ProofError {
    ghost from_gives = { λ _ e. e ≡ Memory };

    fn from(_e: AllocFailed<T>) -> ProofError {
        ProofError::Memory
    }
}
