//! Why no proof was judged.
ghost use Rattle.std.specs.Prelude.{◌≡◌};
ghost use Rattle.asp_checker.specs.declared.error.CheckError.TheVariants.{Memory, Proof};
ghost use Rattle.asp_proof.specs.declared.error.ProofError.TheVariants.{Refused};
ghost use Rattle.asp_checker.specs.Errors.{proof_error};

use asp_proof::ProofError;
use asp_read::fault::ReadError;
use std::alloc::{AllocError, AllocFailed};

/// Why no proof was judged.
#[derive(Clone, Copy)]
pub enum CheckError {
    /// Memory ran out.
    Memory,
    /// The program's text was refused.
    Program(ReadError),
    /// No line is the first line of a proof.
    NoProof,
    /// The proof's text was refused, or the source failed.
    Proof(ProofError),
}

impl From<AllocError> for CheckError {
    ghost from_gives = { λ _ e. e ≡ Memory };

    fn from(_e: AllocError) -> CheckError {
        CheckError::Memory
    }
}

impl<T: Drop> From<AllocFailed<T>> for CheckError {
    ghost from_gives = { λ _ e. e ≡ Memory };

    fn from(_e: AllocFailed<T>) -> CheckError {
        CheckError::Memory
    }
}

/// What a fault of the proof's text or of its source comes to.
pub(crate) fn proof_error(error: ProofError) -> CheckError
    ensures { result ≡ proof_error error }
{
    match error {
        ProofError::Memory => CheckError::Memory,
        ProofError::ReadFault => CheckError::Proof(ProofError::ReadFault),
        ProofError::TooLong => CheckError::Proof(ProofError::TooLong),
        ProofError::Refused(line) => CheckError::Proof(ProofError::Refused(line)),
    }
}

/// The proof's text was refused at this line.
pub(crate) fn refused(line: usize) -> CheckError
    ensures { result ≡ Proof (Refused line) }
{
    CheckError::Proof(ProofError::Refused(line))
}
