//! Why a line could not be read.
ghost use Rattle.std.specs.Prelude.{◌≡◌};
ghost use Rattle.asp_read.specs.Places.{broken, missing, told};
ghost use Rattle.asp_read.specs.declared.error.LineError.TheVariants.{Memory};

use crate::fault::{Fault, FaultKind};
use asp_text::fields;
use std::alloc::{AllocError, AllocFailed};

/// What is wrong with a line, and how many of its bytes stand from the field on that couldn't be read.
#[derive(Clone, Copy)]
pub struct FaultAt {
    /// What is wrong.
    pub kind: FaultKind,
    /// How many of the line's bytes stand from the faulty field on.
    pub left: usize,
}

/// Why a line could not be read.
#[derive(Clone, Copy)]
pub enum LineError {
    /// Memory ran out.
    Memory,
    /// The line can't be read from some field on.
    Fault(FaultAt),
}

impl From<AllocError> for LineError {
    ghost from_gives = { λ _ e. e ≡ Memory };

    fn from(_e: AllocError) -> LineError {
        LineError::Memory
    }
}

impl<T: Drop> From<AllocFailed<T>> for LineError {
    ghost from_gives = { λ _ e. e ≡ Memory };

    fn from(_e: AllocFailed<T>) -> LineError {
        LineError::Memory
    }
}

/// The fault of a line that can't be read from here on.
pub fn broken(kind: FaultKind, rest: &[u8]) -> LineError
    ensures { result ≡ LineError.Fault (broken kind rest.now) }
{
    LineError::Fault(FaultAt {
        kind,
        left: rest.len(),
    })
}

/// The fault, with the number of its field in place of the bytes.
pub fn told(line: &[u8], broken: FaultAt) -> Fault
    ensures { result ≡ told line.now broken }
{
    let front = &line[..line.len().saturating_sub(broken.left)];
    Fault {
        kind: broken.kind,
        field: fields(front).count() + 1,
    }
}

/// A fault of a line that isn't there.
pub fn missing(kind: FaultKind) -> Fault
    ensures { result ≡ missing kind }
{
    Fault { kind, field: 1 }
}
