//! Bytes written one after another.
ghost use Rattle.std.specs.Prelude.{◌++◌};
ghost use Rattle.asp_faults.specs.Writing.{Writes};

use asp_io::{Failed, Sink, write_all};

/// Writes all of the bytes.
pub fn write<N: Sink>(notes: &mut N, bytes: &[u8]) -> Result<(), Failed>
    ensures { Writes (N.held notes.old) (N.held notes.new) (N.faults notes.old) (N.faults notes.new) result bytes.now }
{
    write_all(notes, bytes)
}

/// Writes all of the one, and then of the other.
pub fn write_both<N: Sink>(notes: &mut N, first: &[u8], second: &[u8]) -> Result<(), Failed>
    ensures { Writes (N.held notes.old) (N.held notes.new) (N.faults notes.old) (N.faults notes.new)
        result (first.now ++ second.now) }
{
    write(notes, first)?;
    write(notes, second)
}

/// Writes all of the first, of the second, and then of the third.
pub fn write_three<N: Sink>(
    notes: &mut N,
    first: &[u8],
    second: &[u8],
    third: &[u8],
) -> Result<(), Failed>
    ensures { Writes (N.held notes.old) (N.held notes.new) (N.faults notes.old) (N.faults notes.new)
        result (first.now ++ second.now ++ third.now) }
{
    write_both(notes, first, second)?;
    write(notes, third)
}
