//! Bytes on their way to a sink: they wait in a buffer of fixed size, so that the sink is called for large pieces alone.
ghost use Rattle.std.specs.Prelude.{◌≡◌, ◌+◌, ◌++◌, ◌≤◌, [], length, nat_le, OnOk};
ghost use Rattle.asp_buffer.specs.Out.{Puts, out};

use asp_io::{Failed, Sink, write_all};
use itoa::{Buffer, Integer};
use std::marker::Model;

/// How many bytes may wait.
pub const ROOM: usize = 65536;

/// The bytes that wait.
#[derive(Drop)]
pub struct Waiting {
    /// The bytes that wait, and behind them anything.
    bytes: [u8; ROOM],
    /// How many bytes wait.
    len: usize,
}

impl Model for Waiting {
    ghost use Rattle.std.specs.Prelude.{List, ℕ, ◌≤◌, take};

    ghost Value = { List ℕ };

    ghost view = { λ w. take w.len w.bytes };

    ghost invariant = { λ w. w.len ≤ 65536 };
}

impl Waiting {
    /// None yet.
    pub fn new() -> Waiting
        ensures { result ≡ [] }
    {
        Waiting {
            bytes: [0; ROOM],
            len: 0,
        }
    }

    /// The bytes, in the order in which they came.
    pub fn as_slice(&self) -> &[u8]
        ensures { result.now ≡ self.now }
    {
        &self.bytes[..self.len]
    }

    fn clear(&mut self)
        ensures { self.new ≡ [] }
    {
        self.len = 0;
    }

    // Whether so many bytes more have room.
    fn fits(&self, more: usize) -> bool
        ensures { result ≡ nat_le (length self.now + more) 65536 }
    {
        more <= ROOM - self.len
    }

    fn push(&mut self, bytes: &[u8])
        requires { length self.old + length bytes.now ≤ 65536 }
        ensures { self.new ≡ self.old ++ bytes.now }
    {
        let end = self.len + bytes.len();
        self.bytes[self.len..end].copy_from_slice(bytes);
        self.len = end;
    }
}

/// Writes what waits to the sink. It doesn't flush the sink.
pub fn flush<K: Sink>(sink: &mut K, waiting: &mut Waiting) -> Result<(), Failed>
    ensures empty { OnOk result (waiting.new ≡ []) }
    ensures puts { Puts (out (K.held sink.old) (K.faults sink.old) waiting.old)
        (out (K.held sink.new) (K.faults sink.new) waiting.new) result [] }
{
    write_all(sink, waiting.as_slice())?;
    waiting.clear();
    Ok(())
}

// Puts the bytes out where none wait: to the sink itself, where they have no room.
fn put_first<K: Sink>(sink: &mut K, waiting: &mut Waiting, bytes: &[u8]) -> Result<(), Failed>
    requires { waiting.old ≡ [] }
    ensures { Puts (out (K.held sink.old) (K.faults sink.old) waiting.old)
        (out (K.held sink.new) (K.faults sink.new) waiting.new) result bytes.now }
{
    if !waiting.fits(bytes.len()) {
        return write_all(sink, bytes);
    }
    waiting.push(bytes);
    Ok(())
}

/// Puts the bytes out.
pub fn put<K: Sink>(sink: &mut K, waiting: &mut Waiting, bytes: &[u8]) -> Result<(), Failed>
    ensures { Puts (out (K.held sink.old) (K.faults sink.old) waiting.old)
        (out (K.held sink.new) (K.faults sink.new) waiting.new) result bytes.now }
{
    if waiting.fits(bytes.len()) {
        waiting.push(bytes);
        return Ok(());
    }
    flush(sink, waiting)?;
    put_first(sink, waiting, bytes)
}

/// Puts the number out in decimal digits.
pub fn put_number<K: Sink, I: Integer>(
    sink: &mut K,
    waiting: &mut Waiting,
    number: I,
) -> Result<(), Failed>
    ensures { Puts (out (K.held sink.old) (K.faults sink.old) waiting.old)
        (out (K.held sink.new) (K.faults sink.new) waiting.new) result (I.text number) }
{
    put(sink, waiting, Buffer::new().format(number).as_bytes())
}
