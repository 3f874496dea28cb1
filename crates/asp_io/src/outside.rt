//! The outside: readers and writers of the system, which tell no bytes.
ghost use Rattle.std.specs.Prelude.{◌≡◌, ◌<◌, None, false, true, length, IfOk, OnOk};
ghost use Rattle.std.specs.Io.{WritesAtMost};
ghost use Rattle.std.specs.Io.KnownBytes.{WriteAppends};
ghost use Rattle.asp_io.specs.Causes.{HasCause};

use crate::{Failed, Sink, Source};
use std::io::{Error, ErrorKind, Read, Write};
use std::marker::Model;

/// A reader, as standard input. Its bytes and its answers are the system's, and trusted.
#[derive(Drop)]
pub struct StdSource<R: Read + Drop> {
    /// The system's reader.
    reader: R,
    /// How many reads failed.
    faults: u64,
}

impl<R: Read + Drop> Model for StdSource<R> {
    ghost use Rattle.std.specs.Prelude.{ℕ};

    ghost Value = { ℕ };

    ghost view = { λ s. s.faults };
}

impl<R: Read + Drop> StdSource<R> {
    /// A source of what the reader gives, without a fault so far. Contracts see the count of its faults.
    pub fn new(reader: R) -> Self
        ensures { result ≡ 0 }
    {
        StdSource { reader, faults: 0 }
    }
}

impl<R: Read + Drop> Source for StdSource<R> {
    ghost left = { λ _. None };

    ghost faults = { λ faults. faults };

    fn read(&mut self, buf: &mut [u8]) -> Result<usize, Failed> {
        if self.faults < u64::MAX {
            if let Ok(count) = self.reader.read(buf) {
                return Ok(count);
            }
        }
        self.faults = self.faults.saturating_add(1);
        Err(Failed)
    }
}

// Whether a write failed since nobody reads: the other end of the pipe was closed.
fn is_of_pipe(error: &Error) -> bool {
    error.kind() == ErrorKind::BrokenPipe
}

/// A writer, as standard output. What becomes of the bytes is the system's, and trusted.
#[derive(Drop)]
pub struct StdSink<W: Write + Drop> {
    /// The system's writer.
    writer: W,
    /// How many writes and flushes failed.
    faults: u64,
    /// Whether nothing was written since the last flush that succeeded. Contracts alone read it.
    is_sent: bool,
    /// Whether the last failure of the writer was that nobody reads.
    is_closed: bool,
}

impl<W: Write + Drop> Model for StdSink<W> {
    ghost use Rattle.asp_io.specs.Outside.{Outlet};

    ghost Value = { Outlet };

    ghost view = { λ s. record { faults = s.faults; is_sent = s.is_sent; is_closed = s.is_closed } };
}

impl<W: Write + Drop> StdSink<W> {
    /// A sink to the writer, to which nothing was written so far. Contracts see the count of its faults, whether all that
    /// was written was sent on, and whether the last failure was that nobody reads.
    pub fn new(writer: W) -> Self
        ensures { result ≡ record { faults = 0; is_sent = true; is_closed = false } }
    {
        StdSink {
            writer,
            faults: 0,
            is_sent: true,
            is_closed: false,
        }
    }
}

impl<W: Write + Drop> Sink for StdSink<W> {
    ghost held = { λ _. None };

    ghost faults = { λ s. s.faults };

    ghost is_sent = { λ s. s.is_sent };

    ghost is_closed = { λ s. s.is_closed };

    fn write(&mut self, bytes: &[u8]) -> Result<usize, Failed>
        ensures bound { WritesAtMost result bytes.now }
        ensures bytes { WriteAppends None None result bytes.now }
        ensures cause { HasCause self.old.faults self.new.faults result }
        ensures moves { IfOk result (λ n. 0 < length bytes.now → 0 < n) }
        ensures quiet { OnOk result (self.new.faults ≡ self.old.faults) }
        ensures waits { OnOk result (self.new.is_sent ≡ false) }
    {
        if self.faults < u64::MAX {
            match self.writer.write(bytes) {
                Ok(count) if count > 0 || bytes.is_empty() => {
                    self.is_sent = false;
                    return Ok(count);
                }
                Ok(_) => self.is_closed = false,
                Err(error) => self.is_closed = is_of_pipe(&error),
            }
        }
        self.faults = self.faults.saturating_add(1);
        Err(Failed)
    }

    fn flush(&mut self) -> Result<(), Failed> {
        if self.faults < u64::MAX {
            match self.writer.flush() {
                Ok(()) => {
                    self.is_sent = true;
                    return Ok(());
                }
                Err(error) => self.is_closed = is_of_pipe(&error),
            }
        }
        self.faults = self.faults.saturating_add(1);
        Err(Failed)
    }

    fn is_closed(&self) -> bool {
        self.is_closed
    }
}
