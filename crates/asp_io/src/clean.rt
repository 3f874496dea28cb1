//! Sources and sinks in memory that never fail.
ghost use Rattle.std.specs.Prelude.{◌≡◌, ◌+◌, ◌-◌, ◌<◌, min, length, Some, None, replicate, false, true, IfOk};
ghost use Rattle.std.specs.Io.{WritesAtMost};
ghost use Rattle.std.specs.Io.KnownBytes.{WriteAppends};
ghost use Rattle.asp_io.specs.Causes.{HasCause, last_count};

use crate::{Failed, Sink, Source};
use std::marker::Model;

/// A source over bytes in memory.
#[derive(Drop)]
pub struct CleanSource<'a> {
    /// The bytes that are still to be read.
    rest: &'a [u8],
}

impl<'a> Model for CleanSource<'a> {
    ghost use Rattle.std.specs.Prelude.{ℕ, List};

    ghost Value = { List ℕ };

    ghost view = { λ s. s.rest.now };
}

impl<'a> CleanSource<'a> {
    /// A source that has these bytes left.
    pub fn new(bytes: &'a [u8]) -> Self
        ensures { result ≡ bytes.now }
    {
        CleanSource { rest: bytes }
    }
}

impl Source for CleanSource<'_> {
    ghost left = { λ rest. Some rest };

    ghost faults = { λ _. 0 };

    fn read(&mut self, buf: &mut [u8]) -> Result<usize, Failed> {
        let count = buf.len().min(self.rest.len());
        let (front, rest) = self.rest.split_at(count);
        buf[..count].copy_from_slice(front);
        self.rest = rest;
        Ok(count)
    }
}

/// A source of one byte again and again, without the memory for them.
#[derive(Drop)]
pub struct RepeatSource {
    /// What each byte is.
    byte: u8,
    /// How many are still to be read.
    count: u64,
}

impl Model for RepeatSource {
    ghost use Rattle.std.specs.Prelude.{ℕ, List, replicate};

    ghost Value = { List ℕ };

    ghost view = { λ s. replicate s.count s.byte };
}

impl RepeatSource {
    /// A source that has the byte so often.
    pub fn new(byte: u8, count: u64) -> Self
        ensures { result ≡ replicate count byte }
    {
        RepeatSource { byte, count }
    }
}

impl Source for RepeatSource {
    ghost left = { λ rest. Some rest };

    ghost faults = { λ _. 0 };

    fn read(&mut self, buf: &mut [u8]) -> Result<usize, Failed> {
        let count = self.count.min(buf.len() as u64);
        buf[..count as usize].fill(self.byte);
        self.count -= count;
        Ok(count as usize)
    }
}

/// A sink that takes everything and keeps only how much that was.
#[derive(Drop)]
pub struct CleanSink {
    /// How many bytes were written.
    count: u64,
}

impl Model for CleanSink {
    ghost use Rattle.std.specs.Prelude.{ℕ};

    ghost Value = { ℕ };

    ghost view = { λ s. s.count };
}

impl CleanSink {
    /// A sink that has taken nothing.
    pub fn new() -> Self
        ensures { result ≡ 0 }
    {
        CleanSink { count: 0 }
    }

    /// How many bytes it took, up to the greatest u64.
    pub fn count(&self) -> u64
        ensures { result ≡ self.now }
    {
        self.count
    }
}

impl Sink for CleanSink {
    ghost held = { λ _. None };

    ghost faults = { λ _. 0 };

    // Nothing waits, since nothing is kept.
    ghost is_sent = { λ _. true };

    ghost is_closed = { λ _. false };

    fn write(&mut self, bytes: &[u8]) -> Result<usize, Failed>
        ensures bound { WritesAtMost result bytes.now }
        ensures bytes { WriteAppends None None result bytes.now }
        ensures cause { HasCause 0 0 result }
        ensures moves { IfOk result (λ n. 0 < length bytes.now → 0 < n) }
        ensures whole { result ≡ Ok (length bytes.now) }
        ensures counted { self.new ≡ min (self.old + length bytes.now) last_count }
    {
        self.count = self.count.saturating_add(bytes.len() as u64);
        Ok(bytes.len())
    }

    fn flush(&mut self) -> Result<(), Failed> {
        Ok(())
    }

    fn is_closed(&self) -> bool {
        false
    }
}
