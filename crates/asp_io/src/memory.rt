//! A source and a sink in memory, of which chosen calls fail.
ghost use Rattle.std.specs.Prelude.{◌≡◌, ◌+◌, ◌-◌, ◌<◌, ◌≤◌, ◌==◌, ◌||◌, min, length, take, Some, [], false, true, is_err, IfOk, OnErr, OnOk};
ghost use Rattle.std.specs.Io.{ReadsAtMost, WritesAtMost};
ghost use Rattle.std.specs.Io.KnownBytes.{ReadConsumes, WriteAppends};
ghost use Rattle.asp_io.specs.Causes.{HasCause, last_count};
ghost use Rattle.asp_io.specs.Memory.{Feed, Intake, next_count, fails_read, fails_write};

use crate::{Failed, Sink, Source};
use std::alloc::Global;
use std::marker::Model;

/// A source over these bytes. Each read gives at most `piece` bytes, and the calls with the numbers in
/// `failing`, counted from 1, fail.
#[derive(Drop)]
pub struct MemSource {
    /// The whole text.
    bytes: Vec<u8>,
    /// How many of its bytes were read.
    at: usize,
    /// The most bytes that one read gives, at least 1.
    piece: usize,
    /// The numbers of the calls that fail, counted from 1.
    failing: Vec<u64>,
    /// How many calls there were.
    calls: u64,
    /// How many of them failed.
    faults: u64,
}

impl Model for MemSource {
    ghost use Rattle.std.specs.Prelude.{◌<◌, ◌≤◌, length, drop};
    ghost use Rattle.asp_io.specs.Memory.{Feed};

    ghost Value = { Feed };

    ghost view = { λ s. record { bytes = drop s.at s.bytes.items; piece = s.piece; failing = s.failing.items; calls = s.calls; faults = s.faults } };

    ghost invariant = { λ s. (s.at ≤ length s.bytes.items) × (0 < s.piece) };
}

impl MemSource {
    /// A source that has these bytes left, before its first call.
    pub fn new(bytes: Vec<u8>, piece: usize, failing: Vec<u64>) -> Self
        requires { 0 < piece }
        ensures { result ≡ record { bytes = bytes.items; piece = piece; failing = failing.items; calls = 0; faults = 0 } }
    {
        MemSource {
            bytes,
            at: 0,
            piece,
            failing,
            calls: 0,
            faults: 0,
        }
    }
}

// Copies a front of the bytes that are left, and says how long it is.
fn give(rest: &[u8], piece: usize, buf: &mut [u8]) -> usize
    requires { 0 < piece }
    ensures bound { result ≤ length rest.now }
    ensures room { result ≤ length buf.new }
    ensures copied { take result buf.new ≡ take result rest.now }
    ensures most { result ≡ min (min piece (length buf.new)) (length rest.now) }
    ensures end { result ≡ 0 → 0 < length buf.new → rest.now ≡ [] }
{
    let count = piece.min(buf.len()).min(rest.len());
    buf[..count].copy_from_slice(&rest[..count]);
    count
}

impl Source for MemSource {
    ghost left = { λ s. Some s.bytes };

    ghost faults = { λ s. s.faults };

    fn read(&mut self, buf: &mut [u8]) -> Result<usize, Failed>
        ensures bound { ReadsAtMost result buf.new }
        ensures bytes { ReadConsumes (Some self.old.bytes) (Some self.new.bytes) result buf.new }
        ensures cause { HasCause self.old.faults self.new.faults result }
        ensures quiet { OnOk result (self.new.faults ≡ self.old.faults) }
        ensures exact { is_err result ≡ fails_read self.old }
        ensures most { IfOk result (λ n. n ≡ min (min self.old.piece (length buf.new)) (length self.old.bytes)) }
        ensures turned { self.new.calls ≡ next_count self.old.calls }
        ensures kept { (self.new.piece ≡ self.old.piece) × (self.new.failing ≡ self.old.failing) }
    {
        self.calls = self.calls.saturating_add(1);
        if self.faults == u64::MAX || self.failing.contains(&self.calls) {
            self.faults = self.faults.saturating_add(1);
            return Err(Failed);
        }
        let count = give(&self.bytes[self.at..], self.piece, buf);
        self.at += count;
        Ok(count)
    }
}

/// A sink over memory. Each write takes at most `piece` bytes. The calls of `write` with the numbers in `failing`,
/// counted from 1, fail, and those that want memory which isn't there. Its flushes fail or succeed, all alike.
#[derive(Drop)]
pub struct MemSink {
    /// What was written.
    bytes: Vec<u8>,
    /// The most bytes that one write takes.
    piece: usize,
    /// The numbers of the calls of `write` that fail, counted from 1.
    failing: Vec<u64>,
    /// How many calls of `write` there were.
    calls: u64,
    /// How many calls failed, flushes among them.
    faults: u64,
    /// Whether each flush fails.
    fails_flush: bool,
    /// Whether nothing was written since the last flush that succeeded. Contracts alone read it.
    is_sent: bool,
}

impl Model for MemSink {
    ghost use Rattle.std.specs.Prelude.{◌<◌};
    ghost use Rattle.asp_io.specs.Memory.{Intake};

    ghost Value = { Intake };

    ghost view = { λ s. record { bytes = s.bytes.items; piece = s.piece; failing = s.failing.items; calls = s.calls; faults = s.faults; fails_flush = s.fails_flush; is_sent = s.is_sent } };

    ghost invariant = { λ s. 0 < s.piece };
}

impl MemSink {
    /// An empty sink, before its first call, whose flushes succeed.
    pub fn new(alloc: Global, piece: usize, failing: Vec<u64>) -> Self
        requires { 0 < piece }
        ensures { result ≡ record { bytes = []; piece = piece; failing = failing.items; calls = 0; faults = 0; fails_flush = false; is_sent = true } }
    {
        MemSink {
            bytes: Vec::new(alloc),
            piece,
            failing,
            calls: 0,
            faults: 0,
            fails_flush: false,
            is_sent: true,
        }
    }

    /// From now on each flush fails.
    pub fn fail_flushes(&mut self)
        ensures { self.new ≡ record self.old { fails_flush = true } }
    {
        self.fails_flush = true;
    }

    /// The bytes that it holds.
    pub fn bytes(&self) -> &[u8]
        ensures { result.now ≡ self.now.bytes }
    {
        &self.bytes
    }
}

impl Sink for MemSink {
    ghost held = { λ s. Some s.bytes };

    ghost faults = { λ s. s.faults };

    ghost is_sent = { λ s. s.is_sent };

    // Its failures are chosen.
    ghost is_closed = { λ _. false };

    fn write(&mut self, bytes: &[u8]) -> Result<usize, Failed>
        ensures bound { WritesAtMost result bytes.now }
        ensures bytes { WriteAppends (Some self.old.bytes) (Some self.new.bytes) result bytes.now }
        ensures cause { HasCause self.old.faults self.new.faults result }
        ensures moves { IfOk result (λ n. 0 < length bytes.now → 0 < n) }
        ensures quiet { OnOk result (self.new.faults ≡ self.old.faults) }
        ensures exact { IfOk result (λ n. (fails_write self.old ≡ false) × (n ≡ min self.old.piece (length bytes.now))) }
        ensures waits { OnOk result (self.new.is_sent ≡ false) }
        ensures turned { self.new.calls ≡ next_count self.old.calls }
        ensures kept { (self.new.piece ≡ self.old.piece) × (self.new.failing ≡ self.old.failing) × (self.new.fails_flush ≡ self.old.fails_flush) }
    {
        self.calls = self.calls.saturating_add(1);
        let count = self.piece.min(bytes.len());
        if self.faults == u64::MAX
            || self.failing.contains(&self.calls)
            || self.bytes.extend_from_slice(&bytes[..count]).is_err()
        {
            self.faults = self.faults.saturating_add(1);
            return Err(Failed);
        }
        self.is_sent = false;
        Ok(count)
    }

    fn flush(&mut self) -> Result<(), Failed>
        ensures bytes { self.new.bytes ≡ self.old.bytes }
        ensures cause { HasCause self.old.faults self.new.faults result }
        ensures quiet { OnOk result (self.new.faults ≡ self.old.faults) }
        ensures exact { is_err result ≡ (self.old.faults == last_count || self.old.fails_flush) }
        ensures sent { OnOk result (self.new.is_sent ≡ true) }
        ensures waits { OnErr result (self.new.is_sent ≡ self.old.is_sent) }
        ensures kept { (self.new.piece ≡ self.old.piece) × (self.new.failing ≡ self.old.failing) × (self.new.calls ≡ self.old.calls) × (self.new.fails_flush ≡ self.old.fails_flush) }
    {
        if self.faults == u64::MAX || self.fails_flush {
            self.faults = self.faults.saturating_add(1);
            return Err(Failed);
        }
        self.is_sent = true;
        Ok(())
    }

    fn is_closed(&self) -> bool {
        false
    }
}
