//! Sources, sinks, and writing a whole piece.
ghost use Rattle.std.specs.Prelude.{◌≡◌, ◌<◌, ◌≤◌, ℕ, Bool, true, List, length, IfOk, OnOk, OnErr};
ghost use Rattle.std.specs.declared.option.Option.{Option};
ghost use Rattle.std.specs.Io.{ReadsAtMost, WritesAtMost};
ghost use Rattle.std.specs.Io.KnownBytes.{Keeps, Appends, ReadConsumes, WriteAppends};
ghost use Rattle.asp_io.specs.Causes.{HasCause, Rose, AppendsFront};

/// A read, a write or a flush failed. The count of faults of that source or sink rose.
#[derive(Clone, Copy, Debug, PartialEq, Eq)]
pub struct Failed;

/// Where bytes come from. A count of faults never falls; that it rose means that it is greater than before or stands
/// at the greatest u64, where every call fails.
pub trait Source {
    /// The bytes that are left, where they are told.
    ghost left: { Self → Option (List ℕ) };

    /// How many faults there were, up to the greatest u64.
    ghost faults: { Self → ℕ };

    /// Takes the first bytes that are left, at most as many as `buf` has room for, into its front, and says how many.
    /// 0 of a buffer that isn't empty is the end. `Failed` takes nothing. The count of faults rises exactly there.
    fn read(&mut self, buf: &mut [u8]) -> Result<usize, Failed>
        ensures bound { ReadsAtMost result buf.new }
        ensures bytes { ReadConsumes (left self.old) (left self.new) result buf.new }
        ensures cause { HasCause (faults self.old) (faults self.new) result }
        ensures quiet { OnOk result (faults self.new ≡ faults self.old) };
}

/// Where bytes go. Its count of faults is as that of a `Source`.
pub trait Sink {
    /// The bytes that it holds, where they are told.
    ghost held: { Self → Option (List ℕ) };

    /// How many faults there were, up to the greatest u64.
    ghost faults: { Self → ℕ };

    /// Whether all that was written was sent on, so that none of it waits in a buffer of the sink.
    ghost is_sent: { Self → Bool };

    /// Whether the last call that failed did so because nobody reads any more, as behind a pipe that was closed. No clause
    /// says when: the sink tells it.
    ghost is_closed: { Self → Bool };

    /// Appends the first bytes of a piece, and says how many: at least one of a piece that isn't empty. `Failed` appends
    /// nothing. The count of faults rises exactly there.
    fn write(&mut self, bytes: &[u8]) -> Result<usize, Failed>
        ensures bound { WritesAtMost result bytes.now }
        ensures bytes { WriteAppends (held self.old) (held self.new) result bytes.now }
        ensures cause { HasCause (faults self.old) (faults self.new) result }
        ensures moves { IfOk result (λ n. 0 < length bytes.now → 0 < n) }
        ensures quiet { OnOk result (faults self.new ≡ faults self.old) };

    /// Sends on what was written, and changes no bytes. The count of faults rises exactly where it fails.
    fn flush(&mut self) -> Result<(), Failed>
        ensures bytes { Keeps (held self.old) (held self.new) }
        ensures cause { HasCause (faults self.old) (faults self.new) result }
        ensures quiet { OnOk result (faults self.new ≡ faults self.old) }
        ensures sent { OnOk result (is_sent self.new ≡ true) };

    /// Whether the last call that failed did so because nobody reads any more, as behind a pipe that was closed. That is no
    /// fault of anybody's.
    fn is_closed(&self) -> bool
        ensures { result ≡ is_closed self.now };
}

/// Appends all of the bytes, piece by piece. It takes no memory, and flushes nothing. On `Failed` a front of them was
/// appended, and the sink's count of faults rose; else the count is what it was.
pub fn write_all<K: Sink>(sink: &mut K, bytes: &[u8]) -> Result<(), Failed>
    ensures all { OnOk result (Appends (K.held sink.old) (K.held sink.new) bytes.now) }
    ensures front { OnErr result (AppendsFront (K.held sink.old) (K.held sink.new) bytes.now) }
    ensures later { K.faults sink.old ≤ K.faults sink.new }
    ensures cause { OnErr result (Rose (K.faults sink.old) (K.faults sink.new)) }
    ensures quiet { OnOk result (K.faults sink.new ≡ K.faults sink.old) }
{
    let mut rest = bytes;
    while !rest.is_empty() {
        let count = sink.write(rest)?;
        rest = &rest[count..];
    }
    Ok(())
}
