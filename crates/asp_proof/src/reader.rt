//! The lines of a source, one after another.
ghost use Rattle.std.specs.Prelude.{◌≡◌, ◌≤◌, [], length, MatchBool, OnOk, IfOk, IsErrOf};
ghost use Rattle.asp_io.specs.Causes.{Rose};
ghost use Rattle.asp_proof.specs.Grammar.{IsUnbroken, most_bytes};
ghost use Rattle.asp_proof.specs.Reading.{Fills, HasMore, IsNextLine, TakesPiece, window};

use crate::error::ProofError;
use crate::fields::cut;
use asp_io::{Failed, Source};
use std::alloc::{AllocError, Global};
use std::marker::Model;

/// The greatest length of a line.
const MOST_BYTES: usize = 268_435_456;

/// How many bytes are asked for at once.
const PIECE: usize = 65_536;

/// Reads the lines of a source. Contracts see the line that it is at, and the bytes after it that were read.
#[derive(Drop)]
pub struct LineReader {
    /// The line that was read last, without its line feed.
    line: Vec<u8>,
    /// What the source gave last, in its front.
    piece: Vec<u8>,
    /// How much of it belongs to the lines so far.
    start: usize,
    /// How much of it the source gave.
    end: usize,
}

impl Model for LineReader {
    ghost use Rattle.std.specs.Prelude.{◌≤◌, ◌<◌, ◌-◌, take, drop, length};
    ghost use Rattle.asp_proof.specs.Reading.{Window, window};

    ghost Value = { Window };

    ghost view = { λ r. window r.line.items (take (r.end - r.start) (drop r.start r.piece.items)) };

    ghost invariant = { λ r. (length r.line.items ≤ 268435456) × (r.start ≤ r.end) × (r.end ≤ length r.piece.items) × (0 < length r.piece.items) };
}

impl LineReader {
    /// At the start of a source, before its first line.
    pub fn new(alloc: Global) -> Result<LineReader, AllocError>
        ensures { IfOk result (λ r. r ≡ window [] []) }
    {
        let piece = vec![in alloc; 0u8; PIECE]?;
        Ok(LineReader {
            line: Vec::new(alloc),
            piece,
            start: 0,
            end: 0,
        })
    }

    /// The line that it is at.
    pub fn line(&self) -> &[u8]
        ensures { result.now ≡ self.now.line }
    {
        &self.line
    }

    // Adds to the line what was read of it, and says whether its line feed was there.
    fn take_piece(&mut self) -> Result<bool, ProofError>
        requires { IsUnbroken self.old.line }
        ensures takes { TakesPiece self.old self.new result }
        ensures short { OnOk result (length self.new.line ≤ most_bytes) }
    {
        let (front, rest) = cut(&self.piece[self.start..self.end], b'\n');
        let count = front.len();
        let is_whole = rest.is_empty();
        if count > MOST_BYTES - self.line.len() {
            return Err(ProofError::TooLong);
        }
        self.line.extend_from_slice(front)?;
        self.start += count;
        if is_whole {
            return Ok(false);
        }
        self.start += 1;
        Ok(true)
    }

    // Reads more of the source, and says whether there was more.
    fn fill<S: Source>(&mut self, source: &mut S) -> Result<bool, ProofError>
        requires { self.old.behind ≡ [] }
        ensures fills { Fills (S.left source.old) (S.left source.new) self.old self.new result }
        ensures later { S.faults source.old ≤ S.faults source.new }
        ensures cause { IsErrOf result ProofError.ReadFault → Rose (S.faults source.old) (S.faults source.new) }
        ensures quiet { ¬ IsErrOf result ProofError.ReadFault → S.faults source.new ≡ S.faults source.old }
    {
        match source.read(&mut self.piece) {
            Ok(count) => {
                self.start = 0;
                self.end = count;
                Ok(count > 0)
            }
            Err(Failed) => Err(ProofError::ReadFault),
        }
    }

    fn is_used(&self) -> bool
        ensures { MatchBool result (self.now.behind ≡ []) (self.now.behind ≡ [] → ⊥) }
    {
        if self.start == self.end {
            return true;
        }
        false
    }

    /// Goes to the next line, and says whether its line feed came. Where it didn't, the line is what the source ended with.
    pub fn next_line<S: Source>(&mut self, source: &mut S) -> Result<bool, ProofError>
        ensures next { IsNextLine (S.left source.old) (S.left source.new) self.old self.new result }
        ensures later { S.faults source.old ≤ S.faults source.new }
        ensures cause { IsErrOf result ProofError.ReadFault → Rose (S.faults source.old) (S.faults source.new) }
        ensures quiet { ¬ IsErrOf result ProofError.ReadFault → S.faults source.new ≡ S.faults source.old }
    {
        self.line.clear();
        'pieces: loop {
            if self.is_used() && !self.fill(source)? {
                return Ok(false);
            }
            if self.take_piece()? {
                return Ok(true);
            }
        }
    }

    /// Whether anything comes after the line that it is at.
    pub fn has_more<S: Source>(&mut self, source: &mut S) -> Result<bool, ProofError>
        ensures more { HasMore (S.left source.old) (S.left source.new) self.old self.new result }
        ensures later { S.faults source.old ≤ S.faults source.new }
        ensures cause { IsErrOf result ProofError.ReadFault → Rose (S.faults source.old) (S.faults source.new) }
        ensures quiet { ¬ IsErrOf result ProofError.ReadFault → S.faults source.new ≡ S.faults source.old }
    {
        if !self.is_used() {
            return Ok(true);
        }
        self.fill(source)
    }
}
