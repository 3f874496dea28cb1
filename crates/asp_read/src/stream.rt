// What a source's text says, in whatever pieces its reads come.
ghost use Rattle.std.specs.Prelude.{◌≡◌, ◌+◌, ◌++◌, ◌≤◌, ◌<◌, List, ℕ, [], length, None, Ok, Err, IfOk, IfErr, IfSome, OnOk, IsErrOf};
ghost use Rattle.asp_text.specs.Lines.{cut};
ghost use Rattle.asp_text.specs.Unread.{most_bytes};
ghost use Rattle.asp_read.specs.Judging.{judge_by, judge_next, outcome_by};
ghost use Rattle.asp_read.specs.Outcome.{outcome};
ghost use Rattle.std.specs.Io.KnownBytes.{IsAtEnd};
ghost use Rattle.asp_io.specs.Causes.{Rose};
ghost use Rattle.asp_model.specs.Sound.{IsSound};
ghost use Rattle.asp_read.specs.Stream.{ReadGives, Becomes, FailsAs, IsOfLines, ReadsText, Answers, StopsBy, StopsAt, EndsWith, EndsAt, outcome_on};

use crate::error::{LineError, told};
use crate::fault::ReadError;
use crate::judge::Judge;
use crate::reader::Reader;
use asp_io::{Failed, Source};
use asp_model::program::Program;
use asp_text::Lines;
use std::alloc::Global;
use std::mem;

// The line with this number.
fn judge_numbered<J: Judge>(reader: &mut J, number: u32, line: &[u8]) -> Result<(), ReadError>
    ensures reader { Becomes result reader.new (judge_next number (judge_by J.format reader.old line.now) (λ s. Ok s)) }
    ensures of_lines { IfErr result IsOfLines }
{
    match reader.judge(line) {
        Ok(()) => Ok(()),
        Err(LineError::Memory) => Err(ReadError::Memory),
        Err(LineError::Fault(broken)) => Err(ReadError::Refused(told(line, broken), number)),
    }
}

// The lines that have their line feed. Whatever follows, the outcome is that of the rest.
fn judge_lines<J: Judge>(lines: &mut Lines, reader: &mut J) -> Result<(), ReadError>
    ensures none_left { OnOk result (cut lines.new.bytes ≡ None) }
    ensures fed { lines.new.fed ≡ lines.old.fed }
    ensures shorter { length lines.new.bytes ≤ length lines.old.bytes }
    ensures goes_on { OnOk result ((room : ℕ) (rest : List ℕ) → outcome_on J.format lines.new reader.new room rest ≡ outcome_on J.format lines.old reader.old room rest) }
    ensures fails { IfErr result (λ e. (room : ℕ) (rest : List ℕ) → FailsAs e (outcome_on J.format lines.old reader.old room rest)) }
    ensures of_lines { IfErr result IsOfLines }
{
    while let Some(line) = lines.next_line() {
        judge_numbered(reader, line.number, line.bytes)?;
    }
    Ok(())
}

// The end of the text, where no line feed is left.
fn finish<J: Judge>(lines: &mut Lines, mut reader: J) -> Result<J::Parsed, ReadError>
    requires { cut lines.old.bytes ≡ None }
    ensures text { (room : ℕ) → ReadGives result (outcome_on J.format lines.old reader room []) }
    ensures of_lines { IfErr result IsOfLines }
{
    match lines.finish() {
        Some(line) => {
            let number = line.number;
            match judge_numbered(&mut reader, number, line.bytes) {
                Ok(()) => reader.end(number + 1),
                Err(error) => {
                    mem::drop(reader);
                    Err(error)
                }
            }
        }
        None => reader.end(lines.count() + 1),
    }
}

// The next piece of the text.
fn take_piece<J: Judge>(lines: &mut Lines, reader: &mut J, piece: &[u8]) -> Result<(), ReadError>
    requires { lines.old.fed + length piece.now ≤ most_bytes }
    ensures none_left { OnOk result (cut lines.new.bytes ≡ None) }
    ensures fed { OnOk result (lines.new.fed ≡ lines.old.fed + length piece.now) }
    ensures goes_on { OnOk result ((room : ℕ) (rest : List ℕ) → outcome_on J.format lines.new reader.new room rest ≡ outcome_on J.format lines.old reader.old (room + length piece.now) (piece.now ++ rest)) }
    ensures fails { IfErr result (λ e. (room : ℕ) (rest : List ℕ) → FailsAs e (outcome_on J.format lines.old reader.old (room + length piece.now) (piece.now ++ rest))) }
    ensures of_lines { IfErr result IsOfLines }
{
    lines.feed(piece)?;
    judge_lines(lines, reader)
}

// Reads on to the end of what the source gives, at most so many bytes of it.
fn read_all<S: Source, J: Judge>(
    source: &mut S,
    lines: &mut Lines,
    reader: &mut J,
    limit: u32,
    buf: &mut [u8],
) -> Result<(), ReadError>
    requires start { reader.old ≡ J.format.start }
    requires lines { lines.old ≡ record { bytes = []; given = 0; fed = 0 } }
    requires limit { limit ≤ most_bytes }
    requires buf { 0 < length buf.old }
    ensures none_left { OnOk result (cut lines.new.bytes ≡ None) }
    ensures ends { OnOk result (EndsWith J.format (S.left source.old) limit lines.new reader.new) }
    ensures ends_there { OnOk result (EndsAt J.format (S.left source.old) (S.left source.new) limit) }
    ensures end { OnOk result (IsAtEnd (S.left source.new)) }
    ensures answers { IfErr result (λ e. Answers J.format (S.left source.old) limit (Err e)) }
    ensures stops { IfErr result (λ e. StopsBy J.format limit (S.left source.old) (S.left source.new) (Err e)) }
    ensures later { S.faults source.old ≤ S.faults source.new }
    ensures cause { IsErrOf result ReadError.ReadFault → Rose (S.faults source.old) (S.faults source.new) }
    ensures quiet { ¬ IsErrOf result ReadError.ReadFault → S.faults source.new ≡ S.faults source.old }
{
    let mut room = limit;
    'reading: loop {
        let most = buf.len().min(room as usize + 1);
        let count = match source.read(&mut buf[..most]) {
            Ok(count) => count,
            Err(Failed) => return Err(ReadError::ReadFault),
        };
        if count == 0 {
            return Ok(());
        }
        if count > room as usize {
            take_piece(lines, reader, &buf[..room as usize])?;
            return Err(ReadError::TooLong);
        }
        take_piece(lines, reader, &buf[..count])?;
        room -= count as u32;
    }
}

// What the text says that the source gives, at most so many bytes of it.
fn read_within<S: Source, J: Judge>(
    alloc: Global,
    source: &mut S,
    mut reader: J,
    limit: u32,
    buf: &mut [u8],
) -> Result<J::Parsed, ReadError>
    requires start { reader ≡ J.format.start }
    requires limit { limit ≤ most_bytes }
    requires buf { 0 < length buf.old }
    ensures answers { Answers J.format (S.left source.old) limit result }
    ensures end { OnOk result (IsAtEnd (S.left source.new)) }
    ensures later { S.faults source.old ≤ S.faults source.new }
    ensures cause { IsErrOf result ReadError.ReadFault → Rose (S.faults source.old) (S.faults source.new) }
    ensures stops { StopsBy J.format limit (S.left source.old) (S.left source.new) result }
    ensures quiet { ¬ IsErrOf result ReadError.ReadFault → S.faults source.new ≡ S.faults source.old }
{
    let mut lines = Lines::new(alloc);
    match read_all(source, &mut lines, &mut reader, limit, buf) {
        Ok(()) => finish(&mut lines, reader),
        Err(error) => {
            mem::drop(reader);
            Err(error)
        }
    }
}

/// The greatest length of a text.
pub const MOST_BYTES: u32 = 268_435_456;

/// What the text says that a source gives, to its end, whose lines this reader judges. No read follows the first fault:
/// after a refusal the source stands where the read left it that brought the fault's line feed, or the end.
pub fn read_by<S: Source, J: Judge>(
    alloc: Global,
    source: &mut S,
    reader: J,
) -> Result<J::Parsed, ReadError>
    requires { reader ≡ J.format.start }
    // Where the source tells its bytes, the outcome of all of them, unless memory ran out or a read failed.
    ensures text { IfSome (S.left source.old) (λ text. ReadsText result (outcome_by J.format text)) }
    // Where it doesn't, the outcome of some text.
    ensures some_text { (text : List ℕ) × ReadsText result (outcome_by J.format text) }
    // It comes only at the end of the input.
    ensures end { OnOk result (IsAtEnd (S.left source.new)) }
    ensures later { S.faults source.old ≤ S.faults source.new }
    // The source stands right behind what was read, and the last read decided.
    ensures stops { StopsBy J.format MOST_BYTES (S.left source.old) (S.left source.new) result }
    // A failed read is answered exactly where the source's count of faults rose.
    ensures cause { IsErrOf result ReadError.ReadFault → Rose (S.faults source.old) (S.faults source.new) }
    ensures quiet { ¬ IsErrOf result ReadError.ReadFault → S.faults source.new ≡ S.faults source.old }
{
    let mut buf = [0u8; 8192];
    read_within(alloc, source, reader, MOST_BYTES, &mut buf)
}

/// The program of what a source gives, to its end. No read follows the first fault: after a refusal the source stands
/// where the read left it that brought the fault's line feed, or the end.
pub fn read_program<S: Source>(alloc: Global, source: &mut S) -> Result<Program, ReadError>
    // Where the source tells its bytes, the outcome of all of them, unless memory ran out or a read failed.
    ensures text { IfSome (S.left source.old) (λ text. ReadsText result (outcome text)) }
    // Where it doesn't, the outcome of some text.
    ensures some_text { (text : List ℕ) × ReadsText result (outcome text) }
    ensures sound { IfOk result IsSound }
    // A program comes only at the end of the input.
    ensures end { OnOk result (IsAtEnd (S.left source.new)) }
    ensures later { S.faults source.old ≤ S.faults source.new }
    // The source stands right behind what was read, and the last read decided.
    ensures stops { StopsAt MOST_BYTES (S.left source.old) (S.left source.new) result }
    // A failed read is answered exactly where the source's count of faults rose.
    ensures cause { IsErrOf result ReadError.ReadFault → Rose (S.faults source.old) (S.faults source.new) }
    ensures quiet { ¬ IsErrOf result ReadError.ReadFault → S.faults source.new ≡ S.faults source.old }
{
    let reader = Reader::new(alloc)?;
    read_by(alloc, source, reader)
}
