//! A whole run.
ghost use Rattle.std.specs.Prelude.{◌≡◌, false, map, string_bytes};
ghost use Rattle.asp_faults.specs.Writing.{IsNoted};
ghost use Rattle.asp_checkrun.specs.Given.{refused, words_give};
ghost use Rattle.asp_checkrun.specs.Notes.{note_for, note_of};
ghost use Rattle.asp_checkrun.specs.Statuses.{status_code};
ghost use Rattle.asp_checkrun.specs.Runs.{Answers, Checks, Does, Replies, Tells, around};

use crate::notes::{note, note_misuse};
use crate::status::Status;
use crate::texts::{page, version};
use crate::words::{AskError, words};
use asp_checker::run::{Format, run_check, write_flushed};
use asp_io::{Failed, Sink, Source};
use std::alloc::Global;

// Writes a text, and flushes the sink.
fn write_asked<K: Sink>(sink: &mut K, text: &[u8]) -> Status
    ensures tells { Tells text.now (K.held sink.old) (K.held sink.new) (K.is_sent sink.new) result }
    ensures write { Answers 74 result (K.faults sink.old) (K.faults sink.new) }
    ensures no_read { status_code result ≡ 66 → ⊥ }
{
    match write_flushed(sink, text) {
        Ok(()) => Status::Told,
        Err(Failed) => Status::WriteFault,
    }
}

// Writes a text that was asked for, and says on the notes where that failed.
fn tell<K: Sink, N: Sink>(sink: &mut K, notes: &mut N, text: &[u8]) -> Status
    ensures tells { Tells text.now (K.held sink.old) (K.held sink.new) (K.is_sent sink.new) result }
    ensures write { Answers 74 result (K.faults sink.old) (K.faults sink.new) }
    ensures no_read { status_code result ≡ 66 → ⊥ }
    ensures notes { IsNoted (N.held notes.old) (N.held notes.new) (N.faults notes.old) (N.faults notes.new) (note_of (K.is_closed sink.new) result) }
{
    let status = write_asked(sink, text);
    note(notes, status, sink.is_closed());
    status
}

// Judges the proof in the source, writes what is said of it, and says on the notes why it isn't right.
fn check<S: Source, K: Sink, N: Sink>(
    alloc: Global,
    format: Format,
    source: &mut S,
    sink: &mut K,
    notes: &mut N,
) -> Status
    ensures checks { Checks format (around (S.left source.old) (S.left source.new)
        (K.held sink.old) (K.held sink.new) (K.is_sent sink.new)) result }
    ensures read { Answers 66 result (S.faults source.old) (S.faults source.new) }
    ensures write { Answers 74 result (K.faults sink.old) (K.faults sink.new) }
    ensures notes { IsNoted (N.held notes.old) (N.held notes.new) (N.faults notes.old) (N.faults notes.new) (note_of (K.is_closed sink.new) result) }
{
    let checked = run_check(alloc, format, source, sink);
    let status = Status::Checked(checked);
    note(notes, status, sink.is_closed());
    status
}

// What is done where nothing is checked.
fn reply<K: Sink, N: Sink>(sink: &mut K, notes: &mut N, error: &AskError<'_>) -> Status
    ensures replies { Replies (refused error.now) (K.held sink.old) (K.held sink.new) (K.is_sent sink.new) result }
    ensures write { Answers 74 result (K.faults sink.old) (K.faults sink.new) }
    ensures no_read { status_code result ≡ 66 → ⊥ }
    ensures notes { IsNoted (N.held notes.old) (N.held notes.new) (N.faults notes.old) (N.faults notes.new)
        (note_for (refused error.now) (K.is_closed sink.new) result) }
{
    match error {
        AskError::Help => tell(sink, notes, page()),
        AskError::Version => tell(sink, notes, version()),
        AskError::Usage(fault) => {
            note_misuse(notes, fault);
            Status::Usage
        }
    }
}

/// A run that can't have its arguments: nothing is read, and nothing written but the lines for its status on the notes.
pub fn end_without_words<N: Sink>(notes: &mut N, status: Status)
    ensures { IsNoted (N.held notes.old) (N.held notes.new) (N.faults notes.old) (N.faults notes.new) (note_of false status) }
{
    note(notes, status, false);
}

/// A whole run of the checker. It reads a program and its proof from the source, and writes the judgement to the sink; or it
/// writes help or the version. The notes get what is to be said of it.
pub fn run<S: Source, K: Sink, N: Sink>(
    alloc: Global,
    given: &[String],
    source: &mut S,
    sink: &mut K,
    notes: &mut N,
) -> Status
    ensures does { Does (words_give (map string_bytes given.now)) (around (S.left source.old) (S.left source.new)
        (K.held sink.old) (K.held sink.new) (K.is_sent sink.new)) result }
    // Status 66 and 74 come exactly where a fault of the source, or of the sink, was counted.
    ensures read { Answers 66 result (S.faults source.old) (S.faults source.new) }
    ensures write { Answers 74 result (K.faults sink.old) (K.faults sink.new) }
    ensures notes { IsNoted (N.held notes.old) (N.held notes.new) (N.faults notes.old) (N.faults notes.new)
        (note_for (words_give (map string_bytes given.now)) (K.is_closed sink.new) result) }
{
    match words(given) {
        Ok(format) => check(alloc, format, source, sink, notes),
        Err(error) => reply(sink, notes, &error),
    }
}
