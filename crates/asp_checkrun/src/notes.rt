//! What is said on standard error.
ghost use Rattle.std.specs.Prelude.{◌≡◌, ◌++◌, false, codes, decimal};
ghost use Rattle.asp_faults.specs.Writing.{IsNoted, Writes};
ghost use Rattle.asp_checkrun.specs.Given.{fault_seen};
ghost use Rattle.asp_checkrun.specs.Notes.{check_note, misuse_note, misuse_text, note_of, part_text, program_note, proof_line, proof_note, usage_text, why_text, write_note};

use crate::status::Status;
use crate::texts::usage;
use crate::words::WordFault;
use asp_checker::judge::Why;
use asp_checker::run::CheckStatus;
use asp_faults::{write, write_both, write_fault, write_three};
use asp_io::{Failed, Sink};
use asp_proof::ProofError;
use asp_read::fault::{Fault, ReadError};
use itoa::Buffer;

fn why_text(why: Why) -> &'static [u8]
    ensures { result.now ≡ why_text why }
{
    match why {
        Why::Member => b"the set is no stable model in which the assumptions hold",
        Why::Order => {
            b"the set doesn't come after the one before it, is a second one where an optimum was sought, or was found at no lower cost"
        }
        Why::Literal => b"the program has no such variable or atom",
        Why::Loop => b"the set has support from outside",
        Why::NotImplied => b"it doesn't follow from the lines before it",
        Why::NotWhole => b"no line before it says that there is nothing else",
        Why::Cost => b"the set costs other than the first one, where all optima were sought",
        Why::NotListed => b"a set that was found isn't listed",
    }
}

fn write_place<N: Sink>(notes: &mut N, line: u64) -> Result<(), Failed>
    ensures { Writes (N.held notes.old) (N.held notes.new) (N.faults notes.old) (N.faults notes.new)
        result (codes "aspcheck: line " ++ decimal line ++ codes " of the proof: ") }
{
    write_three(
        notes,
        b"aspcheck: line ",
        Buffer::new().format(line).as_bytes(),
        b" of the proof: ",
    )
}

// A line of the proof, and what is said of it.
fn write_proof_line<N: Sink>(notes: &mut N, line: u64, text: &[u8]) -> Result<(), Failed>
    ensures { Writes (N.held notes.old) (N.held notes.new) (N.faults notes.old) (N.faults notes.new)
        result (proof_line line text.now) }
{
    write_place(notes, line)?;
    write_both(notes, text, b"\n")
}

fn write_line<N: Sink>(notes: &mut N, line: u32) -> Result<(), Failed>
    ensures { Writes (N.held notes.old) (N.held notes.new) (N.faults notes.old) (N.faults notes.new)
        result (codes "aspcheck: line " ++ decimal line) }
{
    write_both(
        notes,
        b"aspcheck: line ",
        Buffer::new().format(line).as_bytes(),
    )
}

fn write_refused<N: Sink>(notes: &mut N, fault: Fault, line: u32) -> Result<(), Failed>
    ensures { Writes (N.held notes.old) (N.held notes.new) (N.faults notes.old) (N.faults notes.new)
        result (program_note (ReadError.Refused fault line)) }
{
    write_line(notes, line)?;
    write_fault(notes, fault)?;
    write(notes, b"\n")
}

fn write_program<N: Sink>(notes: &mut N, error: ReadError) -> Result<(), Failed>
    ensures { Writes (N.held notes.old) (N.held notes.new) (N.faults notes.old) (N.faults notes.new)
        result (program_note error) }
{
    match error {
        ReadError::Memory => write(notes, b"aspcheck: out of memory\n"),
        ReadError::ReadFault => write(notes, b"aspcheck: read failed\n"),
        ReadError::TooLong => write(notes, b"aspcheck: input too long\n"),
        ReadError::Refused(fault, line) => write_refused(notes, fault, line),
    }
}

fn write_proof<N: Sink>(notes: &mut N, error: ProofError) -> Result<(), Failed>
    ensures { Writes (N.held notes.old) (N.held notes.new) (N.faults notes.old) (N.faults notes.new)
        result (proof_note error) }
{
    match error {
        ProofError::Memory => write(notes, b"aspcheck: out of memory\n"),
        ProofError::ReadFault => write(notes, b"aspcheck: read failed\n"),
        ProofError::TooLong => write(notes, b"aspcheck: input too long\n"),
        ProofError::Refused(line) => write_proof_line(notes, line as u64, b"wrong or missing"),
    }
}

// That the sink failed, where somebody reads.
fn write_failed<N: Sink>(notes: &mut N, is_closed: bool) -> Result<(), Failed>
    ensures { Writes (N.held notes.old) (N.held notes.new) (N.faults notes.old) (N.faults notes.new)
        result (write_note is_closed) }
{
    if is_closed {
        return write(notes, b"");
    }
    write(notes, b"aspcheck: write failed\n")
}

// What is said of a right proof whose answers are a part of what was sought.
fn part_text() -> &'static [u8]
    ensures { result.now ≡ part_text }
{
    b"aspcheck: the proof is right; its sets are answers, but it doesn't say that there are no others\n"
}

fn write_check<N: Sink>(notes: &mut N, status: CheckStatus, is_closed: bool) -> Result<(), Failed>
    ensures { Writes (N.held notes.old) (N.held notes.new) (N.faults notes.old) (N.faults notes.new)
        result (check_note is_closed status) }
{
    match status {
        CheckStatus::Yes => write(notes, b""),
        CheckStatus::Part(_) => write(notes, part_text()),
        CheckStatus::No(why, line) => write_proof_line(notes, line as u64, why_text(why)),
        CheckStatus::Memory => write(notes, b"aspcheck: out of memory\n"),
        CheckStatus::Program(error) => write_program(notes, error),
        CheckStatus::ReadFault => write(notes, b"aspcheck: read failed\n"),
        CheckStatus::TooLong => write(notes, b"aspcheck: input too long\n"),
        CheckStatus::NoProof => write(
            notes,
            b"aspcheck: no line is 'proof 3', with which a proof begins (the program's last line needs its line feed)\n",
        ),
        CheckStatus::Proof(error) => write_proof(notes, error),
        CheckStatus::WriteFault => write_failed(notes, is_closed),
    }
}

fn write_not_text<N: Sink>(notes: &mut N) -> Result<(), Failed>
    ensures { Writes (N.held notes.old) (N.held notes.new) (N.faults notes.old) (N.faults notes.new)
        result (note_of false Status.Usage) }
{
    write_both(notes, b"aspcheck: an argument is not UTF-8\n", usage())
}

fn write_status<N: Sink>(notes: &mut N, status: Status, is_closed: bool) -> Result<(), Failed>
    ensures { Writes (N.held notes.old) (N.held notes.new) (N.faults notes.old) (N.faults notes.new)
        result (note_of is_closed status) }
{
    match status {
        Status::Checked(status) => write_check(notes, status, is_closed),
        Status::Told => write(notes, b""),
        Status::Memory => write(notes, b"aspcheck: out of memory\n"),
        Status::Usage => write_not_text(notes),
        Status::WriteFault => write_failed(notes, is_closed),
    }
}

/// Writes the lines for a status; none for a failed write where nobody reads any more. That standard error fails changes
/// nothing.
pub fn note<N: Sink>(notes: &mut N, status: Status, is_closed: bool)
    ensures { IsNoted (N.held notes.old) (N.held notes.new) (N.faults notes.old) (N.faults notes.new) (note_of is_closed status) }
{
    let _ = write_status(notes, status, is_closed);
}

fn write_word_fault<N: Sink>(notes: &mut N, fault: &WordFault<'_>) -> Result<(), Failed>
    ensures { Writes (N.held notes.old) (N.held notes.new) (N.faults notes.old) (N.faults notes.new)
        result (misuse_text (fault_seen fault.now)) }
{
    match fault {
        WordFault::Unknown(word) => write_three(
            notes,
            b"unknown argument ",
            word.as_bytes(),
            b" (the program and its proof are read from standard input; see --help)",
        ),
        WordFault::Twice => write(notes, b"--format is given twice"),
        WordFault::Missing => write(notes, b"a value is missing after --format"),
        WordFault::Value(value) => write_both(
            notes,
            b"--format takes aspif or smodels, not ",
            value.as_bytes(),
        ),
    }
}

fn write_named<N: Sink>(notes: &mut N, fault: &WordFault<'_>) -> Result<(), Failed>
    ensures { Writes (N.held notes.old) (N.held notes.new) (N.faults notes.old) (N.faults notes.new)
        result (codes "aspcheck: " ++ misuse_text (fault_seen fault.now)) }
{
    write(notes, b"aspcheck: ")?;
    write_word_fault(notes, fault)
}

fn write_usage<N: Sink>(notes: &mut N) -> Result<(), Failed>
    ensures { Writes (N.held notes.old) (N.held notes.new) (N.faults notes.old) (N.faults notes.new)
        result (usage_text) }
{
    write_both(notes, b"\n", usage())
}

fn write_misuse<N: Sink>(notes: &mut N, fault: &WordFault<'_>) -> Result<(), Failed>
    ensures { Writes (N.held notes.old) (N.held notes.new) (N.faults notes.old) (N.faults notes.new)
        result (misuse_note (fault_seen fault.now)) }
{
    write_named(notes, fault)?;
    write_usage(notes)
}

/// Writes the line of the arguments' first fault, and the usage line. That standard error fails changes nothing.
pub fn note_misuse<N: Sink>(notes: &mut N, fault: &WordFault<'_>)
    ensures { IsNoted (N.held notes.old) (N.held notes.new) (N.faults notes.old) (N.faults notes.new)
        (misuse_note (fault_seen fault.now)) }
{
    let _ = write_misuse(notes, fault);
}
