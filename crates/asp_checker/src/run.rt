//! A program's text and a proof's text, and what is said of them.
ghost use Rattle.std.specs.Prelude.{◌≡◌, ◌≤◌, [], codes, length, true, IfOk, IsErrOf, OnErr, OnOk};
ghost use Rattle.std.specs.Io.KnownBytes.{Appends};
ghost use Rattle.asp_io.specs.Causes.{AppendsFront, Rose};
ghost use Rattle.asp_model.specs.Sound.{IsSound};
ghost use Rattle.asp_proof.specs.Grammar.{most_bytes};
ghost use Rattle.asp_proof.specs.Reading.{Comes, held, window};
ghost use Rattle.asp_read.specs.Stream.{ReadsText};
ghost use Rattle.asp_checker.specs.Codes.{code_of};
ghost use Rattle.asp_checker.specs.Errors.{program_error, read_fault};
ghost use Rattle.asp_checker.specs.Formats.{outcome_for};
ghost use Rattle.asp_checker.specs.Streams.{Judges};
ghost use Rattle.asp_checker.specs.Runs.{AddsLine, FindsProof, InputSays, IsSentOn, RunSays, TextsSay, Writes, found_text, number_of, proof_status, said, status_of, status_said};

use crate::error::CheckError;
use crate::judge::{Judgement, Why};
use crate::stream::{judge, next_line};
use asp_compile::compile::compile;
use asp_io::{CleanSource, Failed, Sink, Source, write_all};
use asp_model::program::Program;
use asp_proof::lines::is_head;
use asp_proof::{LineReader, ProofError};
use asp_read::fault::ReadError;
use asp_read::read_program;
use asp_smodels::read_smodels;
use itoa::Buffer;
use std::alloc::{AllocError, Global};
use std::mem;

/// The greatest length of a program's text.
const MOST_BYTES: usize = 268_435_456;

/// The format of a program's text.
#[derive(Clone, Copy, Debug, PartialEq, Eq)]
pub enum Format {
    /// aspif 1.0.
    Aspif,
    /// That of smodels and lparse.
    Smodels,
}

/// How a run ended.
#[derive(Clone, Copy)]
pub enum CheckStatus {
    /// The proof is right, and lists all that was sought.
    Yes,
    /// It is right, and tells that the answers, so many, are a part of what was sought.
    Part(usize),
    /// It isn't: why, and by which of its lines, counted from 1.
    No(Why, usize),
    /// Memory ran out.
    Memory,
    /// The program's text was refused.
    Program(ReadError),
    /// The source failed.
    ReadFault,
    /// The text is longer than a text may be.
    TooLong,
    /// No line of the text is the first line of a proof.
    NoProof,
    /// The proof's text was refused.
    Proof(ProofError),
    /// The sink failed.
    WriteFault,
}

impl CheckStatus {
    /// The status with which the program exits.
    pub fn code(self) -> u8
        ensures { result ≡ code_of self }
    {
        match self {
            CheckStatus::Yes => 0,
            CheckStatus::No(_, _) => 1,
            CheckStatus::Part(_) => 2,
            CheckStatus::Memory => 33,
            CheckStatus::Program(_) => 65,
            CheckStatus::ReadFault => 66,
            CheckStatus::TooLong => 67,
            CheckStatus::NoProof | CheckStatus::Proof(_) => 68,
            CheckStatus::WriteFault => 74,
        }
    }
}

// ---- the program and the proof

// Judges the proof whose first line the reader is at by a program. What a right proof lists is so.
fn judge_by<S: Source>(
    alloc: Global,
    program: Program,
    reader: &mut LineReader,
    source: &mut S,
) -> Result<Judgement, CheckError>
    requires sound { IsSound program }
    requires head { reader.old.line ≡ codes "proof 3" }
    ensures says { Comes (S.left source.old) (held reader.old) (λ text. Judges program text result) }
    ensures cause { IsErrOf result read_fault → Rose (S.faults source.old) (S.faults source.new) }
    ensures quiet { ¬ IsErrOf result read_fault → S.faults source.new ≡ S.faults source.old }
{
    let compiled = compile(alloc, program)?;
    let judged = judge(alloc, &compiled, reader, source);
    mem::drop(compiled);
    judged
}

fn program_error(error: ReadError) -> CheckError
    ensures { result ≡ program_error error }
{
    match error {
        ReadError::Memory => CheckError::Memory,
        ReadError::ReadFault => CheckError::Program(ReadError::ReadFault),
        ReadError::TooLong => CheckError::Program(ReadError::TooLong),
        ReadError::Refused(fault, line) => CheckError::Program(ReadError::Refused(fault, line)),
    }
}

// The program of a text in this format.
fn read_text(alloc: Global, format: Format, text: &[u8]) -> Result<Program, ReadError>
    ensures read { ReadsText result (outcome_for format text.now) }
    ensures no_read { result ≡ Err ReadError.ReadFault → ⊥ }
    ensures sound { IfOk result IsSound }
{
    let mut source = CleanSource::new(text);
    match format {
        Format::Aspif => read_program(alloc, &mut source),
        Format::Smodels => read_smodels(alloc, &mut source),
    }
}

// Judges the proof whose first line the reader is at by the program of a text.
fn judge_behind<S: Source>(
    alloc: Global,
    format: Format,
    program: Vec<u8>,
    reader: &mut LineReader,
    source: &mut S,
) -> Result<Judgement, CheckError>
    requires head { reader.old.line ≡ codes "proof 3" }
    ensures says { Comes (S.left source.old) (held reader.old) (λ text. TextsSay format program.items text result) }
    ensures cause { IsErrOf result read_fault → Rose (S.faults source.old) (S.faults source.new) }
    ensures quiet { ¬ IsErrOf result read_fault → S.faults source.new ≡ S.faults source.old }
{
    let read = read_text(alloc, format, program.as_slice());
    mem::drop(program);
    match read {
        Ok(program) => judge_by(alloc, program, reader, source),
        Err(error) => Err(program_error(error)),
    }
}

// The program's text with one line more.
fn add_line(text: &mut Vec<u8>, line: &[u8]) -> Result<(), CheckError>
    requires { length text.old.items ≤ most_bytes }
    ensures { AddsLine text.old.items text.new.items line.now result }
{
    if line.len() >= MOST_BYTES - text.len() {
        return Err(CheckError::Proof(ProofError::TooLong));
    }
    text.extend_from_slice(line)?;
    text.push(b'\n')?;
    Ok(())
}

// The program's text: what comes before the first line of a proof, if there is one.
fn program_text<S: Source>(
    alloc: Global,
    reader: &mut LineReader,
    source: &mut S,
) -> Result<Option<Vec<u8>>, CheckError>
    requires { reader.old ≡ window [] [] }
    ensures finds { FindsProof (S.left source.old) (S.left source.new) reader.new (found_text (λ v. v.items) result) }
    ensures cause { IsErrOf result read_fault → Rose (S.faults source.old) (S.faults source.new) }
    ensures quiet { ¬ IsErrOf result read_fault → S.faults source.new ≡ S.faults source.old }
{
    let mut text = Vec::new(alloc);
    'lines: for _ in 0..usize::MAX {
        let next = next_line(reader, source)?;
        if !next {
            return Ok(None);
        }
        if is_head(reader.line()) {
            return Ok(Some(text));
        }
        let line = reader.line();
        add_line(&mut text, line)?;
    }
    Err(CheckError::Memory)
}

/// Judges the proof that a source gives after its program, which is in this format. The proof begins with the first line
/// `proof 3`.
pub fn check_proof<S: Source>(
    alloc: Global,
    format: Format,
    source: &mut S,
) -> Result<Judgement, CheckError>
    ensures says { Comes (S.left source.old) [] (λ text. InputSays format text result) }
    ensures cause { IsErrOf result read_fault → Rose (S.faults source.old) (S.faults source.new) }
    ensures quiet { ¬ IsErrOf result read_fault → S.faults source.new ≡ S.faults source.old }
{
    let mut reader = LineReader::new(alloc)?;
    let found = program_text(alloc, &mut reader, source)?;
    match found {
        Some(program) => judge_behind(alloc, format, program, &mut reader, source),
        None => Err(CheckError::NoProof),
    }
}

// ---- what is said

fn number_of(why: Why) -> u8
    ensures { result ≡ number_of why }
{
    match why {
        Why::Member => 1,
        Why::Order => 2,
        Why::Literal => 3,
        Why::Loop => 4,
        Why::NotImplied => 5,
        Why::NotWhole => 6,
        Why::Cost => 7,
        Why::NotListed => 8,
    }
}

// The text of a judgement.
fn said(alloc: Global, judgement: Judgement) -> Result<Vec<u8>, AllocError>
    ensures { IfOk result (λ text. text.items ≡ said judgement) }
{
    let mut text = Vec::new(alloc);
    match judgement {
        Judgement::Yes => text.extend_from_slice(b"YES\n")?,
        Judgement::Part(count) => {
            text.extend_from_slice(b"PART ")?;
            text.extend_from_slice(Buffer::new().format(count).as_bytes())?;
            text.extend_from_slice(b"\n")?;
        }
        Judgement::No(why, line) => {
            text.extend_from_slice(b"NO ")?;
            text.extend_from_slice(Buffer::new().format(number_of(why)).as_bytes())?;
            text.extend_from_slice(b" ")?;
            text.extend_from_slice(Buffer::new().format(line).as_bytes())?;
            text.extend_from_slice(b"\n")?;
        }
    }
    Ok(text)
}

fn status_said(judgement: Judgement) -> CheckStatus
    ensures { result ≡ status_said judgement }
{
    match judgement {
        Judgement::Yes => CheckStatus::Yes,
        Judgement::Part(count) => CheckStatus::Part(count),
        Judgement::No(why, line) => CheckStatus::No(why, line),
    }
}

/// Writes the text, and flushes the sink.
pub fn write_flushed<K: Sink>(sink: &mut K, text: &[u8]) -> Result<(), Failed>
    ensures all { OnOk result (Appends (K.held sink.old) (K.held sink.new) text.now) }
    ensures sent { OnOk result (K.is_sent sink.new ≡ true) }
    ensures front { OnErr result (AppendsFront (K.held sink.old) (K.held sink.new) text.now) }
    ensures cause { OnErr result (Rose (K.faults sink.old) (K.faults sink.new)) }
    ensures quiet { OnOk result (K.faults sink.new ≡ K.faults sink.old) }
{
    write_all(sink, text)?;
    sink.flush()
}

// Writes the text of a judgement, and flushes the sink.
fn write_text<K: Sink>(sink: &mut K, text: &[u8], judgement: Judgement) -> CheckStatus
    requires { text.now ≡ said judgement }
    ensures says { Writes (K.held sink.old) (K.held sink.new) judgement result }
    ensures sent { IsSentOn (K.is_sent sink.new) result }
    ensures cause { result ≡ CheckStatus.WriteFault → Rose (K.faults sink.old) (K.faults sink.new) }
    ensures quiet { (result ≡ CheckStatus.WriteFault → ⊥) → K.faults sink.new ≡ K.faults sink.old }
{
    match write_flushed(sink, text) {
        Ok(()) => status_said(judgement),
        Err(Failed) => CheckStatus::WriteFault,
    }
}

// Writes a judgement, and flushes the sink.
fn write_judgement<K: Sink>(alloc: Global, sink: &mut K, judgement: Judgement) -> CheckStatus
    ensures says { Writes (K.held sink.old) (K.held sink.new) judgement result }
    ensures sent { IsSentOn (K.is_sent sink.new) result }
    ensures cause { result ≡ CheckStatus.WriteFault → Rose (K.faults sink.old) (K.faults sink.new) }
    ensures quiet { (result ≡ CheckStatus.WriteFault → ⊥) → K.faults sink.new ≡ K.faults sink.old }
{
    match said(alloc, judgement) {
        Ok(text) => write_text(sink, text.as_slice(), judgement),
        Err(AllocError) => CheckStatus::Memory,
    }
}

// How a run ends where the proof's text was refused, or not had.
fn proof_status(error: ProofError) -> CheckStatus
    ensures { result ≡ proof_status error }
{
    match error {
        ProofError::Memory => CheckStatus::Memory,
        ProofError::ReadFault => CheckStatus::ReadFault,
        ProofError::TooLong => CheckStatus::TooLong,
        ProofError::Refused(line) => CheckStatus::Proof(ProofError::Refused(line)),
    }
}

// How a run ends where no proof was judged.
fn status_of(error: CheckError) -> CheckStatus
    ensures { result ≡ status_of error }
{
    match error {
        CheckError::Memory => CheckStatus::Memory,
        CheckError::Program(error) => CheckStatus::Program(error),
        CheckError::NoProof => CheckStatus::NoProof,
        CheckError::Proof(error) => proof_status(error),
    }
}

/// Reads a program's text in this format and after it a proof's, which begins with the first line `proof 3`, writes what
/// is said of the proof, and flushes the sink: `YES`; or `PART` with the number of answers, which are a part of what was
/// sought; or `NO` with the number of the reason and of the line. Nothing is
/// written where no proof was judged.
pub fn run_check<S: Source, K: Sink>(
    alloc: Global,
    format: Format,
    source: &mut S,
    sink: &mut K,
) -> CheckStatus
    // What the source's text comes to, or some text where it doesn't tell it.
    ensures says { RunSays format (S.left source.old) (K.held sink.old) (K.held sink.new) result }
    // All of the judgement was sent on.
    ensures sent { IsSentOn (K.is_sent sink.new) result }
    // A failed read is answered exactly where the source's count of faults rose, and a failed write or flush where the
    // sink's did.
    ensures read { result ≡ CheckStatus.ReadFault → Rose (S.faults source.old) (S.faults source.new) }
    ensures read_quiet { (result ≡ CheckStatus.ReadFault → ⊥) → S.faults source.new ≡ S.faults source.old }
    ensures write { result ≡ CheckStatus.WriteFault → Rose (K.faults sink.old) (K.faults sink.new) }
    ensures write_quiet { (result ≡ CheckStatus.WriteFault → ⊥) → K.faults sink.new ≡ K.faults sink.old }
{
    match check_proof(alloc, format, source) {
        Ok(judgement) => write_judgement(alloc, sink, judgement),
        Err(error) => status_of(error),
    }
}
