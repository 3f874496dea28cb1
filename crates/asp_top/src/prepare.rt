//! The program of a run: read from the source or made, and what is searched of it.
ghost use Rattle.std.specs.Prelude.{◌≡◌, ◌≤◌, ℕ, List, Option, None, Some, IfErr, IfOk, IfSome, IsErrOf, OnOk};
ghost use Rattle.std.specs.Io.KnownBytes.{IsAtEnd};
ghost use Rattle.asp_io.specs.Causes.{Rose};
ghost use Rattle.asp_read.specs.Judging.{most_bytes};
ghost use Rattle.asp_read.specs.Stream.{ReadsText};
ghost use Rattle.asp_model.specs.Sound.{IsSound};
ghost use Rattle.asp_cli.specs.Values.{IsRing};
ghost use Rattle.asp_prepare.specs.Naming.{HasNumbers, prepared_of};
ghost use Rattle.asp_top.specs.Formats.{StopsFor, outcome_for};
ghost use Rattle.asp_top.specs.Runs.{EndsUnready, Prepares, status_of, status_unready};

use crate::status::Status;
use asp_cli::{Format, Options};
use asp_io::Source;
use asp_make::ring;
use asp_model::program::Program;
use asp_prepare::prepared;
use asp_prepare::prepared::{Prepared, Unready};
use asp_read::fault::ReadError;
use asp_read::read_program;
use asp_smodels::read_smodels;
use std::alloc::Global;

/// How a run ends that read no program.
pub fn status_of(error: ReadError) -> Status
    ensures { result ≡ status_of error }
{
    match error {
        ReadError::Memory => Status::Memory,
        ReadError::ReadFault => Status::ReadFault,
        ReadError::TooLong => Status::TooLong,
        ReadError::Refused(fault, line) => Status::Refused(fault, line),
    }
}

// How a run ends of whose program nothing is searched.
fn status_unready(why: Unready) -> Status
    ensures { result ≡ status_unready why }
{
    match why {
        Unready::Memory => Status::Memory,
        Unready::Unnamed => Status::Unnamed,
    }
}

// What is searched of the program, compiled.
fn ready(alloc: Global, options: &Options, program: Program) -> Result<Prepared, Status>
    requires { IsSound program }
    ensures same { IfOk result (λ prepared. prepared ≡ prepared_of options.now program) }
    ensures numbers { OnOk result (HasNumbers options.now program) }
    ensures wanting { IfErr result (EndsUnready options.now program) }
{
    match prepared::ready(alloc, options, program) {
        Ok(prepared) => Ok(prepared),
        Err(why) => Err(status_unready(why)),
    }
}

// The program that the source gives in a format.
fn read_in<S: Source>(alloc: Global, format: Format, source: &mut S) -> Result<Program, ReadError>
    ensures text { IfSome (S.left source.old) (λ text. ReadsText result (outcome_for format text)) }
    ensures some_text { (text : List ℕ) × ReadsText result (outcome_for format text) }
    ensures sound { IfOk result IsSound }
    ensures end { OnOk result (IsAtEnd (S.left source.new)) }
    ensures later { S.faults source.old ≤ S.faults source.new }
    ensures stops { StopsFor format most_bytes (S.left source.old) (S.left source.new) result }
    ensures cause { IsErrOf result ReadError.ReadFault → Rose (S.faults source.old) (S.faults source.new) }
    ensures quiet { ¬ IsErrOf result ReadError.ReadFault → S.faults source.new ≡ S.faults source.old }
{
    match format {
        Format::Aspif => read_program(alloc, source),
        Format::Smodels => read_smodels(alloc, source),
    }
}

// The program that the source gives.
fn read<S: Source>(alloc: Global, options: &Options, source: &mut S) -> Result<Prepared, Status>
    ensures { options.now.make ≡ None → Prepares options.now (S.left source.old) (S.left source.new) (S.faults source.old) (S.faults source.new) result }
{
    match read_in(alloc, options.format, source) {
        Ok(program) => ready(alloc, options, program),
        Err(error) => Err(status_of(error)),
    }
}

// The ring of so many nodes. The source isn't read.
fn made(alloc: Global, options: &Options, nodes: u32) -> Result<Prepared, Status>
    requires { IsRing (Some nodes) }
    ensures { (left : Option (List ℕ)) (reads : ℕ) → options.now.make ≡ Some nodes → Prepares options.now left left reads reads result }
{
    match ring(alloc, nodes) {
        Ok(program) => ready(alloc, options, program),
        Err(_) => Err(Status::Memory),
    }
}

/// The program that is to be solved, or how a run ends that has none.
pub fn prepare<S: Source>(
    alloc: Global,
    options: &Options,
    source: &mut S,
) -> Result<Prepared, Status>
    requires { IsRing options.now.make }
    ensures { Prepares options.now (S.left source.old) (S.left source.new) (S.faults source.old) (S.faults source.new) result }
{
    match options.make {
        None => read(alloc, options, source),
        Some(nodes) => made(alloc, options, nodes),
    }
}
