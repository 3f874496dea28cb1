//! The parts of a program are written in place of its results.
ghost use Rattle.std.specs.Prelude.{◌≡◌, ◌<◌, IfOk, OnOk, Some, true};
ghost use Rattle.asp_cli.specs.Values.{IsPartCount};
ghost use Rattle.asp_faults.specs.Writing.{Writes};
ghost use Rattle.asp_top.specs.Parting.{Divides, Hands, IsPartsText};
ghost use Rattle.asp_top.specs.Runs.{IsSentOn, TellsClosed, TellsFaults};

use crate::deliver::failed;
use crate::status::{Outcome, Status};
use asp_faults::write;
use asp_io::{Failed, Sink};
use asp_make::emit_parts;
use asp_propagators::propagators::Propagators;
use asp_split::cubes::cubes;
use asp_vars::compiled::Compiled;
use std::alloc::{AllocError, Global};

// The text of a program's parts, at most so many.
fn text_of_parts(alloc: Global, compiled: &Compiled, most: u32) -> Result<Vec<u8>, AllocError>
    requires { 0 < most }
    ensures { IfOk result (λ text. IsPartsText compiled.now most text.items) }
{
    let propagator = Propagators::new(alloc, compiled)?;
    let parts = cubes(alloc, compiled, propagator, most as usize)?;
    let text = emit_parts(alloc, parts.as_slice())?;
    Ok(text)
}

// Writes a text, and flushes the sink.
fn write_text<K: Sink>(sink: &mut K, text: &[u8]) -> Result<(), Failed>
    ensures writes { Writes (K.held sink.old) (K.held sink.new) (K.faults sink.old) (K.faults sink.new) result text.now }
    ensures sent { OnOk result (K.is_sent sink.new ≡ true) }
{
    write(sink, text)?;
    sink.flush()
}

// The end of a run that writes the text of parts.
fn hand_out<K: Sink>(sink: &mut K, text: &[u8]) -> Outcome
    ensures hands { Hands text.now (K.held sink.old) (K.held sink.new) (K.faults sink.old) (K.faults sink.new) result }
    ensures flushed { TellsFaults (K.faults sink.old) (K.faults sink.new) result.status }
    ensures sent { IsSentOn result.status (K.is_sent sink.new) }
    ensures closed { TellsClosed result.status (K.is_closed sink.new) }
{
    match write_text(sink, text) {
        Ok(()) => failed(Status::Parts),
        Err(Failed) => failed(Status::WriteFault(sink.is_closed())),
    }
}

/// Divides a program into parts, at most so many, writes a line of assumptions for each, and flushes the sink.
pub fn divide<K: Sink>(alloc: Global, compiled: &Compiled, most: u32, sink: &mut K) -> Outcome
    requires { IsPartCount (Some most) }
    ensures divides { Divides compiled.now most (K.held sink.old) (K.held sink.new) (K.faults sink.old) (K.faults sink.new) result }
    ensures flushed { TellsFaults (K.faults sink.old) (K.faults sink.new) result.status }
    ensures sent { IsSentOn result.status (K.is_sent sink.new) }
    ensures closed { TellsClosed result.status (K.is_closed sink.new) }
{
    match text_of_parts(alloc, compiled, most) {
        Ok(text) => hand_out(sink, text.as_slice()),
        Err(_) => failed(Status::Memory),
    }
}
