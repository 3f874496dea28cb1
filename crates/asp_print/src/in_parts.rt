//! Answers in parts, while a run goes on.
ghost use Rattle.std.specs.Prelude.{◌≡◌, ◌+◌, ◌^◌, ◌<◌, ◌≤◌, length, OnOk, OnErr};
ghost use Rattle.std.specs.Io.KnownBytes.{Appends};
ghost use Rattle.asp_io.specs.Causes.{Rose, AppendsFront};
ghost use Rattle.asp_model.specs.Texts.{answers_from, ended_line, verdict};
ghost use Rattle.asp_buffer.specs.Out.{Puts, out};
ghost use Rattle.asp_print.specs.Parts.{IsPrinterOf, closing, closing_of};

use crate::answers::put_each;
use crate::outputs::OutputTable;
use crate::text::{put_models, verdict};
use asp_buffer::{Waiting, flush, put};
use asp_io::{Failed, Sink};
use asp_model::interp::Interp;
use asp_model::program::Program;
use asp_model::results::{End, Mode};
use asp_rows::rows::Rows;
use std::alloc::Global;

/// Writes answers in parts, whose numbers go on from part to part.
#[derive(Drop)]
pub struct PartPrinter {
    /// The outputs side by side, where memory wasn't wanting.
    pub table: Option<OutputTable>,
    /// How many answers were written.
    pub written: u64,
}

// Puts out the lines of the answers of a part.
fn put_part<K: Sink>(
    sink: &mut K,
    waiting: &mut Waiting,
    program: &Program,
    printer: &PartPrinter,
    answers: &Rows,
) -> Result<(), Failed>
    requires of { IsPrinterOf program.now answers.now.atoms printer.now }
    requires room { printer.now.written + 1 + length answers.now.sets < 2 ^ 64 }
    ensures { Puts (out (K.held sink.old) (K.faults sink.old) waiting.old)
        (out (K.held sink.new) (K.faults sink.new) waiting.new) result
        (answers_from program.now (printer.now.written + 1) answers.now.sets) }
{
    let first = printer.written + 1;
    put_each(
        sink,
        waiting,
        program,
        printer.table.as_ref(),
        first,
        answers.atoms().as_slice(),
        answers.as_slice(),
    )
}

// Puts out the word line.
fn put_word<K: Sink>(
    sink: &mut K,
    waiting: &mut Waiting,
    end: End,
    mode: Mode,
    count: usize,
) -> Result<(), Failed>
    ensures { Puts (out (K.held sink.old) (K.faults sink.old) waiting.old)
        (out (K.held sink.new) (K.faults sink.new) waiting.new) result
        (ended_line (verdict end mode count)) }
{
    put(sink, waiting, verdict(end, mode, count))?;
    put(sink, waiting, b"\n")
}

/// Puts out the word line and the count line of results that list so many answers.
pub fn put_end<K: Sink>(
    sink: &mut K,
    waiting: &mut Waiting,
    end: End,
    mode: Mode,
    count: usize,
) -> Result<(), Failed>
    ensures { Puts (out (K.held sink.old) (K.faults sink.old) waiting.old)
        (out (K.held sink.new) (K.faults sink.new) waiting.new) result
        (closing_of mode end count) }
{
    put_word(sink, waiting, end, mode, count)?;
    put_models(sink, waiting, end, count)
}

impl PartPrinter {
    /// A printer that has written nothing. Where memory is wanting it takes longer.
    pub fn new(alloc: Global, program: &Program, atoms: &Interp) -> PartPrinter
        ensures of { IsPrinterOf program.now atoms.now result }
        ensures none { result.written ≡ 0 }
    {
        let table = OutputTable::of(alloc, b' ', atoms.as_slice(), &program.outputs).ok();
        PartPrinter { table, written: 0 }
    }

    /// Writes the lines of the answers that come next. After an error a front of them is out.
    pub fn print<K: Sink>(
        &mut self,
        sink: &mut K,
        program: &Program,
        answers: &Rows,
    ) -> Result<(), Failed>
        requires of { IsPrinterOf program.now answers.now.atoms self.old }
        requires room { self.old.written + 1 + length answers.now.sets < 2 ^ 64 }
        ensures all { OnOk result (Appends (K.held sink.old) (K.held sink.new) (answers_from program.now (self.old.written + 1) answers.now.sets)) }
        ensures front { OnErr result (AppendsFront (K.held sink.old) (K.held sink.new) (answers_from program.now (self.old.written + 1) answers.now.sets)) }
        ensures later { K.faults sink.old ≤ K.faults sink.new }
        ensures cause { OnErr result (Rose (K.faults sink.old) (K.faults sink.new)) }
        ensures quiet { OnOk result (K.faults sink.new ≡ K.faults sink.old) }
        ensures table { self.new.table ≡ self.old.table }
        ensures count { self.new.written ≡ self.old.written + length answers.now.sets }
    {
        let mut waiting = Waiting::new();
        let put = put_part(sink, &mut waiting, program, self, answers);
        self.written += answers.len() as u64;
        put?;
        flush(sink, &mut waiting)
    }
}

/// Writes the lines after the last of so many answers of an enumeration.
pub fn print_closing<K: Sink>(sink: &mut K, end: End, count: usize) -> Result<(), Failed>
    ensures all { OnOk result (Appends (K.held sink.old) (K.held sink.new) (closing end count)) }
    ensures front { OnErr result (AppendsFront (K.held sink.old) (K.held sink.new) (closing end count)) }
    ensures later { K.faults sink.old ≤ K.faults sink.new }
    ensures cause { OnErr result (Rose (K.faults sink.old) (K.faults sink.new)) }
    ensures quiet { OnOk result (K.faults sink.new ≡ K.faults sink.old) }
{
    let mut waiting = Waiting::new();
    put_end(sink, &mut waiting, end, Mode::Enum, count)?;
    flush(sink, &mut waiting)
}
