//! A program's answers as they come, numbered.
ghost use Rattle.std.specs.Prelude.{◌≡◌, ◌+◌, ◌++◌, ◌<◌, ◌^◌, [], length};
ghost use mathlib.Core.List.{IsPrefix};
ghost use Rattle.asp_model.specs.Models.{atoms_of};
ghost use Rattle.asp_buffer.specs.Out.{Puts, out};
ghost use Rattle.asp_outlet.specs.Outlets.{list_of, next_text};

use asp_io::{Failed, Sink};
use asp_model::interp::Interp;
use asp_model::program::Program;
use asp_print::in_parts::PartPrinter;
use asp_rows::rows::Rows;
use std::alloc::Global;
use std::marker::Model;

/// A program and those of its answers, or of its optima, that were heard so far, of which the number alone is kept: they are a front of
/// the list.
#[derive(Drop)]
pub struct Listing<'a> {
    /// The program.
    program: &'a Program,
    /// Whether its optima are heard, and else all its answers.
    optima: bool,
    /// Writes their lines, and counts them.
    printer: PartPrinter,
}

impl<'a> Model for Listing<'a> {
    ghost use Rattle.std.specs.Prelude.{take};
    ghost use Rattle.asp_outlet.specs.Outlets.{Heard, IsListing, list_of};

    ghost Value = { Heard };

    ghost view = { λ l. record { program = l.program.now; all = list_of l.optima l.program.now; sets = take l.printer.written (list_of l.optima l.program.now) } };

    ghost invariant = { λ l. IsListing l.program.now (list_of l.optima l.program.now) l.printer };
}

impl<'a> Listing<'a> {
    /// A listing of all answers, or of all optima, of which nothing was heard. Where memory is wanting its lines take longer.
    pub(crate) fn new(
        alloc: Global,
        program: &'a Program,
        atoms: &Interp,
        optima: bool,
    ) -> Listing<'a>
        requires { atoms.now ≡ atoms_of program.now }
        ensures { result ≡ record { program = program.now; all = list_of optima program.now; sets = [] } }
    {
        let printer = PartPrinter::new(alloc, program, atoms);
        Listing {
            program,
            optima,
            printer,
        }
    }

    /// How many answers were heard.
    pub fn len(&self) -> usize
        ensures { result ≡ length self.now.sets }
    {
        let _ = self.program;
        self.printer.written as usize
    }

    /// Writes the lines of answers that come next, and doesn't count them.
    pub(crate) fn write<K: Sink>(&mut self, sink: &mut K, rows: &Rows) -> Result<(), Failed>
        requires atoms { rows.now.atoms ≡ atoms_of self.old.program }
        requires room { length self.old.sets + length rows.now.sets + 1 < 2 ^ 64 }
        ensures same { self.new ≡ self.old }
        ensures puts { Puts (out (K.held sink.old) (K.faults sink.old) []) (out (K.held sink.new) (K.faults sink.new) []) result
            (next_text self.old.program self.old.sets rows.now.sets) }
    {
        let written = self.printer.written;
        let printed = self.printer.print(sink, self.program, rows);
        self.printer.written = written;
        printed
    }

    /// Counts the answers that come next.
    pub(crate) fn count(&mut self, rows: &Rows)
        requires front { IsPrefix (self.old.sets ++ rows.now.sets) self.old.all }
        requires room { length self.old.sets + length rows.now.sets + 1 < 2 ^ 64 }
        ensures { self.new ≡ record self.old { sets = self.old.sets ++ rows.now.sets } }
    {
        let _ = self.program;
        self.printer.written += rows.len() as u64;
    }
}
