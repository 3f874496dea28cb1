//! The outlet of a program's answers.
ghost use Rattle.std.specs.Prelude.{◌≡◌, ◌+◌, ◌++◌, ◌<◌, ◌^◌, [], IsTrue, OnOk, false, length, not, true};
ghost use mathlib.Core.List.{IsPrefix};
ghost use Rattle.asp_model.specs.Models.{atoms_of};
ghost use Rattle.asp_buffer.specs.Out.{Puts, out};
ghost use Rattle.asp_print.specs.Parts.{closing};
ghost use Rattle.asp_outlet.specs.Outlets.{Ends, Hears, IsAfter, Moment, last_text, list_of, moment, next_text, optima_closing, optima_text, whole_text};

use crate::closing::print_optima_closing;
use crate::listing::Listing;
use crate::reader::Reader;
use asp_io::{Failed, Sink};
use asp_model::cost::Cost;
use asp_model::interp::Interp;
use asp_model::program::Program;
use asp_model::results::End;
use asp_print::in_parts::print_closing;
use asp_rows::rows::Rows;
use std::alloc::Global;

/// Writes a program's answers to a sink as they are heard.
#[derive(Drop)]
pub struct Outlet<'a, K: Sink> {
    /// Where the lines go.
    pub sink: &'a mut K,
    /// The answers that were heard, whether they were written or not.
    pub listing: Listing<'a>,
    /// Whether a write failed. Once one has, nothing more is written.
    pub failed: bool,
}

// Writes the lines of answers that come next, and sends them on.
fn write_part<K: Sink>(listing: &mut Listing<'_>, sink: &mut K, rows: &Rows) -> Result<(), Failed>
    requires atoms { rows.now.atoms ≡ atoms_of listing.old.program }
    requires room { length listing.old.sets + length rows.now.sets + 1 < 2 ^ 64 }
    ensures same { listing.new ≡ listing.old }
    ensures puts { Puts (out (K.held sink.old) (K.faults sink.old) []) (out (K.held sink.new) (K.faults sink.new) []) result
        (next_text listing.old.program listing.old.sets rows.now.sets) }
    ensures sent { OnOk result (K.is_sent sink.new ≡ true) }
{
    listing.write(sink, rows)?;
    sink.flush()
}

// Writes the lines after the last of so many answers, and sends them on.
fn write_closing<K: Sink>(sink: &mut K, end: End, count: usize) -> Result<(), Failed>
    ensures puts { Puts (out (K.held sink.old) (K.faults sink.old) []) (out (K.held sink.new) (K.faults sink.new) []) result
        (closing end count) }
    ensures sent { OnOk result (K.is_sent sink.new ≡ true) }
{
    print_closing(sink, end, count)?;
    sink.flush()
}

// Writes what stands after the answers that were heard, and sends it on.
fn write_end<K: Sink>(
    listing: &mut Listing<'_>,
    sink: &mut K,
    end: End,
    rest: &Rows,
) -> Result<(), Failed>
    requires atoms { rest.now.atoms ≡ atoms_of listing.old.program }
    requires room { length listing.old.sets + length rest.now.sets + 1 < 2 ^ 64 }
    ensures same { listing.new ≡ listing.old }
    ensures puts { Puts (out (K.held sink.old) (K.faults sink.old) []) (out (K.held sink.new) (K.faults sink.new) []) result
        (last_text listing.old.program listing.old.sets end rest.now.sets) }
    ensures sent { OnOk result (K.is_sent sink.new ≡ true) }
{
    listing.write(sink, rest)?;
    write_closing(sink, end, listing.len() + rest.len())
}

// Writes the lines after the last of so many optima of this cost, and sends them on.
fn write_optima_closing<K: Sink>(
    sink: &mut K,
    end: End,
    cost: &Cost,
    count: usize,
) -> Result<(), Failed>
    ensures puts { Puts (out (K.held sink.old) (K.faults sink.old) []) (out (K.held sink.new) (K.faults sink.new) []) result
        (optima_closing end cost.now count) }
    ensures sent { OnOk result (K.is_sent sink.new ≡ true) }
{
    print_optima_closing(sink, end, cost, count)?;
    sink.flush()
}

// Writes what stands after the optima that were heard, and sends it on.
fn write_optima_end<K: Sink>(
    listing: &mut Listing<'_>,
    sink: &mut K,
    end: End,
    rest: &Rows,
    cost: &Cost,
) -> Result<(), Failed>
    requires atoms { rest.now.atoms ≡ atoms_of listing.old.program }
    requires room { length listing.old.sets + length rest.now.sets + 1 < 2 ^ 64 }
    ensures same { listing.new ≡ listing.old }
    ensures puts { Puts (out (K.held sink.old) (K.faults sink.old) []) (out (K.held sink.new) (K.faults sink.new) []) result
        (next_text listing.old.program listing.old.sets rest.now.sets ++ optima_closing end cost.now (length listing.old.sets + length rest.now.sets)) }
    ensures sent { OnOk result (K.is_sent sink.new ≡ true) }
{
    listing.write(sink, rest)?;
    write_optima_closing(sink, end, cost, listing.len() + rest.len())
}

impl<'a, K: Sink> Outlet<'a, K> {
    /// An outlet of all answers, or of all optima, that has heard nothing. Where memory is wanting it takes longer.
    pub fn new(
        alloc: Global,
        sink: &'a mut K,
        program: &'a Program,
        atoms: &Interp,
        optima: bool,
    ) -> Outlet<'a, K>
        requires { atoms.now ≡ atoms_of program.now }
        ensures same { result.sink.ghost_name ≡ sink.entry.ghost_name }
        ensures now { result.sink.now ≡ sink.old }
        ensures heard { result.listing ≡ record { program = program.now; all = list_of optima program.now; sets = [] } }
        ensures failed { result.failed ≡ false }
    {
        Outlet {
            sink,
            listing: Listing::new(alloc, program, atoms, optima),
            failed: false,
        }
    }

    /// Hears the answers that come next in the list, writes their lines and sends them on. After a write that failed it
    /// writes nothing. False where one has failed.
    pub fn write_next(&mut self, rows: &Rows) -> bool
        requires atoms { rows.now.atoms ≡ atoms_of self.old.listing.program }
        requires front { IsPrefix (self.old.listing.sets ++ rows.now.sets) self.old.listing.all }
        requires room { length self.old.listing.sets + length rows.now.sets + 1 < 2 ^ 64 }
        ensures same { self.new.sink.ghost_name ≡ self.old.sink.ghost_name }
        ensures program { self.new.listing.program ≡ self.old.listing.program }
        ensures all { self.new.listing.all ≡ self.old.listing.all }
        ensures hears { Hears self.old.listing.program
            (moment self.old.listing.sets (K.held self.old.sink.now) (K.faults self.old.sink.now) self.old.failed)
            (moment self.new.listing.sets (K.held self.new.sink.now) (K.faults self.new.sink.now) self.new.failed)
            rows.now.sets }
        ensures wanted { result ≡ not self.new.failed }
        ensures sent { IsTrue result → K.is_sent self.new.sink.now ≡ true }
    {
        if self.failed {
            self.listing.count(rows);
            return false;
        }
        let written = write_part(&mut self.listing, self.sink, rows);
        self.listing.count(rows);
        self.failed = written.is_err();
        written.is_ok()
    }

    /// Writes the answers that were found and not heard, and the lines after the last, and sends them on. After a write that failed it
    /// writes nothing. What the sink then holds beside what it held before it heard any is the text of the results, as it is written
    /// of a run that has ended; or after an error a front of it.
    pub fn finish(&mut self, end: End, rest: &Rows) -> Result<(), Failed>
        requires atoms { rest.now.atoms ≡ atoms_of self.old.listing.program }
        requires room { length self.old.listing.sets + length rest.now.sets + 1 < 2 ^ 64 }
        ensures same { self.new.sink.ghost_name ≡ self.old.sink.ghost_name }
        ensures ends { (a : Moment) → a.heard ≡ [] → a.failed ≡ false
            → IsAfter self.old.listing.program a (moment self.old.listing.sets (K.held self.old.sink.now) (K.faults self.old.sink.now) self.old.failed)
            → Ends a (K.held self.new.sink.now) (K.faults self.new.sink.now) result (whole_text self.old.listing.program end (self.old.listing.sets ++ rest.now.sets)) }
        ensures silent { self.old.failed ≡ true → (K.held self.new.sink.now ≡ K.held self.old.sink.now) × (K.faults self.new.sink.now ≡ K.faults self.old.sink.now) }
        ensures sent { OnOk result (K.is_sent self.new.sink.now ≡ true) }
    {
        if self.failed {
            return Err(Failed);
        }
        write_end(&mut self.listing, self.sink, end, rest)
    }

    /// The same of optima, all of this cost, whose text has a cost line.
    pub fn finish_optima(&mut self, end: End, rest: &Rows, cost: &Cost) -> Result<(), Failed>
        requires atoms { rest.now.atoms ≡ atoms_of self.old.listing.program }
        requires room { length self.old.listing.sets + length rest.now.sets + 1 < 2 ^ 64 }
        ensures same { self.new.sink.ghost_name ≡ self.old.sink.ghost_name }
        ensures ends { (a : Moment) → a.heard ≡ [] → a.failed ≡ false
            → IsAfter self.old.listing.program a (moment self.old.listing.sets (K.held self.old.sink.now) (K.faults self.old.sink.now) self.old.failed)
            → Ends a (K.held self.new.sink.now) (K.faults self.new.sink.now) result (optima_text self.old.listing.program end cost.now (self.old.listing.sets ++ rest.now.sets)) }
        ensures silent { self.old.failed ≡ true → (K.held self.new.sink.now ≡ K.held self.old.sink.now) × (K.faults self.new.sink.now ≡ K.faults self.old.sink.now) }
        ensures sent { OnOk result (K.is_sent self.new.sink.now ≡ true) }
    {
        if self.failed {
            return Err(Failed);
        }
        write_optima_end(&mut self.listing, self.sink, end, rest, cost)
    }
}

impl<K: Sink> Reader for Outlet<'_, K> {
    ghost use Rattle.std.proofs.Common.{◌≡◌, ◌∙◌, List, [], ◌++◌, refl, subst};
    ghost use Rattle.std.specs.Prelude.{not};
    ghost use Rattle.asp_model.specs.declared.program.Program.{Program};
    ghost use Rattle.asp_model.specs.Sets.{Atoms};
    ghost use Rattle.asp_outlet.specs.Outlets.{Hears, moment};
    ghost use Rattle.asp_outlet.specs.Hearing.{hears_nothing, hears_then};

    ghost program = { λ o. o.listing.program };

    ghost all = { λ o. o.listing.all };

    ghost heard = { λ o. o.listing.sets };

    ghost wants = { λ o. not o.failed };

    ghost IsAfter = { λ o q. (q.sink.ghost_name ≡ o.sink.ghost_name) × (q.listing.program ≡ o.listing.program)
        × ((sets : List Atoms) × Hears o.listing.program
        (moment o.listing.sets (K.held o.sink.now) (K.faults o.sink.now) o.failed)
        (moment q.listing.sets (K.held q.sink.now) (K.faults q.sink.now) q.failed) sets) };

    fn hear(&mut self, rows: &Rows) -> bool {
        self.write_next(rows)
    }

    ghost begins = { λ o. (refl, refl, ([], hears_nothing o.listing.program (moment o.listing.sets (K.held o.sink.now) (K.faults o.sink.now) o.failed))) };

    ghost goes_on = { λ u v w a b.
        let p = moment u.listing.sets (K.held u.sink.now) (K.faults u.sink.now) u.failed in
        let q = moment v.listing.sets (K.held v.sink.now) (K.faults v.sink.now) v.failed in
        let r = moment w.listing.sets (K.held w.sink.now) (K.faults w.sink.now) w.failed in (
          b.0 ∙ a.0,
          b.1 ∙ a.1,
          (a.2.0 ++ b.2.0, hears_then u.listing.program p q r a.2.0 b.2.0 a.2.1 (subst (λ (o : Program). Hears o q r b.2.0) a.1 b.2.1)),
        ) };
}
