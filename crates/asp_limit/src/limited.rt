//! An outlet with a limit.
ghost use Rattle.std.specs.Prelude.{◌≡◌, ◌⊎◌, ◌+◌, ◌-◌, ◌++◌, ◌<◌, ◌≤◌, ◌^◌, [], false, length, take};
ghost use mathlib.Core.List.{IsPrefix};
ghost use Rattle.asp_model.specs.Models.{atoms_of};
ghost use Rattle.asp_outlet.specs.Outlets.{Hears, IsAfter, list_of, moment};
ghost use Rattle.asp_limit.specs.Limits.{IsLimitedTo, heard_of, room, wants};

use crate::front::front;
use asp_io::Sink;
use asp_model::interp::Interp;
use asp_model::program::Program;
use asp_outlet::{Outlet, Reader};
use asp_rows::rows::Rows;
use std::alloc::Global;

/// Writes a program's answers to a sink as they are heard, until as many were written as its limit says. Those that it hears then
/// are left out.
#[derive(Drop)]
pub struct LimitedOutlet<'a, K: Sink> {
    /// Writes them, and has heard those that were to be written.
    pub outlet: Outlet<'a, K>,
    /// As many are written at most; 0 is no limit.
    pub models: usize,
    /// So many were heard then, and left out: those after the ones that were to be written.
    pub left: usize,
    /// Whether memory was wanting for those of them that were to be written. Then no more is.
    pub short: bool,
    /// Where memory is taken from.
    pub alloc: Global,
}

impl<'a, K: Sink> LimitedOutlet<'a, K> {
    /// An outlet with this limit, of all answers or of all optima, that has heard nothing. Where memory is wanting it takes longer.
    pub fn new(
        alloc: Global,
        sink: &'a mut K,
        program: &'a Program,
        atoms: &Interp,
        optima: bool,
        models: usize,
    ) -> LimitedOutlet<'a, K>
        requires { atoms.now ≡ atoms_of program.now }
        ensures same { result.outlet.sink.ghost_name ≡ sink.entry.ghost_name }
        ensures now { result.outlet.sink.now ≡ sink.old }
        ensures heard { result.outlet.listing ≡ record { program = program.now; all = list_of optima program.now; sets = [] } }
        ensures failed { result.outlet.failed ≡ false }
        ensures models { result.models ≡ models }
        ensures left { result.left ≡ 0 }
        ensures short { result.short ≡ false }
    {
        LimitedOutlet {
            outlet: Outlet::new(alloc, sink, program, atoms, optima),
            models,
            left: 0,
            short: false,
            alloc,
        }
    }

    /// How many more may be written.
    pub fn room(&self) -> usize
        ensures { result ≡ room self.now.models (length self.now.outlet.listing.sets) }
    {
        if self.models == 0 {
            usize::MAX
        } else {
            self.models.saturating_sub(self.outlet.listing.len())
        }
    }

    // Writes the first of the answers that come next, so many, where memory suffices. It says how many were to be written then.
    fn write_front(&mut self, rows: &Rows, count: usize) -> usize
        requires atoms { rows.now.atoms ≡ atoms_of self.old.outlet.listing.program }
        requires front { IsPrefix (self.old.outlet.listing.sets ++ rows.now.sets) self.old.outlet.listing.all }
        requires room { length self.old.outlet.listing.sets + length rows.now.sets + 1 < 2 ^ 64 }
        requires count { count ≤ length rows.now.sets }
        ensures same { self.new.outlet.sink.ghost_name ≡ self.old.outlet.sink.ghost_name }
        ensures program { self.new.outlet.listing.program ≡ self.old.outlet.listing.program }
        ensures all { self.new.outlet.listing.all ≡ self.old.outlet.listing.all }
        ensures limit { (self.new.models ≡ self.old.models) × (self.new.left ≡ self.old.left) }
        ensures hears { Hears self.old.outlet.listing.program
            (moment self.old.outlet.listing.sets (K.held self.old.outlet.sink.now) (K.faults self.old.outlet.sink.now) self.old.outlet.failed)
            (moment self.new.outlet.listing.sets (K.held self.new.outlet.sink.now) (K.faults self.new.outlet.sink.now) self.new.outlet.failed)
            (take result rows.now.sets) }
        ensures count { self.new.short ≡ false → result ≡ count }
        ensures within { result ≤ length rows.now.sets }
    {
        if count == rows.len() {
            self.outlet.write_next(rows);
            return count;
        }
        match front(self.alloc, rows, count) {
            Ok(first) => {
                self.outlet.write_next(&first);
                count
            }
            Err(_) => {
                self.short = true;
                0
            }
        }
    }

    // Writes of the answers that come next as many as may be. It says how many were to be written.
    fn write_some(&mut self, rows: &Rows) -> usize
        requires atoms { rows.now.atoms ≡ atoms_of self.old.outlet.listing.program }
        requires front { IsPrefix ((heard_of self.old.outlet.listing.all self.old.outlet.listing.sets self.old.left) ++ rows.now.sets) self.old.outlet.listing.all }
        requires room { length (heard_of self.old.outlet.listing.all self.old.outlet.listing.sets self.old.left) + length rows.now.sets + 1 < 2 ^ 64 }
        ensures same { self.new.outlet.sink.ghost_name ≡ self.old.outlet.sink.ghost_name }
        ensures program { self.new.outlet.listing.program ≡ self.old.outlet.listing.program }
        ensures all { self.new.outlet.listing.all ≡ self.old.outlet.listing.all }
        ensures limit { (self.new.models ≡ self.old.models) × (self.new.left ≡ self.old.left) }
        ensures hears { Hears self.old.outlet.listing.program
            (moment self.old.outlet.listing.sets (K.held self.old.outlet.sink.now) (K.faults self.old.outlet.sink.now) self.old.outlet.failed)
            (moment self.new.outlet.listing.sets (K.held self.new.outlet.sink.now) (K.faults self.new.outlet.sink.now) self.new.outlet.failed)
            (take result rows.now.sets) }
        ensures within { result ≤ length rows.now.sets }
        ensures order { (self.old.left ≡ 0) ⊎ (result ≡ 0) }
        ensures cut { IsLimitedTo self.old.models self.old.outlet.listing.sets self.old.left self.old.short
            → IsLimitedTo self.old.models (self.old.outlet.listing.sets ++ take result rows.now.sets) (self.old.left + (length rows.now.sets - result)) self.new.short }
    {
        if self.short || self.left != 0 {
            return 0;
        }
        let count = self.room().min(rows.len());
        self.write_front(rows, count)
    }

    /// Hears the answers that come next in the list, and writes of them as many as may be. It says whether more is wanted.
    pub fn hear_next(&mut self, rows: &Rows) -> bool
        requires atoms { rows.now.atoms ≡ atoms_of self.old.outlet.listing.program }
        requires front { IsPrefix ((heard_of self.old.outlet.listing.all self.old.outlet.listing.sets self.old.left) ++ rows.now.sets) self.old.outlet.listing.all }
        requires room { length (heard_of self.old.outlet.listing.all self.old.outlet.listing.sets self.old.left) + length rows.now.sets + 1 < 2 ^ 64 }
        ensures same { self.new.outlet.sink.ghost_name ≡ self.old.outlet.sink.ghost_name }
        ensures program { self.new.outlet.listing.program ≡ self.old.outlet.listing.program }
        ensures all { self.new.outlet.listing.all ≡ self.old.outlet.listing.all }
        ensures models { self.new.models ≡ self.old.models }
        ensures hears { IsAfter self.old.outlet.listing.program
            (moment self.old.outlet.listing.sets (K.held self.old.outlet.sink.now) (K.faults self.old.outlet.sink.now) self.old.outlet.failed)
            (moment self.new.outlet.listing.sets (K.held self.new.outlet.sink.now) (K.faults self.new.outlet.sink.now) self.new.outlet.failed) }
        ensures heard { heard_of self.new.outlet.listing.all self.new.outlet.listing.sets self.new.left ≡ (heard_of self.old.outlet.listing.all self.old.outlet.listing.sets self.old.left) ++ rows.now.sets }
        ensures limited { IsLimitedTo self.old.models self.old.outlet.listing.sets self.old.left self.old.short
            → IsLimitedTo self.new.models self.new.outlet.listing.sets self.new.left self.new.short }
        ensures wanted { result ≡ wants self.new.models self.new.outlet.listing.sets self.new.outlet.failed self.new.short }
    {
        let left = self.left;
        let written = self.write_some(rows);
        self.left = left + (rows.len() - written);
        self.wants_more()
    }

    /// Whether more is wanted: no write has failed, memory has sufficed, and fewer were written than the limit says.
    pub fn wants_more(&self) -> bool
        ensures { result ≡ wants self.now.models self.now.outlet.listing.sets self.now.outlet.failed self.now.short }
    {
        !self.outlet.failed && !self.short && self.room() != 0
    }
}

impl<K: Sink> Reader for LimitedOutlet<'_, K> {
    ghost use Rattle.std.proofs.Common.{◌≡◌, ◌∙◌, ◌++◌, refl, subst};
    ghost use Rattle.asp_model.specs.declared.program.Program.{Program};
    ghost use Rattle.asp_outlet.specs.Hearing.{hears_nothing, hears_then};
    ghost use Rattle.asp_outlet.specs.Outlets.{Hears, IsAfter, moment};
    ghost use Rattle.asp_limit.specs.Limits.{IsLimitedTo, heard_of, wants};

    ghost program = { λ o. o.outlet.listing.program };

    ghost all = { λ o. o.outlet.listing.all };

    ghost heard = { λ o. heard_of o.outlet.listing.all o.outlet.listing.sets o.left };

    ghost wants = { λ o. wants o.models o.outlet.listing.sets o.outlet.failed o.short };

    ghost IsAfter = { λ o q. (q.outlet.sink.ghost_name ≡ o.outlet.sink.ghost_name) × (q.outlet.listing.program ≡ o.outlet.listing.program) × (q.models ≡ o.models)
        × IsAfter o.outlet.listing.program
        (moment o.outlet.listing.sets (K.held o.outlet.sink.now) (K.faults o.outlet.sink.now) o.outlet.failed)
        (moment q.outlet.listing.sets (K.held q.outlet.sink.now) (K.faults q.outlet.sink.now) q.outlet.failed)
        × (IsLimitedTo o.models o.outlet.listing.sets o.left o.short
        → IsLimitedTo q.models q.outlet.listing.sets q.left q.short) };

    fn hear(&mut self, rows: &Rows) -> bool {
        self.hear_next(rows)
    }

    ghost begins = { λ o. (refl, refl, refl, ([], hears_nothing o.outlet.listing.program (moment o.outlet.listing.sets (K.held o.outlet.sink.now) (K.faults o.outlet.sink.now) o.outlet.failed)), λ h. h) };

    ghost goes_on = { λ u v w a b.
        let p = moment u.outlet.listing.sets (K.held u.outlet.sink.now) (K.faults u.outlet.sink.now) u.outlet.failed in
        let q = moment v.outlet.listing.sets (K.held v.outlet.sink.now) (K.faults v.outlet.sink.now) v.outlet.failed in
        let r = moment w.outlet.listing.sets (K.held w.outlet.sink.now) (K.faults w.outlet.sink.now) w.outlet.failed in (
          b.0 ∙ a.0,
          b.1 ∙ a.1,
          b.2 ∙ a.2,
          (a.3.0 ++ b.3.0, hears_then u.outlet.listing.program p q r a.3.0 b.3.0 a.3.1 (subst (λ (o : Program). Hears o q r b.3.0) a.1 b.3.1)),
          λ h. b.4 (a.4 h),
        ) };
}
