//! Whether unit propagation from a line's literals leads to a conflict.
ghost use Rattle.std.specs.Prelude.{◌≡◌, ◌+◌, ◌<◌, true, false, All, IfOk, OnOk, length};
ghost use Rattle.std.specs.List.{AllByRecursion};
ghost use Rattle.asp_vars.specs.Numbering.{var_count};
ghost use Rattle.asp_checker.specs.Propagation.{LeadsToConflict};
ghost use Rattle.asp_checker.specs.Lines.{AreOf, stock, all_of};
ghost use Rattle.asp_checker.specs.Rows.{known_before, stock_before};
ghost use Rattle.asp_checker.specs.Blocks.{HasLevels, known_with};
ghost use Rattle.asp_checker.specs.Assuming.{IsAssumed, AreAssumed};
ghost use Rattle.asp_checker.specs.Steps.{Follow};
ghost use Rattle.asp_checker.specs.Chasing.{IsRoot, IsTrailedAlike};

use crate::bounds::Bound;
use crate::chase::chase;
use crate::close::close;
use crate::root::{copied, undo};
use crate::rows::Before;
use crate::set_list::SetSlice;
use crate::watches::Watches;
use asp_vars::assign::Assign;
use asp_vars::compiled::Compiled;
use asp_vars::lit::Lit;
use asp_vars::nogood::Lits;
use std::alloc::{AllocError, Global};

// Makes a literal hold, unless it fails.
fn assume(values: &mut Assign, trail: &mut Vec<Lit>, lit: Lit) -> Result<bool, AllocError>
    requires { lit.var < length values.old }
    ensures assumed { IfOk result (IsAssumed values.old values.new lit) }
    ensures trailed { OnOk result (IsTrailedAlike values.old values.new trail.old.items trail.new.items) }
{
    if values.holds(lit.complement()) {
        return Ok(false);
    }
    let held = values.holds(lit);
    values.set(lit);
    if held {
        return Ok(true);
    }
    trail.push(lit)?;
    Ok(true)
}

// Makes all of the literals hold, unless two of them are contrary. The trail has those that didn't hold.
fn assume_all(values: &mut Assign, trail: &mut Vec<Lit>, lits: &[Lit]) -> Result<bool, AllocError>
    requires { All (λ l. l.var < length values.old) lits.now }
    ensures assumed { IfOk result (AreAssumed values.old values.new lits.now lits.now) }
    ensures trailed { OnOk result (IsTrailedAlike values.old values.new trail.old.items trail.new.items) }
{
    for lit in lits {
        let assumed = assume(values, trail, *lit)?;
        if !assumed {
            return Ok(false);
        }
    }
    Ok(true)
}

// Whether unit propagation from the literals leads to a conflict, by looks at all that is known. The values follow from
// the literals.
fn confirms_plainly(
    alloc: Global,
    compiled: &Compiled,
    listed: &SetSlice<'_>,
    rows: &[Lits],
    placed: &[Lits],
    bound: &Option<Bound>,
    known: &Assign,
    lits: &[Lit],
) -> Result<bool, AllocError>
    requires rows { AllByRecursion (AreOf compiled.now) rows.now }
    requires placed { AllByRecursion (AreOf compiled.now) placed.now }
    requires lits { AreOf compiled.now lits.now }
    requires levels { HasLevels compiled.now bound.now }
    requires size { length known.now ≡ var_count compiled.now + 1 }
    requires follow { Follow compiled.now (all_of (stock (known_with compiled.now listed.now rows.now bound.now) placed.now)) lits.now known.now }
    ensures yes { IfOk result (λ yes. yes ≡ true → LeadsToConflict compiled.now (all_of (stock (known_with compiled.now listed.now rows.now bound.now) placed.now)) lits.now) }
    ensures no { IfOk result (λ yes. yes ≡ false → LeadsToConflict compiled.now (all_of (stock (known_with compiled.now listed.now rows.now bound.now) placed.now)) lits.now → ⊥) }
{
    let _program = compiled.program();
    let mut values = copied(alloc, compiled, known)?;
    let mut trail = Vec::new(alloc);
    let assumed = assume_all(&mut values, &mut trail, lits)?;
    if !assumed {
        return Ok(true);
    }
    Ok(close(compiled, listed, rows, placed, bound, &mut values))
}

// Whether unit propagation from the literals leads to a conflict. What it adds to the values is on the trail.
fn confirms_by(
    compiled: &Compiled,
    known: &Before<'_>,
    watches: &mut Watches,
    values: &mut Assign,
    trail: &mut Vec<Lit>,
    lits: &[Lit],
    names: &[u32],
) -> Result<bool, AllocError>
    requires kept { AllByRecursion (AreOf compiled.now) known.now.kept.now }
    requires placed { AllByRecursion (AreOf compiled.now) known.now.placed.now }
    requires lits { AreOf compiled.now lits.now }
    requires levels { HasLevels compiled.now known.now.bound.now }
    requires root { IsRoot compiled.now (all_of (stock_before compiled.now known.now)) values.old }
    ensures yes { IfOk result (λ yes. yes ≡ true → LeadsToConflict compiled.now (all_of (stock_before compiled.now known.now)) lits.now) }
    ensures no { IfOk result (λ yes. yes ≡ false → LeadsToConflict compiled.now (all_of (stock_before compiled.now known.now)) lits.now → ⊥) }
    ensures trailed { OnOk result (IsTrailedAlike values.old values.new trail.old.items trail.new.items) }
{
    let alloc = watches.allocator();
    let _program = compiled.program();
    watches.restart(values, compiled.vars(), known.kept)?;
    watches.look_deeper();
    watches.name(names)?;
    let assumed = assume_all(values, trail, lits)?;
    if !assumed {
        return Ok(true);
    }
    let refuted = chase(
        compiled,
        known.listed,
        known.kept,
        known.placed,
        known.bound,
        watches,
        values,
        trail,
    )?;
    if refuted {
        return Ok(true);
    }
    let confirmed = confirms_plainly(
        alloc,
        compiled,
        known.listed,
        known.kept,
        known.placed,
        known.bound,
        values,
        lits,
    )?;
    Ok(confirmed)
}

/// Whether unit propagation from the literals leads to a conflict, where these nogoods and this bound are known. The values
/// follow from what is known for good, and are left so. Where the hints lead to no conflict, all that is known is looked at.
pub fn confirms(
    alloc: Global,
    compiled: &Compiled,
    known: &Before<'_>,
    watches: &mut Watches,
    values: &mut Assign,
    lits: &[Lit],
    names: &[u32],
) -> Result<bool, AllocError>
    requires kept { AllByRecursion (AreOf compiled.now) known.now.kept.now }
    requires placed { AllByRecursion (AreOf compiled.now) known.now.placed.now }
    requires lits { AreOf compiled.now lits.now }
    requires levels { HasLevels compiled.now known.now.bound.now }
    requires root { IsRoot compiled.now (known_before compiled.now known.now) values.old }
    ensures yes { IfOk result (λ yes. yes ≡ true → LeadsToConflict compiled.now (all_of (stock_before compiled.now known.now)) lits.now) }
    ensures no { IfOk result (λ yes. yes ≡ false → LeadsToConflict compiled.now (all_of (stock_before compiled.now known.now)) lits.now → ⊥) }
    ensures root { OnOk result (IsRoot compiled.now (known_before compiled.now known.now) values.new) }
{
    let mut trail = Vec::new(alloc);
    let confirmed = confirms_by(compiled, known, watches, values, &mut trail, lits, names)?;
    undo(values, compiled.vars(), trail.as_slice());
    Ok(confirmed)
}
