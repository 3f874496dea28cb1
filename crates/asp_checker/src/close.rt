//! Unit propagation, to its end.
ghost use Rattle.std.specs.Prelude.{◌≡◌, ◌+◌, ◌<◌, List, true, false, length};
ghost use Rattle.std.specs.List.{AllByRecursion};
ghost use Rattle.asp_vars.specs.Literals.{Literal};
ghost use Rattle.asp_vars.specs.Numbering.{var_count};
ghost use Rattle.asp_checker.specs.Propagation.{IsPropagated};
ghost use Rattle.asp_checker.specs.Lines.{AreOf, stock, all_of};
ghost use Rattle.asp_checker.specs.Blocks.{HasLevels, known_by, known_with, IsStep, IsFound, Extends, AreRefuted};

use crate::answers::sweep_known;
use crate::blocks::{implied, is_blocked};
use crate::bounds::Bound;
use crate::nogoods::Visit;
use crate::set_list::SetSlice;
use asp_vars::assign::Assign;
use asp_vars::compiled::Compiled;
use asp_vars::nogood::Lits;

// What the weight bodies and the bound say. It sets a value that they imply.
fn look_further(compiled: &Compiled, bound: &Option<Bound>, values: &mut Assign) -> Visit
    requires size { length values.old ≡ var_count compiled.now + 1 }
    requires levels { HasLevels compiled.now bound.now }
    ensures { (rows : List (List Literal)) → IsFound compiled.now (known_by rows bound.now) values.old values.new result }
{
    let _program = compiled.program();
    if is_blocked(compiled, bound, values) {
        return Visit::Conflict;
    }
    match implied(compiled, bound, values) {
        None => Visit::Fixpoint,
        Some(lit) => {
            values.set(lit);
            Visit::Implied
        }
    }
}

// Looks at all nogoods, and then at the weight bodies and the bound, and sets values that are implied.
fn step(
    compiled: &Compiled,
    listed: &SetSlice<'_>,
    rows: &[Lits],
    placed: &[Lits],
    bound: &Option<Bound>,
    values: &mut Assign,
) -> Visit
    requires of { AllByRecursion (AreOf compiled.now) rows.now }
    requires placed { AllByRecursion (AreOf compiled.now) placed.now }
    requires size { length values.old ≡ var_count compiled.now + 1 }
    requires levels { HasLevels compiled.now bound.now }
    ensures { IsStep compiled.now (all_of (stock (known_with compiled.now listed.now rows.now bound.now) placed.now)) values.old values.new result }
{
    match sweep_known(compiled, listed, rows, placed, values) {
        Visit::Conflict => Visit::Conflict,
        Visit::Implied => Visit::Implied,
        Visit::Fixpoint => look_further(compiled, bound, values),
    }
}

/// Adds the values that unit propagation gives, and says whether it leads to a conflict.
pub fn close(
    compiled: &Compiled,
    listed: &SetSlice<'_>,
    rows: &[Lits],
    placed: &[Lits],
    bound: &Option<Bound>,
    values: &mut Assign,
) -> bool
    requires of { AllByRecursion (AreOf compiled.now) rows.now }
    requires placed { AllByRecursion (AreOf compiled.now) placed.now }
    requires size { length values.old ≡ var_count compiled.now + 1 }
    requires levels { HasLevels compiled.now bound.now }
    ensures conflict { result ≡ true → AreRefuted compiled.now (all_of (stock (known_with compiled.now listed.now rows.now bound.now) placed.now)) values.old }
    ensures extends { result ≡ false → Extends compiled.now (all_of (stock (known_with compiled.now listed.now rows.now bound.now) placed.now)) values.old values.new }
    ensures propagated { result ≡ false → IsPropagated compiled.now (all_of (stock (known_with compiled.now listed.now rows.now bound.now) placed.now)) values.new }
{
    'steps: loop {
        match step(compiled, listed, rows, placed, bound, values) {
            Visit::Conflict => return true,
            Visit::Fixpoint => return false,
            Visit::Implied => {}
        }
    }
}
