//! The values that follow from what is known alone. They are kept from line to line, and each line begins with them.
ghost use Rattle.std.specs.Prelude.{◌≡◌, ◌+◌, ◌^◌, ◌<◌, [], None, IfOk, OnOk, length};
ghost use Rattle.std.specs.List.{AllByRecursion};
ghost use Rattle.asp_vars.specs.Literals.{value_of};
ghost use Rattle.asp_vars.specs.Numbering.{var_count};
ghost use Rattle.asp_checker.specs.Lines.{AreOf};
ghost use Rattle.asp_checker.specs.Steps.{AreWithin};
ghost use Rattle.asp_checker.specs.Blocks.{HasLevels, known_with, Extends};
ghost use Rattle.asp_checker.specs.Chasing.{IsRoot, AreTakenBack};

use crate::bounds::Bound;
use crate::chase::chase;
use crate::set_list::SetSlice;
use crate::watches::Watches;
use asp_vars::assign::Assign;
use asp_vars::compiled::Compiled;
use asp_vars::lit::{Lit, Var};
use asp_vars::nogood::Lits;
use std::alloc::{AllocError, Global};

// Adds the values to which the hints lead. They are kept, and so is a conflict.
fn settle(
    alloc: Global,
    compiled: &Compiled,
    listed: &SetSlice<'_>,
    rows: &[Lits],
    bound: &Option<Bound>,
    watches: &mut Watches,
    values: &mut Assign,
) -> Result<(), AllocError>
    requires of { AllByRecursion (AreOf compiled.now) rows.now }
    requires size { length values.old ≡ var_count compiled.now + 1 }
    requires levels { HasLevels compiled.now bound.now }
    ensures { OnOk result (Extends compiled.now (known_with compiled.now listed.now rows.now bound.now) values.old values.new) }
{
    let mut trail = Vec::new(alloc);
    let refuted = chase(
        compiled,
        listed,
        rows,
        &[],
        bound,
        watches,
        values,
        &mut trail,
    )?;
    watches.stick(refuted);
    Ok(())
}

/// The values that follow from the nogoods that are known before the first line.
pub(crate) fn first_root(
    alloc: Global,
    compiled: &Compiled,
    rows: &[Lits],
    watches: &mut Watches,
) -> Result<Assign, AllocError>
    requires { AllByRecursion (AreOf compiled.now) rows.now }
    ensures { IfOk result (IsRoot compiled.now (known_with compiled.now [] rows.now None)) }
{
    let mut values = Assign::new(alloc, compiled.vars())?;
    watches.add_all(&values, compiled.vars(), rows)?;
    let listed = SetSlice::none();
    settle(alloc, compiled, &listed, rows, &None, watches, &mut values)?;
    Ok(values)
}

/// Adds the values that follow now that the last nogood is known too.
pub(crate) fn learn(
    alloc: Global,
    compiled: &Compiled,
    listed: &SetSlice<'_>,
    rows: &[Lits],
    bound: &Option<Bound>,
    watches: &mut Watches,
    values: &mut Assign,
) -> Result<(), AllocError>
    requires of { AllByRecursion (AreOf compiled.now) rows.now }
    requires levels { HasLevels compiled.now bound.now }
    requires root { IsRoot compiled.now (known_with compiled.now listed.now rows.now bound.now) values.old }
    ensures { OnOk result (IsRoot compiled.now (known_with compiled.now listed.now rows.now bound.now) values.new) }
{
    watches.restart(values, compiled.vars(), rows)?;
    watches.add_last(values, compiled.vars(), rows)?;
    settle(alloc, compiled, listed, rows, bound, watches, values)?;
    Ok(())
}

/// Adds the values that follow now that a set was found, and the bound may be another.
pub(crate) fn learn_bound(
    alloc: Global,
    compiled: &Compiled,
    listed: &SetSlice<'_>,
    rows: &[Lits],
    bound: &Option<Bound>,
    watches: &mut Watches,
    values: &mut Assign,
) -> Result<(), AllocError>
    requires of { AllByRecursion (AreOf compiled.now) rows.now }
    requires levels { HasLevels compiled.now bound.now }
    requires root { IsRoot compiled.now (known_with compiled.now listed.now rows.now bound.now) values.old }
    ensures { OnOk result (IsRoot compiled.now (known_with compiled.now listed.now rows.now bound.now) values.new) }
{
    if bound.is_none() {
        return Ok(());
    }
    watches.restart(values, compiled.vars(), rows)?;
    settle(alloc, compiled, listed, rows, bound, watches, values)?;
    Ok(())
}

// Takes a variable's value away.
fn take_back(values: &mut Assign, vars: u32, var: Var)
    requires { length values.old ≡ vars + 1 }
    ensures size { length values.new ≡ length values.old }
    ensures within { AreWithin values.new values.old }
    ensures none { value_of values.new var ≡ None }
{
    if var > vars {
        return;
    }
    values.unset(var);
}

/// Takes the values of the trail's variables away.
pub(crate) fn undo(values: &mut Assign, vars: u32, trail: &[Lit])
    requires { length values.old ≡ vars + 1 }
    ensures size { length values.new ≡ length values.old }
    ensures within { AreWithin values.new values.old }
    ensures none { AreTakenBack values.new trail.now }
{
    for lit in trail {
        take_back(values, vars, lit.var());
    }
}

// Copies a variable's value.
fn copy_one(values: &mut Assign, known: &Assign, var: Var)
    requires within { var < length values.old }
    requires known { var < length known.now }
    requires few { var < 2 ^ 31 }
    requires copied { AreWithin values.old known.now }
    ensures size { length values.new ≡ length values.old }
    ensures copied { AreWithin values.new known.now }
{
    let Some(value) = known.value(var) else {
        return;
    };
    values.set(Lit::new(var, value));
}

/// Another list of these values.
pub(crate) fn copied(
    alloc: Global,
    compiled: &Compiled,
    known: &Assign,
) -> Result<Assign, AllocError>
    requires { length known.now ≡ var_count compiled.now + 1 }
    ensures size { IfOk result (λ x. length x ≡ var_count compiled.now + 1) }
    ensures copied { IfOk result (λ x. AreWithin x known.now) }
{
    let mut values = Assign::new(alloc, compiled.vars())?;
    for at in 0..compiled.vars() {
        copy_one(&mut values, known, at + 1);
    }
    Ok(values)
}
