//! Unit propagation by hints: each value was seen to be forced before it is set.
ghost use Rattle.std.specs.Prelude.{◌≡◌, ◌+◌, ◌<◌, ◌≤◌, List, Some, None, true, map, IfOk, OnOk, length, slice_set};
ghost use Rattle.std.specs.List.{AllByRecursion, list_any};
ghost use Rattle.asp_vars.specs.Literals.{Literal, value_of};
ghost use Rattle.asp_vars.specs.Numbering.{bodies_of, var_count};
ghost use Rattle.asp_checker.specs.Propagation.{Known, is_broken};
ghost use Rattle.asp_checker.specs.Lines.{AreOf, nogood_of_answer, stock, all_of};
ghost use Rattle.asp_checker.specs.Looks.{IsSeen};
ghost use Rattle.asp_checker.specs.Sweeps.{IsNogoodOf, AreNogoodsOf};
ghost use Rattle.asp_checker.specs.Blocks.{is_blocked, HasLevels, known_by, known_with, cost_of_bound, Extends, AreRefuted};
ghost use Rattle.asp_checker.specs.Chasing.{IsFoundBy, IsTrailedAlike, trail_with};

use crate::answers::look_at_answer;
use crate::bounds::{Bound, reaches_bound};
use crate::hints::Hint;
use crate::nogoods::{Look, look_at};
use crate::set_list::SetSlice;
use crate::watches::Watches;
use crate::weights::is_broken;
use asp_vars::assign::Assign;
use asp_vars::compiled::Compiled;
use asp_vars::lit::Lit;
use asp_vars::nogood::Lits;
use std::alloc::AllocError;

/// What a look came to.
#[derive(Clone, Copy)]
pub(crate) enum Found {
    /// The values are in conflict.
    Conflict,
    /// A value was implied, and set: this literal holds now.
    Implied(Lit),
    /// Nothing.
    Nothing,
}

// Sets the value that a nogood implies, by what was seen of it.
fn set_implied(compiled: &Compiled, look: Look, values: &mut Assign) -> Found
    requires size { length values.old ≡ var_count compiled.now + 1 }
    requires within { (l : Literal) → look ≡ Look.Unit l → l.var < length values.old }
    ensures { (k : Known) (n : List Literal) → IsNogoodOf compiled.now k n → IsSeen values.old n look → IsFoundBy compiled.now k values.old values.new result }
{
    match look {
        Look::Fixpoint => Found::Nothing,
        Look::Violated => Found::Conflict,
        Look::Unit(lit) => {
            let held = lit.complement();
            values.set(held);
            Found::Implied(held)
        }
    }
}

// Looks at the nogood at a place, if there is one, and sets the value that it implies.
fn look(compiled: &Compiled, rows: &[Lits], place: usize, values: &mut Assign) -> Found
    requires of { AllByRecursion (AreOf compiled.now) rows.now }
    requires size { length values.old ≡ var_count compiled.now + 1 }
    ensures { (k : Known) → AreNogoodsOf compiled.now k rows.now → IsFoundBy compiled.now k values.old values.new result }
{
    if place >= rows.len() {
        return Found::Nothing;
    }
    set_implied(compiled, look_at(rows[place].as_slice(), values), values)
}

// Looks at the nogood of the set found at a place, if there is one, and sets the value that it implies.
fn look_at_listed(
    compiled: &Compiled,
    listed: &SetSlice<'_>,
    place: usize,
    values: &mut Assign,
) -> Found
    requires { length values.old ≡ var_count compiled.now + 1 }
    ensures { (k : Known) → AreNogoodsOf compiled.now k (map (nogood_of_answer compiled.now) listed.now) → IsFoundBy compiled.now k values.old values.new result }
{
    if place >= listed.len() {
        return Found::Nothing;
    }
    set_implied(
        compiled,
        look_at_answer(compiled, listed, place, values),
        values,
    )
}

fn is_body_broken(compiled: &Compiled, values: &Assign, body: usize) -> bool
    requires { length values.now ≡ var_count compiled.now + 1 }
    ensures { result ≡ true → list_any (is_broken compiled.now values.now) (bodies_of compiled.now) ≡ true }
{
    if body >= compiled.body_count() {
        return false;
    }
    is_broken(compiled, values, body)
}

// Whether the weight body is seen to be broken, or without one the bound to be reached.
fn is_blocked_by(
    compiled: &Compiled,
    bound: &Option<Bound>,
    values: &Assign,
    by: Option<usize>,
) -> bool
    requires size { length values.now ≡ var_count compiled.now + 1 }
    requires levels { HasLevels compiled.now bound.now }
    ensures { result ≡ true → is_blocked compiled.now (cost_of_bound bound.now) values.now ≡ true }
{
    match by {
        Some(body) => is_body_broken(compiled, values, body),
        None => reaches_bound(compiled, bound, values),
    }
}

// The same with one value more, which is taken back.
fn would_be_blocked_by(
    compiled: &Compiled,
    bound: &Option<Bound>,
    values: &mut Assign,
    by: Option<usize>,
    lit: Lit,
) -> bool
    requires size { length values.old ≡ var_count compiled.now + 1 }
    requires levels { HasLevels compiled.now bound.now }
    requires of { lit.var ≤ var_count compiled.now }
    requires no_value { value_of values.old lit.var ≡ None }
    ensures same { values.new ≡ values.old }
    ensures blocked { result ≡ true → is_blocked compiled.now (cost_of_bound bound.now) (slice_set values.old lit.var (Some lit.truth)) ≡ true }
{
    values.set(lit);
    let blocked = is_blocked_by(compiled, bound, values, by);
    values.unset(lit.var());
    blocked
}

// Makes the literal hold, if its complement would break the weight body, or without one reach the bound.
fn force_open(
    compiled: &Compiled,
    bound: &Option<Bound>,
    values: &mut Assign,
    by: Option<usize>,
    lit: Lit,
) -> Found
    requires size { length values.old ≡ var_count compiled.now + 1 }
    requires levels { HasLevels compiled.now bound.now }
    requires positive { 0 < lit.var }
    requires of { lit.var ≤ var_count compiled.now }
    requires no_value { value_of values.old lit.var ≡ None }
    ensures { (rows : List (List Literal)) → IsFoundBy compiled.now (known_by rows bound.now) values.old values.new result }
{
    let _program = compiled.program();
    let blocked = would_be_blocked_by(compiled, bound, values, by, lit.complement());
    if !blocked {
        return Found::Nothing;
    }
    values.set(lit);
    Found::Implied(lit)
}

// The same of any literal. Where it has a value, it is seen whether there is a conflict as it is.
fn force(
    compiled: &Compiled,
    bound: &Option<Bound>,
    values: &mut Assign,
    by: Option<usize>,
    lit: Lit,
) -> Found
    requires size { length values.old ≡ var_count compiled.now + 1 }
    requires levels { HasLevels compiled.now bound.now }
    ensures { (rows : List (List Literal)) → IsFoundBy compiled.now (known_by rows bound.now) values.old values.new result }
{
    let var = lit.var();
    if var == 0 || var > compiled.vars() {
        return Found::Nothing;
    }
    match values.value(var) {
        Some(value) => {
            if value == lit.truth() {
                return Found::Nothing;
            }
            conflict_by(compiled, bound, values, by)
        }
        None => force_open(compiled, bound, values, by, lit),
    }
}

// Whether the weight body is broken, or without one the bound reached, as it is.
fn conflict_by(
    compiled: &Compiled,
    bound: &Option<Bound>,
    values: &Assign,
    by: Option<usize>,
) -> Found
    requires size { length values.now ≡ var_count compiled.now + 1 }
    requires levels { HasLevels compiled.now bound.now }
    ensures { (rows : List (List Literal)) → IsFoundBy compiled.now (known_by rows bound.now) values.now values.now result }
{
    let _program = compiled.program();
    if is_blocked_by(compiled, bound, values, by) {
        return Found::Conflict;
    }
    Found::Nothing
}

// Looks at what a hint names.
fn follow(
    compiled: &Compiled,
    listed: &SetSlice<'_>,
    rows: &[Lits],
    placed: &[Lits],
    bound: &Option<Bound>,
    values: &mut Assign,
    hint: &Hint,
) -> Found
    requires of { AllByRecursion (AreOf compiled.now) rows.now }
    requires placed { AllByRecursion (AreOf compiled.now) placed.now }
    requires size { length values.old ≡ var_count compiled.now + 1 }
    requires levels { HasLevels compiled.now bound.now }
    ensures { IsFoundBy compiled.now (all_of (stock (known_with compiled.now listed.now rows.now bound.now) placed.now)) values.old values.new result }
{
    match hint {
        Hint::Nogood(place) => look(compiled, rows, *place, values),
        Hint::Placed(place) => look(compiled, placed, *place, values),
        Hint::Answer(place) => look_at_listed(compiled, listed, *place, values),
        Hint::Body(body, lit) => force(compiled, bound, values, Some(*body), *lit),
        Hint::Bound(lit) => force(compiled, bound, values, None, *lit),
    }
}

// A literal that came to hold is on the trail.
fn add(trail: &mut Vec<Lit>, found: Found) -> Result<(), AllocError>
    ensures { OnOk result (trail.new.items ≡ trail_with trail.old.items found) }
{
    match found {
        Found::Implied(lit) => {
            trail.push(lit)?;
            Ok(())
        }
        Found::Conflict => Ok(()),
        Found::Nothing => Ok(()),
    }
}

/// Adds values that unit propagation gives, as far as the hints lead, and says whether it came to a conflict. The trail
/// has the literals that came to hold.
pub(crate) fn chase(
    compiled: &Compiled,
    listed: &SetSlice<'_>,
    rows: &[Lits],
    placed: &[Lits],
    bound: &Option<Bound>,
    watches: &mut Watches,
    values: &mut Assign,
    trail: &mut Vec<Lit>,
) -> Result<bool, AllocError>
    requires of { AllByRecursion (AreOf compiled.now) rows.now }
    requires placed { AllByRecursion (AreOf compiled.now) placed.now }
    requires size { length values.old ≡ var_count compiled.now + 1 }
    requires levels { HasLevels compiled.now bound.now }
    ensures conflict { IfOk result (λ yes. yes ≡ true → AreRefuted compiled.now (all_of (stock (known_with compiled.now listed.now rows.now bound.now) placed.now)) values.old) }
    ensures extends { OnOk result (Extends compiled.now (all_of (stock (known_with compiled.now listed.now rows.now bound.now) placed.now)) values.old values.new) }
    ensures trailed { OnOk result (IsTrailedAlike values.old values.new trail.old.items trail.new.items) }
{
    'hints: for _ in 0..u64::MAX {
        let Some(hint) = watches.next(
            compiled,
            listed,
            rows,
            placed,
            bound,
            values,
            trail.as_slice(),
        )?
        else {
            return Ok(false);
        };
        let found = follow(compiled, listed, rows, placed, bound, values, &hint);
        if let Found::Conflict = found {
            watches.keep(hint);
            return Ok(true);
        }
        add(trail, found)?;
    }
    Ok(false)
}
