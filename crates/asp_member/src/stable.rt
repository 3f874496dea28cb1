//! Whether a set is stable.
//!
//! The atoms outside of the set are false, and those of it get the value true when a body that holds derives them. Then
//! positive literals are read in what is derived, and negative ones in the set. Where all atoms get a value so, what is left
//! is to see that each rule is kept; where some don't and no body derives more, the set isn't stable. `order` says which
//! body to look at next. Should it have left some out, the definition itself decides.
ghost use Rattle.std.specs.Prelude.{◌≡◌, ◌+◌, ◌^◌, ◌<◌, true, false, not, is_none, Some, All, IfOk, if◌then◌else◌, slice_set, length};
ghost use Rattle.std.specs.List.{list_all};
ghost use Rattle.asp_model.specs.Sets.{has};
ghost use Rattle.asp_model.specs.Views.{head_seen};
ghost use Rattle.asp_model.specs.Models.{atoms_of, is_stable, rules_in_force};
ghost use Rattle.asp_vars.specs.Literals.{holds_in, value_of};
ghost use Rattle.asp_vars.specs.Numbering.{bodies_of, nth_body, nth_rule, var_count};
ghost use Rattle.asp_vars.specs.Tabled.{bound_of};
ghost use Rattle.asp_found.specs.Verdicts.{is_kept};
ghost use Rattle.asp_member.specs.Founding.{passes, AreFounded, Derives, Founds, AreWhole, is_done, keeps};

use crate::merge::{skip, stands_at};
use crate::order::order;
use crate::weighing::reaches;
use asp_model::interp::Interp;
use asp_model::stable::stable_plain;
use asp_model::view::HeadView;
use asp_vars::assign::Assign;
use asp_vars::compiled::Compiled;
use asp_vars::lit::{Lit, Var};
use std::alloc::{AllocError, Global};

// ---- the values

// Makes the variable false, unless its atom is in the set.
fn exclude(values: &mut Assign, var: Var, is_inside: bool)
    requires var { var < 2 ^ 31 }
    requires within { var < length values.old }
    ensures { values.new ≡ (if is_inside then values.old else slice_set values.old var (Some false)) }
{
    if !is_inside {
        values.set(Lit::new(var, false));
    }
}

/// The values by which the atoms outside of the set are false, and no other. Fails only where memory ends.
pub fn outside(alloc: Global, compiled: &Compiled, set: &Interp) -> Result<Assign, AllocError>
    ensures size { IfOk result (λ x. length x ≡ var_count compiled.now + 1) }
    ensures founded { IfOk result (λ x. AreFounded compiled.now set.now x) }
{
    let mut values = Assign::new(alloc, compiled.vars())?;
    let atoms = compiled.atoms().as_slice();
    let inside = set.as_slice();
    let mut place = 0;
    for i in 0..compiled.atom_count() {
        place = skip(inside, place, atoms[i]);
        exclude(
            &mut values,
            i as u32 + 1,
            stands_at(inside, place, atoms[i]),
        );
    }
    Ok(values)
}

// Makes an atom true that has no value.
fn derive(values: &mut Assign, var: Var)
    requires var { var < 2 ^ 31 }
    requires within { var < length values.old }
    ensures { values.new ≡ (if is_none (value_of values.old var) then slice_set values.old var (Some true) else values.old) }
{
    if values.value(var).is_none() {
        values.set(Lit::new(var, true));
    }
}

/// Makes the variables true that have no value, one after another.
pub fn derive_all(values: &mut Assign, heads: &[Var])
    requires { All (λ v. (v < 2 ^ 31) × (v < length values.old)) heads.now }
    ensures { Derives heads.now values.old values.new }
{
    for var in heads {
        derive(values, *var);
    }
}

// ---- bodies

fn all_hold(values: &Assign, lits: &[Lit]) -> bool
    requires { All (λ l. l.var < length values.now) lits.now }
    ensures { result ≡ list_all (holds_in values.now) lits.now }
{
    for lit in lits {
        if !values.holds(*lit) {
            return false;
        }
    }
    true
}

fn is_reached(compiled: &Compiled, values: &Assign, body: usize, bound: i32) -> bool
    requires body { body < length (bodies_of compiled.now) }
    requires size { length values.now ≡ var_count compiled.now + 1 }
    requires weighted { bound_of (nth_body compiled.now body) ≡ Some bound }
    ensures { result ≡ passes compiled.now (holds_in values.now) (nth_body compiled.now body) }
{
    let _program = compiled.program();
    let lits = compiled.literals(body);
    let weights = compiled.weights(body);
    reaches(values, false, lits, weights, bound)
}

/// Whether the body holds by the values.
pub fn holds(compiled: &Compiled, values: &Assign, body: usize) -> bool
    requires body { body < length (bodies_of compiled.now) }
    requires size { length values.now ≡ var_count compiled.now + 1 }
    ensures { result ≡ passes compiled.now (holds_in values.now) (nth_body compiled.now body) }
{
    match compiled.bound(body) {
        Some(bound) => is_reached(compiled, values, body, bound),
        None => all_hold(values, compiled.literals(body)),
    }
}

// Derives the heads of a body, if it holds.
fn look(compiled: &Compiled, values: &mut Assign, body: usize)
    requires { length values.old ≡ var_count compiled.now + 1 }
    ensures { Founds compiled.now values.old values.new }
{
    let _program = compiled.program();
    if body >= compiled.body_count() {
        return;
    }
    let held = holds(compiled, values, body);
    if !held {
        return;
    }
    derive_all(values, compiled.heads(body));
}

fn look_at_all(compiled: &Compiled, values: &mut Assign, bodies: &[usize])
    requires { length values.old ≡ var_count compiled.now + 1 }
    ensures { Founds compiled.now values.old values.new }
{
    for body in bodies {
        look(compiled, values, *body);
    }
}

// ---- the end

/// Whether all atoms have values.
pub fn is_whole(compiled: &Compiled, values: &Assign) -> bool
    requires { length values.now ≡ var_count compiled.now + 1 }
    ensures yes { result ≡ true → AreWhole values.now (length (atoms_of compiled.now)) }
    ensures no { result ≡ false → AreWhole values.now (length (atoms_of compiled.now)) → ⊥ }
{
    for i in 0..compiled.atom_count() {
        if values.value(i as u32 + 1).is_none() {
            return false;
        }
    }
    true
}

/// Whether each of the variables has a value.
pub fn have_values(values: &Assign, heads: &[Var]) -> bool
    requires { All (λ v. v < length values.now) heads.now }
    ensures { result ≡ list_all (λ v. not (is_none (value_of values.now v))) heads.now }
{
    for var in heads {
        if values.value(*var).is_none() {
            return false;
        }
    }
    true
}

// Whether the body doesn't hold, or all of its heads have values.
fn is_done(compiled: &Compiled, values: &Assign, body: usize) -> bool
    requires body { body < length (bodies_of compiled.now) }
    requires size { length values.now ≡ var_count compiled.now + 1 }
    ensures { result ≡ is_done compiled.now values.now (nth_body compiled.now body) }
{
    if !holds(compiled, values, body) {
        return true;
    }
    have_values(values, compiled.heads(body))
}

// Whether no body derives more.
fn is_closed(compiled: &Compiled, values: &Assign) -> bool
    requires { length values.now ≡ var_count compiled.now + 1 }
    ensures { result ≡ list_all (is_done compiled.now values.now) (bodies_of compiled.now) }
{
    for body in 0..compiled.body_count() {
        if !is_done(compiled, values, body) {
            return false;
        }
    }
    true
}

fn is_kept(set: &Interp, head: HeadView<'_>) -> bool
    ensures { result ≡ is_kept set.now (head_seen head.entry) }
{
    match head {
        HeadView::One(atom) => set.has(atom),
        HeadView::Choice(_) => true,
        HeadView::Never => false,
    }
}

// Whether the rule's body doesn't hold, or its head is as it must be.
fn keeps(compiled: &Compiled, set: &Interp, values: &Assign, rule: usize) -> bool
    requires rule { rule < length (rules_in_force compiled.now) }
    requires size { length values.now ≡ var_count compiled.now + 1 }
    ensures { result ≡ keeps compiled.now set.now values.now (nth_rule compiled.now rule) }
{
    if !holds(compiled, values, compiled.rule_body(rule)) {
        return true;
    }
    is_kept(set, compiled.rule(rule).head)
}

fn are_kept(compiled: &Compiled, set: &Interp, values: &Assign) -> bool
    requires { length values.now ≡ var_count compiled.now + 1 }
    ensures { result ≡ list_all (keeps compiled.now set.now values.now) (rules_in_force compiled.now) }
{
    for rule in 0..compiled.rule_count() {
        if !keeps(compiled, set, values, rule) {
            return false;
        }
    }
    true
}

/// Whether a set of the program's atoms is stable. Where it isn't, this is linear in the program too, unless `order` left a
/// body out.
pub fn is_stable(alloc: Global, compiled: &Compiled, set: &Interp) -> Result<bool, AllocError>
    requires { list_all (has (atoms_of compiled.now)) set.now ≡ true }
    ensures { IfOk result (λ stable. stable ≡ is_stable compiled.now set.now) }
{
    let program = compiled.program();
    let _atoms = set.as_slice();
    let mut values = outside(alloc, compiled, set)?;
    let bodies = order(alloc, compiled, &values)?;
    look_at_all(compiled, &mut values, bodies.as_slice());
    if is_whole(compiled, &values) {
        return Ok(are_kept(compiled, set, &values));
    }
    if is_closed(compiled, &values) {
        return Ok(false);
    }
    stable_plain(alloc, program, set)
}
