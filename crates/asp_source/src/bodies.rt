//! Whether a body founds its heads from outside of a set of atoms.
//!
//! The set is given by marks at the places of its atoms' variables.
ghost use Rattle.std.specs.Prelude.{◌≡◌, ◌+◌, ◌<◌, ◌≤ℤ◌, pos, Some, not, All, int_le, length};
ghost use Rattle.std.specs.List.{list_any};
ghost use Rattle.asp_model.specs.Models.{atoms_of};
ghost use Rattle.asp_vars.specs.Numbering.{bodies_of, nth_body, var_count};
ghost use Rattle.asp_vars.specs.Tabled.{bound_of, bodies_with, occurrences_of, IsAtomVar, IsLiteral};
ghost use Rattle.asp_vars.specs.Unfounded.{needs, is_excused};
ghost use Rattle.asp_loop.specs.Weighing.{weigh};
ghost use Rattle.asp_source.specs.Marks.{lit_inside, lit_outside, shown};

use crate::inside::Inside;
use asp_loop::weighing::{take_weight, weight_at};
use asp_vars::assign::Assign;
use asp_vars::compiled::Compiled;
use asp_vars::lit::Lit;
use asp_vars::occurrence::Occurrence;

fn is_inside<I: Inside>(set: &I, lit: Lit) -> bool
    requires { lit.var < I.limit set.now }
    ensures { result ≡ lit_inside (I.has_var set.now) lit }
{
    if !lit.truth() {
        return false;
    }
    set.is_inside(lit.var())
}

fn is_some_inside<I: Inside>(set: &I, lits: &[Lit]) -> bool
    requires { All (λ l. l.var < I.limit set.now) lits.now }
    ensures { result ≡ list_any (lit_inside (I.has_var set.now)) lits.now }
{
    for lit in lits {
        if is_inside(set, *lit) {
            return true;
        }
    }
    false
}

// Whether a literal counts from outside of the set.
fn counts<I: Inside>(values: &Assign, set: &I, lit: Lit) -> bool
    requires limit { lit.var < I.limit set.now }
    requires values { lit.var < length values.now }
    ensures { result ≡ lit_outside values.now (I.has_var set.now) lit }
{
    let inside = is_inside(set, lit);
    let is_false = values.holds(lit.complement());
    !inside && !is_false
}

// Whether the weights of the literals that count reach the bound.
fn reaches<I: Inside>(values: &Assign, set: &I, lits: &[Lit], weights: &[i64], bound: i32) -> bool
    requires limit { All (λ l. l.var < I.limit set.now) lits.now }
    requires values { All (λ l. l.var < length values.now) lits.now }
    requires places { length weights.now ≡ length lits.now }
    requires weights { All (λ w. pos 0 ≤ℤ w) weights.now }
    ensures { result ≡ int_le bound (weigh (lit_outside values.now (I.has_var set.now)) lits.now weights.now) }
{
    if bound <= 0 {
        return true;
    }
    let mut left = bound as u64;
    for i in 0..lits.len() {
        let counts = counts(values, set, lits[i]);
        match take_weight(left, weight_at(weights, i), counts) {
            Some(rest) => left = rest,
            None => return true,
        }
    }
    false
}

// Whether a weight body can hold from outside of the set.
fn is_reached<I: Inside>(
    compiled: &Compiled,
    values: &Assign,
    set: &I,
    body: usize,
    bound: i32,
) -> bool
    requires body { body < length (bodies_of compiled.now) }
    requires values { length values.now ≡ var_count compiled.now + 1 }
    requires limit { I.limit set.now ≡ length (atoms_of compiled.now) + 1 }
    requires weighted { bound_of (nth_body compiled.now body) ≡ Some bound }
    ensures { result ≡ not (needs compiled.now values.now (shown compiled.now (I.has_var set.now)) (nth_body compiled.now body)) }
{
    let _program = compiled.program();
    let lits = compiled.literals(body);
    reaches(values, set, lits, compiled.weights(body), bound)
}

// Whether a body can hold from outside of the set.
fn stands<I: Inside>(compiled: &Compiled, values: &Assign, set: &I, body: usize) -> bool
    requires body { body < length (bodies_of compiled.now) }
    requires values { length values.now ≡ var_count compiled.now + 1 }
    requires limit { I.limit set.now ≡ length (atoms_of compiled.now) + 1 }
    ensures { result ≡ not (needs compiled.now values.now (shown compiled.now (I.has_var set.now)) (nth_body compiled.now body)) }
{
    match compiled.bound(body) {
        Some(bound) => is_reached(compiled, values, set, body, bound),
        None => !is_some_inside(set, compiled.literals(body)),
    }
}

/// Whether a body isn't false and can hold from outside of the set.
pub fn is_firm<I: Inside>(compiled: &Compiled, values: &Assign, set: &I, body: usize) -> bool
    requires body { body < length (bodies_of compiled.now) }
    requires values { length values.now ≡ var_count compiled.now + 1 }
    requires limit { I.limit set.now ≡ length (atoms_of compiled.now) + 1 }
    ensures { result ≡ not (is_excused compiled.now values.now (shown compiled.now (I.has_var set.now)) (nth_body compiled.now body)) }
{
    let is_false = values.holds(compiled.body_lit(body).complement());
    if is_false {
        return false;
    }
    stands(compiled, values, set, body)
}

/// The bodies in which a literal of an atom's variable stands.
pub fn occurrences(compiled: &Compiled, lit: Lit) -> &[Occurrence]
    requires { IsAtomVar compiled.now lit.var }
    ensures occurrences { result.now ≡ occurrences_of compiled.now lit }
    ensures bodies { All (λ o. o.body < length (bodies_of compiled.now)) result.now }
{
    compiled.occurrences(lit)
}

/// The bodies of which a literal says that they hold.
pub fn bodies_with(compiled: &Compiled, lit: Lit) -> &[Occurrence]
    requires { IsLiteral compiled.now lit }
    ensures with { result.now ≡ bodies_with compiled.now lit }
    ensures bodies { All (λ o. o.body < length (bodies_of compiled.now)) result.now }
{
    compiled.bodies_with(lit)
}
