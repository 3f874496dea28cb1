//! When a body holds by literals that are founded.
ghost use Rattle.std.specs.Prelude.{◌≡◌, ◌<◌, pos, Some, All, int_le, length, ◌≤ℤ◌};
ghost use Rattle.std.specs.List.{list_all};
ghost use Rattle.asp_model.specs.Models.{atoms_of};
ghost use Rattle.asp_vars.specs.Numbering.{bodies_of, nth_body};
ghost use Rattle.asp_vars.specs.Tabled.{bound_of};
ghost use Rattle.asp_loop.specs.Weighing.{weigh};
ghost use Rattle.asp_stable.specs.Holding.{is_held, body_held};

use asp_loop::weighing::{take_weight, weight_at};
use asp_vars::assign::Assign;
use asp_vars::compiled::Compiled;
use asp_vars::lit::Lit;

/// Whether a literal holds, and is marked if it is positive.
pub(crate) fn is_held(assign: &Assign, marks: &[bool], lit: Lit) -> bool
    requires assign { lit.var < length assign.now }
    requires marks { lit.var < length marks.now }
    ensures { result ≡ is_held assign.now marks.now lit }
{
    assign.holds(lit) && (!lit.truth() || marks[lit.var() as usize])
}

fn all_held(assign: &Assign, marks: &[bool], lits: &[Lit]) -> bool
    requires assign { All (λ l. l.var < length assign.now) lits.now }
    requires marks { All (λ l. l.var < length marks.now) lits.now }
    ensures { result ≡ list_all (is_held assign.now marks.now) lits.now }
{
    for lit in lits {
        if !is_held(assign, marks, *lit) {
            return false;
        }
    }
    true
}

// Whether the weights of the literals that hold so reach the bound.
fn reaches(assign: &Assign, marks: &[bool], lits: &[Lit], weights: &[i64], bound: i32) -> bool
    requires assign { All (λ l. l.var < length assign.now) lits.now }
    requires marks { All (λ l. l.var < length marks.now) lits.now }
    requires places { length weights.now ≡ length lits.now }
    requires weights { All (λ w. pos 0 ≤ℤ w) weights.now }
    ensures { result ≡ int_le bound (weigh (is_held assign.now marks.now) lits.now weights.now) }
{
    if bound <= 0 {
        return true;
    }
    let mut left = bound as u64;
    for i in 0..lits.len() {
        let counts = is_held(assign, marks, lits[i]);
        match take_weight(left, weight_at(weights, i), counts) {
            Some(rest) => left = rest,
            None => return true,
        }
    }
    false
}

fn weights_hold(
    compiled: &Compiled,
    assign: &Assign,
    marks: &[bool],
    body: usize,
    bound: i32,
) -> bool
    requires body { body < length (bodies_of compiled.now) }
    requires assign { length (atoms_of compiled.now) < length assign.now }
    requires marks { length (atoms_of compiled.now) < length marks.now }
    requires weighted { bound_of (nth_body compiled.now body) ≡ Some bound }
    ensures { result ≡ body_held compiled.now assign.now marks.now (nth_body compiled.now body) }
{
    let _program = compiled.program();
    let lits = compiled.literals(body);
    reaches(assign, marks, lits, compiled.weights(body), bound)
}

/// Whether a body holds by literals that hold so.
pub(crate) fn holds(compiled: &Compiled, assign: &Assign, marks: &[bool], body: usize) -> bool
    requires body { body < length (bodies_of compiled.now) }
    requires assign { length (atoms_of compiled.now) < length assign.now }
    requires marks { length (atoms_of compiled.now) < length marks.now }
    ensures { result ≡ body_held compiled.now assign.now marks.now (nth_body compiled.now body) }
{
    match compiled.bound(body) {
        Some(bound) => weights_hold(compiled, assign, marks, body, bound),
        None => all_held(assign, marks, compiled.literals(body)),
    }
}
