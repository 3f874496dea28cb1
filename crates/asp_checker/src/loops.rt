//! Lines of loops: whether no rule can found a set of atoms from outside, where a nogood's literals hold.
ghost use Rattle.std.specs.Prelude.{◌≡◌, ◌<◌, ◌≤ℤ◌, ℕ, List, pos, Some, All, IfOk, IsTrue, int_le, length, map, false, true};
ghost use Rattle.std.specs.List.{list_any, list_all};
ghost use Rattle.asp_model.specs.Sets.{has, set_of};
ghost use Rattle.asp_model.specs.Models.{atoms_of, rules_in_force, head_atoms};
ghost use Rattle.asp_model.specs.Views.{head_seen};
ghost use Rattle.asp_vars.specs.Numbering.{bodies_of, nth_body, nth_rule, var_of_atom};
ghost use Rattle.asp_vars.specs.Tabled.{bound_of, form_literals, form_weights};
ghost use Rattle.asp_loop.specs.Weighing.{AreVarsOf, is_within, is_kept, weigh};
ghost use Rattle.asp_checker.specs.Lines.{is_answered, IsLoop};
ghost use Rattle.asp_checker.specs.Loops.{is_answered_rule, has_head};

use crate::lines::{are_atoms, stands};
use asp_member::weighing::{take_weight, weight_at};
use asp_model::interp::Interp;
use asp_model::program::Atom;
use asp_model::view::HeadView;
use asp_vars::compiled::Compiled;
use asp_vars::lit::Lit;
use std::alloc::{AllocError, Global};

// The variables of these atoms.
fn vars_of(alloc: Global, compiled: &Compiled, atoms: &[Atom]) -> Result<Interp, AllocError>
    requires { All (λ a. IsTrue (has (atoms_of compiled.now) a)) atoms.now }
    ensures { IfOk result (λ vars. vars ≡ set_of (map (var_of_atom compiled.now) atoms.now)) }
{
    let mut vars = Vec::with_capacity(alloc, atoms.len())?;
    for atom in atoms {
        vars.push(compiled.atom_var(*atom))?;
    }
    Ok(Interp::from_atoms(vars))
}

fn is_within(vars: &Interp, lit: Lit) -> bool
    ensures { result ≡ is_within vars.now lit }
{
    let truth = lit.truth();
    let stands = vars.has(lit.var());
    truth && stands
}

fn is_some_within(vars: &Interp, lits: &[Lit]) -> bool
    ensures { result ≡ list_any (is_within vars.now) lits.now }
{
    lits.iter().any(|lit| is_within(vars, *lit))
}

// Whether the literal still counts from outside of the set, where the nogood's literals hold.
fn is_kept(vars: &Interp, nogood: &[Lit], lit: Lit) -> bool
    ensures { result ≡ is_kept vars.now nogood.now lit }
{
    let within = is_within(vars, lit);
    let is_false = stands(nogood, lit.complement());
    !within && !is_false
}

// Whether the weights of the literals that count reach the bound.
fn reaches(vars: &Interp, nogood: &[Lit], lits: &[Lit], weights: &[i64], bound: i32) -> bool
    requires places { length weights.now ≡ length lits.now }
    requires weights { All (λ w. pos 0 ≤ℤ w) weights.now }
    ensures { result ≡ int_le bound (weigh (is_kept vars.now nogood.now) lits.now weights.now) }
{
    if bound <= 0 {
        return true;
    }
    let mut left = bound as u64;
    for i in 0..lits.len() {
        let counts = is_kept(vars, nogood, lits[i]);
        match take_weight(left, weight_at(weights, i), counts) {
            Some(rest) => left = rest,
            None => return true,
        }
    }
    false
}

// Whether a weight body is reached from outside of the set.
fn is_reached(compiled: &Compiled, vars: &Interp, nogood: &[Lit], body: usize, bound: i32) -> bool
    requires body { body < length (bodies_of compiled.now) }
    requires weighted { bound_of (nth_body compiled.now body) ≡ Some bound }
    ensures { result ≡ int_le bound (weigh (is_kept vars.now nogood.now) (form_literals compiled.now (nth_body compiled.now body)) (form_weights (nth_body compiled.now body))) }
{
    let _program = compiled.program();
    let lits = compiled.literals(body);
    let weights = compiled.weights(body);
    reaches(vars, nogood, lits, weights, bound)
}

// Whether the body is false, or can't hold from outside of the set.
fn is_answered(compiled: &Compiled, vars: &Interp, nogood: &[Lit], body: usize) -> bool
    requires { body < length (bodies_of compiled.now) }
    ensures { (set : List ℕ) → AreVarsOf compiled.now set vars.now → result ≡ is_answered compiled.now set nogood.now (nth_body compiled.now body) }
{
    let is_false = stands(nogood, compiled.body_lit(body).complement());
    if is_false {
        return true;
    }
    match compiled.bound(body) {
        Some(bound) => !is_reached(compiled, vars, nogood, body, bound),
        None => is_some_within(vars, compiled.literals(body)),
    }
}

fn is_some_inside(set: &Interp, head: HeadView<'_>) -> bool
    ensures { result ≡ list_any (has set.now) (head_atoms (head_seen head.entry)) }
{
    match head {
        HeadView::One(atom) => set.has(atom),
        HeadView::Choice(atoms) => atoms.iter().any(|atom| set.has(*atom)),
        HeadView::Never => false,
    }
}

fn is_answered_rule(
    compiled: &Compiled,
    set: &Interp,
    vars: &Interp,
    nogood: &[Lit],
    rule: usize,
) -> bool
    requires rule { rule < length (rules_in_force compiled.now) }
    requires vars { AreVarsOf compiled.now set.now vars.now }
    ensures { result ≡ is_answered_rule compiled.now set.now nogood.now (nth_rule compiled.now rule) }
{
    let inside = is_some_inside(set, compiled.rule(rule).head);
    if !inside {
        return true;
    }
    is_answered(compiled, vars, nogood, compiled.rule_body(rule))
}

fn are_answered(compiled: &Compiled, set: &Interp, vars: &Interp, nogood: &[Lit]) -> bool
    requires { AreVarsOf compiled.now set.now vars.now }
    ensures { result ≡ list_all (is_answered_rule compiled.now set.now nogood.now) (rules_in_force compiled.now) }
{
    for rule in 0..compiled.rule_count() {
        if !is_answered_rule(compiled, set, vars, nogood, rule) {
            return false;
        }
    }
    true
}

// Whether the nogood says of an atom that it is true.
fn has_head(compiled: &Compiled, atoms: &[Atom], nogood: &[Lit]) -> bool
    requires { All (λ a. IsTrue (has (atoms_of compiled.now) a)) atoms.now }
    ensures { result ≡ list_any (has_head compiled.now nogood.now) atoms.now }
{
    for atom in atoms {
        if stands(nogood, Lit::new(compiled.atom_var(*atom), true)) {
            return true;
        }
    }
    false
}

/// Whether the set and the nogood are those of a loop, where the program has the set's atoms. It looks at each rule.
pub fn is_loop(
    alloc: Global,
    compiled: &Compiled,
    set: &Interp,
    nogood: &[Lit],
) -> Result<bool, AllocError>
    requires { list_all (has (atoms_of compiled.now)) set.now ≡ true }
    ensures yes { IfOk result (λ yes. yes ≡ true → IsLoop compiled.now set.now nogood.now) }
    ensures no { IfOk result (λ yes. yes ≡ false → IsLoop compiled.now set.now nogood.now → ⊥) }
{
    let atoms = set.as_slice();
    let headed = has_head(compiled, atoms, nogood);
    if !headed {
        return Ok(false);
    }
    let vars = vars_of(alloc, compiled, atoms)?;
    let answered = are_answered(compiled, set, &vars, nogood);
    Ok(answered)
}
