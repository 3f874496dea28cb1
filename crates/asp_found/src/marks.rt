//! Sets of atoms as marks, at the places of their variables.
ghost use Rattle.std.specs.Prelude.{◌≡◌, ◌+◌, ◌<◌, ◌∷◌, ◌++◌, false, not, pos, Some, All, IfOk, int_le, length, map, filter};
ghost use Rattle.std.specs.Prelude.{◌≤ℤ◌, [], OnOk};
ghost use Rattle.std.specs.List.{list_all};
ghost use Rattle.asp_model.specs.Sets.{has};
ghost use Rattle.asp_model.specs.Models.{atoms_of};
ghost use Rattle.asp_vars.specs.Numbering.{bodies_of, nth_body};
ghost use Rattle.asp_vars.specs.Tabled.{bound_of};
ghost use Rattle.asp_loop.specs.Weighing.{weigh};
ghost use Rattle.asp_found.specs.Marks.{lit_between, marks_hold, shown};
ghost use Rattle.asp_found.specs.Merges.{IsReached};

use crate::merge::{skip, stands_at};
use asp_loop::weighing::{take_weight, weight_at};
use asp_model::interp::Interp;
use asp_model::program::Atom;
use asp_vars::compiled::Compiled;
use asp_vars::lit::Lit;
use std::alloc::{AllocError, Global};

/// The marks of a set. There is room for the variables of the bodies.
pub(crate) fn marks_of(
    alloc: Global,
    compiled: &Compiled,
    interp: &Interp,
) -> Result<Vec<bool>, AllocError>
    ensures { IfOk result (λ marks. marks.items ≡ false ∷ map (has interp.now) (atoms_of compiled.now)) }
{
    let set = interp.as_slice();
    let mut marks = Vec::with_capacity(alloc, compiled.vars() as usize + 1)?;
    marks.push(false)?;
    let mut place = 0;
    for atom in compiled.atoms().as_slice() {
        place = skip(set, place, *atom);
        marks.push(stands_at(set, place, *atom))?;
    }
    Ok(marks)
}

fn lit_between(set: &[bool], derived: &[bool], lit: Lit) -> bool
    requires set { lit.var < length set.now }
    requires derived { lit.var < length derived.now }
    ensures { result ≡ lit_between set.now derived.now lit }
{
    if lit.truth() {
        derived[lit.var() as usize]
    } else {
        !set[lit.var() as usize]
    }
}

fn all_between(set: &[bool], derived: &[bool], lits: &[Lit]) -> bool
    requires size { length derived.now ≡ length set.now }
    requires lits { All (λ l. l.var < length set.now) lits.now }
    ensures { result ≡ list_all (lit_between set.now derived.now) lits.now }
{
    for lit in lits {
        if !lit_between(set, derived, *lit) {
            return false;
        }
    }
    true
}

// Whether the weights of the literals that hold reach the bound.
fn reaches(set: &[bool], derived: &[bool], lits: &[Lit], weights: &[i64], bound: i32) -> bool
    requires size { length derived.now ≡ length set.now }
    requires lits { All (λ l. l.var < length set.now) lits.now }
    requires places { length weights.now ≡ length lits.now }
    requires weights { All (λ w. pos 0 ≤ℤ w) weights.now }
    ensures { result ≡ int_le bound (weigh (lit_between set.now derived.now) lits.now weights.now) }
{
    if bound <= 0 {
        return true;
    }
    let mut left = bound as u64;
    for i in 0..lits.len() {
        let counts = lit_between(set, derived, lits[i]);
        match take_weight(left, weight_at(weights, i), counts) {
            Some(rest) => left = rest,
            None => return true,
        }
    }
    false
}

// Whether a weight body holds so.
fn weights_hold(
    compiled: &Compiled,
    set: &[bool],
    derived: &[bool],
    body: usize,
    bound: i32,
) -> bool
    requires body { body < length (bodies_of compiled.now) }
    requires set { length (atoms_of compiled.now) < length set.now }
    requires derived { length derived.now ≡ length set.now }
    requires weighted { bound_of (nth_body compiled.now body) ≡ Some bound }
    ensures { result ≡ marks_hold compiled.now set.now derived.now (nth_body compiled.now body) }
{
    let _program = compiled.program();
    let lits = compiled.literals(body);
    reaches(set, derived, lits, compiled.weights(body), bound)
}

/// Whether a body holds, with positive literals read in the derived atoms, and negative ones in the set.
pub(crate) fn holds(compiled: &Compiled, set: &[bool], derived: &[bool], body: usize) -> bool
    requires body { body < length (bodies_of compiled.now) }
    requires set { length (atoms_of compiled.now) < length set.now }
    requires derived { length derived.now ≡ length set.now }
    ensures { result ≡ marks_hold compiled.now set.now derived.now (nth_body compiled.now body) }
{
    match compiled.bound(body) {
        Some(bound) => weights_hold(compiled, set, derived, body, bound),
        None => all_between(set, derived, compiled.literals(body)),
    }
}

// Whether the atom is marked, where those below it were skipped.
fn is_derived(compiled: &Compiled, derived: &[bool], place: usize, atom: Atom) -> bool
    requires derived { length (atoms_of compiled.now) < length derived.now }
    requires reached { IsReached (atoms_of compiled.now) place atom }
    ensures { result ≡ has (shown compiled.now derived.now) atom }
{
    stands_at(compiled.atoms().as_slice(), place, atom) && derived[place + 1]
}

// Adds the atom if it isn't marked.
fn push_underived(
    rest: &mut Vec<Atom>,
    compiled: &Compiled,
    derived: &[bool],
    place: usize,
    atom: Atom,
) -> Result<(), AllocError>
    requires derived { length (atoms_of compiled.now) < length derived.now }
    requires reached { IsReached (atoms_of compiled.now) place atom }
    ensures { OnOk result (rest.new.items ≡ rest.old.items ++ filter (λ a. not (has (shown compiled.now derived.now) a)) (atom ∷ [])) }
{
    if !is_derived(compiled, derived, place, atom) {
        rest.push(atom)?;
    }
    Ok(())
}

/// The atoms of the set that aren't marked.
pub(crate) fn underived(
    alloc: Global,
    compiled: &Compiled,
    interp: &Interp,
    derived: &[bool],
) -> Result<Vec<Atom>, AllocError>
    requires { length (atoms_of compiled.now) < length derived.now }
    ensures { IfOk result (λ rest. rest.items ≡ filter (λ a. not (has (shown compiled.now derived.now) a)) interp.now) }
{
    let atoms = compiled.atoms().as_slice();
    let mut rest = Vec::new(alloc);
    let mut place = 0;
    for atom in interp.as_slice() {
        place = skip(atoms, place, *atom);
        push_underived(&mut rest, compiled, derived, place, *atom)?;
    }
    Ok(rest)
}
