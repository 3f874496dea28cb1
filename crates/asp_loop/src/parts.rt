//! What a body of a rule for an unfounded set adds to its loop nogood.
ghost use Rattle.std.specs.Prelude.{◌≡◌, ◌<◌, ◌+◌, IfOk, All, length};
ghost use Rattle.std.specs.List.{list_any};
ghost use Rattle.asp_vars.specs.Literals.{complement};
ghost use Rattle.asp_vars.specs.Numbering.{bodies_of, var_count, literal_of_form, nth_body};
ghost use Rattle.asp_vars.specs.Tabled.{bound_of, IsBodyNumber};
ghost use Rattle.std.specs.Prelude.{Some, None};
ghost use Rattle.asp_loop.specs.Weighing.{is_within};
ghost use Rattle.asp_loop.specs.Parts.{AddsFalse, IsAdded, AreAdded};

use crate::weighing::{choose, is_within, slack};
use asp_model::interp::Interp;
use asp_vars::assign::Assign;
use asp_vars::compiled::Compiled;
use asp_vars::lit::Lit;
use asp_vars::nogood::Lits;
use std::alloc::AllocError;

// Adds that the body is false, if it is.
fn add_false(
    compiled: &Compiled,
    assign: &Assign,
    body: usize,
    lits: &mut Lits,
) -> Result<bool, AllocError>
    requires body { body < length (bodies_of compiled.now) }
    requires vars { length assign.now ≡ var_count compiled.now + 1 }
    ensures { IfOk result (AddsFalse assign.now (complement (literal_of_form compiled.now (nth_body compiled.now body))) lits.old lits.new) }
{
    let lit = compiled.body_lit(body).complement();
    if assign.holds(lit) {
        lits.push(lit)?;
        Ok(true)
    } else {
        Ok(false)
    }
}

fn is_some_within(vars: &Interp, lits: &[Lit]) -> bool
    ensures { result ≡ list_any (is_within vars.now) lits.now }
{
    lits.iter().any(|lit| is_within(vars, *lit))
}

// What a normal body adds.
fn add_normal(
    compiled: &Compiled,
    vars: &Interp,
    assign: &Assign,
    body: usize,
    lits: &mut Lits,
) -> Result<bool, AllocError>
    requires body { body < length (bodies_of compiled.now) }
    requires normal { bound_of (nth_body compiled.now body) ≡ None }
    requires vars { length assign.now ≡ var_count compiled.now + 1 }
    ensures { IfOk result (IsAdded compiled.now assign.now vars.now (nth_body compiled.now body) lits.old lits.new) }
{
    if is_some_within(vars, compiled.literals(body)) {
        return Ok(true);
    }
    let added = add_false(compiled, assign, body, lits)?;
    Ok(added)
}

// What a weight body adds.
fn add_weighted(
    compiled: &Compiled,
    vars: &Interp,
    assign: &Assign,
    body: usize,
    bound: i32,
    lits: &mut Lits,
) -> Result<bool, AllocError>
    requires body { body < length (bodies_of compiled.now) }
    requires weighted { bound_of (nth_body compiled.now body) ≡ Some bound }
    requires vars { length assign.now ≡ var_count compiled.now + 1 }
    ensures { IfOk result (IsAdded compiled.now assign.now vars.now (nth_body compiled.now body) lits.old lits.new) }
{
    let _program = compiled.program();
    let literals = compiled.literals(body);
    let weights = compiled.weights(body);
    let unreachable = slack(assign, vars, false, literals, weights, bound).is_some();
    if unreachable {
        return Ok(true);
    }
    let is_false = add_false(compiled, assign, body, lits)?;
    if is_false {
        return Ok(true);
    }
    match slack(assign, vars, true, literals, weights, bound) {
        Some(slack) => {
            choose(assign, vars, literals, weights, slack, lits)?;
            Ok(true)
        }
        None => Ok(false),
    }
}

// What a body adds, or false if nothing excuses it.
fn add_part(
    compiled: &Compiled,
    vars: &Interp,
    assign: &Assign,
    body: usize,
    lits: &mut Lits,
) -> Result<bool, AllocError>
    requires body { body < length (bodies_of compiled.now) }
    requires vars { length assign.now ≡ var_count compiled.now + 1 }
    ensures { IfOk result (IsAdded compiled.now assign.now vars.now (nth_body compiled.now body) lits.old lits.new) }
{
    match compiled.bound(body) {
        Some(bound) => add_weighted(compiled, vars, assign, body, bound, lits),
        None => add_normal(compiled, vars, assign, body, lits),
    }
}

/// What these bodies add one after another, or false at the first that nothing excuses.
pub(crate) fn add_parts(
    compiled: &Compiled,
    vars: &Interp,
    assign: &Assign,
    bodies: &[u32],
    lits: &mut Lits,
) -> Result<bool, AllocError>
    requires bodies { All (IsBodyNumber compiled.now) bodies.now }
    requires vars { length assign.now ≡ var_count compiled.now + 1 }
    ensures { IfOk result (AreAdded compiled.now assign.now vars.now bodies.now lits.old lits.new) }
{
    let atoms = compiled.atom_count();
    for body in bodies {
        let added = add_part(compiled, vars, assign, *body as usize - atoms - 1, lits)?;
        if !added {
            return Ok(false);
        }
    }
    Ok(true)
}
