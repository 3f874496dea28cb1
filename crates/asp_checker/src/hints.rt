//! What weight bodies and the bound may imply, by their sums. Hints are advice: each is tried before its value is set.
ghost use Rattle.std.specs.Prelude.{◌≡◌, ◌+◌, ◌<◌, length};
ghost use Rattle.asp_vars.specs.Numbering.{var_count};

use crate::bounds::Bound;
use asp_vars::assign::Assign;
use asp_vars::compiled::Compiled;
use asp_vars::lit::{Lit, Var};
use std::alloc::AllocError;

/// What is to be looked at.
#[derive(Clone, Copy)]
pub(crate) enum Hint {
    /// The nogood at this place.
    Nogood(usize),
    /// The nogood at this one of the places that lines take.
    Placed(usize),
    /// The nogood of the set found at this place.
    Answer(usize),
    /// Whether the weight body implies the literal.
    Body(usize, Lit),
    /// Whether the bound implies the literal.
    Bound(Lit),
}

/// Whether the literal holds.
pub(crate) fn holds(values: &Assign, vars: u32, lit: Lit) -> bool
    requires { length values.now ≡ vars + 1 }
{
    if lit.var() > vars {
        return false;
    }
    values.holds(lit)
}

/// Whether the literal fails.
pub(crate) fn fails(values: &Assign, vars: u32, lit: Lit) -> bool
    requires { length values.now ≡ vars + 1 }
{
    if lit.var() > vars {
        return false;
    }
    values.holds(lit.complement())
}

/// Whether the literal holds, if it has a value.
pub(crate) fn value_of(compiled: &Compiled, values: &Assign, lit: Lit) -> Option<bool>
    requires { length values.now ≡ var_count compiled.now + 1 }
{
    if lit.var() > compiled.vars() {
        return None;
    }
    match values.value(lit.var()) {
        Some(value) => Some(value == lit.truth()),
        None => None,
    }
}

/// Adds a hint for each literal without a value that weighs more than is left: the literal, or its complement.
pub(crate) fn add_heavy(
    hints: &mut Vec<Hint>,
    compiled: &Compiled,
    values: &Assign,
    body: usize,
    left: i64,
    truth: bool,
) -> Result<(), AllocError>
    requires { length values.now ≡ var_count compiled.now + 1 }
{
    if body >= compiled.body_count() {
        return Ok(());
    }
    for (lit, weight) in compiled.literals(body).iter().zip(compiled.weights(body)) {
        if *weight > left && value_of(compiled, values, *lit).is_none() {
            let implied = if truth { *lit } else { lit.complement() };
            hints.push(Hint::Body(body, implied))?;
        }
    }
    Ok(())
}

fn weight_at(weights: &[i64], place: usize) -> i64 {
    weights.get(place).copied().unwrap_or(0)
}

// What a variable costs at least at a priority, by the weights of its two literals.
fn least(values: &Assign, compiled: &Compiled, weights: &[i64], var: u32) -> i64
    requires { length values.now ≡ var_count compiled.now + 1 }
{
    let place = (var as usize).saturating_mul(2);
    let if_true = weight_at(weights, place);
    let if_false = weight_at(weights, place.saturating_add(1));
    if var > compiled.vars() {
        return 0;
    }
    match values.value(var) {
        Some(true) => if_true,
        Some(false) => if_false,
        None => if_true.min(0).saturating_add(if_false.min(0)),
    }
}

// What is spent at least at a priority.
fn spent(compiled: &Compiled, weights: &[i64], priced: &[Var], values: &Assign) -> i64
    requires { length values.now ≡ var_count compiled.now + 1 }
{
    let mut sum: i64 = 0;
    for var in priced {
        sum = sum.saturating_add(least(values, compiled, weights, *var));
    }
    sum
}

// What is left below the cost at each priority: the cost less what is spent at least.
fn room(
    compiled: &Compiled,
    bound: &Bound,
    values: &Assign,
    left: &mut Vec<i64>,
) -> Result<(), AllocError>
    requires { length values.now ≡ var_count compiled.now + 1 }
{
    let priced = bound.priced.as_slice();
    for (weights, cost) in bound.levels.as_slice().iter().zip(bound.cost.as_slice()) {
        let sum = spent(compiled, weights.as_slice(), priced, values);
        left.push((*cost).saturating_sub(sum))?;
    }
    Ok(())
}

// Whether the cost is reached.
fn is_reached(left: &[i64]) -> bool {
    for left in left {
        if *left != 0 {
            return *left < 0;
        }
    }
    true
}

// Whether the variable with this value leaves no less than the cost.
fn is_dear(
    compiled: &Compiled,
    bound: &Bound,
    values: &Assign,
    left: &[i64],
    var: u32,
    value: bool,
) -> bool
    requires { length values.now ≡ var_count compiled.now + 1 }
{
    for (weights, left) in bound.levels.as_slice().iter().zip(left) {
        let place = (var as usize)
            .saturating_mul(2)
            .saturating_add(if value { 0 } else { 1 });
        let more = weight_at(weights.as_slice(), place).saturating_sub(least(
            values,
            compiled,
            weights.as_slice(),
            var,
        ));
        if more < *left {
            return false;
        }
        if more > *left {
            return true;
        }
    }
    true
}

// A literal of the first variable that doesn't hold.
fn failing(compiled: &Compiled, values: &Assign) -> Lit
    requires { length values.now ≡ var_count compiled.now + 1 }
{
    let lit = Lit::new(1, true);
    if holds(values, compiled.vars(), lit) {
        lit.complement()
    } else {
        lit
    }
}

/// Adds what the bound may imply.
pub(crate) fn hints_of_bound(
    hints: &mut Vec<Hint>,
    compiled: &Compiled,
    bound: &Bound,
    values: &Assign,
) -> Result<(), AllocError>
    requires { length values.now ≡ var_count compiled.now + 1 }
{
    let mut left = Vec::new(*hints.allocator());
    room(compiled, bound, values, &mut left)?;
    if is_reached(left.as_slice()) {
        hints.push(Hint::Bound(failing(compiled, values)))?;
        return Ok(());
    }
    for var in bound.priced.as_slice() {
        add_dear(hints, compiled, bound, values, left.as_slice(), *var)?;
    }
    Ok(())
}

// Adds a hint where one of the variable's values is dear.
fn add_dear(
    hints: &mut Vec<Hint>,
    compiled: &Compiled,
    bound: &Bound,
    values: &Assign,
    left: &[i64],
    var: Var,
) -> Result<(), AllocError>
    requires { length values.now ≡ var_count compiled.now + 1 }
{
    if var > compiled.vars() || values.value(var).is_some() {
        return Ok(());
    }
    let held = Lit::new(var, true);
    if is_dear(compiled, bound, values, left, var, true) {
        hints.push(Hint::Bound(held.complement()))?;
    } else if is_dear(compiled, bound, values, left, var, false) {
        hints.push(Hint::Bound(held))?;
    }
    Ok(())
}
