//! What weight bodies and the bound imply: a value is implied where the other one would break a body or reach the bound.
ghost use Rattle.std.specs.Prelude.{◌≡◌, ◌+◌, ◌<◌, ◌≤◌, Bool, false, Some, None, MatchOption, length, slice_set};
ghost use Rattle.asp_vars.specs.Literals.{value_of};
ghost use Rattle.asp_vars.specs.Numbering.{var_count};
ghost use Rattle.asp_checker.specs.Blocks.{is_blocked, HasLevels, cost_of_bound, IsImplied, AreFree};

use crate::bounds::{Bound, reaches_bound};
use crate::weights::are_broken;
use asp_vars::assign::Assign;
use asp_vars::compiled::Compiled;
use asp_vars::lit::Lit;

/// Whether the values break a weight body or reach the bound.
pub fn is_blocked(compiled: &Compiled, bound: &Option<Bound>, values: &Assign) -> bool
    requires size { length values.now ≡ var_count compiled.now + 1 }
    requires levels { HasLevels compiled.now bound.now }
    ensures { result ≡ is_blocked compiled.now (cost_of_bound bound.now) values.now }
{
    if are_broken(compiled, values) {
        return true;
    }
    reaches_bound(compiled, bound, values)
}

// The same with one value more, which is taken back.
fn would_be_blocked(
    compiled: &Compiled,
    bound: &Option<Bound>,
    values: &mut Assign,
    lit: Lit,
) -> bool
    requires size { length values.old ≡ var_count compiled.now + 1 }
    requires levels { HasLevels compiled.now bound.now }
    requires of { lit.var ≤ var_count compiled.now }
    requires no_value { value_of values.old lit.var ≡ None }
    ensures same { values.new ≡ values.old }
    ensures blocked { result ≡ is_blocked compiled.now (cost_of_bound bound.now) (slice_set values.old lit.var (Some lit.truth)) }
{
    values.set(lit);
    let blocked = is_blocked(compiled, bound, values);
    values.unset(lit.var());
    blocked
}

// The value that is implied for a variable without one.
fn implied_of(
    compiled: &Compiled,
    bound: &Option<Bound>,
    values: &mut Assign,
    var: u32,
) -> Option<Lit>
    requires size { length values.old ≡ var_count compiled.now + 1 }
    requires levels { HasLevels compiled.now bound.now }
    requires positive { 0 < var }
    requires of { var ≤ var_count compiled.now }
    requires no_value { value_of values.old var ≡ None }
    ensures same { values.new ≡ values.old }
    ensures implied { MatchOption result
        ((b : Bool) → is_blocked compiled.now (cost_of_bound bound.now) (slice_set values.old var (Some b)) ≡ false)
        (IsImplied compiled.now (cost_of_bound bound.now) values.old) }
{
    let _vars = compiled.vars();
    let held = Lit::new(var, true);
    let failed = held.complement();
    let is_false = would_be_blocked(compiled, bound, values, held);
    if is_false {
        return Some(failed);
    }
    let is_true = would_be_blocked(compiled, bound, values, failed);
    if is_true {
        return Some(held);
    }
    None
}

// The variable's value that is implied, if it has none.
fn implied_at(
    compiled: &Compiled,
    bound: &Option<Bound>,
    values: &mut Assign,
    var: u32,
) -> Option<Lit>
    requires size { length values.old ≡ var_count compiled.now + 1 }
    requires levels { HasLevels compiled.now bound.now }
    requires positive { 0 < var }
    requires of { var ≤ var_count compiled.now }
    ensures same { values.new ≡ values.old }
    ensures implied { MatchOption result
        (value_of values.old var ≡ None → (b : Bool) → is_blocked compiled.now (cost_of_bound bound.now) (slice_set values.old var (Some b)) ≡ false)
        (IsImplied compiled.now (cost_of_bound bound.now) values.old) }
{
    match values.value(var) {
        Some(_) => None,
        None => implied_of(compiled, bound, values, var),
    }
}

/// A value that the weight bodies or the bound imply, if there is one. It tries each variable without a value, and reads
/// all bodies for each of its values.
pub fn implied(compiled: &Compiled, bound: &Option<Bound>, values: &mut Assign) -> Option<Lit>
    requires size { length values.old ≡ var_count compiled.now + 1 }
    requires levels { HasLevels compiled.now bound.now }
    ensures same { values.new ≡ values.old }
    ensures implied { MatchOption result
        (AreFree compiled.now (cost_of_bound bound.now) values.old (var_count compiled.now))
        (IsImplied compiled.now (cost_of_bound bound.now) values.old) }
{
    for at in 0..compiled.vars() {
        if let Some(lit) = implied_at(compiled, bound, values, at + 1) {
            return Some(lit);
        }
    }
    None
}
