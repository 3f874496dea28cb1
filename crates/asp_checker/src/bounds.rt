//! The bound: only answers that cost less than a cost are looked for.
ghost use Rattle.std.specs.Prelude.{◌≡◌, ◌+◌, ◌*◌, ◌^◌, ◌<◌, ◌≤ℤ◌, ◌+ℤ◌, ◌++◌, ◌∷◌, [], pos, neg_ℤ, not, Some, All, IfOk, OnOk, if◌then◌else◌, map, length};
ghost use Rattle.std.specs.List.{AllByRecursion};
ghost use Rattle.std.specs.Ordering.{int_eq};
ghost use Rattle.asp_model.specs.Costs.{priorities, betters, cost, just_above};
ghost use Rattle.asp_vars.specs.Numbering.{var_count};
ghost use Rattle.asp_bound.specs.Optimism.{least};
ghost use Rattle.asp_checker.specs.Propagation.{reaches_bound};
ghost use Rattle.asp_checker.specs.Blocks.{weighs, is_priced, priced_to, sum_over, AreLevels, HasLevels, cost_of_bound};

use crate::levels::weights_at;
use asp_model::cost::{Cost, cost_just_above, cost_of, priorities};
use asp_model::interp::Interp;
use asp_model::seq::Seq;
use asp_vars::assign::Assign;
use asp_vars::compiled::Compiled;
use asp_vars::lit::Var;
use std::alloc::{AllocError, Global};

/// A cost that is to be bettered.
#[derive(Drop)]
pub struct Bound {
    /// The weights of all literals by their codes, for each priority, the greatest first.
    pub(crate) levels: Seq<Seq<i64>>,
    /// The sums that are to be bettered, at the same places.
    pub(crate) cost: Seq<i64>,
    /// The variables that weigh something at one of the priorities, ascending.
    pub(crate) priced: Seq<Var>,
}

fn widened(number: i64) -> i128
    ensures value { result ≡ number }
    ensures low { neg_ℤ (pos (2 ^ 63)) ≤ℤ result }
    ensures high { result ≤ℤ pos (2 ^ 63) }
{
    number as i128
}

fn add(sum: i128, more: i128) -> i128
    requires low { neg_ℤ (pos (2 ^ 100)) ≤ℤ sum }
    requires high { sum ≤ℤ pos (2 ^ 100) }
    requires more_low { neg_ℤ (pos (2 ^ 100)) ≤ℤ more }
    requires more_high { more ≤ℤ pos (2 ^ 100) }
    ensures { result ≡ sum +ℤ more }
{
    sum + more
}

// What a variable costs at least.
fn least(value: Option<bool>, if_true: i64, if_false: i64) -> i128
    ensures value { result ≡ least value if_true if_false }
    ensures low { neg_ℤ (pos (2 ^ 63)) ≤ℤ result }
    ensures high { result ≤ℤ pos (2 ^ 63) }
{
    match value {
        Some(true) => widened(if_true),
        Some(false) => widened(if_false),
        None => widened(if_true.min(if_false)),
    }
}

// What is spent at least at a priority by these variables.
fn spent(values: &Assign, weights: &[i64], vars: &[Var]) -> i128
    requires values { All (λ v. v < length values.now) vars.now }
    requires weights { All (λ v. 2 * v + 1 < length weights.now) vars.now }
    requires few { length vars.now < 2 ^ 31 }
    ensures { result ≡ sum_over values.now weights.now vars.now }
{
    let mut sum: i128 = 0;
    for var in vars {
        let place = 2 * *var as usize;
        let more = least(values.value(*var), weights[place], weights[place + 1]);
        sum = add(sum, more);
    }
    sum
}

// Whether the sums over these variables aren't smaller than the cost.
fn reaches(values: &Assign, levels: &[Seq<i64>], cost: &[i64], priced: &[Var]) -> bool
    requires values { All (λ v. v < length values.now) priced.now }
    requires levels { length cost.now ≡ length levels.now }
    requires weights { AllByRecursion (λ w. All (λ v. 2 * v + 1 < length w) priced.now) levels.now }
    requires few { length priced.now < 2 ^ 31 }
    ensures { result ≡ not (betters (map (λ w. sum_over values.now w priced.now) levels.now) cost.now) }
{
    for i in 0..levels.len() {
        let sum = spent(values, levels[i].as_slice(), priced);
        let limit = widened(cost[i]);
        if sum < limit {
            return false;
        }
        if limit < sum {
            return true;
        }
    }
    true
}

/// Whether there is a bound, and the values can't lead to less any more.
pub fn reaches_bound(compiled: &Compiled, bound: &Option<Bound>, values: &Assign) -> bool
    requires size { length values.now ≡ var_count compiled.now + 1 }
    requires levels { HasLevels compiled.now bound.now }
    ensures { result ≡ reaches_bound compiled.now (cost_of_bound bound.now) values.now }
{
    let _vars = compiled.vars();
    match bound {
        None => false,
        Some(b) => reaches(
            values,
            b.levels.as_slice(),
            b.cost.as_slice(),
            b.priced.as_slice(),
        ),
    }
}

// The weights at each of these priorities.
fn levels_of(alloc: Global, compiled: &Compiled, list: &[i32]) -> Result<Vec<Seq<i64>>, AllocError>
    ensures { IfOk result (λ l. AreLevels compiled.now list.now l.items) }
{
    let mut levels = Vec::new(alloc);
    for priority in list {
        let weights = weights_at(alloc, compiled, *priority)?;
        levels.push(Seq::from_vec(weights))?;
    }
    Ok(levels)
}

// The weights at each priority, the greatest first.
fn levels(alloc: Global, compiled: &Compiled) -> Result<Vec<Seq<i64>>, AllocError>
    ensures { IfOk result (λ l. AreLevels compiled.now (priorities compiled.now.minimize) l.items) }
{
    let list = priorities(alloc, compiled.program().minimize.as_slice())?;
    levels_of(alloc, compiled, list.as_slice())
}

fn is_something(weight: i64) -> bool
    ensures { result ≡ not (int_eq weight (pos 0)) }
{
    weight != 0
}

// Whether one of the variable's literals weighs something.
fn weighs(weights: &[i64], var: Var) -> bool
    requires { 2 * var + 1 < length weights.now }
    ensures { result ≡ weighs weights.now var }
{
    let place = 2 * var as usize;
    is_something(weights[place]) || is_something(weights[place + 1])
}

// Whether one of them does at one of the priorities.
fn is_priced(levels: &[Seq<i64>], var: Var) -> bool
    requires { AllByRecursion (λ w. 2 * var + 1 < length w) levels.now }
    ensures { result ≡ is_priced levels.now var }
{
    for weights in levels {
        if weighs(weights.as_slice(), var) {
            return true;
        }
    }
    false
}

// Adds the variable, if it weighs something at one of the priorities.
fn add_priced(list: &mut Vec<Var>, levels: &[Seq<i64>], var: Var) -> Result<(), AllocError>
    requires { AllByRecursion (λ w. 2 * var + 1 < length w) levels.now }
    ensures { OnOk result (list.new.items ≡ (if is_priced levels.now var then list.old.items ++ var ∷ [] else list.old.items)) }
{
    if is_priced(levels, var) {
        list.push(var)?;
    }
    Ok(())
}

// The variables that weigh something at one of the priorities.
fn priced(alloc: Global, levels: &[Seq<i64>], vars: u32) -> Result<Vec<Var>, AllocError>
    requires weights { AllByRecursion (λ w. length w ≡ 2 * vars + 2) levels.now }
    requires few { vars < 2 ^ 31 }
    ensures { IfOk result (λ list. list.items ≡ priced_to levels.now vars) }
{
    let mut list = Vec::new(alloc);
    for at in 0..vars {
        add_priced(&mut list, levels, at + 1)?;
    }
    Ok(list)
}

impl Bound {
    // The bound by a cost that has as many sums as the program has priorities.
    fn by(alloc: Global, compiled: &Compiled, cost: &Cost) -> Result<Bound, AllocError>
        requires { length cost.now ≡ length (priorities compiled.now.minimize) }
        ensures cost { IfOk result (λ b. b.cost ≡ cost.now) }
        ensures levels { IfOk result (λ b. HasLevels compiled.now (Some b)) }
    {
        let levels = levels(alloc, compiled)?;
        let priced = priced(alloc, levels.as_slice(), compiled.vars())?;
        Ok(Bound {
            levels: Seq::from_vec(levels),
            cost: Seq::from_vec(Vec::from_slice(alloc, cost.as_slice())?),
            priced: Seq::from_vec(priced),
        })
    }

    /// The bound by the cost of a set: what costs no less reaches it.
    pub fn of(alloc: Global, compiled: &Compiled, set: &Interp) -> Result<Bound, AllocError>
        ensures cost { IfOk result (λ b. b.cost ≡ cost compiled.now set.now) }
        ensures levels { IfOk result (λ b. HasLevels compiled.now (Some b)) }
    {
        let cost = cost_of(alloc, compiled.program(), set)?;
        Bound::by(alloc, compiled, &cost)
    }

    /// The bound just above the cost of a set: what costs more reaches it. None where a cost has no sums.
    pub fn above(
        alloc: Global,
        compiled: &Compiled,
        set: &Interp,
    ) -> Result<Option<Bound>, AllocError>
        ensures cost { IfOk result (λ b. cost_of_bound b ≡ just_above (cost compiled.now set.now)) }
        ensures levels { IfOk result (HasLevels compiled.now) }
    {
        let above = cost_just_above(alloc, compiled.program(), set)?;
        match above {
            None => Ok(None),
            Some(cost) => Ok(Some(Bound::by(alloc, compiled, &cost)?)),
        }
    }
}
