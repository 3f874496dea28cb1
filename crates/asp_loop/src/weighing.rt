//! Sums over the literals of a weight body.
//!
//! A weight body that depends on its own head mustn't be counted from within: with `a <- 2 <= {a = 2, b = 1}` the atom
//! `a` would found itself. So only literals outside of the set are weighed. What is left of the bound is counted down,
//! never up: weights aren't negative, so nothing overflows, and the walk ends as soon as the bound is reached.
ghost use Rattle.std.specs.Prelude.{◌≡◌, ◌<◌, ◌≤ℤ◌, pos, All, OnOk, IfOk, length, slice_index_or, if◌then◌else◌};
ghost use Rattle.asp_loop.specs.Weighing.{is_within, counts, weigh, IsSlack, ChoosesOne, Chooses};

use asp_model::interp::Interp;
use asp_vars::assign::Assign;
use asp_vars::lit::Lit;
use asp_vars::nogood::Lits;
use std::alloc::AllocError;

// Whether the literal says that one of these atoms is true.
pub(crate) fn is_within(vars: &Interp, lit: Lit) -> bool
    ensures { result ≡ is_within vars.now lit }
{
    let truth = lit.truth();
    let stands = vars.has(lit.var());
    truth && stands
}

// Whether the literal counts: outside of the set, and not false if only the others are asked for.
fn counts(assign: &Assign, vars: &Interp, open_only: bool, lit: Lit) -> bool
    requires { lit.var < length assign.now }
    ensures { result ≡ counts assign.now vars.now open_only lit }
{
    let within = is_within(vars, lit);
    let is_false = assign.holds(lit.complement());
    !within && (!open_only || !is_false)
}

/// A weight, of which none is negative.
pub fn weight_at(weights: &[i64], place: usize) -> u64
    requires place { place < length weights.now }
    requires weights { All (λ w. pos 0 ≤ℤ w) weights.now }
    ensures { pos result ≡ slice_index_or weights.now place (pos 0) }
{
    weights[place] as u64
}

/// What one more weight leaves of what is left, if it counts and leaves something.
pub fn take_weight(left: u64, weight: u64, counts: bool) -> Option<u64>
    requires { 0 < left }
    ensures { IsSlack (pos left) (if counts then pos weight else pos 0) result }
{
    if !counts {
        return Some(left);
    }
    if weight < left {
        Some(left - weight)
    } else {
        None
    }
}

/// What the weights of the literals that count leave of the bound, if they leave something.
pub(crate) fn slack(
    assign: &Assign,
    vars: &Interp,
    open_only: bool,
    lits: &[Lit],
    weights: &[i64],
    bound: i32,
) -> Option<u64>
    requires lits { All (λ l. l.var < length assign.now) lits.now }
    requires size { length weights.now ≡ length lits.now }
    requires weights { All (λ w. pos 0 ≤ℤ w) weights.now }
    ensures { IsSlack bound (weigh (counts assign.now vars.now open_only) lits.now weights.now) result }
{
    if bound <= 0 {
        return None;
    }
    let mut left = bound as u64;
    for i in 0..lits.len() {
        let counts = counts(assign, vars, open_only, lits[i]);
        match take_weight(left, weight_at(weights, i), counts) {
            Some(rest) => left = rest,
            None => return None,
        }
    }
    Some(left)
}

// A false literal outside of the set is passed over where its weight leaves something, and chosen where not.
fn choose_one(
    assign: &Assign,
    vars: &Interp,
    lit: Lit,
    weight: u64,
    left: u64,
    part: &mut Lits,
) -> Result<u64, AllocError>
    requires lit { lit.var < length assign.now }
    requires left { 0 < left }
    ensures { IfOk result (λ rest. ChoosesOne assign.now vars.now lit (pos weight) left rest part.old part.new) }
{
    let within = is_within(vars, lit);
    let is_false = assign.holds(lit.complement());
    if within || !is_false {
        return Ok(left);
    }
    if weight < left {
        Ok(left - weight)
    } else {
        part.push(lit.complement())?;
        Ok(left)
    }
}

/// Complements of false literals outside of the set, so that the others outside of it don't reach the bound. Of it so
/// much is left after the literals that aren't false.
pub(crate) fn choose(
    assign: &Assign,
    vars: &Interp,
    lits: &[Lit],
    weights: &[i64],
    slack: u64,
    part: &mut Lits,
) -> Result<(), AllocError>
    requires lits { All (λ l. l.var < length assign.now) lits.now }
    requires size { length weights.now ≡ length lits.now }
    requires weights { All (λ w. pos 0 ≤ℤ w) weights.now }
    requires slack { 0 < slack }
    ensures { OnOk result (Chooses assign.now vars.now lits.now weights.now slack part.old part.new) }
{
    let mut left = slack;
    for i in 0..lits.len() {
        left = choose_one(assign, vars, lits[i], weight_at(weights, i), left, part)?;
    }
    Ok(())
}
