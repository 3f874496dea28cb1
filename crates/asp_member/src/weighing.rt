//! Sums over the literals of a weight body, by values.
//!
//! What is left of the bound is counted down, never up: weights aren't negative, so nothing overflows, and the walk ends as soon
//! as the bound is reached.
ghost use Rattle.std.specs.Prelude.{◌≡◌, ◌<◌, ◌≤ℤ◌, pos, All, int_le, length, slice_index_or, if◌then◌else◌};
ghost use Rattle.asp_loop.specs.Weighing.{weigh, IsSlack};
ghost use Rattle.asp_member.specs.Counting.{counts};

use asp_vars::assign::Assign;
use asp_vars::lit::Lit;

// Whether the literal counts: where it holds, or where it isn't false.
fn counts(values: &Assign, with_open: bool, lit: Lit) -> bool
    requires { lit.var < length values.now }
    ensures { result ≡ counts values.now with_open lit }
{
    if with_open {
        !values.holds(lit.complement())
    } else {
        values.holds(lit)
    }
}

/// A weight, of which none is negative.
pub fn weight_at(weights: &[i64], place: usize) -> u64
    requires place { place < length weights.now }
    requires weights { All (λ w. pos 0 ≤ℤ w) weights.now }
    ensures { pos result ≡ slice_index_or weights.now place (pos 0) }
{
    weights[place] as u64
}

/// What one more weight leaves of what is left, if it counts and leaves something.
pub fn take_weight(left: u64, weight: u64, counts: bool) -> Option<u64>
    requires { 0 < left }
    ensures { IsSlack (pos left) (if counts then pos weight else pos 0) result }
{
    if !counts {
        return Some(left);
    }
    if weight < left {
        Some(left - weight)
    } else {
        None
    }
}

/// Whether the weights of the literals that count reach the bound: those that aren't false, or those that hold.
pub fn reaches(values: &Assign, with_open: bool, lits: &[Lit], weights: &[i64], bound: i32) -> bool
    requires lits { All (λ l. l.var < length values.now) lits.now }
    requires places { length weights.now ≡ length lits.now }
    requires weights { All (λ w. pos 0 ≤ℤ w) weights.now }
    ensures { result ≡ int_le bound (weigh (counts values.now with_open) lits.now weights.now) }
{
    if bound <= 0 {
        return true;
    }
    let mut left = bound as u64;
    for i in 0..lits.len() {
        let counts = counts(values, with_open, lits[i]);
        match take_weight(left, weight_at(weights, i), counts) {
            Some(rest) => left = rest,
            None => return true,
        }
    }
    false
}
