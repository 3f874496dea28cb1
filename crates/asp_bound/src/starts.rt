//! From where the items of each priority are looked at: those before that place have values.
ghost use Rattle.std.specs.Prelude.{◌≡◌, ◌<◌, ◌≤◌, ◌^◌, ◌<ℤ◌, ℕ, min, pos, length, slice_index_or, slice_set, IsSome, true};
ghost use Rattle.std.specs.List.{All};
ghost use Rattle.asp_vars.specs.Literals.{value_of};
ghost use Rattle.asp_bound.specs.Starts.{ArePassed};

use crate::near::is_near;
use crate::place::{Item, Place};
use asp_vars::assign::Assign;

// Whether the item may reach the bound, but for its value.
fn is_passed(values: &Assign, item: &Item, sum: i64, limit: i64) -> bool
    requires within { item.now.var < length values.now }
    requires most { item.now.most < 2 ^ 60 }
    requires sum { sum <ℤ pos (2 ^ 60) }
    ensures { result ≡ true → IsSome (value_of values.now item.now.var) }
{
    is_near(sum, limit, item.most) && values.value(item.var).is_some()
}

/// The first item, from the start on, that has no value, or adds too little to reach the bound.
pub fn first_open(values: &Assign, column: &[Item], start: usize, sum: i64, limit: i64) -> usize
    requires within { All (λ i. (0 < i.var) × (i.var < length values.now)) column.now }
    requires most { All (λ i. i.most < 2 ^ 57) column.now }
    requires sum { sum <ℤ pos (2 ^ 60) }
    requires passed { ArePassed values.now column.now start }
    ensures within { result ≤ length column.now }
    ensures passed { ArePassed values.now column.now result }
{
    for index in start..column.len() {
        if !is_passed(values, &column[index], sum, limit) {
            return index;
        }
    }
    column.len()
}

// A start is no later than the item.
fn lower_start(starts: &mut [usize], level: usize, index: usize)
    requires { level < length starts.old }
    ensures { starts.new ≡ slice_set starts.old level (min (slice_index_or starts.old level 0) index) }
{
    starts[level] = starts[level].min(index);
}

/// The start of each priority at which the row has a place is no later than the place's item.
pub fn take_back(starts: &mut [usize], row: &[Place])
    requires within { All (λ o. o.level < length starts.old) row.now }
    ensures lower { (j : ℕ) → slice_index_or starts.new j 0 ≤ slice_index_or starts.old j 0 }
    ensures taken { All (λ o. slice_index_or starts.new o.level 0 ≤ o.index) row.now }
{
    for place in row {
        lower_start(starts, place.level as usize, place.index as usize);
    }
}
