//! Which variables can't get a value any more.
ghost use Rattle.std.specs.Prelude.{◌≡◌, ◌<◌, ◌≤◌, ◌^◌, ◌<ℤ◌, ℕ, Bool, [], pos, length, slice_index_or, IfSome, IfNone};
ghost use Rattle.std.specs.List.{All, AllPairs};
ghost use Rattle.asp_bound.specs.declared.place.Item.{Item};
ghost use Rattle.asp_bound.specs.Rises.{raised, row_at};
ghost use Rattle.asp_bound.specs.Found.{IsNear, Passes, Reaches};
ghost use Rattle.asp_bound.specs.Reach.{depth};
ghost use Rattle.asp_bound.specs.Starts.{ArePassed, AreStarts};

use crate::near::is_near;
use crate::place::{Item, Place};
use crate::reach::{depth, reach};
use crate::starts::first_open;
use asp_table::table::Table;
use asp_vars::assign::Assign;
use asp_vars::lit::{Lit, Var};

/// A literal that reaches the bound, and how many of the first priorities show it.
#[derive(Clone, Copy)]
pub struct Implied {
    /// The literal, whose variable has no value.
    pub lit: Lit,
    /// How many of the first priorities show that the bound is reached, counted from the greatest.
    pub depth: usize,
}

// A literal of the variable that reaches the bound, if the variable has no value.
fn find_by(
    values: &Assign,
    rows: &Table<Place>,
    sums: &[i64],
    bound: &[i64],
    var: Var,
) -> Option<Implied>
    requires few { var < 2 ^ 31 }
    requires some { 0 < var }
    requires var { var < length values.now }
    requires row { var < length rows.now }
    requires small { (v j : ℕ) (b : Bool) → 0 < v → v < length rows.now → j < length sums.now → raised (row_at rows.now v) j b < 2 ^ 60 }
    requires room { (j : ℕ) → j < length sums.now → slice_index_or sums.now j (pos 0) <ℤ pos (2 ^ 60) }
    ensures var { IfSome result (λ i. i.lit.var ≡ var) }
    ensures reaches { IfSome result (Reaches values.now rows.now sums.now bound.now) }
    ensures passes { IfNone result (Passes values.now rows.now sums.now bound.now var) }
{
    if values.value(var) != None {
        return None;
    }
    let row = rows.row(var as usize);
    if let Some(depth) = reach(sums, bound, row, true) {
        let lit = Lit::new(var, true);
        return Some(Implied { lit, depth });
    }
    if let Some(depth) = reach(sums, bound, row, false) {
        let lit = Lit::new(var, false);
        return Some(Implied { lit, depth });
    }
    None
}

// Looks at the items of a priority that may reach the bound, those that add most first. Those before the start have values.
fn find_at(
    values: &Assign,
    rows: &Table<Place>,
    sums: &[i64],
    bound: &[i64],
    column: &[Item],
    start: usize,
    level: usize,
) -> Option<Implied>
    requires few { length values.now ≤ 2 ^ 31 }
    requires rows { length rows.now ≡ length values.now }
    requires small { (v j : ℕ) (b : Bool) → 0 < v → v < length rows.now → j < length sums.now → raised (row_at rows.now v) j b < 2 ^ 60 }
    requires room { (j : ℕ) → j < length sums.now → slice_index_or sums.now j (pos 0) <ℤ pos (2 ^ 60) }
    requires sum { level < length sums.now }
    requires limit { level < length bound.now }
    requires within { All (λ i. (0 < i.var) × (i.var < length values.now)) column.now }
    requires most { All (λ i. i.most < 2 ^ 57) column.now }
    requires falling { AllPairs (λ i k. k.most ≤ i.most) column.now }
    requires start { start ≤ length column.now }
    requires passed { ArePassed values.now column.now start }
    ensures within { IfSome result (λ i. (0 < i.lit.var) × (i.lit.var < length values.now)) }
    ensures reaches { IfSome result (Reaches values.now rows.now sums.now bound.now) }
    ensures pass { IfNone result ((i : ℕ) (d : Item) → i < length column.now →
        IsNear (slice_index_or sums.now level (pos 0)) (slice_index_or bound.now level (pos 0)) (slice_index_or column.now i d).most →
        Passes values.now rows.now sums.now bound.now (slice_index_or column.now i d).var) }
{
    for index in start..column.len() {
        let item = column[index];
        if !is_near(sums[level], bound[level], item.most) {
            return None;
        }
        if let Some(implied) = find_by(values, rows, sums, bound, item.var) {
            return Some(implied);
        }
    }
    None
}

/// A literal that reaches the bound. Asks that the sums themselves don't. The starts pass over what has a value.
pub fn find(
    values: &Assign,
    rows: &Table<Place>,
    columns: &Table<Item>,
    sums: &[i64],
    bound: &[i64],
    starts: &mut [usize],
) -> Option<Implied>
    requires few { length values.now ≤ 2 ^ 31 }
    requires rows { length rows.now ≡ length values.now }
    requires small { (v j : ℕ) (b : Bool) → 0 < v → v < length rows.now → j < length sums.now → raised (row_at rows.now v) j b < 2 ^ 60 }
    requires room { (j : ℕ) → j < length sums.now → slice_index_or sums.now j (pos 0) <ℤ pos (2 ^ 60) }
    requires columns { length columns.now ≡ length sums.now }
    requires within { (j : ℕ) → j < length columns.now → All (λ i. (0 < i.var) × (i.var < length values.now)) (slice_index_or columns.now j []) }
    requires most { (j : ℕ) → j < length columns.now → All (λ i. i.most < 2 ^ 57) (slice_index_or columns.now j []) }
    requires falling { (j : ℕ) → j < length columns.now → AllPairs (λ i k. k.most ≤ i.most) (slice_index_or columns.now j []) }
    requires starts { AreStarts values.now columns.now starts.old }
    ensures starts { AreStarts values.now columns.now starts.new }
    ensures within { IfSome result (λ i. (0 < i.lit.var) × (i.lit.var < length values.now)) }
    ensures reaches { IfSome result (Reaches values.now rows.now sums.now bound.now) }
    ensures pass { IfNone result ((j i : ℕ) (d : Item) → j < depth sums.now bound.now → i < length (slice_index_or columns.now j []) →
        IsNear (slice_index_or sums.now j (pos 0)) (slice_index_or bound.now j (pos 0)) (slice_index_or (slice_index_or columns.now j []) i d).most →
        Passes values.now rows.now sums.now bound.now (slice_index_or (slice_index_or columns.now j []) i d).var) }
{
    for level in 0..depth(sums, bound) {
        let column = columns.row(level);
        let start = first_open(values, column, starts[level], sums[level], bound[level]);
        starts[level] = start;
        if let Some(implied) = find_at(values, rows, sums, bound, column, start, level) {
            return Some(implied);
        }
    }
    None
}
