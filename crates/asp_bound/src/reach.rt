//! Where a raised cost reaches the bound.
ghost use Rattle.std.specs.Prelude.{◌≡◌, ◌<◌, ◌≤◌, ◌^◌, ◌<ℤ◌, ℕ, length, pos, slice_index_or};
ghost use Rattle.asp_bound.specs.Rises.{raised};
ghost use Rattle.asp_bound.specs.Reach.{reach, depth, lifted};

use crate::place::Place;
use crate::sums::raised;
use std::cmp::Ordering;

/// How many of the first sums, raised by what a value's places add, show that they aren't smaller than the bound. None where
/// they are smaller.
pub fn reach(sums: &[i64], bound: &[i64], row: &[Place], truth: bool) -> Option<usize>
    requires small { (j : ℕ) → j < length sums.now → raised row.now j truth < 2 ^ 60 }
    requires room { (j : ℕ) → j < length sums.now → slice_index_or sums.now j (pos 0) <ℤ pos (2 ^ 60) }
    ensures { result ≡ reach (lifted (λ j. raised row.now j truth) sums.now) bound.now }
{
    for (level, limit) in bound.iter().enumerate() {
        if level >= sums.len() {
            return None;
        }
        let sum = sums[level] + raised(row, level, truth) as i64;
        match sum.cmp(limit) {
            Ordering::Less => return None,
            Ordering::Equal => {}
            Ordering::Greater => return Some(level + 1),
        }
    }
    Some(bound.len())
}

/// How many of the first sums can have a part in reaching the bound: those up to the first that differs.
pub fn depth(sums: &[i64], bound: &[i64]) -> usize
    ensures depth { result ≡ depth sums.now bound.now }
    ensures sums { result ≤ length sums.now }
    ensures bound { result ≤ length bound.now }
{
    for (level, limit) in bound.iter().enumerate() {
        if level >= sums.len() {
            return level;
        }
        if sums[level] != *limit {
            return level + 1;
        }
    }
    bound.len()
}
