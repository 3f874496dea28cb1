//! The optimistic cost as values come and go.
ghost use Rattle.std.specs.Prelude.{◌≡◌, ◌<◌, ◌≤◌, ◌^◌, ℕ, ◌+ℤ◌, ◌≤ℤ◌, ◌<ℤ◌, ◌-ℤ◌, pos, neg_ℤ, length, slice_index_or, slice_set};
ghost use Rattle.std.specs.List.{All};
ghost use Rattle.asp_bound.specs.Rises.{rise_by, raised};

use crate::place::Place;

/// What a place adds by a value.
pub fn rise_by(place: &Place, truth: bool) -> u64
    ensures { result ≡ rise_by truth place.now }
{
    if truth { place.if_true } else { place.if_false }
}

/// What a row of places adds at a priority.
pub fn raised(row: &[Place], level: usize, truth: bool) -> u64
    requires { raised row.now level truth < 2 ^ 60 }
    ensures { result ≡ raised row.now level truth }
{
    let mut sum = 0;
    for place in row {
        if place.level as usize == level {
            sum += rise_by(place, truth);
        }
    }
    sum
}

fn add(sums: &mut [i64], level: usize, rise: u64)
    requires within { level < length sums.old }
    requires small { rise < 2 ^ 60 }
    requires room { (slice_index_or sums.old level (pos 0) +ℤ pos rise) <ℤ pos (2 ^ 60) }
    ensures { sums.new ≡ slice_set sums.old level (slice_index_or sums.old level (pos 0) +ℤ pos rise) }
{
    sums[level] += rise as i64;
}

fn take(sums: &mut [i64], level: usize, rise: u64)
    requires within { level < length sums.old }
    requires small { rise < 2 ^ 60 }
    requires room { (neg_ℤ (pos (2 ^ 60)) +ℤ pos rise) ≤ℤ slice_index_or sums.old level (pos 0) }
    ensures { sums.new ≡ slice_set sums.old level (slice_index_or sums.old level (pos 0) -ℤ pos rise) }
{
    sums[level] -= rise as i64;
}

/// Adds what a value's places add.
pub fn raise(sums: &mut [i64], row: &[Place], truth: bool)
    requires within { All (λ o. o.level < length sums.old) row.now }
    requires small { (j : ℕ) → j < length sums.old → raised row.now j truth < 2 ^ 60 }
    requires room { (j : ℕ) → j < length sums.old → (slice_index_or sums.old j (pos 0) +ℤ pos (raised row.now j truth)) <ℤ pos (2 ^ 60) }
    ensures { (j : ℕ) → j < length sums.old → slice_index_or sums.new j (pos 0) ≡ slice_index_or sums.old j (pos 0) +ℤ pos (raised row.now j truth) }
{
    for place in row {
        add(sums, place.level as usize, rise_by(place, truth));
    }
}

/// Takes away what a value's places add.
pub fn lower(sums: &mut [i64], row: &[Place], truth: bool)
    requires within { All (λ o. o.level < length sums.old) row.now }
    requires small { (j : ℕ) → j < length sums.old → raised row.now j truth < 2 ^ 60 }
    requires room { (j : ℕ) → j < length sums.old → (neg_ℤ (pos (2 ^ 60)) +ℤ pos (raised row.now j truth)) ≤ℤ slice_index_or sums.old j (pos 0) }
    ensures { (j : ℕ) → j < length sums.old → slice_index_or sums.new j (pos 0) +ℤ pos (raised row.now j truth) ≡ slice_index_or sums.old j (pos 0) }
{
    for place in row {
        take(sums, place.level as usize, rise_by(place, truth));
    }
}
