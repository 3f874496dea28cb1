//! Which literals a nogood of the bound needs.
ghost use Rattle.std.specs.Prelude.{◌≡◌, ◌<◌, ◌≤◌, ◌^◌, ◌∷◌, ◌++◌, ◌+ℤ◌, ◌≤ℤ◌, ◌<ℤ◌, ℕ, Bool, List, if◌then◌else◌, pos, neg_ℤ, length, slice_index_or, IfOk, OnOk};
ghost use Rattle.std.specs.List.{All};
ghost use Rattle.asp_vars.specs.Literals.{Literal};
ghost use Rattle.asp_bound.specs.Rises.{raised, row_at};
ghost use Rattle.asp_bound.specs.Reach.{reach};
ghost use Rattle.asp_bound.specs.Needed.{is_shown, lowered, total, needed};

use crate::place::Place;
use crate::reach::reach;
use crate::sums::{lower, raise};
use asp_table::table::Table;
use asp_vars::lit::Lit;
use std::alloc::{AllocError, Global};

// Whether one of the first sums shows that they reach the bound.
fn is_reached(sums: &[i64], bound: &[i64], depth: usize) -> bool
    requires { (j : ℕ) → j < length sums.now → slice_index_or sums.now j (pos 0) <ℤ pos (2 ^ 60) }
    ensures { result ≡ is_shown depth (reach sums.now bound.now) }
{
    match reach(sums, bound, &[], true) {
        Some(shown) => shown <= depth,
        None => false,
    }
}

// Takes away what the row adds by a value, if the sums reach the bound without it.
fn leave_out(sums: &mut [i64], row: &[Place], truth: bool, bound: &[i64], depth: usize) -> bool
    requires within { All (λ o. o.level < length sums.old) row.now }
    requires small { (j : ℕ) → j < length sums.old → raised row.now j truth < 2 ^ 60 }
    requires low { (j : ℕ) → j < length sums.old → (neg_ℤ (pos (2 ^ 60)) +ℤ pos (raised row.now j truth)) ≤ℤ slice_index_or sums.old j (pos 0) }
    requires high { (j : ℕ) → j < length sums.old → slice_index_or sums.old j (pos 0) <ℤ pos (2 ^ 60) }
    ensures out { result ≡ is_shown depth (reach (lowered (λ j. raised row.now j truth) sums.old) bound.now) }
    ensures sums { sums.new ≡ (if result then lowered (λ j. raised row.now j truth) sums.old else sums.old) }
{
    lower(sums, row, truth);
    if is_reached(sums, bound, depth) {
        return true;
    }
    raise(sums, row, truth);
    false
}

// Adds the literal, if the sums don't reach the bound without what it adds.
fn add_needed(
    lits: &mut Vec<Lit>,
    rows: &Table<Place>,
    sums: &mut [i64],
    bound: &[i64],
    depth: usize,
    lit: Lit,
) -> Result<(), AllocError>
    requires row { lit.var < length rows.now }
    requires within { All (λ o. o.level < length sums.old) (row_at rows.now lit.var) }
    requires small { (j : ℕ) → j < length sums.old → raised (row_at rows.now lit.var) j lit.truth < 2 ^ 60 }
    requires low { (j : ℕ) → j < length sums.old → (neg_ℤ (pos (2 ^ 60)) +ℤ pos (raised (row_at rows.now lit.var) j lit.truth)) ≤ℤ slice_index_or sums.old j (pos 0) }
    requires high { (j : ℕ) → j < length sums.old → slice_index_or sums.old j (pos 0) <ℤ pos (2 ^ 60) }
    ensures needed { OnOk result ((rest : List Literal) → lits.new.items ++ needed rows.now bound.now depth sums.new rest ≡ lits.old.items ++ needed rows.now bound.now depth sums.old (lit ∷ rest)) }
    ensures fallen { (j : ℕ) → j < length sums.old → slice_index_or sums.new j (pos 0) ≤ℤ slice_index_or sums.old j (pos 0) }
    ensures least { (j : ℕ) → j < length sums.old → slice_index_or sums.old j (pos 0) ≤ℤ (slice_index_or sums.new j (pos 0) +ℤ pos (raised (row_at rows.now lit.var) j lit.truth)) }
{
    let row = rows.row(lit.var() as usize);
    if !leave_out(sums, row, lit.truth(), bound, depth) {
        lits.push(lit)?;
    }
    Ok(())
}

/// Of the literals that raise the sums those that it takes to reach the bound at one of the first priorities: each is left out,
/// the first one first, if the sums still reach it without the literal. The sums become those without what was left out.
pub fn needed(
    alloc: Global,
    rows: &Table<Place>,
    sums: &mut [i64],
    bound: &[i64],
    depth: usize,
    raising: &[Lit],
) -> Result<Vec<Lit>, AllocError>
    requires vars { All (λ l. (0 < l.var) × (l.var < length rows.now)) raising.now }
    requires within { (v : ℕ) → All (λ o. o.level < length sums.old) (row_at rows.now v) }
    requires small { (v j : ℕ) (b : Bool) → 0 < v → v < length rows.now → j < length sums.old → raised (row_at rows.now v) j b < 2 ^ 60 }
    requires low { (j : ℕ) → j < length sums.old → (neg_ℤ (pos (2 ^ 60)) +ℤ pos (total rows.now j raising.now)) ≤ℤ slice_index_or sums.old j (pos 0) }
    requires high { (j : ℕ) → j < length sums.old → slice_index_or sums.old j (pos 0) <ℤ pos (2 ^ 60) }
    ensures { IfOk result (λ lits. lits.items ≡ needed rows.now bound.now depth sums.old raising.now) }
{
    let mut lits = Vec::with_capacity(alloc, raising.len())?;
    for lit in raising {
        add_needed(&mut lits, rows, sums, bound, depth, *lit)?;
    }
    Ok(lits)
}
