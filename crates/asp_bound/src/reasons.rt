//! Nogoods that the bound gives.
ghost use Rattle.std.specs.Prelude.{◌≡◌, ◌+◌, ◌<◌, ◌≤◌, ◌^◌, ◌++◌, IfOk, OnOk, length};
ghost use Rattle.std.specs.List.{All, flat_map};
ghost use Rattle.std.specs.List.Sorted.{IsPermutation};
ghost use Rattle.std.specs.Option.{option_to_list};
ghost use Rattle.asp_vars.specs.declared.nogood.Base.TheVariants as base;
ghost use Rattle.asp_bound.specs.Reasons.{before, raises, raising_at};

use crate::before::value_before;
use crate::place::Place;
use crate::sums::rise_by;
use asp_model::cost::Cost;
use asp_table::table::Table;
use asp_trail::trail::Trail;
use asp_vars::lit::{Lit, Var};
use asp_vars::nogood::{Base, Lits, Nogood};
use std::alloc::{AllocError, Global};

// Whether a place in the row adds something by the value, at one of the first priorities.
fn raises(row: &[Place], depth: usize, truth: bool) -> bool
    ensures { result ≡ raises row.now depth truth }
{
    for place in row {
        if (place.level as usize) < depth && rise_by(place, truth) > 0 {
            return true;
        }
    }
    false
}

// Adds the literal of the variable's value before a place, if it adds something.
fn add_raising(
    lits: &mut Vec<Lit>,
    trail: &Trail,
    place: usize,
    rows: &Table<Place>,
    depth: usize,
    var: Var,
) -> Result<(), AllocError>
    requires few { var < 2 ^ 31 }
    requires var { var ≤ trail.now.vars }
    requires row { var < length rows.now }
    ensures { OnOk result (lits.new.items ≡ lits.old.items ++ raising_at (before trail.now place) rows.now depth var) }
{
    if let Some(truth) = value_before(trail, place, var) {
        if raises(rows.row(var as usize), depth, truth) {
            lits.push(Lit::new(var, truth))?;
        }
    }
    Ok(())
}

// The literals of values before a place that raise the cost at one of the first priorities.
fn all_raising(
    alloc: Global,
    trail: &Trail,
    place: usize,
    rows: &Table<Place>,
    vars: &[Var],
    depth: usize,
) -> Result<Vec<Lit>, AllocError>
    requires few { trail.now.vars < 2 ^ 31 }
    requires rows { length rows.now ≡ trail.now.vars + 1 }
    requires within { All (λ v. v ≤ trail.now.vars) vars.now }
    ensures { IfOk result (λ lits. lits.items ≡ flat_map (raising_at (before trail.now place) rows.now depth) vars.now) }
{
    let mut lits = Vec::with_capacity(alloc, vars.len())?;
    for var in vars {
        add_raising(&mut lits, trail, place, rows, depth, *var)?;
    }
    Ok(lits)
}

/// The literals of these variables that held before a place and raise the cost at one of the first priorities, those of the
/// last variables first.
pub fn raising(
    alloc: Global,
    trail: &Trail,
    place: usize,
    rows: &Table<Place>,
    vars: &[Var],
    depth: usize,
) -> Result<Vec<Lit>, AllocError>
    requires few { trail.now.vars < 2 ^ 31 }
    requires rows { length rows.now ≡ trail.now.vars + 1 }
    requires within { All (λ v. v ≤ trail.now.vars) vars.now }
    ensures { IfOk result (λ lits. IsPermutation (flat_map (raising_at (before trail.now place) rows.now depth) vars.now) lits.items) }
{
    let mut lits = all_raising(alloc, trail, place, rows, vars, depth)?;
    lits.as_mut_slice().reverse();
    Ok(lits)
}

/// The nogood of these literals, and maybe one more, that is below the cost.
pub fn below(
    alloc: Global,
    lits: Vec<Lit>,
    cost: &Cost,
    more: Option<Lit>,
) -> Result<Nogood, AllocError>
    ensures { IfOk result (λ n. n ≡ record { lits = lits.items ++ option_to_list more; base = base.Below cost.now }) }
{
    let mut all = lits;
    if let Some(lit) = more {
        all.push(lit)?;
    }
    let lits = Lits::from_slice(alloc, all.as_slice())?;
    let base = Base::Below(cost.copy()?);
    Ok(Nogood { lits, base })
}
