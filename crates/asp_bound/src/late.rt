//! The reason of a literal that followed by the bound, written when it is asked for.
//!
//! The sums before the literal came are made anew, from what the variables add whose values had come before, in one walk with
//! the literals of these values. The bound may be smaller than the one that stood then, which takes less to reach.
ghost use Rattle.std.specs.Prelude.{◌≡◌, ◌+◌, ◌++◌, ◌<◌, Some, None, IfOk, OnOk, length, take, slice_index, slice_index_or, slice_set};
ghost use Rattle.std.specs.List.{flat_map};
ghost use Rattle.asp_trail.specs.declared.trail.Entry.{Entry};
ghost use Rattle.asp_trail.specs.Reasons.{IsReason};
ghost use Rattle.asp_trail.specs.Trails.{IsVar};
ghost use Rattle.asp_vars.specs.Literals.{value_of};
ghost use Rattle.asp_vars.specs.Numbering.{var_count};
ghost use Rattle.asp_bound.specs.Explained.{IsExplained, IsTooDear};
ghost use Rattle.asp_bound.specs.Late.{AreOnce, HaveTold, only};
ghost use Rattle.asp_bound.specs.Priced.{IsPriced, AreTables};
ghost use Rattle.asp_bound.specs.Reasons.{before, held_at};

use crate::before::value_before;
use crate::given::nogood_by;
use crate::priced::Priced;
use crate::reach::reach;
use crate::sums::raise;
use asp_model::cost::Cost;
use asp_trail::trail::Trail;
use asp_vars::lit::{Lit, Var};
use asp_vars::nogood::Nogood;
use std::alloc::{AllocError, Global};

// Adds the literal of a variable's value before a place, and what the value adds to the sums, if the variable had one.
fn add_before(
    lits: &mut Vec<Lit>,
    sums: &mut [i64],
    priced: &Priced,
    trail: &Trail,
    place: usize,
    raisers: &[Var],
    i: usize,
) -> Result<(), AllocError>
    requires vars { trail.now.vars ≡ var_count priced.now.origin.value }
    requires within { i < length raisers.now }
    requires raisers { AreOnce trail.now.vars raisers.now }
    requires kept { IsPriced priced.now (only (before trail.now place) (take i raisers.now)) sums.old }
    ensures lits { OnOk result (lits.new.items ≡ lits.old.items ++ held_at (before trail.now place) (slice_index raisers.now i)) }
    ensures kept { OnOk result (IsPriced priced.now (only (before trail.now place) (take (i + 1) raisers.now)) sums.new) }
{
    let var = raisers[i];
    if let Some(truth) = value_before(trail, place, var) {
        let row = priced.rows.row(var as usize);
        raise(sums, row, truth);
        lits.push(Lit::new(var, truth))?;
    }
    Ok(())
}

// Adds the literals of the values that some variables had before a place, and gives the optimistic cost of these values.
fn all_before(
    alloc: Global,
    lits: &mut Vec<Lit>,
    priced: &Priced,
    trail: &Trail,
    place: usize,
    raisers: &[Var],
) -> Result<Vec<i64>, AllocError>
    requires vars { trail.now.vars ≡ var_count priced.now.origin.value }
    requires raisers { AreOnce trail.now.vars raisers.now }
    requires tables { AreTables priced.now }
    ensures lits { OnOk result (lits.new.items ≡ lits.old.items ++ flat_map (held_at (before trail.now place)) raisers.now) }
    ensures kept { IfOk result (λ sums. IsPriced priced.now (only (before trail.now place) raisers.now) sums.items) }
{
    let mut sums = priced.least.as_slice().to_vec(alloc)?;
    for i in 0..raisers.len() {
        add_before(lits, sums.as_mut_slice(), priced, trail, place, raisers, i)?;
    }
    Ok(sums)
}

// Adds the literals of the values that these variables had before a place, and gives the optimistic cost of all values there
// and of a literal that has none there. The variables are those whose values, as far as told, raise the cost.
fn all_with(
    alloc: Global,
    lits: &mut Vec<Lit>,
    priced: &Priced,
    trail: &Trail,
    place: usize,
    raisers: &[Var],
    lit: Lit,
) -> Result<Vec<i64>, AllocError>
    requires vars { trail.now.vars ≡ var_count priced.now.origin.value }
    requires tables { AreTables priced.now }
    requires raisers { HaveTold trail.now place priced.now.rows raisers.now }
    requires var { IsVar (var_count priced.now.origin.value) lit.var }
    requires none { value_of (before trail.now place) lit.var ≡ None }
    ensures lits { OnOk result (lits.new.items ≡ lits.old.items ++ flat_map (held_at (before trail.now place)) raisers.now) }
    ensures kept { IfOk result (λ sums. IsPriced priced.now (slice_set (before trail.now place) lit.var (Some lit.truth)) sums.items) }
{
    let _len = trail.len();
    let row = priced.rows.row(lit.var() as usize);
    let mut sums = all_before(alloc, lits, priced, trail, place, raisers)?;
    raise(sums.as_mut_slice(), row, lit.truth());
    Ok(sums)
}

/// The nogood by which the literal at a place followed. The costs below the one that stands now exclude it, and it is the
/// literal's reason.
pub fn explained(
    alloc: Global,
    priced: &Priced,
    trail: &Trail,
    place: usize,
    raisers: &[Var],
    cost: &Cost,
) -> Result<Nogood, AllocError>
    requires vars { trail.now.vars ≡ var_count priced.now.origin.value }
    requires place { place < length trail.now.entries }
    requires tables { AreTables priced.now }
    requires raisers { HaveTold trail.now place priced.now.rows raisers.now }
    requires explained { (d : Entry) → IsExplained priced.now.origin.value (Some cost.now) (take place trail.now.entries) (slice_index_or trail.now.entries place d).lit }
    ensures { IfOk result (λ n. IsTooDear priced.now.origin.value (Some cost.now) n × ((d : Entry) → IsReason trail.now.entries place (slice_index_or trail.now.entries place d).lit n.lits)) }
{
    let _len = trail.len();
    let limits = cost.as_slice();
    let rows = &priced.rows;
    let lit = trail.lit(place).complement();
    let mut found = Vec::with_capacity(alloc, raisers.len())?;
    let mut sums = all_with(alloc, &mut found, priced, trail, place, raisers, lit)?;
    found.as_mut_slice().reverse();
    let left = sums.as_mut_slice();
    let Some(depth) = reach(left, limits, &[], true) else {
        unreachable!()
    };
    nogood_by(alloc, rows, found.as_slice(), left, cost, depth, Some(lit))
}
