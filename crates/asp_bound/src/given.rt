//! What the bound says: the nogood of what raises the optimistic cost to the bound, or a literal whose complement would.
ghost use Rattle.std.specs.Prelude.{◌≡◌, ◌^◌, ◌+◌, ◌++◌, IfOk, IfSome, Some, is_none};
ghost use Rattle.std.specs.Option.{option_to_list};
ghost use Rattle.asp_trail.specs.Entries.{assignment};
ghost use Rattle.asp_vars.specs.Literals.{complement as opposite};
ghost use Rattle.asp_vars.specs.Numbering.{var_count};
ghost use Rattle.asp_vars.specs.declared.nogood.Base.TheVariants as base;
ghost use Rattle.asp_bound.specs.Explained.{IsExplained, IsSaid};
ghost use Rattle.asp_bound.specs.Needed.{MayFall, needed};
ghost use Rattle.asp_bound.specs.Priced.{IsPriced};
ghost use Rattle.asp_bound.specs.Raisers.{AreRaisers};
ghost use Rattle.asp_bound.specs.Silence.{is_silent};
ghost use Rattle.asp_bound.specs.Starts.{AreStarts};

use crate::find::find;
use crate::needed::needed;
use crate::place::Place;
use crate::priced::Priced;
use crate::reach::reach;
use crate::reasons::{below, raising};
use asp_model::cost::Cost;
use asp_table::table::Table;
use asp_trail::said::{Implied, Said};
use asp_trail::trail::Trail;
use asp_vars::assign::Assign;
use asp_vars::lit::{Lit, Var};
use asp_vars::nogood::Nogood;
use std::alloc::{AllocError, Global};

/// The name of what follows by the bound, which no weight body has.
pub const BY_BOUND: u32 = 0x7fff_ffff;

/// The nogood of those of the literals that it takes to reach the cost by the sums at one of the first priorities, and of one more
/// where the sums count one.
pub fn nogood_by(
    alloc: Global,
    rows: &Table<Place>,
    found: &[Lit],
    sums: &mut [i64],
    cost: &Cost,
    depth: usize,
    more: Option<Lit>,
) -> Result<Nogood, AllocError>
    requires { MayFall rows.now sums.old found.now }
    ensures { IfOk result (λ n. n ≡ record { lits = needed rows.now cost.now depth sums.old found.now ++ option_to_list more; base = base.Below cost.now }) }
{
    let limits = cost.as_slice();
    let lits = needed(alloc, rows, sums, limits, depth, found)?;
    below(alloc, lits, cost, more)
}

// The literal that follows, since its complement reaches the bound.
fn follows(complement: Lit) -> Implied
    ensures { result ≡ record { lit = opposite complement; name = 2147483647 } }
{
    Implied {
        lit: complement.complement(),
        name: BY_BOUND,
    }
}

/// A literal that follows by the cost that stands as the bound. None says nothing.
pub fn following(
    priced: &Priced,
    trail: &Trail,
    values: &Assign,
    sums: &[i64],
    cost: &Cost,
    starts: &mut [usize],
) -> Option<Implied>
    requires vars { trail.now.vars ≡ var_count priced.now.origin.value }
    requires shown { values.now ≡ assignment trail.now.vars trail.now.entries }
    requires kept { IsPriced priced.now values.now sums.now }
    requires starts { AreStarts values.now priced.now.columns starts.old }
    ensures starts { AreStarts values.now priced.now.columns starts.new }
    ensures follows { IfSome result (λ i. IsExplained priced.now.origin.value (Some cost.now) trail.now.entries i.lit × (i.name + 1 ≡ 2 ^ 31)) }
{
    let _ = trail;
    let limits = cost.as_slice();
    let Some(implied) = find(values, &priced.rows, &priced.columns, sums, limits, starts) else {
        return None;
    };
    Some(follows(implied.lit))
}

/// What the cost that stands as the bound has to say.
pub fn given(
    alloc: Global,
    priced: &Priced,
    trail: &Trail,
    values: &Assign,
    raisers: &[Var],
    sums: &[i64],
    cost: &Cost,
    starts: &mut [usize],
) -> Result<Option<Said>, AllocError>
    requires vars { trail.now.vars ≡ var_count priced.now.origin.value }
    requires shown { values.now ≡ assignment trail.now.vars trail.now.entries }
    requires kept { IsPriced priced.now values.now sums.now }
    requires starts { AreStarts values.now priced.now.columns starts.old }
    requires raisers { AreRaisers values.now priced.now.rows raisers.now }
    ensures starts { AreStarts values.now priced.now.columns starts.new }
    ensures silent { IfOk result (λ n. is_none n ≡ is_silent priced.now.origin.value (Some cost.now) values.now) }
    ensures said { IfOk result (λ n. IfSome n (IsSaid (record { told = record { program = priced.now.origin.value; values = values.now }; bound = Some cost.now }) trail.now.entries)) }
{
    let rows = &priced.rows;
    let limits = cost.as_slice();
    if let Some(depth) = reach(sums, limits, &[], true) {
        let mut copy = sums.to_vec(alloc)?;
        let found = raising(alloc, trail, trail.len(), rows, raisers, depth)?;
        let left = copy.as_mut_slice();
        let nogood = nogood_by(alloc, rows, found.as_slice(), left, cost, depth, None)?;
        return Ok(Some(Said::Nogood(nogood)));
    }
    let Some(implied) = find(values, rows, &priced.columns, sums, limits, starts) else {
        return Ok(None);
    };
    Ok(Some(Said::Implied(follows(implied.lit))))
}
