//! The nogoods of bodies that aren't silent.
ghost use Rattle.std.specs.Prelude.{◌≡◌, ◌+◌, ◌<◌, ◌≤◌, ◌^◌, ◌++◌, IfOk, OnOk, length};
ghost use Rattle.std.specs.List.{All};
ghost use Rattle.std.specs.Option.{ForSome};
ghost use Rattle.asp_vars.specs.Literals.{holds_in};
ghost use Rattle.asp_weight.specs.Rows.{on, weight_if, total_of};
ghost use Rattle.asp_weight.specs.Explained.{before};
ghost use Rattle.asp_weight.specs.Spoken.{held, gathered, spoken_as, spoken, IsReady};

use crate::item::{Item, Shape, on};
use crate::look::{Speech, need};
use asp_trail::trail::Trail;
use asp_vars::lit::Lit;
use asp_vars::nogood::{Base, Lits, Nogood};
use std::alloc::{AllocError, Global};

/// Adds the item's literal for the side if it held before a place, and says what that weighs.
pub fn add(
    lits: &mut Vec<Lit>,
    side: bool,
    trail: &Trail,
    place: usize,
    item: &Item,
) -> Result<u64, AllocError>
    requires { item.now.lit.var ≤ trail.now.vars }
    ensures lits { OnOk result (lits.new.items ≡ lits.old.items ++ held side (before trail.now place) item.now) }
    ensures weight { IfOk result (λ w. w ≡ weight_if (holds_in (before trail.now place)) side item.now) }
{
    let lit = on(side, item.lit);
    if trail.held_before(lit, place) {
        lits.push(lit)?;
        Ok(item.weight)
    } else {
        Ok(0)
    }
}

// Adds literals for the side that held before a place, the heaviest first, until the sum is enough.
fn gather(
    mut lits: Vec<Lit>,
    side: bool,
    trail: &Trail,
    place: usize,
    need: u64,
    start: u64,
    row: &[Item],
) -> Result<Vec<Lit>, AllocError>
    requires within { All (λ i. i.lit.var ≤ trail.now.vars) row.now }
    requires fits { start + total_of row.now < 2 ^ 64 }
    ensures { IfOk result (λ n. n.items ≡ lits.items ++ gathered side (before trail.now place) need start row.now) }
{
    let mut sum = start;
    for item in row {
        if need <= sum {
            return Ok(lits);
        }
        sum += add(&mut lits, side, trail, place, item)?;
    }
    Ok(lits)
}

// The literals that held before a place settle the side, against the body's variable.
fn settled(
    alloc: Global,
    side: bool,
    trail: &Trail,
    place: usize,
    shape: &Shape,
    row: &[Item],
) -> Result<Vec<Lit>, AllocError>
    requires { IsReady (before trail.now place) shape.now row.now }
    ensures { IfOk result (λ n. n.items ≡ spoken_as None side (before trail.now place) shape.now row.now) }
{
    let mut lits = Vec::with_capacity(alloc, row.len())?;
    lits.push(Lit::new(shape.var, !side))?;
    gather(lits, side, trail, place, need(shape, side), 0, row)
}

// With an open literal they would.
fn implied(
    alloc: Global,
    side: bool,
    trail: &Trail,
    place: usize,
    shape: &Shape,
    row: &[Item],
    spot: usize,
) -> Result<Vec<Lit>, AllocError>
    requires ready { IsReady (before trail.now place) shape.now row.now }
    requires spot { spot < length row.now }
    ensures { IfOk result (λ n. n.items ≡ spoken_as (Some spot) side (before trail.now place) shape.now row.now) }
{
    let item = &row[spot];
    let mut lits = Vec::with_capacity(alloc, row.len())?;
    lits.push(on(side, item.lit))?;
    lits.push(Lit::new(shape.var, !side))?;
    gather(
        lits,
        side,
        trail,
        place,
        need(shape, side),
        item.weight,
        row,
    )
}

/// The nogood of what a body said before the entry at a place came.
pub fn speak(
    alloc: Global,
    speech: &Speech,
    trail: &Trail,
    place: usize,
    shape: &Shape,
    row: &[Item],
) -> Result<Nogood, AllocError>
    requires ready { IsReady (before trail.now place) shape.now row.now }
    requires open { ForSome speech.now.open (λ j. j < length row.now) }
    ensures lits { IfOk result (λ n. n.lits ≡ spoken speech.now (before trail.now place) shape.now row.now) }
    ensures base { IfOk result (λ n. n.base ≡ Base.Pure) }
{
    let all = match speech.open {
        None => settled(alloc, speech.side, trail, place, shape, row)?,
        Some(spot) => implied(alloc, speech.side, trail, place, shape, row, spot)?,
    };
    let lits = Lits::from_slice(alloc, all.as_slice())?;
    Ok(Nogood {
        lits,
        base: Base::Pure,
    })
}
