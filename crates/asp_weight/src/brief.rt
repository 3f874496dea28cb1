//! The reason of a literal that followed from a long body, gathered from the literals that hold alone, in the order of the row.
ghost use Rattle.std.specs.Prelude.{◌≡◌, ◌+◌, ◌<◌, ◌≤◌, ◌^◌, [], ◌∷◌, IfOk, IfSome, IsTrue, length};
ghost use Rattle.std.specs.List.{All};
ghost use Rattle.asp_vars.specs.declared.nogood.Base.TheVariants as base;
ghost use Rattle.asp_weight.specs.Rows.{total_of};
ghost use Rattle.asp_weight.specs.Explained.{before};
ghost use Rattle.asp_weight.specs.Spoken.{item_at, IsReady};
ghost use Rattle.asp_weight.specs.Brief.{IsEnough, IsBy, IsBrief};

use crate::held::{Hints, Marked};
use crate::item::{Item, Shape, on};
use crate::look::need;
use crate::speech::add;
use asp_trail::trail::Trail;
use asp_vars::lit::Lit;
use asp_vars::nogood::{Base, Lits, Nogood};
use std::alloc::{AllocError, Global};

// Room for so many literals at first.
const FEW: usize = 8;

// Adds marked literals that held before a place until the sum is enough. None where all of them aren't.
fn gather_marked(
    mut lits: Vec<Lit>,
    side: bool,
    trail: &Trail,
    place: usize,
    need: u64,
    start: u64,
    row: &[Item],
    marked: Marked<'_>,
) -> Result<Option<Vec<Lit>>, AllocError>
    requires within { All (λ i. i.lit.var ≤ trail.now.vars) row.now }
    requires fits { start + total_of row.now < 2 ^ 64 }
    ensures { IfOk result (λ r. IfSome r (λ n. IsEnough side (before trail.now place) need start row.now lits.items n.items)) }
{
    let mut sum = start;
    let mut from = 0;
    while sum < need {
        let Some(at) = marked.next(from, row.len()) else {
            return Ok(None);
        };
        sum += add(&mut lits, side, trail, place, &row[at])?;
        from = at + 1;
    }
    Ok(Some(lits))
}

// A list of this literal, with room for a few more.
fn first_one(alloc: Global, lit: Lit) -> Result<Vec<Lit>, AllocError>
    ensures { IfOk result (λ v. v.items ≡ lit ∷ []) }
{
    let mut lits = Vec::with_capacity(alloc, FEW)?;
    lits.push(lit)?;
    Ok(lits)
}

// Of these two.
fn first_two(alloc: Global, lit: Lit, other: Lit) -> Result<Vec<Lit>, AllocError>
    ensures { IfOk result (λ v. v.items ≡ lit ∷ other ∷ []) }
{
    let mut lits = Vec::with_capacity(alloc, FEW)?;
    lits.push(lit)?;
    lits.push(other)?;
    Ok(lits)
}

// Where the body's own variable followed.
fn of_variable(
    alloc: Global,
    lit: Lit,
    trail: &Trail,
    place: usize,
    shape: &Shape,
    row: &[Item],
    marked: Marked<'_>,
) -> Result<Option<Vec<Lit>>, AllocError>
    requires ready { IsReady (before trail.now place) shape.now row.now }
    requires var { lit.var ≡ shape.now.var }
    ensures { IfOk result (λ r. IfSome r (λ n. IsBrief (before trail.now place) shape.now row.now lit n.items)) }
{
    let side = lit.truth();
    let lits = first_one(alloc, lit.complement())?;
    gather_marked(lits, side, trail, place, need(shape, side), 0, row, marked)
}

// Whether the literal can have followed by an item for this side: the item's says otherwise, and the body's variable had its value.
fn is_by(
    lit: Lit,
    side: bool,
    at: usize,
    trail: &Trail,
    place: usize,
    shape: &Shape,
    row: &[Item],
) -> bool
    requires vars { shape.now.var ≤ trail.now.vars }
    requires small { shape.now.var < 2 ^ 31 }
    requires var { lit.var ≤ trail.now.vars }
    requires at { at < length row.now }
    ensures { IsTrue result → IsBy side (before trail.now place) shape.now lit (item_at row.now at) }
{
    if on(side, row[at].lit) != lit.complement() {
        return false;
    }
    if trail.held_before(lit.complement(), place) {
        return false;
    }
    trail.held_before(Lit::new(shape.var, !side), place)
}

// The literals of the reason.
fn literals(
    alloc: Global,
    hints: &Hints<'_>,
    lit: Lit,
    trail: &Trail,
    place: usize,
    shape: &Shape,
    row: &[Item],
) -> Result<Option<Vec<Lit>>, AllocError>
    requires ready { IsReady (before trail.now place) shape.now row.now }
    requires vars { shape.now.var ≤ trail.now.vars }
    requires var { lit.var ≤ trail.now.vars }
    ensures { IfOk result (λ r. IfSome r (λ n. IsBrief (before trail.now place) shape.now row.now lit n.items)) }
{
    if lit.var() == shape.var {
        return of_variable(
            alloc,
            lit,
            trail,
            place,
            shape,
            row,
            hints.marked(lit.truth()),
        );
    }
    let Some(at) = hints.place_of(lit.var(), row.len()) else {
        return Ok(None);
    };
    let side = trail.held_before(Lit::new(shape.var, false), place);
    if !is_by(lit, side, at, trail, place, shape, row) {
        return Ok(None);
    }
    let item = &row[at];
    let head = Lit::new(shape.var, !side);
    let lits = first_two(alloc, lit.complement(), head)?;
    gather_marked(
        lits,
        side,
        trail,
        place,
        need(shape, side),
        item.weight,
        row,
        hints.marked(side),
    )
}

/// The nogood by which the literal at a place followed from a body, if the marked literals give it.
pub fn brief(
    alloc: Global,
    hints: &Hints<'_>,
    lit: Lit,
    trail: &Trail,
    place: usize,
    shape: &Shape,
    row: &[Item],
) -> Result<Option<Nogood>, AllocError>
    requires ready { IsReady (before trail.now place) shape.now row.now }
    requires vars { shape.now.var ≤ trail.now.vars }
    requires var { lit.var ≤ trail.now.vars }
    ensures lits { IfOk result (λ r. IfSome r (λ n. IsBrief (before trail.now place) shape.now row.now lit n.lits)) }
    ensures base { IfOk result (λ r. IfSome r (λ n. n.base ≡ base.Pure)) }
{
    let all = literals(alloc, hints, lit, trail, place, shape, row)?;
    match all {
        None => Ok(None),
        Some(all) => {
            let lits = Lits::from_slice(alloc, all.as_slice())?;
            Ok(Some(Nogood {
                lits,
                base: Base::Pure,
            }))
        }
    }
}
