//! Visits to the places of a literal's list, where its level may be below the trail's.
//!
//! A nogood stands in the lists of the two literals that it watches, each time beside another literal of it, the blocker.
//! The literal whose list is walked holds. The nogood's row is read: the other watch tells, or another literal that doesn't
//! hold becomes its watch; where there is none, the other watch is false from now on, or the nogood is violated. A number whose
//! nogood doesn't watch this literal any more is dropped from the list. No blocker is read, and no place is believed to tell
//! its nogood: what is false by its value, or made false, may be so at a level above the front's.
ghost use Rattle.std.specs.Prelude.{◌≡◌, ℕ, ◌<◌, ◌≤◌, Some, None, OnOk, IfOk, MatchOption, IsTrue, slice_get, false};
ghost use Rattle.std.specs.List.{All};
ghost use Rattle.asp_vars.specs.Codes.{code_of};
ghost use Rattle.asp_vars.specs.declared.nogood.Nogood.{Nogood};
ghost use Rattle.asp_trail.specs.Entries.{assignment};
ghost use Rattle.asp_store.specs.declared.watch.Pair.{Pair};
ghost use Rattle.asp_store.specs.Marks.{Watch};
ghost use Rattle.asp_arena.specs.Rows.{row_at};
ghost use Rattle.asp_store.specs.Keeping.{nogood_at};
ghost use Rattle.asp_store.specs.Lists.{size, place};
ghost use Rattle.asp_store.specs.Looking.{AreTrueBeside};
ghost use Rattle.asp_store.specs.Pairs.{pair_at, IsOneOf};
ghost use Rattle.asp_store.specs.Fitting.{IsFalseBy, Extends};
ghost use Rattle.asp_store.specs.Sounding.{IsSound};
ghost use Rattle.asp_store.specs.Walking.{IsWalking, IsVisit, MayWatch, Steps};

use crate::front::{Front, Step};
use crate::looks::{Spot, beside_from, end_nogood};
use crate::rows::{rewatch, watched_beside};
use crate::stored_nogood::StoredNogood;
use crate::watch::Watch;
use crate::watches::Watches;
use asp_trail::trail::Trail;
use asp_vars::lit::Lit;
use std::alloc::AllocError;

/// Whether the literal is seen at once to be false at this level or below.
pub fn is_quick(lit: Lit, level: usize, is_top: bool, trail: &Trail) -> bool
    requires small { lit.var ≤ trail.now.vars }
    requires top { IsTrue is_top → All (λ e. e.level ≤ level) trail.now.entries }
    ensures { IsTrue result → IsFalseBy trail.now.entries lit level }
{
    let _len = trail.len();
    if !trail.assignment().is_false(lit) {
        return false;
    }
    is_top || trail.level_of(lit.var()) <= level
}

fn is_false_by(lit: Lit, front: &Front, trail: &Trail) -> bool
    requires { lit.var ≤ trail.now.vars }
    ensures { IsTrue result → IsFalseBy trail.now.entries lit front.now.level }
{
    is_quick(lit, front.level, front.level == trail.level(), trail)
}

// The literals of the nogood under a number, if it has one.
pub fn lits_at(slots: &[Option<StoredNogood>], id: u32) -> Option<&[Lit]>
    ensures { MatchOption result (nogood_at slots.now id ≡ None) (λ l. (n : Nogood) × (nogood_at slots.now id ≡ Some n) × (n.lits ≡ l.now)) }
{
    if id as usize >= slots.len() {
        return None;
    }
    match &slots[id as usize] {
        None => None,
        Some(kept) => Some(kept.nogood.lits.as_slice()),
    }
}

// The nogood is blocked by its other watch, which is false.
fn block(
    watches: &mut Watches,
    slots: &[Option<StoredNogood>],
    i: usize,
    id: u32,
    other: Lit,
    front: &Front,
    trail: &Trail,
)
    requires visit { IsVisit slots.now watches.old trail.now front.now i id other }
    requires is_false { IsFalseBy trail.now.entries other front.now.level }
    ensures { Steps slots.now watches.old watches.new trail.now front.now i Step.Stays }
{
    let _len = trail.len();
    watches
        .lists
        .set_watch(front.lit, i, Watch::new(other, id, false));
}

// The place goes, as the nogood doesn't watch the literal.
fn leave(
    watches: &mut Watches,
    slots: &[Option<StoredNogood>],
    i: usize,
    id: u32,
    front: &Front,
    trail: &Trail,
)
    requires walking { IsWalking slots.now watches.old trail.now front.now i }
    requires at { (w : Watch) × (place watches.old.lists (code_of front.now.lit) i ≡ Some w) × (w.id ≡ id) }
    requires gone { (n : Nogood) (p : Pair) → nogood_at slots.now id ≡ Some n → pair_at watches.old.rows id ≡ Some p → IsOneOf p front.now.lit → ⊥ }
    ensures { Steps slots.now watches.old watches.new trail.now front.now i Step.Goes }
{
    let _len = trail.len();
    watches.lists.take(front.lit, i);
}

// Another literal becomes the watch in place of the front's.
fn move_watch(
    watches: &mut Watches,
    slots: &[Option<StoredNogood>],
    i: usize,
    id: u32,
    other: Lit,
    spot: Spot,
    front: &Front,
    trail: &Trail,
) -> Result<(), AllocError>
    requires visit { IsVisit slots.now watches.old trail.now front.now i id other }
    requires may { MayWatch slots.now trail.now id other spot.lit }
    requires stands { slice_get (row_at watches.old.rows id) spot.place ≡ Some spot.lit }
    ensures sound { IsSound slots.now watches.new trail.now }
    ensures steps { OnOk result (Steps slots.now watches.old watches.new trail.now front.now i Step.Goes) }
{
    let _len = trail.len();
    watches.lists.push(spot.lit, Watch::new(other, id, false))?;
    rewatch(&mut watches.rows, id, front.lit, other, spot);
    leave(watches, slots, i, id, front, trail);
    Ok(())
}

// No literal watches the nogood in place of the front's.
fn set_apart(
    watches: &mut Watches,
    slots: &[Option<StoredNogood>],
    i: usize,
    id: u32,
    other: Lit,
    front: &Front,
    trail: &Trail,
) -> Result<(), AllocError>
    requires visit { IsVisit slots.now watches.old trail.now front.now i id other }
    requires is_false { (b : ℕ) × IsFalseBy trail.now.entries other b }
    ensures sound { IsSound slots.now watches.new trail.now }
    ensures steps { OnOk result (Steps slots.now watches.old watches.new trail.now front.now i Step.Goes) }
{
    watches.apart.push(id)?;
    watches.rows.clear(id as usize);
    leave(watches, slots, i, id, front, trail);
    Ok(())
}

// All literals but the other watch hold.
fn visit_last(
    watches: &mut Watches,
    slots: &[Option<StoredNogood>],
    i: usize,
    id: u32,
    other: Lit,
    front: &Front,
    trail: &mut Trail,
) -> Result<Step, AllocError>
    requires visit { IsVisit slots.now watches.old trail.old front.now i id other }
    requires others { AreTrueBeside trail.old.vars trail.old.entries (row_at watches.old.rows id) other }
    requires room { trail.old.vars ≤ trail.old.room }
    ensures same { trail.new ≡ record trail.old { entries = trail.new.entries } }
    ensures extends { Extends slots.now trail.old.entries trail.new.entries }
    ensures sound { IsSound slots.now watches.new trail.new }
    ensures steps { IfOk result (Steps slots.now watches.old watches.new trail.new front.now i) }
{
    let row = watches.rows.row(id as usize);
    match end_nogood(row, slots, id as usize, other, trail) {
        Some(violated) => Ok(Step::Violated(violated)),
        None => {
            let _len = trail.len();
            if trail.level_of(other.var()) <= front.level {
                block(watches, slots, i, id, other, front, trail);
                return Ok(Step::Stays);
            }
            set_apart(watches, slots, i, id, other, front, trail)?;
            Ok(Step::Goes)
        }
    }
}

// Looks at the nogood's row, as its other watch isn't seen to be false.
fn visit_long(
    watches: &mut Watches,
    slots: &[Option<StoredNogood>],
    i: usize,
    id: u32,
    other: Lit,
    front: &Front,
    trail: &mut Trail,
) -> Result<Step, AllocError>
    requires visit { IsVisit slots.now watches.old trail.old front.now i id other }
    requires room { trail.old.vars ≤ trail.old.room }
    ensures same { trail.new ≡ record trail.old { entries = trail.new.entries } }
    ensures extends { Extends slots.now trail.old.entries trail.new.entries }
    ensures sound { IsSound slots.now watches.new trail.new }
    ensures steps { IfOk result (Steps slots.now watches.old watches.new trail.new front.now i) }
{
    let _len = trail.len();
    let start = watches.rows.start(id as usize);
    match beside_from(
        watches.rows.row(id as usize),
        start,
        other,
        trail.assignment(),
    ) {
        Some(spot) => {
            move_watch(watches, slots, i, id, other, spot, front, trail)?;
            Ok(Step::Goes)
        }
        None => visit_last(watches, slots, i, id, other, front, trail),
    }
}

/// Visits the i-th place of the front's list.
pub fn visit_place(
    watches: &mut Watches,
    slots: &[Option<StoredNogood>],
    i: usize,
    front: &Front,
    trail: &mut Trail,
) -> Result<Step, AllocError>
    requires walking { IsWalking slots.now watches.old trail.old front.now i }
    requires within { i < size watches.old.lists (code_of front.now.lit) }
    requires room { trail.old.vars ≤ trail.old.room }
    ensures same { trail.new ≡ record trail.old { entries = trail.new.entries } }
    ensures extends { Extends slots.now trail.old.entries trail.new.entries }
    ensures sound { IsSound slots.now watches.new trail.new }
    ensures steps { IfOk result (Steps slots.now watches.old watches.new trail.new front.now i) }
{
    let watch = watches.lists.watch(front.lit, i);
    let id = watch.id();
    match watched_beside(&watches.rows, id, front.lit) {
        None => {
            leave(watches, slots, i, id, front, trail);
            Ok(Step::Goes)
        }
        Some(other) => {
            let is_blocked = is_false_by(other, front, trail);
            if is_blocked {
                block(watches, slots, i, id, other, front, trail);
                return Ok(Step::Stays);
            }
            visit_long(watches, slots, i, id, other, front, trail)
        }
    }
}
