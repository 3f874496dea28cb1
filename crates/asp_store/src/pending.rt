//! Nogoods that aren't watched: new ones, and those that no two literals can watch yet. They are looked at whole as a
//! propagation begins.
ghost use Rattle.std.specs.Prelude.{◌≡◌, ◌<◌, ◌≤◌, IfOk, IfSome, IfNone, OnOk, Some, length};
ghost use Rattle.asp_vars.specs.declared.nogood.Nogood.{Nogood};
ghost use Rattle.asp_store.specs.Keeping.{kept_at, nogood_at, is_lasting};
ghost use Rattle.asp_store.specs.Fitting.{Extends, IsWatched, HasFalse};
ghost use Rattle.asp_store.specs.Sounding.{IsSound, AreSettled};
ghost use Rattle.asp_store.specs.Walking.{IsViolated};
ghost use Rattle.asp_store.specs.Pending.{IsLooking, IsWaiting, Looks, HasNone};

use crate::front::Step;
use crate::looks::{Look, look_at};
use crate::rows::{is_watched, put_row};
use crate::slots::is_lasting_slot;
use crate::stored_nogood::StoredNogood;
use crate::visits::lits_at;
use crate::watch::{Pair, Watch};
use crate::watches::Watches;
use asp_trail::reasons::NogoodId;
use asp_trail::trail::Trail;
use asp_vars::lit::Lit;
use std::alloc::AllocError;

// The place goes, as no kept nogood that isn't watched has its number.
fn leave(watches: &mut Watches, slots: &[Option<StoredNogood>], i: usize, trail: &Trail)
    requires looking { IsLooking slots.now watches.old trail.now i }
    requires none { HasNone slots.now watches.old i }
    requires within { i < watches.old.apart.last }
    ensures { Looks slots.now watches.old watches.new trail.now i Step.Goes }
{
    let _len = trail.len();
    watches.apart.drop_at(i);
}

// Whether the nogood under a number has two literals, and goes only where it is removed by its number.
fn is_lasting_at(slots: &[Option<StoredNogood>], id: u32) -> bool
    requires { id < length slots.now }
    ensures { result ≡ is_lasting (kept_at slots.now id) }
{
    is_lasting_slot(&slots[id as usize])
}

// From now on these two literals watch the nogood at a place.
fn attach(
    watches: &mut Watches,
    slots: &[Option<StoredNogood>],
    lits: &[Lit],
    i: usize,
    id: u32,
    pair: Pair,
    trail: &Trail,
) -> Result<(), AllocError>
    requires waiting { IsWaiting slots.now watches.old trail.now i id }
    requires kept { (n : Nogood) × (nogood_at slots.now id ≡ Some n) × (n.lits ≡ lits.now) }
    requires watched { (n : Nogood) → nogood_at slots.now id ≡ Some n → IsWatched n.lits pair trail.now.entries (length trail.now.entries) }
    ensures sound { IsSound slots.now watches.new trail.now }
    ensures looks { OnOk result (Looks slots.now watches.old watches.new trail.now i Step.Goes) }
{
    let _len = trail.len();
    let is_short = is_lasting_at(slots, id);
    watches
        .lists
        .push(pair.first, Watch::new(pair.second, id, is_short))?;
    watches
        .lists
        .push(pair.second, Watch::new(pair.first, id, is_short))?;
    put_row(&mut watches.rows, id, lits, pair)?;
    leave(watches, slots, i, trail);
    Ok(())
}

// The nogood at a place has a literal that is false at level 0. The others are looked at in the order in which they were if
// two literals watched it, where it has two: that order decides how lists stand, and so what a search finds first.
fn retire(
    watches: &mut Watches,
    slots: &[Option<StoredNogood>],
    lits: &[Lit],
    i: usize,
    id: u32,
    trail: &Trail,
) -> Step
    requires waiting { IsWaiting slots.now watches.old trail.now i id }
    requires is_false { (n : Nogood) → nogood_at slots.now id ≡ Some n → HasFalse trail.now.entries n.lits 0 }
    ensures sound { IsSound slots.now watches.new trail.now }
    ensures looks { Looks slots.now watches.old watches.new trail.now i result }
{
    let _len = trail.len();
    if lits.len() == 1 {
        watches.apart.retire_first(i);
        Step::Stays
    } else {
        watches.apart.retire_last(i);
        Step::Goes
    }
}

// Looks at the nogood at a place, whose literals these are.
fn look_at_nogood(
    watches: &mut Watches,
    slots: &[Option<StoredNogood>],
    lits: &[Lit],
    i: usize,
    id: u32,
    trail: &mut Trail,
) -> Result<Step, AllocError>
    requires waiting { IsWaiting slots.now watches.old trail.old i id }
    requires kept { (n : Nogood) × (nogood_at slots.now id ≡ Some n) × (n.lits ≡ lits.now) }
    requires room { trail.old.vars ≤ trail.old.room }
    ensures same { trail.new ≡ record trail.old { entries = trail.new.entries } }
    ensures extends { Extends slots.now trail.old.entries trail.new.entries }
    ensures sound { IsSound slots.now watches.new trail.new }
    ensures looks { IfOk result (Looks slots.now watches.old watches.new trail.new i) }
{
    let _len = trail.len();
    let found = look_at(lits, id as usize, trail);
    let _new_len = trail.len();
    match found {
        Look::Violated => Ok(Step::Violated(id as usize)),
        Look::Watched(pair) => {
            attach(watches, slots, lits, i, id, pair, trail)?;
            Ok(Step::Goes)
        }
        Look::Pending => Ok(Step::Stays),
        Look::Retired => {
            let step = retire(watches, slots, lits, i, id, trail);
            Ok(step)
        }
    }
}

// Looks at the i-th of those apart.
fn look_at_place(
    watches: &mut Watches,
    slots: &[Option<StoredNogood>],
    i: usize,
    trail: &mut Trail,
) -> Result<Step, AllocError>
    requires looking { IsLooking slots.now watches.old trail.old i }
    requires within { i < watches.old.apart.last }
    requires room { trail.old.vars ≤ trail.old.room }
    ensures same { trail.new ≡ record trail.old { entries = trail.new.entries } }
    ensures extends { Extends slots.now trail.old.entries trail.new.entries }
    ensures sound { IsSound slots.now watches.new trail.new }
    ensures looks { IfOk result (Looks slots.now watches.old watches.new trail.new i) }
{
    let id = watches.apart.id(i);
    if is_watched(&watches.rows, id) {
        leave(watches, slots, i, trail);
        return Ok(Step::Goes);
    }
    match lits_at(slots, id) {
        None => {
            leave(watches, slots, i, trail);
            Ok(Step::Goes)
        }
        Some(lits) => look_at_nogood(watches, slots, lits, i, id, trail),
    }
}

/// Looks at all that aren't watched, until one is violated.
pub fn look_at_pending(
    watches: &mut Watches,
    slots: &[Option<StoredNogood>],
    trail: &mut Trail,
) -> Result<Option<NogoodId>, AllocError>
    requires sound { IsSound slots.now watches.old trail.old }
    requires room { trail.old.vars ≤ trail.old.room }
    ensures same { trail.new ≡ record trail.old { entries = trail.new.entries } }
    ensures extends { Extends slots.now trail.old.entries trail.new.entries }
    ensures sound { IsSound slots.now watches.new trail.new }
    ensures settled { IfOk result (λ r. IfNone r (AreSettled slots.now watches.new.rows trail.new.entries)) }
    ensures violated { IfOk result (λ r. IfSome r (IsViolated trail.new.vars slots.now trail.new.entries)) }
{
    let mut i = watches.apart.first();
    'places: while i < watches.apart.last() {
        let step = look_at_place(watches, slots, i, trail)?;
        match step {
            Step::Stays => {
                i += 1;
            }
            Step::Goes => {}
            Step::Violated(id) => return Ok(Some(id)),
        }
    }
    Ok(None)
}
