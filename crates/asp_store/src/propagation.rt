//! What follows from the nogoods that are kept.
//!
//! A nogood can only become unit or violated where one of its two watches becomes true. So for each literal that
//! came to hold, the nogoods in its list are looked at, and no others, but for those that aren't watched, which are
//! looked at in each call, until they are watched or retired.
ghost use Rattle.std.specs.Prelude.{◌≡◌, ◌<◌, ◌≤◌, ◌+◌, length, IfOk, IfNone, IfSome};
ghost use Rattle.asp_trail.specs.Reasons.{Stands};
ghost use Rattle.asp_store.specs.Fitting.{Extends};
ghost use Rattle.asp_store.specs.Sounding.{IsSound, AreSettled};
ghost use Rattle.asp_store.specs.Walking.{IsViolated, Propagates};

use crate::front::Front;
use crate::pending::look_at_pending;
use crate::stored_nogood::StoredNogood;
use crate::walks::walk;
use crate::watches::Watches;
use asp_trail::reasons::NogoodId;
use asp_trail::trail::Trail;
use std::alloc::AllocError;

/// What a propagation found.
#[derive(Clone, Copy)]
pub enum Propagated {
    /// No kept nogood is unit or violated.
    Fixpoint,
    /// All literals of this one are true.
    Violated(NogoodId),
}

// The first entry that wasn't seen.
fn front_of(trail: &Trail) -> Front
    requires { trail.now.seen < length trail.now.entries }
    ensures { Stands trail.now.entries result.lit trail.now.seen result.level }
{
    let _len = trail.len();
    let seen = trail.seen();
    let lit = trail.lit(seen);
    let var = lit.var();
    let level = trail.level_of(var);
    Front { lit, level }
}

// Looks at what the next entry touches.
fn propagate_next(
    watches: &mut Watches,
    slots: &[Option<StoredNogood>],
    trail: &mut Trail,
) -> Result<Option<NogoodId>, AllocError>
    requires sound { IsSound slots.now watches.old trail.old }
    requires settled { AreSettled slots.now watches.old.rows trail.old.entries }
    requires more { trail.old.seen < length trail.old.entries }
    requires room { trail.old.vars ≤ trail.old.room }
    ensures same { trail.new ≡ record trail.old { entries = trail.new.entries; seen = trail.new.seen } }
    ensures few { length trail.old.entries ≤ trail.old.vars + 1 }
    ensures extends { Extends slots.now trail.old.entries trail.new.entries }
    ensures sound { IsSound slots.now watches.new trail.new }
    ensures settled { IfOk result (λ r. IfNone r (AreSettled slots.now watches.new.rows trail.new.entries)) }
    ensures seen { IfOk result (λ r. IfNone r (trail.new.seen ≡ trail.old.seen + 1)) }
    ensures violated { IfOk result (λ r. IfSome r (IsViolated trail.new.vars slots.now trail.new.entries)) }
{
    let _level = trail.level();
    let front = front_of(trail);
    let seen = trail.seen();
    let found = walk(watches, slots, &front, trail)?;
    match found {
        Some(id) => Ok(Some(id)),
        None => {
            let _new_len = trail.len();
            trail.mark_seen(seen + 1);
            Ok(None)
        }
    }
}

/// Implies what follows, until a nogood is violated or none is unit.
///
/// Want of memory is the one error. Whatever comes, entries are only added, and the watches fit the trail.
pub fn propagate(
    watches: &mut Watches,
    slots: &[Option<StoredNogood>],
    trail: &mut Trail,
) -> Result<Propagated, AllocError>
    requires sound { IsSound slots.now watches.old trail.old }
    requires room { trail.old.vars ≤ trail.old.room }
    ensures same { trail.new ≡ record trail.old { entries = trail.new.entries; seen = trail.new.seen } }
    ensures extends { Extends slots.now trail.old.entries trail.new.entries }
    ensures sound { IsSound slots.now watches.new trail.new }
    ensures propagates { IfOk result (Propagates trail.new.vars slots.now trail.new.entries) }
{
    let pending = look_at_pending(watches, slots, trail)?;
    match pending {
        Some(id) => return Ok(Propagated::Violated(id)),
        None => {}
    }
    'entries: while trail.seen() < trail.len() {
        let found = propagate_next(watches, slots, trail)?;
        match found {
            Some(id) => return Ok(Propagated::Violated(id)),
            None => {}
        }
    }
    Ok(Propagated::Fixpoint)
}
