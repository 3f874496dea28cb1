//! Walks along the list of a literal that came to hold.
//!
//! Nearly all are of the trail's own level, and walked by `top_walks`.
ghost use Rattle.std.specs.Prelude.{◌≡◌, ◌+◌, ◌≤◌, IfOk};
ghost use Rattle.asp_store.specs.Fitting.{Extends};
ghost use Rattle.asp_store.specs.Sounding.{IsSound};
ghost use Rattle.asp_store.specs.Walking.{IsWalking, Walked};

use crate::front::{Front, Step};
use crate::stored_nogood::StoredNogood;
use crate::top_walks::walk_top;
use crate::visits::visit_place;
use crate::watches::Watches;
use asp_trail::reasons::NogoodId;
use asp_trail::trail::Trail;
use std::alloc::AllocError;

// Visits all places of the front's list, until a nogood is violated, where the front is of a level below the trail's, as a rule.
fn walk_below(
    watches: &mut Watches,
    slots: &[Option<StoredNogood>],
    front: &Front,
    trail: &mut Trail,
) -> Result<Option<NogoodId>, AllocError>
    requires walking { IsWalking slots.now watches.old trail.old front.now 0 }
    requires room { trail.old.vars ≤ trail.old.room }
    ensures same { trail.new ≡ record trail.old { entries = trail.new.entries } }
    ensures extends { Extends slots.now trail.old.entries trail.new.entries }
    ensures sound { IsSound slots.now watches.new trail.new }
    ensures walked { IfOk result (Walked slots.now watches.new trail.new front.now) }
{
    let _len = trail.len();
    let mut i: usize = 0;
    'places: while i < watches.lists.len(front.lit) {
        let step = visit_place(watches, slots, i, front, trail)?;
        match step {
            Step::Stays => {
                i += 1;
            }
            Step::Goes => {}
            Step::Violated(id) => return Ok(Some(id)),
        }
    }
    Ok(None)
}

/// Visits all places of the front's list, until a nogood is violated.
pub fn walk(
    watches: &mut Watches,
    slots: &[Option<StoredNogood>],
    front: &Front,
    trail: &mut Trail,
) -> Result<Option<NogoodId>, AllocError>
    requires walking { IsWalking slots.now watches.old trail.old front.now 0 }
    requires room { trail.old.vars ≤ trail.old.room }
    ensures same { trail.new ≡ record trail.old { entries = trail.new.entries } }
    ensures extends { Extends slots.now trail.old.entries trail.new.entries }
    ensures sound { IsSound slots.now watches.new trail.new }
    ensures walked { IfOk result (Walked slots.now watches.new trail.new front.now) }
{
    if front.level == trail.level() {
        walk_top(watches, slots, front, trail)
    } else {
        walk_below(watches, slots, front, trail)
    }
}
