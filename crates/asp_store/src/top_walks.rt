//! Walks along the list of a literal that came to hold at the trail's own level.
//!
//! At this level a literal is false by its value alone, and what is made false is so at the front's level: a place needs
//! nothing but the list, the rows and the values. So the list is taken out of the others, and all places are passed in one
//! loop. Only where all literals of a nogood but one hold the trail changes.
ghost use Rattle.std.specs.Prelude.{◌≡◌, ℕ, ◌<◌, ◌≤◌, ◌+◌, Some, IfOk, IsTrue, length, slice_get, slice_index_or, true};
ghost use Rattle.std.specs.List.{All};
ghost use Rattle.asp_vars.specs.Codes.{code_of};
ghost use Rattle.asp_vars.specs.Literals.{complement, holds_in};
ghost use Rattle.asp_vars.specs.declared.nogood.Nogood.{Nogood};
ghost use Rattle.asp_trail.specs.Entries.{level};
ghost use Rattle.asp_arena.specs.Rows.{row_at};
ghost use Rattle.asp_store.specs.declared.watch.Pair.{Pair};
ghost use Rattle.asp_store.specs.Marks.{Watch};
ghost use Rattle.asp_store.specs.Keeping.{nogood_at};
ghost use Rattle.asp_store.specs.Looking.{AreTrueBeside};
ghost use Rattle.asp_store.specs.Pairs.{pair_at, IsOneOf};
ghost use Rattle.asp_store.specs.Fitting.{Extends, IsFalseBy};
ghost use Rattle.asp_store.specs.Sounding.{IsSound};
ghost use Rattle.asp_store.specs.Walking.{back, IsWalking, IsVisit, Ends, Passes, Passed, Walked};

use crate::front::Front;
use crate::looks::{beside_from, end_nogood};
use crate::rows::{rewatch, watched_beside};
use crate::stored_nogood::StoredNogood;
use crate::watch::Watch;
use crate::watches::Watches;
use asp_trail::reasons::NogoodId;
use asp_trail::trail::Trail;
use asp_vars::assign::Assign;
use asp_vars::lit::Lit;
use std::alloc::AllocError;

/// What becomes of a place.
#[derive(Clone, Copy)]
pub enum Pass {
    /// The place stays, and the next one comes.
    Stays,
    /// The place is gone, and another one may have its number.
    Goes,
    /// The place tells its nogood.
    Told,
    /// All literals of the nogood under this number hold but for this one.
    Last(u32, Lit),
    /// There is no memory for another watch.
    Full,
}

// The first place from this one on whose blocker isn't false, or the end of the list.
#[inline(always)]
fn first_unblocked(list: &[Watch], start: usize, values: &Assign) -> usize
    requires small { All (λ w. w.blocker.var < length values.now) list.now }
    requires start { start ≤ length list.now }
    ensures from { start ≤ result }
    ensures within { result ≤ length list.now }
    ensures blocked { (k : ℕ) (d : Watch) → start ≤ k → k < result → holds_in values.now (complement (slice_index_or list.now k d).blocker) ≡ true }
{
    for i in start..list.len() {
        if !values.is_false(list[i].blocker()) {
            return i;
        }
    }
    list.len()
}

// Where the scan goes on: the blockers of the places before are false.
#[inline(always)]
fn past_blocked(
    list: &[Watch],
    watches: &Watches,
    slots: &[Option<StoredNogood>],
    i: usize,
    front: &Front,
    trail: &Trail,
) -> usize
    requires walking { IsWalking slots.now (back watches.now (code_of front.now.lit) list.now) trail.now front.now i }
    requires within { i ≤ length list.now }
    requires level { level trail.now.entries ≡ front.now.level }
    ensures walking { IsWalking slots.now (back watches.now (code_of front.now.lit) list.now) trail.now front.now result }
    ensures from { i ≤ result }
    ensures within { result ≤ length list.now }
{
    let _len = trail.len();
    let _level = trail.level();
    first_unblocked(list, i, trail.assignment())
}

// The nogood is blocked by its other watch, which is false.
#[inline(always)]
fn block(
    list: &mut Vec<Watch>,
    watches: &Watches,
    slots: &[Option<StoredNogood>],
    i: usize,
    id: u32,
    other: Lit,
    front: &Front,
    trail: &Trail,
)
    requires visit { IsVisit slots.now (back watches.now (code_of front.now.lit) list.old.items) trail.now front.now i id other }
    requires is_false { IsFalseBy trail.now.entries other front.now.level }
    ensures { Passes slots.now watches.now list.old.items list.new.items trail.now front.now i Pass.Stays }
{
    let _len = trail.len();
    list[i] = Watch::new(other, id, false);
}

// The place goes, as the nogood doesn't watch the literal.
#[inline(always)]
fn leave(
    list: &mut Vec<Watch>,
    watches: &Watches,
    slots: &[Option<StoredNogood>],
    i: usize,
    id: u32,
    front: &Front,
    trail: &Trail,
)
    requires walking { IsWalking slots.now (back watches.now (code_of front.now.lit) list.old.items) trail.now front.now i }
    requires at { (w : Watch) × (slice_get list.old.items i ≡ Some w) × (w.id ≡ id) }
    requires gone { (n : Nogood) (p : Pair) → nogood_at slots.now id ≡ Some n → pair_at watches.now.rows id ≡ Some p → IsOneOf p front.now.lit → ⊥ }
    ensures { Passes slots.now watches.now list.old.items list.new.items trail.now front.now i Pass.Goes }
{
    let _len = trail.len();
    list.swap_remove(i);
}

// Another literal becomes the watch in place of the front's, as the other watch isn't false, if there is one.
#[inline(always)]
fn move_watch(
    list: &mut Vec<Watch>,
    watches: &mut Watches,
    slots: &[Option<StoredNogood>],
    i: usize,
    id: u32,
    other: Lit,
    front: &Front,
    trail: &Trail,
) -> Pass
    requires { IsVisit slots.now (back watches.old (code_of front.now.lit) list.old.items) trail.now front.now i id other }
    ensures { Passes slots.now watches.new list.old.items list.new.items trail.now front.now i result }
{
    let _len = trail.len();
    let start = watches.rows.start(id as usize).max(2);
    match beside_from(
        watches.rows.row(id as usize),
        start,
        other,
        trail.assignment(),
    ) {
        None => Pass::Last(id, other),
        Some(spot) => {
            match watches.lists.push(spot.lit, Watch::new(other, id, false)) {
                Err(_) => Pass::Full,
                Ok(()) => {
                    rewatch(&mut watches.rows, id, front.lit, other, spot);
                    leave(list, watches, slots, i, id, front, trail);
                    Pass::Goes
                }
            }
        }
    }
}

// Goes past a place whose blocker isn't false.
#[inline(always)]
fn pass_place(
    list: &mut Vec<Watch>,
    watches: &mut Watches,
    slots: &[Option<StoredNogood>],
    i: usize,
    front: &Front,
    trail: &Trail,
) -> Pass
    requires walking { IsWalking slots.now (back watches.old (code_of front.now.lit) list.old.items) trail.now front.now i }
    requires within { i < length list.old.items }
    requires level { level trail.now.entries ≡ front.now.level }
    ensures { Passes slots.now watches.new list.old.items list.new.items trail.now front.now i result }
{
    let _len = trail.len();
    let _level = trail.level();
    let watch = list[i];
    if watch.is_short() {
        return Pass::Told;
    }
    let id = watch.id();
    match watched_beside(&watches.rows, id, front.lit) {
        None => {
            leave(list, watches, slots, i, id, front, trail);
            Pass::Goes
        }
        Some(other) => {
            if trail.assignment().is_false(other) {
                block(list, watches, slots, i, id, other, front, trail);
                return Pass::Stays;
            }
            move_watch(list, watches, slots, i, id, other, front, trail)
        }
    }
}

// Makes the blocker of a place false, which tells its nogood, or names this nogood as violated.
#[inline(always)]
fn end_told(
    list: &[Watch],
    watches: &Watches,
    slots: &[Option<StoredNogood>],
    i: usize,
    front: &Front,
    trail: &mut Trail,
) -> Option<NogoodId>
    requires walking { IsWalking slots.now (back watches.now (code_of front.now.lit) list.now) trail.old front.now i }
    requires told { (x : Watch) × (slice_get list.now i ≡ Some x) × IsTrue x.is_short }
    requires level { level trail.old.entries ≡ front.now.level }
    requires room { trail.old.vars ≤ trail.old.room }
    ensures ends { Ends slots.now trail.old trail.new result }
    ensures passed { Passed slots.now watches.now list.now list.now trail.new front.now i result }
{
    let _len = trail.len();
    let watch = list[i];
    let id = watch.id();
    let blocker = watch.blocker();
    end_nogood(&[front.lit, blocker], slots, id as usize, blocker, trail)
}

// Makes the last literal of a nogood false, which blocks the place then, or names this nogood as violated.
#[inline(always)]
fn end_last(
    list: &mut Vec<Watch>,
    watches: &Watches,
    slots: &[Option<StoredNogood>],
    i: usize,
    id: u32,
    other: Lit,
    front: &Front,
    trail: &mut Trail,
) -> Option<NogoodId>
    requires visit { IsVisit slots.now (back watches.now (code_of front.now.lit) list.old.items) trail.old front.now i id other }
    requires others { AreTrueBeside trail.old.vars trail.old.entries (row_at watches.now.rows id) other }
    requires level { level trail.old.entries ≡ front.now.level }
    requires room { trail.old.vars ≤ trail.old.room }
    ensures ends { Ends slots.now trail.old trail.new result }
    ensures passed { Passed slots.now watches.now list.old.items list.new.items trail.new front.now i result }
{
    let row = watches.rows.row(id as usize);
    match end_nogood(row, slots, id as usize, other, trail) {
        Some(violated) => Some(violated),
        None => {
            block(list, watches, slots, i, id, other, front, trail);
            None
        }
    }
}

// Visits all places of the front's list, which is taken out of the others, until a nogood is violated.
fn walk_list(
    list: &mut Vec<Watch>,
    watches: &mut Watches,
    slots: &[Option<StoredNogood>],
    front: &Front,
    trail: &mut Trail,
) -> Result<Option<NogoodId>, AllocError>
    requires walking { IsWalking slots.now (back watches.old (code_of front.now.lit) list.old.items) trail.old front.now 0 }
    requires level { level trail.old.entries ≡ front.now.level }
    requires room { trail.old.vars ≤ trail.old.room }
    ensures same { trail.new ≡ record trail.old { entries = trail.new.entries } }
    ensures extends { Extends slots.now trail.old.entries trail.new.entries }
    ensures sound { IsSound slots.now (back watches.new (code_of front.now.lit) list.new.items) trail.new }
    ensures walked { IfOk result (Walked slots.now (back watches.new (code_of front.now.lit) list.new.items) trail.new front.now) }
{
    let mut i = past_blocked(list.as_slice(), watches, slots, 0, front, trail);
    'places: while i < list.len() {
        match pass_place(list, watches, slots, i, front, trail) {
            Pass::Stays => {
                i = past_blocked(list.as_slice(), watches, slots, i + 1, front, trail);
            }
            Pass::Goes => {
                i = past_blocked(list.as_slice(), watches, slots, i, front, trail);
            }
            Pass::Told => {
                match end_told(list.as_slice(), watches, slots, i, front, trail) {
                    Some(id) => return Ok(Some(id)),
                    None => {
                        i = past_blocked(list.as_slice(), watches, slots, i + 1, front, trail);
                    }
                }
            }
            Pass::Last(id, other) => {
                match end_last(list, watches, slots, i, id, other, front, trail) {
                    Some(id) => return Ok(Some(id)),
                    None => {
                        i = past_blocked(list.as_slice(), watches, slots, i + 1, front, trail);
                    }
                }
            }
            Pass::Full => return Err(AllocError),
        }
    }
    Ok(None)
}

/// Visits all places of the front's list, until a nogood is violated. The front's level is the trail's.
pub fn walk_top(
    watches: &mut Watches,
    slots: &[Option<StoredNogood>],
    front: &Front,
    trail: &mut Trail,
) -> Result<Option<NogoodId>, AllocError>
    requires walking { IsWalking slots.now watches.old trail.old front.now 0 }
    requires level { level trail.old.entries ≡ front.now.level }
    requires room { trail.old.vars ≤ trail.old.room }
    ensures same { trail.new ≡ record trail.old { entries = trail.new.entries } }
    ensures extends { Extends slots.now trail.old.entries trail.new.entries }
    ensures sound { IsSound slots.now watches.new trail.new }
    ensures walked { IfOk result (Walked slots.now watches.new trail.new front.now) }
{
    let _len = trail.len();
    let mut list = watches.lists.take_list(front.lit);
    let found = walk_list(&mut list, watches, slots, front, trail);
    watches.lists.put_list(front.lit, list);
    found
}
