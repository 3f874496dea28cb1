//! The store of nogoods.
ghost use Rattle.std.specs.Prelude.{◌≡◌, ◌+◌, ◌*◌, ◌^◌, ◌<◌, ◌≤◌, ◌≢◌, [], ℕ, length, count_by, IfOk, IfSome, IsSome, IsTrue, ◌↔◌, OnOk, OnErr, None, Some, slice_index, true, false, if◌then◌else◌};
ghost use Rattle.std.specs.List.{All};
ghost use Rattle.asp_trail.specs.Trails.{IsVar};
ghost use Rattle.asp_store.specs.Keeping.{nogood_at, kept_at, is_extra, is_local, is_passing, unless_given, Thins};
ghost use Rattle.asp_store.specs.Fitting.{AreSmall, Extends};
ghost use Rattle.asp_store.specs.Walking.{Propagates};
ghost use Rattle.asp_store.specs.Storing.{Fits, IsAdded, removed, locked_at, recalled, AreActive, Loses};

use crate::given::{forget_gone, note_given};
use crate::notes::Notes;
use crate::propagation::{Propagated, propagate};
use crate::slots::{is_given_slot, is_local_slot, is_spare_slot, remove_slot, set_locked};
use crate::stored_nogood::{Kind, StoredNogood};
use crate::unlisting::unlist;
use crate::watches::Watches;
use asp_trail::reasons::NogoodId;
use asp_trail::trail::Trail;
use asp_vars::lit::Lit;
use asp_vars::nogood::Nogood;
use std::alloc::{AllocError, Global};
use std::marker::Model;

// Numbers are below this one.
const MOST: usize = 0x8000_0000;

/// Nogoods, by numbers, with what watches them.
#[derive(Drop)]
pub struct Store {
    // Variables are 1 to this one, which is below 2 ^ 31.
    vars: u32,
    // The nogood of each number that was given out, if it is still kept.
    slots: Vec<Option<StoredNogood>>,
    // Where each kept nogood is watched, or that it isn't.
    watches: Watches,
    // Numbers that had no nogood when they came here. They are looked at again before they are given out.
    free: Vec<u32>,
    // The numbers of the nogoods that propagators gave, and some that had such a one once.
    given: Vec<u32>,
    // By what a reduction chooses.
    notes: Notes,
    // How many kept nogoods aren't kept forever.
    extra: usize,
}

impl Model for Store {
    ghost use Rattle.asp_store.specs.Storing.{Stored, IsStore};

    ghost Value = { Stored };

    ghost view = { λ s. record { vars = s.vars; slots = s.slots.items; rows = s.watches.rows; apart = s.watches.apart; given = s.given.items } };

    ghost invariant = { λ s. IsStore s.vars s.slots.items s.watches s.extra s.given.items };
}

// How many nogoods of this kind aren't kept forever.
fn extra_of(kind: Kind) -> usize
    ensures { result ≡ if is_passing kind then 1 else 0 }
{
    match kind {
        Kind::Forever => 0,
        Kind::Learnt => 1,
        Kind::Given => 1,
    }
}

// Remembers that a number has no nogood. Where memory is wanting it isn't given out again.
fn give_back(free: &mut Vec<u32>, id: usize) {
    if id < u32::MAX as usize {
        let _ = free.push(id as u32);
    }
}

impl Store {
    /// No nogoods, over the variables 1 to `vars`.
    pub fn new(alloc: Global, vars: u32) -> Result<Store, AllocError>
        requires { vars < 2 ^ 31 }
        ensures { IfOk result (λ s. s ≡ record { vars = vars; slots = []; rows = []; apart = record { items = []; first = 0; last = 0 }; given = [] }) }
    {
        let watches = Watches::new(alloc, 2 * (vars as usize) + 2)?;
        Ok(Store {
            vars,
            slots: Vec::new(alloc),
            watches,
            free: Vec::new(alloc),
            given: Vec::new(alloc),
            notes: Notes::new(alloc),
            extra: 0,
        })
    }

    // A number that was given out and has no nogood now, if one is known.
    fn free_number(&mut self) -> Option<u32>
        ensures same { self.new ≡ self.old }
        ensures free { IfSome result (λ id. (id < length self.old.slots) × (kept_at self.old.slots id ≡ None)) }
    {
        let id = self.free.pop()?;
        if (id as usize) < self.slots.len() && self.slots[id as usize].is_none() {
            Some(id)
        } else {
            None
        }
    }

    // Keeps a nogood under a number that has none.
    fn put(&mut self, id: u32, nogood: Nogood, kind: Kind) -> Result<(), AllocError>
        requires small { All (λ k. IsVar self.old.vars k.var) nogood.lits }
        requires within { id < length self.old.slots }
        requires free { kept_at self.old.slots id ≡ None }
        ensures ok { OnOk result (IsAdded self.old self.new id nogood kind) }
        ensures err { OnErr result (self.new ≡ self.old) }
    {
        self.given.reserve(1)?;
        self.watches.apart.push(id)?;
        self.watches.rows.clear(id as usize);
        note_given(&mut self.given, id, kind);
        self.extra += extra_of(kind);
        self.slots[id as usize] = Some(StoredNogood {
            nogood,
            kind,
            locked: false,
        });
        Ok(())
    }

    // Keeps a nogood under a number that wasn't given out.
    fn push(&mut self, nogood: Nogood, kind: Kind) -> Result<NogoodId, AllocError>
        requires { All (λ k. IsVar self.old.vars k.var) nogood.lits }
        ensures ok { IfOk result (λ id. IsAdded self.old self.new id nogood kind) }
        ensures err { OnErr result (self.new ≡ self.old) }
    {
        let id = self.slots.len();
        if id >= MOST {
            return Err(AllocError);
        }
        self.slots.reserve(1)?;
        self.given.reserve(1)?;
        self.watches.push(id as u32)?;
        note_given(&mut self.given, id as u32, kind);
        self.extra += extra_of(kind);
        self.slots.push_reserved(Some(StoredNogood {
            nogood,
            kind,
            locked: false,
        }));
        Ok(id)
    }

    /// Keeps a nogood under a number that no kept one has. `levels` is the number of levels of its literals. After want of
    /// memory the store is as before.
    pub fn add(&mut self, nogood: Nogood, kind: Kind, levels: u32) -> Result<NogoodId, AllocError>
        requires { All (λ k. IsVar self.old.vars k.var) nogood.lits }
        ensures ok { IfOk result (λ id. IsAdded self.old self.new id nogood kind) }
        ensures err { OnErr result (self.new ≡ self.old) }
    {
        match self.free_number() {
            Some(id) => {
                self.notes.put(id as usize, levels)?;
                self.put(id, nogood, kind)?;
                Ok(id as usize)
            }
            None => {
                self.notes.put(self.slots.len(), levels)?;
                self.push(nogood, kind)
            }
        }
    }

    /// How many kept nogoods aren't kept forever. The literals of all that are kept are of the store's variables, and all
    /// numbers are below 2^31.
    pub fn extra(&self) -> usize
        ensures extra { result ≡ count_by is_extra self.now.slots }
        ensures small { AreSmall self.now.vars self.now.slots }
        ensures few { length self.now.slots ≤ 2 ^ 31 }
    {
        self.extra
    }

    /// The kept nogood under a number that has one.
    pub fn nogood(&self, id: NogoodId) -> &Nogood
        requires { IsSome (nogood_at self.now.slots id) }
        ensures { Some result.now ≡ nogood_at self.now.slots id }
    {
        match &self.slots[id] {
            Some(kept) => &kept.nogood,
            None => unreachable!(),
        }
    }

    /// The literals of the nogood under a number that has one, in their order.
    pub fn lits(&self, id: NogoodId) -> &[Lit]
        requires { IsSome (nogood_at self.now.slots id) }
        ensures { IfSome (nogood_at self.now.slots id) (λ n. result.now ≡ n.lits) }
    {
        self.nogood(id).lits.as_slice()
    }

    /// Whether the number is a nogood's, be it kept or dropped. If not, it is no kept one's.
    pub fn has_slot(&self, id: NogoodId) -> bool
        ensures { IsTrue result ↔ id < length self.now.slots }
    {
        id < self.slots.len()
    }

    /// How many numbers were given out. That of each kept nogood is below this.
    pub fn numbers(&self) -> usize
        ensures { result ≡ length self.now.slots }
    {
        self.slots.len()
    }

    /// Whether the number has a kept nogood that holds for one search alone.
    pub fn is_local(&self, id: NogoodId) -> bool
        requires { id < length self.now.slots }
        ensures { result ≡ is_local (kept_at self.now.slots id) }
    {
        is_local_slot(&self.slots[id])
    }

    /// The numbers of the nogoods that propagators gave, the oldest first, and of some that are gone.
    pub fn given(&self) -> &[u32]
        ensures { result.now ≡ self.now.given }
    {
        self.given.as_slice()
    }

    /// Says that a nogood was used, which keeps it longer.
    pub fn used(&mut self, id: NogoodId)
        ensures { self.new ≡ self.old }
    {
        self.notes.used(id);
    }

    /// Implies what follows from the kept nogoods, until one is violated or none is unit.
    ///
    /// Want of memory is the one error. Whatever comes, nogoods stay, entries are only added, and the store fits the
    /// trail, so that the call can be made again.
    pub fn propagate(&mut self, trail: &mut Trail) -> Result<Propagated, AllocError>
        requires fits { Fits self.old trail.old }
        requires room { trail.old.vars ≤ trail.old.room }
        ensures vars { self.new.vars ≡ self.old.vars }
        ensures slots { self.new.slots ≡ self.old.slots }
        ensures trail { trail.new ≡ record trail.old { entries = trail.new.entries; seen = trail.new.seen } }
        ensures extends { Extends self.old.slots trail.old.entries trail.new.entries }
        ensures few { length self.old.slots ≤ 2 ^ 31 }
        ensures fits { Fits self.new trail.new }
        ensures propagates { IfOk result (Propagates self.old.vars self.old.slots trail.new.entries) }
    {
        propagate(&mut self.watches, self.slots.as_slice(), trail)
    }

    /// Puts the retired nogoods back to those that are looked at whole. A trail is cleared only after this.
    pub fn recall(&mut self)
        ensures recalled { self.new ≡ recalled self.old }
        ensures active { AreActive self.new }
    {
        self.watches.apart.recall();
    }

    /// Drops one nogood, however long it was to be kept and whether or not it is locked.
    pub fn remove(&mut self, id: NogoodId)
        requires { id < length self.old.slots }
        ensures { self.new ≡ removed self.old id }
    {
        unlist(&mut self.watches.lists, self.slots.as_slice(), id);
        self.extra -= remove_slot(self.slots.as_mut_slice(), id);
        self.watches.rows.clear(id);
        give_back(&mut self.free, id);
    }

    /// Keeps the nogood from being dropped.
    pub fn lock(&mut self, id: NogoodId)
        requires { id < length self.old.slots }
        ensures { self.new ≡ locked_at self.old id true }
    {
        set_locked(self.slots.as_mut_slice(), id, true);
    }

    /// Lets the nogood be dropped, unless it is kept forever.
    pub fn unlock(&mut self, id: NogoodId)
        requires { id < length self.old.slots }
        ensures { self.new ≡ locked_at self.old id false }
    {
        set_locked(self.slots.as_mut_slice(), id, false);
    }

    // Drops a nogood, if it may be dropped.
    fn drop_spare(&mut self, id: usize)
        ensures loses { Loses self.old self.new }
        ensures thins { Thins self.old.slots self.new.slots }
    {
        if id < self.slots.len() && is_spare_slot(&self.slots[id]) {
            self.remove(id);
        }
    }

    // Drops the i-th of those that were chosen, if it may be dropped.
    fn drop_chosen(&mut self, i: usize)
        ensures loses { Loses self.old self.new }
        ensures thins { Thins self.old.slots self.new.slots }
    {
        if let Some(id) = self.notes.chosen(i) {
            self.drop_spare(id as usize);
        }
    }

    /// Drops nogoods, of which none is kept forever, is locked or has two literals or fewer. They are the less used
    /// half, rounded down, of those that had more than two levels.
    pub fn reduce(&mut self)
        ensures loses { Loses self.old self.new }
        ensures thins { Thins self.old.slots self.new.slots }
    {
        self.notes.offer_all(self.slots.as_slice());
        let half = self.notes.half();
        for i in 0..half {
            self.drop_chosen(i);
        }
    }

    // Drops a nogood, if a propagator gave it and it isn't locked.
    fn drop_given_at(&mut self, id: usize)
        requires { id < length self.old.slots }
        ensures loses { Loses self.old self.new }
        ensures count { length self.new.slots ≡ length self.old.slots }
        ensures given { self.new.given ≡ self.old.given }
        ensures here { kept_at self.new.slots id ≡ unless_given (kept_at self.old.slots id) }
        ensures others { (k : ℕ) → k ≢ id → kept_at self.new.slots k ≡ kept_at self.old.slots k }
    {
        if is_given_slot(&self.slots[id]) {
            self.remove(id);
        }
    }

    // Drops the nogood under the i-th of the numbers, if a propagator gave it and it isn't locked.
    fn drop_given_number(&mut self, i: usize)
        requires { i < length self.old.given }
        ensures loses { Loses self.old self.new }
        ensures count { length self.new.slots ≡ length self.old.slots }
        ensures given { self.new.given ≡ self.old.given }
        ensures here { let id = slice_index self.old.given i in kept_at self.new.slots id ≡ unless_given (kept_at self.old.slots id) }
        ensures others { (k : ℕ) → k ≢ slice_index self.old.given i → kept_at self.new.slots k ≡ kept_at self.old.slots k }
    {
        let id = self.given[i] as usize;
        if id < self.slots.len() {
            self.drop_given_at(id);
        }
    }

    fn forget_gone(&mut self)
        ensures { self.new ≡ record self.old { given = self.new.given } }
    {
        forget_gone(&mut self.given, self.slots.as_slice());
    }

    /// Drops all nogoods that propagators gave and that aren't locked.
    pub fn drop_given(&mut self)
        ensures loses { Loses self.old self.new }
        ensures count { length self.new.slots ≡ length self.old.slots }
        ensures each { (id : ℕ) → kept_at self.new.slots id ≡ unless_given (kept_at self.old.slots id) }
    {
        for i in 0..self.given.len() {
            self.drop_given_number(i);
        }
        self.forget_gone();
    }
}
