//! The trail with all that follows it: the store of nogoods and a propagator.
//!
//! The propagator was told of the first entries, which `told` counts. Only where the store is at fixpoint is it told of the
//! others.
ghost use Rattle.std.specs.Prelude.{◌≡◌, ℕ, ◌<◌, ◌+◌, ◌^◌, [], Some, None, IfOk, OnErr, IfSome, IfNone, length, replicate, if◌then◌else◌};
ghost use Rattle.std.specs.List.{All};
ghost use Rattle.asp_model.specs.Sound.{IsSound};
ghost use Rattle.asp_vars.specs.Literals.{value_of};
ghost use Rattle.asp_vars.specs.Numbering.{var_count};
ghost use Rattle.asp_trail.specs.Entries.{level, cut};
ghost use Rattle.asp_trail.specs.Trails.{IsVar};
ghost use Rattle.asp_store.specs.Fitting.{HaveReasons};
ghost use Rattle.asp_trail.specs.Reasons.{AreAsked, AreReasons, AreImpliedBy};
ghost use Rattle.asp_propagate.specs.Late.{CanAsk, IsSaid, IsAtHand};
ghost use Rattle.asp_store.specs.Keeping.{kept_at, unless_given};
ghost use Rattle.asp_store.specs.Walking.{IsViolated};
ghost use Rattle.asp_propagate.specs.Useful.{IsSmaller};
ghost use Rattle.asp_propagate.specs.Propagating.{values_of, with_entry, without_nogood, is_named, Keeps, IsUnnamed, IsImplied, Adds, Implies, IsFixpoint, IsReduced};

use crate::locks::lock_reasons;
use crate::propagator::Propagator;
use crate::rounds::propagate;
use crate::telling::{untell, untell_above};
use asp_model::cost::Cost;
use asp_store::store::Store;
use asp_store::stored_nogood::Kind;
use asp_trail::reasons::{LATE, NogoodId, Reasons};
use asp_trail::trail::Trail;
use asp_vars::lit::Lit;
use asp_vars::nogood::Nogood;
use std::alloc::{AllocError, Global};
use std::marker::Model;

/// A trail, the nogoods kept for it, and the propagator that follows it.
#[derive(Drop)]
pub struct Engine<P: Propagator> {
    // The literals that hold, with room for all variables.
    trail: Trail,
    // The nogoods, which fit the trail. None is locked between calls.
    store: Store,
    // What follows the assignment beside the store.
    propagator: P,
    // How many of the trail's first entries the propagator was told of.
    told: usize,
}

impl<P: Propagator> Model for Engine<P> {
    ghost use Rattle.asp_propagate.specs.Propagating.{Propagating, IsFollowed};

    ghost Value = { Propagating };

    ghost view = { λ p. record { program = (P.told p.propagator).program; entries = p.trail.entries; slots = p.store.slots; bound = P.bound p.propagator } };

    ghost invariant = { λ p. IsFollowed (λ q. P.explains q (P.bound p.propagator)) (P.told p.propagator) p.store p.trail p.told };
}

impl<P: Propagator> Engine<P> {
    /// No entries and no nogoods, followed by a propagator that wasn't told of any.
    ///
    /// Want of memory is the one error.
    pub fn new(alloc: Global, vars: u32, propagator: P) -> Result<Engine<P>, AllocError>
        requires vars { vars ≡ var_count (P.told propagator).program }
        requires few { vars < 2 ^ 31 }
        requires fresh { (P.told propagator).values ≡ replicate (vars + 1) None }
        ensures { IfOk result (λ p. p ≡ record { program = (P.told propagator).program; entries = []; slots = []; bound = P.bound propagator }) }
    {
        let mut trail = Trail::new(alloc, vars)?;
        trail.reserve(vars as usize)?;
        let store = Store::new(alloc, vars)?;
        Ok(Engine {
            trail,
            store,
            propagator,
            told: 0,
        })
    }

    /// The trail.
    pub fn trail(&self) -> &Trail
        ensures vars { result.now.vars ≡ var_count self.now.program }
        ensures entries { result.now.entries ≡ self.now.entries }
    {
        &self.trail
    }

    /// The nogoods. Each entry that was implied names one, which is its reason, or one can be had for it.
    pub fn store(&self) -> &Store
        ensures vars { result.now.vars ≡ var_count self.now.program }
        ensures slots { result.now.slots ≡ self.now.slots }
        ensures reasons { HaveReasons self.now.slots self.now.entries }
        ensures asked { AreAsked (CanAsk (P.explains self.now.program self.now.bound) self.now.slots self.now.entries) self.now.entries }
        ensures said { AreReasons (IsSaid (P.late self.now.program self.now.bound) self.now.slots self.now.entries) self.now.entries }
        ensures implied { IsSound self.now.program → AreImpliedBy (IsAtHand (P.late self.now.program self.now.bound) self.now.slots) self.now.entries }
    {
        let _len = self.trail.len();
        let _extra = self.store.extra();
        &self.store
    }

    /// Keeps a nogood, and gives its number, which no kept one has. `levels` is the number of levels of its literals.
    /// Want of memory leaves all as it was.
    pub fn keep(&mut self, nogood: Nogood, kind: Kind, levels: u32) -> Result<NogoodId, AllocError>
        requires { All (λ l. IsVar (var_count self.old.program) l.var) nogood.lits }
        ensures ok { IfOk result (λ id. Keeps self.old self.new id nogood kind) }
        ensures err { OnErr result (self.new ≡ self.old) }
    {
        let _len = self.trail.len();
        self.store.add(nogood, kind, levels)
    }

    /// Says that a nogood was used, which keeps it longer.
    pub fn used(&mut self, id: NogoodId)
        ensures { self.new ≡ self.old }
    {
        self.store.used(id);
    }

    /// A literal of the cube, at level 0.
    pub fn assume(&mut self, lit: Lit)
        requires var { IsVar (var_count self.old.program) lit.var }
        requires none { value_of (values_of self.old) lit.var ≡ None }
        requires level { level self.old.entries ≡ 0 }
        ensures { self.new ≡ with_entry self.old lit 0 None }
    {
        let _value = self.trail.value(lit.var());
        let _len = self.trail.len();
        self.trail.assume(lit);
    }

    /// A literal that is chosen, at a level of its own.
    pub fn decide(&mut self, lit: Lit)
        requires var { IsVar (var_count self.old.program) lit.var }
        requires none { value_of (values_of self.old) lit.var ≡ None }
        ensures { self.new ≡ with_entry self.old lit (level self.old.entries + 1) None }
    {
        let _value = self.trail.value(lit.var());
        let _len = self.trail.len();
        self.trail.decide(lit);
    }

    /// A literal that follows by a kept nogood, at the level that stands.
    pub fn imply(&mut self, lit: Lit, id: NogoodId)
        requires var { IsVar (var_count self.old.program) lit.var }
        requires none { value_of (values_of self.old) lit.var ≡ None }
        requires implied { IsImplied self.old lit id }
        ensures { self.new ≡ with_entry self.old lit (level self.old.entries) (Some id) }
    {
        let _value = self.trail.value(lit.var());
        let _len = self.trail.len();
        let _extra = self.store.extra();
        self.trail.imply(lit, id);
    }

    /// Implies what follows, until a kept nogood is violated, which is named, or the propagator is silent.
    ///
    /// Want of memory is the one error. Whatever comes, entries and nogoods are only added.
    pub fn propagate(&mut self) -> Result<Option<NogoodId>, AllocError>
        ensures program { self.new.program ≡ self.old.program }
        ensures bound { self.new.bound ≡ self.old.bound }
        ensures adds { Adds (P.gives self.old.program self.old.bound) self.old.slots self.new.slots }
        ensures implies { Implies self.old.entries self.new.entries }
        ensures reasons { HaveReasons self.new.slots self.new.entries }
        ensures fixpoint { IfOk result (λ r. IfNone r (IsFixpoint (P.silent self.new.program self.new.bound) self.new.slots (values_of self.new))) }
        ensures violated { IfOk result (λ r. IfSome r (IsViolated (var_count self.new.program) self.new.slots self.new.entries)) }
    {
        propagate(
            &mut self.propagator,
            &mut self.trail,
            &mut self.store,
            &mut self.told,
        )
    }

    /// Leaves exactly the entries of the levels up to this one.
    pub fn undo_to(&mut self, level: usize)
        ensures { self.new ≡ record self.old { entries = cut level self.old.entries } }
    {
        let _len = self.trail.len();
        self.told = untell_above(&mut self.propagator, &self.trail, self.told, level);
        self.trail.undo_to(level);
    }

    /// Leaves no entry.
    pub fn clear(&mut self)
        ensures { self.new ≡ record self.old { entries = [] } }
    {
        let _len = self.trail.len();
        untell(&mut self.propagator, &self.trail, self.told);
        self.told = 0;
        self.store.recall();
        self.trail.clear();
    }

    /// From now on smaller costs than this one are wanted.
    pub fn set_bound(&mut self, cost: Cost)
        requires { IsSmaller cost self.old.bound }
        ensures { self.new ≡ record self.old { bound = Some cost } }
    {
        self.propagator.set_bound(cost);
    }

    /// Drops one nogood, which is no entry's reason.
    pub fn remove(&mut self, id: NogoodId)
        requires slot { id < length self.old.slots }
        requires unnamed { IsUnnamed self.old.entries id }
        ensures { self.new ≡ without_nogood self.old id }
    {
        self.store.remove(id);
    }

    /// Drops nogoods that are little used, but none that is kept forever, is a reason, or has two literals or fewer.
    pub fn reduce(&mut self)
        ensures same { self.new ≡ record self.old { slots = self.new.slots } }
        ensures kept { IsReduced self.old.entries self.old.slots self.new.slots }
    {
        lock_reasons(&mut self.store, &self.trail, true);
        self.store.reduce();
        lock_reasons(&mut self.store, &self.trail, false);
    }
    /// Drops all nogoods that propagators gave, but none that is a reason.
    pub fn drop_given(&mut self)
        ensures same { self.new ≡ record self.old { slots = self.new.slots } }
        ensures kept { IsReduced self.old.entries self.old.slots self.new.slots }
        ensures each { (id : ℕ) → kept_at self.new.slots id ≡ if is_named self.old.entries id then kept_at self.old.slots id else unless_given (kept_at self.old.slots id) }
    {
        lock_reasons(&mut self.store, &self.trail, true);
        self.store.drop_given();
        lock_reasons(&mut self.store, &self.trail, false);
    }
}

impl<P: Propagator> Reasons for Engine<P> {
    ghost use Rattle.asp_propagate.specs.Late.{CanAsk as may_ask, IsSaid as is_said};

    ghost asks = { λ e l id. may_ask (P.explains e.program e.bound) e.slots e.entries l id };

    ghost says = { λ e l id n. is_said (P.late e.program e.bound) e.slots e.entries l id n };

    fn kept(&self, lit: Lit, id: NogoodId) -> Option<&Nogood> {
        let _ = lit;
        if id < LATE {
            Some(self.store.nogood(id))
        } else {
            None
        }
    }

    fn write(&self, lit: Lit, id: NogoodId) -> Result<Nogood, AllocError> {
        if id < LATE {
            return self.store.nogood(id).copy();
        }
        let _len = self.trail.len();
        let place = self.trail.place_of(lit.var());
        self.propagator
            .explain(&self.trail, place, (id - LATE) as u32)
    }
}
