//! Propagation by the store and the propagator, in turn.
//!
//! The store goes first, until it is at fixpoint, and only then is the propagator told and asked: what is undone after a
//! violated nogood of the store costs the propagator nothing. What it gives is kept, and is unit or violated, so that
//! the store goes on.
ghost use Rattle.std.specs.Prelude.{◌≡◌, ◌≤◌, ◌+◌, ◌^◌, ◌++◌, ◌∷◌, [], Some, None, length, IfOk, OnOk, IfSome, IfNone};
ghost use Rattle.asp_trail.specs.Entries.{assignment, level};
ghost use Rattle.asp_trail.specs.Trails.{IsVar};
ghost use Rattle.asp_vars.specs.Literals.{value_of};
ghost use Rattle.asp_vars.specs.Numbering.{var_count};
ghost use Rattle.asp_store.specs.Walking.{IsViolated};
ghost use Rattle.asp_propagate.specs.Saying.{IsFollowing};
ghost use Rattle.asp_propagate.specs.Propagating.{IsFollowed, GoesOn, AreAtFixpoint, IsFixpoint, Asked};

use crate::propagator::Propagator;
use crate::telling::tell;
use asp_store::propagation::Propagated;
use asp_store::store::Store;
use asp_store::stored_nogood::Kind;
use asp_trail::reasons::{LATE, NogoodId};
use asp_trail::said::Said;
use asp_trail::trail::Trail;
use asp_vars::lit::Lit;
use std::alloc::AllocError;

// What the store finds. Where it is at fixpoint, the propagator is told of all entries.
fn settle<P: Propagator>(
    propagator: &mut P,
    trail: &mut Trail,
    store: &mut Store,
    told: &mut usize,
) -> Result<Option<NogoodId>, AllocError>
    requires { IsFollowed (λ p. P.explains p (P.bound propagator.old)) (P.told propagator.old) store.old trail.old told.old }
    ensures followed { IsFollowed (λ p. P.explains p (P.bound propagator.new)) (P.told propagator.new) store.new trail.new told.new }
    ensures goes { GoesOn (P.gives (P.told propagator.old).program (P.bound propagator.old)) (P.told propagator.old) (P.told propagator.new) (P.bound propagator.old) (P.bound propagator.new)
        store.old.slots store.new.slots trail.old.entries trail.new.entries }
    ensures same { store.new.slots ≡ store.old.slots }
    ensures few { OnOk result (length trail.new.entries ≤ trail.new.vars + 1) }
    ensures all { IfOk result (λ r. IfNone r (told.new ≡ length trail.new.entries)) }
    ensures fixpoint { IfOk result (λ r. IfNone r (AreAtFixpoint store.new.slots (assignment trail.new.vars trail.new.entries))) }
    ensures violated { IfOk result (λ r. IfSome r (IsViolated trail.new.vars store.new.slots trail.new.entries)) }
{
    let found = store.propagate(trail)?;
    let _level = trail.level();
    match found {
        Propagated::Violated(id) => Ok(Some(id)),
        Propagated::Fixpoint => {
            tell(propagator, trail, *told);
            *told = trail.len();
            Ok(None)
        }
    }
}

// A literal follows whose reason isn't written.
fn imply_late(trail: &mut Trail, lit: Lit, name: u32)
    requires var { IsVar trail.old.vars lit.var }
    requires none { value_of (assignment trail.old.vars trail.old.entries) lit.var ≡ None }
    requires room { trail.old.vars ≤ trail.old.room }
    ensures { trail.new ≡ record trail.old { entries = trail.old.entries ++ record { lit = lit; level = level trail.old.entries; reason = Some (2 ^ 31 + name) } ∷ [] } }
{
    let _value = trail.value(lit.var());
    trail.imply(lit, LATE + name as usize);
}

// Implies a literal that the propagator says, which is told of it.
fn imply_told<P: Propagator>(
    propagator: &mut P,
    trail: &mut Trail,
    store: &Store,
    lit: Lit,
    name: u32,
)
    requires followed { IsFollowed (λ p. P.explains p (P.bound propagator.old)) (P.told propagator.old) store.now trail.old (length trail.old.entries) }
    requires follows { IsFollowing (P.explains (P.told propagator.old).program (P.bound propagator.old)) (var_count (P.told propagator.old).program) trail.old.entries lit name }
    ensures followed { IsFollowed (λ p. P.explains p (P.bound propagator.new)) (P.told propagator.new) store.now trail.new (length trail.new.entries) }
    ensures same { trail.new ≡ record trail.old { entries = trail.new.entries } }
    ensures more { length trail.new.entries ≡ length trail.old.entries + 1 }
    ensures few { length trail.new.entries ≤ trail.new.vars + 1 }
    ensures goes { GoesOn (P.gives (P.told propagator.old).program (P.bound propagator.old)) (P.told propagator.old) (P.told propagator.new) (P.bound propagator.old) (P.bound propagator.new)
        store.now.slots store.now.slots trail.old.entries trail.new.entries }
{
    let _ = store;
    let told = trail.len();
    imply_late(trail, lit, name);
    let _level = trail.level();
    tell(propagator, trail, told);
}

// Implies what the propagator says follows, literal after literal.
fn imply_more<P: Propagator>(propagator: &mut P, trail: &mut Trail, store: &Store)
    requires { IsFollowed (λ p. P.explains p (P.bound propagator.old)) (P.told propagator.old) store.now trail.old (length trail.old.entries) }
    ensures followed { IsFollowed (λ p. P.explains p (P.bound propagator.new)) (P.told propagator.new) store.now trail.new (length trail.new.entries) }
    ensures same { trail.new ≡ record trail.old { entries = trail.new.entries } }
    ensures more { length trail.old.entries ≤ length trail.new.entries }
    ensures goes { GoesOn (P.gives (P.told propagator.old).program (P.bound propagator.old)) (P.told propagator.old) (P.told propagator.new) (P.bound propagator.old) (P.bound propagator.new)
        store.now.slots store.now.slots trail.old.entries trail.new.entries }
{
    'implied: while let Some(implied) = propagator.more(trail) {
        imply_told(propagator, trail, store, implied.lit, implied.name);
    }
}

// Keeps the nogood that the propagator gives, or implies what it says follows. Says whether it had something to say.
fn ask<P: Propagator>(
    propagator: &mut P,
    trail: &mut Trail,
    store: &mut Store,
    told: &mut usize,
) -> Result<bool, AllocError>
    requires followed { IsFollowed (λ p. P.explains p (P.bound propagator.old)) (P.told propagator.old) store.old trail.old told.old }
    requires all { told.old ≡ length trail.old.entries }
    ensures followed { IsFollowed (λ p. P.explains p (P.bound propagator.new)) (P.told propagator.new) store.new trail.new told.new }
    ensures same { trail.new ≡ record trail.old { entries = trail.new.entries } }
    ensures ok { IfOk result (Asked (P.silent (P.told propagator.old).program (P.bound propagator.old)) (P.gives (P.told propagator.old).program (P.bound propagator.old))
        (assignment trail.old.vars trail.old.entries) store.old store.new trail.old.entries trail.new.entries) }
    ensures goes { GoesOn (P.gives (P.told propagator.old).program (P.bound propagator.old)) (P.told propagator.old) (P.told propagator.new) (P.bound propagator.old) (P.bound propagator.new)
        store.old.slots store.new.slots trail.old.entries trail.new.entries }
{
    let _len = trail.len();
    match propagator.next(trail)? {
        None => Ok(false),
        Some(Said::Nogood(nogood)) => {
            let _id = store.add(nogood, Kind::Given, u32::MAX)?;
            Ok(true)
        }
        Some(Said::Implied(implied)) => {
            imply_told(propagator, trail, store, implied.lit, implied.name);
            imply_more(propagator, trail, store);
            *told = trail.len();
            Ok(true)
        }
    }
}

/// Implies what follows, until a kept nogood is violated or the propagator is silent.
pub fn propagate<P: Propagator>(
    propagator: &mut P,
    trail: &mut Trail,
    store: &mut Store,
    told: &mut usize,
) -> Result<Option<NogoodId>, AllocError>
    requires { IsFollowed (λ p. P.explains p (P.bound propagator.old)) (P.told propagator.old) store.old trail.old told.old }
    ensures followed { IsFollowed (λ p. P.explains p (P.bound propagator.new)) (P.told propagator.new) store.new trail.new told.new }
    ensures goes { GoesOn (P.gives (P.told propagator.old).program (P.bound propagator.old)) (P.told propagator.old) (P.told propagator.new) (P.bound propagator.old) (P.bound propagator.new)
        store.old.slots store.new.slots trail.old.entries trail.new.entries }
    ensures fixpoint { IfOk result (λ r. IfNone r (IsFixpoint (P.silent (P.told propagator.old).program (P.bound propagator.old)) store.new.slots (assignment trail.new.vars trail.new.entries))) }
    ensures violated { IfOk result (λ r. IfSome r (IsViolated trail.new.vars store.new.slots trail.new.entries)) }
{
    let first = settle(propagator, trail, store, told)?;
    match first {
        Some(id) => return Ok(Some(id)),
        None => {}
    }
    'asked: while ask(propagator, trail, store, told)? {
        let found = settle(propagator, trail, store, told)?;
        match found {
            Some(id) => return Ok(Some(id)),
            None => {}
        }
    }
    Ok(None)
}
