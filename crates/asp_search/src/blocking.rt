//! How an answer is kept from being found again.
//!
//! After an answer the nogood of the cube and the decisions is kept. The answers of the whole subtree below a decision
//! are found before it is taken back, and each has a nogood that begins with the same literals; the one for the last of
//! them is the shortest, and says all that they say. So the list of these nogoods is looked at from its end, and those
//! are dropped that begin with the new one: a search of a million answers keeps as many of them as it has levels.
ghost use Rattle.std.specs.Prelude.{◌≡◌, ◌≢◌, ◌<◌, ◌≤◌, ℕ, List, Some, false, IfOk, OnErr, Option, IsTrue, IsSome, vec_len, vec_capacity};
ghost use Rattle.std.specs.List.{All};
ghost use Rattle.asp_vars.specs.Literals.{Literal};
ghost use Rattle.asp_vars.specs.declared.nogood.Nogood.{Nogood};
ghost use Rattle.asp_trail.specs.Entries.{reason_in};
ghost use Rattle.asp_trail.specs.Trails.{IsVar};
ghost use Rattle.asp_store.specs.declared.stored_nogood.StoredNogood.{StoredNogood};
ghost use Rattle.asp_store.specs.Keeping.{nogood_at};
ghost use Rattle.asp_search_laws.specs.Keeping.{AreBlocking};
ghost use Rattle.asp_search_laws.specs.Steps.{blocking_nogood};
ghost use Rattle.asp_state.specs.SearchStates.{IsUnder};
ghost use Rattle.asp_search.specs.Blocking.{IsRedundant, Drops, Blocks, Spares};

use asp_propagate::propagator::Propagator;
use asp_state::state::SearchState;
use asp_store::stored_nogood::Kind;
use asp_trail::reasons::NogoodId;
use asp_trail::trail::Trail;
use asp_vars::lit::{Lit, Var};
use std::alloc::{AllocError, Global};

// Whether the nogood implied the variable.
fn is_implied_by(trail: &Trail, var: Var, id: NogoodId) -> bool
    requires { IsVar trail.now.vars var }
    ensures { result ≡ false → reason_in trail.now.entries var ≢ Some id }
{
    let _len = trail.len();
    match trail.value(var) {
        None => false,
        Some(_) => trail.reason_of(var) == Some(id),
    }
}

// Whether the nogood implied one of its variables.
fn is_reason(trail: &Trail, lits: &[Lit], id: NogoodId) -> bool
    requires { All (λ l. IsVar trail.now.vars l.var) lits.now }
    ensures { result ≡ false → All (λ l. reason_in trail.now.entries l.var ≢ Some id) lits.now }
{
    for lit in lits {
        if is_implied_by(trail, lit.var(), id) {
            return true;
        }
    }
    false
}

// Whether the kept nogood begins with these literals and is no reason.
fn is_redundant<P: Propagator>(state: &SearchState<P>, lits: &[Lit], id: NogoodId) -> bool
    requires { IsSome (nogood_at state.now.slots id) }
    ensures { IsTrue result → IsRedundant state.now.slots state.now.entries lits.now id }
{
    let old = state.store().lits(id);
    if !old.starts_with(lits) {
        return false;
    }
    !is_reason(state.trail(), old, id)
}

// Drops the newest nogood of the list if it begins with these literals and is no reason. Says whether it was dropped.
fn drop_last<P: Propagator>(
    state: &mut SearchState<P>,
    blocking: &mut Vec<NogoodId>,
    lits: &[Lit],
) -> bool
    requires { AreBlocking state.old.slots blocking.old.items }
    ensures blocking { AreBlocking state.new.slots blocking.new.items }
    ensures same { state.new ≡ record state.old { slots = state.new.slots } }
    ensures drops { (newest : Nogood) (id : ℕ) (first : List (Option StoredNogood)) → newest.lits ≡ lits.now →
        Drops newest id first state.old.slots blocking.old.items → Drops newest id first state.new.slots blocking.new.items }
    ensures spares { (id : ℕ) (first : List (Option StoredNogood)) → Spares id first state.old.slots blocking.old.items → Spares id first state.new.slots blocking.new.items }
    ensures fewer { IsTrue result → vec_len blocking.new < vec_len blocking.old }
    ensures len { vec_len blocking.new ≤ vec_len blocking.old }
    ensures room { vec_capacity blocking.new ≡ vec_capacity blocking.old }
{
    let len = blocking.len();
    if len == 0 {
        return false;
    }
    let id = blocking[len - 1];
    if !is_redundant(state, lits, id) {
        return false;
    }
    state.remove(id);
    blocking.truncate(len - 1);
    true
}

/// Drops those that begin with these literals and are no reasons, from the newest on.
pub(crate) fn drop_all<P: Propagator>(
    state: &mut SearchState<P>,
    blocking: &mut Vec<NogoodId>,
    lits: &[Lit],
)
    requires { AreBlocking state.old.slots blocking.old.items }
    ensures same { state.new ≡ record state.old { slots = state.new.slots } }
    ensures drops { (newest : Nogood) (id : ℕ) (first : List (Option StoredNogood)) → newest.lits ≡ lits.now →
        Drops newest id first state.old.slots blocking.old.items → Drops newest id first state.new.slots blocking.new.items }
    ensures spares { (id : ℕ) (first : List (Option StoredNogood)) → Spares id first state.old.slots blocking.old.items → Spares id first state.new.slots blocking.new.items }
    ensures len { vec_len blocking.new ≤ vec_len blocking.old }
    ensures room { vec_capacity blocking.new ≡ vec_capacity blocking.old }
{
    while drop_last(state, blocking, lits) {}
}

/// Keeps the blocking nogood of an answer, whose number it gives, and goes back one level.
pub(crate) fn block<P: Propagator>(
    alloc: Global,
    state: &mut SearchState<P>,
    blocking: &mut Vec<NogoodId>,
) -> Result<NogoodId, AllocError>
    requires path { (q : List Literal) × IsUnder state.old q }
    requires blocking { AreBlocking state.old.slots blocking.old.items }
    ensures ok { IfOk result (λ id. (q : List Literal) → state.old.cube ≡ Some q → Blocks (blocking_nogood q state.old.decisions) state.old state.new id blocking.new.items) }
    ensures err { OnErr result ((state.new ≡ state.old) × (blocking.new.items ≡ blocking.old.items)) }
{
    let _trail = state.trail();
    let nogood = state.blocking_nogood(alloc)?;
    let lits = nogood.lits.copy()?;
    blocking.reserve(1)?;
    let id = state.keep(nogood, Kind::Forever, 0)?;
    state.undo_to(state.decisions().len().saturating_sub(1));
    drop_all(state, blocking, lits.as_slice());
    blocking.push_reserved(id);
    Ok(id)
}
