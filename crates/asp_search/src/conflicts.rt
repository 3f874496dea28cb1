//! What follows from a violated nogood.
ghost use Rattle.std.specs.Prelude.{◌≡◌, ◌≤◌, ◌∷◌, ◌++◌, List, [], Some, IfOk, IfSome, IsSome, OnErr, length, take};
ghost use Rattle.asp_model.specs.Asked.{reasoning_of};
ghost use Rattle.asp_vars.specs.Literals.{Literal};
ghost use Rattle.asp_vars.specs.Numbering.{var_count};
ghost use Rattle.asp_trail.specs.Entries.{level, cut};
ghost use Rattle.asp_store.specs.Keeping.{nogood_at, IsAddedAt};
ghost use Rattle.asp_store.specs.Walking.{IsViolated};
ghost use Rattle.asp_store.specs.declared.stored_nogood.Kind.TheVariants as kind;
ghost use Rattle.asp_analyze.specs.Learning.{AreContained, IsJump};
ghost use Rattle.asp_search_laws.specs.Explaining.{Explains};
ghost use Rattle.asp_state.specs.SearchStates.{IsUnder};
ghost use Rattle.asp_search.specs.Invariants.{answers_known, used_in};
ghost use Rattle.asp_search.specs.Meeting.{ShowsConflict, IsClashOf, opposed};

use crate::covering::known_count;
use crate::spread::{Spread, note_used};
use asp_analyze::learn::{Learned, Learner};
use asp_model::cost::Cost;
use asp_model::interp::Interp;
use asp_model::results::Mode;
use asp_propagate::propagator::Propagator;
use asp_state::state::SearchState;
use asp_store::stored_nogood::Kind;
use asp_trail::reasons::NogoodId;
use asp_vars::compiled::Compiled;
use asp_vars::fuel::Conflict;
use asp_vars::known::Known;
use asp_vars::lit::Lit;
use asp_vars::nogood::{Base, Lits, Nogood};
use asp_vars::snapshot::Snapshot;
use std::alloc::{AllocError, Global};

/// Learns from a kept nogood that is violated.
pub(crate) fn learn<P: Propagator>(
    learner: &mut Learner,
    state: &SearchState<P>,
    id: NogoodId,
) -> Result<Learned, AllocError>
    requires vars { learner.old ≡ var_count state.now.program }
    requires violated { IsViolated (var_count state.now.program) state.now.slots state.now.entries id }
    ensures same { learner.new ≡ learner.old }
    ensures explains { IfOk result (Explains (P.gives state.now.program state.now.bound) (var_count state.now.program) state.now.slots state.now.entries id) }
{
    let nogood = state.store().nogood(id);
    learner.learn(
        state.trail(),
        state.reasons(),
        nogood.lits.as_slice(),
        &nogood.base,
    )
}

fn copy_bound(bound: &Option<Cost>) -> Result<Option<Cost>, AllocError>
    ensures { IfOk result (λ copy. copy ≡ bound.now) }
{
    match bound {
        None => Ok(None),
        Some(cost) => {
            let cost = cost.copy()?;
            Ok(Some(cost))
        }
    }
}

// The lists of a conflict.
struct Lists {
    // the cube
    cube: Vec<Lit>,
    // the decisions up to a level
    decisions: Vec<Lit>,
    // the literals of the nogood that shows it
    nogood: Vec<Lit>,
}

// Copies of the cube, of so many decisions, and of a kept nogood's literals.
fn copy_lists<P: Propagator>(
    alloc: Global,
    state: &SearchState<P>,
    top: usize,
    id: NogoodId,
) -> Result<Lists, AllocError>
    requires decided { top ≤ length state.now.decisions }
    requires kept { IsSome (nogood_at state.now.slots id) }
    ensures cube { (q : List Literal) → state.now.cube ≡ Some q → IfOk result (λ lists. lists.cube.items ≡ q) }
    ensures decisions { IfOk result (λ lists. lists.decisions.items ≡ take top state.now.decisions) }
    ensures nogood { IfOk result (λ lists. IfSome (nogood_at state.now.slots id) (λ n. lists.nogood.items ≡ n.lits)) }
{
    let cube = Vec::from_slice(alloc, state.cube())?;
    let decisions = Vec::from_slice(alloc, &state.decisions()[..top])?;
    let nogood = Vec::from_slice(alloc, state.store().lits(id))?;
    Ok(Lists {
        cube,
        decisions,
        nogood,
    })
}

/// The conflict that a kept nogood shows, of which a literal has the greatest level.
pub(crate) fn conflict<P: Propagator>(
    compiled: &Compiled,
    state: &SearchState<P>,
    mode: Mode,
    known: &Vec<Snapshot<Interp>>,
    seen: &Option<Known>,
    bound: &Option<Cost>,
    id: NogoodId,
    lit: Lit,
) -> Result<Conflict, AllocError>
    requires { ShowsConflict compiled.now (used_in compiled.now mode known.now.items seen.now) bound.now state.now id lit }
    ensures { IfOk result (IsClashOf compiled.now (reasoning_of mode) (answers_known known.now.items seen.now) bound.now state.now id lit) }
{
    let top = state.trail().level_of(lit.var());
    let bound = copy_bound(bound)?;
    let lists = copy_lists(*known.allocator(), state, top, id)?;
    let Lists {
        cube,
        decisions,
        nogood,
    } = lists;
    Ok(Conflict::of(
        compiled,
        cube,
        decisions,
        nogood,
        mode.reasoning(),
        known_count(known, seen),
        bound,
    ))
}

/// The nogood of a literal and its complement.
pub(crate) fn opposed(alloc: Global, lit: Lit) -> Result<Nogood, AllocError>
    ensures { IfOk result (λ nogood. nogood ≡ opposed lit) }
{
    let lits = Lits::with_first(alloc, lit, &[lit.complement()])?;
    Ok(Nogood {
        lits,
        base: Base::Pure,
    })
}

/// Keeps what was learnt, and goes back to where it implies the literal.
pub(crate) fn jump<P: Propagator>(
    state: &mut SearchState<P>,
    learner: &Learner,
    spread: &mut Spread,
    nogood: Nogood,
    to: usize,
    lit: Lit,
) -> Result<NogoodId, AllocError>
    requires vars { learner.now ≡ var_count state.old.program }
    requires path { (q : List Literal) × IsUnder state.old q }
    requires contained { AreContained (var_count state.old.program) state.old.entries nogood.lits }
    requires jumps { (from : List Literal) × IsJump state.old.entries from nogood.lits to lit }
    ensures added { IfOk result (λ id. IsAddedAt state.old.slots state.new.slots id nogood kind.Learnt) }
    ensures ok { IfOk result (λ id. state.new ≡ record state.old {
      entries = cut to state.old.entries ++ record { lit = lit; level = level (cut to state.old.entries); reason = Some id } ∷ [];
      decisions = take to state.old.decisions;
      slots = state.new.slots;
      ranking = state.new.ranking;
    }) }
    ensures err { OnErr result (state.new ≡ record state.old { ranking = state.new.ranking }) }
{
    let _trail = state.trail();
    let levels = spread.count(state.trail(), nogood.lits.as_slice());
    note_used(state, learner.met(), lit.var());
    state.bump(nogood.lits.as_slice(), learner.met());
    let id = state.keep(nogood, Kind::Learnt, levels)?;
    state.undo_to(to);
    state.imply(lit, id);
    Ok(id)
}
