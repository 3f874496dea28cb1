//! A search's trail under a cube.
//!
//! It keeps true, after every list of calls:
//! - the cube and the decisions are what begins the trail's levels;
//! - no nogood of the completion was unit or violated before a decision, and all of them are kept;
//! - each variable without a value waits to be decided.
ghost use Rattle.std.specs.Prelude.{◌≡◌, ◌<◌, ◌≤◌, ◌^◌, ◌+◌, ◌∷◌, ◌++◌, [], ℕ, List, false, Some, None, IfOk, OnOk, OnErr, IfSome, IfNone, IsTrue, is_some, take, length, replicate, slice_set, slice_index_or, if◌then◌else◌};
ghost use Rattle.std.specs.List.{All};
ghost use Rattle.asp_model.specs.Sound.{IsSound};
ghost use Rattle.asp_vars.specs.Literals.{Literal, value_of};
ghost use Rattle.asp_vars.specs.Numbering.{var_count};
ghost use Rattle.asp_vars.specs.declared.nogood.Base.TheVariants as base;
ghost use Rattle.asp_trail.specs.declared.trail.Entry.{Entry};
ghost use Rattle.asp_trail.specs.Entries.{level, cut};
ghost use Rattle.asp_trail.specs.Trails.{IsOrdered, IsVar};
ghost use Rattle.asp_trail.specs.Reasons.{AreAsked, AreReasons, AreImpliedBy};
ghost use Rattle.asp_store.specs.declared.stored_nogood.StoredNogood.{StoredNogood};
ghost use Rattle.asp_store.specs.Keeping.{kept_at, unless_given, IsAddedAt};
ghost use Rattle.asp_store.specs.Fitting.{AreSmall, HaveReasons};
ghost use Rattle.asp_store.specs.Walking.{IsViolated};
ghost use Rattle.asp_order.specs.Waiting.{learnt, AreAssigned, IsFuller, IsNext};
ghost use Rattle.asp_propagate.specs.Late.{CanAsk, IsSaid, IsAtHand};
ghost use Rattle.asp_propagate.specs.Useful.{IsSmaller};
ghost use Rattle.asp_propagate.specs.Propagating.{is_named, Adds, AreAtFixpoint, Implies, IsImplied, IsFixpoint, IsReduced};
ghost use Rattle.asp_state.specs.SearchStates.{first_ranking, path_of, values_of, AreOf, Clashes, HasBoth, IsBegun, IsUnder, KeepsCompletion, KeepsCompletionAlone};

use crate::assume::assume_all;
use crate::completed::keep_completion;
use crate::preferred::{prefer_cheap, prefer_derived};
use crate::unlisted::begin_unlisted;
use asp_model::cost::Cost;
use asp_order::order::Order;
use asp_propagate::engine::Engine;
use asp_propagate::propagator::Propagator;
use asp_store::store::Store;
use asp_store::stored_nogood::Kind;
use asp_trail::reasons::NogoodId;
use asp_trail::trail::Trail;
use asp_vars::compiled::Compiled;
use asp_vars::lit::{Lit, Var};
use asp_vars::nogood::{Base, Lits, Nogood};
use std::alloc::{AllocError, Global};
use std::marker::Model;
use std::mem;

// How often the order ages between the bumps for places in bodies whose definitions the completion doesn't list and those
// for places in the completion. The increment grows by its sixteenth each time, and (17/16)^34 is about 8. With a whole
// bump a literal of a constraint's body, which stands in one nogood, would count as much as one of a rule's body, which
// stands in two; with an eighth programs take fewer conflicts, those left out of the choice too.
const AGE: u32 = 34;

/// A trail with its cube and its decisions, the nogoods kept, and the order of further decisions.
#[derive(Drop)]
pub struct SearchState<P: Propagator> {
    // the trail, the nogoods that are kept, and what follows by them
    engine: Engine<P>,
    // in which order variables are decided, and by which values
    order: Order,
    // the literals that are to hold, and none before a path is entered
    cube: Option<Vec<Lit>>,
    // a literal of the cube whose complement is there too, if there is one: then nothing is decided under it
    clash: Option<Lit>,
    // the literals that were chosen, that of level 1 first
    decisions: Vec<Lit>,
}

impl<P: Propagator> Model for SearchState<P> {
    ghost use Rattle.std.specs.Prelude.{is_some, option_map};
    ghost use Rattle.asp_state.specs.SearchStates.{SearchView, IsSearchState, HasClash};

    ghost Value = { SearchView };

    ghost view = { λ t. record {
      program = t.engine.program;
      bound = t.engine.bound;
      cube = option_map (λ q. q.items) t.cube;
      clashing = is_some t.clash;
      decisions = t.decisions.items;
      entries = t.engine.entries;
      slots = t.engine.slots;
      ranking = t.order;
    } };

    ghost invariant = { λ t. IsSearchState t.engine.program (option_map (λ q. q.items) t.cube) (is_some t.clash) t.decisions.items t.engine.entries t.engine.slots t.order × HasClash (option_map (λ q. q.items) t.cube) t.clash };
}

// Adds the literals at the end.
fn push_all(lits: &mut Lits, more: &[Lit]) -> Result<(), AllocError>
    ensures { OnOk result (lits.new ≡ lits.old ++ more.now) }
{
    for lit in more {
        lits.push(*lit)?;
    }
    Ok(())
}

impl<P: Propagator> SearchState<P> {
    /// No path is entered. The completion is kept, and nothing else; each variable has a bump for each place in it, and
    /// one that counts about an eighth for each place in a body whose definition it doesn't list.
    ///
    /// Want of memory is the one error.
    pub fn new(
        alloc: Global,
        compiled: &Compiled,
        propagator: P,
    ) -> Result<SearchState<P>, AllocError>
        requires program { (P.told propagator).program ≡ compiled.now }
        requires fresh { (P.told propagator).values ≡ replicate (var_count compiled.now + 1) None }
        ensures same { IfOk result (λ t. t ≡ record {
          program = compiled.now;
          bound = P.bound propagator;
          cube = None;
          clashing = false;
          decisions = [];
          entries = [];
          slots = t.slots;
          ranking = first_ranking compiled.now;
        }) }
        ensures slots { IfOk result (λ t. KeepsCompletionAlone compiled.now t.slots) }
    {
        let vars = compiled.vars();
        let mut order = Order::new(alloc, vars)?;
        let mut engine = Engine::new(alloc, vars, propagator)?;
        begin_unlisted(&mut order, compiled);
        order.age(AGE);
        match keep_completion(alloc, compiled, &mut engine, &mut order) {
            Ok(()) => {
                prefer_derived(&mut order, compiled);
                Ok(SearchState {
                    engine,
                    order,
                    cube: None,
                    clash: None,
                    decisions: Vec::new(alloc),
                })
            }
            Err(error) => {
                mem::drop(engine);
                mem::drop(order);
                Err(error)
            }
        }
    }

    /// No path is entered any more: nothing holds.
    pub fn leave(&mut self)
        ensures same { self.new ≡ record self.old { cube = None; clashing = false; decisions = []; entries = []; ranking = self.new.ranking } }
        ensures order { IsFuller self.old.ranking self.new.ranking }
    {
        self.order.restore_all(self.engine.trail());
        self.engine.clear();
        self.decisions.clear();
        self.cube = None;
        self.clash = None;
    }

    /// Begins a path: the literals of the cube are to hold. Where one of them has its complement there, nothing is
    /// tried under the cube.
    ///
    /// Want of memory is the one error: then no path is entered.
    pub fn enter(&mut self, alloc: Global, cube: &[Lit]) -> Result<(), AllocError>
        requires { AreOf self.old.program cube.now }
        ensures same { self.new ≡ record self.old { cube = self.new.cube; clashing = self.new.clashing; decisions = []; entries = self.new.entries; ranking = self.new.ranking } }
        ensures order { IsFuller self.old.ranking self.new.ranking }
        ensures level { level self.new.entries ≡ 0 }
        ensures ok { OnOk result (self.new.cube ≡ Some cube.now) }
        ensures err { OnErr result (self.new.cube ≡ None) }
    {
        self.leave();
        let copy = cube.to_vec(alloc)?;
        self.clash = assume_all(&mut self.engine, cube);
        self.cube = Some(copy);
        Ok(())
    }

    /// Whether the cube has a literal and its complement. Then nothing is decided.
    pub fn is_clashing(&self) -> bool
        ensures same { result ≡ self.now.clashing }
        ensures clashes { (q : List Literal) → self.now.cube ≡ Some q → IsTrue result → Clashes q }
        ensures idle { IsTrue result → self.now.decisions ≡ [] }
    {
        self.clash.is_some()
    }

    /// A literal of the cube whose complement is there too, if there is one.
    pub fn clash(&self) -> Option<Lit>
        ensures same { is_some result ≡ self.now.clashing }
        ensures has { (q : List Literal) → self.now.cube ≡ Some q → IfSome result (HasBoth q) }
    {
        self.clash
    }

    /// The trail.
    pub fn trail(&self) -> &Trail
        ensures vars { result.now.vars ≡ var_count self.now.program }
        ensures entries { result.now.entries ≡ self.now.entries }
        ensures ordered { IsOrdered (var_count self.now.program) self.now.entries }
        ensures begun { (q : List Literal) → IsUnder self.now q → IsBegun self.now.program q self.now.decisions self.now.entries }
    {
        let _len = self.engine.trail().len();
        self.engine.trail()
    }

    /// The nogoods that are kept. Each entry that was implied has a reason: one of them, or one that the propagator writes.
    pub fn store(&self) -> &Store
        ensures slots { result.now.slots ≡ self.now.slots }
        ensures reasons { HaveReasons self.now.slots self.now.entries }
        ensures implied { IsSound self.now.program → AreImpliedBy (IsAtHand (P.late self.now.program self.now.bound) self.now.slots) self.now.entries }
        ensures few { length self.now.slots ≤ 2 ^ 31 }
        ensures small { AreSmall (var_count self.now.program) self.now.slots }
        ensures completed { KeepsCompletion self.now.program self.now.slots }
    {
        let _extra = self.engine.store().extra();
        self.engine.store()
    }

    /// What knows the reasons of the trail's entries.
    pub fn reasons(&self) -> &Engine<P>
        ensures program { result.now.program ≡ self.now.program }
        ensures entries { result.now.entries ≡ self.now.entries }
        ensures slots { result.now.slots ≡ self.now.slots }
        ensures bound { result.now.bound ≡ self.now.bound }
        ensures asked { AreAsked (CanAsk (P.explains result.now.program result.now.bound) result.now.slots result.now.entries) result.now.entries }
        ensures said { AreReasons (IsSaid (P.late result.now.program result.now.bound) result.now.slots result.now.entries) result.now.entries }
    {
        let _store = self.engine.store();
        &self.engine
    }

    /// The cube, and none of its literals where no path is entered.
    pub fn cube(&self) -> &[Lit]
        ensures { (q : List Literal) → self.now.cube ≡ Some q → result.now ≡ q }
    {
        match &self.cube {
            None => &[],
            Some(cube) => cube.as_slice(),
        }
    }

    /// The decisions, that of level 1 first.
    pub fn decisions(&self) -> &[Lit]
        ensures { result.now ≡ self.now.decisions }
    {
        self.decisions.as_slice()
    }

    /// Implies what follows, until a kept nogood is violated, which is named, or the propagator is silent.
    ///
    /// Want of memory is the one error. Whatever comes, entries and nogoods are only added.
    pub fn propagate(&mut self) -> Result<Option<NogoodId>, AllocError>
        requires { (q : List Literal) × IsUnder self.old q }
        ensures same { self.new ≡ record self.old { entries = self.new.entries; slots = self.new.slots } }
        ensures adds { Adds (P.gives self.old.program self.old.bound) self.old.slots self.new.slots }
        ensures implies { Implies self.old.entries self.new.entries }
        ensures reasons { HaveReasons self.new.slots self.new.entries }
        ensures fixpoint { IfOk result (λ r. IfNone r (IsFixpoint (P.silent self.new.program self.new.bound) self.new.slots (values_of self.new))) }
        ensures violated { IfOk result (λ r. IfSome r (IsViolated (var_count self.new.program) self.new.slots self.new.entries)) }
    {
        self.engine.propagate()
    }

    /// Gives the first variable without a value the one that it had last, or false. None where each has a value.
    ///
    /// Want of memory is the one error: then nothing changed.
    pub fn decide(&mut self) -> Result<Option<Lit>, AllocError>
        requires under { (q : List Literal) × IsUnder self.old q }
        requires fixpoint { AreAtFixpoint self.old.slots (values_of self.old) }
        ensures same { self.new ≡ record self.old { decisions = self.new.decisions; entries = self.new.entries; ranking = record self.old.ranking { members = self.new.ranking.members } } }
        ensures next { IfOk result (λ r. IfSome r (λ l. IsNext (var_count self.old.program) (values_of self.old) self.old.ranking.activities l.var)) }
        ensures entries { IfOk result (λ r. IfSome r (λ l. self.new.entries ≡ self.old.entries ++ record { lit = l; level = length self.old.decisions + 1; reason = None } ∷ [])) }
        ensures decisions { IfOk result (λ r. IfSome r (λ l. self.new.decisions ≡ self.old.decisions ++ l ∷ [])) }
        ensures none { IfOk result (λ r. IfNone r (AreAssigned (var_count self.old.program) (values_of self.old) × (self.new.entries ≡ self.old.entries) × (self.new.decisions ≡ self.old.decisions))) }
        ensures err { OnErr result (self.new ≡ self.old) }
    {
        self.decisions.reserve(1)?;
        let _len = self.engine.trail().len();
        match self.order.next(self.engine.trail()) {
            None => Ok(None),
            Some(var) => {
                let lit = self.order.phase(var);
                self.engine.decide(lit);
                self.decisions.push_reserved(lit);
                Ok(Some(lit))
            }
        }
    }

    /// Leaves exactly the entries of the levels up to this one.
    pub fn undo_to(&mut self, level: usize)
        ensures same { self.new ≡ record self.old { decisions = take level self.old.decisions; entries = cut level self.old.entries; ranking = self.new.ranking } }
        ensures order { IsFuller self.old.ranking self.new.ranking }
    {
        let _len = self.engine.trail().len();
        self.order.restore_above(self.engine.trail(), level);
        self.engine.undo_to(level);
        self.decisions.truncate(level);
    }

    /// What is minimised is decided to have the value at which it costs less when it is decided next.
    pub fn begin_cheap(&mut self, alloc: Global, compiled: &Compiled)
        ensures { self.new ≡ self.old }
    {
        prefer_cheap(alloc, &mut self.order, compiled);
    }

    /// The variable is decided to have this value when it is decided next.
    pub fn prefer(&mut self, var: Var, truth: bool)
        ensures { self.new ≡ self.old }
    {
        self.order.prefer(var, truth);
    }

    /// A literal that follows by a kept nogood, at the level that stands.
    pub fn imply(&mut self, lit: Lit, id: NogoodId)
        requires under { (q : List Literal) × IsUnder self.old q }
        requires var { IsVar (var_count self.old.program) lit.var }
        requires none { value_of (values_of self.old) lit.var ≡ None }
        requires implied { IsImplied (path_of self.old) lit id }
        ensures { self.new ≡ record self.old { entries = self.old.entries ++ record { lit = lit; level = level self.old.entries; reason = Some id } ∷ [] } }
    {
        self.engine.imply(lit, id);
    }

    /// Keeps a nogood, and gives its number, which no kept one had. `levels` is the number of levels of its literals, by
    /// which it is dropped or not. Want of memory leaves all as it was.
    pub fn keep(&mut self, nogood: Nogood, kind: Kind, levels: u32) -> Result<NogoodId, AllocError>
        requires { AreOf self.old.program nogood.lits }
        ensures same { self.new ≡ record self.old { slots = self.new.slots } }
        ensures ok { IfOk result (λ id. IsAddedAt self.old.slots self.new.slots id nogood kind) }
        ensures err { OnErr result (self.new ≡ self.old) }
    {
        self.engine.keep(nogood, kind, levels)
    }

    /// Drops a local nogood that no entry names as its reason.
    pub fn remove(&mut self, id: NogoodId)
        requires local { (k : StoredNogood) × (kept_at self.old.slots id ≡ Some k) × (k.nogood.base ≡ base.Local) }
        requires unnamed { (i : ℕ) (d : Entry) → i < length self.old.entries → (slice_index_or self.old.entries i d).reason ≡ Some id → ⊥ }
        ensures { self.new ≡ record self.old { slots = slice_set self.old.slots id None } }
    {
        self.engine.remove(id);
    }

    /// Raises the activity of the variables that were met on the way to a nogood that was learnt.
    pub fn bump(&mut self, lits: &[Lit], met: &[Lit])
        requires lits { AreOf self.old.program lits.now }
        requires met { All (λ l. l.var ≤ var_count self.old.program) met.now }
        ensures { self.new ≡ record self.old { ranking = learnt self.old.ranking met.now } }
    {
        self.order.bump(lits, met);
    }

    /// Raises the activity of the literal's variable, so that it is decided next if it has no value, and then has the literal's.
    pub fn raise(&mut self, lit: Lit)
        requires { IsVar (var_count self.old.program) lit.var }
        ensures { self.new ≡ record self.old { ranking = self.new.ranking } }
    {
        self.order.raise(lit);
    }

    /// What was bumped before counts for less from now on: each time by a seventeenth.
    pub fn age(&mut self, times: u32)
        ensures { self.new ≡ record self.old { ranking = self.new.ranking } }
    {
        self.order.age(times);
    }

    /// Drops nogoods that are little used, but none that is kept forever, is a reason, or has two literals or fewer.
    pub fn reduce(&mut self)
        ensures same { self.new ≡ record self.old { slots = self.new.slots } }
        ensures kept { IsReduced self.old.entries self.old.slots self.new.slots }
    {
        self.engine.reduce();
    }

    /// Drops all nogoods that propagators gave and that aren't reasons.
    pub fn drop_given(&mut self)
        ensures same { self.new ≡ record self.old { slots = self.new.slots } }
        ensures kept { IsReduced self.old.entries self.old.slots self.new.slots }
        ensures each { (id : ℕ) → kept_at self.new.slots id ≡ if is_named self.old.entries id then kept_at self.old.slots id else unless_given (kept_at self.old.slots id) }
    {
        self.engine.drop_given();
    }

    /// Says that a nogood was used, which keeps it longer.
    pub fn used(&mut self, id: NogoodId)
        ensures { self.new ≡ self.old }
    {
        self.engine.used(id);
    }

    /// From now on smaller costs than this one are wanted.
    pub fn set_bound(&mut self, cost: Cost)
        requires { IsSmaller cost self.old.bound }
        ensures { self.new ≡ record self.old { bound = Some cost } }
    {
        self.engine.set_bound(cost);
    }

    /// The nogood of the cube and the decisions.
    ///
    /// Want of memory is the one error.
    pub fn blocking_nogood(&self, alloc: Global) -> Result<Nogood, AllocError>
        ensures { (q : List Literal) → self.now.cube ≡ Some q → IfOk result (λ n. n ≡ record { lits = q ++ self.now.decisions; base = base.Local }) }
    {
        let mut lits = Lits::from_slice(alloc, self.cube())?;
        push_all(&mut lits, self.decisions())?;
        Ok(Nogood {
            lits,
            base: Base::Local,
        })
    }
}
