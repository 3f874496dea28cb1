//! The search: what it keeps, and the calls beside its step.
ghost use Rattle.std.specs.Prelude.{◌≡◌, ◌≢◌, ◌+◌, ◌≤◌, ◌⊎◌, [], None, Some, true, false, List, IfOk, IfSome, OnOk, OnErr, IsSome, IsTrue, ◌↔◌, MatchBool, count_by, length, option_map, replicate, slice_get};
ghost use Rattle.std.specs.List.{All};
ghost use Rattle.std.specs.Option.{option_copied};
ghost use Rattle.asp_model.specs.Asked.{reasoning_of};
ghost use Rattle.asp_model.specs.Consequences.{unshown};
ghost use Rattle.asp_model.specs.Models.{atoms_of};
ghost use Rattle.asp_model.specs.Sets.{IsSubset};
ghost use Rattle.asp_vars.specs.Entailment.{IsGood, IsSharedBy};
ghost use Rattle.asp_vars.specs.Literals.{Literal};
ghost use Rattle.asp_vars.specs.Numbering.{var_count};
ghost use Rattle.asp_vars.specs.declared.nogood.Base.TheVariants as base;
ghost use Rattle.asp_trail.specs.Entries.{level};
ghost use Rattle.asp_trail.specs.Trails.{IsVar};
ghost use Rattle.asp_store.specs.Keeping.{is_extra, is_local_base, nogood_at};
ghost use Rattle.asp_propagate.specs.Useful.{IsSmaller};
ghost use Rattle.asp_search_laws.specs.Searching.{used};
ghost use Rattle.asp_search_laws.specs.Steps.{is_of_use};
ghost use Rattle.asp_search.specs.Beside.{new_search, Adopts, Enters, Leaves, count_unshown, left_to_show, is_shared, kept_last, only_shared, exported, Imports, IsOpen, IsShared, has_var};
ghost use Rattle.asp_search.specs.Invariants.{IsSeen, answers_known};
ghost use Rattle.asp_state.specs.SearchStates.{first_ranking, KeepsCompletionAlone};

use crate::aim::Aim;
use crate::covering::renew;
use crate::first::First;
use crate::litter::Litter;
use crate::noting::Uses;
use crate::route::{Route, Turn};
use crate::spread::Spread;
use asp_analyze::learn::Learner;
use asp_model::cost::Cost;
use asp_model::interp::Interp;
use asp_model::program::Atom;
use asp_model::results::Mode;
use asp_order::pace::Pace;
use asp_propagate::propagator::Propagator;
use asp_stable::checker::Checker;
use asp_state::state::SearchState;
use asp_store::store::Store;
use asp_store::stored_nogood::Kind;
use asp_trail::reasons::NogoodId;
use asp_vars::compiled::Compiled;
use asp_vars::known::Known;
use asp_vars::lit::{Lit, Var};
use asp_vars::nogood::{Base, Lits, Nogood};
use asp_vars::snapshot::Snapshot;
use std::alloc::{AllocError, Global};
use std::marker::Model;

// A nogood with more literals isn't handed to other searches.
const LONGEST_EXPORT: usize = 64;

// One with more literals than this only if they have few levels.
const SHORT_EXPORT: usize = 8;

// So many levels are few.
const FEW_LEVELS: u32 = 6;

/// A search of a program's answers under a cube, a step at a time.
#[derive(Drop)]
pub struct Search<'a, P: Propagator> {
    // where memory comes from
    pub(crate) alloc: Global,
    // the program, whose atoms and bodies have variables
    pub(crate) compiled: &'a Compiled,
    // whether all answers are sought, a cheapest one, or what holds in some or in all
    pub(crate) mode: Mode,
    // the trail under the cube, and the nogoods that are kept
    pub(crate) state: SearchState<P>,
    // how many literals the last step's propagation implied, with what was implied ahead of it
    pub(crate) implied: usize,
    // how many literals were implied ahead of the next step
    pub(crate) ahead: usize,
    // when restarts and reductions are due
    pub(crate) pace: Pace,
    // when what propagators gave is to go between restarts
    pub(crate) litter: Litter,
    // what learning takes memory for
    pub(crate) learner: Learner,
    // what counting levels takes memory for
    pub(crate) spread: Spread,
    // what checking an answer takes memory for
    pub(crate) checker: Checker<'a>,
    // in an enumeration the answers found, the oldest first, of which contracts alone know more than their number; else none
    pub(crate) known: Vec<Snapshot<Interp>>,
    // where consequences are sought, what the answers found and those of which it was told have in common
    pub(crate) seen: Option<Known>,
    // where it looks for the atoms that are still to be shown
    pub(crate) aim: Aim,
    // the numbers of the blocking nogoods of answers, the oldest first; where consequences are sought the last is that of all
    // answers known, and the others are reasons still
    pub(crate) blocking: Vec<NogoodId>,
    // what gathering an answer's atoms takes memory for
    pub(crate) held: Vec<Atom>,
    // the cost below which answers are sought: in an optimisation that of the last answer
    pub(crate) bound: Option<Cost>,
    // the nogood that the last step learnt, or by which it blocks an answer
    pub(crate) last: Option<NogoodId>,
    // in an enumeration the way on which answers were found, where the path is to be split
    pub(crate) route: Route,
    // what is decided before all else
    pub(crate) first: First,
    // by which nogoods the last step found something, where that is noted
    pub(crate) uses: Uses,
}

impl<'a, P: Propagator> Model for Search<'a, P> {
    ghost use Rattle.asp_search_laws.specs.Searching.{Searching};
    ghost use Rattle.asp_model.specs.Asked.{reasoning_of};
    ghost use Rattle.asp_search.specs.Invariants.{IsSearch, IsSeen, answers_known, used_in, view_of};

    ghost Value = { Searching };

    ghost view = { λ s. view_of s.mode s.state s.pace (answers_known s.known.items s.seen) s.last };

    ghost invariant = { λ s. IsSearch s.compiled.now s.mode s.state s.learner s.checker (used_in s.compiled.now s.mode s.known.items s.seen) s.blocking.items s.bound s.last × IsSeen (reasoning_of s.mode) s.compiled.now s.seen };
}

// No answer, where consequences are sought.
fn nothing_seen(alloc: Global, compiled: &Compiled, mode: Mode) -> Result<Option<Known>, AllocError>
    ensures known { IfOk result (λ seen. answers_known [] seen ≡ []) }
    ensures seen { IfOk result (IsSeen (reasoning_of mode) compiled.now) }
{
    match mode.reasoning() {
        None => Ok(None),
        Some(reasoning) => {
            let known = Known::new(alloc, compiled, reasoning)?;
            Ok(Some(known))
        }
    }
}

// What a search begins with. Where consequences are sought costs don't count, so nothing begins cheap there.
fn first_state<P: Propagator>(
    alloc: Global,
    compiled: &Compiled,
    mode: Mode,
    propagator: P,
) -> Result<SearchState<P>, AllocError>
    requires program { (P.told propagator).program ≡ compiled.now }
    requires fresh { (P.told propagator).values ≡ replicate (var_count compiled.now + 1) None }
    ensures same { IfOk result (λ t. t ≡ record {
      program = compiled.now;
      bound = P.bound propagator;
      cube = None;
      clashing = false;
      decisions = [];
      entries = [];
      slots = t.slots;
      ranking = first_ranking compiled.now;
    }) }
    ensures slots { IfOk result (λ t. KeepsCompletionAlone compiled.now t.slots) }
{
    let mut state = SearchState::new(alloc, compiled, propagator)?;
    if mode.reasoning().is_none() {
        state.begin_cheap(alloc, compiled);
    }
    Ok(state)
}

/// How many atoms are still to be shown; none where no answer is known.
pub fn count_unshown(known: &Known) -> Option<usize>
    ensures { result ≡ count_unshown known.now.reasoning known.now.program known.now.sets }
{
    if known.is_some() {
        Some(known.unshown().len())
    } else {
        None
    }
}

// Whether a nogood of this base counts for a search, whatever answers it knows.
fn is_of_use(mode: Mode, bound: &Option<Cost>, base: &Base) -> bool
    ensures { result ≡ is_of_use mode bound.now base.now }
{
    match base {
        Base::Pure => true,
        Base::Local => false,
        Base::Below(cost) => is_reached(mode, bound, cost),
    }
}

// Whether the bound of an optimisation has reached the cost.
fn is_reached(mode: Mode, bound: &Option<Cost>, cost: &Cost) -> bool
    ensures { result ≡ is_of_use mode bound.now (base.Below cost.now) }
{
    match (mode, bound) {
        (Mode::Opt, Some(bound)) => !(cost < bound),
        _ => false,
    }
}

fn is_local(base: &Base) -> bool
    ensures { result ≡ is_local_base base.now }
{
    match base {
        Base::Local => true,
        Base::Pure | Base::Below(_) => false,
    }
}

// How many literals a nogood may have that is handed to other searches, where its literals have so many levels.
fn longest(levels: u32) -> usize
    ensures { (result ≡ 8) ⊎ (result ≡ 64) }
{
    if levels <= FEW_LEVELS {
        LONGEST_EXPORT
    } else {
        SHORT_EXPORT
    }
}

// Whether other searches can use the nogood of these literals, and it has no more of them than this.
fn is_shared(longest: usize, lits: &[Lit], base: &Base) -> bool
    ensures { result ≡ is_shared longest (record { lits = lits.now; base = base.now }) }
{
    !is_local(base) && lits.len() <= longest
}

// A copy of the kept nogood, if other searches can use it and it has no more literals than this.
fn copy_shared(
    alloc: Global,
    store: &Store,
    id: NogoodId,
    longest: usize,
) -> Result<Option<Nogood>, AllocError>
    requires { IsSome (nogood_at store.now.slots id) }
    ensures { IfOk result (λ copy. copy ≡ only_shared longest (nogood_at store.now.slots id)) }
{
    let nogood = store.nogood(id);
    let lits = nogood.lits.as_slice();
    if !is_shared(longest, lits, &nogood.base) {
        return Ok(None);
    }
    let lits = Lits::from_slice(alloc, lits)?;
    let base = nogood.base.copy()?;
    Ok(Some(Nogood { lits, base }))
}

// Whether a cube has a variable.
fn has_var(cube: &[Lit], var: Var) -> bool
    ensures { result ≡ has_var cube.now var }
{
    cube.iter().any(|lit| lit.var() == var)
}

impl<'a, P: Propagator> Search<'a, P> {
    /// A search that knows no answer, has no bound and has entered no path.
    pub fn new(
        alloc: Global,
        compiled: &'a Compiled,
        mode: Mode,
        propagator: P,
    ) -> Result<Search<'a, P>, AllocError>
        requires program { (P.told propagator).program ≡ compiled.now }
        requires fresh { (P.told propagator).values ≡ replicate (var_count compiled.now + 1) None }
        requires unbounded { P.bound propagator ≡ None }
        ensures same { IfOk result (λ s. s ≡ new_search compiled.now mode s.slots) }
        ensures slots { IfOk result (λ s. KeepsCompletionAlone compiled.now s.slots) }
    {
        let vars = compiled.vars();
        let _program = compiled.program();
        let learner = Learner::new(alloc, vars)?;
        let spread = Spread::new(alloc, vars)?;
        let checker = Checker::new(alloc, compiled)?;
        let seen = nothing_seen(alloc, compiled, mode)?;
        // The state is made last: no way out has it to drop, which would cost the check more than all else here.
        let state = first_state(alloc, compiled, mode, propagator)?;
        Ok(Search {
            alloc,
            compiled,
            mode,
            state,
            pace: Pace::new(vars as usize),
            implied: 0,
            ahead: 0,
            litter: Litter::new(vars),
            learner,
            spread,
            checker,
            known: Vec::new(alloc),
            seen,
            aim: Aim::unset(),
            blocking: Vec::new(alloc),
            held: Vec::new(alloc),
            bound: None,
            last: None,
            route: Route::new(alloc),
            first: First::none(alloc),
            uses: Uses::new(alloc),
        })
    }

    /// Leaves the path, if one is entered.
    pub(crate) fn leave(&mut self)
        ensures { Leaves self.old self.new }
    {
        self.state.leave();
        self.last = None;
    }

    /// Begins a path: all literals of the cube are to hold. After want of memory no path is entered.
    pub fn enter(&mut self, cube: &[Lit]) -> Result<(), AllocError>
        requires { All (λ l. IsVar (var_count self.old.program) l.var) cube.now }
        ensures ok { OnOk result (Enters self.old self.new cube.now) }
        ensures err { OnErr result (Leaves self.old self.new) }
    {
        self.last = None;
        self.route.reach(cube);
        self.first.begin();
        self.aim = Aim::unset();
        self.state.enter(self.alloc, cube)?;
        self.pace.begin();
        Ok(())
    }

    /// From now on only answers that cost less are sought. After want of memory no path is entered.
    pub fn set_bound(&mut self, cost: Cost) -> Result<(), AllocError>
        requires { IsSmaller cost self.old.bound }
        ensures ok { OnOk result (self.new ≡ record self.old { bound = Some cost }) }
        ensures err { OnErr result (Leaves self.old self.new) }
    {
        match cost.copy() {
            Ok(copy) => {
                self.state.set_bound(copy);
                self.bound = Some(cost);
                Ok(())
            }
            Err(error) => {
                self.leave();
                Err(error)
            }
        }
    }

    /// From now on only answers are sought that show something beside these, of which there is one at least, and which show all that those
    /// known show. After want of memory no path is entered.
    pub fn set_known(&mut self, known: Known) -> Result<(), AllocError>
        requires program { known.program ≡ self.old.program }
        requires reasoning { Some known.reasoning ≡ reasoning_of self.old.mode }
        requires all { IsSubset (unshown known.reasoning known.program known.sets) (unshown known.reasoning known.program self.old.known) }
        requires some { known.sets ≢ [] }
        ensures ok { OnOk result (Adopts self.old self.new known.sets) }
        ensures err { OnErr result (Leaves self.old self.new) }
    {
        match renew(
            self.alloc,
            self.compiled,
            &mut self.state,
            &mut self.blocking,
            &known,
        ) {
            Ok(()) => {
                self.seen = Some(known);
                self.aim = Aim::begun();
                self.last = None;
                Ok(())
            }
            Err(error) => {
                self.leave();
                Err(error)
            }
        }
    }

    /// How many atoms are still to be shown, where consequences are sought; none where no answer is known.
    pub fn unshown_atoms(&self) -> Option<usize>
        ensures { result ≡ left_to_show self.now }
    {
        match &self.seen {
            None => None,
            Some(seen) => count_unshown(seen),
        }
    }

    /// The atoms that stand in the program, ascending.
    pub fn atoms(&self) -> &Interp
        ensures { result.now ≡ atoms_of self.now.program }
    {
        self.compiled.atoms()
    }

    /// The cost below which answers are sought, if there is one.
    pub fn bound(&self) -> Option<&Cost>
        ensures { option_copied result ≡ self.now.bound }
    {
        let _mode = self.mode;
        self.bound.as_ref()
    }

    // Keeps another search's nogood.
    fn keep(&mut self, nogood: &Nogood) -> Result<(), AllocError>
        requires vars { All (λ l. IsVar (var_count self.old.program) l.var) nogood.now.lits }
        requires good { IsGood self.old.program (used self.old) self.old.bound nogood.now }
        requires useful { is_of_use self.old.mode self.old.bound nogood.now.base ≡ true }
        ensures ok { OnOk result (Imports self.old self.new nogood.now) }
        ensures err { OnErr result (self.new ≡ self.old) }
    {
        let _mode = self.mode;
        let copy = nogood.copy()?;
        let id = self.state.keep(copy, Kind::Learnt, u32::MAX)?;
        self.uses.note_imported(id);
        Ok(())
    }

    /// Keeps a nogood that another search found. False where it doesn't count for this one: it is local, or below a
    /// cost that no bound of an optimisation has reached. After want of memory no path is entered.
    pub fn import(&mut self, nogood: &Nogood) -> Result<bool, AllocError>
        requires vars { All (λ l. IsVar (var_count self.old.program) l.var) nogood.now.lits }
        requires good { nogood.now.base ≢ base.Local → IsSharedBy self.old.program nogood.now.base nogood.now.lits }
        ensures counts { IfOk result (λ b. b ≡ is_of_use self.old.mode self.old.bound nogood.now.base) }
        ensures ok { IfOk result (λ b. MatchBool b (Imports self.old self.new nogood.now) (self.new ≡ self.old)) }
        ensures err { OnErr result (Leaves self.old self.new) }
    {
        if !is_of_use(self.mode, &self.bound, &nogood.base) {
            return Ok(false);
        }
        match self.keep(nogood) {
            Ok(()) => Ok(true),
            Err(error) => {
                self.leave();
                Err(error)
            }
        }
    }

    /// A copy of the nogood that the last step learnt, if it has at most 8 literals, or few levels and at most 64 literals, and
    /// isn't local. It holds for every search of the program.
    pub fn export(&self) -> Result<Option<Nogood>, AllocError>
        ensures value { IfOk result (λ copy. (copy ≡ exported 8 self.now) ⊎ (copy ≡ exported 64 self.now)) }
        ensures shared { IfOk result (λ copy. IfSome copy (IsShared self.now.program)) }
    {
        let _mode = self.mode;
        let store = self.state.store();
        match self.last {
            None => Ok(None),
            Some(id) => copy_shared(self.alloc, store, id, longest(self.spread.last())),
        }
    }

    /// The nogood that the last step learnt, or by which it blocks an answer.
    pub fn kept(&self) -> Option<&[Lit]>
        ensures { option_map (λ r. r.now) result ≡ option_map (λ n. n.lits) (kept_last self.now) }
    {
        let store = self.state.store();
        match self.last {
            None => None,
            Some(id) => Some(store.lits(id)),
        }
    }

    /// From now on it is noted by which nogoods each step finds what it keeps.
    pub fn note(&mut self)
        ensures { self.new ≡ self.old }
    {
        self.uses.begin();
    }

    /// By which kept nogoods the last step found what it kept or closed the path by, in the order in which they said something,
    /// if that is noted. It is advice, and no clause says it.
    pub fn uses(&self) -> &[NogoodId] {
        self.uses.numbers()
    }

    /// The numbers of the nogoods that propagators gave in the last step, in that order, if that is noted. No clause says it.
    pub fn given(&self) -> &[NogoodId] {
        self.uses.given()
    }

    /// The number of the nogood that was imported last. No clause says it.
    pub fn imported_number(&self) -> Option<NogoodId> {
        self.uses.imported()
    }

    /// The number of the nogood that the last step learnt, or by which it blocks an answer.
    pub fn kept_number(&self) -> Option<NogoodId> {
        self.last
    }

    /// How many kept nogoods aren't kept forever: those that were learnt, and those of propagators.
    pub fn extra(&self) -> usize
        ensures { result ≡ count_by is_extra self.now.slots }
    {
        self.state.store().extra()
    }

    /// How many literals the last step's propagation implied. It is counted, and no clause says it.
    pub fn implied(&self) -> usize {
        self.implied
    }

    // How many decisions stand. No variable has two entries.
    pub(crate) fn level(&self) -> usize
        ensures level { result ≡ level self.now.entries }
        ensures few { length self.now.entries ≤ var_count self.now.program + 1 }
    {
        let _program = self.compiled.program();
        self.state.trail().level()
    }

    /// Whether the path can be split on a literal: it is of one of the program's variables, which the cube doesn't have.
    pub fn is_open(&self, lit: Lit) -> bool
        ensures { (q : List Literal) → self.now.cube ≡ Some q → (IsTrue result ↔ IsOpen self.now.program q lit) }
    {
        let var = lit.var();
        if var == 0 || self.compiled.vars() < var {
            return false;
        }
        !has_var(self.state.cube(), var)
    }

    /// From now on it keeps the way on which answers are found in an enumeration, and takes it again after restarts and in a half
    /// of its path.
    pub fn keep_route(&mut self)
        ensures { self.new ≡ self.old }
    {
        self.route.keep();
    }

    // The first turn of the way that isn't settled on the path.
    fn front(&self) -> Option<Turn> {
        let vars = self.compiled.vars();
        let trail = self.state.trail();
        self.route.front(self.state.cube().len(), trail, vars)
    }

    // The literal, if the path can be split by it.
    fn if_open(&self, lit: Lit) -> Option<Lit>
        ensures { (q : List Literal) → self.now.cube ≡ Some q → IfSome result (IsOpen self.now.program q) }
    {
        if self.is_open(lit) { Some(lit) } else { None }
    }

    /// A literal by which the path can be split, and whose side of it was searched, where answers were found on that side, and
    /// the other side isn't known to be the path's.
    pub fn searched(&self) -> Option<Lit>
        ensures { (q : List Literal) → self.now.cube ≡ Some q → IfSome result (IsOpen self.now.program q) }
    {
        match self.front() {
            Some(turn) if turn.searched => self.if_open(turn.lit.complement()),
            _ => None,
        }
    }

    /// A literal by which the path can be split: where answers were found on it, one that all of them have, else the first decision.
    /// None as long as there is one whose side was searched.
    pub fn divider(&self) -> Option<Lit>
        ensures { (q : List Literal) → self.now.cube ≡ Some q → IfSome result (IsOpen self.now.program q) }
    {
        if self.route.is_aside(self.state.cube().len()) {
            return None;
        }
        match self.front() {
            None => self.first(),
            Some(turn) if turn.searched => None,
            Some(turn) => self.if_open(turn.lit),
        }
    }

    // The first decision, if one stands: a literal by which the path can be split.
    fn first(&self) -> Option<Lit>
        ensures value { result ≡ slice_get self.now.decisions 0 }
        ensures splits { (q : List Literal) → self.now.cube ≡ Some q → IfSome result (IsOpen self.now.program q) }
    {
        let _trail = self.state.trail();
        let _clashing = self.state.is_clashing();
        self.state.decisions().first().copied()
    }
}
