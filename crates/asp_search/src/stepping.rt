//! One step of the search.
//!
//! A stable model that hits the cube and the decisions, and isn't known nor too dear, hits each entry of the trail in
//! turn: a reason whose other literals are hit can't be hit whole. So it hits a violated nogood, and there is none: a
//! conflict is settled. On a whole trail it is the set of the true atoms. A known answer hits a kept nogood, and none is
//! violated when an answer is found: that is another set.
ghost use Rattle.std.specs.Prelude.{◌≡◌, ◌+◌, ◌-◌, ◌^◌, ◌≤◌, List, [], None, Some, true, length, min, IfOk, OnOk, OnErr, IsSome, IsTrue};
ghost use Rattle.asp_model.specs.Asked.{reasoning_of};
ghost use Rattle.asp_model.specs.declared.results.Mode.TheVariants as mode;
ghost use Rattle.asp_vars.specs.Literals.{Literal};
ghost use Rattle.asp_vars.specs.Numbering.{var_count};
ghost use Rattle.asp_vars.specs.Paid.{Units};
ghost use Rattle.asp_trail.specs.Entries.{cut};
ghost use Rattle.asp_store.specs.Walking.{IsViolated};
ghost use Rattle.asp_order.specs.Waiting.{AreAssigned};
ghost use Rattle.asp_propagate.specs.Propagating.{IsFixpoint, IsReduced};
ghost use Rattle.asp_search_laws.specs.Searching.{values_now};
ghost use Rattle.asp_search_laws.specs.Keeping.{GrowsUnlessGiven};
ghost use Rattle.asp_search_laws.specs.Steps.{Answers, IsDue, IsStep, IsFailure};
ghost use Rattle.asp_analyze.specs.declared.learn.Learned.TheVariants as learned;
ghost use Rattle.asp_search.specs.Meeting.{IsClashed, IsMet};
ghost use Rattle.asp_search.specs.Stepping.{IsEntered, IsFound};

use crate::aim::Aim;
use crate::blocking::block;
use crate::conflicts::{conflict, jump, learn, opposed};
use crate::covering::cover;
use crate::faults::{fault, true_atoms};
use crate::litter::Litter;
use crate::route::Route;
use crate::search::Search;
use asp_analyze::learn::Learned;
use asp_model::cost::cost_of;
use asp_model::interp::Interp;
use asp_model::results::Mode;
use asp_order::pace::Pace;
use asp_propagate::propagator::Propagator;
use asp_search_laws::step::Step;
use asp_state::state::SearchState;
use asp_store::stored_nogood::Kind;
use asp_trail::reasons::NogoodId;
use asp_vars::fuel::Fuel;
use asp_vars::lit::{Lit, Var};
use asp_vars::nogood::Nogood;
use asp_vars::snapshot::Snapshot;
use std::alloc::AllocError;

// So many times what was bumped before is aged when an atom is sought: it counts for half then.
const AGE: u32 = 12;

// Whether a restart is due, and would take something back.
fn is_due<P: Propagator>(pace: &Pace, state: &SearchState<P>) -> bool
    ensures { IsTrue result → IsDue pace.now.learnt }
{
    if state.trail().level() == 0 {
        return false;
    }
    pace.is_due(state.store().extra())
}

// Drops the less used nogoods, where too many are kept.
fn reduce<P: Propagator>(state: &mut SearchState<P>, pace: &mut Pace)
    ensures same { state.new ≡ record state.old { slots = state.new.slots } }
    ensures reduced { IsReduced state.old.entries state.old.slots state.new.slots }
    ensures restarts { pace.new.restarts ≡ pace.old.restarts }
    ensures learnt { pace.new.learnt ≡ pace.old.learnt }
{
    if !pace.is_full(state.store().extra()) {
        return;
    }
    state.reduce();
    pace.reduced();
}

// Drops what propagators gave, and more where too many nogoods are kept.
fn forget<P: Propagator>(state: &mut SearchState<P>, pace: &mut Pace)
    ensures same { state.new ≡ record state.old { slots = state.new.slots } }
    ensures reduced { IsReduced state.old.entries state.old.slots state.new.slots }
    ensures restarts { pace.new.restarts ≡ pace.old.restarts }
    ensures learnt { pace.new.learnt ≡ pace.old.learnt }
{
    state.drop_given();
    reduce(state, pace);
    pace.dropped(state.store().extra());
}

// The same, where many nogoods are kept.
fn thin<P: Propagator>(state: &mut SearchState<P>, pace: &mut Pace)
    ensures same { state.new ≡ record state.old { slots = state.new.slots } }
    ensures reduced { IsReduced state.old.entries state.old.slots state.new.slots }
    ensures restarts { pace.new.restarts ≡ pace.old.restarts }
    ensures learnt { pace.new.learnt ≡ pace.old.learnt }
{
    if !pace.is_crowded(state.store().extra()) {
        return;
    }
    forget(state, pace);
}

// Drops what propagators gave, where much was kept since that was done last.
fn sweep<P: Propagator>(state: &mut SearchState<P>, litter: &mut Litter)
    ensures same { state.new ≡ record state.old { slots = state.new.slots } }
    ensures reduced { IsReduced state.old.entries state.old.slots state.new.slots }
    ensures others { GrowsUnlessGiven state.old.slots state.new.slots }
{
    if !litter.is_much(state.store().extra()) {
        return;
    }
    state.drop_given();
    litter.dropped(state.store().extra());
}

// Tells the way of an answer: these decisions stand, and this one was taken back, if there was one.
fn add_answer<P: Propagator>(route: &mut Route, state: &SearchState<P>, last: Option<Lit>) {
    route.add(state.cube().len(), state.decisions(), last);
}

// What is to be decided next on the way on which answers were found.
fn next_turn<P: Propagator>(route: &mut Route, state: &SearchState<P>, vars: Var) -> Option<Lit>
    requires { vars ≡ var_count state.now.program }
{
    let len = state.cube().len();
    let decisions = state.decisions().len();
    route.next(len, state.trail(), vars, decisions)
}

// Raises a literal, if there is one and it is of a variable.
fn raise<P: Propagator>(state: &mut SearchState<P>, vars: Var, next: Option<Lit>)
    requires { vars ≡ var_count state.old.program }
    ensures { state.new ≡ record state.old { ranking = state.new.ranking } }
{
    match next {
        Some(lit) if lit.var() != 0 && lit.var() <= vars => state.raise(lit),
        _ => {}
    }
}

// The same, above all that was raised before.
fn raise_above<P: Propagator>(state: &mut SearchState<P>, vars: Var, next: Option<Lit>)
    requires { vars ≡ var_count state.old.program }
    ensures { state.new ≡ record state.old { ranking = state.new.ranking } }
{
    match next {
        Some(lit) if lit.var() != 0 && lit.var() <= vars => {
            state.age(AGE);
            state.raise(lit);
        }
        _ => {}
    }
}

// Raises one of several literals. The first of them goes above all that was raised before; those that follow it need that no more, so
// that activities keep their order over a long way down.
fn raise_in_turn<P: Propagator>(
    state: &mut SearchState<P>,
    vars: Var,
    next: Option<Lit>,
    fresh: bool,
)
    requires { vars ≡ var_count state.old.program }
    ensures { state.new ≡ record state.old { ranking = state.new.ranking } }
{
    if fresh {
        raise_above(state, vars, next);
    } else {
        raise(state, vars, next);
    }
}

impl<'a, P: Propagator> Search<'a, P> {
    // Burns a unit for the conflict that a nogood shows, and keeps what was learnt from it.
    fn pay(
        &mut self,
        id: NogoodId,
        nogood: Nogood,
        to: usize,
        lit: Lit,
        fuel: &mut Fuel,
    ) -> Result<Step, AllocError>
        requires met { (q : List Literal) × IsMet (P.gives self.old.program self.old.bound) self.old q id (learned.Jump nogood to lit) }
        requires program { fuel.old.program ≡ self.old.program }
        ensures ok { IfOk result (IsStep (P.gives self.old.program self.old.bound) (P.silent self.old.program self.old.bound) self.old self.new fuel.old fuel.new) }
        ensures err { OnErr result (IsFailure (P.gives self.old.program self.old.bound) self.old self.new fuel.old fuel.new) }
    {
        let conflict = conflict(
            self.compiled,
            &self.state,
            self.mode,
            &self.known,
            &self.seen,
            &self.bound,
            id,
            lit,
        )?;
        if fuel.left() == 0 {
            return Ok(Step::NoFuel(conflict));
        }
        fuel.burn(conflict);
        self.pace.count();
        self.uses
            .note_conflict(&self.learner, self.state.trail(), id);
        let new = jump(
            &mut self.state,
            &self.learner,
            &mut self.spread,
            nogood,
            to,
            lit,
        )?;
        sweep(&mut self.state, &mut self.litter);
        self.last = Some(new);
        Ok(Step::Learnt)
    }

    // Drops nogoods where many are kept: paths that end before a restart is due would leave more and more.
    fn make_room(&mut self)
        requires last { self.old.last ≡ None }
        ensures same { self.new ≡ record self.old { slots = self.new.slots } }
        ensures reduced { IsReduced self.old.entries self.old.slots self.new.slots }
    {
        thin(&mut self.state, &mut self.pace);
    }

    // Learns from a violated nogood.
    fn meet(&mut self, id: NogoodId, fuel: &mut Fuel) -> Result<Step, AllocError>
        requires entered { (q : List Literal) × IsEntered self.old q }
        requires program { fuel.old.program ≡ self.old.program }
        requires violated { IsViolated (var_count self.old.program) self.old.slots self.old.entries id }
        ensures ok { IfOk result (IsStep (P.gives self.old.program self.old.bound) (P.silent self.old.program self.old.bound) self.old self.new fuel.old fuel.new) }
        ensures err { OnErr result (IsFailure (P.gives self.old.program self.old.bound) self.old self.new fuel.old fuel.new) }
    {
        let _program = self.compiled.program();
        let _trail = self.state.trail();
        let _store = self.state.store();
        match learn(&mut self.learner, &self.state, id)? {
            Learned::InCube(nogood) => {
                self.uses
                    .note_conflict(&self.learner, self.state.trail(), id);
                self.make_room();
                Ok(Step::Closed(nogood))
            }
            Learned::Jump { nogood, level, lit } => self.pay(id, nogood, level, lit, fuel),
        }
    }

    // In an enumeration the answer is known from now on.
    fn list(&mut self, interp: &Interp) -> Result<(), AllocError>
        requires mode { self.old.mode ≡ mode.Enum }
        requires found { (q : List Literal) × IsEntered self.old q × IsFound self.old q interp.now }
        ensures ok { OnOk result ((q : List Literal) (f : Units) → self.old.cube ≡ Some q → Answers (P.gives self.old.program self.old.bound) self.old self.new q f f interp.now) }
        ensures err { OnErr result (self.new ≡ self.old) }
    {
        self.known.reserve(1)?;
        self.uses.note_answer(self.state.trail());
        let decision = self.state.decisions().last().copied();
        let id = block(self.alloc, &mut self.state, &mut self.blocking)?;
        thin(&mut self.state, &mut self.pace);
        let answer = Snapshot::of(interp);
        self.known.push_reserved(answer);
        self.last = Some(id);
        add_answer(&mut self.route, &self.state, decision);
        Ok(())
    }

    // In an optimisation its cost is the bound from now on.
    fn improve(&mut self, interp: &Interp) -> Result<(), AllocError>
        requires mode { self.old.mode ≡ mode.Opt }
        requires found { (q : List Literal) × IsEntered self.old q × IsFound self.old q interp.now }
        ensures ok { OnOk result ((q : List Literal) (f : Units) → self.old.cube ≡ Some q → Answers (P.gives self.old.program self.old.bound) self.old self.new q f f interp.now) }
        ensures err { OnErr result (self.new ≡ self.old) }
    {
        let cost = cost_of(self.alloc, self.compiled.program(), interp)?;
        let copy = cost.copy()?;
        self.state.set_bound(copy);
        self.bound = Some(cost);
        self.state.undo_to(0);
        Ok(())
    }

    // Where consequences are sought, what shows nothing beside it and the others is left out from now on.
    fn cover(&mut self, interp: &Interp) -> Result<(), AllocError>
        requires mode { IsSome (reasoning_of self.old.mode) }
        requires found { (q : List Literal) × IsEntered self.old q × IsFound self.old q interp.now }
        ensures ok { OnOk result ((q : List Literal) (f : Units) → self.old.cube ≡ Some q → Answers (P.gives self.old.program self.old.bound) self.old self.new q f f interp.now) }
        ensures err { OnErr result (self.new ≡ self.old) }
    {
        let known = match &self.seen {
            None => unreachable!(),
            Some(seen) => seen.with(interp)?,
        };
        cover(
            self.alloc,
            self.compiled,
            &mut self.state,
            &mut self.blocking,
            &known,
        )?;
        self.seen = Some(known);
        self.aim = Aim::begun();
        Ok(())
    }

    fn answer(&mut self, interp: &Interp) -> Result<(), AllocError>
        requires { (q : List Literal) × IsEntered self.old q × IsFound self.old q interp.now }
        ensures ok { OnOk result ((q : List Literal) (f : Units) → self.old.cube ≡ Some q → Answers (P.gives self.old.program self.old.bound) self.old self.new q f f interp.now) }
        ensures err { OnErr result (self.new ≡ self.old) }
    {
        match self.mode {
            Mode::Enum => self.list(interp),
            Mode::Opt => self.improve(interp),
            Mode::Consequences(_) => self.cover(interp),
        }
    }

    // All variables have values.
    fn complete(&mut self, fuel: &mut Fuel) -> Result<Step, AllocError>
        requires entered { (q : List Literal) × IsEntered self.old q }
        requires program { fuel.old.program ≡ self.old.program }
        requires fixpoint { IsFixpoint (P.silent self.old.program self.old.bound) self.old.slots (values_now self.old) }
        requires assigned { AreAssigned (var_count self.old.program) (values_now self.old) }
        ensures ok { IfOk result (IsStep (P.gives self.old.program self.old.bound) (P.silent self.old.program self.old.bound) self.old self.new fuel.old fuel.new) }
        ensures err { OnErr result (IsFailure (P.gives self.old.program self.old.bound) self.old self.new fuel.old fuel.new) }
    {
        let _program = self.compiled.program();
        let _store = self.state.store();
        let interp = true_atoms(
            self.alloc,
            self.compiled,
            self.state.trail(),
            &mut self.held,
        )?;
        match fault(
            self.alloc,
            self.compiled,
            &self.state,
            &mut self.checker,
            &interp,
        )? {
            None => {
                self.answer(&interp)?;
                Ok(Step::Answer(interp))
            }
            Some(nogood) => {
                let id = self.state.keep(nogood, Kind::Given, u32::MAX)?;
                self.meet(id, fuel)
            }
        }
    }

    // Takes all decisions back, and drops what propagators gave, and more where too many nogoods are kept.
    fn restart(&mut self)
        requires last { self.old.last ≡ None }
        ensures same { self.new ≡ record self.old {
          entries = cut 0 self.old.entries;
          decisions = [];
          slots = self.new.slots;
          ranking = self.new.ranking;
          restarts = min (self.old.restarts + 1) (2 ^ 64 - 1);
          learnt = 0;
        } }
        ensures reduced { IsReduced (cut 0 self.old.entries) self.old.slots self.new.slots }
    {
        self.state.undo_to(0);
        self.pace.restarted();
        forget(&mut self.state, &mut self.pace);
    }

    // No conflict, and no restart: decides.
    fn decide(&mut self, fuel: &mut Fuel) -> Result<Step, AllocError>
        requires entered { (q : List Literal) × IsEntered self.old q }
        requires program { fuel.old.program ≡ self.old.program }
        requires fixpoint { IsFixpoint (P.silent self.old.program self.old.bound) self.old.slots (values_now self.old) }
        ensures ok { IfOk result (IsStep (P.gives self.old.program self.old.bound) (P.silent self.old.program self.old.bound) self.old self.new fuel.old fuel.new) }
        ensures err { OnErr result (IsFailure (P.gives self.old.program self.old.bound) self.old self.new fuel.old fuel.new) }
    {
        match self.state.decide()? {
            Some(_) => Ok(Step::Decided),
            None => self.complete(fuel),
        }
    }

    // Raises what is to be decided next on the way on which answers were found.
    fn follow_route(&mut self)
        ensures { self.new ≡ record self.old { ranking = self.new.ranking } }
    {
        let vars = self.compiled.vars();
        let next = next_turn(&mut self.route, &self.state, vars);
        raise(&mut self.state, vars, next);
    }

    // Where consequences are sought, what shows an atom that is still to be shown.
    fn sought(&self, aim: &mut Aim) -> Option<Lit> {
        let vars = self.compiled.vars();
        let decided = !self.state.decisions().is_empty();
        match &self.seen {
            None => None,
            Some(seen) => aim.next(self.state.trail(), vars, self.compiled, seen, decided),
        }
    }

    // Raises that.
    fn seek(&mut self)
        ensures { self.new ≡ record self.old { ranking = self.new.ranking } }
    {
        let vars = self.compiled.vars();
        let mut aim = self.aim;
        let fresh = aim.is_fresh();
        let next = self.sought(&mut aim);
        self.aim = aim;
        raise_in_turn(&mut self.state, vars, next, fresh);
    }

    // What is decided first, if it has no value yet.
    fn next_first(&mut self) -> Option<Lit>
        ensures { self.new ≡ self.old }
    {
        let vars = self.compiled.vars();
        let decisions = self.state.decisions().len();
        self.first.next(self.state.trail(), vars, decisions)
    }

    // Raises that.
    fn raise_first(&mut self, lit: Lit)
        ensures { self.new ≡ record self.old { ranking = self.new.ranking } }
    {
        let vars = self.compiled.vars();
        let fresh = self.first.take_fresh();
        raise_in_turn(&mut self.state, vars, Some(lit), fresh);
    }

    fn follow(&mut self)
        ensures { self.new ≡ record self.old { ranking = self.new.ranking } }
    {
        match self.next_first() {
            Some(lit) => self.raise_first(lit),
            None if self.seen.is_some() => self.seek(),
            None => self.follow_route(),
        }
    }

    // No conflict: goes on.
    fn go_on(&mut self, fuel: &mut Fuel) -> Result<Step, AllocError>
        requires entered { (q : List Literal) × IsEntered self.old q }
        requires program { fuel.old.program ≡ self.old.program }
        requires fixpoint { IsFixpoint (P.silent self.old.program self.old.bound) self.old.slots (values_now self.old) }
        ensures ok { IfOk result (IsStep (P.gives self.old.program self.old.bound) (P.silent self.old.program self.old.bound) self.old self.new fuel.old fuel.new) }
        ensures err { OnErr result (IsFailure (P.gives self.old.program self.old.bound) self.old self.new fuel.old fuel.new) }
    {
        if is_due(&self.pace, &self.state) {
            self.restart();
            return Ok(Step::Restarted);
        }
        self.follow();
        self.decide(fuel)
    }

    // The cube has a literal and its complement.
    fn clashed(&self) -> Result<Step, AllocError>
        requires { self.now.clashing ≡ true }
        ensures { IfOk result (IsClashed self.now.cube) }
    {
        match self.state.clash() {
            Some(lit) => {
                let nogood = opposed(self.alloc, lit)?;
                Ok(Step::Closed(nogood))
            }
            None => unreachable!(),
        }
    }

    fn advance(&mut self, fuel: &mut Fuel) -> Result<Step, AllocError>
        requires entered { IsSome self.old.cube }
        requires program { fuel.old.program ≡ self.old.program }
        ensures ok { IfOk result (IsStep (P.gives self.old.program self.old.bound) (P.silent self.old.program self.old.bound) self.old self.new fuel.old fuel.new) }
        ensures err { OnErr result (IsFailure (P.gives self.old.program self.old.bound) self.old self.new fuel.old fuel.new) }
    {
        let _program = self.compiled.program();
        self.last = None;
        self.implied = self.ahead;
        self.ahead = 0;
        self.uses.clear(self.state.store());
        if self.state.is_clashing() {
            return self.clashed();
        }
        let before = self.state.trail().len();
        let met = self.state.propagate()?;
        let more = self.state.trail().len().saturating_sub(before);
        self.implied = self.implied.saturating_add(more);
        self.uses.note_given(self.state.store());
        match met {
            Some(id) => {
                self.aim.stop();
                self.meet(id, fuel)
            }
            None => self.go_on(fuel),
        }
    }

    /// Goes on until something is decided, learnt or found.
    ///
    /// Want of memory is the one error: then no path is entered, and one unit may be burnt.
    pub fn step(&mut self, fuel: &mut Fuel) -> Result<Step, AllocError>
        requires entered { IsSome self.old.cube }
        requires program { fuel.old.program ≡ self.old.program }
        ensures ok { IfOk result (IsStep (P.gives self.old.program self.old.bound) (P.silent self.old.program self.old.bound) self.old self.new fuel.old fuel.new) }
        ensures err { OnErr result (IsFailure (P.gives self.old.program self.old.bound) self.old self.new fuel.old fuel.new) }
        ensures lost { OnErr result (self.new.cube ≡ None) }
        ensures few { IfOk result (λ r. length self.new.entries ≤ var_count self.new.program + 1) }
    {
        match self.advance(fuel) {
            Ok(step) => {
                let _level = self.level();
                Ok(step)
            }
            Err(error) => {
                self.leave();
                Err(error)
            }
        }
    }
}
