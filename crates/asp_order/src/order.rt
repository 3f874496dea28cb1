//! Which variable is decided next.
//!
//! Each variable without a value is in the heap. One that gets a value stays there until it comes first and is
//! skipped, so nothing is done when a literal comes to hold. Before literals are taken back, their variables are put
//! into the heap again, and their values are saved: a variable is decided to have the value that nearly all learnt
//! nogoods ask for that have it, or else the one that it had last.
ghost use Rattle.std.specs.Prelude.{◌≡◌, ◌+◌, ◌<◌, ◌^◌, ◌++◌, ◌∷◌, [], ℕ, All, length, slice_set, false, IsTrue, IfOk, IfSome, IfNone};
ghost use Rattle.asp_trail.specs.declared.trail.Entry.{Entry};
ghost use Rattle.asp_trail.specs.Entries.{assignment, cut};
ghost use Rattle.asp_trail.specs.Trails.{IsVar};
ghost use Rattle.asp_order.specs.Heaps.{is_in, IsFirst, reserved};
ghost use Rattle.asp_order.specs.Waiting.{HasVars, AreWaiting, AreAssigned, IsNext, IsFuller, fresh, all_bumped, aged, learnt};

use crate::heap::Heap;
use crate::phases::Phases;
use crate::votes::Votes;
use asp_trail::trail::Trail;
use asp_vars::lit::{Lit, Var};
use std::alloc::{AllocError, Global};
use std::marker::Model;

/// The variables by activity, among them all that have no value.
#[derive(Drop)]
pub struct Order {
    /// The variables by activity: each without a value is in it.
    heap: Heap,
    /// The value that each variable had last.
    phases: Phases,
    /// The value that learnt nogoods ask for.
    votes: Votes,
}

impl Model for Order {
    ghost use Rattle.asp_order.specs.Heaps.{Ranking};
    ghost use Rattle.asp_order.specs.Waiting.{IsOrder};

    ghost Value = { Ranking };

    ghost view = { λ o. o.heap };

    ghost invariant = { λ o. IsOrder o.heap };
}

// Puts the variables 1 to `vars` into the heap.
fn fill(heap: &mut Heap, vars: Var)
    requires { heap.old ≡ reserved (record { activities = []; members = []; increment = 1024 }) vars }
    ensures { heap.new ≡ fresh vars }
{
    for i in 0..vars {
        heap.push(i + 1);
    }
}

// Bumps the variables in turn.
fn bump_all(heap: &mut Heap, lits: &[Lit])
    requires { All (λ l. l.var < length heap.old.activities) lits.now }
    ensures { heap.new ≡ all_bumped heap.old lits.now }
{
    for lit in lits {
        heap.bump(lit.var());
    }
}

// Bumps the variables in turn, and lets later bumps count for more.
fn bump_and_decay(heap: &mut Heap, met: &[Lit])
    requires met { All (λ l. l.var < length heap.old.activities) met.now }
    ensures { heap.new ≡ learnt heap.old met.now }
{
    bump_all(heap, met);
    heap.decay();
}

// So many bumps lift a variable above each other one: the increment grows by its sixteenth with each nogood that is learnt, for which
// a variable is bumped once, so that all its bumps come to less than 18 of the newest.
const MOST: u32 = 64;

// Bumps the variable until it is the first in the heap.
fn lift(heap: &mut Heap, var: Var)
    requires { var < length heap.old.activities }
    ensures members { heap.new.members ≡ heap.old.members }
    ensures vars { length heap.new.activities ≡ length heap.old.activities }
{
    for _ in 0..MOST {
        if heap.is_first(var) {
            return;
        }
        heap.bump(var);
    }
}

// Lets later bumps count for more, so many times.
fn decay_all(heap: &mut Heap, times: u32)
    ensures { heap.new ≡ aged heap.old times }
{
    for _ in 0..times {
        heap.decay();
    }
}

impl Order {
    /// All variables, with the activity 0.
    pub fn new(alloc: Global, vars: Var) -> Result<Order, AllocError>
        ensures fresh { IfOk result (λ order. order ≡ fresh vars) }
        ensures vars { IfOk result (HasVars vars) }
        ensures all { IfOk result (λ order. (v : ℕ) → IsVar vars v → IsTrue (is_in order.members v)) }
    {
        let mut heap = Heap::new(alloc);
        heap.reserve(vars as usize)?;
        fill(&mut heap, vars);
        let phases = Phases::new(alloc, vars)?;
        let votes = Votes::new(alloc, vars)?;
        Ok(Order {
            heap,
            phases,
            votes,
        })
    }

    /// Raises the activity of the literals' variables, before the search begins.
    pub fn begin(&mut self, lits: &[Lit])
        requires { All (λ l. l.var < length self.old.activities) lits.now }
        ensures { self.new ≡ all_bumped self.old lits.now }
    {
        bump_all(&mut self.heap, lits);
    }

    /// Raises the activity of the literal's variable, so that it comes first if it has no value, and then has the literal's.
    pub fn raise(&mut self, lit: Lit)
        requires { lit.var < length self.old.activities }
        ensures members { self.new.members ≡ self.old.members }
        ensures vars { length self.new.activities ≡ length self.old.activities }
    {
        lift(&mut self.heap, lit.var());
        self.votes.forget(lit.var());
        self.phases.save(lit.var(), lit.truth());
    }

    /// What was bumped before counts for less from now on: each time by a seventeenth, since the increment grows by its
    /// sixteenth.
    pub fn age(&mut self, times: u32)
        ensures aged { self.new ≡ aged self.old times }
        ensures members { self.new.members ≡ self.old.members }
        ensures vars { length self.new.activities ≡ length self.old.activities }
    {
        decay_all(&mut self.heap, times);
    }

    /// The variable has this value when it is first decided, and then the one that it had last, whatever is learnt.
    pub fn prefer(&mut self, var: Var, truth: bool)
        ensures { self.new ≡ self.old }
    {
        self.votes.leave_out(var);
        self.phases.save(var, truth);
    }

    // Takes the first variable out of the heap.
    fn pop(&mut self) -> Option<Var>
        ensures var { IfSome result (λ v. (0 < v) × (v < length self.old.activities)) }
        ensures first { IfSome result (IsFirst self.old) }
        ensures some { IfSome result (λ v. self.new ≡ record self.old { members = slice_set self.old.members v false }) }
        ensures none { IfNone result (self.new ≡ self.old) }
        ensures empty { IfNone result (All (λ m. m ≡ false) self.old.members) }
    {
        self.heap.pop()
    }

    /// The first variable that has no value. The caller gives it one: it is out of the heap now.
    pub fn next(&mut self, trail: &Trail) -> Option<Var>
        requires vars { HasVars trail.now.vars self.old }
        requires waiting { AreWaiting trail.now.vars trail.now.entries self.old }
        ensures next { IfSome result (IsNext trail.now.vars (assignment trail.now.vars trail.now.entries) self.old.activities) }
        ensures room { IfSome result (λ _. length trail.now.entries < trail.now.vars) }
        ensures none { IfNone result (AreAssigned trail.now.vars (assignment trail.now.vars trail.now.entries)) }
        ensures same { self.new ≡ record self.old { members = self.new.members } }
        ensures waiting { IfSome result (λ v. (e : Entry) → e.lit.var ≡ v → AreWaiting trail.now.vars (trail.now.entries ++ e ∷ []) self.new) }
    {
        if trail.is_full() {
            return None;
        }
        while let Some(var) = self.pop() {
            if trail.value(var).is_none() {
                return Some(var);
            }
        }
        None
    }

    /// The variable with the value that nearly all learnt nogoods ask for that have it, or else with the value that it had
    /// last; before it had any, the one preferred by `prefer`, or false.
    pub fn phase(&self, var: Var) -> Lit
        requires { var < 2 ^ 31 }
        ensures { result.var ≡ var }
    {
        match self.votes.value(var) {
            Some(truth) => Lit::new(var, truth),
            None => self.phases.lit(var),
        }
    }

    // The literal's value is saved, and its variable is in the heap from now on.
    fn restore(&mut self, lit: Lit)
        requires some { 0 < lit.var }
        requires known { lit.var < length self.old.activities }
        ensures fuller { IsFuller self.old self.new }
        ensures has { IsTrue (is_in self.new.members lit.var) }
    {
        let var = lit.var();
        self.phases.save(var, lit.truth());
        if !self.heap.has(var) {
            self.heap.push(var);
        }
    }

    /// The variables of the entries above this level are to have no value.
    pub fn restore_above(&mut self, trail: &Trail, level: usize)
        requires vars { HasVars trail.now.vars self.old }
        ensures fuller { IsFuller self.old self.new }
        ensures above { All (λ e. level < e.level → IsTrue (is_in self.new.members e.lit.var)) trail.now.entries }
        ensures waiting { AreWaiting trail.now.vars trail.now.entries self.old → AreWaiting trail.now.vars (cut level trail.now.entries) self.new }
    {
        for i in (0..trail.len()).rev() {
            if trail.level_at(i) <= level {
                return;
            }
            self.restore(trail.lit(i));
        }
    }

    /// No variable is to have a value.
    pub fn restore_all(&mut self, trail: &Trail)
        requires vars { HasVars trail.now.vars self.old }
        ensures fuller { IsFuller self.old self.new }
        ensures above { All (λ e. IsTrue (is_in self.new.members e.lit.var)) trail.now.entries }
        ensures all { AreWaiting trail.now.vars trail.now.entries self.old → (v : ℕ) → IsVar trail.now.vars v → IsTrue (is_in self.new.members v) }
    {
        for i in 0..trail.len() {
            self.restore(trail.lit(i));
        }
    }

    /// Raises the activity of the variables that were met on the way to a learnt nogood, each once; the nogood asks for the
    /// other values of its literals.
    pub fn bump(&mut self, lits: &[Lit], met: &[Lit])
        requires lits { All (λ l. l.var < length self.old.activities) lits.now }
        requires met { All (λ l. l.var < length self.old.activities) met.now }
        ensures learnt { self.new ≡ learnt self.old met.now }
        ensures members { self.new.members ≡ self.old.members }
        ensures vars { length self.new.activities ≡ length self.old.activities }
    {
        bump_and_decay(&mut self.heap, met);
        self.votes.add(lits);
    }
}
