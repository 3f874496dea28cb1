//! Learning from a conflict: resolution up to the first unique implication point (Marques-Silva, Sakallah 1999; Gebser,
//! Kaufmann, Schaub 2012).
//!
//! A literal is met where the violated nogood or a reason that was opened has it, and is marked then. Those of the conflict's
//! level are resolved with their reasons, the newest first, until one is left. The literals of level 0 that were implied are
//! resolved as well, so that of level 0 only the cube's are left: the nogood then says where its conclusion came from, and
//! holds outside the cube. One that follows from others that stay is resolved too. What stays is learnt: all but one of it is
//! below the conflict's level, so the search can jump back to where the complement of that one follows.
//!
//! The nogood that is learnt is never written out on the way: it is what is marked and wasn't resolved.
ghost use Rattle.std.specs.Prelude.{◌≡◌, ◌≤◌, ◌<◌, ◌+◌, ℕ, List, IfOk};
ghost use Rattle.std.specs.List.{All};
ghost use Rattle.std.specs.Prelude.{filter, length};
ghost use Rattle.asp_vars.specs.Literals.{Literal};
ghost use Rattle.asp_vars.specs.declared.nogood.Nogood.{Nogood};
ghost use Rattle.asp_trail.specs.Reasons.{AreAsked, AreReasons};
ghost use Rattle.asp_analyze.specs.Marks.{mark_of, is_open, unmarked};
ghost use Rattle.asp_analyze.specs.Learning.{Used, IsNamed, IsReached, AreContained, AreAssumed, IsLearned, nogood_of};
ghost use Rattle.asp_analyze.specs.Way.{IsOn, AreUpTo, IsReady, IsTraced};

use crate::levels::{greatest_level, level_beside};
use crate::marks::Marks;
use crate::minimise::Look;
use crate::note::note_all;
use crate::point::find_point;
use crate::settle::settle;
use asp_trail::reasons::Reasons;
use asp_trail::trail::Trail;
use asp_vars::lit::{Lit, Var};
use asp_vars::nogood::{Base, Lits, Nogood};
use std::alloc::{AllocError, Global};
use std::marker::Model;

/// What is learnt from a conflict.
#[derive(Drop)]
pub enum Learned {
    /// The search goes back to this level, where the literal follows by the nogood.
    Jump {
        nogood: Nogood,
        level: usize,
        lit: Lit,
    },
    /// All literals are of the cube: nothing else can be tried under it.
    InCube(Nogood),
}

// How many literals were met and not resolved.
fn count_open(marks: &Marks) -> usize {
    let mut count: usize = 0;
    for lit in marks.lits() {
        if marks.get(lit.var()).is_open() {
            count = count.saturating_add(1);
        }
    }
    count
}

// The literals that were met and not resolved.
fn staying(alloc: Global, marks: &Marks) -> Result<Lits, AllocError>
    ensures { IfOk result (λ n. n ≡ filter (λ l. is_open (mark_of marks.now.marks l.var)) marks.now.lits) }
{
    let mut lits = Lits::with_capacity(alloc, count_open(marks))?;
    let marked = marks.lits();
    for lit in marked {
        if marks.get(lit.var()).is_open() {
            lits.push(*lit)?;
        }
    }
    Ok(lits)
}

// What is learnt by a nogood, of which a literal is the point.
fn conclude(nogood: Nogood, point: Option<Lit>, trail: &Trail) -> Learned
    requires { All (λ l. IsOn trail.now.entries l) nogood.lits }
    ensures nogood { nogood_of result ≡ nogood }
    ensures learned { (from : List Literal) → IsReady trail.now.entries from nogood.lits point → IsLearned trail.now.entries from result }
{
    match point {
        None => Learned::InCube(nogood),
        Some(lit) => {
            let level = level_beside(nogood.lits.as_slice(), lit, trail);
            Learned::Jump {
                nogood,
                level,
                lit: lit.complement(),
            }
        }
    }
}

/// What learning takes memory for, to be used again. The marks of a conflict stay until the next one.
#[derive(Drop)]
pub struct Learner {
    /// Trails are over the variables up to this one.
    vars: u32,
    /// The marks of the last conflict.
    pub(crate) marks: Marks,
    /// So many of the marks' literals were met on the way to the last point; the others were marked to minimise.
    met: usize,
    /// Literals that are looked at to minimise, each of the reason of the one before. A look at one begins with none.
    path: Vec<Look>,
}

impl Model for Learner {
    ghost use Rattle.std.specs.Prelude.{ℕ, ◌≡◌, ◌+◌, length};

    ghost Value = { ℕ };

    ghost view = { λ l. l.vars };

    ghost invariant = { λ l. length l.marks.marks ≡ l.vars + 1 };
}

impl Learner {
    /// For trails over the variables up to `vars`.
    pub fn new(alloc: Global, vars: u32) -> Result<Learner, AllocError>
        ensures { IfOk result (λ l. l ≡ vars) }
    {
        let marks = Marks::new(alloc, vars)?;
        Ok(Learner {
            vars,
            marks,
            met: 0,
            path: Vec::new(alloc),
        })
    }

    /// Learns from a nogood all of whose literals hold, by the reasons of the trail. Answers an error only for want of memory.
    /// Then and else it can be used again.
    pub fn learn<R: Reasons>(
        &mut self,
        trail: &Trail,
        reasons: &R,
        lits: &[Lit],
        base: &Base,
    ) -> Result<Learned, AllocError>
        requires vars { AreUpTo self.old trail.now.entries }
        requires contained { AreContained trail.now.vars trail.now.entries lits.now }
        requires asked { AreAsked (R.asks reasons.now) trail.now.entries }
        requires reasons { AreReasons (R.says reasons.now) trail.now.entries }
        ensures reached { IfOk result (λ l. (used : List Used) × IsReached trail.now.entries (record { lits = lits.now; base = base.now }) used (nogood_of l) × All (IsNamed (R.says reasons.now) trail.now.entries) used) }
        ensures contained { IfOk result (λ l. AreContained trail.now.vars trail.now.entries (nogood_of l).lits) }
        ensures assumed { IfOk result (λ l. AreAssumed trail.now.entries (nogood_of l).lits) }
        ensures learned { IfOk result (IsLearned trail.now.entries lits.now) }
        ensures same { self.new ≡ self.old }
    {
        self.marks.clear();
        analyse(
            &mut self.marks,
            &mut self.met,
            &mut self.path,
            trail,
            reasons,
            lits,
            base,
        )
    }

    /// The literals that were met on the way to the last point, each variable's once.
    pub fn met(&self) -> &[Lit]
        ensures { All (λ l. l.var ≤ self.now) result.now }
    {
        let lits = self.marks.lits();
        &lits[..self.met.min(lits.len())]
    }
}

// Marks what a nogood and the reasons after it have, and resolves what isn't to stay; what is open then is learnt. Answers the point.
// The first of the marks were met on the way to it.
fn trace_back<R: Reasons>(
    marks: &mut Marks,
    base: &mut Base,
    met: &mut usize,
    path: &mut Vec<Look>,
    trail: &Trail,
    reasons: &R,
    lits: &[Lit],
) -> Result<Option<Lit>, AllocError>
    requires marks { (vars : ℕ) × (marks.old ≡ unmarked (vars + 1)) × AreUpTo vars trail.now.entries }
    requires contained { AreContained trail.now.vars trail.now.entries lits.now }
    requires asked { AreAsked (R.asks reasons.now) trail.now.entries }
    requires reasons { AreReasons (R.says reasons.now) trail.now.entries }
    ensures traced { IfOk result (IsTraced trail.now.entries (R.says reasons.now) (record { lits = lits.now; base = base.old }) marks.new base.new) }
    ensures size { length marks.new.marks ≡ length marks.old.marks }
{
    let _len = trail.len();
    let top = greatest_level(lits, trail);
    note_all(marks, trail, top, lits);
    let point = find_point(marks, base, trail, reasons, top)?;
    *met = marks.len();
    settle(marks, base, path, trail, reasons, top)?;
    Ok(point)
}

// Learns, and leaves the marks, of which the first were met on the way to the point.
fn analyse<R: Reasons>(
    marks: &mut Marks,
    met: &mut usize,
    path: &mut Vec<Look>,
    trail: &Trail,
    reasons: &R,
    lits: &[Lit],
    base: &Base,
) -> Result<Learned, AllocError>
    requires marks { (vars : ℕ) × (marks.old ≡ unmarked (vars + 1)) × AreUpTo vars trail.now.entries }
    requires contained { AreContained trail.now.vars trail.now.entries lits.now }
    requires asked { AreAsked (R.asks reasons.now) trail.now.entries }
    requires reasons { AreReasons (R.says reasons.now) trail.now.entries }
    ensures reached { IfOk result (λ l. (used : List Used) × IsReached trail.now.entries (record { lits = lits.now; base = base.now }) used (nogood_of l) × All (IsNamed (R.says reasons.now) trail.now.entries) used) }
    ensures contained { IfOk result (λ l. AreContained trail.now.vars trail.now.entries (nogood_of l).lits) }
    ensures assumed { IfOk result (λ l. AreAssumed trail.now.entries (nogood_of l).lits) }
    ensures learned { IfOk result (IsLearned trail.now.entries lits.now) }
    ensures size { length marks.new.marks ≡ length marks.old.marks }
{
    let _len = trail.len();
    let mut base = base.copy()?;
    let point = trace_back(marks, &mut base, met, path, trail, reasons, lits)?;
    let lits = staying(*path.allocator(), marks)?;
    Ok(conclude(Nogood { lits, base }, point, trail))
}

// The greatest variable of the trail's entries, 0 where there are none.
fn greatest_var(trail: &Trail) -> Var
    ensures { AreUpTo result trail.now.entries }
{
    let mut greatest = 0;
    for i in 0..trail.len() {
        greatest = trail.lit(i).var().max(greatest);
    }
    greatest
}

/// Learns once, with memory of its own. A search keeps a `Learner`.
pub fn learn<R: Reasons>(
    alloc: Global,
    trail: &Trail,
    reasons: &R,
    lits: &[Lit],
    base: &Base,
) -> Result<Learned, AllocError>
    requires contained { AreContained trail.now.vars trail.now.entries lits.now }
    requires asked { AreAsked (R.asks reasons.now) trail.now.entries }
    requires reasons { AreReasons (R.says reasons.now) trail.now.entries }
    ensures reached { IfOk result (λ l. (used : List Used) × IsReached trail.now.entries (record { lits = lits.now; base = base.now }) used (nogood_of l) × All (IsNamed (R.says reasons.now) trail.now.entries) used) }
    ensures contained { IfOk result (λ l. AreContained trail.now.vars trail.now.entries (nogood_of l).lits) }
    ensures assumed { IfOk result (λ l. AreAssumed trail.now.entries (nogood_of l).lits) }
    ensures learned { IfOk result (IsLearned trail.now.entries lits.now) }
{
    Learner::new(alloc, greatest_var(trail))?.learn(trail, reasons, lits, base)
}
