//! The exact check of answers.
//!
//! Where a set keeps the completion, each of its atoms has a rule whose body holds. So atoms that no positive loop stands
//! below are founded, and a program without such loops needs no check. The others are derived, from the bodies that hold.
ghost use Rattle.std.specs.Prelude.{◌≡◌, ◌<◌, ◌++◌, ◌∷◌, [], suc, if◌then◌else◌, map, nat_lt, All, IfOk, OnOk, IsTrue, length};
ghost use Rattle.asp_model.specs.Models.{atoms_of};
ghost use Rattle.asp_model.specs.Sets.{IsSubset};
ghost use Rattle.asp_vars.specs.Numbering.{var_count};
ghost use Rattle.asp_vars.specs.Tabled.{IsAtomVar};
ghost use Rattle.asp_found.specs.Marks.{is_marked};
ghost use Rattle.asp_found.specs.Verdicts.{IsVerdict};
ghost use Rattle.asp_stable.specs.Founding.{AreLoopless, AreListed, KeepsCompletion, GivesAtoms, IsChecker, IsDerived};

use crate::derive::{Derivation, are_marked, begin, propagate};
use crate::order::ranks_of;
use crate::ranks::are_ranks;
use asp_found::check::Verdict;
use asp_found::found::check;
use asp_model::interp::Interp;
use asp_vars::assign::Assign;
use asp_vars::compiled::Compiled;
use asp_vars::lit::{Lit, Var};
use std::alloc::{AllocError, Global};
use std::marker::Model;

/// The check of a program's answers, with what it takes memory for.
#[derive(Drop)]
pub struct Checker<'a> {
    /// The program.
    compiled: &'a Compiled,
    /// By variable, whether no positive loop stands below the atom: it needs no derivation. One more than the atoms; 0 is
    /// no atom.
    flat: Vec<bool>,
    /// The variables of the atoms that are to be derived where they are true, ascending.
    loops: Vec<Var>,
    /// The bodies with one of these as a head, ascending.
    bodies: Vec<u32>,
    /// By body, how many of its literals are positive ones of these.
    needs: Vec<i64>,
    /// By variable, whether the atom is derived: of the check that is under way, with room for each.
    marks: Vec<bool>,
    /// By body, how many literals or how much weight it lacks still. Looked at where it came to 0 or below.
    lacks: Vec<i64>,
    /// The variables of the atoms that were derived, in this order, with room for each.
    found: Vec<Var>,
}

impl<'a> Model for Checker<'a> {
    ghost use Rattle.asp_model.specs.declared.program.Program.{Program};
    ghost use Rattle.asp_stable.specs.Founding.{IsChecker};

    ghost Value = { Program };

    ghost view = { λ c. c.compiled.now };

    ghost invariant = { λ c. IsChecker c.compiled.now c.flat.items c.loops.items };
}

// Which numbers aren't 0.
fn positive(alloc: Global, ranks: &[u32]) -> Result<Vec<bool>, AllocError>
    ensures { IfOk result (λ marks. marks.items ≡ map (λ r. nat_lt 0 r) ranks.now) }
{
    ranks.iter().map(|rank| *rank > 0).collect(alloc)
}

// Which atoms no positive loop stands below.
fn loopless(alloc: Global, compiled: &Compiled) -> Result<Vec<bool>, AllocError>
    ensures size { IfOk result (λ flat. length flat.items ≡ suc (length (atoms_of compiled.now))) }
    ensures loopless { IfOk result (λ flat. AreLoopless compiled.now flat.items) }
{
    let _program = compiled.program();
    let order = ranks_of(alloc, compiled)?;
    let ranks = order.as_slice();
    if !are_ranks(compiled, ranks) {
        let none = vec![in alloc; false; compiled.atom_count() + 1]?;
        return Ok(none);
    }
    let flat = positive(alloc, ranks)?;
    Ok(flat)
}

// Lists an atom that isn't marked.
fn list(loops: &mut Vec<Var>, flat: &[bool], var: Var) -> Result<(), AllocError>
    requires { var < length flat.now }
    ensures { OnOk result (loops.new.items ≡ (if is_marked flat.now var then loops.old.items else loops.old.items ++ var ∷ [])) }
{
    if !flat[var as usize] {
        loops.push(var)?;
    }
    Ok(())
}

// The atoms that aren't marked.
fn looping(alloc: Global, compiled: &Compiled, flat: &[bool]) -> Result<Vec<Var>, AllocError>
    requires { length flat.now ≡ suc (length (atoms_of compiled.now)) }
    ensures listed { IfOk result (λ loops. AreListed flat.now loops.items) }
    ensures within { IfOk result (λ loops. All (IsAtomVar compiled.now) loops.items) }
{
    let mut loops = Vec::new(alloc);
    for i in 0..compiled.atom_count() {
        list(&mut loops, flat, i as u32 + 1)?;
    }
    Ok(loops)
}

// Whether one of the atoms isn't marked.
fn is_some_open(flat: &[bool], heads: &[Var]) -> bool {
    heads
        .iter()
        .any(|var| !flat.get(*var as usize).copied().unwrap_or(true))
}

// The bodies that can derive an atom that isn't marked.
fn deriving_bodies(
    alloc: Global,
    compiled: &Compiled,
    flat: &[bool],
) -> Result<Vec<u32>, AllocError> {
    let mut bodies = Vec::new(alloc);
    for body in 0..compiled.body_count() {
        if is_some_open(flat, compiled.heads(body)) {
            bodies.push(body as u32)?;
        }
    }
    Ok(bodies)
}

// How many of the literals are positive, of atoms that aren't marked.
fn open_count(flat: &[bool], lits: &[Lit]) -> i64 {
    let mut count: i64 = 0;
    for lit in lits {
        if lit.truth() && !flat.get(lit.var() as usize).copied().unwrap_or(true) {
            count = count.saturating_add(1);
        }
    }
    count
}

// For each body how many literals a derivation of it waits for.
fn needs(alloc: Global, compiled: &Compiled, flat: &[bool]) -> Result<Vec<i64>, AllocError> {
    let mut needs = Vec::with_capacity(alloc, compiled.body_count())?;
    for body in 0..compiled.body_count() {
        needs.push(open_count(flat, compiled.literals(body)))?;
    }
    Ok(needs)
}

// Whether all true atoms among those that loops stand below are derived.
fn derives(
    by: &Derivation,
    loops: &[Var],
    bodies: &[u32],
    marks: &mut [bool],
    found: &mut Vec<Var>,
    lacks: &mut [i64],
) -> bool
    requires assign { length by.now.assign.now ≡ suc (var_count by.now.compiled.now) }
    requires checker { IsChecker by.now.compiled.now by.now.flat.now loops.now }
    ensures { IsTrue result → IsDerived by.now.compiled.now by.now.assign.now }
{
    if marks.len() != by.flat.len() {
        return false;
    }
    marks.copy_from_slice(by.flat);
    found.clear();
    begin(by, bodies, marks, found, lacks);
    propagate(by.compiled, by.assign, marks, found, lacks);
    are_marked(by.assign, marks, loops)
}

impl<'a> Checker<'a> {
    /// For sets of this program's atoms. Takes time and memory linear in the program.
    pub fn new(alloc: Global, compiled: &'a Compiled) -> Result<Checker<'a>, AllocError>
        ensures { IfOk result (λ c. c ≡ compiled.now) }
    {
        let flat = loopless(alloc, compiled)?;
        let loops = looping(alloc, compiled, flat.as_slice())?;
        let bodies = deriving_bodies(alloc, compiled, flat.as_slice())?;
        let needs = needs(alloc, compiled, flat.as_slice())?;
        let marks = vec![in alloc; false; flat.len()]?;
        let lacks = vec![in alloc; 0; compiled.body_count()]?;
        let found = Vec::with_capacity(alloc, loops.len())?;
        Ok(Checker {
            compiled,
            flat,
            loops,
            bodies,
            needs,
            marks,
            lacks,
            found,
        })
    }

    // Whether each atom of the set that the assignment gives is derived. Takes no memory.
    fn is_founded(&mut self, assign: &Assign) -> bool
        requires { length assign.now ≡ suc (var_count self.old) }
        ensures same { self.new ≡ self.old }
        ensures founded { IsTrue result → IsDerived self.old assign.now }
    {
        if self.loops.as_slice().is_empty() {
            return true;
        }
        let by = Derivation {
            compiled: self.compiled,
            assign,
            flat: self.flat.as_slice(),
            needs: self.needs.as_slice(),
        };
        derives(
            &by,
            self.loops.as_slice(),
            self.bodies.as_slice(),
            self.marks.as_mut_slice(),
            &mut self.found,
            self.lacks.as_mut_slice(),
        )
    }

    /// Whether a set that keeps the completion is stable, and if not, why. The assignment gives its values.
    ///
    /// Takes memory only where the set isn't stable.
    pub fn check(
        &mut self,
        alloc: Global,
        assign: &Assign,
        interp: &Interp,
    ) -> Result<Verdict, AllocError>
        requires size { length assign.now ≡ suc (var_count self.old) }
        requires values { GivesAtoms self.old interp.now assign.now }
        requires within { IsSubset interp.now (atoms_of self.old) }
        requires kept { KeepsCompletion self.old interp.now }
        ensures same { self.new ≡ self.old }
        ensures verdict { IfOk result (IsVerdict self.old interp.now) }
    {
        let _program = self.compiled.program();
        let _atoms = interp.as_slice();
        if self.is_founded(assign) {
            return Ok(Verdict::Stable);
        }
        check(alloc, self.compiled, interp)
    }
}
