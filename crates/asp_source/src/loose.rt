//! Candidates for an unfounded set: atoms of a component that aren't false, and that have no source yet.
//!
//! A candidate with a body that isn't excused for the set of all candidates gets it as its source; so it goes. When none
//! goes any more, all bodies of those left are excused: they are unfounded, or there are none.
ghost use Rattle.std.specs.Prelude.{◌≡◌, ℕ, ◌+◌, ◌-◌, ◌<◌, ◌≤◌, ◌^◌, ◌++◌, true, false, All, IfNone, IfOk, IfSome, OnOk, length, count_by, slice_set};
ghost use Rattle.asp_model.specs.Models.{atoms_of};
ghost use Rattle.asp_vars.specs.Numbering.{nth_atom};
ghost use Rattle.asp_vars.specs.Tabled.{IsAtomVar};
ghost use Rattle.asp_source.specs.Marks.{is_marked, atom_if, atoms_at, requeue_places};
ghost use Rattle.asp_source.specs.Marks.{AreBlank};
ghost use Rattle.asp_source.specs.Founding.{HaveRoom, Founds, AreStuck};

use crate::founding::{found_one, spread};
use crate::queue::Queue;
use crate::ranks::Ranks;
use asp_model::program::Atom;
use asp_vars::assign::Assign;
use asp_vars::compiled::Compiled;
use asp_vars::lit::Var;
use std::alloc::{AllocError, Global};

// Looks at each of the atoms once, and says whether there is a candidate less.
fn sweep(
    compiled: &Compiled,
    values: &Assign,
    sources: &mut [Var],
    ranks: &mut Ranks,
    loose: &mut [bool],
    waiting: &mut Queue,
    places: &[u32],
) -> bool
    requires places { All (λ k. k < length (atoms_of compiled.now)) places.now }
    requires room { HaveRoom compiled.now values.now sources.old ranks.old loose.old waiting.old }
    ensures founds { Founds compiled.now values.now sources.old ranks.old loose.old waiting.old sources.new ranks.new loose.new waiting.new }
    ensures fewer { result ≡ true → count_by (λ b. b) loose.new < count_by (λ b. b) loose.old }
    ensures stuck { result ≡ false → AreStuck compiled.now values.now loose.new places.now }
{
    let _vars = compiled.vars();
    let mut dropped = false;
    for place in places {
        if found_one(compiled, values, sources, ranks, loose, waiting, *place + 1) {
            dropped = true;
        }
    }
    dropped
}

/// Leaves those candidates that nothing founds from outside of them.
///
/// The atoms that get a source in a sweep found others, and all that these found; so the next sweep mostly is the last.
pub fn settle(
    compiled: &Compiled,
    values: &Assign,
    sources: &mut [Var],
    ranks: &mut Ranks,
    loose: &mut [bool],
    waiting: &mut Queue,
    places: &[u32],
)
    requires places { All (λ k. k < length (atoms_of compiled.now)) places.now }
    requires room { HaveRoom compiled.now values.now sources.old ranks.old loose.old waiting.old }
    ensures founds { Founds compiled.now values.now sources.old ranks.old loose.old waiting.old sources.new ranks.new loose.new waiting.new }
    ensures stuck { AreStuck compiled.now values.now loose.new places.now }
{
    'rounds: loop {
        let dropped = sweep(compiled, values, sources, ranks, loose, waiting, places);
        if !dropped {
            break;
        }
        spread(compiled, values, sources, ranks, loose, waiting);
    }
}

/// A candidate among these atoms, a true one if there is one.
pub fn choose(values: &Assign, loose: &[bool], places: &[u32]) -> Option<Var>
    requires few { length loose.now ≤ 2 ^ 32 }
    requires loose { All (λ k. k + 1 < length loose.now) places.now }
    requires values { All (λ k. k + 1 < length values.now) places.now }
    ensures none { IfNone result (All (λ k. is_marked loose.now (k + 1) ≡ false) places.now) }
    ensures some { IfSome result (λ v. is_marked loose.now v ≡ true) }
{
    let mut chosen = None;
    for place in places {
        let var = *place + 1;
        if loose[var as usize] {
            if values.value(var) == Some(true) {
                return Some(var);
            }
            chosen = Some(var);
        }
    }
    chosen
}

/// The atom of an atom's variable.
pub fn atom_at(compiled: &Compiled, var: Var) -> Atom
    requires { IsAtomVar compiled.now var }
    ensures { result ≡ nth_atom compiled.now (var - 1) }
{
    compiled.atoms().as_slice()[var as usize - 1]
}

fn push_candidate(
    compiled: &Compiled,
    loose: &[bool],
    var: Var,
    atoms: &mut Vec<Atom>,
) -> Result<(), AllocError>
    requires var { IsAtomVar compiled.now var }
    requires loose { var < length loose.now }
    ensures { OnOk result (atoms.new.items ≡ atoms.old.items ++ atom_if compiled.now loose.now var) }
{
    if loose[var as usize] {
        atoms.push(atom_at(compiled, var))?;
    }
    Ok(())
}

/// The candidates among these atoms.
pub fn collect(
    alloc: Global,
    compiled: &Compiled,
    loose: &[bool],
    places: &[u32],
) -> Result<Vec<Atom>, AllocError>
    requires places { All (λ k. k < length (atoms_of compiled.now)) places.now }
    requires loose { length loose.now ≡ length (atoms_of compiled.now) + 1 }
    ensures { IfOk result (λ atoms. atoms.items ≡ atoms_at compiled.now loose.now places.now) }
{
    let _vars = compiled.vars();
    let mut atoms = Vec::new(alloc);
    for place in places {
        push_candidate(compiled, loose, *place + 1, &mut atoms)?;
    }
    Ok(atoms)
}

// An atom that is a candidate still is queued, and is a candidate no longer.
fn requeue(queue: &mut Queue, loose: &mut [bool], var: Var)
    requires var { 0 < var }
    requires loose { var < length loose.old }
    requires queue { length queue.old + 1 ≡ length loose.old }
    ensures queue { queue.new ≡ requeue_places queue.old loose.old var }
    ensures loose { loose.new ≡ slice_set loose.old var false }
{
    let was = loose[var as usize];
    loose[var as usize] = false;
    if was {
        queue.add(var - 1);
    }
}

/// All that joined leave: those that are candidates still are queued, and none is one any longer.
pub fn drain(queue: &mut Queue, loose: &mut [bool], joined: &mut Queue)
    requires queue { length queue.old + 1 ≡ length loose.old }
    requires joined { length joined.old ≡ length queue.old }
    requires few { length loose.old ≤ 2 ^ 31 }
    requires listed { (v : ℕ) → is_marked loose.old v ≡ true → (0 < v) × (is_marked joined.old (v - 1) ≡ true) }
    ensures room { length queue.new ≡ length queue.old }
    ensures seats { length joined.new ≡ length joined.old }
    ensures blank { AreBlank loose.new }
    ensures more { (k : ℕ) → is_marked queue.old k ≡ true → is_marked queue.new k ≡ true }
    ensures queued { (v : ℕ) → is_marked loose.old v ≡ true → is_marked queue.new (v - 1) ≡ true }
    ensures same { AreBlank loose.old → queue.new ≡ queue.old }
{
    while let Some(place) = joined.pop() {
        requeue(queue, loose, place + 1);
    }
}
