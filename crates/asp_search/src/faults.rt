//! A trail on which all variables have values: the set of its true atoms, and a nogood that it hits where that isn't
//! stable.
ghost use Rattle.std.specs.Prelude.{◌≡◌, ◌+◌, ◌^◌, ◌<◌, ◌≤◌, ℕ, IfOk, MatchOption, IsTrue, if◌then◌else◌, length, take};
ghost use Rattle.std.specs.List.{All};
ghost use Rattle.asp_model.specs.Sets.{has};
ghost use Rattle.asp_model.specs.Models.{atoms_of, is_stable};
ghost use Rattle.asp_vars.specs.Literals.{T, is_true};
ghost use Rattle.asp_vars.specs.Numbering.{var_count};
ghost use Rattle.asp_vars.specs.Unfounded.{is_unfounded};
ghost use Rattle.asp_found.specs.Valuations.{true_atoms};
ghost use Rattle.asp_loop.specs.LoopNogoods.{IsLoopNogood};
ghost use Rattle.asp_trail_laws.specs.Whole.{IsWhole, truths, atoms_on};
ghost use Rattle.asp_search_laws.specs.Faults.{IsFault};

use asp_found::check::Verdict;
use asp_loop::loops::loop_nogood;
use asp_model::interp::Interp;
use asp_model::program::Atom;
use asp_propagate::propagator::Propagator;
use asp_stable::checker::Checker;
use asp_state::state::SearchState;
use asp_trail::trail::Trail;
use asp_vars::assign::Assign;
use asp_vars::compiled::Compiled;
use asp_vars::lit::{Lit, Var};
use asp_vars::nogood::Nogood;
use std::alloc::{AllocError, Global};

// Whether the variable is true.
fn is_held(assign: &Assign, var: Var) -> bool
    requires within { var < length assign.now }
    requires small { var < 2 ^ 31 }
    ensures { result ≡ is_true (truths assign.now) (T var) }
{
    assign.holds(Lit::new(var, true))
}

fn count(held: bool) -> usize
    ensures { result ≡ (if held then 1 else 0) }
{
    if held { 1 } else { 0 }
}

// Puts the atoms whose variables are true to the front of a list, and says how many they are. Each atom is put behind those
// before it, and stays there if its variable is true: that can't be foreseen, so no jump depends on it.
fn gather(compiled: &Compiled, assign: &Assign, held: &mut [Atom]) -> usize
    requires vars { length assign.now ≡ var_count compiled.now + 1 }
    requires room { length held.old ≡ length (atoms_of compiled.now) }
    ensures within { result ≤ length held.new }
    ensures held { take result held.new ≡ true_atoms compiled.now (truths assign.now) }
{
    let _count = compiled.atom_count();
    let atoms = compiled.atoms().as_slice();
    let mut len = 0;
    for i in 0..atoms.len() {
        held[len] = atoms[i];
        len += count(is_held(assign, i as u32 + 1));
    }
    len
}

// The atoms whose variables are true, in memory of their size. The list is where they are gathered.
fn gathered(
    alloc: Global,
    compiled: &Compiled,
    assign: &Assign,
    held: &mut [Atom],
) -> Result<Vec<Atom>, AllocError>
    requires vars { length assign.now ≡ var_count compiled.now + 1 }
    requires room { length held.old ≡ length (atoms_of compiled.now) }
    ensures { IfOk result (λ atoms. atoms.items ≡ true_atoms compiled.now (truths assign.now)) }
{
    let len = gather(compiled, assign, held);
    let atoms = Vec::from_slice(alloc, &held[..len])?;
    Ok(atoms)
}

/// The set of the atoms that are true on the trail, in memory of its size. They are gathered in a list that lies ready.
pub(crate) fn true_atoms(
    alloc: Global,
    compiled: &Compiled,
    trail: &Trail,
    held: &mut Vec<Atom>,
) -> Result<Interp, AllocError>
    requires { trail.now.vars ≡ var_count compiled.now }
    ensures { IfOk result (λ s. s ≡ atoms_on compiled.now trail.now.vars trail.now.entries) }
{
    held.resize(compiled.atom_count(), 0)?;
    let atoms = gathered(alloc, compiled, trail.assignment(), held.as_mut_slice())?;
    Ok(Interp::from_ascending(atoms))
}

// The loop nogood of an unfounded set.
fn unfounded(
    alloc: Global,
    compiled: &Compiled,
    assign: &Assign,
    set: &[Atom],
) -> Result<Nogood, AllocError>
    requires atoms { All (λ a. IsTrue (has (atoms_of compiled.now) a)) set.now }
    requires unfounded { IsTrue (is_unfounded compiled.now assign.now set.now) }
    requires vars { length assign.now ≡ var_count compiled.now + 1 }
    ensures { IfOk result (λ n. (a : ℕ) × IsTrue (has set.now a) × IsLoopNogood compiled.now assign.now set.now a n) }
{
    match loop_nogood(alloc, compiled, set, set[0], assign)? {
        Some(nogood) => Ok(nogood),
        None => unreachable!(),
    }
}

/// A nogood that the set of a whole trail hits, if it isn't stable.
pub(crate) fn fault<P: Propagator>(
    alloc: Global,
    compiled: &Compiled,
    state: &SearchState<P>,
    checker: &mut Checker<'_>,
    interp: &Interp,
) -> Result<Option<Nogood>, AllocError>
    requires checker { checker.old ≡ compiled.now }
    requires program { state.now.program ≡ compiled.now }
    requires whole { IsWhole compiled.now (var_count compiled.now) state.now.entries }
    requires atoms { interp.now ≡ atoms_on compiled.now (var_count compiled.now) state.now.entries }
    ensures same { checker.new ≡ checker.old }
    ensures fault { IfOk result (λ r. MatchOption r (IsTrue (is_stable compiled.now interp.now))
        (IsFault compiled.now (P.gives compiled.now state.now.bound) (var_count compiled.now) state.now.entries)) }
{
    let assign = state.trail().assignment();
    match checker.check(alloc, assign, interp)? {
        Verdict::Stable => Ok(None),
        Verdict::Broken(nogood) => Ok(Some(nogood)),
        Verdict::Unfounded(set) => {
            let nogood = unfounded(alloc, compiled, assign, set.as_slice())?;
            Ok(Some(nogood))
        }
    }
}
