//! A program in parts.
ghost use Rattle.std.specs.Prelude.{◌≡◌, ◌+◌, ◌<◌, ◌≤◌, [], ◌∷◌, None, IfOk, length, map, replicate};
ghost use Rattle.std.specs.List.{AllByRecursion};
ghost use Rattle.asp_model.specs.Models.{answers};
ghost use Rattle.asp_vars.specs.Numbering.{var_count};
ghost use Rattle.asp_split.specs.Dividing.{cubes_of, IsWhole};
ghost use Rattle.asp_split.specs.Following.{IsProber};
ghost use Rattle.asp_split.specs.Parts.{answers_of_parts, AreStanding};

use crate::divide::place;
use crate::leaf::Leaf;
use crate::rounds::divide_all;
use asp_model::seq::Seq;
use asp_propagate::propagator::Propagator;
use asp_state::state::SearchState;
use asp_vars::compiled::Compiled;
use std::alloc::{AllocError, Global};
use std::mem;

// The cube without literals.
fn empty(alloc: Global) -> Seq<i32>
    ensures { result ≡ [] }
{
    Seq::from_vec(Vec::new(alloc))
}

// The leaf of the whole program, or none where propagation shows that there is no answer.
pub(crate) fn first_leaf<P: Propagator>(
    alloc: Global,
    compiled: &Compiled,
    state: &mut SearchState<P>,
) -> Result<Vec<Leaf>, AllocError>
    requires { IsProber compiled.now state.old }
    ensures kept { IsProber compiled.now state.new }
    ensures first { IfOk result (λ leaves. IsWhole compiled.now leaves.items) }
{
    let mut leaves = Vec::new(alloc);
    place(alloc, compiled, state, &mut leaves, empty(alloc))?;
    Ok(leaves)
}

fn listed(alloc: Global, leaves: Vec<Leaf>) -> Result<Vec<Seq<i32>>, AllocError>
    ensures { IfOk result (λ cubes. cubes.items ≡ map (λ leaf. leaf.cube) leaves.items) }
{
    leaves.into_iter().map(|leaf| leaf.cube).collect(alloc)
}

// The one cube that has no literals.
fn whole(alloc: Global) -> Result<Vec<Seq<i32>>, AllocError>
    ensures { IfOk result (λ cubes. cubes.items ≡ [] ∷ []) }
{
    let mut cubes = Vec::new(alloc);
    cubes.push(empty(alloc))?;
    Ok(cubes)
}

// The cubes of the leaves; where there is none, one without literals.
fn cubes_of(alloc: Global, leaves: Vec<Leaf>) -> Result<Vec<Seq<i32>>, AllocError>
    ensures { IfOk result (λ cubes. cubes.items ≡ cubes_of leaves.items) }
{
    if leaves.is_empty() {
        whole(alloc)
    } else {
        listed(alloc, leaves)
    }
}

// The cubes, by a state that follows the program's nogoods under each.
fn parted<P: Propagator>(
    alloc: Global,
    compiled: &Compiled,
    state: &mut SearchState<P>,
    parts: usize,
) -> Result<Vec<Seq<i32>>, AllocError>
    requires some { 0 < parts }
    requires kept { IsProber compiled.now state.old }
    ensures answers { IfOk result (λ cubes. answers_of_parts compiled.now cubes.items ≡ answers compiled.now) }
    ensures stand { IfOk result (λ cubes. AllByRecursion (AreStanding compiled.now) cubes.items) }
    ensures some { IfOk result (λ cubes. 0 < length cubes.items) }
    ensures few { IfOk result (λ cubes. length cubes.items ≤ parts) }
{
    let first = first_leaf(alloc, compiled, state)?;
    let leaves = divide_all(alloc, compiled, state, first, parts)?;
    cubes_of(alloc, leaves)
}

/// At most so many cubes, and at least one. The answers of the program under each, one cube's after the other's, are the
/// answers of the program. The propagator was told nothing.
///
/// Each time that cube is divided under which propagation leaves the most variables open, by the least atom that is open;
/// where none is open under any cube, or half of the divisions find nothing, there are fewer cubes. Want of memory is the
/// one error.
pub fn cubes<P: Propagator>(
    alloc: Global,
    compiled: &Compiled,
    propagator: P,
    parts: usize,
) -> Result<Vec<Seq<i32>>, AllocError>
    requires some { 0 < parts }
    requires program { (P.told propagator).program ≡ compiled.now }
    requires fresh { (P.told propagator).values ≡ replicate (var_count compiled.now + 1) None }
    requires unbounded { P.bound propagator ≡ None }
    ensures answers { IfOk result (λ cubes. answers_of_parts compiled.now cubes.items ≡ answers compiled.now) }
    ensures stand { IfOk result (λ cubes. AllByRecursion (AreStanding compiled.now) cubes.items) }
    ensures some { IfOk result (λ cubes. 0 < length cubes.items) }
    ensures few { IfOk result (λ cubes. length cubes.items ≤ parts) }
{
    let _program = compiled.program();
    let mut state = SearchState::new(alloc, compiled, propagator)?;
    let found = parted(alloc, compiled, &mut state, parts);
    mem::drop(state);
    found
}
