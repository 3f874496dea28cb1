//! How a leaf is divided, by an atom that is false in its first half and true in its second.
ghost use Rattle.std.specs.Prelude.{◌≡◌, ◌+◌, ◌++◌, ◌∷◌, [], ◌^◌, ◌<◌, ◌≤◌, IfOk, IsSome, OnOk, length, neg_ℤ, pos};
ghost use Rattle.asp_split.specs.Dividing.{IsLeaf, IsPlaced};
ghost use Rattle.asp_split.specs.Following.{IsProber};
ghost use Rattle.asp_split.specs.Parts.{AreStanding};

use crate::leaf::Leaf;
use crate::probe::probe;
use asp_model::program::Atom;
use asp_model::seq::Seq;
use asp_propagate::propagator::Propagator;
use asp_state::state::SearchState;
use asp_vars::compiled::Compiled;
use std::alloc::{AllocError, Global};

// The literal that the atom is in.
fn positive(atom: Atom) -> i32
    requires { atom < 2 ^ 31 }
    ensures { result ≡ pos atom }
{
    atom as i32
}

// The literal that it isn't in.
fn negative(atom: Atom) -> i32
    requires { atom < 2 ^ 31 }
    ensures { result ≡ neg_ℤ (pos atom) }
{
    -(atom as i32)
}

// The cube with one literal more.
fn with_literal(alloc: Global, cube: &Seq<i32>, literal: i32) -> Result<Seq<i32>, AllocError>
    ensures { IfOk result (λ more. more ≡ cube.now ++ literal ∷ []) }
{
    let mut literals = Vec::from_slice(alloc, cube.as_slice())?;
    literals.push(literal)?;
    Ok(Seq::from_vec(literals))
}

/// Puts the leaf of a cube after the others, unless there is no answer under it. Want of memory is the one error.
pub(crate) fn place<P: Propagator>(
    alloc: Global,
    compiled: &Compiled,
    state: &mut SearchState<P>,
    leaves: &mut Vec<Leaf>,
    cube: Seq<i32>,
) -> Result<(), AllocError>
    requires stand { AreStanding compiled.now cube }
    requires kept { IsProber compiled.now state.old }
    ensures kept { IsProber compiled.now state.new }
    ensures placed { OnOk result (IsPlaced compiled.now leaves.old.items leaves.new.items cube) }
    ensures few { OnOk result (length leaves.new.items ≤ length leaves.old.items + 1) }
{
    match probe(alloc, compiled, state, cube)? {
        None => Ok(()),
        Some(leaf) => {
            leaves.push(leaf)?;
            Ok(())
        }
    }
}

/// Puts the halves of a leaf after the others. Want of memory is the one error.
pub(crate) fn divide<P: Propagator>(
    alloc: Global,
    compiled: &Compiled,
    state: &mut SearchState<P>,
    leaves: &mut Vec<Leaf>,
    leaf: Leaf,
) -> Result<(), AllocError>
    requires leaf { IsLeaf compiled.now leaf }
    requires open { IsSome leaf.next }
    requires kept { IsProber compiled.now state.old }
    ensures kept { IsProber compiled.now state.new }
    ensures placed { OnOk result (IsPlaced compiled.now leaves.old.items leaves.new.items leaf.cube) }
    ensures few { OnOk result (length leaves.new.items ≤ length leaves.old.items + 2) }
{
    let Leaf {
        cube,
        next,
        width: _,
    } = leaf;
    match next {
        None => unreachable!(),
        Some(atom) => {
            let lacking = with_literal(alloc, &cube, negative(atom))?;
            let having = with_literal(alloc, &cube, positive(atom))?;
            place(alloc, compiled, state, leaves, lacking)?;
            place(alloc, compiled, state, leaves, having)
        }
    }
}
