//! Rounds of divisions. In each round the widest leaves are divided, from the first on. The halves of a leaf are narrower than it
//! is, so the leaves come out as if one widest leaf after the other were looked for.
ghost use Rattle.std.specs.Prelude.{◌≡◌, ◌+◌, ◌<◌, ◌≤◌, IfOk, IsSome, IsTrue, OnOk, length};
ghost use Rattle.asp_split.specs.Dividing.{AreLeaves, IsLeaf, IsParted, IsPlaced};
ghost use Rattle.asp_split.specs.Following.{IsProber};

use crate::divide::divide;
use crate::leaf::Leaf;
use asp_propagate::propagator::Propagator;
use asp_state::state::SearchState;
use asp_vars::compiled::Compiled;
use std::alloc::{AllocError, Global};

/// Which leaves are divided, and how many more.
#[derive(Drop)]
struct Round {
    /// How many variables the leaves that are divided leave open.
    width: usize,
    /// How many leaves are wanted.
    parts: usize,
    /// How many divisions may still be made. One that finds a half empty gives no leaf more, so they are counted.
    left: usize,
}

// The greater width, where the leaf can be divided.
fn wider(width: Option<usize>, leaf: &Leaf) -> Option<usize> {
    match width {
        Some(width) if leaf.next.is_none() || leaf.width <= width => Some(width),
        None if leaf.next.is_none() => None,
        _ => Some(leaf.width),
    }
}

// How many variables the widest leaf leaves open, of those that can be divided.
fn greatest_width(leaves: &[Leaf]) -> Option<usize> {
    let mut width = None;
    for leaf in leaves {
        width = wider(width, leaf);
    }
    width
}

// Whether the leaf is divided, where there are so many leaves in all.
fn is_due(round: &Round, leaf: &Leaf, count: usize) -> bool
    ensures { IsTrue result → IsSome leaf.now.next × (count < round.now.parts) × (0 < round.now.left) }
{
    leaf.next.is_some() && leaf.width == round.width && count < round.parts && round.left > 0
}

// Puts the leaf's halves after the leaves if it is divided, and else the leaf, where so many others wait.
fn pass<P: Propagator>(
    alloc: Global,
    compiled: &Compiled,
    state: &mut SearchState<P>,
    round: &mut Round,
    leaves: &mut Vec<Leaf>,
    leaf: Leaf,
    waiting: usize,
) -> Result<(), AllocError>
    requires leaf { IsLeaf compiled.now leaf }
    requires few { length leaves.old.items + waiting + 1 ≤ round.old.parts }
    requires kept { IsProber compiled.now state.old }
    ensures kept { IsProber compiled.now state.new }
    ensures placed { OnOk result (IsPlaced compiled.now leaves.old.items leaves.new.items leaf.cube) }
    ensures few { OnOk result (length leaves.new.items + waiting ≤ round.old.parts) }
    ensures parts { round.new.parts ≡ round.old.parts }
{
    if is_due(round, &leaf, leaves.len() + waiting + 1) {
        round.left -= 1;
        divide(alloc, compiled, state, leaves, leaf)
    } else {
        leaves.push(leaf)?;
        Ok(())
    }
}

// The leaves after a round.
fn divide_round<P: Propagator>(
    alloc: Global,
    compiled: &Compiled,
    state: &mut SearchState<P>,
    round: &mut Round,
    mut waiting: Vec<Leaf>,
) -> Result<Vec<Leaf>, AllocError>
    requires leaves { AreLeaves compiled.now waiting.items }
    requires few { length waiting.items ≤ round.old.parts }
    requires kept { IsProber compiled.now state.old }
    ensures kept { IsProber compiled.now state.new }
    ensures parted { IfOk result (λ leaves. IsParted compiled.now waiting.items leaves.items round.old.parts) }
    ensures parts { round.new.parts ≡ round.old.parts }
{
    let mut leaves = Vec::with_capacity(alloc, waiting.len())?;
    waiting.reverse();
    'leaves: while let Some(leaf) = waiting.pop() {
        pass(
            alloc,
            compiled,
            state,
            round,
            &mut leaves,
            leaf,
            waiting.len(),
        )?;
    }
    Ok(leaves)
}

/// Divides a widest leaf, again and again, as long as there are fewer than wanted: of leaves that are as wide the first. Want
/// of memory is the one error.
pub(crate) fn divide_all<P: Propagator>(
    alloc: Global,
    compiled: &Compiled,
    state: &mut SearchState<P>,
    first: Vec<Leaf>,
    parts: usize,
) -> Result<Vec<Leaf>, AllocError>
    requires leaves { AreLeaves compiled.now first.items }
    requires few { length first.items ≤ parts }
    requires kept { IsProber compiled.now state.old }
    ensures kept { IsProber compiled.now state.new }
    ensures parted { IfOk result (λ leaves. IsParted compiled.now first.items leaves.items parts) }
{
    let divisions = parts.saturating_mul(4).saturating_add(64);
    let mut round = Round {
        width: 0,
        parts,
        left: divisions,
    };
    let mut leaves = first;
    'rounds: for _ in 0..divisions {
        if leaves.len() >= parts || round.left == 0 {
            return Ok(leaves);
        }
        match greatest_width(leaves.as_slice()) {
            None => return Ok(leaves),
            Some(width) => {
                round.width = width;
                leaves = divide_round(alloc, compiled, state, &mut round, leaves)?;
            }
        }
    }
    Ok(leaves)
}
