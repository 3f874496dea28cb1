//! Sets that are told by the atoms in which each differs from the one before it.
ghost use Rattle.std.specs.Prelude.{◌≡◌, ◌+◌, length, IfOk};
ghost use Rattle.asp_model.specs.Sets.{IsAscending};
ghost use Rattle.asp_proof.specs.Changes.{changed, last_of};
ghost use Rattle.asp_proof.specs.Turns.{IsTurn};

use asp_model::interp::Interp;
use asp_model::program::Atom;
use std::alloc::{AllocError, Global};

/// What two sets begin with, and what is left of them.
#[derive(Clone, Copy)]
pub(crate) enum Turn<'a> {
    /// Nothing.
    End,
    /// An atom that both have.
    Both(&'a [Atom], &'a [Atom]),
    /// An atom that one of them alone has.
    Lone(Atom, &'a [Atom], &'a [Atom]),
}

/// The first atom of two sets.
pub(crate) fn first_of<'a>(one: &'a [Atom], other: &'a [Atom]) -> Turn<'a>
    requires one { IsAscending one.now }
    requires other { IsAscending other.now }
    ensures { IsTurn one.now other.now result }
{
    let Some((first, rest)) = one.split_first() else {
        return match other.split_first() {
            Some((second, others)) => Turn::Lone(*second, one, others),
            None => Turn::End,
        };
    };
    let first = *first;
    let Some((second, others)) = other.split_first() else {
        return Turn::Lone(first, rest, other);
    };
    let second = *second;
    if first < second {
        return Turn::Lone(first, rest, other);
    }
    if second < first {
        return Turn::Lone(second, one, others);
    }
    Turn::Both(rest, others)
}

/// How many atoms one of the sets alone has.
pub(crate) fn count_changed<'a>(mut one: &'a [Atom], mut other: &'a [Atom]) -> usize
    requires one { IsAscending one.now }
    requires other { IsAscending other.now }
    ensures { result ≡ length (changed one.now other.now) }
{
    let most = one.len() + other.len();
    let mut count = 0;
    'turns: loop {
        match first_of(one, other) {
            Turn::End => return count,
            Turn::Both(rest, others) => {
                one = rest;
                other = others;
            }
            Turn::Lone(_, rest, others) => {
                count += 1;
                one = rest;
                other = others;
            }
        }
    }
}

// The atoms that one of the sets alone has, ascending.
fn changed_atoms<'a>(
    alloc: Global,
    mut one: &'a [Atom],
    mut other: &'a [Atom],
) -> Result<Vec<Atom>, AllocError>
    requires one { IsAscending one.now }
    requires other { IsAscending other.now }
    ensures { IfOk result (λ atoms. atoms.items ≡ changed one.now other.now) }
{
    let mut atoms = Vec::new(alloc);
    'turns: loop {
        match first_of(one, other) {
            Turn::End => return Ok(atoms),
            Turn::Both(rest, others) => {
                one = rest;
                other = others;
            }
            Turn::Lone(atom, rest, others) => {
                atoms.push(atom)?;
                one = rest;
                other = others;
            }
        }
    }
}

/// The set of the atoms that one of the sets alone has: the change from the one to the other, and what such a change makes of the one.
pub fn changed_set(alloc: Global, one: &[Atom], other: &[Atom]) -> Result<Interp, AllocError>
    requires one { IsAscending one.now }
    requires other { IsAscending other.now }
    ensures { IfOk result (λ set. set ≡ changed one.now other.now) }
{
    let atoms = changed_atoms(alloc, one, other)?;
    Ok(Interp::from_ascending(atoms))
}

/// The set that comes after these by this change.
pub fn next_set(alloc: Global, sets: &[Interp], change: &Interp) -> Result<Interp, AllocError>
    ensures { IfOk result (λ set. set ≡ changed (last_of sets.now) change.now) }
{
    let count = sets.len();
    if count == 0 {
        return changed_set(alloc, &[], change.as_slice());
    }
    let last = &sets[count - 1];
    changed_set(alloc, last.as_slice(), change.as_slice())
}
