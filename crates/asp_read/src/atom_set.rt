//! A set of atoms.
ghost use Rattle.std.specs.Prelude.{◌≡◌, ◌<◌, ◌||◌, ℕ, [], true, false, length, nat_eq, slice_index_or, OnOk, OnErr};
ghost use Rattle.asp_model.specs.Sets.{has, with_atom};

use asp_model::program::Atom;
use std::alloc::{AllocError, Global};
use std::collections::HashSet;
use std::marker::Model;

/// A set of atoms. Those that were within reach when they came stand in a table, which is found faster and is smaller
/// where most atoms of a range stand; the others stand in a hash set.
#[derive(Drop)]
pub struct AtomSet {
    /// By atom, whether it stands here.
    near: Vec<bool>,
    /// The atoms that came out of reach.
    far: HashSet<Atom>,
}

impl Model for AtomSet {
    ghost use Rattle.asp_model.specs.Sets.{Atoms, set_of};
    ghost use Rattle.asp_read.specs.Known.{together};

    ghost Value = { Atoms };

    ghost view = { λ s. set_of (together s.near.items s.far.keys) };
}

impl AtomSet {
    /// No atoms.
    pub fn new(alloc: Global) -> AtomSet
        ensures { result ≡ [] }
    {
        AtomSet {
            near: Vec::new(alloc),
            far: HashSet::new(alloc),
        }
    }

    /// Whether the table has the atom.
    pub fn is_near(&self, atom: Atom) -> bool
        ensures { result ≡ true → has self.now atom ≡ true }
    {
        is_marked(self.near.as_slice(), atom)
    }

    /// Whether the set has the atom.
    pub fn has(&self, atom: Atom) -> bool
        ensures { result ≡ has self.now atom }
    {
        is_marked(self.near.as_slice(), atom) || is_far(&self.far, atom)
    }

    /// Puts an atom into the set: into the table, which gets so many places if need be, where it has a place there.
    pub fn insert(&mut self, atom: Atom, reach: u32) -> Result<(), AllocError>
        ensures inserted { OnOk result (self.new ≡ with_atom atom self.old) }
        ensures same { OnErr result (self.new ≡ self.old) }
    {
        if atom >= reach {
            self.far.insert(atom)?;
            return Ok(());
        }
        mark(&mut self.near, atom as usize, reach as usize)?;
        Ok(())
    }
}

// Whether the table has the atom.
fn is_marked(near: &[bool], atom: Atom) -> bool
    ensures { result ≡ slice_index_or near.now atom false }
{
    near.get(atom as usize).copied().unwrap_or(false)
}

// Whether the hash set has the atom.
fn is_far(far: &HashSet<Atom>, atom: Atom) -> bool
    ensures { result ≡ has far.now.keys atom }
{
    far.contains(&atom)
}

// Puts an atom into the table.
fn mark(near: &mut Vec<bool>, atom: usize, reach: usize) -> Result<(), AllocError>
    requires { atom < reach }
    ensures marked { OnOk result ((k : ℕ) → slice_index_or near.new.items k false ≡ (nat_eq atom k || slice_index_or near.old.items k false)) }
    ensures same { OnErr result (near.new.items ≡ near.old.items) }
{
    lengthen(near, atom, reach)?;
    near[atom] = true;
    Ok(())
}

// Gives the table so many places, unless the atom has one.
fn lengthen(near: &mut Vec<bool>, atom: usize, reach: usize) -> Result<(), AllocError>
    requires { atom < reach }
    ensures within { OnOk result (atom < length near.new.items) }
    ensures marks { (k : ℕ) → slice_index_or near.new.items k false ≡ slice_index_or near.old.items k false }
    ensures same { OnErr result (near.new.items ≡ near.old.items) }
{
    if atom < near.len() {
        return Ok(());
    }
    near.resize(reach, false)?;
    Ok(())
}
