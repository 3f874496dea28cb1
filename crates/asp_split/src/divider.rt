//! A program whose parts are divided one by one.
ghost use Rattle.std.specs.Prelude.{◌≡◌, ◌+◌, ◌<◌, ◌≤◌, ◌∷◌, [], IfOk, None, length, replicate};
ghost use Rattle.asp_vars.specs.Numbering.{var_count};
ghost use Rattle.asp_split.specs.Dividing.{AreLeaves, IsLeaf, IsWhole, part, sets_of};

use crate::cubes::first_leaf;
use crate::leaf::Leaf;
use crate::rounds::divide_all;
use asp_propagate::propagator::Propagator;
use asp_state::state::SearchState;
use asp_vars::compiled::Compiled;
use std::alloc::{AllocError, Global};
use std::marker::Model;

/// Who divides a program's parts, which contracts see as the program.
#[derive(Drop)]
pub struct Divider<'a, P: Propagator> {
    /// Where memory comes from.
    alloc: Global,
    /// The program.
    compiled: &'a Compiled,
    /// What follows from a cube.
    state: SearchState<P>,
}

impl<'a, P: Propagator> Model for Divider<'a, P> {
    ghost use Rattle.asp_model.specs.declared.program.Program.{Program};
    ghost use Rattle.asp_split.specs.Following.{IsProber};

    ghost Value = { Program };

    ghost view = { λ d. d.compiled.now };

    ghost invariant = { λ d. IsProber d.compiled.now d.state };
}

// One leaf.
fn alone(alloc: Global, leaf: Leaf) -> Result<Vec<Leaf>, AllocError>
    ensures { IfOk result (λ leaves. leaves.items ≡ leaf ∷ []) }
{
    let mut leaves = Vec::new(alloc);
    leaves.push(leaf)?;
    Ok(leaves)
}

impl<'a, P: Propagator> Divider<'a, P> {
    /// Divides parts of this program, by a propagator that was told nothing. Want of memory is the one error.
    pub fn new(
        alloc: Global,
        compiled: &'a Compiled,
        propagator: P,
    ) -> Result<Divider<'a, P>, AllocError>
        requires program { (P.told propagator).program ≡ compiled.now }
        requires fresh { (P.told propagator).values ≡ replicate (var_count compiled.now + 1) None }
        requires unbounded { P.bound propagator ≡ None }
        ensures { IfOk result (λ d. d ≡ compiled.now) }
    {
        let _program = compiled.program();
        let state = SearchState::new(alloc, compiled, propagator)?;
        Ok(Divider {
            alloc,
            compiled,
            state,
        })
    }

    /// The leaf of the whole program, or none where propagation shows that there is no answer. Want of memory is the one error.
    pub fn whole(&mut self) -> Result<Vec<Leaf>, AllocError>
        ensures same { self.new ≡ self.old }
        ensures whole { IfOk result (λ leaves. IsWhole self.old leaves.items) }
    {
        first_leaf(self.alloc, self.compiled, &mut self.state)
    }

    /// Leaves in place of one, at most so many: the sets of the one after the other's are its sets. One that can't be divided comes back;
    /// of one under which propagation shows that there is no answer none need come. Want of memory is the one error.
    pub fn divide(&mut self, leaf: Leaf, most: usize) -> Result<Vec<Leaf>, AllocError>
        requires leaf { IsLeaf self.old leaf }
        requires some { 0 < most }
        ensures same { self.new ≡ self.old }
        ensures leaves { IfOk result (λ leaves. AreLeaves self.old leaves.items) }
        ensures sets { IfOk result (λ leaves. sets_of self.old leaves.items ≡ part self.old leaf.cube) }
        ensures few { IfOk result (λ leaves. length leaves.items ≤ most) }
    {
        let first = alone(self.alloc, leaf)?;
        divide_all(self.alloc, self.compiled, &mut self.state, first, most)
    }
}
