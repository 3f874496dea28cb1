//! What a search for consequences knows.
ghost use Rattle.std.specs.Prelude.{◌≡◌, ◌∷◌, ◌++◌, [], not, filter, length, IfOk, is_some, slice_get};
ghost use Rattle.asp_model.specs.Consequences.{common_sets, shows, unshown};
ghost use Rattle.asp_model.specs.Models.{atoms_of};
ghost use Rattle.asp_model.specs.Sets.{has};

use crate::compiled::Compiled;
use crate::origin::Origin;
use asp_model::interp::Interp;
use asp_model::program::{Atom, Program};
use asp_model::results::Reasoning;
use std::alloc::{AllocError, Global};
use std::marker::Model;

/// What the answers known of a program have in common: the atoms in some of them, or those in each. Contracts see that set, if an
/// answer is known. The code keeps the atoms that are still to be shown, in another answer or not in each.
#[derive(Drop)]
pub struct Known {
    /// Where memory comes from.
    alloc: Global,
    /// The program, as a fact without bytes.
    program: Origin<Program>,
    /// Which consequences are sought.
    reasoning: Reasoning,
    /// Whether an answer is known.
    some: bool,
    /// The program's atoms that no answer shows, ascending.
    unshown: Vec<Atom>,
}

impl Model for Known {
    ghost use Rattle.asp_vars.specs.Knowing.{Knowing};
    ghost use Rattle.asp_vars.specs.Stored.{IsStored, knowing_of};

    ghost Value = { Knowing };

    ghost view = { knowing_of };

    ghost invariant = { IsStored };
}

// Whether an answer shows what can be shown of the atom: that it is in some, or that it isn't in every one.
fn shows(reasoning: Reasoning, set: &Interp, atom: Atom) -> bool
    ensures { result ≡ shows reasoning set.now atom }
{
    match reasoning {
        Reasoning::Brave => set.has(atom),
        Reasoning::Cautious => !set.has(atom),
    }
}

// Those of the atoms that the answer doesn't show.
fn without_shown(
    alloc: Global,
    reasoning: Reasoning,
    atoms: &[Atom],
    set: &Interp,
) -> Result<Vec<Atom>, AllocError>
    ensures { IfOk result (λ left. left.items ≡ filter (λ a. not (shows reasoning set.now a)) atoms.now) }
{
    let mut left = Vec::new(alloc);
    for atom in atoms {
        if !shows(reasoning, set, *atom) {
            left.push(*atom)?;
        }
    }
    Ok(left)
}

// Those of the atoms that aren't in the set.
fn others(mut atoms: Vec<Atom>, set: &Interp) -> Vec<Atom>
    ensures { result.items ≡ filter (λ a. not (has set.now a)) atoms.items }
{
    atoms.retain(|atom| !set.has(*atom));
    atoms
}

impl Known {
    /// No answer.
    pub fn new(
        alloc: Global,
        compiled: &Compiled,
        reasoning: Reasoning,
    ) -> Result<Known, AllocError>
        ensures { IfOk result (λ k. k ≡ record { program = compiled.now; reasoning = reasoning; sets = [] }) }
    {
        let unshown = Vec::from_slice(alloc, compiled.atoms().as_slice())?;
        Ok(Known {
            alloc,
            program: Origin::of(compiled.program()),
            reasoning,
            some: false,
            unshown,
        })
    }

    /// What these answers and one more have in common.
    pub fn with(&self, set: &Interp) -> Result<Known, AllocError>
        ensures { IfOk result (λ k. k ≡ record self.now { sets = common_sets self.now.reasoning self.now.program (self.now.sets ++ set.now ∷ []) }) }
    {
        let unshown = without_shown(self.alloc, self.reasoning, self.unshown.as_slice(), set)?;
        Ok(Known {
            alloc: self.alloc,
            program: self.program.again(),
            reasoning: self.reasoning,
            some: true,
            unshown,
        })
    }

    /// The same.
    pub fn copy(&self) -> Result<Known, AllocError>
        ensures { IfOk result (λ k. k ≡ self.now) }
    {
        let unshown = self.unshown.clone()?;
        Ok(Known {
            alloc: self.alloc,
            program: self.program.again(),
            reasoning: self.reasoning,
            some: self.some,
            unshown,
        })
    }

    /// Which consequences are sought.
    pub fn reasoning(&self) -> Reasoning
        ensures { result ≡ self.now.reasoning }
    {
        self.reasoning
    }

    /// Whether an answer is known.
    pub fn is_some(&self) -> bool
        ensures { result ≡ is_some (slice_get self.now.sets 0) }
    {
        self.some
    }

    /// How many sets stand for the answers: one, if an answer is known.
    pub fn count(&self) -> u64
        ensures { result ≡ length self.now.sets }
    {
        if self.some { 1 } else { 0 }
    }

    /// The program's atoms of which no answer shows what can be shown, ascending.
    pub fn unshown(&self) -> &[Atom]
        ensures { result.now ≡ unshown self.now.reasoning self.now.program self.now.sets }
    {
        self.unshown.as_slice()
    }

    /// The set, if an answer is known. It takes no memory: the atoms are those of the program.
    pub fn into_set(self, atoms: Vec<Atom>) -> Option<Interp>
        requires { atoms.items ≡ atoms_of self.program }
        ensures { result ≡ slice_get self.sets 0 }
    {
        let Known {
            alloc: _,
            program: _,
            reasoning,
            some,
            unshown,
        } = self;
        if !some {
            return None;
        }
        let rest = Interp::from_ascending(unshown);
        match reasoning {
            Reasoning::Brave => Some(Interp::from_ascending(others(atoms, &rest))),
            Reasoning::Cautious => Some(rest),
        }
    }
}
