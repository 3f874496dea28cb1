//! Loop nogoods.
//!
//! An unfounded set has no reason from outside of itself: each body of a rule for one of its atoms is false, or needs
//! the set. The nogood says why the bodies that don't need it can't hold, and that one of its atoms is true.
//! The walk goes over the supports of the set's atoms alone, and over their bodies' literals; it takes time for sorting
//! these, and for a look-up by halves in the sorted set for each literal.
ghost use Rattle.std.specs.Prelude.{◌≡◌, ◌<◌, ◌+◌, All, IfOk, MatchOption, IsTrue, false, length, flat_map, map};
ghost use Rattle.asp_model.specs.Sets.{has, set_of};
ghost use Rattle.asp_model.specs.Models.{atoms_of};
ghost use Rattle.asp_vars.specs.Numbering.{var_count, var_of_atom};
ghost use Rattle.asp_vars.specs.Completion.{supports};
ghost use Rattle.asp_vars.specs.Unfounded.{is_unfounded};
ghost use Rattle.asp_loop.specs.LoopNogoods.{IsLoopNogood};

use crate::parts::add_parts;
use asp_model::interp::Interp;
use asp_model::program::Atom;
use asp_vars::assign::Assign;
use asp_vars::compiled::Compiled;
use asp_vars::lit::Lit;
use asp_vars::nogood::{Base, Lits, Nogood};
use std::alloc::{AllocError, Global};

// The variables of these atoms.
fn vars_of(alloc: Global, compiled: &Compiled, atoms: &[Atom]) -> Result<Interp, AllocError>
    requires { All (λ a. IsTrue (has (atoms_of compiled.now) a)) atoms.now }
    ensures { IfOk result (λ vars. vars ≡ set_of (map (var_of_atom compiled.now) atoms.now)) }
{
    let mut vars = Vec::with_capacity(alloc, atoms.len())?;
    for atom in atoms {
        vars.push(compiled.atom_var(*atom))?;
    }
    Ok(Interp::from_atoms(vars))
}

// The numbers of the bodies of the rules for these atoms.
fn support_numbers(alloc: Global, compiled: &Compiled, atoms: &[Atom]) -> Result<Interp, AllocError>
    requires { All (λ a. IsTrue (has (atoms_of compiled.now) a)) atoms.now }
    ensures { IfOk result (λ numbers. numbers ≡ set_of (flat_map (supports compiled.now) atoms.now)) }
{
    let mut numbers = Vec::new(alloc);
    for atom in atoms {
        numbers.extend_from_slice(compiled.supports(compiled.atom_var(*atom)))?;
    }
    Ok(Interp::from_atoms(numbers))
}

/// The loop nogood of a set of atoms and one of them, if the set is unfounded under the assignment. All of its literals
/// but the first hold in the assignment.
pub fn loop_nogood(
    alloc: Global,
    compiled: &Compiled,
    u: &[Atom],
    a: Atom,
    assign: &Assign,
) -> Result<Option<Nogood>, AllocError>
    requires member { IsTrue (has u.now a) }
    requires stand { All (λ b. IsTrue (has (atoms_of compiled.now) b)) u.now }
    requires vars { length assign.now ≡ var_count compiled.now + 1 }
    ensures { IfOk result (λ found. MatchOption found (is_unfounded compiled.now assign.now u.now ≡ false) (IsLoopNogood compiled.now assign.now u.now a)) }
{
    let _program = compiled.program();
    let vars = vars_of(alloc, compiled, u)?;
    let bodies = support_numbers(alloc, compiled, u)?;
    let mut lits = Lits::new(alloc);
    lits.push(Lit::new(compiled.atom_var(a), true))?;
    let excused = add_parts(compiled, &vars, assign, bodies.as_slice(), &mut lits)?;
    if excused {
        Ok(Some(Nogood {
            lits,
            base: Base::Pure,
        }))
    } else {
        Ok(None)
    }
}
