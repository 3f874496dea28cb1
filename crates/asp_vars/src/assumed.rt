//! Literals of a program's atoms as literals of their variables.
ghost use Rattle.std.specs.Prelude.{◌≡◌, ◌++◌, true, map, OnOk};
ghost use Rattle.std.specs.List.{AllByRecursion};
ghost use Rattle.asp_model.specs.Sets.{has};
ghost use Rattle.asp_model.specs.Holding.{atom_of};
ghost use Rattle.asp_model.specs.Models.{atoms_of};
ghost use Rattle.asp_vars.specs.Numbering.{literal_of};

use crate::compiled::Compiled;
use crate::lit::Lit;
use std::alloc::AllocError;

// A literal of an atom as one of its variable.
fn literal(compiled: &Compiled, literal: i32) -> Lit
    requires { has (atoms_of compiled.now) (atom_of literal) ≡ true }
    ensures { result ≡ literal_of compiled.now literal }
{
    let var = compiled.atom_var(literal.unsigned_abs());
    Lit::new(var, literal >= 0)
}

/// Puts the literals of atoms, as literals of their variables, behind the others.
pub fn add_all(lits: &mut Vec<Lit>, compiled: &Compiled, literals: &[i32]) -> Result<(), AllocError>
    requires { AllByRecursion (λ l. has (atoms_of compiled.now) (atom_of l) ≡ true) literals.now }
    ensures { OnOk result (lits.new.items ≡ lits.old.items ++ map (literal_of compiled.now) literals.now) }
{
    for l in literals {
        lits.push(literal(compiled, *l))?;
    }
    Ok(())
}
