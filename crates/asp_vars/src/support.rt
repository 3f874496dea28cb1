//! What supports an atom.
ghost use Rattle.std.specs.Prelude.{◌≡◌, ◌-◌, ◌++◌, All, IfOk, OnOk, map};
ghost use Rattle.asp_vars.specs.Literals.{complement};
ghost use Rattle.asp_vars.specs.Numbering.{form_at, literal_of_form, nth_atom};
ghost use Rattle.asp_vars.specs.Completion.{atom_nogood};
ghost use Rattle.asp_vars.specs.Tabled.{IsAtomVar, IsBodyNumber};

use crate::compiled::Compiled;
use crate::lit::{Lit, Var};
use crate::nogood::Lits;
use std::alloc::{AllocError, Global};

// Adds that each of the bodies with these numbers is false.
fn push_false(lits: &mut Lits, compiled: &Compiled, numbers: &[u32]) -> Result<(), AllocError>
    requires { All (IsBodyNumber compiled.now) numbers.now }
    ensures { OnOk result (lits.new ≡ lits.old ++ map (λ n. complement (literal_of_form compiled.now (form_at compiled.now n))) numbers.now) }
{
    for number in numbers {
        let body = compiled.body_at(*number);
        lits.push(compiled.body_lit(body).complement())?;
    }
    Ok(())
}

/// The nogood that the atom of a variable is true and each body of a rule for it false.
pub fn atom_nogood(alloc: Global, compiled: &Compiled, var: Var) -> Result<Lits, AllocError>
    requires { IsAtomVar compiled.now var }
    ensures { IfOk result (λ lits. lits ≡ atom_nogood compiled.now (nth_atom compiled.now (var - 1))) }
{
    let _few = compiled.vars();
    let mut lits = Lits::new(alloc);
    lits.push(Lit::new(var, true))?;
    push_false(&mut lits, compiled, compiled.supports(var))?;
    Ok(lits)
}
