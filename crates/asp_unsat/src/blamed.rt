//! The literals that stand in nogoods for which leaves were closed.
ghost use Rattle.std.specs.Prelude.{◌≡◌, ◌++◌, [], ◌∷◌, true, IfOk, OnOk};
ghost use Rattle.std.specs.List.{AllByRecursion};
ghost use Rattle.asp_model.specs.Holding.{atom_of};
ghost use Rattle.asp_model.specs.Models.{atoms_of};
ghost use Rattle.asp_model.specs.Sets.{has};
ghost use Rattle.asp_unsat.specs.Cores.{blamed_by};
ghost use Rattle.asp_unsat.specs.Blaming.{codes_by, coded_in, has_code, with_codes};
ghost use Rattle.asp_vars.specs.Codes.{code_of};
ghost use Rattle.asp_vars.specs.Numbering.{literal_of};

use asp_core::reason::Reason;
use asp_vars::compiled::Compiled;
use asp_vars::lit::Lit;
use std::alloc::{AllocError, Global};
use std::collections::BTreeSet;

// Adds the codes of the literals.
fn add_codes(codes: &mut BTreeSet<usize>, lits: &[Lit]) -> Result<(), AllocError>
    ensures { OnOk result (codes.new.keys ≡ with_codes codes.old.keys lits.now) }
{
    for lit in lits {
        codes.insert(lit.code())?;
    }
    Ok(())
}

// The codes of the literals that stand in the nogoods.
fn codes_of(alloc: Global, reasons: &[Reason]) -> Result<BTreeSet<usize>, AllocError>
    ensures { IfOk result (λ codes. codes.keys ≡ codes_by reasons.now) }
{
    let mut codes = BTreeSet::new(alloc);
    for reason in reasons {
        add_codes(&mut codes, reason.nogood.as_slice())?;
    }
    Ok(codes)
}

// The literal in the program's variables.
fn lit_of(compiled: &Compiled, literal: &i32) -> Lit
    requires { has (atoms_of compiled.now) (atom_of literal.now) ≡ true }
    ensures { result ≡ literal_of compiled.now literal.now }
{
    Lit::new(compiled.atom_var(literal.unsigned_abs()), *literal >= 0)
}

// Whether the literal's code is among these.
fn is_coded(compiled: &Compiled, codes: &BTreeSet<usize>, literal: &i32) -> bool
    requires { has (atoms_of compiled.now) (atom_of literal.now) ≡ true }
    ensures { result ≡ has_code codes.now.keys (code_of (literal_of compiled.now literal.now)) }
{
    codes.contains(&lit_of(compiled, literal).code())
}

// Puts the literal after the others, if its code is among these.
fn add_if_coded(
    core: &mut Vec<i32>,
    compiled: &Compiled,
    codes: &BTreeSet<usize>,
    literal: &i32,
) -> Result<(), AllocError>
    requires { has (atoms_of compiled.now) (atom_of literal.now) ≡ true }
    ensures { OnOk result (core.new.items ≡ core.old.items ++ coded_in compiled.now codes.now.keys (literal.now ∷ [])) }
{
    if is_coded(compiled, codes, literal) {
        core.push(*literal)?;
    }
    Ok(())
}

// Puts those of the literals after the others whose codes are among these.
fn add_coded(
    core: &mut Vec<i32>,
    compiled: &Compiled,
    codes: &BTreeSet<usize>,
    literals: &[i32],
) -> Result<(), AllocError>
    requires { AllByRecursion (λ l. has (atoms_of compiled.now) (atom_of l) ≡ true) literals.now }
    ensures { OnOk result (core.new.items ≡ core.old.items ++ coded_in compiled.now codes.now.keys literals.now) }
{
    for literal in literals {
        add_if_coded(core, compiled, codes, literal)?;
    }
    Ok(())
}

/// Puts those of the literals after the others that stand in one of the nogoods. It takes time that grows with the literals and
/// the nogoods' lengths, and with the logarithm of these.
pub fn add_blamed(
    alloc: Global,
    core: &mut Vec<i32>,
    compiled: &Compiled,
    reasons: &[Reason],
    literals: &[i32],
) -> Result<(), AllocError>
    requires { AllByRecursion (λ l. has (atoms_of compiled.now) (atom_of l) ≡ true) literals.now }
    ensures { OnOk result (core.new.items ≡ core.old.items ++ blamed_by compiled.now reasons.now literals.now) }
{
    let codes = codes_of(alloc, reasons)?;
    add_coded(core, compiled, &codes, literals)
}
