//! What the literals and the sets of a proof's lines mean for the program.
ghost use Rattle.std.specs.Prelude.{◌≡◌, ◌<◌, map, IfOk, MatchOption};
ghost use Rattle.std.specs.List.{list_all};
ghost use Rattle.asp_model.specs.Sets.{has};
ghost use Rattle.asp_model.specs.Models.{atoms_of};
ghost use Rattle.asp_vars.specs.Literals.{has_literal};
ghost use Rattle.asp_vars.specs.Numbering.{literal_of};
ghost use Rattle.asp_checker.specs.Lines.{signed, literals_of, IsOf, AreOf};

use asp_member::merge::{skip, stands_at};
use asp_model::interp::Interp;
use asp_vars::assumed::add_all;
use asp_vars::compiled::Compiled;
use asp_vars::lit::Lit;
use std::alloc::{AllocError, Global};

// The literal, where its variable is the program's.
fn lit_of(compiled: &Compiled, literal: &i32) -> Option<Lit>
    ensures { MatchOption result (IsOf compiled.now (signed literal.now) → ⊥) (λ l. (l ≡ signed literal.now) × IsOf compiled.now l) }
{
    let var = literal.unsigned_abs();
    if var == 0 {
        return None;
    }
    if var > compiled.vars() {
        return None;
    }
    Some(Lit::new(var, *literal > 0))
}

/// The literals of a line, where their variables are the program's.
pub fn lits_of(
    alloc: Global,
    compiled: &Compiled,
    literals: &[i32],
) -> Result<Option<Vec<Lit>>, AllocError>
    ensures { IfOk result (λ o. MatchOption o (AreOf compiled.now (literals_of literals.now) → ⊥)
        (λ lits. (lits.items ≡ literals_of literals.now) × AreOf compiled.now lits.items)) }
{
    let mut lits = Vec::with_capacity(alloc, literals.len())?;
    for literal in literals {
        let Some(lit) = lit_of(compiled, literal) else {
            return Ok(None);
        };
        lits.push(lit)?;
    }
    Ok(Some(lits))
}

/// Whether all of the set's atoms stand in the program.
pub fn are_atoms(compiled: &Compiled, set: &Interp) -> bool
    ensures { result ≡ list_all (has (atoms_of compiled.now)) set.now }
{
    let atoms = compiled.atoms().as_slice();
    let own = set.as_slice();
    let mut place = 0;
    for atom in own {
        place = skip(atoms, place, *atom);
        if !stands_at(atoms, place, *atom) {
            return false;
        }
    }
    true
}

/// The program's assumptions, as literals of variables.
pub fn assumptions(alloc: Global, compiled: &Compiled) -> Result<Vec<Lit>, AllocError>
    ensures { IfOk result (λ lits. lits.items ≡ map (literal_of compiled.now) compiled.now.assumptions) }
{
    let mut lits = Vec::new(alloc);
    add_all(
        &mut lits,
        compiled,
        compiled.program().assumptions.as_slice(),
    )?;
    Ok(lits)
}

pub(crate) fn stands(lits: &[Lit], lit: Lit) -> bool
    ensures { result ≡ has_literal lits.now lit }
{
    lits.iter().any(|l| *l == lit)
}

/// Whether each literal is an assumption.
pub fn are_assumed(assumptions: &[Lit], lits: &[Lit]) -> bool
    ensures { result ≡ list_all (has_literal assumptions.now) lits.now }
{
    lits.iter().all(|lit| stands(assumptions, *lit))
}
