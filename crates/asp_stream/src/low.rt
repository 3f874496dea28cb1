//! The least set that an answer still to come may be.
ghost use Rattle.std.specs.Prelude.{◌≡◌, ◌++◌, ◌∷◌, [], if◌then◌else◌, IfOk, OnOk, IsTrue};
ghost use Rattle.asp_model.specs.Models.{atoms_of};
ghost use Rattle.asp_vars.specs.Numbering.{IsVar, var_count};
ghost use Rattle.asp_rows.specs.Listed.{IsRowOf};
ghost use Rattle.asp_stream.specs.Lows.{IsSure, IsSureVar, says_true};

use asp_model::interp::Interp;
use asp_model::program::Atom;
use asp_propagate::propagator::Propagator;
use asp_rows::row::Row;
use asp_search::search::Search;
use asp_vars::compiled::Compiled;
use asp_vars::lit::{Lit, Var};
use std::alloc::{AllocError, Global};

// Whether one of the literals says that the variable is true.
fn says_true(lits: &[Lit], var: Var) -> bool
    ensures { result ≡ says_true lits.now var }
{
    lits.iter().any(|lit| lit.var() == var && lit.truth())
}

// Whether the variable is true in each answer still to come on the path that has these literals too.
fn is_sure<P: Propagator>(search: &Search<'_, P>, more: &[Lit], var: Var) -> bool
    requires { IsVar (var_count search.now.program) var }
    ensures { IsTrue result → IsSureVar search.now more.now var }
{
    if says_true(more, var) {
        return true;
    }
    match search.fixed(var) {
        Some(truth) => truth,
        None => false,
    }
}

// Puts the atom at the end, or leaves all as it was.
fn push_if(set: &mut Vec<Atom>, atom: Atom, sure: bool) -> Result<(), AllocError>
    ensures { OnOk result (set.new.items ≡ (if sure then set.old.items ++ atom ∷ [] else set.old.items)) }
{
    if !sure {
        return Ok(());
    }
    set.push(atom)?;
    Ok(())
}

/// The row of a set of atoms that each answer has which is still to come on the path and has these literals too: those that the search
/// knows to be true without a decision, and those that the literals say to be true.
pub(crate) fn low<P: Propagator>(
    alloc: Global,
    compiled: &Compiled,
    search: &Search<'_, P>,
    more: &[Lit],
) -> Result<Row, AllocError>
    requires { search.now.program ≡ compiled.now }
    ensures row { IfOk result (IsRowOf (atoms_of compiled.now)) }
    ensures low { IfOk result (λ row. IsSure search.now more.now row.set) }
{
    let atoms = compiled.atoms().as_slice();
    let mut set = Vec::new(alloc);
    for atom in atoms {
        let sure = is_sure(search, more, compiled.atom_var(*atom));
        push_if(&mut set, *atom, sure)?;
    }
    Row::of(alloc, atoms, &Interp::from_ascending(set))
}
