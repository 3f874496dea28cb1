//! What is asked for by name: the atoms of the outputs' conditions. The others count as shown.
ghost use Rattle.std.specs.Prelude.{◌≡◌, ◌++◌, IfOk, OnOk, map, flat_map};
ghost use Rattle.std.specs.Option.{option_copied};
ghost use Rattle.asp_model.specs.Consequences.{common_sets};
ghost use Rattle.asp_model.specs.Holding.{atom_of};
ghost use Rattle.asp_core.specs.Boards.{unasked};
ghost use Rattle.asp_core.specs.Stored.{seed_of, with_answer};

use crate::goal::Goal;
use asp_model::interp::Interp;
use asp_model::outputs::Outputs;
use asp_model::program::Atom;
use asp_model::results::Reasoning;
use asp_vars::compiled::Compiled;
use asp_vars::known::Known;
use std::alloc::{AllocError, Global};

fn push_literals(atoms: &mut Vec<Atom>, literals: &[i32]) -> Result<(), AllocError>
    ensures { OnOk result (atoms.new.items ≡ atoms.old.items ++ map atom_of literals.now) }
{
    for literal in literals {
        atoms.push(literal.unsigned_abs())?;
    }
    Ok(())
}

fn push_conditions(atoms: &mut Vec<Atom>, outputs: &Outputs) -> Result<(), AllocError>
    ensures { OnOk result (atoms.new.items ≡ atoms.old.items ++ flat_map (λ o. map atom_of o.condition) outputs.now) }
{
    for i in 0..outputs.len() {
        push_literals(atoms, outputs.output(i).condition)?;
    }
    Ok(())
}

// The set that shows exactly the program's atoms that stand in no output's condition. It has the atoms of which the set of the outputs'
// atoms shows nothing.
fn unasked(alloc: Global, compiled: &Compiled, reasoning: Reasoning) -> Result<Interp, AllocError>
    ensures { IfOk result (λ set. set ≡ unasked reasoning compiled.now) }
{
    let mut asked = Vec::new(alloc);
    push_conditions(&mut asked, &compiled.program().outputs)?;
    let asked = Interp::from_atoms(asked);
    let none = Known::new(alloc, compiled, reasoning)?;
    let known = none.with(&asked)?;
    let atoms = Vec::from_slice(alloc, known.unshown())?;
    Ok(Interp::from_ascending(atoms))
}

/// What stands beside the answers from the first on, where consequences are asked for by name. It takes a sort of the outputs' atoms, and
/// a search among these for each atom of the program.
pub(crate) fn seed(
    alloc: Global,
    compiled: &Compiled,
    goal: &Goal,
) -> Result<Option<Interp>, AllocError>
    ensures { IfOk result (λ seed. seed ≡ seed_of goal.now compiled.now) }
{
    match goal {
        Goal::Enum | Goal::Opt | Goal::Ties(_) | Goal::Consequences(_, false) => Ok(None),
        Goal::Consequences(reasoning, true) => {
            let set = unasked(alloc, compiled, *reasoning)?;
            Ok(Some(set))
        }
    }
}

/// What the answers known and one more have in common, where the seed stands beside the first.
pub(crate) fn with_answer(
    known: &Known,
    seed: Option<&Interp>,
    set: &Interp,
) -> Result<Known, AllocError>
    ensures { IfOk result (λ k. k ≡ record known.now { sets = common_sets known.now.reasoning known.now.program (with_answer (option_copied seed.entry) known.now.sets set.now) }) }
{
    match (seed, known.is_some()) {
        (Some(seed), false) => {
            let begun = known.with(seed)?;
            begun.with(set)
        }
        _ => known.with(set),
    }
}
