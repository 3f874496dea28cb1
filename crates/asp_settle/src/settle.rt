//! A program is divided into its facts and what is left.
ghost use Rattle.std.specs.Prelude.{◌≡◌, All, filter, flat_map, not, IfOk};
ghost use Rattle.asp_model.specs.Sets.{has};
ghost use Rattle.asp_model.specs.Sound.{HasBody, HasFewItems, IsSound};
ghost use Rattle.asp_settle.specs.Settled.{facts_of, left_by, left_of, heads_of, settled_rule, united};

use crate::constraints::constrained;
use crate::facts::fact_table;
use crate::rules::{open_externals, settled_outputs, settled_rules};
use crate::table::AtomTable;
use asp_model::interp::Interp;
use asp_model::program::{External, Minimize, Program};
use asp_model::rules::Rules;
use asp_model::seq::Seq;
use std::alloc::{AllocError, Global};

/// The facts of a program, and what is left of it.
#[derive(Drop)]
pub struct Settled {
    /// The facts, each of which is in every answer.
    pub facts: Interp,
    /// The program without them.
    pub left: Program,
}

// The rules and the externals that are left.
#[derive(Drop)]
struct Parts {
    /// The rules without the facts.
    rules: Rules,
    /// The externals on atoms of no head.
    externals: Seq<External>,
}

fn left_parts(
    alloc: Global,
    facts: &AtomTable,
    rules: Rules,
    externals: Seq<External>,
) -> Result<Parts, AllocError>
    requires bodies { All HasBody rules }
    requires few { All HasFewItems rules }
    ensures rules { IfOk result (λ parts. parts.rules ≡ flat_map (settled_rule facts.now) rules) }
    ensures externals { IfOk result (λ parts. parts.externals ≡ filter (λ e. not (has (heads_of rules) e.atom)) externals) }
{
    let externals = open_externals(alloc, &rules, externals)?;
    let rules = settled_rules(alloc, facts, rules)?;
    Ok(Parts { rules, externals })
}

// What no fact changes.
#[derive(Drop)]
struct Rest {
    /// What answers cost.
    minimize: Seq<Minimize>,
    /// Literals that hold in each answer.
    assumptions: Seq<i32>,
}

// The program without the facts. Few values are alive where it can return: each way out is proved for each of them.
fn leave(alloc: Global, facts: &AtomTable, program: Program) -> Result<Program, AllocError>
    requires { IsSound program }
    ensures { IfOk result (λ left. left ≡ left_by facts.now program) }
{
    let Program {
        rules,
        minimize,
        outputs,
        externals,
        assumptions,
    } = program;
    let rest = Rest {
        minimize,
        assumptions,
    };
    let parts = left_parts(alloc, facts, rules, externals)?;
    let outputs = settled_outputs(alloc, facts, outputs)?;
    let Parts { rules, externals } = parts;
    let Rest {
        minimize,
        assumptions,
    } = rest;
    Ok(Program {
        rules,
        minimize,
        outputs,
        externals,
        assumptions,
    })
}

/// Divides a program into its facts and what is left, whose answers are those of the program without the facts.
pub fn settle(alloc: Global, program: Program) -> Result<Settled, AllocError>
    requires { IsSound program }
    ensures facts { IfOk result (λ settled. settled.facts ≡ facts_of program) }
    ensures left { IfOk result (λ settled. settled.left ≡ left_of program) }
{
    let program = constrained(alloc, program)?;
    let facts = fact_table(alloc, &program)?;
    let left = leave(alloc, &facts, program)?;
    let facts = facts.to_set(alloc)?;
    Ok(Settled { facts, left })
}

/// The set with the facts in it.
pub fn unite(alloc: Global, facts: &Interp, set: &Interp) -> Result<Interp, AllocError>
    ensures { IfOk result (λ whole. whole ≡ united facts.now set.now) }
{
    let mut atoms = Vec::from_slice(alloc, set.as_slice())?;
    atoms.extend_from_slice(facts.as_slice())?;
    Ok(Interp::from_atoms(atoms))
}
