//! Rules for atoms that are assumed false, as constraints.
ghost use Rattle.std.specs.Prelude.{◌≡◌, ◌∷◌, [], ◌++◌, filter, map, not, IfOk, OnOk};
ghost use Rattle.std.specs.List.{list_any};
ghost use Rattle.asp_model.specs.Holding.{is_negative};
ghost use Rattle.asp_model.specs.Sound.{IsSound};
ghost use Rattle.asp_model.specs.Sets.{has};
ghost use Rattle.asp_model.specs.Views.{body_seen, rule_seen};
ghost use Rattle.asp_model.specs.declared.program.Head.TheVariants as head;
ghost use Rattle.asp_settle.specs.Constraints.{constrained, constrained_by, constrained_rule, is_barred};

use crate::bodies::is_barred;
use crate::denied::denied_table;
use crate::rules::other_atoms;
use crate::table::AtomTable;
use asp_model::outputs::Outputs;
use asp_model::program::{Atom, External, Minimize, Program};
use asp_model::rules::Rules;
use asp_model::seq::Seq;
use asp_model::view::{BodyView, HeadView, RuleView};
use std::alloc::{AllocError, Global};

// Adds a rule of a choice without the denied atoms to others.
fn push_choice(
    alloc: Global,
    left: &mut Rules,
    denied: &AtomTable,
    atoms: &[Atom],
    body: BodyView<'_>,
) -> Result<(), AllocError>
    ensures { OnOk result (left.new ≡ left.old ++ record { head = head.Choice (filter (λ a. not (has denied.now a)) atoms.now); body = body_seen body.entry } ∷ []) }
{
    let atoms = Seq::from_vec(Vec::from_slice(alloc, atoms)?);
    let atoms = other_atoms(denied, atoms);
    left.push(RuleView {
        head: HeadView::Choice(atoms.as_slice()),
        body,
    })
}

// Adds a rule to others: as a constraint where its head is denied, and in a choice without the atoms that are.
fn push_constrained(
    alloc: Global,
    left: &mut Rules,
    denied: &AtomTable,
    rule: RuleView<'_>,
) -> Result<(), AllocError>
    ensures { OnOk result (left.new ≡ left.old ++ constrained_rule denied.now (rule_seen rule.entry) ∷ []) }
{
    let RuleView { head, body } = rule;
    match head {
        HeadView::One(atom) if denied.has(atom) => left.push(RuleView {
            head: HeadView::Never,
            body,
        }),
        HeadView::Choice(atoms) => push_choice(alloc, left, denied, atoms, body),
        _ => left.push(RuleView { head, body }),
    }
}

fn constrained_rules(alloc: Global, denied: &AtomTable, rules: &Rules) -> Result<Rules, AllocError>
    ensures { IfOk result (λ left. left ≡ map (constrained_rule denied.now) rules.now) }
{
    let mut left = Rules::new(alloc)?;
    for i in 0..rules.len() {
        push_constrained(alloc, &mut left, denied, rules.rule(i))?;
    }
    Ok(left)
}

fn other_assumptions(denied: &AtomTable, assumptions: Seq<i32>) -> Seq<i32>
    ensures { result ≡ filter (λ l. not (is_barred denied.now l)) assumptions }
{
    let mut assumptions = assumptions.into_vec();
    assumptions.retain(|literal| !is_barred(denied, *literal));
    Seq::from_vec(assumptions)
}

// What stays as it is.
#[derive(Drop)]
struct Kept {
    /// What answers cost.
    minimize: Seq<Minimize>,
    /// The texts of answers.
    outputs: Outputs,
    /// Atoms that other programs may define.
    externals: Seq<External>,
}

// The program with constraints in place of rules for denied atoms.
fn constrain(alloc: Global, denied: &AtomTable, program: Program) -> Result<Program, AllocError>
    ensures { IfOk result (λ left. left ≡ constrained_by denied.now program) }
{
    let Program {
        rules,
        minimize,
        outputs,
        externals,
        assumptions,
    } = program;
    let kept = Kept {
        minimize,
        outputs,
        externals,
    };
    let assumptions = other_assumptions(denied, assumptions);
    let rules = constrained_rules(alloc, denied, &rules)?;
    let Kept {
        minimize,
        outputs,
        externals,
    } = kept;
    Ok(Program {
        rules,
        minimize,
        outputs,
        externals,
        assumptions,
    })
}

fn is_some_denied(assumptions: &[i32]) -> bool
    ensures { result ≡ list_any is_negative assumptions.now }
{
    assumptions.iter().any(|literal| *literal < 0)
}

/// The program with constraints in place of rules for atoms that are assumed false: it itself where no atom is.
pub(crate) fn constrained(alloc: Global, program: Program) -> Result<Program, AllocError>
    requires { IsSound program }
    ensures { IfOk result (λ left. left ≡ constrained program) }
{
    if !is_some_denied(program.assumptions.as_slice()) {
        return Ok(program);
    }
    let denied = denied_table(alloc, &program)?;
    constrain(alloc, &denied, program)
}
