//! Literals, rules and statements in which each atom is the one by which it goes.
ghost use Rattle.std.specs.Prelude.{◌≡◌, ◌∷◌, [], ◌++◌, ◌==◌, flat_map, map, IfOk, OnOk};
ghost use Rattle.asp_model.specs.Views.{body_seen, head_seen, output_seen, rule_seen};
ghost use Rattle.asp_equal.specs.Merged.{is_copying, is_same, merged_rule, renamed, renamed_body, renamed_head, renamed_item, renamed_minimize, renamed_output, renamed_rule};
ghost use Rattle.asp_equal.specs.Tables.{sent};

use crate::copies::SameTable;
use asp_model::outputs::{OutputView, Outputs};
use asp_model::program::{Atom, Body, Head, Minimize, Rule};
use asp_model::rules::Rules;
use asp_model::seq::Seq;
use asp_model::view::{BodyView, HeadView, RuleView};
use std::alloc::{AllocError, Global};

fn renamed(table: &SameTable, literal: i32) -> i32
    ensures { result ≡ renamed (sent table.now) literal }
{
    let atom = i64::from(table.of(literal.unsigned_abs()));
    if literal >= 0 {
        atom as i32
    } else {
        (-atom) as i32
    }
}

/// The literals, renamed.
pub(crate) fn renamed_literals(
    alloc: Global,
    table: &SameTable,
    literals: &[i32],
) -> Result<Seq<i32>, AllocError>
    ensures { IfOk result (λ others. others ≡ map (renamed (sent table.now)) literals.now) }
{
    let mut others = Vec::with_capacity(alloc, literals.len())?;
    for literal in literals {
        others.push(renamed(table, *literal))?;
    }
    Ok(Seq::from_vec(others))
}

fn renamed_item(table: &SameTable, item: (i32, i32)) -> (i32, i32)
    ensures { result ≡ renamed_item (sent table.now) item }
{
    let (literal, weight) = item;
    (renamed(table, literal), weight)
}

fn renamed_items(
    alloc: Global,
    table: &SameTable,
    items: &[(i32, i32)],
) -> Result<Seq<(i32, i32)>, AllocError>
    ensures { IfOk result (λ others. others ≡ map (renamed_item (sent table.now)) items.now) }
{
    let mut others = Vec::with_capacity(alloc, items.len())?;
    for item in items {
        others.push(renamed_item(table, *item))?;
    }
    Ok(Seq::from_vec(others))
}

fn renamed_atoms(alloc: Global, table: &SameTable, atoms: &[Atom]) -> Result<Seq<Atom>, AllocError>
    ensures { IfOk result (λ others. others ≡ map (sent table.now) atoms.now) }
{
    let mut others = Vec::with_capacity(alloc, atoms.len())?;
    for atom in atoms {
        others.push(table.of(*atom))?;
    }
    Ok(Seq::from_vec(others))
}

fn renamed_head(alloc: Global, table: &SameTable, head: HeadView<'_>) -> Result<Head, AllocError>
    ensures { IfOk result (λ other. other ≡ renamed_head (sent table.now) (head_seen head.entry)) }
{
    match head {
        HeadView::One(atom) => Ok(Head::One(table.of(atom))),
        HeadView::Choice(atoms) => Ok(Head::Choice(renamed_atoms(alloc, table, atoms)?)),
        HeadView::Never => Ok(Head::Never),
    }
}

fn renamed_body(alloc: Global, table: &SameTable, body: BodyView<'_>) -> Result<Body, AllocError>
    ensures { IfOk result (λ other. other ≡ renamed_body (sent table.now) (body_seen body.entry)) }
{
    match body {
        BodyView::All(literals) => Ok(Body::All(renamed_literals(alloc, table, literals)?)),
        BodyView::AtLeast(bound, items) => {
            Ok(Body::AtLeast(bound, renamed_items(alloc, table, items)?))
        }
    }
}

fn renamed_rule(alloc: Global, table: &SameTable, rule: RuleView<'_>) -> Result<Rule, AllocError>
    ensures { IfOk result (λ other. other ≡ renamed_rule (sent table.now) (rule_seen rule.entry)) }
{
    let head = renamed_head(alloc, table, rule.head)?;
    let body = renamed_body(alloc, table, rule.body)?;
    Ok(Rule { head, body })
}

// Whether the literal is another atom that becomes the same.
fn is_same(table: &SameTable, atom: Atom, literal: i32) -> bool
    ensures { result ≡ is_same (sent table.now) atom literal }
{
    let other = literal.unsigned_abs();
    literal >= 0 && other != atom && table.of(other) == table.of(atom)
}

// Whether the rule derives an atom from another one alone that becomes the same.
fn is_copying(table: &SameTable, rule: RuleView<'_>) -> bool
    ensures { let r = rule_seen rule.entry in result ≡ is_copying (sent table.now) r.head r.body }
{
    if let HeadView::One(atom) = rule.head {
        if let BodyView::All(literals) = rule.body {
            return literals.len() == 1 && is_same(table, atom, literals[0]);
        }
    }
    false
}

fn push_rule(
    alloc: Global,
    merged: &mut Rules,
    table: &SameTable,
    rule: RuleView<'_>,
) -> Result<(), AllocError>
    ensures { OnOk result (merged.new ≡ merged.old ++ merged_rule (sent table.now) (rule_seen rule.entry)) }
{
    if is_copying(table, rule) {
        return Ok(());
    }
    let rule = renamed_rule(alloc, table, rule)?;
    merged.push(rule.view())
}

/// The rules, renamed, without those that then say nothing.
pub(crate) fn merged_rules(
    alloc: Global,
    table: &SameTable,
    rules: Rules,
) -> Result<Rules, AllocError>
    ensures { IfOk result (λ merged. merged ≡ flat_map (merged_rule (sent table.now)) rules) }
{
    let mut merged = Rules::new(alloc)?;
    for i in 0..rules.len() {
        push_rule(alloc, &mut merged, table, rules.rule(i))?;
    }
    Ok(merged)
}

fn push_output(
    alloc: Global,
    others: &mut Outputs,
    table: &SameTable,
    output: OutputView<'_>,
) -> Result<(), AllocError>
    ensures { OnOk result (others.new ≡ others.old ++ renamed_output (sent table.now) (output_seen output.entry) ∷ []) }
{
    let condition = renamed_literals(alloc, table, output.condition)?;
    others.push(OutputView {
        text: output.text,
        condition: condition.as_slice(),
    })
}

/// The outputs, renamed.
pub(crate) fn renamed_outputs(
    alloc: Global,
    table: &SameTable,
    outputs: Outputs,
) -> Result<Outputs, AllocError>
    ensures { IfOk result (λ others. others ≡ map (renamed_output (sent table.now)) outputs) }
{
    let mut others = Outputs::new(alloc)?;
    for i in 0..outputs.len() {
        push_output(alloc, &mut others, table, outputs.output(i))?;
    }
    Ok(others)
}

fn renamed_minimize(
    alloc: Global,
    table: &SameTable,
    statement: &Minimize,
) -> Result<Minimize, AllocError>
    ensures { IfOk result (λ other. other ≡ renamed_minimize (sent table.now) statement.now) }
{
    let items = renamed_items(alloc, table, statement.items.as_slice())?;
    Ok(Minimize {
        priority: statement.priority,
        items,
    })
}

/// The minimize statements, renamed.
pub(crate) fn renamed_statements(
    alloc: Global,
    table: &SameTable,
    statements: Seq<Minimize>,
) -> Result<Seq<Minimize>, AllocError>
    ensures { IfOk result (λ others. others ≡ map (renamed_minimize (sent table.now)) statements) }
{
    let mut others = Vec::with_capacity(alloc, statements.as_slice().len())?;
    for statement in statements.as_slice() {
        others.push(renamed_minimize(alloc, table, statement)?)?;
    }
    Ok(Seq::from_vec(others))
}
