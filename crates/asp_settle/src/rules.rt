//! What is left of rules, outputs and externals.
ghost use Rattle.std.specs.Prelude.{◌≡◌, ◌∷◌, [], ◌++◌, All, filter, flat_map, not, true, IfOk, OnOk};
ghost use Rattle.std.specs.List.{list_all};
ghost use Rattle.std.specs.Option.{option_to_list};
ghost use Rattle.asp_model.specs.Views.{head_seen, output_seen, rule_seen};
ghost use Rattle.asp_model.specs.Sets.{has};
ghost use Rattle.asp_model.specs.Sound.{HasBody, HasFewItems};
ghost use Rattle.asp_settle.specs.Settled.{heads_of, settled_head, settled_output, settled_rule};

use crate::bodies::{body_stays, literals_stay, settled_body, settled_literals};
use crate::table::AtomTable;
use asp_model::in_force::head_set;
use asp_model::interp::Interp;
use asp_model::outputs::{OutputView, Outputs};
use asp_model::program::{Atom, External, Head, Rule};
use asp_model::rules::Rules;
use asp_model::seq::Seq;
use asp_model::view::{HeadView, RuleView};
use std::alloc::{AllocError, Global};

/// The atoms that aren't in the table.
pub(crate) fn other_atoms(table: &AtomTable, atoms: Seq<Atom>) -> Seq<Atom>
    ensures { result ≡ filter (λ a. not (has table.now a)) atoms }
{
    let mut atoms = atoms.into_vec();
    atoms.retain(|atom| !table.has(*atom));
    Seq::from_vec(atoms)
}

// What is left of the head; none where it is a fact.
fn settled_head(facts: &AtomTable, head: Head) -> Option<Head>
    ensures { option_to_list result ≡ settled_head facts.now head }
{
    match head {
        Head::One(atom) => {
            if facts.has(atom) {
                return None;
            }
            Some(Head::One(atom))
        }
        Head::Choice(atoms) => Some(Head::Choice(other_atoms(facts, atoms))),
        Head::Never => Some(Head::Never),
    }
}

// What is left of the rule; none where its head is a fact, or its body can't hold.
fn settled_rule(facts: &AtomTable, rule: Rule) -> Option<Rule>
    requires body { HasBody rule }
    requires few { HasFewItems rule }
    ensures { option_to_list result ≡ settled_rule facts.now rule }
{
    let Rule { head, body } = rule;
    match settled_head(facts, head) {
        Some(head) => match settled_body(facts, body) {
            Some(body) => Some(Rule { head, body }),
            None => None,
        },
        None => None,
    }
}

fn atoms_stay(facts: &AtomTable, atoms: &[Atom]) -> bool
    ensures { result ≡ list_all (λ a. not (has facts.now a)) atoms.now }
{
    atoms.iter().all(|atom| !facts.has(*atom))
}

// Whether the head is seen to stay as it is.
fn head_stays(facts: &AtomTable, head: HeadView<'_>) -> bool
    ensures { result ≡ true → settled_head facts.now (head_seen head.entry) ≡ head_seen head.entry ∷ [] }
{
    match head {
        HeadView::One(atom) => !facts.has(atom),
        HeadView::Choice(atoms) => atoms_stay(facts, atoms),
        HeadView::Never => true,
    }
}

// Whether the rule is seen to stay as it is.
fn rule_stays(facts: &AtomTable, rule: RuleView<'_>) -> bool
    ensures { result ≡ true → settled_rule facts.now (rule_seen rule.entry) ≡ rule_seen rule.entry ∷ [] }
{
    head_stays(facts, rule.head) && body_stays(facts, rule.body)
}

fn rules_stay(facts: &AtomTable, rules: &Rules) -> bool
    ensures { result ≡ true → flat_map (settled_rule facts.now) rules.now ≡ rules.now }
{
    for i in 0..rules.len() {
        if !rule_stays(facts, rules.rule(i)) {
            return false;
        }
    }
    true
}

// Adds what is left of a rule to others.
fn push_rule(
    alloc: Global,
    left: &mut Rules,
    facts: &AtomTable,
    rule: RuleView<'_>,
) -> Result<(), AllocError>
    requires body { HasBody (rule_seen rule) }
    requires few { HasFewItems (rule_seen rule) }
    ensures { OnOk result (left.new ≡ left.old ++ settled_rule facts.now (rule_seen rule.entry)) }
{
    if rule_stays(facts, rule) {
        return left.push(rule);
    }
    if let Some(rule) = settled_rule(facts, rule.copy(alloc)?) {
        left.push(rule.view())?;
    }
    Ok(())
}

fn left_rules(alloc: Global, facts: &AtomTable, rules: &Rules) -> Result<Rules, AllocError>
    requires bodies { All HasBody rules.now }
    requires few { All HasFewItems rules.now }
    ensures { IfOk result (λ left. left ≡ flat_map (settled_rule facts.now) rules.now) }
{
    let mut left = Rules::new(alloc)?;
    for i in 0..rules.len() {
        push_rule(alloc, &mut left, facts, rules.rule(i))?;
    }
    Ok(left)
}

/// What is left of the rules: these themselves where each stays.
pub(crate) fn settled_rules(
    alloc: Global,
    facts: &AtomTable,
    rules: Rules,
) -> Result<Rules, AllocError>
    requires bodies { All HasBody rules }
    requires few { All HasFewItems rules }
    ensures { IfOk result (λ left. left ≡ flat_map (settled_rule facts.now) rules) }
{
    if rules_stay(facts, &rules) {
        return Ok(rules);
    }
    left_rules(alloc, facts, &rules)
}

// Whether the output is seen to stay as it is.
fn output_stays(facts: &AtomTable, output: OutputView<'_>) -> bool
    ensures { result ≡ true → settled_output facts.now (output_seen output.entry) ≡ output_seen output.entry ∷ [] }
{
    literals_stay(facts, output.condition)
}

fn outputs_stay(facts: &AtomTable, outputs: &Outputs) -> bool
    ensures { result ≡ true → flat_map (settled_output facts.now) outputs.now ≡ outputs.now }
{
    for i in 0..outputs.len() {
        if !output_stays(facts, outputs.output(i)) {
            return false;
        }
    }
    true
}

// Adds what is left of an output to others.
fn push_output(
    alloc: Global,
    left: &mut Outputs,
    facts: &AtomTable,
    output: OutputView<'_>,
) -> Result<(), AllocError>
    ensures { OnOk result (left.new ≡ left.old ++ settled_output facts.now (output_seen output.entry)) }
{
    if output_stays(facts, output) {
        return left.push(output);
    }
    let literals = Seq::from_vec(Vec::from_slice(alloc, output.condition)?);
    if let Some(condition) = settled_literals(facts, literals) {
        left.push(OutputView {
            text: output.text,
            condition: condition.as_slice(),
        })?;
    }
    Ok(())
}

fn left_outputs(alloc: Global, facts: &AtomTable, outputs: &Outputs) -> Result<Outputs, AllocError>
    ensures { IfOk result (λ left. left ≡ flat_map (settled_output facts.now) outputs.now) }
{
    let mut left = Outputs::new(alloc)?;
    for i in 0..outputs.len() {
        push_output(alloc, &mut left, facts, outputs.output(i))?;
    }
    Ok(left)
}

/// What is left of the outputs: these themselves where each stays.
pub(crate) fn settled_outputs(
    alloc: Global,
    facts: &AtomTable,
    outputs: Outputs,
) -> Result<Outputs, AllocError>
    ensures { IfOk result (λ left. left ≡ flat_map (settled_output facts.now) outputs) }
{
    if outputs_stay(facts, &outputs) {
        return Ok(outputs);
    }
    left_outputs(alloc, facts, &outputs)
}

fn without_heads(mut externals: Vec<External>, heads: &Interp) -> Vec<External>
    ensures { result.items ≡ filter (λ e. not (has heads.now e.atom)) externals.items }
{
    externals.retain(|external| !heads.has(external.atom));
    externals
}

/// The externals on atoms that no rule's head has.
pub(crate) fn open_externals(
    alloc: Global,
    rules: &Rules,
    externals: Seq<External>,
) -> Result<Seq<External>, AllocError>
    ensures { IfOk result (λ kept. kept ≡ filter (λ e. not (has (heads_of rules.now) e.atom)) externals) }
{
    if externals.as_slice().is_empty() {
        return Ok(externals);
    }
    let heads = head_set(alloc, rules)?;
    let open = without_heads(externals.into_vec(), &heads);
    Ok(Seq::from_vec(open))
}
