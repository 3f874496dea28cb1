//! The facts of a program, as a table.
ghost use Rattle.std.specs.Prelude.{◌≡◌, ◌<◌, ◌≤◌, ℕ, true, false, flat_map, map, IfOk, IsTrue};
ghost use Rattle.std.specs.Option.{option_to_list};
ghost use Rattle.asp_model.specs.Holding.{atom_of};
ghost use Rattle.asp_model.specs.Sets.{has};
ghost use Rattle.asp_model.specs.Sound.{IsSound};
ghost use Rattle.asp_model.specs.Views.{rule_seen};
ghost use Rattle.asp_settle.specs.Settled.{fact_of, facts_in, needed};
ghost use Rattle.asp_settle.specs.Tables.{with_flags};

use crate::table::{AtomTable, no_flags, places, set_flag};
use asp_model::program::{Atom, Minimize, Program};
use asp_model::rules::Rules;
use asp_model::view::{BodyView, HeadView, RuleView};
use std::alloc::{AllocError, Global};

// The atom that the rule makes a fact, if it does.
fn fact_of(rule: RuleView<'_>) -> Option<Atom>
    ensures { option_to_list result ≡ fact_of (rule_seen rule.entry) }
{
    match (rule.head, rule.body) {
        (HeadView::One(atom), BodyView::All(literals)) if literals.is_empty() => Some(atom),
        _ => None,
    }
}

// The least number above all facts of the rules.
fn above(rules: &Rules) -> usize
    ensures above { (a : ℕ) → IsTrue (has (flat_map fact_of rules.now) a) → a < result }
    ensures most { result ≤ 4294967296 }
{
    let mut above = 0usize;
    for i in 0..rules.len() {
        if let Some(atom) = fact_of(rules.rule(i)) {
            above = above.max(atom as usize + 1);
        }
    }
    above
}

fn raise_fact(flags: &mut [bool], rule: RuleView<'_>)
    ensures { flags.new ≡ with_flags true flags.old (fact_of (rule_seen rule.entry)) }
{
    if let Some(atom) = fact_of(rule) {
        set_flag(flags, atom, true);
    }
}

fn raise_facts(flags: &mut [bool], rules: &Rules)
    ensures { flags.new ≡ with_flags true flags.old (flat_map fact_of rules.now) }
{
    for i in 0..rules.len() {
        raise_fact(flags, rules.rule(i));
    }
}

fn lower_items(flags: &mut [bool], items: &[(i32, i32)])
    ensures { flags.new ≡ with_flags false flags.old (map (λ item. atom_of item.0) items.now) }
{
    for (literal, _) in items {
        set_flag(flags, literal.unsigned_abs(), false);
    }
}

fn lower_minimized(flags: &mut [bool], statements: &[Minimize])
    ensures { flags.new ≡ with_flags false flags.old (flat_map (λ m. map (λ item. atom_of item.0) m.items) statements.now) }
{
    for statement in statements {
        lower_items(flags, statement.items.as_slice());
    }
}

fn lower_literals(flags: &mut [bool], literals: &[i32])
    ensures { flags.new ≡ with_flags false flags.old (map atom_of literals.now) }
{
    for literal in literals {
        set_flag(flags, literal.unsigned_abs(), false);
    }
}

fn lower_needed(flags: &mut [bool], program: &Program)
    ensures { flags.new ≡ with_flags false flags.old (needed program.now) }
{
    lower_minimized(flags, program.minimize.as_slice());
    lower_literals(flags, program.assumptions.as_slice());
}

// Raises the flags of the facts that nothing else needs.
fn mark(flags: &mut [bool], program: &Program)
    ensures { flags.new ≡ with_flags false (with_flags true flags.old (flat_map fact_of program.now.rules)) (needed program.now) }
{
    raise_facts(flags, &program.rules);
    lower_needed(flags, program);
}

/// The facts of the program.
pub(crate) fn fact_table(alloc: Global, program: &Program) -> Result<AtomTable, AllocError>
    requires { IsSound program.now }
    ensures { IfOk result (λ table. table ≡ facts_in program.now) }
{
    let rules = &program.rules;
    let mut flags = no_flags(alloc, places(above(rules), rules.len()))?;
    mark(flags.as_mut_slice(), program);
    Ok(AtomTable::from_flags(flags))
}
