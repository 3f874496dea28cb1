//! The definitions of atoms as a table.
ghost use Rattle.std.specs.Prelude.{◌≡◌, ◌<◌, ℕ, [], length, slice_set, if◌then◌else◌, IfOk};
ghost use Rattle.asp_model.specs.Models.{head_atoms};
ghost use Rattle.asp_model.specs.Sets.{has};
ghost use Rattle.asp_model.specs.Views.{body_seen, rule_seen};
ghost use Rattle.asp_model.specs.declared.program.Head.TheVariants as head;
ghost use Rattle.asp_unfold.specs.Tables.{AreDefinitions, definition_at, noted, table_literal};
ghost use Rattle.asp_unfold.specs.Unfolded.{sole_literal};
ghost use Rattle.asp_unfold.specs.declared.table.Definition.TheVariants.{Other};

use asp_model::program::Atom;
use asp_model::rules::Rules;
use asp_model::view::{BodyView, HeadView, RuleView};
use std::alloc::{AllocError, Global};

/// What the rules that were looked at say of an atom.
#[derive(Clone, Copy)]
pub enum Definition {
    /// None derives it.
    Missing,
    /// One does, whose body is this literal.
    By(i32),
    /// Another one does, or several do.
    Other,
}

// The one literal of the body, if it is one.
fn sole_literal(body: BodyView<'_>) -> Option<i32>
    ensures { result ≡ sole_literal (body_seen body.entry) }
{
    match body {
        BodyView::All([literal]) => Some(*literal),
        _ => None,
    }
}

// Notes a rule with this one atom as its head.
fn note_one(table: &mut [Definition], atom: Atom, body: BodyView<'_>)
    ensures { table.new ≡ slice_set table.old atom (noted (definition_at table.old atom) (record { head = head.One atom; body = body_seen body.entry })) }
{
    let place = atom as usize;
    if place < table.len() {
        table[place] = match (table[place], sole_literal(body)) {
            (Definition::Missing, Some(literal)) => Definition::By(literal),
            _ => Definition::Other,
        };
    }
}

// Notes that a choice may derive the atoms.
fn note_choice(table: &mut [Definition], atoms: &[Atom])
    ensures len { length table.new ≡ length table.old }
    ensures each { (a : ℕ) → definition_at table.new a ≡ (if has atoms.now a then Other else definition_at table.old a) }
{
    for atom in atoms {
        let place = *atom as usize;
        if place < table.len() {
            table[place] = Definition::Other;
        }
    }
}

fn note(table: &mut [Definition], rule: RuleView<'_>)
    ensures len { length table.new ≡ length table.old }
    ensures each { (a : ℕ) → a < length table.old → definition_at table.new a ≡ (if has (head_atoms (rule_seen rule.entry).head) a then noted (definition_at table.old a) (rule_seen rule.entry) else definition_at table.old a) }
{
    match rule.head {
        HeadView::One(atom) => note_one(table, atom, rule.body),
        HeadView::Choice(atoms) => note_choice(table, atoms),
        HeadView::Never => {}
    }
}

fn note_rules(table: &mut [Definition], rules: &Rules)
    requires { AreDefinitions [] table.old }
    ensures len { length table.new ≡ length table.old }
    ensures each { AreDefinitions rules.now table.new }
{
    for i in 0..rules.len() {
        note(table, rules.rule(i));
    }
}

/// The definitions of the atoms below a number.
pub(crate) fn definitions(
    alloc: Global,
    rules: &Rules,
    above: usize,
) -> Result<Vec<Definition>, AllocError>
    ensures len { IfOk result (λ table. length table.items ≡ above) }
    ensures each { IfOk result (λ table. AreDefinitions rules.now table.items) }
{
    let mut table = vec![in alloc; Definition::Missing; above]?;
    note_rules(table.as_mut_slice(), rules);
    Ok(table)
}

/// The literal that the table says in place of another.
pub(crate) fn table_literal(table: &[Definition], literal: i32) -> i32
    ensures { result ≡ table_literal table.now literal }
{
    let atom = literal.unsigned_abs();
    let place = atom as usize;
    if place >= table.len() {
        return literal;
    }
    match table[place] {
        Definition::By(other) if other.unsigned_abs() < atom => {
            if literal < 0 { -other } else { other }
        }
        _ => literal,
    }
}
