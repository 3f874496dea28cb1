//! What few rules have: the atoms of choices, and weights. All else of a rule is in its mark and its literals.
ghost use Rattle.std.specs.Prelude.{◌≡◌, IfOk};
ghost use Rattle.asp_model.specs.declared.program.Body.TheVariants as body;
ghost use Rattle.asp_model.specs.Views.{head_seen, rule_seen, literals_seen};
ghost use Rattle.asp_model.specs.Stored.{head_of, mark_of, rule_of, weighted_rule, IsHeadStored, IsStored, IsWeightedStored, Keeps};

use crate::program::Atom;
use crate::view::{BodyView, HeadView, RuleView};
use asp_table::narrow::narrow;
use asp_table::table::Table;
use std::alloc::{AllocError, Global};

/// A head. A choice's atoms stand in a row of their own.
#[derive(Clone, Copy)]
pub enum HeadMark {
    /// The atom.
    One(Atom),
    /// The row of the atoms.
    Choice(u32),
    /// Nothing.
    Never,
}

/// The head of a rule over literals, or where a rule over weights stands.
#[derive(Clone, Copy)]
pub enum Mark {
    /// The atom.
    One(Atom),
    /// The row of the atoms.
    Choice(u32),
    /// Nothing.
    Never,
    /// The place among the rules over weights.
    Weighted(u32),
}

/// A rule over weights.
#[derive(Clone, Copy)]
pub struct Weighted {
    /// What is derived.
    pub head: HeadMark,
    /// What the weights have to reach.
    pub bound: i32,
    /// The row of the literals with their weights.
    pub row: u32,
}

/// Rows to which marks point. There may be some to which none does.
#[derive(Drop)]
pub struct Extras {
    /// The atoms of choices.
    pub choices: Table<Atom>,
    /// The rules over weights.
    pub weighted: Vec<Weighted>,
    /// Literals with their weights.
    pub items: Table<(i32, i32)>,
}

// The mark of a rule over literals.
fn mark_of(head: HeadMark) -> Mark
    ensures { result ≡ mark_of head }
{
    match head {
        HeadMark::One(atom) => Mark::One(atom),
        HeadMark::Choice(row) => Mark::Choice(row),
        HeadMark::Never => Mark::Never,
    }
}

/// The literals of a body that has no weights.
pub fn literals_of(body: BodyView<'_>) -> &[i32]
    ensures { result.now ≡ literals_seen body.entry }
{
    match body {
        BodyView::All(literals) => literals,
        BodyView::AtLeast(_, _) => &[],
    }
}

// The head of a mark.
fn head_at(extras: &Extras, mark: HeadMark) -> HeadView<'_>
    requires { IsHeadStored extras.now mark }
    ensures { head_seen result ≡ head_of extras.now mark }
{
    match mark {
        HeadMark::One(atom) => HeadView::One(atom),
        HeadMark::Choice(row) => HeadView::Choice(extras.choices.row(row as usize)),
        HeadMark::Never => HeadView::Never,
    }
}

// A rule over weights.
fn weighted_at(extras: &Extras, place: u32) -> RuleView<'_>
    requires { IsStored extras.now (Mark.Weighted place) }
    ensures { rule_seen result ≡ weighted_rule extras.now place }
{
    let Weighted { head, bound, row } = extras.weighted[place as usize];
    RuleView {
        head: head_at(extras, head),
        body: BodyView::AtLeast(bound, extras.items.row(row as usize)),
    }
}

/// The rule of a mark, over these literals unless it is one over weights.
pub fn rule_at<'a>(extras: &'a Extras, mark: Mark, literals: &'a [i32]) -> RuleView<'a>
    requires { IsStored extras.now mark }
    ensures { rule_seen result ≡ rule_of extras.now mark literals.now }
{
    let body = BodyView::All(literals);
    match mark {
        Mark::One(atom) => RuleView {
            head: HeadView::One(atom),
            body,
        },
        Mark::Choice(row) => RuleView {
            head: HeadView::Choice(extras.choices.row(row as usize)),
            body,
        },
        Mark::Never => RuleView {
            head: HeadView::Never,
            body,
        },
        Mark::Weighted(place) => weighted_at(extras, place),
    }
}

// Stores a head's atoms, if it has many, and gives its mark.
fn store_head(extras: &mut Extras, head: HeadView<'_>) -> Result<HeadMark, AllocError>
    ensures kept { Keeps extras.old extras.new }
    ensures stored { IfOk result (IsHeadStored extras.new) }
    ensures head { IfOk result (λ mark. head_of extras.new mark ≡ head_seen head.entry) }
{
    match head {
        HeadView::One(atom) => Ok(HeadMark::One(atom)),
        HeadView::Choice(atoms) => {
            let row = narrow(extras.choices.len())?;
            extras.choices.push_row(atoms)?;
            Ok(HeadMark::Choice(row))
        }
        HeadView::Never => Ok(HeadMark::Never),
    }
}

// Stores a rule over weights.
fn store_weighted(
    extras: &mut Extras,
    head: HeadMark,
    bound: i32,
    items: &[(i32, i32)],
) -> Result<u32, AllocError>
    requires { IsHeadStored extras.old head }
    ensures kept { Keeps extras.old extras.new }
    ensures stored { IfOk result (IsWeightedStored extras.new) }
    ensures rule { IfOk result (λ k. weighted_rule extras.new k ≡ record { head = head_of extras.old head; body = body.AtLeast bound items.now }) }
{
    let row = narrow(extras.items.len())?;
    let place = narrow(extras.weighted.len())?;
    extras.items.push_row(items)?;
    extras.weighted.push(Weighted { head, bound, row })?;
    Ok(place)
}

/// Stores what the mark and the literals of a rule don't say, and gives its mark.
pub fn store(extras: &mut Extras, rule: RuleView<'_>) -> Result<Mark, AllocError>
    ensures kept { Keeps extras.old extras.new }
    ensures stored { IfOk result (IsStored extras.new) }
    ensures rule { IfOk result (λ mark. rule_of extras.new mark (literals_seen rule.entry.body) ≡ rule_seen rule.entry) }
{
    let head = store_head(extras, rule.head)?;
    match rule.body {
        BodyView::All(_) => Ok(mark_of(head)),
        BodyView::AtLeast(bound, items) => {
            let place = store_weighted(extras, head, bound, items)?;
            Ok(Mark::Weighted(place))
        }
    }
}

impl Extras {
    /// No rows.
    pub fn new(alloc: Global) -> Result<Extras, AllocError> {
        let choices = Table::new(alloc)?;
        let items = Table::new(alloc)?;
        Ok(Extras {
            choices,
            weighted: Vec::new(alloc),
            items,
        })
    }
}
