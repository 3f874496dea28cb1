//! Rules, heads and bodies as they are read: by their slices, wherever these stand.
ghost use Rattle.std.specs.Prelude.{◌≡◌, IfOk};
ghost use Rattle.asp_model.specs.Views.{head_seen, body_seen, rule_seen};

use crate::program::{Atom, Body, Head, Rule};
use crate::seq::Seq;
use std::alloc::{AllocError, Global};

/// What a rule derives.
#[derive(Clone, Copy)]
pub enum HeadView<'a> {
    /// The atom.
    One(Atom),
    /// Any of the atoms, or none.
    Choice(&'a [Atom]),
    /// Nothing: the body must not hold.
    Never,
}

/// When a rule applies.
#[derive(Clone, Copy)]
pub enum BodyView<'a> {
    /// Where all of the literals hold.
    All(&'a [i32]),
    /// Where the weights of the literals that hold sum to the bound or more.
    AtLeast(i32, &'a [(i32, i32)]),
}

/// The head is derived where the body holds.
#[derive(Clone, Copy)]
pub struct RuleView<'a> {
    /// What is derived or may be chosen.
    pub head: HeadView<'a>,
    /// What has to hold for that.
    pub body: BodyView<'a>,
}

impl Head {
    /// The head as it is read.
    pub fn view(&self) -> HeadView<'_>
        ensures { head_seen result ≡ self.now }
    {
        match self {
            Head::One(atom) => HeadView::One(*atom),
            Head::Choice(atoms) => HeadView::Choice(atoms.as_slice()),
            Head::Never => HeadView::Never,
        }
    }
}

impl Body {
    /// The body as it is read.
    pub fn view(&self) -> BodyView<'_>
        ensures { body_seen result ≡ self.now }
    {
        match self {
            Body::All(literals) => BodyView::All(literals.as_slice()),
            Body::AtLeast(bound, items) => BodyView::AtLeast(*bound, items.as_slice()),
        }
    }
}

impl Rule {
    /// The rule as it is read.
    pub fn view(&self) -> RuleView<'_>
        ensures { rule_seen result ≡ self.now }
    {
        RuleView {
            head: self.head.view(),
            body: self.body.view(),
        }
    }
}

impl HeadView<'_> {
    /// A head of these atoms.
    pub fn copy(self, alloc: Global) -> Result<Head, AllocError>
        ensures { IfOk result (λ head. head ≡ head_seen self.entry) }
    {
        match self {
            HeadView::One(atom) => Ok(Head::One(atom)),
            HeadView::Choice(atoms) => {
                let atoms = Vec::from_slice(alloc, atoms)?;
                Ok(Head::Choice(Seq::from_vec(atoms)))
            }
            HeadView::Never => Ok(Head::Never),
        }
    }
}

impl BodyView<'_> {
    /// A body of these literals and weights.
    pub fn copy(self, alloc: Global) -> Result<Body, AllocError>
        ensures { IfOk result (λ body. body ≡ body_seen self.entry) }
    {
        match self {
            BodyView::All(literals) => {
                let literals = Vec::from_slice(alloc, literals)?;
                Ok(Body::All(Seq::from_vec(literals)))
            }
            BodyView::AtLeast(bound, items) => {
                let items = Vec::from_slice(alloc, items)?;
                Ok(Body::AtLeast(bound, Seq::from_vec(items)))
            }
        }
    }
}

impl RuleView<'_> {
    /// A rule of this head and body.
    pub fn copy(self, alloc: Global) -> Result<Rule, AllocError>
        ensures { IfOk result (λ rule. rule ≡ rule_seen self.entry) }
    {
        let head = self.head.copy(alloc)?;
        let body = self.body.copy(alloc)?;
        Ok(Rule { head, body })
    }
}
