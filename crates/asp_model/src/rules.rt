//! The rules of a program in flat arrays.
ghost use Rattle.std.specs.Prelude.{◌≡◌, ◌<◌, [], ◌∷◌, ◌++◌, IfOk, OnOk, OnErr, length, slice_index_or};
ghost use Rattle.asp_model.specs.Views.{rule_seen};

use crate::extras::{Extras, Mark, literals_of, rule_at, store};
use crate::program::Rule;
use crate::view::RuleView;
use asp_table::table::Table;
use std::alloc::{AllocError, Global};
use std::marker::Model;

/// Rules one after another: a fact takes 12 bytes, and each literal of a body 4. Contracts see the list of the rules.
#[derive(Drop)]
pub struct Rules {
    /// By the rule.
    marks: Vec<Mark>,
    /// By the rule the literals of its body; none of a body that has weights.
    literals: Table<i32>,
    /// What marks point to.
    extras: Extras,
}

impl Model for Rules {
    ghost use Rattle.std.specs.Prelude.{List};
    ghost use Rattle.asp_model.specs.declared.program.Rule.{Rule};
    ghost use Rattle.asp_model.specs.Stored.{rules_of, AreStored};

    ghost Value = { List Rule };

    ghost view = { λ r. rules_of r.extras r.marks.items r.literals };

    ghost invariant = { λ r. AreStored r.extras r.marks.items r.literals };
}

impl Rules {
    /// No rules.
    pub fn new(alloc: Global) -> Result<Rules, AllocError>
        ensures { IfOk result (λ rules. rules ≡ []) }
    {
        let literals = Table::new(alloc)?;
        let extras = Extras::new(alloc)?;
        Ok(Rules {
            marks: Vec::new(alloc),
            literals,
            extras,
        })
    }

    /// How many rules there are.
    pub fn len(&self) -> usize
        ensures { result ≡ length self.now }
    {
        self.marks.len()
    }

    /// A rule, counted from 0.
    pub fn rule(&self, rule: usize) -> RuleView<'_>
        requires { rule < length self.now }
        ensures { rule_seen result ≡ slice_index_or self.now rule (rule_seen result) }
    {
        let mark = self.marks[rule];
        rule_at(&self.extras, mark, self.literals.row(rule))
    }

    /// One more rule. Want of memory leaves all as it was, as do 4294967296 literals or more together.
    pub fn push(&mut self, rule: RuleView<'_>) -> Result<(), AllocError>
        ensures ok { OnOk result (self.new ≡ self.old ++ rule_seen rule.entry ∷ []) }
        ensures err { OnErr result (self.new ≡ self.old) }
    {
        self.marks.reserve(1)?;
        let mark = store(&mut self.extras, rule)?;
        self.literals.push_row(literals_of(rule.body))?;
        self.marks.push_reserved(mark);
        Ok(())
    }

    /// These rules.
    pub fn from_slice(alloc: Global, rules: &[Rule]) -> Result<Rules, AllocError>
        ensures { IfOk result (λ same. same ≡ rules.now) }
    {
        let mut same = Rules::new(alloc)?;
        for rule in rules {
            same.push(rule.view())?;
        }
        Ok(same)
    }
}
