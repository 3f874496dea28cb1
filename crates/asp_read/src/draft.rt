//! The program so far.
ghost use Rattle.std.specs.Prelude.{◌≡◌, ◌+◌, ◌≤◌, ◌∷◌, [], ◌++◌, length, IfOk, OnOk, OnErr};
ghost use Rattle.asp_read.specs.Sizes.{empty_program, program_size, statement_size};
ghost use Rattle.asp_read.specs.Fields.{most_counted};
ghost use Rattle.asp_read.specs.Statements.{priorities, with_number};
ghost use Rattle.asp_read.specs.Adding.{adds};

use crate::sizes::size_of_rule;
use crate::statement::Statement;
use asp_model::outputs::Outputs;
use asp_model::program::{External, Minimize, Program};
use asp_model::rules::Rules;
use asp_model::seq::Seq;
use std::alloc::{AllocError, Global};
use std::marker::Model;
use std::mem;

/// A program that grows by statements, with its size and its priorities at hand.
#[derive(Drop)]
pub struct Draft {
    /// The rules read so far.
    rules: Rules,
    /// The minimize statements read so far.
    minimize: Vec<Minimize>,
    /// The output statements read so far.
    outputs: Outputs,
    /// The external statements read so far.
    externals: Vec<External>,
    /// The literals assumed so far.
    assumptions: Vec<i32>,
    /// The size of the statements read so far, which a program may not have beyond a limit.
    used: u32,
    /// The different priorities of the minimize statements, in the order in which they came.
    priorities: Vec<i32>,
}

impl Model for Draft {
    ghost use Rattle.asp_model.specs.declared.program.Program.{Program};

    ghost Value = { Program };

    ghost use Rattle.asp_read.specs.Kept.{IsKept};

    ghost view = { λ d. record { rules = d.rules; minimize = d.minimize.items; outputs = d.outputs; externals = d.externals.items; assumptions = d.assumptions.items } };

    ghost invariant = { λ d. IsKept (record { rules = d.rules; minimize = d.minimize.items; outputs = d.outputs; externals = d.externals.items; assumptions = d.assumptions.items }) d.used d.priorities.items };
}

impl Draft {
    /// The program without statements.
    pub fn new(alloc: Global) -> Result<Self, AllocError>
        ensures { IfOk result (λ d. d ≡ empty_program) }
    {
        let rules = Rules::new(alloc)?;
        let outputs = Outputs::new(alloc)?;
        Ok(Draft {
            rules,
            minimize: Vec::new(alloc),
            outputs,
            externals: Vec::new(alloc),
            assumptions: Vec::new(alloc),
            used: 0,
            priorities: Vec::new(alloc),
        })
    }

    /// The size of the program.
    pub fn used(&self) -> u32
        ensures is { result ≡ program_size self.now }
        ensures bound { result ≤ most_counted }
    {
        self.used
    }

    /// The different priorities.
    pub fn priorities(&self) -> &[i32]
        ensures { result.now ≡ priorities self.now }
    {
        self.priorities.as_slice()
    }

    /// How many minimize statements there are.
    pub fn minimize_len(&self) -> usize
        ensures { result ≡ length self.now.minimize }
    {
        self.minimize.len()
    }

    /// Adds what a line said.
    pub fn add(&mut self, statement: Statement) -> Result<(), AllocError>
        requires { program_size self.old + statement_size statement ≤ most_counted }
        ensures { OnOk result (self.new ≡ adds self.old statement) }
    {
        match statement {
            Statement::End | Statement::Comment => Ok(()),
            Statement::Rule(rule) => {
                let size = size_of_rule(&rule);
                self.rules.push(rule.view())?;
                self.used += size;
                Ok(())
            }
            Statement::Minimize(minimize) => {
                let size = minimize.items.as_slice().len() as u32;
                add_minimize(&mut self.minimize, &mut self.priorities, minimize)?;
                self.used += size;
                Ok(())
            }
            Statement::Output(output) => {
                let size = output.condition.as_slice().len() as u32;
                self.outputs.push(output.view())?;
                self.used += size;
                Ok(())
            }
            Statement::External(external) => {
                self.externals.push(external)?;
                Ok(())
            }
            Statement::Assume(literals) => {
                let size = literals.as_slice().len() as u32;
                add_literals(&mut self.assumptions, literals)?;
                self.used += size;
                Ok(())
            }
        }
    }

    /// The program, without what was kept beside it.
    pub fn into_program(self) -> Program
        ensures { result ≡ self }
    {
        let Draft {
            rules,
            minimize,
            outputs,
            externals,
            assumptions,
            used: _,
            priorities,
        } = self;
        mem::drop(priorities);
        Program {
            rules,
            minimize: Seq::from_vec(minimize),
            outputs,
            externals: Seq::from_vec(externals),
            assumptions: Seq::from_vec(assumptions),
        }
    }
}

fn with_priority(seen: &mut Vec<i32>, priority: i32) -> Result<(), AllocError>
    ensures ok { OnOk result (seen.new.items ≡ with_number seen.old.items priority) }
    ensures err { OnErr result (seen.new.items ≡ seen.old.items) }
{
    if seen.contains(&priority) {
        return Ok(());
    }
    seen.push(priority)?;
    Ok(())
}

// Adds a minimize statement, and its priority to those that stood before.
fn add_minimize(
    list: &mut Vec<Minimize>,
    seen: &mut Vec<i32>,
    minimize: Minimize,
) -> Result<(), AllocError>
    ensures list { OnOk result (list.new.items ≡ list.old.items ++ minimize ∷ []) }
    ensures seen { OnOk result (seen.new.items ≡ with_number seen.old.items minimize.priority) }
    ensures same_list { OnErr result (list.new.items ≡ list.old.items) }
    ensures same_seen { OnErr result (seen.new.items ≡ seen.old.items) }
{
    list.reserve(1)?;
    with_priority(seen, minimize.priority)?;
    list.push_reserved(minimize);
    Ok(())
}

// Adds the literals that a statement assumes.
fn add_literals(list: &mut Vec<i32>, literals: Seq<i32>) -> Result<(), AllocError>
    ensures ok { OnOk result (list.new.items ≡ list.old.items ++ literals) }
    ensures err { OnErr result (list.new.items ≡ list.old.items) }
{
    list.extend_from_slice(literals.as_slice())?;
    Ok(())
}
