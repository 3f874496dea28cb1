//! The program that a query asks about.
ghost use Rattle.std.specs.Prelude.{◌≡◌, ◌++◌, IfOk};
ghost use Rattle.asp_read.specs.Queries.{with_query};

use asp_model::outputs::Outputs;
use asp_model::program::{Minimize, Program};
use asp_model::rules::Rules;
use asp_model::seq::Seq;
use std::alloc::{AllocError, Global};

fn copy_of_rules(alloc: Global, rules: &Rules) -> Result<Rules, AllocError>
    ensures { IfOk result (λ copy. copy ≡ rules.now) }
{
    let mut copy = Rules::new(alloc)?;
    for i in 0..rules.len() {
        copy.push(rules.rule(i))?;
    }
    Ok(copy)
}

fn copy_of_outputs(alloc: Global, outputs: &Outputs) -> Result<Outputs, AllocError>
    ensures { IfOk result (λ copy. copy ≡ outputs.now) }
{
    let mut copy = Outputs::new(alloc)?;
    for i in 0..outputs.len() {
        copy.push(outputs.output(i))?;
    }
    Ok(copy)
}

fn copy_of_statement(alloc: Global, statement: &Minimize) -> Result<Minimize, AllocError>
    ensures { IfOk result (λ copy. copy ≡ statement.now) }
{
    let items = statement.items.copy(alloc)?;
    Ok(Minimize {
        priority: statement.priority,
        items,
    })
}

fn copy_of_statements(alloc: Global, statements: &[Minimize]) -> Result<Seq<Minimize>, AllocError>
    ensures { IfOk result (λ copy. copy ≡ statements.now) }
{
    let mut copy = Vec::new(alloc);
    for statement in statements {
        copy.push(copy_of_statement(alloc, statement)?)?;
    }
    Ok(Seq::from_vec(copy))
}

fn assumed(alloc: Global, assumptions: &[i32], query: &[i32]) -> Result<Seq<i32>, AllocError>
    ensures { IfOk result (λ literals. literals ≡ assumptions.now ++ query.now) }
{
    let mut literals = Vec::from_slice(alloc, assumptions)?;
    literals.extend_from_slice(query)?;
    Ok(Seq::from_vec(literals))
}

/// A copy of the program whose answers are those that have the query's literals, too.
pub fn with_query(alloc: Global, program: &Program, query: &[i32]) -> Result<Program, AllocError>
    ensures { IfOk result (λ p. p ≡ with_query program.now query.now) }
{
    let assumptions = assumed(alloc, program.assumptions.as_slice(), query)?;
    let externals = program.externals.copy(alloc)?;
    let minimize = copy_of_statements(alloc, program.minimize.as_slice())?;
    let outputs = copy_of_outputs(alloc, &program.outputs)?;
    let rules = copy_of_rules(alloc, &program.rules)?;
    Ok(Program {
        rules,
        minimize,
        outputs,
        externals,
        assumptions,
    })
}
