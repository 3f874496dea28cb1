//! The literals of minimise statements are replaced.
ghost use Rattle.std.specs.Prelude.{◌≡◌, ◌<◌, ◌≤◌, All, length, map, IfOk};
ghost use Rattle.asp_model.specs.Holding.{atom_of};
ghost use Rattle.asp_model.specs.Sound.{IsSound};
ghost use Rattle.asp_unfold.specs.Tables.{table_items, table_minimize};
ghost use Rattle.asp_unfold.specs.Unfolded.{unfolded, unfolded_minimize};

use crate::table::{Definition, definitions, table_literal};
use asp_model::program::{Minimize, Program};
use asp_model::rules::Rules;
use asp_model::seq::Seq;
use std::alloc::{AllocError, Global};

/// How many places a table may have for each rule.
const PLACES_A_RULE: usize = 16;

fn items_above(items: &[(i32, i32)]) -> usize
    ensures above { All (λ i. atom_of i.0 < result) items.now }
    ensures most { result ≤ 4294967296 }
{
    let mut above = 0usize;
    for (literal, _) in items {
        above = above.max(literal.unsigned_abs() as usize + 1);
    }
    above
}

// The least number above all atoms of the statements.
fn above(statements: &[Minimize]) -> usize
    ensures above { All (λ m. All (λ i. atom_of i.0 < result) m.items) statements.now }
    ensures most { result ≤ 4294967296 }
{
    let mut above = 0usize;
    for statement in statements {
        above = above.max(items_above(statement.items.as_slice()));
    }
    above
}

fn replace_items(table: &[Definition], items: &mut [(i32, i32)])
    ensures { items.new ≡ table_items table.now items.old }
{
    for item in items.iter_mut() {
        item.0 = table_literal(table, item.0);
    }
}

fn replaced_statement(table: &[Definition], statement: Minimize) -> Minimize
    ensures { result ≡ table_minimize table.now statement }
{
    let Minimize { priority, items } = statement;
    let mut items = items.into_vec();
    replace_items(table, items.as_mut_slice());
    Minimize {
        priority,
        items: Seq::from_vec(items),
    }
}

fn replaced_statements(
    alloc: Global,
    table: &[Definition],
    statements: Seq<Minimize>,
) -> Result<Seq<Minimize>, AllocError>
    ensures { IfOk result (λ new. new ≡ map (table_minimize table.now) statements) }
{
    let replaced = statements
        .into_vec()
        .into_iter()
        .map(|statement| replaced_statement(table, statement))
        .collect(alloc)?;
    Ok(Seq::from_vec(replaced))
}

fn unfolded_statements(
    alloc: Global,
    rules: &Rules,
    statements: Seq<Minimize>,
) -> Result<Seq<Minimize>, AllocError>
    requires few { length rules.now ≤ 268435456 }
    ensures { IfOk result (λ new. new ≡ map (unfolded_minimize rules.now) statements) }
{
    let places = above(statements.as_slice()).min(PLACES_A_RULE * (rules.len() + 1));
    let table = definitions(alloc, rules, places)?;
    replaced_statements(alloc, table.as_slice(), statements)
}

/// The program whose minimise statements speak of the literals that define atoms: it itself where it has none.
pub fn unfold(alloc: Global, program: Program) -> Result<Program, AllocError>
    requires { IsSound program }
    ensures { IfOk result (λ new. new ≡ unfolded program) }
{
    if program.minimize.as_slice().is_empty() {
        return Ok(program);
    }
    let Program {
        rules,
        minimize,
        outputs,
        externals,
        assumptions,
    } = program;
    let minimize = unfolded_statements(alloc, &rules, minimize)?;
    Ok(Program {
        rules,
        minimize,
        outputs,
        externals,
        assumptions,
    })
}
