//! The weights of all literals at a priority.
ghost use Rattle.std.specs.Prelude.{◌≡◌, ◌<◌, ◌≤◌, ◌+◌, ◌*◌, ◌^◌, ◌+ℤ◌, ◌++◌, [], pos, if◌then◌else◌, IfOk, OnOk, IsTrue, length, slice_index_or, slice_set};
ghost use Rattle.std.specs.List.{All};
ghost use Rattle.std.specs.Int.RustNames.{unsigned_abs};
ghost use Rattle.std.specs.Ordering.{int_eq};
ghost use Rattle.asp_model.specs.Sets.{has};
ghost use Rattle.asp_model.specs.Holding.{atom_of};
ghost use Rattle.asp_model.specs.Models.{atoms_of};
ghost use Rattle.asp_vars.specs.Numbering.{literal_of, var_count};
ghost use Rattle.asp_bound.specs.Optimism.{items_at};
ghost use Rattle.asp_bound.specs.Weights.{size_of, AreWeights};

use asp_model::program::Minimize;
use asp_vars::compiled::Compiled;
use asp_vars::lit::Lit;
use std::alloc::{AllocError, Global};

// Adds the items of a statement, if it is at the priority.
fn add_items(
    items: &mut Vec<(i32, i32)>,
    statement: &Minimize,
    priority: i32,
) -> Result<(), AllocError>
    ensures { OnOk result (items.new.items ≡ items.old.items ++ (if int_eq statement.now.priority priority then statement.now.items else [])) }
{
    if statement.priority == priority {
        items.extend_from_slice(statement.items.as_slice())?;
    }
    Ok(())
}

// The items of the statements at a priority.
fn items_at(
    alloc: Global,
    statements: &[Minimize],
    priority: i32,
) -> Result<Vec<(i32, i32)>, AllocError>
    ensures { IfOk result (λ items. items.items ≡ items_at statements.now priority) }
{
    let mut items = Vec::new(alloc);
    for statement in statements {
        add_items(&mut items, statement, priority)?;
    }
    Ok(items)
}

fn lit_of(compiled: &Compiled, literal: i32) -> Lit
    requires { IsTrue (has (atoms_of compiled.now) (atom_of literal)) }
    ensures lit { result ≡ literal_of compiled.now literal }
    ensures within { result.var ≤ var_count compiled.now }
{
    let _vars = compiled.vars();
    Lit::new(compiled.atom_var(literal.unsigned_abs()), 0 <= literal)
}

fn add(weights: &mut [i64], place: usize, weight: i32)
    requires within { place < length weights.old }
    requires room { unsigned_abs (slice_index_or weights.old place (pos 0)) < 2 ^ 60 }
    ensures { weights.new ≡ slice_set weights.old place (slice_index_or weights.old place (pos 0) +ℤ weight) }
{
    weights[place] += i64::from(weight);
}

// The sums of the weights by the codes of their literals.
fn sums(alloc: Global, compiled: &Compiled, items: &[(i32, i32)]) -> Result<Vec<i64>, AllocError>
    requires stand { All (λ i. IsTrue (has (atoms_of compiled.now) (atom_of i.0))) items.now }
    requires few { length items.now ≤ 2 ^ 24 }
    ensures sums { IfOk result (λ w. AreWeights compiled.now items.now w.items) }
    ensures small { OnOk result (size_of items.now ≤ 2 ^ 31 * length items.now) }
{
    let mut weights = vec![in alloc; 0; 2 * compiled.vars() as usize + 2]?;
    for (literal, weight) in items {
        let lit = lit_of(compiled, *literal);
        add(weights.as_mut_slice(), lit.code(), *weight);
    }
    Ok(weights)
}

/// The weights of all literals at a priority, by the codes of the literals.
pub fn weights_at(alloc: Global, compiled: &Compiled, priority: i32) -> Result<Vec<i64>, AllocError>
    ensures weights { IfOk result (λ w. AreWeights compiled.now (items_at compiled.now.minimize priority) w.items) }
    ensures small { OnOk result (size_of (items_at compiled.now.minimize priority) ≤ 2 ^ 55) }
{
    let items = items_at(alloc, compiled.program().minimize.as_slice(), priority)?;
    sums(alloc, compiled, items.as_slice())
}
