//! Lists of literals: those that a query assumes, those of a core, and the others of one.
ghost use Rattle.std.specs.Prelude.{◌≡◌, ◌++◌, ◌∷◌, [], IfOk, OnOk};
ghost use Rattle.asp_series.specs.Asking.{AreSame};
ghost use Rattle.asp_series.specs.Series.{without};

use std::alloc::{AllocError, Global};

// By ascending atoms, each once; of an atom the negative literal comes first.
fn put_in_order(literals: &mut Vec<i32>)
    ensures { AreSame literals.old.items literals.new.items }
{
    literals.sort_unstable_by_key(|literal| (literal.unsigned_abs(), *literal));
    literals.dedup();
}

/// The literals that a query assumes: the program's assumptions and its own, in order, each once.
pub fn all_assumed(
    alloc: Global,
    assumptions: &[i32],
    query: &[i32],
) -> Result<Vec<i32>, AllocError>
    ensures { IfOk result (λ all. AreSame (assumptions.now ++ query.now) all.items) }
{
    let mut all = Vec::from_slice(alloc, assumptions)?;
    all.extend_from_slice(query)?;
    put_in_order(&mut all);
    Ok(all)
}

/// The literals of a core, in order, each once.
pub fn in_order(alloc: Global, core: &[i32]) -> Result<Vec<i32>, AllocError>
    ensures { IfOk result (λ all. AreSame core.now all.items) }
{
    let mut all = Vec::from_slice(alloc, core)?;
    put_in_order(&mut all);
    Ok(all)
}

fn push_other(others: &mut Vec<i32>, left_out: i32, literal: i32) -> Result<(), AllocError>
    ensures { OnOk result (others.new.items ≡ others.old.items ++ without left_out (literal ∷ [])) }
{
    if literal != left_out {
        others.push(literal)?;
    }
    Ok(())
}

/// The others of these literals.
pub fn without(alloc: Global, literals: &[i32], left_out: i32) -> Result<Vec<i32>, AllocError>
    ensures { IfOk result (λ others. others.items ≡ without left_out literals.now) }
{
    let mut others = Vec::new(alloc);
    for literal in literals {
        push_other(&mut others, left_out, *literal)?;
    }
    Ok(others)
}
