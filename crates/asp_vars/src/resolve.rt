//! Resolution of nogoods.
ghost use Rattle.std.specs.Prelude.{◌≡◌, List, Option, ℤ, IsTrue, IfOk};
ghost use Rattle.asp_model.specs.Sets.{Atoms};
ghost use Rattle.asp_model.specs.declared.program.Program.{Program};
ghost use Rattle.asp_vars.specs.Literals.{complement, has_literal};
ghost use Rattle.asp_vars.specs.Resolution.{without, union, resolvent, joined, CanJoin};
ghost use Rattle.asp_vars.specs.Entailment.{IsGood};

use crate::lit::Lit;
use crate::nogood::{Base, Lits, Nogood};
use std::alloc::{AllocError, Global};

// The base of what two nogoods with these bases give.
fn join(first: &Base, second: &Base) -> Result<Base, AllocError>
    ensures { IfOk result (λ base. base ≡ joined first.now second.now) }
{
    match (first, second) {
        (Base::Local, _) => Ok(Base::Local),
        (_, Base::Local) => Ok(Base::Local),
        (Base::Pure, _) => second.copy(),
        (_, Base::Pure) => first.copy(),
        (Base::Below(c), Base::Below(d)) => {
            let least = if d < c { d.copy()? } else { c.copy()? };
            Ok(Base::Below(least))
        }
    }
}

// Whether the literal is among these.
fn has(lits: &[Lit], lit: Lit) -> bool
    ensures { result ≡ has_literal lits.now lit }
{
    lits.iter().any(|other| *other == lit)
}

// The other literals.
fn others(alloc: Global, lits: &[Lit], lit: Lit) -> Result<Lits, AllocError>
    ensures { IfOk result (λ others. others ≡ without lit lits.now) }
{
    let mut kept = Lits::new(alloc);
    for other in lits {
        if *other != lit {
            kept.push(*other)?;
        }
    }
    Ok(kept)
}

// Adds the literals that aren't there.
fn add(mut lits: Lits, more: &[Lit]) -> Result<Lits, AllocError>
    ensures { IfOk result (λ all. all ≡ union lits more.now) }
{
    for other in more {
        if !has(lits.as_slice(), *other) {
            lits.push(*other)?;
        }
    }
    Ok(lits)
}

fn both(alloc: Global, first: &Lits, second: &Lits, lit: Lit) -> Result<Lits, AllocError>
    ensures { IfOk result (λ lits. lits ≡ resolvent first.now second.now lit) }
{
    let kept = others(alloc, first.as_slice(), lit)?;
    let more = others(alloc, second.as_slice(), lit.complement())?;
    add(kept, more.as_slice())
}

/// The nogood of the other literals of both: the literal stands in the first, its complement in the second.
///
/// Its base is `Local` where one is `Local`, else `Below` of the smaller cost, else `Pure`.
pub fn resolve(
    alloc: Global,
    first: &Nogood,
    second: &Nogood,
    lit: Lit,
) -> Result<Nogood, AllocError>
    requires first { IsTrue (has_literal first.now.lits lit) }
    requires second { IsTrue (has_literal second.now.lits (complement lit)) }
    ensures lits { IfOk result (λ n. n.lits ≡ resolvent first.now.lits second.now.lits lit) }
    ensures base { IfOk result (λ n. n.base ≡ joined first.now.base second.now.base) }
    ensures good { IfOk result (λ n. (p : Program) (known : List Atoms) (bound : Option (List ℤ)) →
        CanJoin bound first.now.base second.now.base → IsGood p known bound first.now → IsGood p known bound second.now →
        IsGood p known bound n) }
{
    let lits = both(alloc, &first.lits, &second.lits, lit)?;
    let base = join(&first.base, &second.base)?;
    Ok(Nogood { lits, base })
}
