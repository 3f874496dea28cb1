//! Bodies that aren't what their literals say: where a body's name is an atom, a set may have the one without the other.
ghost use Rattle.std.specs.Prelude.{◌≡◌, suc, ◌<◌, All, IfOk, MatchOption, length};
ghost use Rattle.asp_vars.specs.declared.nogood.Base.TheVariants as base;
ghost use Rattle.asp_vars.specs.Numbering.{bodies_of, nth_body, values, var_count, IsReadBy};
ghost use Rattle.asp_found.specs.Misnamed.{first_false, holding_literals, lacking_literals, misnamed_literals};
ghost use Rattle.asp_found.specs.Verdicts.{IsBroken};

use crate::marks::holds;
use crate::parts::is_met;
use asp_model::interp::Interp;
use asp_vars::compiled::Compiled;
use asp_vars::lit::Lit;
use asp_vars::nogood::{Base, Lits, Nogood};
use std::alloc::{AllocError, Global};

// The first of the literals that isn't true.
fn first_false(truths: &[bool], lits: &[Lit]) -> Option<Lit>
    requires { All (λ l. l.var < length truths.now) lits.now }
    ensures { result ≡ first_false truths.now lits.now }
{
    for lit in lits {
        if !is_met(truths, *lit) {
            return Some(*lit);
        }
    }
    None
}

// Of a body that holds, and whose literal is false.
fn holding(alloc: Global, compiled: &Compiled, body: usize) -> Result<Lits, AllocError>
    requires { body < length (bodies_of compiled.now) }
    ensures { IfOk result (λ lits. lits ≡ holding_literals compiled.now (nth_body compiled.now body)) }
{
    let lits = compiled.literals(body);
    if compiled.is_barred(body) {
        Lits::from_slice(alloc, lits)
    } else {
        Lits::with_first(alloc, compiled.body_lit(body).complement(), lits)
    }
}

// Of a body that doesn't hold, and whose literal is true.
fn lacking(
    alloc: Global,
    compiled: &Compiled,
    truths: &[bool],
    body: usize,
) -> Result<Lits, AllocError>
    requires body { body < length (bodies_of compiled.now) }
    requires truths { length truths.now ≡ suc (var_count compiled.now) }
    ensures { IfOk result (λ lits. lits ≡ lacking_literals compiled.now truths.now (nth_body compiled.now body)) }
{
    let mut lits = Lits::new(alloc);
    lits.push(compiled.body_lit(body))?;
    if compiled.is_barred(body) {
        return Ok(lits);
    }
    if let Some(lit) = first_false(truths, compiled.literals(body)) {
        lits.push(lit.complement())?;
    }
    Ok(lits)
}

// The nogood of a body that isn't what its literal says, by whether the body holds.
fn body_nogood(
    alloc: Global,
    compiled: &Compiled,
    truths: &[bool],
    body: usize,
    holds: bool,
) -> Result<Nogood, AllocError>
    requires body { body < length (bodies_of compiled.now) }
    requires truths { length truths.now ≡ suc (var_count compiled.now) }
    ensures { IfOk result (λ n. n ≡ record { lits = misnamed_literals compiled.now truths.now (nth_body compiled.now body) holds; base = base.Pure }) }
{
    let lits = if holds {
        holding(alloc, compiled, body)?
    } else {
        lacking(alloc, compiled, truths, body)?
    };
    Ok(Nogood {
        lits,
        base: Base::Pure,
    })
}

/// A nogood of a body that isn't what its literal says, if there is one.
pub fn misnamed_body(
    alloc: Global,
    compiled: &Compiled,
    interp: &Interp,
    truths: &[bool],
) -> Result<Option<Nogood>, AllocError>
    requires { truths.now ≡ values compiled.now interp.now }
    ensures { IfOk result (λ found. MatchOption found (IsReadBy compiled.now interp.now) (IsBroken compiled.now interp.now)) }
{
    let _program = compiled.program();
    for body in 0..compiled.body_count() {
        let holds = holds(compiled, truths, truths, body);
        if is_met(truths, compiled.body_lit(body)) != holds {
            let nogood = body_nogood(alloc, compiled, truths, body, holds)?;
            return Ok(Some(nogood));
        }
    }
    Ok(None)
}
