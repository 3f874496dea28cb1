//! The exact check.
ghost use Rattle.std.specs.Prelude.{IfOk};
ghost use Rattle.asp_found.specs.Verdicts.{IsVerdict};

use crate::check::Verdict;
use crate::least::rest;
use crate::names::misnamed_body;
use crate::parts::{broken_rule, unsupported_atom};
use crate::values::values_of;
use asp_model::interp::Interp;
use asp_model::seq::Seq;
use asp_vars::compiled::Compiled;
use std::alloc::{AllocError, Global};

/// Whether the set is stable, and if not, why.
pub fn check(alloc: Global, compiled: &Compiled, interp: &Interp) -> Result<Verdict, AllocError>
    ensures { IfOk result (IsVerdict compiled.now interp.now) }
{
    let _program = compiled.program();
    let _atoms = interp.as_slice();
    let values = values_of(alloc, compiled, interp)?;
    if let Some(nogood) = misnamed_body(alloc, compiled, interp, values.as_slice())? {
        return Ok(Verdict::Broken(nogood));
    }
    if let Some(nogood) = broken_rule(alloc, compiled, interp, values.as_slice())? {
        return Ok(Verdict::Broken(nogood));
    }
    if let Some(nogood) = unsupported_atom(alloc, compiled, interp, values.as_slice())? {
        return Ok(Verdict::Broken(nogood));
    }
    let others = rest(alloc, compiled, interp, values.as_slice())?;
    let is_stable = others.as_slice().is_empty();
    if is_stable {
        Ok(Verdict::Stable)
    } else {
        Ok(Verdict::Unfounded(Seq::from_vec(others)))
    }
}
