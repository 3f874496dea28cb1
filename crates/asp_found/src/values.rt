//! The values of all variables under a set.
ghost use Rattle.std.specs.Prelude.{◌≡◌, ◌<◌, ◌∷◌, [], ◌++◌, IfOk, OnOk, filter, length, map};
ghost use Rattle.asp_model.specs.Models.{atoms_of};
ghost use Rattle.asp_vars.specs.Numbering.{bodies_of, is_apart, nth_body, values};
ghost use Rattle.asp_found.specs.Marks.{marks_hold};

use crate::marks::{holds, marks_of};
use asp_model::interp::Interp;
use asp_vars::compiled::Compiled;
use std::alloc::{AllocError, Global};

// Adds whether a body holds, if it has a variable of its own.
fn push_body(compiled: &Compiled, values: &mut Vec<bool>, body: usize) -> Result<(), AllocError>
    requires body { body < length (bodies_of compiled.now) }
    requires atoms { length (atoms_of compiled.now) < length values.old.items }
    ensures { OnOk result (values.new.items ≡ values.old.items ++ map (marks_hold compiled.now values.old.items values.old.items) (filter (is_apart compiled.now) (nth_body compiled.now body ∷ []))) }
{
    if !compiled.is_apart(body) {
        return Ok(());
    }
    let holds = holds(compiled, values.as_slice(), values.as_slice(), body);
    values.push(holds)?;
    Ok(())
}

/// Which atoms are in the set, and which of the bodies with variables of their own hold in it.
pub(crate) fn values_of(
    alloc: Global,
    compiled: &Compiled,
    interp: &Interp,
) -> Result<Vec<bool>, AllocError>
    ensures { IfOk result (λ v. v.items ≡ values compiled.now interp.now) }
{
    let mut values = marks_of(alloc, compiled, interp)?;
    for body in 0..compiled.body_count() {
        push_body(compiled, &mut values, body)?;
    }
    Ok(values)
}
