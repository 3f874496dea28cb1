//! What a variable's value was before an entry came.
ghost use Rattle.std.specs.Prelude.{◌≡◌, ◌<◌, ◌≤◌, ◌^◌};
ghost use Rattle.asp_vars.specs.Literals.{value_of};
ghost use Rattle.asp_bound.specs.Reasons.{before};

use asp_trail::trail::Trail;
use asp_vars::lit::{Lit, Var};

/// The value that a variable had before the entry at a place came.
pub fn value_before(trail: &Trail, place: usize, var: Var) -> Option<bool>
    requires few { var < 2 ^ 31 }
    requires var { var ≤ trail.now.vars }
    ensures { result ≡ value_of (before trail.now place) var }
{
    let _len = trail.len();
    let truth = trail.value(var)?;
    if trail.held_before(Lit::new(var, truth), place) {
        Some(truth)
    } else {
        None
    }
}
