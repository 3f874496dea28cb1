//! All nogoods, each looked at once.
ghost use Rattle.std.specs.Prelude.{◌≡◌, length};
ghost use Rattle.asp_checker.specs.Sweeps.{AreInRange, IsSwept, later};

use crate::nogoods::{Visit, visit_one};
use asp_vars::assign::Assign;
use asp_vars::nogood::Lits;

// What two looks came to, where neither was a conflict.
pub(crate) fn later(before: Visit, now: Visit) -> Visit
    ensures { result ≡ later before now }
{
    match now {
        Visit::Fixpoint => before,
        Visit::Conflict => Visit::Conflict,
        Visit::Implied => Visit::Implied,
    }
}

/// Looks at each nogood once, and sets the values that they imply, one after another.
pub fn sweep(rows: &[Lits], values: &mut Assign) -> Visit
    requires { AreInRange (length values.old) rows.now }
    ensures { IsSwept values.old values.new rows.now result }
{
    let mut came_to = Visit::Fixpoint;
    for row in rows {
        let visit = visit_one(row.as_slice(), values);
        if let Visit::Conflict = visit {
            return Visit::Conflict;
        }
        came_to = later(came_to, visit);
    }
    came_to
}
