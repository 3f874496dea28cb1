//! Literals of a nogood that don't hold. This is advice alone, as the watches are.
ghost use Rattle.std.specs.Prelude.{◌≡◌, ◌+◌, length};

use crate::hints::holds;
use asp_vars::assign::Assign;
use asp_vars::lit::Lit;

/// The first literal that doesn't hold.
pub(crate) fn first_open(values: &Assign, vars: u32, lits: &[Lit]) -> Option<Lit>
    requires { length values.now ≡ vars + 1 }
{
    for lit in lits {
        if !holds(values, vars, *lit) {
            return Some(*lit);
        }
    }
    None
}

/// A literal that doesn't hold, other than this one.
pub(crate) fn another(values: &Assign, vars: u32, lits: &[Lit], but: Lit) -> Option<Lit>
    requires { length values.now ≡ vars + 1 }
{
    for lit in lits {
        let held = holds(values, vars, *lit);
        if !held && *lit != but {
            return Some(*lit);
        }
    }
    None
}

/// A literal of a nogood, and its place there.
#[derive(Clone, Copy)]
pub(crate) struct Spot {
    /// The literal.
    pub(crate) lit: Lit,
    /// Its place.
    pub(crate) place: u32,
}

// A literal from a place on that doesn't hold, other than this one.
fn another_at(
    values: &Assign,
    vars: u32,
    lits: &[Lit],
    start: usize,
    end: usize,
    but: Lit,
) -> Option<Spot>
    requires { length values.now ≡ vars + 1 }
{
    for place in start..end {
        let Some(lit) = lits.get(place).copied() else {
            return None;
        };
        let held = holds(values, vars, lit);
        if !held && lit != but {
            let place = u32::try_from(place).unwrap_or(0);
            return Some(Spot { lit, place });
        }
    }
    None
}

/// A literal that doesn't hold, other than this one, from a place on and then before it.
pub(crate) fn another_from(
    values: &Assign,
    vars: u32,
    lits: &[Lit],
    start: usize,
    but: Lit,
) -> Option<Spot>
    requires { length values.now ≡ vars + 1 }
{
    match another_at(values, vars, lits, start, lits.len(), but) {
        Some(spot) => Some(spot),
        None => another_at(values, vars, lits, 0, start, but),
    }
}
