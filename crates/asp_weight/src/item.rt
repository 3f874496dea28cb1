//! Parts of weight bodies.
ghost use Rattle.std.specs.Prelude.{◌≡◌};
ghost use Rattle.asp_weight.specs.Rows.{on};

use asp_vars::lit::{Lit, Var};

/// A literal of a weight body, with its weight.
#[derive(Clone, Copy)]
pub struct Item {
    /// Its weight; 0 adds nothing.
    pub weight: u64,
    /// The literal.
    pub lit: Lit,
}

/// A body's variable; from which sum of true literals on it is true, and from which sum of false ones on it is false.
#[derive(Clone, Copy)]
pub struct Shape {
    /// The body's own variable.
    pub var: Var,
    /// The body is true where its true literals weigh so much: its bound, and 0 for one below.
    pub reach: u64,
    /// The body is false where its false literals weigh so much: the whole weight and 1, less `reach`, or 0.
    pub miss: u64,
}

/// Where a literal of a variable stands: the body, the literal's weight there, and whether it says "true".
#[derive(Clone, Copy)]
pub struct Place {
    /// The literal's weight; 0 where the variable is the body's own.
    pub weight: u64,
    /// The weight body's number, counted from 0 among the weight bodies alone.
    pub body: u32,
    /// The literal's number among those of all long bodies; `NO_BIT` in a short body, and for the body's own variable.
    pub bit: u32,
    /// Whether the literal is the variable itself, and not its complement.
    pub truth: bool,
}

/// The literal, or its complement where it is to speak against the body.
pub fn on(side: bool, lit: Lit) -> Lit
    ensures { result ≡ on side lit }
{
    if side { lit } else { lit.complement() }
}
