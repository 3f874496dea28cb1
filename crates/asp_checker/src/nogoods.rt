//! What a nogood says under values.
ghost use Rattle.std.specs.Prelude.{◌<◌, ◌∷◌, ◌++◌, [], List, length, All};
ghost use Rattle.asp_vars.specs.Literals.{Literal};
ghost use Rattle.asp_checker.specs.Looks.{IsSeen, IsVisited};

use asp_vars::assign::Assign;
use asp_vars::lit::Lit;

/// What a nogood says under values.
#[derive(Clone, Copy)]
pub enum Look {
    /// Nothing, nor would it with one value more be hit.
    Fixpoint,
    /// All of its literals hold but this one, which has no value.
    Unit(Lit),
    /// All of its literals hold.
    Violated,
}

// What the nogood says with one literal more.
pub(crate) fn with(look: Look, lit: Lit, values: &Assign) -> Look
    requires { lit.var < length values.now }
    ensures { (n : List Literal) → IsSeen values.now n look → IsSeen values.now (n ++ lit ∷ []) result }
{
    if values.holds(lit) {
        return look;
    }
    if values.holds(lit.complement()) {
        return Look::Fixpoint;
    }
    match look {
        Look::Fixpoint => Look::Fixpoint,
        Look::Violated => Look::Unit(lit),
        Look::Unit(open) => {
            if open == lit {
                return Look::Unit(open);
            }
            Look::Fixpoint
        }
    }
}

/// What a nogood says under the values.
pub fn look_at(lits: &[Lit], values: &Assign) -> Look
    requires { All (λ l. l.var < length values.now) lits.now }
    ensures { IsSeen values.now lits.now result }
{
    let mut look = Look::Violated;
    for lit in lits {
        look = with(look, *lit, values);
        if let Look::Fixpoint = look {
            return Look::Fixpoint;
        }
    }
    look
}

/// What a look at a nogood came to.
#[derive(Clone, Copy)]
pub enum Visit {
    /// All of its literals hold.
    Conflict,
    /// A value was implied, and set.
    Implied,
    /// Nothing.
    Fixpoint,
}

/// Looks at a nogood, and sets the value that it implies.
pub fn visit_one(lits: &[Lit], values: &mut Assign) -> Visit
    requires { All (λ l. l.var < length values.old) lits.now }
    ensures { IsVisited values.old values.new lits.now result }
{
    match look_at(lits, values) {
        Look::Fixpoint => Visit::Fixpoint,
        Look::Violated => Visit::Conflict,
        Look::Unit(lit) => {
            values.set(lit.complement());
            Visit::Implied
        }
    }
}
