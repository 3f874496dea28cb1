//! Literals of variables.
ghost use Rattle.std.specs.Prelude.{◌≡◌, ◌<◌, ◌^◌};
ghost use Rattle.asp_vars.specs.Literals.{literal_eq, complement};
ghost use Rattle.asp_vars.specs.Codes.{code_of};
ghost use Rattle.std.specs.Cmp.Rules.{comparing};
ghost use Rattle.std.proofs.Common.{rules};

use std::marker::Model;

/// A variable's number, from 1 on.
pub type Var = u32;

/// A variable's number doubled, and one more for "false".
#[derive(Clone, Copy, Default)]
pub struct Lit {
    /// Twice the variable's number, and one more where the literal says that it is false.
    code: u32,
}

impl Model for Lit {
    ghost use Rattle.asp_vars.specs.Literals.{Literal};

    ghost Value = { Literal };

    ghost use Rattle.asp_vars.specs.Codes.{view as seen, inverse as stored, inverse_view};

    ghost view = { seen };

    ghost inverse = { stored };

    ghost inverse_ok = { λ l _. inverse_view l };
}

impl Lit {
    /// The literal that the variable is true, or that it is false.
    pub fn new(var: Var, truth: bool) -> Lit
        requires { var < 2 ^ 31 }
        ensures { result ≡ record { var = var; truth = truth } }
    {
        Lit {
            code: 2 * var + if truth { 0 } else { 1 },
        }
    }

    /// The variable.
    pub fn var(self) -> Var
        ensures { result ≡ self.var }
    {
        self.code / 2
    }

    /// Whether the literal says "true".
    pub fn truth(self) -> bool
        ensures { result ≡ self.truth }
    {
        self.code % 2 == 0
    }

    /// The variable's number doubled, and one more for "false".
    pub fn code(self) -> usize
        ensures code { result ≡ code_of self }
        ensures small { result < 2 ^ 32 }
    {
        self.code as usize
    }

    /// The literal that holds exactly where this one doesn't.
    pub fn complement(self) -> Lit
        ensures { result ≡ complement self }
    {
        Lit {
            code: self.code ^ 1,
        }
    }
}

impl PartialEq for Lit {
    ghost eq = { literal_eq };

    ghost laws = { Prim.search (comparing, rules) };

    fn eq(&self, other: &Lit) -> bool {
        self.code == other.code
    }
}

impl Eq for Lit {
    ghost laws = { Prim.search (comparing, rules) };
}
