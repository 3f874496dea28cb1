//! Partial assignments of variables.
ghost use Rattle.std.specs.Prelude.{◌≡◌, ◌<◌, ◌+◌, Some, None, IfOk, length, replicate, slice_set};
ghost use Rattle.asp_vars.specs.Literals.{value_of, holds_in, complement};

use crate::lit::{Lit, Var};
use std::alloc::{AllocError, Global};
use std::marker::Model;

/// The values of the variables, of which some may have none.
#[derive(Drop)]
pub struct Assign {
    /// By the code of each literal, whether it is false; the first two places stand for no variable.
    falses: Vec<bool>,
}

impl Model for Assign {
    ghost use Rattle.std.specs.Prelude.{List, Option, Bool};
    ghost use Rattle.asp_vars.specs.Falses.{values_of, AreFalses};

    ghost Value = { List (Option Bool) };

    ghost view = { λ a. values_of a.falses.items };

    ghost invariant = { λ a. AreFalses a.falses.items };
}

impl Assign {
    /// Variables 1 to `vars`, each with no value. The place 0 stands for no variable.
    pub fn new(alloc: Global, vars: u32) -> Result<Assign, AllocError>
        ensures { IfOk result (λ a. a ≡ replicate (vars + 1) None) }
    {
        let falses = vec![in alloc; false; 2 * (vars as usize) + 2]?;
        Ok(Assign { falses })
    }

    /// The value of a variable, if it has one.
    pub fn value(&self, var: Var) -> Option<bool>
        requires { var < length self.now }
        ensures { result ≡ value_of self.now var }
    {
        let place = 2 * (var as usize);
        if self.falses[place] {
            return Some(false);
        }
        if self.falses[place + 1] {
            Some(true)
        } else {
            None
        }
    }

    /// Whether the literal's variable has the value that it says.
    pub fn holds(&self, lit: Lit) -> bool
        requires { lit.var < length self.now }
        ensures { result ≡ holds_in self.now lit }
    {
        self.falses[lit.complement().code()]
    }

    /// Whether the literal's complement holds.
    pub fn is_false(&self, lit: Lit) -> bool
        requires { lit.var < length self.now }
        ensures { result ≡ holds_in self.now (complement lit) }
    {
        self.falses[lit.code()]
    }

    /// Makes the literal hold.
    pub fn set(&mut self, lit: Lit)
        requires { lit.var < length self.old }
        ensures { self.new ≡ slice_set self.old lit.var (Some lit.truth) }
    {
        let place = 2 * (lit.var() as usize);
        let truth = lit.truth();
        self.falses[place] = !truth;
        self.falses[place + 1] = truth;
    }

    /// Takes the variable's value away.
    pub fn unset(&mut self, var: Var)
        requires { var < length self.old }
        ensures { self.new ≡ slice_set self.old var None }
    {
        let place = 2 * (var as usize);
        self.falses[place] = false;
        self.falses[place + 1] = false;
    }
}
