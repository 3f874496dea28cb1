//! The values that variables had last.
ghost use Rattle.std.specs.Prelude.{◌≡◌, ◌+◌, ◌<◌, ◌^◌, IfOk, false, replicate, slice_set, slice_index_or};

use asp_vars::lit::{Lit, Var};
use std::alloc::{AllocError, Global};
use std::marker::Model;

/// A value for each variable: false until one is saved.
#[derive(Drop)]
pub struct Phases {
    /// By variable. One more than the variables; 0 is none.
    truths: Vec<bool>,
}

impl Model for Phases {
    ghost use Rattle.std.specs.Prelude.{Bool, List};

    ghost Value = { List Bool };

    ghost view = { λ p. p.truths.items };
}

impl Phases {
    /// False for the variables up to `vars`.
    pub fn new(alloc: Global, vars: Var) -> Result<Phases, AllocError>
        ensures { IfOk result (λ p. p ≡ replicate (vars + 1) false) }
    {
        let truths = vec![in alloc; false; vars as usize + 1]?;
        Ok(Phases { truths })
    }

    /// The variable with its value, false for one beyond those up to which there are values.
    pub fn lit(&self, var: Var) -> Lit
        requires { var < 2 ^ 31 }
        ensures { result ≡ record { var = var; truth = slice_index_or self.now var false } }
    {
        Lit::new(var, self.truths.get(var as usize).copied().unwrap_or(false))
    }

    /// Saves a value, of a variable that has one.
    pub fn save(&mut self, var: Var, truth: bool)
        ensures { self.new ≡ slice_set self.old var truth }
    {
        let var = var as usize;
        if var < self.truths.len() {
            self.truths[var] = truth;
        }
    }
}
