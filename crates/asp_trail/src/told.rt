//! The values that a propagator was told, as a fact without memory.
//!
//! A propagator's clauses speak of the values told from call to call, and what it keeps is tied to them; none of its calls
//! reads them but `next`, to which the trail shows the same ones. So no code needs them.
ghost use Rattle.std.specs.Borrow.{ftrue};
ghost use Rattle.std.specs.Prelude.{◌≡◌, ◌<◌, ◌+◌, List, Option, Bool, Some, None, length, replicate, slice_set};

use asp_vars::lit::{Lit, Var};
use std::marker::Model;

// What the values are, for proofs alone.
#[derive(Drop)]
struct Fact {
    pub ghost values: { List (Option Bool) },
}

impl Model for Fact {
    ghost also_owns = { λ _. ftrue };
}

impl Fact {
    // No variable up to `vars` has a value.
    fn none(_vars: &u32) -> Fact
        ensures { result.values ≡ replicate (_vars.now + 1) None }
    {
        Fact {}
    }

    // The values before, but that the literal holds.
    fn with(_before: &Fact, _lit: &Lit) -> Fact
        ensures { result.values ≡ slice_set _before.now.values _lit.now.var (Some _lit.now.truth) }
    {
        Fact {}
    }

    // The values before, but that the variable has none.
    fn without(_before: &Fact, _var: &Var) -> Fact
        ensures { result.values ≡ slice_set _before.now.values _var.now None }
    {
        Fact {}
    }
}

unsafe impl Send for Fact {}

unsafe impl Sync for Fact {}

/// The values told, which contracts see as they see those of `Assign`. It has no bytes, and its calls do nothing.
#[derive(Drop)]
pub struct ToldValues {
    /// The values, as a fact without bytes.
    fact: Fact,
}

impl Model for ToldValues {
    ghost Value = { List (Option Bool) };

    ghost view = { λ t. t.fact.values };
}

impl ToldValues {
    /// Variables 1 to `vars`, each with no value. The place 0 stands for no variable.
    pub fn none(vars: u32) -> ToldValues
        ensures { result ≡ replicate (vars + 1) None }
    {
        ToldValues {
            fact: Fact::none(&vars),
        }
    }

    /// Makes the literal hold.
    pub fn set(&mut self, lit: Lit)
        requires { lit.var < length self.old }
        ensures { self.new ≡ slice_set self.old lit.var (Some lit.truth) }
    {
        self.fact = Fact::with(&self.fact, &lit);
    }

    /// Takes the variable's value away.
    pub fn unset(&mut self, var: Var)
        requires { var < length self.old }
        ensures { self.new ≡ slice_set self.old var None }
    {
        self.fact = Fact::without(&self.fact, &var);
    }
}
