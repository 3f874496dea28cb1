//! The variables whose values raise the optimistic cost, in the order in which the values came.
ghost use Rattle.std.specs.Prelude.{◌≡◌, ◌<◌, ◌==◌, ◌∷◌, ◌++◌, [], true, false, IfOk, IfNone, IfSome, length, slice_index};
ghost use Rattle.std.specs.List.{list_any};
ghost use Rattle.asp_bound.specs.Kept.{IsOnce};
ghost use Rattle.asp_bound.specs.Raisers.{is_raising, without, joined, left};

use crate::place::Place;
use crate::sums::rise_by;
use asp_vars::lit::{Lit, Var};
use std::alloc::{AllocError, Global};
use std::marker::Model;

/// Some variables, the newest last, with room for so many.
#[derive(Drop)]
pub struct Raisers {
    /// The variables, each once.
    vars: Vec<Var>,
}

impl Model for Raisers {
    ghost use Rattle.std.specs.Vec.{vec_capacity};
    ghost use Rattle.asp_bound.specs.Raisers.{Line};

    ghost Value = { Line };

    ghost view = { λ r. record { vars = r.vars.items; room = vec_capacity r.vars } };
}

impl Raisers {
    /// None, with room for so many.
    pub fn new(alloc: Global, room: usize) -> Result<Raisers, AllocError>
        ensures { IfOk result (λ r. r ≡ record { vars = []; room = room }) }
    {
        let vars = Vec::with_capacity(alloc, room)?;
        Ok(Raisers { vars })
    }

    /// The variables, the newest last.
    pub fn as_slice(&self) -> &[Var]
        ensures { result.now ≡ self.now.vars }
    {
        self.vars.as_slice()
    }

    // Adds a variable.
    fn add(&mut self, var: Var)
        requires { length self.old.vars < self.old.room }
        ensures { self.new ≡ record self.old { vars = self.old.vars ++ var ∷ [] } }
    {
        self.vars.push_reserved(var);
    }

    // Takes a variable out, if it is there.
    fn remove(&mut self, var: Var)
        requires { IsOnce self.old.vars }
        ensures { self.new ≡ record self.old { vars = without var self.old.vars } }
    {
        if let Some(place) = place_of(self.vars.as_slice(), var) {
            let _var = self.vars.remove(place);
        }
    }

    /// A variable got a value, and is the newest if the value raises the cost.
    pub fn join(&mut self, row: &[Place], lit: Lit)
        requires { is_raising row.now lit.truth ≡ true → length self.old.vars < self.old.room }
        ensures { self.new ≡ record self.old { vars = joined row.now lit self.old.vars } }
    {
        if is_raising(row, lit.truth()) {
            self.add(lit.var());
        }
    }

    /// A variable loses its value, and isn't there any more.
    pub fn leave(&mut self, row: &[Place], lit: Lit)
        requires { IsOnce self.old.vars }
        ensures { self.new ≡ record self.old { vars = left row.now lit self.old.vars } }
    {
        if is_raising(row, lit.truth()) {
            self.remove(lit.var());
        }
    }
}

// Whether a place in the row adds something by the value.
fn is_raising(row: &[Place], truth: bool) -> bool
    ensures { result ≡ is_raising row.now truth }
{
    for place in row {
        if rise_by(place, truth) > 0 {
            return true;
        }
    }
    false
}

// Where the variable stands. Values are taken back the newest first, so it mostly is the last.
fn place_of(vars: &[Var], var: Var) -> Option<usize>
    ensures none { IfNone result (list_any (λ x. x == var) vars.now ≡ false) }
    ensures some { IfSome result (λ i. (i < length vars.now) × (slice_index vars.now i ≡ var)) }
{
    let mut left = vars.len();
    while left > 0 {
        left -= 1;
        if vars[left] == var {
            return Some(left);
        }
    }
    None
}
