//! Which value the learnt nogoods ask for.
//!
//! A nogood that has one of a variable's literals asks for the other one. Where nearly all that have the variable ask for
//! the same value, it is decided to have that one, whatever it had last: in puzzles and plans most atoms stand with one
//! sign in what is learnt.
ghost use Rattle.std.specs.Prelude.{◌≡◌, ◌+◌, IfOk, replicate, slice_set, ◌-◌};
ghost use Rattle.asp_order.specs.Voting.{asked, count_at, counted, none, outnumber, tied, voted};

use asp_vars::lit::{Lit, Var};
use std::alloc::{AllocError, Global};
use std::marker::Model;

// So many times as many nogoods have to ask for a value as for the other one, and so many at least.
const TIMES: u32 = 15;

/// How many learnt nogoods have each literal of a variable. Each count stands still at the greatest `u32`.
#[derive(Clone, Copy)]
pub struct Count {
    /// The positive literal: these ask for false.
    positive: u32,
    /// The negative one: these ask for true.
    negative: u32,
}

// Of a variable that no nogood asks for a value.
const NONE: Count = Count {
    positive: 0,
    negative: 0,
};

// Of a variable that is never asked for a value.
const TIED: Count = Count {
    positive: u32::MAX,
    negative: u32::MAX,
};

// Whether the first are many, and nearly all.
fn outnumber(first: u32, second: u32) -> bool
    ensures { result ≡ outnumber first second }
{
    first / TIMES > second
}

impl Count {
    fn with(self, lit: Lit) -> Count
        ensures { result ≡ counted self lit }
    {
        if lit.truth() {
            Count {
                positive: self.positive.saturating_add(1),
                negative: self.negative,
            }
        } else {
            Count {
                positive: self.positive,
                negative: self.negative.saturating_add(1),
            }
        }
    }

    fn asked(self) -> Option<bool>
        ensures { result ≡ asked self }
    {
        if outnumber(self.positive, self.negative) {
            return Some(false);
        }
        if outnumber(self.negative, self.positive) {
            Some(true)
        } else {
            None
        }
    }
}

/// For each variable, how many learnt nogoods ask for each of its values.
#[derive(Drop)]
pub struct Votes {
    /// By variable. One more than the variables; 0 is none.
    counts: Vec<Count>,
}

impl Model for Votes {
    ghost use Rattle.std.specs.Prelude.{List};
    ghost use Rattle.asp_order.specs.declared.votes.Count.{Count};

    ghost Value = { List Count };

    ghost view = { λ v. v.counts.items };
}

impl Votes {
    /// Nothing is asked for of the variables up to `vars`.
    pub fn new(alloc: Global, vars: Var) -> Result<Votes, AllocError>
        ensures { IfOk result (λ v. v ≡ replicate (vars + 1) none) }
    {
        let counts = vec![in alloc; NONE; vars as usize + 1]?;
        Ok(Votes { counts })
    }

    fn count(&self, var: Var) -> Count
        ensures { result ≡ count_at self.now var }
    {
        self.counts.get(var as usize).copied().unwrap_or(NONE)
    }

    fn set(&mut self, var: Var, count: Count)
        ensures { self.new ≡ slice_set self.old var count }
    {
        let var = var as usize;
        if var < self.counts.len() {
            self.counts[var] = count;
        }
    }

    /// What was learnt so far doesn't ask for a value of the variable any more.
    pub fn forget(&mut self, var: Var)
        ensures { self.new ≡ slice_set self.old var none }
    {
        self.set(var, NONE);
    }

    /// The variable is never asked for a value.
    pub fn leave_out(&mut self, var: Var)
        ensures { self.new ≡ slice_set self.old var tied }
    {
        self.set(var, TIED);
    }

    /// A nogood of these literals was learnt.
    pub fn add(&mut self, lits: &[Lit])
        ensures { self.new ≡ voted self.old lits.now }
    {
        for lit in lits {
            let count = self.count(lit.var()).with(*lit);
            self.set(lit.var(), count);
        }
    }

    /// The value that nearly all ask for that have the variable, if there is one.
    pub fn value(&self, var: Var) -> Option<bool>
        ensures { result ≡ asked (count_at self.now var) }
    {
        self.count(var).asked()
    }
}
