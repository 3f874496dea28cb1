//! Literals that are decided first.
//!
//! A search that is kept over a series of queries is entered once, under no cube: at its level 0 stays all that the program alone
//! implies. The literals that a query's answers have to have are its first decisions then. As soon as one of them is false by decisions
//! that are all among them, the query has no other answer (`refutation`).
ghost use Rattle.std.specs.Prelude.{◌≡◌, [], None};
ghost use Rattle.asp_trail.specs.Entries.{cut};

use crate::search::Search;
use asp_propagate::propagator::Propagator;
use asp_trail::trail::Trail;
use asp_vars::lit::{Lit, Var};
use std::alloc::{AllocError, Global};

// Whether the literal can be decided: its variable is one, and has no value.
fn is_undecided(trail: &Trail, vars: Var, lit: Lit) -> bool
    requires { trail.now.vars ≡ vars }
{
    let var = lit.var();
    var != 0 && var <= vars && trail.value(var).is_none()
}

// The place of the first literal, from this place on, that can be decided; where there is none, their number.
fn find_undecided(lits: &[Lit], trail: &Trail, vars: Var, from: usize) -> usize
    requires { trail.now.vars ≡ vars }
{
    for place in from..lits.len() {
        if is_undecided(trail, vars, lits[place]) {
            return place;
        }
    }
    lits.len()
}

/// Literals that are decided before all others, and how far they are known to have values.
#[derive(Drop)]
pub(crate) struct First {
    /// The literals, in the order in which they are decided.
    lits: Vec<Lit>,
    /// Those before this place can't be decided,
    place: usize,
    /// as long as so many decisions stand.
    depth: usize,
    /// Whether none of them was decided first yet.
    fresh: bool,
}

impl First {
    /// No literals.
    pub(crate) fn none(alloc: Global) -> First {
        First {
            lits: Vec::new(alloc),
            place: 0,
            depth: 0,
            fresh: true,
        }
    }

    /// Any of them may have no value.
    pub(crate) fn begin(&mut self) {
        self.place = 0;
        self.depth = 0;
    }

    // These literals and no others; none for want of memory.
    fn set(&mut self, lits: &[Lit]) -> Result<(), AllocError> {
        self.begin();
        self.fresh = true;
        self.lits.clear();
        self.lits.extend_from_slice(lits)
    }

    /// The first of them that can be decided, where so many decisions stand.
    pub(crate) fn next(&mut self, trail: &Trail, vars: Var, decisions: usize) -> Option<Lit>
        requires { trail.now.vars ≡ vars }
    {
        if decisions < self.depth {
            self.begin();
        }
        let place = find_undecided(self.lits.as_slice(), trail, vars, self.place);
        if self.place < place {
            self.place = place;
            self.depth = decisions;
        }
        self.lits.as_slice().get(place).copied()
    }

    /// Whether none of them was decided first yet. From now on one was.
    pub(crate) fn take_fresh(&mut self) -> bool {
        let fresh = self.fresh;
        self.fresh = false;
        fresh
    }
}

impl<P: Propagator> Search<'_, P> {
    /// Takes all decisions back. From now on these literals are decided first, in their order, as long as they have no value; no clause
    /// says which variables are decided.
    ///
    /// Want of memory is the one error: then none is decided first, and all decisions are taken back all the same.
    pub fn decide_first(&mut self, lits: &[Lit]) -> Result<(), AllocError>
        ensures { self.new ≡ record self.old { entries = cut 0 self.old.entries; decisions = []; ranking = self.new.ranking; last = None } }
    {
        self.state.undo_to(0);
        self.last = None;
        self.first.set(lits)
    }
}
