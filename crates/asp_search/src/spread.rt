//! Over how many levels the literals of a learnt nogood are spread (its LBD: Audemard, Simon 2009), and which nogoods it was
//! learnt from. Both only choose what is dropped later, so no clause speaks of them.
ghost use Rattle.std.specs.Prelude.{◌≡◌, ◌≤◌};
ghost use Rattle.std.specs.List.{All};
ghost use Rattle.asp_vars.specs.Numbering.{var_count};

use asp_propagate::propagator::Propagator;
use asp_state::state::SearchState;
use asp_trail::reasons::NogoodId;
use asp_trail::trail::Trail;
use asp_vars::lit::{Lit, Var};
use std::alloc::{AllocError, Global};

/// Counts levels, each once.
#[derive(Drop)]
pub struct Spread {
    // for each level the number of the last count in which it was seen
    seen: Vec<u32>,
    // how many counts there were, by which `seen` need not be cleared
    counts: u32,
    // how many levels the last literals had
    last: u32,
}

// The level of a variable, 0 where it has no value.
fn level_of(trail: &Trail, var: Var) -> usize
    requires { var ≤ trail.now.vars }
{
    match trail.value(var) {
        None => 0,
        Some(_) => trail.level_of(var),
    }
}

// The nogood that implied a variable at this level.
fn reason_at(trail: &Trail, var: Var, level: usize) -> Option<NogoodId>
    requires { var ≤ trail.now.vars }
{
    match trail.value(var) {
        None => None,
        Some(_) => if trail.level_of(var) == level {
            trail.reason_of(var)
        } else {
            None
        },
    }
}

impl Spread {
    /// For as many levels as there are variables, and level 0.
    pub fn new(alloc: Global, vars: u32) -> Result<Spread, AllocError> {
        let seen = vec![in alloc; 0; vars as usize + 1]?;
        Ok(Spread {
            seen,
            counts: 0,
            last: 0,
        })
    }

    // Begins a count.
    fn begin(&mut self) {
        if self.counts == u32::MAX {
            self.seen.as_mut_slice().fill(0);
            self.counts = 0;
        }
        self.counts += 1;
    }

    // Whether the level wasn't seen in this count.
    fn is_new(&mut self, level: usize) -> bool {
        if level >= self.seen.len() || self.seen[level] == self.counts {
            return false;
        }
        self.seen[level] = self.counts;
        true
    }

    /// How many levels the literals have.
    pub fn count(&mut self, trail: &Trail, lits: &[Lit]) -> u32
        requires { All (λ l. l.var ≤ trail.now.vars) lits.now }
    {
        self.begin();
        let mut count: u32 = 0;
        for lit in lits {
            if self.is_new(level_of(trail, lit.var())) {
                count = count.saturating_add(1);
            }
        }
        self.last = count;
        count
    }

    /// How many levels the literals had that were counted last.
    pub fn last(&self) -> u32 {
        self.last
    }
}

// Says that the nogood was used that implied the variable at this level.
fn note_reason<P: Propagator>(state: &mut SearchState<P>, var: Var, level: usize)
    requires { var ≤ var_count state.old.program }
    ensures { state.new ≡ state.old }
{
    if let Some(id) = reason_at(state.trail(), var, level) {
        state.used(id);
    }
}

/// Says that the nogoods were used that implied the variables met at the point's level.
pub(crate) fn note_used<P: Propagator>(state: &mut SearchState<P>, met: &[Lit], point: Var)
    requires point { point ≤ var_count state.old.program }
    requires met { All (λ l. l.var ≤ var_count state.old.program) met.now }
    ensures { state.new ≡ state.old }
{
    let level = level_of(state.trail(), point);
    for lit in met {
        note_reason(state, lit.var(), level);
    }
}
