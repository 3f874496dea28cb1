//! The way on which a search found answers.
//!
//! After an answer its last decision is taken back: below the others that side was searched. So the answers found on a path lie
//! along one way, at each turn of which nothing of the other side was searched, or all of it. When decisions were taken back, as
//! after a restart or in a half of its path, the search decides along that way again. Else it would find answers here and there,
//! and the path could be split by no literal that all of them have.
ghost use Rattle.std.specs.Prelude.{◌≡◌, ◌<◌, length};
ghost use Rattle.std.specs.Option.{IfSome};

use asp_trail::trail::Trail;
use asp_vars::lit::{Lit, Var};
use std::alloc::{AllocError, Global};

/// A literal on the way.
#[derive(Clone, Copy)]
pub(crate) struct Turn {
    /// What holds from here on.
    pub(crate) lit: Lit,
    /// Whether its complement was searched, and answers were found there. Else nothing was searched there.
    pub(crate) searched: bool,
}

/// The way on which answers were found.
#[derive(Drop)]
pub(crate) struct Route {
    /// Whether it is kept. A search that gives no half of its path away wants none.
    kept: bool,
    /// The cube of the path on which it begins.
    from: Vec<Lit>,
    /// The turns, in the order in which they were decided.
    turns: Vec<Turn>,
    /// While so many decisions stand, each turn holds.
    depth: usize,
}

/// Whether a literal holds, if its variable has a value.
pub(crate) fn truth(trail: &Trail, vars: Var, lit: Lit) -> Option<bool>
    requires { trail.now.vars ≡ vars }
{
    if lit.var() > vars {
        return None;
    }
    match trail.value(lit.var()) {
        None => None,
        Some(truth) => Some(truth == lit.truth()),
    }
}

// Whether a literal holds without a decision.
fn is_fixed(trail: &Trail, vars: Var, lit: Lit) -> bool
    requires { trail.now.vars ≡ vars }
{
    if lit.var() > vars {
        return false;
    }
    match trail.value(lit.var()) {
        None => false,
        Some(truth) => truth == lit.truth() && trail.level_of(lit.var()) == 0,
    }
}

// The place of the first turn that doesn't hold.
fn find_open(turns: &[Turn], trail: &Trail, vars: Var) -> Option<usize>
    requires { trail.now.vars ≡ vars }
    ensures { IfSome result (λ at. at < length turns.now) }
{
    for at in 0..turns.len() {
        if truth(trail, vars, turns[at].lit) != Some(true) {
            return Some(at);
        }
    }
    None
}

impl Route {
    /// None so far, and none is kept.
    pub(crate) fn new(alloc: Global) -> Route {
        Route {
            kept: false,
            from: Vec::new(alloc),
            turns: Vec::new(alloc),
            depth: usize::MAX,
        }
    }

    /// It is kept from now on.
    pub(crate) fn keep(&mut self) {
        self.kept = true;
    }

    // No answer was found on the path with this cube. For want of memory the way isn't known on it.
    fn begin(&mut self, cube: &[Lit]) {
        self.turns.clear();
        self.from.clear();
        let _ = self.from.extend_from_slice(cube);
    }

    // Goes past the turns up to that at which the path is split. False where it leaves the way, to a side that wasn't searched.
    fn pass(&mut self, lit: Lit) -> bool {
        for _ in 0..self.turns.len() {
            match self.turns.first().copied() {
                None => return false,
                Some(turn) => {
                    if turn.lit == lit.complement() {
                        return turn.searched;
                    }
                    self.turns.remove(0);
                    if turn.lit == lit {
                        return self.from.push(lit).is_ok();
                    }
                }
            }
        }
        false
    }

    // Goes on in a part of the path. False where it leaves the way.
    fn pass_all(&mut self, lits: &[Lit]) -> bool {
        for lit in lits {
            if !self.pass(*lit) {
                return false;
            }
        }
        true
    }

    /// A path is entered: a part of that on which the way began, or another.
    pub(crate) fn reach(&mut self, cube: &[Lit]) {
        if !self.kept {
            return;
        }
        self.depth = usize::MAX;
        let on = match cube.strip_prefix(self.from.as_slice()) {
            None => false,
            Some(more) => self.pass_all(more),
        };
        if !on {
            self.begin(cube);
        }
    }

    // Whether the way is known on the path, whose cube has so many literals: not so beside the way, on a side that was searched.
    fn is_known(&self, len: usize) -> bool {
        self.kept && len == self.from.len()
    }

    // What comes after the turns that hold up to this one, while so many decisions stand. One that is refuted was searched.
    fn turn(&mut self, at: usize, trail: &Trail, vars: Var, decisions: usize) -> Option<Lit>
        requires place { at < length self.old.turns.items }
        requires vars { trail.now.vars ≡ vars }
    {
        let lit = self.turns[at].lit;
        if truth(trail, vars, lit).is_none() {
            self.depth = usize::MAX;
            return Some(lit);
        }
        self.turns[at] = Turn {
            lit: lit.complement(),
            searched: true,
        };
        self.turns.truncate(at + 1);
        self.depth = decisions;
        None
    }

    /// What is to be decided next on the way, where so many decisions stand on the path, whose cube has so many literals.
    pub(crate) fn next(
        &mut self,
        len: usize,
        trail: &Trail,
        vars: Var,
        decisions: usize,
    ) -> Option<Lit>
        requires { trail.now.vars ≡ vars }
    {
        if !self.is_known(len) || decisions >= self.depth {
            return None;
        }
        match find_open(self.turns.as_slice(), trail, vars) {
            None => {
                self.depth = decisions;
                None
            }
            Some(at) => self.turn(at, trail, vars, decisions),
        }
    }

    // Adds what was decided behind the last turn, and that the last decision was searched.
    fn extend(&mut self, decisions: &[Lit], last: Lit) -> Result<(), AllocError> {
        for at in self.depth..decisions.len() {
            self.turns.push(Turn {
                lit: decisions[at],
                searched: false,
            })?;
        }
        self.turns.push(Turn {
            lit: last.complement(),
            searched: true,
        })?;
        Ok(())
    }

    // Drops the turns from this one on.
    fn leave(&mut self, lit: Lit) {
        for _ in 0..self.turns.len() {
            match self.turns.pop() {
                None => return,
                Some(turn) => {
                    if turn.lit == lit {
                        return;
                    }
                }
            }
        }
    }

    // The last decision, behind which an answer was found, was taken back, and these stand: a turn that was taken back goes.
    fn follow(&mut self, decisions: &[Lit], last: Lit) -> Result<(), AllocError> {
        if decisions.len() < self.depth {
            self.leave(last);
        }
        self.extend(decisions, last)
    }

    /// An answer was found on the path, whose cube has so many literals: these decisions stand, and this one was taken back, if
    /// there was one.
    pub(crate) fn add(&mut self, len: usize, decisions: &[Lit], last: Option<Lit>) {
        match last {
            Some(last) if self.is_known(len) => match self.follow(decisions, last) {
                Ok(()) => self.depth = decisions.len(),
                Err(_) => self.turns.clear(),
            },
            _ => {}
        }
    }

    /// The first turn that isn't settled on the path, whose cube has so many literals.
    pub(crate) fn front(&self, len: usize, trail: &Trail, vars: Var) -> Option<Turn>
        requires { trail.now.vars ≡ vars }
    {
        if !self.is_known(len) {
            return None;
        }
        for turn in self.turns.as_slice() {
            if turn.searched || !is_fixed(trail, vars, turn.lit) {
                return Some(*turn);
            }
        }
        None
    }

    /// Whether the path, whose cube has so many literals, lies beside the way, on a side that was searched.
    pub(crate) fn is_aside(&self, len: usize) -> bool {
        self.kept && len != self.from.len()
    }
}
