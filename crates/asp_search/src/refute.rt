//! Which literals no answer has together that is still to come.
ghost use Rattle.std.specs.Prelude.{◌≡◌, ◌≤◌, ◌++◌, ◌∷◌, [], List, None, Some, IfOk, IfSome, IsSome, IsTrue, OnErr, OnOk, take};
ghost use Rattle.asp_vars.specs.Literals.{Literal, complement, has_literal, holds_in};
ghost use Rattle.asp_trail.specs.Entries.{assignment};
ghost use Rattle.asp_search.specs.Beside.{IsAhead, Propagates};
ghost use Rattle.asp_search.specs.Refuting.{IsFalseAmong, IsRefutation, are_first};

use crate::search::Search;
use asp_propagate::propagator::Propagator;
use asp_trail::trail::Trail;
use asp_vars::lit::{Lit, Var};
use std::alloc::{AllocError, Global};

// Whether the literal stands in the list.
fn has_literal(lits: &[Lit], wanted: Lit) -> bool
    ensures { result ≡ has_literal lits.now wanted }
{
    lits.iter().any(|lit| *lit == wanted)
}

// Whether the first decisions, so many of them, are all among the literals.
fn are_first(decisions: &[Lit], count: usize, lits: &[Lit]) -> bool
    ensures { result ≡ are_first decisions.now count lits.now }
{
    decisions
        .iter()
        .take(count)
        .all(|decision| has_literal(lits, *decision))
}

// Whether the literal's complement holds.
fn is_false(trail: &Trail, vars: Var, lit: Lit) -> bool
    requires { trail.now.vars ≡ vars }
    ensures small { IsTrue result → lit.var ≤ vars }
    ensures holds { IsTrue result → IsTrue (holds_in (assignment vars trail.now.entries) (complement lit)) }
{
    lit.var() <= vars && trail.assignment().is_false(lit)
}

// A literal that is false, and its level.
#[derive(Clone, Copy)]
struct FalseLit {
    lit: Lit,
    level: usize,
}

// The first of the literals that is false.
fn false_literal(trail: &Trail, vars: Var, lits: &[Lit]) -> Option<FalseLit>
    requires { trail.now.vars ≡ vars }
    ensures { IfSome result (λ found. IsFalseAmong vars trail.now.entries lits.now found.lit found.level) }
{
    for lit in lits {
        if is_false(trail, vars, *lit) {
            return Some(FalseLit {
                lit: *lit,
                level: trail.level_of(lit.var()),
            });
        }
    }
    None
}

// The first decisions, so many of them.
fn first(alloc: Global, decisions: &[Lit], count: usize) -> Result<Vec<Lit>, AllocError>
    ensures { IfOk result (λ lits. lits.items ≡ take count decisions.now) }
{
    decisions.iter().take(count).copied().collect(alloc)
}

// The first decisions, so many of them, and the literal.
fn with_first(
    alloc: Global,
    decisions: &[Lit],
    count: usize,
    lit: Lit,
) -> Result<Vec<Lit>, AllocError>
    ensures { IfOk result (λ lits. lits.items ≡ take count decisions.now ++ lit ∷ []) }
{
    let mut lits = first(alloc, decisions, count)?;
    lits.push(lit)?;
    Ok(lits)
}

impl<P: Propagator> Search<'_, P> {
    // Implies what follows, unless the cube clashes.
    fn imply_all(&mut self) -> Result<(), AllocError>
        requires { IsSome self.old.cube }
        ensures { OnOk result (IsAhead self.old self.new) }
    {
        if self.state.is_clashing() {
            return Ok(());
        }
        let _program = self.compiled.program();
        let before = self.state.trail().len();
        self.state.propagate()?;
        let more = self.state.trail().len().saturating_sub(before);
        self.ahead = self.ahead.saturating_add(more);
        Ok(())
    }

    /// Implies what follows, as a step does first, so that `refutation` knows it. Where a kept nogood is violated then, the next step learns
    /// from it. What propagators give here isn't noted.
    ///
    /// Want of memory is the one error: then no path is entered.
    pub fn propagate(&mut self) -> Result<(), AllocError>
        requires { IsSome self.old.cube }
        ensures ok { OnOk result (Propagates self.old self.new) }
        ensures lost { OnErr result (self.new.cube ≡ None) }
    {
        match self.imply_all() {
            Ok(()) => {
                let _level = self.level();
                Ok(())
            }
            Err(error) => {
                self.leave();
                Err(error)
            }
        }
    }

    /// Some of these literals, which no answer has together that is still to come on the path: one of them is false, and these are that
    /// one and the decisions up to its level. None where none is false, or one of these decisions isn't among the literals: then there may
    /// be such an answer or none. It looks at each literal, and where one is false at each decision of its level and of those below.
    ///
    /// Want of memory is the one error.
    pub fn refutation(&self, lits: &[Lit]) -> Result<Option<Vec<Lit>>, AllocError>
        ensures { (q : List Literal) → self.now.cube ≡ Some q → IfOk result (λ found. IfSome found (λ n. IsRefutation self.now q lits.now n.items)) }
    {
        if self.state.is_clashing() {
            return Ok(None);
        }
        let _program = self.compiled.program();
        let _store = self.state.store();
        let vars = self.compiled.vars();
        let Some(found) = false_literal(self.state.trail(), vars, lits) else {
            return Ok(None);
        };
        if !are_first(self.state.decisions(), found.level, lits) {
            return Ok(None);
        }
        let decisions = self.state.decisions();
        let refutation = with_first(self.alloc, decisions, found.level, found.lit)?;
        Ok(Some(refutation))
    }
}
