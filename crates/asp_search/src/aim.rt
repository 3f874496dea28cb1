//! Which atom a search for consequences is to show next.
//!
//! On the way down from an answer the atoms that are still to be shown are decided in their order, each so that it is shown, until
//! there is a conflict: so the next answer shows many. After a conflict only one is decided so, where no decision stands: if it can't
//! be shown, the search mostly learns that at once.
ghost use Rattle.std.specs.Prelude.{◌≡◌, IsTrue};
ghost use Rattle.std.specs.List.{All};
ghost use Rattle.asp_model.specs.Models.{atoms_of};
ghost use Rattle.asp_model.specs.Sets.{has};

use crate::covering::unshown_literal;
use crate::route::truth;
use asp_model::program::Atom;
use asp_model::results::Reasoning;
use asp_trail::trail::Trail;
use asp_vars::compiled::Compiled;
use asp_vars::known::Known;
use asp_vars::lit::{Lit, Var};

// A literal, and the place of its atom in the list.
#[derive(Clone, Copy)]
struct Find {
    /// None where each atom's variable has a value.
    lit: Option<Lit>,
    /// The atoms before it have values.
    place: usize,
}

// The literal that shows the first of the atoms, from this place on, whose variable has no value.
fn first_open(
    trail: &Trail,
    vars: Var,
    compiled: &Compiled,
    reasoning: Reasoning,
    atoms: &[Atom],
    from: usize,
) -> Find
    requires vars { trail.now.vars ≡ vars }
    requires atoms { All (λ a. IsTrue (has (atoms_of compiled.now) a)) atoms.now }
{
    for place in from..atoms.len() {
        let unshown = unshown_literal(compiled, reasoning, atoms[place]);
        if truth(trail, vars, unshown).is_none() {
            return Find {
                lit: Some(unshown.complement()),
                place,
            };
        }
    }
    Find {
        lit: None,
        place: atoms.len(),
    }
}

/// Where the next atom is looked for, in the list of those still to be shown.
#[derive(Clone, Copy)]
pub(crate) struct Aim {
    /// Those before this place have values without a decision.
    fixed: usize,
    /// Those before this place have values on the way down from an answer; None where a conflict ended it.
    passed: Option<usize>,
    /// Whether none was found since the last answer.
    fresh: bool,
}

impl Aim {
    /// Before the first answer, or on another path.
    pub(crate) fn unset() -> Aim {
        Aim {
            fixed: 0,
            passed: None,
            fresh: true,
        }
    }

    /// After an answer, its own or others'.
    pub(crate) fn begun() -> Aim {
        Aim {
            fixed: 0,
            passed: Some(0),
            fresh: true,
        }
    }

    /// There was a conflict.
    pub(crate) fn stop(&mut self) {
        self.passed = None;
    }

    /// Whether none was found since the last answer.
    pub(crate) fn is_fresh(&self) -> bool {
        self.fresh
    }

    // Where no decision stands.
    fn next_fixed(
        &mut self,
        trail: &Trail,
        vars: Var,
        compiled: &Compiled,
        known: &Known,
    ) -> Option<Lit>
        requires vars { trail.now.vars ≡ vars }
        requires program { known.now.program ≡ compiled.now }
    {
        let Find { lit, place } = first_open(
            trail,
            vars,
            compiled,
            known.reasoning(),
            known.unshown(),
            self.fixed,
        );
        self.fixed = place;
        lit
    }

    // On the way down from an answer.
    fn next_passed(
        &mut self,
        trail: &Trail,
        vars: Var,
        compiled: &Compiled,
        known: &Known,
    ) -> Option<Lit>
        requires vars { trail.now.vars ≡ vars }
        requires program { known.now.program ≡ compiled.now }
    {
        match self.passed {
            None => None,
            Some(passed) => {
                let Find { lit, place } = first_open(
                    trail,
                    vars,
                    compiled,
                    known.reasoning(),
                    known.unshown(),
                    passed,
                );
                self.passed = Some(place);
                lit
            }
        }
    }

    fn found(
        &mut self,
        trail: &Trail,
        vars: Var,
        compiled: &Compiled,
        known: &Known,
        decided: bool,
    ) -> Option<Lit>
        requires vars { trail.now.vars ≡ vars }
        requires program { known.now.program ≡ compiled.now }
    {
        if !known.is_some() {
            None
        } else if decided {
            self.next_passed(trail, vars, compiled, known)
        } else {
            self.next_fixed(trail, vars, compiled, known)
        }
    }

    /// What is to be decided next, if it is to be chosen by what it shows.
    pub(crate) fn next(
        &mut self,
        trail: &Trail,
        vars: Var,
        compiled: &Compiled,
        known: &Known,
        decided: bool,
    ) -> Option<Lit>
        requires vars { trail.now.vars ≡ vars }
        requires program { known.now.program ≡ compiled.now }
    {
        let next = self.found(trail, vars, compiled, known, decided);
        if next.is_some() {
            self.fresh = false;
        }
        next
    }
}
