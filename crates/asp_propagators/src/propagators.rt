//! The three propagators of a program, which are told the same.
//!
//! It keeps true, after every list of calls: each of the three was told of the same program, and of the same values. So
//! a call that tells has to tell all three. Asked, the costlier answer only where the others are silent: weight bodies
//! first, then the bound, then unfounded sets.
//!
//! Only `new` and `next` take memory. After want of it the values told and the bound are those before the call, so a
//! search can go on, or take back what it told.
ghost use Rattle.std.specs.Prelude.{◌≡◌, None, IfOk};
ghost use Rattle.asp_bound.specs.Gathered.{valueless};

use asp_bound::bound::Bound;
use asp_bound::given::BY_BOUND;
use asp_model::cost::Cost;
use asp_propagate::propagator::Propagator;
use asp_recorder::recorder::Recorder;
use asp_source::sources::Sources;
use asp_trail::said::{Implied, Said};
use asp_trail::trail::Trail;
use asp_vars::compiled::Compiled;
use asp_vars::lit::Lit;
use asp_vars::nogood::Nogood;
use asp_weight::weights::Weights;
use std::alloc::{AllocError, Global};
use std::marker::Model;

/// The weight bodies, the bound and the possible loops of a program.
#[derive(Drop)]
pub struct Propagators<'a> {
    /// Gives nogoods of weight bodies: of a body by its literals, and the other way round.
    weights: Weights,
    /// Gives nogoods of answers that cost as much as the best one so far, or more; its Model is that of all three.
    bound: Bound,
    /// Gives loop nogoods: of atoms that have no source outside themselves any more.
    sources: Sources<'a>,
    // what is told of each loop nogood that is given, if somebody wants it
    recorder: Option<&'a Recorder>,
}

impl<'a> Model for Propagators<'a> {
    ghost use Rattle.std.specs.Prelude.{◌≡◌};
    ghost use Rattle.asp_bound.specs.Bounded.{Bounded};

    ghost Value = { Bounded };

    ghost view = { λ p. p.bound };

    ghost invariant = { λ p. (p.weights ≡ p.bound.told) × (p.sources ≡ p.bound.told) };
}

impl<'a> Propagators<'a> {
    /// The propagators of a program, told of no values and of no bound, as a search begins. The tables are borrowed.
    ///
    /// Want of memory is the one error.
    pub fn new(alloc: Global, compiled: &'a Compiled) -> Result<Propagators<'a>, AllocError>
        ensures { IfOk result (λ p. p ≡ record { told = record { program = compiled.now; values = valueless compiled.now }; bound = None }) }
    {
        let weights = Weights::new(alloc, compiled)?;
        let bound = Bound::new(alloc, compiled)?;
        let sources = Sources::new(alloc, compiled)?;
        Ok(Propagators {
            weights,
            bound,
            sources,
            recorder: None,
        })
    }

    /// From now on the recorder, if there is one, gets the loops whose nogoods are given, each with its set.
    pub fn record(&mut self, recorder: Option<&'a Recorder>)
        ensures { self.new ≡ self.old }
    {
        self.recorder = recorder;
    }

    // Tells the recorder of a nogood that was given and is no loop's, if it is one.
    fn note_other(&self, said: &Said) -> Result<(), AllocError> {
        match (self.recorder, said) {
            (Some(recorder), Said::Nogood(_)) => recorder.add_other(),
            _ => Ok(()),
        }
    }

    // Tells the recorder of the loop nogood that was given.
    fn note(&self, nogood: &Nogood) -> Result<(), AllocError> {
        match self.recorder {
            Some(recorder) => recorder.add_loop(self.sources.last_set(), nogood.lits.as_slice()),
            None => Ok(()),
        }
    }
}

impl<'a> Propagator for Propagators<'a> {
    ghost use Rattle.asp_propagators.specs.Saying.{AreSilent, gives as may_give, explains as may_explain, late as may_write};
    ghost use Rattle.asp_propagators.specs.LateLaws.{late-given, follows-lower, follows-reasoned};
    ghost use Rattle.asp_propagators.specs.CountLaws.{gives-count};
    ghost use Rattle.asp_propagators.specs.WholeLaws.{silent-keeps};

    ghost told = { λ p. p.told };

    ghost bound = { λ p. p.bound };

    ghost gives = { may_give };

    ghost explains = { may_explain };

    ghost late = { may_write };

    ghost given = { late-given };

    ghost stands = { follows-lower };

    ghost reasoned = { follows-reasoned };

    ghost silent = { AreSilent };

    ghost sound = { gives-count };

    ghost whole = { silent-keeps };

    fn assign(&mut self, lit: Lit) {
        self.weights.assign(lit);
        self.bound.assign(lit);
        self.sources.assign(lit);
    }

    fn undo(&mut self, lit: Lit) {
        self.weights.undo(lit);
        self.bound.undo(lit);
        self.sources.undo(lit);
    }

    fn set_bound(&mut self, cost: Cost) {
        self.bound.set(cost);
    }

    fn next(&mut self, trail: &Trail) -> Result<Option<Said>, AllocError> {
        if let Some(said) = self.weights.next(trail)? {
            self.note_other(&said)?;
            return Ok(Some(said));
        }
        if let Some(said) = self.bound.next(trail)? {
            self.note_other(&said)?;
            return Ok(Some(said));
        }
        if let Some(nogood) = self.sources.next(trail)? {
            self.note(&nogood)?;
            return Ok(Some(Said::Nogood(nogood)));
        }
        Ok(None)
    }

    // Of weight bodies only one literal is said at a time.
    fn more(&mut self, trail: &Trail) -> Option<Implied> {
        self.bound.more(trail)
    }

    // Weight bodies and the bound say that a reason is written later.
    fn explain(&self, trail: &Trail, place: usize, name: u32) -> Result<Nogood, AllocError> {
        if name == BY_BOUND {
            return self.bound.explain(trail, place);
        }
        self.weights.explain(trail, place, name)
    }
}
