//! By which kept nogoods something was found: what a proof's line names. It is advice alone, and no clause says it.
ghost use Rattle.std.specs.Prelude.{◌≤◌, ◌<◌, length};

use crate::learn::Learner;
use crate::marks::{Mark, Marks};
use asp_trail::reasons::{LATE, NogoodId};
use asp_trail::trail::Trail;
use asp_vars::lit::{Lit, Var};
use std::alloc::AllocError;

/// A kept nogood by which a literal was implied.
#[derive(Clone, Copy)]
pub struct Step {
    /// The place of the literal's entry on the trail.
    pub place: usize,
    /// The nogood's number.
    pub id: NogoodId,
}

// Adds the reason of an entry, if a kept nogood implied it.
fn add_entry(steps: &mut Vec<Step>, trail: &Trail, place: usize) -> Result<(), AllocError>
    requires { place < length trail.now.entries }
{
    if let Some(id) = trail.reason_at(place) {
        if id < LATE {
            steps.push(Step { place, id })?;
        }
    }
    Ok(())
}

// The same of a variable, if it has a value.
fn add_of(steps: &mut Vec<Step>, trail: &Trail, var: Var) -> Result<(), AllocError>
    requires { var ≤ trail.now.vars }
{
    if trail.value(var).is_none() {
        return Ok(());
    }
    let place = trail.place_of(var);
    add_entry(steps, trail, place)
}

// The same of a marked literal, if it was resolved.
fn add_marked(
    steps: &mut Vec<Step>,
    marks: &Marks,
    trail: &Trail,
    lit: Lit,
) -> Result<(), AllocError>
    requires small { lit.var < length marks.now.marks }
    requires vars { lit.var ≤ trail.now.vars }
{
    match marks.get(lit.var()) {
        Mark::Resolved => add_of(steps, trail, lit.var()),
        _ => Ok(()),
    }
}

/// Adds the reasons of all entries.
pub fn add_trail(steps: &mut Vec<Step>, trail: &Trail) -> Result<(), AllocError> {
    for place in 0..trail.len() {
        add_entry(steps, trail, place)?;
    }
    Ok(())
}

/// Leaves them in the order of the entries.
pub fn sort(steps: &mut Vec<Step>) {
    steps.sort_unstable_by_key(|step| step.place);
}

impl Learner {
    /// Adds the reasons with which literals of the last conflict were resolved.
    pub fn add_resolved(&self, steps: &mut Vec<Step>, trail: &Trail) -> Result<(), AllocError>
        requires { self.now ≤ trail.now.vars }
    {
        let marks = &self.marks;
        for lit in marks.lits() {
            add_marked(steps, marks, trail, *lit)?;
        }
        Ok(())
    }
}
