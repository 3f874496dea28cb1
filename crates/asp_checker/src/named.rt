//! Which of the nogoods that a line names is to be looked at next. This is advice alone, as the watches are.
ghost use Rattle.std.specs.Prelude.{◌≡◌, ◌+◌, length};

use crate::hints::{fails, holds};
use asp_vars::assign::Assign;
use asp_vars::lit::Lit;
use asp_vars::nogood::Lits;
use std::alloc::{AllocError, Global};

/// The places that a line names.
#[derive(Drop)]
pub(crate) struct Named {
    // Those that are still to be looked at, the next one last.
    ahead: Vec<u32>,
    // Those that said nothing when they were looked at.
    behind: Vec<u32>,
    // How many literals held when the first of those was looked at.
    held: usize,
}

// What a nogood is good for.
enum Say {
    // It can't be hit any more.
    Nothing,
    // Two of its literals have no value.
    NotYet,
    // All of its literals hold but one at most.
    Now,
}

fn says(values: &Assign, vars: u32, lits: &[Lit]) -> Say
    requires { length values.now ≡ vars + 1 }
{
    let mut open = 0;
    for lit in lits {
        if fails(values, vars, *lit) {
            return Say::Nothing;
        }
        if !holds(values, vars, *lit) {
            if open > 0 {
                return Say::NotYet;
            }
            open = 1;
        }
    }
    Say::Now
}

// The same of a place's nogood, if it has one.
fn say_at(placed: &[Lits], values: &Assign, vars: u32, place: usize) -> Say
    requires { length values.now ≡ vars + 1 }
{
    match placed.get(place) {
        Some(row) => says(values, vars, row.as_slice()),
        None => Say::Nothing,
    }
}

impl Named {
    /// No places.
    pub(crate) fn new(alloc: Global) -> Named {
        Named {
            ahead: Vec::new(alloc),
            behind: Vec::new(alloc),
            held: usize::MAX,
        }
    }

    /// Leaves none.
    pub(crate) fn clear(&mut self) {
        self.ahead.clear();
        self.behind.clear();
        self.held = usize::MAX;
    }

    /// From now on these are to be looked at, in this order.
    pub(crate) fn name(&mut self, places: &[u32]) -> Result<(), AllocError> {
        self.clear();
        for at in 0..places.len() {
            self.ahead.push(places[places.len() - 1 - at])?;
        }
        Ok(())
    }

    // Those that said nothing are to be looked at again.
    fn turn(&mut self) -> Result<(), AllocError> {
        for _ in 0..u64::MAX {
            let Some(place) = self.behind.pop() else {
                return Ok(());
            };
            self.ahead.push(place)?;
        }
        Ok(())
    }

    // The next of those ahead that says something.
    fn next_ahead(
        &mut self,
        placed: &[Lits],
        values: &Assign,
        vars: u32,
    ) -> Result<Option<usize>, AllocError>
        requires { length values.now ≡ vars + 1 }
    {
        for _ in 0..u64::MAX {
            let Some(name) = self.ahead.pop() else {
                return Ok(None);
            };
            let place = (name as usize).saturating_sub(1);
            match say_at(placed, values, vars, place) {
                Say::Nothing => {}
                Say::NotYet => self.behind.push(name)?,
                Say::Now => return Ok(Some(place)),
            }
        }
        Ok(None)
    }

    /// The next of them that says something, where so many literals hold.
    pub(crate) fn next(
        &mut self,
        placed: &[Lits],
        values: &Assign,
        vars: u32,
        held: usize,
    ) -> Result<Option<usize>, AllocError>
        requires { length values.now ≡ vars + 1 }
    {
        if let Some(place) = self.next_ahead(placed, values, vars)? {
            return Ok(Some(place));
        }
        if self.held == held {
            return Ok(None);
        }
        self.held = held;
        self.turn()?;
        self.next_ahead(placed, values, vars)
    }
}
