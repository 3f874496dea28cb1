//! What a recorder has under its lock.
use crate::finds::Finds;
use crate::places::Places;
use asp_model::cost::Cost;
use asp_model::interp::Interp;
use asp_model::seq::Seq;
use asp_proof::proof::{Line, Sought};
use std::alloc::{AllocError, Global};
use std::mem;

/// A set of atoms that can't found each other, and its loop nogood.
#[derive(Drop)]
pub(crate) struct Loop {
    pub(crate) set: Interp,
    pub(crate) nogood: Seq<i32>,
}

/// A nogood that was imported, whose line isn't sought yet.
#[derive(Clone, Copy)]
pub(crate) struct Imported {
    /// Its number in the search.
    pub(crate) number: usize,
    /// The code of its literals.
    pub(crate) code: u64,
}

/// What a recorder has under its lock.
#[derive(Drop)]
pub(crate) struct State {
    // where memory comes from
    alloc: Global,
    // the lines that nobody has taken, the oldest first
    pub(crate) lines: Vec<Line>,
    // the sets that have a line
    pub(crate) finds: Finds,
    // whether no line is wanted any more
    pub(crate) refused: bool,
    // which places the lines have
    pub(crate) places: Places,
    // what propagators gave, the oldest first, whose numbers aren't known yet: loops, and others that need no line
    waiting: Vec<Option<Loop>>,
    // what was imported, whose lines aren't sought yet
    pub(crate) imported: Vec<Imported>,
}

impl State {
    /// No lines.
    pub(crate) fn new(alloc: Global, sought: Sought) -> State {
        State {
            alloc,
            lines: Vec::new(alloc),
            finds: Finds::new(sought),
            refused: false,
            places: Places::new(alloc),
            waiting: Vec::new(alloc),
            imported: Vec::new(alloc),
        }
    }

    /// The lines so far, the oldest first, which are gone then. None where there are none.
    pub(crate) fn take_lines(&mut self) -> Option<Vec<Line>> {
        if self.lines.is_empty() {
            return None;
        }
        Some(mem::replace(&mut self.lines, Vec::new(self.alloc)))
    }

    /// Adds a line at the end. After want of memory the lines are those before.
    pub(crate) fn add(&mut self, line: Line) -> Result<(), AllocError> {
        if self.refused {
            return Err(AllocError);
        }
        self.lines.push(line)?;
        Ok(())
    }

    /// Adds the line of a set, if it has one.
    pub(crate) fn find(&mut self, set: &Interp, cost: Option<&Cost>) -> Result<(), AllocError> {
        if self.refused {
            return Err(AllocError);
        }
        self.finds.find(self.alloc, &mut self.lines, set, cost)
    }

    /// A second search begins, which rests on no line of the first: it has the places of these again.
    pub(crate) fn begin_second(&mut self) {
        self.places = Places::new(self.alloc);
        self.waiting.clear();
        self.finds.begin_second();
    }

    /// A propagator gave a nogood, of a loop or another one.
    pub(crate) fn wait(&mut self, given: Option<Loop>) -> Result<(), AllocError> {
        self.waiting.push(given)?;
        Ok(())
    }

    /// Whether a loop waits for its number.
    pub(crate) fn has_loop(&self) -> bool {
        for given in &self.waiting {
            if given.is_some() {
                return true;
            }
        }
        false
    }

    // Adds the line of what was given, if it needs one, under this number, if it has one.
    fn place_one(&mut self, given: Option<Loop>, number: Option<usize>) -> Result<(), AllocError> {
        match given {
            None => {
                self.places.forget(number);
                Ok(())
            }
            Some(Loop { set, nogood }) => {
                let place = self.places.place(number, nogood.as_slice().len())?;
                self.add(Line::Loop { place, set, nogood })
            }
        }
    }

    /// What propagators gave has these numbers, in that order. Those without a number are kept for good.
    pub(crate) fn place_given(&mut self, numbers: &[usize]) -> Result<(), AllocError> {
        if self.waiting.is_empty() {
            return Ok(());
        }
        let waiting = mem::replace(&mut self.waiting, Vec::new(self.alloc));
        let mut at: usize = 0;
        for given in waiting {
            self.place_one(given, numbers.get(at).copied())?;
            at = at.saturating_add(1);
        }
        Ok(())
    }

    /// Adds the line of a nogood with its number, if it has one, and so many literals, which names the lines of those by which it
    /// was found.
    pub(crate) fn add_learned(
        &mut self,
        number: Option<usize>,
        nogood: Seq<i32>,
        uses: &[usize],
    ) -> Result<(), AllocError> {
        let names = self.places.names(self.alloc, uses)?;
        let place = self.places.place(number, nogood.as_slice().len())?;
        self.add(Line::Learned {
            place,
            nogood,
            names,
        })
    }

    /// A nogood that another search told was imported with this number, and its literals have this code. Where memory is wanting for
    /// that, its line isn't sought.
    pub(crate) fn import(&mut self, number: usize, code: u64) {
        self.places.forget(Some(number));
        let _noted = self.imported.push(Imported { number, code });
    }
}
