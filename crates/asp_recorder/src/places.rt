//! Which places a proof's lines have.
//!
//! A search gives a nogood's number to another one when it is gone. So does a proof with the place of its line: what is known there
//! is known until another line takes the place. But a nogood that other searches were told keeps its place for good, since they may
//! rest on it when this search has dropped it.
use asp_model::seq::Seq;
use std::alloc::{AllocError, Global};

// A nogood of so many literals is kept for good.
const SHORT: usize = 2;

// Where the line of a nogood is.
#[derive(Clone, Copy)]
struct Home {
    // its place, and 0 where it has none
    place: u32,
    // whether other searches may rest on the line
    is_shared: bool,
}

impl Home {
    // It has no place.
    const fn none() -> Home {
        Home {
            place: 0,
            is_shared: false,
        }
    }
}

/// The places of the lines of a search's nogoods.
#[derive(Drop)]
pub(crate) struct Places {
    // by a nogood's number, where its line is
    homes: Vec<Home>,
    // how many places there are
    count: u32,
}

impl Places {
    /// No places.
    pub(crate) fn new(alloc: Global) -> Places {
        Places {
            homes: Vec::new(alloc),
            count: 0,
        }
    }

    /// How many places there are: that of the lines of this search, and those that others had before.
    pub(crate) fn count(&self) -> u32 {
        self.count
    }

    /// There are so many places: the next new one comes behind them.
    pub(crate) fn set_count(&mut self, count: u32) {
        self.count = count;
    }

    // The line of this number's nogood is there from now on.
    fn set(&mut self, number: usize, home: Home) {
        if let Some(slot) = self.homes.get_mut(number) {
            *slot = home;
        }
    }

    // Where the line of this number's nogood is.
    fn home(&self, number: usize) -> Home {
        match self.homes.get(number) {
            Some(home) => *home,
            None => Home::none(),
        }
    }

    // There is a slot for the number.
    fn reach(&mut self, number: usize) -> Result<(), AllocError> {
        let count = number.saturating_add(1);
        if count > self.homes.len() {
            self.homes.resize(count, Home::none())?;
        }
        Ok(())
    }

    // The place that the number has, if nobody else may rest on what is there, or a new one.
    fn some_place(&mut self, number: usize) -> u32 {
        let home = self.home(number);
        if home.place > 0 && !home.is_shared {
            return home.place;
        }
        self.count = self.count.saturating_add(1);
        let place = self.count;
        self.set(
            number,
            Home {
                place,
                is_shared: false,
            },
        );
        place
    }

    /// The nogood with this number has no line.
    pub(crate) fn forget(&mut self, number: Option<usize>) {
        if let Some(number) = number {
            self.set(number, Home::none());
        }
    }

    /// The nogood with this number has its line at this place, which another search gave it.
    pub(crate) fn borrow_place(&mut self, number: usize, place: u32) -> Result<(), AllocError> {
        self.reach(number)?;
        self.set(
            number,
            Home {
                place,
                is_shared: true,
            },
        );
        Ok(())
    }

    /// Other searches are told the nogood with this number: its place is taken by no other line. The place, and 0 where it has none.
    pub(crate) fn share(&mut self, number: usize) -> u32 {
        let place = self.home(number).place;
        self.set(
            number,
            Home {
                place,
                is_shared: true,
            },
        );
        place
    }

    /// The place for the line of a nogood with this number, and of so many literals: 0 for one that is kept for good.
    pub(crate) fn place(
        &mut self,
        number: Option<usize>,
        literals: usize,
    ) -> Result<u32, AllocError> {
        let Some(number) = number else {
            return Ok(0);
        };
        self.reach(number)?;
        if literals <= SHORT {
            self.set(number, Home::none());
            return Ok(0);
        }
        Ok(self.some_place(number))
    }

    /// The places of the lines of these nogoods, of those that have one.
    pub(crate) fn names(&self, alloc: Global, numbers: &[usize]) -> Result<Seq<u32>, AllocError> {
        let mut names = Vec::new(alloc);
        for number in numbers {
            let place = self.home(*number).place;
            if place > 0 {
                names.push(place)?;
            }
        }
        Ok(Seq::from_vec(names))
    }
}
