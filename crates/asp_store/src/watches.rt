//! All that is known of watches: the lists by literal, the rows by number, and the numbers that aren't watched.
ghost use Rattle.std.specs.Prelude.{◌≡◌, ◌++◌, ◌∷◌, [], IfOk, OnOk, OnErr, replicate};
ghost use Rattle.asp_store.specs.Parted.{Parted, Adds};

use crate::apart::Apart;
use crate::lists::WatchLists;
use asp_arena::arena::Arena;
use std::alloc::{AllocError, Global};

/// The watches of all nogoods.
#[derive(Drop)]
pub struct Watches {
    /// For each literal the places of those that watch it.
    pub lists: WatchLists,
    /// For each number the literals of its nogood, the watched ones first, or none if it isn't watched.
    pub rows: Arena,
    /// The numbers that aren't watched.
    pub apart: Apart,
}

impl Watches {
    /// No watches, in lists for so many literals.
    pub fn new(alloc: Global, literals: usize) -> Result<Watches, AllocError>
        ensures { IfOk result (λ w. w ≡ record { lists = replicate literals []; rows = []; apart = record { items = []; first = 0; last = 0 } }) }
    {
        let lists = WatchLists::new(alloc, literals)?;
        Ok(Watches {
            lists,
            rows: Arena::new(alloc),
            apart: Apart::new(alloc),
        })
    }

    /// One number more, to be looked at whole. Want of memory leaves all as it was.
    pub fn push(&mut self, id: u32) -> Result<(), AllocError>
        ensures ok { OnOk result ((a : Parted) × Adds self.old.apart a id × (self.new ≡ record self.old { rows = self.old.rows ++ [] ∷ []; apart = a })) }
        ensures err { OnErr result (self.new ≡ self.old) }
    {
        self.rows.push()?;
        match self.apart.push(id) {
            Ok(()) => Ok(()),
            Err(error) => {
                self.rows.pop();
                Err(error)
            }
        }
    }
}
