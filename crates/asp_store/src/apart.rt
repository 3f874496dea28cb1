//! The nogoods that aren't watched: those that are to be looked at whole, and round them in time those that need no look
//! until the trail is cleared, as a literal of them is false at level 0.
ghost use Rattle.std.specs.Prelude.{◌≡◌, ◌+◌, ◌<◌, ◌≤◌, [], Some, OnOk, OnErr, length, slice_get};
ghost use Rattle.asp_store.specs.Parted.{Parted, Adds, Retires, Drops};

use std::alloc::{AllocError, Global};
use std::marker::Model;

/// Numbers, of which the first and the last are retired.
#[derive(Drop)]
pub struct Apart {
    // The numbers: retired ones, those that are to be looked at, and retired ones again.
    items: Vec<u32>,
    // The place of the first that is to be looked at.
    first: usize,
    // The place behind the last that is to be looked at.
    last: usize,
}

impl Model for Apart {
    ghost use Rattle.std.specs.Prelude.{length, ◌≤◌};
    ghost use Rattle.asp_store.specs.Parted.{Parted};

    ghost Value = { Parted };

    ghost view = { λ a. record { items = a.items.items; first = a.first; last = a.last } };

    ghost invariant = { λ a. (a.first ≤ a.last) × (a.last ≤ length a.items.items) };
}

impl Apart {
    /// No numbers.
    pub fn new(alloc: Global) -> Apart
        ensures { result ≡ record { items = []; first = 0; last = 0 } }
    {
        Apart {
            items: Vec::new(alloc),
            first: 0,
            last: 0,
        }
    }

    /// The place of the first that is to be looked at.
    pub fn first(&self) -> usize
        ensures { result ≡ self.now.first }
    {
        self.first
    }

    /// The place behind the last that is to be looked at.
    pub fn last(&self) -> usize
        ensures { result ≡ self.now.last }
    {
        self.last
    }

    /// The number at a place before the last.
    pub fn id(&self, i: usize) -> u32
        requires { i < self.now.last }
        ensures { slice_get self.now.items i ≡ Some result }
    {
        self.items[i]
    }

    /// A number that is to be looked at, behind the others. Want of memory leaves all as it was.
    pub fn push(&mut self, id: u32) -> Result<(), AllocError>
        ensures ok { OnOk result (Adds self.old self.new id) }
        ensures err { OnErr result (self.new ≡ self.old) }
    {
        let end = self.items.len();
        self.items.push(id)?;
        self.items.swap(self.last, end);
        self.last += 1;
        Ok(())
    }

    /// Drops the i-th number, which isn't retired. The last one takes its place.
    pub fn drop_at(&mut self, i: usize)
        requires within { i < self.old.last }
        requires waits { self.old.first ≤ i }
        ensures { Drops self.old self.new i }
    {
        self.last -= 1;
        self.items.swap(i, self.last);
        self.items.swap_remove(self.last);
    }

    /// Retires the i-th number. Those behind it stay where they are.
    pub fn retire_first(&mut self, i: usize)
        requires within { i < self.old.last }
        requires waits { self.old.first ≤ i }
        ensures { Retires self.old self.new i (i + 1) }
    {
        self.items.swap(self.first, i);
        self.first += 1;
    }

    /// Retires the i-th number. The last one takes its place.
    pub fn retire_last(&mut self, i: usize)
        requires within { i < self.old.last }
        requires waits { self.old.first ≤ i }
        ensures { Retires self.old self.new i i }
    {
        self.last -= 1;
        self.items.swap(i, self.last);
    }

    /// None is retired any more.
    pub fn recall(&mut self)
        ensures { self.new ≡ record self.old { first = 0; last = length self.old.items } }
    {
        self.first = 0;
        self.last = self.items.len();
    }
}
