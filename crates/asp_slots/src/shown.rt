//! What a reader of either log has.
ghost use Rattle.std.specs.Prelude.{◌≡◌, ◌^◌, ◌<◌, length, slice_get, Some};
ghost use Rattle.asp_slots.specs.Shelves.{listed};

use asp_log::View;
use asp_vars::nogood::Nogood;

/// Entries that were read, as a reader has them outside the log.
#[derive(Drop)]
pub enum Shown {
    /// Of blocks, which are shared.
    Blocks(View),
    /// Copies of what lies in slots.
    Row(Vec<Nogood>),
}

impl Shown {
    /// How many entries there are.
    pub fn len(&self) -> u32
        requires { length (listed self.now) < 2 ^ 32 }
        ensures { result ≡ length (listed self.now) }
    {
        match self {
            Shown::Blocks(view) => view.len(),
            Shown::Row(copies) => copies.len() as u32,
        }
    }

    /// The entry at a place, counted from 0.
    pub fn entry(&self, i: u32) -> &Nogood
        requires { i < length (listed self.now) }
        ensures { slice_get (listed self.now) i ≡ Some result.now }
    {
        match self {
            Shown::Blocks(view) => view.entry(i),
            Shown::Row(copies) => &copies[i as usize],
        }
    }
}
