//! Which literals of long bodies hold, a bit for each: what a reason is gathered from without a walk over the row.
//!
//! They are hints. Nothing is proved of them: a literal that they name is looked up on the trail before it is used, and where those
//! that they name don't reach the sum, the row is walked. A literal's place names its bit, so one walk over a variable's places sets
//! the bits and keeps the sums.
ghost use Rattle.std.specs.Prelude.{◌≤◌, ◌<◌, IfSome};

use crate::item::{Item, Place};
use asp_table::narrow::narrow;
use asp_table::table::Table;
use asp_vars::lit::Var;
use std::alloc::{AllocError, Global};

/// The nogoods of bodies with more literals are written when they are asked for.
pub const LONG: usize = 24;

/// The bit of a place that has none.
pub const NO_BIT: u32 = u32::MAX;

/// The literals of long bodies that hold, and those whose complements hold.
#[derive(Drop)]
pub struct Held {
    /// By weight body, the bit of its first literal; `NO_BIT` if it is short. Empty where no body is long.
    starts: Vec<u32>,
    /// A bit for each literal: it holds.
    yes: Vec<u64>,
    /// A bit for each literal: its complement holds.
    no: Vec<u64>,
}

/// Those of one body on one side.
#[derive(Clone, Copy)]
pub struct Marked<'a> {
    /// The bits of all bodies.
    words: &'a [u64],
    /// The number of the body's first literal.
    start: usize,
}

impl<'a> Marked<'a> {
    /// The place in the row, of so many literals, of the first one from this place on.
    pub fn next(self, from: usize, len: usize) -> Option<usize>
        ensures { IfSome result (λ at. (from ≤ at) × (at < len)) }
    {
        let bit = next_bit(
            self.words,
            self.start.saturating_add(from),
            self.start.saturating_add(len),
        )?;
        let at = bit.saturating_sub(self.start);
        if from <= at && at < len {
            Some(at)
        } else {
            None
        }
    }
}

// The first bit from this one on that is set, of those up to the end's word.
fn next_bit(words: &[u64], from: usize, end: usize) -> Option<usize> {
    let first = from / 64;
    if first >= words.len() {
        return None;
    }
    let word = words[first] >> (from % 64);
    if word != 0 {
        return Some(from.saturating_add(word.trailing_zeros() as usize));
    }
    for i in first + 1..words.len().min(end / 64 + 1) {
        if words[i] != 0 {
            return Some(
                i.saturating_mul(64)
                    .saturating_add(words[i].trailing_zeros() as usize),
            );
        }
    }
    None
}

fn set(words: &mut [u64], bit: u32) {
    let word = (bit / 64) as usize;
    if word < words.len() {
        words[word] |= 1 << (bit % 64);
    }
}

fn unset(words: &mut [u64], bit: u32) {
    let word = (bit / 64) as usize;
    if word < words.len() {
        words[word] &= !(1 << (bit % 64));
    }
}

// Whether a body is long.
fn is_long(row: &[Item]) -> bool {
    row.len() > LONG
}

fn has_long(rows: &Table<Item>) -> bool {
    for body in 0..rows.len() {
        if is_long(rows.row(body)) {
            return true;
        }
    }
    false
}

impl Held {
    // Where no body is long.
    fn none(alloc: Global) -> Held {
        Held {
            starts: Vec::new(alloc),
            yes: Vec::new(alloc),
            no: Vec::new(alloc),
        }
    }

    /// For the bodies with these rows, where no variable has a value.
    ///
    /// Want of memory is the one error.
    pub fn new(alloc: Global, rows: &Table<Item>) -> Result<Held, AllocError> {
        if !has_long(rows) {
            return Ok(Held::none(alloc));
        }
        let mut starts = Vec::with_capacity(alloc, rows.len())?;
        let mut bits = 0;
        for body in 0..rows.len() {
            let row = rows.row(body);
            if is_long(row) {
                starts.push(narrow(bits)?)?;
                bits = bits.saturating_add(row.len());
            } else {
                starts.push(NO_BIT)?;
            }
        }
        let words = bits / 64 + 1;
        Ok(Held {
            starts,
            yes: vec![in alloc; 0; words]?,
            no: vec![in alloc; 0; words]?,
        })
    }

    /// The bit of a body's first literal; `NO_BIT` if the body is short.
    pub fn first_bit(&self, body: usize) -> u32 {
        if body < self.starts.len() {
            self.starts[body]
        } else {
            NO_BIT
        }
    }

    /// The variable of a literal with this place got the value. A place without a bit changes nothing.
    #[inline(always)]
    pub fn set(&mut self, place: &Place, truth: bool) {
        if place.truth == truth {
            set(self.yes.as_mut_slice(), place.bit);
        } else {
            set(self.no.as_mut_slice(), place.bit);
        }
    }

    /// It lost the value.
    #[inline(always)]
    pub fn unset(&mut self, place: &Place, truth: bool) {
        if place.truth == truth {
            unset(self.yes.as_mut_slice(), place.bit);
        } else {
            unset(self.no.as_mut_slice(), place.bit);
        }
    }

    /// What the bits say of a body, where literals have these places.
    pub fn of<'a>(&'a self, places: &'a Table<Place>, body: usize) -> Hints<'a> {
        Hints {
            places,
            body,
            start: self.first_bit(body) as usize,
            yes: self.yes.as_slice(),
            no: self.no.as_slice(),
        }
    }
}

/// What the bits say of one body.
#[derive(Clone, Copy)]
pub struct Hints<'a> {
    /// By variable, where it stands in weight bodies, body after body.
    places: &'a Table<Place>,
    /// The body's number.
    body: usize,
    /// The number of the body's first literal.
    start: usize,
    /// The bits of all bodies for literals that hold.
    yes: &'a [u64],
    /// The bits of all bodies for literals whose complements hold.
    no: &'a [u64],
}

impl<'a> Hints<'a> {
    /// The literals of the body that hold, or those whose complements hold.
    pub fn marked(&self, side: bool) -> Marked<'a> {
        let words = if side { self.yes } else { self.no };
        Marked {
            words,
            start: self.start,
        }
    }

    /// In a long body, the first place in its row, of so many literals, where one of the variable stands.
    pub fn place_of(&self, var: Var, len: usize) -> Option<usize>
        ensures { IfSome result (λ at. at < len) }
    {
        let var = var as usize;
        if var >= self.places.len() {
            return None;
        }
        let places = self.places.row(var);
        let first = places.partition_point(|place| (place.body as usize) < self.body);
        if first >= places.len() {
            return None;
        }
        let at = (places[first].bit as usize).saturating_sub(self.start);
        if at < len { Some(at) } else { None }
    }
}
