//! What was seen of the kept nogoods: of how many levels they were when they were learnt, and how much they were used.
//! No call's meaning rests on it: it chooses which nogoods are dropped.
use crate::slots::is_spare_slot;
use crate::stored_nogood::StoredNogood;
use asp_trail::reasons::NogoodId;
use std::alloc::{AllocError, Global};

// A nogood of no more levels is kept.
const FEW_LEVELS: u32 = 2;

// By this part a use is worth more than one before the nogood that was added last.
const AGEING: u64 = 512;

const FIRST_WORTH: u64 = 1 << 20;

// Beyond it all worths are divided by 2^30.
const MOST_WORTH: u64 = 1 << 50;

#[derive(Clone, Copy)]
struct Note {
    // grows at each use, and begins with that of one use
    worth: u64,
    // how many levels its literals had when it was learnt
    levels: u32,
}

/// A note for each number, but for those of the first nogoods, as long as these are kept forever.
#[derive(Drop)]
pub struct Notes {
    // the first number that has a note
    first: usize,
    // by number, from the first one on
    notes: Vec<Note>,
    // worths and numbers of those that may be dropped, the least worth first
    order: Vec<(u64, u32)>,
    // what a use is worth now
    worth: u64,
}

impl Notes {
    /// No numbers.
    pub fn new(alloc: Global) -> Notes {
        Notes {
            first: 0,
            notes: Vec::new(alloc),
            order: Vec::new(alloc),
            worth: FIRST_WORTH,
        }
    }

    /// The number is of a new nogood, of so many levels: 0 for one that is kept forever.
    pub fn put(&mut self, id: NogoodId, levels: u32) -> Result<(), AllocError> {
        if levels == 0 && self.notes.is_empty() {
            self.first = self.first.max(id.saturating_add(1));
            return Ok(());
        }
        if id < self.first {
            self.note_all()?;
        }
        // What is kept forever needs no worth.
        if levels != 0 {
            self.age();
        }
        self.set(
            id,
            Note {
                worth: self.worth,
                levels,
            },
        )
    }

    // From now on each number has a note.
    fn note_all(&mut self) -> Result<(), AllocError> {
        let mut notes = vec![in *self.notes.allocator(); Note {
            worth: 0,
            levels: 0
        }; self.first]?;
        notes.extend_from_slice(self.notes.as_slice())?;
        self.notes = notes;
        self.first = 0;
        Ok(())
    }

    fn set(&mut self, id: NogoodId, note: Note) -> Result<(), AllocError> {
        let place = id.saturating_sub(self.first);
        if place < self.notes.len() {
            self.notes[place] = note;
        } else {
            self.notes.push(note)?;
        }
        Ok(())
    }

    // A use is worth more from now on.
    fn age(&mut self) {
        self.worth = self.worth.saturating_add(self.worth / AGEING);
        if self.worth > MOST_WORTH {
            self.rescale();
        }
    }

    // Divides all worths.
    fn rescale(&mut self) {
        for note in self.notes.as_mut_slice().iter_mut() {
            note.worth >>= 30;
        }
        self.worth >>= 30;
    }

    /// The nogood was used.
    pub fn used(&mut self, id: NogoodId) {
        if id < self.first {
            return;
        }
        let place = id - self.first;
        if place < self.notes.len() {
            let worth = self.notes[place].worth;
            self.notes[place].worth = worth.saturating_add(self.worth);
        }
    }

    /// Offers all nogoods that may be dropped.
    pub fn offer_all(&mut self, slots: &[Option<StoredNogood>]) {
        self.order.clear();
        for (id, slot) in slots.iter().enumerate() {
            if is_spare_slot(slot) && id < u32::MAX as usize {
                self.offer(id as u32);
            }
        }
    }

    // The nogood may be dropped, unless it is of few levels. Where memory is wanting it stays.
    fn offer(&mut self, id: u32) {
        if (id as usize) < self.first {
            return;
        }
        let place = id as usize - self.first;
        if place >= self.notes.len() {
            return;
        }
        let note = self.notes[place];
        if note.levels > FEW_LEVELS {
            let _ = self.order.push((note.worth, id));
        }
    }

    /// How many the less used half of those is, rounded down. They are the first.
    pub fn half(&mut self) -> usize {
        let _ = self.order.sort();
        self.order.len() / 2
    }

    /// One of those.
    pub fn chosen(&self, i: usize) -> Option<u32> {
        if i < self.order.len() {
            Some(self.order[i].1)
        } else {
            None
        }
    }
}
