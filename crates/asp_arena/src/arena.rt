//! Lists of literals in one array: a clause arena, as in MiniSat (Eén and Sörensson, 2003).
//!
//! A change of a row's length writes the row again behind all others, and leaves its old cells as waste. Where more than half
//! of the cells are waste, the rows are gathered into new ones first. So the cells are at most about twice the literals, and
//! the gathering costs a constant for each literal that was written.
ghost use Rattle.std.specs.Prelude.{◌≡◌, ◌+◌, ◌-◌, ◌<◌, ◌++◌, ◌∷◌, [], IfOk, OnOk, OnErr, length, slice_set, swap};
ghost use Rattle.asp_arena.specs.Rows.{row_at};

use crate::span::{NO_ROW, Span, append, part};
use asp_vars::lit::Lit;
use std::alloc::{AllocError, Global};
use std::marker::Model;

/// A row of literals for each number. Contracts see the list of the rows.
#[derive(Drop)]
pub struct Arena {
    // By the number. No two have a cell together.
    spans: Vec<Span>,
    // The literals of all rows, and those of no row any more.
    cells: Vec<Lit>,
    // About how many cells are of no row. Only when to gather depends on it.
    waste: usize,
}

impl Model for Arena {
    ghost use Rattle.std.specs.Prelude.{List};
    ghost use Rattle.asp_vars.specs.Literals.{Literal};
    ghost use Rattle.asp_arena.specs.Rows.{rows_of, AreSpans};

    ghost Value = { List (List Literal) };

    ghost view = { λ a. rows_of a.spans.items a.cells.items };

    ghost invariant = { λ a. AreSpans a.spans.items a.cells.items };
}

impl Arena {
    /// No numbers.
    pub fn new(alloc: Global) -> Arena
        ensures { result ≡ [] }
    {
        Arena {
            spans: Vec::new(alloc),
            cells: Vec::new(alloc),
            waste: 0,
        }
    }

    /// One number more, which has no row. Want of memory leaves all as it was.
    pub fn push(&mut self) -> Result<(), AllocError>
        ensures ok { OnOk result (self.new ≡ self.old ++ [] ∷ []) }
        ensures err { OnErr result (self.new ≡ self.old) }
    {
        self.spans.push(NO_ROW)?;
        Ok(())
    }

    /// Takes the last number away.
    pub fn pop(&mut self)
        ensures { 0 < length self.old → self.old ≡ self.new ++ row_at self.old (length self.old - 1) ∷ [] }
    {
        if let Some(span) = self.spans.pop() {
            self.waste = self.waste.saturating_add(span.len as usize);
        }
    }

    /// The row of a number. It is empty where the number wasn't given out.
    pub fn row(&self, id: usize) -> &[Lit]
        ensures { result.now ≡ row_at self.now id }
    {
        if id < self.spans.len() {
            part(self.cells.as_slice(), self.spans[id])
        } else {
            &[]
        }
    }

    // One number more, with its row.
    fn push_row(&mut self, lits: &[Lit], next: u32) -> Result<(), AllocError>
        ensures { OnOk result (self.new ≡ self.old ++ lits.now ∷ []) }
    {
        let span = append(&mut self.cells, lits, next)?;
        self.spans.push(span)?;
        Ok(())
    }

    // The same rows without waste.
    fn gathered(&self) -> Result<Arena, AllocError>
        ensures { IfOk result (λ a. a ≡ self.now) }
    {
        let mut gathered = Arena::new(*self.cells.allocator());
        for id in 0..self.spans.len() {
            let next = self.spans[id].next;
            gathered.push_row(self.row(id), next)?;
        }
        Ok(gathered)
    }

    // Gathers the rows, if more than half of the cells are waste and there is memory for it.
    fn compact(&mut self)
        ensures { self.new ≡ self.old }
    {
        if self.waste > self.cells.len() / 2 {
            if let Ok(gathered) = self.gathered() {
                *self = gathered;
            }
        }
    }

    /// Gives a number its row. Want of memory leaves all as it was, as do more than 2^32 literals in all.
    pub fn put(&mut self, id: usize, lits: &[Lit]) -> Result<(), AllocError>
        requires { id < length self.old }
        ensures ok { OnOk result (self.new ≡ slice_set self.old id lits.now) }
        ensures err { OnErr result (self.new ≡ self.old) }
    {
        self.compact();
        let span = append(&mut self.cells, lits, 0)?;
        self.waste = self.waste.saturating_add(self.spans[id].len as usize);
        self.spans[id] = span;
        Ok(())
    }

    /// Takes a number's row away.
    pub fn clear(&mut self, id: usize)
        requires { id < length self.old }
        ensures { self.new ≡ slice_set self.old id [] }
    {
        self.waste = self.waste.saturating_add(self.spans[id].len as usize);
        self.spans[id] = NO_ROW;
    }

    /// Two literals of a number's row change places.
    pub fn swap(&mut self, id: usize, i: usize, j: usize)
        requires i { i < length (row_at self.old id) }
        requires j { j < length (row_at self.old id) }
        ensures { self.new ≡ slice_set self.old id (swap (row_at self.old id) i j) }
    {
        let start = self.spans[id].start as usize;
        self.cells.swap(start + i, start + j);
    }

    /// Where in a number's row a look begins best: any place will do.
    pub fn start(&self, id: usize) -> usize {
        if id < self.spans.len() {
            self.spans[id].next as usize
        } else {
            0
        }
    }

    /// The next look begins at this place.
    pub fn set_start(&mut self, id: usize, place: usize)
        ensures { self.new ≡ self.old }
    {
        if let Ok(next) = u32::try_from(place) {
            if id < self.spans.len() {
                self.spans[id].next = next;
            }
        }
    }
}
