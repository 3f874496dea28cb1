//! Lists of lists in one flat array.
ghost use Rattle.std.specs.Prelude.{◌≡◌, ◌+◌, ◌<◌, [], ◌∷◌, ◌++◌, IfOk, OnOk, OnErr, length, take, drop, slice_index, slice_index_or, ◌-◌, ◌≤◌};

use crate::narrow::narrow;
use std::alloc::{AllocError, Global};
use std::marker::Model;

/// Rows of items, one after another. Contracts see the list of the rows.
#[derive(Drop)]
pub struct Table<T> {
    /// For each row where it starts in `items`, and one more for where the last one ends.
    starts: Vec<u32>,
    /// The items of all rows, one row after another.
    items: Vec<T>,
}

impl<T> Model for Table<T> {
    ghost use Rattle.std.specs.Prelude.{List};
    ghost use Rattle.asp_table.specs.Tables.{rows_from, AreStarts};

    ghost Value = { List (List T) };

    ghost view = { λ t. rows_from t.starts.items t.items.items };

    ghost invariant = { λ t. AreStarts t.starts.items t.items.items };
}

impl<T: Copy> Table<T> {
    pub fn new(alloc: Global) -> Result<Table<T>, AllocError>
        ensures { IfOk result (λ t. t ≡ []) }
    {
        let starts = vec![in alloc; 0]?;
        Ok(Table {
            starts,
            items: Vec::new(alloc),
        })
    }

    /// The table with one more row. Want of memory is also the answer where the rows have 4294967296 items or more together.
    pub fn with_row(self, row: &[T]) -> Result<Table<T>, AllocError>
        ensures { IfOk result (λ t. t ≡ self ++ row.now ∷ []) }
    {
        let Table {
            mut starts,
            mut items,
        } = self;
        items.extend_from_slice(row)?;
        let end = narrow(items.as_slice().len())?;
        starts.push(end)?;
        Ok(Table { starts, items })
    }

    /// One more row. Want of memory leaves all as it was, as do 4294967296 items or more together.
    pub fn push_row(&mut self, row: &[T]) -> Result<(), AllocError>
        ensures ok { OnOk result (self.new ≡ self.old ++ row.now ∷ []) }
        ensures err { OnErr result (self.new ≡ self.old) }
    {
        let end = end_behind(self.items.len(), row.len())?;
        self.starts.reserve(1)?;
        self.items.extend_from_slice(row)?;
        self.starts.push_reserved(end);
        Ok(())
    }

    /// How many rows there are.
    pub fn len(&self) -> usize
        ensures { result ≡ length self.now }
    {
        rows_of(self.starts.as_slice())
    }

    pub fn row(&self, i: usize) -> &[T]
        requires { i < length self.now }
        ensures { result.now ≡ slice_index_or self.now i [] }
    {
        row_of(self.starts.as_slice(), self.items.as_slice(), i)
    }
}

// Where so many items end behind these, if it isn't too far.
fn end_behind(start: usize, count: usize) -> Result<u32, AllocError>
    ensures { IfOk result (λ end. end ≡ start + count) }
{
    match start.checked_add(count) {
        Some(end) => narrow(end),
        None => Err(AllocError),
    }
}

// The row from the i-th start.
fn row_of<'a, T>(starts: &[u32], items: &'a [T], i: usize) -> &'a [T]
    requires i { i + 1 < length starts.now }
    requires rise { slice_index starts.now i ≤ slice_index starts.now (i + 1) }
    requires within { slice_index starts.now (i + 1) ≤ length items.now }
    ensures { result.now ≡ take (slice_index starts.now (i + 1) - slice_index starts.now i) (drop (slice_index starts.now i) items.now) }
{
    let from = starts[i] as usize;
    let to = starts[i + 1] as usize;
    &items[from..to]
}

// One row goes from each start but the last.
fn rows_of(starts: &[u32]) -> usize
    ensures { result ≡ length starts.now - 1 }
{
    if starts.is_empty() {
        0
    } else {
        starts.len() - 1
    }
}
