//! Lists that grow side by side.
ghost use Rattle.std.specs.Prelude.{◌≡◌, ◌<◌, [], ◌∷◌, ◌++◌, IfOk, OnOk, length, replicate, slice_index_or, slice_set};

use crate::table::Table;
use std::alloc::{AllocError, Global};
use std::marker::Model;

/// A list that contracts see by its items alone.
#[derive(Drop)]
struct Row<T> {
    /// The items, in their order.
    items: Vec<T>,
}

impl<T> Model for Row<T> {
    ghost use Rattle.std.specs.Prelude.{List};

    ghost Value = { List T };

    ghost view = { λ r. r.items.items };
}

impl<T> Row<T> {
    fn push(&mut self, item: T) -> Result<(), AllocError>
    where
        T: Drop,
        ensures { OnOk result (self.new ≡ self.old ++ item ∷ []) }
    {
        self.items.push(item)?;
        Ok(())
    }
}

/// Lists, to each of which items can be added. Contracts see the list of the lists.
#[derive(Drop)]
pub struct Buckets<T> {
    /// The lists.
    rows: Vec<Row<T>>,
}

impl<T> Model for Buckets<T> {
    ghost use Rattle.std.specs.Prelude.{List};

    ghost Value = { List (List T) };

    ghost view = { λ b. b.rows.items };
}

impl<T: Copy> Buckets<T> {
    /// So many empty lists.
    pub fn new(alloc: Global, count: usize) -> Result<Buckets<T>, AllocError>
        ensures { IfOk result (λ b. b ≡ replicate count []) }
    {
        let mut rows = Vec::with_capacity(alloc, count)?;
        for _ in 0..count {
            rows.push(Row {
                items: Vec::new(alloc),
            })?;
        }
        Ok(Buckets { rows })
    }

    /// Adds an item to a list. After an error nothing is known of the lists.
    pub fn push(&mut self, row: usize, item: T) -> Result<(), AllocError>
        requires { row < length self.old }
        ensures { OnOk result (self.new ≡ slice_set self.old row (slice_index_or self.old row [] ++ item ∷ [])) }
    {
        let row = &mut self.rows[row];
        row.push(item)
    }

    /// How many lists there are.
    pub fn len(&self) -> usize
        ensures { result ≡ length self.now }
    {
        self.rows.len()
    }

    /// One of the lists.
    pub fn row(&self, row: usize) -> &[T]
        requires { row < length self.now }
        ensures { result.now ≡ slice_index_or self.now row [] }
    {
        let row = &self.rows[row];
        row.items.as_slice()
    }

    /// The same lists in one flat array.
    pub fn into_table(self, alloc: Global) -> Result<Table<T>, AllocError>
        ensures { IfOk result (λ t. t ≡ self) }
    {
        let mut table = Table::new(alloc)?;
        for row in 0..self.len() {
            table = table.with_row(self.row(row))?;
        }
        Ok(table)
    }
}
