//! The rows of a table read by their items: in which rows a key stands.
ghost use Rattle.std.specs.Prelude.{◌≡◌, ℕ, ◌<◌, ◌^◌, false, All, [], ◌++◌, OnOk, IfOk, length, slice_index_or, slice_set};
ghost use Rattle.asp_table.specs.Columns.{ends_in, with_last, cell_of, IsRead};

use crate::buckets::Buckets;
use crate::table::Table;
use std::alloc::{AllocError, Global};

/// Where something stands in a body's row.
#[derive(Clone, Copy)]
pub struct Occurrence {
    /// The body, counted from 0.
    pub body: u32,
    /// The place in its row, counted from 0.
    pub place: u32,
}

fn ends_in(cells: &[Occurrence], body: u32) -> bool
    ensures { result ≡ ends_in cells.now body }
{
    match cells.last() {
        Some(cell) => cell.body == body,
        None => false,
    }
}

// Adds an occurrence, unless one in the same body was the last.
fn add(
    columns: &mut Buckets<Occurrence>,
    key: usize,
    body: u32,
    place: u32,
) -> Result<(), AllocError>
    requires { key < length columns.old }
    ensures { OnOk result (columns.new ≡ slice_set columns.old key (with_last (slice_index_or columns.old key []) body place)) }
{
    if ends_in(columns.row(key), body) {
        return Ok(());
    }
    columns.push(key, Occurrence { body, place })
}

// Adds the keys of a body's row. A row too long for its places to be numbered is answered as want of memory.
fn add_row(columns: &mut Buckets<Occurrence>, body: u32, keys: &[u32]) -> Result<(), AllocError>
    requires within { All (λ k. k < length columns.old) keys.now }
    requires new { (k : ℕ) → k < length columns.old → ends_in (slice_index_or columns.old k []) body ≡ false }
    ensures count { OnOk result (length columns.new ≡ length columns.old) }
    ensures cells { OnOk result ((k : ℕ) → k < length columns.old → slice_index_or columns.new k [] ≡ slice_index_or columns.old k [] ++ cell_of body k keys.now) }
{
    if keys.len() > u32::MAX as usize {
        return Err(AllocError);
    }
    for (place, key) in keys.iter().enumerate() {
        add(columns, *key as usize, body, place as u32)?;
    }
    Ok(())
}

/// For each key below the count the rows in which it stands, ascending, with its first place there.
///
/// Want of memory is also the answer where a row has 4294967296 items or more.
pub fn columns(
    alloc: Global,
    count: usize,
    rows: &Table<u32>,
) -> Result<Table<Occurrence>, AllocError>
    requires few { length rows.now < 2 ^ 32 }
    requires within { All (λ row. All (λ k. k < count) row) rows.now }
    ensures { IfOk result (λ columns. IsRead columns count rows.now) }
{
    let mut columns = Buckets::new(alloc, count)?;
    for body in 0..rows.len() {
        add_row(&mut columns, body as u32, rows.row(body))?;
    }
    columns.into_table(alloc)
}
