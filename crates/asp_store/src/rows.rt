//! The rows of the nogoods' literals, of which the watched ones come first.
//!
//! A visit reads a row alone: neither the nogood's slot nor another list.
ghost use Rattle.std.specs.Prelude.{◌≡◌, ◌≢◌, ◌<◌, List, Some, IfNone, IfSome, IsTrue, OnOk, OnErr, if◌then◌else◌, length, slice_get, slice_index_or, slice_set};
ghost use Rattle.std.specs.Option.{is_some};
ghost use Rattle.asp_vars.specs.Literals.{Literal, has_literal, literal_eq};
ghost use Rattle.asp_arena.specs.Rows.{row_at};
ghost use Rattle.asp_store.specs.declared.watch.Pair.{Pair};
ghost use Rattle.asp_store.specs.Looking.{HaveSame, LeadsWith};
ghost use Rattle.asp_store.specs.Pairs.{pair_of, pair_at, IsOneOf, IsBeside};

use crate::looks::Spot;
use crate::watch::{Pair, other_of};
use asp_arena::arena::Arena;
use asp_vars::lit::Lit;
use std::alloc::AllocError;

/// Whether the nogood under a number is watched.
pub fn is_watched(rows: &Arena, id: u32) -> bool
    ensures { result ≡ is_some (pair_at rows.now id) }
{
    rows.row(id as usize).len() > 1
}

/// The other watch of the nogood under a number, if the nogood watches this literal.
pub fn watched_beside(rows: &Arena, id: u32, lit: Lit) -> Option<Lit>
    ensures none { IfNone result ((p : Pair) → pair_at rows.now id ≡ Some p → IsOneOf p lit → ⊥) }
    ensures some { IfSome result (λ other. (p : Pair) × (pair_at rows.now id ≡ Some p) × IsBeside p lit other) }
{
    let row = rows.row(id as usize);
    if row.len() < 2 {
        return None;
    }
    let first = row[0];
    let second = row[1];
    other_of(Pair { first, second }, lit)
}

// At which of the first two places the watch stands.
fn side_of(row: &[Lit], lit: Lit) -> usize
    requires { 0 < length row.now }
    ensures { (d : Literal) → result ≡ if literal_eq (slice_index_or row.now 0 d) lit then 0 else 1 }
{
    if row[0] == lit { 0 } else { 1 }
}

/// Another literal of the row becomes a watch in place of this one, beside the other. The next look begins at its place.
pub fn rewatch(rows: &mut Arena, id: u32, lit: Lit, other: Lit, spot: Spot)
    requires pair { (p : Pair) × (pair_at rows.old id ≡ Some p) × IsBeside p lit other }
    requires stands { slice_get (row_at rows.old id) spot.place ≡ Some spot.lit }
    requires is_new { (spot.lit ≢ lit) × (spot.lit ≢ other) }
    ensures { (row : List Literal) × (rows.new ≡ slice_set rows.old id row) × LeadsWith (row_at rows.old id) row spot.lit other }
{
    let side = side_of(rows.row(id as usize), lit);
    rows.swap(id as usize, side, spot.place);
    rows.set_start(id as usize, spot.place);
}

// The place of a literal of the row.
fn place_of(row: &[Lit], lit: Lit) -> usize
    requires { IsTrue (has_literal row.now lit) }
    ensures { slice_get row.now result ≡ Some lit }
{
    for (i, k) in row.iter().enumerate() {
        if *k == lit {
            return i;
        }
    }
    unreachable!()
}

/// Gives a number its row: these literals, and those of the pair come first. Want of memory leaves all as it was.
pub fn put_row(rows: &mut Arena, id: u32, lits: &[Lit], pair: Pair) -> Result<(), AllocError>
    requires within { id < length rows.old }
    requires first { IsTrue (has_literal lits.now pair.first) }
    requires second { IsTrue (has_literal lits.now pair.second) }
    requires differ { pair.first ≢ pair.second }
    ensures ok { OnOk result ((row : List Literal) × (rows.new ≡ slice_set rows.old id row) × (pair_of row ≡ Some pair) × HaveSame lits.now row) }
    ensures err { OnErr result (rows.new ≡ rows.old) }
{
    rows.put(id as usize, lits)?;
    let first = place_of(lits, pair.first);
    rows.swap(id as usize, 0, first);
    let second = place_of(rows.row(id as usize), pair.second);
    rows.swap(id as usize, 1, second);
    Ok(())
}
