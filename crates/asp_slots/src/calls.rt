//! Adding to a row, and reading from it.
ghost use Rattle.std.specs.Prelude.{◌≡◌, ◌+◌, ◌-◌, ◌++◌, ◌<◌, ◌≤◌, true, false, All, List, length, IfOk, IfErr, OnOk, OnErr};
ghost use Rattle.asp_vars.specs.declared.nogood.Nogood.{Nogood};
ghost use Rattle.asp_log.specs.Entries.{IsEntry};
ghost use Rattle.asp_slots.specs.Rules.{SLOT_COUNT, NotIn, Draws, drawing, seeing};
ghost use Rattle.asp_slots.specs.Seats.{view, IsOf, IsBeside};

use crate::row::{Row, RowSeat, SLOTS};
use crate::slot::Placed;
use asp_vars::nogood::Nogood;
use std::alloc::{AllocError, Global};
use std::sync::Wait;

/// All numbers were drawn.
#[derive(Drop)]
pub struct RowFull {
    /// The nogood that was to be added.
    pub nogood: Nogood,
}

/// Draws a number, and puts the entry into the slot with that number. It comes back exactly where all numbers were drawn.
pub fn append<R: Wait>(
    rt: &R,
    row: &Row,
    seat: &mut RowSeat,
    entry: Nogood,
) -> Result<Placed, RowFull>
    requires of { IsOf row.now seat.old }
    requires entry { IsEntry row.now.program.value entry }
    ensures of { IsBeside seat.old seat.new }
    ensures seen { (view seat.old).seen ≤ (view seat.new).seen }
    // The number is a new one.
    ensures number { IfOk result (λ placed. (placed.number < SLOT_COUNT) × ((view seat.old).seen ≤ placed.number) × NotIn placed.number (view seat.old).own) }
    ensures drawn { IfOk result (λ placed. view seat.new ≡ drawing placed.number (view seat.old)) }
    // This entry was put into the slot.
    ensures placed { IfOk result (λ placed. placed.entry.value ≡ entry) }
    ensures full { IfErr result (λ full. (full.nogood ≡ entry) × (view seat.new ≡ seeing SLOT_COUNT (view seat.old))) }
{
    let mut next = row.count(seat);
    for _ in rt.forever() {
        if next == SLOTS {
            return Err(RowFull { nogood: entry });
        }
        let found = row.draw(seat, next);
        if found == next {
            return Ok(row.fill(rt, next, entry));
        }
        next = found;
    }
    unreachable!()
}

// Puts copies of the entries with these numbers at the end of a list, as far as memory goes.
fn add_copies<R: Wait>(
    rt: &R,
    row: &Row,
    from: u32,
    to: u32,
    list: &mut Vec<Nogood>,
) -> Result<(), AllocError>
    requires { (from ≤ to) × (to ≤ SLOT_COUNT) }
    ensures ok { OnOk result ((added : List Nogood) × (list.new.items ≡ list.old.items ++ added) × (length added ≡ to - from) × All (IsEntry row.now.program.value) added) }
    ensures some { (added : List Nogood) × (list.new.items ≡ list.old.items ++ added) }
{
    for at in from..to {
        list.push(row.wait_for(rt, at)?)?;
    }
    Ok(())
}

/// Puts copies of the entries from a number on at the end of a list, and answers how many numbers were drawn. Where memory
/// runs out the list stays as it was.
pub fn read<R: Wait>(
    rt: &R,
    row: &Row,
    seat: &mut RowSeat,
    from: u32,
    list: &mut Vec<Nogood>,
) -> Result<u32, AllocError>
    requires of { IsOf row.now seat.old }
    requires from { from ≤ (view seat.old).seen }
    ensures of { IsBeside seat.old seat.new }
    ensures seen { (view seat.old).seen ≤ (view seat.new).seen }
    ensures few { (view seat.new).seen ≤ SLOT_COUNT }
    ensures own { (view seat.new).own ≡ (view seat.old).own }
    ensures ok { IfOk result (λ t. (t ≡ (view seat.new).seen) × ((added : List Nogood) × (list.new.items ≡ list.old.items ++ added) × (length added ≡ t - from) × All (IsEntry row.now.program.value) added)) }
    ensures err { OnErr result (list.new.items ≡ list.old.items) }
{
    let to = row.count(seat);
    let before = list.len();
    match add_copies(rt, row, from, to, list) {
        Ok(()) => Ok(to),
        Err(error) => {
            list.truncate(before);
            Err(error)
        }
    }
}

/// Puts an entry into the slot with the next number. False where all numbers were drawn, and then the entry is dropped.
pub(crate) fn add<R: Wait>(rt: &R, row: &Row, seat: &mut RowSeat, entry: Nogood) -> bool
    requires of { IsOf row.now seat.old }
    requires entry { IsEntry row.now.program.value entry }
    ensures of { IsBeside seat.old seat.new }
    ensures seen { (view seat.old).seen ≤ (view seat.new).seen }
    ensures adds { result ≡ true → Draws (view seat.old) (view seat.new) }
    ensures refuses { result ≡ false → view seat.new ≡ seeing SLOT_COUNT (view seat.old) }
{
    match append(rt, row, seat, entry) {
        Ok(_) => true,
        Err(_) => false,
    }
}

/// Copies of the entries from a number on.
pub(crate) fn copies<R: Wait>(
    rt: &R,
    alloc: Global,
    row: &Row,
    seat: &mut RowSeat,
    from: u32,
) -> Result<Vec<Nogood>, AllocError>
    requires of { IsOf row.now seat.old }
    requires from { from ≤ (view seat.old).seen }
    ensures of { IsBeside seat.old seat.new }
    ensures seen { (view seat.old).seen ≤ (view seat.new).seen }
    ensures few { (view seat.new).seen ≤ SLOT_COUNT }
    ensures count { IfOk result (λ copies. from + length copies.items ≡ (view seat.new).seen) }
    ensures good { IfOk result (λ copies. All (IsEntry row.now.program.value) copies.items) }
{
    let mut copies = Vec::new(alloc);
    let _count = read(rt, row, seat, from, &mut copies)?;
    Ok(copies)
}
