//! A log of either kind: blocks under a lock, or a row of slots.
ghost use Rattle.std.specs.Prelude.{◌≡◌, ◌+◌, ◌^◌, ◌<◌, ◌≤◌, ◌↔◌, ℕ, IsTrue, false, true, IfOk};
ghost use Rattle.asp_log.specs.Entries.{IsEntry};
ghost use Rattle.asp_slots.specs.Shelves.{program_of, limit_of, is_row, seen_count, listed, IsAt, ReadsOn, IsFirst, HasRoom, HasSplit, TakesBack, HasAllBack, Adds, Refuses, AreRead};

use crate::block_log::BlockLog;
use crate::calls;
use crate::row::{Row, RowSeat, SLOTS};
use crate::shown::Shown;
use asp_log::Log;
use asp_vars::compiled::Compiled;
use asp_vars::nogood::Nogood;
use asp_vault::Seat;
use std::alloc::{AllocError, Global};
use std::sync::Wait;

/// A log to which many searches of one program add learnt nogoods, and from which they read.
#[derive(Drop)]
pub enum Shelf {
    /// Blocks under a lock.
    Blocks(BlockLog),
    /// Slots without a lock.
    Row(Row),
}

/// What one search adds and reads with.
#[derive(Drop)]
pub enum ShelfSeat {
    /// At a log of blocks.
    Blocks(Seat<Log>),
    /// At a row.
    Row(RowSeat),
}

impl Shelf {
    /// An empty log for a program, as a row or as blocks that may have so many entries, and the first seat.
    pub fn make(
        alloc: Global,
        compiled: &Compiled,
        limit: u32,
        row: bool,
    ) -> Result<(Shelf, ShelfSeat), AllocError>
        ensures kind { IfOk result (λ r. is_row r.0 ≡ row) }
        ensures program { IfOk result (λ r. program_of r.0 ≡ compiled.now) }
        ensures limit { row ≡ false → IfOk result (λ r. limit_of r.0 ≡ limit) }
        ensures at { IfOk result (λ r. IsAt r.0 r.1) }
        ensures first { IfOk result (λ r. IsFirst r.1 × HasSplit r.1 0) }
        ensures none { IfOk result (λ r. seen_count r.1 ≡ 0) }
    {
        if row {
            let (row, seat) = Row::make(alloc, compiled)?;
            Ok((Shelf::Row(row), ShelfSeat::Row(seat)))
        } else {
            let (blocks, seat) = BlockLog::make(alloc, compiled, limit)?;
            Ok((Shelf::Blocks(blocks), ShelfSeat::Blocks(seat)))
        }
    }

    /// How many entries it may have.
    pub fn limit(&self) -> u32
        ensures { result ≡ limit_of self.now }
    {
        match self {
            Shelf::Blocks(blocks) => blocks.limit(),
            Shelf::Row(_) => SLOTS,
        }
    }

    /// How many entries there are, without waiting for anybody.
    pub fn count(&self, seat: &mut ShelfSeat) -> u64
        requires { IsAt self.now seat.old }
        ensures reads { ReadsOn seat.old seat.new }
        ensures count { result ≡ seen_count seat.new }
    {
        match self {
            Shelf::Blocks(blocks) => match seat {
                ShelfSeat::Blocks(pages) => blocks.count(pages),
                ShelfSeat::Row(_) => unreachable!(),
            },
            Shelf::Row(row) => match seat {
                ShelfSeat::Blocks(_) => unreachable!(),
                ShelfSeat::Row(slots) => u64::from(row.count(slots)),
            },
        }
    }

    /// Whether it has as many entries as it may have, so that no nogood is copied in vain.
    pub fn is_full(&self, seat: &mut ShelfSeat) -> bool
        requires { IsAt self.now seat.old }
        ensures reads { ReadsOn seat.old seat.new }
        ensures full { IsTrue result ↔ limit_of self.now ≤ seen_count seat.new }
    {
        self.count(seat) >= u64::from(self.limit())
    }

    /// Adds a nogood that every search of the program can use. False where it was not taken.
    pub fn append<R: Wait>(&self, rt: &R, seat: &mut ShelfSeat, nogood: Nogood) -> bool
        requires at { IsAt self.now seat.old }
        requires entry { IsEntry (program_of self.now) nogood }
        ensures reads { ReadsOn seat.old seat.new }
        ensures adds { result ≡ true → Adds seat.old seat.new nogood }
        ensures refuses { result ≡ false → Refuses seat.old seat.new }
    {
        match self {
            Shelf::Blocks(blocks) => match seat {
                ShelfSeat::Blocks(pages) => blocks.append(rt, pages, nogood),
                ShelfSeat::Row(_) => unreachable!(),
            },
            Shelf::Row(row) => match seat {
                ShelfSeat::Blocks(_) => unreachable!(),
                ShelfSeat::Row(slots) => calls::add(rt, row, slots, nogood),
            },
        }
    }

    /// The entries from a position on, which is at most what the seat has seen.
    pub fn read<R: Wait>(
        &self,
        rt: &R,
        alloc: Global,
        seat: &mut ShelfSeat,
        from: u32,
    ) -> Result<Shown, AllocError>
        requires at { IsAt self.now seat.old }
        requires from { from ≤ seen_count seat.old }
        ensures reads { ReadsOn seat.old seat.new }
        ensures few { seen_count seat.new < 2 ^ 32 }
        ensures ok { IfOk result (λ shown. AreRead (program_of self.now) seat.new from (listed shown)) }
    {
        match self {
            Shelf::Blocks(blocks) => match seat {
                ShelfSeat::Blocks(pages) => {
                    let view = blocks.glance(rt, pages, from)?;
                    Ok(Shown::Blocks(view))
                }
                ShelfSeat::Row(_) => unreachable!(),
            },
            Shelf::Row(row) => match seat {
                ShelfSeat::Blocks(_) => unreachable!(),
                ShelfSeat::Row(slots) => {
                    let copies = calls::copies(rt, alloc, row, slots, from)?;
                    Ok(Shown::Row(copies))
                }
            },
        }
    }

    /// A second seat, which has seen as much.
    pub fn split(&self, seat: &mut ShelfSeat) -> ShelfSeat
        requires at { IsAt self.now seat.old }
        requires first { IsFirst seat.old }
        requires room { HasRoom seat.old }
        ensures at { IsAt self.now seat.new × IsAt self.now result }
        ensures first { IsFirst seat.new }
        ensures out { (n : ℕ) → HasSplit seat.old n → HasSplit seat.new (n + 1) }
        ensures seen { (seen_count seat.new ≡ seen_count seat.old) × (seen_count result ≡ seen_count seat.old) }
    {
        match self {
            Shelf::Blocks(blocks) => match seat {
                ShelfSeat::Blocks(pages) => ShelfSeat::Blocks(blocks.split(pages)),
                ShelfSeat::Row(_) => unreachable!(),
            },
            Shelf::Row(row) => match seat {
                ShelfSeat::Blocks(_) => unreachable!(),
                ShelfSeat::Row(slots) => ShelfSeat::Row(row.split(slots)),
            },
        }
    }

    /// The first seat takes in what another has seen. The other is spent.
    pub fn join(&self, seat: &mut ShelfSeat, other: ShelfSeat)
        requires at { IsAt self.now seat.old × IsAt self.now other }
        requires first { IsFirst seat.old }
        ensures at { IsAt self.now seat.new }
        ensures first { IsFirst seat.new }
        ensures back { TakesBack seat.old seat.new 1 }
        ensures seen { (seen_count seat.old ≤ seen_count seat.new) × (seen_count other ≤ seen_count seat.new) }
    {
        match self {
            Shelf::Blocks(blocks) => match (seat, other) {
                (ShelfSeat::Blocks(pages), ShelfSeat::Blocks(others)) => blocks.join(pages, others),
                _ => unreachable!(),
            },
            Shelf::Row(row) => match (seat, other) {
                (ShelfSeat::Row(slots), ShelfSeat::Row(others)) => row.join(slots, others),
                _ => unreachable!(),
            },
        }
    }

    /// How many entries there are at the end, when every seat that was split off was joined.
    pub fn close(self, seat: ShelfSeat) -> u32
        requires at { IsAt self seat }
        requires first { IsFirst seat }
        requires all { HasAllBack seat }
        ensures few { result ≤ limit_of self }
        ensures seen { seen_count seat ≤ result }
    {
        match (self, seat) {
            (Shelf::Blocks(blocks), ShelfSeat::Blocks(pages)) => blocks.close(pages),
            (Shelf::Row(row), ShelfSeat::Row(slots)) => row.close(slots),
            _ => unreachable!(),
        }
    }
}
