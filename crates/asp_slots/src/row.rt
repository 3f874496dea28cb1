//! The slots, and the word that counts the numbers.
ghost use Rattle.std.specs.Prelude.{◌≡◌, ◌≢◌, ◌+◌, ◌<◌, ◌≤◌, length, replicate, IfOk, []};
ghost use Rattle.asp_log.specs.Entries.{IsEntry};
ghost use Rattle.asp_slots.specs.Rules.{SLOT_COUNT, NotIn, Distinct, opened, fresh, merged, seeing, drawing};

use crate::law::{Comparing, Joining, Law, Looking, Parting, Raising};
use crate::slot::{Placed, Stored, look, put};
use crate::view::View;
use asp_model::program::Program;
use asp_vars::compiled::Compiled;
use asp_vars::nogood::Nogood;
use asp_vars::origin::Origin;
use atomic_table::Table;
use counted_slot::Counted;
use crossbeam_utils::Backoff;
use std::alloc::{AllocError, Global};
use std::mem;
use std::sync::Wait;

/// How many slots a row has.
pub const SLOTS: u32 = 65_536;

/// Slots for entries of one program, each with a number.
#[derive(Drop)]
pub struct Row {
    /// Whose entries these are, as a fact without bytes.
    program: Origin<Program>,
    /// The slots.
    slots: Vec<Counted<Option<Stored>>>,
    /// The word that counts the numbers that were drawn.
    table: Table<(), View, (), Law, Global>,
    pub ghost sized: { length slots.items ≡ 65536 },
    pub ghost about: { slots.items ≡ replicate 65536 program.value },
    ghost one_word: { (table.shared.table_id.words ≡ 1) × (table.shared.table_id.slots ≡ 0) },
}

/// What one search adds and reads with.
pub struct RowSeat {
    /// What the seat knows.
    token: atomic_table::Seat<(), View>,
    pub ghost none_out: { token.me.1 ≡ [] },
}

impl Drop for RowSeat {
    fn drop(self) {
        let Self { token: _ } = self;
    }
}

impl Row {
    ghost use Rattle.asp_slots.specs.Seats.{view, IsOf, IsBeside};

    /// Empty slots for entries of a program, and the first seat.
    pub fn make(alloc: Global, compiled: &Compiled) -> Result<(Row, RowSeat), AllocError>
        ensures program { IfOk result (λ r. r.0.program.value ≡ compiled.now) }
        ensures of { IfOk result (λ r. IsOf r.0 r.1) }
        ensures view { IfOk result (λ r. view r.1 ≡ opened) }
    {
        let program = compiled.program();
        let slots = empty(alloc, program, SLOTS as usize)?;
        let (table, token) = Table::of_words(alloc, &[0], &())?;
        let row = Row {
            program: Origin::of(program),
            slots,
            table,
        };
        Ok((row, RowSeat { token }))
    }

    // The slot with this number.
    fn slot(&self, at: u32) -> &Counted<Option<Stored>>
        requires { at < 65536 }
        ensures { result.now ≡ self.now.program.value }
    {
        &self.slots[at as usize]
    }

    /// A copy of the entry in a slot, for which it waits.
    pub(crate) fn wait_for<R: Wait>(&self, rt: &R, at: u32) -> Result<Nogood, AllocError>
        requires { at < 65536 }
        ensures { IfOk result (λ entry. IsEntry self.now.program.value entry) }
    {
        let backoff = Backoff::new();
        for _ in rt.forever() {
            if let Some(entry) = look(self.slot(at))? {
                return Ok(entry);
            }
            backoff.snooze();
        }
        unreachable!()
    }

    /// Puts an entry into a slot. Only who drew the slot's number may do so.
    pub(crate) fn fill<R: Wait>(&self, rt: &R, at: u32, entry: Nogood) -> Placed
        requires at { at < 65536 }
        requires entry { IsEntry self.now.program.value entry }
        ensures number { result.number ≡ at }
        ensures entry { result.entry.value ≡ entry }
    {
        let mut left = entry;
        for _ in rt.forever() {
            match put(self.slot(at), at, left) {
                Ok(placed) => return placed,
                Err(back) => left = back,
            }
        }
        unreachable!()
    }

    /// Draws the next number, unless another was drawn meanwhile. Answers how many were drawn before.
    pub(crate) fn draw(&self, seat: &mut RowSeat, next: u32) -> u32
        requires of { IsOf self.now seat.old }
        requires next { next < SLOT_COUNT }
        ensures of { IsBeside seat.old seat.new }
        ensures few { result ≤ SLOT_COUNT }
        ensures seen { (view seat.old).seen ≤ result }
        ensures won { result ≡ next → (view seat.new ≡ drawing result (view seat.old)) × NotIn result (view seat.old).own }
        ensures lost { result ≢ next → view seat.new ≡ seeing result (view seat.old) }
    {
        let old = u64::from(next);
        let found = self
            .table
            .shared
            .compare_exchange::<Raising>(&mut seat.token, 0, old, old + 1);
        found as u32
    }

    /// How many numbers were drawn.
    pub fn count(&self, seat: &mut RowSeat) -> u32
        requires { IsOf self.now seat.old }
        ensures of { IsBeside seat.old seat.new }
        ensures view { view seat.new ≡ seeing result (view seat.old) }
        ensures few { result ≤ SLOT_COUNT }
        ensures seen { (view seat.old).seen ≤ result }
    {
        self.table.shared.load::<Looking>(&mut seat.token, 0) as u32
    }

    /// A second seat, which has seen as much and drew nothing.
    pub fn split(&self, seat: &mut RowSeat) -> RowSeat
        requires { IsOf self.now seat.old }
        ensures of { IsBeside seat.old seat.new × IsBeside seat.old result }
        ensures old { view seat.new ≡ view seat.old }
        ensures new { view result ≡ fresh (view seat.old) }
    {
        let token = self.table.shared.split_seat::<Parting>(&mut seat.token);
        RowSeat { token }
    }

    /// A seat takes in what another has seen and drawn.
    pub fn join(&self, seat: &mut RowSeat, other: RowSeat)
        requires { IsOf self.now seat.old × IsOf self.now other }
        ensures of { IsBeside seat.old seat.new }
        ensures view { view seat.new ≡ merged (view seat.old) (view other) }
        ensures distinct { Distinct (view seat.new).own }
    {
        let token = &mut seat.token;
        self.table
            .shared
            .join_seat::<Joining>(token, other.into_token());
        self.table.shared.load::<Comparing>(token, 0);
    }

    /// How many numbers were drawn at the end.
    pub fn close(self, seat: RowSeat) -> u32
        requires { IsOf self seat }
        ensures few { result ≤ SLOT_COUNT }
        ensures seen { (view seat).seen ≤ result }
    {
        let Row {
            program: _,
            slots,
            table,
        } = self;
        let closed = table.close_with(seat.into_token());
        let count = closed.word(0);
        closed.free();
        mem::drop(slots);
        count as u32
    }
}

impl RowSeat {
    ghost use Rattle.asp_slots.specs.Seats.{view, IsOf, IsBeside};

    fn into_token(self) -> atomic_table::Seat<(), View>
        ensures { result ≡ self.token }
    {
        let Self { token } = self;
        token
    }
}

// So many empty slots.
#[tactic(auto, using(std::proofs::lemmas::List::replicate_more))]
fn empty(
    alloc: Global,
    program: &Program,
    count: usize,
) -> Result<Vec<Counted<Option<Stored>>>, AllocError>
    ensures { IfOk result (λ slots. slots.items ≡ replicate count program.now) }
{
    let mut slots = Vec::with_capacity(alloc, count)?;
    for _ in 0..count {
        slots.push(Counted::new(None, program))?;
    }
    Ok(slots)
}
