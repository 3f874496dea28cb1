//! The vault and its seats.
ghost use Rattle.std.specs.Prelude.{◌≡◌, ℕ, ◌+◌, ◌*◌, ◌^◌, ◌<◌, ◌≤◌, true, false, length, drop, Some, None, IfOk, IfSome, IfNone};
ghost use Rattle.std.specs.Coded.{Coded-set, coded_list, coded×, coded_ℕ, coded_option};
ghost use mathlib.Core.List.{IsPrefix, Sublist, Sublist-prop};
ghost use Rattle.asp_vault.specs.Makers.{placed, of_number, named, OnlyBy, Unnamed};
ghost use Rattle.asp_vault.specs.Rules.{opened, holding, seeing, missed, after_misses, given_back, parted, fresh, merged, carried, Guests, Learnt};

use crate::kept::Kept;
use crate::law::{Comparing, Giving, Joining, Law, Looking, Parting, Taking};
use crate::view::View;
use atomic_table::Table;
use crossbeam_utils::Backoff;
use std::alloc::{AllocError, Global};
use std::snapshot::Snapshot;
use std::sync::Wait;

/// A value that seats take in turns.
///
/// A vault can be dropped; `close` alone gives the value back.
#[derive(Drop)]
pub struct Vault<T: Kept> {
    /// A word that counts the entries and marks the value as taken, and a slot for the value.
    table: Table<Option<T>, View<T::About, T::Entry>, Snapshot<T>, Law<T>, Global>,
    ghost sized: { (table.shared.table_id.words ≡ 1) × (table.shared.table_id.slots ≡ 1) },
}

/// What one thread steps with: what it knows, its number, and of the first seat how many were split from it.
///
/// A seat that is dropped stays unjoined for ever, and then the vault can't be closed.
pub struct Seat<T: Kept> {
    /// What the seat knows of the vault.
    token: atomic_table::Seat<Option<T>, View<T::About, T::Entry>>,
    /// The seat's number; the first seat has 0.
    number: u32,
    /// How many seats were split from the first one.
    splits: u32,
    pub ghost live: { token.me.0.live ≡ true },
    pub ghost carries: { token.me.1 ≡ carried token.me.0.holds } by { Coded-set (coded_list (coded× coded_ℕ (coded_option T.code))) token.me.1 (carried token.me.0.holds) },
    pub ghost own_seen: { of_number T.maker token.me.0.number (placed 0 token.me.0.seen) ≡ named T.maker token.me.0.own } by { Coded-set (coded_list (coded× coded_ℕ T.Entry.code)) (of_number T.maker token.me.0.number (placed 0 token.me.0.seen)) (named T.maker token.me.0.own) },
    pub ghost own_placed: { Sublist token.me.0.own (placed 0 token.me.0.seen) } by { Sublist-prop },
    pub ghost counts: { (number ≡ token.me.0.number) × (splits ≡ token.me.0.splits) },
}

impl<T: Kept> Drop for Seat<T> {
    fn drop(self) {
        let Self {
            token: _,
            number: _,
            splits: _,
        } = self;
    }
}

impl<T: Kept> Seat<T> {
    ghost use Rattle.asp_vault.specs.Seats.{view};

    /// The seat's number. The first seat's is 0.
    pub fn number(&self) -> u32
        ensures { result ≡ (view self.now).number }
    {
        self.number
    }

    fn into_token(self) -> atomic_table::Seat<Option<T>, View<T::About, T::Entry>>
        ensures { result ≡ self.token }
    {
        let Self {
            token,
            number: _,
            splits: _,
        } = self;
        token
    }
}

impl<T: Kept> Vault<T> {
    ghost use Rattle.asp_vault.specs.Seats.{view, IsOf, IsBeside};

    /// A vault with the value, and the first seat.
    ///
    /// For want of memory the value is dropped.
    pub fn make(alloc: Global, value: T) -> Result<(Vault<T>, Seat<T>), AllocError>
    where
        T: Drop,
        requires sound { T.sound value }
        requires unnamed { Unnamed T.maker (T.entries value) }
        ensures of { IfOk result (λ r. IsOf r.0 r.1) }
        ensures view { IfOk result (λ r. view r.1 ≡ opened (T.about value) (T.entries value)) }
    {
        let about = Snapshot::of(&value);
        let word = 2 * value.len();
        let mut slots = Vec::with_capacity(alloc, 1)?;
        slots.push_reserved(Some(value));
        match Table::new(alloc, &[word], slots, &about) {
            Ok((table, token)) => {
                let seat = Seat {
                    token,
                    number: 0,
                    splits: 0,
                };
                Ok((Vault { table }, seat))
            }
            Err(_) => Err(AllocError),
        }
    }

    /// A second seat, with the next number, which has seen as much.
    pub fn split(&self, seat: &mut Seat<T>) -> Seat<T>
        requires of { IsOf self.now seat.old }
        requires first { (view seat.old).number ≡ 0 }
        requires room { (view seat.old).splits + 1 < 2 ^ 32 }
        ensures of { IsBeside seat.old seat.new × IsBeside seat.old result }
        ensures old { view seat.new ≡ parted (view seat.old) }
        ensures new { view result ≡ fresh (view seat.old) }
    {
        let mut token = self.table.shared.split_seat::<Parting>(&mut seat.token);
        self.table.shared.load::<Comparing<T>>(&mut token, 0);
        let number = seat.splits + 1;
        seat.splits = number;
        Seat {
            token,
            number,
            splits: 0,
        }
    }

    /// The first seat takes in what another has seen. The other is spent.
    pub fn join(&self, seat: &mut Seat<T>, other: Seat<T>)
        requires of { IsOf self.now seat.old × IsOf self.now other }
        requires first { (view seat.old).number ≡ 0 }
        requires rests { (view other).holds ≡ false }
        ensures of { IsBeside seat.old seat.new }
        ensures view { view seat.new ≡ merged (view seat.old) (view other) }
        ensures guests { Guests T.maker (view seat.new) (view seat.new).seen }
        ensures begins { IsPrefix (view seat.old).seen (view seat.new).seen × IsPrefix (view other).seen (view seat.new).seen }
    {
        let token = &mut seat.token;
        self.table
            .shared
            .join_seat::<Joining>(token, other.into_token());
        self.table.shared.load::<Comparing<T>>(token, 0);
    }

    /// Takes the value if it is at home. Otherwise another seat had it, and this one missed it.
    pub fn try_take(&self, seat: &mut Seat<T>) -> Option<T>
        requires of { IsOf self.now seat.old }
        requires rests { (view seat.old).holds ≡ false }
        ensures of { IsBeside seat.old seat.new }
        ensures some { IfSome result (λ x. view seat.new ≡ holding (T.entries x) (view seat.old)) }
        ensures learnt { IfSome result (λ x. Learnt T.maker (view seat.old) (T.entries x)) }
        ensures about { IfSome result (λ x. Some (T.about x) ≡ (view seat.old).about) }
        ensures sound { IfSome result T.sound }
        ensures none { IfNone result (view seat.new ≡ missed (view seat.old)) }
    {
        let token = &mut seat.token;
        let found = self.table.shared.fetch_or::<Taking<T>>(token, 0, 1);
        if found % 2 == 0 {
            self.table.shared.exchange(token, 0, None)
        } else {
            None
        }
    }

    /// Takes the value, and waits for it while another seat has it.
    pub fn take<R: Wait>(&self, rt: &R, seat: &mut Seat<T>) -> T
        requires of { IsOf self.now seat.old }
        requires rests { (view seat.old).holds ≡ false }
        ensures of { IsBeside seat.old seat.new }
        ensures view { view seat.new ≡ holding (T.entries result) (after_misses (view seat.new).misses (view seat.old)) }
        ensures misses { (view seat.old).misses ≤ (view seat.new).misses }
        ensures learnt { Learnt T.maker (view seat.old) (T.entries result) }
        ensures about { Some (T.about result) ≡ (view seat.old).about }
        ensures sound { T.sound result }
    {
        let backoff = Backoff::new();
        for _ in rt.forever() {
            if let Some(value) = self.try_take(seat) {
                return value;
            }
            backoff.snooze();
        }
        unreachable!()
    }

    /// Sees the list as it is now, whoever has the value, and answers its length.
    pub fn look(&self, seat: &mut Seat<T>) -> u64
        requires { IsOf self.now seat.old }
        ensures of { IsBeside seat.old seat.new }
        ensures view { view seat.new ≡ seeing (view seat.new).seen (view seat.old) }
        ensures learnt { Learnt T.maker (view seat.old) (view seat.new).seen }
        ensures length { result ≡ length (view seat.new).seen }
    {
        self.table.shared.load::<Looking<T>>(&mut seat.token, 0) / 2
    }

    /// Gives the value back, with what this seat added.
    pub fn give(&self, seat: &mut Seat<T>, value: T)
        requires of { IsOf self.now seat.old }
        requires holds { (view seat.old).holds ≡ true }
        requires about { Some (T.about value) ≡ (view seat.old).about }
        requires continues { IsPrefix (view seat.old).seen (T.entries value) }
        requires makers { OnlyBy T.maker (view seat.old).number (drop (length (view seat.old).seen) (T.entries value)) }
        requires sound { T.sound value }
        ensures of { IsBeside seat.old seat.new }
        ensures view { view seat.new ≡ given_back (T.entries value) (view seat.old) }
    {
        let word = 2 * value.len();
        let token = &mut seat.token;
        match self.table.shared.exchange(token, 0, Some(value)) {
            None => {}
            Some(_) => unreachable!(),
        }
        self.table.shared.store::<Giving<T>>(token, 0, word);
    }

    /// The value, once every seat that was split off was joined.
    pub fn close(self, seat: Seat<T>) -> T
        requires of { IsOf self seat }
        requires first { (view seat).number ≡ 0 }
        requires all { (view seat).splits ≡ (view seat).joins }
        requires rests { (view seat).holds ≡ false }
        ensures continues { IsPrefix (view seat).seen (T.entries result) }
        ensures named { (n : ℕ) → of_number T.maker n (placed 0 (T.entries result)) ≡ of_number T.maker n (placed 0 (view seat).seen) }
        ensures guests { Guests T.maker (view seat) (T.entries result) }
        ensures about { Some (T.about result) ≡ (view seat).about }
        ensures sound { T.sound result }
    {
        let Vault { table } = self;
        let mut closed = table.close_with(seat.into_token());
        let value = closed.take(0);
        closed.free();
        match value {
            Some(x) => x,
            None => unreachable!(),
        }
    }
}
