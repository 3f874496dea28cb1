//! The rule of the table, and what each step tells. These types are for the proofs alone.
use crate::kept::Kept;
use crate::view::View;
use atomic_table::{Join, Play, Split, TableRule};
use std::marker::PhantomData;
use std::snapshot::Snapshot;

/// The rule: word 0 counts the entries and marks the value as taken, slot 0 holds the value.
pub struct Law<T: Kept> {
    /// Nothing, for the type alone.
    marker: PhantomData<T>,
}

impl<T: Kept> TableRule<Option<T>, View<T::About, T::Entry>, Snapshot<T>> for Law<T> {
    ghost use Rattle.asp_vault.specs.Rules.{Vaulted, opened};

    ghost holds = { λ _. Vaulted T.about T.entries T.maker T.sound };

    ghost first = { λ k. opened (T.about k.value) (T.entries k.value) };
}

/// Marks the value as taken, or finds it so.
pub struct Taking<T: Kept> {
    /// Nothing, for the type alone.
    marker: PhantomData<T>,
}

impl<T: Kept> Play<Option<T>, View<T::About, T::Entry>> for Taking<T> {
    ghost use Rattle.asp_vault.specs.Rules.{took};

    ghost then = { took T.about T.entries T.maker T.sound };
}

/// Writes the new length, and the value is home.
pub struct Giving<T: Kept> {
    /// Nothing, for the type alone.
    marker: PhantomData<T>,
}

impl<T: Kept> Play<Option<T>, View<T::About, T::Entry>> for Giving<T> {
    ghost use Rattle.asp_vault.specs.Rules.{gave};

    ghost then = { gave T.entries };
}

/// A new seat is split from the first.
pub struct Parting;

impl<A, E> Split<View<A, E>> for Parting {
    ghost use Rattle.asp_vault.specs.Rules.{parted, fresh};

    ghost left = { parted };

    ghost right = { fresh };
}

/// A seat is joined to the first.
pub struct Joining;

impl<A, E> Join<View<A, E>> for Joining {
    ghost use Rattle.asp_vault.specs.Rules.{joined, spent};

    ghost both = { joined };

    ghost spent = { spent };
}

/// Compares the lists that two seats have seen, after a split or a join.
pub struct Comparing<T: Kept> {
    /// Nothing, for the type alone.
    marker: PhantomData<T>,
}

impl<T: Kept> Play<Option<T>, View<T::About, T::Entry>> for Comparing<T> {
    ghost use Rattle.asp_vault.specs.Rules.{compares};

    ghost then = { compares T.maker };
}

/// Reads how long the list is.
pub struct Looking<T: Kept> {
    /// Nothing, for the type alone.
    marker: PhantomData<T>,
}

impl<T: Kept> Play<Option<T>, View<T::About, T::Entry>> for Looking<T> {
    ghost use Rattle.asp_vault.specs.Rules.{looks};

    ghost then = { looks T.maker };
}
