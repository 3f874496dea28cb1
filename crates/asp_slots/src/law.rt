//! The rule of the word, and what each step tells. These types are for the proofs alone.
use crate::view::View;
use atomic_table::{Join, Play, Split, TableRule};

/// The rule: word 0 counts the numbers that were drawn.
pub struct Law;

impl TableRule<(), View, ()> for Law {
    ghost use Rattle.asp_slots.specs.Rules.{Numbered, opened};

    ghost holds = { λ _. Numbered };

    ghost first = { λ _. opened };
}

/// Sees the count.
pub struct Looking;

impl Play<(), View> for Looking {
    ghost use Rattle.asp_slots.specs.Rules.{looks};

    ghost then = { looks };
}

/// Raises the count, or sees that another came first.
pub struct Raising;

impl Play<(), View> for Raising {
    ghost use Rattle.asp_slots.specs.Rules.{raises};

    ghost then = { raises };
}

/// A new seat.
pub struct Parting;

impl Split<View> for Parting {
    ghost use Rattle.asp_slots.specs.Rules.{fresh};

    ghost left = { λ v. v };

    ghost right = { fresh };
}

/// A seat is joined.
pub struct Joining;

impl Join<View> for Joining {
    ghost use Rattle.asp_slots.specs.Rules.{merged, opened};

    ghost both = { merged };

    ghost spent = { opened };
}

/// Compares what a join brought with the word.
pub struct Comparing;

impl Play<(), View> for Comparing {
    ghost use Rattle.asp_slots.specs.Rules.{compares};

    ghost then = { compares };
}
