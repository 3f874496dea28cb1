//! Watches: which literals of a nogood are watched, and what stands in a literal's list.
ghost use Rattle.std.specs.Prelude.{◌≡◌, ◌^◌, ◌<◌, MatchOption};
ghost use Rattle.asp_store.specs.Pairs.{IsOneOf, IsBeside};

use asp_vars::lit::Lit;
use std::marker::Model;

/// The two literals of a nogood that are watched.
#[derive(Clone, Copy)]
pub struct Pair {
    /// One of them.
    pub first: Lit,
    /// The other one.
    pub second: Lit,
}

/// What the list of a literal has of a nogood that watches it.
#[derive(Clone, Copy)]
pub struct Watch {
    /// Another literal of the nogood. While it is false the nogood needs no look.
    blocker: Lit,
    /// Twice the nogood's number, and one more where the list's literal and the blocker are all of its literals.
    mark: u32,
}

impl Model for Watch {
    ghost use Rattle.asp_store.specs.Marks.{Watch as Seen};

    ghost Value = { Seen };

    ghost use Rattle.asp_store.specs.Marks.{view as seen, inverse as stored, inverse_view};

    ghost view = { seen };

    ghost inverse = { stored };

    ghost inverse_ok = { λ w _. inverse_view w };
}

impl Watch {
    /// The place of a nogood beside a literal of it.
    pub fn new(blocker: Lit, id: u32, is_short: bool) -> Watch
        requires { id < 2 ^ 31 }
        ensures { result ≡ record { blocker = blocker; id = id; is_short = is_short } }
    {
        Watch {
            blocker,
            mark: 2 * id + if is_short { 1 } else { 0 },
        }
    }

    /// Another literal of the nogood. While it is false the nogood needs no look.
    pub fn blocker(self) -> Lit
        ensures { result ≡ self.blocker }
    {
        self.blocker
    }

    /// The nogood's number.
    pub fn id(self) -> u32
        ensures { result ≡ self.id }
    {
        self.mark / 2
    }

    /// Whether the list's literal and the blocker are all of the nogood's literals.
    pub fn is_short(self) -> bool
        ensures { result ≡ self.is_short }
    {
        self.mark % 2 == 1
    }
}

/// The other literal of a pair, if this one is of the pair.
pub fn other_of(pair: Pair, lit: Lit) -> Option<Lit>
    ensures { MatchOption result (IsOneOf pair lit → ⊥) (IsBeside pair lit) }
{
    if pair.first == lit {
        return Some(pair.second);
    }
    if pair.second == lit {
        return Some(pair.first);
    }
    None
}
