//! The rule of a lane: each place of its list of offers is handed out at most once, in order.

use crossbeam_deque::protocol::{Join, Lesson, Outcome, Protocol};
use std::collections::LinkedList;

/// The number of a leaf.
pub type Leaf = u32;

/// A place of a lane's list of offers that was handed out, and the leaf that stands there. No value of it is made.
pub struct Take {
    /// Counted from 0.
    pub place: u64,
    /// The leaf that was offered there.
    pub leaf: Leaf,
}

/// What a lane's owner or a pass knows of the lane. No value of it is made.
pub struct Share {
    /// True of the owner.
    pub offers: bool,
    /// What the owner has offered.
    pub sent: LinkedList<Leaf>,
    /// What was handed out to it.
    pub got: LinkedList<Take>,
}

/// The rule of each lane.
pub struct Once;

impl Protocol<Leaf, Share> for Once {
    ghost use Rattle.std.specs.Prelude.{true, false, []};
    ghost use Rattle.asp_pool.specs.Once.{share, HandsOutOnce};

    ghost holds = { HandsOutOnce };

    ghost first = { share true [] [] };

    ghost guest = { share false [] [] };
}

/// The owner offers leaves.
pub struct Offers;

impl Outcome<Leaf, Share> for Offers {
    ghost use Rattle.std.specs.Prelude.{◌≡◌, ◌++◌};
    ghost use Rattle.asp_pool.specs.Once.{share};

    ghost then = { λ v xs w. w ≡ share v.offers (v.sent ++ xs) v.got };
}

/// The first leaf is handed out, or there was none.
pub struct Takes;

impl Outcome<Leaf, Share> for Takes {
    ghost use Rattle.asp_pool.specs.Once.{TakesNext, WasEmpty};

    ghost then = { TakesNext };

    ghost empty = { WasEmpty };
}

/// What a pass was handed goes over to the owner.
pub struct Joins;

impl Join<Share> for Joins {
    ghost use Rattle.std.specs.Prelude.{false, []};
    ghost use Rattle.asp_pool.specs.Once.{share, joined};

    ghost both = { joined };

    ghost spent = { share false [] [] };
}

/// The owner learns that no place was handed out twice.
pub struct Account;

impl Lesson<Leaf, Share> for Account {
    ghost use Rattle.asp_pool.specs.Once.{IsAccount};

    ghost fact = { IsAccount };
}
