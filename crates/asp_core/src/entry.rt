//! Entries of a journal.
ghost use Rattle.std.specs.Borrow.{ftrue};
ghost use Rattle.std.specs.Prelude.{◌≡◌};
ghost use Rattle.asp_core.specs.declared.event.Event.{Event as Happening};
ghost use Rattle.asp_core.specs.declared.event.Event.TheVariants as event;

use crate::event::Event;
use asp_model::interp::Interp;
use std::marker::Model;

// What happened, for proofs alone.
#[derive(Drop)]
struct Fact {
    pub ghost event: { Happening },
}

impl Model for Fact {
    ghost also_owns = { λ _. ftrue };
}

impl Fact {
    // This event.
    fn of(_event: &Event) -> Fact
        ensures { result.event ≡ _event.now }
    {
        Fact {}
    }

    // The delivery of this set.
    fn delivery(_by: &u32, _set: &Interp) -> Fact
        ensures { result.event ≡ event.Deliver _by.now _set.now }
    {
        Fact {}
    }
}

unsafe impl Send for Fact {}

unsafe impl Sync for Fact {}

/// An event as a journal keeps it, which contracts see as the event. It has no bytes: a journal keeps its length alone.
#[derive(Drop)]
pub struct Entry {
    /// What happened, as a fact without bytes.
    fact: Fact,
}

impl Model for Entry {
    ghost Value = { Happening };

    ghost view = { λ e. e.fact.event };
}

impl Entry {
    /// The entry of an event. It takes no memory.
    pub fn of(event: &Event) -> Entry
        ensures { result ≡ event.now }
    {
        Entry {
            fact: Fact::of(event),
        }
    }

    /// The entry of an answer's listing. It takes no memory.
    pub fn listing(by: u32, set: &Interp) -> Entry
        ensures { result ≡ event.Deliver by set.now }
    {
        Entry {
            fact: Fact::delivery(&by, set),
        }
    }
}
