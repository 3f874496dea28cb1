//! A slot for one entry.
ghost use Rattle.std.specs.Prelude.{◌≡◌, Some, None, IfOk, IfErr, IfSome, IfNone};
ghost use Rattle.asp_log.specs.Entries.{IsEntry};

use asp_model::program::Program;
use asp_vars::nogood::Nogood;
use asp_vars::origin::Origin;
use counted_slot::{Counted, FREE, Fits, MOST_READERS, ONE_READER, PRESENT, TAKEN};
use std::alloc::AllocError;

/// An entry as it lies in a slot.
#[derive(Drop)]
pub struct Stored {
    /// The entry.
    pub nogood: Nogood,
}

impl Fits for Stored {
    type Tag = Program;

    ghost fits = { λ program entry. IsEntry program entry.nogood };
}

/// That an entry was put into a slot. Only `put` makes one.
#[derive(Drop)]
pub struct Placed {
    /// The slot's number.
    number: u32,
    /// The entry, as a fact without bytes.
    entry: Origin<Nogood>,
}

impl Placed {
    /// The slot's number.
    pub fn number(&self) -> u32
        ensures { result ≡ self.now.number }
    {
        self.number
    }
}

/// Puts an entry into the slot with this number, or hands it back where the slot was changed by another.
pub fn put(slot: &Counted<Option<Stored>>, number: u32, nogood: Nogood) -> Result<Placed, Nogood>
    requires { IsEntry slot.now nogood }
    ensures number { IfOk result (λ placed. placed.number ≡ number) }
    ensures entry { IfOk result (λ placed. placed.entry.value ≡ nogood) }
    ensures back { IfErr result (λ back. back ≡ nogood) }
{
    let (found, claim) = slot.turn(FREE, TAKEN);
    if found != FREE {
        claim.done();
        return Err(nogood);
    }
    let entry = Origin::of(&nogood);
    let _empty = claim.put(Some(Stored { nogood }), PRESENT);
    Ok(Placed { number, entry })
}

/// A copy of the entry in a slot, or none where it isn't there yet, or where another look is needed.
pub fn look(slot: &Counted<Option<Stored>>) -> Result<Option<Nogood>, AllocError>
    ensures { IfOk result (λ found. IfSome found (IsEntry slot.now)) }
{
    let seen = slot.load();
    let state = seen % 4;
    if state == FREE || state == TAKEN || seen % 0x1_0000_0000 / 4 >= MOST_READERS {
        return Ok(None);
    }
    let (found, claim) = slot.turn(seen, seen + ONE_READER);
    if found != seen {
        claim.done();
        return Ok(None);
    }
    let copy = copied(claim.get());
    claim.leave();
    copy
}

// A copy of an entry, if there is one.
fn copied(entry: &Option<Stored>) -> Result<Option<Nogood>, AllocError>
    ensures { IfOk result (λ found. IfSome entry.now (λ stored. found ≡ Some stored.nogood) × IfNone entry.now (found ≡ None)) }
{
    match entry {
        Some(stored) => {
            let copy = stored.nogood.copy()?;
            Ok(Some(copy))
        }
        None => Ok(None),
    }
}
