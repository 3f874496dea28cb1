//! The reasons on a trail, which are locked while nogoods are dropped.
ghost use Rattle.std.specs.Prelude.{◌≡◌, ◌<◌, length, slice_index_or};
ghost use Rattle.asp_trail.specs.declared.trail.Entry.{Entry};
ghost use Rattle.asp_store.specs.Storing.{locked_at};
ghost use Rattle.asp_propagate.specs.Locking.{lock_reason, lock_all};

use asp_store::store::Store;
use asp_trail::reasons::NogoodId;
use asp_trail::trail::Trail;

fn set_lock(store: &mut Store, id: NogoodId, locked: bool)
    requires { id < length store.old.slots }
    ensures { store.new ≡ locked_at store.old id locked }
{
    if locked {
        store.lock(id);
    } else {
        store.unlock(id);
    }
}

// Locks the reason of an entry, or lets it be dropped.
fn lock_at(store: &mut Store, trail: &Trail, i: usize, locked: bool)
    requires within { i < length trail.now.entries }
    ensures { (d : Entry) → store.new ≡ record store.old { slots = lock_reason locked store.old.slots (slice_index_or trail.now.entries i d).reason } }
{
    if let Some(id) = trail.reason_at(i) {
        if store.has_slot(id) {
            set_lock(store, id, locked);
        }
    }
}

/// Locks the reasons of all entries, or lets them be dropped.
pub fn lock_reasons(store: &mut Store, trail: &Trail, locked: bool)
    ensures { store.new ≡ record store.old { slots = lock_all locked trail.now.entries store.old.slots } }
{
    for i in 0..trail.len() {
        lock_at(store, trail, i, locked);
    }
}
