//! The numbers of the nogoods that propagators gave, so that these are found without a look at each slot.
ghost use Rattle.std.specs.Prelude.{◌≡◌, ◌<◌, ℕ, IsTrue};
ghost use Rattle.std.specs.Vec.{vec_len, vec_capacity};
ghost use Rattle.asp_store.specs.Keeping.{kept_at, is_from_propagator};
ghost use Rattle.asp_store.specs.Storing.{Has, with_given};

use crate::stored_nogood::{Kind, StoredNogood};

/// Puts the number down, where a propagator gave the nogood. There is room for it.
pub fn note_given(given: &mut Vec<u32>, id: u32, kind: Kind)
    requires { vec_len given.old < vec_capacity given.old }
    ensures { given.new.items ≡ with_given kind id given.old.items }
{
    match kind {
        Kind::Forever => {}
        Kind::Learnt => {}
        Kind::Given => {
            given.push_reserved(id);
        }
    }
}

// Whether a propagator gave the nogood under a number, if there is one.
fn is_from_propagator_at(slots: &[Option<StoredNogood>], id: u32) -> bool
    ensures { result ≡ is_from_propagator (kept_at slots.now id) }
{
    if id as usize >= slots.len() {
        return false;
    }
    match &slots[id as usize] {
        None => false,
        Some(kept) => kept.is_from_propagator(),
    }
}

/// Forgets the numbers under which no propagator's nogood is kept any more.
pub fn forget_gone(given: &mut Vec<u32>, slots: &[Option<StoredNogood>])
    ensures { (k : ℕ) → IsTrue (is_from_propagator (kept_at slots.now k)) → Has given.old.items k → Has given.new.items k }
{
    let mut i: usize = 0;
    'numbers: while i < given.len() {
        if is_from_propagator_at(slots, given[i]) {
            i += 1;
        } else {
            given.swap_remove(i);
        }
    }
}
