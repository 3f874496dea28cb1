//! How a nogood of two literals goes. A walk believes its places without a look at it, so they go with it. Other places stay
//! until a walk comes by.
ghost use Rattle.std.specs.Prelude.{◌≡◌, ◌^◌, ◌<◌, ◌≤◌, Some, length};
ghost use Rattle.std.specs.List.{All};
ghost use Rattle.asp_vars.specs.Codes.{code_of};
ghost use Rattle.asp_vars.specs.declared.nogood.Nogood.{Nogood};
ghost use Rattle.asp_store.specs.Keeping.{nogood_at};
ghost use Rattle.asp_store.specs.Unlisting.{Keeps, IsUnlisted, Unlists};

use crate::lists::WatchLists;
use crate::stored_nogood::StoredNogood;
use asp_trail::reasons::NogoodId;
use asp_vars::lit::Lit;

// Takes the number out of both literals' lists.
fn drop_both(lists: &mut WatchLists, lits: &[Lit], id: u32)
    requires two { length lits.now ≡ 2 }
    requires small { All (λ l. code_of l < length lists.old) lits.now }
    ensures keeps { Keeps lists.old lists.new id }
    ensures none { IsUnlisted lists.new lits.now id }
{
    lists.drop_all(lits[0], id);
    lists.drop_all(lits[1], id);
}

/// Takes the places of a nogood of two literals away, which goes only where it is removed by its number.
pub fn unlist(lists: &mut WatchLists, slots: &[Option<StoredNogood>], id: NogoodId)
    requires within { id < length slots.now }
    requires few { length slots.now ≤ 2 ^ 31 }
    requires small { (n : Nogood) → nogood_at slots.now id ≡ Some n → All (λ l. code_of l < length lists.old) n.lits }
    ensures { Unlists slots.now lists.old lists.new id }
{
    if let Some(kept) = &slots[id] {
        if kept.is_lasting() {
            drop_both(lists, kept.nogood.lits.as_slice(), id as u32);
        }
    }
}
