//! How a search forgets the answers that it found.
//!
//! What was learnt of the program alone says nothing of answers, and stays. The rest is local: the nogoods that block answers, and those
//! that were learnt from them.
ghost use Rattle.std.specs.Prelude.{◌≡◌, ◌≢◌, ◌<◌, [], ℕ, length};
ghost use Rattle.asp_model.specs.declared.results.Mode.TheVariants as mode;
ghost use Rattle.asp_store.specs.Keeping.{kept_at, unless_local};
ghost use Rattle.asp_search.specs.Beside.{Forgets};

use crate::search::Search;
use asp_propagate::propagator::Propagator;
use asp_state::state::SearchState;
use asp_trail::reasons::NogoodId;

// Drops the nogood under a number, if it has one that is local.
fn drop_local_at<P: Propagator>(state: &mut SearchState<P>, id: NogoodId)
    requires within { id < length state.old.slots }
    requires nothing_holds { state.old.entries ≡ [] }
    ensures same { state.new ≡ record state.old { slots = state.new.slots } }
    ensures count { length state.new.slots ≡ length state.old.slots }
    ensures here { kept_at state.new.slots id ≡ unless_local (kept_at state.old.slots id) }
    ensures others { (k : ℕ) → k ≢ id → kept_at state.new.slots k ≡ kept_at state.old.slots k }
{
    if state.store().is_local(id) {
        state.remove(id);
    }
}

// Drops all local nogoods.
fn drop_local<P: Propagator>(state: &mut SearchState<P>)
    requires { state.old.entries ≡ [] }
    ensures same { state.new ≡ record state.old { slots = state.new.slots } }
    ensures each { (id : ℕ) → kept_at state.new.slots id ≡ unless_local (kept_at state.old.slots id) }
{
    let count = state.store().numbers();
    for id in 0..count {
        drop_local_at(state, id);
    }
}

impl<P: Propagator> Search<'_, P> {
    /// Forgets the answers of an enumeration: they are sought again, and what was learnt of the program alone stays. No path is entered.
    pub fn forget_answers(&mut self)
        requires { self.old.mode ≡ mode.Enum }
        ensures { Forgets self.old self.new }
    {
        self.state.leave();
        drop_local(&mut self.state);
        self.known.clear();
        self.blocking.clear();
        self.last = None;
    }
}
