//! What the answers delivered show, taken over by the search.
ghost use Rattle.std.specs.Prelude.{◌≡◌, Some, OnOk};
ghost use Rattle.asp_model.specs.declared.results.Mode.{Mode};
ghost use Rattle.asp_model.specs.Asked.{reasoning_of};
ghost use Rattle.asp_model.specs.Consequences.{unshown};
ghost use Rattle.asp_model.specs.Sets.{IsSubset};
ghost use Rattle.asp_vars.specs.Paid.{Units};
ghost use Rattle.asp_core.specs.Boards.{known_of};
ghost use Rattle.asp_book.specs.Books.{board};
ghost use Rattle.asp_search.specs.Beside.{count_unshown, left_to_show};
ghost use Rattle.asp_crew.specs.Running.{is_fewer, IsReady, TakesFirst, TakesKnown};

use asp_book::book::Book;
use asp_propagate::propagator::Propagator;
use asp_search::search::{Search, count_unshown};
use asp_vars::known::Known;
use std::alloc::AllocError;

// Whether these answers show more than those that the search knows.
fn show_more<P: Propagator>(known: &Known, search: &Search<'_, P>) -> bool
    ensures { result ≡ is_fewer (count_unshown known.now.reasoning known.now.program known.now.sets) (left_to_show search.now) }
{
    match (count_unshown(known), search.unshown_atoms()) {
        (None, _) => false,
        (Some(_), None) => true,
        (Some(count), Some(left)) => count < left,
    }
}

// Leaves out what shows nothing beside the answers delivered, where they show more than those that the search knows.
fn take_over<P: Propagator>(search: &mut Search<'_, P>, known: Known) -> Result<(), AllocError>
    requires program { known.program ≡ search.old.program }
    requires reasoning { Some known.reasoning ≡ reasoning_of search.old.mode }
    requires all { IsSubset (unshown known.reasoning known.program known.sets) (unshown known.reasoning known.program search.old.known) }
    ensures { OnOk result (TakesKnown search.old search.new known) }
{
    if show_more(&known, search) {
        search.set_known(known)
    } else {
        Ok(())
    }
}

/// After the first answer of a search, takes over what the answers delivered show, where that is more: by name what isn't asked for counts
/// as shown from then on. It `knew` how many atoms were left to be shown, if it had found an answer before, and then shows all that is on
/// the board.
pub(crate) fn take_known<P: Propagator>(
    book: &Book,
    search: &mut Search<'_, P>,
    knew: Option<usize>,
) -> Result<(), AllocError>
    requires { (mode : Mode) × (f : Units) × IsReady mode book.now search.old f }
    ensures { OnOk result (TakesFirst knew (known_of (board book.now)) search.old search.new) }
{
    match knew {
        Some(_) => Ok(()),
        None => match book.known()? {
            None => Ok(()),
            Some(known) => take_over(search, known),
        },
    }
}
