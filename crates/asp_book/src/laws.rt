//! Laws of the calls at the desk. Each function's contract is a law, and its body is empty.
ghost use Rattle.std.specs.Prelude.{◌≡◌, List};
ghost use Rattle.asp_vault.specs.Moments.{Stays};
ghost use Rattle.asp_core.specs.declared.event.Event.{Event};
ghost use Rattle.asp_core.specs.Events.{run, replay};
ghost use Rattle.asp_book.specs.Books.{IsJournalOf};
ghost use Rattle.asp_book.specs.Calls.{Knows, task_of, seen_board, IsCall};

/// After a call the seat has seen the board at the call's moment with the call's own events, by a lawful journal.
pub fn a_call_shows_its_moment()
    ensures task { (v w : Knows) → Stays v w → task_of w ≡ task_of v }
    ensures board { (v w : Knows) (before added : List Event) → Stays v w → IsCall v w before added → seen_board w ≡ run (replay (task_of v) before) added }
    ensures lawful { (v w : Knows) (before added : List Event) → Stays v w → IsCall v w before added → IsJournalOf (task_of w) w.seen }
{}
