//! One event more, on the state and in the journal.
ghost use Rattle.std.specs.Prelude.{◌≡◌, ◌+◌, ◌^◌, ◌<◌, ◌≤◌, ◌++◌, ◌∷◌, [], None, false, OnOk, OnErr, IsOk};
ghost use Rattle.std.specs.Vec.{vec_len, vec_capacity};
ghost use Rattle.asp_model.specs.Models.{atoms_of};
ghost use Rattle.asp_rows.specs.Listed.{IsRowFor};
ghost use Rattle.asp_core.specs.declared.event.Event.TheVariants as event;
ghost use Rattle.asp_core.specs.Boards.{sought};
ghost use Rattle.asp_core.specs.Events.{Guard, happens, wants_memory};

use asp_core::entry::Entry;
use asp_core::event::Event;
use asp_core::state::State;
use asp_model::interp::Interp;
use asp_rows::row::Row;
use std::alloc::AllocError;

/// Makes room in the journal for so many events more, beside the places that are kept.
pub fn make_room(journal: &mut Vec<Entry>, places: usize, more: usize) -> Result<(), AllocError>
    requires { places + more < 2 ^ 64 }
    ensures items { journal.new.items ≡ journal.old.items }
    ensures ok { OnOk result (vec_len journal.old + (places + more) ≤ vec_capacity journal.new) }
    ensures capacity { vec_capacity journal.old ≤ vec_capacity journal.new }
{
    journal.reserve(places + more)
}

/// Lets an event happen and writes it down. For want of memory neither is done.
pub fn write(
    state: &mut Box<State>,
    journal: &mut Vec<Entry>,
    event: Event,
) -> Result<(), AllocError>
    requires guard { Guard state.old.value event }
    requires room { vec_len journal.old < vec_capacity journal.old }
    ensures state { OnOk result (state.new.value ≡ happens state.old.value event) }
    ensures journal { OnOk result (journal.new.items ≡ journal.old.items ++ event ∷ []) }
    ensures err_state { OnErr result (state.new.value ≡ state.old.value) }
    ensures err_journal { OnErr result (journal.new.items ≡ journal.old.items) }
    ensures capacity { vec_capacity journal.new ≡ vec_capacity journal.old }
    ensures no_memory { wants_memory event ≡ false → IsOk result }
{
    let entry = Entry::of(&event);
    state.apply(event)?;
    journal.push_reserved(entry);
    Ok(())
}

/// Lists an answer by its row, and writes that down. For want of memory neither is done.
pub fn list(
    state: &mut Box<State>,
    journal: &mut Vec<Entry>,
    by: u32,
    row: Row,
    set: Interp,
) -> Result<(), AllocError>
    requires guard { Guard state.old.value (event.Deliver by set) }
    requires listed { sought state.old.value.task.goal ≡ None }
    requires row { IsRowFor (atoms_of state.old.value.task.program) set row }
    requires room { vec_len journal.old < vec_capacity journal.old }
    ensures state { OnOk result (state.new.value ≡ happens state.old.value (event.Deliver by set)) }
    ensures journal { OnOk result (journal.new.items ≡ journal.old.items ++ event.Deliver by set ∷ []) }
    ensures err_state { OnErr result (state.new.value ≡ state.old.value) }
    ensures err_journal { OnErr result (journal.new.items ≡ journal.old.items) }
    ensures capacity { vec_capacity journal.new ≡ vec_capacity journal.old }
{
    let listing = Entry::listing(by, &set);
    state.list(by, row, set)?;
    journal.push_reserved(listing);
    Ok(())
}
