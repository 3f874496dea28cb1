//! What is said at the end.
ghost use Rattle.std.specs.Prelude.{◌≡◌, ◌+◌, ◌<◌, ◌^◌, Bool, List, IfOk, length, map};
ghost use Rattle.asp_model.specs.Sets.{Atoms};
ghost use Rattle.asp_vars.specs.Numbering.{literal_of};
ghost use Rattle.asp_stream.specs.Endings.{IsTellingOf};
ghost use Rattle.asp_parts.specs.Courses.{IsOver, end_of};
ghost use Rattle.asp_parts.specs.Parts.{deliveries};

use asp_core::entry::Entry;
use asp_core::event::Event;
use asp_model::seq::Seq;
use asp_rows::rows::Rows;
use asp_stream::{End, Told};
use asp_vars::assumed::add_all;
use asp_vars::compiled::Compiled;
use asp_vars::fuel::Fuel;
use asp_vars::nogood::Lits;
use std::alloc::{AllocError, Global};

// The literals that each answer meets.
fn root_of(alloc: Global, compiled: &Compiled) -> Result<Lits, AllocError>
    ensures { IfOk result (λ lits. lits ≡ map (literal_of compiled.now) compiled.now.assumptions) }
{
    let mut root = Vec::new(alloc);
    add_all(
        &mut root,
        compiled,
        compiled.program().assumptions.as_slice(),
    )?;
    Lits::from_slice(alloc, root.as_slice())
}

// How it ended, where all was told or no more is wanted.
fn end_of(all: bool) -> End
    ensures { result ≡ end_of all }
{
    if all { End::Finished } else { End::Unwanted }
}

/// What is to be said of a stream beside what was told, of which the journal has the deliveries: that all was told, or that no more is
/// wanted. Of so many units none was burnt. Want of memory is the one error.
pub(crate) fn told(
    alloc: Global,
    compiled: &Compiled,
    budget: u64,
    mut journal: Vec<Entry>,
    all: bool,
) -> Result<Told, AllocError>
    ensures { IfOk result (λ told. (heard : List Atoms) (wants : Bool) → journal.items ≡ deliveries heard → length heard + 1 < 2 ^ 64
        → IsOver compiled.now heard wants all → IsTellingOf compiled.now budget heard wants told) }
{
    let root = root_of(alloc, compiled)?;
    journal.push(Entry::of(&Event::Take(0, 0)))?;
    journal.push(Entry::of(&Event::Close(0, 0, root)))?;
    let rest = Rows::new(alloc, compiled.atoms().copy()?);
    Ok(Told {
        end: end_of(all),
        rest,
        journal: Seq::from_vec(journal),
        leaves: 1,
        paid: Fuel::of(compiled, budget),
    })
}
