//! The answers of a part are listed, each with the entry of its delivery.
ghost use Rattle.std.specs.Prelude.{◌≡◌, IfOk};
ghost use Rattle.std.specs.List.{AllByRecursion};
ghost use Rattle.asp_model.specs.Sets.{IsAscending};
ghost use Rattle.asp_rows.specs.Bits.{IsAmong};
ghost use Rattle.asp_rows.specs.Listed.{IsRowOf};
ghost use Rattle.asp_parts.specs.Parts.{deliveries};

use crate::part::Found;
use asp_core::entry::Entry;
use asp_model::interp::Interp;
use asp_model::program::Atom;
use asp_rows::bits::bit_at;
use asp_rows::row::Row;
use asp_rows::rows::Rows;
use std::alloc::{AllocError, Global};

// The set of a row.
fn set_of(alloc: Global, atoms: &[Atom], row: &Row) -> Result<Interp, AllocError>
    requires row { IsRowOf atoms.now row.now }
    requires ascending { IsAscending atoms.now }
    ensures { IfOk result (λ set. set ≡ row.now.set) }
{
    let mut set = Vec::new(alloc);
    for place in 0..atoms.len() {
        if row.has(atoms, bit_at(atoms.len(), place)) {
            set.push(atoms[place])?;
        }
    }
    Ok(Interp::from_ascending(set))
}

/// These sets, all of them among the atoms. Want of memory is the one error.
pub(crate) fn found(alloc: Global, atoms: &Interp, sets: &Rows) -> Result<Found, AllocError>
    requires { AllByRecursion (IsAmong atoms.now) sets.now.sets }
    ensures rows { IfOk result (λ f. f.rows ≡ record { atoms = atoms.now; sets = sets.now.sets }) }
    ensures entries { IfOk result (λ f. f.entries.items ≡ deliveries sets.now.sets) }
{
    let mut rows = Rows::new(alloc, atoms.copy()?);
    let mut entries = Vec::new(alloc);
    for place in 0..sets.len() {
        let set = set_of(alloc, sets.atoms().as_slice(), &sets.as_slice()[place])?;
        rows.push(alloc, &set)?;
        entries.push(Entry::listing(0, &set))?;
    }
    Ok(Found { rows, entries })
}
