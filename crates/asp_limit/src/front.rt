//! The first of some sets, as rows of their own.
ghost use Rattle.std.specs.Prelude.{◌≡◌, ◌≤◌, IfOk, length, take};
ghost use Rattle.asp_model.specs.Sets.{IsAscending};
ghost use Rattle.asp_rows.specs.Listed.{IsRowOf};

use asp_model::interp::Interp;
use asp_model::program::Atom;
use asp_rows::row::Row;
use asp_rows::rows::Rows;
use std::alloc::{AllocError, Global};

// The set of a row.
fn set_of(alloc: Global, atoms: &[Atom], row: &Row) -> Result<Interp, AllocError>
    requires row { IsRowOf atoms.now row.now }
    requires ascending { IsAscending atoms.now }
    ensures { IfOk result (λ set. set ≡ row.now.set) }
{
    let mut set = Vec::new(alloc);
    for place in 0..atoms.len() {
        if row.has_atom(atoms, atoms[place]) {
            set.push(atoms[place])?;
        }
    }
    Ok(Interp::from_ascending(set))
}

/// The first sets, so many.
pub(crate) fn front(alloc: Global, rows: &Rows, count: usize) -> Result<Rows, AllocError>
    requires { count ≤ length rows.now.sets }
    ensures { IfOk result (λ r. r ≡ record { atoms = rows.now.atoms; sets = take count rows.now.sets }) }
{
    let mut first = Rows::new(alloc, rows.atoms().copy()?);
    for place in 0..count {
        let set = set_of(alloc, rows.atoms().as_slice(), &rows.as_slice()[place])?;
        first.push(alloc, &set)?;
    }
    Ok(first)
}
