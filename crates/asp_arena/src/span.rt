//! Where a row's literals stand among all cells.
ghost use Rattle.std.specs.Prelude.{◌≡◌, ◌+◌, ◌≤◌, ◌++◌, IfOk, OnOk, OnErr, length};
ghost use Rattle.asp_arena.specs.Rows.{cells_of};

use asp_table::narrow::narrow;
use asp_vars::lit::Lit;
use std::alloc::AllocError;

/// The cells of one row.
#[derive(Clone, Copy)]
pub struct Span {
    /// The first literal's place.
    pub start: u32,
    /// How many literals there are.
    pub len: u32,
    /// Where in the row the next look begins. No contract speaks of it.
    pub next: u32,
}

/// The span of a number that has no row.
pub const NO_ROW: Span = Span {
    start: 0,
    len: 0,
    next: 0,
};

/// The literals of a span.
pub fn part(cells: &[Lit], span: Span) -> &[Lit]
    requires { span.start + span.len ≤ length cells.now }
    ensures { result.now ≡ cells_of cells.now span }
{
    let start = span.start as usize;
    let end = start + span.len as usize;
    &cells[start..end]
}

/// Puts literals behind all cells, and gives where they stand. Want of memory, or of places below 2^32, leaves all as it was.
pub fn append(cells: &mut Vec<Lit>, lits: &[Lit], next: u32) -> Result<Span, AllocError>
    ensures start { IfOk result (λ s. s.start ≡ length cells.old.items) }
    ensures len { IfOk result (λ s. s.len ≡ length lits.now) }
    ensures ok { OnOk result (cells.new.items ≡ cells.old.items ++ lits.now) }
    ensures err { OnErr result (cells.new.items ≡ cells.old.items) }
{
    let start = narrow(cells.len())?;
    let len = narrow(lits.len())?;
    cells.extend_from_slice(lits)?;
    Ok(Span { start, len, next })
}
