// A line after the program's end.
ghost use Rattle.std.specs.Prelude.{◌≡◌, ◌⊎◌, ◌+◌, ◌≤◌, IfOk};
ghost use Rattle.asp_model.specs.Sets.{with_atoms};
ghost use Rattle.asp_read.specs.Fields.{most_counted};
ghost use Rattle.asp_read.specs.Gives.{Gives};
ghost use Rattle.asp_read.specs.Queries.{query_at, query_line};
ghost use Rattle.asp_read.specs.Sizes.{statement_atoms, statement_size};

use crate::error::{LineError, broken};
use crate::fault::FaultKind;
use crate::field::ended;
use crate::known::KnownAtoms;
use crate::statement::Statement;
use crate::statements::{is_number, literals};
use asp_text::{read_int, split_field};
use std::alloc::Global;

/// The most queries of a text.
const MOST_QUERIES: usize = 10_000;

// A query after so many. The line is whole, and then from what follows its first field on.
#[tactic(auto, unfolding(crate::specs::Queries::query_at))]
fn query(
    alloc: Global,
    count: usize,
    used: u32,
    known: &mut KnownAtoms,
    line: &[u8],
    rest: &[u8],
) -> Result<Statement, LineError>
    ensures statement { Gives (λ s. s) result (query_at count used known.old line.now rest.now) }
    ensures bound { IfOk result (λ s. used + statement_size s ≤ most_counted) }
    ensures known { IfOk result (λ s. known.new ≡ with_atoms known.old (statement_atoms s)) }
{
    if MOST_QUERIES <= count {
        return Err(broken(FaultKind::Queries, line));
    }
    let (literals, rest) = literals(alloc, rest, used, known)?;
    ended(rest)?;
    Ok(Statement::Assume(literals))
}

/// The second end, a query or a comment, after so many queries, where so much was counted.
#[tactic(auto, unfolding(crate::specs::Queries::query_line))]
pub fn query_line(
    alloc: Global,
    line: &[u8],
    count: usize,
    used: u32,
    known: &mut KnownAtoms,
) -> Result<Statement, LineError>
    ensures statement { Gives (λ s. s) result (query_line count used known.old line.now) }
    ensures bound { IfOk result (λ s. (statement_size s ≡ 0) ⊎ (used + statement_size s ≤ most_counted)) }
    ensures known { IfOk result (λ s. known.new ≡ with_atoms known.old (statement_atoms s)) }
{
    let (field, rest) = split_field(line);
    if is_number(field, 0) {
        ended(rest)?;
        return Ok(Statement::End);
    }
    if is_number(field, 6) {
        return query(alloc, count, used, known, line, rest);
    }
    if is_number(field, 10) {
        return Ok(Statement::Comment);
    }
    Err(broken(FaultKind::Query(read_int(field)), line))
}
