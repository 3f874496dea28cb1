//! Better answers, told while a run goes on.
ghost use Rattle.std.specs.Prelude.{◌≡◌, ◌<◌, [], ◌∷◌, IfOk, IfSome, IsTrue, Some, length};
ghost use Rattle.std.specs.Option.{option_copied};
ghost use Rattle.asp_crew_laws.specs.Reports.{IsPriced};
ghost use Rattle.asp_model.specs.Models.{atoms_of, is_stable};
ghost use Rattle.asp_model.specs.Texts.{answers_from};
ghost use Rattle.asp_rows.specs.Bits.{IsAmong};
ghost use Rattle.asp_faults.specs.Writing.{Writes};
ghost use Rattle.asp_top.specs.Progress.{AreBest, IsNumber, IsRowOfBest, cost_in, shown_of, told_text};

use crate::progress::write_line;
use asp_counts::counts::Counts;
use asp_counts::watch::Best;
use asp_found::check::Verdict;
use asp_found::found::check;
use asp_io::{Failed, Sink};
use asp_model::cost::{Cost, cost_of};
use asp_model::holding::all_hold;
use asp_model::interp::Interp;
use asp_model::program::Program;
use asp_print::in_parts::PartPrinter;
use asp_rows::rows::Rows;
use asp_vars::compiled::Compiled;
use std::alloc::{AllocError, Global};

// Whether the set is stable.
fn is_stable(alloc: Global, compiled: &Compiled, set: &Interp) -> Result<bool, AllocError>
    ensures { IfOk result (λ b. b ≡ is_stable compiled.now set.now) }
{
    match check(alloc, compiled, set)? {
        Verdict::Stable => Ok(true),
        Verdict::Broken(_) | Verdict::Unfounded(_) => Ok(false),
    }
}

// Whether the set is an answer that costs so much.
fn is_priced(
    alloc: Global,
    compiled: &Compiled,
    set: &Interp,
    cost: &Cost,
) -> Result<bool, AllocError>
    ensures { IfOk result (λ b. IsTrue b → IsPriced compiled.now (set.now, cost.now)) }
{
    let program = compiled.program();
    if !all_hold(set, program.assumptions.as_slice()) {
        return Ok(false);
    }
    let its = cost_of(alloc, program, set)?;
    if its != *cost {
        return Ok(false);
    }
    is_stable(alloc, compiled, set)
}

// The set as a row among the program's atoms.
fn row_of(alloc: Global, compiled: &Compiled, set: &Interp) -> Result<Rows, AllocError>
    requires { IsAmong (atoms_of compiled.now) set.now }
    ensures { IfOk result (λ rows. rows ≡ record { atoms = atoms_of compiled.now; sets = set.now ∷ [] }) }
{
    let atoms = compiled.atoms().copy()?;
    let mut rows = Rows::new(alloc, atoms);
    rows.push(alloc, set)?;
    Ok(rows)
}

// The set as a row, if it is an answer that costs so much.
fn priced_row(
    alloc: Global,
    compiled: &Compiled,
    set: &Interp,
    cost: &Cost,
) -> Result<Option<Rows>, AllocError>
    ensures { IfOk result (λ o. IfSome o (IsRowOfBest compiled.now cost.now)) }
{
    if !is_priced(alloc, compiled, set, cost)? {
        return Ok(None);
    }
    let rows = row_of(alloc, compiled, set)?;
    Ok(Some(rows))
}

/// The best answer as a row, where who tells of it has its atoms, and they are an answer that costs as much. Want of memory is as if they
/// weren't known.
pub fn best_row(alloc: Global, compiled: &Compiled, best: Best<'_>) -> Option<Rows>
    ensures { IfSome result (IsRowOfBest compiled.now best.entry.cost.now) }
{
    match best.set {
        None => None,
        Some(set) => match priced_row(alloc, compiled, set, best.cost) {
            Ok(row) => row,
            Err(_) => None,
        },
    }
}

// Whether more answers are counted than at the last line, and can be numbered.
fn is_new(last: &Counts, counts: &Counts) -> bool
    ensures { IsTrue result → IsNumber counts.now.answers }
{
    last.answers < counts.answers && counts.answers < u64::MAX
}

/// What is shown behind a line: the best answer as a row, where it wasn't there at the last line.
pub fn new_row(
    alloc: Global,
    compiled: &Compiled,
    last: &Counts,
    counts: &Counts,
    best: Option<Best<'_>>,
) -> Option<Rows>
    ensures best { IfSome result (λ row. AreBest (Some compiled.now) (cost_in best.entry) (record { program = compiled.now; sets = row.sets })) }
    ensures number { IfSome result (λ row. IsNumber counts.now.answers × (length row.sets ≡ 1)) }
{
    match best {
        None => None,
        Some(best) => {
            if is_new(last, counts) {
                best_row(alloc, compiled, best)
            } else {
                None
            }
        }
    }
}

// Writes the lines of answers, of which the first has this number.
fn write_shown<N: Sink>(
    notes: &mut N,
    program: &Program,
    number: u64,
    rows: &Rows,
) -> Result<(), Failed>
    requires number { IsNumber number }
    requires one { length rows.now.sets ≡ 1 }
    ensures { Writes (N.held notes.old) (N.held notes.new) (N.faults notes.old) (N.faults notes.new) result (answers_from program.now number rows.now.sets) }
{
    let mut printer = PartPrinter {
        table: None,
        written: number - 1,
    };
    printer.print(notes, program, rows)
}

// Writes a line, and behind it an answer.
fn write_both<N: Sink>(
    notes: &mut N,
    counts: &Counts,
    cost: Option<&Cost>,
    program: &Program,
    row: &Rows,
) -> Result<(), Failed>
    requires number { IsNumber counts.now.answers }
    requires one { length row.now.sets ≡ 1 }
    ensures { Writes (N.held notes.old) (N.held notes.new) (N.faults notes.old) (N.faults notes.new) result
        (told_text (record { counts = counts.now; best = option_copied cost.entry; shown = shown_of program.now (Some row.now) })) }
{
    write_line(notes, counts, cost)?;
    write_shown(notes, program, counts.answers, row)
}

/// Writes a line, and behind it an answer, where there is one.
pub fn write_told<N: Sink>(
    notes: &mut N,
    counts: &Counts,
    cost: Option<&Cost>,
    program: &Program,
    row: &Option<Rows>,
) -> Result<(), Failed>
    requires { IfSome row.now (λ r. IsNumber counts.now.answers × (length r.sets ≡ 1)) }
    ensures { Writes (N.held notes.old) (N.held notes.new) (N.faults notes.old) (N.faults notes.new) result
        (told_text (record { counts = counts.now; best = option_copied cost.entry; shown = shown_of program.now row.now })) }
{
    match row {
        None => write_line(notes, counts, cost),
        Some(row) => write_both(notes, counts, cost, program, row),
    }
}
