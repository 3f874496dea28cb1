//! The answers.
ghost use Rattle.std.specs.Prelude.{◌≡◌, ◌++◌, ◌||◌, [], codes, false, if◌then◌else◌, map, IfOk, IfSome};
ghost use Rattle.std.specs.Option.{ForSome};
ghost use Rattle.asp_model.specs.Holding.{all_hold};
ghost use Rattle.asp_model.specs.Sets.{IsAscending};
ghost use Rattle.asp_model.specs.Texts.{best_answers, bests, shown};
ghost use Rattle.asp_model.specs.Views.{output_seen};
ghost use Rattle.asp_rows.specs.Listed.{AreRows};
ghost use Rattle.asp_buffer.specs.Out.{Puts, out};
ghost use Rattle.asp_print.specs.Rows.{IsRowAmong};
ghost use Rattle.asp_print.specs.Shown.{piece, pieces, separator};
ghost use Rattle.asp_json.specs.Commas.{commas};
ghost use Rattle.asp_json.specs.Json.{array, best_costs, call_text, costs_text, recorded_text, witness, witnesses};
ghost use Rattle.asp_json.specs.Quoting.{quoted, quoted_output};
ghost use Rattle.asp_json.specs.Tables.{IsQuoted};

use crate::lists::{put_comma, put_sums};
use crate::quoting::{put_quoted, quoted_outputs};
use asp_buffer::{Waiting, put};
use asp_io::{Failed, Sink};
use asp_model::cost::Cost;
use asp_model::interp::Interp;
use asp_model::outputs::{OutputView, Outputs};
use asp_model::program::{Atom, Program};
use asp_model::results::{Mode, Results};
use asp_print::holding::{Among, Answer, all_hold};
use asp_print::outputs::OutputTable;
use asp_print::put_runs;
use asp_rows::row::Row;
use asp_rows::rows::Rows;
use asp_rows::sets::Sets;
use std::alloc::{AllocError, Global};

// For fewer answers no table of the outputs is made.
const FEW_ANSWERS: usize = 4;

/// The outputs with their texts in quotes.
#[derive(Drop)]
pub(crate) struct QuotedTable {
    /// The outputs.
    outputs: Outputs,
    /// What is read of them for each answer.
    table: OutputTable,
}

// Puts out a text in quotes, after a comma where another one stands before it.
fn put_text<K: Sink>(
    sink: &mut K,
    waiting: &mut Waiting,
    text: &[u8],
    any: bool,
) -> Result<(), Failed>
    ensures { Puts (out (K.held sink.old) (K.faults sink.old) waiting.old)
        (out (K.held sink.new) (K.faults sink.new) waiting.new) result (separator 44 any ++ quoted text.now) }
{
    put_comma(sink, waiting, any)?;
    put_quoted(sink, waiting, text)
}

// Puts out the text of an output whose condition holds, and says whether any text stands there now.
fn put_if_shown<K: Sink, A: Answer>(
    sink: &mut K,
    waiting: &mut Waiting,
    answer: &A,
    output: OutputView<'_>,
    any: bool,
) -> Result<bool, Failed>
    requires { A.is_sound answer.now }
    ensures puts { Puts (out (K.held sink.old) (K.faults sink.old) waiting.old)
        (out (K.held sink.new) (K.faults sink.new) waiting.new) result (piece 44 (A.set answer.now) any (quoted_output (output_seen output.entry))) }
    ensures any { IfOk result (λ now. now ≡ (any || all_hold (A.set answer.now) (output_seen output.entry).condition)) }
{
    if all_hold(answer, output.condition) {
        put_text(sink, waiting, output.text, any)?;
        return Ok(true);
    }
    Ok(any)
}

/// Puts out the texts that are shown, a comma between two.
pub(crate) fn put_texts<K: Sink, A: Answer>(
    sink: &mut K,
    waiting: &mut Waiting,
    answer: &A,
    outputs: &Outputs,
) -> Result<(), Failed>
    requires { A.is_sound answer.now }
    ensures { Puts (out (K.held sink.old) (K.faults sink.old) waiting.old)
        (out (K.held sink.new) (K.faults sink.new) waiting.new) result
        (pieces 44 (A.set answer.now) false (map quoted_output outputs.now)) }
{
    let mut any = false;
    for i in 0..outputs.len() {
        any = put_if_shown(sink, waiting, answer, outputs.output(i), any)?;
    }
    Ok(())
}

// The same of a row, by the outputs in quotes where they are there.
fn put_line<K: Sink>(
    sink: &mut K,
    waiting: &mut Waiting,
    atoms: &[Atom],
    row: &Row,
    outputs: &Outputs,
    table: Option<&QuotedTable>,
) -> Result<(), Failed>
    requires row { IsRowAmong atoms.now row.now }
    requires table { ForSome table (λ q. IsQuoted atoms.now outputs.now q.now) }
    ensures { Puts (out (K.held sink.old) (K.faults sink.old) waiting.old)
        (out (K.held sink.new) (K.faults sink.new) waiting.new) result
        (pieces 44 row.now.set false (map quoted_output outputs.now)) }
{
    match table {
        Some(quoted) => put_runs(sink, waiting, atoms, row, &quoted.outputs, &quoted.table),
        None => put_texts(sink, waiting, &Among { atoms, row }, outputs),
    }
}

// Puts out what an answer shows.
fn put_value<K: Sink>(
    sink: &mut K,
    waiting: &mut Waiting,
    program: &Program,
    table: Option<&QuotedTable>,
    atoms: &[Atom],
    row: &Row,
) -> Result<(), Failed>
    requires row { IsRowAmong atoms.now row.now }
    requires table { ForSome table (λ q. IsQuoted atoms.now program.now.outputs q.now) }
    ensures { Puts (out (K.held sink.old) (K.faults sink.old) waiting.old)
        (out (K.held sink.new) (K.faults sink.new) waiting.new) result
        (codes "\n{\"Value\":" ++ array (map quoted (shown program.now row.now.set))) }
{
    put(sink, waiting, b"\n{\"Value\":[")?;
    put_line(sink, waiting, atoms, row, &program.outputs, table)?;
    put(sink, waiting, b"]")
}

/// Puts out a cost.
pub(crate) fn put_costs<K: Sink>(
    sink: &mut K,
    waiting: &mut Waiting,
    cost: &Cost,
) -> Result<(), Failed>
    ensures { Puts (out (K.held sink.old) (K.faults sink.old) waiting.old)
        (out (K.held sink.new) (K.faults sink.new) waiting.new) result (costs_text cost.now) }
{
    put(sink, waiting, b",\"Costs\":")?;
    put_sums(sink, waiting, cost.as_slice())
}

// Puts out the cost of the best answer, where there is one.
fn put_best_costs<K: Sink>(
    sink: &mut K,
    waiting: &mut Waiting,
    best: &Option<(Interp, Cost)>,
) -> Result<(), Failed>
    ensures { Puts (out (K.held sink.old) (K.faults sink.old) waiting.old)
        (out (K.held sink.new) (K.faults sink.new) waiting.new) result (best_costs best.now) }
{
    match best {
        Some((_, cost)) => put_costs(sink, waiting, cost),
        None => put(sink, waiting, b""),
    }
}

// Puts out an answer.
fn put_answer<K: Sink>(
    sink: &mut K,
    waiting: &mut Waiting,
    program: &Program,
    best: &Option<(Interp, Cost)>,
    table: Option<&QuotedTable>,
    atoms: &[Atom],
    row: &Row,
) -> Result<(), Failed>
    requires row { IsRowAmong atoms.now row.now }
    requires table { ForSome table (λ q. IsQuoted atoms.now program.now.outputs q.now) }
    ensures { Puts (out (K.held sink.old) (K.faults sink.old) waiting.old)
        (out (K.held sink.new) (K.faults sink.new) waiting.new) result (witness program.now best.now row.now.set) }
{
    put_value(sink, waiting, program, table, atoms, row)?;
    put_best_costs(sink, waiting, best)?;
    put(sink, waiting, b"}")
}

// Puts out an answer, after a comma where another one stands before it.
fn put_next<K: Sink>(
    sink: &mut K,
    waiting: &mut Waiting,
    program: &Program,
    best: &Option<(Interp, Cost)>,
    table: Option<&QuotedTable>,
    atoms: &[Atom],
    row: &Row,
    any: bool,
) -> Result<(), Failed>
    requires row { IsRowAmong atoms.now row.now }
    requires table { ForSome table (λ q. IsQuoted atoms.now program.now.outputs q.now) }
    ensures { Puts (out (K.held sink.old) (K.faults sink.old) waiting.old)
        (out (K.held sink.new) (K.faults sink.new) waiting.new) result
        (separator 44 any ++ witness program.now best.now row.now.set) }
{
    put_comma(sink, waiting, any)?;
    put_answer(sink, waiting, program, best, table, atoms, row)
}

// Puts out the answers, a comma between two.
fn put_each<K: Sink>(
    sink: &mut K,
    waiting: &mut Waiting,
    program: &Program,
    best: &Option<(Interp, Cost)>,
    table: Option<&QuotedTable>,
    atoms: &[Atom],
    rows: &[Row],
) -> Result<(), Failed>
    requires ascending { IsAscending atoms.now }
    requires rows { AreRows atoms.now rows.now }
    requires table { ForSome table (λ q. IsQuoted atoms.now program.now.outputs q.now) }
    ensures { Puts (out (K.held sink.old) (K.faults sink.old) waiting.old)
        (out (K.held sink.new) (K.faults sink.new) waiting.new) result
        (commas false (map (witness program.now best.now) (map (λ row. row.set) rows.now))) }
{
    let mut any = false;
    for row in rows {
        put_next(sink, waiting, program, best, table, atoms, row, any)?;
        any = true;
    }
    Ok(())
}

fn quoted(alloc: Global, atoms: &[Atom], outputs: &Outputs) -> Result<QuotedTable, AllocError>
    requires { IsAscending atoms.now }
    ensures { IfOk result (IsQuoted atoms.now outputs.now) }
{
    let same = quoted_outputs(alloc, outputs)?;
    let table = OutputTable::of(alloc, b',', atoms, &same)?;
    Ok(QuotedTable {
        outputs: same,
        table,
    })
}

// The outputs in quotes, where that is worth its while and memory suffices.
fn quoted_for(
    alloc: Global,
    atoms: &[Atom],
    outputs: &Outputs,
    answers: usize,
) -> Option<QuotedTable>
    requires { IsAscending atoms.now }
    ensures { IfSome result (IsQuoted atoms.now outputs.now) }
{
    if answers < FEW_ANSWERS {
        return None;
    }
    quoted(alloc, atoms, outputs).ok()
}

// Puts out the answers. Where memory is short it takes longer.
fn put_rows<K: Sink>(
    alloc: Global,
    sink: &mut K,
    waiting: &mut Waiting,
    program: &Program,
    best: &Option<(Interp, Cost)>,
    answers: &Rows,
) -> Result<(), Failed>
    ensures { Puts (out (K.held sink.old) (K.faults sink.old) waiting.old)
        (out (K.held sink.new) (K.faults sink.new) waiting.new) result
        (commas false (map (witness program.now best.now) answers.now.sets)) }
{
    let atoms = answers.atoms().as_slice();
    let table = quoted_for(alloc, atoms, &program.outputs, answers.len());
    put_each(
        sink,
        waiting,
        program,
        best,
        table.as_ref(),
        atoms,
        answers.as_slice(),
    )
}

// Puts out the answers in brackets.
fn put_some<K: Sink>(
    alloc: Global,
    sink: &mut K,
    waiting: &mut Waiting,
    program: &Program,
    best: &Option<(Interp, Cost)>,
    answers: &Rows,
) -> Result<(), Failed>
    ensures { Puts (out (K.held sink.old) (K.faults sink.old) waiting.old)
        (out (K.held sink.new) (K.faults sink.new) waiting.new) result
        (codes "\"Witnesses\":[" ++ commas false (map (witness program.now best.now) answers.now.sets) ++ codes "\n]") }
{
    put(sink, waiting, b"\"Witnesses\":[")?;
    put_rows(alloc, sink, waiting, program, best, answers)?;
    put(sink, waiting, b"\n]")
}

// Puts out the answers, where there is one.
fn put_answers<K: Sink>(
    alloc: Global,
    sink: &mut K,
    waiting: &mut Waiting,
    program: &Program,
    best: &Option<(Interp, Cost)>,
    answers: &Rows,
) -> Result<(), Failed>
    ensures { Puts (out (K.held sink.old) (K.faults sink.old) waiting.old)
        (out (K.held sink.new) (K.faults sink.new) waiting.new) result
        (witnesses program.now best.now answers.now.sets) }
{
    if answers.len() == 0 {
        return put(sink, waiting, b"");
    }
    put_some(alloc, sink, waiting, program, best, answers)
}

// Puts out what a set shows.
fn put_set_value<K: Sink>(
    sink: &mut K,
    waiting: &mut Waiting,
    program: &Program,
    set: &Interp,
) -> Result<(), Failed>
    ensures { Puts (out (K.held sink.old) (K.faults sink.old) waiting.old)
        (out (K.held sink.new) (K.faults sink.new) waiting.new) result
        (codes "\n{\"Value\":" ++ array (map quoted (shown program.now set.now))) }
{
    put(sink, waiting, b"\n{\"Value\":[")?;
    put_texts(sink, waiting, set, &program.outputs)?;
    put(sink, waiting, b"]")
}

// Puts out a set as an answer that costs this.
fn put_set<K: Sink>(
    sink: &mut K,
    waiting: &mut Waiting,
    program: &Program,
    set: &Interp,
    cost: &Cost,
) -> Result<(), Failed>
    ensures { Puts (out (K.held sink.old) (K.faults sink.old) waiting.old)
        (out (K.held sink.new) (K.faults sink.new) waiting.new) result
        (codes "\n{\"Value\":" ++ array (map quoted (shown program.now set.now)) ++ costs_text cost.now ++ codes "}") }
{
    put_set_value(sink, waiting, program, set)?;
    put_costs(sink, waiting, cost)?;
    put(sink, waiting, b"}")
}

// Puts out a set as the only answer.
fn put_only<K: Sink>(
    sink: &mut K,
    waiting: &mut Waiting,
    program: &Program,
    set: &Interp,
    cost: &Cost,
) -> Result<(), Failed>
    ensures { Puts (out (K.held sink.old) (K.faults sink.old) waiting.old)
        (out (K.held sink.new) (K.faults sink.new) waiting.new) result
        (codes "\"Witnesses\":[" ++ (codes "\n{\"Value\":" ++ array (map quoted (shown program.now set.now)) ++ costs_text cost.now ++ codes "}") ++ codes "\n]") }
{
    put(sink, waiting, b"\"Witnesses\":[")?;
    put_set(sink, waiting, program, set, cost)?;
    put(sink, waiting, b"\n]")
}

// Puts out the best answer, where there is one.
fn put_best<K: Sink>(
    sink: &mut K,
    waiting: &mut Waiting,
    program: &Program,
    best: &Option<(Interp, Cost)>,
) -> Result<(), Failed>
    ensures { Puts (out (K.held sink.old) (K.faults sink.old) waiting.old)
        (out (K.held sink.new) (K.faults sink.new) waiting.new) result
        (witnesses program.now best.now (best_answers best.now)) }
{
    match best {
        Some((set, cost)) => put_only(sink, waiting, program, set, cost),
        None => put(sink, waiting, b""),
    }
}

// Puts out the answers that are listed, or where none is the best.
fn put_bests<K: Sink>(
    alloc: Global,
    sink: &mut K,
    waiting: &mut Waiting,
    program: &Program,
    results: &Results<Sets>,
) -> Result<(), Failed>
    ensures { Puts (out (K.held sink.old) (K.faults sink.old) waiting.old)
        (out (K.held sink.new) (K.faults sink.new) waiting.new) result
        (witnesses program.now results.now.best (bests results.now.best results.now.answers)) }
{
    let rows = results.answers.rows();
    if rows.len() != 0 {
        put_answers(alloc, sink, waiting, program, &results.best, rows)
    } else {
        put_best(sink, waiting, program, &results.best)
    }
}

/// Puts out the answers that were recorded.
pub(crate) fn put_found<K: Sink>(
    alloc: Global,
    sink: &mut K,
    waiting: &mut Waiting,
    program: &Program,
    results: &Results<Sets>,
) -> Result<(), Failed>
    ensures { Puts (out (K.held sink.old) (K.faults sink.old) waiting.old)
        (out (K.held sink.new) (K.faults sink.new) waiting.new) result
        (recorded_text program.now results.now.mode results.now) }
{
    match results.mode {
        Mode::Enum => put_answers(alloc, sink, waiting, program, &None, results.answers.rows()),
        Mode::Opt => put_bests(alloc, sink, waiting, program, results),
        Mode::Consequences(_) => put(sink, waiting, b""),
    }
}

// Puts out the answers, unless the text is to be brief.
fn put_recorded<K: Sink>(
    alloc: Global,
    sink: &mut K,
    waiting: &mut Waiting,
    program: &Program,
    results: &Results<Sets>,
    brief: bool,
) -> Result<(), Failed>
    ensures { Puts (out (K.held sink.old) (K.faults sink.old) waiting.old)
        (out (K.held sink.new) (K.faults sink.new) waiting.new) result
        (if brief then [] else recorded_text program.now results.now.mode results.now) }
{
    if brief {
        put(sink, waiting, b"")
    } else {
        put_found(alloc, sink, waiting, program, results)
    }
}

/// Puts out the text as far as the answers.
pub(crate) fn put_call<K: Sink>(
    alloc: Global,
    sink: &mut K,
    waiting: &mut Waiting,
    program: &Program,
    results: &Results<Sets>,
    brief: bool,
) -> Result<(), Failed>
    ensures { Puts (out (K.held sink.old) (K.faults sink.old) waiting.old)
        (out (K.held sink.new) (K.faults sink.new) waiting.new) result (call_text program.now results.now brief) }
{
    put(sink, waiting, b"{\"Solver\":\"aspenum\",\"Call\":[{")?;
    put_recorded(alloc, sink, waiting, program, results, brief)?;
    put(sink, waiting, b"}]")
}
