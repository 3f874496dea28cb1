//! The lines of the answers.
ghost use Rattle.std.specs.Prelude.{◌≡◌, ◌++◌, ◌+◌, ◌^◌, ◌<◌, ◌||◌, length, map, codes, decimal, IfOk, IfSome, false};
ghost use Rattle.std.specs.Option.{ForSome};
ghost use Rattle.asp_model.specs.Sets.{IsAscending};
ghost use Rattle.asp_rows.specs.Listed.{AreRows};
ghost use Rattle.asp_print.specs.Rows.{IsRowAmong, IsTableBy, IsTableOf};
ghost use Rattle.std.specs.List.{join_with_byte};
ghost use Rattle.asp_model.specs.Holding.{all_hold};
ghost use Rattle.asp_model.specs.Views.{output_seen};
ghost use Rattle.asp_model.specs.Texts.{answer_lines, answers_from, ended_line, shown};
ghost use Rattle.asp_buffer.specs.Out.{Puts, out};
ghost use Rattle.asp_print.specs.Shown.{piece, pieces, separator};

use crate::holding::{Among, Answer, all_hold};
use crate::outputs::OutputTable;
use asp_buffer::{Waiting, put, put_number};
use asp_io::{Failed, Sink};
use asp_model::interp::Interp;
use asp_model::outputs::{OutputView, Outputs};
use asp_model::program::{Atom, Program};
use asp_rows::row::Row;
use asp_rows::rows::Rows;
use std::alloc::Global;

fn separator(behind_another: bool) -> &'static [u8]
    ensures { result.now ≡ separator 32 behind_another }
{
    if behind_another { b" " } else { b"" }
}

// For fewer answers no table of the outputs is made.
const FEW_ANSWERS: usize = 4;

// Puts out a text, behind a blank where another one stands before it.
fn put_text<K: Sink>(
    sink: &mut K,
    waiting: &mut Waiting,
    text: &[u8],
    behind_another: bool,
) -> Result<(), Failed>
    ensures { Puts (out (K.held sink.old) (K.faults sink.old) waiting.old)
        (out (K.held sink.new) (K.faults sink.new) waiting.new) result
        (separator 32 behind_another ++ text.now) }
{
    put(sink, waiting, separator(behind_another))?;
    put(sink, waiting, text)
}

// Puts out the text of an output whose condition holds, and says whether any text stands there now.
fn put_if_shown<K: Sink, A: Answer>(
    sink: &mut K,
    waiting: &mut Waiting,
    answer: &A,
    output: OutputView<'_>,
    any: bool,
) -> Result<bool, Failed>
    requires { A.is_sound answer.now }
    ensures puts { Puts (out (K.held sink.old) (K.faults sink.old) waiting.old)
        (out (K.held sink.new) (K.faults sink.new) waiting.new) result (piece 32 (A.set answer.now) any (output_seen output.entry)) }
    ensures any { IfOk result (λ now. now ≡ (any || all_hold (A.set answer.now) (output_seen output.entry).condition)) }
{
    if all_hold(answer, output.condition) {
        put_text(sink, waiting, output.text, any)?;
        return Ok(true);
    }
    Ok(any)
}

/// Puts out the texts that are shown, one blank between two, and one before the first where another text stands there.
pub(crate) fn put_texts<K: Sink, A: Answer>(
    sink: &mut K,
    waiting: &mut Waiting,
    answer: &A,
    outputs: &Outputs,
    behind_another: bool,
) -> Result<(), Failed>
    requires { A.is_sound answer.now }
    ensures { Puts (out (K.held sink.old) (K.faults sink.old) waiting.old)
        (out (K.held sink.new) (K.faults sink.new) waiting.new) result
        (pieces 32 (A.set answer.now) behind_another outputs.now) }
{
    let mut any = behind_another;
    for i in 0..outputs.len() {
        any = put_if_shown(sink, waiting, answer, outputs.output(i), any)?;
    }
    Ok(())
}

/// Puts out the texts of the outputs that an answer shows, with the separator of the table between two: a run of outputs at a time.
pub fn put_runs<K: Sink>(
    sink: &mut K,
    waiting: &mut Waiting,
    atoms: &[Atom],
    row: &Row,
    outputs: &Outputs,
    table: &OutputTable,
) -> Result<(), Failed>
    requires row { IsRowAmong atoms.now row.now }
    requires table { IsTableOf atoms.now outputs.now table.now }
    ensures { Puts (out (K.held sink.old) (K.faults sink.old) waiting.old)
        (out (K.held sink.new) (K.faults sink.new) waiting.new) result
        (pieces table.now.between row.now.set false outputs.now) }
{
    let mut any = false;
    let mut from = table.first_shown(atoms, outputs, row, 0);
    while from < outputs.len() {
        let to = table.run_end(atoms, outputs, row, from);
        put(sink, waiting, table.texts(outputs, from, to, any))?;
        any = true;
        from = table.first_shown(atoms, outputs, row, to);
    }
    Ok(())
}

// Puts out the line before an answer.
fn put_heading<K: Sink>(sink: &mut K, waiting: &mut Waiting, number: u64) -> Result<(), Failed>
    ensures { Puts (out (K.held sink.old) (K.faults sink.old) waiting.old)
        (out (K.held sink.new) (K.faults sink.new) waiting.new) result
        (ended_line (codes "Answer: " ++ decimal number)) }
{
    put(sink, waiting, b"Answer: ")?;
    put_number(sink, waiting, number)?;
    put(sink, waiting, b"\n")
}

// Puts out the texts that are shown.
fn put_line<K: Sink>(
    sink: &mut K,
    waiting: &mut Waiting,
    atoms: &[Atom],
    row: &Row,
    outputs: &Outputs,
    table: Option<&OutputTable>,
) -> Result<(), Failed>
    requires row { IsRowAmong atoms.now row.now }
    requires table { ForSome table (λ t. IsTableBy 32 atoms.now outputs.now t.now) }
    ensures { Puts (out (K.held sink.old) (K.faults sink.old) waiting.old)
        (out (K.held sink.new) (K.faults sink.new) waiting.new) result
        (pieces 32 row.now.set false outputs.now) }
{
    match table {
        Some(table) => put_runs(sink, waiting, atoms, row, outputs, table),
        None => put_texts(sink, waiting, &Among { atoms, row }, outputs, false),
    }
}

// Puts out the line of an answer's texts.
fn put_shown<K: Sink>(
    sink: &mut K,
    waiting: &mut Waiting,
    program: &Program,
    table: Option<&OutputTable>,
    atoms: &[Atom],
    row: &Row,
) -> Result<(), Failed>
    requires row { IsRowAmong atoms.now row.now }
    requires table { ForSome table (λ t. IsTableBy 32 atoms.now program.now.outputs t.now) }
    ensures { Puts (out (K.held sink.old) (K.faults sink.old) waiting.old)
        (out (K.held sink.new) (K.faults sink.new) waiting.new) result
        (ended_line (join_with_byte 32 (shown program.now row.now.set))) }
{
    put_line(sink, waiting, atoms, row, &program.outputs, table)?;
    put(sink, waiting, b"\n")
}

fn put_answer<K: Sink>(
    sink: &mut K,
    waiting: &mut Waiting,
    program: &Program,
    table: Option<&OutputTable>,
    number: u64,
    atoms: &[Atom],
    row: &Row,
) -> Result<(), Failed>
    requires row { IsRowAmong atoms.now row.now }
    requires table { ForSome table (λ t. IsTableBy 32 atoms.now program.now.outputs t.now) }
    ensures { Puts (out (K.held sink.old) (K.faults sink.old) waiting.old)
        (out (K.held sink.new) (K.faults sink.new) waiting.new) result
        (answer_lines program.now number row.now.set) }
{
    put_heading(sink, waiting, number)?;
    put_shown(sink, waiting, program, table, atoms, row)
}

// Puts out the line of the texts of a set.
fn put_set_shown<K: Sink>(
    sink: &mut K,
    waiting: &mut Waiting,
    program: &Program,
    set: &Interp,
) -> Result<(), Failed>
    ensures { Puts (out (K.held sink.old) (K.faults sink.old) waiting.old)
        (out (K.held sink.new) (K.faults sink.new) waiting.new) result
        (ended_line (join_with_byte 32 (shown program.now set.now))) }
{
    put_texts(sink, waiting, set, &program.outputs, false)?;
    put(sink, waiting, b"\n")
}

/// Puts out the lines of a set as the first answer.
pub(crate) fn put_set<K: Sink>(
    sink: &mut K,
    waiting: &mut Waiting,
    program: &Program,
    set: &Interp,
) -> Result<(), Failed>
    ensures { Puts (out (K.held sink.old) (K.faults sink.old) waiting.old)
        (out (K.held sink.new) (K.faults sink.new) waiting.new) result
        (answer_lines program.now 1 set.now) }
{
    put_heading(sink, waiting, 1)?;
    put_set_shown(sink, waiting, program, set)
}

/// Puts out the lines of the answers, of which the first has this number.
pub(crate) fn put_each<K: Sink>(
    sink: &mut K,
    waiting: &mut Waiting,
    program: &Program,
    table: Option<&OutputTable>,
    first: u64,
    atoms: &[Atom],
    rows: &[Row],
) -> Result<(), Failed>
    requires ascending { IsAscending atoms.now }
    requires rows { AreRows atoms.now rows.now }
    requires table { ForSome table (λ t. IsTableBy 32 atoms.now program.now.outputs t.now) }
    requires room { first + length rows.now < 2 ^ 64 }
    ensures { Puts (out (K.held sink.old) (K.faults sink.old) waiting.old)
        (out (K.held sink.new) (K.faults sink.new) waiting.new) result
        (answers_from program.now first (map (λ row. row.set) rows.now)) }
{
    let mut number = first;
    for row in rows {
        put_answer(sink, waiting, program, table, number, atoms, row)?;
        number += 1;
    }
    Ok(())
}

// The table of the outputs, where it is worth its while and memory isn't wanting.
fn table_of(alloc: Global, atoms: &[Atom], outputs: &Outputs, answers: usize) -> Option<OutputTable>
    requires { IsAscending atoms.now }
    ensures { IfSome result (IsTableBy 32 atoms.now outputs.now) }
{
    if answers < FEW_ANSWERS {
        return None;
    }
    OutputTable::of(alloc, b' ', atoms, outputs).ok()
}

/// Puts out the lines of the answers, numbered from 1. Where memory is wanting it takes longer.
pub(crate) fn put_answers<K: Sink>(
    alloc: Global,
    sink: &mut K,
    waiting: &mut Waiting,
    program: &Program,
    answers: &Rows,
) -> Result<(), Failed>
    ensures { Puts (out (K.held sink.old) (K.faults sink.old) waiting.old)
        (out (K.held sink.new) (K.faults sink.new) waiting.new) result
        (answers_from program.now 1 answers.now.sets) }
{
    let atoms = answers.atoms().as_slice();
    let table = table_of(alloc, atoms, &program.outputs, answers.len());
    put_each(
        sink,
        waiting,
        program,
        table.as_ref(),
        1,
        atoms,
        answers.as_slice(),
    )
}
