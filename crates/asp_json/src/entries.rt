//! Several queries as JSON: an entry of `Call` for each, and what is said of all of them.
ghost use Rattle.std.specs.Prelude.{◌≡◌, ◌++◌, ◌≤◌, codes, decimal, option_map, OnErr, OnOk};
ghost use Rattle.std.specs.Io.KnownBytes.{Appends};
ghost use Rattle.asp_io.specs.Causes.{AppendsFront, Rose};
ghost use Rattle.asp_model.specs.Texts.{found_count};
ghost use Rattle.asp_buffer.specs.Out.{Puts, out};
ghost use Rattle.asp_print.specs.Shown.{separator};
ghost use Rattle.asp_json.specs.Entries.{core_text, entry_answers, entry_results, entry_start, entry_text, is_listed, opening_text, sums_result, sums_text};
ghost use Rattle.asp_json.specs.Json.{recorded_text};

use crate::answers::put_found;
use crate::cores::put_core;
use crate::lists::put_comma;
use crate::text::{put_more, put_summary, result_word};
use asp_buffer::{Waiting, flush, put, put_number};
use asp_io::{Failed, Sink};
use asp_model::program::Program;
use asp_model::results::{End, Mode, Results};
use asp_print::{Query, found_count};
use asp_rows::sets::Sets;
use std::alloc::Global;

/// What is said of several queries together.
#[derive(Clone, Copy)]
pub struct Sums {
    /// How they ended: finished where each of them was.
    pub end: End,
    /// What was asked.
    pub mode: Mode,
    /// How many answers were recorded.
    pub models: u128,
    /// How many queries were begun.
    pub calls: u64,
}

fn put_query_number<K: Sink>(sink: &mut K, waiting: &mut Waiting, number: u64) -> Result<(), Failed>
    ensures { Puts (out (K.held sink.old) (K.faults sink.old) waiting.old)
        (out (K.held sink.new) (K.faults sink.new) waiting.new) result (codes "\n{\"Query\":" ++ decimal number) }
{
    put(sink, waiting, b"\n{\"Query\":")?;
    put_number(sink, waiting, number)
}

// Puts out the number of a query, after a comma where an entry stands before it.
fn put_start<K: Sink>(sink: &mut K, waiting: &mut Waiting, number: u64) -> Result<(), Failed>
    ensures { Puts (out (K.held sink.old) (K.faults sink.old) waiting.old)
        (out (K.held sink.new) (K.faults sink.new) waiting.new) result (entry_start number) }
{
    put_comma(sink, waiting, number > 1)?;
    put_query_number(sink, waiting, number)
}

// Whether answers are listed.
fn is_listed(results: &Results<Sets>) -> bool
    ensures { result ≡ is_listed results.now.mode results.now }
{
    match results.mode {
        Mode::Enum | Mode::Opt => found_count(results) > 0,
        Mode::Consequences(_) => false,
    }
}

// Puts out the answers behind a comma, where there is one.
fn put_listed<K: Sink>(
    alloc: Global,
    sink: &mut K,
    waiting: &mut Waiting,
    program: &Program,
    results: &Results<Sets>,
) -> Result<(), Failed>
    ensures { Puts (out (K.held sink.old) (K.faults sink.old) waiting.old)
        (out (K.held sink.new) (K.faults sink.new) waiting.new) result
        (separator 44 (is_listed results.now.mode results.now) ++ recorded_text program.now results.now.mode results.now) }
{
    put_comma(sink, waiting, is_listed(results))?;
    put_found(alloc, sink, waiting, program, results)
}

// The same, unless the text is to be brief.
fn put_entry_answers<K: Sink>(
    alloc: Global,
    sink: &mut K,
    waiting: &mut Waiting,
    program: &Program,
    results: &Results<Sets>,
    brief: bool,
) -> Result<(), Failed>
    ensures { Puts (out (K.held sink.old) (K.faults sink.old) waiting.old)
        (out (K.held sink.new) (K.faults sink.new) waiting.new) result (entry_answers program.now results.now brief) }
{
    if brief {
        put(sink, waiting, b"")
    } else {
        put_listed(alloc, sink, waiting, program, results)
    }
}

// Puts out the number of a query, and its answers.
fn put_entry_start<K: Sink>(
    alloc: Global,
    sink: &mut K,
    waiting: &mut Waiting,
    program: &Program,
    number: u64,
    results: &Results<Sets>,
    brief: bool,
) -> Result<(), Failed>
    ensures { Puts (out (K.held sink.old) (K.faults sink.old) waiting.old)
        (out (K.held sink.new) (K.faults sink.new) waiting.new) result (entry_start number ++ entry_answers program.now results.now brief) }
{
    put_start(sink, waiting, number)?;
    put_entry_answers(alloc, sink, waiting, program, results, brief)
}

// Puts out what was found of a query.
fn put_entry_results<K: Sink>(
    alloc: Global,
    sink: &mut K,
    waiting: &mut Waiting,
    program: &Program,
    number: u64,
    results: &Results<Sets>,
    brief: bool,
) -> Result<(), Failed>
    ensures { Puts (out (K.held sink.old) (K.faults sink.old) waiting.old)
        (out (K.held sink.new) (K.faults sink.new) waiting.new) result (entry_results program.now number results.now brief) }
{
    put_entry_start(alloc, sink, waiting, program, number, results, brief)?;
    put_summary(sink, waiting, program, results, found_count(results))
}

// Puts out the end of an entry: the core of the query, where there is one.
fn put_entry_end<K: Sink>(
    sink: &mut K,
    waiting: &mut Waiting,
    query: Query<'_>,
    names: bool,
) -> Result<(), Failed>
    ensures { Puts (out (K.held sink.old) (K.faults sink.old) waiting.old)
        (out (K.held sink.new) (K.faults sink.new) waiting.new) result
        (core_text names query.entry.outputs.now (option_map (λ core. core.now) query.entry.core) query.entry.minimal ++ codes "}") }
{
    put_core(
        sink,
        waiting,
        query.outputs,
        query.core,
        query.minimal,
        names,
    )?;
    put(sink, waiting, b"}")
}

fn put_entry<K: Sink>(
    alloc: Global,
    sink: &mut K,
    waiting: &mut Waiting,
    program: &Program,
    query: Query<'_>,
    results: &Results<Sets>,
    brief: bool,
    names: bool,
) -> Result<(), Failed>
    ensures { Puts (out (K.held sink.old) (K.faults sink.old) waiting.old)
        (out (K.held sink.new) (K.faults sink.new) waiting.new) result
        (entry_text program.now query.entry.outputs.now query.entry.number results.now (option_map (λ core. core.now) query.entry.core) query.entry.minimal brief names) }
{
    put_entry_results(alloc, sink, waiting, program, query.number, results, brief)?;
    put_entry_end(sink, waiting, query, names)
}

/// Writes a query's entry of `Call`, after a comma where it isn't the first: its number, the results as `print_json` writes them, and
/// where there is a core its literals and whether it is known to be minimal. Where memory is short it takes longer. After an error a
/// front of the text is out.
pub fn print_entry<K: Sink>(
    alloc: Global,
    sink: &mut K,
    program: &Program,
    query: Query<'_>,
    results: &Results<Sets>,
    brief: bool,
    names: bool,
) -> Result<(), Failed>
    ensures all { OnOk result (Appends (K.held sink.old) (K.held sink.new) (entry_text program.now query.entry.outputs.now query.entry.number results.now (option_map (λ core. core.now) query.entry.core) query.entry.minimal brief names)) }
    ensures front { OnErr result (AppendsFront (K.held sink.old) (K.held sink.new) (entry_text program.now query.entry.outputs.now query.entry.number results.now (option_map (λ core. core.now) query.entry.core) query.entry.minimal brief names)) }
    ensures later { K.faults sink.old ≤ K.faults sink.new }
    ensures cause { OnErr result (Rose (K.faults sink.old) (K.faults sink.new)) }
    ensures quiet { OnOk result (K.faults sink.new ≡ K.faults sink.old) }
{
    let mut waiting = Waiting::new();
    put_entry(
        alloc,
        sink,
        &mut waiting,
        program,
        query,
        results,
        brief,
        names,
    )?;
    flush(sink, &mut waiting)
}

/// Writes what stands before the first entry. After an error a front of the text is out.
pub fn print_opening<K: Sink>(sink: &mut K) -> Result<(), Failed>
    ensures all { OnOk result (Appends (K.held sink.old) (K.held sink.new) opening_text) }
    ensures front { OnErr result (AppendsFront (K.held sink.old) (K.held sink.new) opening_text) }
    ensures later { K.faults sink.old ≤ K.faults sink.new }
    ensures cause { OnErr result (Rose (K.faults sink.old) (K.faults sink.new)) }
    ensures quiet { OnOk result (K.faults sink.new ≡ K.faults sink.old) }
{
    let mut waiting = Waiting::new();
    put(sink, &mut waiting, b"{\"Solver\":\"aspenum\",\"Call\":[")?;
    flush(sink, &mut waiting)
}

// Puts out what is said of the queries together.
fn put_sums_result<K: Sink>(sink: &mut K, waiting: &mut Waiting, sums: &Sums) -> Result<(), Failed>
    ensures { Puts (out (K.held sink.old) (K.faults sink.old) waiting.old)
        (out (K.held sink.new) (K.faults sink.new) waiting.new) result (sums_result sums.now) }
{
    put(sink, waiting, b"\n],\"Result\":\"")?;
    put(sink, waiting, result_word(sums.end, sums.mode, sums.models))?;
    put(sink, waiting, b"\"")
}

// Puts out how many queries were begun.
fn put_calls<K: Sink>(sink: &mut K, waiting: &mut Waiting, calls: u64) -> Result<(), Failed>
    ensures { Puts (out (K.held sink.old) (K.faults sink.old) waiting.old)
        (out (K.held sink.new) (K.faults sink.new) waiting.new) result (codes "},\"Calls\":" ++ decimal calls ++ codes "}\n") }
{
    put(sink, waiting, b"},\"Calls\":")?;
    put_number(sink, waiting, calls)?;
    put(sink, waiting, b"}\n")
}

fn put_sums<K: Sink>(sink: &mut K, waiting: &mut Waiting, sums: &Sums) -> Result<(), Failed>
    ensures { Puts (out (K.held sink.old) (K.faults sink.old) waiting.old)
        (out (K.held sink.new) (K.faults sink.new) waiting.new) result (sums_text sums.now) }
{
    put_sums_result(sink, waiting, sums)?;
    put_more(sink, waiting, sums.end, sums.models)?;
    put_calls(sink, waiting, sums.calls)
}

/// Writes what stands after the last entry: what is said of the queries together. After an error a front of the text is out.
pub fn print_sums<K: Sink>(sink: &mut K, sums: &Sums) -> Result<(), Failed>
    ensures all { OnOk result (Appends (K.held sink.old) (K.held sink.new) (sums_text sums.now)) }
    ensures front { OnErr result (AppendsFront (K.held sink.old) (K.held sink.new) (sums_text sums.now)) }
    ensures later { K.faults sink.old ≤ K.faults sink.new }
    ensures cause { OnErr result (Rose (K.faults sink.old) (K.faults sink.new)) }
    ensures quiet { OnOk result (K.faults sink.new ≡ K.faults sink.old) }
{
    let mut waiting = Waiting::new();
    put_sums(sink, &mut waiting, sums)?;
    flush(sink, &mut waiting)
}
