//! The text of a query's results.
ghost use Rattle.std.specs.Prelude.{◌≡◌, ◌++◌, ◌≤◌, ◌∷◌, option_map, OnOk, OnErr};
ghost use Rattle.std.specs.Io.KnownBytes.{Appends};
ghost use Rattle.asp_io.specs.Causes.{Rose, AppendsFront};
ghost use Rattle.asp_model.specs.Texts.{ended_line};
ghost use Rattle.asp_buffer.specs.Out.{Puts, out};
ghost use Rattle.asp_print.specs.Named.{printed_text};
ghost use Rattle.asp_print.specs.Queries.{core_line, core_word, denial, is_alone, literal_by, literal_text, literals_text, name_in, name_of, query_line, query_text};

use crate::text::put_results;
use asp_buffer::{Waiting, flush, put, put_number};
use asp_io::{Failed, Sink};
use asp_model::outputs::Outputs;
use asp_model::program::{Atom, Program};
use asp_model::results::Results;
use asp_rows::sets::Sets;
use std::alloc::Global;

/// Which query it is, and its core.
#[derive(Clone, Copy)]
pub struct Query<'a> {
    /// Its number, counted from 1.
    pub number: u64,
    /// Literals that no answer has together, where the query has no answer.
    pub core: Option<&'a [i32]>,
    /// Whether no literal of the core may be left out.
    pub minimal: bool,
    /// The outputs that name the atoms of its literals.
    pub outputs: &'a Outputs,
}

// Whether a condition is this one atom.
fn is_alone(atom: Atom, condition: &[i32]) -> bool
    ensures { result ≡ is_alone atom condition.now }
{
    match condition {
        [literal] => *literal as i64 == atom as i64,
        _ => false,
    }
}

// The text of the first output that is exactly this atom.
fn name_in<'a>(outputs: &'a Outputs, atom: Atom) -> Option<&'a [u8]>
    ensures { option_map (λ text. text.now) result ≡ name_in atom outputs.entry.now }
{
    for i in 0..outputs.len() {
        let output = outputs.output(i);
        if is_alone(atom, output.condition) {
            return Some(output.text);
        }
    }
    None
}

// The same of a literal's atom, where names are asked for.
fn name_of<'a>(outputs: &'a Outputs, names: bool, literal: i32) -> Option<&'a [u8]>
    ensures { option_map (λ text. text.now) result ≡ name_of names outputs.entry.now literal }
{
    if names {
        name_in(outputs, literal.unsigned_abs())
    } else {
        None
    }
}

fn denial(literal: i32) -> &'static [u8]
    ensures { result.now ≡ denial literal }
{
    if literal < 0 { b"not " } else { b"" }
}

fn put_named_literal<K: Sink>(
    sink: &mut K,
    waiting: &mut Waiting,
    name: &[u8],
    literal: i32,
) -> Result<(), Failed>
    ensures { Puts (out (K.held sink.old) (K.faults sink.old) waiting.old)
        (out (K.held sink.new) (K.faults sink.new) waiting.new) result (denial literal ++ name.now) }
{
    put(sink, waiting, denial(literal))?;
    put(sink, waiting, name)
}

fn put_literal_by<K: Sink>(
    sink: &mut K,
    waiting: &mut Waiting,
    name: Option<&[u8]>,
    literal: i32,
) -> Result<(), Failed>
    ensures { Puts (out (K.held sink.old) (K.faults sink.old) waiting.old)
        (out (K.held sink.new) (K.faults sink.new) waiting.new) result (literal_by (option_map (λ text. text.now) name.entry) literal) }
{
    match name {
        None => put_number(sink, waiting, literal),
        Some(name) => put_named_literal(sink, waiting, name, literal),
    }
}

// Puts out a literal, after a blank.
fn put_literal<K: Sink>(
    sink: &mut K,
    waiting: &mut Waiting,
    outputs: &Outputs,
    names: bool,
    literal: &i32,
) -> Result<(), Failed>
    ensures { Puts (out (K.held sink.old) (K.faults sink.old) waiting.old)
        (out (K.held sink.new) (K.faults sink.new) waiting.new) result (32 ∷ literal_text names outputs.now literal.now) }
{
    put(sink, waiting, b" ")?;
    put_literal_by(sink, waiting, name_of(outputs, names, *literal), *literal)
}

// Puts out the literals, each after a blank.
fn put_literals<K: Sink>(
    sink: &mut K,
    waiting: &mut Waiting,
    outputs: &Outputs,
    names: bool,
    literals: &[i32],
) -> Result<(), Failed>
    ensures { Puts (out (K.held sink.old) (K.faults sink.old) waiting.old)
        (out (K.held sink.new) (K.faults sink.new) waiting.new) result (literals_text names outputs.now literals.now) }
{
    for literal in literals {
        put_literal(sink, waiting, outputs, names, literal)?;
    }
    Ok(())
}

fn core_word(minimal: bool) -> &'static [u8]
    ensures { result.now ≡ core_word minimal }
{
    if minimal { b"Minimal core:" } else { b"Core:" }
}

fn put_core_of<K: Sink>(
    sink: &mut K,
    waiting: &mut Waiting,
    outputs: &Outputs,
    core: &[i32],
    minimal: bool,
    names: bool,
) -> Result<(), Failed>
    ensures { Puts (out (K.held sink.old) (K.faults sink.old) waiting.old)
        (out (K.held sink.new) (K.faults sink.new) waiting.new) result (ended_line (core_word minimal ++ literals_text names outputs.now core.now)) }
{
    put(sink, waiting, core_word(minimal))?;
    put_literals(sink, waiting, outputs, names, core)?;
    put(sink, waiting, b"\n")
}

// Puts out the line of a core, where there is one.
fn put_core<K: Sink>(
    sink: &mut K,
    waiting: &mut Waiting,
    outputs: &Outputs,
    core: Option<&[i32]>,
    minimal: bool,
    names: bool,
) -> Result<(), Failed>
    ensures { Puts (out (K.held sink.old) (K.faults sink.old) waiting.old)
        (out (K.held sink.new) (K.faults sink.new) waiting.new) result (core_line names outputs.now (option_map (λ core. core.now) core.entry) minimal) }
{
    match core {
        None => put(sink, waiting, b""),
        Some(core) => put_core_of(sink, waiting, outputs, core, minimal, names),
    }
}

// Puts out the line before a query's results.
fn put_heading<K: Sink>(sink: &mut K, waiting: &mut Waiting, number: u64) -> Result<(), Failed>
    ensures { Puts (out (K.held sink.old) (K.faults sink.old) waiting.old)
        (out (K.held sink.new) (K.faults sink.new) waiting.new) result (query_line number) }
{
    put(sink, waiting, b"Query: ")?;
    put_number(sink, waiting, number)?;
    put(sink, waiting, b"\n")
}

// Puts out the line before a query's results, and these.
fn put_headed<K: Sink>(
    alloc: Global,
    sink: &mut K,
    waiting: &mut Waiting,
    program: &Program,
    number: u64,
    results: &Results<Sets>,
    brief: bool,
    names: bool,
) -> Result<(), Failed>
    ensures { Puts (out (K.held sink.old) (K.faults sink.old) waiting.old)
        (out (K.held sink.new) (K.faults sink.new) waiting.new) result
        (query_line number ++ printed_text program.now results.now brief names) }
{
    put_heading(sink, waiting, number)?;
    put_results(alloc, sink, waiting, program, results, brief, names)
}

fn put_query<K: Sink>(
    alloc: Global,
    sink: &mut K,
    waiting: &mut Waiting,
    program: &Program,
    query: Query<'_>,
    results: &Results<Sets>,
    brief: bool,
    names: bool,
) -> Result<(), Failed>
    ensures { Puts (out (K.held sink.old) (K.faults sink.old) waiting.old)
        (out (K.held sink.new) (K.faults sink.new) waiting.new) result
        (query_text program.now query.entry.outputs.now query.entry.number results.now (option_map (λ core. core.now) query.entry.core) query.entry.minimal brief names) }
{
    put_headed(
        alloc,
        sink,
        waiting,
        program,
        query.number,
        results,
        brief,
        names,
    )?;
    put_core(
        sink,
        waiting,
        query.outputs,
        query.core,
        query.minimal,
        names,
    )
}

/// Writes the text of a query's results: its line, the results as `print` writes them, and where there is a core its line. After
/// an error a front of the text is out.
pub fn print_query<K: Sink>(
    alloc: Global,
    sink: &mut K,
    program: &Program,
    query: Query<'_>,
    results: &Results<Sets>,
    brief: bool,
    names: bool,
) -> Result<(), Failed>
    ensures all { OnOk result (Appends (K.held sink.old) (K.held sink.new) (query_text program.now query.entry.outputs.now query.entry.number results.now (option_map (λ core. core.now) query.entry.core) query.entry.minimal brief names)) }
    ensures front { OnErr result (AppendsFront (K.held sink.old) (K.held sink.new) (query_text program.now query.entry.outputs.now query.entry.number results.now (option_map (λ core. core.now) query.entry.core) query.entry.minimal brief names)) }
    ensures later { K.faults sink.old ≤ K.faults sink.new }
    ensures cause { OnErr result (Rose (K.faults sink.old) (K.faults sink.new)) }
    ensures quiet { OnOk result (K.faults sink.new ≡ K.faults sink.old) }
{
    let mut waiting = Waiting::new();
    put_query(
        alloc,
        sink,
        &mut waiting,
        program,
        query,
        results,
        brief,
        names,
    )?;
    flush(sink, &mut waiting)
}
