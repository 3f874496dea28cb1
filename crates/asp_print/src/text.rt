//! The text of results.
ghost use Rattle.std.specs.Prelude.{◌≡◌, ◌++◌, ◌≤◌, [], ◌∷◌, length, flat_map, codes, decimal, if◌then◌else◌, OnOk, OnErr};
ghost use Rattle.std.specs.Fmt.{signed_decimal};
ghost use Rattle.std.specs.Io.KnownBytes.{Appends};
ghost use Rattle.asp_io.specs.Causes.{Rose, AppendsFront};
ghost use Rattle.asp_model.specs.Texts.{answers_from, best_answers, bests, closing_lines, consequences_line, cost_line, count_line, count_mark, ended_line, found_count, how_many, recorded, shown, verdict};
ghost use Rattle.asp_buffer.specs.Out.{Puts, out};
ghost use Rattle.asp_print.specs.Named.{known_line, known_names, named_line, printed_text, sums_line};

use crate::answers::{put_answers, put_set, put_texts};
use asp_buffer::{Waiting, flush, put, put_number};
use asp_io::{Failed, Sink};
use asp_model::cost::Cost;
use asp_model::interp::Interp;
use asp_model::program::{Atom, Program};
use asp_model::results::{End, Mode, Results};
use asp_rows::sets::Sets;
use std::alloc::Global;

// How many answers there are: those that are listed, or where none is the best.
fn count_of_bests(results: &Results<Sets>) -> usize
    ensures { result ≡ length (bests results.now.best results.now.answers) }
{
    let listed = results.answers.rows().len();
    if listed != 0 {
        return listed;
    }
    match results.best {
        Some(_) => 1,
        None => 0,
    }
}

pub(crate) fn verdict(end: End, mode: Mode, count: usize) -> &'static [u8]
    ensures { result.now ≡ verdict end mode count }
{
    match (end, mode) {
        (End::Finished, _) if count == 0 => b"UNSATISFIABLE",
        (End::Finished, Mode::Enum) => b"SATISFIABLE",
        (End::Finished, Mode::Opt) => b"OPTIMUM FOUND",
        (End::Finished, Mode::Consequences(_)) => b"CONSEQUENCES FOUND",
        (End::Limited, _) => b"LIMIT REACHED",
        (End::Unfinished, _) if count == 0 => b"UNKNOWN",
        (End::Unfinished, _) => b"BUDGET SPENT",
    }
}

fn count_mark(end: End) -> &'static [u8]
    ensures { result.now ≡ count_mark end }
{
    match end {
        End::Finished => b"",
        End::Limited | End::Unfinished => b"+",
    }
}

// Puts out a number of the cost, behind a blank.
fn put_sum<K: Sink>(sink: &mut K, waiting: &mut Waiting, sum: &i64) -> Result<(), Failed>
    ensures { Puts (out (K.held sink.old) (K.faults sink.old) waiting.old)
        (out (K.held sink.new) (K.faults sink.new) waiting.new) result (32 ∷ signed_decimal sum.now) }
{
    put(sink, waiting, b" ")?;
    put_number(sink, waiting, *sum)
}

/// Puts out the sums of a cost, each behind a blank.
pub fn put_sums<K: Sink>(sink: &mut K, waiting: &mut Waiting, sums: &[i64]) -> Result<(), Failed>
    ensures { Puts (out (K.held sink.old) (K.faults sink.old) waiting.old)
        (out (K.held sink.new) (K.faults sink.new) waiting.new) result
        (flat_map (λ q. 32 ∷ signed_decimal q) sums.now) }
{
    for sum in sums {
        put_sum(sink, waiting, sum)?;
    }
    Ok(())
}

/// Puts out the cost line.
pub fn put_cost<K: Sink>(sink: &mut K, waiting: &mut Waiting, cost: &Cost) -> Result<(), Failed>
    ensures { Puts (out (K.held sink.old) (K.faults sink.old) waiting.old)
        (out (K.held sink.new) (K.faults sink.new) waiting.new) result (cost_line cost.now) }
{
    put(sink, waiting, b"Optimization:")?;
    put_sums(sink, waiting, cost.as_slice())?;
    put(sink, waiting, b"\n")
}

// Puts out an atom, behind a blank.
fn put_atom<K: Sink>(sink: &mut K, waiting: &mut Waiting, atom: &Atom) -> Result<(), Failed>
    ensures { Puts (out (K.held sink.old) (K.faults sink.old) waiting.old)
        (out (K.held sink.new) (K.faults sink.new) waiting.new) result (32 ∷ decimal atom.now) }
{
    put(sink, waiting, b" ")?;
    put_number(sink, waiting, *atom)
}

// Puts out the atoms, each behind a blank.
fn put_atoms<K: Sink>(sink: &mut K, waiting: &mut Waiting, atoms: &[Atom]) -> Result<(), Failed>
    ensures { Puts (out (K.held sink.old) (K.faults sink.old) waiting.old)
        (out (K.held sink.new) (K.faults sink.new) waiting.new) result (flat_map (λ a. 32 ∷ decimal a) atoms.now) }
{
    for atom in atoms {
        put_atom(sink, waiting, atom)?;
    }
    Ok(())
}

// Puts out the line of the atoms that hold in some or in all answers, where there is one.
fn put_known<K: Sink>(
    sink: &mut K,
    waiting: &mut Waiting,
    known: &Option<Interp>,
) -> Result<(), Failed>
    ensures { Puts (out (K.held sink.old) (K.faults sink.old) waiting.old)
        (out (K.held sink.new) (K.faults sink.new) waiting.new) result (consequences_line known.now) }
{
    match known {
        None => put(sink, waiting, b""),
        Some(known) => {
            put(sink, waiting, b"Consequences:")?;
            put_atoms(sink, waiting, known.as_slice())?;
            put(sink, waiting, b"\n")
        }
    }
}

// Puts out the line of the texts of the outputs that are shown where these atoms hold.
fn put_named<K: Sink>(
    sink: &mut K,
    waiting: &mut Waiting,
    program: &Program,
    known: &Interp,
) -> Result<(), Failed>
    ensures { Puts (out (K.held sink.old) (K.faults sink.old) waiting.old)
        (out (K.held sink.new) (K.faults sink.new) waiting.new) result (named_line (shown program.now known.now)) }
{
    put(sink, waiting, b"Consequences:")?;
    put_texts(sink, waiting, known, &program.outputs, true)?;
    put(sink, waiting, b"\n")
}

// Puts out that line, where something is known.
fn put_names<K: Sink>(
    sink: &mut K,
    waiting: &mut Waiting,
    program: &Program,
    known: &Option<Interp>,
) -> Result<(), Failed>
    ensures { Puts (out (K.held sink.old) (K.faults sink.old) waiting.old)
        (out (K.held sink.new) (K.faults sink.new) waiting.new) result (known_names program.now known.now) }
{
    match known {
        None => put(sink, waiting, b""),
        Some(known) => put_named(sink, waiting, program, known),
    }
}

// Puts out the line of what holds in some or in all answers, by name or by the atoms' numbers.
fn put_consequences<K: Sink>(
    sink: &mut K,
    waiting: &mut Waiting,
    program: &Program,
    known: &Option<Interp>,
    names: bool,
) -> Result<(), Failed>
    ensures { Puts (out (K.held sink.old) (K.faults sink.old) waiting.old)
        (out (K.held sink.new) (K.faults sink.new) waiting.new) result (known_line names program.now known.now) }
{
    if names {
        put_names(sink, waiting, program, known)
    } else {
        put_known(sink, waiting, known)
    }
}

// Puts out the cost line, or what holds in some or in all answers, where there is such a line.
fn put_sums_line<K: Sink>(
    sink: &mut K,
    waiting: &mut Waiting,
    program: &Program,
    results: &Results<Sets>,
    names: bool,
) -> Result<(), Failed>
    ensures { Puts (out (K.held sink.old) (K.faults sink.old) waiting.old)
        (out (K.held sink.new) (K.faults sink.new) waiting.new) result
        (sums_line names program.now results.now.mode results.now) }
{
    match results.mode {
        Mode::Enum => put(sink, waiting, b""),
        Mode::Opt => match &results.best {
            Some((_, cost)) => put_cost(sink, waiting, cost),
            None => put(sink, waiting, b""),
        },
        Mode::Consequences(_) => put_consequences(sink, waiting, program, &results.known, names),
    }
}

// Puts out the word line.
fn put_verdict<K: Sink>(
    sink: &mut K,
    waiting: &mut Waiting,
    results: &Results<Sets>,
    count: usize,
) -> Result<(), Failed>
    ensures { Puts (out (K.held sink.old) (K.faults sink.old) waiting.old)
        (out (K.held sink.new) (K.faults sink.new) waiting.new) result
        (ended_line (verdict results.now.end results.now.mode count)) }
{
    put(sink, waiting, verdict(results.end, results.mode, count))?;
    put(sink, waiting, b"\n")
}

/// How many answers were recorded; of consequences one, where they are known.
pub fn found_count(results: &Results<Sets>) -> usize
    ensures { result ≡ found_count results.now.mode results.now }
{
    match results.mode {
        Mode::Enum => results.answers.rows().len(),
        Mode::Opt => count_of_bests(results),
        Mode::Consequences(_) => how_many(&results.known),
    }
}

fn how_many(known: &Option<Interp>) -> usize
    ensures { result ≡ how_many known.now }
{
    match known {
        None => 0,
        Some(_) => 1,
    }
}

fn put_number_of<K: Sink>(sink: &mut K, waiting: &mut Waiting, count: usize) -> Result<(), Failed>
    ensures { Puts (out (K.held sink.old) (K.faults sink.old) waiting.old)
        (out (K.held sink.new) (K.faults sink.new) waiting.new) result
        (codes "Models: " ++ decimal count) }
{
    put(sink, waiting, b"Models: ")?;
    put_number(sink, waiting, count)
}

fn put_mark<K: Sink>(sink: &mut K, waiting: &mut Waiting, end: End) -> Result<(), Failed>
    ensures { Puts (out (K.held sink.old) (K.faults sink.old) waiting.old)
        (out (K.held sink.new) (K.faults sink.new) waiting.new) result
        (ended_line (count_mark end)) }
{
    put(sink, waiting, count_mark(end))?;
    put(sink, waiting, b"\n")
}

pub(crate) fn put_models<K: Sink>(
    sink: &mut K,
    waiting: &mut Waiting,
    end: End,
    count: usize,
) -> Result<(), Failed>
    ensures { Puts (out (K.held sink.old) (K.faults sink.old) waiting.old)
        (out (K.held sink.new) (K.faults sink.new) waiting.new) result
        (ended_line (codes "Models: " ++ decimal count ++ count_mark end)) }
{
    put_number_of(sink, waiting, count)?;
    put_mark(sink, waiting, end)
}

// Puts out the count line, where there is one.
fn put_count<K: Sink>(
    sink: &mut K,
    waiting: &mut Waiting,
    results: &Results<Sets>,
    count: usize,
) -> Result<(), Failed>
    ensures { Puts (out (K.held sink.old) (K.faults sink.old) waiting.old)
        (out (K.held sink.new) (K.faults sink.new) waiting.new) result
        (count_line results.now.mode results.now.end count) }
{
    match results.mode {
        Mode::Enum | Mode::Opt => put_models(sink, waiting, results.end, count),
        Mode::Consequences(_) => put(sink, waiting, b""),
    }
}

// Puts out the word line and the count line.
fn put_closing<K: Sink>(
    sink: &mut K,
    waiting: &mut Waiting,
    results: &Results<Sets>,
    count: usize,
) -> Result<(), Failed>
    ensures { Puts (out (K.held sink.old) (K.faults sink.old) waiting.old)
        (out (K.held sink.new) (K.faults sink.new) waiting.new) result
        (closing_lines results.now count) }
{
    put_verdict(sink, waiting, results, count)?;
    put_count(sink, waiting, results, count)
}

// Puts out the lines of the best answer, where there is one.
fn put_best<K: Sink>(
    sink: &mut K,
    waiting: &mut Waiting,
    program: &Program,
    best: &Option<(Interp, Cost)>,
) -> Result<(), Failed>
    ensures { Puts (out (K.held sink.old) (K.faults sink.old) waiting.old)
        (out (K.held sink.new) (K.faults sink.new) waiting.new) result
        (answers_from program.now 1 (best_answers best.now)) }
{
    match best {
        Some((set, _)) => put_set(sink, waiting, program, set),
        None => put(sink, waiting, b""),
    }
}

// Puts out the lines of the answers that are listed, or where none is of the best.
fn put_bests<K: Sink>(
    alloc: Global,
    sink: &mut K,
    waiting: &mut Waiting,
    program: &Program,
    results: &Results<Sets>,
) -> Result<(), Failed>
    ensures { Puts (out (K.held sink.old) (K.faults sink.old) waiting.old)
        (out (K.held sink.new) (K.faults sink.new) waiting.new) result
        (answers_from program.now 1 (bests results.now.best results.now.answers)) }
{
    let rows = results.answers.rows();
    if rows.len() != 0 {
        put_answers(alloc, sink, waiting, program, rows)
    } else {
        put_best(sink, waiting, program, &results.best)
    }
}

// Puts out the lines of the answers that were recorded.
fn put_found<K: Sink>(
    alloc: Global,
    sink: &mut K,
    waiting: &mut Waiting,
    program: &Program,
    results: &Results<Sets>,
) -> Result<(), Failed>
    ensures { Puts (out (K.held sink.old) (K.faults sink.old) waiting.old)
        (out (K.held sink.new) (K.faults sink.new) waiting.new) result
        (answers_from program.now 1 (recorded results.now.mode results.now)) }
{
    match results.mode {
        Mode::Enum => put_answers(alloc, sink, waiting, program, results.answers.rows()),
        Mode::Opt => put_bests(alloc, sink, waiting, program, results),
        Mode::Consequences(_) => put(sink, waiting, b""),
    }
}

// Puts out the lines of the answers, unless the text is to be brief.
fn put_recorded<K: Sink>(
    alloc: Global,
    sink: &mut K,
    waiting: &mut Waiting,
    program: &Program,
    results: &Results<Sets>,
    brief: bool,
) -> Result<(), Failed>
    ensures { Puts (out (K.held sink.old) (K.faults sink.old) waiting.old)
        (out (K.held sink.new) (K.faults sink.new) waiting.new) result
        (if brief then [] else answers_from program.now 1 (recorded results.now.mode results.now)) }
{
    if brief {
        put(sink, waiting, b"")
    } else {
        put_found(alloc, sink, waiting, program, results)
    }
}

fn put_ending<K: Sink>(
    sink: &mut K,
    waiting: &mut Waiting,
    results: &Results<Sets>,
) -> Result<(), Failed>
    ensures { Puts (out (K.held sink.old) (K.faults sink.old) waiting.old)
        (out (K.held sink.new) (K.faults sink.new) waiting.new) result
        (closing_lines results.now (found_count results.now.mode results.now)) }
{
    put_closing(sink, waiting, results, found_count(results))
}

pub(crate) fn put_results<K: Sink>(
    alloc: Global,
    sink: &mut K,
    waiting: &mut Waiting,
    program: &Program,
    results: &Results<Sets>,
    brief: bool,
    names: bool,
) -> Result<(), Failed>
    ensures { Puts (out (K.held sink.old) (K.faults sink.old) waiting.old)
        (out (K.held sink.new) (K.faults sink.new) waiting.new) result
        (printed_text program.now results.now brief names) }
{
    put_recorded(alloc, sink, waiting, program, results, brief)?;
    put_sums_line(sink, waiting, program, results, names)?;
    put_ending(sink, waiting, results)
}

/// Writes the text of the results: unless it is to be brief two lines for each answer, then in an optimisation the
/// cost line, the word line and the count line; of consequences their line, by name or by the atoms' numbers, and the word line.
/// Where memory is wanting it takes longer. After an error a front of the text is out.
pub fn print<K: Sink>(
    alloc: Global,
    sink: &mut K,
    program: &Program,
    results: &Results<Sets>,
    brief: bool,
    names: bool,
) -> Result<(), Failed>
    ensures all { OnOk result (Appends (K.held sink.old) (K.held sink.new) (printed_text program.now results.now brief names)) }
    ensures front { OnErr result (AppendsFront (K.held sink.old) (K.held sink.new) (printed_text program.now results.now brief names)) }
    ensures later { K.faults sink.old ≤ K.faults sink.new }
    ensures cause { OnErr result (Rose (K.faults sink.old) (K.faults sink.new)) }
    ensures quiet { OnOk result (K.faults sink.new ≡ K.faults sink.old) }
{
    let mut waiting = Waiting::new();
    put_results(alloc, sink, &mut waiting, program, results, brief, names)?;
    flush(sink, &mut waiting)
}
