//! The text of results as JSON.
ghost use Rattle.std.specs.Prelude.{◌≡◌, ◌++◌, ◌≤◌, codes, decimal, map, OnErr, OnOk};
ghost use Rattle.std.specs.Io.KnownBytes.{Appends};
ghost use Rattle.asp_io.specs.Causes.{AppendsFront, Rose};
ghost use Rattle.asp_model.specs.Texts.{found_count, shown};
ghost use Rattle.asp_buffer.specs.Out.{Puts, out};
ghost use Rattle.asp_json.specs.Json.{array, best_text, closing_text, consequences_text, costs_text, json_text, known_text, known_texts, models_text, more, optimum_text, proven, proven_count, reasoning_key, result_text, result_word, summary_text};
ghost use Rattle.asp_json.specs.Quoting.{quoted};

use crate::answers::{put_call, put_costs, put_texts};
use asp_buffer::{Waiting, flush, put, put_number};
use asp_io::{Failed, Sink};
use asp_model::cost::Cost;
use asp_model::interp::Interp;
use asp_model::program::Program;
use asp_model::results::{End, Mode, Reasoning, Results};
use asp_print::found_count;
use asp_rows::sets::Sets;
use std::alloc::Global;

/// What is said of a run that recorded so many answers.
pub(crate) fn result_word(end: End, mode: Mode, count: u128) -> &'static [u8]
    ensures { result.now ≡ result_word end mode count }
{
    match (end, mode) {
        (End::Finished, _) if count == 0 => b"UNSATISFIABLE",
        (End::Limited, _) if count == 0 => b"UNKNOWN",
        (End::Unfinished, _) if count == 0 => b"UNKNOWN",
        (End::Finished, Mode::Opt) => b"OPTIMUM FOUND",
        (End::Limited, Mode::Opt) => b"OPTIMUM FOUND",
        (End::Finished, _) => b"SATISFIABLE",
        (End::Limited, _) => b"SATISFIABLE",
        (End::Unfinished, _) => b"SATISFIABLE",
    }
}

fn more(end: End) -> &'static [u8]
    ensures { result.now ≡ more end }
{
    match end {
        End::Finished => b"no",
        End::Limited | End::Unfinished => b"yes",
    }
}

fn proven(end: End) -> &'static [u8]
    ensures { result.now ≡ proven end }
{
    match end {
        End::Finished | End::Limited => b"yes",
        End::Unfinished => b"unknown",
    }
}

fn proven_count(end: End, count: usize) -> usize
    ensures { result ≡ proven_count end count }
{
    match end {
        End::Finished | End::Limited => count,
        End::Unfinished => 0,
    }
}

// Puts out the texts of the outputs that are shown where these atoms hold.
fn put_consequences<K: Sink>(
    sink: &mut K,
    waiting: &mut Waiting,
    program: &Program,
    known: &Interp,
) -> Result<(), Failed>
    ensures { Puts (out (K.held sink.old) (K.faults sink.old) waiting.old)
        (out (K.held sink.new) (K.faults sink.new) waiting.new) result
        (codes ",\"Consequences\":" ++ array (map quoted (shown program.now known.now))) }
{
    put(sink, waiting, b",\"Consequences\":[")?;
    put_texts(sink, waiting, known, &program.outputs)?;
    put(sink, waiting, b"]")
}

fn put_found<K: Sink>(
    sink: &mut K,
    waiting: &mut Waiting,
    program: &Program,
    known: &Option<Interp>,
) -> Result<(), Failed>
    ensures { Puts (out (K.held sink.old) (K.faults sink.old) waiting.old)
        (out (K.held sink.new) (K.faults sink.new) waiting.new) result (consequences_text known.now (known_texts program.now known.now)) }
{
    match known {
        None => put(sink, waiting, b""),
        Some(known) => put_consequences(sink, waiting, program, known),
    }
}

// Puts out the texts of what holds in some or in all answers, where that was asked for.
fn put_known<K: Sink>(
    sink: &mut K,
    waiting: &mut Waiting,
    program: &Program,
    results: &Results<Sets>,
) -> Result<(), Failed>
    ensures { Puts (out (K.held sink.old) (K.faults sink.old) waiting.old)
        (out (K.held sink.new) (K.faults sink.new) waiting.new) result (known_text results.now.mode results.now (known_texts program.now results.now.known)) }
{
    match results.mode {
        Mode::Enum | Mode::Opt => put(sink, waiting, b""),
        Mode::Consequences(_) => put_found(sink, waiting, program, &results.known),
    }
}

// Puts out what is said of the run.
fn put_result<K: Sink>(
    sink: &mut K,
    waiting: &mut Waiting,
    results: &Results<Sets>,
    count: usize,
) -> Result<(), Failed>
    ensures { Puts (out (K.held sink.old) (K.faults sink.old) waiting.old)
        (out (K.held sink.new) (K.faults sink.new) waiting.new) result (result_text results.now count) }
{
    put(sink, waiting, b",\"Result\":\"")?;
    put(
        sink,
        waiting,
        result_word(results.end, results.mode, count as u128),
    )?;
    put(sink, waiting, b"\"")
}

// Puts out whether the best cost is known to be the least.
fn put_proven<K: Sink>(sink: &mut K, waiting: &mut Waiting, end: End) -> Result<(), Failed>
    ensures { Puts (out (K.held sink.old) (K.faults sink.old) waiting.old)
        (out (K.held sink.new) (K.faults sink.new) waiting.new) result
        (codes ",\"Optimum\":\"" ++ proven end ++ codes "\",\"Optimal\":") }
{
    put(sink, waiting, b",\"Optimum\":\"")?;
    put(sink, waiting, proven(end))?;
    put(sink, waiting, b"\",\"Optimal\":")
}

fn put_least<K: Sink>(
    sink: &mut K,
    waiting: &mut Waiting,
    end: End,
    count: usize,
    cost: &Cost,
) -> Result<(), Failed>
    ensures { Puts (out (K.held sink.old) (K.faults sink.old) waiting.old)
        (out (K.held sink.new) (K.faults sink.new) waiting.new) result
        (codes ",\"Optimum\":\"" ++ proven end ++ codes "\",\"Optimal\":" ++ decimal (proven_count end count) ++ costs_text cost.now) }
{
    put_proven(sink, waiting, end)?;
    put_number(sink, waiting, proven_count(end, count))?;
    put_costs(sink, waiting, cost)
}

fn put_optimum<K: Sink>(
    sink: &mut K,
    waiting: &mut Waiting,
    results: &Results<Sets>,
    count: usize,
) -> Result<(), Failed>
    ensures { Puts (out (K.held sink.old) (K.faults sink.old) waiting.old)
        (out (K.held sink.new) (K.faults sink.new) waiting.new) result
        (optimum_text results.now.end count results.now.best) }
{
    match &results.best {
        Some((_, cost)) => put_least(sink, waiting, results.end, count, cost),
        None => put(sink, waiting, b""),
    }
}

fn reasoning_key(reasoning: Reasoning) -> &'static [u8]
    ensures { result.now ≡ reasoning_key reasoning }
{
    match reasoning {
        Reasoning::Brave => b",\"Brave\":\"",
        Reasoning::Cautious => b",\"Cautious\":\"",
    }
}

// Puts out whether the consequences are known to be all.
fn put_reasoning<K: Sink>(
    sink: &mut K,
    waiting: &mut Waiting,
    reasoning: Reasoning,
    end: End,
) -> Result<(), Failed>
    ensures { Puts (out (K.held sink.old) (K.faults sink.old) waiting.old)
        (out (K.held sink.new) (K.faults sink.new) waiting.new) result
        (reasoning_key reasoning ++ proven end ++ codes "\"") }
{
    put(sink, waiting, reasoning_key(reasoning))?;
    put(sink, waiting, proven(end))?;
    put(sink, waiting, b"\"")
}

// Puts out what is known of the best cost, where an optimisation has one, or whether consequences are known to be all.
fn put_best<K: Sink>(
    sink: &mut K,
    waiting: &mut Waiting,
    results: &Results<Sets>,
    count: usize,
) -> Result<(), Failed>
    ensures { Puts (out (K.held sink.old) (K.faults sink.old) waiting.old)
        (out (K.held sink.new) (K.faults sink.new) waiting.new) result
        (best_text results.now.mode results.now count) }
{
    match results.mode {
        Mode::Enum => put(sink, waiting, b""),
        Mode::Opt => put_optimum(sink, waiting, results, count),
        Mode::Consequences(reasoning) => put_reasoning(sink, waiting, reasoning, results.end),
    }
}

fn put_count<K: Sink>(sink: &mut K, waiting: &mut Waiting, count: u128) -> Result<(), Failed>
    ensures { Puts (out (K.held sink.old) (K.faults sink.old) waiting.old)
        (out (K.held sink.new) (K.faults sink.new) waiting.new) result
        (codes ",\"Models\":{\"Number\":" ++ decimal count ++ codes ",\"More\":\"") }
{
    put(sink, waiting, b",\"Models\":{\"Number\":")?;
    put_number(sink, waiting, count)?;
    put(sink, waiting, b",\"More\":\"")
}

/// Puts out how many answers were recorded, and whether there may be more.
pub(crate) fn put_more<K: Sink>(
    sink: &mut K,
    waiting: &mut Waiting,
    end: End,
    count: u128,
) -> Result<(), Failed>
    ensures { Puts (out (K.held sink.old) (K.faults sink.old) waiting.old)
        (out (K.held sink.new) (K.faults sink.new) waiting.new) result
        (codes ",\"Models\":{\"Number\":" ++ decimal count ++ codes ",\"More\":\"" ++ more end ++ codes "\"") }
{
    put_count(sink, waiting, count)?;
    put(sink, waiting, more(end))?;
    put(sink, waiting, b"\"")
}

// Puts out what is said of the answers together.
fn put_models<K: Sink>(
    sink: &mut K,
    waiting: &mut Waiting,
    results: &Results<Sets>,
    count: usize,
) -> Result<(), Failed>
    ensures { Puts (out (K.held sink.old) (K.faults sink.old) waiting.old)
        (out (K.held sink.new) (K.faults sink.new) waiting.new) result (models_text results.now count) }
{
    put_more(sink, waiting, results.end, count as u128)?;
    put_best(sink, waiting, results, count)?;
    put(sink, waiting, b"}")
}

/// Puts out what is said of the run, and of the answers together.
pub(crate) fn put_summary<K: Sink>(
    sink: &mut K,
    waiting: &mut Waiting,
    program: &Program,
    results: &Results<Sets>,
    count: usize,
) -> Result<(), Failed>
    ensures { Puts (out (K.held sink.old) (K.faults sink.old) waiting.old)
        (out (K.held sink.new) (K.faults sink.new) waiting.new) result (summary_text results.now (known_texts program.now results.now.known) count) }
{
    put_known(sink, waiting, program, results)?;
    put_result(sink, waiting, results, count)?;
    put_models(sink, waiting, results, count)
}

// Puts out what follows the answers.
fn put_closing<K: Sink>(
    sink: &mut K,
    waiting: &mut Waiting,
    program: &Program,
    results: &Results<Sets>,
    count: usize,
) -> Result<(), Failed>
    ensures { Puts (out (K.held sink.old) (K.faults sink.old) waiting.old)
        (out (K.held sink.new) (K.faults sink.new) waiting.new) result (closing_text results.now (known_texts program.now results.now.known) count) }
{
    put_summary(sink, waiting, program, results, count)?;
    put(sink, waiting, b"}\n")
}

fn put_json<K: Sink>(
    alloc: Global,
    sink: &mut K,
    waiting: &mut Waiting,
    program: &Program,
    results: &Results<Sets>,
    brief: bool,
) -> Result<(), Failed>
    ensures { Puts (out (K.held sink.old) (K.faults sink.old) waiting.old)
        (out (K.held sink.new) (K.faults sink.new) waiting.new) result (json_text program.now results.now brief) }
{
    put_call(alloc, sink, waiting, program, results, brief)?;
    put_closing(sink, waiting, program, results, found_count(results))
}

/// Writes the results as JSON, with the keys that clasp has: unless the text is to be brief each answer on a line, then the texts that
/// what holds in some or in all answers shows, where that was asked for, and what is said of the run and of the answers together. Where memory is short it
/// takes longer. After an error a front of the text is out.
pub fn print_json<K: Sink>(
    alloc: Global,
    sink: &mut K,
    program: &Program,
    results: &Results<Sets>,
    brief: bool,
) -> Result<(), Failed>
    ensures all { OnOk result (Appends (K.held sink.old) (K.held sink.new) (json_text program.now results.now brief)) }
    ensures front { OnErr result (AppendsFront (K.held sink.old) (K.held sink.new) (json_text program.now results.now brief)) }
    ensures later { K.faults sink.old ≤ K.faults sink.new }
    ensures cause { OnErr result (Rose (K.faults sink.old) (K.faults sink.new)) }
    ensures quiet { OnOk result (K.faults sink.new ≡ K.faults sink.old) }
{
    let mut waiting = Waiting::new();
    put_json(alloc, sink, &mut waiting, program, results, brief)?;
    flush(sink, &mut waiting)
}
