//! A whole run: words, reading, solving and writing, in this order; the first that doesn't succeed decides.
ghost use Rattle.std.specs.Prelude.{◌≡◌, None, Some, IfSome, OnOk, false, true, map, string_bytes};
ghost use Rattle.asp_cli.specs.Given.{fault_seen, options, words_give};
ghost use Rattle.asp_cli.specs.declared.Options.{Options};
ghost use Rattle.asp_cli.specs.Found.{IsApart, IsAsking};
ghost use Rattle.asp_cli.specs.Texts.{help_page, version_line};
ghost use Rattle.asp_cli.specs.Values.{IsCrew, IsPartCount, IsRing};
ghost use Rattle.asp_prepare.specs.Naming.{prepared_of};
ghost use Rattle.asp_top.specs.Notes.{note_of};
ghost use Rattle.asp_faults.specs.Writing.{IsNoted, Writes};
ghost use Rattle.asp_top.specs.Usage.{misuse_note};
ghost use Rattle.asp_top.specs.Runs.{Does, Hears, IsCounted, IsSentOn, NotesOn, NotesRun, Runs, SolvesOr, TellsClosed, TellsFaults, TextMeans, around, crew_of, is_alone};
ghost use Rattle.asp_top.specs.Series.{RunsBy, RunsOn};
ghost use Rattle.asp_top.specs.Progress.{scope};
ghost use Rattle.asp_top.specs.Telling.{Tells, point};
ghost use Rattle.asp_top.specs.Whole.{IsWhole};
ghost use Rattle.asp_model.specs.declared.program.Program.{Program};

use crate::announcer::Announcer;
use crate::counts::Tally;
use crate::crew::Crew;
use crate::deliver::failed;
use crate::notes::note_status;
use crate::parts::divide;
use crate::prepare::prepare;
use crate::progress::{Progress, end};
use crate::prove::{solve_or_prove, solve_or_prove_by_crew};
use crate::series::run_series;
use crate::status::{Outcome, Status};
use crate::teller::Teller;
use crate::usage::note_misuse;
use asp_cli::{CliError, Options, WordFault, page_back, page_front, usage, version};
use asp_counts::watch::Watch;
use asp_faults::{write, write_three};
use asp_io::{Failed, Sink, Source};
use asp_prepare::prepared::Prepared;
use asp_series::solver::{Alone, Solver};
use asp_team::gate::Gate;
use std::alloc::Global;
use std::mem;
use std::sync::Wait;
use std::thread::Threads;

fn write_page<K: Sink>(sink: &mut K) -> Result<(), Failed>
    ensures { Writes (K.held sink.old) (K.held sink.new) (K.faults sink.old) (K.faults sink.new)
        result help_page }
{
    write_three(sink, page_front(), usage(), page_back())
}

// Writes the page of help, and flushes the sink.
fn write_help<K: Sink>(sink: &mut K) -> Result<(), Failed>
    ensures writes { Writes (K.held sink.old) (K.held sink.new) (K.faults sink.old) (K.faults sink.new)
        result help_page }
    ensures sent { OnOk result (K.is_sent sink.new ≡ true) }
{
    write_page(sink)?;
    sink.flush()
}

fn write_line<K: Sink>(sink: &mut K) -> Result<(), Failed>
    ensures { Writes (K.held sink.old) (K.held sink.new) (K.faults sink.old) (K.faults sink.new)
        result version_line }
{
    write(sink, version())
}

// Writes the line of the version, and flushes the sink.
fn write_version<K: Sink>(sink: &mut K) -> Result<(), Failed>
    ensures writes { Writes (K.held sink.old) (K.held sink.new) (K.faults sink.old) (K.faults sink.new)
        result version_line }
    ensures sent { OnOk result (K.is_sent sink.new ≡ true) }
{
    write_line(sink)?;
    sink.flush()
}

// Divides the program where parts are asked for, and else solves it by one search.
fn divide_or_solve<T: Teller, K: Sink, W: Watch>(
    teller: &T,
    alloc: Global,
    options: &Options,
    prepared: &Prepared,
    sink: &mut K,
    tally: &mut Tally,
    watch: &mut W,
) -> Outcome
    requires teller { T.able teller.now }
    requires parts { IsPartCount options.now.split }
    requires apart { IsApart options.now }
    ensures does { (p : Program) → prepared.now ≡ prepared_of options.now p → Does options.now p (K.held sink.old) (K.held sink.new) (K.faults sink.old) (K.faults sink.new) result }
    ensures flushed { TellsFaults (K.faults sink.old) (K.faults sink.new) result.status }
    ensures sent { IsSentOn result.status (K.is_sent sink.new) }
    ensures closed { TellsClosed result.status (K.is_closed sink.new) }
    ensures counted { IfSome result.report (IsCounted 0 tally.new) }
    ensures heard { W.IsAfter watch.old watch.new }
{
    match options.split {
        None => solve_or_prove(teller, alloc, options, prepared, sink, tally, watch),
        Some(most) => divide(alloc, &prepared.compiled, most, sink),
    }
}

// The same, where better answers are told.
fn announced<'a, T: Teller, K: Sink, N: Sink>(
    teller: &T,
    alloc: Global,
    options: &Options,
    prepared: &Prepared,
    sink: &mut K,
    tally: &mut Tally,
    progress: Progress<'a, N>,
) -> (Outcome, Progress<'a, N>)
    requires teller { T.able teller.now }
    requires parts { IsPartCount options.now.split }
    requires apart { IsApart options.now }
    ensures does { (p : Program) → prepared.now ≡ prepared_of options.now p → Does options.now p (K.held sink.old) (K.held sink.new) (K.faults sink.old) (K.faults sink.new) result.0 }
    ensures flushed { TellsFaults (K.faults sink.old) (K.faults sink.new) result.0.status }
    ensures sent { IsSentOn result.0.status (K.is_sent sink.new) }
    ensures closed { TellsClosed result.0.status (K.is_closed sink.new) }
    ensures counted { IfSome result.0.report (IsCounted 0 tally.new) }
    ensures same { result.1.notes.ghost_name ≡ progress.entry.notes.ghost_name }
    ensures told { Tells (scope progress.entry.on progress.entry.parts progress.entry.row (Some prepared.now.compiled))
        (point (N.held progress.entry.notes.now) (N.faults progress.entry.notes.now) progress.entry.state progress.entry.last progress.entry.before progress.entry.warned)
        (point (N.held result.1.notes.now) (N.faults result.1.notes.now) result.1.state result.1.last result.1.before result.1.warned) }
{
    let mut announcer = Announcer {
        progress,
        compiled: &prepared.compiled,
        alloc,
    };
    let outcome = divide_or_solve(
        teller,
        alloc,
        options,
        prepared,
        sink,
        tally,
        &mut announcer,
    );
    let Announcer {
        progress,
        compiled: _,
        alloc: _,
    } = announcer;
    (outcome, progress)
}

// The outcome of a run after the words, whose program is divided, or solved by one search. Who tells of it comes back.
fn outcome_alone<'a, T: Teller, S: Source, K: Sink, N: Sink>(
    teller: &T,
    alloc: Global,
    options: &Options,
    source: &mut S,
    sink: &mut K,
    tally: &mut Tally,
    mut progress: Progress<'a, N>,
) -> (Outcome, Progress<'a, N>)
    requires teller { T.able teller.now }
    requires ring { IsRing options.now.make }
    requires parts { IsPartCount options.now.split }
    requires apart { IsApart options.now }
    ensures runs { Runs options.now (around (S.left source.old) (S.left source.new) (S.faults source.old) (S.faults source.new)
        (K.held sink.old) (K.held sink.new) (K.faults sink.old) (K.faults sink.new)) result.0 }
    ensures flushed { TellsFaults (K.faults sink.old) (K.faults sink.new) result.0.status }
    ensures sent { IsSentOn result.0.status (K.is_sent sink.new) }
    ensures closed { TellsClosed result.0.status (K.is_closed sink.new) }
    ensures counted { IfSome result.0.report (IsCounted 0 tally.new) }
    ensures same { result.1.notes.ghost_name ≡ progress.entry.notes.ghost_name }
    ensures heard { Hears options.now (around (S.left source.old) (S.left source.new) (S.faults source.old) (S.faults source.new)
        (K.held sink.old) (K.held sink.new) (K.faults sink.old) (K.faults sink.new)) progress.entry.on progress.entry.parts
        (point (N.held progress.entry.notes.now) (N.faults progress.entry.notes.now) progress.entry.state progress.entry.last progress.entry.before progress.entry.warned)
        (point (N.held result.1.notes.now) (N.faults result.1.notes.now) result.1.state result.1.last result.1.before result.1.warned) }
{
    match prepare(alloc, options, source) {
        Ok(prepared) => {
            progress.weigh(options, &prepared.compiled);
            let done = announced(teller, alloc, options, &prepared, sink, tally, progress);
            mem::drop(prepared);
            done
        }
        Err(status) => (failed(status), progress),
    }
}

// The outcome of a run after the words that starts no workers, with queries or without.
fn outcome<'a, V: Solver + Teller, S: Source, K: Sink, N: Sink>(
    alloc: Global,
    solver: &V,
    options: &Options,
    source: &mut S,
    sink: &mut K,
    tally: &mut Tally,
    mut progress: Progress<'a, N>,
) -> (Outcome, Progress<'a, N>)
    requires solver { V.may solver.now }
    requires teller { V.able solver.now }
    requires ring { IsRing options.now.make }
    requires parts { IsPartCount options.now.split }
    requires apart { IsApart options.now }
    requires asking { IsAsking options.now }
    requires row { progress.row ≡ 0 }
    ensures runs { RunsBy options.now.queries options.now (around (S.left source.old) (S.left source.new) (S.faults source.old) (S.faults source.new)
        (K.held sink.old) (K.held sink.new) (K.faults sink.old) (K.faults sink.new)) result.0 }
    ensures flushed { TellsFaults (K.faults sink.old) (K.faults sink.new) result.0.status }
    ensures sent { IsSentOn result.0.status (K.is_sent sink.new) }
    ensures closed { TellsClosed result.0.status (K.is_closed sink.new) }
    ensures counted { IfSome result.0.report (IsCounted 0 tally.new) }
    ensures same { result.1.notes.ghost_name ≡ progress.entry.notes.ghost_name }
    ensures heard { Hears options.now (around (S.left source.old) (S.left source.new) (S.faults source.old) (S.faults source.new)
        (K.held sink.old) (K.held sink.new) (K.faults sink.old) (K.faults sink.new)) progress.entry.on progress.entry.parts
        (point (N.held progress.entry.notes.now) (N.faults progress.entry.notes.now) progress.entry.state progress.entry.last progress.entry.before progress.entry.warned)
        (point (N.held result.1.notes.now) (N.faults result.1.notes.now) result.1.state result.1.last result.1.before result.1.warned) }
{
    if options.queries {
        let outcome = run_series(alloc, solver, options, source, sink, &mut progress);
        (outcome, progress)
    } else {
        outcome_alone(solver, alloc, options, source, sink, tally, progress)
    }
}

// Workers side by side solve it, and better answers are told.
fn announced_by_crew<'a, R: Threads + Wait + Sync, K: Sink, N: Sink, G: Gate + Sync>(
    rt: &R,
    alloc: Global,
    options: &Options,
    prepared: &Prepared,
    sink: &mut K,
    gate: &G,
    tally: &mut Tally,
    progress: Progress<'a, N>,
) -> (Outcome, Progress<'a, N>)
    requires crew { IsCrew options.now.workers }
    requires apart { IsApart options.now }
    ensures solves { (p : Program) → prepared.now ≡ prepared_of options.now p → SolvesOr options.now.proof options.now p (K.held sink.old) (K.held sink.new) (K.faults sink.old) (K.faults sink.new) result.0 }
    ensures flushed { TellsFaults (K.faults sink.old) (K.faults sink.new) result.0.status }
    ensures sent { IsSentOn result.0.status (K.is_sent sink.new) }
    ensures closed { TellsClosed result.0.status (K.is_closed sink.new) }
    ensures counted { IfSome result.0.report (IsCounted options.now.workers tally.new) }
    ensures same { result.1.notes.ghost_name ≡ progress.entry.notes.ghost_name }
    ensures told { Tells (scope progress.entry.on progress.entry.parts progress.entry.row (Some prepared.now.compiled))
        (point (N.held progress.entry.notes.now) (N.faults progress.entry.notes.now) progress.entry.state progress.entry.last progress.entry.before progress.entry.warned)
        (point (N.held result.1.notes.now) (N.faults result.1.notes.now) result.1.state result.1.last result.1.before result.1.warned) }
{
    let announcer = Announcer {
        progress,
        compiled: &prepared.compiled,
        alloc,
    };
    let (outcome, announcer) = solve_or_prove_by_crew(
        rt, alloc, options, prepared, sink, gate, tally, announcer,
    );
    let Announcer {
        progress,
        compiled: _,
        alloc: _,
    } = announcer;
    (outcome, progress)
}

// The same where workers side by side solve it. Who tells of it comes back.
fn outcome_by_crew<'a, R: Threads + Wait + Sync, S: Source, K: Sink, N: Sink, G: Gate + Sync>(
    rt: &R,
    alloc: Global,
    options: &Options,
    source: &mut S,
    sink: &mut K,
    gate: &G,
    tally: &mut Tally,
    mut progress: Progress<'a, N>,
) -> (Outcome, Progress<'a, N>)
    requires ring { IsRing options.now.make }
    requires crew { IsCrew options.now.workers }
    requires whole { options.now.split ≡ None }
    requires at_once { options.now.stream ≡ false }
    requires apart { IsApart options.now }
    ensures runs { Runs options.now (around (S.left source.old) (S.left source.new) (S.faults source.old) (S.faults source.new)
        (K.held sink.old) (K.held sink.new) (K.faults sink.old) (K.faults sink.new)) result.0 }
    ensures flushed { TellsFaults (K.faults sink.old) (K.faults sink.new) result.0.status }
    ensures sent { IsSentOn result.0.status (K.is_sent sink.new) }
    ensures closed { TellsClosed result.0.status (K.is_closed sink.new) }
    ensures counted { IfSome result.0.report (IsCounted options.now.workers tally.new) }
    ensures same { result.1.notes.ghost_name ≡ progress.entry.notes.ghost_name }
    ensures heard { Hears options.now (around (S.left source.old) (S.left source.new) (S.faults source.old) (S.faults source.new)
        (K.held sink.old) (K.held sink.new) (K.faults sink.old) (K.faults sink.new)) progress.entry.on progress.entry.parts
        (point (N.held progress.entry.notes.now) (N.faults progress.entry.notes.now) progress.entry.state progress.entry.last progress.entry.before progress.entry.warned)
        (point (N.held result.1.notes.now) (N.faults result.1.notes.now) result.1.state result.1.last result.1.before result.1.warned) }
{
    match prepare(alloc, options, source) {
        Ok(prepared) => {
            progress.weigh(options, &prepared.compiled);
            let done = announced_by_crew(
                rt, alloc, options, &prepared, sink, gate, tally, progress,
            );
            mem::drop(prepared);
            done
        }
        Err(status) => (failed(status), progress),
    }
}

// A run after the words with one search; queries that are searched from scratch are the solver's.
fn run_with<V: Solver + Teller, S: Source, K: Sink, N: Sink>(
    alloc: Global,
    solver: &V,
    options: &Options,
    source: &mut S,
    sink: &mut K,
    notes: &mut N,
) -> Outcome
    requires solver { V.may solver.now }
    requires teller { V.able solver.now }
    requires ring { IsRing options.now.make }
    requires parts { IsPartCount options.now.split }
    requires apart { IsApart options.now }
    requires asking { IsAsking options.now }
    ensures runs { RunsBy options.now.queries options.now (around (S.left source.old) (S.left source.new) (S.faults source.old) (S.faults source.new)
        (K.held sink.old) (K.held sink.new) (K.faults sink.old) (K.faults sink.new)) result }
    ensures flushed { TellsFaults (K.faults sink.old) (K.faults sink.new) result.status }
    ensures sent { IsSentOn result.status (K.is_sent sink.new) }
    ensures closed { TellsClosed result.status (K.is_closed sink.new) }
    ensures notes { NotesRun 0 options.now (around (S.left source.old) (S.left source.new) (S.faults source.old) (S.faults source.new)
        (K.held sink.old) (K.held sink.new) (K.faults sink.old) (K.faults sink.new)) (N.held notes.old) (N.held notes.new) (N.faults notes.old) (N.faults notes.new) result }
{
    let mut tally = Tally::new(alloc);
    let progress = Progress::new(notes, options);
    let (outcome, progress) = outcome(alloc, solver, options, source, sink, &mut tally, progress);
    let Progress {
        notes,
        on: _,
        state,
        last: _,
        parts: _,
        before: _,
        row: _,
        warned: _,
    } = progress;
    end(notes, state, options, &tally, &outcome);
    outcome
}

/// A run after the words. It reads a program from the source, or makes a ring, solves it with one search, writes the text
/// of its results to the sink, or of the proof that was asked for, and flushes it; where that was asked for, it writes each answer as
/// soon as no smaller one can come. Where parts are asked for, it divides the program and writes these. The notes get a line for each status
/// that isn't one of results, and the counts where they are asked for; before them lines while the run goes on, where they
/// are.
pub fn run_alone<S: Source, K: Sink, N: Sink>(
    alloc: Global,
    options: &Options,
    source: &mut S,
    sink: &mut K,
    notes: &mut N,
) -> Outcome
    requires ring { IsRing options.now.make }
    requires parts { IsPartCount options.now.split }
    requires apart { IsApart options.now }
    requires asking { IsAsking options.now }
    ensures runs { RunsBy options.now.queries options.now (around (S.left source.old) (S.left source.new) (S.faults source.old) (S.faults source.new)
        (K.held sink.old) (K.held sink.new) (K.faults sink.old) (K.faults sink.new)) result }
    ensures whole { options.now.proof ≡ false → options.now.queries ≡ false → IsWhole options.now (S.left source.old) (K.held sink.old) (K.held sink.new) (K.is_sent sink.new) result.status }
    ensures flushed { TellsFaults (K.faults sink.old) (K.faults sink.new) result.status }
    ensures sent { IsSentOn result.status (K.is_sent sink.new) }
    ensures closed { TellsClosed result.status (K.is_closed sink.new) }
    ensures notes { NotesRun 0 options.now (around (S.left source.old) (S.left source.new) (S.faults source.old) (S.faults source.new)
        (K.held sink.old) (K.held sink.new) (K.faults sink.old) (K.faults sink.new)) (N.held notes.old) (N.held notes.new) (N.faults notes.old) (N.faults notes.new) result }
{
    run_with(alloc, &Alone, options, source, sink, notes)
}

// A run after the words with workers side by side.
fn run_by_crew<R: Threads + Wait + Sync, S: Source, K: Sink, N: Sink, G: Gate + Sync>(
    rt: &R,
    alloc: Global,
    options: &Options,
    source: &mut S,
    sink: &mut K,
    notes: &mut N,
    gate: &G,
) -> Outcome
    requires ring { IsRing options.now.make }
    requires crew { IsCrew options.now.workers }
    requires whole { options.now.split ≡ None }
    requires at_once { options.now.stream ≡ false }
    requires apart { IsApart options.now }
    ensures runs { Runs options.now (around (S.left source.old) (S.left source.new) (S.faults source.old) (S.faults source.new)
        (K.held sink.old) (K.held sink.new) (K.faults sink.old) (K.faults sink.new)) result }
    ensures flushed { TellsFaults (K.faults sink.old) (K.faults sink.new) result.status }
    ensures sent { IsSentOn result.status (K.is_sent sink.new) }
    ensures closed { TellsClosed result.status (K.is_closed sink.new) }
    ensures notes { NotesRun options.now.workers options.now (around (S.left source.old) (S.left source.new) (S.faults source.old) (S.faults source.new)
        (K.held sink.old) (K.held sink.new) (K.faults sink.old) (K.faults sink.new)) (N.held notes.old) (N.held notes.new) (N.faults notes.old) (N.faults notes.new) result }
{
    let mut tally = Tally::new(alloc);
    let progress = Progress::new(notes, options);
    let (outcome, progress) = outcome_by_crew(
        rt, alloc, options, source, sink, gate, &mut tally, progress,
    );
    let Progress {
        notes,
        on: _,
        state,
        last: _,
        parts: _,
        before: _,
        row: _,
        warned: _,
    } = progress;
    end(notes, state, options, &tally, &outcome);
    outcome
}

// Whether a program isn't searched by workers: with one, of queries, for a stream, and where nothing is solved.
fn is_alone(options: &Options) -> bool
    ensures { result ≡ is_alone options.now }
{
    options.workers == 1 || options.split.is_some() || options.queries || options.stream
}

// A run after the words with one search. With several workers queries that are searched from scratch are theirs.
fn run_in_turn<R: Threads + Wait + Sync, S: Source, K: Sink, N: Sink>(
    rt: &R,
    alloc: Global,
    options: &Options,
    source: &mut S,
    sink: &mut K,
    notes: &mut N,
) -> Outcome
    requires ring { IsRing options.now.make }
    requires crew { IsCrew options.now.workers }
    requires parts { IsPartCount options.now.split }
    requires apart { IsApart options.now }
    requires asking { IsAsking options.now }
    ensures runs { RunsBy options.now.queries options.now (around (S.left source.old) (S.left source.new) (S.faults source.old) (S.faults source.new)
        (K.held sink.old) (K.held sink.new) (K.faults sink.old) (K.faults sink.new)) result }
    ensures flushed { TellsFaults (K.faults sink.old) (K.faults sink.new) result.status }
    ensures sent { IsSentOn result.status (K.is_sent sink.new) }
    ensures closed { TellsClosed result.status (K.is_closed sink.new) }
    ensures notes { NotesRun 0 options.now (around (S.left source.old) (S.left source.new) (S.faults source.old) (S.faults source.new)
        (K.held sink.old) (K.held sink.new) (K.faults sink.old) (K.faults sink.new)) (N.held notes.old) (N.held notes.new) (N.faults notes.old) (N.faults notes.new) result }
{
    if options.workers == 1 {
        return run_alone(alloc, options, source, sink, notes);
    }
    let crew = Crew::new(rt, options);
    run_with(alloc, &crew, options, source, sink, notes)
}

// A run after the words, with as many workers as are asked for.
fn run_given<R: Threads + Wait + Sync, S: Source, K: Sink, N: Sink, G: Gate + Sync>(
    rt: &R,
    alloc: Global,
    options: &Options,
    source: &mut S,
    sink: &mut K,
    notes: &mut N,
    gate: &G,
) -> Outcome
    requires ring { IsRing options.now.make }
    requires crew { IsCrew options.now.workers }
    requires parts { IsPartCount options.now.split }
    requires apart { IsApart options.now }
    requires asking { IsAsking options.now }
    ensures runs { RunsBy options.now.queries options.now (around (S.left source.old) (S.left source.new) (S.faults source.old) (S.faults source.new)
        (K.held sink.old) (K.held sink.new) (K.faults sink.old) (K.faults sink.new)) result }
    ensures flushed { TellsFaults (K.faults sink.old) (K.faults sink.new) result.status }
    ensures sent { IsSentOn result.status (K.is_sent sink.new) }
    ensures closed { TellsClosed result.status (K.is_closed sink.new) }
    ensures notes { NotesRun (crew_of options.now) options.now (around (S.left source.old) (S.left source.new) (S.faults source.old) (S.faults source.new)
        (K.held sink.old) (K.held sink.new) (K.faults sink.old) (K.faults sink.new)) (N.held notes.old) (N.held notes.new) (N.faults notes.old) (N.faults notes.new) result }
{
    if is_alone(options) {
        run_in_turn(rt, alloc, options, source, sink, notes)
    } else {
        run_by_crew(rt, alloc, options, source, sink, notes, gate)
    }
}

fn help<K: Sink>(sink: &mut K) -> Status
    ensures means { TextMeans help_page (K.held sink.old) (K.held sink.new) (K.faults sink.old) (K.faults sink.new) result }
    ensures flushed { TellsFaults (K.faults sink.old) (K.faults sink.new) result }
    ensures sent { IsSentOn result (K.is_sent sink.new) }
    ensures closed { TellsClosed result (K.is_closed sink.new) }
{
    match write_help(sink) {
        Ok(()) => Status::Help,
        Err(Failed) => Status::WriteFault(sink.is_closed()),
    }
}

fn tell_version<K: Sink>(sink: &mut K) -> Status
    ensures means { TextMeans version_line (K.held sink.old) (K.held sink.new) (K.faults sink.old) (K.faults sink.new) result }
    ensures flushed { TellsFaults (K.faults sink.old) (K.faults sink.new) result }
    ensures sent { IsSentOn result (K.is_sent sink.new) }
    ensures closed { TellsClosed result (K.is_closed sink.new) }
{
    match write_version(sink) {
        Ok(()) => Status::Help,
        Err(Failed) => Status::WriteFault(sink.is_closed()),
    }
}

// The end of a run that solved nothing.
fn ended<N: Sink>(notes: &mut N, status: Status) -> Outcome
    ensures outcome { result ≡ record { status = status; report = None } }
    ensures notes { IsNoted (N.held notes.old) (N.held notes.new) (N.faults notes.old) (N.faults notes.new) (note_of status) }
{
    note_status(notes, status);
    failed(status)
}

// The end of a run on faulty words.
fn misused<N: Sink>(notes: &mut N, fault: &WordFault<'_>) -> Outcome
    ensures outcome { result ≡ record { status = Status.Usage; report = None } }
    ensures notes { IsNoted (N.held notes.old) (N.held notes.new) (N.faults notes.old) (N.faults notes.new) (misuse_note (fault_seen fault.now)) }
{
    note_misuse(notes, fault);
    failed(Status::Usage)
}

/// A run that can't have its words: nothing is read or written but the line for its status on the notes.
pub fn end_without_words<N: Sink>(notes: &mut N, status: Status) -> Outcome
    ensures outcome { result ≡ record { status = status; report = None } }
    ensures notes { IsNoted (N.held notes.old) (N.held notes.new) (N.faults notes.old) (N.faults notes.new) (note_of status) }
{
    ended(notes, status)
}

/// A whole run of the program, with as many workers as its words ask for. It returns if the workers do, for whom it waits
/// where there are several.
pub fn run<R: Threads + Wait + Sync, S: Source, K: Sink, N: Sink, G: Gate + Sync>(
    rt: &R,
    alloc: Global,
    words: &[String],
    source: &mut S,
    sink: &mut K,
    notes: &mut N,
    gate: &G,
) -> Outcome
    ensures runs { RunsOn (words_give (map string_bytes words.now)) (around (S.left source.old) (S.left source.new) (S.faults source.old) (S.faults source.new)
        (K.held sink.old) (K.held sink.new) (K.faults sink.old) (K.faults sink.new)) result }
    ensures whole { (given : Options) → words_give (map string_bytes words.now) ≡ options given → given.proof ≡ false → given.queries ≡ false
        → IsWhole given (S.left source.old) (K.held sink.old) (K.held sink.new) (K.is_sent sink.new) result.status }
    ensures flushed { TellsFaults (K.faults sink.old) (K.faults sink.new) result.status }
    ensures sent { IsSentOn result.status (K.is_sent sink.new) }
    ensures closed { TellsClosed result.status (K.is_closed sink.new) }
    ensures notes { NotesOn (words_give (map string_bytes words.now)) (around (S.left source.old) (S.left source.new) (S.faults source.old) (S.faults source.new)
        (K.held sink.old) (K.held sink.new) (K.faults sink.old) (K.faults sink.new)) (N.held notes.old) (N.held notes.new) (N.faults notes.old) (N.faults notes.new)
        result }
{
    match asp_cli::words(words) {
        Ok(options) => run_given(rt, alloc, &options, source, sink, notes, gate),
        Err(CliError::Help) => {
            let status = help(sink);
            ended(notes, status)
        }
        Err(CliError::Version) => {
            let status = tell_version(sink);
            ended(notes, status)
        }
        Err(CliError::Usage(fault)) => misused(notes, &fault),
    }
}
