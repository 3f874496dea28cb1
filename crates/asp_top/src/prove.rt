//! A program that was compiled is solved, and the proof of that is written while it goes on.
ghost use Rattle.std.specs.Prelude.{◌≡◌, [], IfSome};
ghost use Rattle.asp_buffer.specs.Out.{Out, out};
ghost use Rattle.asp_cli.specs.Found.{IsApart};
ghost use Rattle.asp_cli.specs.Values.{IsCrew};
ghost use Rattle.asp_model.specs.declared.program.Program.{Program};
ghost use Rattle.asp_model.specs.declared.results.Ask.{Ask};
ghost use Rattle.asp_prepare.specs.Meaning.{has_model};
ghost use Rattle.asp_prepare.specs.Naming.{prepared_of};
ghost use Rattle.asp_proof.specs.declared.proof.Sought.{Sought};
ghost use Rattle.asp_model.specs.Texts.{recorded};
ghost use Rattle.asp_scribe.specs.Proofs.{is_part, sought_of};
ghost use Rattle.asp_scribe.specs.Scribes.{IsBegun};
ghost use Rattle.asp_top.specs.Meaning.{status_for};
ghost use Rattle.asp_top.specs.Runs.{EndsProof, EndsProofBy, IsCounted, IsProofStopped, IsSentOn, Proves, SolvesAs, SolvesOr, TellsClosed, TellsFaults, WritesProof};

use crate::counts::Tally;
use crate::deliver::failed;
use crate::loops::loops;
use crate::search::{plan_of, solve_by_crew};
use crate::solve::status_for;
use crate::status::{Outcome, Status};
use crate::stream::solve_or_stream;
use crate::teller::Teller;
use asp_buffer::Waiting;
use asp_cli::Options;
use asp_counts::counts::Counts;
use asp_counts::watch::Watch;
use asp_crew::alone::solve_alone;
use asp_crew::report::Report;
use asp_equal::reduce::Aside;
use asp_io::{Failed, Sink};
use asp_model::results::Results;
use asp_prepare::asked::ask_of;
use asp_prepare::prepared::Prepared;
use asp_prepare::told::told_with;
use asp_recorder::recorder::Recorder;
use asp_recorder::scroll::Scroll;
use asp_recorder::tape::{CrewTape, Tape};
use asp_rows::sets::Sets;
use asp_scribe::ending::sought_of;
use asp_scribe::scribe::Scribe;
use asp_team::gate::Gate;
use asp_team::many;
use asp_team::many::{Deeds, Record};
use std::alloc::{AllocError, Global};
use std::sync::Wait;
use std::thread::Threads;

// The outcome of a run that ends before its text does: a write failed, or memory ran out.
fn cut_short<K: Sink, T: Tape, W: Watch>(scribe: &Scribe<'_, K, T, W>) -> Outcome
    ensures stopped { (s : Sought) (start : Out) → start.waiting ≡ [] → IsBegun s start (out (K.held scribe.now.sink.now) (K.faults scribe.now.sink.now) scribe.now.waiting.now) scribe.now.state
        → IsProofStopped s start.held (K.held scribe.now.sink.now) start.faults (K.faults scribe.now.sink.now) result }
    ensures sent { IsSentOn result.status (K.is_sent scribe.now.sink.now) }
    ensures closed { TellsClosed result.status (K.is_closed scribe.now.sink.now) }
{
    match scribe.state {
        Ok(()) => failed(Status::Memory),
        Err(Failed) => failed(Status::WriteFault(scribe.sink.is_closed())),
    }
}

// Writes the answers of these results, and the last line.
fn write_end<K: Sink, T: Tape, W: Watch>(
    scribe: &mut Scribe<'_, K, T, W>,
    results: &Results<Sets>,
) -> Status
    ensures same { (scribe.new.sink.ghost_name ≡ scribe.old.sink.ghost_name) × (scribe.new.waiting.ghost_name ≡ scribe.old.waiting.ghost_name)
        × (scribe.new.watch.ghost_name ≡ scribe.old.watch.ghost_name) × (scribe.new.watch.now ≡ scribe.old.watch.now) }
    ensures wrote { (s : Sought) (start : Out) → start.waiting ≡ [] → IsBegun s start (out (K.held scribe.old.sink.now) (K.faults scribe.old.sink.now) scribe.old.waiting.now) scribe.old.state
        → WritesProof s (recorded results.now.mode results.now) (is_part results.now.end)
        (status_for results.now.end (has_model results.now)) start.held (K.held scribe.new.sink.now) start.faults (K.faults scribe.new.sink.now) result }
    ensures sent { IsSentOn result (K.is_sent scribe.new.sink.now) }
    ensures closed { TellsClosed result (K.is_closed scribe.new.sink.now) }
{
    match scribe.end(results) {
        Ok(()) => status_for(results),
        Err(Failed) => Status::WriteFault(scribe.sink.is_closed()),
    }
}

// Tells the report with what was set aside, which changes no answer that is listed, and writes the end of the text of
// its proof.
fn deliver<K: Sink, T: Tape, W: Watch>(
    alloc: Global,
    scribe: &mut Scribe<'_, K, T, W>,
    aside: &Aside,
    report: Report,
) -> Outcome
    ensures same { (scribe.new.sink.ghost_name ≡ scribe.old.sink.ghost_name) × (scribe.new.waiting.ghost_name ≡ scribe.old.waiting.ghost_name)
        × (scribe.new.watch.ghost_name ≡ scribe.old.watch.ghost_name) × (scribe.new.watch.now ≡ scribe.old.watch.now) }
    ensures ends { (ask : Ask) (start : Out) → start.waiting ≡ [] → IsBegun (sought_of ask) start (out (K.held scribe.old.sink.now) (K.faults scribe.old.sink.now) scribe.old.waiting.now) scribe.old.state
        → EndsProof ask aside.now report start.held (K.held scribe.new.sink.now) start.faults (K.faults scribe.new.sink.now) result }
    ensures sent { IsSentOn result.status (K.is_sent scribe.new.sink.now) }
    ensures closed { TellsClosed result.status (K.is_closed scribe.new.sink.now) }
{
    match told_with(alloc, aside, report) {
        Ok(report) => {
            let status = write_end(scribe, &report.results);
            Outcome {
                status,
                report: Some(report),
            }
        }
        Err(_) => cut_short(scribe),
    }
}

// Ends the text of a run that has a report, or is cut short.
fn conclude<K: Sink, T: Tape, W: Watch>(
    alloc: Global,
    scribe: &mut Scribe<'_, K, T, W>,
    aside: &Aside,
    solved: Result<Report, AllocError>,
) -> Outcome
    ensures same { (scribe.new.sink.ghost_name ≡ scribe.old.sink.ghost_name) × (scribe.new.waiting.ghost_name ≡ scribe.old.waiting.ghost_name)
        × (scribe.new.watch.ghost_name ≡ scribe.old.watch.ghost_name) × (scribe.new.watch.now ≡ scribe.old.watch.now) }
    ensures ends { (ask : Ask) (start : Out) → start.waiting ≡ [] → IsBegun (sought_of ask) start (out (K.held scribe.old.sink.now) (K.faults scribe.old.sink.now) scribe.old.waiting.now) scribe.old.state
        → EndsProofBy solved ask aside.now start.held (K.held scribe.new.sink.now) start.faults (K.faults scribe.new.sink.now) result }
    ensures sent { IsSentOn result.status (K.is_sent scribe.new.sink.now) }
    ensures closed { TellsClosed result.status (K.is_closed scribe.new.sink.now) }
{
    match solved {
        Ok(report) => deliver(alloc, scribe, aside, report),
        Err(_) => cut_short(scribe),
    }
}

// Leaves all as it is: whose it was has it again.
fn hand_back<K: Sink, W>(_sink: &mut K, _waiting: &mut Waiting, _watch: &mut W)
    ensures sink { _sink.new ≡ _sink.old }
    ensures watch { _watch.new ≡ _watch.old }
{}

// One search solves it, or two where all optima are asked for, and the proof is written while it goes on.
fn prove<K: Sink, W: Watch>(
    alloc: Global,
    options: &Options,
    prepared: &Prepared,
    sink: &mut K,
    tally: &mut Tally,
    watch: &mut W,
) -> Outcome
    ensures proves { (p : Program) → prepared.now ≡ prepared_of options.now p → Proves options.now p (K.held sink.old) (K.held sink.new) (K.faults sink.old) (K.faults sink.new) result }
    ensures flushed { TellsFaults (K.faults sink.old) (K.faults sink.new) result.status }
    ensures sent { IsSentOn result.status (K.is_sent sink.new) }
    ensures closed { TellsClosed result.status (K.is_closed sink.new) }
    ensures counted { IfSome result.report (IsCounted 0 tally.new) }
    ensures heard { W.IsAfter watch.old watch.new }
{
    let compiled = &prepared.compiled;
    let ask = ask_of(options, compiled.program());
    let sought = sought_of(ask);
    let recorder = Recorder::new(alloc, sought);
    let mut waiting = Waiting::new();
    let mut scribe = Scribe::new(sink, &mut waiting, &recorder, watch, sought);
    let mut counts = Counts::new();
    let solved = solve_alone(
        alloc,
        compiled,
        ask,
        options.budget,
        &mut counts,
        &mut scribe,
        Some(&recorder),
    );
    let loops = loops(alloc, compiled, options.stats);
    *tally = Tally::of(compiled, loops, counts, Vec::new(alloc));
    let outcome = conclude(alloc, &mut scribe, &prepared.aside, solved);
    let Scribe {
        sink,
        waiting,
        tape: _,
        state: _,
        watch,
    } = scribe;
    hand_back(sink, waiting, watch);
    outcome
}

// Workers side by side solve it, and the proof is written while they go on. The watch comes back.
fn prove_by_crew<R: Threads + Wait + Sync, K: Sink, G: Gate + Sync, W: Watch + Drop>(
    rt: &R,
    alloc: Global,
    options: &Options,
    prepared: &Prepared,
    sink: &mut K,
    gate: &G,
    tally: &mut Tally,
    mut watch: W,
) -> (Outcome, W)
    requires crew { IsCrew options.now.workers }
    ensures proves { (p : Program) → prepared.now ≡ prepared_of options.now p → Proves options.now p (K.held sink.old) (K.held sink.new) (K.faults sink.old) (K.faults sink.new) result.0 }
    ensures flushed { TellsFaults (K.faults sink.old) (K.faults sink.new) result.0.status }
    ensures sent { IsSentOn result.0.status (K.is_sent sink.new) }
    ensures closed { TellsClosed result.0.status (K.is_closed sink.new) }
    ensures counted { IfSome result.0.report (IsCounted options.now.workers tally.new) }
    ensures heard { W.IsAfter watch result.1 }
{
    let compiled = &prepared.compiled;
    let ask = ask_of(options, compiled.program());
    let sought = sought_of(ask);
    let recorder = Recorder::new(alloc, sought);
    let scroll = Scroll::new(alloc, sought);
    let tape = CrewTape {
        rt,
        scroll: &scroll,
        recorder: &recorder,
    };
    let record = Record {
        scroll: &scroll,
        recorder: &recorder,
    };
    let mut waiting = Waiting::new();
    let scribe = Scribe::new(sink, &mut waiting, &tape, &mut watch, sought);
    let mut deeds = Deeds::new(alloc);
    let plan = plan_of(options, ask, Some(record));
    let (solved, mut scribe) = many::solve(rt, alloc, compiled, plan, gate, &mut deeds, scribe);
    let Deeds { sum, workers } = deeds;
    let loops = loops(alloc, compiled, options.stats);
    *tally = Tally::of(compiled, loops, sum, workers);
    let outcome = conclude(alloc, &mut scribe, &prepared.aside, solved);
    let Scribe {
        sink,
        waiting,
        tape: _,
        state: _,
        watch: told,
    } = scribe;
    hand_back(sink, waiting, told);
    (outcome, watch)
}

/// One search solves it, or two where all optima are asked for. Where that was asked for its proof is written while it goes on, or a
/// list of answers while it is found.
pub fn solve_or_prove<T: Teller, K: Sink, W: Watch>(
    teller: &T,
    alloc: Global,
    options: &Options,
    prepared: &Prepared,
    sink: &mut K,
    tally: &mut Tally,
    watch: &mut W,
) -> Outcome
    requires teller { T.able teller.now }
    requires apart { IsApart options.now }
    ensures solves { (p : Program) → prepared.now ≡ prepared_of options.now p → SolvesAs options.now.proof options.now p (K.held sink.old) (K.held sink.new) (K.faults sink.old) (K.faults sink.new) result }
    ensures flushed { TellsFaults (K.faults sink.old) (K.faults sink.new) result.status }
    ensures sent { IsSentOn result.status (K.is_sent sink.new) }
    ensures closed { TellsClosed result.status (K.is_closed sink.new) }
    ensures counted { IfSome result.report (IsCounted 0 tally.new) }
    ensures heard { W.IsAfter watch.old watch.new }
{
    if options.proof {
        prove(alloc, options, prepared, sink, tally, watch)
    } else {
        solve_or_stream(teller, alloc, options, prepared, sink, tally, watch)
    }
}

/// Workers side by side solve it. Where that was asked for its proof is written while they go on. The watch comes back.
pub fn solve_or_prove_by_crew<R: Threads + Wait + Sync, K: Sink, G: Gate + Sync, W: Watch + Drop>(
    rt: &R,
    alloc: Global,
    options: &Options,
    prepared: &Prepared,
    sink: &mut K,
    gate: &G,
    tally: &mut Tally,
    watch: W,
) -> (Outcome, W)
    requires crew { IsCrew options.now.workers }
    requires apart { IsApart options.now }
    ensures solves { (p : Program) → prepared.now ≡ prepared_of options.now p → SolvesOr options.now.proof options.now p (K.held sink.old) (K.held sink.new) (K.faults sink.old) (K.faults sink.new) result.0 }
    ensures flushed { TellsFaults (K.faults sink.old) (K.faults sink.new) result.0.status }
    ensures sent { IsSentOn result.0.status (K.is_sent sink.new) }
    ensures closed { TellsClosed result.0.status (K.is_closed sink.new) }
    ensures counted { IfSome result.0.report (IsCounted options.now.workers tally.new) }
    ensures heard { W.IsAfter watch result.1 }
{
    if options.proof {
        prove_by_crew(rt, alloc, options, prepared, sink, gate, tally, watch)
    } else {
        solve_by_crew(rt, alloc, options, prepared, sink, gate, tally, watch)
    }
}
