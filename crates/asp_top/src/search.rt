//! A program that was compiled is solved, and its results are written.
ghost use Rattle.std.specs.Prelude.{◌≡◌, IfOk, IfSome, OnOk};
ghost use Rattle.asp_cli.specs.Found.{IsApart};
ghost use Rattle.asp_cli.specs.Values.{IsCrew, is_row};
ghost use Rattle.asp_counts.specs.Telling.{AreNumbered};
ghost use Rattle.asp_crew_laws.specs.Reports.{IsReport};
ghost use Rattle.asp_model.specs.declared.program.Program.{Program};
ghost use Rattle.asp_prepare.specs.Naming.{prepared_of};
ghost use Rattle.asp_top.specs.Runs.{Concludes, IsCounted, IsSentOn, Solves, TellsClosed, TellsFaults, layout_of};

use crate::counts::Tally;
use crate::deliver::{deliver, failed};
use crate::loops::loops;
use crate::status::{Outcome, Status};
use asp_cli::Options;
use asp_counts::counts::Counts;
use asp_counts::watch::Watch;
use asp_crew::alone::solve_alone;
use asp_crew::report::Report;
use asp_equal::reduce::Aside;
use asp_io::Sink;
use asp_model::program::Program;
use asp_model::results::Ask;
use asp_prepare::asked::ask_of;
use asp_prepare::layout::Layout;
use asp_prepare::prepared::Prepared;
use asp_prepare::told::told_with;
use asp_team::gate::Gate;
use asp_team::many;
use asp_team::many::{Deeds, Plan, Record};
use asp_vars::compiled::Compiled;
use std::alloc::{AllocError, Global};
use std::mem;
use std::sync::Wait;
use std::thread::Threads;

// How the results are written: of a ring the closing lines alone.
fn layout_of(options: &Options) -> Layout
    ensures { result ≡ layout_of options.now }
{
    Layout {
        form: options.form,
        brief: options.make.is_some() || options.quiet,
        names: options.names,
    }
}

// Writes the text of a report with what was set aside, or nothing where memory runs out.
fn conclude<K: Sink>(
    alloc: Global,
    sink: &mut K,
    layout: Layout,
    program: &Program,
    aside: &Aside,
    report: Report,
) -> Outcome
    ensures concludes { Concludes layout program.now aside.now report (K.held sink.old) (K.held sink.new) (K.faults sink.old) (K.faults sink.new) result }
    ensures flushed { TellsFaults (K.faults sink.old) (K.faults sink.new) result.status }
    ensures sent { IsSentOn result.status (K.is_sent sink.new) }
    ensures closed { TellsClosed result.status (K.is_closed sink.new) }
{
    match told_with(alloc, aside, report) {
        Ok(report) => deliver(alloc, sink, layout, program, report),
        Err(_) => failed(Status::Memory),
    }
}

/// One search solves it, or two where all optima are asked for.
pub fn solve<K: Sink, W: Watch>(
    alloc: Global,
    options: &Options,
    prepared: &Prepared,
    sink: &mut K,
    tally: &mut Tally,
    watch: &mut W,
) -> Outcome
    requires { IsApart options.now }
    ensures solves { (p : Program) → prepared.now ≡ prepared_of options.now p → Solves options.now p (K.held sink.old) (K.held sink.new) (K.faults sink.old) (K.faults sink.new) result }
    ensures flushed { TellsFaults (K.faults sink.old) (K.faults sink.new) result.status }
    ensures sent { IsSentOn result.status (K.is_sent sink.new) }
    ensures closed { TellsClosed result.status (K.is_closed sink.new) }
    ensures counted { IfSome result.report (IsCounted 0 tally.new) }
    ensures heard { W.IsAfter watch.old watch.new }
{
    let compiled = &prepared.compiled;
    let program = compiled.program();
    let ask = ask_of(options, program);
    let mut counts = Counts::new();
    match solve_alone(
        alloc,
        compiled,
        ask,
        options.budget,
        &mut counts,
        watch,
        None,
    ) {
        Ok(report) => {
            let loops = loops(alloc, compiled, options.stats);
            *tally = Tally::of(compiled, loops, counts, Vec::new(alloc));
            conclude(
                alloc,
                sink,
                layout_of(options),
                program,
                &prepared.aside,
                report,
            )
        }
        Err(_) => failed(Status::Memory),
    }
}

/// What is asked of workers, and who gets the lines of a proof, if one is wanted.
pub fn plan_of<'a>(options: &Options, ask: Ask, proof: Option<Record<'a>>) -> Plan<'a>
    ensures { result ≡ record { ask = ask; workers = options.now.workers; budget = options.now.budget; proof = proof.entry; row = is_row options.now.log } }
{
    Plan {
        ask,
        workers: options.workers,
        budget: options.budget,
        proof,
        row: options.log.is_row(),
    }
}

// What workers side by side find. The watch comes back.
fn solved_by_crew<R: Threads + Wait + Sync, G: Gate + Sync, W: Watch + Drop>(
    rt: &R,
    alloc: Global,
    options: &Options,
    compiled: &Compiled,
    ask: Ask,
    gate: &G,
    deeds: &mut Deeds,
    watch: W,
) -> (Result<Report, AllocError>, W)
    requires crew { IsCrew options.now.workers }
    ensures report { IfOk result.0 (IsReport compiled.now ask options.now.budget) }
    ensures workers { OnOk result.0 (AreNumbered options.now.workers deeds.new.workers.items) }
    ensures heard { W.IsAfter watch result.1 }
{
    let plan = plan_of(options, ask, None);
    many::solve(rt, alloc, compiled, plan, gate, deeds, watch)
}

/// Workers side by side solve it. The watch comes back.
pub fn solve_by_crew<R: Threads + Wait + Sync, K: Sink, G: Gate + Sync, W: Watch + Drop>(
    rt: &R,
    alloc: Global,
    options: &Options,
    prepared: &Prepared,
    sink: &mut K,
    gate: &G,
    tally: &mut Tally,
    watch: W,
) -> (Outcome, W)
    requires crew { IsCrew options.now.workers }
    requires apart { IsApart options.now }
    ensures solves { (p : Program) → prepared.now ≡ prepared_of options.now p → Solves options.now p (K.held sink.old) (K.held sink.new) (K.faults sink.old) (K.faults sink.new) result.0 }
    ensures flushed { TellsFaults (K.faults sink.old) (K.faults sink.new) result.0.status }
    ensures sent { IsSentOn result.0.status (K.is_sent sink.new) }
    ensures closed { TellsClosed result.0.status (K.is_closed sink.new) }
    ensures counted { IfSome result.0.report (IsCounted options.now.workers tally.new) }
    ensures heard { W.IsAfter watch result.1 }
{
    let compiled = &prepared.compiled;
    let program = compiled.program();
    let ask = ask_of(options, program);
    let mut deeds = Deeds::new(alloc);
    let (solved, watch) = solved_by_crew(
        rt, alloc, options, compiled, ask, gate, &mut deeds, watch,
    );
    match solved {
        Ok(report) => {
            let Deeds { sum, workers } = deeds;
            let loops = loops(alloc, compiled, options.stats);
            *tally = Tally::of(compiled, loops, sum, workers);
            (
                conclude(
                    alloc,
                    sink,
                    layout_of(options),
                    program,
                    &prepared.aside,
                    report,
                ),
                watch,
            )
        }
        Err(_) => {
            mem::drop(deeds);
            (failed(Status::Memory), watch)
        }
    }
}
