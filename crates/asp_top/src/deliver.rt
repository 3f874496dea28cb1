//! What a run writes of its report, and the outcome then.
ghost use Rattle.std.specs.Prelude.{◌≡◌, None, OnOk, true};
ghost use Rattle.asp_json.specs.Json.{json_text};
ghost use Rattle.asp_print.specs.Named.{printed_text};
ghost use Rattle.asp_faults.specs.Writing.{Writes};
ghost use Rattle.asp_prepare.specs.Told.{report_text, text_in};
ghost use Rattle.asp_top.specs.Runs.{Delivers, IsSentOn, TellsClosed, TellsFaults};

use crate::solve::status_for;
use crate::status::{Outcome, Status};
use asp_cli::Form;
use asp_crew::report::Report;
use asp_io::{Failed, Sink};
use asp_json::print_json;
use asp_model::program::Program;
use asp_model::results::Results;
use asp_prepare::layout::Layout;
use asp_print::print;
use asp_rows::sets::Sets;
use std::alloc::Global;

/// The outcome of a run without a report.
pub fn failed(status: Status) -> Outcome
    ensures { result ≡ record { status = status; report = None } }
{
    Outcome {
        status,
        report: None,
    }
}

fn write_lines<K: Sink>(
    alloc: Global,
    sink: &mut K,
    layout: Layout,
    program: &Program,
    results: &Results<Sets>,
) -> Result<(), Failed>
    ensures { Writes (K.held sink.old) (K.held sink.new) (K.faults sink.old) (K.faults sink.new)
        result (printed_text program.now results.now layout.brief layout.names) }
{
    print(alloc, sink, program, results, layout.brief, layout.names)
}

fn write_json<K: Sink>(
    alloc: Global,
    sink: &mut K,
    brief: bool,
    program: &Program,
    results: &Results<Sets>,
) -> Result<(), Failed>
    ensures { Writes (K.held sink.old) (K.held sink.new) (K.faults sink.old) (K.faults sink.new)
        result (json_text program.now results.now brief) }
{
    print_json(alloc, sink, program, results, brief)
}

// Writes the text of the results, in the form that was asked for.
fn write_results<K: Sink>(
    alloc: Global,
    sink: &mut K,
    layout: Layout,
    program: &Program,
    results: &Results<Sets>,
) -> Result<(), Failed>
    ensures { Writes (K.held sink.old) (K.held sink.new) (K.faults sink.old) (K.faults sink.new)
        result (text_in layout.form program.now results.now layout.brief layout.names) }
{
    match layout.form {
        Form::Text => write_lines(alloc, sink, layout, program, results),
        Form::Json => write_json(alloc, sink, layout.brief, program, results),
    }
}

// Writes the text of a report, and flushes the sink.
fn write_report<K: Sink>(
    alloc: Global,
    sink: &mut K,
    layout: Layout,
    program: &Program,
    report: &Report,
) -> Result<(), Failed>
    ensures writes { Writes (K.held sink.old) (K.held sink.new) (K.faults sink.old) (K.faults sink.new)
        result (report_text program.now report.now layout) }
    ensures sent { OnOk result (K.is_sent sink.new ≡ true) }
{
    write_results(alloc, sink, layout, program, &report.results)?;
    sink.flush()
}

/// Writes the text of a report, and flushes the sink.
pub fn deliver<K: Sink>(
    alloc: Global,
    sink: &mut K,
    layout: Layout,
    program: &Program,
    report: Report,
) -> Outcome
    ensures delivers { Delivers layout program.now report (K.held sink.old) (K.held sink.new) (K.faults sink.old) (K.faults sink.new) result }
    ensures flushed { TellsFaults (K.faults sink.old) (K.faults sink.new) result.status }
    ensures sent { IsSentOn result.status (K.is_sent sink.new) }
    ensures closed { TellsClosed result.status (K.is_closed sink.new) }
{
    let status = match write_report(alloc, sink, layout, program, &report) {
        Ok(()) => status_for(&report.results),
        Err(Failed) => Status::WriteFault(sink.is_closed()),
    };
    Outcome {
        status,
        report: Some(report),
    }
}
