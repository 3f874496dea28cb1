//! A run with queries.
ghost use Rattle.std.specs.Prelude.{◌≡◌, Some, false};
ghost use Rattle.asp_cli.specs.Found.{seeks_consequences};
ghost use Rattle.asp_top.specs.Runs.{IsSentOn, TellsClosed, TellsFaults, around};
ghost use Rattle.asp_top.specs.Series.{RunsSeries, status_at};

use crate::deliver::failed;
use crate::prepare::status_of;
use crate::status::{Outcome, Status};
use asp_cli::Options;
use asp_counts::counts::Counts;
use asp_counts::watch::Watch;
use asp_io::{Sink, Source};
use asp_read::read_queries;
use asp_series::end::SeriesEnd;
use asp_series::series::ask_all;
use asp_series::solver::Solver;
use std::alloc::Global;
use std::mem;

// The status of a run whose series ended so.
fn status_at(end: SeriesEnd) -> Status
    ensures { result ≡ status_at end }
{
    match end {
        SeriesEnd::All => Status::All,
        SeriesEnd::NoModel => Status::NoModel,
        SeriesEnd::Partial => Status::Partial,
        SeriesEnd::Unknown => Status::Unknown,
        SeriesEnd::Memory => Status::Memory,
        SeriesEnd::WriteFault(closed) => Status::WriteFault(closed),
    }
}

/// Reads a program with queries, and answers each. The solver searches from scratch where no search is kept, or the one that is can't say
/// anything.
pub fn run_series<V: Solver, S: Source, K: Sink, W: Watch>(
    alloc: Global,
    solver: &V,
    options: &Options,
    source: &mut S,
    sink: &mut K,
    watch: &mut W,
) -> Outcome
    requires solver { V.may solver.now }
    requires plain { seeks_consequences (Some options.now.mode) ≡ false }
    ensures runs { RunsSeries options.now (around (S.left source.old) (S.left source.new) (S.faults source.old) (S.faults source.new)
        (K.held sink.old) (K.held sink.new) (K.faults sink.old) (K.faults sink.new)) result }
    ensures flushed { TellsFaults (K.faults sink.old) (K.faults sink.new) result.status }
    ensures sent { IsSentOn result.status (K.is_sent sink.new) }
    ensures closed { TellsClosed result.status (K.is_closed sink.new) }
    ensures heard { W.IsAfter watch.old watch.new }
{
    let mut counts = Counts::new();
    match read_queries(alloc, source) {
        Ok(series) => {
            let end = ask_all(alloc, solver, options, &series, sink, &mut counts, watch);
            mem::drop(series);
            failed(status_at(end))
        }
        Err(error) => failed(status_of(error)),
    }
}
