//! A program whose answers, or optima, are written while they are found.
ghost use Rattle.std.specs.Prelude.{◌≡◌, ◌+◌, ◌++◌, ◌<◌, ◌^◌, [], IfOk, IfSome, OnOk, false, length, true};
ghost use mathlib.Core.List.{IsPrefix};
ghost use Rattle.asp_cli.specs.Found.{IsApart};
ghost use Rattle.asp_limit.specs.Limits.{heard_of};
ghost use Rattle.asp_model.specs.declared.program.Program.{Program};
ghost use Rattle.asp_model.specs.declared.results.Mode.TheVariants.{Opt};
ghost use Rattle.asp_model.specs.Models.{atoms_of};
ghost use Rattle.asp_outlet.specs.Outlets.{Ends, IsAfter, Moment, moment};
ghost use Rattle.asp_prepare.specs.Meaning.{is_some_of};
ghost use Rattle.asp_prepare.specs.Naming.{prepared_of};
ghost use Rattle.asp_stream.specs.Endings.{report_of};
ghost use Rattle.asp_stream.specs.Streams.{IsFrontOf};
ghost use Rattle.asp_top.specs.Meaning.{status_for};
ghost use Rattle.asp_top.specs.Notes.{is_list};
ghost use Rattle.asp_top.specs.Runs.{EndsRun, EndsStream, Follows, HasRest, HasTold, IsCounted, IsCutShort, IsFirstMode, IsFirstOf, IsSentOn, ReportsLast, SolvesBy, Streams, TellsAfter, TellsClosed, TellsFaults, WritesAs, as_lines, has_optimum, is_few, last_of, list_text, mode_after, price_after, report_after, streams, whole_list};

use crate::counts::Tally;
use crate::deliver::{deliver, failed};
use crate::loops::loops;
use crate::notes::is_streamed;
use crate::search::solve;
use crate::solve::status_by;
use crate::status::{Outcome, Status};
use crate::teller::Teller;
use asp_cli::{Form, Options};
use asp_counts::counts::Counts;
use asp_counts::watch::Watch;
use asp_crew::alone::solve_alone;
use asp_crew::report::Report;
use asp_io::{Failed, Sink};
use asp_limit::LimitedOutlet;
use asp_model::results::{Ask, End, Mode};
use asp_outlet::{Listing, Outlet, Reader};
use asp_prepare::asked::ask_of;
use asp_prepare::layout::Layout;
use asp_prepare::prepared::Prepared;
use asp_rows::rows::Rows;
use asp_stream::{End as StreamEnd, Told, into_joined, into_report, stream_ties};
use asp_vars::compiled::Compiled;
use asp_vars::fuel::Fuel;
use std::alloc::{AllocError, Global};
use std::mem;

// Whether an answer was written, or is left.
fn has_answer(listing: &Listing<'_>, rest: &Rows) -> bool
    ensures { result ≡ is_some_of (listing.now.sets ++ rest.now.sets) }
{
    listing.len() != 0 || rest.len() != 0
}

// Whether fewer were found than may be written; 0 is no limit.
fn is_few(models: usize, found: usize) -> bool
    ensures { result ≡ is_few models found }
{
    models == 0 || found < models
}

// How the results of a stream end, where few answers were found, or as many written as may be.
fn last_of(end: &StreamEnd, few: bool, full: bool) -> End
    ensures { result ≡ last_of end.now few full }
{
    match end {
        StreamEnd::Finished => { if few { End::Finished } else { End::Limited } }
        StreamEnd::Unpaid(_) => { if full { End::Limited } else { End::Unfinished } }
        StreamEnd::Unwanted => End::Limited,
    }
}

// The outcome of a stream that is cut short: a write failed, or memory ran out.
fn cut_short<K: Sink>(outlet: &Outlet<'_, K>) -> Outcome
    requires front { IsPrefix outlet.now.listing.sets outlet.now.listing.all }
    ensures cut { (a : Moment) → a.heard ≡ [] → a.failed ≡ false
        → IsAfter outlet.now.listing.program a (moment outlet.now.listing.sets (K.held outlet.now.sink.now) (K.faults outlet.now.sink.now) outlet.now.failed)
        → IsCutShort outlet.now.listing.program outlet.now.listing.all a.held (K.held outlet.now.sink.now) a.faults (K.faults outlet.now.sink.now) result }
    ensures sent { IsSentOn result.status (K.is_sent outlet.now.sink.now) }
    ensures closed { TellsClosed result.status (K.is_closed outlet.now.sink.now) }
{
    if outlet.failed {
        failed(Status::WriteFault(outlet.sink.is_closed()))
    } else {
        failed(Status::Memory)
    }
}

// Writes the answers that are left, and the lines after the last: after a first search that found what optima cost these lines tell it.
fn write_last<K: Sink>(
    outlet: &mut Outlet<'_, K>,
    end: End,
    rest: &Rows,
    first: &Option<Report>,
) -> Result<(), Failed>
    requires atoms { rest.now.atoms ≡ atoms_of outlet.old.listing.program }
    requires room { length outlet.old.listing.sets + length rest.now.sets + 1 < 2 ^ 64 }
    ensures same { outlet.new.sink.ghost_name ≡ outlet.old.sink.ghost_name }
    ensures ends { (a : Moment) → a.heard ≡ [] → a.failed ≡ false
        → IsAfter outlet.old.listing.program a (moment outlet.old.listing.sets (K.held outlet.old.sink.now) (K.faults outlet.old.sink.now) outlet.old.failed)
        → Ends a (K.held outlet.new.sink.now) (K.faults outlet.new.sink.now) result (list_text (price_after first.now) outlet.old.listing.program end (outlet.old.listing.sets ++ rest.now.sets)) }
    ensures sent { OnOk result (K.is_sent outlet.new.sink.now ≡ true) }
{
    match first {
        None => outlet.finish(end, rest),
        Some(first) => match &first.results.best {
            None => outlet.finish(end, rest),
            Some((_, cost)) => outlet.finish_optima(end, rest, cost),
        },
    }
}

// The same, and which status comes.
fn write_rest<K: Sink>(
    outlet: &mut Outlet<'_, K>,
    end: End,
    rest: &Rows,
    first: &Option<Report>,
) -> Status
    requires atoms { rest.now.atoms ≡ atoms_of outlet.old.listing.program }
    requires room { length outlet.old.listing.sets + length rest.now.sets + 1 < 2 ^ 64 }
    ensures same { outlet.new.sink.ghost_name ≡ outlet.old.sink.ghost_name }
    ensures writes { (a : Moment) → a.heard ≡ [] → a.failed ≡ false
        → IsAfter outlet.old.listing.program a (moment outlet.old.listing.sets (K.held outlet.old.sink.now) (K.faults outlet.old.sink.now) outlet.old.failed)
        → WritesAs (status_for end (is_some_of (outlet.old.listing.sets ++ rest.now.sets))) (list_text (price_after first.now) outlet.old.listing.program end (outlet.old.listing.sets ++ rest.now.sets))
        a.held (K.held outlet.new.sink.now) a.faults (K.faults outlet.new.sink.now) result }
    ensures sent { IsSentOn result (K.is_sent outlet.new.sink.now) }
    ensures closed { TellsClosed result (K.is_closed outlet.new.sink.now) }
{
    let some = has_answer(&outlet.listing, rest);
    match write_last(outlet, end, rest, first) {
        Ok(()) => status_by(end, some),
        Err(Failed) => Status::WriteFault(outlet.sink.is_closed()),
    }
}

// What is reported of a stream, with what a first search found, if there was one.
fn joined(first: Option<Report>, told: Told) -> Report
    requires { Follows first told }
    ensures { result ≡ report_after first (report_of [] told) }
{
    match first {
        None => into_report(told),
        Some(first) => into_joined(first, told),
    }
}

// What is reported of a stream that ended so. At its limit no unit is said to be burnt by the program's conflicts.
fn report_last(end: End, first: Option<Report>, told: Told, compiled: &Compiled) -> Report
    requires follows { Follows first told }
    requires mode { IsFirstMode first }
    ensures { ReportsLast end compiled.now (mode_after first) (report_after first (report_of [] told)) result }
{
    let left = told.paid.left();
    let mut report = joined(first, told);
    match end {
        End::Limited => {
            report.results.end = End::Limited;
            report.paid = Fuel::of(compiled, left);
        }
        End::Finished | End::Unfinished => {}
    }
    report
}

// Ends a stream: writes of the answers that are left those that may be written, and the lines after the last, unless it was cut short.
fn end_stream<K: Sink>(
    outlet: &mut LimitedOutlet<'_, K>,
    first: Option<Report>,
    mut told: Told,
    compiled: &Compiled,
) -> Outcome
    requires front { IsPrefix (heard_of outlet.old.outlet.listing.all outlet.old.outlet.listing.sets outlet.old.left) outlet.old.outlet.listing.all }
    requires rest { HasRest outlet.old.outlet.listing.program first (heard_of outlet.old.outlet.listing.all outlet.old.outlet.listing.sets outlet.old.left) told }
    requires mode { IsFirstMode first }
    requires program { outlet.old.outlet.listing.program ≡ compiled.now }
    ensures same { outlet.new.outlet.sink.ghost_name ≡ outlet.old.outlet.sink.ghost_name }
    ensures ends { (a : Moment) → a.heard ≡ [] → a.failed ≡ false
        → IsAfter outlet.old.outlet.listing.program a (moment outlet.old.outlet.listing.sets (K.held outlet.old.outlet.sink.now) (K.faults outlet.old.outlet.sink.now) outlet.old.outlet.failed)
        → EndsStream outlet.old.outlet.listing.program outlet.old.outlet.listing.all first outlet.old.models outlet.old.outlet.listing.sets outlet.old.outlet.failed outlet.old.short told
        a.held (K.held outlet.new.outlet.sink.now) a.faults (K.faults outlet.new.outlet.sink.now) result }
    ensures sent { IsSentOn result.status (K.is_sent outlet.new.outlet.sink.now) }
    ensures closed { TellsClosed result.status (K.is_closed outlet.new.outlet.sink.now) }
{
    if outlet.outlet.failed || outlet.short {
        mem::drop(first);
        return cut_short(&outlet.outlet);
    }
    let room = outlet.room();
    let few = is_few(outlet.models, outlet.outlet.listing.len() + told.rest.len());
    let end = last_of(&told.end, few, room == 0);
    told.rest.truncate(room);
    let status = write_rest(&mut outlet.outlet, end, &told.rest, &first);
    Outcome {
        status,
        report: Some(report_last(end, first, told, compiled)),
    }
}

// Ends a run whose answers were written while they were found.
fn end_run<K: Sink>(
    outlet: &mut LimitedOutlet<'_, K>,
    first: Option<Report>,
    told: Result<Told, AllocError>,
    compiled: &Compiled,
) -> Outcome
    requires front { IsPrefix (heard_of outlet.old.outlet.listing.all outlet.old.outlet.listing.sets outlet.old.left) outlet.old.outlet.listing.all }
    requires rest { IfOk told (HasRest outlet.old.outlet.listing.program first (heard_of outlet.old.outlet.listing.all outlet.old.outlet.listing.sets outlet.old.left)) }
    requires mode { IsFirstMode first }
    requires program { outlet.old.outlet.listing.program ≡ compiled.now }
    ensures same { outlet.new.outlet.sink.ghost_name ≡ outlet.old.outlet.sink.ghost_name }
    ensures ends { (a : Moment) → a.heard ≡ [] → a.failed ≡ false
        → IsAfter outlet.old.outlet.listing.program a (moment outlet.old.outlet.listing.sets (K.held outlet.old.outlet.sink.now) (K.faults outlet.old.outlet.sink.now) outlet.old.outlet.failed)
        → EndsRun told outlet.old.outlet.listing.program outlet.old.outlet.listing.all first outlet.old.models outlet.old.outlet.listing.sets outlet.old.outlet.failed outlet.old.short
        a.held (K.held outlet.new.outlet.sink.now) a.faults (K.faults outlet.new.outlet.sink.now) result }
    ensures sent { IsSentOn result.status (K.is_sent outlet.new.outlet.sink.now) }
    ensures closed { TellsClosed result.status (K.is_closed outlet.new.outlet.sink.now) }
{
    match told {
        Ok(told) => end_stream(outlet, first, told, compiled),
        Err(_) => {
            mem::drop(first);
            cut_short(&outlet.outlet)
        }
    }
}

// Leaves the sink as it is: whose it was has it again.
fn hand_back<K: Sink>(_sink: &mut K)
    ensures { _sink.new ≡ _sink.old }
{}

// One search tells all answers; after a first one that found what optima cost, with the units that it left, all optima.
fn tell<T: Teller, W: Watch, R: Reader>(
    teller: &T,
    alloc: Global,
    compiled: &Compiled,
    budget: u64,
    first: &Option<Report>,
    counts: &mut Counts,
    watch: &mut W,
    reader: &mut R,
) -> Result<Told, AllocError>
    requires teller { T.able teller.now }
    requires first { IsFirstOf compiled.now budget first.now }
    requires program { R.program reader.old ≡ compiled.now }
    requires all { R.all reader.old ≡ whole_list (mode_after first.now) compiled.now }
    requires none { R.heard reader.old ≡ [] }
    ensures told { IfOk result (TellsAfter first.now compiled.now budget (R.heard reader.new) (R.wants reader.new)) }
    ensures some { IfOk result (HasTold first.now (R.heard reader.new)) }
    ensures front { IsFrontOf compiled.now (R.all reader.old) (R.program reader.new) (R.all reader.new) (R.heard reader.new) }
    ensures after { R.IsAfter reader.old reader.new }
    ensures heard { W.IsAfter watch.old watch.new }
{
    match first {
        None => teller.tell(alloc, compiled, budget, counts, watch, reader),
        Some(first) => match &first.results.best {
            None => unreachable!(),
            Some((best, _)) => {
                let left = first.paid.left();
                stream_ties(alloc, compiled, best, left, counts, watch, reader)
            }
        },
    }
}

// One search finds all answers, or after a first search that found an optimum all optima; or the first so many. Each is written as soon
// as no smaller one can come.
fn stream<T: Teller, K: Sink, W: Watch>(
    teller: &T,
    alloc: Global,
    options: &Options,
    compiled: &Compiled,
    first: Option<Report>,
    sink: &mut K,
    counts: &mut Counts,
    watch: &mut W,
) -> Outcome
    requires teller { T.able teller.now }
    requires first { IsFirstOf compiled.now options.now.budget first }
    ensures streams { Streams compiled.now (mode_after first) options.now.budget options.now.models (K.held sink.old) (K.held sink.new) (K.faults sink.old) (K.faults sink.new) result }
    ensures sent { IsSentOn result.status (K.is_sent sink.new) }
    ensures closed { TellsClosed result.status (K.is_closed sink.new) }
    ensures heard { W.IsAfter watch.old watch.new }
{
    let mut outlet = LimitedOutlet::new(
        alloc,
        sink,
        compiled.program(),
        compiled.atoms(),
        first.is_some(),
        options.models as usize,
    );
    let told = tell(
        teller,
        alloc,
        compiled,
        options.budget,
        &first,
        counts,
        watch,
        &mut outlet,
    );
    let outcome = end_run(&mut outlet, first, told, compiled);
    let LimitedOutlet {
        outlet,
        models: _,
        left: _,
        short: _,
        alloc: _,
    } = outlet;
    let Outlet {
        sink,
        listing,
        failed: _,
    } = outlet;
    mem::drop(listing);
    hand_back(sink);
    outcome
}

// Whether a first search was finished and found an optimum.
fn has_optimum(first: &Report) -> bool
    ensures { result ≡ has_optimum first.now }
{
    match first.results.end {
        End::Finished => first.results.best.is_some(),
        End::Limited | End::Unfinished => false,
    }
}

// The layout of lines, each answer with them.
fn as_lines() -> Layout
    ensures { result ≡ as_lines }
{
    Layout {
        form: Form::Text,
        brief: false,
        names: false,
    }
}

// A first search finds what optima cost, and if it does a second one tells them. Else what the first one found is written.
fn stream_optima<T: Teller, K: Sink, W: Watch>(
    teller: &T,
    alloc: Global,
    options: &Options,
    compiled: &Compiled,
    sink: &mut K,
    counts: &mut Counts,
    watch: &mut W,
) -> Outcome
    requires teller { T.able teller.now }
    ensures streams { Streams compiled.now Opt options.now.budget options.now.models (K.held sink.old) (K.held sink.new) (K.faults sink.old) (K.faults sink.new) result }
    ensures sent { IsSentOn result.status (K.is_sent sink.new) }
    ensures closed { TellsClosed result.status (K.is_closed sink.new) }
    ensures heard { W.IsAfter watch.old watch.new }
{
    let ask = Ask {
        mode: Mode::Opt,
        models: 0,
        all_optima: false,
        by_name: false,
    };
    match solve_alone(alloc, compiled, ask, options.budget, counts, watch, None) {
        Ok(first) => {
            if has_optimum(&first) {
                stream(
                    teller,
                    alloc,
                    options,
                    compiled,
                    Some(first),
                    sink,
                    counts,
                    watch,
                )
            } else {
                deliver(alloc, sink, as_lines(), compiled.program(), first)
            }
        }
        Err(_) => failed(Status::Memory),
    }
}

// Which list is written while it is found: that of answers, or of optima.
fn stream_one<T: Teller, K: Sink, W: Watch>(
    teller: &T,
    alloc: Global,
    options: &Options,
    compiled: &Compiled,
    mode: Mode,
    sink: &mut K,
    counts: &mut Counts,
    watch: &mut W,
) -> Outcome
    requires teller { T.able teller.now }
    requires listed { is_list true mode ≡ true }
    ensures streams { Streams compiled.now mode options.now.budget options.now.models (K.held sink.old) (K.held sink.new) (K.faults sink.old) (K.faults sink.new) result }
    ensures sent { IsSentOn result.status (K.is_sent sink.new) }
    ensures closed { TellsClosed result.status (K.is_closed sink.new) }
    ensures heard { W.IsAfter watch.old watch.new }
{
    match mode {
        Mode::Enum => stream(teller, alloc, options, compiled, None, sink, counts, watch),
        Mode::Opt => stream_optima(teller, alloc, options, compiled, sink, counts, watch),
        Mode::Consequences(_) => unreachable!(),
    }
}

// The list is written while it is found, and what was done is counted.
fn stream_list<T: Teller, K: Sink, W: Watch>(
    teller: &T,
    alloc: Global,
    options: &Options,
    compiled: &Compiled,
    mode: Mode,
    sink: &mut K,
    tally: &mut Tally,
    watch: &mut W,
) -> Outcome
    requires teller { T.able teller.now }
    requires listed { is_list true mode ≡ true }
    ensures streams { Streams compiled.now mode options.now.budget options.now.models (K.held sink.old) (K.held sink.new) (K.faults sink.old) (K.faults sink.new) result }
    ensures sent { IsSentOn result.status (K.is_sent sink.new) }
    ensures closed { TellsClosed result.status (K.is_closed sink.new) }
    ensures counted { IfSome result.report (IsCounted 0 tally.new) }
    ensures heard { W.IsAfter watch.old watch.new }
{
    let mut counts = Counts::new();
    let outcome = stream_one(
        teller,
        alloc,
        options,
        compiled,
        mode,
        sink,
        &mut counts,
        watch,
    );
    let loops = loops(alloc, compiled, options.stats);
    *tally = Tally::of(compiled, loops, counts, Vec::new(alloc));
    outcome
}

/// One search solves it, or two where all optima are asked for. Where that was asked for, a list of answers or of optima is written while
/// it is found.
pub fn solve_or_stream<T: Teller, K: Sink, W: Watch>(
    teller: &T,
    alloc: Global,
    options: &Options,
    prepared: &Prepared,
    sink: &mut K,
    tally: &mut Tally,
    watch: &mut W,
) -> Outcome
    requires teller { T.able teller.now }
    requires apart { IsApart options.now }
    ensures solves { (p : Program) → prepared.now ≡ prepared_of options.now p → SolvesBy (streams options.now p) options.now p (K.held sink.old) (K.held sink.new) (K.faults sink.old) (K.faults sink.new) result }
    ensures flushed { TellsFaults (K.faults sink.old) (K.faults sink.new) result.status }
    ensures sent { IsSentOn result.status (K.is_sent sink.new) }
    ensures closed { TellsClosed result.status (K.is_closed sink.new) }
    ensures counted { IfSome result.report (IsCounted 0 tally.new) }
    ensures heard { W.IsAfter watch.old watch.new }
{
    let ask = ask_of(options, prepared.compiled.program());
    if is_streamed(options, ask.mode) {
        stream_list(
            teller,
            alloc,
            options,
            &prepared.compiled,
            ask.mode,
            sink,
            tally,
            watch,
        )
    } else {
        solve(alloc, options, prepared, sink, tally, watch)
    }
}
