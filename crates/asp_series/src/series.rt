//! A series of queries, one after another, each with the units that those before it left.
ghost use Rattle.std.specs.Prelude.{◌≡◌, ◌≤◌, ◌-◌, ◌*◌, IfErr, IfOk, OnOk, false, option_map, true, Some};
ghost use Rattle.asp_cli.specs.Found.{seeks_consequences};
ghost use Rattle.asp_read.specs.Queries.{IsSoundSeries};
ghost use Rattle.asp_series.specs.Asking.{AsksInTurn, AsksOn, CloseMeans, IsAskable, IsKeptOf, IsReply, StepMeans, answered_of, end_of, gone_on, literals_in, minimal_in, most_recorded, reply_text, searched_in, spent_in, sums_at};
ghost use Rattle.asp_faults.specs.Writing.{Writes};
ghost use Rattle.asp_series.specs.Series.{Asks, IsSentOn, TellsClosed, TellsFaults, asks_all, closing_in, is_done, opening_in, query_in};

use crate::ask::{Asking, Sought};
use crate::cores::{Core, core_of};
use crate::end::SeriesEnd;
use crate::find::{asks_all, find, whole};
use crate::solver::Solver;
use asp_cli::{Form, Options};
use asp_counts::counts::Counts;
use asp_counts::watch::Watch;
use asp_io::{Failed, Sink};
use asp_json::{Sums, print_entry, print_opening, print_sums};
use asp_model::program::Program;
use asp_model::results::{End, Mode, Results};
use asp_prepare::asked::mode_of;
use asp_prepare::prepared::Prepared;
use asp_prepare::told::has_model;
use asp_print::{Query, found_count, print_query};
use asp_query::kept::KeptSearch;
use asp_read::Series;
use asp_rows::sets::Sets;
use asp_vars::compiled::Compiled;
use std::alloc::{AllocError, Global};
use std::mem;

/// What was found of a query.
#[derive(Drop)]
pub struct Reply {
    /// What was searched, and what was found.
    pub sought: Sought,
    /// Literals that no stable model has together, where there is no answer.
    pub core: Option<Core>,
    /// The units that both took.
    pub spent: u64,
}

/// How far a series is.
#[derive(Clone, Copy)]
pub struct Course {
    /// The units that are left.
    pub left: u64,
    /// Whether a query had a model.
    pub any: bool,
    /// Whether all queries that were begun are finished.
    pub done: bool,
    /// How many answers were recorded.
    pub models: u128,
    /// How many queries were begun.
    pub calls: u64,
}

fn spent_in(core: &Option<Core>) -> u64
    ensures { result ≡ spent_in core.now }
{
    match core {
        None => 0,
        Some(core) => core.spent,
    }
}

// What is found of a query, and its core where it has no answer.
fn answer<S: Solver, W: Watch>(
    alloc: Global,
    asking: &Asking<'_, S>,
    kept: &mut Option<KeptSearch<'_>>,
    counts: &mut Counts,
    watch: &mut W,
) -> Result<Reply, AllocError>
    requires solver { S.may asking.now.solver.now }
    requires askable { IsAskable asking.now.options.now asking.now.program.now asking.now.literals.now }
    requires kept { IsKeptOf asking.now.options.now asking.now.program.now kept.old }
    ensures kept { IsKeptOf asking.now.options.now asking.now.program.now kept.new }
    ensures reply { IfOk result (IsReply asking.now.options.now asking.now.program.now asking.now.literals.now asking.now.units) }
    ensures heard { W.IsAfter watch.old watch.new }
{
    let sought = find(alloc, asking, kept, counts, watch)?;
    let rest = Asking {
        options: asking.options,
        program: asking.program,
        literals: asking.literals,
        units: asking.units - sought.report.spent,
        solver: asking.solver,
    };
    match core_of(alloc, &rest, &sought, counts, watch) {
        Ok(core) => {
            let spent = sought.report.spent + spent_in(&core);
            Ok(Reply {
                sought,
                core,
                spent,
            })
        }
        Err(error) => {
            mem::drop(sought);
            Err(error)
        }
    }
}

fn literals_of(core: &Option<Core>) -> Option<&[i32]>
    ensures { option_map (λ literals. literals.now) result ≡ literals_in core.entry.now }
{
    match core {
        None => None,
        Some(core) => Some(core.literals.as_slice()),
    }
}

fn is_minimal(core: &Option<Core>) -> bool
    ensures { result ≡ minimal_in core.now }
{
    match core {
        None => false,
        Some(core) => core.minimal,
    }
}

// Writes the text of a query's results in the form that was asked for.
fn write_query<K: Sink>(
    alloc: Global,
    options: &Options,
    program: &Program,
    query: Query<'_>,
    results: &Results<Sets>,
    sink: &mut K,
) -> Result<(), Failed>
    ensures { Writes (K.held sink.old) (K.held sink.new) (K.faults sink.old) (K.faults sink.new) result
        (query_in options.now.form options.now program.now query.entry.outputs.now query.entry.number results.now (option_map (λ core. core.now) query.entry.core) query.entry.minimal) }
{
    let brief = options.quiet;
    let names = options.names;
    match options.form {
        Form::Text => print_query(alloc, sink, program, query, results, brief, names),
        Form::Json => print_entry(alloc, sink, program, query, results, brief, names),
    }
}

// The program that was searched: what is left of this one, or where nothing was prepared itself.
fn searched_in<'a>(program: &'a Program, prepared: &'a Option<Prepared>) -> &'a Program
    ensures { result.now ≡ searched_in program.entry.now prepared.entry.now }
{
    match prepared {
        None => program,
        Some(prepared) => prepared.compiled.program(),
    }
}

// Writes the text of a query's results.
fn write_reply<K: Sink, S>(
    alloc: Global,
    asking: &Asking<'_, S>,
    number: u64,
    reply: &Reply,
    sink: &mut K,
) -> Result<(), Failed>
    ensures { Writes (K.held sink.old) (K.held sink.new) (K.faults sink.old) (K.faults sink.new) result (reply_text asking.now.options.now asking.now.program.now number reply.now) }
{
    let query = Query {
        number,
        core: literals_of(&reply.core),
        minimal: is_minimal(&reply.core),
        outputs: &asking.program.outputs,
    };
    write_query(
        alloc,
        asking.options,
        searched_in(asking.program, &reply.sought.prepared),
        query,
        &reply.sought.report.results,
        sink,
    )
}

// Writes the text of a query's results, and flushes the sink.
fn tell<K: Sink, S>(
    alloc: Global,
    asking: &Asking<'_, S>,
    number: u64,
    reply: &Reply,
    sink: &mut K,
) -> Result<(), Failed>
    ensures writes { Writes (K.held sink.old) (K.held sink.new) (K.faults sink.old) (K.faults sink.new) result (reply_text asking.now.options.now asking.now.program.now number reply.now) }
    ensures sent { OnOk result (K.is_sent sink.new ≡ true) }
{
    write_reply(alloc, asking, number, reply, sink)?;
    sink.flush()
}

fn is_done(end: End) -> bool
    ensures { result ≡ is_done end }
{
    match end {
        End::Finished => true,
        End::Limited | End::Unfinished => false,
    }
}

// How far a series is after the query with this number was answered.
fn gone_on(course: Course, number: u64, reply: &Reply) -> Course
    requires paid { reply.now.spent ≤ course.left }
    requires few { course.models ≤ (number - 1) * most_recorded }
    requires first { 1 ≤ number }
    ensures gone { result ≡ gone_on course number (answered_of reply.now) }
    ensures few { result.models ≤ number * most_recorded }
{
    let results = &reply.sought.report.results;
    let found = found_count(results);
    Course {
        left: course.left - reply.spent,
        any: course.any || has_model(results),
        done: is_done(results.end),
        models: course.models + found as u128,
        calls: number,
    }
}

// Writes what was found of a query, and says what follows.
fn hand_over<K: Sink, S>(
    alloc: Global,
    asking: &Asking<'_, S>,
    number: u64,
    course: Course,
    reply: &Reply,
    sink: &mut K,
) -> Result<Course, SeriesEnd>
    requires plain { seeks_consequences (Some asking.now.options.now.mode) ≡ false }
    requires reply { IsReply asking.now.options.now asking.now.program.now asking.now.literals.now course.left reply.now }
    requires few { course.models ≤ (number - 1) * most_recorded }
    requires first { 1 ≤ number }
    ensures few { IfOk result (λ d. d.models ≤ number * most_recorded) }
    ensures means { StepMeans asking.now.options.now asking.now.program.now asking.now.literals.now number course (K.held sink.old) (K.held sink.new) (K.faults sink.old) (K.faults sink.new) result }
    ensures sent_on { OnOk result (K.is_sent sink.new ≡ true) }
    ensures sent { IfErr result (λ s. IsSentOn s (K.is_sent sink.new)) }
    ensures closed { IfErr result (λ s. TellsClosed s (K.is_closed sink.new)) }
{
    match tell(alloc, asking, number, reply, sink) {
        Ok(()) => Ok(gone_on(course, number, reply)),
        Err(Failed) => Err(SeriesEnd::WriteFault(sink.is_closed())),
    }
}

// Asks one query. What was found is written, and sent on, before the next begins.
fn step<K: Sink, S: Solver, W: Watch>(
    alloc: Global,
    asking: &Asking<'_, S>,
    kept: &mut Option<KeptSearch<'_>>,
    number: u64,
    course: Course,
    sink: &mut K,
    counts: &mut Counts,
    watch: &mut W,
) -> Result<Course, SeriesEnd>
    requires solver { S.may asking.now.solver.now }
    requires askable { IsAskable asking.now.options.now asking.now.program.now asking.now.literals.now }
    requires kept { IsKeptOf asking.now.options.now asking.now.program.now kept.old }
    requires units { course.left ≡ asking.now.units }
    requires few { course.models ≤ (number - 1) * most_recorded }
    requires first { 1 ≤ number }
    ensures kept { IsKeptOf asking.now.options.now asking.now.program.now kept.new }
    ensures few { IfOk result (λ d. d.models ≤ number * most_recorded) }
    ensures means { StepMeans asking.now.options.now asking.now.program.now asking.now.literals.now number course (K.held sink.old) (K.held sink.new) (K.faults sink.old) (K.faults sink.new) result }
    ensures sent_on { OnOk result (K.is_sent sink.new ≡ true) }
    ensures sent { IfErr result (λ s. IsSentOn s (K.is_sent sink.new)) }
    ensures closed { IfErr result (λ s. TellsClosed s (K.is_closed sink.new)) }
    ensures heard { W.IsAfter watch.old watch.new }
{
    counts.query = number;
    match answer(alloc, asking, kept, counts, watch) {
        Ok(reply) => {
            let next = hand_over(alloc, asking, number, course, &reply, sink);
            mem::drop(reply);
            watch.end_query(counts);
            next
        }
        Err(_) => Err(SeriesEnd::Memory),
    }
}

// Asks the queries, one after another, up to one that isn't finished.
fn ask_in_turn<K: Sink, S: Solver, W: Watch>(
    alloc: Global,
    solver: &S,
    options: &Options,
    series: &Series,
    kept: &mut Option<KeptSearch<'_>>,
    sink: &mut K,
    counts: &mut Counts,
    watch: &mut W,
) -> Result<Course, SeriesEnd>
    requires solver { S.may solver.now }
    requires plain { seeks_consequences (Some options.now.mode) ≡ false }
    requires sound { IsSoundSeries series.now }
    requires kept { IsKeptOf options.now series.now.program kept.old }
    ensures asks { AsksInTurn options.now series.now (K.held sink.old) (K.held sink.new) (K.faults sink.old) (K.faults sink.new) (K.is_closed sink.new) result }
    ensures heard { W.IsAfter watch.old watch.new }
{
    let mut course = Course {
        left: options.budget,
        any: false,
        done: true,
        models: 0,
        calls: 0,
    };
    let queries = series.queries.as_slice();
    for i in 0..queries.len() {
        let asking = Asking {
            options,
            program: &series.program,
            literals: queries[i].as_slice(),
            units: course.left,
            solver,
        };
        match step(
            alloc,
            &asking,
            kept,
            i as u64 + 1,
            course,
            sink,
            counts,
            watch,
        ) {
            Ok(next) => {
                if next.done {
                    course = next;
                } else {
                    return Ok(next);
                }
            }
            Err(end) => return Err(end),
        }
    }
    Ok(course)
}

// The same by one search of the whole program, which is kept.
fn ask_whole<K: Sink, S: Solver, W: Watch>(
    alloc: Global,
    solver: &S,
    options: &Options,
    series: &Series,
    compiled: &Compiled,
    sink: &mut K,
    counts: &mut Counts,
    watch: &mut W,
) -> Result<Course, SeriesEnd>
    requires solver { S.may solver.now }
    requires plain { seeks_consequences (Some options.now.mode) ≡ false }
    requires sound { IsSoundSeries series.now }
    requires all { asks_all options.now series.now.program ≡ true }
    requires whole { compiled.now ≡ series.now.program }
    ensures asks { AsksInTurn options.now series.now (K.held sink.old) (K.held sink.new) (K.faults sink.old) (K.faults sink.new) (K.is_closed sink.new) result }
    ensures heard { W.IsAfter watch.old watch.new }
{
    let mut kept = Some(KeptSearch::new(alloc, compiled, solver.patience(compiled)));
    let course = ask_in_turn(
        alloc, solver, options, series, &mut kept, sink, counts, watch,
    );
    mem::drop(kept);
    course
}

// The same, each from scratch.
fn ask_anew<K: Sink, S: Solver, W: Watch>(
    alloc: Global,
    solver: &S,
    options: &Options,
    series: &Series,
    sink: &mut K,
    counts: &mut Counts,
    watch: &mut W,
) -> Result<Course, SeriesEnd>
    requires solver { S.may solver.now }
    requires plain { seeks_consequences (Some options.now.mode) ≡ false }
    requires sound { IsSoundSeries series.now }
    ensures asks { AsksInTurn options.now series.now (K.held sink.old) (K.held sink.new) (K.faults sink.old) (K.faults sink.new) (K.is_closed sink.new) result }
    ensures heard { W.IsAfter watch.old watch.new }
{
    let mut none = None;
    let course = ask_in_turn(
        alloc, solver, options, series, &mut none, sink, counts, watch,
    );
    mem::drop(none);
    course
}

// Asks the queries. Where all answers are asked for one search is kept over them.
fn ask_each<K: Sink, S: Solver, W: Watch>(
    alloc: Global,
    solver: &S,
    options: &Options,
    series: &Series,
    sink: &mut K,
    counts: &mut Counts,
    watch: &mut W,
) -> Result<Course, SeriesEnd>
    requires solver { S.may solver.now }
    requires plain { seeks_consequences (Some options.now.mode) ≡ false }
    requires sound { IsSoundSeries series.now }
    ensures asks { AsksInTurn options.now series.now (K.held sink.old) (K.held sink.new) (K.faults sink.old) (K.faults sink.new) (K.is_closed sink.new) result }
    ensures heard { W.IsAfter watch.old watch.new }
{
    if !asks_all(options, &series.program) {
        return ask_anew(alloc, solver, options, series, sink, counts, watch);
    }
    match whole(alloc, &series.program) {
        Ok(compiled) => {
            let course = ask_whole(
                alloc, solver, options, series, &compiled, sink, counts, watch,
            );
            mem::drop(compiled);
            course
        }
        Err(_) => Err(SeriesEnd::Memory),
    }
}

// The end of a series that is so far.
fn end_of(course: Course) -> SeriesEnd
    ensures { result ≡ end_of course.done course.any }
{
    match (course.done, course.any) {
        (true, true) => SeriesEnd::All,
        (true, false) => SeriesEnd::NoModel,
        (false, true) => SeriesEnd::Partial,
        (false, false) => SeriesEnd::Unknown,
    }
}

// What is said of the queries together.
fn sums_at(mode: Mode, course: Course) -> Sums
    ensures { result ≡ sums_at mode course }
{
    Sums {
        end: if course.done {
            End::Finished
        } else {
            End::Unfinished
        },
        mode,
        models: course.models,
        calls: course.calls,
    }
}

// Writes what stands before the text of the first query.
fn write_opening<K: Sink>(form: Form, sink: &mut K) -> Result<(), Failed>
    ensures { Writes (K.held sink.old) (K.held sink.new) (K.faults sink.old) (K.faults sink.new) result (opening_in form) }
{
    match form {
        Form::Text => Ok(()),
        Form::Json => print_opening(sink),
    }
}

// Writes what stands after the text of the last query.
fn write_closing<K: Sink>(form: Form, sums: &Sums, sink: &mut K) -> Result<(), Failed>
    ensures { Writes (K.held sink.old) (K.held sink.new) (K.faults sink.old) (K.faults sink.new) result (closing_in form sums.now) }
{
    match form {
        Form::Text => Ok(()),
        Form::Json => print_sums(sink, sums),
    }
}

// The same, and flushes the sink.
fn tell_closing<K: Sink>(form: Form, sums: &Sums, sink: &mut K) -> Result<(), Failed>
    ensures writes { Writes (K.held sink.old) (K.held sink.new) (K.faults sink.old) (K.faults sink.new) result (closing_in form sums.now) }
    ensures sent { OnOk result (K.is_sent sink.new ≡ true) }
{
    write_closing(form, sums, sink)?;
    sink.flush()
}

// Writes what stands after the text of the last query, and says how the series ended.
fn close<K: Sink>(form: Form, mode: Mode, course: Course, sink: &mut K) -> SeriesEnd
    ensures means { CloseMeans form mode course (K.held sink.old) (K.held sink.new) (K.faults sink.old) (K.faults sink.new) result }
    ensures later { K.faults sink.old ≤ K.faults sink.new }
    ensures sent { IsSentOn result (K.is_sent sink.new) }
    ensures closed { TellsClosed result (K.is_closed sink.new) }
{
    match tell_closing(form, &sums_at(mode, course), sink) {
        Ok(()) => end_of(course),
        Err(Failed) => SeriesEnd::WriteFault(sink.is_closed()),
    }
}

// Asks the queries, one after another, and writes what stands after the last one's text.
fn ask_and_close<K: Sink, S: Solver, W: Watch>(
    alloc: Global,
    solver: &S,
    options: &Options,
    series: &Series,
    sink: &mut K,
    counts: &mut Counts,
    watch: &mut W,
) -> SeriesEnd
    requires solver { S.may solver.now }
    requires plain { seeks_consequences (Some options.now.mode) ≡ false }
    requires sound { IsSoundSeries series.now }
    ensures asks { AsksOn options.now series.now (K.held sink.old) (K.held sink.new) (K.faults sink.old) (K.faults sink.new) result }
    ensures sent { IsSentOn result (K.is_sent sink.new) }
    ensures closed { TellsClosed result (K.is_closed sink.new) }
    ensures heard { W.IsAfter watch.old watch.new }
{
    match ask_each(alloc, solver, options, series, sink, counts, watch) {
        Ok(course) => {
            watch.end_series();
            close(
                options.form,
                mode_of(options.mode, &series.program),
                course,
                sink,
            )
        }
        Err(status) => status,
    }
}

/// Asks the queries of a series, one after another, and says how that ended. What was found of a query is written, and sent on, before
/// the next begins.
pub fn ask_all<K: Sink, S: Solver, W: Watch>(
    alloc: Global,
    solver: &S,
    options: &Options,
    series: &Series,
    sink: &mut K,
    counts: &mut Counts,
    watch: &mut W,
) -> SeriesEnd
    requires solver { S.may solver.now }
    requires plain { seeks_consequences (Some options.now.mode) ≡ false }
    requires sound { IsSoundSeries series.now }
    ensures asks { Asks options.now series.now (K.held sink.old) (K.held sink.new) (K.faults sink.old) (K.faults sink.new) result }
    ensures flushed { TellsFaults (K.faults sink.old) (K.faults sink.new) result }
    ensures sent { IsSentOn result (K.is_sent sink.new) }
    ensures closed { TellsClosed result (K.is_closed sink.new) }
    ensures heard { W.IsAfter watch.old watch.new }
{
    match write_opening(options.form, sink) {
        Ok(()) => ask_and_close(alloc, solver, options, series, sink, counts, watch),
        Err(Failed) => SeriesEnd::WriteFault(sink.is_closed()),
    }
}
