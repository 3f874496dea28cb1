//! The line on the notes for each status, and the counts of a run.
ghost use Rattle.std.specs.Prelude.{◌≡◌, ◌++◌, codes, decimal};
ghost use Rattle.asp_buffer.specs.Out.{Puts, out};
ghost use Rattle.asp_top.specs.Counts.{loop_items, program_items, report_items, search_items};
ghost use Rattle.asp_top.specs.Notes.{asked_text, counts_if, counts_of, crew_text, idle_of, idle_text, is_answered, is_idle_crew, is_idle_limit, is_idle_request, is_idle_row, is_idle_stream, is_in_parts, is_list, is_optimum, is_streamed, items_text, later_notes, limit_text, lists_lines, loops_text, note_of, notes_of, optima_text, program_text, row_text, sought_text, stats_of, stream_text, threads_text, worker_text, workers_text};
ghost use Rattle.asp_faults.specs.Writing.{IsNoted, Writes};

use crate::counts::{
    Tally, loop_items, program_items, put_items, report_items, search_items, worker_items,
};
use crate::status::{Outcome, Status};
use crate::teller::UNLIMITED;
use crate::usage::write_usage;
use asp_buffer::{Waiting, flush, put};
use asp_cli::{Form, Options};
use asp_counts::counts::Counts;
use asp_counts::tallies::WorkerCounts;
use asp_crew::report::Report;
use asp_faults::{write, write_both, write_fault};
use asp_io::{Failed, Sink};
use asp_model::results::Mode;
use asp_read::fault::Fault;
use itoa::Buffer;

fn write_line<N: Sink>(notes: &mut N, line: u32) -> Result<(), Failed>
    ensures { Writes (N.held notes.old) (N.held notes.new) (N.faults notes.old) (N.faults notes.new)
        result (codes "aspenum: line " ++ decimal line) }
{
    write_both(
        notes,
        b"aspenum: line ",
        Buffer::new().format(line).as_bytes(),
    )
}

fn write_refused<N: Sink>(notes: &mut N, fault: Fault, line: u32) -> Result<(), Failed>
    ensures { Writes (N.held notes.old) (N.held notes.new) (N.faults notes.old) (N.faults notes.new)
        result (note_of (Status.Refused fault line)) }
{
    write_line(notes, line)?;
    write_fault(notes, fault)?;
    write(notes, b"\n")
}

fn write_not_text<N: Sink>(notes: &mut N) -> Result<(), Failed>
    ensures { Writes (N.held notes.old) (N.held notes.new) (N.faults notes.old) (N.faults notes.new)
        result (note_of Status.Usage) }
{
    write(notes, b"aspenum: an argument is not UTF-8")?;
    write_usage(notes)
}

fn write_unnamed<N: Sink>(notes: &mut N) -> Result<(), Failed>
    ensures { Writes (N.held notes.old) (N.held notes.new) (N.faults notes.old) (N.faults notes.new)
        result (note_of Status.Unnamed) }
{
    write(
        notes,
        b"aspenum: consequences can't be told by name: the numbers of atoms are too great\n",
    )
}

fn write_note<N: Sink>(notes: &mut N, status: Status) -> Result<(), Failed>
    ensures { Writes (N.held notes.old) (N.held notes.new) (N.faults notes.old) (N.faults notes.new)
        result (note_of status) }
{
    match status {
        Status::All
        | Status::NoModel
        | Status::Partial
        | Status::Unknown
        | Status::Enough
        | Status::Help
        | Status::Parts
        | Status::WriteFault(true) => write(notes, b""),
        Status::Memory => write(notes, b"aspenum: out of memory\n"),
        Status::Usage => write_not_text(notes),
        Status::Refused(fault, line) => write_refused(notes, fault, line),
        Status::ReadFault => write(notes, b"aspenum: read failed\n"),
        Status::TooLong => write(notes, b"aspenum: input too long\n"),
        Status::Unnamed => write_unnamed(notes),
        Status::WriteFault(false) => write(notes, b"aspenum: write failed\n"),
    }
}

// Whether results or parts were written.
fn is_answered(status: Status) -> bool
    ensures { result ≡ is_answered status }
{
    match status {
        Status::All
        | Status::NoModel
        | Status::Partial
        | Status::Unknown
        | Status::Enough
        | Status::Parts => true,
        _ => false,
    }
}

fn put_report<N: Sink>(
    notes: &mut N,
    waiting: &mut Waiting,
    report: &Report,
    counts: &Counts,
) -> Result<(), Failed>
    ensures { Puts (out (N.held notes.old) (N.faults notes.old) waiting.old)
        (out (N.held notes.new) (N.faults notes.new) waiting.new) result (items_text (report_items report.now counts.now)) }
{
    let items = report_items(report, counts);
    put_items(notes, waiting, &items)
}

fn put_search<N: Sink>(notes: &mut N, waiting: &mut Waiting, counts: &Counts) -> Result<(), Failed>
    ensures { Puts (out (N.held notes.old) (N.faults notes.old) waiting.old)
        (out (N.held notes.new) (N.faults notes.new) waiting.new) result (items_text (search_items counts.now)) }
{
    let items = search_items(counts);
    put_items(notes, waiting, &items)
}

fn put_worker<N: Sink>(
    notes: &mut N,
    waiting: &mut Waiting,
    worker: &WorkerCounts,
) -> Result<(), Failed>
    ensures { Puts (out (N.held notes.old) (N.faults notes.old) waiting.old)
        (out (N.held notes.new) (N.faults notes.new) waiting.new) result (worker_text worker.now) }
{
    let items = worker_items(worker);
    put_items(notes, waiting, &items)
}

fn put_workers<N: Sink>(
    notes: &mut N,
    waiting: &mut Waiting,
    workers: &[WorkerCounts],
) -> Result<(), Failed>
    ensures { Puts (out (N.held notes.old) (N.faults notes.old) waiting.old)
        (out (N.held notes.new) (N.faults notes.new) waiting.new) result (workers_text workers.now) }
{
    for worker in workers {
        put_worker(notes, waiting, worker)?;
    }
    Ok(())
}

fn put_loops<N: Sink>(
    notes: &mut N,
    waiting: &mut Waiting,
    loops: Option<u64>,
) -> Result<(), Failed>
    ensures { Puts (out (N.held notes.old) (N.faults notes.old) waiting.old)
        (out (N.held notes.new) (N.faults notes.new) waiting.new) result (loops_text loops) }
{
    match loops {
        None => put(notes, waiting, b""),
        Some(loops) => {
            let items = loop_items(loops);
            put_items(notes, waiting, &items)
        }
    }
}

fn put_program<N: Sink>(notes: &mut N, waiting: &mut Waiting, tally: &Tally) -> Result<(), Failed>
    ensures { Puts (out (N.held notes.old) (N.faults notes.old) waiting.old)
        (out (N.held notes.new) (N.faults notes.new) waiting.new) result (program_text tally.now) }
{
    let items = program_items(tally);
    put_items(notes, waiting, &items)?;
    put_loops(notes, waiting, tally.loops)
}

fn put_counts<N: Sink>(
    notes: &mut N,
    waiting: &mut Waiting,
    report: &Report,
    tally: &Tally,
) -> Result<(), Failed>
    ensures { Puts (out (N.held notes.old) (N.faults notes.old) waiting.old)
        (out (N.held notes.new) (N.faults notes.new) waiting.new) result (stats_of tally.now report.now) }
{
    put_report(notes, waiting, report, &tally.search)?;
    put_search(notes, waiting, &tally.search)?;
    put_workers(notes, waiting, tally.workers.as_slice())?;
    put_program(notes, waiting, tally)?;
    put(notes, waiting, b"\n")
}

fn write_counts<N: Sink>(notes: &mut N, tally: &Tally, report: &Report) -> Result<(), Failed>
    ensures { Writes (N.held notes.old) (N.held notes.new) (N.faults notes.old) (N.faults notes.new)
        result (stats_of tally.now report.now) }
{
    let mut waiting = Waiting::new();
    put_counts(notes, &mut waiting, report, tally)?;
    flush(notes, &mut waiting)
}

fn write_report<N: Sink>(
    notes: &mut N,
    tally: &Tally,
    report: &Option<Report>,
) -> Result<(), Failed>
    ensures { Writes (N.held notes.old) (N.held notes.new) (N.faults notes.old) (N.faults notes.new)
        result (counts_of tally.now report.now) }
{
    match report {
        Some(report) => write_counts(notes, tally, report),
        None => write(notes, b""),
    }
}

fn write_counts_if<N: Sink>(
    notes: &mut N,
    stats: bool,
    tally: &Tally,
    outcome: &Outcome,
) -> Result<(), Failed>
    ensures { Writes (N.held notes.old) (N.held notes.new) (N.faults notes.old) (N.faults notes.new)
        result (counts_if stats tally.now outcome.now) }
{
    if stats && is_answered(outcome.status) {
        write_report(notes, tally, &outcome.report)
    } else {
        write(notes, b"")
    }
}

/// Whether a list of answers was sought, which a limit can end.
pub fn is_list(all_optima: bool, mode: Mode) -> bool
    ensures { result ≡ is_list all_optima mode }
{
    match mode {
        Mode::Enum => true,
        Mode::Opt => all_optima,
        Mode::Consequences(_) => false,
    }
}

fn is_optimum(mode: Mode) -> bool
    ensures { result ≡ is_optimum mode }
{
    match mode {
        Mode::Opt => true,
        _ => false,
    }
}

// A limit of answers where no list of them was sought.
fn is_idle_limit(options: &Options, mode: Mode) -> bool
    ensures { result ≡ is_idle_limit options.now mode }
{
    options.models != 0 && !is_list(options.all_optima, mode)
}

// All optima where no optimum was sought.
fn is_idle_request(options: &Options, mode: Mode) -> bool
    ensures { result ≡ is_idle_request options.now mode }
{
    options.all_optima && !is_optimum(mode)
}

fn write_limit<N: Sink>(notes: &mut N, options: &Options, mode: Mode) -> Result<(), Failed>
    ensures { Writes (N.held notes.old) (N.held notes.new) (N.faults notes.old) (N.faults notes.new)
        result (limit_text options.now mode) }
{
    if is_idle_limit(options, mode) {
        write(
            notes,
            b"aspenum: --models has no effect: no list of answers is sought\n",
        )
    } else {
        write(notes, b"")
    }
}

fn write_optima<N: Sink>(notes: &mut N, options: &Options, mode: Mode) -> Result<(), Failed>
    ensures { Writes (N.held notes.old) (N.held notes.new) (N.faults notes.old) (N.faults notes.new)
        result (optima_text options.now mode) }
{
    if is_idle_request(options, mode) {
        write(
            notes,
            b"aspenum: --opt-all has no effect: no optimum is sought\n",
        )
    } else {
        write(notes, b"")
    }
}

/// Whether answers are written as lines, where they are listed.
pub fn lists_lines(options: &Options) -> bool
    ensures { result ≡ lists_lines options.now }
{
    match options.form {
        Form::Text => {
            !(options.make.is_some() || options.quiet)
                && !(options.proof || options.split.is_some())
        }
        Form::Json => false,
    }
}

/// Whether answers are written while they are found: where that was asked for, and answers are listed as lines.
pub fn is_streamed(options: &Options, mode: Mode) -> bool
    ensures { result ≡ is_streamed options.now mode }
{
    options.stream && is_list(options.all_optima, mode) && lists_lines(options)
}

fn is_idle_stream(options: &Options, mode: Mode) -> bool
    ensures { result ≡ is_idle_stream options.now mode }
{
    options.stream && !is_streamed(options, mode)
}

fn write_stream<N: Sink>(notes: &mut N, options: &Options, mode: Mode) -> Result<(), Failed>
    ensures { Writes (N.held notes.old) (N.held notes.new) (N.faults notes.old) (N.faults notes.new)
        result (stream_text options.now mode) }
{
    if is_idle_stream(options, mode) {
        write(
            notes,
            b"aspenum: --stream has no effect: no list of answers is written as lines\n",
        )
    } else {
        write(notes, b"")
    }
}

// A row of slots where one thread searched, or several that share no nogoods.
fn is_idle_row(options: &Options) -> bool
    ensures { result ≡ is_idle_row options.now }
{
    (options.workers == 1 || options.stream) && options.log.is_row()
}

fn write_row<N: Sink>(notes: &mut N, options: &Options) -> Result<(), Failed>
    ensures { Writes (N.held notes.old) (N.held notes.new) (N.faults notes.old) (N.faults notes.new)
        result (row_text options.now) }
{
    if is_idle_row(options) {
        write(
            notes,
            b"aspenum: --log has no effect: no nogoods are shared\n",
        )
    } else {
        write(notes, b"")
    }
}

// Whether a list of answers is told by as many searches as there are workers: where no budget is given, since these burn no unit.
fn is_in_parts(options: &Options, mode: Mode) -> bool
    ensures { result ≡ is_in_parts options.now mode }
{
    is_streamed(options, mode) && !is_optimum(mode) && options.budget == UNLIMITED
}

// Several workers where one thread searched.
fn is_idle_crew(options: &Options, mode: Mode) -> bool
    ensures { result ≡ is_idle_crew options.now mode }
{
    options.stream && options.workers != 1 && !is_in_parts(options, mode)
}

fn write_crew<N: Sink>(notes: &mut N, options: &Options, mode: Mode) -> Result<(), Failed>
    ensures { Writes (N.held notes.old) (N.held notes.new) (N.faults notes.old) (N.faults notes.new)
        result (crew_text options.now mode) }
{
    if is_idle_crew(options, mode) {
        write(
            notes,
            b"aspenum: --workers has no effect: --stream searches with one thread\n",
        )
    } else {
        write(notes, b"")
    }
}

fn write_threads<N: Sink>(notes: &mut N, options: &Options, mode: Mode) -> Result<(), Failed>
    ensures { Writes (N.held notes.old) (N.held notes.new) (N.faults notes.old) (N.faults notes.new)
        result (threads_text options.now mode) }
{
    write_row(notes, options)?;
    write_crew(notes, options, mode)
}

fn write_asked<N: Sink>(notes: &mut N, options: &Options, mode: Mode) -> Result<(), Failed>
    ensures { Writes (N.held notes.old) (N.held notes.new) (N.faults notes.old) (N.faults notes.new)
        result (asked_text options.now mode) }
{
    write_limit(notes, options, mode)?;
    write_optima(notes, options, mode)
}

fn write_sought<N: Sink>(notes: &mut N, options: &Options, mode: Mode) -> Result<(), Failed>
    ensures { Writes (N.held notes.old) (N.held notes.new) (N.faults notes.old) (N.faults notes.new)
        result (sought_text options.now mode) }
{
    write_asked(notes, options, mode)?;
    write_stream(notes, options, mode)
}

// Writes the lines for options that had no effect in this mode.
fn write_idle<N: Sink>(notes: &mut N, options: &Options, mode: Mode) -> Result<(), Failed>
    ensures { Writes (N.held notes.old) (N.held notes.new) (N.faults notes.old) (N.faults notes.new)
        result (idle_text options.now mode) }
{
    write_sought(notes, options, mode)?;
    write_threads(notes, options, mode)
}

fn write_idle_of<N: Sink>(
    notes: &mut N,
    options: &Options,
    report: &Option<Report>,
) -> Result<(), Failed>
    ensures { Writes (N.held notes.old) (N.held notes.new) (N.faults notes.old) (N.faults notes.new)
        result (idle_of options.now report.now) }
{
    match report {
        Some(report) => write_idle(notes, options, report.results.mode),
        None => write(notes, b""),
    }
}

fn write_later<N: Sink>(
    notes: &mut N,
    options: &Options,
    tally: &Tally,
    outcome: &Outcome,
) -> Result<(), Failed>
    ensures { Writes (N.held notes.old) (N.held notes.new) (N.faults notes.old) (N.faults notes.new)
        result (later_notes options.now tally.now outcome.now) }
{
    write_idle_of(notes, options, &outcome.report)?;
    write_counts_if(notes, options.stats, tally, outcome)
}

fn write_notes<N: Sink>(
    notes: &mut N,
    options: &Options,
    tally: &Tally,
    outcome: &Outcome,
) -> Result<(), Failed>
    ensures { Writes (N.held notes.old) (N.held notes.new) (N.faults notes.old) (N.faults notes.new)
        result (notes_of options.now tally.now outcome.now) }
{
    write_note(notes, outcome.status)?;
    write_later(notes, options, tally, outcome)
}

/// Writes the line for an outcome's status, the lines for options that had no effect, and the counts where they are asked
/// for. That the notes fail changes nothing.
pub fn note<N: Sink>(notes: &mut N, options: &Options, tally: &Tally, outcome: &Outcome)
    ensures { IsNoted (N.held notes.old) (N.held notes.new) (N.faults notes.old) (N.faults notes.new)
        (notes_of options.now tally.now outcome.now) }
{
    let _ = write_notes(notes, options, tally, outcome);
}

/// Writes the line for a status where nothing was solved. That the notes fail changes nothing.
pub fn note_status<N: Sink>(notes: &mut N, status: Status)
    ensures { IsNoted (N.held notes.old) (N.held notes.new) (N.faults notes.old) (N.faults notes.new) (note_of status) }
{
    let _ = write_note(notes, status);
}
