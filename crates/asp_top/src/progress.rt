//! Lines on the notes while a run goes on.
ghost use Rattle.std.specs.Prelude.{◌≡◌, ◌<◌, None, Some, IsTrue, false, true};
ghost use Rattle.std.specs.Option.{option_copied};
ghost use Rattle.std.specs.Prelude.{Option};
ghost use Rattle.asp_model.specs.declared.program.Program.{Program};
ghost use Rattle.asp_buffer.specs.Out.{Puts, out};
ghost use Rattle.asp_top.specs.Held.{IsMuch, row_in};
ghost use Rattle.asp_top.specs.Notes.{notes_of};
ghost use Rattle.asp_faults.specs.Writing.{Writes};
ghost use Rattle.asp_top.specs.Progress.{IsMore, best_text, cost_in, end_of, line_of, nothing, part_text, query_text, scope, tells_parts};
ghost use Rattle.asp_top.specs.Telling.{EndsWith, Tells, point};

use crate::better::{new_row, write_told};
use crate::counts::{Tally, part_items, put_items, search_items, told_items};
use crate::held::{is_much, row_in, write_held};
use crate::notes::note;
use crate::status::Outcome;
use asp_buffer::{Waiting, flush, put, put_number};
use asp_cli::Options;
use asp_counts::counts::Counts;
use asp_counts::watch::{Best, Watch};
use asp_io::{Failed, Sink};
use asp_model::cost::Cost;
use asp_print::put_sums;
use asp_vars::compiled::Compiled;
use std::alloc::Global;

fn put_cost<N: Sink>(notes: &mut N, waiting: &mut Waiting, cost: &Cost) -> Result<(), Failed>
    ensures { Puts (out (N.held notes.old) (N.faults notes.old) waiting.old)
        (out (N.held notes.new) (N.faults notes.new) waiting.new) result (best_text (Some cost.now)) }
{
    put(notes, waiting, b", best")?;
    put_sums(notes, waiting, cost.as_slice())
}

// The cost of the best answer, where there is one, behind the counts.
fn put_best<N: Sink>(
    notes: &mut N,
    waiting: &mut Waiting,
    best: Option<&Cost>,
) -> Result<(), Failed>
    ensures { Puts (out (N.held notes.old) (N.faults notes.old) waiting.old)
        (out (N.held notes.new) (N.faults notes.new) waiting.new) result (best_text (option_copied best.entry)) }
{
    match best {
        None => put(notes, waiting, b""),
        Some(cost) => put_cost(notes, waiting, cost),
    }
}

fn put_query<N: Sink>(notes: &mut N, waiting: &mut Waiting, query: u64) -> Result<(), Failed>
    ensures { Puts (out (N.held notes.old) (N.faults notes.old) waiting.old)
        (out (N.held notes.new) (N.faults notes.new) waiting.new) result (query_text query) }
{
    put(notes, waiting, b", query ")?;
    put_number(notes, waiting, query)?;
    put(notes, waiting, b"\n")
}

// The end of a line, which names the query of a series.
fn put_end<N: Sink>(notes: &mut N, waiting: &mut Waiting, query: u64) -> Result<(), Failed>
    ensures { Puts (out (N.held notes.old) (N.faults notes.old) waiting.old)
        (out (N.held notes.new) (N.faults notes.new) waiting.new) result (end_of query) }
{
    if query == 0 {
        put(notes, waiting, b"\n")
    } else {
        put_query(notes, waiting, query)
    }
}

fn put_line<N: Sink>(
    notes: &mut N,
    waiting: &mut Waiting,
    counts: &Counts,
    best: Option<&Cost>,
) -> Result<(), Failed>
    ensures { Puts (out (N.held notes.old) (N.faults notes.old) waiting.old)
        (out (N.held notes.new) (N.faults notes.new) waiting.new) result
        (line_of (record { counts = counts.now; best = option_copied best.entry; shown = None })) }
{
    let items = told_items(counts);
    put_items(notes, waiting, &items)?;
    put_best(notes, waiting, best)?;
    put_end(notes, waiting, counts.query)
}

/// Writes a line.
pub fn write_line<N: Sink>(
    notes: &mut N,
    counts: &Counts,
    best: Option<&Cost>,
) -> Result<(), Failed>
    ensures { Writes (N.held notes.old) (N.held notes.new) (N.faults notes.old) (N.faults notes.new) result
        (line_of (record { counts = counts.now; best = option_copied best.entry; shown = None })) }
{
    let mut waiting = Waiting::new();
    put_line(notes, &mut waiting, counts, best)?;
    flush(notes, &mut waiting)
}

fn put_part<N: Sink>(
    notes: &mut N,
    waiting: &mut Waiting,
    counts: &Counts,
    all: bool,
) -> Result<(), Failed>
    ensures { Puts (out (N.held notes.old) (N.faults notes.old) waiting.old)
        (out (N.held notes.new) (N.faults notes.new) waiting.new) result (part_text (record { all = all; counts = counts.now })) }
{
    let first = part_items(all, counts);
    put_items(notes, waiting, &first)?;
    let others = search_items(counts);
    put_items(notes, waiting, &others)?;
    put(notes, waiting, b"\n")
}

fn write_part<N: Sink>(notes: &mut N, counts: &Counts, all: bool) -> Result<(), Failed>
    ensures { Writes (N.held notes.old) (N.held notes.new) (N.faults notes.old) (N.faults notes.new) result
        (part_text (record { all = all; counts = counts.now })) }
{
    let mut waiting = Waiting::new();
    put_part(notes, &mut waiting, counts, all)?;
    flush(notes, &mut waiting)
}

// How many more make a line due: as many as there were at the last one, or one where each counts alone.
fn due_by(last: u64, alone: bool) -> u64
    ensures { 0 < result }
{
    if alone { 1 } else { last.max(1) }
}

// What the best answer costs, if there is one.
fn cost_of<'a>(best: Option<Best<'a>>) -> Option<&'a Cost>
    ensures { option_copied result ≡ cost_in best.entry }
{
    match best {
        None => None,
        Some(best) => Some(best.cost),
    }
}

// Whether there is more to tell than at the last line: the conflicts have doubled since, or the answers have; a cheaper one
// counts alone.
fn is_more(last: &Counts, counts: &Counts, cheaper: bool) -> bool
    ensures { IsTrue result → IsMore last.now counts.now }
{
    if counts.conflicts < last.conflicts || counts.answers < last.answers {
        return false;
    }
    if counts.conflicts - last.conflicts >= due_by(last.conflicts, false) {
        return true;
    }
    counts.answers - last.answers >= due_by(last.answers, cheaper)
}

/// Who writes to the notes how a run goes on.
#[derive(Drop)]
pub struct Progress<'a, N: Sink> {
    /// Where the lines go.
    pub notes: &'a mut N,
    /// Whether lines are asked for.
    pub on: bool,
    /// That the notes haven't failed. Once they have, nothing more is written.
    pub state: Result<(), Failed>,
    /// The counts of the last line.
    pub last: Counts,
    /// Whether the counts of each query are asked for, and those of all.
    pub parts: bool,
    /// The counts at the end of the last query.
    pub before: Counts,
    /// How many bytes each answer takes that is held until the end, where `--stream` would write it sooner; 0 where none is.
    pub row: u64,
    /// Whether it was told that the answers held take much.
    pub warned: bool,
}

impl<'a, N: Sink> Progress<'a, N> {
    /// Nothing was written yet.
    pub fn new(notes: &'a mut N, options: &Options) -> Progress<'a, N>
        ensures same { result.notes.ghost_name ≡ notes.entry.ghost_name }
        ensures now { result.notes.now ≡ notes.old }
        ensures on { result.on ≡ options.now.progress }
        ensures state { result.state ≡ Ok tt }
        ensures last { result.last ≡ nothing }
        ensures parts { result.parts ≡ tells_parts options.now }
        ensures before { result.before ≡ nothing }
        ensures row { result.row ≡ 0 }
        ensures warned { result.warned ≡ false }
    {
        Progress {
            notes,
            on: options.progress,
            state: Ok(()),
            last: Counts::new(),
            parts: options.stats && options.queries,
            before: Counts::new(),
            row: 0,
            warned: false,
        }
    }

    /// From now on this program is searched, whose answers may be held until the end.
    pub fn weigh(&mut self, options: &Options, compiled: &Compiled)
        ensures { self.new ≡ record self.old { row = row_in options.now compiled.now } }
    {
        self.row = row_in(options, compiled);
    }

    // Whether a line is to be written.
    fn is_due(&self, counts: &Counts, cheaper: bool) -> bool
        ensures asked { IsTrue result → self.now.on ≡ true }
        ensures state { IsTrue result → self.now.state ≡ Ok tt }
        ensures more { IsTrue result → IsMore self.now.last counts.now }
    {
        match self.state {
            Ok(()) => self.on && is_more(&self.last, counts, cheaper),
            Err(Failed) => false,
        }
    }

    // Whether it is to be written that the answers held take much.
    fn is_heavy(&self, counts: &Counts) -> bool
        ensures state { IsTrue result → self.now.state ≡ Ok tt }
        ensures once { IsTrue result → self.now.warned ≡ false }
        ensures much { IsTrue result → IsMuch counts.now.answers self.now.row }
    {
        match self.state {
            Ok(()) => !self.warned && is_much(counts.answers, self.row),
            Err(Failed) => false,
        }
    }

    /// Writes that the answers held take much, where it is due.
    pub fn tell_held(&mut self, counts: &Counts)
        ensures notes { self.new.notes.ghost_name ≡ self.old.notes.ghost_name }
        ensures same { (self.new.on ≡ self.old.on) × (self.new.parts ≡ self.old.parts) × (self.new.row ≡ self.old.row) }
        ensures told { (sought : Option Program) → Tells (scope self.old.on self.old.parts self.old.row sought)
            (point (N.held self.old.notes.now) (N.faults self.old.notes.now) self.old.state self.old.last self.old.before self.old.warned)
            (point (N.held self.new.notes.now) (N.faults self.new.notes.now) self.new.state self.new.last self.new.before self.new.warned) }
    {
        if !self.is_heavy(counts) {
            return;
        }
        self.state = write_held(self.notes, counts.answers);
        self.warned = true;
    }

    /// Writes a line, where it is due, and behind it the best answer, where it wasn't told before.
    pub fn tell_line(
        &mut self,
        alloc: Global,
        compiled: &Compiled,
        counts: &Counts,
        best: Option<Best<'_>>,
    )
        ensures notes { self.new.notes.ghost_name ≡ self.old.notes.ghost_name }
        ensures same { (self.new.on ≡ self.old.on) × (self.new.parts ≡ self.old.parts) × (self.new.row ≡ self.old.row) }
        ensures told { Tells (scope self.old.on self.old.parts self.old.row (Some compiled.now))
            (point (N.held self.old.notes.now) (N.faults self.old.notes.now) self.old.state self.old.last self.old.before self.old.warned)
            (point (N.held self.new.notes.now) (N.faults self.new.notes.now) self.new.state self.new.last self.new.before self.new.warned) }
    {
        if !self.is_due(counts, best.is_some()) {
            return;
        }
        let row = new_row(alloc, compiled, &self.last, counts, best);
        self.state = write_told(self.notes, counts, cost_of(best), compiled.program(), &row);
        self.last = *counts;
    }

    // Whether a part is to be written.
    fn tells_parts(&self) -> bool
        ensures asked { IsTrue result → self.now.parts ≡ true }
        ensures state { IsTrue result → self.now.state ≡ Ok tt }
    {
        match self.state {
            Ok(()) => self.parts,
            Err(Failed) => false,
        }
    }
}

/// Writes what the notes get at the end of a run, unless they failed on the way.
pub fn end<N: Sink>(
    notes: &mut N,
    state: Result<(), Failed>,
    options: &Options,
    tally: &Tally,
    outcome: &Outcome,
)
    ensures { EndsWith state (N.held notes.old) (N.held notes.new) (N.faults notes.old) (N.faults notes.new)
        (notes_of options.now tally.now outcome.now) }
{
    match state {
        Ok(()) => note(notes, options, tally, outcome),
        Err(Failed) => {}
    }
}

impl<N: Sink> Watch for Progress<'_, N> {
    ghost use Rattle.std.proofs.Common.{◌∙◌, refl};
    ghost use Rattle.std.specs.Prelude.{◌≡◌};
    ghost use Rattle.asp_top.specs.Telling.{Tells, as_told, more_told, nothing_told, point};

    ghost IsAfter = { λ p q. (q.notes.ghost_name ≡ p.notes.ghost_name) × (q.on ≡ p.on) × (q.parts ≡ p.parts) × (q.row ≡ p.row)
        × Tells (scope p.on p.parts p.row None) (point (N.held p.notes.now) (N.faults p.notes.now) p.state p.last p.before p.warned)
        (point (N.held q.notes.now) (N.faults q.notes.now) q.state q.last q.before q.warned) };

    fn tell(&mut self, counts: &Counts, best: Option<Best<'_>>) {
        self.tell_held(counts);
        if !self.is_due(counts, best.is_some()) {
            return;
        }
        self.state = write_line(self.notes, counts, cost_of(best));
        self.last = *counts;
    }

    fn end_query(&mut self, counts: &Counts) {
        if !self.tells_parts() {
            return;
        }
        self.state = write_part(self.notes, &counts.since(&self.before), false);
        self.before = *counts;
    }

    fn end_series(&mut self) {
        if !self.tells_parts() {
            return;
        }
        self.state = write_part(self.notes, &self.before, true);
    }

    ghost begins = { λ w. (
      refl,
      refl,
      refl,
      refl,
      nothing_told (scope w.on w.parts w.row None) (point (N.held w.notes.now) (N.faults w.notes.now) w.state w.last w.before w.warned),
    ) };

    ghost goes_on = { λ u v w a b.
        let p = point (N.held u.notes.now) (N.faults u.notes.now) u.state u.last u.before u.warned in
        let q = point (N.held v.notes.now) (N.faults v.notes.now) v.state v.last v.before v.warned in
        let r = point (N.held w.notes.now) (N.faults w.notes.now) w.state w.last w.before w.warned in (
          b.0 ∙ a.0,
          b.1 ∙ a.1,
          b.2 ∙ a.2,
          b.3 ∙ a.3,
          more_told (scope u.on u.parts u.row None) p q r a.4 (as_told u.on v.on u.parts v.parts u.row v.row None q r a.1 a.2 a.3 b.4),
        ) };
}
