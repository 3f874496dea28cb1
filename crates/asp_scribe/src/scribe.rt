//! Who writes the lines of a proof while the run that finds them goes on.
//!
//! It keeps true: what was put out since it began is the head of a proof's text and some lines, or a front of that where a write
//! failed. It hears of each step, and puts out then what lines have come. So they needn't be kept.
ghost use Rattle.std.specs.Prelude.{◌≡◌, [], OnOk, true};
ghost use Rattle.asp_buffer.specs.Out.{Out, out};
ghost use Rattle.asp_model.specs.Texts.{recorded};
ghost use Rattle.asp_proof.specs.declared.proof.Sought.{Sought};
ghost use Rattle.asp_proof.specs.Texts.{line_text, lines, list_text};
ghost use Rattle.asp_scribe.specs.Proofs.{is_part};
ghost use Rattle.asp_scribe.specs.Scribes.{Goes, IsBegun, IsEnded};

use crate::ending::is_part;
use crate::list::put_recorded;
use asp_buffer::{Waiting, flush};
use asp_counts::counts::Counts;
use asp_counts::watch::{Best, Watch};
use asp_io::{Failed, Sink};
use asp_model::results::Results;
use asp_proof::proof::{Line, Sought};
use asp_proof::{put_head, put_lines};
use asp_recorder::tape::Tape;
use asp_rows::sets::Sets;

/// Who writes the lines of a proof, as they come, to a sink.
#[derive(Drop)]
pub struct Scribe<'a, K: Sink, T: Tape, W: Watch> {
    /// Where the text goes.
    pub sink: &'a mut K,
    /// The bytes on their way there.
    pub waiting: &'a mut Waiting,
    /// Where the lines come from.
    pub tape: &'a T,
    /// That no write failed. Once one has, nothing more is written.
    pub state: Result<(), Failed>,
    /// Who else hears of the run.
    pub watch: &'a mut W,
}

// Puts out lines, unless a write failed before.
fn put_more<K: Sink>(
    sink: &mut K,
    waiting: &mut Waiting,
    state: Result<(), Failed>,
    more: &[Line],
) -> Result<(), Failed>
    ensures { Goes state (out (K.held sink.old) (K.faults sink.old) waiting.old)
        (out (K.held sink.new) (K.faults sink.new) waiting.new) result (lines line_text more.now) }
{
    match state {
        Ok(()) => put_lines(sink, waiting, more),
        Err(Failed) => Err(Failed),
    }
}

// Puts out the answers and the last line, unless a write failed before, and sends on what waits.
fn put_end<K: Sink>(
    sink: &mut K,
    waiting: &mut Waiting,
    state: Result<(), Failed>,
    results: &Results<Sets>,
) -> Result<(), Failed>
    ensures goes { Goes state (out (K.held sink.old) (K.faults sink.old) waiting.old)
        (out (K.held sink.new) (K.faults sink.new) waiting.new) result (list_text (recorded results.now.mode results.now) (is_part results.now.end)) }
    ensures empty { OnOk result (waiting.new ≡ []) }
    ensures sent { OnOk result (K.is_sent sink.new ≡ true) }
{
    match state {
        Err(Failed) => Err(Failed),
        Ok(()) => {
            put_recorded(sink, waiting, results, is_part(results.end))?;
            flush(sink, waiting)?;
            sink.flush()
        }
    }
}

impl<'a, K: Sink, T: Tape, W: Watch> Scribe<'a, K, T, W> {
    /// The head of the text was put out, and no line.
    pub fn new(
        sink: &'a mut K,
        waiting: &'a mut Waiting,
        tape: &'a T,
        watch: &'a mut W,
        sought: Sought,
    ) -> Scribe<'a, K, T, W>
        ensures sink { result.sink.ghost_name ≡ sink.entry.ghost_name }
        ensures waiting { result.waiting.ghost_name ≡ waiting.entry.ghost_name }
        ensures watch { (result.watch.ghost_name ≡ watch.entry.ghost_name) × (result.watch.now ≡ watch.old) }
        ensures begun { IsBegun sought (out (K.held sink.old) (K.faults sink.old) waiting.old)
            (out (K.held result.sink.now) (K.faults result.sink.now) result.waiting.now) result.state }
    {
        let state = put_head(sink, waiting, sought);
        Scribe {
            sink,
            waiting,
            tape,
            state,
            watch,
        }
    }

    // Puts out the lines that have come. After a failed write no more are wanted.
    fn write_on(&mut self)
        ensures same { (self.new.sink.ghost_name ≡ self.old.sink.ghost_name) × (self.new.waiting.ghost_name ≡ self.old.waiting.ghost_name)
            × (self.new.watch.ghost_name ≡ self.old.watch.ghost_name) × (self.new.watch.now ≡ self.old.watch.now) }
        ensures begun { (s : Sought) (start : Out) → IsBegun s start (out (K.held self.old.sink.now) (K.faults self.old.sink.now) self.old.waiting.now) self.old.state
            → IsBegun s start (out (K.held self.new.sink.now) (K.faults self.new.sink.now) self.new.waiting.now) self.new.state }
    {
        if let Some(more) = self.tape.take() {
            self.state = put_more(self.sink, self.waiting, self.state, more.as_slice());
            if self.state.is_err() {
                self.tape.close();
            }
        }
    }

    /// Puts out the lines that are left, the answers that the results record and the last line, and flushes the sink. The
    /// answers are put out from their rows, and it takes no memory.
    pub fn end(&mut self, results: &Results<Sets>) -> Result<(), Failed>
        ensures same { (self.new.sink.ghost_name ≡ self.old.sink.ghost_name) × (self.new.waiting.ghost_name ≡ self.old.waiting.ghost_name)
            × (self.new.watch.ghost_name ≡ self.old.watch.ghost_name) × (self.new.watch.now ≡ self.old.watch.now) }
        ensures ended { (s : Sought) (start : Out) → IsBegun s start (out (K.held self.old.sink.now) (K.faults self.old.sink.now) self.old.waiting.now) self.old.state
            → IsEnded s start (out (K.held self.new.sink.now) (K.faults self.new.sink.now) self.new.waiting.now) (recorded results.now.mode results.now) (is_part results.now.end) result }
        ensures sent { OnOk result (K.is_sent self.new.sink.now ≡ true) }
    {
        self.write_on();
        put_end(self.sink, self.waiting, self.state, results)
    }
}

impl<K: Sink, T: Tape, W: Watch> Watch for Scribe<'_, K, T, W> {
    ghost use Rattle.std.proofs.Common.{◌∙◌, refl};
    ghost use Rattle.std.specs.Prelude.{◌≡◌};
    ghost use Rattle.asp_buffer.specs.Out.{Out, out};
    ghost use Rattle.asp_proof.specs.declared.proof.Sought.{Sought};
    ghost use Rattle.asp_scribe.specs.Scribes.{IsBegun};

    ghost IsAfter = { λ p q. (q.sink.ghost_name ≡ p.sink.ghost_name) × (q.waiting.ghost_name ≡ p.waiting.ghost_name)
        × (q.watch.ghost_name ≡ p.watch.ghost_name) × W.IsAfter p.watch.now q.watch.now
        × ((s : Sought) (start : Out) → IsBegun s start (out (K.held p.sink.now) (K.faults p.sink.now) p.waiting.now) p.state
        → IsBegun s start (out (K.held q.sink.now) (K.faults q.sink.now) q.waiting.now) q.state) };

    fn tell(&mut self, counts: &Counts, best: Option<Best<'_>>) {
        self.watch.tell(counts, best);
        self.write_on();
    }

    fn end_query(&mut self, counts: &Counts) {
        self.watch.end_query(counts);
    }

    fn end_series(&mut self) {
        self.watch.end_series();
    }

    ghost begins = { λ w. (refl, refl, refl, W.begins w.watch.now, λ s start b. b) };

    ghost goes_on = { λ u v w a b. (
      b.0 ∙ a.0,
      b.1 ∙ a.1,
      b.2 ∙ a.2,
      W.goes_on u.watch.now v.watch.now w.watch.now a.3 b.3,
      λ s start h. b.4 s start (a.4 s start h),
    ) };
}
