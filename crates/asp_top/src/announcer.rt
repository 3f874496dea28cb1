//! Lines on the notes while the search of one program goes on, with each better answer.
use crate::progress::Progress;
use asp_counts::counts::Counts;
use asp_counts::watch::{Best, Watch};
use asp_io::Sink;
use asp_vars::compiled::Compiled;
use std::alloc::Global;

/// Who writes to the notes how the search of a program goes on, and each better answer.
#[derive(Drop)]
pub struct Announcer<'a, 'b, N: Sink> {
    /// Who writes the lines.
    pub progress: Progress<'b, N>,
    /// The program that is searched.
    pub compiled: &'a Compiled,
    /// Where an answer is looked at.
    pub alloc: Global,
}

impl<N: Sink> Watch for Announcer<'_, '_, N> {
    ghost use Rattle.std.proofs.Common.{◌∙◌, refl, subst};
    ghost use Rattle.std.specs.Prelude.{◌≡◌, Some};
    ghost use Rattle.asp_model.specs.declared.program.Program.{Program};
    ghost use Rattle.asp_top.specs.Progress.{scope};
    ghost use Rattle.asp_top.specs.Telling.{Tells, as_told, more_told, nothing_told, point};

    ghost IsAfter = { λ v w. (w.compiled.now ≡ v.compiled.now)
        × (w.progress.notes.ghost_name ≡ v.progress.notes.ghost_name) × (w.progress.on ≡ v.progress.on)
        × (w.progress.parts ≡ v.progress.parts) × (w.progress.row ≡ v.progress.row)
        × Tells (scope v.progress.on v.progress.parts v.progress.row (Some v.compiled.now))
        (point (N.held v.progress.notes.now) (N.faults v.progress.notes.now) v.progress.state v.progress.last v.progress.before v.progress.warned)
        (point (N.held w.progress.notes.now) (N.faults w.progress.notes.now) w.progress.state w.progress.last w.progress.before w.progress.warned) };

    fn tell(&mut self, counts: &Counts, best: Option<Best<'_>>) {
        self.progress.tell_held(counts);
        self.progress
            .tell_line(self.alloc, self.compiled, counts, best);
    }

    fn end_query(&mut self, counts: &Counts) {
        self.progress.end_query(counts);
    }

    fn end_series(&mut self) {
        self.progress.end_series();
    }

    ghost begins = { λ w. (
      refl,
      refl,
      refl,
      refl,
      refl,
      nothing_told (scope w.progress.on w.progress.parts w.progress.row (Some w.compiled.now))
          (point (N.held w.progress.notes.now) (N.faults w.progress.notes.now) w.progress.state w.progress.last w.progress.before w.progress.warned),
    ) };

    ghost goes_on = { λ u v w a b.
        let p = u.progress in
        let q = v.progress in
        let r = w.progress in
        let x = point (N.held p.notes.now) (N.faults p.notes.now) p.state p.last p.before p.warned in
        let y = point (N.held q.notes.now) (N.faults q.notes.now) q.state q.last q.before q.warned in
        let z = point (N.held r.notes.now) (N.faults r.notes.now) r.state r.last r.before r.warned in (
          b.0 ∙ a.0,
          b.1 ∙ a.1,
          b.2 ∙ a.2,
          b.3 ∙ a.3,
          b.4 ∙ a.4,
          more_told (scope p.on p.parts p.row (Some u.compiled.now)) x y z a.5
              (as_told p.on q.on p.parts q.parts p.row q.row (Some u.compiled.now) y z a.2 a.3 a.4
              (subst (λ (c : Program). Tells (scope q.on q.parts q.row (Some c)) y z) a.0 b.5)),
        ) };
}
