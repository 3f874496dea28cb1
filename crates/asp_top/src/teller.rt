//! Who tells a program's answers in their order: one search, or several side by side.
ghost use Rattle.std.specs.Prelude.{◌≡◌, [], IfOk};
ghost use Rattle.asp_model.specs.Models.{answers};
ghost use Rattle.asp_stream.specs.Endings.{IsTellingOf};
ghost use Rattle.asp_stream.specs.Streams.{IsFrontOf};

use crate::crew::Crew;
use asp_counts::counts::Counts;
use asp_counts::watch::Watch;
use asp_outlet::Reader;
use asp_parts::stream_parts;
use asp_series::solver::Alone;
use asp_stream::{Told, stream_alone};
use asp_vars::compiled::Compiled;
use std::alloc::{AllocError, Global};
use std::sync::Wait;
use std::thread::Threads;

/// The budget of a run that names none.
pub const UNLIMITED: u64 = 9_223_372_036_854_775_807;

/// Who tells a program's answers in their order.
pub trait Teller {
    /// What it needs in order to tell, as that threads may share what it holds. Whoever makes it shows that.
    ghost able: { Self → Type 0 };

    /// Tells all answers, each as soon as no smaller one can come, with so many units. Want of memory is the one error. What it does is
    /// added to the counts, and told.
    fn tell<W: Watch, R: Reader>(
        &self,
        alloc: Global,
        compiled: &Compiled,
        budget: u64,
        counts: &mut Counts,
        watch: &mut W,
        reader: &mut R,
    ) -> Result<Told, AllocError>
        requires able { able self.now }
        requires program { R.program reader.old ≡ compiled.now }
        requires all { R.all reader.old ≡ answers compiled.now }
        requires none { R.heard reader.old ≡ [] }
        ensures told { IfOk result (IsTellingOf compiled.now budget (R.heard reader.new) (R.wants reader.new)) }
        ensures front { IsFrontOf compiled.now (R.all reader.old) (R.program reader.new) (R.all reader.new) (R.heard reader.new) }
        ensures after { R.IsAfter reader.old reader.new }
        ensures heard { W.IsAfter watch.old watch.new };
}

impl Teller for Alone {
    ghost able = { λ s. Unit {0} };

    fn tell<W: Watch, R: Reader>(
        &self,
        alloc: Global,
        compiled: &Compiled,
        budget: u64,
        counts: &mut Counts,
        watch: &mut W,
        reader: &mut R,
    ) -> Result<Told, AllocError> {
        stream_alone(alloc, compiled, budget, counts, watch, reader)
    }
}

/// Several searches burn no unit, so with a budget one search tells.
impl<R: Threads + Wait + Sync> Teller for Crew<'_, R> {
    ghost use denote.Param.Send.{IsSync};

    ghost able = { λ crew. IsSync R.row };

    fn tell<W: Watch, D: Reader>(
        &self,
        alloc: Global,
        compiled: &Compiled,
        budget: u64,
        counts: &mut Counts,
        watch: &mut W,
        reader: &mut D,
    ) -> Result<Told, AllocError> {
        if budget < UNLIMITED {
            return stream_alone(alloc, compiled, budget, counts, watch, reader);
        }
        stream_parts(
            self.rt,
            alloc,
            compiled,
            budget,
            self.workers,
            counts,
            watch,
            reader,
        )
    }
}
