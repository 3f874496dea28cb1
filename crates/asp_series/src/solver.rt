//! Who searches a program from scratch.
ghost use Rattle.std.specs.Prelude.{IfOk};
ghost use Rattle.asp_crew_laws.specs.Reports.{IsReport};

use asp_counts::counts::Counts;
use asp_counts::watch::Watch;
use asp_crew::alone::solve_alone;
use asp_crew::report::Report;
use asp_model::results::Ask;
use asp_vars::compiled::Compiled;
use std::alloc::{AllocError, Global};

/// Who searches a program from scratch.
pub trait Solver {
    /// What it needs in order to search, as that threads may share what it holds. Whoever makes it shows that.
    ghost may: { Self → Type 0 };

    /// How many units a query may take of a search of this program that is kept, before it is searched from scratch.
    fn patience(&self, compiled: &Compiled) -> u64;

    /// What is asked of a program, with so many units. Want of memory is the one error. What it does is added to
    /// the counts, and told.
    fn solve<W: Watch>(
        &self,
        alloc: Global,
        compiled: &Compiled,
        ask: Ask,
        units: u64,
        counts: &mut Counts,
        watch: &mut W,
    ) -> Result<Report, AllocError>
        requires { may self.now }
        ensures report { IfOk result (IsReport compiled.now ask units) }
        ensures heard { W.IsAfter watch.old watch.new };
}

/// One search after the other, in this thread.
#[derive(Clone, Copy)]
pub struct Alone;

impl Solver for Alone {
    ghost may = { λ s. Unit {0} };

    fn patience(&self, _compiled: &Compiled) -> u64 {
        u64::MAX
    }

    fn solve<W: Watch>(
        &self,
        alloc: Global,
        compiled: &Compiled,
        ask: Ask,
        units: u64,
        counts: &mut Counts,
        watch: &mut W,
    ) -> Result<Report, AllocError> {
        solve_alone(alloc, compiled, ask, units, counts, watch, None)
    }
}
