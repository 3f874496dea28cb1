//! What is left of a program is searched, with a query's literals assumed.
ghost use Rattle.std.specs.Prelude.{◌≡◌, IfOk};
ghost use Rattle.asp_model.specs.Sound.{IsSound};
ghost use Rattle.asp_read.specs.Queries.{with_query};
ghost use Rattle.asp_series.specs.Asking.{IsSought, Searches};
ghost use Rattle.asp_series.specs.Series.{about};

use crate::solver::Solver;
use asp_cli::Options;
use asp_counts::counts::Counts;
use asp_counts::watch::Watch;
use asp_crew::report::Report;
use asp_model::program::Program;
use asp_model::results::Ask;
use asp_prepare::asked::mode_of;
use asp_prepare::prepared::{Prepared, ready};
use asp_read::asked::with_query;
use std::alloc::{AllocError, Global};
use std::mem;

/// A program that is asked.
#[derive_where(Clone, Copy)]
pub struct Asking<'a, S> {
    /// The options of the run.
    pub options: &'a Options,
    /// The program.
    pub program: &'a Program,
    /// The literals that are assumed beside those of the program.
    pub literals: &'a [i32],
    /// The units that there are.
    pub units: u64,
    /// Who searches it from scratch.
    pub solver: &'a S,
}

/// What was searched, and what was found.
#[derive(Drop)]
pub struct Sought {
    /// What was searched of a program, and what was set aside before. None: the whole program was, by a search that is kept.
    pub prepared: Option<Prepared>,
    /// What the search found.
    pub report: Report,
}

/// What a query asks of a program: all its answers, or an optimum.
pub fn about(options: &Options, program: &Program) -> Ask
    ensures { result ≡ about options.now program.now }
{
    Ask {
        mode: mode_of(options.mode, program),
        models: 0,
        all_optima: false,
        by_name: false,
    }
}

// Searches what was prepared.
fn search<S: Solver, W: Watch>(
    alloc: Global,
    asking: &Asking<'_, S>,
    prepared: Prepared,
    ask: Ask,
    counts: &mut Counts,
    watch: &mut W,
) -> Result<Sought, AllocError>
    requires solver { S.may asking.now.solver.now }
    ensures searches { IfOk result (Searches prepared ask asking.now.units) }
    ensures heard { W.IsAfter watch.old watch.new }
{
    match asking.solver.solve(alloc, &prepared.compiled, ask, asking.units, counts, watch) {
        Ok(report) => Ok(Sought {
            prepared: Some(prepared),
            report,
        }),
        Err(error) => {
            mem::drop(prepared);
            Err(error)
        }
    }
}

// Searches what is left of the program. Nothing but memory can be wanting: consequences aren't sought.
fn search_left<S: Solver, W: Watch>(
    alloc: Global,
    asking: &Asking<'_, S>,
    program: Program,
    ask: Ask,
    counts: &mut Counts,
    watch: &mut W,
) -> Result<Sought, AllocError>
    requires solver { S.may asking.now.solver.now }
    requires sound { IsSound program }
    ensures sought { IfOk result (IsSought asking.now.options.now program ask asking.now.units) }
    ensures heard { W.IsAfter watch.old watch.new }
{
    match ready(alloc, asking.options, program) {
        Ok(prepared) => search(alloc, asking, prepared, ask, counts, watch),
        Err(_) => Err(AllocError),
    }
}

/// Searches what is left of the program with the literals assumed.
pub fn seek<S: Solver, W: Watch>(
    alloc: Global,
    asking: &Asking<'_, S>,
    ask: Ask,
    counts: &mut Counts,
    watch: &mut W,
) -> Result<Sought, AllocError>
    requires solver { S.may asking.now.solver.now }
    requires sound { IsSound (with_query asking.now.program.now asking.now.literals.now) }
    ensures sought { IfOk result (IsSought asking.now.options.now (with_query asking.now.program.now asking.now.literals.now) ask asking.now.units) }
    ensures heard { W.IsAfter watch.old watch.new }
{
    let asked = with_query(alloc, asking.program, asking.literals)?;
    search_left(alloc, asking, asked, ask, counts, watch)
}
