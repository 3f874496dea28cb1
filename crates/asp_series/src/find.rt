//! What is found of a query: by a search that is kept over the series, or else from scratch.
//!
//! A series that asks for all answers keeps one search of the whole program. It is asked first; where it can say nothing of the query,
//! what is left of the program with the query's literals assumed is searched from scratch, with the same units.
ghost use Rattle.std.specs.Prelude.{◌≡◌, IfOk, IfSome};
ghost use Rattle.asp_model.specs.Sound.{IsSound};
ghost use Rattle.asp_series.specs.Asking.{IsAskable, IsFoundBy, IsKeptOf};
ghost use Rattle.asp_series.specs.Series.{IsAsked, asks_all};

use crate::ask::{Asking, Sought, about, seek};
use crate::solver::Solver;
use asp_cli::Options;
use asp_compile::compile::compile;
use asp_counts::counts::Counts;
use asp_counts::watch::Watch;
use asp_crew::report::Report;
use asp_model::program::Program;
use asp_model::results::Mode;
use asp_prepare::asked::mode_of;
use asp_query::kept::KeptSearch;
use asp_read::asked::with_query;
use asp_vars::compiled::Compiled;
use std::alloc::{AllocError, Global};

/// Whether all answers of a program are asked for, and no optimum.
pub fn asks_all(options: &Options, program: &Program) -> bool
    ensures { result ≡ asks_all options.now program.now }
{
    matches!(mode_of(options.mode, program), Mode::Enum)
}

/// The whole program, compiled, with nothing set aside.
pub fn whole(alloc: Global, program: &Program) -> Result<Compiled, AllocError>
    requires { IsSound program.now }
    ensures { IfOk result (λ compiled. compiled ≡ program.now) }
{
    let copy = with_query(alloc, program, &[])?;
    compile(alloc, copy)
}

// What the search that is kept says of a query, where there is one.
fn ask_kept<S, W: Watch>(
    asking: &Asking<'_, S>,
    kept: &mut Option<KeptSearch<'_>>,
    counts: &mut Counts,
    watch: &mut W,
) -> Result<Option<Report>, AllocError>
    requires { IsKeptOf asking.now.options.now asking.now.program.now kept.old }
    ensures kept { IsKeptOf asking.now.options.now asking.now.program.now kept.new }
    ensures asked { IfOk result (λ o. IfSome o (IsAsked asking.now.options.now asking.now.program.now asking.now.literals.now asking.now.units)) }
    ensures heard { W.IsAfter watch.old watch.new }
{
    match kept.take() {
        None => Ok(None),
        Some(search) => {
            let mut search = search;
            let said = search.ask(asking.literals, asking.units, usize::MAX, counts, watch);
            *kept = Some(search);
            said
        }
    }
}

/// What is found of a query: by the search that is kept, where there is one that can say something of it, or else from scratch.
pub fn find<S: Solver, W: Watch>(
    alloc: Global,
    asking: &Asking<'_, S>,
    kept: &mut Option<KeptSearch<'_>>,
    counts: &mut Counts,
    watch: &mut W,
) -> Result<Sought, AllocError>
    requires solver { S.may asking.now.solver.now }
    requires askable { IsAskable asking.now.options.now asking.now.program.now asking.now.literals.now }
    requires kept { IsKeptOf asking.now.options.now asking.now.program.now kept.old }
    ensures kept { IsKeptOf asking.now.options.now asking.now.program.now kept.new }
    ensures found { IfOk result (IsFoundBy asking.now.options.now asking.now.program.now asking.now.literals.now asking.now.units) }
    ensures heard { W.IsAfter watch.old watch.new }
{
    match ask_kept(asking, kept, counts, watch)? {
        Some(report) => Ok(Sought {
            prepared: None,
            report,
        }),
        None => {
            let ask = about(asking.options, asking.program);
            seek(alloc, asking, ask, counts, watch)
        }
    }
}
