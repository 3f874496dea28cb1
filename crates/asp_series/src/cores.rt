//! The core of a query without an answer: literals that no stable model has together.
ghost use Rattle.std.specs.Prelude.{◌≡◌, ◌++◌, [], IfOk, IfSome, OnOk, Some, false, option_map, true};
ghost use Rattle.asp_cli.specs.Found.{seeks_consequences};
ghost use Rattle.asp_series.specs.Asking.{IsAskable, IsEnough, IsLeast, IsReason, IsShrunk, IsSoundWith, Refutes, Shrinks, Tries, kept_core, verdict_by};
ghost use Rattle.asp_prepare.specs.Meaning.{is_some_of};
ghost use Rattle.asp_series.specs.Series.{is_refuted};

use crate::ask::{Asking, Sought, seek};
use crate::literals::{all_assumed, in_order, without};
use crate::solver::Solver;
use asp_counts::counts::Counts;
use asp_counts::watch::Watch;
use asp_model::program::Program;
use asp_model::results::{Ask, End, Mode, Results};
use asp_model::seq::Seq;
use asp_prepare::told::has_model;
use asp_read::asked::with_query;
use asp_rows::sets::Sets;
use std::alloc::{AllocError, Global};
use std::mem;

/// Literals that no stable model has together.
#[derive(Drop)]
pub struct Core {
    /// The literals.
    pub literals: Seq<i32>,
    /// Whether it was shown that none can be left out.
    pub minimal: bool,
    /// The units that it took.
    pub spent: u64,
}

/// Whether a literal can be left out.
#[derive(Clone, Copy)]
pub enum Verdict {
    /// The others suffice.
    Needless,
    /// A stable model has the others.
    Needed,
    /// The units were spent before that was known.
    Open,
}

/// What a search for a model says of the literals that it had.
#[derive(Clone, Copy)]
pub struct Tried {
    /// What it says of the literal that was left out.
    pub verdict: Verdict,
    /// The units that it took.
    pub spent: u64,
}

fn verdict_of(results: &Results<Sets>) -> Verdict
    ensures { result ≡ verdict_by (is_some_of results.now.answers) results.now.end }
{
    if results.answers.rows().len() != 0 {
        return Verdict::Needed;
    }
    match results.end {
        End::Finished => Verdict::Needless,
        _ => Verdict::Open,
    }
}

// Seeks one model that has all of the literals.
fn try_others<S: Solver, W: Watch>(
    alloc: Global,
    asking: &Asking<'_, S>,
    counts: &mut Counts,
    watch: &mut W,
) -> Result<Tried, AllocError>
    requires solver { S.may asking.now.solver.now }
    requires askable { IsAskable asking.now.options.now asking.now.program.now asking.now.literals.now }
    requires none { asking.now.program.now.assumptions ≡ [] }
    ensures tries { IfOk result (Tries asking.now.program.now asking.now.literals.now asking.now.units) }
    ensures heard { W.IsAfter watch.old watch.new }
{
    let ask = Ask {
        mode: Mode::Enum,
        models: 1,
        all_optima: false,
        by_name: false,
    };
    let sought = seek(alloc, asking, ask, counts, watch)?;
    let tried = Tried {
        verdict: verdict_of(&sought.report.results),
        spent: sought.report.spent,
    };
    mem::drop(sought);
    Ok(tried)
}

/// A core that is made smaller.
#[derive(Drop)]
pub struct Shrinking {
    /// The literals that are left.
    pub core: Seq<i32>,
    /// The units that are left.
    pub left: u64,
    /// Whether the units were spent before it was known of some literal whether it can be left out.
    pub is_open: bool,
}

// Leaves out the literal if the others suffice.
fn shrink<S: Solver, W: Watch>(
    alloc: Global,
    asking: &Asking<'_, S>,
    literal: i32,
    state: &mut Shrinking,
    counts: &mut Counts,
    watch: &mut W,
) -> Result<(), AllocError>
    requires solver { S.may asking.now.solver.now }
    requires plain { seeks_consequences (Some asking.now.options.now.mode) ≡ false }
    requires sound { IsSoundWith asking.now.program.now state.old.core }
    ensures shrinks { OnOk result (Shrinks asking.now.program.now literal state.old state.new) }
    ensures heard { W.IsAfter watch.old watch.new }
{
    if state.is_open {
        return Ok(());
    }
    let others = without(alloc, state.core.as_slice(), literal)?;
    let rest = Asking {
        options: asking.options,
        program: asking.program,
        literals: others.as_slice(),
        units: state.left,
        solver: asking.solver,
    };
    let tried = try_others(alloc, &rest, counts, watch)?;
    state.left -= tried.spent;
    match tried.verdict {
        Verdict::Needless => state.core = Seq::from_vec(others),
        Verdict::Needed => {}
        Verdict::Open => state.is_open = true,
    }
    Ok(())
}

// Leaves out each of the literals in turn, if the others suffice.
fn shrink_all<S: Solver, W: Watch>(
    alloc: Global,
    asking: &Asking<'_, S>,
    state: &mut Shrinking,
    counts: &mut Counts,
    watch: &mut W,
) -> Result<(), AllocError>
    requires solver { S.may asking.now.solver.now }
    requires plain { seeks_consequences (Some asking.now.options.now.mode) ≡ false }
    requires sound { IsSoundWith asking.now.program.now asking.now.literals.now }
    requires start { IsShrunk asking.now.program.now asking.now.literals.now state.old.left [] state.old }
    ensures shrunk { OnOk result (IsShrunk asking.now.program.now asking.now.literals.now state.old.left asking.now.literals.now state.new) }
    ensures heard { W.IsAfter watch.old watch.new }
{
    for literal in asking.literals {
        shrink(alloc, asking, *literal, state, counts, watch)?;
    }
    Ok(())
}

// A core from the literals of which none can be left out, as far as the units suffice to show it.
fn least_core<S: Solver, W: Watch>(
    alloc: Global,
    asking: &Asking<'_, S>,
    counts: &mut Counts,
    watch: &mut W,
) -> Result<Core, AllocError>
    requires solver { S.may asking.now.solver.now }
    requires plain { seeks_consequences (Some asking.now.options.now.mode) ≡ false }
    requires sound { IsSoundWith asking.now.program.now asking.now.literals.now }
    requires none { Refutes asking.now.program.now asking.now.literals.now }
    ensures least { IfOk result (IsLeast asking.now.program.now asking.now.literals.now asking.now.units) }
    ensures heard { W.IsAfter watch.old watch.new }
{
    let core = Vec::from_slice(alloc, asking.literals)?;
    let mut state = Shrinking {
        core: Seq::from_vec(core),
        left: asking.units,
        is_open: false,
    };
    shrink_all(alloc, asking, &mut state, counts, watch)?;
    Ok(Core {
        literals: state.core,
        minimal: !state.is_open,
        spent: asking.units - state.left,
    })
}

// The program without assumptions.
fn bare(alloc: Global, program: &Program) -> Result<Program, AllocError>
    ensures { IfOk result (λ p. p ≡ record program.now { assumptions = [] }) }
{
    let mut bare = with_query(alloc, program, &[])?;
    bare.assumptions = Seq::from_vec(Vec::new(alloc));
    Ok(bare)
}

// The core that the search that is kept told of a query.
fn kept_core(sought: &Sought) -> Option<&[i32]>
    ensures { option_map (λ core. core.now) result ≡ kept_core sought.entry.now.prepared sought.entry.now.report.core }
{
    match (&sought.prepared, &sought.report.core) {
        (None, Some(core)) => Some(core.as_slice()),
        _ => None,
    }
}

// Literals with which no stable model is left: the core that the search that is kept told, or else all that the query assumes.
fn first_core<S>(
    alloc: Global,
    asking: &Asking<'_, S>,
    sought: &Sought,
) -> Result<Vec<i32>, AllocError>
    requires none { Refutes asking.now.program.now (asking.now.program.now.assumptions ++ asking.now.literals.now) }
    requires kept { IfSome (kept_core sought.now.prepared sought.now.report.core) (IsEnough asking.now.program.now (asking.now.program.now.assumptions ++ asking.now.literals.now)) }
    ensures { IfOk result (λ literals. IsEnough asking.now.program.now (asking.now.program.now.assumptions ++ asking.now.literals.now) literals.items) }
{
    match kept_core(sought) {
        Some(core) => in_order(alloc, core),
        None => all_assumed(
            alloc,
            asking.program.assumptions.as_slice(),
            asking.literals,
        ),
    }
}

// The core of a query that has no answer, with `--core-min` as little as may be.
fn least_reason<S: Solver, W: Watch>(
    alloc: Global,
    asking: &Asking<'_, S>,
    literals: &[i32],
    counts: &mut Counts,
    watch: &mut W,
) -> Result<Core, AllocError>
    requires solver { S.may asking.now.solver.now }
    requires askable { IsAskable asking.now.options.now asking.now.program.now asking.now.literals.now }
    requires enough { IsEnough asking.now.program.now (asking.now.program.now.assumptions ++ asking.now.literals.now) literals.now }
    ensures reason { IfOk result (λ c. IsReason true asking.now.program.now (asking.now.program.now.assumptions ++ asking.now.literals.now) true asking.now.units (Some c)) }
    ensures heard { W.IsAfter watch.old watch.new }
{
    let bare = bare(alloc, asking.program)?;
    let all = Asking {
        options: asking.options,
        program: &bare,
        literals,
        units: asking.units,
        solver: asking.solver,
    };
    let core = least_core(alloc, &all, counts, watch);
    mem::drop(bare);
    core
}

// The core of a query that has no answer: the first one, or with `--core-min` as little of it as may be.
fn reason<S: Solver, W: Watch>(
    alloc: Global,
    asking: &Asking<'_, S>,
    sought: &Sought,
    counts: &mut Counts,
    watch: &mut W,
) -> Result<Core, AllocError>
    requires solver { S.may asking.now.solver.now }
    requires askable { IsAskable asking.now.options.now asking.now.program.now asking.now.literals.now }
    requires none { Refutes asking.now.program.now (asking.now.program.now.assumptions ++ asking.now.literals.now) }
    requires kept { IfSome (kept_core sought.now.prepared sought.now.report.core) (IsEnough asking.now.program.now (asking.now.program.now.assumptions ++ asking.now.literals.now)) }
    ensures reason { IfOk result (λ c. IsReason asking.now.options.now.core_min asking.now.program.now (asking.now.program.now.assumptions ++ asking.now.literals.now) true asking.now.units (Some c)) }
    ensures heard { W.IsAfter watch.old watch.new }
{
    let literals = first_core(alloc, asking, sought)?;
    if asking.options.core_min {
        least_reason(alloc, asking, literals.as_slice(), counts, watch)
    } else {
        Ok(Core {
            literals: Seq::from_vec(literals),
            minimal: false,
            spent: 0,
        })
    }
}

// Whether a search was finished and found no model.
fn is_refuted(results: &Results<Sets>) -> bool
    ensures { result ≡ is_refuted results.now }
{
    match results.end {
        End::Finished => !has_model(results),
        _ => false,
    }
}

/// The core of a query, where it has no answer.
pub fn core_of<S: Solver, W: Watch>(
    alloc: Global,
    asking: &Asking<'_, S>,
    sought: &Sought,
    counts: &mut Counts,
    watch: &mut W,
) -> Result<Option<Core>, AllocError>
    requires solver { S.may asking.now.solver.now }
    requires askable { IsAskable asking.now.options.now asking.now.program.now asking.now.literals.now }
    requires kept { IfSome (kept_core sought.now.prepared sought.now.report.core) (IsEnough asking.now.program.now (asking.now.program.now.assumptions ++ asking.now.literals.now)) }
    requires none { is_refuted sought.now.report.results ≡ true → Refutes asking.now.program.now (asking.now.program.now.assumptions ++ asking.now.literals.now) }
    ensures reason { IfOk result (IsReason asking.now.options.now.core_min asking.now.program.now (asking.now.program.now.assumptions ++ asking.now.literals.now) (is_refuted sought.now.report.results) asking.now.units) }
    ensures heard { W.IsAfter watch.old watch.new }
{
    if is_refuted(&sought.report.results) {
        let core = reason(alloc, asking, sought, counts, watch)?;
        Ok(Some(core))
    } else {
        Ok(None)
    }
}
