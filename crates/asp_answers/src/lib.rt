//! All answers of a text in aspif, which is in memory: the crates as a library, by one call.
#![tactic(auto)]

ghost use Rattle.std.specs.Prelude.{◌≡◌, IfErr, IfOk, IfSome, Err, false, map};
ghost use Rattle.asp_crew_laws.specs.Reports.{IsReport};
ghost use Rattle.asp_equal.specs.Reduced.{restored};
ghost use Rattle.asp_model.specs.Models.{answers};
ghost use Rattle.asp_model.specs.Sound.{IsSound};
ghost use Rattle.asp_model.specs.declared.program.Program.{Program};
ghost use Rattle.asp_model.specs.declared.results.Mode.TheVariants.{Enum};
ghost use Rattle.asp_read.specs.Outcome.{outcome};
ghost use Rattle.asp_read.specs.Stream.{ReadsText};

use asp_compile::compile::compile;
use asp_counts::counts::Counts;
use asp_counts::watch::Unwatched;
use asp_crew::alone::solve_alone;
use asp_crew::report::Report;
use asp_equal::reduce::{Aside, Reduced, reduce, restore};
use asp_io::CleanSource;
use asp_model::interp::Interp;
use asp_model::program::Program;
use asp_model::results::{Ask, End, Mode};
use asp_read::fault::ReadError;
use asp_read::read_program;
use asp_vars::compiled::Compiled;
use std::alloc::{AllocError, Global};
use std::mem;

const BUDGET: u64 = i64::MAX as u64;

/// Why no answers are given.
pub enum Failure {
    /// No program was read: the text is refused, or memory ran out.
    Unread(ReadError),
    /// Memory ran out.
    Memory,
    /// The budget was spent before all answers were found.
    Spent,
}

// Reads the program. Nothing is read from outside: the source is over bytes in memory.
fn read(alloc: Global, text: &[u8]) -> Result<Program, ReadError>
    ensures text { ReadsText result (outcome text.now) }
    ensures sound { IfOk result IsSound }
{
    let mut source = CleanSource::new(text);
    read_program(alloc, &mut source)
}

// Searches for all answers of a compiled program, by one search in this thread.
fn search(alloc: Global, compiled: &Compiled) -> Result<Report, AllocError>
    ensures { IfOk result (IsReport compiled.now (record { mode = Enum; models = 0; all_optima = false; by_name = false }) BUDGET) }
{
    let ask = Ask {
        mode: Mode::Enum,
        models: 0,
        all_optima: false,
        by_name: false,
    };
    let mut counts = Counts::new();
    solve_alone(
        alloc,
        compiled,
        ask,
        BUDGET,
        &mut counts,
        &mut Unwatched,
        None,
    )
}

// The answers that a report lists, if they are all.
fn listed(alloc: Global, report: &Report) -> Result<Option<Vec<Interp>>, AllocError>
    ensures { (p : Program) → IsReport p (record { mode = Enum; models = 0; all_optima = false; by_name = false }) BUDGET report.now → IfOk result (λ found. IfSome found (λ sets. sets.items ≡ answers p)) }
{
    match report.results.end {
        End::Finished => {
            let sets = report.results.answers.rows().to_sets(alloc)?;
            Ok(Some(sets))
        }
        End::Limited | End::Unfinished => Ok(None),
    }
}

// Each set with what was set aside.
fn restore_each(alloc: Global, aside: &Aside, sets: &[Interp]) -> Result<Vec<Interp>, AllocError>
    ensures { IfOk result (λ whole. whole.items ≡ map (restored aside.now) sets.now) }
{
    let mut whole = Vec::with_capacity(alloc, sets.len())?;
    for set in sets {
        whole.push(restore(alloc, aside, set)?)?;
    }
    Ok(whole)
}

// All answers of a compiled program, if the budget was enough.
fn search_all(alloc: Global, compiled: &Compiled) -> Result<Option<Vec<Interp>>, AllocError>
    ensures { IfOk result (λ found. IfSome found (λ sets. sets.items ≡ answers compiled.now)) }
{
    let report = search(alloc, compiled)?;
    let found = listed(alloc, &report);
    mem::drop(report);
    found
}

// The answers of what is left of a program, if the budget was enough.
fn answers_left(alloc: Global, left: Program) -> Result<Option<Vec<Interp>>, AllocError>
    requires { IsSound left }
    ensures { IfOk result (λ found. IfSome found (λ sets. sets.items ≡ answers left)) }
{
    let compiled = compile(alloc, left)?;
    let found = search_all(alloc, &compiled);
    mem::drop(compiled);
    found
}

// The answers of a program, if the budget was enough. Its facts and copies are set aside before the search, and put back.
fn answers_of(alloc: Global, program: Program) -> Result<Option<Vec<Interp>>, AllocError>
    requires { IsSound program }
    ensures { IfOk result (λ found. IfSome found (λ sets. sets.items ≡ answers program)) }
{
    let Reduced { aside, left } = reduce(alloc, program)?;
    match answers_left(alloc, left)? {
        Some(sets) => {
            let whole = restore_each(alloc, &aside, sets.as_slice())?;
            Ok(Some(whole))
        }
        None => Ok(None),
    }
}

/// All answers of a text, each once, in their order.
pub fn answers(alloc: Global, text: &[u8]) -> Result<Vec<Interp>, Failure>
    ensures found { IfOk result (λ sets. (p : Program) × (outcome text.now ≡ Ok p) × (sets.items ≡ answers p)) }
    ensures unread { IfErr result (λ failure. (error : ReadError) → failure ≡ Failure.Unread error → ReadsText (Err error) (outcome text.now)) }
{
    match read(alloc, text) {
        Ok(program) => match answers_of(alloc, program) {
            Ok(Some(sets)) => Ok(sets),
            Ok(None) => Err(Failure::Spent),
            Err(_) => Err(Failure::Memory),
        },
        Err(error) => Err(Failure::Unread(error)),
    }
}
