//! Which assumptions suffice for there being no answer.
ghost use Rattle.std.specs.Prelude.{◌≡◌, ◌&&◌, is_none, IfOk, None};
ghost use Rattle.asp_book.specs.Books.{board};
ghost use Rattle.asp_core.specs.Boards.{sought};
ghost use Rattle.asp_model.specs.Asked.{reasoning_of};
ghost use Rattle.asp_unsat.specs.Cores.{blamed_by};
ghost use Rattle.asp_crew.specs.Refuting.{HasCoreIf, is_nothing, is_plain, refutes};
ghost use Rattle.asp_crew.specs.Running.{IsRunFor};

use crate::report::Report;
use asp_book::book::Book;
use asp_core::state::State;
use asp_model::results::{Ask, Mode};
use asp_model::seq::Seq;
use asp_unsat::blamed::add_blamed;
use asp_vars::compiled::Compiled;
use std::alloc::{AllocError, Global};

// Whether all answers are sought, or a best one.
fn is_plain(mode: Mode) -> bool
    ensures { result ≡ is_plain mode }
{
    match mode {
        Mode::Enum | Mode::Opt => true,
        Mode::Consequences(_) => false,
    }
}

// Whether neither an answer nor a best one was recorded.
fn has_nothing(state: &State) -> bool
    requires { sought state.now.task.goal ≡ None }
    ensures { result ≡ (is_nothing state.now.answers && is_none state.now.best) }
{
    state.answers().len() == 0 && state.best().is_none()
}

// Whether the board shows that there is no answer.
fn refutes(mode: Mode, book: &Book) -> bool
    requires { sought (board book.now).task.goal ≡ reasoning_of mode }
    ensures { result ≡ refutes mode (board book.now) }
{
    if !is_plain(mode) {
        return false;
    }
    let state = book.state();
    !book.enough() && state.finished() && has_nothing(state)
}

// The assumptions that stand in the nogoods by which the leaves were closed.
fn blamed(alloc: Global, compiled: &Compiled, book: &Book) -> Result<Seq<i32>, AllocError>
    ensures { IfOk result (λ core. core ≡ blamed_by compiled.now (board book.now).reasons compiled.now.assumptions) }
{
    let mut core = Vec::new(alloc);
    let assumptions = compiled.program().assumptions.as_slice();
    let reasons = book.state().reasons();
    add_blamed(alloc, &mut core, compiled, reasons, assumptions)?;
    Ok(Seq::from_vec(core))
}

/// Of the assumptions those that suffice for there being no answer, where the board shows that there is none.
pub(crate) fn core(
    alloc: Global,
    compiled: &Compiled,
    ask: Ask,
    book: &Book,
) -> Result<Option<Seq<i32>>, AllocError>
    requires task { IsRunFor ask book.now.task }
    requires of { book.now.task.program ≡ compiled.now }
    ensures { IfOk result (HasCoreIf (refutes ask.mode (board book.now)) compiled.now) }
{
    let _lawful = book.journal();
    if !refutes(ask.mode, book) {
        return Ok(None);
    }
    let core = blamed(alloc, compiled, book)?;
    Ok(Some(core))
}

/// The report with a core.
pub(crate) fn with_core(mut report: Report, core: Option<Seq<i32>>) -> Report
    ensures { result ≡ record report { core = core } }
{
    report.core = core;
    report
}
