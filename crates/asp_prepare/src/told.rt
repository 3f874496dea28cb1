//! What was found, told of the whole program.
ghost use Rattle.std.specs.Prelude.{◌≡◌, IfOk};
ghost use Rattle.asp_prepare.specs.Meaning.{has_model};
ghost use Rattle.asp_prepare.specs.Told.{told_with};

use asp_crew_laws::report::Report;
use asp_equal::reduce::{Aside, restore};
use asp_model::results::{Mode, Results};
use asp_rows::sets::Sets;
use std::alloc::{AllocError, Global};

/// Whether a model was recorded.
pub fn has_model(results: &Results<Sets>) -> bool
    ensures { result ≡ has_model results.now }
{
    match results.mode {
        Mode::Enum => results.answers.rows().len() != 0,
        Mode::Opt => results.answers.rows().len() != 0 || results.best.is_some(),
        Mode::Consequences(_) => results.known.is_some(),
    }
}

/// The report with what was set aside among what is known.
pub fn told_with(alloc: Global, aside: &Aside, report: Report) -> Result<Report, AllocError>
    ensures { IfOk result (λ whole. whole ≡ told_with aside.now report) }
{
    let mut report = report;
    if let Some(known) = &report.results.known {
        let whole = restore(alloc, aside, known)?;
        report.results.known = Some(whole);
    }
    Ok(report)
}
