//! Which status results have.
ghost use Rattle.std.specs.Prelude.{◌≡◌};
ghost use Rattle.asp_prepare.specs.Meaning.{has_model};
ghost use Rattle.asp_top.specs.Meaning.{status_for};

use crate::status::Status;
use asp_model::results::{End, Results};
use asp_prepare::told::has_model;
use asp_rows::sets::Sets;

/// The status of results that were written and ended so, with a model or without.
pub fn status_by(end: End, model: bool) -> Status
    ensures { result ≡ status_for end model }
{
    match (end, model) {
        (End::Finished, true) => Status::All,
        (End::Finished, false) => Status::NoModel,
        (End::Limited, _) => Status::Enough,
        (End::Unfinished, true) => Status::Partial,
        (End::Unfinished, false) => Status::Unknown,
    }
}

/// The status of results that were written.
pub fn status_for(results: &Results<Sets>) -> Status
    ensures { result ≡ status_for results.now.end (has_model results.now) }
{
    status_by(results.end, has_model(results))
}
