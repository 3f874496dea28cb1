//! How a stream ended.
ghost use Rattle.std.specs.Prelude.{◌≡◌, ◌+◌, []};
ghost use Rattle.asp_crew_laws.specs.Reports.{joined};
ghost use Rattle.asp_stream.specs.Endings.{report_of};

use asp_core::entry::Entry;
use asp_crew::ties::joined;
use asp_crew_laws::report::Report;
use asp_model::results::{End as ResultEnd, Mode, Results};
use asp_model::seq::Seq;
use asp_rows::rows::Rows;
use asp_rows::sets::Sets;
use asp_vars::fuel::{Conflict, Fuel};

/// How a stream ended.
#[derive(Drop)]
pub enum End {
    /// All answers were told.
    Finished,
    /// This conflict was met, and no unit was left for it.
    Unpaid(Conflict),
    /// The reader wanted no more.
    Unwanted,
}

/// What is to be said of a stream beside what was told.
#[derive(Drop)]
pub struct Told {
    /// How it ended.
    pub end: End,
    /// The answers that were found and not told, in their order.
    pub rest: Rows,
    /// What happened, the oldest event first.
    pub journal: Seq<Entry>,
    /// How many leaves the tree of paths has.
    pub leaves: u32,
    /// The units that the search worked on: those burnt, and those left.
    pub paid: Fuel,
}

/// The report of a stream, which lists those of its answers that weren't told.
pub fn into_report(told: Told) -> Report
    ensures { result ≡ report_of [] told }
{
    let Told {
        end,
        rest,
        journal,
        leaves,
        paid,
    } = told;
    let spent = paid.burnt();
    let (end, unpaid) = match end {
        End::Finished => (ResultEnd::Finished, None),
        End::Unpaid(conflict) => (ResultEnd::Unfinished, Some(conflict)),
        End::Unwanted => (ResultEnd::Unfinished, None),
    };
    Report {
        results: Results {
            mode: Mode::Enum,
            end,
            answers: Sets::from_rows(rest),
            best: None,
            known: None,
        },
        journal,
        second: None,
        spent,
        leaves,
        log: 0,
        short: false,
        unpaid,
        paid,
        core: None,
    }
}

/// The report of two searches: of a first one, which found what the optima cost, and of a stream of all optima, whose units were those that
/// the first left. It lists those of them that weren't told.
pub fn into_joined(first: Report, told: Told) -> Report
    requires program { told.paid.program ≡ first.paid.program }
    requires units { told.paid.left + told.paid.burnt ≡ first.paid.left }
    requires spent { first.paid.burnt ≡ first.spent }
    ensures { result ≡ joined first (report_of [] told) }
{
    joined(first, into_report(told))
}
