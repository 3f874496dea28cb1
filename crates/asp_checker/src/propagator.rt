//! What is kept while the lines of a proof are judged.
ghost use Rattle.std.specs.Prelude.{◌≡◌};

use crate::bounds::Bound;
use crate::judge::Why;
use crate::rows::Rows;
use crate::set_list::SetList;
use crate::watches::Watches;
use asp_vars::assign::Assign;

/// What unit propagation works on.
#[derive(Drop)]
pub struct Propagator {
    /// The sets found, in their order.
    pub(crate) found: SetList,
    /// The cost that is to be bettered.
    pub(crate) bound: Option<Bound>,
    /// The nogoods of the completion and of the lines.
    pub(crate) rows: Rows,
    /// Where to look next.
    pub(crate) watches: Watches,
    /// The values that follow from what is known for good.
    pub(crate) values: Assign,
}

impl Propagator {
    /// The sets found. All else is dropped.
    pub(crate) fn into_found(self) -> SetList
        ensures { result ≡ self.found }
    {
        let Propagator {
            found,
            bound: _,
            rows: _,
            watches: _,
            values: _,
        } = self;
        found
    }
}

/// What the bytes of a line came to, where no answer came yet.
#[derive(Clone, Copy)]
pub enum Read {
    /// No line that comes before the answers.
    Other,
    /// A line, and what is wrong with it.
    Wrong(Why),
    /// A line that is right, and known now; whether it says that there is nothing else.
    Right(bool),
}
