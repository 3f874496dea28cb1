//! Which of the sets that are found have a line.
//!
//! A line tells a set by what differs from the set of such a line before it, so there is one order of all of them.
use asp_model::cost::Cost;
use asp_model::interp::Interp;
use asp_proof::changes::changed_set;
use asp_proof::proof::{Line, Sought};
use std::alloc::{AllocError, Global};

/// Which sets have a line.
#[derive(Clone, Copy, PartialEq, Eq)]
enum Stage {
    /// Each.
    Each,
    /// One that costs less than the one before it.
    Cheaper,
    /// None: what the first shows is for a search that comes first.
    Until,
    /// None any more, and nothing else has: it would follow from what the first answer costs.
    Over,
}

/// The sets that have a line.
#[derive(Drop)]
pub(crate) struct Finds {
    stage: Stage,
    // the last one; none before the first
    last: Option<Interp>,
    // what it costs, where only cheaper ones have a line
    least: Option<Cost>,
}

impl Finds {
    /// None yet.
    pub(crate) fn new(sought: Sought) -> Finds {
        let stage = match sought {
            Sought::All => Stage::Each,
            Sought::Best => Stage::Cheaper,
            Sought::Optima => Stage::Until,
        };
        Finds {
            stage,
            last: None,
            least: None,
        }
    }

    /// Whether nothing has a line any more.
    pub(crate) fn is_over(&self) -> bool {
        self.stage == Stage::Over
    }

    /// From now on each set that is found has a line. None was before.
    pub(crate) fn begin_second(&mut self) {
        self.stage = Stage::Each;
    }

    // Adds the line of a set. After want of memory there is no line more.
    fn add(
        &mut self,
        alloc: Global,
        lines: &mut Vec<Line>,
        set: &Interp,
    ) -> Result<(), AllocError> {
        let change = match &self.last {
            None => changed_set(alloc, &[], set.as_slice())?,
            Some(last) => changed_set(alloc, last.as_slice(), set.as_slice())?,
        };
        let copy = set.copy()?;
        lines.push(Line::Found(change))?;
        self.last = Some(copy);
        Ok(())
    }

    // Whether the cost is less than that of the last one.
    fn is_less(&self, cost: Option<&Cost>) -> bool {
        match (&self.least, cost) {
            (None, _) => true,
            (Some(_), None) => false,
            (Some(least), Some(cost)) => *cost < *least,
        }
    }

    // Adds the line of a set, if it costs less than the last one.
    fn add_cheaper(
        &mut self,
        alloc: Global,
        lines: &mut Vec<Line>,
        set: &Interp,
        cost: Option<&Cost>,
    ) -> Result<(), AllocError> {
        if !self.is_less(cost) {
            return Ok(());
        }
        let least = match cost {
            None => None,
            Some(cost) => Some(cost.copy()?),
        };
        self.add(alloc, lines, set)?;
        self.least = least;
        Ok(())
    }

    /// Adds the line of a set, if it has one. After want of memory there is no line more.
    pub(crate) fn find(
        &mut self,
        alloc: Global,
        lines: &mut Vec<Line>,
        set: &Interp,
        cost: Option<&Cost>,
    ) -> Result<(), AllocError> {
        match self.stage {
            Stage::Each => self.add(alloc, lines, set),
            Stage::Cheaper => self.add_cheaper(alloc, lines, set, cost),
            Stage::Until => {
                self.stage = Stage::Over;
                Ok(())
            }
            Stage::Over => Ok(()),
        }
    }
}
