//! Who hears how a run goes on.
use crate::counts::Counts;
use asp_model::cost::Cost;
use asp_model::interp::Interp;

/// The best answer that was found so far, of those that are compared by their costs.
#[derive(Clone, Copy)]
pub struct Best<'a> {
    /// What it costs.
    pub cost: &'a Cost,
    /// Its atoms, where who tells of it has them. That they are an answer of this cost is for who hears it to see.
    pub set: Option<&'a Interp>,
}

/// Who hears how a run goes on. Whatever it does, the run is the same.
pub trait Watch {
    /// That telling may lead from the one to the other.
    ghost IsAfter: { Self → Self → Type 0 };

    /// Hears what the run did so far, and of the best answer, where one was found of those that are compared by their costs.
    fn tell(&mut self, counts: &Counts, best: Option<Best<'_>>)
        ensures { IsAfter self.old self.new };

    /// Hears that the query which the counts name is over, and what the run did until then.
    fn end_query(&mut self, counts: &Counts)
        ensures { IsAfter self.old self.new };

    /// Hears that no query is left.
    fn end_series(&mut self)
        ensures { IsAfter self.old self.new };

    /// Nothing need be told.
    ghost begins: { (w : Self) → IsAfter w w };

    /// More may be told.
    ghost goes_on: { (u v w : Self) → IsAfter u v → IsAfter v w → IsAfter u w };
}

/// Hears nothing.
#[derive(Clone, Copy)]
pub struct Unwatched;

impl Watch for Unwatched {
    ghost IsAfter = { λ v w. Unit {0} };

    fn tell(&mut self, _counts: &Counts, _best: Option<Best<'_>>) {}

    fn end_query(&mut self, _counts: &Counts) {}

    fn end_series(&mut self) {}

    ghost begins = { λ w. tt };

    ghost goes_on = { λ u v w a b. tt };
}
