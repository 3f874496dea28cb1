//! What a search did so far.
ghost use Rattle.std.specs.Prelude.{◌≡◌};
ghost use Rattle.asp_counts.specs.Counting.{counted, joined, keeping, nothing, since};

use asp_search_laws::step::Step;

/// What a run did so far. A count stands still at the greatest `u64`.
#[derive(Clone, Copy)]
pub struct Counts {
    /// Conflicts: for each a unit was burnt and a nogood learnt.
    pub conflicts: u64,
    /// Literals that were decided.
    pub decisions: u64,
    /// Literals that propagation implied.
    pub propagated: u64,
    /// How often all decisions were taken back.
    pub restarts: u64,
    /// Answers: all that were found, or in an optimisation each that was cheaper than those before it.
    pub answers: u64,
    /// Nogoods that are kept, but not forever: those that were learnt, and those of propagators.
    pub kept: u64,
    /// Nogoods that were kept and are dropped, those of propagators too.
    pub dropped: u64,
    /// The query of a series that is being answered, counted from 1; 0 where there is no series.
    pub query: u64,
}

impl Counts {
    /// Nothing so far.
    pub fn new() -> Counts
        ensures { result ≡ nothing }
    {
        Counts {
            conflicts: 0,
            decisions: 0,
            propagated: 0,
            restarts: 0,
            answers: 0,
            kept: 0,
            dropped: 0,
            query: 0,
        }
    }

    /// Counts a step, whose propagation implied so many literals, and after which so many nogoods are kept, but not forever.
    pub fn count(&mut self, step: &Step, implied: u64, kept: u64)
        ensures { self.new ≡ counted step.now implied kept self.old }
    {
        match step {
            Step::Decided => self.decisions = self.decisions.saturating_add(1),
            Step::Learnt => self.conflicts = self.conflicts.saturating_add(1),
            Step::Restarted => self.restarts = self.restarts.saturating_add(1),
            Step::Answer(_) => self.answers = self.answers.saturating_add(1),
            Step::Closed(_) | Step::NoFuel(_) => {}
        }
        self.propagated = self.propagated.saturating_add(implied);
        self.keep(kept);
    }

    // So many nogoods are kept now.
    fn keep(&mut self, kept: u64)
        ensures { self.new ≡ keeping kept self.old }
    {
        self.dropped = self.dropped.saturating_add(self.kept.saturating_sub(kept));
        self.kept = kept;
    }

    /// What was done since there were these counts. So many nogoods are kept as now.
    pub fn since(&self, before: &Counts) -> Counts
        ensures { result ≡ since self.now before.now }
    {
        Counts {
            conflicts: self.conflicts.saturating_sub(before.conflicts),
            decisions: self.decisions.saturating_sub(before.decisions),
            propagated: self.propagated.saturating_sub(before.propagated),
            restarts: self.restarts.saturating_sub(before.restarts),
            answers: self.answers.saturating_sub(before.answers),
            kept: self.kept,
            dropped: self.dropped.saturating_sub(before.dropped),
            query: self.query,
        }
    }

    /// Adds what another search did. The query stays.
    pub fn add(&mut self, other: &Counts)
        ensures { self.new ≡ joined self.old other.now }
    {
        self.conflicts = self.conflicts.saturating_add(other.conflicts);
        self.decisions = self.decisions.saturating_add(other.decisions);
        self.propagated = self.propagated.saturating_add(other.propagated);
        self.restarts = self.restarts.saturating_add(other.restarts);
        self.answers = self.answers.saturating_add(other.answers);
        self.kept = self.kept.saturating_add(other.kept);
        self.dropped = self.dropped.saturating_add(other.dropped);
    }
}
