//! By which kept nogoods a step found something, where a proof is wanted. It is advice for whoever checks the proof: no clause
//! says it, and out of memory less of it is noted.
ghost use Rattle.std.specs.Prelude.{◌≤◌};

use asp_analyze::learn::Learner;
use asp_analyze::steps::{Step, add_trail, sort};
use asp_store::store::Store;
use asp_trail::reasons::NogoodId;
use asp_trail::trail::Trail;
use std::alloc::{AllocError, Global};

/// What is noted of a step.
#[derive(Drop)]
pub struct Uses {
    // whether anything is noted
    is_noted: bool,
    // what noting takes memory for
    steps: Vec<Step>,
    // the nogoods by which the step found something, in the order in which they said something
    numbers: Vec<NogoodId>,
    // the nogoods that propagators gave in the step, and how many they had given before
    given: Vec<NogoodId>,
    given_before: usize,
    // the nogood that was imported last
    imported: Option<NogoodId>,
}

impl Uses {
    /// Nothing, and nothing is to be noted.
    pub(crate) fn new(alloc: Global) -> Uses {
        Uses {
            is_noted: false,
            steps: Vec::new(alloc),
            numbers: Vec::new(alloc),
            given: Vec::new(alloc),
            given_before: 0,
            imported: None,
        }
    }

    /// From now on something is noted.
    pub(crate) fn begin(&mut self) {
        self.is_noted = true;
    }

    /// A step begins, with this store.
    pub(crate) fn clear(&mut self, store: &Store) {
        self.given.clear();
        self.given_before = store.given().len();
        self.steps.clear();
        self.numbers.clear();
    }

    // Adds the numbers of the steps.
    fn add_steps(&mut self) -> Result<(), AllocError> {
        for step in &self.steps {
            self.numbers.push(step.id)?;
        }
        Ok(())
    }

    // Adds what the last conflict was resolved with, and last the nogood that was violated.
    fn add_conflict(
        &mut self,
        learner: &Learner,
        trail: &Trail,
        id: NogoodId,
    ) -> Result<(), AllocError>
        requires { learner.now ≤ trail.now.vars }
    {
        learner.add_resolved(&mut self.steps, trail)?;
        sort(&mut self.steps);
        self.add_steps()?;
        self.numbers.push(id)?;
        Ok(())
    }

    // Adds by what all entries were implied.
    fn add_entries(&mut self, trail: &Trail) -> Result<(), AllocError> {
        add_trail(&mut self.steps, trail)?;
        self.add_steps()
    }

    // Adds what propagators gave.
    fn add_given(&mut self, store: &Store) -> Result<(), AllocError> {
        let given = store.given();
        for place in self.given_before..given.len() {
            self.given.push(given[place] as usize)?;
        }
        Ok(())
    }

    /// Notes what propagators gave in the step so far.
    pub(crate) fn note_given(&mut self, store: &Store) {
        if self.is_noted {
            let _ = self.add_given(store);
        }
    }

    /// Notes what the last conflict was resolved with, and the nogood that was violated.
    pub(crate) fn note_conflict(&mut self, learner: &Learner, trail: &Trail, id: NogoodId)
        requires { learner.now ≤ trail.now.vars }
    {
        if self.is_noted {
            let _ = self.add_conflict(learner, trail, id);
        }
    }

    /// Notes by what an answer's values were implied.
    pub(crate) fn note_answer(&mut self, trail: &Trail) {
        if self.is_noted {
            let _ = self.add_entries(trail);
        }
    }

    /// Notes the number of a nogood that is imported.
    pub(crate) fn note_imported(&mut self, id: NogoodId) {
        self.imported = Some(id);
    }

    /// The nogoods by which the step found something.
    pub(crate) fn numbers(&self) -> &[NogoodId] {
        self.numbers.as_slice()
    }

    /// The nogoods that propagators gave in the step.
    pub(crate) fn given(&self) -> &[NogoodId] {
        self.given.as_slice()
    }

    /// The nogood that was imported last.
    pub(crate) fn imported(&self) -> Option<NogoodId> {
        self.imported
    }
}
