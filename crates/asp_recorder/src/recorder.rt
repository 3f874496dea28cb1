//! The lines of a proof, written down where they are found.
//!
//! What finds a line holds the recorder by a shared reference, if there is one: a propagator the loops that it gives,
//! a run what its search learns. So the lines stand in the order in which they were found, and without a recorder
//! nothing is copied. A recorder is of one thread at a time, and its lock is held by nobody else: whoever finds it locked is
//! refused as by want of memory. Whether the lines are right is for a checker to say.
ghost use Rattle.std.specs.Prelude.{◌≡◌, map, IfOk};
ghost use Rattle.asp_recorder.specs.Numbers.{number_of};

use crate::finds::Finds;
use crate::state::{Loop, State};
use asp_model::cost::Cost;
use asp_model::interp::Interp;
use asp_model::program::Atom;
use asp_model::seq::Seq;
use asp_proof::proof::{Line, Sought};
use asp_vars::lit::Lit;
use std::alloc::{AllocError, Global};
use std::sync::{Mutex, MutexGuard};

/// The lines of a proof that a run has found and nobody has taken.
#[derive(Drop)]
pub struct Recorder {
    // where memory comes from
    alloc: Global,
    // what was found
    state: Mutex<State>,
}

// The variable, with the literal's sign.
fn number(lit: Lit) -> i32
    ensures { result ≡ number_of lit }
{
    let _code = lit.code();
    let var = lit.var() as i32;
    if lit.truth() { var } else { -var }
}

fn numbers(alloc: Global, lits: &[Lit]) -> Result<Seq<i32>, AllocError>
    ensures { IfOk result (λ numbers. numbers ≡ map number_of lits.now) }
{
    let mut numbers = Vec::with_capacity(alloc, lits.len())?;
    for lit in lits {
        numbers.push(number(*lit))?;
    }
    Ok(Seq::from_vec(numbers))
}

/// A number by which nogoods are told apart, but for a few, whatever the order of their literals.
pub(crate) fn code(nogood: &[Lit]) -> u64 {
    let mut code: u64 = 0;
    for lit in nogood {
        let mut mixed = (lit.code() as u64)
            .wrapping_add(1)
            .wrapping_mul(0x9E37_79B9_7F4A_7C15);
        mixed ^= mixed >> 32;
        code = code.wrapping_add(mixed.wrapping_mul(0xD6E8_FEB8_6659_FD93));
    }
    code
}

impl Recorder {
    /// No lines. Where all optima are sought, two searches find them, of which this is the first.
    pub fn new(alloc: Global, sought: Sought) -> Recorder {
        Recorder {
            alloc,
            state: Mutex::new(State::new(alloc, sought)),
        }
    }

    /// What was found, unless somebody else looks at it.
    pub(crate) fn lend(&self) -> Result<MutexGuard<'_, State>, AllocError> {
        match self.state.try_lock() {
            Some(guard) => Ok(guard),
            None => Err(AllocError),
        }
    }

    /// The lines so far, the oldest first, which are gone then. None where there are none.
    pub(crate) fn take_lines(&self) -> Option<Vec<Line>> {
        let mut guard = self.state.try_lock()?;
        let state = &mut *guard;
        state.take_lines()
    }

    /// From now on each line is refused as by want of memory.
    pub(crate) fn refuse(&self) {
        if let Some(mut guard) = self.state.try_lock() {
            let state = &mut *guard;
            state.refused = true;
        }
    }

    /// From now on these are the lines and the sets that have one, and there are so many places.
    pub(crate) fn go_on(&self, lines: Vec<Line>, finds: Finds, places: u32) {
        if let Some(mut guard) = self.state.try_lock() {
            let state = &mut *guard;
            state.lines = lines;
            state.finds = finds;
            state.places.set_count(places);
        }
    }

    /// A set that will be listed, and where one that none betters is sought what it costs. It is told before anything that
    /// follows from it. Where all optima are sought nothing else of a first search has a line then: it would follow from the cost.
    pub fn found(&self, set: &Interp, cost: Option<&Cost>) -> Result<(), AllocError> {
        let mut guard = self.lend()?;
        let state = &mut *guard;
        if state.finds.is_over() {
            return Ok(());
        }
        state.find(set, cost)
    }

    /// A second search begins, for all that cost as much as this one, which is found so. What was written down stays.
    pub fn begin_second(&self, best: &Interp) -> Result<(), AllocError> {
        let mut guard = self.lend()?;
        let state = &mut *guard;
        state.begin_second();
        state.find(best, None)
    }

    /// A set of atoms, in any order, and its loop nogood, which a propagator gives.
    pub fn add_loop(&self, set: &[Atom], nogood: &[Lit]) -> Result<(), AllocError> {
        let mut guard = self.lend()?;
        let state = &mut *guard;
        if state.finds.is_over() {
            return Ok(());
        }
        let atoms = set.to_vec(self.alloc)?;
        let nogood = numbers(self.alloc, nogood)?;
        state.wait(Some(Loop {
            set: Interp::from_atoms(atoms),
            nogood,
        }))
    }

    /// A propagator gives a nogood that needs no line.
    pub fn add_other(&self) -> Result<(), AllocError> {
        let mut guard = self.lend()?;
        let state = &mut *guard;
        if state.finds.is_over() {
            return Ok(());
        }
        state.wait(None)
    }

    /// Whether a propagator gave a loop whose number isn't known yet.
    pub fn has_loop(&self) -> bool {
        match self.state.try_lock() {
            Some(guard) => {
                let state = &*guard;
                state.has_loop()
            }
            None => false,
        }
    }

    /// The nogoods that propagators gave have these numbers, in that order. Those without a number are kept for good.
    pub fn place_given(&self, numbers: &[usize]) -> Result<(), AllocError> {
        let mut guard = self.lend()?;
        let state = &mut *guard;
        state.place_given(numbers)
    }

    /// A nogood that was learnt, or that blocks an answer, with its number, and the numbers of those by which it was found. Without
    /// a number it is kept for good.
    pub fn add_learned(
        &self,
        number: Option<usize>,
        nogood: &[Lit],
        uses: &[usize],
    ) -> Result<(), AllocError> {
        let mut guard = self.lend()?;
        let state = &mut *guard;
        if state.finds.is_over() {
            return Ok(());
        }
        let nogood = numbers(self.alloc, nogood)?;
        state.add_learned(number, nogood, uses)
    }

    /// The cube of a path that was closed.
    pub fn add_cube(&self, cube: &[Lit]) -> Result<(), AllocError> {
        let mut guard = self.lend()?;
        let state = &mut *guard;
        if state.finds.is_over() {
            return Ok(());
        }
        let cube = numbers(self.alloc, cube)?;
        state.add(Line::Cube(cube))
    }

    /// The nogood has this number from now on, and another search wrote its line: `Scroll::find_imported` seeks that.
    pub fn import(&self, number: usize, nogood: &[Lit]) {
        if let Some(mut guard) = self.state.try_lock() {
            let state = &mut *guard;
            state.import(number, code(nogood));
        }
    }
}
