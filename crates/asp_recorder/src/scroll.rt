//! The lines of a proof that several workers write.
//!
//! Each worker has a recorder of its own, and hands over what it wrote before anybody can learn of it. So the lines stand
//! in an order in which each follows from those before it, whoever wrote them. Sets that are found are told to the scroll itself, which
//! alone knows the one before. It also knows how many places there are, and where the nogoods that were told to others have their
//! lines: so lines name those of other workers, and no line takes the place of one that others may rest on.
ghost use Rattle.std.specs.Prelude.{◌≡◌, [], OnErr, OnOk};

use crate::finds::Finds;
use crate::recorder::{Recorder, code};
use crate::state::State;
use asp_model::cost::Cost;
use asp_model::interp::Interp;
use asp_proof::proof::{Line, Sought};
use asp_vars::lit::Lit;
use std::alloc::{AllocError, Global};
use std::collections::HashMap;
use std::mem;
use std::sync::{Mutex, MutexGuard, Wait};

/// What is under the lock.
#[derive(Drop)]
struct Page {
    // the lines that nobody has taken, in the order in which they were handed over
    lines: Vec<Line>,
    // the sets that have a line
    finds: Finds,
    // whether no line is wanted any more
    refused: bool,
    // how many places there are
    places: u32,
    // by its literals' code, the place of a nogood that was told to others
    told: HashMap<u64, u32>,
}

/// A turn at the scroll. As long as somebody has it, nobody else hands lines over.
#[derive(Drop)]
pub struct Turn<'a> {
    /// What is under the lock.
    guard: MutexGuard<'a, Page>,
}

/// The lines of a proof that several workers write.
#[derive(Drop)]
pub struct Scroll {
    // where memory comes from
    alloc: Global,
    // what is sought
    sought: Sought,
    page: Mutex<Page>,
}

impl Page {
    // Moves the lines to the end, or drops them where nothing has a line any more. When out of memory they stay where they are.
    fn append(&mut self, lines: &mut Vec<Line>) -> Result<(), AllocError>
        ensures moved { OnOk result (lines.new.items ≡ []) }
        ensures kept { OnErr result (lines.new.items ≡ lines.old.items) }
    {
        if self.refused {
            return Err(AllocError);
        }
        if self.finds.is_over() {
            lines.clear();
            return Ok(());
        }
        self.lines.append(lines)
    }

    // Adds the line of a set, if it has one.
    fn find(&mut self, alloc: Global, set: &Interp, cost: Option<&Cost>) -> Result<(), AllocError> {
        if self.refused {
            return Err(AllocError);
        }
        self.finds.find(alloc, &mut self.lines, set, cost)
    }

    // Takes over the lines that a recorder got in this turn.
    fn take_over(&mut self, state: &mut State) -> Result<(), AllocError> {
        self.append(&mut state.lines)?;
        self.places = state.places.count();
        Ok(())
    }

    // Seeks the lines of the nogoods that a recorder's search imported, which are known by their places then.
    fn find_imported(&self, state: &mut State) -> Result<(), AllocError> {
        for _ in 0..state.imported.len() {
            let Some(imported) = state.imported.pop() else {
                return Ok(());
            };
            if let Some(place) = self.told.get(&imported.code) {
                state.places.borrow_place(imported.number, *place)?;
            }
        }
        Ok(())
    }
}

impl Turn<'_> {
    /// Takes over the lines that a recorder got in this turn. When out of memory the recorder keeps them.
    pub fn take_over(&mut self, recorder: &Recorder) -> Result<(), AllocError> {
        let mut lent = recorder.lend()?;
        let state = &mut *lent;
        let page = &mut *self.guard;
        page.take_over(state)
    }
}

impl Scroll {
    /// No lines. Where all optima are sought, these are of a first search.
    pub fn new(alloc: Global, sought: Sought) -> Scroll {
        Scroll {
            alloc,
            sought,
            page: Mutex::new(Page {
                lines: Vec::new(alloc),
                finds: Finds::new(sought),
                refused: false,
                places: 0,
                told: HashMap::new(alloc),
            }),
        }
    }

    /// A turn in which a recorder gets lines: their places come behind all that there are.
    pub fn turn<R: Wait>(&self, rt: &R, recorder: &Recorder) -> Result<Turn<'_>, AllocError> {
        let mut lent = recorder.lend()?;
        let state = &mut *lent;
        let guard = self.page.lock(rt);
        let page = &*guard;
        state.places.set_count(page.places);
        Ok(Turn { guard })
    }

    /// Others are told the nogood with this number, whose line was taken over: its place is taken by no other line, and they find it
    /// by the literals. After want of memory it may be that they don't.
    pub fn tell<R: Wait>(
        &self,
        rt: &R,
        recorder: &Recorder,
        number: usize,
        nogood: &[Lit],
    ) -> Result<(), AllocError> {
        let mut lent = recorder.lend()?;
        let state = &mut *lent;
        let place = state.places.share(number);
        if place > 0 {
            let code = code(nogood);
            let mut guard = self.page.lock(rt);
            let page = &mut *guard;
            page.told.insert(code, place)?;
        }
        Ok(())
    }

    /// Seeks the lines of the nogoods that a recorder's search imported. Those that aren't found are named by no line.
    pub fn find_imported<R: Wait>(&self, rt: &R, recorder: &Recorder) -> Result<(), AllocError> {
        let mut lent = recorder.lend()?;
        let state = &mut *lent;
        if state.imported.is_empty() {
            return Ok(());
        }
        let guard = self.page.lock(rt);
        let page = &*guard;
        page.find_imported(state)
    }

    /// A set that will be listed, and what it costs where one that none betters is sought. It is told before anybody can learn of it;
    /// who has to record it before anybody tells of another one does so while it has the turn.
    pub fn found<R: Wait>(
        &self,
        rt: &R,
        set: &Interp,
        cost: Option<&Cost>,
    ) -> Result<Turn<'_>, AllocError> {
        let mut guard = self.page.lock(rt);
        let page = &mut *guard;
        page.find(self.alloc, set, cost)?;
        Ok(Turn { guard })
    }

    /// The lines so far, the oldest first, which are gone then. None where there are none.
    pub fn take<R: Wait>(&self, rt: &R) -> Option<Vec<Line>> {
        let mut guard = self.page.lock(rt);
        let page = &mut *guard;
        if page.lines.is_empty() {
            return None;
        }
        Some(mem::replace(&mut page.lines, Vec::new(self.alloc)))
    }

    /// From now on each line is refused as by want of memory.
    pub(crate) fn refuse<R: Wait>(&self, rt: &R) {
        let mut guard = self.page.lock(rt);
        let page = &mut *guard;
        page.refused = true;
    }

    /// Hands the lines to a recorder that has none, and gets those that follow. No worker writes any more.
    pub fn hand_over<R: Wait>(&self, rt: &R, recorder: &Recorder) {
        let mut guard = self.page.lock(rt);
        let page = &mut *guard;
        let lines = mem::replace(&mut page.lines, Vec::new(self.alloc));
        let finds = mem::replace(&mut page.finds, Finds::new(self.sought));
        recorder.go_on(lines, finds, page.places);
    }
}
