//! Where the lines of a proof come from.
use crate::recorder::Recorder;
use crate::scroll::Scroll;
use asp_proof::proof::Line;
use std::sync::Wait;

/// Where the lines of a proof come from, a few at a time.
pub trait Tape {
    /// The lines that came since the last call, the oldest first. None where there are none.
    fn take(&self) -> Option<Vec<Line>>;

    /// No line is wanted any more: from now on who has one fails as by want of memory.
    fn close(&self);
}

impl Tape for Recorder {
    fn take(&self) -> Option<Vec<Line>> {
        self.take_lines()
    }

    fn close(&self) {
        self.refuse();
    }
}

/// The lines of workers, and those of the main thread when these are gone.
#[derive(Clone, Copy)]
pub struct CrewTape<'a, R> {
    /// Who waits for the lock.
    pub rt: &'a R,
    /// The workers' lines.
    pub scroll: &'a Scroll,
    /// The main thread's lines, none as long as there are workers.
    pub recorder: &'a Recorder,
}

impl<R: Wait> Tape for CrewTape<'_, R> {
    fn take(&self) -> Option<Vec<Line>> {
        match self.scroll.take(self.rt) {
            Some(lines) => Some(lines),
            None => self.recorder.take_lines(),
        }
    }

    fn close(&self) {
        self.scroll.refuse(self.rt);
        self.recorder.refuse();
    }
}
