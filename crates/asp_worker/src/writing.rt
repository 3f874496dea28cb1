//! What a worker writes down of the proof.
use crate::worker::Shared;
use asp_model::interp::Interp;
use asp_model::results::Mode;
use asp_propagate::propagator::Propagator;
use asp_recorder::recorder::Recorder;
use asp_recorder::scroll::{Scroll, Turn};
use asp_search::search::Search;
use asp_search_laws::step::Step;
use asp_vars::nogood::Nogood;
use std::alloc::AllocError;
use std::sync::Wait;

// Writes down the answer that a step of an enumeration found.
fn note_answer<R: Wait>(
    rt: &R,
    scroll: &Scroll,
    mode: Mode,
    step: &Step,
) -> Result<(), AllocError> {
    match (mode, step) {
        (Mode::Enum, Step::Answer(set)) => {
            let _turn = scroll.found(rt, set, None)?;
            Ok(())
        }
        _ => Ok(()),
    }
}

// Whether the step found something that has a line: a loop, a nogood that it kept, or one by which it closed the path.
fn has_lines<P: Propagator>(search: &Search<'_, P>, step: &Step, recorder: &Recorder) -> bool {
    search.kept().is_some() || matches!(step, Step::Closed(_)) || recorder.has_loop()
}

// Writes down the loops that were given on the way, the nogood that the step kept, and that by which it closed the path.
fn note_lines<P: Propagator>(
    search: &Search<'_, P>,
    step: &Step,
    recorder: &Recorder,
) -> Result<(), AllocError> {
    recorder.place_given(search.given())?;
    if let Some(nogood) = search.kept() {
        recorder.add_learned(search.kept_number(), nogood, search.uses())?;
    }
    if let Step::Closed(nogood) = step {
        recorder.add_learned(None, nogood.lits.as_slice(), search.uses())?;
    }
    Ok(())
}

// Writes down what the step found, in one turn of the scroll if there are lines for it.
fn note_step<R: Wait, P: Propagator>(
    rt: &R,
    scroll: &Scroll,
    search: &Search<'_, P>,
    step: &Step,
    recorder: &Recorder,
) -> Result<(), AllocError> {
    if !has_lines(search, step, recorder) {
        return recorder.place_given(search.given());
    }
    let mut turn = scroll.turn(rt, recorder)?;
    note_lines(search, step, recorder)?;
    turn.take_over(recorder)
}

/// Writes down what the last step found, if a proof is wanted. No other worker has learnt of it before. In an optimisation an answer
/// is written down where it is recorded (`best_turn`).
pub(crate) fn note<R: Wait, P: Propagator>(
    rt: &R,
    shared: &Shared<'_>,
    search: &Search<'_, P>,
    step: &Step,
    recorder: Option<&Recorder>,
) -> Result<(), AllocError> {
    match (shared.scroll, recorder) {
        (Some(scroll), Some(recorder)) => {
            note_answer(rt, scroll, shared.mode, step)?;
            note_step(rt, scroll, search, step, recorder)
        }
        _ => Ok(()),
    }
}

/// Writes down the answer that a search for a best one has found, if a proof is wanted. Nobody writes another one down as long as the
/// turn lasts: so the board and the proof agree on which is the best.
pub(crate) fn best_turn<'a, R: Wait, P: Propagator>(
    rt: &R,
    shared: &Shared<'a>,
    search: &Search<'_, P>,
    set: &Interp,
) -> Result<Option<Turn<'a>>, AllocError> {
    match shared.scroll {
        None => Ok(None),
        Some(scroll) => {
            let turn = scroll.found(rt, set, search.bound())?;
            Ok(Some(turn))
        }
    }
}

/// Others are about to be told the nogood that the last step kept, of which this is a copy: their lines may name its line from then
/// on. False where memory is wanting for that.
pub(crate) fn tell<R: Wait, P: Propagator>(
    rt: &R,
    shared: &Shared<'_>,
    search: &Search<'_, P>,
    recorder: Option<&Recorder>,
    nogood: &Nogood,
) -> bool {
    match (shared.scroll, recorder, search.kept_number()) {
        (Some(scroll), Some(recorder), Some(number)) => scroll
            .tell(rt, recorder, number, nogood.lits.as_slice())
            .is_ok(),
        _ => true,
    }
}

/// The search has imported this nogood, if it was of use.
pub(crate) fn note_import<P: Propagator>(
    search: &Search<'_, P>,
    recorder: Option<&Recorder>,
    nogood: &Nogood,
    used: bool,
) {
    match (recorder, search.imported_number()) {
        (Some(recorder), Some(number)) if used => recorder.import(number, nogood.lits.as_slice()),
        _ => {}
    }
}

/// Seeks the lines of the nogoods that were imported, if a proof is wanted. Where memory is wanting for that, no line names them.
pub(crate) fn find_imported<R: Wait>(rt: &R, shared: &Shared<'_>, recorder: Option<&Recorder>) {
    if let (Some(scroll), Some(recorder)) = (shared.scroll, recorder) {
        let _found = scroll.find_imported(rt, recorder);
    }
}
