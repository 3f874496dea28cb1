//! A worker's search, with what pays for it.
ghost use Rattle.std.specs.Prelude.{◌≡◌, false, None, IfOk};
ghost use Rattle.asp_search.specs.Beside.{new_search};

use crate::worker::Shared;
use asp_counts::counts::Counts;
use asp_path::tree::Leaf;
use asp_propagate::propagator::Propagator;
use asp_propagators::propagators::Propagators;
use asp_recorder::recorder::Recorder;
use asp_search::search::Search;
use asp_vars::compiled::Compiled;
use asp_vars::fuel::Fuel;
use std::alloc::AllocError;
use std::mem;

/// A worker's search, with what pays for it.
#[derive(Drop)]
pub(crate) struct Engine<'a, P: Propagator> {
    /// The search of the path that the worker is on.
    pub(crate) search: Search<'a, P>,
    /// The units that it leased.
    pub(crate) fuel: Fuel,
    /// How many entries of the log it has read.
    pub(crate) read: u32,
    /// How many paths it took on.
    pub(crate) turn: u64,
    /// How many steps it made.
    pub(crate) step: u64,
    /// The rest of a path of which the other half was searched, until this worker takes it or another path.
    pub(crate) rest: Option<Leaf>,
    /// What it did.
    pub(crate) did: Counts,
    /// Where it writes down what it finds, if a proof is wanted.
    pub(crate) recorder: Option<&'a Recorder>,
}

// From now on it is noted by which nogoods each step finds what it keeps, if a proof is wanted.
fn note_uses<P: Propagator>(search: &mut Search<'_, P>, recorder: Option<&Recorder>)
    ensures { search.new ≡ search.old }
{
    if recorder.is_some() {
        search.note();
    }
}

/// A search that knows no answer, without a unit. The recorder gets what it finds, if a proof is wanted.
pub(crate) fn start<'a>(
    shared: &Shared<'_>,
    compiled: &'a Compiled,
    recorder: &'a Recorder,
) -> Result<Engine<'a, Propagators<'a>>, AllocError>
    ensures search { IfOk result (λ e. e.search ≡ new_search compiled.now shared.now.mode e.search.slots) }
    ensures fuel { IfOk result (λ e. e.fuel ≡ record { program = compiled.now; left = 0; burnt = 0; reasoned = false; known = 0; least = None }) }
    ensures read { IfOk result (λ e. e.read ≡ 0) }
{
    let recorder = shared.scroll.map(|_| recorder);
    let mut propagators = Propagators::new(shared.alloc, compiled)?;
    propagators.record(recorder);
    let mut search = Search::new(shared.alloc, compiled, shared.mode, propagators)?;
    search.keep_route();
    note_uses(&mut search, recorder);
    Ok(Engine {
        search,
        fuel: Fuel::of(compiled, 0),
        read: 0,
        turn: 0,
        step: 0,
        rest: None,
        did: Counts::new(),
        recorder,
    })
}

/// What is left of it at the end: its units, and what it did.
pub(crate) fn ended<P: Propagator>(engine: Engine<'_, P>) -> (Fuel, Counts)
    ensures { result.0 ≡ engine.entry.fuel }
{
    let Engine {
        search,
        fuel,
        read: _,
        turn: _,
        step: _,
        rest: _,
        did,
        recorder: _,
    } = engine;
    mem::drop(search);
    (fuel, did)
}
