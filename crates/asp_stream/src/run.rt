//! A run of one search that tells its answers while it goes on.
ghost use Rattle.std.specs.Prelude.{◌≡◌, ◌+◌, ◌<◌, false, Bool, [], List, None, Some, IfOk, OnOk, length, replicate};
ghost use Rattle.asp_model.specs.Costs.{IsOptimum, cost, just_above, optima};
ghost use Rattle.asp_model.specs.Models.{answers};
ghost use Rattle.asp_model.specs.Sets.{Atoms};
ghost use Rattle.asp_model.specs.declared.results.Mode.TheVariants.{Enum};
ghost use Rattle.asp_vars.specs.Numbering.{var_count};
ghost use Rattle.asp_core.specs.Units.{out_of};
ghost use Rattle.asp_book.specs.Books.{Booked, board};
ghost use Rattle.asp_crew_laws.specs.Working.{MayBegin};
ghost use Rattle.asp_crew.specs.Running.{IsAlone, IsReady};
ghost use Rattle.asp_stream.specs.Streams.{IsFrontOf, IsStreamOf, leaves_of};
ghost use Rattle.asp_stream.specs.Leaves.{IsStreamAtEnd, LeavesPart};
ghost use Rattle.asp_stream.specs.Endings.{HasSome, IsBegun, IsOver, IsTelling, IsTellingOf, IsTellingOfTies, ties};

use crate::leaf::work_off;
use crate::stream::{Stream, count_on};
use crate::told::{End, Told};
use asp_core::goal::Goal;
use asp_counts::counts::Counts;
use asp_counts::watch::Watch;
use asp_model::cost::{Cost, cost_just_above};
use asp_model::interp::Interp;
use asp_model::results::Mode;
use asp_outlet::Reader;
use asp_propagate::propagator::Propagator;
use asp_propagators::propagators::Propagators;
use asp_search::search::Search;
use asp_vars::compiled::Compiled;
use asp_vars::fuel::Fuel;
use std::alloc::{AllocError, Global};
use std::mem;

// Works on one part after another, until none is left or the stream is at its end.
fn work_off_all<P: Propagator, W: Watch, R: Reader>(
    stream: &mut Stream<'_>,
    search: &mut Search<'_, P>,
    fuel: &mut Fuel,
    counts: &mut Counts,
    watch: &mut W,
    reader: &mut R,
) -> Result<End, AllocError>
    requires ready { IsReady Enum stream.old.ledger search.old fuel.old }
    requires alone { IsAlone (board stream.old.ledger) }
    requires stream { IsStreamOf stream.old (R.all reader.old) (R.heard reader.old) (leaves_of stream.old.parts.items) }
    requires program { R.program reader.old ≡ stream.old.compiled.now }
    ensures compiled { stream.new.compiled ≡ stream.old.compiled }
    ensures leaves { IfOk result (λ end. LeavesPart stream.old.ledger stream.new.ledger search.new fuel.new (Some end)) }
    ensures stream { IfOk result (λ end. IsStreamAtEnd stream.new (R.heard reader.new)) }
    ensures unwanted { IfOk result (λ end. end ≡ End.Unwanted → R.wants reader.new ≡ false) }
    ensures front { IsFrontOf stream.old.compiled.now (R.all reader.old) (R.program reader.new) (R.all reader.new) (R.heard reader.new) }
    ensures after { R.IsAfter reader.old reader.new }
    ensures heard { W.IsAfter watch.old watch.new }
{
    stream.ledger.lawful();
    'parts: loop {
        match stream.parts.pop() {
            None => return Ok(End::Finished),
            Some(part) => match work_off(stream, part, search, fuel, counts, watch, reader)? {
                None => {}
                Some(end) => return Ok(end),
            },
        }
    }
}

// What is to be said of the stream, where the fuel's units were those of its search.
fn told(stream: Stream<'_>, fuel: Fuel, end: End) -> Result<Told, AllocError>
    requires units { fuel.left + fuel.burnt ≡ out_of (board stream.ledger).out 0 }
    ensures { IfOk result (λ r. (begun : Booked) (heard : List Atoms) (wants : Bool) → IsOver begun stream.entry.ledger fuel end
        → IsStreamAtEnd stream.entry heard → (end ≡ End.Unwanted → wants ≡ false) → IsTelling begun.task heard wants r × HasSome (board begun).answers heard r) }
{
    let Stream {
        alloc: _,
        compiled: _,
        mut ledger,
        backlog,
        parts: _,
        pace: _,
        heard,
    } = stream;
    ledger.lawful();
    ledger.back(&fuel)?;
    ledger.lawful();
    let leaves = ledger.leaves();
    let rest = backlog.into_rows()?;
    let _count = count_on(heard, rest.len())?;
    Ok(Told {
        end,
        rest,
        journal: ledger.into_journal(),
        leaves,
        paid: fuel,
    })
}

// From now on only answers below the bound are sought, if there is one.
fn set_bound<P: Propagator>(
    search: &mut Search<'_, P>,
    bound: Option<Cost>,
) -> Result<(), AllocError>
    requires { search.old.bound ≡ None }
    ensures { OnOk result (search.new ≡ record search.old { bound = bound }) }
{
    match bound {
        None => Ok(()),
        Some(bound) => search.set_bound(bound),
    }
}

// Works off a stream that may begin, within so many units, by this propagator. Answers are sought below the bound, if there is one.
fn stream_by<P: Propagator, W: Watch, R: Reader>(
    mut stream: Stream<'_>,
    bound: Option<Cost>,
    budget: u64,
    propagator: P,
    counts: &mut Counts,
    watch: &mut W,
    reader: &mut R,
) -> Result<Told, AllocError>
    requires begun { IsBegun stream.ledger }
    requires budget { stream.ledger.task.budget ≡ budget }
    requires goal { MayBegin Enum bound stream.ledger.task.goal }
    requires stream { IsStreamOf stream (R.all reader.old) (R.heard reader.old) (leaves_of stream.parts.items) }
    requires reader { R.program reader.old ≡ stream.compiled.now }
    requires program { (P.told propagator).program ≡ stream.compiled.now }
    requires fresh { (P.told propagator).values ≡ replicate (var_count stream.compiled.now + 1) None }
    requires unbounded { P.bound propagator ≡ None }
    ensures told { IfOk result (IsTelling stream.entry.ledger.task (R.heard reader.new) (R.wants reader.new)) }
    ensures some { IfOk result (HasSome (board stream.entry.ledger).answers (R.heard reader.new)) }
    ensures front { IsFrontOf stream.entry.compiled.now (R.all reader.old) (R.program reader.new) (R.all reader.new) (R.heard reader.new) }
    ensures after { R.IsAfter reader.old reader.new }
    ensures heard { W.IsAfter watch.old watch.new }
{
    stream.ledger.lawful();
    let mut search = Search::new(stream.alloc, stream.compiled, Mode::Enum, propagator)?;
    set_bound(&mut search, bound)?;
    let mut fuel = Fuel::of(stream.compiled, budget);
    stream.ledger.lease(&fuel)?;
    stream.ledger.lawful();
    let ended = work_off_all(&mut stream, &mut search, &mut fuel, counts, watch, reader);
    mem::drop(search);
    told(stream, fuel, ended?)
}

/// All answers of a program, each told as soon as no smaller one can come, by one search with a budget of so many units.
///
/// It returns: each step lowers what is left to do, as it does where nothing is told, and each split the leaves that may still be made.
/// Want of memory is the one error. Whatever happens, what the reader heard is a front of the list of all answers. What the search does
/// is added to the counts, and told after each step.
pub fn stream_alone<W: Watch, R: Reader>(
    alloc: Global,
    compiled: &Compiled,
    budget: u64,
    counts: &mut Counts,
    watch: &mut W,
    reader: &mut R,
) -> Result<Told, AllocError>
    requires program { R.program reader.old ≡ compiled.now }
    requires all { R.all reader.old ≡ answers compiled.now }
    requires none { R.heard reader.old ≡ [] }
    ensures told { IfOk result (IsTellingOf compiled.now budget (R.heard reader.new) (R.wants reader.new)) }
    ensures front { IsFrontOf compiled.now (R.all reader.old) (R.program reader.new) (R.all reader.new) (R.heard reader.new) }
    ensures after { R.IsAfter reader.old reader.new }
    ensures heard { W.IsAfter watch.old watch.new }
{
    let goal = Goal::Enum;
    let stream = Stream::start(alloc, compiled, &goal, budget)?;
    let propagator = Propagators::new(alloc, compiled)?;
    stream_by(stream, None, budget, propagator, counts, watch, reader)
}

// The goal that lists what costs less than the bound.
fn below(bound: &Option<Cost>) -> Result<Goal, AllocError>
    ensures { IfOk result (λ g. g ≡ Goal.Ties bound.now) }
{
    match bound {
        None => Ok(Goal::Ties(None)),
        Some(cost) => Ok(Goal::Ties(Some(cost.copy()?))),
    }
}

// A stream of all answers that cost less than the bound, to which the best was delivered.
fn begun<'a>(
    alloc: Global,
    compiled: &'a Compiled,
    bound: &Option<Cost>,
    best: &Interp,
    budget: u64,
) -> Result<Stream<'a>, AllocError>
    requires best { IsOptimum compiled.now best.now (cost compiled.now best.now) }
    requires bound { bound.now ≡ just_above (cost compiled.now best.now) }
    ensures compiled { IfOk result (λ s. s.compiled.now ≡ compiled.now) }
    ensures task { IfOk result (λ s. s.ledger.task ≡ ties compiled.now (cost compiled.now best.now) budget) }
    ensures begun { IfOk result (λ s. IsBegun s.ledger) }
    ensures some { IfOk result (λ s. 0 < length (board s.ledger).answers) }
    ensures stream { IfOk result (λ s. IsStreamOf s (optima compiled.now) [] (leaves_of s.parts.items)) }
{
    let goal = below(bound)?;
    let mut stream = Stream::start(alloc, compiled, &goal, budget)?;
    stream.deliver(best)?;
    Ok(stream)
}

/// All optima of a program, each told as soon as no smaller one can come, by one search with a budget of so many units that looks for
/// answers which cost no more than the best one, as the second search of a run for all optima does.
///
/// It returns, what its error is, and what of its work is counted and told: as `stream_alone` says. Whatever happens, what the reader
/// heard is a front of the list of all optima.
pub fn stream_ties<W: Watch, R: Reader>(
    alloc: Global,
    compiled: &Compiled,
    best: &Interp,
    budget: u64,
    counts: &mut Counts,
    watch: &mut W,
    reader: &mut R,
) -> Result<Told, AllocError>
    requires best { IsOptimum compiled.now best.now (cost compiled.now best.now) }
    requires program { R.program reader.old ≡ compiled.now }
    requires all { R.all reader.old ≡ optima compiled.now }
    requires none { R.heard reader.old ≡ [] }
    ensures told { IfOk result (IsTellingOfTies compiled.now (cost compiled.now best.now) budget (R.heard reader.new) (R.wants reader.new)) }
    ensures some { IfOk result (λ told. 0 < length (R.heard reader.new) + length told.rest.sets) }
    ensures front { IsFrontOf compiled.now (R.all reader.old) (R.program reader.new) (R.all reader.new) (R.heard reader.new) }
    ensures after { R.IsAfter reader.old reader.new }
    ensures heard { W.IsAfter watch.old watch.new }
{
    let bound = cost_just_above(alloc, compiled.program(), best)?;
    let stream = begun(alloc, compiled, &bound, best, budget)?;
    let propagator = Propagators::new(alloc, compiled)?;
    stream_by(stream, bound, budget, propagator, counts, watch, reader)
}
