//! Numbers with their names.
ghost use Rattle.std.specs.Prelude.{◌≡◌, None, [], length};
ghost use Rattle.std.specs.List.{flat_map};
ghost use Rattle.asp_model.specs.Models.{atoms_of};
ghost use Rattle.asp_vars.specs.Numbering.{bodies_of};
ghost use Rattle.asp_buffer.specs.Out.{Puts, out};
ghost use Rattle.asp_top.specs.Counts.{item_text, label_of, loop_items, part_items, program_items, report_items, search_items, told_items, worker_items};
ghost use Rattle.asp_top.specs.Progress.{nothing};

use asp_buffer::{Waiting, put, put_number};
use asp_counts::counts::Counts;
use asp_counts::tallies::WorkerCounts;
use asp_crew::report::Report;
use asp_io::{Failed, Sink};
use asp_model::seq::Seq;
use asp_vars::compiled::Compiled;
use std::alloc::Global;

/// What a number counts. The names with `SoFar` stand on the line of a run that goes on, those with `Its` on the line of a
/// worker, the others on lines at the end of a run or of a query.
#[derive(Clone, Copy)]
pub enum What {
    Spent,
    Leaves,
    Log,
    Decisions,
    Propagated,
    Restarts,
    Kept,
    Dropped,
    Worker,
    ItsConflicts,
    ItsDecisions,
    ItsPropagated,
    ItsRestarts,
    ItsAnswers,
    ItsKept,
    ItsDropped,
    Atoms,
    Bodies,
    Loops,
    SoFarConflicts,
    SoFarDecisions,
    SoFarRestarts,
    SoFarKept,
    SoFarAnswers,
    Query,
    Queries,
    SeriesConflicts,
}

/// A number, and what it counts.
#[derive(Clone, Copy)]
pub struct Item {
    /// What is counted.
    pub what: What,
    /// How much there is of it.
    pub number: u64,
}

impl Item {
    // So much of something.
    fn of(what: What, number: u64) -> Item
        ensures { result ≡ record { what = what; number = number } }
    {
        Item { what, number }
    }
}

/// What was counted of a run beside its report.
#[derive(Drop)]
pub struct Tally {
    /// What the searches did together.
    pub search: Counts,
    /// What each worker did, where several worked side by side.
    pub workers: Seq<WorkerCounts>,
    /// The program's standing atoms.
    pub atoms: u64,
    /// The distinct bodies of its rules in force.
    pub bodies: u64,
    /// The components of its positive dependencies that have a loop, where they are counted.
    pub loops: Option<u64>,
}

impl Tally {
    /// Nothing yet.
    pub fn new(alloc: Global) -> Tally
        ensures { result ≡ record { search = nothing; workers = []; atoms = 0; bodies = 0; loops = None } }
    {
        Tally {
            search: Counts::new(),
            workers: Seq::from_vec(Vec::new(alloc)),
            atoms: 0,
            bodies: 0,
            loops: None,
        }
    }

    /// What is counted of this program, with its loops where they are, what the searches did together, and what each worker
    /// did.
    pub fn of(
        compiled: &Compiled,
        loops: Option<u64>,
        search: Counts,
        workers: Vec<WorkerCounts>,
    ) -> Tally
        ensures search { result.search ≡ search }
        ensures workers { result.workers ≡ workers.items }
        ensures atoms { result.atoms ≡ length (atoms_of compiled.now) }
        ensures bodies { result.bodies ≡ length (bodies_of compiled.now) }
        ensures loops { result.loops ≡ loops }
    {
        Tally {
            search,
            workers: Seq::from_vec(workers),
            atoms: compiled.atom_count() as u64,
            bodies: compiled.body_count() as u64,
            loops,
        }
    }
}

// What stands before a number.
fn label_of(what: What) -> &'static [u8]
    ensures { result.now ≡ label_of what }
{
    match what {
        What::Spent => b"Conflicts: ",
        What::Leaves => b"\nLeaves: ",
        What::Log => b"\nLog: ",
        What::Decisions => b"\nDecisions: ",
        What::Propagated => b"\nPropagated: ",
        What::Restarts => b"\nRestarts: ",
        What::Kept => b"\nKept: ",
        What::Dropped => b"\nDropped: ",
        What::Worker => b"\nWorker ",
        What::ItsConflicts => b": conflicts ",
        What::ItsDecisions => b", decisions ",
        What::ItsPropagated => b", propagated ",
        What::ItsRestarts => b", restarts ",
        What::ItsAnswers => b", answers ",
        What::ItsKept => b", kept ",
        What::ItsDropped => b", dropped ",
        What::Atoms => b"\nAtoms: ",
        What::Bodies => b"\nBodies: ",
        What::Loops => b"\nLoops: ",
        What::SoFarConflicts => b"Progress: conflicts ",
        What::SoFarDecisions => b", decisions ",
        What::SoFarRestarts => b", restarts ",
        What::SoFarKept => b", nogoods ",
        What::SoFarAnswers => b", answers ",
        What::Query => b"Query: ",
        What::Queries => b"Queries: ",
        What::SeriesConflicts => b"\nConflicts: ",
    }
}

fn put_item<N: Sink>(notes: &mut N, waiting: &mut Waiting, item: &Item) -> Result<(), Failed>
    ensures { Puts (out (N.held notes.old) (N.faults notes.old) waiting.old)
        (out (N.held notes.new) (N.faults notes.new) waiting.new) result (item_text item.now) }
{
    put(notes, waiting, label_of(item.what))?;
    put_number(notes, waiting, item.number)
}

/// Puts out the numbers, each behind its name.
pub fn put_items<N: Sink>(
    notes: &mut N,
    waiting: &mut Waiting,
    items: &[Item],
) -> Result<(), Failed>
    ensures { Puts (out (N.held notes.old) (N.faults notes.old) waiting.old)
        (out (N.held notes.new) (N.faults notes.new) waiting.new) result (flat_map item_text items.now) }
{
    for item in items {
        put_item(notes, waiting, item)?;
    }
    Ok(())
}

/// What a report counts, and the conflicts of the searches where it counts fewer, in the order of its lines.
pub fn report_items(report: &Report, counts: &Counts) -> [Item; 3]
    ensures { result ≡ report_items report.now counts.now }
{
    [
        Item::of(What::Spent, report.spent.max(counts.conflicts)),
        Item::of(What::Leaves, report.leaves as u64),
        Item::of(What::Log, report.log as u64),
    ]
}

/// What the searches did together, in the order of its lines.
pub fn search_items(counts: &Counts) -> [Item; 5]
    ensures { result ≡ search_items counts.now }
{
    [
        Item::of(What::Decisions, counts.decisions),
        Item::of(What::Propagated, counts.propagated),
        Item::of(What::Restarts, counts.restarts),
        Item::of(What::Kept, counts.kept),
        Item::of(What::Dropped, counts.dropped),
    ]
}

/// What one of several workers did, in the order of its line.
pub fn worker_items(worker: &WorkerCounts) -> [Item; 8]
    ensures { result ≡ worker_items worker.now }
{
    [
        Item::of(What::Worker, worker.worker as u64),
        Item::of(What::ItsConflicts, worker.counts.conflicts),
        Item::of(What::ItsDecisions, worker.counts.decisions),
        Item::of(What::ItsPropagated, worker.counts.propagated),
        Item::of(What::ItsRestarts, worker.counts.restarts),
        Item::of(What::ItsAnswers, worker.counts.answers),
        Item::of(What::ItsKept, worker.counts.kept),
        Item::of(What::ItsDropped, worker.counts.dropped),
    ]
}

/// What the program has, in the order of its lines.
pub fn program_items(tally: &Tally) -> [Item; 2]
    ensures { result ≡ program_items tally.now }
{
    [
        Item::of(What::Atoms, tally.atoms),
        Item::of(What::Bodies, tally.bodies),
    ]
}

/// How many components of the program have a loop.
pub fn loop_items(loops: u64) -> [Item; 1]
    ensures { result ≡ loop_items loops }
{
    [Item::of(What::Loops, loops)]
}

/// What stands before the other counts of a query, or with `all` of a series.
pub fn part_items(all: bool, counts: &Counts) -> [Item; 2]
    ensures { result ≡ part_items all counts.now }
{
    let what = if all { What::Queries } else { What::Query };
    [
        Item::of(what, counts.query),
        Item::of(What::SeriesConflicts, counts.conflicts),
    ]
}

/// What a line of a run that goes on tells, in its order.
pub fn told_items(counts: &Counts) -> [Item; 5]
    ensures { result ≡ told_items counts.now }
{
    [
        Item::of(What::SoFarConflicts, counts.conflicts),
        Item::of(What::SoFarDecisions, counts.decisions),
        Item::of(What::SoFarRestarts, counts.restarts),
        Item::of(What::SoFarKept, counts.kept),
        Item::of(What::SoFarAnswers, counts.answers),
    ]
}
