//! A run of several searches that tells its answers while it goes on.
ghost use Rattle.std.specs.Prelude.{◌≡◌, ◌<◌, ◌++◌, [], IfOk, OnOk, false};
ghost use denote.Param.Send.{IsSync};
ghost use mathlib.Core.List.{IsPrefix};
ghost use Rattle.asp_model.specs.Models.{answers};
ghost use Rattle.asp_split.specs.Dividing.{AreLeaves, sets_of};
ghost use Rattle.asp_stream.specs.Endings.{IsTellingOf};
ghost use Rattle.asp_stream.specs.Streams.{IsFrontOf};
ghost use Rattle.asp_parts.specs.Courses.{IsCourse, IsOver, IsRun, IsTelling, MakesUp};
ghost use Rattle.asp_parts.specs.Parts.{AreParts, HasSame, sets_back};
ghost use Rattle.asp_parts.specs.Rounds.{AreWorkers, IsBench};

use crate::course::{Course, ripen, tell_all};
use crate::end::told;
use crate::pace::{Limit, Pace, TRIED_ROOM, TRIED_UNITS, first_pieces, is_rich, is_small};
use crate::part::Part;
use crate::round::{Crew, round};
use crate::worker::{Bench, Worker, put_all};
use asp_counts::counts::Counts;
use asp_counts::watch::{Unwatched, Watch};
use asp_outlet::Reader;
use asp_propagators::propagators::Propagators;
use asp_query::kept::KeptSearch;
use asp_split::divider::Divider;
use asp_split::leaf::Leaf;
use asp_stream::{Told, stream_alone};
use asp_vars::compiled::Compiled;
use std::alloc::{AllocError, Global};
use std::mem;
use std::sync::Wait;
use std::thread::{Threads, join_mut};

/// A run: who works, what is left, and what was told.
#[derive(Drop)]
pub(crate) struct Run<'a> {
    /// Who works.
    pub crew: Crew<'a>,
    /// What is left, the next part last.
    pub parts: Vec<Part>,
    /// What was told.
    pub course: Course,
}

// Who divides the program's parts.
fn divider_of<'a>(
    alloc: Global,
    compiled: &'a Compiled,
) -> Result<Divider<'a, Propagators<'a>>, AllocError>
    ensures { IfOk result (λ d. d ≡ compiled.now) }
{
    let propagator = Propagators::new(alloc, compiled)?;
    Divider::new(alloc, compiled, propagator)
}

// The leaves of the program's first parts; none where propagation shows that there is no answer.
fn first_leaves(
    divider: &mut Divider<'_, Propagators<'_>>,
    pieces: usize,
) -> Result<Vec<Leaf>, AllocError>
    requires { 0 < pieces }
    ensures same { divider.new ≡ divider.old }
    ensures leaves { IfOk result (λ leaves. AreLeaves divider.old leaves.items) }
    ensures sets { IfOk result (λ leaves. sets_of divider.old leaves.items ≡ answers divider.old) }
{
    let mut whole = divider.whole()?;
    match whole.pop() {
        None => Ok(whole),
        Some(leaf) => divider.divide(leaf, pieces),
    }
}

// The program in parts for so many workers.
fn first_parts(alloc: Global, compiled: &Compiled, workers: u32) -> Result<Vec<Part>, AllocError>
    ensures { IfOk result (λ parts. IsTelling compiled.now [] parts.items) }
{
    let mut divider = divider_of(alloc, compiled)?;
    let leaves = first_leaves(&mut divider, first_pieces(workers));
    mem::drop(divider);
    let leaves = leaves?;
    let mut parts = Vec::new(alloc);
    put_all(compiled, &mut parts, leaves, 0)?;
    Ok(parts)
}

// A worker that did nothing.
fn worker_of<'a>(
    alloc: Global,
    compiled: &'a Compiled,
    pace: &Pace,
) -> Result<Worker<'a>, AllocError>
    ensures { IfOk result (λ w. IsBench compiled.now w.bench) }
{
    let divider = divider_of(alloc, compiled)?;
    let bench = Bench {
        alloc,
        compiled,
        divider,
        search: KeptSearch::new(alloc, compiled, u64::MAX),
        allowance: pace.allowance(),
        limit: Limit::new(),
        counts: Counts::new(),
        before: Counts::new(),
    };
    Ok(Worker {
        bench,
        done: Vec::new(alloc),
        short: false,
    })
}

// Puts so many workers more that did nothing behind the others.
fn add_workers<'a>(
    alloc: Global,
    compiled: &'a Compiled,
    count: u32,
    pace: &Pace,
    workers: &mut Vec<Worker<'a>>,
) -> Result<(), AllocError>
    requires { AreWorkers compiled.now workers.old.items }
    ensures { AreWorkers compiled.now workers.new.items }
{
    for _ in 0..count {
        let worker = worker_of(alloc, compiled, pace)?;
        workers.push(worker)?;
    }
    Ok(())
}

// So many workers that did nothing.
fn workers_of<'a>(
    alloc: Global,
    compiled: &'a Compiled,
    count: u32,
    pace: &Pace,
) -> Result<Vec<Worker<'a>>, AllocError>
    ensures { IfOk result (λ workers. AreWorkers compiled.now workers.items) }
{
    let mut workers = Vec::with_capacity(alloc, count as usize)?;
    match add_workers(alloc, compiled, count, pace, &mut workers) {
        Ok(()) => Ok(workers),
        Err(error) => {
            mem::drop(workers);
            Err(error)
        }
    }
}

// A run at its begin, of so many workers.
fn begin<'a>(
    alloc: Global,
    compiled: &'a Compiled,
    workers: u32,
    before: &Counts,
) -> Result<Run<'a>, AllocError>
    ensures { IfOk result (IsRun compiled.now []) }
{
    let course = Course {
        journal: Vec::new(alloc),
        heard: 0,
    };
    let pace = Pace::new(compiled.atoms().as_slice().len());
    let parts = first_parts(alloc, compiled, workers)?;
    match workers_of(alloc, compiled, workers, &pace) {
        Ok(workers) => Ok(Run {
            crew: Crew {
                workers,
                pace,
                before: *before,
                counts: *before,
            },
            parts,
            course,
        }),
        Err(error) => {
            mem::drop(parts);
            mem::drop(course);
            Err(error)
        }
    }
}

// One round of the workers, in a thread of its own where one can be made. Meanwhile the answers are told that are known of the parts that
// come first: false where no more are wanted.
fn search_and_tell<T: Threads + Sync, R: Reader>(
    rt: &T,
    alloc: Global,
    compiled: &Compiled,
    crew: &mut Crew<'_>,
    parts: &mut Vec<Part>,
    course: &mut Course,
    ripe: &mut Vec<Part>,
    reader: &mut R,
) -> (Result<(), AllocError>, Result<bool, AllocError>)
    requires workers { AreWorkers compiled.now crew.old.workers.items }
    requires parts { AreParts compiled.now parts.old.items }
    requires program { R.program reader.old ≡ compiled.now }
    requires all { R.all reader.old ≡ answers compiled.now }
    requires course { IsCourse (R.heard reader.old) course.old }
    requires ripe { AreParts compiled.now ripe.old.items }
    requires front { IsPrefix (R.heard reader.old ++ sets_back compiled.now ripe.old.items) (answers compiled.now) }
    ensures workers { AreWorkers compiled.now crew.new.workers.items }
    ensures same { OnOk result.0 (HasSame compiled.now parts.old.items parts.new.items) }
    ensures course { IfOk result.1 (λ wanted. IsCourse (R.heard reader.new) course.new) }
    ensures told { IfOk result.1 (λ wanted. MakesUp compiled.now (R.heard reader.old ++ sets_back compiled.now ripe.old.items) (R.heard reader.new) ripe.new.items) }
    ensures unwanted { IfOk result.1 (λ wanted. wanted ≡ false → R.wants reader.new ≡ false) }
    ensures front { IsFrontOf compiled.now (R.all reader.old) (R.program reader.new) (R.all reader.new) (R.heard reader.new) }
    ensures after { R.IsAfter reader.old reader.new }
{
    let mut search = || -> Result<(), AllocError>
        requires { IsSync T.row × AreWorkers compiled.now crew.now.workers.items × AreParts compiled.now parts.now.items }
        ensures { AreWorkers compiled.entry.now crew.exit.now.workers.items × OnOk result (HasSame compiled.entry.now parts.entry.now.items parts.exit.now.items) }
    { round(rt, alloc, compiled, crew, parts) };
    let mut tell = || -> Result<bool, AllocError>
        requires program { R.program reader.now ≡ compiled.now }
        requires all { R.all reader.now ≡ answers compiled.now }
        requires course { IsCourse (R.heard reader.now) course.now }
        requires ripe { AreParts compiled.now ripe.now.items }
        requires front { IsPrefix (R.heard reader.now ++ sets_back compiled.now ripe.now.items) (answers compiled.now) }
        ensures course { IfOk result (λ wanted. IsCourse (R.heard reader.exit.now) course.exit.now) }
        ensures told { IfOk result (λ wanted. MakesUp compiled.entry.now (R.heard reader.entry.now ++ sets_back compiled.entry.now ripe.entry.now.items) (R.heard reader.exit.now) ripe.exit.now.items) }
        ensures unwanted { IfOk result (λ wanted. wanted ≡ false → R.wants reader.exit.now ≡ false) }
        ensures front { IsFrontOf compiled.entry.now (R.all reader.entry.now) (R.program reader.exit.now) (R.all reader.exit.now) (R.heard reader.exit.now) }
        ensures after { R.IsAfter reader.entry.now reader.exit.now }
    { tell_all(compiled, course, ripe, reader) };
    join_mut(rt, &mut search, &mut tell)
}

// One round; meanwhile the answers are told that were known before. False where no more are wanted.
fn go_on<T: Threads + Sync, W: Watch, R: Reader>(
    rt: &T,
    alloc: Global,
    compiled: &Compiled,
    run: &mut Run<'_>,
    counts: &mut Counts,
    watch: &mut W,
    reader: &mut R,
) -> Result<bool, AllocError>
    requires program { R.program reader.old ≡ compiled.now }
    requires all { R.all reader.old ≡ answers compiled.now }
    requires run { IsRun compiled.now (R.heard reader.old) run.old }
    ensures run { IfOk result (λ wanted. IsRun compiled.now (R.heard reader.new) run.new) }
    ensures unwanted { IfOk result (λ wanted. wanted ≡ false → R.wants reader.new ≡ false) }
    ensures front { IsFrontOf compiled.now (R.all reader.old) (R.program reader.new) (R.all reader.new) (R.heard reader.new) }
    ensures after { R.IsAfter reader.old reader.new }
    ensures heard { W.IsAfter watch.old watch.new }
{
    let mut ripe = ripen(&mut run.parts)?;
    let (searched, told) = search_and_tell(
        rt,
        alloc,
        compiled,
        &mut run.crew,
        &mut run.parts,
        &mut run.course,
        &mut ripe,
        reader,
    );
    *counts = run.crew.counts;
    let put = run.parts.append(&mut ripe);
    mem::drop(ripe);
    put?;
    run.crew.pace.tell(run.course.heard);
    watch.tell(counts, None);
    searched.and(told)
}

// Round after round, until all was told or no more is wanted: true where all was.
fn go_through<T: Threads + Wait + Sync, W: Watch, R: Reader>(
    rt: &T,
    alloc: Global,
    compiled: &Compiled,
    run: &mut Run<'_>,
    counts: &mut Counts,
    watch: &mut W,
    reader: &mut R,
) -> Result<bool, AllocError>
    requires program { R.program reader.old ≡ compiled.now }
    requires all { R.all reader.old ≡ answers compiled.now }
    requires run { IsRun compiled.now (R.heard reader.old) run.old }
    ensures course { IfOk result (λ all. IsCourse (R.heard reader.new) run.new.course) }
    ensures over { IfOk result (IsOver compiled.now (R.heard reader.new) (R.wants reader.new)) }
    ensures front { IsFrontOf compiled.now (R.all reader.old) (R.program reader.new) (R.all reader.new) (R.heard reader.new) }
    ensures after { R.IsAfter reader.old reader.new }
    ensures heard { W.IsAfter watch.old watch.new }
{
    'rounds: for _ in rt.forever() {
        if run.parts.is_empty() {
            return Ok(true);
        }
        if !go_on(rt, alloc, compiled, run, counts, watch, reader)? {
            return Ok(false);
        }
    }
    unreachable!()
}

// Whether several searches are of use: where the program is large, all answers are found at once, or hardly one is, one search does as well.
fn is_of_use(alloc: Global, compiled: &Compiled, counts: &mut Counts) -> Result<bool, AllocError> {
    if !is_small(compiled.vars()) {
        return Ok(false);
    }
    let before = *counts;
    let mut search = KeptSearch::new(alloc, compiled, u64::MAX);
    let whole: [i32; 0] = [];
    let asked = search.ask(&whole, TRIED_UNITS, TRIED_ROOM, counts, &mut Unwatched);
    mem::drop(search);
    let is_left = asked?.is_none();
    Ok(is_left && is_rich(counts.since(&before).answers))
}

// All answers, by several searches.
fn stream_by_several<T: Threads + Wait + Sync, W: Watch, R: Reader>(
    rt: &T,
    alloc: Global,
    compiled: &Compiled,
    budget: u64,
    workers: u32,
    counts: &mut Counts,
    watch: &mut W,
    reader: &mut R,
) -> Result<Told, AllocError>
    requires program { R.program reader.old ≡ compiled.now }
    requires all { R.all reader.old ≡ answers compiled.now }
    requires none { R.heard reader.old ≡ [] }
    ensures told { IfOk result (IsTellingOf compiled.now budget (R.heard reader.new) (R.wants reader.new)) }
    ensures front { IsFrontOf compiled.now (R.all reader.old) (R.program reader.new) (R.all reader.new) (R.heard reader.new) }
    ensures after { R.IsAfter reader.old reader.new }
    ensures heard { W.IsAfter watch.old watch.new }
{
    let mut run = begin(alloc, compiled, workers, counts)?;
    let all = go_through(rt, alloc, compiled, &mut run, counts, watch, reader);
    let Run {
        crew,
        parts,
        course,
    } = run;
    mem::drop(crew);
    mem::drop(parts);
    let Course { journal, heard: _ } = course;
    match all {
        Ok(all) => told(alloc, compiled, budget, journal, all),
        Err(error) => {
            mem::drop(journal);
            Err(error)
        }
    }
}

/// All answers of a program, each told as soon as no smaller one can come, by so many searches side by side, each of some parts of the
/// program, in threads of their own where these can be made; or by one search, where hardly an answer comes at first. Of several searches
/// conflicts aren't limited: of the budget's units none is burnt.
///
/// Want of memory is the one error. Whatever happens, what the reader heard is a front of the list of all answers. What the searches do is
/// added up in the counts, and told after each round.
pub fn stream_parts<T: Threads + Wait + Sync, W: Watch, R: Reader>(
    rt: &T,
    alloc: Global,
    compiled: &Compiled,
    budget: u64,
    workers: u32,
    counts: &mut Counts,
    watch: &mut W,
    reader: &mut R,
) -> Result<Told, AllocError>
    requires program { R.program reader.old ≡ compiled.now }
    requires all { R.all reader.old ≡ answers compiled.now }
    requires none { R.heard reader.old ≡ [] }
    ensures told { IfOk result (IsTellingOf compiled.now budget (R.heard reader.new) (R.wants reader.new)) }
    ensures front { IsFrontOf compiled.now (R.all reader.old) (R.program reader.new) (R.all reader.new) (R.heard reader.new) }
    ensures after { R.IsAfter reader.old reader.new }
    ensures heard { W.IsAfter watch.old watch.new }
{
    if is_of_use(alloc, compiled, counts)? {
        stream_by_several(rt, alloc, compiled, budget, workers, counts, watch, reader)
    } else {
        stream_alone(alloc, compiled, budget, counts, watch, reader)
    }
}
