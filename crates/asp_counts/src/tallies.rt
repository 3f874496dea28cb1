//! What each of several workers did so far.
ghost use Rattle.std.specs.Prelude.{◌≡◌, ◌-◌, ◌<◌, IfOk, IsTrue, length};
ghost use Rattle.asp_counts.specs.Counting.{together};
ghost use Rattle.asp_counts.specs.Telling.{AreNumbered, IsSumWith};

use crate::counts::Counts;
use std::alloc::{AllocError, Global};
use std::sync::{Mutex, Wait};

/// What one worker did.
#[derive(Clone, Copy)]
pub struct WorkerCounts {
    /// Its number, from 1 on.
    pub worker: u32,
    /// What its search did so far.
    pub counts: Counts,
}

/// What each of several workers did, as far as it has told.
#[derive(Drop)]
pub struct Tallies {
    /// What each worker told last, in the order of their numbers.
    told: Vec<Mutex<Counts>>,
    /// An entry for each worker, in which its counts are put at the end.
    workers: Vec<WorkerCounts>,
    ghost numbered: { AreNumbered (length told.items) workers.items },
}

// What a worker told last, or these counts where they are its own.
fn heard<R: Wait>(rt: &R, told: &Mutex<Counts>, is_own: bool, own: &Counts) -> Counts
    ensures { IsTrue is_own → result ≡ own.now }
{
    if is_own { *own } else { *told.lock(rt) }
}

// The sum of what they told last, where the worker at the place did so much.
fn sum_with<R: Wait>(rt: &R, all: &[Mutex<Counts>], place: usize, own: &Counts) -> Counts
    ensures { IsSumWith (length all.now) place own.now result }
{
    let mut sum = Counts::new();
    for (i, told) in all.iter().enumerate() {
        sum.add(&heard(rt, told, i == place, own));
    }
    sum
}

// A lock for each of so many workers, who told nothing yet.
fn locks(alloc: Global, workers: u32) -> Result<Vec<Mutex<Counts>>, AllocError>
    ensures { IfOk result (λ all. length all.items ≡ workers) }
{
    let mut all = Vec::with_capacity(alloc, workers as usize)?;
    for _i in 0..workers {
        all.push(Mutex::new(Counts::new()))?;
    }
    Ok(all)
}

// An entry for each of so many workers, in the order of their numbers.
fn numbered(alloc: Global, workers: u32) -> Result<Vec<WorkerCounts>, AllocError>
    ensures { IfOk result (λ all. AreNumbered workers all.items) }
{
    let mut all = Vec::with_capacity(alloc, workers as usize)?;
    for i in 0..workers {
        all.push(WorkerCounts {
            worker: i + 1,
            counts: Counts::new(),
        })?;
    }
    Ok(all)
}

// What the worker at the place told last; nothing, where there is none.
fn told_at(all: &mut Vec<Mutex<Counts>>, place: usize) -> Counts {
    match all.get_mut(place) {
        Some(told) => *told.get_mut(),
        None => Counts::new(),
    }
}

impl Tallies {
    ghost use Rattle.asp_counts.specs.Tallies.{count_of};

    /// Nothing so far, of so many workers. The only error is out of memory.
    pub fn new(alloc: Global, workers: u32) -> Result<Tallies, AllocError>
        ensures { IfOk result (λ tallies. count_of tallies ≡ workers) }
    {
        let told = locks(alloc, workers)?;
        let workers = numbered(alloc, workers)?;
        Ok(Tallies { told, workers })
    }

    /// The worker of this number, from 1 on, did so much; another number tells nothing. What all of them did together, as far
    /// as they have told.
    pub fn tell<R: Wait>(&self, rt: &R, worker: u32, counts: &Counts) -> Counts
        ensures { 0 < worker → IsSumWith (count_of self.now) (worker - 1) counts.now result }
    {
        let place = (worker as usize).wrapping_sub(1);
        if let Some(told) = self.told.get(place) {
            *told.lock(rt) = *counts;
        }
        sum_with(rt, self.told.as_slice(), place, counts)
    }

    /// What each of them told last, in the order of their numbers.
    pub fn into_counts(self) -> Vec<WorkerCounts>
        ensures { AreNumbered (count_of self) result.items }
    {
        let Tallies {
            mut told,
            mut workers,
        } = self;
        for (i, worker) in workers.iter_mut().enumerate() {
            worker.counts = told_at(&mut told, i);
        }
        workers
    }
}

/// What they did together.
pub fn sum_of(workers: &[WorkerCounts]) -> Counts
    ensures { result ≡ together (λ w. w.counts) workers.now }
{
    let mut sum = Counts::new();
    for worker in workers {
        sum.add(&worker.counts);
    }
    sum
}
