//! A queue of numbers, each of which stands in it once.
ghost use Rattle.std.specs.Prelude.{◌≡◌, ℕ, ◌<◌, false, true, All, IfOk, IfNone, IfSome, IsTrue, length, replicate, slice_set, count_by};
ghost use Rattle.asp_model.specs.Sets.{has};
ghost use Rattle.asp_source.specs.Marks.{is_marked};

use std::alloc::{AllocError, Global};
use std::marker::Model;

/// Some of the numbers below a count, with room for all of them.
#[derive(Drop)]
pub struct Queue {
    /// For each number below the count, whether it is there.
    marks: Vec<bool>,
    /// Those that are there, each once; the last one comes first. Its room is the count.
    queue: Vec<u32>,
}

impl Model for Queue {
    ghost use Rattle.std.specs.Prelude.{List, Bool};
    ghost use Rattle.std.specs.Vec.{vec_capacity};
    ghost use Rattle.asp_source.specs.Queues.{IsQueue};

    ghost Value = { List Bool };

    ghost view = { λ q. q.marks.items };

    ghost invariant = { λ q. IsQueue q.marks.items q.queue.items (vec_capacity q.queue) };
}

impl Queue {
    /// None of the numbers below the count.
    pub fn new(alloc: Global, count: usize) -> Result<Queue, AllocError>
        ensures { IfOk result (λ q. q ≡ replicate count false) }
    {
        let marks = vec![in alloc; false; count]?;
        let queue = Vec::with_capacity(alloc, count)?;
        Ok(Queue { marks, queue })
    }

    /// Whether no number is there.
    pub fn is_empty(&self) -> bool
        ensures { result ≡ true → (k : ℕ) → is_marked self.now k ≡ false }
    {
        self.queue.is_empty()
    }

    /// The numbers, in some order.
    pub fn as_slice(&self) -> &[u32]
        ensures within { All (λ k. k < length self.now) result.now }
        ensures all { (k : ℕ) → is_marked self.now k ≡ true → IsTrue (has result.now k) }
    {
        self.queue.as_slice()
    }

    /// Adds a number, if it isn't there. It takes no memory.
    pub fn add(&mut self, number: u32)
        requires { number < length self.old }
        ensures { self.new ≡ slice_set self.old number true }
    {
        let was = self.marks[number as usize];
        self.marks[number as usize] = true;
        if was {
            return;
        }
        self.queue.push_reserved(number);
    }

    /// Takes the number that was added last.
    pub fn pop(&mut self) -> Option<u32>
        ensures same { IfNone result (self.new ≡ self.old) }
        ensures none { IfNone result ((k : ℕ) → is_marked self.old k ≡ false) }
        ensures within { IfSome result (λ k. k < length self.old) }
        ensures some { IfSome result (λ k. self.new ≡ slice_set self.old k false) }
        ensures fewer { IfSome result (λ k. count_by (λ b. b) self.new < count_by (λ b. b) self.old) }
    {
        let number = self.queue.pop()?;
        self.marks[number as usize] = false;
        Some(number)
    }
}
