//! The outputs of a program side by side: what is written for a run of them stands in one row of bytes.
ghost use Rattle.std.specs.Prelude.{◌≡◌, ◌++◌, [], ◌∷◌, ◌-◌, ◌<◌, ◌≤◌, Bool, true, drop, length, take, IfOk};
ghost use Rattle.asp_print.specs.Shown.{pieces};
ghost use Rattle.asp_model.specs.Sets.{IsAscending};
ghost use Rattle.asp_print.specs.Rows.{HasTextsOf, IsConditionOf, IsRowAmong, IsTableBy, IsTableOf, less_between, row_between, shown_at};

use crate::holding::{Among, all_hold};
use asp_model::outputs::Outputs;
use asp_model::program::Atom;
use asp_rows::bits::{Bit, bit_of};
use asp_rows::row::Row;
use std::alloc::{AllocError, Global};

/// When an output is shown.
#[derive(Clone, Copy)]
pub(crate) enum Condition {
    Always,
    Never,
    /// Where the atom of this bit is in the set.
    With(Bit),
    /// Where it isn't.
    Without(Bit),
    /// Where two literals or more hold, which only the output has.
    Several,
}

/// What is read of all outputs for each answer.
#[derive(Drop)]
pub struct OutputTable {
    /// For each output when it is shown.
    conditions: Vec<Condition>,
    /// The byte between two texts.
    between: u8,
    /// The texts, each after such a byte.
    texts: Vec<u8>,
    /// For each output where that byte stands in `texts`, and one more for where the last text ends.
    starts: Vec<usize>,
}

fn condition_on(atoms: &[Atom], literal: i32) -> Condition
    requires { IsAscending atoms.now }
    ensures { IsConditionOf atoms.now (literal ∷ []) result }
{
    match bit_of(atoms, literal.unsigned_abs()) {
        Some(bit) if literal < 0 => Condition::Without(bit),
        Some(bit) => Condition::With(bit),
        None if literal < 0 => Condition::Always,
        None => Condition::Never,
    }
}

fn condition_of(atoms: &[Atom], literals: &[i32]) -> Condition
    requires { IsAscending atoms.now }
    ensures { IsConditionOf atoms.now literals.now result }
{
    match literals {
        [] => Condition::Always,
        [literal] => condition_on(atoms, *literal),
        _ => Condition::Several,
    }
}

fn part(bytes: &[u8], from: usize, to: usize) -> &[u8]
    requires from { from ≤ to }
    requires to { to ≤ length bytes.now }
    ensures { result.now ≡ take (to - from) (drop from bytes.now) }
{
    &bytes[from..to]
}

impl OutputTable {
    /// The table of outputs that are written with this byte between two texts.
    pub fn of(
        alloc: Global,
        between: u8,
        atoms: &[Atom],
        outputs: &Outputs,
    ) -> Result<OutputTable, AllocError>
        requires { IsAscending atoms.now }
        ensures { IfOk result (IsTableBy between atoms.now outputs.now) }
    {
        let mut conditions = Vec::with_capacity(alloc, outputs.len())?;
        let mut texts = Vec::new(alloc);
        let mut starts = vec![in alloc; 0]?;
        for i in 0..outputs.len() {
            let output = outputs.output(i);
            conditions.push(condition_of(atoms, output.condition))?;
            texts.push(between)?;
            texts.extend_from_slice(output.text)?;
            starts.push(texts.len())?;
        }
        Ok(OutputTable {
            conditions,
            between,
            texts,
            starts,
        })
    }

    // Whether an output is shown.
    fn shows(&self, atoms: &[Atom], outputs: &Outputs, row: &Row, i: usize) -> bool
        requires table { IsTableOf atoms.now outputs.now self.now }
        requires row { IsRowAmong atoms.now row.now }
        requires within { i < length outputs.now }
        ensures { result ≡ shown_at row.now.set outputs.now i }
    {
        match self.conditions[i] {
            Condition::Always => true,
            Condition::Never => false,
            Condition::With(bit) => row.has(atoms, bit),
            Condition::Without(bit) => !row.has(atoms, bit),
            Condition::Several => all_hold(&Among { atoms, row }, outputs.output(i).condition),
        }
    }

    /// The first output from this one on that is shown, or how many there are.
    pub(crate) fn first_shown(
        &self,
        atoms: &[Atom],
        outputs: &Outputs,
        row: &Row,
        from: usize,
    ) -> usize
        requires table { IsTableOf atoms.now outputs.now self.now }
        requires row { IsRowAmong atoms.now row.now }
        requires within { from ≤ length outputs.now }
        ensures passes { (any : Bool) → pieces self.now.between row.now.set any (drop result outputs.now) ≡ pieces self.now.between row.now.set any (drop from outputs.now) }
        ensures later { from ≤ result }
        ensures within { result ≤ length outputs.now }
        ensures shown { result < length outputs.now → shown_at row.now.set outputs.now result ≡ true }
    {
        for i in from..outputs.len() {
            if self.shows(atoms, outputs, row, i) {
                return i;
            }
        }
        outputs.len()
    }

    /// Where the run of outputs ends that are shown from this one on.
    pub(crate) fn run_end(&self, atoms: &[Atom], outputs: &Outputs, row: &Row, from: usize) -> usize
        requires table { IsTableOf atoms.now outputs.now self.now }
        requires row { IsRowAmong atoms.now row.now }
        requires within { from < length outputs.now }
        requires shown { shown_at row.now.set outputs.now from ≡ true }
        ensures run { pieces self.now.between row.now.set true (drop from outputs.now) ≡ row_between self.now.between outputs.now from result ++ pieces self.now.between row.now.set true (drop result outputs.now) }
        ensures within { result ≤ length outputs.now }
        ensures more { from < result }
    {
        for i in from + 1..outputs.len() {
            if !self.shows(atoms, outputs, row, i) {
                return i;
            }
        }
        outputs.len()
    }

    /// The texts of the outputs from one to before another, each after a separator, the first one only where a text stands before it.
    pub(crate) fn texts(&self, outputs: &Outputs, from: usize, to: usize, any: bool) -> &[u8]
        requires table { HasTextsOf outputs.now self.now }
        requires within { to ≤ length outputs.now }
        requires some { from < to }
        ensures { result.now ≡ less_between any (row_between self.now.between outputs.now from to) }
    {
        let _ = outputs;
        let skipped = if any { 0 } else { 1 };
        let start = self.starts[from] + skipped;
        part(self.texts.as_slice(), start, self.starts[to])
    }
}
