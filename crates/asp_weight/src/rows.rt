//! The rows of weight bodies, by falling weight, and their shapes.
ghost use Rattle.std.specs.Prelude.{◌≡◌, ◌+◌, ◌-◌, ◌<◌, ◌≤◌, ◌^◌, Some, IfOk, length, map, zip};
ghost use Rattle.std.specs.List.{AllPairs};
ghost use Rattle.std.specs.List.Sorted.{IsPermutation};
ghost use Rattle.std.specs.Int.RustNames.{unsigned_abs};
ghost use Rattle.asp_vars.specs.Numbering.{bodies_of, nth_body};
ghost use Rattle.asp_vars.specs.Tabled.{bound_of};
ghost use Rattle.asp_weight.specs.Rows.{total_of, weighed_bodies, first_weighed, clamped, IsOrdered, AreRows};

use crate::item::{Item, Shape};
use asp_table::table::Table;
use asp_vars::compiled::Compiled;
use asp_vars::lit::{Lit, Var};
use std::alloc::{AllocError, Global};
use std::cmp::Reverse;

// The literals with their weights, in their order.
fn items(alloc: Global, literals: &[Lit], weights: &[i64]) -> Result<Vec<Item>, AllocError>
    ensures { IfOk result (λ v. v.items ≡ map (λ x. record { weight = unsigned_abs x.1; lit = x.0 }) (zip literals.now weights.now)) }
{
    literals
        .iter()
        .zip(weights)
        .map(|(lit, weight)| Item {
            weight: weight.unsigned_abs(),
            lit: *lit,
        })
        .collect(alloc)
}

// Puts the heaviest first.
fn sort(items: &mut [Item])
    ensures items { IsPermutation items.old items.new }
    ensures falling { AllPairs (λ i j. j.weight ≤ i.weight) items.new }
{
    items.sort_unstable_by_key(|item| Reverse(item.weight));
}

// The sum of all weights. It is below 9223372036854775808: a program's weights have 32 bits and are few, but a compiled
// one doesn't say so, and a greater sum counts as want of memory.
fn total(items: &[Item]) -> Result<u64, AllocError>
    ensures { IfOk result (λ t. (t ≡ total_of items.now) × (t < 2 ^ 63)) }
{
    let mut total: u64 = 0;
    for item in items {
        total = added(total, item.weight)?;
    }
    Ok(total)
}

fn added(total: u64, weight: u64) -> Result<u64, AllocError>
    ensures { IfOk result (λ t. (t ≡ total + weight) × (t < 2 ^ 63)) }
{
    match total.checked_add(weight) {
        Some(sum) if sum <= i64::MAX as u64 => Ok(sum),
        _ => Err(AllocError),
    }
}

fn clamped(bound: i32) -> u64
    ensures { result ≡ clamped bound }
{
    if 0 <= bound { bound as u64 } else { 0 }
}

fn shape(var: Var, bound: i32, total: u64) -> Shape
    requires { total < 2 ^ 63 }
    ensures { result ≡ record { var = var; reach = clamped bound; miss = total + 1 - clamped bound } }
{
    let reach = clamped(bound);
    Shape {
        var,
        reach,
        miss: (total + 1).saturating_sub(reach),
    }
}

// The row of a body.
fn row(alloc: Global, compiled: &Compiled, body: usize) -> Result<Vec<Item>, AllocError>
    requires { body < length (bodies_of compiled.now) }
    ensures { IfOk result (λ row. IsOrdered compiled.now (nth_body compiled.now body) row.items) }
{
    let mut row = items(alloc, compiled.literals(body), compiled.weights(body))?;
    let _program = compiled.program();
    sort(row.as_mut_slice());
    Ok(row)
}

/// A shape and a row for each weight body.
#[derive(Drop)]
pub struct Rows {
    /// By weight body, in the order of the bodies.
    pub shapes: Vec<Shape>,
    /// By weight body, its literals: the greatest weight first.
    pub rows: Table<Item>,
}

impl Rows {
    // Those with one more body.
    fn with_body(
        self,
        alloc: Global,
        compiled: &Compiled,
        body: usize,
        bound: i32,
    ) -> Result<Rows, AllocError>
        requires body { body < length (bodies_of compiled.now) }
        requires bound { bound_of (nth_body compiled.now body) ≡ Some bound }
        requires rows { AreRows compiled.now (first_weighed compiled.now body) self.shapes.items self.rows }
        ensures { IfOk result (λ r. AreRows compiled.now (first_weighed compiled.now (body + 1)) r.shapes.items r.rows) }
    {
        let row = row(alloc, compiled, body)?;
        let total = total(row.as_slice())?;
        let shape = shape(compiled.body_lit(body).var(), bound, total);
        let Rows { mut shapes, rows } = self;
        shapes.push(shape)?;
        let rows = rows.with_row(row.as_slice())?;
        Ok(Rows { shapes, rows })
    }

    // Those with one more body if it is a weight body.
    fn with(self, alloc: Global, compiled: &Compiled, body: usize) -> Result<Rows, AllocError>
        requires body { body < length (bodies_of compiled.now) }
        requires rows { AreRows compiled.now (first_weighed compiled.now body) self.shapes.items self.rows }
        ensures { IfOk result (λ r. AreRows compiled.now (first_weighed compiled.now (body + 1)) r.shapes.items r.rows) }
    {
        match compiled.bound(body) {
            None => Ok(self),
            Some(bound) => self.with_body(alloc, compiled, body, bound),
        }
    }

    /// Those of a program.
    pub fn of(alloc: Global, compiled: &Compiled) -> Result<Rows, AllocError>
        ensures { IfOk result (λ r. AreRows compiled.now (weighed_bodies compiled.now) r.shapes.items r.rows) }
    {
        let mut rows = Rows {
            shapes: Vec::new(alloc),
            rows: Table::new(alloc)?,
        };
        for body in 0..compiled.body_count() {
            rows = rows.with(alloc, compiled, body)?;
        }
        Ok(rows)
    }
}
