//! The tables of a program's weights, priority by priority.
ghost use Rattle.std.specs.Prelude.{◌≡◌, ◌<◌, ◌≤◌, ◌+◌, ◌*◌, ◌-◌, ◌^◌, ◌≤ℤ◌, ◌+ℤ◌, neg_ℤ, IsTrue, [], ◌∷◌, ◌++◌, ℕ, IfOk, OnOk, pos, length, map, slice_index_or, slice_set, true};
ghost use Rattle.std.specs.List.{All, AllPairs};
ghost use Rattle.std.specs.List.Sorted.{IsPermutation};
ghost use Rattle.std.specs.Int.RustNames.{unsigned_abs};
ghost use Rattle.asp_model.specs.Costs.{priorities};
ghost use Rattle.asp_model.specs.Sets.{has};
ghost use Rattle.asp_model.specs.Holding.{atom_of};
ghost use Rattle.asp_model.specs.Models.{atoms_of};
ghost use Rattle.asp_vars.specs.Numbering.{var_count};
ghost use Rattle.asp_bound.specs.Levels.{additions_of, additions_to, weight_true, weight_false, without, item_of, place_of, least_by, least_to, ArePlaced};
ghost use Rattle.asp_bound.specs.Weights.{size_of, AreWeights};
ghost use Rattle.asp_bound.specs.Rises.{row_at};
ghost use Rattle.asp_bound.specs.Kept.{IsOnce};
ghost use Rattle.asp_bound.specs.Gathered.{IsGathered, AreGathered, HasEach};

use crate::place::{Addition, Item, Place};
use crate::rise::rise;
use crate::weights::{blank, lit_of, weights_at};
use asp_model::cost::priorities;
use asp_table::buckets::Buckets;
use asp_table::table::Table;
use asp_vars::compiled::Compiled;
use asp_vars::lit::Var;
use std::alloc::{AllocError, Global};
use std::cmp::Reverse;

// Adds what a variable adds at a priority, if either value adds something.
fn add_addition(
    additions: &mut Vec<Addition>,
    var: Var,
    if_true: i64,
    if_false: i64,
) -> Result<(), AllocError>
    requires if_true { unsigned_abs if_true < 2 ^ 56 }
    requires if_false { unsigned_abs if_false < 2 ^ 56 }
    ensures { OnOk result (additions.new.items ≡ additions.old.items ++ additions_of var if_true if_false) }
{
    let on_true = rise(true, if_true, if_false);
    let on_false = rise(false, if_true, if_false);
    let most = on_true.max(on_false);
    if most > 0 {
        additions.push(Addition {
            var,
            if_true: on_true,
            if_false: on_false,
            most,
        })?;
    }
    Ok(())
}

// Adds what a variable adds by its weights, and puts these back to 0. The answer is what it costs at least.
fn take_addition(
    additions: &mut Vec<Addition>,
    weights: &mut [i64],
    var: Var,
) -> Result<i64, AllocError>
    requires within { 2 * var + 1 < length weights.old }
    requires small { (c : ℕ) → c < length weights.old → unsigned_abs (slice_index_or weights.old c (pos 0)) < 2 ^ 56 }
    ensures additions { OnOk result (additions.new.items ≡ additions.old.items ++ additions_of var (weight_true weights.old var) (weight_false weights.old var)) }
    ensures weights { OnOk result (weights.new ≡ without weights.old var) }
    ensures least { IfOk result (λ n. n ≡ least_by weights.old var) }
    ensures small { IfOk result (λ n. unsigned_abs n < 2 ^ 56) }
{
    let place = 2 * var as usize;
    let if_true = weights[place];
    let if_false = weights[place + 1];
    weights[place] = 0;
    weights[place + 1] = 0;
    add_addition(additions, var, if_true, if_false)?;
    Ok(if_true.min(if_false))
}

// What the variables add at a priority, and what they cost at least.
#[derive(Drop)]
struct Taken {
    /// What each adds.
    additions: Vec<Addition>,
    /// What they cost at least, while none has a value.
    least: i64,
}

fn add(sum: i128, more: i64) -> i128
    requires low { neg_ℤ (pos (2 ^ 120)) ≤ℤ sum }
    requires high { sum ≤ℤ pos (2 ^ 120) }
    ensures { result ≡ sum +ℤ more }
{
    sum + more as i128
}

fn narrowed(sum: i128) -> i64
    requires low { neg_ℤ (pos (2 ^ 60)) ≤ℤ sum }
    requires high { sum ≤ℤ pos (2 ^ 60) }
    ensures { result ≡ sum }
{
    sum as i64
}

// Takes what the variables of the items add out of the weights, which are 0 again afterwards.
fn take_additions(
    alloc: Global,
    compiled: &Compiled,
    weights: &mut [i64],
    items: &[(i32, i32)],
) -> Result<Taken, AllocError>
    requires stand { All (λ i. IsTrue (has (atoms_of compiled.now) (atom_of i.0))) items.now }
    requires sums { AreWeights compiled.now items.now weights.old }
    requires small { size_of items.now ≤ 2 ^ 55 }
    requires low { neg_ℤ (pos (2 ^ 60)) ≤ℤ least_to weights.old (var_count compiled.now) }
    requires high { least_to weights.old (var_count compiled.now) ≤ℤ pos (2 ^ 60) }
    ensures blank { OnOk result (AreWeights compiled.now [] weights.new) }
    ensures additions { IfOk result (λ t. IsPermutation (additions_to weights.old (var_count compiled.now)) t.additions.items) }
    ensures least { IfOk result (λ t. t.least ≡ least_to weights.old (var_count compiled.now)) }
{
    let mut additions = Vec::new(alloc);
    let mut least: i128 = 0;
    for (literal, _) in items {
        let more = take_addition(&mut additions, weights, lit_of(compiled, *literal).var())?;
        least = add(least, more);
    }
    let least = narrowed(least);
    Ok(Taken { additions, least })
}

// Puts the variables in their order.
fn sort_by_var(additions: &mut [Addition])
    ensures { IsPermutation additions.old additions.new }
{
    additions.sort_unstable_by_key(|addition| addition.var);
}

// Puts those that add most first.
fn sort(additions: &mut [Addition])
    ensures permutation { IsPermutation additions.old additions.new }
    ensures falling { AllPairs (λ i k. k.most ≤ i.most) additions.new }
{
    additions.sort_unstable_by_key(|addition| Reverse(addition.most));
}

// Adds the place and the item of a variable at a priority.
fn add_place(
    rows: &mut Buckets<Place>,
    column: &mut Vec<Item>,
    level: u32,
    index: u32,
    addition: &Addition,
) -> Result<(), AllocError>
    requires var { addition.now.var < length rows.old }
    ensures rows { OnOk result (rows.new ≡ slice_set rows.old addition.now.var (row_at rows.old addition.now.var ++ place_of level index addition.now ∷ [])) }
    ensures column { OnOk result (column.new.items ≡ column.old.items ++ item_of addition.now ∷ []) }
{
    let place = Place {
        level,
        index,
        if_true: addition.if_true,
        if_false: addition.if_false,
    };
    rows.push(addition.var as usize, place)?;
    column.push(Item {
        var: addition.var,
        most: addition.most,
    })?;
    Ok(())
}

// Adds the places and the items at a priority, in their order.
fn add_places(
    alloc: Global,
    rows: &mut Buckets<Place>,
    level: u32,
    additions: &[Addition],
) -> Result<Vec<Item>, AllocError>
    requires few { length additions.now < 2 ^ 32 }
    requires vars { All (λ a. a.var < length rows.old) additions.now }
    ensures rows { OnOk result (ArePlaced level additions.now rows.old rows.new) }
    ensures column { IfOk result (λ column. column.items ≡ map item_of additions.now) }
{
    let mut column = Vec::new(alloc);
    for (index, addition) in additions.iter().enumerate() {
        add_place(rows, &mut column, level, index as u32, addition)?;
    }
    Ok(column)
}

// A priority's items, and what its variables cost at least.
#[derive(Drop)]
struct Level {
    /// The variables that can add to it, the one that adds most first.
    column: Vec<Item>,
    /// What they cost at least, while none has a value.
    least: i64,
}

fn add_level(
    alloc: Global,
    compiled: &Compiled,
    weights: &mut [i64],
    rows: &mut Buckets<Place>,
    level: u32,
    priority: i32,
) -> Result<Level, AllocError>
    requires blank { AreWeights compiled.now [] weights.old }
    requires few { var_count compiled.now < 2 ^ 32 }
    requires rows { length rows.old ≡ var_count compiled.now + 1 }
    ensures blank { OnOk result (AreWeights compiled.now [] weights.new) }
    ensures gathered { IfOk result (λ l. IsGathered compiled.now level priority rows.old rows.new l.column.items l.least) }
{
    let items = weights_at(alloc, compiled, weights, priority)?;
    let taken = take_additions(alloc, compiled, weights, items.as_slice())?;
    let mut additions = taken.additions;
    sort_by_var(additions.as_mut_slice());
    sort(additions.as_mut_slice());
    let column = add_places(alloc, rows, level, additions.as_slice())?;
    Ok(Level {
        column,
        least: taken.least,
    })
}

/// The places by variable, the items by priority, and the optimistic cost where no variable has a value.
#[derive(Drop)]
pub struct Levels {
    /// By variable, what it adds at which priority.
    pub rows: Buckets<Place>,
    /// By priority, the greatest first: the variables that can add to it, the one that adds most first.
    pub columns: Table<Item>,
    /// By priority, the optimistic cost where no variable has a value.
    pub sums: Vec<i64>,
}

// Want of memory is also the answer where there are 4294967296 priorities or more.
fn levels_of(alloc: Global, compiled: &Compiled, priorities: &[i32]) -> Result<Levels, AllocError>
    ensures { IfOk result (λ l. AreGathered compiled.now priorities.now l.rows l.columns l.sums.items) }
{
    if priorities.len() > u32::MAX as usize {
        return Err(AllocError);
    }
    let mut weights = blank(alloc, compiled)?;
    let mut rows = Buckets::new(alloc, compiled.vars() as usize + 1)?;
    let mut columns = Table::new(alloc)?;
    let mut sums = Vec::new(alloc);
    for (level, priority) in priorities.iter().enumerate() {
        let added = add_level(
            alloc,
            compiled,
            weights.as_mut_slice(),
            &mut rows,
            level as u32,
            *priority,
        )?;
        columns = columns.with_row(added.column.as_slice())?;
        sums.push(added.least)?;
    }
    Ok(Levels {
        rows,
        columns,
        sums,
    })
}

// The tables of a program.
fn all_levels(alloc: Global, compiled: &Compiled) -> Result<Levels, AllocError>
    ensures { IfOk result (λ l. AreGathered compiled.now (priorities compiled.now.minimize) l.rows l.columns l.sums.items) }
{
    let priorities = priorities(alloc, compiled.program().minimize.as_slice())?;
    levels_of(alloc, compiled, priorities.as_slice())
}

/// The same, with the places as a table.
#[derive(Drop)]
pub struct Tables {
    /// By variable, what it adds at which priority.
    pub rows: Table<Place>,
    /// By priority, the greatest first: the variables that can add to it, the one that adds most first.
    pub columns: Table<Item>,
    /// By priority, the optimistic cost where no variable has a value.
    pub sums: Vec<i64>,
}

/// The tables of a program, the places by variable too.
pub fn all_tables(alloc: Global, compiled: &Compiled) -> Result<Tables, AllocError>
    ensures { IfOk result (λ t. AreGathered compiled.now (priorities compiled.now.minimize) t.rows t.columns t.sums.items) }
{
    let levels = all_levels(alloc, compiled)?;
    let Levels {
        rows,
        columns,
        sums,
    } = levels;
    let table = rows.into_table(alloc)?;
    Ok(Tables {
        rows: table,
        columns,
        sums,
    })
}

/// The variables that have places, each once.
pub fn vars_of(alloc: Global, rows: &Table<Place>) -> Result<Vec<Var>, AllocError>
    requires few { length rows.now < 2 ^ 32 }
    ensures within { IfOk result (λ vars. All (λ v. (0 < v) × (v < length rows.now)) vars.items) }
    ensures whole { IfOk result (λ vars. HasEach rows.now (length rows.now) vars.items) }
    ensures once { IfOk result (λ vars. IsOnce vars.items) }
{
    let mut vars = Vec::new(alloc);
    for var in 1..rows.len() {
        if !rows.row(var).is_empty() {
            vars.push(var as u32)?;
        }
    }
    Ok(vars)
}
