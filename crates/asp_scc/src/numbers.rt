//! Numbers from 0 on for classes, and the members of each.
ghost use Rattle.std.specs.Prelude.{◌≡◌, ◌+◌, ◌-◌, ◌<◌, ◌≤◌, ◌^◌, ℕ, IfOk, All, fold, length, slice_index};
ghost use Rattle.asp_scc.specs.Numbers.{give_number, numbers_from, AreNumbered, HasMembers};

use asp_table::buckets::Buckets;
use asp_table::table::Table;
use std::alloc::{AllocError, Global};

// Gives a class that has no number the next one, counted from 1.
fn give_number(given: &mut [u32], count: u32, class: u32) -> u32
    requires class { class < length given.old }
    requires few { count + 1 < 2 ^ 32 }
    ensures number { (given.new, result) ≡ give_number (given.old, count) class }
    ensures few { result ≤ count + 1 }
{
    if given[class as usize] == 0 {
        given[class as usize] = count + 1;
        count + 1
    } else {
        count
    }
}

// Numbers the classes in the order in which they come. The answer is how many different ones there are.
fn give_numbers(given: &mut [u32], classes: &[u32]) -> u32
    requires classes { All (λ c. c < length given.old) classes.now }
    requires few { length classes.now < 2 ^ 31 }
    ensures { (given.new, result) ≡ fold give_number (given.old, 0) classes.now }
{
    let mut count = 0;
    for class in classes {
        count = give_number(given, count, *class);
    }
    count
}

// The numbers of these classes, counted from 0.
fn read_numbers(alloc: Global, given: &[u32], classes: &[u32]) -> Result<Vec<u32>, AllocError>
    requires { All (λ c. c < length given.now) classes.now }
    ensures { IfOk result (λ numbers. numbers.items ≡ numbers_from given.now classes.now) }
{
    let mut numbers = Vec::with_capacity(alloc, classes.len())?;
    for class in classes {
        numbers.push(given[*class as usize].saturating_sub(1))?;
    }
    Ok(numbers)
}

/// Numbers for the places from 1 to `last`, the same where the classes are, and how many different ones there are.
pub(crate) fn number(
    alloc: Global,
    classes: &[u32],
    last: usize,
) -> Result<(Vec<u32>, u32), AllocError>
    requires last { last < length classes.now }
    requires few { length classes.now ≤ 2 ^ 31 }
    requires classes { All (λ c. c < length classes.now + 2) classes.now }
    ensures { IfOk result (λ r. AreNumbered classes.now last r.0.items r.1) }
{
    let mut given = vec![in alloc; 0; classes.len() + 2]?;
    let count = give_numbers(given.as_mut_slice(), &classes[1..last + 1]);
    let numbers = read_numbers(alloc, given.as_slice(), &classes[..last + 1])?;
    Ok((numbers, count))
}

/// For each number the places that have it, but for the place 0.
pub(crate) fn members(alloc: Global, numbers: &[u32], count: u32) -> Result<Table<u32>, AllocError>
    requires some { 0 < length numbers.now }
    requires few { length numbers.now ≤ 2 ^ 31 }
    requires within { (v : ℕ) → 0 < v → v < length numbers.now → slice_index numbers.now v < count }
    ensures { IfOk result (λ rows. HasMembers numbers.now count (length numbers.now) rows) }
{
    let mut rows = Buckets::new(alloc, count as usize)?;
    for place in 1..numbers.len() {
        rows.push(numbers[place] as usize, place as u32)?;
    }
    let table = rows.into_table(alloc)?;
    Ok(table)
}
