//! What was told, and what can be told of the parts.
ghost use Rattle.std.specs.Prelude.{◌≡◌, ◌+◌, ◌++◌, ◌<◌, ◌≤◌, ◌^◌, IfOk, OnErr, false, length};
ghost use mathlib.Core.List.{IsPrefix};
ghost use Rattle.asp_model.specs.Models.{answers, atoms_of};
ghost use Rattle.asp_stream.specs.Streams.{IsFrontOf};
ghost use Rattle.asp_parts.specs.Courses.{IsCourse, MakesUp};
ghost use Rattle.asp_parts.specs.Parts.{AreParts, deliveries, sets_back};

use crate::part::{Found, Part};
use asp_core::entry::Entry;
use asp_outlet::Reader;
use asp_vars::compiled::Compiled;
use std::alloc::AllocError;
use std::mem;

/// What was told.
#[derive(Drop)]
pub(crate) struct Course {
    /// The entry of each delivery.
    pub journal: Vec<Entry>,
    /// How many answers they were.
    pub heard: usize,
}

// So many answers more than those. There is no number for more than 2^64 - 2 of them: before that memory is wanting.
fn count_on(heard: usize, more: usize) -> Result<usize, AllocError>
    ensures sum { IfOk result (λ n. n ≡ heard + more) }
    ensures room { IfOk result (λ n. n + 1 < 2 ^ 64) }
{
    match heard.checked_add(more) {
        Some(count) if count < usize::MAX => Ok(count),
        _ => Err(AllocError),
    }
}

// Tells the answers of a part. False where no more are wanted.
fn tell<R: Reader>(
    compiled: &Compiled,
    course: &mut Course,
    found: Found,
    reader: &mut R,
) -> Result<bool, AllocError>
    requires program { R.program reader.old ≡ compiled.now }
    requires all { R.all reader.old ≡ answers compiled.now }
    requires course { IsCourse (R.heard reader.old) course.old }
    requires atoms { found.rows.atoms ≡ atoms_of compiled.now }
    requires entries { found.entries.items ≡ deliveries found.rows.sets }
    requires front { IsPrefix (R.heard reader.old ++ found.rows.sets) (answers compiled.now) }
    ensures course { IfOk result (λ wanted. IsCourse (R.heard reader.new) course.new) }
    ensures heard { IfOk result (λ wanted. R.heard reader.new ≡ R.heard reader.old ++ found.rows.sets) }
    ensures unwanted { IfOk result (λ wanted. wanted ≡ false → R.wants reader.new ≡ false) }
    ensures front { IsFrontOf compiled.now (R.all reader.old) (R.program reader.new) (R.all reader.new) (R.heard reader.new) }
    ensures after { R.IsAfter reader.old reader.new }
{
    let _ = compiled;
    let Found { rows, mut entries } = found;
    let heard = count_on(course.heard, rows.len())?;
    course.journal.append(&mut entries)?;
    course.heard = heard;
    Ok(reader.hear(&rows))
}

/// Tells the answers of the last parts, as long as they are known. False where no more are wanted. Want of memory is the one error.
pub(crate) fn tell_all<R: Reader>(
    compiled: &Compiled,
    course: &mut Course,
    parts: &mut Vec<Part>,
    reader: &mut R,
) -> Result<bool, AllocError>
    requires program { R.program reader.old ≡ compiled.now }
    requires all { R.all reader.old ≡ answers compiled.now }
    requires course { IsCourse (R.heard reader.old) course.old }
    requires parts { AreParts compiled.now parts.old.items }
    requires front { IsPrefix (R.heard reader.old ++ sets_back compiled.now parts.old.items) (answers compiled.now) }
    ensures course { IfOk result (λ wanted. IsCourse (R.heard reader.new) course.new) }
    ensures told { IfOk result (λ wanted. MakesUp compiled.now (R.heard reader.old ++ sets_back compiled.now parts.old.items) (R.heard reader.new) parts.new.items) }
    ensures unwanted { IfOk result (λ wanted. wanted ≡ false → R.wants reader.new ≡ false) }
    ensures front { IsFrontOf compiled.now (R.all reader.old) (R.program reader.new) (R.all reader.new) (R.heard reader.new) }
    ensures after { R.IsAfter reader.old reader.new }
{
    'parts: while let Some(part) = parts.pop() {
        let Part { leaf, found, tries } = part;
        match found {
            Some(found) => {
                mem::drop(leaf);
                if !tell(compiled, course, found, reader)? {
                    return Ok(false);
                }
            }
            None => {
                parts.push(Part {
                    leaf,
                    found: None,
                    tries,
                })?;
                return Ok(true);
            }
        }
    }
    Ok(true)
}

// The place of the first of those parts at the end whose answers are known.
fn first_ripe(parts: &[Part]) -> usize
    ensures { result ≤ length parts.now }
{
    for behind in 0..parts.len() {
        if parts[parts.len() - 1 - behind].found.is_none() {
            return parts.len() - behind;
        }
    }
    0
}

/// Takes off the last parts, as long as their answers are known. Want of memory is the one error.
pub(crate) fn ripen(parts: &mut Vec<Part>) -> Result<Vec<Part>, AllocError>
    ensures row { IfOk result (λ ripe. parts.new.items ++ ripe.items ≡ parts.old.items) }
    ensures kept { OnErr result (parts.new ≡ parts.old) }
{
    let place = first_ripe(parts.as_slice());
    parts.split_off(place)
}
