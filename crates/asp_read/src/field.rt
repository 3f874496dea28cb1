// One field after another. Each function gives the value and what follows it on the line.
ghost use Rattle.std.specs.Prelude.{◌≡◌, length, drop, nat_le, ◌&&◌, ◌+◌, ◌≤◌, IfOk};
ghost use Rattle.asp_model.specs.Sets.{with_atom};
ghost use Rattle.asp_model.specs.Holding.{atom_of};
ghost use Rattle.asp_read.specs.Gives.{Gives};
ghost use Rattle.asp_read.specs.Fields.{natural_at, integer_at, atom_at, any_literal_at, literal_at, passed_at, weighted_at, count_at, text_at, ends_field, ended, most_counted};

use crate::error::{LineError, broken};
use crate::fault::FaultKind;
use crate::known::KnownAtoms;
use asp_model::program::Atom;
use asp_text::{Num, is_blank, split_int, unblank};

/// The greatest sum of all counts of a program.
pub const MOST_COUNTED: u32 = 16_777_216;

pub fn natural(line: &[u8], low: u32, high: u32) -> Result<(u32, &[u8]), LineError>
    ensures number { Gives (λ x. (x.0, x.1.now)) result (natural_at low high line.now) }
    ensures bound { IfOk result (λ x. (low ≤ x.0) × (x.0 ≤ high)) }
{
    let (number, rest) = split_int(line);
    match number {
        Num::Value(n) if low as i64 <= n && n <= high as i64 => Ok((n as u32, rest)),
        _ => Err(broken(FaultKind::Natural(low, high, number), line)),
    }
}

pub fn integer(line: &[u8], low: i32, high: i32) -> Result<(i32, &[u8]), LineError>
    ensures { Gives (λ x. (x.0, x.1.now)) result (integer_at low high line.now) }
{
    let (number, rest) = split_int(line);
    match number {
        Num::NotNumber | Num::Big => Err(broken(FaultKind::Integer(low, high, number), line)),
        Num::Value(n) => {
            if n < low as i64 || (high as i64) < n {
                return Err(broken(FaultKind::Integer(low, high, number), line));
            }
            Ok((n as i32, rest))
        }
    }
}

#[tactic(auto, unfolding(crate::specs::Fields::atom_at))]
pub fn atom<'a>(line: &'a [u8], known: &mut KnownAtoms) -> Result<(Atom, &'a [u8]), LineError>
    ensures atom { Gives (λ x. (x.0, x.1.now)) result (atom_at known.old line.now) }
    ensures known { IfOk result (λ x. known.new ≡ with_atom x.0 known.old) }
    ensures bound { IfOk result (λ x. (1 ≤ x.0) × (x.0 ≤ 2147483647)) }
{
    let (atom, rest) = natural(line, 1, i32::MAX as u32)?;
    known.take(atom, line)?;
    Ok((atom, rest))
}

// A literal, whatever atoms are known.
#[tactic(auto, unfolding(crate::specs::Fields::any_literal_at))]
fn any_literal(line: &[u8]) -> Result<(i32, &[u8]), LineError>
    ensures { Gives (λ x. (x.0, x.1.now)) result (any_literal_at line.now) }
{
    let (literal, rest) = integer(line, -i32::MAX, i32::MAX)?;
    if literal == 0 {
        let zero = FaultKind::Integer(-i32::MAX, i32::MAX, Num::Value(0));
        return Err(broken(zero, line));
    }
    Ok((literal, rest))
}

#[tactic(auto, unfolding(crate::specs::Fields::literal_at))]
pub fn literal<'a>(line: &'a [u8], known: &mut KnownAtoms) -> Result<(i32, &'a [u8]), LineError>
    ensures literal { Gives (λ x. (x.0, x.1.now)) result (literal_at known.old line.now) }
    ensures known { IfOk result (λ x. known.new ≡ with_atom (atom_of x.0) known.old) }
{
    let (literal, rest) = any_literal(line)?;
    known.take(literal.unsigned_abs(), line)?;
    Ok((literal, rest))
}

/// What follows so many literals, of which none is kept.
pub fn pass_literals(line: &[u8], count: u32) -> Result<&[u8], LineError>
    ensures { Gives (λ rest. rest.now) result (passed_at count line.now) }
{
    let mut rest = line;
    for _ in 0..count {
        let (_, after) = any_literal(rest)?;
        rest = after;
    }
    Ok(rest)
}

#[tactic(auto, unfolding(crate::specs::Fields::weighted_at))]
pub fn weighted<'a>(
    line: &'a [u8],
    low: i32,
    known: &mut KnownAtoms,
) -> Result<((i32, i32), &'a [u8]), LineError>
    ensures item { Gives (λ x. (x.0, x.1.now)) result (weighted_at low known.old line.now) }
    ensures known { IfOk result (λ x. known.new ≡ with_atom (atom_of x.0.0) known.old) }
{
    let (literal, rest) = literal(line, known)?;
    let (weight, rest) = integer(rest, low, i32::MAX)?;
    Ok(((literal, weight), rest))
}

#[tactic(auto, unfolding(crate::specs::Fields::count_at))]
pub fn count(line: &[u8], used: u32) -> Result<(u32, &[u8]), LineError>
    ensures count { Gives (λ x. (x.0, x.1.now)) result (count_at used line.now) }
    ensures bound { IfOk result (λ x. used + x.0 ≤ most_counted) }
{
    let (count, rest) = natural(line, 0, i32::MAX as u32)?;
    if used as u64 + count as u64 > MOST_COUNTED as u64 {
        return Err(broken(FaultKind::Counts, line));
    }
    Ok((count, rest))
}

/// A text of so many bytes behind one blank.
pub fn text(line: &[u8], len: u32) -> Result<(&[u8], &[u8]), LineError>
    ensures { Gives (λ x. (x.0.now, x.1.now)) result (text_at len line.now) }
{
    match line {
        [blank, bytes @ ..] if is_blank(*blank) && ends_at(bytes, len) => {
            Ok(bytes.split_at(len as usize))
        }
        _ => Err(broken(FaultKind::Text, line)),
    }
}

// Whether a field may end behind so many bytes.
fn ends_at(bytes: &[u8], len: u32) -> bool
    ensures { result ≡ (nat_le len (length bytes.now) && ends_field (drop len bytes.now)) }
{
    let len = len as usize;
    len == bytes.len() || len < bytes.len() && is_blank(bytes[len])
}

/// No further field.
pub fn ended(line: &[u8]) -> Result<(), LineError>
    ensures { Gives (λ u. u) result (ended line.now) }
{
    if !unblank(line).is_empty() {
        return Err(broken(FaultKind::ExtraFields, line));
    }
    Ok(())
}
