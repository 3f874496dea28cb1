// The parts of a rule. Each function gives the value and what follows it on the line.
ghost use Rattle.std.specs.Prelude.{◌≡◌, ◌+◌, ◌≤◌, length, map, IfOk};
ghost use Rattle.asp_model.specs.Sets.{with_atom, with_atoms};
ghost use Rattle.asp_model.specs.Holding.{atom_of};
ghost use Rattle.asp_read.specs.Gives.{Gives};
ghost use Rattle.asp_read.specs.Fields.{most_counted};
ghost use Rattle.asp_smodels.specs.Parts.{one_more_at, heads_at, negated_at, literal_of, signed_at, literals_at, weights_at, weighted_at, with_weight_1};

use asp_model::program::Atom;
use asp_model::seq::Seq;
use asp_read::error::{LineError, broken};
use asp_read::fault::FaultKind;
use asp_read::field::{MOST_COUNTED, atom, count, integer};
use asp_read::known::KnownAtoms;
use asp_text::{Num, split_int};
use std::alloc::{AllocError, Global};

/// An atom that counts as one, where this many were counted before.
#[tactic(auto, unfolding(crate::specs::Parts::one_more_at))]
pub fn one_more<'a>(
    line: &'a [u8],
    used: u32,
    known: &mut KnownAtoms,
) -> Result<(Atom, &'a [u8]), LineError>
    ensures atom { Gives (λ x. (x.0, x.1.now)) result (one_more_at used known.old line.now) }
    ensures known { IfOk result (λ x. known.new ≡ with_atom x.0 known.old) }
    ensures room { IfOk result (λ x. used + 1 ≤ most_counted) }
    ensures bound { IfOk result (λ x. x.0 ≤ 2147483647) }
{
    if used >= MOST_COUNTED {
        return Err(broken(FaultKind::Counts, line));
    }
    atom(line, known)
}

/// How many atoms a choice has.
#[tactic(auto, unfolding(crate::specs::Parts::heads_at))]
pub fn heads(line: &[u8], used: u32) -> Result<(u32, &[u8]), LineError>
    ensures count { Gives (λ x. (x.0, x.1.now)) result (heads_at used line.now) }
    ensures room { IfOk result (λ x. used + x.0 ≤ most_counted) }
{
    let (m, rest) = count(line, used)?;
    if m == 0 {
        let none = FaultKind::Natural(1, MOST_COUNTED, Num::Value(0));
        return Err(broken(none, line));
    }
    Ok((m, rest))
}

/// How many of so many literals are negated.
pub fn negated(line: &[u8], most: u32) -> Result<(u32, &[u8]), LineError>
    ensures count { Gives (λ x. (x.0, x.1.now)) result (negated_at most line.now) }
    ensures bound { IfOk result (λ x. x.0 ≤ most) }
{
    let (number, rest) = split_int(line);
    match number {
        Num::Value(n) if 0 <= n && n <= most as i64 => Ok((n as u32, rest)),
        _ => Err(broken(FaultKind::Negated(most, number), line)),
    }
}

/// The literal of an atom.
pub fn literal_of(atom: Atom, negated: bool) -> i32
    requires { atom ≤ 2147483647 }
    ensures { result ≡ literal_of negated atom }
{
    if negated { -(atom as i32) } else { atom as i32 }
}

// For how many literals there is room at first: at most their count, and few more than the line has bytes for.
fn places(count: u32, line: &[u8]) -> usize {
    (count as usize).min(line.len() / 4 + 2)
}

/// So many atoms as literals, of which the first are negated.
pub fn signed<'a>(
    alloc: Global,
    count: u32,
    negated: u32,
    line: &'a [u8],
    known: &mut KnownAtoms,
) -> Result<(Seq<i32>, &'a [u8]), LineError>
    requires { negated ≤ count }
    ensures literals { Gives (λ x. (x.0, x.1.now)) result (signed_at count negated known.old line.now) }
    ensures len { IfOk result (λ x. length x.0 ≡ count) }
    ensures known { IfOk result (λ x. known.new ≡ with_atoms known.old (map atom_of x.0)) }
{
    let mut items = Vec::with_capacity(alloc, places(count, line))?;
    let mut rest = line;
    for i in 0..count {
        let (atom, after) = atom(rest, known)?;
        items.push(literal_of(atom, i < negated))?;
        rest = after;
    }
    Ok((Seq::from_vec(items), rest))
}

/// A count of literals, how many of them are negated, and the literals.
#[tactic(auto, unfolding(crate::specs::Parts::literals_at))]
pub fn literals<'a>(
    alloc: Global,
    line: &'a [u8],
    used: u32,
    known: &mut KnownAtoms,
) -> Result<(Seq<i32>, &'a [u8]), LineError>
    ensures literals { Gives (λ x. (x.0, x.1.now)) result (literals_at used known.old line.now) }
    ensures bound { IfOk result (λ x. used + length x.0 ≤ most_counted) }
    ensures known { IfOk result (λ x. known.new ≡ with_atoms known.old (map atom_of x.0)) }
{
    let (n, rest) = count(line, used)?;
    let (k, rest) = negated(rest, n)?;
    signed(alloc, n, k, rest, known)
}

// A weight for each literal.
fn weights<'a>(
    alloc: Global,
    literals: &[i32],
    line: &'a [u8],
) -> Result<(Seq<(i32, i32)>, &'a [u8]), LineError>
    ensures items { Gives (λ x. (x.0, x.1.now)) result (weights_at literals.now line.now) }
    ensures len { IfOk result (λ x. length x.0 ≡ length literals.now) }
    ensures atoms { IfOk result (λ x. map (λ item. atom_of item.0) x.0 ≡ map atom_of literals.now) }
{
    let mut items = Vec::with_capacity(alloc, literals.len())?;
    let mut rest = line;
    for literal in literals {
        let (weight, after) = integer(rest, 0, i32::MAX)?;
        items.push((*literal, weight))?;
        rest = after;
    }
    Ok((Seq::from_vec(items), rest))
}

/// Literals, and then their weights.
#[tactic(auto, unfolding(crate::specs::Parts::weighted_at))]
pub fn weighted<'a>(
    alloc: Global,
    line: &'a [u8],
    used: u32,
    known: &mut KnownAtoms,
) -> Result<(Seq<(i32, i32)>, &'a [u8]), LineError>
    ensures items { Gives (λ x. (x.0, x.1.now)) result (weighted_at used known.old line.now) }
    ensures bound { IfOk result (λ x. used + length x.0 ≤ most_counted) }
    ensures known { IfOk result (λ x. known.new ≡ with_atoms known.old (map (λ item. atom_of item.0) x.0)) }
{
    let (literals, rest) = literals(alloc, line, used, known)?;
    weights(alloc, literals.as_slice(), rest)
}

/// The literals, each with the weight 1.
pub fn with_weight_1(alloc: Global, literals: &[i32]) -> Result<Seq<(i32, i32)>, AllocError>
    ensures items { IfOk result (λ items. items ≡ with_weight_1 literals.now) }
    ensures len { IfOk result (λ items. length items ≡ length literals.now) }
    ensures atoms { IfOk result (λ items. map (λ item. atom_of item.0) items ≡ map atom_of literals.now) }
{
    let mut items = Vec::with_capacity(alloc, literals.len())?;
    for literal in literals {
        items.push((*literal, 1))?;
    }
    Ok(Seq::from_vec(items))
}
