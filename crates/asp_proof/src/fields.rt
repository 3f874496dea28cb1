//! The fields of a line. The grammar leaves no choice: each value has one text, so a field is right exactly where it is
//! the text of the number that it spells.
ghost use Rattle.std.specs.Prelude.{◌≡◌, ◌==◌, ◌+◌, ◌++◌, ◌<◌, ◌≤◌, List, ℕ, length, flat_map, IfOk, MatchBool, MatchOption};
ghost use Rattle.std.specs.List.{AllByRecursion, position, position_or_len};
ghost use Rattle.std.specs.Fmt.{signed_decimal};
ghost use Rattle.asp_proof.specs.Texts.{natural_field, integer_field};
ghost use Rattle.asp_model.specs.Sets.{IsAscending};
ghost use Rattle.asp_proof.specs.Grammar.{IsAtom, IsLiteral, AreCounted, ArePlaces, IsSet, IsNogood};
ghost use Rattle.asp_proof.specs.Texts.{counted_fields, atoms_fields, literals_fields};
ghost use Rattle.asp_proof.specs.Fields.{IsCut, IsNumber, IsCount, IsAt, IsMissing, IsNone, IsWhole, AreSo, Stops};

use asp_model::interp::Interp;
use asp_model::program::Atom;
use asp_text::{Num, read_int};
use itoa::Buffer;
use std::alloc::{AllocError, Global};

fn first(text: &[u8], byte: u8) -> Option<usize>
    ensures { result ≡ position (λ b. b == byte) text.now }
{
    text.iter().position(|b| *b == byte)
}

// Where the first such byte stands, or where the text ends.
#[tactic(auto, using(asp_text::proofs::Found::found))]
fn place(text: &[u8], byte: u8) -> usize
    ensures place { result ≡ position_or_len (λ b. b == byte) text.now }
    ensures bound { result ≤ length text.now }
{
    first(text, byte).unwrap_or(text.len())
}

/// A text in two parts: before the first such byte, and from it on.
pub fn cut(text: &[u8], byte: u8) -> (&[u8], &[u8])
    ensures { IsCut byte text.now result.0.now result.1.now }
{
    text.split_at(place(text, byte))
}

/// What follows this front of a text.
pub fn after<'a>(text: &'a [u8], front: &[u8]) -> Option<&'a [u8]>
    ensures { MatchOption result ((rest : List ℕ) → front.now ++ rest ≡ text.now → ⊥) (λ rest. front.now ++ rest.now ≡ text.now) }
{
    text.strip_prefix(front)
}

// The number whose text the word is.
fn number(word: &[u8]) -> Option<i64>
    ensures { MatchOption result (IsNone IsNumber signed_decimal word.now) (λ n. IsWhole IsNumber signed_decimal word.now n) }
{
    let Num::Value(n) = read_int(word) else {
        return None;
    };
    if n.unsigned_abs() > u32::MAX as u64 {
        return None;
    }
    if Buffer::new().format(n).as_bytes() != word {
        return None;
    }
    Some(n)
}

// The number of the first field, and what follows it.
fn field(line: &[u8]) -> Option<(i64, &[u8])>
    ensures { MatchOption result (IsMissing IsNumber integer_field line.now) (λ x. IsAt IsNumber integer_field line.now x.0 x.1.now) }
{
    let Some(fields) = after(line, b" ") else {
        return None;
    };
    let (word, rest) = cut(fields, b' ');
    let Some(number) = number(word) else {
        return None;
    };
    Some((number, rest))
}

fn literal(line: &[u8]) -> Option<(i32, &[u8])>
    ensures { MatchOption result (IsMissing IsLiteral integer_field line.now) (λ x. IsAt IsLiteral integer_field line.now x.0 x.1.now) }
{
    let Some((n, rest)) = field(line) else {
        return None;
    };
    let variable = n.unsigned_abs();
    if variable == 0 {
        return None;
    }
    if variable > i32::MAX as u64 {
        return None;
    }
    Some((n as i32, rest))
}

/// A number of 32 bits without a sign, at the front of a line, and what follows it.
pub fn natural(line: &[u8]) -> Option<(u32, &[u8])>
    ensures { MatchOption result (IsMissing IsCount natural_field line.now) (λ x. IsAt IsCount natural_field line.now x.0 x.1.now) }
{
    let Some((n, rest)) = field(line) else {
        return None;
    };
    if n < 0 {
        return None;
    }
    Some((n as u32, rest))
}

fn atom(line: &[u8]) -> Option<(Atom, &[u8])>
    ensures { MatchOption result (IsMissing IsAtom natural_field line.now) (λ x. IsAt IsAtom natural_field line.now x.0 x.1.now) }
{
    let Some((n, rest)) = natural(line) else {
        return None;
    };
    if n == 0 {
        return None;
    }
    if n > i32::MAX as u32 {
        return None;
    }
    Some((n, rest))
}

// For how many fields room is made at first: no more than the line has bytes for.
fn room(count: u32, line: &[u8]) -> usize {
    (count as usize).min(line.len() / 2)
}

fn each_literal(
    alloc: Global,
    count: u32,
    line: &[u8],
) -> Result<Option<(Vec<i32>, &[u8])>, AllocError>
    requires { Stops 32 line.now }
    ensures { IfOk result (λ o. MatchOption o (IsMissing (AreSo IsLiteral count) (flat_map integer_field) line.now)
        (λ x. IsAt (AreSo IsLiteral count) (flat_map integer_field) line.now x.0.items x.1.now)) }
{
    let mut literals = Vec::with_capacity(alloc, room(count, line))?;
    let mut rest = line;
    for _ in 0..count {
        let Some((l, after)) = literal(rest) else {
            return Ok(None);
        };
        literals.push(l)?;
        rest = after;
    }
    Ok(Some((literals, rest)))
}

fn each_atom(
    alloc: Global,
    count: u32,
    line: &[u8],
) -> Result<Option<(Vec<Atom>, &[u8])>, AllocError>
    requires { Stops 32 line.now }
    ensures { IfOk result (λ o. MatchOption o (IsMissing (AreSo IsAtom count) (flat_map natural_field) line.now)
        (λ x. IsAt (AreSo IsAtom count) (flat_map natural_field) line.now x.0.items x.1.now)) }
{
    let mut atoms = Vec::with_capacity(alloc, room(count, line))?;
    let mut rest = line;
    for _ in 0..count {
        let Some((a, after)) = atom(rest) else {
            return Ok(None);
        };
        atoms.push(a)?;
        rest = after;
    }
    Ok(Some((atoms, rest)))
}

fn each_place(
    alloc: Global,
    count: u32,
    line: &[u8],
) -> Result<Option<(Vec<u32>, &[u8])>, AllocError>
    requires { Stops 32 line.now }
    ensures { IfOk result (λ o. MatchOption o (IsMissing (AreSo IsCount count) (flat_map natural_field) line.now)
        (λ x. IsAt (AreSo IsCount count) (flat_map natural_field) line.now x.0.items x.1.now)) }
{
    let mut found = Vec::with_capacity(alloc, room(count, line))?;
    let mut rest = line;
    for _ in 0..count {
        let Some((place, after)) = natural(rest) else {
            return Ok(None);
        };
        found.push(place)?;
        rest = after;
    }
    Ok(Some((found, rest)))
}

/// The places at the front of a line, with their count, and what follows them.
pub fn places(alloc: Global, line: &[u8]) -> Result<Option<(Vec<u32>, &[u8])>, AllocError>
    ensures { IfOk result (λ o. MatchOption o (IsMissing ArePlaces (counted_fields natural_field) line.now)
        (λ x. IsAt ArePlaces (counted_fields natural_field) line.now x.0.items x.1.now)) }
{
    let Some((count, rest)) = natural(line) else {
        return Ok(None);
    };
    each_place(alloc, count, rest)
}

/// The literals at the front of a line, with their count, and what follows them.
pub fn literals(alloc: Global, line: &[u8]) -> Result<Option<(Vec<i32>, &[u8])>, AllocError>
    ensures { IfOk result (λ o. MatchOption o (IsMissing IsNogood literals_fields line.now)
        (λ x. IsAt IsNogood literals_fields line.now x.0.items x.1.now)) }
{
    let Some((count, rest)) = natural(line) else {
        return Ok(None);
    };
    each_literal(alloc, count, rest)
}

fn is_ascending(atoms: &[Atom]) -> bool
    requires { AllByRecursion IsAtom atoms.now }
    ensures { MatchBool result (IsAscending atoms.now) (IsAscending atoms.now → ⊥) }
{
    let mut last: Atom = 0;
    for a in atoms {
        if *a <= last {
            return false;
        }
        last = *a;
    }
    true
}

// The atoms at the front of a line, with their count, in any order.
fn counted_atoms(alloc: Global, line: &[u8]) -> Result<Option<(Vec<Atom>, &[u8])>, AllocError>
    ensures { IfOk result (λ o. MatchOption o (IsMissing (AreCounted IsAtom) atoms_fields line.now)
        (λ x. IsAt (AreCounted IsAtom) atoms_fields line.now x.0.items x.1.now)) }
{
    let Some((count, rest)) = natural(line) else {
        return Ok(None);
    };
    each_atom(alloc, count, rest)
}

/// The set of atoms at the front of a line, with their count, and what follows it.
pub fn atoms(alloc: Global, line: &[u8]) -> Result<Option<(Interp, &[u8])>, AllocError>
    ensures { IfOk result (λ o. MatchOption o (IsMissing IsSet atoms_fields line.now)
        (λ x. IsAt IsSet atoms_fields line.now x.0 x.1.now)) }
{
    let Some((atoms, rest)) = counted_atoms(alloc, line)? else {
        return Ok(None);
    };
    if !is_ascending(&atoms) {
        return Ok(None);
    }
    Ok(Some((Interp::from_ascending(atoms), rest)))
}
