//! A line of a proof, without its line feed.
ghost use Rattle.std.specs.Prelude.{◌≡◌, ◌∷◌, Bool, IfOk, MatchBool, MatchOption, codes};
ghost use Rattle.asp_proof.specs.declared.proof.Sought.{Sought};
ghost use Rattle.asp_proof.specs.Grammar.{Both, IsSet, IsNogood, ArePlaces, IsLoopSet, IsLoop, IsLearned, IsLine};
ghost use Rattle.asp_proof.specs.Texts.{natural_field, counted_fields, atoms_fields, literals_fields, two_fields, loop_fields, learned_fields, answer_text, line_text, mode_line, last_word, line as with_feed};
ghost use Rattle.asp_proof.specs.Fields.{IsAt, IsMissing, IsNone, IsWhole};

use crate::fields::{after, atoms, literals, natural, places};
use crate::proof::{Line, Sought};
use asp_model::interp::Interp;
use asp_model::seq::Seq;
use std::alloc::{AllocError, Global};

/// Whether a proof begins with this line.
pub fn is_head(line: &[u8]) -> bool
    ensures { MatchBool result (line.now ≡ codes "proof 3") (line.now ≡ codes "proof 3" → ⊥) }
{
    line == b"proof 3".as_slice()
}

/// Whether the answers of a proof that ends with this line are a part of what was sought. None where no proof ends with it.
pub fn last(line: &[u8]) -> Option<bool>
    ensures { MatchOption result ((part : Bool) → line.now ≡ last_word part → ⊥) (λ part. line.now ≡ last_word part) }
{
    if line == b"0".as_slice() {
        return Some(false);
    }
    if line == b"p".as_slice() {
        return Some(true);
    }
    None
}

/// Which answers are sought, by the line that says so.
pub fn mode(line: &[u8]) -> Option<Sought>
    ensures { MatchOption result ((sought : Sought) → mode_line sought ≡ with_feed line.now → ⊥) (λ sought. mode_line sought ≡ with_feed line.now) }
{
    if line == b"enum".as_slice() {
        return Some(Sought::All);
    }
    if line == b"opt".as_slice() {
        return Some(Sought::Best);
    }
    if line == b"optima".as_slice() {
        return Some(Sought::Optima);
    }
    None
}

// The literals that are all that a line has.
fn nogood(alloc: Global, line: &[u8]) -> Result<Option<Seq<i32>>, AllocError>
    ensures { IfOk result (λ o. MatchOption o (IsNone IsNogood literals_fields line.now) (λ x. IsWhole IsNogood literals_fields line.now x)) }
{
    let Some((literals, rest)) = literals(alloc, line)? else {
        return Ok(None);
    };
    if !rest.is_empty() {
        return Ok(None);
    }
    Ok(Some(Seq::from_vec(literals)))
}

// The set that is all that a line has.
fn set(alloc: Global, line: &[u8]) -> Result<Option<Interp>, AllocError>
    ensures { IfOk result (λ o. MatchOption o (IsNone IsSet atoms_fields line.now) (λ x. IsWhole IsSet atoms_fields line.now x)) }
{
    let Some((set, rest)) = atoms(alloc, line)? else {
        return Ok(None);
    };
    if !rest.is_empty() {
        return Ok(None);
    }
    Ok(Some(set))
}

/// The answer of which the line is the text.
pub fn answer(alloc: Global, line: &[u8]) -> Result<Option<Interp>, AllocError>
    ensures { IfOk result (λ o. MatchOption o (IsNone IsSet answer_text line.now) (λ x. IsWhole IsSet answer_text line.now x)) }
{
    let Some(fields) = after(line, b"a") else {
        return Ok(None);
    };
    set(alloc, fields)
}

// A set that isn't empty, and literals, at the front of a line.
fn set_and_nogood(
    alloc: Global,
    line: &[u8],
) -> Result<Option<(Interp, Vec<i32>, &[u8])>, AllocError>
    ensures { IfOk result (λ o. MatchOption o (IsMissing (Both IsLoopSet IsNogood) (two_fields atoms_fields literals_fields) line.now)
        (λ x. IsAt (Both IsLoopSet IsNogood) (two_fields atoms_fields literals_fields) line.now (x.0, x.1.items) x.2.now)) }
{
    let Some((set, rest)) = atoms(alloc, line)? else {
        return Ok(None);
    };
    if set.as_slice().is_empty() {
        return Ok(None);
    }
    match literals(alloc, rest)? {
        Some((nogood, rest)) => Ok(Some((set, nogood, rest))),
        None => Ok(None),
    }
}

// Literals, and places, at the front of a line.
fn nogood_and_places(
    alloc: Global,
    line: &[u8],
) -> Result<Option<(Vec<i32>, Vec<u32>, &[u8])>, AllocError>
    ensures { IfOk result (λ o. MatchOption o (IsMissing (Both IsNogood ArePlaces) (two_fields literals_fields (counted_fields natural_field)) line.now)
        (λ x. IsAt (Both IsNogood ArePlaces) (two_fields literals_fields (counted_fields natural_field)) line.now (x.0.items, x.1.items) x.2.now)) }
{
    let Some((nogood, rest)) = literals(alloc, line)? else {
        return Ok(None);
    };
    match places(alloc, rest)? {
        Some((names, rest)) => Ok(Some((nogood, names, rest))),
        None => Ok(None),
    }
}

// The place of a loop, its set, its nogood, and nothing else.
fn loop_line(alloc: Global, line: &[u8]) -> Result<Option<Line>, AllocError>
    ensures { IfOk result (λ o. MatchOption o (IsNone IsLoop loop_fields line.now) (λ x. IsWhole IsLine line_text (111 ∷ line.now) x)) }
{
    let Some((place, rest)) = natural(line) else {
        return Ok(None);
    };
    let Some((set, nogood, rest)) = set_and_nogood(alloc, rest)? else {
        return Ok(None);
    };
    if !rest.is_empty() {
        return Ok(None);
    }
    Ok(Some(Line::Loop {
        place,
        set,
        nogood: Seq::from_vec(nogood),
    }))
}

// The place of a nogood, its literals, the places that it names, and nothing else.
fn learned_line(alloc: Global, line: &[u8]) -> Result<Option<Line>, AllocError>
    ensures { IfOk result (λ o. MatchOption o (IsNone IsLearned learned_fields line.now) (λ x. IsWhole IsLine line_text (108 ∷ line.now) x)) }
{
    let Some((place, rest)) = natural(line) else {
        return Ok(None);
    };
    let Some((nogood, names, rest)) = nogood_and_places(alloc, rest)? else {
        return Ok(None);
    };
    if !rest.is_empty() {
        return Ok(None);
    }
    Ok(Some(Line::Learned {
        place,
        nogood: Seq::from_vec(nogood),
        names: Seq::from_vec(names),
    }))
}

fn cube_line(alloc: Global, line: &[u8]) -> Result<Option<Line>, AllocError>
    ensures { IfOk result (λ o. MatchOption o (IsNone IsNogood literals_fields line.now) (λ x. IsWhole IsLine line_text (99 ∷ line.now) x)) }
{
    match nogood(alloc, line)? {
        Some(cube) => Ok(Some(Line::Cube(cube))),
        None => Ok(None),
    }
}

fn found_line(alloc: Global, line: &[u8]) -> Result<Option<Line>, AllocError>
    ensures { IfOk result (λ o. MatchOption o (IsNone IsSet atoms_fields line.now) (λ x. IsWhole IsLine line_text (102 ∷ line.now) x)) }
{
    match set(alloc, line)? {
        Some(change) => Ok(Some(Line::Found(change))),
        None => Ok(None),
    }
}

/// The line of which this is the text.
pub fn line(alloc: Global, line: &[u8]) -> Result<Option<Line>, AllocError>
    ensures { IfOk result (λ o. MatchOption o (IsNone IsLine line_text line.now) (λ x. IsWhole IsLine line_text line.now x)) }
{
    if let Some(fields) = after(line, b"o") {
        return loop_line(alloc, fields);
    }
    if let Some(fields) = after(line, b"l") {
        return learned_line(alloc, fields);
    }
    if let Some(fields) = after(line, b"c") {
        return cube_line(alloc, fields);
    }
    if let Some(fields) = after(line, b"f") {
        return found_line(alloc, fields);
    }
    Ok(None)
}
