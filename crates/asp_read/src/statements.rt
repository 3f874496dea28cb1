// A statement of a line, after the program so far.
ghost use Rattle.std.specs.Prelude.{◌≡◌, ◌+◌, ◌≤◌, ◌++◌, length, map, IfOk};
ghost use Rattle.asp_text.specs.Fields.{integer_of};
ghost use Rattle.asp_model.specs.Sets.{with_atom, with_atoms};
ghost use Rattle.asp_model.specs.Holding.{atom_of, body_atoms};
ghost use Rattle.asp_model.specs.Models.{head_atoms};
ghost use Rattle.asp_read.specs.Sizes.{head_size, body_size, rule_size, statement_size, statement_atoms};
ghost use Rattle.asp_read.specs.Gives.{Gives};
ghost use Rattle.asp_read.specs.Fields.{literals_at, weights_at, most_counted};
ghost use Rattle.asp_read.specs.Statements.{head_among, head_at, body_at, rule_at, output_at, value_of, external_at, minimize_at, heuristic_at, kind_at, statement_with, of_kind, is_too_many, is_number, is_word, is_header, no_tag, header_at};

use crate::error::{LineError, broken};
use crate::fault::FaultKind;
use crate::field::{MOST_COUNTED, atom, count, ended, integer, natural, pass_literals, text};
use crate::known::KnownAtoms;
use crate::many::{Atoms, Literals, Weights, many};
use crate::sizes::size_of_head;
use crate::statement::Statement;
use asp_model::program::{Body, External, ExternalValue, Head, Minimize, Output, Rule};
use asp_model::seq::Seq;
use asp_text::{Num, is_digits, read_int, split_field, split_int};
use std::alloc::{AllocError, Global};

/// A count and as many literals, where so much was counted before.
pub fn literals<'a>(
    alloc: Global,
    line: &'a [u8],
    used: u32,
    known: &mut KnownAtoms,
) -> Result<(Seq<i32>, &'a [u8]), LineError>
    ensures literals { Gives (λ x. (x.0, x.1.now)) result (literals_at used known.old line.now) }
    ensures bound { IfOk result (λ x. used + length x.0 ≤ most_counted) }
    ensures known { IfOk result (λ x. known.new ≡ with_atoms known.old (map atom_of x.0)) }
{
    let (n, rest) = count(line, used)?;
    many(alloc, &Literals, n, rest, known)
}

fn weights<'a>(
    alloc: Global,
    line: &'a [u8],
    used: u32,
    low: i32,
    known: &mut KnownAtoms,
) -> Result<(Seq<(i32, i32)>, &'a [u8]), LineError>
    ensures weights { Gives (λ x. (x.0, x.1.now)) result (weights_at used low known.old line.now) }
    ensures bound { IfOk result (λ x. used + length x.0 ≤ most_counted) }
    ensures known { IfOk result (λ x. known.new ≡ with_atoms known.old (map (λ item. atom_of item.0) x.0)) }
{
    let (n, rest) = count(line, used)?;
    many(alloc, &Weights(low), n, rest, known)
}

// A head that is no choice, of one atom or none.
#[tactic(auto, unfolding(crate::specs::Fields::many_at))]
fn single<'a>(
    count: u32,
    line: &'a [u8],
    known: &mut KnownAtoms,
) -> Result<(Head, &'a [u8]), LineError>
    requires { count ≤ 1 }
    ensures head { Gives (λ x. (x.0, x.1.now)) result (head_among 0 count known.old line.now) }
    ensures bound { IfOk result (λ x. head_size x.0 ≤ count) }
    ensures known { IfOk result (λ x. known.new ≡ with_atoms known.old (head_atoms x.0)) }
{
    if count == 0 {
        return Ok((Head::Never, line));
    }
    let (atom, rest) = atom(line, known)?;
    Ok((Head::One(atom), rest))
}

#[tactic(auto, unfolding(crate::specs::Statements::head_at))]
fn head<'a>(
    alloc: Global,
    line: &'a [u8],
    used: u32,
    known: &mut KnownAtoms,
) -> Result<(Head, &'a [u8]), LineError>
    ensures head { Gives (λ x. (x.0, x.1.now)) result (head_at used known.old line.now) }
    ensures bound { IfOk result (λ x. used + head_size x.0 ≤ most_counted) }
    ensures known { IfOk result (λ x. known.new ≡ with_atoms known.old (head_atoms x.0)) }
{
    let (kind, rest) = natural(line, 0, 1)?;
    let (m, atoms) = natural(rest, 0, i32::MAX as u32)?;
    if kind == 0 && m > 1 {
        return Err(broken(FaultKind::Disjunction, rest));
    }
    if used as u64 + m as u64 > MOST_COUNTED as u64 {
        return Err(broken(FaultKind::Counts, rest));
    }
    if kind == 0 {
        return single(m, atoms, known);
    }
    choice(alloc, m, atoms, known)
}

fn choice<'a>(
    alloc: Global,
    count: u32,
    line: &'a [u8],
    known: &mut KnownAtoms,
) -> Result<(Head, &'a [u8]), LineError>
    ensures head { Gives (λ x. (x.0, x.1.now)) result (head_among 1 count known.old line.now) }
    ensures bound { IfOk result (λ x. head_size x.0 ≤ count) }
    ensures known { IfOk result (λ x. known.new ≡ with_atoms known.old (head_atoms x.0)) }
{
    let (atoms, rest) = many(alloc, &Atoms, count, line, known)?;
    Ok((Head::Choice(atoms), rest))
}

#[tactic(auto, unfolding(crate::specs::Statements::body_at))]
fn body<'a>(
    alloc: Global,
    line: &'a [u8],
    used: u32,
    known: &mut KnownAtoms,
) -> Result<(Body, &'a [u8]), LineError>
    ensures body { Gives (λ x. (x.0, x.1.now)) result (body_at used known.old line.now) }
    ensures bound { IfOk result (λ x. used + body_size x.0 ≤ most_counted) }
    ensures known { IfOk result (λ x. known.new ≡ with_atoms known.old (body_atoms x.0)) }
{
    let (kind, rest) = natural(line, 0, 1)?;
    if kind == 0 {
        let (literals, rest) = literals(alloc, rest, used, known)?;
        return Ok((Body::All(literals), rest));
    }
    let (bound, rest) = integer(rest, i32::MIN, i32::MAX)?;
    let (items, rest) = weights(alloc, rest, used, 0, known)?;
    Ok((Body::AtLeast(bound, items), rest))
}

#[tactic(auto, unfolding(crate::specs::Statements::external_at))]
fn external<'a>(line: &'a [u8], known: &mut KnownAtoms) -> Result<(External, &'a [u8]), LineError>
    ensures external { Gives (λ x. (x.0, x.1.now)) result (external_at known.old line.now) }
    ensures known { IfOk result (λ x. known.new ≡ with_atom x.0.atom known.old) }
{
    let (atom, rest) = atom(line, known)?;
    let (number, rest) = natural(rest, 0, 3)?;
    let value = value_of(number);
    Ok((External { atom, value }, rest))
}

fn value_of(number: u32) -> ExternalValue
    ensures { result ≡ value_of number }
{
    match number {
        0 => ExternalValue::Free,
        1 => ExternalValue::True,
        2 => ExternalValue::False,
        _ => ExternalValue::Release,
    }
}

/// A copy of a text.
pub fn owned(alloc: Global, text: &[u8]) -> Result<Seq<u8>, AllocError>
    ensures { IfOk result (λ t. t ≡ text.now) }
{
    Ok(Seq::from_vec(text.to_vec(alloc)?))
}

#[tactic(auto, unfolding(crate::specs::Statements::output_at))]
fn output<'a>(
    alloc: Global,
    line: &'a [u8],
    used: u32,
    known: &mut KnownAtoms,
) -> Result<(Output, &'a [u8]), LineError>
    ensures output { Gives (λ x. (x.0, x.1.now)) result (output_at used known.old line.now) }
    ensures bound { IfOk result (λ x. used + length x.0.condition ≤ most_counted) }
    ensures known { IfOk result (λ x. known.new ≡ with_atoms known.old (map atom_of x.0.condition)) }
{
    let (m, rest) = natural(line, 0, 268_435_456)?;
    let (text, rest) = text(rest, m)?;
    let (condition, rest) = literals(alloc, rest, used, known)?;
    let text = owned(alloc, text)?;
    Ok((Output { text, condition }, rest))
}

#[tactic(auto, unfolding(crate::specs::Statements::rule_at))]
fn rule<'a>(
    alloc: Global,
    line: &'a [u8],
    used: u32,
    known: &mut KnownAtoms,
) -> Result<(Rule, &'a [u8]), LineError>
    ensures rule { Gives (λ x. (x.0, x.1.now)) result (rule_at used known.old line.now) }
    ensures bound { IfOk result (λ x. used + rule_size x.0 ≤ most_counted) }
    ensures known { IfOk result (λ x. known.new ≡ with_atoms known.old (head_atoms x.0.head ++ body_atoms x.0.body)) }
{
    let (head, rest) = head(alloc, line, used, known)?;
    let used = used + size_of_head(&head);
    let (body, rest) = body(alloc, rest, used, known)?;
    Ok((Rule { head, body }, rest))
}

// Whether a priority would be the 1,001st different one.
fn is_too_many(priority: i32, seen: &[i32]) -> bool
    ensures { result ≡ is_too_many priority seen.now }
{
    !seen.contains(&priority) && seen.len() >= 1000
}

#[tactic(auto, unfolding(crate::specs::Statements::minimize_at))]
fn minimize<'a>(
    alloc: Global,
    line: &'a [u8],
    used: u32,
    seen: &[i32],
    known: &mut KnownAtoms,
) -> Result<(Minimize, &'a [u8]), LineError>
    ensures minimize { Gives (λ x. (x.0, x.1.now)) result (minimize_at used seen.now known.old line.now) }
    ensures bound { IfOk result (λ x. used + length x.0.items ≤ most_counted) }
    ensures known { IfOk result (λ x. known.new ≡ with_atoms known.old (map (λ item. atom_of item.0) x.0.items)) }
{
    let (priority, rest) = integer(line, i32::MIN, i32::MAX)?;
    if is_too_many(priority, seen) {
        return Err(broken(FaultKind::Priorities, line));
    }
    let (items, rest) = weights(alloc, rest, used, i32::MIN, known)?;
    Ok((Minimize { priority, items }, rest))
}

// A hint for a search, of which nothing is kept: it changes no answer.
#[tactic(auto, unfolding(crate::specs::Statements::heuristic_at))]
fn heuristic(line: &[u8]) -> Result<&[u8], LineError>
    ensures { Gives (λ rest. rest.now) result (heuristic_at line.now) }
{
    let (_, rest) = natural(line, 0, 5)?;
    let (_, rest) = natural(rest, 1, i32::MAX as u32)?;
    let (_, rest) = integer(rest, i32::MIN, i32::MAX)?;
    let (_, rest) = natural(rest, 0, i32::MAX as u32)?;
    let (n, rest) = natural(rest, 0, i32::MAX as u32)?;
    pass_literals(rest, n)
}

fn kind_of(line: &[u8]) -> Result<(u32, &[u8]), LineError>
    ensures kind { Gives (λ x. (x.0, x.1.now)) result (kind_at line.now) }
    ensures bound { IfOk result (λ x. x.0 ≤ 10) }
{
    let (number, rest) = split_int(line);
    match number {
        Num::Value(n) if 0 <= n && n <= 10 => Ok((n as u32, rest)),
        _ => Err(broken(FaultKind::Statement(number), line)),
    }
}

#[tactic(auto, unfolding(crate::specs::Statements::of_kind))]
fn of_kind(
    alloc: Global,
    kind: u32,
    line: &[u8],
    used: u32,
    seen: &[i32],
    known: &mut KnownAtoms,
) -> Result<Statement, LineError>
    requires kind { kind ≤ 10 }
    requires used { used ≤ most_counted }
    ensures statement { Gives (λ s. s) result (of_kind kind used seen.now known.old line.now) }
    ensures bound { IfOk result (λ s. used + statement_size s ≤ most_counted) }
    ensures known { IfOk result (λ s. known.new ≡ with_atoms known.old (statement_atoms s)) }
{
    match kind {
        0 => {
            ended(line)?;
            Ok(Statement::End)
        }
        1 => {
            let (rule, rest) = rule(alloc, line, used, known)?;
            ended(rest)?;
            Ok(Statement::Rule(rule))
        }
        2 => {
            let (minimize, rest) = minimize(alloc, line, used, seen, known)?;
            ended(rest)?;
            Ok(Statement::Minimize(minimize))
        }
        3 => Err(broken(FaultKind::Projection, line)),
        4 => {
            let (output, rest) = output(alloc, line, used, known)?;
            ended(rest)?;
            Ok(Statement::Output(output))
        }
        5 => {
            let (external, rest) = external(line, known)?;
            ended(rest)?;
            Ok(Statement::External(external))
        }
        6 => {
            let (literals, rest) = literals(alloc, line, used, known)?;
            ended(rest)?;
            Ok(Statement::Assume(literals))
        }
        7 => {
            let rest = heuristic(line)?;
            ended(rest)?;
            Ok(Statement::Comment)
        }
        8 => Err(broken(FaultKind::Edge, line)),
        9 => Err(broken(FaultKind::Theory, line)),
        _ => Ok(Statement::Comment),
    }
}

/// What a line says, where so much was counted and these priorities and atoms stood before.
#[tactic(auto, unfolding(crate::specs::Statements::statement_with))]
pub fn statement(
    alloc: Global,
    line: &[u8],
    used: u32,
    seen: &[i32],
    known: &mut KnownAtoms,
) -> Result<Statement, LineError>
    requires { used ≤ most_counted }
    ensures statement { Gives (λ s. s) result (statement_with used seen.now known.old line.now) }
    ensures bound { IfOk result (λ s. used + statement_size s ≤ most_counted) }
    ensures known { IfOk result (λ s. known.new ≡ with_atoms known.old (statement_atoms s)) }
{
    let (kind, rest) = kind_of(line)?;
    of_kind(alloc, kind, rest, used, seen, known)
}

/// Whether a field is this number.
pub fn is_number(field: &[u8], n: u32) -> bool
    ensures { result ≡ is_number n (integer_of field.now) }
{
    match read_int(field) {
        Num::Value(k) => k == n as i64,
        _ => false,
    }
}

/// Whether a field is this word.
pub fn is_word(field: &[u8], word: &[u8]) -> bool
    ensures { result ≡ is_word field.now word.now }
{
    field == word
}

fn is_header(name: &[u8], version: &[u8], minor: &[u8], revision: &[u8]) -> bool
    ensures { result ≡ is_header name.now version.now minor.now revision.now }
{
    is_word(name, b"asp") && is_number(version, 1) && is_number(minor, 0) && is_digits(revision)
}

// No field behind the revision.
fn no_tag(line: &[u8]) -> Result<(), LineError>
    ensures { Gives (λ u. u) result (no_tag line.now) }
{
    let (tag, _) = split_field(line);
    if tag.is_empty() {
        return Ok(());
    }
    if is_word(tag, b"incremental") {
        return Err(broken(FaultKind::Incremental, line));
    }
    Err(broken(FaultKind::Tag, line))
}

/// The header `asp 1 0` with any revision.
#[tactic(auto, unfolding(crate::specs::Statements::header_at))]
pub fn header(line: &[u8]) -> Result<(), LineError>
    ensures { Gives (λ u. u) result (header_at line.now) }
{
    let (name, rest) = split_field(line);
    let (version, rest) = split_field(rest);
    let (minor, rest) = split_field(rest);
    let (revision, rest) = split_field(rest);
    if !is_header(name, version, minor, revision) {
        return Err(broken(FaultKind::Header, line));
    }
    no_tag(rest)
}
