// A rule or a minimize statement of a line.
ghost use Rattle.std.specs.Prelude.{◌≡◌, ◌+◌, ◌<◌, ◌≤◌, ◌++◌, length, map, IfOk};
ghost use Rattle.asp_model.specs.Sets.{with_atoms};
ghost use Rattle.asp_model.specs.Holding.{atom_of, body_atoms};
ghost use Rattle.asp_model.specs.Models.{head_atoms};
ghost use Rattle.asp_read.specs.Gives.{Gives};
ghost use Rattle.asp_read.specs.Fields.{most_counted};
ghost use Rattle.asp_read.specs.Sizes.{rule_size, statement_size, statement_atoms};
ghost use Rattle.asp_smodels.specs.Lines.{basic_at, cardinality_at, choice_at, weight_rule_at, minimize_at, type_at, of_type, rule_line};

use crate::parts::{heads, literals, negated, one_more, signed, weighted, with_weight_1};
use asp_model::program::{Body, Head, Minimize, Rule};
use asp_read::error::{LineError, broken};
use asp_read::fault::FaultKind;
use asp_read::field::{count, ended, integer, natural};
use asp_read::known::KnownAtoms;
use asp_read::many::{Atoms, many};
use asp_read::statement::Statement;
use asp_text::{Num, split_int};
use std::alloc::Global;

#[tactic(auto, unfolding(crate::specs::Lines::basic_at))]
fn basic<'a>(
    alloc: Global,
    line: &'a [u8],
    used: u32,
    known: &mut KnownAtoms,
) -> Result<(Rule, &'a [u8]), LineError>
    ensures rule { Gives (λ x. (x.0, x.1.now)) result (basic_at used known.old line.now) }
    ensures bound { IfOk result (λ x. used + rule_size x.0 ≤ most_counted) }
    ensures known { IfOk result (λ x. known.new ≡ with_atoms known.old (head_atoms x.0.head ++ body_atoms x.0.body)) }
{
    let (atom, rest) = one_more(line, used, known)?;
    let (literals, rest) = literals(alloc, rest, used + 1, known)?;
    let head = Head::One(atom);
    let body = Body::All(literals);
    Ok((Rule { head, body }, rest))
}

#[tactic(auto, unfolding(crate::specs::Lines::cardinality_at))]
fn cardinality<'a>(
    alloc: Global,
    line: &'a [u8],
    used: u32,
    known: &mut KnownAtoms,
) -> Result<(Rule, &'a [u8]), LineError>
    ensures rule { Gives (λ x. (x.0, x.1.now)) result (cardinality_at used known.old line.now) }
    ensures bound { IfOk result (λ x. used + rule_size x.0 ≤ most_counted) }
    ensures known { IfOk result (λ x. known.new ≡ with_atoms known.old (head_atoms x.0.head ++ body_atoms x.0.body)) }
{
    let (atom, rest) = one_more(line, used, known)?;
    let (n, rest) = count(rest, used + 1)?;
    let (k, rest) = negated(rest, n)?;
    let (bound, rest) = integer(rest, 0, i32::MAX)?;
    let (literals, rest) = signed(alloc, n, k, rest, known)?;
    let items = with_weight_1(alloc, literals.as_slice())?;
    let head = Head::One(atom);
    let body = Body::AtLeast(bound, items);
    Ok((Rule { head, body }, rest))
}

#[tactic(auto, unfolding(crate::specs::Lines::choice_at))]
fn choice<'a>(
    alloc: Global,
    line: &'a [u8],
    used: u32,
    known: &mut KnownAtoms,
) -> Result<(Rule, &'a [u8]), LineError>
    ensures rule { Gives (λ x. (x.0, x.1.now)) result (choice_at used known.old line.now) }
    ensures bound { IfOk result (λ x. used + rule_size x.0 ≤ most_counted) }
    ensures known { IfOk result (λ x. known.new ≡ with_atoms known.old (head_atoms x.0.head ++ body_atoms x.0.body)) }
{
    let (m, rest) = heads(line, used)?;
    let (atoms, rest) = many(alloc, &Atoms, m, rest, known)?;
    let (literals, rest) = literals(alloc, rest, used + m, known)?;
    let head = Head::Choice(atoms);
    let body = Body::All(literals);
    Ok((Rule { head, body }, rest))
}

#[tactic(auto, unfolding(crate::specs::Lines::weight_rule_at))]
fn weight_rule<'a>(
    alloc: Global,
    line: &'a [u8],
    used: u32,
    known: &mut KnownAtoms,
) -> Result<(Rule, &'a [u8]), LineError>
    ensures rule { Gives (λ x. (x.0, x.1.now)) result (weight_rule_at used known.old line.now) }
    ensures bound { IfOk result (λ x. used + rule_size x.0 ≤ most_counted) }
    ensures known { IfOk result (λ x. known.new ≡ with_atoms known.old (head_atoms x.0.head ++ body_atoms x.0.body)) }
{
    let (atom, rest) = one_more(line, used, known)?;
    let (bound, rest) = integer(rest, 0, i32::MAX)?;
    let (items, rest) = weighted(alloc, rest, used + 1, known)?;
    let head = Head::One(atom);
    let body = Body::AtLeast(bound, items);
    Ok((Rule { head, body }, rest))
}

#[tactic(auto, unfolding(crate::specs::Lines::minimize_at))]
fn minimize<'a>(
    alloc: Global,
    line: &'a [u8],
    number: usize,
    used: u32,
    known: &mut KnownAtoms,
) -> Result<(Minimize, &'a [u8]), LineError>
    requires { number < 1000 }
    ensures minimize { Gives (λ x. (x.0, x.1.now)) result (minimize_at number used known.old line.now) }
    ensures bound { IfOk result (λ x. used + length x.0.items ≤ most_counted) }
    ensures known { IfOk result (λ x. known.new ≡ with_atoms known.old (map (λ item. atom_of item.0) x.0.items)) }
{
    let (_, rest) = natural(line, 0, 0)?;
    let (items, rest) = weighted(alloc, rest, used, known)?;
    let priority = number as i32;
    Ok((Minimize { priority, items }, rest))
}

fn type_of(line: &[u8]) -> Result<(u32, &[u8]), LineError>
    ensures kind { Gives (λ x. (x.0, x.1.now)) result (type_at line.now) }
    ensures bound { IfOk result (λ x. x.0 ≤ 8) }
{
    let (number, rest) = split_int(line);
    match number {
        Num::Value(n) if 0 <= n && n <= 8 => Ok((n as u32, rest)),
        _ => Err(broken(FaultKind::RuleType(number), line)),
    }
}

// The rule of a type, whose parts follow it on the line.
#[tactic(auto, unfolding(crate::specs::Lines::of_type))]
fn of_type(
    alloc: Global,
    kind: u32,
    line: &[u8],
    rest: &[u8],
    number: usize,
    used: u32,
    known: &mut KnownAtoms,
) -> Result<Statement, LineError>
    requires kind { kind ≤ 8 }
    requires used { used ≤ most_counted }
    ensures statement { Gives (λ s. s) result (of_type kind number used known.old line.now rest.now) }
    ensures bound { IfOk result (λ s. used + statement_size s ≤ most_counted) }
    ensures known { IfOk result (λ s. known.new ≡ with_atoms known.old (statement_atoms s)) }
{
    match kind {
        0 => {
            ended(rest)?;
            Ok(Statement::End)
        }
        1 => {
            let (rule, rest) = basic(alloc, rest, used, known)?;
            ended(rest)?;
            Ok(Statement::Rule(rule))
        }
        2 => {
            let (rule, rest) = cardinality(alloc, rest, used, known)?;
            ended(rest)?;
            Ok(Statement::Rule(rule))
        }
        3 => {
            let (rule, rest) = choice(alloc, rest, used, known)?;
            ended(rest)?;
            Ok(Statement::Rule(rule))
        }
        5 => {
            let (rule, rest) = weight_rule(alloc, rest, used, known)?;
            ended(rest)?;
            Ok(Statement::Rule(rule))
        }
        6 => {
            if number >= 1000 {
                return Err(broken(FaultKind::Priorities, line));
            }
            let (minimize, rest) = minimize(alloc, rest, number, used, known)?;
            ended(rest)?;
            Ok(Statement::Minimize(minimize))
        }
        8 => Err(broken(FaultKind::Disjunction, line)),
        _ => Err(broken(FaultKind::RuleType(Num::Value(kind as i64)), line)),
    }
}

/// What a line says where rules stand, after so many minimize statements.
#[tactic(auto, unfolding(crate::specs::Lines::rule_line))]
pub fn rule_line(
    alloc: Global,
    line: &[u8],
    number: usize,
    used: u32,
    known: &mut KnownAtoms,
) -> Result<Statement, LineError>
    requires { used ≤ most_counted }
    ensures statement { Gives (λ s. s) result (rule_line number used known.old line.now) }
    ensures bound { IfOk result (λ s. used + statement_size s ≤ most_counted) }
    ensures known { IfOk result (λ s. known.new ≡ with_atoms known.old (statement_atoms s)) }
{
    let (kind, rest) = type_of(line)?;
    of_type(alloc, kind, line, rest, number, used, known)
}
