//! The judgement of a listed answer: that it is right, or why it isn't.
ghost use Rattle.std.specs.Prelude.{◌≡◌, true, false, IfOk, MatchOption, AllPairs, Contains};
ghost use Rattle.std.specs.List.{list_all};
ghost use Rattle.asp_model.specs.Sets.{IsBefore, has};
ghost use Rattle.asp_model.specs.Models.{answers, atoms_of};
ghost use Rattle.asp_proof.specs.Changes.{changed, last_of};
ghost use Rattle.asp_checker.specs.Lines.{CostsAlike};
ghost use Rattle.asp_checker.specs.Right.{is_best};
ghost use Rattle.asp_checker.specs.Judging.{IsInOrder, AreRightAnswers, IsRightAnswer, HasAnswerFault, IsAnswerRead};

use crate::lines::are_atoms;
use crate::members::{Order, is_stable_by};
use crate::set_list::SetList;
use asp_model::cost::{Cost, cost_of};
use asp_model::holding::all_hold;
use asp_model::interp::Interp;
use asp_proof::changes::changed_set;
use asp_proof::lines::answer;
use asp_proof::proof::Sought;
use asp_vars::compiled::Compiled;
use std::alloc::{AllocError, Global};
use std::cmp::Ordering;

/// Why a line of a proof isn't right.
#[derive(Clone, Copy)]
pub enum Why {
    /// The set isn't an answer.
    Member,
    /// The set doesn't come after the one before it, or is a second one where an optimum is sought, or a set found that costs no less than
    /// the one before it.
    Order,
    /// The program lacks a variable or an atom.
    Literal,
    /// The set can be founded from outside, where the nogood's literals hold.
    Loop,
    /// Unit propagation from the literals doesn't lead to a conflict.
    NotImplied,
    /// No line says that there is nothing else, nor does the last one say that the answers are a part.
    NotWhole,
    /// The set costs other than the first one, where all that none betters are sought.
    Cost,
    /// A set isn't listed that was found, nor does the last line say that the answers are a part.
    NotListed,
}

/// What is said of a proof.
#[derive(Clone, Copy)]
pub enum Judgement {
    /// It is right, and lists all that was sought.
    Yes,
    /// It is right, and tells that the answers, so many, are a part of what was sought.
    Part(usize),
    /// The first line that isn't right, and the line's number, counted from 1.
    No(Why, usize),
}

// ---- answers

// Whether the one set comes after the other.
fn comes_after(last: &Interp, set: &Interp) -> bool
    ensures yes { result ≡ true → IsBefore last.now set.now }
    ensures no { result ≡ false → IsBefore last.now set.now → ⊥ }
{
    let _last = last.as_slice();
    let _set = set.as_slice();
    match last.cmp(set) {
        Ordering::Less => true,
        Ordering::Equal => false,
        Ordering::Greater => false,
    }
}

// Whether the set comes after those before it.
fn is_in_order(opt: bool, before: &SetList, set: &Interp) -> bool
    requires { AllPairs IsBefore before.now.sets }
    ensures yes { result ≡ true → IsInOrder opt before.now.sets set.now }
    ensures no { result ≡ false → IsInOrder opt before.now.sets set.now → ⊥ }
{
    if before.len() == 0 {
        return true;
    }
    if opt {
        return false;
    }
    comes_after(before.last(), set)
}

// Whether a set of the program's atoms is an answer.
fn is_answer(
    alloc: Global,
    compiled: &Compiled,
    set: &Interp,
    order: &mut Order,
) -> Result<bool, AllocError>
    requires { list_all (has (atoms_of compiled.now)) set.now ≡ true }
    ensures yes { IfOk result (λ yes. yes ≡ true → Contains (answers compiled.now) set.now) }
    ensures no { IfOk result (λ yes. yes ≡ false → Contains (answers compiled.now) set.now → ⊥) }
{
    let program = compiled.program();
    let assumptions = program.assumptions.as_slice();
    if !all_hold(set, assumptions) {
        return Ok(false);
    }
    let stable = is_stable_by(alloc, compiled, set, order)?;
    Ok(stable)
}

// Whether one answer that none betters is sought.
fn is_best(sought: Sought) -> bool
    ensures { result ≡ is_best sought }
{
    match sought {
        Sought::All | Sought::Optima => false,
        Sought::Best => true,
    }
}

// Whether two costs are the same.
fn is_same(cost: &Cost, other: &Cost) -> bool
    ensures yes { result ≡ true → cost.now ≡ other.now }
    ensures no { result ≡ false → cost.now ≡ other.now → ⊥ }
{
    cost == other
}

// Whether the set costs what the first of those before it costs.
fn costs_as_first(
    alloc: Global,
    compiled: &Compiled,
    before: &SetList,
    set: &Interp,
) -> Result<bool, AllocError>
    ensures yes { IfOk result (λ yes. yes ≡ true → CostsAlike compiled.now Sought.Optima before.now.sets set.now) }
    ensures no { IfOk result (λ yes. yes ≡ false → CostsAlike compiled.now Sought.Optima before.now.sets set.now → ⊥) }
{
    if before.len() == 0 {
        return Ok(true);
    }
    let first = before.first();
    let program = compiled.program();
    let cost = cost_of(alloc, program, set)?;
    let least = cost_of(alloc, program, first)?;
    Ok(is_same(&cost, &least))
}

/// The same, where all answers that none betters are sought.
pub(crate) fn costs_alike(
    alloc: Global,
    compiled: &Compiled,
    sought: Sought,
    before: &SetList,
    set: &Interp,
) -> Result<bool, AllocError>
    ensures yes { IfOk result (λ yes. yes ≡ true → CostsAlike compiled.now sought before.now.sets set.now) }
    ensures no { IfOk result (λ yes. yes ≡ false → CostsAlike compiled.now sought before.now.sets set.now → ⊥) }
{
    match sought {
        Sought::All | Sought::Best => Ok(true),
        Sought::Optima => costs_as_first(alloc, compiled, before, set),
    }
}

// What is wrong with a set behind answers that are right.
fn fault_of_answer(
    alloc: Global,
    compiled: &Compiled,
    sought: Sought,
    before: &SetList,
    set: &Interp,
    order: &mut Order,
) -> Result<Option<Why>, AllocError>
    requires { AreRightAnswers compiled.now sought before.now.sets }
    ensures { IfOk result (λ o. MatchOption o (IsRightAnswer compiled.now sought before.now.sets set.now) (HasAnswerFault compiled.now sought before.now.sets set.now)) }
{
    if !is_in_order(is_best(sought), before, set) {
        return Ok(Some(Why::Order));
    }
    if !are_atoms(compiled, set) {
        return Ok(Some(Why::Literal));
    }
    let member = is_answer(alloc, compiled, set, order)?;
    if !member {
        return Ok(Some(Why::Member));
    }
    let alike = costs_alike(alloc, compiled, sought, before, set)?;
    if !alike {
        return Ok(Some(Why::Cost));
    }
    Ok(None)
}

/// What the bytes of a line came to where an answer may come.
#[derive(Clone, Copy)]
pub enum Listed {
    /// An answer that is right behind those before it, and one of them now.
    Right,
    /// A set, and what is wrong with it.
    Wrong(Why),
    /// No set.
    Other,
}

/// The set that comes after these by this change.
pub(crate) fn following(
    alloc: Global,
    before: &SetList,
    change: &Interp,
) -> Result<Interp, AllocError>
    ensures { IfOk result (λ set. set ≡ changed (last_of before.now.sets) change.now) }
{
    changed_set(alloc, before.last().as_slice(), change.as_slice())
}

/// Reads a line that may be an answer's, by what it changes of the one before it, and judges the answer behind those before it.
pub(crate) fn read_answer(
    alloc: Global,
    compiled: &Compiled,
    sought: Sought,
    answers: &mut SetList,
    order: &mut Order,
    bytes: &[u8],
) -> Result<Listed, AllocError>
    requires atoms { answers.old.atoms ≡ atoms_of compiled.now }
    requires right { AreRightAnswers compiled.now sought answers.old.sets }
    ensures read { IfOk result (IsAnswerRead compiled.now sought answers.old.sets answers.new.sets bytes.now) }
    ensures atoms { answers.new.atoms ≡ answers.old.atoms }
{
    let Some(change) = answer(alloc, bytes)? else {
        return Ok(Listed::Other);
    };
    let set = following(alloc, answers, &change)?;
    let fault = fault_of_answer(alloc, compiled, sought, answers, &set, order)?;
    match fault {
        Some(why) => Ok(Listed::Wrong(why)),
        None => {
            answers.push(alloc, set)?;
            Ok(Listed::Right)
        }
    }
}
