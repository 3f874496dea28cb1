//! The judgement of a proof, line by line as its text is read.
ghost use Rattle.std.specs.Prelude.{◌≡◌, ℕ, ◌+◌, ◌++◌, ◌||◌, ◌^◌, ◌<◌, ◌≤◌, [], Bool, List, false, codes, length, map, IsErrOf, OnOk};
ghost use Rattle.std.specs.List.{list_any};
ghost use Rattle.asp_io.specs.Causes.{Rose};
ghost use Rattle.asp_model.specs.Models.{atoms_of};
ghost use Rattle.asp_model.specs.Sound.{IsSound};
ghost use Rattle.asp_model.specs.declared.program.Program.{Program};
ghost use Rattle.asp_vars.specs.Numbering.{literal_of};
ghost use Rattle.asp_proof.specs.declared.proof.Line.{Line};
ghost use Rattle.asp_proof.specs.declared.proof.Proof.{Proof};
ghost use Rattle.asp_proof.specs.Texts.{last_word};
ghost use Rattle.asp_proof.specs.Walk.{front_of, proof_of};
ghost use Rattle.asp_proof.specs.Reading.{Comes, held};
ghost use Rattle.asp_checker.specs.Errors.{read_fault};
ghost use Rattle.asp_checker.specs.Lines.{first_gathered};
ghost use Rattle.asp_checker.specs.Right.{closes, found_of};
ghost use Rattle.asp_checker.specs.Judging.{AreSorted, gathered_by, IsReady};
ghost use Rattle.asp_checker.specs.Streams.{AreAtEnd, AreLinesBefore, AreLinesOf, IsEndJudged, IsRightFront, right_judgement, Judges, JudgesAnswers, JudgesLines, StepsTo};

use crate::error::{CheckError, proof_error, refused};
use crate::judge::{Judgement, Listed, Why, read_answer};
use crate::known::{first_known, read_line};
use crate::lines::assumptions;
use crate::members::Order;
use crate::promise::is_kept;
use crate::propagator::{Propagator, Read};
use crate::set_list::SetList;
use asp_io::Source;
use asp_proof::LineReader;
use asp_proof::lines::{last, mode};
use asp_proof::proof::Sought;
use asp_vars::compiled::Compiled;
use asp_vars::lit::Lit;
use std::alloc::Global;

// More lines than any memory holds.
const MOST_LINES: usize = 1_152_921_504_606_846_976;

/// Goes to the next line of the proof or of the program before it.
pub(crate) fn next_line<S: Source>(
    reader: &mut LineReader,
    source: &mut S,
) -> Result<bool, CheckError>
    ensures next { StepsTo (S.left source.old) (S.left source.new) reader.old reader.new result }
    ensures cause { IsErrOf result read_fault → Rose (S.faults source.old) (S.faults source.new) }
    ensures quiet { ¬ IsErrOf result read_fault → S.faults source.new ≡ S.faults source.old }
{
    match reader.next_line(source) {
        Ok(is_whole) => Ok(is_whole),
        Err(error) => Err(proof_error(error)),
    }
}

// ---- lines

fn either(one: bool, other: bool) -> bool
    ensures { result ≡ (one || other) }
{
    one || other
}

// The lines so far.
#[derive(Clone, Copy)]
struct Tally {
    // How many there are.
    count: usize,
    // Whether one of them says that there is nothing else.
    whole: bool,
}

// Judges the lines one after another, up to the first that is none of those that come before the answers. Each that is right is known to
// the later ones.
fn judge_lines<S: Source>(
    compiled: &Compiled,
    sought: Sought,
    known: &mut Propagator,
    assumed: &[Lit],
    tally: &mut Tally,
    reader: &mut LineReader,
    source: &mut S,
) -> Result<Option<Why>, CheckError>
    requires ready { IsReady compiled.now sought known.old }
    requires first { gathered_by known.old ≡ first_gathered compiled.now }
    requires assumed { assumed.now ≡ map (literal_of compiled.now) compiled.now.assumptions }
    requires count { tally.old.count ≡ 0 }
    requires whole { tally.old.whole ≡ false }
    ensures says { JudgesLines compiled.now sought known.new tally.new (S.left source.old) (S.left source.new)
        (front_of (proof_of sought [] []) ++ reader.old.behind) reader.new result }
    ensures few { tally.new.count ≤ 2 ^ 60 }
    ensures cause { IsErrOf result read_fault → Rose (S.faults source.old) (S.faults source.new) }
    ensures quiet { ¬ IsErrOf result read_fault → S.faults source.new ≡ S.faults source.old }
{
    'lines: for at in 0..MOST_LINES {
        let next = next_line(reader, source)?;
        if !next {
            return Err(refused(tally.count + 3));
        }
        let came_to = read_line(compiled, sought, known, assumed, reader.line())?;
        match came_to {
            Read::Right(closing) => {
                tally.count = at + 1;
                tally.whole = either(tally.whole, closing);
            }
            Read::Wrong(why) => return Ok(Some(why)),
            Read::Other => return Ok(None),
        }
    }
    Err(CheckError::Memory)
}

// ---- answers

// The listed sets behind so many lines, each judged behind those before it, from the line that the reader is at up to the first that is
// none.
fn judge_answers<S: Source>(
    alloc: Global,
    compiled: &Compiled,
    sought: Sought,
    count: usize,
    answers: &mut SetList,
    reader: &mut LineReader,
    source: &mut S,
) -> Result<Option<Why>, CheckError>
    requires few { count ≤ 2 ^ 60 }
    requires atoms { answers.old.atoms ≡ atoms_of compiled.now }
    requires none { answers.old.sets ≡ [] }
    ensures says { (entries : List Line) (whole : Bool) (found : List (List ℕ)) → AreLinesOf compiled.now sought entries count whole found reader.old →
        JudgesAnswers compiled.now sought entries count answers.new.sets (S.left source.old) (S.left source.new)
        (front_of (proof_of sought entries []) ++ held reader.old) reader.new result }
    ensures order { OnOk result (AreSorted answers.new.sets) }
    ensures atoms { answers.new.atoms ≡ answers.old.atoms }
    ensures cause { IsErrOf result read_fault → Rose (S.faults source.old) (S.faults source.new) }
    ensures quiet { ¬ IsErrOf result read_fault → S.faults source.new ≡ S.faults source.old }
{
    let mut order = Order::new(alloc, compiled)?;
    'answers: for _ in 0..MOST_LINES {
        let bytes = reader.line();
        let listed = read_answer(alloc, compiled, sought, answers, &mut order, bytes)?;
        match listed {
            Listed::Right => {}
            Listed::Wrong(why) => return Ok(Some(why)),
            Listed::Other => return Ok(None),
        }
        let next = next_line(reader, source)?;
        if !next {
            return Err(refused(count + answers.len() + 3));
        }
    }
    Err(CheckError::Memory)
}

// ---- the last line

// What is said of a proof that is right and lists so many answers.
fn right(part: bool, count: usize) -> Judgement
    ensures { result ≡ right_judgement part count }
{
    if part {
        Judgement::Part(count)
    } else {
        Judgement::Yes
    }
}

// What is wrong with the last line, which tells whether the answers are a part of what was sought.
fn fault_of_end(
    part: bool,
    whole: bool,
    sought: Sought,
    found: &SetList,
    answers: &SetList,
) -> Option<Why>
    requires atoms { found.now.atoms ≡ answers.now.atoms }
    requires order { AreSorted answers.now.sets }
    ensures { (p : Program) (q : Proof) → q.sought ≡ sought → q.answers ≡ answers.now.sets → whole ≡ list_any (closes p) q.lines → found.now.sets ≡ found_of p q.lines →
        IsEndJudged p q part result }
{
    if part {
        return None;
    }
    if !whole {
        return Some(Why::NotWhole);
    }
    if is_kept(sought, found, answers) {
        return None;
    }
    Some(Why::NotListed)
}

// What is said at the last line, which tells whether the answers, so many, are a part of what was sought.
fn judge_last<S: Source>(
    part: bool,
    fault: Option<Why>,
    count: usize,
    number: usize,
    reader: &mut LineReader,
    source: &mut S,
) -> Result<Judgement, CheckError>
    requires last { reader.old.line ≡ last_word part }
    requires few { number < 2 ^ 63 }
    ensures says { (p : Program) (q : Proof) → IsRightFront p q number → length q.answers ≡ count → IsEndJudged p q part fault →
        Comes (S.left source.old) (front_of q ++ held reader.old) (λ text. Judges p text result) }
    ensures cause { IsErrOf result read_fault → Rose (S.faults source.old) (S.faults source.new) }
    ensures quiet { ¬ IsErrOf result read_fault → S.faults source.new ≡ S.faults source.old }
{
    if let Some(why) = fault {
        return Ok(Judgement::No(why, number));
    }
    match reader.has_more(source) {
        Ok(more) => {
            if more {
                return Err(refused(number + 1));
            }
            Ok(right(part, count))
        }
        Err(error) => Err(proof_error(error)),
    }
}

// Judges the last line, which the reader is at, behind lines and answers that are right.
fn judge_end<S: Source>(
    sought: Sought,
    tally: Tally,
    found: &SetList,
    answers: &SetList,
    reader: &mut LineReader,
    source: &mut S,
) -> Result<Judgement, CheckError>
    requires few { tally.count ≤ 2 ^ 60 }
    requires atoms { found.now.atoms ≡ answers.now.atoms }
    requires order { AreSorted answers.now.sets }
    ensures says { (p : Program) (entries : List Line) → IsSound p → AreLinesBefore p sought entries tally.count tally.whole found.now.sets →
        AreAtEnd p sought entries answers.now.sets reader.old →
        Comes (S.left source.old) (front_of (proof_of sought entries answers.now.sets) ++ held reader.old) (λ text. Judges p text result) }
    ensures cause { IsErrOf result read_fault → Rose (S.faults source.old) (S.faults source.new) }
    ensures quiet { ¬ IsErrOf result read_fault → S.faults source.new ≡ S.faults source.old }
{
    let count = answers.len();
    let number = tally.count + count + 3;
    let found_last = last(reader.line());
    match found_last {
        Some(part) => {
            let fault = fault_of_end(part, tally.whole, sought, found, answers);
            judge_last(part, fault, count, number, reader, source)
        }
        None => Err(refused(number)),
    }
}

// Judges the answers and the last line behind lines that are right, from the line that the reader is at.
fn judge_list<S: Source>(
    alloc: Global,
    compiled: &Compiled,
    sought: Sought,
    tally: Tally,
    found: &SetList,
    reader: &mut LineReader,
    source: &mut S,
) -> Result<Judgement, CheckError>
    requires sound { IsSound compiled.now }
    requires few { tally.count ≤ 2 ^ 60 }
    requires atoms { found.now.atoms ≡ atoms_of compiled.now }
    ensures says { (entries : List Line) → AreLinesOf compiled.now sought entries tally.count tally.whole found.now.sets reader.old →
        Comes (S.left source.old) (front_of (proof_of sought entries []) ++ held reader.old) (λ text. Judges compiled.now text result) }
    ensures cause { IsErrOf result read_fault → Rose (S.faults source.old) (S.faults source.new) }
    ensures quiet { ¬ IsErrOf result read_fault → S.faults source.new ≡ S.faults source.old }
{
    let mut answers = SetList::new(alloc, compiled)?;
    let fault = judge_answers(
        alloc,
        compiled,
        sought,
        tally.count,
        &mut answers,
        reader,
        source,
    )?;
    match fault {
        Some(why) => Ok(Judgement::No(why, tally.count + answers.len() + 3)),
        None => judge_end(sought, tally, found, &answers, reader, source),
    }
}

// ---- the whole

// Judges the lines, the answers and the last line, from the line behind the one that the reader is at, which says what is sought.
fn judge_body<S: Source>(
    alloc: Global,
    compiled: &Compiled,
    sought: Sought,
    reader: &mut LineReader,
    source: &mut S,
) -> Result<Judgement, CheckError>
    requires sound { IsSound compiled.now }
    ensures says { Comes (S.left source.old) (front_of (proof_of sought [] []) ++ reader.old.behind) (λ text. Judges compiled.now text result) }
    ensures cause { IsErrOf result read_fault → Rose (S.faults source.old) (S.faults source.new) }
    ensures quiet { ¬ IsErrOf result read_fault → S.faults source.new ≡ S.faults source.old }
{
    let assumptions = assumptions(alloc, compiled)?;
    let mut known = first_known(alloc, compiled)?;
    let mut tally = Tally {
        count: 0,
        whole: false,
    };
    let assumed = assumptions.as_slice();
    let judged = judge_lines(
        compiled, sought, &mut known, assumed, &mut tally, reader, source,
    );
    let found = known.into_found();
    match judged? {
        Some(why) => Ok(Judgement::No(why, tally.count + 3)),
        None => judge_list(alloc, compiled, sought, tally, &found, reader, source),
    }
}

/// Judges the proof whose first line the reader is at.
pub(crate) fn judge<S: Source>(
    alloc: Global,
    compiled: &Compiled,
    reader: &mut LineReader,
    source: &mut S,
) -> Result<Judgement, CheckError>
    requires sound { IsSound compiled.now }
    requires head { reader.old.line ≡ codes "proof 3" }
    ensures says { Comes (S.left source.old) (held reader.old) (λ text. Judges compiled.now text result) }
    ensures cause { IsErrOf result read_fault → Rose (S.faults source.old) (S.faults source.new) }
    ensures quiet { ¬ IsErrOf result read_fault → S.faults source.new ≡ S.faults source.old }
{
    let next = next_line(reader, source)?;
    if !next {
        return Err(refused(2));
    }
    let found = mode(reader.line());
    match found {
        Some(sought) => judge_body(alloc, compiled, sought, reader, source),
        None => Err(refused(2)),
    }
}
