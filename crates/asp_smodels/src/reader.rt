// What the lines so far said, and the next line.
ghost use Rattle.std.specs.Prelude.{◌≡◌, ◌+◌, ◌≤◌, ◌<◌, ℕ, List, IfOk, IfSome, IsErrOf, OnOk};
ghost use Rattle.std.specs.Io.KnownBytes.{IsAtEnd};
ghost use Rattle.asp_io.specs.Causes.{Rose};
ghost use Rattle.asp_model.specs.Sound.{IsSound};
ghost use Rattle.asp_model.specs.Sets.{with_atoms};
ghost use Rattle.asp_read.specs.Fields.{most_counted};
ghost use Rattle.asp_read.specs.Gives.{Gives};
ghost use Rattle.asp_read.specs.Sizes.{statement_size, statement_atoms};
ghost use Rattle.asp_read.specs.Stream.{ReadsText, StopsBy};
ghost use Rattle.asp_smodels.specs.Seen.{nothing_seen};
ghost use Rattle.asp_smodels.specs.Outcome.{next_stage, stage_after, line_of, smodels, smodels_outcome};

use crate::lines::{assumed_line, number_line, symbol_line, word_line};
use crate::rules::rule_line;
use asp_io::Source;
use asp_model::program::Program;
use asp_read::draft::Draft;
use asp_read::error::{LineError, broken, missing};
use asp_read::fault::{FaultKind, ReadError};
use asp_read::judge::Judge;
use asp_read::known::KnownAtoms;
use asp_read::statement::Statement;
use asp_read::stream::read_by;
use asp_text::unblank;
use std::alloc::{AllocError, Global};
use std::marker::Model;
use std::mem;

/// What comes next.
#[derive(Clone, Copy)]
pub enum Stage {
    /// Rules, up to a line `0`.
    Rules,
    /// Symbols, up to a line `0`.
    Symbols,
    /// The line `B+`.
    PlusWord,
    /// Atoms that are assumed true, up to a line `0`.
    Plus,
    /// The line `B-`.
    MinusWord,
    /// Atoms that are assumed false, up to a line `0`.
    Minus,
    /// A number, which isn't used.
    Number,
    /// Nothing more.
    Ended,
}

#[derive(Drop)]
struct Reader {
    /// Where memory comes from.
    alloc: Global,
    /// What comes next.
    stage: Stage,
    /// The program so far.
    draft: Draft,
    /// The atoms met so far, which a program may not have beyond a limit.
    known: KnownAtoms,
}

impl Model for Reader {
    ghost use Rattle.asp_smodels.specs.Seen.{Seen};

    ghost Value = { Seen };

    ghost view = { λ r. record { stage = r.stage; program = r.draft; known = r.known } };
}

impl Reader {
    fn new(alloc: Global) -> Result<Self, AllocError>
        ensures { IfOk result (λ r. r ≡ nothing_seen) }
    {
        let draft = Draft::new(alloc)?;
        let known = KnownAtoms::new(alloc)?;
        Ok(Reader {
            alloc,
            stage: Stage::Rules,
            draft,
            known,
        })
    }
}

fn next_stage(stage: Stage) -> Stage
    ensures { result ≡ next_stage stage }
{
    match stage {
        Stage::Rules => Stage::Symbols,
        Stage::Symbols => Stage::PlusWord,
        Stage::PlusWord => Stage::Plus,
        Stage::Plus => Stage::MinusWord,
        Stage::MinusWord => Stage::Minus,
        Stage::Minus => Stage::Number,
        Stage::Number | Stage::Ended => Stage::Ended,
    }
}

fn stage_after(stage: Stage, statement: &Statement) -> Stage
    ensures { result ≡ stage_after stage statement.now }
{
    match statement {
        Statement::End => next_stage(stage),
        _ => stage,
    }
}

// What a line says, after so many minimize statements, where so much was counted.
fn line_of(
    alloc: Global,
    stage: Stage,
    line: &[u8],
    number: usize,
    used: u32,
    known: &mut KnownAtoms,
) -> Result<Statement, LineError>
    requires { used ≤ most_counted }
    ensures statement { Gives (λ s. s) result (line_of stage number used known.old line.now) }
    ensures bound { IfOk result (λ s. used + statement_size s ≤ most_counted) }
    ensures known { IfOk result (λ s. known.new ≡ with_atoms known.old (statement_atoms s)) }
{
    match stage {
        Stage::Rules => rule_line(alloc, line, number, used, known),
        Stage::Symbols => symbol_line(alloc, line, used, known),
        Stage::PlusWord => word_line(line, b"B+"),
        Stage::Plus => assumed_line(alloc, line, false, used, known),
        Stage::MinusWord => word_line(line, b"B-"),
        Stage::Minus => assumed_line(alloc, line, true, used, known),
        Stage::Number => number_line(line),
        Stage::Ended => Err(broken(FaultKind::AfterEnd, line)),
    }
}

impl Judge for Reader {
    ghost use Rattle.asp_smodels.specs.Outcome.{smodels};

    type Parsed = Program;

    ghost format = { smodels };

    fn judge(&mut self, line: &[u8]) -> Result<(), LineError> {
        if unblank(line).is_empty() {
            return Ok(());
        }
        let statement = line_of(
            self.alloc,
            self.stage,
            line,
            self.draft.minimize_len(),
            self.draft.used(),
            &mut self.known,
        )?;
        let stage = stage_after(self.stage, &statement);
        self.draft.add(statement)?;
        self.stage = stage;
        Ok(())
    }

    fn end(self, number: u32) -> Result<Program, ReadError> {
        let Reader {
            alloc: _,
            stage,
            draft,
            known,
        } = self;
        mem::drop(known);
        let program = draft.into_program();
        match stage {
            Stage::Ended => Ok(program),
            _ => {
                mem::drop(program);
                Err(ReadError::Refused(missing(FaultKind::NoEnd), number))
            }
        }
    }
}

/// The greatest length of a text.
const MOST_BYTES: u32 = 268_435_456;

/// The program of what a source gives, to its end. No read follows the first fault: after a refusal the source stands
/// where the read left it that brought the fault's line feed, or the end.
pub fn read_smodels<S: Source>(alloc: Global, source: &mut S) -> Result<Program, ReadError>
    // Where the source tells its bytes, the outcome of all of them, unless memory ran out or a read failed.
    ensures text { IfSome (S.left source.old) (λ text. ReadsText result (smodels_outcome text)) }
    // Where it doesn't, the outcome of some text.
    ensures some_text { (text : List ℕ) × ReadsText result (smodels_outcome text) }
    ensures sound { IfOk result IsSound }
    // A program comes only at the end of the input.
    ensures end { OnOk result (IsAtEnd (S.left source.new)) }
    ensures later { S.faults source.old ≤ S.faults source.new }
    // The source stands right behind what was read, and the last read decided.
    ensures stops { StopsBy smodels MOST_BYTES (S.left source.old) (S.left source.new) result }
    // A failed read is answered exactly where the source's count of faults rose.
    ensures cause { IsErrOf result ReadError.ReadFault → Rose (S.faults source.old) (S.faults source.new) }
    ensures quiet { ¬ IsErrOf result ReadError.ReadFault → S.faults source.new ≡ S.faults source.old }
{
    let reader = Reader::new(alloc)?;
    read_by(alloc, source, reader)
}
