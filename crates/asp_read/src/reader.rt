// What the lines so far said, and the next line.
ghost use Rattle.std.specs.Prelude.{◌≡◌, ◌+◌, ◌≤◌, IfOk};
ghost use Rattle.asp_model.specs.Sets.{with_atoms};
ghost use Rattle.asp_read.specs.Fields.{most_counted};
ghost use Rattle.asp_read.specs.Gives.{Gives};
ghost use Rattle.asp_read.specs.Seen.{nothing_seen};
ghost use Rattle.asp_read.specs.Sizes.{program_size, statement_atoms, statement_size};
ghost use Rattle.asp_read.specs.Outcome.{stage_after};
ghost use Rattle.asp_read.specs.Queries.{is_ended, query_line, unfinished};

use crate::draft::Draft;
use crate::error::{LineError, broken, missing};
use crate::fault::{FaultKind, ReadError};
use crate::judge::Judge;
use crate::known::KnownAtoms;
use crate::queries::query_line;
use crate::statement::Statement;
use crate::statements::{header, statement};
use asp_model::program::Program;
use asp_text::unblank;
use std::alloc::{AllocError, Global};
use std::marker::Model;
use std::mem;

/// How far the lines have come.
#[derive(Clone, Copy)]
pub enum Stage {
    /// The header comes next.
    Start,
    Within,
    /// The line `0` stood.
    Ended,
}

#[derive(Drop)]
pub struct Reader {
    /// Where memory comes from.
    alloc: Global,
    /// Whether the header is awaited, statements, or nothing more.
    stage: Stage,
    /// The program so far.
    draft: Draft,
    /// The atoms met so far, which a program may not have beyond a limit.
    known: KnownAtoms,
}

impl Model for Reader {
    ghost use Rattle.asp_read.specs.Seen.{Seen};

    ghost Value = { Seen };

    ghost view = { λ r. record { stage = r.stage; program = r.draft; known = r.known } };
}

impl Reader {
    pub fn new(alloc: Global) -> Result<Self, AllocError>
        ensures { IfOk result (λ r. r ≡ nothing_seen) }
    {
        let draft = Draft::new(alloc)?;
        let known = KnownAtoms::new(alloc)?;
        Ok(Reader {
            alloc,
            stage: Stage::Start,
            draft,
            known,
        })
    }

    /// Whether the line `0` stood.
    pub fn is_ended(&self) -> bool
        ensures { result ≡ is_ended self.now.stage }
    {
        match self.stage {
            Stage::Ended => true,
            _ => false,
        }
    }

    /// A line after that one, where there were so many queries with so many literals.
    pub fn query(&mut self, line: &[u8], count: usize, asked: u32) -> Result<Statement, LineError>
        requires { asked ≤ most_counted }
        ensures statement { Gives (λ s. s) result (query_line count (program_size self.old.program + asked) self.old.known line.now) }
        ensures bound { IfOk result (λ s. asked + statement_size s ≤ most_counted) }
        ensures known { IfOk result (λ s. self.new ≡ record self.old { known = with_atoms self.old.known (statement_atoms s) }) }
    {
        let used = self.draft.used() + asked;
        query_line(self.alloc, line, count, used, &mut self.known)
    }

    /// The program.
    pub fn into_program(self) -> Program
        ensures { result ≡ self.program }
    {
        let Reader {
            alloc: _,
            stage: _,
            draft,
            known,
        } = self;
        mem::drop(known);
        draft.into_program()
    }

    /// Why a text is refused that ends here, as the line with this number.
    pub fn unfinished(&self, number: u32) -> ReadError
        ensures { result ≡ unfinished number self.now.stage }
    {
        match self.stage {
            Stage::Start => ReadError::Refused(missing(FaultKind::Empty), number),
            _ => ReadError::Refused(missing(FaultKind::NoEnd), number),
        }
    }
}

fn stage_after(statement: &Statement) -> Stage
    ensures { result ≡ stage_after statement.now }
{
    match statement {
        Statement::End => Stage::Ended,
        _ => Stage::Within,
    }
}

impl Judge for Reader {
    ghost use Rattle.asp_read.specs.Outcome.{aspif};

    type Parsed = Program;

    ghost format = { aspif };

    fn judge(&mut self, line: &[u8]) -> Result<(), LineError> {
        if unblank(line).is_empty() {
            return Ok(());
        }
        match self.stage {
            Stage::Start => {
                header(line)?;
                self.stage = Stage::Within;
                Ok(())
            }
            Stage::Within => {
                let statement = statement(
                    self.alloc,
                    line,
                    self.draft.used(),
                    self.draft.priorities(),
                    &mut self.known,
                )?;
                let stage = stage_after(&statement);
                self.draft.add(statement)?;
                self.stage = stage;
                Ok(())
            }
            Stage::Ended => Err(broken(FaultKind::AfterEnd, line)),
        }
    }

    fn end(self, number: u32) -> Result<Program, ReadError> {
        let Reader {
            alloc: _,
            stage,
            draft,
            known,
        } = self;
        mem::drop(known);
        let program = draft.into_program();
        match stage {
            Stage::Start => {
                mem::drop(program);
                Err(ReadError::Refused(missing(FaultKind::Empty), number))
            }
            Stage::Within => {
                mem::drop(program);
                Err(ReadError::Refused(missing(FaultKind::NoEnd), number))
            }
            Stage::Ended => Ok(program),
        }
    }
}
