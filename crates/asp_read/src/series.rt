//! A program with queries, which stand after its end.
ghost use Rattle.std.specs.Prelude.{◌≡◌, ◌+◌, ◌≤◌, ◌<◌, ℕ, List, IfOk, IfSome, IsErrOf, OnOk};
ghost use Rattle.std.specs.Io.KnownBytes.{IsAtEnd};
ghost use Rattle.asp_io.specs.Causes.{Rose};
ghost use Rattle.asp_read.specs.Fields.{most_counted};
ghost use Rattle.asp_read.specs.Queries.{IsSoundSeries, asking, asks, nothing_asked, queries_size, series_outcome};
ghost use Rattle.asp_read.specs.Sizes.{statement_size};
ghost use Rattle.asp_read.specs.Stream.{ReadsText, StopsBy};

use crate::error::{LineError, broken};
use crate::fault::{FaultKind, ReadError};
use crate::judge::Judge;
use crate::reader::Reader;
use crate::statement::Statement;
use crate::stream::{MOST_BYTES, read_by};
use asp_io::Source;
use asp_model::program::Program;
use asp_model::seq::Seq;
use asp_text::unblank;
use std::alloc::{AllocError, Global};
use std::marker::Model;
use std::mem;

/// A program, and what is asked of it.
#[derive(Drop)]
pub struct Series {
    /// The program.
    pub program: Program,
    /// The literals of each query, in the order of the text. An answer of a query is one of the program that has them all.
    pub queries: Seq<Seq<i32>>,
}

#[derive(Drop)]
struct Asker {
    /// The lines of the program.
    reader: Reader,
    /// The queries so far.
    queries: Vec<Seq<i32>>,
    /// How many literals they have.
    asked: u32,
    /// Whether the second line `0` stood.
    ended: bool,
}

impl Model for Asker {
    ghost use Rattle.std.specs.Prelude.{◌≡◌, ◌≤◌};
    ghost use Rattle.asp_read.specs.Fields.{most_counted};
    ghost use Rattle.asp_read.specs.Queries.{Asked, queries_size};

    ghost Value = { Asked };

    ghost view = { λ a. record { seen = a.reader; queries = a.queries.items; ended = a.ended } };

    ghost invariant = { λ a. (a.asked ≡ queries_size a.queries.items) × (a.asked ≤ most_counted) };
}

impl Asker {
    fn new(alloc: Global) -> Result<Self, AllocError>
        ensures { IfOk result (λ a. a ≡ nothing_asked) }
    {
        let reader = Reader::new(alloc)?;
        Ok(Asker {
            reader,
            queries: Vec::new(alloc),
            asked: 0,
            ended: false,
        })
    }

    // Takes a line after the program's end.
    fn take(&mut self, statement: Statement) -> Result<(), AllocError>
        requires { queries_size self.old.queries + statement_size statement ≤ most_counted }
        ensures { OnOk result (self.new ≡ asks self.old statement) }
    {
        match statement {
            Statement::End => {
                self.ended = true;
                Ok(())
            }
            Statement::Assume(literals) => {
                let size = literals.as_slice().len() as u32;
                self.queries.push(literals)?;
                self.asked += size;
                Ok(())
            }
            _ => Ok(()),
        }
    }
}

impl Judge for Asker {
    ghost use Rattle.asp_read.specs.Queries.{asking};

    type Parsed = Series;

    ghost format = { asking };

    fn judge(&mut self, line: &[u8]) -> Result<(), LineError> {
        if unblank(line).is_empty() {
            return Ok(());
        }
        if !self.reader.is_ended() {
            return self.reader.judge(line);
        }
        if self.ended {
            return Err(broken(FaultKind::AfterEnd, line));
        }
        let count = self.queries.len();
        let statement = self.reader.query(line, count, self.asked)?;
        self.take(statement)?;
        Ok(())
    }

    fn end(self, number: u32) -> Result<Series, ReadError> {
        let Asker {
            reader,
            queries,
            asked: _,
            ended,
        } = self;
        if ended {
            return Ok(Series {
                program: reader.into_program(),
                queries: Seq::from_vec(queries),
            });
        }
        let error = reader.unfinished(number);
        mem::drop(reader);
        mem::drop(queries);
        Err(error)
    }
}

/// The program of what a source gives and its queries, to the end. No read follows the first fault: after a refusal the
/// source stands where the read left it that brought the fault's line feed, or the end.
pub fn read_queries<S: Source>(alloc: Global, source: &mut S) -> Result<Series, ReadError>
    // Where the source tells its bytes, the outcome of all of them, unless memory ran out or a read failed.
    ensures text { IfSome (S.left source.old) (λ text. ReadsText result (series_outcome text)) }
    // Where it doesn't, the outcome of some text.
    ensures some_text { (text : List ℕ) × ReadsText result (series_outcome text) }
    ensures sound { IfOk result IsSoundSeries }
    // A series comes only at the end of the input.
    ensures end { OnOk result (IsAtEnd (S.left source.new)) }
    ensures later { S.faults source.old ≤ S.faults source.new }
    // The source stands right after what was read, and the last read decided.
    ensures stops { StopsBy asking MOST_BYTES (S.left source.old) (S.left source.new) result }
    // A failed read is answered exactly where the source's count of faults rose.
    ensures cause { IsErrOf result ReadError.ReadFault → Rose (S.faults source.old) (S.faults source.new) }
    ensures quiet { ¬ IsErrOf result ReadError.ReadFault → S.faults source.new ≡ S.faults source.old }
{
    let asker = Asker::new(alloc)?;
    read_by(alloc, source, asker)
}
