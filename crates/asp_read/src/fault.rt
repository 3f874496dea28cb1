//! What can be wrong with a text, and why reading one failed.
ghost use Rattle.std.specs.Prelude.{◌≡◌};
ghost use Rattle.asp_read.specs.declared.fault.ReadError.TheVariants.{Memory};

use asp_text::Num;
use std::alloc::{AllocError, AllocFailed};

/// What is wrong with a line, or with the end of a text.
#[derive(Clone, Copy)]
pub enum FaultKind {
    /// No line is other than blank.
    Empty,
    /// The first line that isn't blank is no header of aspif 1.0.
    Header,
    /// The header asks for incremental solving.
    Incremental,
    /// The header has another tag.
    Tag,
    /// No statement has this number.
    Statement(Num),
    /// A head has two or more atoms and is no choice.
    Disjunction,
    /// A projection statement.
    Projection,
    /// An edge statement.
    Edge,
    /// A theory statement.
    Theory,
    /// A natural number from the first to the second is missing: this stands in its place.
    Natural(u32, u32, Num),
    /// A signed number from the first to the second is missing: this stands in its place. (0 is no literal.)
    Integer(i32, i32, Num),
    /// An output's text doesn't fit the length before it.
    Text,
    /// Fields follow the last one that the statement wants.
    ExtraFields,
    /// The text ends before its end statement.
    NoEnd,
    /// A line that isn't blank follows the end statement.
    AfterEnd,
    /// The counts together are above 16,777,216.
    Counts,
    /// A priority would be the 1,001st different one.
    Priorities,
    /// An atom would be the 1,000,001st different one.
    Atoms,
    /// No rule of a smodels text has this type.
    RuleType(Num),
    /// So many literals can't have this many negated ones among them.
    Negated(u32, Num),
    /// A symbol of a smodels text has no name.
    Name,
    /// Another line stands where a smodels text's `B+` or `B-` should.
    Section,
    /// A smodels text has an external section.
    Externals,
    /// A query would be the 10,001st.
    Queries,
    /// A line after the program's end is neither a query nor a comment nor the second end.
    Query(Num),
}

/// A fault, and where on its line it is.
#[derive(Clone, Copy)]
pub struct Fault {
    /// What is wrong.
    pub kind: FaultKind,
    /// The number of the first field that couldn't be read, from 1: one more than the line has fields where it ends too early, and 1
    /// where the text does. Blanks part fields, also within the text of an output.
    pub field: usize,
}

/// Why no program was read.
#[derive(Clone, Copy)]
pub enum ReadError {
    /// Memory ran out.
    Memory,
    /// The source failed.
    ReadFault,
    /// The text is longer than a text may be.
    TooLong,
    /// The text's first fault, and the number of its line, counted from 1.
    Refused(Fault, u32),
}

impl From<AllocError> for ReadError {
    ghost from_gives = { λ _ e. e ≡ Memory };

    fn from(_e: AllocError) -> ReadError {
        ReadError::Memory
    }
}

impl<T: Drop> From<AllocFailed<T>> for ReadError {
    ghost from_gives = { λ _ e. e ≡ Memory };

    fn from(_e: AllocFailed<T>) -> ReadError {
        ReadError::Memory
    }
}
