//! What the notes say of a fault of a text.
ghost use Rattle.std.specs.Prelude.{◌≡◌, ◌++◌, codes};
ghost use Rattle.asp_faults.specs.Writing.{Writes};
ghost use Rattle.asp_faults.specs.Faults.{fault_text, has_field, expected_text, found_text, kind_text, misfit, natural_noun, other_format, integer_noun, place_text, range_text, wanted_text};

use crate::writes::{write, write_both, write_three};
use asp_io::{Failed, Sink};
use asp_read::fault::{Fault, FaultKind};
use asp_text::Num;
use itoa::Buffer;

// The name of what is wanted, by its range.
fn natural_noun(low: u32, high: u32) -> &'static [u8]
    ensures { result.now ≡ natural_noun low high }
{
    match (low, high) {
        (1, 16_777_216) => b"count",
        (1, _) => b"atom",
        (_, 0) => b"zero",
        (_, 1) => b"kind",
        (_, 3) => b"external value",
        (_, 5) => b"modifier",
        (_, 10) => b"statement",
        (_, 268_435_456) => b"length of a text",
        _ => b"count",
    }
}

fn integer_noun(low: i32) -> &'static [u8]
    ensures { result.now ≡ integer_noun low }
{
    match low {
        -2147483647 => b"literal",
        0 => b"weight",
        _ => b"number",
    }
}

/// What is wanted.
#[derive(Clone, Copy)]
pub enum Wanted {
    /// A natural number from the first to the second.
    Natural(u32, u32),
    /// A signed number from the first to the second.
    Integer(i32, i32),
    /// A type of rules of smodels texts.
    RuleType,
    /// How many of so many literals are negated.
    Negated(u32),
    /// A statement after the program's end.
    AfterProgram,
}

// A thing by its name, and its range.
fn write_range<N: Sink>(notes: &mut N, noun: &[u8], low: &[u8], high: &[u8]) -> Result<(), Failed>
    ensures { Writes (N.held notes.old) (N.held notes.new) (N.faults notes.old) (N.faults notes.new)
        result (range_text noun.now low.now high.now) }
{
    write(notes, noun)?;
    write_three(notes, b" (", low, b" to ")?;
    write_both(notes, high, b")")
}

fn write_natural<N: Sink>(notes: &mut N, low: u32, high: u32) -> Result<(), Failed>
    ensures { Writes (N.held notes.old) (N.held notes.new) (N.faults notes.old) (N.faults notes.new)
        result (wanted_text (Wanted.Natural low high)) }
{
    write_range(
        notes,
        natural_noun(low, high),
        Buffer::new().format(low).as_bytes(),
        Buffer::new().format(high).as_bytes(),
    )
}

fn write_integer<N: Sink>(notes: &mut N, low: i32, high: i32) -> Result<(), Failed>
    ensures { Writes (N.held notes.old) (N.held notes.new) (N.faults notes.old) (N.faults notes.new)
        result (wanted_text (Wanted.Integer low high)) }
{
    write_range(
        notes,
        integer_noun(low),
        Buffer::new().format(low).as_bytes(),
        Buffer::new().format(high).as_bytes(),
    )
}

fn write_negated<N: Sink>(notes: &mut N, most: u32) -> Result<(), Failed>
    ensures { Writes (N.held notes.old) (N.held notes.new) (N.faults notes.old) (N.faults notes.new)
        result (wanted_text (Wanted.Negated most)) }
{
    write_range(
        notes,
        b"count of negated literals",
        b"0",
        Buffer::new().format(most).as_bytes(),
    )
}

fn write_wanted<N: Sink>(notes: &mut N, wanted: Wanted) -> Result<(), Failed>
    ensures { Writes (N.held notes.old) (N.held notes.new) (N.faults notes.old) (N.faults notes.new)
        result (wanted_text wanted) }
{
    match wanted {
        Wanted::Natural(low, high) => write_natural(notes, low, high),
        Wanted::Integer(low, high) => write_integer(notes, low, high),
        Wanted::RuleType => write(notes, b"rule type (0, 1, 2, 3, 5 or 6)"),
        Wanted::Negated(most) => write_negated(notes, most),
        Wanted::AfterProgram => write(notes, b"statement after the program (0, 6 or 10)"),
    }
}

// What stands before the wanted thing, and behind it.
fn write_found<N: Sink>(notes: &mut N, found: Num) -> Result<(), Failed>
    ensures { Writes (N.held notes.old) (N.held notes.new) (N.faults notes.old) (N.faults notes.new)
        result (found_text found) }
{
    match found {
        Num::Value(number) => write_both(
            notes,
            Buffer::new().format(number).as_bytes(),
            b" is no ",
        ),
        Num::Big => write(notes, b"a number beyond 64 bits is no "),
        Num::NotNumber => write(notes, b""),
    }
}

fn write_expected<N: Sink>(notes: &mut N, found: Num) -> Result<(), Failed>
    ensures { Writes (N.held notes.old) (N.held notes.new) (N.faults notes.old) (N.faults notes.new)
        result (expected_text found) }
{
    match found {
        Num::NotNumber => write(notes, b" expected"),
        _ => write(notes, b""),
    }
}

fn write_misfit<N: Sink>(notes: &mut N, found: Num, wanted: Wanted) -> Result<(), Failed>
    ensures { Writes (N.held notes.old) (N.held notes.new) (N.faults notes.old) (N.faults notes.new)
        result (misfit found (wanted_text wanted)) }
{
    write_found(notes, found)?;
    write_wanted(notes, wanted)?;
    write_expected(notes, found)
}

// Where no number stands in the place of a rule's type, the text may be an aspif text.
fn write_other_format<N: Sink>(notes: &mut N, found: Num) -> Result<(), Failed>
    ensures { Writes (N.held notes.old) (N.held notes.new) (N.faults notes.old) (N.faults notes.new)
        result (other_format found) }
{
    match found {
        Num::NotNumber => write(notes, b"; an aspif text needs --format aspif"),
        _ => write(notes, b""),
    }
}

fn write_rule_type<N: Sink>(notes: &mut N, found: Num) -> Result<(), Failed>
    ensures { Writes (N.held notes.old) (N.held notes.new) (N.faults notes.old) (N.faults notes.new)
        result (kind_text (FaultKind.RuleType found)) }
{
    write_misfit(notes, found, Wanted::RuleType)?;
    write_other_format(notes, found)
}

fn write_kind<N: Sink>(notes: &mut N, kind: FaultKind) -> Result<(), Failed>
    ensures { Writes (N.held notes.old) (N.held notes.new) (N.faults notes.old) (N.faults notes.new)
        result (kind_text kind) }
{
    match kind {
        FaultKind::Header => write(
            notes,
            b"not the header of aspif 1.0, which gringo writes; a smodels text needs --format smodels",
        ),
        FaultKind::Empty => write(notes, b"no program: the input is empty"),
        FaultKind::Incremental => write(notes, b"incremental programs not supported"),
        FaultKind::Tag => write(notes, b"unknown tag"),
        FaultKind::Statement(found) => write_misfit(notes, found, Wanted::Natural(0, 10)),
        FaultKind::Disjunction => write(notes, b"disjunctive head not supported"),
        FaultKind::Projection => write(notes, b"projection not supported"),
        FaultKind::Edge => write(notes, b"edge statement not supported"),
        FaultKind::Theory => write(notes, b"theory statement not supported"),
        FaultKind::Natural(low, high, found) => {
            write_misfit(notes, found, Wanted::Natural(low, high))
        }
        FaultKind::Integer(low, high, found) => {
            write_misfit(notes, found, Wanted::Integer(low, high))
        }
        FaultKind::Text => write(notes, b"output text does not fit its length"),
        FaultKind::ExtraFields => write(notes, b"extra field"),
        FaultKind::NoEnd => write(notes, b"end of program missing"),
        FaultKind::AfterEnd => write(notes, b"statement after the end"),
        FaultKind::Counts => write(notes, b"more than 16,777,216 in all counts"),
        FaultKind::Priorities => write(notes, b"more than 1,000 different priorities"),
        FaultKind::Atoms => write(notes, b"more than 1,000,000 different atoms"),
        FaultKind::RuleType(found) => write_rule_type(notes, found),
        FaultKind::Negated(most, found) => write_misfit(notes, found, Wanted::Negated(most)),
        FaultKind::Name => write(notes, b"name of an atom missing"),
        FaultKind::Section => write(notes, b"section line expected"),
        FaultKind::Externals => write(notes, b"external section not supported"),
        FaultKind::Queries => write(notes, b"more than 10,000 queries"),
        FaultKind::Query(found) => write_misfit(notes, found, Wanted::AfterProgram),
    }
}

// Whether the field is told.
fn has_field(kind: FaultKind) -> bool
    ensures { result ≡ has_field kind }
{
    match kind {
        FaultKind::Statement(_)
        | FaultKind::Natural(_, _, _)
        | FaultKind::Integer(_, _, _)
        | FaultKind::Text
        | FaultKind::ExtraFields
        | FaultKind::RuleType(_)
        | FaultKind::Negated(_, _)
        | FaultKind::Name
        | FaultKind::Query(_) => true,
        _ => false,
    }
}

fn write_place<N: Sink>(notes: &mut N, fault: Fault) -> Result<(), Failed>
    ensures { Writes (N.held notes.old) (N.held notes.new) (N.faults notes.old) (N.faults notes.new)
        result (place_text fault) }
{
    if has_field(fault.kind) {
        write_both(
            notes,
            b", field ",
            Buffer::new().format(fault.field).as_bytes(),
        )
    } else {
        write(notes, b"")
    }
}

fn write_behind<N: Sink>(notes: &mut N, kind: FaultKind) -> Result<(), Failed>
    ensures { Writes (N.held notes.old) (N.held notes.new) (N.faults notes.old) (N.faults notes.new)
        result (codes ": " ++ kind_text kind) }
{
    write(notes, b": ")?;
    write_kind(notes, kind)
}

/// Writes where on its line a fault is, and what it is.
pub fn write_fault<N: Sink>(notes: &mut N, fault: Fault) -> Result<(), Failed>
    ensures { Writes (N.held notes.old) (N.held notes.new) (N.faults notes.old) (N.faults notes.new)
        result (fault_text fault) }
{
    write_place(notes, fault)?;
    write_behind(notes, fault.kind)
}
