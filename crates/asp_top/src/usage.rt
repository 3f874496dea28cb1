//! The lines on the notes for a faulty command line.
ghost use Rattle.std.specs.Prelude.{◌++◌, codes};
ghost use Rattle.asp_cli.specs.Given.{fault_seen};
ghost use Rattle.asp_cli.specs.Hints.{nearest};
ghost use Rattle.asp_cli.specs.Names.{takes_of, text_of};
ghost use Rattle.asp_faults.specs.Writing.{IsNoted, Writes};
ghost use Rattle.asp_top.specs.Usage.{advice_text, hint_text, misuse_note, misuse_text, near_text, usage_text};

use asp_cli::{Name, WordFault, counterpart, nearest, usage};
use asp_faults::{write, write_both, write_three};
use asp_io::{Failed, Sink};

fn write_takes<N: Sink>(notes: &mut N, name: Name) -> Result<(), Failed>
    ensures { Writes (N.held notes.old) (N.held notes.new) (N.faults notes.old) (N.faults notes.new)
        result (text_of name ++ codes " takes " ++ takes_of name) }
{
    write_three(
        notes,
        name.text().as_bytes(),
        b" takes ",
        name.takes().as_bytes(),
    )
}

fn write_value<N: Sink>(notes: &mut N, name: Name, value: &str) -> Result<(), Failed>
    ensures { Writes (N.held notes.old) (N.held notes.new) (N.faults notes.old) (N.faults notes.new)
        result (text_of name ++ codes " takes " ++ takes_of name ++ (codes ", not " ++ value.now)) }
{
    write_takes(notes, name)?;
    write_both(notes, b", not ", value.as_bytes())
}

// The nearest name, if one is near.
fn write_near<N: Sink>(notes: &mut N, word: &str) -> Result<(), Failed>
    ensures { Writes (N.held notes.old) (N.held notes.new) (N.faults notes.old) (N.faults notes.new)
        result (near_text (nearest word.now)) }
{
    match nearest(word) {
        Some(name) => write_three(notes, b": did you mean ", name.as_bytes(), b"?"),
        None => write(notes, b""),
    }
}

fn write_hint<N: Sink>(notes: &mut N, word: &str) -> Result<(), Failed>
    ensures { Writes (N.held notes.old) (N.held notes.new) (N.faults notes.old) (N.faults notes.new)
        result (hint_text word.now) }
{
    match counterpart(word) {
        Some(text) => write_both(notes, b": here ", text.as_bytes()),
        None => write_near(notes, word),
    }
}

fn write_advice<N: Sink>(notes: &mut N, word: &str) -> Result<(), Failed>
    ensures { Writes (N.held notes.old) (N.held notes.new) (N.faults notes.old) (N.faults notes.new)
        result (advice_text word.now) }
{
    write_hint(notes, word)?;
    write(notes, b" (see --help)")
}

fn write_unknown<N: Sink>(notes: &mut N, word: &str) -> Result<(), Failed>
    ensures { Writes (N.held notes.old) (N.held notes.new) (N.faults notes.old) (N.faults notes.new)
        result (codes "unknown option " ++ word.now ++ advice_text word.now) }
{
    write_both(notes, b"unknown option ", word.as_bytes())?;
    write_advice(notes, word)
}

fn write_pair<N: Sink>(notes: &mut N, first: Name, second: Name) -> Result<(), Failed>
    ensures { Writes (N.held notes.old) (N.held notes.new) (N.faults notes.old) (N.faults notes.new)
        result (text_of first ++ codes " and " ++ text_of second) }
{
    write_three(
        notes,
        first.text().as_bytes(),
        b" and ",
        second.text().as_bytes(),
    )
}

fn write_rivals<N: Sink>(notes: &mut N, first: Name, second: Name) -> Result<(), Failed>
    ensures { Writes (N.held notes.old) (N.held notes.new) (N.faults notes.old) (N.faults notes.new)
        result (text_of first ++ codes " and " ++ text_of second ++ codes " exclude each other") }
{
    write_pair(notes, first, second)?;
    write(notes, b" exclude each other")
}

fn write_fault<N: Sink>(notes: &mut N, fault: &WordFault<'_>) -> Result<(), Failed>
    ensures { Writes (N.held notes.old) (N.held notes.new) (N.faults notes.old) (N.faults notes.new)
        result (misuse_text (fault_seen fault.now)) }
{
    match fault {
        WordFault::NoWords => write(notes, b"no arguments"),
        WordFault::Unknown(word) => write_unknown(notes, word),
        WordFault::Unexpected(word) => write_three(
            notes,
            b"unexpected argument ",
            word.as_bytes(),
            b" (the program is read from standard input; write: aspenum < FILE)",
        ),
        WordFault::Twice(name) => write_both(notes, name.text().as_bytes(), b" is given twice"),
        WordFault::Missing(name) => write_both(
            notes,
            b"a value is missing after ",
            name.text().as_bytes(),
        ),
        WordFault::Value(name, value) => write_value(notes, *name, value),
        WordFault::Rivals(first, second) => write_rivals(notes, *first, *second),
    }
}

/// Writes the usage lines after the line of a fault.
pub fn write_usage<N: Sink>(notes: &mut N) -> Result<(), Failed>
    ensures { Writes (N.held notes.old) (N.held notes.new) (N.faults notes.old) (N.faults notes.new)
        result usage_text }
{
    write_three(notes, b"\n", usage(), b"\n")
}

fn write_named<N: Sink>(notes: &mut N, fault: &WordFault<'_>) -> Result<(), Failed>
    ensures { Writes (N.held notes.old) (N.held notes.new) (N.faults notes.old) (N.faults notes.new)
        result (codes "aspenum: " ++ misuse_text (fault_seen fault.now)) }
{
    write(notes, b"aspenum: ")?;
    write_fault(notes, fault)
}

fn write_misuse<N: Sink>(notes: &mut N, fault: &WordFault<'_>) -> Result<(), Failed>
    ensures { Writes (N.held notes.old) (N.held notes.new) (N.faults notes.old) (N.faults notes.new)
        result (misuse_note (fault_seen fault.now)) }
{
    write_named(notes, fault)?;
    write_usage(notes)
}

/// Writes the line of a faulty command line's first fault, and the usage lines. That the notes fail changes nothing.
pub fn note_misuse<N: Sink>(notes: &mut N, fault: &WordFault<'_>)
    ensures { IsNoted (N.held notes.old) (N.held notes.new) (N.faults notes.old) (N.faults notes.new)
        (misuse_note (fault_seen fault.now)) }
{
    let _ = write_misuse(notes, fault);
}
