//! The core of a query.
ghost use Rattle.std.specs.Prelude.{◌≡◌, ◌++◌, codes, false, flat_map, map, option_map};
ghost use Rattle.asp_buffer.specs.Out.{Puts, out};
ghost use Rattle.asp_print.specs.Queries.{denial, is_alone, name_in, name_of};
ghost use Rattle.asp_print.specs.Shown.{separator};
ghost use Rattle.asp_json.specs.Commas.{commas};
ghost use Rattle.asp_json.specs.Entries.{core_text, element, element_by, minimal_word};
ghost use Rattle.asp_json.specs.Json.{array};
ghost use Rattle.asp_json.specs.Quoting.{escaped, quoted};

use crate::lists::put_comma;
use crate::quoting::put_escaped;
use asp_buffer::{Waiting, put, put_number};
use asp_io::{Failed, Sink};
use asp_model::outputs::Outputs;
use asp_model::program::Atom;

// Whether a condition is this one atom.
fn is_alone(atom: Atom, condition: &[i32]) -> bool
    ensures { result ≡ is_alone atom condition.now }
{
    match condition {
        [literal] => *literal as i64 == atom as i64,
        _ => false,
    }
}

// The text of the first output that is exactly this atom.
fn name_in<'a>(outputs: &'a Outputs, atom: Atom) -> Option<&'a [u8]>
    ensures { option_map (λ text. text.now) result ≡ name_in atom outputs.entry.now }
{
    for i in 0..outputs.len() {
        let output = outputs.output(i);
        if is_alone(atom, output.condition) {
            return Some(output.text);
        }
    }
    None
}

// The same of a literal's atom, where names are asked for.
fn name_of<'a>(outputs: &'a Outputs, names: bool, literal: i32) -> Option<&'a [u8]>
    ensures { option_map (λ text. text.now) result ≡ name_of names outputs.entry.now literal }
{
    if names {
        name_in(outputs, literal.unsigned_abs())
    } else {
        None
    }
}

fn denial(literal: i32) -> &'static [u8]
    ensures { result.now ≡ denial literal }
{
    if literal < 0 { b"not " } else { b"" }
}

// Puts out what stands for a literal's name within quotes.
fn put_escaped_name<K: Sink>(
    sink: &mut K,
    waiting: &mut Waiting,
    name: &[u8],
    literal: i32,
) -> Result<(), Failed>
    ensures { Puts (out (K.held sink.old) (K.faults sink.old) waiting.old)
        (out (K.held sink.new) (K.faults sink.new) waiting.new) result (flat_map escaped (denial literal ++ name.now)) }
{
    put_escaped(sink, waiting, denial(literal))?;
    put_escaped(sink, waiting, name)
}

// Puts out a literal by its name in quotes.
fn put_named<K: Sink>(
    sink: &mut K,
    waiting: &mut Waiting,
    name: &[u8],
    literal: i32,
) -> Result<(), Failed>
    ensures { Puts (out (K.held sink.old) (K.faults sink.old) waiting.old)
        (out (K.held sink.new) (K.faults sink.new) waiting.new) result (quoted (denial literal ++ name.now)) }
{
    put(sink, waiting, b"\"")?;
    put_escaped_name(sink, waiting, name, literal)?;
    put(sink, waiting, b"\"")
}

fn put_element_by<K: Sink>(
    sink: &mut K,
    waiting: &mut Waiting,
    name: Option<&[u8]>,
    literal: i32,
) -> Result<(), Failed>
    ensures { Puts (out (K.held sink.old) (K.faults sink.old) waiting.old)
        (out (K.held sink.new) (K.faults sink.new) waiting.new) result (element_by (option_map (λ text. text.now) name.entry) literal) }
{
    match name {
        None => put_number(sink, waiting, literal),
        Some(name) => put_named(sink, waiting, name, literal),
    }
}

// Puts out a literal, after a comma where another one stands before it.
fn put_element<K: Sink>(
    sink: &mut K,
    waiting: &mut Waiting,
    outputs: &Outputs,
    names: bool,
    any: bool,
    literal: &i32,
) -> Result<(), Failed>
    ensures { Puts (out (K.held sink.old) (K.faults sink.old) waiting.old)
        (out (K.held sink.new) (K.faults sink.new) waiting.new) result (separator 44 any ++ element names outputs.now literal.now) }
{
    put_comma(sink, waiting, any)?;
    put_element_by(sink, waiting, name_of(outputs, names, *literal), *literal)
}

// Puts out the literals, a comma between two.
fn put_elements<K: Sink>(
    sink: &mut K,
    waiting: &mut Waiting,
    outputs: &Outputs,
    names: bool,
    literals: &[i32],
) -> Result<(), Failed>
    ensures { Puts (out (K.held sink.old) (K.faults sink.old) waiting.old)
        (out (K.held sink.new) (K.faults sink.new) waiting.new) result (commas false (map (element names outputs.now) literals.now)) }
{
    let mut any = false;
    for literal in literals {
        put_element(sink, waiting, outputs, names, any, literal)?;
        any = true;
    }
    Ok(())
}

// Puts out the literals in brackets.
fn put_literals<K: Sink>(
    sink: &mut K,
    waiting: &mut Waiting,
    outputs: &Outputs,
    names: bool,
    literals: &[i32],
) -> Result<(), Failed>
    ensures { Puts (out (K.held sink.old) (K.faults sink.old) waiting.old)
        (out (K.held sink.new) (K.faults sink.new) waiting.new) result (codes ",\"Core\":" ++ array (map (element names outputs.now) literals.now)) }
{
    put(sink, waiting, b",\"Core\":[")?;
    put_elements(sink, waiting, outputs, names, literals)?;
    put(sink, waiting, b"]")
}

fn minimal_word(minimal: bool) -> &'static [u8]
    ensures { result.now ≡ minimal_word minimal }
{
    if minimal { b"yes" } else { b"unknown" }
}

// Puts out whether a core is known to be minimal.
fn put_minimal<K: Sink>(sink: &mut K, waiting: &mut Waiting, minimal: bool) -> Result<(), Failed>
    ensures { Puts (out (K.held sink.old) (K.faults sink.old) waiting.old)
        (out (K.held sink.new) (K.faults sink.new) waiting.new) result (codes ",\"Minimal\":\"" ++ minimal_word minimal ++ codes "\"") }
{
    put(sink, waiting, b",\"Minimal\":\"")?;
    put(sink, waiting, minimal_word(minimal))?;
    put(sink, waiting, b"\"")
}

fn put_core_of<K: Sink>(
    sink: &mut K,
    waiting: &mut Waiting,
    outputs: &Outputs,
    core: &[i32],
    minimal: bool,
    names: bool,
) -> Result<(), Failed>
    ensures { Puts (out (K.held sink.old) (K.faults sink.old) waiting.old)
        (out (K.held sink.new) (K.faults sink.new) waiting.new) result
        (codes ",\"Core\":" ++ array (map (element names outputs.now) core.now) ++ (codes ",\"Minimal\":\"" ++ minimal_word minimal ++ codes "\"")) }
{
    put_literals(sink, waiting, outputs, names, core)?;
    put_minimal(sink, waiting, minimal)
}

/// Puts out a core, where there is one, and whether it is known to be minimal.
pub(crate) fn put_core<K: Sink>(
    sink: &mut K,
    waiting: &mut Waiting,
    outputs: &Outputs,
    core: Option<&[i32]>,
    minimal: bool,
    names: bool,
) -> Result<(), Failed>
    ensures { Puts (out (K.held sink.old) (K.faults sink.old) waiting.old)
        (out (K.held sink.new) (K.faults sink.new) waiting.new) result (core_text names outputs.now (option_map (λ core. core.now) core.entry) minimal) }
{
    match core {
        None => put(sink, waiting, b""),
        Some(core) => put_core_of(sink, waiting, outputs, core, minimal, names),
    }
}
