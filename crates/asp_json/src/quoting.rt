//! Text in quotes.
ghost use Rattle.std.specs.Prelude.{◌≡◌, ◌<◌, ◌++◌, flat_map, map, IfOk, OnOk};
ghost use Rattle.asp_buffer.specs.Out.{Puts, out};
ghost use Rattle.asp_json.specs.Quoting.{escaped, hex_digit, quoted, quoted_output};

use asp_buffer::{Waiting, put};
use asp_io::{Failed, Sink};
use asp_model::outputs::{OutputView, Outputs};
use std::alloc::{AllocError, Global};
use std::marker::Model;

/// What stands for a byte within quotes.
#[derive(Drop)]
pub(crate) struct Escape {
    /// The bytes that stand for it, and after them anything.
    bytes: [u8; 6],
    /// How many bytes stand for it.
    len: usize,
}

impl Model for Escape {
    ghost use Rattle.std.specs.Prelude.{List, ℕ, ◌≤◌, take};

    ghost Value = { List ℕ };

    ghost view = { λ e. take e.len e.bytes };

    ghost invariant = { λ e. e.len ≤ 6 };
}

impl Escape {
    fn as_slice(&self) -> &[u8]
        ensures { result.now ≡ self.now }
    {
        &self.bytes[..self.len]
    }
}

fn hex_digit(number: u8) -> u8
    requires { number < 16 }
    ensures { result ≡ hex_digit number }
{
    if number < 10 {
        48 + number
    } else {
        87 + number
    }
}

fn escaped(byte: u8) -> Escape
    ensures { result ≡ escaped byte }
{
    if byte == b'"' || byte == b'\\' {
        return Escape {
            bytes: [b'\\', byte, 0, 0, 0, 0],
            len: 2,
        };
    }
    if byte < 32 {
        let high = hex_digit(byte / 16);
        let low = hex_digit(byte % 16);
        return Escape {
            bytes: [b'\\', b'u', b'0', b'0', high, low],
            len: 6,
        };
    }
    Escape {
        bytes: [byte, 0, 0, 0, 0, 0],
        len: 1,
    }
}

// Puts out what stands for a byte.
fn put_byte<K: Sink>(sink: &mut K, waiting: &mut Waiting, byte: u8) -> Result<(), Failed>
    ensures { Puts (out (K.held sink.old) (K.faults sink.old) waiting.old)
        (out (K.held sink.new) (K.faults sink.new) waiting.new) result (escaped byte) }
{
    put(sink, waiting, escaped(byte).as_slice())
}

/// Puts out what stands for a text within quotes.
pub(crate) fn put_escaped<K: Sink>(
    sink: &mut K,
    waiting: &mut Waiting,
    text: &[u8],
) -> Result<(), Failed>
    ensures { Puts (out (K.held sink.old) (K.faults sink.old) waiting.old)
        (out (K.held sink.new) (K.faults sink.new) waiting.new) result (flat_map escaped text.now) }
{
    for byte in text {
        put_byte(sink, waiting, *byte)?;
    }
    Ok(())
}

/// Puts out a text in quotes.
pub(crate) fn put_quoted<K: Sink>(
    sink: &mut K,
    waiting: &mut Waiting,
    text: &[u8],
) -> Result<(), Failed>
    ensures { Puts (out (K.held sink.old) (K.faults sink.old) waiting.old)
        (out (K.held sink.new) (K.faults sink.new) waiting.new) result (quoted text.now) }
{
    put(sink, waiting, b"\"")?;
    put_escaped(sink, waiting, text)?;
    put(sink, waiting, b"\"")
}

// Appends what stands for a text.
fn push_escaped(bytes: &mut Vec<u8>, text: &[u8]) -> Result<(), AllocError>
    ensures { OnOk result (bytes.new.items ≡ bytes.old.items ++ flat_map escaped text.now) }
{
    for byte in text {
        bytes.extend_from_slice(escaped(*byte).as_slice())?;
    }
    Ok(())
}

// A text in quotes.
fn quoted(alloc: Global, text: &[u8]) -> Result<Vec<u8>, AllocError>
    ensures { IfOk result (λ bytes. bytes.items ≡ quoted text.now) }
{
    let mut bytes = vec![in alloc; b'"']?;
    push_escaped(&mut bytes, text)?;
    bytes.push(b'"')?;
    Ok(bytes)
}

/// The same outputs, each text in quotes.
pub(crate) fn quoted_outputs(alloc: Global, outputs: &Outputs) -> Result<Outputs, AllocError>
    ensures { IfOk result (λ all. all ≡ map quoted_output outputs.now) }
{
    let mut all = Outputs::new(alloc)?;
    for i in 0..outputs.len() {
        let output = outputs.output(i);
        let text = quoted(alloc, output.text)?;
        all.push(OutputView {
            text: text.as_slice(),
            condition: output.condition,
        })?;
    }
    Ok(all)
}
