//! Lists of numbers in brackets.
ghost use Rattle.std.specs.Prelude.{◌≡◌, ◌++◌, false, map};
ghost use Rattle.std.specs.Fmt.{signed_decimal};
ghost use Rattle.asp_buffer.specs.Out.{Puts, out};
ghost use Rattle.asp_print.specs.Shown.{separator};
ghost use Rattle.asp_json.specs.Commas.{commas};
ghost use Rattle.asp_json.specs.Json.{array};

use asp_buffer::{Waiting, put, put_number};
use asp_io::{Failed, Sink};

fn comma(any: bool) -> &'static [u8]
    ensures { result.now ≡ separator 44 any }
{
    if any { b"," } else { b"" }
}

/// Puts out a comma where a value stands before the next one.
pub(crate) fn put_comma<K: Sink>(
    sink: &mut K,
    waiting: &mut Waiting,
    any: bool,
) -> Result<(), Failed>
    ensures { Puts (out (K.held sink.old) (K.faults sink.old) waiting.old)
        (out (K.held sink.new) (K.faults sink.new) waiting.new) result (separator 44 any) }
{
    put(sink, waiting, comma(any))
}

fn put_sum<K: Sink>(sink: &mut K, waiting: &mut Waiting, any: bool, sum: &i64) -> Result<(), Failed>
    ensures { Puts (out (K.held sink.old) (K.faults sink.old) waiting.old)
        (out (K.held sink.new) (K.faults sink.new) waiting.new) result (separator 44 any ++ signed_decimal sum.now) }
{
    put_comma(sink, waiting, any)?;
    put_number(sink, waiting, *sum)
}

fn put_each_sum<K: Sink>(sink: &mut K, waiting: &mut Waiting, sums: &[i64]) -> Result<(), Failed>
    ensures { Puts (out (K.held sink.old) (K.faults sink.old) waiting.old)
        (out (K.held sink.new) (K.faults sink.new) waiting.new) result (commas false (map signed_decimal sums.now)) }
{
    let mut any = false;
    for sum in sums {
        put_sum(sink, waiting, any, sum)?;
        any = true;
    }
    Ok(())
}

/// Puts out the sums of a cost.
pub(crate) fn put_sums<K: Sink>(
    sink: &mut K,
    waiting: &mut Waiting,
    sums: &[i64],
) -> Result<(), Failed>
    ensures { Puts (out (K.held sink.old) (K.faults sink.old) waiting.old)
        (out (K.held sink.new) (K.faults sink.new) waiting.new) result (array (map signed_decimal sums.now)) }
{
    put(sink, waiting, b"[")?;
    put_each_sum(sink, waiting, sums)?;
    put(sink, waiting, b"]")
}
