//! The lines after the last of all optima.
ghost use Rattle.std.specs.Prelude.{◌≡◌, ◌≤◌, OnOk, OnErr};
ghost use Rattle.std.specs.Io.KnownBytes.{Appends};
ghost use Rattle.asp_io.specs.Causes.{Rose, AppendsFront};
ghost use Rattle.asp_buffer.specs.Out.{Puts, out};
ghost use Rattle.asp_outlet.specs.Outlets.{optima_closing};

use asp_buffer::{Waiting, flush};
use asp_io::{Failed, Sink};
use asp_model::cost::Cost;
use asp_model::results::{End, Mode};
use asp_print::in_parts::put_end;
use asp_print::put_cost;

// Puts out all of them.
fn put_closing<K: Sink>(
    sink: &mut K,
    waiting: &mut Waiting,
    end: End,
    cost: &Cost,
    count: usize,
) -> Result<(), Failed>
    ensures { Puts (out (K.held sink.old) (K.faults sink.old) waiting.old)
        (out (K.held sink.new) (K.faults sink.new) waiting.new) result
        (optima_closing end cost.now count) }
{
    put_cost(sink, waiting, cost)?;
    put_end(sink, waiting, end, Mode::Opt, count)
}

/// Writes the lines after the last of so many optima of this cost: the cost line, the word line and the count line.
pub(crate) fn print_optima_closing<K: Sink>(
    sink: &mut K,
    end: End,
    cost: &Cost,
    count: usize,
) -> Result<(), Failed>
    ensures all { OnOk result (Appends (K.held sink.old) (K.held sink.new) (optima_closing end cost.now count)) }
    ensures front { OnErr result (AppendsFront (K.held sink.old) (K.held sink.new) (optima_closing end cost.now count)) }
    ensures later { K.faults sink.old ≤ K.faults sink.new }
    ensures cause { OnErr result (Rose (K.faults sink.old) (K.faults sink.new)) }
    ensures quiet { OnOk result (K.faults sink.new ≡ K.faults sink.old) }
{
    let mut waiting = Waiting::new();
    put_closing(sink, &mut waiting, end, cost, count)?;
    flush(sink, &mut waiting)
}
