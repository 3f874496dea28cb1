//! How much memory the answers take that a run holds until its end.
ghost use Rattle.std.specs.Prelude.{◌≡◌, ◌*◌, ◌^◌, ◌≤◌, IsTrue, false};
ghost use Rattle.asp_buffer.specs.Out.{Puts, out};
ghost use Rattle.asp_model.specs.Models.{atoms_of};
ghost use Rattle.asp_top.specs.Held.{IsMuch, held_text, holds, row_bytes, row_in};
ghost use Rattle.asp_faults.specs.Writing.{Writes};

use crate::notes::{is_list, lists_lines};
use asp_buffer::{Waiting, flush, put, put_number};
use asp_cli::Options;
use asp_io::{Failed, Sink};
use asp_model::results::Mode;
use asp_prepare::asked::mode_of;
use asp_vars::compiled::Compiled;

/// More bytes than these are told of: 1 GB.
const MUCH: u64 = 1 << 30;

// How many bytes an answer takes among this program's atoms: a row of bits, of which two words have room in it.
fn row_bytes(compiled: &Compiled) -> u64
    ensures { result ≡ row_bytes (atoms_of compiled.now) }
{
    let atoms = compiled.atom_count();
    if atoms > 128 {
        32 + 8 * atoms.div_ceil(64) as u64
    } else {
        32
    }
}

// Whether answers are held until the end that `--stream` would write sooner.
fn holds(options: &Options, mode: Mode) -> bool
    ensures { result ≡ holds options.now mode }
{
    !options.stream && is_list(options.all_optima, mode) && lists_lines(options)
}

/// How many bytes each answer takes that is held until the end, in a search of this program, where `--stream` would write it sooner; 0
/// where none is.
pub fn row_in(options: &Options, compiled: &Compiled) -> u64
    ensures { result ≡ row_in options.now compiled.now }
{
    let mode = mode_of(options.mode, compiled.program());
    if holds(options, mode) {
        row_bytes(compiled)
    } else {
        0
    }
}

/// Whether so many answers, each of so many bytes, take more than 1 GB.
pub fn is_much(answers: u64, row: u64) -> bool
    ensures yes { IsTrue result → IsMuch answers row }
    ensures no { result ≡ false → answers * row ≤ 2 ^ 30 }
{
    answers.saturating_mul(row) > MUCH
}

fn put_held<N: Sink>(notes: &mut N, waiting: &mut Waiting, answers: u64) -> Result<(), Failed>
    ensures { Puts (out (N.held notes.old) (N.faults notes.old) waiting.old)
        (out (N.held notes.new) (N.faults notes.new) waiting.new) result (held_text answers) }
{
    put(notes, waiting, b"aspenum: ")?;
    put_number(notes, waiting, answers)?;
    put(
        notes,
        waiting,
        b" answers held until the end take more than 1 GB; --stream writes each as soon as it can\n",
    )
}

/// Writes that so many answers are held, which take much.
pub fn write_held<N: Sink>(notes: &mut N, answers: u64) -> Result<(), Failed>
    ensures { Writes (N.held notes.old) (N.held notes.new) (N.faults notes.old) (N.faults notes.new) result (held_text answers) }
{
    let mut waiting = Waiting::new();
    put_held(notes, &mut waiting, answers)?;
    flush(notes, &mut waiting)
}
