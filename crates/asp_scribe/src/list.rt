//! The answers that a proof lists, put out from their rows: none is copied, and it takes no memory.
ghost use Rattle.std.specs.Prelude.{◌≡◌, ◌<◌, ℕ, filter, flat_map, length, map, slice_index};
ghost use Rattle.std.specs.Option.{ForSome, option_copied};
ghost use Rattle.asp_buffer.specs.Out.{Puts, out};
ghost use Rattle.asp_model.specs.Sets.{IsAscending, has};
ghost use Rattle.asp_model.specs.Texts.{bests, recorded};
ghost use Rattle.asp_proof.specs.Changes.{changed, changes_of};
ghost use Rattle.asp_proof.specs.Texts.{answer_text, atoms_fields, line, lines, list_text, natural_field};
ghost use Rattle.asp_rows.specs.Bits.{IsBitAt};
ghost use Rattle.asp_rows.specs.Listed.{AreRows, IsRowOf};
ghost use Rattle.asp_scribe.specs.Lists.{differs, field_if, set_of};

use asp_buffer::{Waiting, put};
use asp_io::{Failed, Sink};
use asp_model::program::Atom;
use asp_model::results::{Mode, Results};
use asp_proof::{put_field, put_list};
use asp_rows::bits::{Bit, bit_at};
use asp_rows::row::Row;
use asp_rows::rows::Rows;
use asp_rows::sets::Sets;
use std::slice;

// Whether the answer before has the atom of this bit. Before the first one there is the empty set.
fn had(atoms: &[Atom], last: Option<&Row>, bit: Bit) -> bool
    requires last { ForSome last (λ row. IsRowOf atoms.now row.now) }
    requires bit { (place : ℕ) × IsBitAt (length atoms.now) place bit }
    ensures { (place : ℕ) → IsBitAt (length atoms.now) place bit → result ≡ has (set_of (option_copied last.entry)) (slice_index atoms.now place) }
{
    match last {
        Some(row) => row.has(atoms, bit),
        None => false,
    }
}

// Whether one alone of an answer and the one before it has the atom at this place.
fn has_changed(atoms: &[Atom], last: Option<&Row>, row: &Row, place: usize) -> bool
    requires last { ForSome last (λ row. IsRowOf atoms.now row.now) }
    requires row { IsRowOf atoms.now row.now }
    requires within { place < length atoms.now }
    ensures { result ≡ differs (set_of (option_copied last.entry)) row.now.set (slice_index atoms.now place) }
{
    let bit = bit_at(atoms.len(), place);
    had(atoms, last, bit) != row.has(atoms, bit)
}

// How many atoms one alone of an answer and the one before it has.
fn count_changed(atoms: &[Atom], last: Option<&Row>, row: &Row) -> usize
    requires last { ForSome last (λ row. IsRowOf atoms.now row.now) }
    requires row { IsRowOf atoms.now row.now }
    ensures { result ≡ length (filter (differs (set_of (option_copied last.entry)) row.now.set) atoms.now) }
{
    let mut count = 0;
    for place in 0..atoms.len() {
        if has_changed(atoms, last, row, place) {
            count += 1;
        }
    }
    count
}

// Puts out the atom at this place, if one alone of an answer and the one before it has it.
fn put_if_changed<K: Sink>(
    sink: &mut K,
    waiting: &mut Waiting,
    atoms: &[Atom],
    last: Option<&Row>,
    row: &Row,
    place: usize,
) -> Result<(), Failed>
    requires last { ForSome last (λ row. IsRowOf atoms.now row.now) }
    requires row { IsRowOf atoms.now row.now }
    requires within { place < length atoms.now }
    ensures { Puts (out (K.held sink.old) (K.faults sink.old) waiting.old)
        (out (K.held sink.new) (K.faults sink.new) waiting.new) result
        (field_if (differs (set_of (option_copied last.entry)) row.now.set (slice_index atoms.now place)) (slice_index atoms.now place)) }
{
    if has_changed(atoms, last, row, place) {
        return put_field(sink, waiting, atoms[place]);
    }
    Ok(())
}

// Puts out the atoms that one alone of an answer and the one before it has.
fn put_each_changed<K: Sink>(
    sink: &mut K,
    waiting: &mut Waiting,
    atoms: &[Atom],
    last: Option<&Row>,
    row: &Row,
) -> Result<(), Failed>
    requires last { ForSome last (λ row. IsRowOf atoms.now row.now) }
    requires row { IsRowOf atoms.now row.now }
    ensures { Puts (out (K.held sink.old) (K.faults sink.old) waiting.old)
        (out (K.held sink.new) (K.faults sink.new) waiting.new) result
        (flat_map natural_field (filter (differs (set_of (option_copied last.entry)) row.now.set) atoms.now)) }
{
    for place in 0..atoms.len() {
        put_if_changed(sink, waiting, atoms, last, row, place)?;
    }
    Ok(())
}

// Puts out how many atoms one alone of an answer and the one before it has, and each of them.
fn put_changed<K: Sink>(
    sink: &mut K,
    waiting: &mut Waiting,
    atoms: &[Atom],
    last: Option<&Row>,
    row: &Row,
) -> Result<(), Failed>
    requires ascending { IsAscending atoms.now }
    requires last { ForSome last (λ row. IsRowOf atoms.now row.now) }
    requires row { IsRowOf atoms.now row.now }
    ensures { Puts (out (K.held sink.old) (K.faults sink.old) waiting.old)
        (out (K.held sink.new) (K.faults sink.new) waiting.new) result
        (atoms_fields (changed (set_of (option_copied last.entry)) row.now.set)) }
{
    put_field(sink, waiting, count_changed(atoms, last, row))?;
    put_each_changed(sink, waiting, atoms, last, row)
}

// Puts out the line of an answer: what it changes of the one before it.
fn put_answer<K: Sink>(
    sink: &mut K,
    waiting: &mut Waiting,
    atoms: &[Atom],
    last: Option<&Row>,
    row: &Row,
) -> Result<(), Failed>
    requires ascending { IsAscending atoms.now }
    requires last { ForSome last (λ row. IsRowOf atoms.now row.now) }
    requires row { IsRowOf atoms.now row.now }
    ensures { Puts (out (K.held sink.old) (K.faults sink.old) waiting.old)
        (out (K.held sink.new) (K.faults sink.new) waiting.new) result
        (line (answer_text (changed (set_of (option_copied last.entry)) row.now.set))) }
{
    put(sink, waiting, b"a")?;
    put_changed(sink, waiting, atoms, last, row)?;
    put(sink, waiting, b"\n")
}

// Puts out the lines of answers.
fn put_answers<K: Sink>(
    sink: &mut K,
    waiting: &mut Waiting,
    atoms: &[Atom],
    rows: &[Row],
) -> Result<(), Failed>
    requires ascending { IsAscending atoms.now }
    requires rows { AreRows atoms.now rows.now }
    ensures { Puts (out (K.held sink.old) (K.faults sink.old) waiting.old)
        (out (K.held sink.new) (K.faults sink.new) waiting.new) result
        (lines answer_text (changes_of (map (λ row. row.set) rows.now))) }
{
    let mut last = None;
    for row in rows {
        put_answer(sink, waiting, atoms, last, row)?;
        last = Some(row);
    }
    Ok(())
}

// Puts out the lines of these answers, and the last line.
fn put_rows<K: Sink>(
    sink: &mut K,
    waiting: &mut Waiting,
    rows: &Rows,
    part: bool,
) -> Result<(), Failed>
    ensures { Puts (out (K.held sink.old) (K.faults sink.old) waiting.old)
        (out (K.held sink.new) (K.faults sink.new) waiting.new) result (list_text rows.now.sets part) }
{
    put_answers(sink, waiting, rows.atoms().as_slice(), rows.as_slice())?;
    put_list(sink, waiting, &[], part)
}

// Puts out the answers that are listed, or where none is the best, and the last line.
fn put_bests<K: Sink>(
    sink: &mut K,
    waiting: &mut Waiting,
    results: &Results<Sets>,
    part: bool,
) -> Result<(), Failed>
    ensures { Puts (out (K.held sink.old) (K.faults sink.old) waiting.old)
        (out (K.held sink.new) (K.faults sink.new) waiting.new) result
        (list_text (bests results.now.best results.now.answers) part) }
{
    let rows = results.answers.rows();
    if rows.len() != 0 {
        return put_rows(sink, waiting, rows, part);
    }
    match &results.best {
        Some((best, _)) => put_list(sink, waiting, slice::from_ref(best), part),
        None => put_list(sink, waiting, &[], part),
    }
}

/// Puts out the answers that the proof of these results lists, and its last line. In an optimisation the best alone is listed,
/// where no others are.
pub fn put_recorded<K: Sink>(
    sink: &mut K,
    waiting: &mut Waiting,
    results: &Results<Sets>,
    part: bool,
) -> Result<(), Failed>
    ensures { Puts (out (K.held sink.old) (K.faults sink.old) waiting.old)
        (out (K.held sink.new) (K.faults sink.new) waiting.new) result
        (list_text (recorded results.now.mode results.now) part) }
{
    match results.mode {
        Mode::Enum => put_rows(sink, waiting, results.answers.rows(), part),
        Mode::Opt => put_bests(sink, waiting, results, part),
        Mode::Consequences(_) => put_list(sink, waiting, &[], part),
    }
}
