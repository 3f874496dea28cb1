//! The text of a proof, written.
ghost use Rattle.std.specs.Prelude.{◌≡◌, ◌++◌, ◌∷◌, ◌≤◌, codes, flat_map, OnOk, OnErr};
ghost use Rattle.std.specs.Io.KnownBytes.{Appends};
ghost use Rattle.asp_io.specs.Causes.{Rose, AppendsFront};
ghost use Rattle.asp_model.specs.Sets.{IsAscending};
ghost use Rattle.asp_proof.specs.Changes.{changed, changes_of};
ghost use Rattle.asp_proof.specs.Texts.{natural_field, integer_field, counted_fields, line, lines};
ghost use Rattle.asp_buffer.specs.Out.{Puts, out};
ghost use Rattle.asp_proof.specs.Texts.{atoms_fields, literals_fields, loop_fields, learned_fields, answer_text, line_text, mode_line, last_word, head_text, list_text, text_of};

use crate::changes::{Turn, count_changed, first_of};
use crate::proof::{Line, Proof, Sought};
use asp_buffer::{Waiting, flush, put, put_number};
use asp_io::{Failed, Sink};
use asp_model::interp::Interp;
use asp_model::program::Atom;
use itoa::Integer;

/// Puts out a field: a blank and the number.
pub fn put_field<K: Sink, I: Integer>(
    sink: &mut K,
    waiting: &mut Waiting,
    number: I,
) -> Result<(), Failed>
    ensures { Puts (out (K.held sink.old) (K.faults sink.old) waiting.old)
        (out (K.held sink.new) (K.faults sink.new) waiting.new) result (32 ∷ I.text number) }
{
    put(sink, waiting, b" ")?;
    put_number(sink, waiting, number)
}

fn put_each_atom<K: Sink>(sink: &mut K, waiting: &mut Waiting, atoms: &[Atom]) -> Result<(), Failed>
    ensures { Puts (out (K.held sink.old) (K.faults sink.old) waiting.old)
        (out (K.held sink.new) (K.faults sink.new) waiting.new) result (flat_map natural_field atoms.now) }
{
    for atom in atoms {
        put_field(sink, waiting, *atom)?;
    }
    Ok(())
}

fn put_literal<K: Sink>(sink: &mut K, waiting: &mut Waiting, literal: &i32) -> Result<(), Failed>
    ensures { Puts (out (K.held sink.old) (K.faults sink.old) waiting.old)
        (out (K.held sink.new) (K.faults sink.new) waiting.new) result (integer_field literal.now) }
{
    put(sink, waiting, b" ")?;
    put_number(sink, waiting, *literal)
}

fn put_each_literal<K: Sink>(
    sink: &mut K,
    waiting: &mut Waiting,
    literals: &[i32],
) -> Result<(), Failed>
    ensures { Puts (out (K.held sink.old) (K.faults sink.old) waiting.old)
        (out (K.held sink.new) (K.faults sink.new) waiting.new) result (flat_map integer_field literals.now) }
{
    for literal in literals {
        put_literal(sink, waiting, literal)?;
    }
    Ok(())
}

fn put_atoms<K: Sink>(sink: &mut K, waiting: &mut Waiting, atoms: &[Atom]) -> Result<(), Failed>
    ensures { Puts (out (K.held sink.old) (K.faults sink.old) waiting.old)
        (out (K.held sink.new) (K.faults sink.new) waiting.new) result (atoms_fields atoms.now) }
{
    put_field(sink, waiting, atoms.len())?;
    put_each_atom(sink, waiting, atoms)
}

fn put_literals<K: Sink>(
    sink: &mut K,
    waiting: &mut Waiting,
    literals: &[i32],
) -> Result<(), Failed>
    ensures { Puts (out (K.held sink.old) (K.faults sink.old) waiting.old)
        (out (K.held sink.new) (K.faults sink.new) waiting.new) result (literals_fields literals.now) }
{
    put_field(sink, waiting, literals.len())?;
    put_each_literal(sink, waiting, literals)
}

// Puts out the atoms that one of the sets alone has.
fn put_each_changed<'a, K: Sink>(
    sink: &mut K,
    waiting: &mut Waiting,
    mut one: &'a [Atom],
    mut other: &'a [Atom],
) -> Result<(), Failed>
    requires one { IsAscending one.now }
    requires other { IsAscending other.now }
    ensures { Puts (out (K.held sink.old) (K.faults sink.old) waiting.old)
        (out (K.held sink.new) (K.faults sink.new) waiting.new) result (flat_map natural_field (changed one.now other.now)) }
{
    'turns: loop {
        match first_of(one, other) {
            Turn::End => return Ok(()),
            Turn::Both(rest, others) => {
                one = rest;
                other = others;
            }
            Turn::Lone(atom, rest, others) => {
                put_field(sink, waiting, atom)?;
                one = rest;
                other = others;
            }
        }
    }
}

fn put_changed<K: Sink>(
    sink: &mut K,
    waiting: &mut Waiting,
    one: &[Atom],
    other: &[Atom],
) -> Result<(), Failed>
    requires one { IsAscending one.now }
    requires other { IsAscending other.now }
    ensures { Puts (out (K.held sink.old) (K.faults sink.old) waiting.old)
        (out (K.held sink.new) (K.faults sink.new) waiting.new) result (atoms_fields (changed one.now other.now)) }
{
    put_field(sink, waiting, count_changed(one, other))?;
    put_each_changed(sink, waiting, one, other)
}

// Puts out an answer by what it changes of the one before it.
fn put_answer<K: Sink>(
    sink: &mut K,
    waiting: &mut Waiting,
    last: &[Atom],
    answer: &[Atom],
) -> Result<(), Failed>
    requires last { IsAscending last.now }
    requires answer { IsAscending answer.now }
    ensures { Puts (out (K.held sink.old) (K.faults sink.old) waiting.old)
        (out (K.held sink.new) (K.faults sink.new) waiting.new) result (line (answer_text (changed last.now answer.now))) }
{
    put(sink, waiting, b"a")?;
    put_changed(sink, waiting, last, answer)?;
    put(sink, waiting, b"\n")
}

fn put_answers<K: Sink>(
    sink: &mut K,
    waiting: &mut Waiting,
    answers: &[Interp],
) -> Result<(), Failed>
    ensures { Puts (out (K.held sink.old) (K.faults sink.old) waiting.old)
        (out (K.held sink.new) (K.faults sink.new) waiting.new) result (lines answer_text (changes_of answers.now)) }
{
    let mut last: &[Atom] = &[];
    for answer in answers {
        let atoms = answer.as_slice();
        put_answer(sink, waiting, last, atoms)?;
        last = atoms;
    }
    Ok(())
}

// Puts out the letter of a line, and its place.
fn put_place<K: Sink>(
    sink: &mut K,
    waiting: &mut Waiting,
    kind: &[u8],
    place: u32,
) -> Result<(), Failed>
    ensures { Puts (out (K.held sink.old) (K.faults sink.old) waiting.old)
        (out (K.held sink.new) (K.faults sink.new) waiting.new) result (kind.now ++ natural_field place) }
{
    put(sink, waiting, kind)?;
    put_field(sink, waiting, place)
}

fn put_set_and_nogood<K: Sink>(
    sink: &mut K,
    waiting: &mut Waiting,
    set: &Interp,
    nogood: &[i32],
) -> Result<(), Failed>
    ensures { Puts (out (K.held sink.old) (K.faults sink.old) waiting.old)
        (out (K.held sink.new) (K.faults sink.new) waiting.new) result (atoms_fields set.now ++ literals_fields nogood.now) }
{
    put_atoms(sink, waiting, set.as_slice())?;
    put_literals(sink, waiting, nogood)
}

fn put_nogood_and_places<K: Sink>(
    sink: &mut K,
    waiting: &mut Waiting,
    nogood: &[i32],
    names: &[u32],
) -> Result<(), Failed>
    ensures { Puts (out (K.held sink.old) (K.faults sink.old) waiting.old)
        (out (K.held sink.new) (K.faults sink.new) waiting.new) result (literals_fields nogood.now ++ counted_fields natural_field names.now) }
{
    put_literals(sink, waiting, nogood)?;
    put_atoms(sink, waiting, names)
}

fn put_loop<K: Sink>(
    sink: &mut K,
    waiting: &mut Waiting,
    place: u32,
    set: &Interp,
    nogood: &[i32],
) -> Result<(), Failed>
    ensures { Puts (out (K.held sink.old) (K.faults sink.old) waiting.old)
        (out (K.held sink.new) (K.faults sink.new) waiting.new) result (codes "o" ++ loop_fields (place, (set.now, nogood.now))) }
{
    put_place(sink, waiting, b"o", place)?;
    put_set_and_nogood(sink, waiting, set, nogood)
}

fn put_learned<K: Sink>(
    sink: &mut K,
    waiting: &mut Waiting,
    place: u32,
    nogood: &[i32],
    names: &[u32],
) -> Result<(), Failed>
    ensures { Puts (out (K.held sink.old) (K.faults sink.old) waiting.old)
        (out (K.held sink.new) (K.faults sink.new) waiting.new) result (codes "l" ++ learned_fields (place, (nogood.now, names.now))) }
{
    put_place(sink, waiting, b"l", place)?;
    put_nogood_and_places(sink, waiting, nogood, names)
}

fn put_kind<K: Sink>(
    sink: &mut K,
    waiting: &mut Waiting,
    kind: &[u8],
    literals: &[i32],
) -> Result<(), Failed>
    ensures { Puts (out (K.held sink.old) (K.faults sink.old) waiting.old)
        (out (K.held sink.new) (K.faults sink.new) waiting.new) result (kind.now ++ literals_fields literals.now) }
{
    put(sink, waiting, kind)?;
    put_literals(sink, waiting, literals)
}

fn put_found<K: Sink>(sink: &mut K, waiting: &mut Waiting, change: &Interp) -> Result<(), Failed>
    ensures { Puts (out (K.held sink.old) (K.faults sink.old) waiting.old)
        (out (K.held sink.new) (K.faults sink.new) waiting.new) result (codes "f" ++ atoms_fields change.now) }
{
    put(sink, waiting, b"f")?;
    put_atoms(sink, waiting, change.as_slice())
}

fn put_fields<K: Sink>(sink: &mut K, waiting: &mut Waiting, line: &Line) -> Result<(), Failed>
    ensures { Puts (out (K.held sink.old) (K.faults sink.old) waiting.old)
        (out (K.held sink.new) (K.faults sink.new) waiting.new) result (line_text line.now) }
{
    match line {
        Line::Loop { place, set, nogood } => {
            put_loop(sink, waiting, *place, set, nogood.as_slice())
        }
        Line::Learned {
            place,
            nogood,
            names,
        } => put_learned(sink, waiting, *place, nogood.as_slice(), names.as_slice()),
        Line::Cube(literals) => put_kind(sink, waiting, b"c", literals.as_slice()),
        Line::Found(change) => put_found(sink, waiting, change),
    }
}

fn put_line<K: Sink>(sink: &mut K, waiting: &mut Waiting, entry: &Line) -> Result<(), Failed>
    ensures { Puts (out (K.held sink.old) (K.faults sink.old) waiting.old)
        (out (K.held sink.new) (K.faults sink.new) waiting.new) result (line (line_text entry.now)) }
{
    put_fields(sink, waiting, entry)?;
    put(sink, waiting, b"\n")
}

/// Puts out lines of a proof, which may be some of them.
pub fn put_lines<K: Sink>(
    sink: &mut K,
    waiting: &mut Waiting,
    entries: &[Line],
) -> Result<(), Failed>
    ensures { Puts (out (K.held sink.old) (K.faults sink.old) waiting.old)
        (out (K.held sink.new) (K.faults sink.new) waiting.new) result (lines line_text entries.now) }
{
    for entry in entries {
        put_line(sink, waiting, entry)?;
    }
    Ok(())
}

fn mode_line(sought: Sought) -> &'static [u8]
    ensures { result.now ≡ mode_line sought }
{
    match sought {
        Sought::All => b"enum\n",
        Sought::Best => b"opt\n",
        Sought::Optima => b"optima\n",
    }
}

fn last_line(part: bool) -> &'static [u8]
    ensures { result.now ≡ line (last_word part) }
{
    if part { b"p\n" } else { b"0\n" }
}

/// Puts out the first two lines of a proof.
pub fn put_head<K: Sink>(sink: &mut K, waiting: &mut Waiting, sought: Sought) -> Result<(), Failed>
    ensures { Puts (out (K.held sink.old) (K.faults sink.old) waiting.old)
        (out (K.held sink.new) (K.faults sink.new) waiting.new) result (head_text sought) }
{
    put(sink, waiting, b"proof 3\n")?;
    put(sink, waiting, mode_line(sought))
}

/// Puts out the answers and the last line of a proof.
pub fn put_list<K: Sink>(
    sink: &mut K,
    waiting: &mut Waiting,
    answers: &[Interp],
    part: bool,
) -> Result<(), Failed>
    ensures { Puts (out (K.held sink.old) (K.faults sink.old) waiting.old)
        (out (K.held sink.new) (K.faults sink.new) waiting.new) result (list_text answers.now part) }
{
    put_answers(sink, waiting, answers)?;
    put(sink, waiting, last_line(part))
}

fn put_proof<K: Sink>(sink: &mut K, waiting: &mut Waiting, proof: &Proof) -> Result<(), Failed>
    ensures { Puts (out (K.held sink.old) (K.faults sink.old) waiting.old)
        (out (K.held sink.new) (K.faults sink.new) waiting.new) result (text_of proof.now) }
{
    put_head(sink, waiting, proof.sought)?;
    put_lines(sink, waiting, proof.lines.as_slice())?;
    put_list(sink, waiting, proof.answers.as_slice(), proof.part)
}

/// Writes the text of a proof: its first two lines, its lines, its answers and its last line. It takes no memory. After an error a front of
/// the text is out.
pub fn write_proof<K: Sink>(sink: &mut K, proof: &Proof) -> Result<(), Failed>
    ensures all { OnOk result (Appends (K.held sink.old) (K.held sink.new) (text_of proof.now)) }
    ensures front { OnErr result (AppendsFront (K.held sink.old) (K.held sink.new) (text_of proof.now)) }
    ensures later { K.faults sink.old ≤ K.faults sink.new }
    ensures cause { OnErr result (Rose (K.faults sink.old) (K.faults sink.new)) }
    ensures quiet { OnOk result (K.faults sink.new ≡ K.faults sink.old) }
{
    let mut waiting = Waiting::new();
    put_proof(sink, &mut waiting, proof)?;
    flush(sink, &mut waiting)
}
