//! The judgement of a line of a proof: that it is right, and known to the later ones, or why it isn't.
ghost use Rattle.std.specs.Prelude.{◌≡◌, ℕ, List, true, false, IfOk, OnOk, MatchOption, map};
ghost use Rattle.asp_vars.specs.Numbering.{literal_of};
ghost use Rattle.asp_vars.specs.Completion.{completion};
ghost use Rattle.asp_proof.specs.declared.proof.Line.{Line};
ghost use Rattle.asp_proof.specs.declared.proof.Sought.{Sought};
ghost use Rattle.asp_checker.specs.Propagation.{LeadsToConflict};
ghost use Rattle.asp_checker.specs.Lines.{AreOf, literals_of, put, first_gathered, known_of, with_nogood};
ghost use Rattle.asp_checker.specs.Judging.{HasLoopLiterals, gathered_by, IsReady, IsLineTaken, IsLineRead};

use crate::confirm::confirms;
use crate::found::{avoided, take_found};
use crate::judge::Why;
use crate::lines::{are_assumed, are_atoms, lits_of};
use crate::loops::is_loop;
use crate::propagator::{Propagator, Read};
use crate::root::{first_root, learn};
use crate::rows::{Before, Rows};
use crate::set_list::SetList;
use crate::watches::Watches;
use asp_complete::completion::completion;
use asp_model::interp::Interp;
use asp_model::seq::Seq;
use asp_proof::lines::line;
use asp_proof::proof::{Line, Sought};
use asp_vars::compiled::Compiled;
use asp_vars::lit::Lit;
use asp_vars::nogood::{Lits, Nogood};
use std::alloc::{AllocError, Global};

// ---- what is known at first

// The literals of nogoods.
fn copied(alloc: Global, nogoods: &[Nogood]) -> Result<Vec<Lits>, AllocError>
    ensures { IfOk result (λ rows. rows.items ≡ map (λ n. n.lits) nogoods.now) }
{
    let mut rows = Vec::with_capacity(alloc, nogoods.len())?;
    for nogood in nogoods {
        let lits = nogood.lits.copy()?;
        rows.push(lits)?;
    }
    Ok(rows)
}

// The completion.
fn completed(alloc: Global, compiled: &Compiled) -> Result<Vec<Lits>, AllocError>
    ensures { IfOk result (λ rows. rows.items ≡ completion compiled.now) }
{
    let nogoods = completion(alloc, compiled)?;
    let rows = copied(alloc, nogoods.as_slice())?;
    Ok(rows)
}

/// What is known before the first line: the completion.
pub(crate) fn first_known(alloc: Global, compiled: &Compiled) -> Result<Propagator, AllocError>
    ensures ready { IfOk result (λ known. (o : Sought) → IsReady compiled.now o known) }
    ensures first { IfOk result (λ known. gathered_by known ≡ first_gathered compiled.now) }
{
    let kept = completed(alloc, compiled)?;
    let mut watches = Watches::new(alloc, compiled)?;
    let values = first_root(alloc, compiled, kept.as_slice(), &mut watches)?;
    Ok(Propagator {
        found: SetList::new(alloc, compiled)?,
        bound: None,
        rows: Rows {
            kept,
            placed: Vec::new(alloc),
        },
        watches,
        values,
    })
}

// ---- nogoods

// The literals of a loop's line.
fn loop_literals(
    alloc: Global,
    compiled: &Compiled,
    set: &Interp,
    nogood: &Seq<i32>,
) -> Result<Option<Vec<Lit>>, AllocError>
    ensures { IfOk result (λ o. MatchOption o (HasLoopLiterals compiled.now set.now nogood.now → ⊥)
        (λ lits. (lits.items ≡ literals_of nogood.now) × HasLoopLiterals compiled.now set.now nogood.now)) }
{
    if !are_atoms(compiled, set) {
        return Ok(None);
    }
    let found = nogood_literals(alloc, compiled, nogood)?;
    Ok(found)
}

// The literals of another line.
fn nogood_literals(
    alloc: Global,
    compiled: &Compiled,
    nogood: &Seq<i32>,
) -> Result<Option<Vec<Lit>>, AllocError>
    ensures { IfOk result (λ o. MatchOption o (AreOf compiled.now (literals_of nogood.now) → ⊥)
        (λ lits. (lits.items ≡ literals_of nogood.now) × AreOf compiled.now (literals_of nogood.now))) }
{
    let literals = nogood.as_slice();
    let found = lits_of(alloc, compiled, literals)?;
    Ok(found)
}

// Puts a nogood into a place; behind the last one, where there is no such place yet.
fn put(placed: &mut Vec<Lits>, at: usize, lits: Lits) -> Result<(), AllocError>
    ensures { OnOk result (placed.new.items ≡ put placed.old.items at lits) }
{
    if at < placed.len() {
        placed[at] = lits;
        return Ok(());
    }
    placed.push(lits)?;
    Ok(())
}

// A nogood is known for good from now on.
fn keep_for_good(
    compiled: &Compiled,
    sought: Sought,
    known: &mut Propagator,
    lits: Lits,
) -> Result<(), AllocError>
    requires ready { IsReady compiled.now sought known.old }
    requires lits { AreOf compiled.now lits }
    ensures ready { OnOk result (IsReady compiled.now sought known.new) }
    ensures now { OnOk result (gathered_by known.new ≡ with_nogood (gathered_by known.old) 0 lits) }
{
    let alloc = known.watches.allocator();
    known.rows.kept.push(lits)?;
    let listed = avoided(sought, &known.found);
    let rows = known.rows.kept.as_slice();
    learn(
        alloc,
        compiled,
        &listed,
        rows,
        &known.bound,
        &mut known.watches,
        &mut known.values,
    )?;
    Ok(())
}

// A line's nogood is known from now on.
fn keep(
    compiled: &Compiled,
    sought: Sought,
    known: &mut Propagator,
    place: u32,
    lits: &[Lit],
) -> Result<(), AllocError>
    requires ready { IsReady compiled.now sought known.old }
    requires lits { AreOf compiled.now lits.now }
    ensures ready { OnOk result (IsReady compiled.now sought known.new) }
    ensures now { OnOk result (gathered_by known.new ≡ with_nogood (gathered_by known.old) place lits.now) }
{
    let own = Lits::from_slice(known.watches.allocator(), lits)?;
    if place == 0 {
        keep_for_good(compiled, sought, known, own)?;
        return Ok(());
    }
    put(&mut known.rows.placed, place as usize - 1, own)?;
    Ok(())
}

// Whether a nogood follows from what is known.
fn follows(
    compiled: &Compiled,
    sought: Sought,
    known: &mut Propagator,
    lits: &[Lit],
    names: &[u32],
) -> Result<bool, AllocError>
    requires ready { IsReady compiled.now sought known.old }
    requires lits { AreOf compiled.now lits.now }
    ensures yes { IfOk result (λ yes. yes ≡ true → LeadsToConflict compiled.now (known_of compiled.now sought (gathered_by known.old)) lits.now) }
    ensures no { IfOk result (λ yes. yes ≡ false → LeadsToConflict compiled.now (known_of compiled.now sought (gathered_by known.old)) lits.now → ⊥) }
    ensures ready { OnOk result (IsReady compiled.now sought known.new) }
    ensures same { OnOk result (gathered_by known.new ≡ gathered_by known.old) }
{
    let alloc = known.watches.allocator();
    let listed = avoided(sought, &known.found);
    let before = Before {
        listed: &listed,
        kept: known.rows.kept.as_slice(),
        placed: known.rows.placed.as_slice(),
        bound: &known.bound,
    };
    let confirmed = confirms(
        alloc,
        compiled,
        &before,
        &mut known.watches,
        &mut known.values,
        lits,
        names,
    )?;
    Ok(confirmed)
}

// Judges the line of a loop. Where it is right, its nogood is known to the later ones.
fn take_loop(
    compiled: &Compiled,
    sought: Sought,
    known: &mut Propagator,
    place: u32,
    set: &Interp,
    nogood: &Seq<i32>,
) -> Result<Read, AllocError>
    requires { IsReady compiled.now sought known.old }
    ensures { IfOk result (IsLineTaken compiled.now sought known.old known.new (Line.Loop place set.now nogood.now)) }
{
    let alloc = known.watches.allocator();
    let Some(lits) = loop_literals(alloc, compiled, set, nogood)? else {
        return Ok(Read::Wrong(Why::Literal));
    };
    let confirmed = is_loop(alloc, compiled, set, &lits)?;
    if !confirmed {
        return Ok(Read::Wrong(Why::Loop));
    }
    keep(compiled, sought, known, place, &lits)?;
    Ok(Read::Right(false))
}

// Judges the line of a nogood that was learnt, or of a cube. Where it is right, the nogood is known to the later ones.
fn take_nogood(
    compiled: &Compiled,
    sought: Sought,
    known: &mut Propagator,
    assumed: &[Lit],
    place: u32,
    nogood: &Seq<i32>,
    names: &[u32],
) -> Result<Read, AllocError>
    requires ready { IsReady compiled.now sought known.old }
    requires assumed { assumed.now ≡ map (literal_of compiled.now) compiled.now.assumptions }
    ensures learned { (names : List ℕ) → IfOk result (IsLineTaken compiled.now sought known.old known.new (Line.Learned place nogood.now names)) }
    ensures cube { place ≡ 0 → IfOk result (IsLineTaken compiled.now sought known.old known.new (Line.Cube nogood.now)) }
{
    let alloc = known.watches.allocator();
    let Some(lits) = nogood_literals(alloc, compiled, nogood)? else {
        return Ok(Read::Wrong(Why::Literal));
    };
    let follows = follows(compiled, sought, known, &lits, names)?;
    if !follows {
        return Ok(Read::Wrong(Why::NotImplied));
    }
    let closing = are_assumed(assumed, &lits);
    keep(compiled, sought, known, place, &lits)?;
    Ok(Read::Right(closing))
}

// Judges a line. Where it is right, it is known to the later ones.
fn take_line(
    compiled: &Compiled,
    sought: Sought,
    known: &mut Propagator,
    assumed: &[Lit],
    line: &Line,
) -> Result<Read, AllocError>
    requires ready { IsReady compiled.now sought known.old }
    requires assumed { assumed.now ≡ map (literal_of compiled.now) compiled.now.assumptions }
    ensures { IfOk result (IsLineTaken compiled.now sought known.old known.new line.now) }
{
    match line {
        Line::Loop { place, set, nogood } => {
            take_loop(compiled, sought, known, *place, set, nogood)
        }
        Line::Learned {
            place,
            nogood,
            names,
        } => {
            let names = names.as_slice();
            take_nogood(compiled, sought, known, assumed, *place, nogood, names)
        }
        Line::Cube(nogood) => take_nogood(compiled, sought, known, assumed, 0, nogood, &[]),
        Line::Found(change) => take_found(compiled, sought, known, change),
    }
}

/// Reads a line that comes before the answers, and judges it. Where it is right, it is known to the later ones.
pub(crate) fn read_line(
    compiled: &Compiled,
    sought: Sought,
    known: &mut Propagator,
    assumed: &[Lit],
    bytes: &[u8],
) -> Result<Read, AllocError>
    requires ready { IsReady compiled.now sought known.old }
    requires assumed { assumed.now ≡ map (literal_of compiled.now) compiled.now.assumptions }
    ensures { IfOk result (IsLineRead compiled.now sought known.old known.new bytes.now) }
{
    let found = line(known.watches.allocator(), bytes)?;
    match found {
        Some(line) => take_line(compiled, sought, known, assumed, &line),
        None => Ok(Read::Other),
    }
}
