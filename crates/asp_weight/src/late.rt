//! What follows by a body whose nogood is long: the literal is said, and its reason is written when it is asked for.
ghost use Rattle.std.specs.Prelude.{◌≡◌, ◌<◌, ◌≤◌, ◌^◌, ℕ, IfSome, length};
ghost use Rattle.std.specs.Option.{ForSome};
ghost use Rattle.std.specs.List.{AllPairs};
ghost use Rattle.asp_vars.specs.Literals.{complement};
ghost use Rattle.asp_weight.specs.Spoken.{Speaks, IsReady, item_at};
ghost use Rattle.asp_weight.specs.Rows.{on};
ghost use Rattle.asp_weight.specs.Explained.{ruled_out, before, Follows};

use crate::held::LONG;
use crate::item::{Item, Shape, on};
use crate::look::Speech;
use asp_trail::trail::Trail;
use asp_vars::assign::Assign;
use asp_vars::lit::Lit;

// The literal that a body rules out.
fn ruled_out(speech: &Speech, shape: &Shape, row: &[Item]) -> Lit
    requires small { shape.now.var < 2 ^ 31 }
    requires spot { ForSome speech.now.open (λ j. j < length row.now) }
    ensures { result ≡ ruled_out speech.now.open speech.now.side shape.now row.now }
{
    match speech.open {
        Some(spot) => on(speech.side, row[spot].lit),
        None => Lit::new(shape.var, !speech.side),
    }
}

/// The literal without a value that follows by what a long body says, if it is to be explained later.
pub fn said_of(speech: &Speech, shape: &Shape, row: &[Item], values: &Assign) -> Option<Lit>
    requires ready { IsReady values.now shape.now row.now }
    requires speaks { Speaks speech.now values.now shape.now row.now }
    ensures { IfSome result (Follows values.now shape.now row.now) }
{
    if row.len() <= LONG {
        return None;
    }
    let lit = ruled_out(speech, shape, row).complement();
    match values.value(lit.var()) {
        None => Some(lit),
        Some(_) => None,
    }
}

// The place of the first item whose literal for the side is this one; 0 where none is.
fn place_in(row: &[Item], side: bool, lit: Lit) -> usize
    requires { 0 < length row.now }
    ensures within { result < length row.now }
    ensures first { (j : ℕ) → j < length row.now → on side (item_at row.now j).lit ≡ lit → (result ≤ j) × (on side (item_at row.now result).lit ≡ lit) }
{
    for i in 0..row.len() {
        if on(side, row[i].lit) == lit {
            return i;
        }
    }
    0
}

/// What a body said when the literal followed from it, before the entry at a place came.
pub fn speech_at(lit: Lit, trail: &Trail, place: usize, shape: &Shape, row: &[Item]) -> Speech
    requires var { shape.now.var ≤ trail.now.vars }
    requires small { shape.now.var < 2 ^ 31 }
    requires falling { AllPairs (λ i j. j.weight ≤ i.weight) row.now }
    requires follows { Follows (before trail.now place) shape.now row.now lit }
    ensures speaks { Speaks result (before trail.now place) shape.now row.now }
    ensures rules_out { complement lit ≡ ruled_out result.open result.side shape.now row.now }
{
    if lit.var() == shape.var {
        return Speech {
            side: lit.truth(),
            open: None,
        };
    }
    let side = trail.held_before(Lit::new(shape.var, false), place);
    let spot = place_in(row, side, lit.complement());
    Speech {
        side,
        open: Some(spot),
    }
}
