//! Literals are met.
ghost use Rattle.std.specs.Prelude.{◌≡◌, ◌<◌, [], ◌∷◌, length, false};
ghost use Rattle.std.specs.List.{All};
ghost use Rattle.asp_analyze.specs.Marks.{mark_of, is_met};
ghost use Rattle.asp_analyze.specs.Way.{mark_at, CanStay, AreMarked, Noted};

use crate::levels::level_of;
use crate::marks::{Mark, Marks};
use asp_trail::trail::Trail;
use asp_vars::lit::Lit;

// The mark of a literal of this level that is met.
fn mark_at(level: usize, top: usize) -> Mark
    ensures { result ≡ mark_at level top }
{
    if level == 0 {
        Mark::Zero
    } else if level == top {
        Mark::Pending
    } else {
        Mark::Kept
    }
}

// Marks a literal that wasn't met.
fn meet(marks: &mut Marks, trail: &Trail, top: usize, lit: Lit)
    requires small { lit.var < length marks.old.marks }
    requires unmet { is_met (mark_of marks.old.marks lit.var) ≡ false }
    requires stays { CanStay trail.now.entries top lit }
    requires marked { AreMarked trail.now.entries top marks.old }
    ensures marked { AreMarked trail.now.entries top marks.new }
    ensures noted { Noted trail.now.entries marks.old marks.new (lit ∷ []) }
{
    if marks.get(lit.var()).is_clean() {
        let mark = mark_at(level_of(lit, trail), top);
        marks.add(lit, mark);
    } else {
        marks.change(lit.var(), Mark::Kept);
    }
}

// Marks the literal, where it wasn't met yet.
fn note(marks: &mut Marks, trail: &Trail, top: usize, lit: Lit)
    requires small { lit.var < length marks.old.marks }
    requires stays { is_met (mark_of marks.old.marks lit.var) ≡ false → CanStay trail.now.entries top lit }
    requires marked { AreMarked trail.now.entries top marks.old }
    ensures marked { AreMarked trail.now.entries top marks.new }
    ensures noted { Noted trail.now.entries marks.old marks.new (lit ∷ []) }
{
    if !marks.get(lit.var()).is_met() {
        meet(marks, trail, top, lit);
    }
}

/// Marks the literals that weren't met yet.
pub fn note_all(marks: &mut Marks, trail: &Trail, top: usize, lits: &[Lit])
    requires small { All (λ l. l.var < length marks.old.marks) lits.now }
    requires stays { All (λ l. is_met (mark_of marks.old.marks l.var) ≡ false → CanStay trail.now.entries top l) lits.now }
    requires marked { AreMarked trail.now.entries top marks.old }
    ensures marked { AreMarked trail.now.entries top marks.new }
    ensures noted { Noted trail.now.entries marks.old marks.new lits.now }
{
    for lit in lits {
        note(marks, trail, top, *lit);
    }
}
