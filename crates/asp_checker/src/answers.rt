//! The nogoods of the sets found. They are kept as sets: each nogood has a literal for each atom.
ghost use Rattle.std.specs.Prelude.{◌≡◌, ◌+◌, ◌<◌, ◌++◌, [], length, map, slice_index_or};
ghost use Rattle.std.specs.List.{AllByRecursion};
ghost use Rattle.asp_vars.specs.Numbering.{var_count};
ghost use Rattle.asp_checker.specs.Lines.{AreOf, nogood_of_answer};
ghost use Rattle.asp_checker.specs.Looks.{IsSeen, IsVisited};
ghost use Rattle.asp_checker.specs.Sweeps.{IsSwept};

use crate::nogoods::{Look, Visit, with};
use crate::set_list::SetSlice;
use crate::sweep::{later, sweep};
use asp_vars::assign::Assign;
use asp_vars::compiled::Compiled;
use asp_vars::lit::Lit;
use asp_vars::nogood::Lits;

/// What the nogood by which a set found, at this place, differs from all others says under the values.
pub(crate) fn look_at_answer(
    compiled: &Compiled,
    listed: &SetSlice<'_>,
    place: usize,
    values: &Assign,
) -> Look
    requires within { place < length listed.now }
    requires size { length values.now ≡ var_count compiled.now + 1 }
    ensures { IsSeen values.now (nogood_of_answer compiled.now (slice_index_or listed.now place [])) result }
{
    let atoms = compiled.atoms().as_slice();
    let mut look = Look::Violated;
    for at in 0..compiled.atom_count() {
        let truth = listed.has(place, at, atoms[at]);
        look = with(look, Lit::new(at as u32 + 1, truth), values);
        if let Look::Fixpoint = look {
            return Look::Fixpoint;
        }
    }
    look
}

// Looks at the nogood of the set found at a place, and sets the value that it implies.
fn visit_answer(
    compiled: &Compiled,
    listed: &SetSlice<'_>,
    place: usize,
    values: &mut Assign,
) -> Visit
    requires within { place < length listed.now }
    requires size { length values.old ≡ var_count compiled.now + 1 }
    ensures { IsVisited values.old values.new (nogood_of_answer compiled.now (slice_index_or listed.now place [])) result }
{
    match look_at_answer(compiled, listed, place, values) {
        Look::Fixpoint => Visit::Fixpoint,
        Look::Violated => Visit::Conflict,
        Look::Unit(lit) => {
            values.set(lit.complement());
            Visit::Implied
        }
    }
}

/// Looks at the nogood of each set found once, and sets the values that they imply, one after another.
pub(crate) fn sweep_answers(
    compiled: &Compiled,
    listed: &SetSlice<'_>,
    values: &mut Assign,
) -> Visit
    requires { length values.old ≡ var_count compiled.now + 1 }
    ensures { IsSwept values.old values.new (map (nogood_of_answer compiled.now) listed.now) result }
{
    let mut came_to = Visit::Fixpoint;
    for place in 0..listed.len() {
        let visit = visit_answer(compiled, listed, place, values);
        if let Visit::Conflict = visit {
            return Visit::Conflict;
        }
        came_to = later(came_to, visit);
    }
    came_to
}

/// Looks at all nogoods once, those of the sets found last.
pub(crate) fn sweep_all(
    compiled: &Compiled,
    listed: &SetSlice<'_>,
    rows: &[Lits],
    values: &mut Assign,
) -> Visit
    requires of { AllByRecursion (AreOf compiled.now) rows.now }
    requires size { length values.old ≡ var_count compiled.now + 1 }
    ensures { IsSwept values.old values.new (map (nogood_of_answer compiled.now) listed.now ++ rows.now) result }
{
    match sweep(rows, values) {
        Visit::Conflict => Visit::Conflict,
        Visit::Implied => Visit::Implied,
        Visit::Fixpoint => sweep_answers(compiled, listed, values),
    }
}

/// The same, and last the nogoods in places.
pub(crate) fn sweep_known(
    compiled: &Compiled,
    listed: &SetSlice<'_>,
    rows: &[Lits],
    placed: &[Lits],
    values: &mut Assign,
) -> Visit
    requires of { AllByRecursion (AreOf compiled.now) rows.now }
    requires placed { AllByRecursion (AreOf compiled.now) placed.now }
    requires size { length values.old ≡ var_count compiled.now + 1 }
    ensures { IsSwept values.old values.new (placed.now ++ (map (nogood_of_answer compiled.now) listed.now ++ rows.now)) result }
{
    match sweep_all(compiled, listed, rows, values) {
        Visit::Conflict => Visit::Conflict,
        Visit::Implied => Visit::Implied,
        Visit::Fixpoint => sweep(placed, values),
    }
}
