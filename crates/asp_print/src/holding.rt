//! When literals hold in an answer.
ghost use Rattle.std.specs.Prelude.{◌≡◌};
ghost use Rattle.asp_model.specs.Holding.{all_hold, holds};
ghost use Rattle.asp_model.specs.Sets.{has};

use asp_model::interp::Interp;
use asp_model::program::Atom;
use asp_rows::row::Row;

/// A set of atoms, in whatever form.
pub trait Answer {
    ghost use Rattle.asp_model.specs.Sets.{Atoms};

    ghost set: { Self → Atoms };

    ghost is_sound: { Self → Type 0 };

    /// Whether the atom is in the set.
    fn has(&self, atom: Atom) -> bool
        requires { is_sound self.now }
        ensures { result ≡ has (set self.now) atom };
}

impl Answer for Interp {
    ghost set = { λ s. s };

    ghost is_sound = { λ _. Unit {0} };

    fn has(&self, atom: Atom) -> bool {
        Interp::has(self, atom)
    }
}

/// A row, with the atoms of which it has bits.
#[derive(Clone, Copy)]
pub struct Among<'a> {
    /// The atoms.
    pub atoms: &'a [Atom],
    /// The row.
    pub row: &'a Row,
}

impl<'a> Answer for Among<'a> {
    ghost use Rattle.asp_model.specs.Sets.{IsAscending};
    ghost use Rattle.asp_rows.specs.Listed.{IsRowOf};

    ghost set = { λ a. a.row.now.set };

    ghost is_sound = { λ a. IsAscending a.atoms.now × IsRowOf a.atoms.now a.row.now };

    fn has(&self, atom: Atom) -> bool {
        self.row.has_atom(self.atoms, atom)
    }
}

// Whether a literal holds.
fn holds<A: Answer>(answer: &A, literal: i32) -> bool
    requires { A.is_sound answer.now }
    ensures { result ≡ holds (A.set answer.now) literal }
{
    let has = answer.has(literal.unsigned_abs());
    if literal < 0 { !has } else { has }
}

/// Whether all of the literals hold.
pub fn all_hold<A: Answer>(answer: &A, literals: &[i32]) -> bool
    requires { A.is_sound answer.now }
    ensures { result ≡ all_hold (A.set answer.now) literals.now }
{
    for literal in literals {
        if !holds(answer, *literal) {
            return false;
        }
    }
    true
}
