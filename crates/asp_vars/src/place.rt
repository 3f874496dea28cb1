//! Where an atom stands in a set.
ghost use Rattle.std.specs.Prelude.{◌≡◌, ◌<◌, ◌≤◌, ◌^◌, IfSome, IsTrue, length};
ghost use Rattle.asp_model.specs.Sets.{IsAscending, has};
ghost use Rattle.asp_vars.specs.Numbering.{var_in};
ghost use Rattle.asp_vars.specs.Places.{place_in};

use crate::lit::Var;
use asp_model::program::Atom;

/// The place of an atom in an ascending list, counted from 1.
pub fn place(atoms: &[Atom], atom: Atom) -> Option<Var>
    requires up { IsAscending atoms.now }
    requires few { length atoms.now < 2 ^ 31 }
    ensures place { result ≡ place_in atoms.now atom }
    ensures within { IfSome result (λ v. v ≤ length atoms.now) }
{
    match atoms.binary_search(&atom) {
        Ok(place) => Some(place as u32 + 1),
        Err(_) => None,
    }
}

/// The place of an atom that stands in an ascending list, counted from 1.
pub fn var_in(atoms: &[Atom], atom: Atom) -> Var
    requires up { IsAscending atoms.now }
    requires few { length atoms.now < 2 ^ 31 }
    requires stands { IsTrue (has atoms.now atom) }
    ensures var { result ≡ var_in atoms.now atom }
    ensures within { result ≤ length atoms.now }
{
    match place(atoms, atom) {
        Some(var) => var,
        None => unreachable!(),
    }
}
