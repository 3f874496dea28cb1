//! The unfounded set that was found last, of which further atoms are told.
ghost use Rattle.std.specs.Prelude.{◌≡◌, ◌+◌, ◌<◌, ◌≤◌, [], false, All, IfOk, OnOk, OnErr, IfSome, IsTrue, drop, length};
ghost use Rattle.std.specs.List.{list_all};
ghost use Rattle.asp_model.specs.Sets.{has};
ghost use Rattle.asp_vars.specs.Literals.{F, holds_in};
ghost use Rattle.asp_vars.specs.Numbering.{var_count, var_of_atom};
ghost use Rattle.asp_scc.specs.Components.{Stands};
ghost use Rattle.asp_source.specs.Rest.{IsAgain};

use asp_model::program::Atom;
use asp_vars::assign::Assign;
use asp_vars::compiled::Compiled;
use asp_vars::lit::Lit;
use asp_vars::nogood::{Base, Lits, Nogood};
use std::alloc::{AllocError, Global};
use std::marker::Model;

/// An unfounded set, and why it is one.
#[derive(Drop)]
pub struct Found {
    /// Gives the memory of nogoods.
    alloc: Global,
    /// Its atoms; none where no set was found.
    atoms: Vec<Atom>,
    /// The literals of a loop nogood of it, but the first: they are the same whichever of its atoms the nogood is for.
    reason: Lits,
    /// How many of the atoms, from the first on, are still to be told of; no more than there are.
    left: usize,
}

impl Model for Found {
    ghost use Rattle.std.specs.Prelude.{◌≤◌, length};
    ghost use Rattle.asp_source.specs.Rest.{Rest};

    ghost Value = { Rest };

    ghost view = { λ f. record { set = f.atoms.items; reason = f.reason } };

    ghost invariant = { λ f. f.left ≤ length f.atoms.items };
}

impl Found {
    /// No set.
    pub fn new(alloc: Global) -> Found
        ensures { result ≡ record { set = []; reason = [] } }
    {
        Found {
            alloc,
            atoms: Vec::new(alloc),
            reason: Lits::new(alloc),
            left: 0,
        }
    }

    /// Its atoms.
    pub fn set(&self) -> &[Atom]
        ensures { result.now ≡ self.now.set }
    {
        self.atoms.as_slice()
    }

    /// Keeps a set and a loop nogood of it.
    ///
    /// Want of memory leaves what was kept.
    pub fn keep(&mut self, atoms: Vec<Atom>, nogood: &Nogood) -> Result<(), AllocError>
        requires { 0 < length nogood.now.lits }
        ensures ok { OnOk result (self.new ≡ record { set = atoms.items; reason = drop 1 nogood.now.lits }) }
        ensures err { OnErr result (self.new ≡ self.old) }
    {
        let lits = nogood.lits.as_slice();
        let reason = Lits::from_slice(self.alloc, &lits[1..])?;
        self.reason = reason;
        self.left = atoms.len();
        self.atoms = atoms;
        Ok(())
    }

    /// The loop nogood of another atom of the set that isn't false, if the reason holds still.
    ///
    /// Want of memory is the one error. Whatever comes, the set and the reason stay.
    pub fn again(
        &mut self,
        compiled: &Compiled,
        values: &Assign,
    ) -> Result<Option<Nogood>, AllocError>
        requires stand { All (Stands compiled.now) self.old.set }
        requires reason { All (λ l. l.var < length values.now) self.old.reason }
        requires values { length values.now ≡ var_count compiled.now + 1 }
        ensures same { self.new ≡ self.old }
        ensures given { IfOk result (λ o. IfSome o (IsAgain compiled.now values.now self.old.set self.old.reason)) }
    {
        if self.left == 0 {
            return Ok(None);
        }
        let hold = all_hold(values, self.reason.as_slice());
        if !hold {
            return Ok(None);
        }
        let taken = take_open(compiled, values, self.atoms.as_slice(), &mut self.left);
        let Some(atom) = taken else {
            return Ok(None);
        };
        let first = Lit::new(compiled.atom_var(atom), true);
        let lits = Lits::with_first(self.alloc, first, self.reason.as_slice())?;
        Ok(Some(Nogood {
            lits,
            base: Base::Pure,
        }))
    }
}

// The last of the atoms that are left and aren't false. It is left no more, nor are those after it.
fn take_open(compiled: &Compiled, values: &Assign, atoms: &[Atom], left: &mut usize) -> Option<Atom>
    requires stand { All (Stands compiled.now) atoms.now }
    requires values { length values.now ≡ var_count compiled.now + 1 }
    requires left { left.old ≤ length atoms.now }
    ensures left { left.new ≤ left.old }
    ensures member { IfSome result (λ a. IsTrue (has atoms.now a)) }
    ensures open { IfSome result (λ a. holds_in values.now (F (var_of_atom compiled.now a)) ≡ false) }
{
    while *left > 0 {
        *left -= 1;
        let atom = atoms[*left];
        let is_false = values.holds(Lit::new(compiled.atom_var(atom), false));
        if !is_false {
            return Some(atom);
        }
    }
    None
}

// Whether all of the literals hold.
fn all_hold(values: &Assign, lits: &[Lit]) -> bool
    requires { All (λ l. l.var < length values.now) lits.now }
    ensures { result ≡ list_all (holds_in values.now) lits.now }
{
    lits.iter().all(|lit| values.holds(*lit))
}
