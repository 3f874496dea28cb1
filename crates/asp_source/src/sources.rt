//! The propagator of unfounded sets.
//!
//! An atom of a component that can found itself has to be founded from outside: each set of atoms within a component
//! has a body of a rule for one of them that isn't false and doesn't need the set. What has none can't be true, and a
//! loop nogood says so.
//!
//! It keeps source pointers: see `pointers`. `assign` queues the atoms that a false body founded, and those that a weight
//! body founded of which a literal comes to be false. `undo` queues an atom that was false, if it lost its source
//! meanwhile. Atoms of trivial components have no source, and are never queued. Where all components are trivial, the
//! program is tight: no value makes a set unfounded, and nothing is ever queued.
ghost use Rattle.std.specs.Prelude.{◌≡◌, ℕ, List, Option, Bool, ◌+◌, None, IsTrue, IfOk, IfNone, IfSome, replicate};
ghost use Rattle.asp_model.specs.Sets.{Atoms, has};
ghost use Rattle.asp_vars.specs.Literals.{value_of, holds_in};
ghost use Rattle.asp_vars.specs.Numbering.{var_count};
ghost use Rattle.asp_trail.specs.Entries.{assignment};
ghost use Rattle.asp_trail.specs.Trails.{IsVar};
ghost use Rattle.asp_trail.specs.Told.{told, untold};
ghost use Rattle.asp_source.specs.Loops.{IsUnfoundedLoop, IsFound, IsGiven};

use crate::pointers::{lose_by, regain};
use crate::queue::Queue;
use crate::ranks::Ranks;
use crate::rest::Found;
use crate::search::{Setting, Unfounded, first_unfounded, nogood_of};
use crate::start::{Bare, Blank, bare_pointers, blank_marks, has_weights, refresh};
use asp_model::program::Atom;
use asp_scc::components::Components;
use asp_scc::find::components;
use asp_trail::told::ToldValues;
use asp_trail::trail::Trail;
use asp_vars::assign::Assign;
use asp_vars::compiled::Compiled;
use asp_vars::lit::{Lit, Var};
use asp_vars::nogood::Nogood;
use std::alloc::{AllocError, Global};
use std::marker::Model;

/// The components of a program, with those that may have an unfounded set under the values told.
#[derive(Drop)]
pub struct Sources<'a> {
    /// Gives the memory of what is found.
    alloc: Global,
    /// The program.
    compiled: &'a Compiled,
    /// The components of its positive dependencies.
    components: Components,
    /// The values told, for contracts alone.
    values: ToldValues,
    /// By atom, the number of the body that is its source, or 0 for none. One more than the atoms; 0 is no atom.
    sources: Vec<Var>,
    /// How old the sources are: each rests on atoms of lower ranks alone, as far as its component goes.
    ranks: Ranks,
    /// The atoms to be looked at, by variable less 1.
    queue: Queue,
    /// Whether all components are trivial.
    tight: bool,
    /// Whether the program has a weight body.
    weighted: bool,
    /// By variable, whether the atom is a candidate of the look that is under way; between two looks none is.
    loose: Vec<bool>,
    /// The candidates that are still to be gone over, by variable less 1.
    waiting: Queue,
    /// The atoms that came to be candidates in the look, by variable less 1.
    joined: Queue,
    /// The set that was found last, of which further atoms are told.
    found: Found,
}

impl<'a> Model for Sources<'a> {
    ghost use Rattle.asp_trail.specs.Told.{Told};

    ghost Value = { Told };

    ghost use Rattle.asp_source.specs.Kept.{IsKept};

    ghost view = { λ s. record { program = s.compiled.now; values = s.values } };

    ghost invariant = { λ s. IsKept s.compiled.now s.components s.values s.sources.items s.ranks.ranks s.queue s.tight s.weighted s.loose.items s.waiting s.joined s.found };
}

impl<'a> Sources<'a> {
    /// The components of a program, where no variable has a value.
    ///
    /// Want of memory is the one error.
    pub fn new(alloc: Global, compiled: &'a Compiled) -> Result<Sources<'a>, AllocError>
        ensures { IfOk result (λ s. s ≡ record { program = compiled.now; values = replicate (var_count compiled.now + 1) None }) }
    {
        let components = components(alloc, compiled)?;
        let values = ToldValues::none(compiled.vars());
        let pointers = bare_pointers(alloc, compiled, &components)?;
        let marks = blank_marks(alloc, compiled)?;
        let Bare {
            sources,
            ranks,
            queue,
        } = pointers;
        let Blank {
            loose,
            waiting,
            joined,
        } = marks;
        let tight = queue.is_empty();
        let weighted = has_weights(compiled);
        let found = Found::new(alloc);
        Ok(Sources {
            alloc,
            compiled,
            components,
            values,
            sources,
            ranks,
            queue,
            tight,
            weighted,
            loose,
            waiting,
            joined,
            found,
        })
    }

    /// The literal holds from now on. It takes no memory.
    pub fn assign(&mut self, lit: Lit)
        requires var { IsVar (var_count self.old.program) lit.var }
        requires none { value_of self.old.values lit.var ≡ None }
        ensures { self.new ≡ told self.old lit }
    {
        let _program = self.compiled.program();
        self.values.set(lit);
        if self.tight {
            return;
        }
        lose_by(
            self.compiled,
            self.weighted,
            self.sources.as_mut_slice(),
            &mut self.queue,
            lit,
        );
    }

    /// The literal, which holds, doesn't hold any more, nor does its complement. It takes no memory.
    pub fn undo(&mut self, lit: Lit)
        requires var { IsVar (var_count self.old.program) lit.var }
        requires holds { IsTrue (holds_in self.old.values lit) }
        ensures { self.new ≡ untold self.old lit }
    {
        let _program = self.compiled.program();
        self.values.unset(lit.var());
        if self.tight {
            return;
        }
        regain(
            self.compiled,
            &self.components,
            self.sources.as_slice(),
            &mut self.queue,
            lit,
        );
    }

    /// The set of whose atoms `next` gave a loop nogood last, in any order.
    pub fn last_set(&self) -> &[Atom]
        ensures { (a : ℕ) → IsTrue (has result.now a) → (x : List (Option Bool)) × IsUnfoundedLoop self.now.program x result.now }
    {
        self.found.set()
    }

    // The loop nogood of another atom of the set that was found last, if what made it unfounded holds still.
    fn again(&mut self, values: &Assign) -> Result<Option<Nogood>, AllocError>
        requires { self.old.values ≡ values.now }
        ensures same { self.new ≡ self.old }
        ensures given { IfOk result (λ n. IfSome n (IsGiven self.old)) }
    {
        let _program = self.compiled.program();
        let again = self.found.again(self.compiled, values)?;
        let Some(nogood) = again else {
            return Ok(None);
        };
        Ok(Some(nogood))
    }

    // An unfounded set that a queued atom brings with it, and an atom of it, if there is one.
    fn unfounded(&mut self, values: &Assign) -> Result<Option<Unfounded>, AllocError>
        requires { self.old.values ≡ values.now }
        ensures same { self.new ≡ self.old }
        ensures none { IfOk result (λ o. IfNone o ((U : Atoms) → IsUnfoundedLoop self.old.program self.old.values U → ⊥)) }
        ensures some { IfOk result (λ o. IfSome o (λ f. IsFound self.old.program self.old.values f.atoms.items f.atom)) }
    {
        let _program = self.compiled.program();
        if self.tight {
            return Ok(None);
        }
        let sources = self.sources.as_mut_slice();
        refresh(
            self.compiled,
            &self.components,
            values,
            sources,
            &mut self.ranks,
            &mut self.queue,
        );
        let setting = Setting {
            alloc: self.alloc,
            compiled: self.compiled,
            components: &self.components,
            values,
        };
        let loose = self.loose.as_mut_slice();
        first_unfounded(
            &setting,
            sources,
            &mut self.ranks,
            &mut self.queue,
            loose,
            &mut self.waiting,
            &mut self.joined,
        )
    }

    // The loop nogood of a set that was found just now, which is kept for its other atoms.
    fn nogood_kept(&mut self, values: &Assign, found: Unfounded) -> Result<Nogood, AllocError>
        requires values { self.old.values ≡ values.now }
        requires found { IsFound self.old.program self.old.values found.atoms.items found.atom }
        ensures same { self.new ≡ self.old }
        ensures given { IfOk result (IsGiven self.old) }
    {
        let setting = Setting {
            alloc: self.alloc,
            compiled: self.compiled,
            components: &self.components,
            values,
        };
        let nogood = nogood_of(&setting, &found)?;
        self.found.keep(found.atoms, &nogood)?;
        Ok(nogood)
    }

    /// The loop nogood of a set of atoms that aren't false, within a component that isn't trivial, which is unfounded
    /// under the values told. None exactly where there is no such set.
    ///
    /// Want of memory is the one error. Whatever comes, the values stay, and a later call looks again.
    pub fn next(&mut self, trail: &Trail) -> Result<Option<Nogood>, AllocError>
        requires { self.old.values ≡ assignment trail.now.vars trail.now.entries }
        ensures same { self.new ≡ self.old }
        ensures none { IfOk result (λ n. IfNone n ((U : Atoms) → IsUnfoundedLoop self.old.program self.old.values U → ⊥)) }
        ensures given { IfOk result (λ n. IfSome n (IsGiven self.old)) }
    {
        let values = trail.assignment();
        if let Some(nogood) = self.again(values)? {
            return Ok(Some(nogood));
        }
        match self.unfounded(values)? {
            None => Ok(None),
            Some(found) => Ok(Some(self.nogood_kept(values, found)?)),
        }
    }
}
