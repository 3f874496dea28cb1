//! Which of the sets found is to be looked at: one whose atoms have these values, but for one of them at most. This is advice alone, as the
//! watches are.
ghost use Rattle.std.specs.Prelude.{◌≡◌, ◌+◌, ◌≤◌, length};
ghost use Rattle.asp_vars.specs.Numbering.{var_count};

use asp_model::interp::Interp;
use asp_model::program::Atom;
use asp_vars::assign::Assign;
use asp_vars::compiled::Compiled;
use asp_vars::lit::{Lit, Var};
use std::alloc::{AllocError, Global};
use std::collections::HashMap;

/// Where sets are sought among those found.
#[derive(Drop)]
pub(crate) struct Seeker {
    // Where the last set of this code stands.
    places: HashMap<u64, usize>,
    // Two atoms that had no value when they were looked at last: as long as that is so, no set found says anything.
    one: Var,
    two: Var,
}

fn is_open(compiled: &Compiled, values: &Assign, var: Var) -> bool
    requires { length values.now ≡ var_count compiled.now + 1 }
{
    var > 0 && var <= compiled.vars() && values.value(var).is_none()
}

// The first variable of these that has no value, but for one; 0 where there is none.
fn next_open(values: &Assign, start: Var, end: Var, but: Var) -> Var
    requires { end ≤ length values.now }
{
    for var in start..end {
        if var != but && values.value(var).is_none() {
            return var;
        }
    }
    0
}

// The same of all atoms' variables, from one on and then before it.
fn some_open(compiled: &Compiled, values: &Assign, start: Var, but: Var) -> Var
    requires { length values.now ≡ var_count compiled.now + 1 }
{
    let end = compiled.atom_count() as u32 + 1;
    match next_open(values, start.max(1), end, but) {
        0 => next_open(values, 1, start.min(end), but),
        var => var,
    }
}

// A number for an atom, all of whose bits depend on all of its own.
fn mixed(atom: Atom) -> u64 {
    let mut code = u64::from(atom).wrapping_mul(11_400_714_819_323_198_485);
    code = (code ^ (code >> 30)).wrapping_mul(13_787_848_793_156_543_929);
    code = (code ^ (code >> 27)).wrapping_mul(10_723_151_780_598_845_931);
    code ^ (code >> 31)
}

// A number by which sets are told apart, but for a few: the sum of their atoms' numbers.
fn code(set: &[Atom]) -> u64 {
    let mut code: u64 = 0;
    for atom in set {
        code = code.wrapping_add(mixed(*atom));
    }
    code
}

// The same of the set of the atoms that are true.
fn code_of_true(compiled: &Compiled, values: &Assign) -> u64
    requires { length values.now ≡ var_count compiled.now + 1 }
{
    let atoms = compiled.atoms().as_slice();
    let mut code: u64 = 0;
    for at in 0..compiled.atom_count() {
        if values.holds(Lit::new(at as u32 + 1, true)) {
            code = code.wrapping_add(mixed(atoms[at]));
        }
    }
    code
}

impl Seeker {
    /// Nothing was looked at yet.
    pub(crate) fn new(alloc: Global) -> Seeker {
        Seeker {
            places: HashMap::new(alloc),
            one: 0,
            two: 0,
        }
    }

    /// A set was found, and stands at this place.
    pub(crate) fn note(&mut self, set: &Interp, place: usize) -> Result<(), AllocError> {
        self.places.insert(code(set.as_slice()), place)?;
        Ok(())
    }

    // The place of a set of this code.
    fn place(&self, code: u64) -> Option<usize> {
        self.places.get(&code).copied()
    }

    // The place of the set of the atoms that are true, or of that with the open one too.
    fn seek_open(&self, compiled: &Compiled, values: &Assign, open: Var) -> Option<usize>
        requires { length values.now ≡ var_count compiled.now + 1 }
    {
        let code = code_of_true(compiled, values);
        let at = (open as usize).saturating_sub(1);
        let more = match compiled.atoms().as_slice().get(at) {
            Some(atom) => mixed(*atom),
            None => 0,
        };
        match self.place(code.wrapping_add(more)) {
            Some(place) => Some(place),
            None => self.place(code),
        }
    }

    /// The place of a set found whose nogood may be hit, or imply a value.
    pub(crate) fn near(&mut self, compiled: &Compiled, values: &Assign) -> Option<usize>
        requires { length values.now ≡ var_count compiled.now + 1 }
    {
        if !is_open(compiled, values, self.one) || self.one == self.two {
            self.one = some_open(compiled, values, self.one, self.two);
        }
        if self.one > 0 && !is_open(compiled, values, self.two) {
            self.two = some_open(compiled, values, self.two, self.one);
        }
        let (one, two) = (self.one, self.two);
        match (
            is_open(compiled, values, one),
            is_open(compiled, values, two),
        ) {
            (true, true) => None,
            (false, false) => self.place(code_of_true(compiled, values)),
            (true, false) => self.seek_open(compiled, values, one),
            (false, true) => self.seek_open(compiled, values, two),
        }
    }
}
