//! An order in which the bodies of rules come to hold, where the atoms outside of a set are false. Nothing is proved of it but
//! that it ends: `stable` looks at each body itself.
//!
//! It is counted for each body what it lacks, literals or weight. An atom that is derived is counted off where it stands, and
//! a body that lacks nothing derives its heads.
ghost use Rattle.std.specs.Prelude.{◌≡◌, ◌+◌, ◌<◌, length};
ghost use Rattle.asp_vars.specs.Numbering.{bodies_of, var_count};

use asp_vars::assign::Assign;
use asp_vars::compiled::Compiled;
use asp_vars::lit::{Lit, Var};
use std::alloc::{AllocError, Global};

// How far a derivation has come.
#[derive(Drop)]
struct Derivation {
    // By variable, whether the atom may still be derived.
    open: Vec<bool>,
    // By body, how many literals or how much weight it lacks.
    lacks: Vec<i64>,
    // The variables of the atoms that were derived, in this order.
    atoms: Vec<Var>,
    // The bodies that came to lack nothing, in this order.
    bodies: Vec<usize>,
}

// Which variables have no value, with room for those of all atoms.
fn open_atoms(alloc: Global, compiled: &Compiled, values: &Assign) -> Result<Vec<bool>, AllocError>
    requires { length values.now ≡ var_count compiled.now + 1 }
{
    let mut open = vec![in alloc; false]?;
    for i in 0..compiled.atom_count() {
        open.push(values.value(i as u32 + 1).is_none())?;
    }
    Ok(open)
}

// Whether the literal holds before anything is derived.
fn holds_at_first(open: &[bool], lit: Lit) -> bool {
    !lit.truth() && !open.get(lit.var() as usize).copied().unwrap_or(true)
}

// What a body lacks before anything is derived.
fn lack(compiled: &Compiled, open: &[bool], body: usize) -> i64
    requires { body < length (bodies_of compiled.now) }
{
    let weights = compiled.weights(body);
    let bound = compiled.bound(body);
    let mut left = match bound {
        Some(bound) => i64::from(bound),
        None => 0,
    };
    for (place, lit) in compiled.literals(body).iter().enumerate() {
        let holds = holds_at_first(open, *lit);
        if bound.is_none() && !holds {
            left = left.saturating_add(1);
        }
        if bound.is_some() && holds {
            left = left.saturating_sub(weights.get(place).copied().unwrap_or(0));
        }
    }
    left
}

// Counts a literal off in a body, and says whether the body came to lack nothing by that.
fn count_off(compiled: &Compiled, lacks: &mut [i64], body: usize, place: usize) -> bool {
    if body >= compiled.body_count() {
        return false;
    }
    let weight = match compiled.bound(body) {
        Some(_) => compiled.weights(body).get(place).copied().unwrap_or(0),
        None => 1,
    };
    match lacks.get_mut(body) {
        Some(left) => {
            let before = *left;
            *left = before.saturating_sub(weight);
            before > 0 && *left <= 0
        }
        None => false,
    }
}

// Derives the heads of a body that lacks nothing.
fn finish(
    open: &mut [bool],
    atoms: &mut Vec<Var>,
    bodies: &mut Vec<usize>,
    heads: &[Var],
    body: usize,
) -> Result<(), AllocError> {
    bodies.push(body)?;
    for var in heads {
        if let Some(place) = open.get_mut(*var as usize) {
            if *place {
                *place = false;
                atoms.push(*var)?;
            }
        }
    }
    Ok(())
}

impl Derivation {
    fn new(alloc: Global, compiled: &Compiled, values: &Assign) -> Result<Derivation, AllocError>
        requires { length values.now ≡ var_count compiled.now + 1 }
    {
        let open = open_atoms(alloc, compiled, values)?;
        let mut lacks = Vec::with_capacity(alloc, compiled.body_count())?;
        for body in 0..compiled.body_count() {
            lacks.push(lack(compiled, open.as_slice(), body))?;
        }
        Ok(Derivation {
            open,
            lacks,
            atoms: Vec::new(alloc),
            bodies: Vec::new(alloc),
        })
    }

    fn finish(&mut self, compiled: &Compiled, body: usize) -> Result<(), AllocError> {
        if body >= compiled.body_count() {
            return Ok(());
        }
        finish(
            self.open.as_mut_slice(),
            &mut self.atoms,
            &mut self.bodies,
            compiled.heads(body),
            body,
        )
    }

    // The bodies that lack nothing from the start.
    fn begin(&mut self, compiled: &Compiled) -> Result<(), AllocError> {
        for body in 0..compiled.body_count() {
            if self.lacks.get(body).copied().unwrap_or(1) <= 0 {
                self.finish(compiled, body)?;
            }
        }
        Ok(())
    }

    // The bodies that lack nothing any more now that an atom is derived.
    fn follow(&mut self, compiled: &Compiled, var: Var) -> Result<(), AllocError> {
        if var == 0 || var as usize > compiled.atom_count() {
            return Ok(());
        }
        for occurrence in compiled.occurrences(Lit::new(var, true)) {
            let body = occurrence.body as usize;
            if count_off(
                compiled,
                self.lacks.as_mut_slice(),
                body,
                occurrence.place as usize,
            ) {
                self.finish(compiled, body)?;
            }
        }
        Ok(())
    }
}

/// The bodies that come to hold, in an order in which each holds by what those before it derive. The values make the atoms
/// false that are never derived, and no other has a value.
pub(crate) fn order(
    alloc: Global,
    compiled: &Compiled,
    values: &Assign,
) -> Result<Vec<usize>, AllocError>
    requires { length values.now ≡ var_count compiled.now + 1 }
{
    let mut derivation = Derivation::new(alloc, compiled, values)?;
    derivation.begin(compiled)?;
    for next in 0..compiled.atom_count() {
        let Some(var) = derivation.atoms.get(next).copied() else {
            break;
        };
        derivation.follow(compiled, var)?;
    }
    Ok(derivation.bodies)
}
