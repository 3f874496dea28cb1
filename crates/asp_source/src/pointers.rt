//! Source pointers: for an atom the number of the body of a rule that founds it, or 0 for none.
//!
//! An atom of a component that isn't trivial has a source, or is false, or is queued. A source isn't false, and rests on
//! atoms of its component that don't rest on its head: so a set of atoms with sources always has one whose source is
//! outside of the set. What can take that away is that the body comes to be false, or that a weight body loses weight:
//! then its heads lose it.
ghost use Rattle.std.specs.Prelude.{◌≡◌, ◌+◌, ◌<◌, ◌==◌, ◌≤◌, false, All, length, slice_index, slice_set, if◌then◌else◌};
ghost use Rattle.asp_model.specs.Models.{atoms_of};
ghost use Rattle.asp_vars.specs.Literals.{complement};
ghost use Rattle.asp_vars.specs.Numbering.{bodies_of, var_count};
ghost use Rattle.asp_vars.specs.Tabled.{IsAtomVar, IsLiteral, bodies_with, occurrences_of};
ghost use Rattle.asp_trail.specs.Trails.{IsVar};
ghost use Rattle.asp_scc.specs.Components.{AreComponents};
ghost use Rattle.asp_source.specs.Pointers.{Loses, IsGone, AreGone, IsGoneAt, IsGoneBy, seek, regain};
ghost use Rattle.asp_source.specs.Pointers.{AreNormal};

use crate::bodies::{bodies_with, occurrences};
use crate::queue::Queue;
use asp_scc::components::Components;
use asp_vars::compiled::Compiled;
use asp_vars::lit::{Lit, Var};
use asp_vars::occurrence::Occurrence;

/// Takes an atom's source away if it is this body. Says whether it was.
pub fn lose(sources: &mut [Var], body: Var, var: Var) -> bool
    requires { var < length sources.old }
    ensures lost { result ≡ (slice_index sources.old var == body) }
    ensures sources { sources.new ≡ (if slice_index sources.old var == body then slice_set sources.old var 0 else sources.old) }
{
    if sources[var as usize] != body {
        return false;
    }
    sources[var as usize] = 0;
    true
}

// An atom that loses its source is queued.
fn lose_queued(sources: &mut [Var], queue: &mut Queue, body: Var, var: Var)
    requires var { 0 < var }
    requires sources { var < length sources.old }
    requires queue { length queue.old + 1 ≡ length sources.old }
    requires body { 0 < body }
    ensures loses { Loses sources.old queue.old sources.new queue.new }
    ensures gone { IsGone sources.new body var }
{
    if !lose(sources, body, var) {
        return;
    }
    queue.add(var - 1);
}

// The heads of a body lose it.
fn lose_heads(compiled: &Compiled, sources: &mut [Var], queue: &mut Queue, body: usize)
    requires body { body < length (bodies_of compiled.now) }
    requires sources { length sources.old ≡ length (atoms_of compiled.now) + 1 }
    requires queue { length queue.old ≡ length (atoms_of compiled.now) }
    ensures loses { Loses sources.old queue.old sources.new queue.new }
    ensures gone { AreGone compiled.now sources.new body }
{
    let _vars = compiled.vars();
    let number = compiled.body_number(body);
    for var in compiled.heads(body) {
        lose_queued(sources, queue, number, *var);
    }
}

// The heads of a weight body lose it.
fn lose_weighted(
    compiled: &Compiled,
    sources: &mut [Var],
    queue: &mut Queue,
    occurrence: Occurrence,
)
    requires body { occurrence.body < length (bodies_of compiled.now) }
    requires sources { length sources.old ≡ length (atoms_of compiled.now) + 1 }
    requires queue { length queue.old ≡ length (atoms_of compiled.now) }
    ensures loses { Loses sources.old queue.old sources.new queue.new }
    ensures gone { IsGoneBy compiled.now sources.new occurrence }
{
    let body = occurrence.body as usize;
    if compiled.bound(body).is_some() {
        lose_heads(compiled, sources, queue, body);
    }
}

// The heads of those weight bodies lose them in which the literal's complement stands.
fn lose_all(compiled: &Compiled, sources: &mut [Var], queue: &mut Queue, lit: Lit)
    requires sources { length sources.old ≡ length (atoms_of compiled.now) + 1 }
    requires queue { length queue.old ≡ length (atoms_of compiled.now) }
    requires atom { IsAtomVar compiled.now lit.var }
    ensures loses { Loses sources.old queue.old sources.new queue.new }
    ensures gone { All (IsGoneBy compiled.now sources.new) (occurrences_of compiled.now (complement lit)) }
{
    for occurrence in occurrences(compiled, lit.complement()) {
        lose_weighted(compiled, sources, queue, *occurrence);
    }
}

// The heads of the bodies that come to be false lose them: of those that have the literal's complement.
fn lose_bodies(compiled: &Compiled, sources: &mut [Var], queue: &mut Queue, lit: Lit)
    requires sources { length sources.old ≡ length (atoms_of compiled.now) + 1 }
    requires queue { length queue.old ≡ length (atoms_of compiled.now) }
    requires literal { IsLiteral compiled.now lit }
    ensures loses { Loses sources.old queue.old sources.new queue.new }
    ensures gone { All (IsGoneAt compiled.now sources.new) (bodies_with compiled.now (complement lit)) }
{
    for cell in bodies_with(compiled, lit.complement()) {
        lose_heads(compiled, sources, queue, cell.body as usize);
    }
}

/// What a literal that comes to hold takes away: a false body its heads' source, and a false literal of a weight body
/// too. Where no body is a weight body an atom's literal takes nothing.
pub fn lose_by(
    compiled: &Compiled,
    weighted: bool,
    sources: &mut [Var],
    queue: &mut Queue,
    lit: Lit,
)
    requires weighted { weighted ≡ false → AreNormal compiled.now (length (bodies_of compiled.now)) }
    requires sources { length sources.old ≡ length (atoms_of compiled.now) + 1 }
    requires queue { length queue.old ≡ length (atoms_of compiled.now) }
    requires var { IsVar (var_count compiled.now) lit.var }
    ensures loses { Loses sources.old queue.old sources.new queue.new }
    ensures body { All (IsGoneAt compiled.now sources.new) (bodies_with compiled.now (complement lit)) }
    ensures atom { lit.var ≤ length (atoms_of compiled.now) → All (IsGoneBy compiled.now sources.new) (occurrences_of compiled.now (complement lit)) }
{
    lose_bodies(compiled, sources, queue, lit);
    if !weighted || lit.var() as usize > compiled.atom_count() {
        return;
    }
    lose_all(compiled, sources, queue, lit);
}

/// An atom that was false is queued if it has no source, unless its component is trivial.
pub fn regain(
    compiled: &Compiled,
    components: &Components,
    sources: &[Var],
    queue: &mut Queue,
    lit: Lit,
)
    requires components { AreComponents compiled.now components.now }
    requires sources { length sources.now ≡ length (atoms_of compiled.now) + 1 }
    requires queue { length queue.old ≡ length (atoms_of compiled.now) }
    requires var { IsVar (var_count compiled.now) lit.var }
    ensures { queue.new ≡ regain compiled.now components.now sources.now queue.old lit }
{
    let was_true = lit.truth();
    if was_true {
        return;
    }
    if lit.var() as usize > compiled.atom_count() {
        return;
    }
    seek(components, sources, queue, lit.var());
}

// An atom without a source is queued, unless its component is trivial.
fn seek(components: &Components, sources: &[Var], queue: &mut Queue, var: Var)
    requires var { var < length components.now.numbers }
    requires trivial { slice_index components.now.numbers var < length components.now.trivial }
    requires positive { 0 < var }
    requires sources { var < length sources.now }
    requires queue { length queue.old + 1 ≡ length sources.now }
    ensures { queue.new ≡ seek components.now sources.now queue.old var }
{
    if sources[var as usize] != 0 {
        return;
    }
    if !components.trivial(components.of(var)) {
        queue.add(var - 1);
    }
}
