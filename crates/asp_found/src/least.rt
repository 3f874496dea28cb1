//! The least model of a reduct, in time linear in the program.
//!
//! The bodies that hold in the set are looked at once, in the order of the rules, and derive their heads. Where atoms of
//! the set are then missing, it is counted for each body what it still lacks: literals, or weight. An atom that is derived
//! is counted off in the bodies where it stands, and a body that lacks nothing is looked at again. All this decides when a
//! body is looked at, and nothing more: what is derived is in the least model. Where it is all of the set, that is enough.
//! Else a sweep over all bodies that derives nothing ends the work; with right counts that is the first one.
ghost use Rattle.std.specs.Prelude.{◌≡◌, ◌<◌, ◌≤◌, [], All, IfOk, OnOk, fold, length, IsTrue};
ghost use Rattle.std.specs.List.{list_all};
ghost use Rattle.asp_model.specs.Models.{atoms_of, rules_in_force};
ghost use Rattle.asp_vars.specs.Numbering.{bodies_of, values};
ghost use Rattle.asp_found.specs.Marks.{derive, derive_by};
ghost use Rattle.asp_found.specs.Rests.{rest};
ghost use Rattle.asp_found.specs.Verdicts.{keeps};
ghost use Rattle.asp_found.specs.Derivings.{IsDeriving, AreDerived};

use crate::lacks::count_off;
use crate::marks::{holds, underived};
use asp_model::interp::Interp;
use asp_model::program::Atom;
use asp_vars::compiled::Compiled;
use asp_vars::lit::{Lit, Var};
use asp_vars::occurrence::Occurrence;
use std::alloc::{AllocError, Global};

// Marks an atom of the set, if it isn't marked yet.
fn derive(
    set: &[bool],
    marks: &mut [bool],
    found: &mut Vec<Var>,
    var: Var,
) -> Result<(), AllocError>
    requires set { var < length set.now }
    requires marks { var < length marks.old }
    ensures { OnOk result ((marks.new, found.new.items) ≡ derive set.now (marks.old, found.old.items) var) }
{
    if set[var as usize] && !marks[var as usize] {
        found.push(var)?;
        marks[var as usize] = true;
    }
    Ok(())
}

fn derive_all(
    set: &[bool],
    marks: &mut [bool],
    found: &mut Vec<Var>,
    heads: &[Var],
) -> Result<(), AllocError>
    requires size { length marks.old ≡ length set.now }
    requires heads { All (λ v. v < length set.now) heads.now }
    ensures { OnOk result ((marks.new, found.new.items) ≡ fold (derive set.now) (marks.old, found.old.items) heads.now) }
{
    for var in heads {
        derive(set, marks, found, *var)?;
    }
    Ok(())
}

// Derives the heads of a body that holds.
fn derive_by(
    compiled: &Compiled,
    set: &[bool],
    marks: &mut [bool],
    found: &mut Vec<Var>,
    body: usize,
) -> Result<(), AllocError>
    requires body { body < length (bodies_of compiled.now) }
    requires set { length (atoms_of compiled.now) < length set.now }
    requires marks { length marks.old ≡ length set.now }
    ensures { OnOk result ((marks.new, found.new.items) ≡ derive_by compiled.now set.now (marks.old, found.old.items) body) }
{
    let holds = holds(compiled, set, marks, body);
    if !holds {
        return Ok(());
    }
    derive_all(set, marks, found, compiled.heads(body))
}

// Whether the literal holds, where the set has room for it.
fn may_hold(set: &[bool], lit: Lit) -> bool {
    match set.get(lit.var() as usize) {
        Some(value) => *value == lit.truth(),
        None => true,
    }
}

// What a body lacks before anything is derived. A normal body lacks its positive literals, a weight body what its
// negative literals leave of the bound. A body that doesn't hold in the set never comes to hold.
fn missing(compiled: &Compiled, set: &[bool], body: usize) -> i64
    requires { body < length (bodies_of compiled.now) }
{
    if !may_hold(set, compiled.body_lit(body)) {
        return i64::MAX;
    }
    let lits = compiled.literals(body);
    match compiled.bound(body) {
        Some(bound) => unreached(set, lits, compiled.weights(body), i64::from(bound)),
        None => positive_count(lits),
    }
}

fn positive_count(lits: &[Lit]) -> i64 {
    let mut count: i64 = 0;
    for lit in lits {
        if lit.truth() {
            count = count.saturating_add(1);
        }
    }
    count
}

fn unreached(set: &[bool], lits: &[Lit], weights: &[i64], bound: i64) -> i64 {
    let mut left = bound;
    for (lit, weight) in lits.iter().zip(weights) {
        let fails = set.get(lit.var() as usize).copied().unwrap_or(false);
        if !lit.truth() && !fails {
            left = left.saturating_sub(*weight);
        }
    }
    left
}

// What each body lacks.
fn counts(alloc: Global, compiled: &Compiled, set: &[bool]) -> Result<Vec<i64>, AllocError> {
    let mut counts = Vec::with_capacity(alloc, compiled.body_count())?;
    for body in 0..compiled.body_count() {
        counts.push(missing(compiled, set, body))?;
    }
    Ok(counts)
}

// Counts a literal off in a body, and looks at the body if it came to lack nothing.
fn follow_one(
    compiled: &Compiled,
    set: &[bool],
    marks: &mut [bool],
    found: &mut Vec<Var>,
    counts: &mut [i64],
    occurrence: Occurrence,
) -> Result<(), AllocError>
    requires set { length (atoms_of compiled.now) < length set.now }
    requires sound { IsDeriving compiled.now set.now marks.old found.old.items }
    ensures sound { OnOk result (IsDeriving compiled.now set.now marks.new found.new.items) }
    ensures grows { OnOk result (length found.old.items ≤ length found.new.items) }
{
    let _program = compiled.program();
    let body = occurrence.body as usize;
    let lacks_nothing = count_off(compiled, counts, body, occurrence.place as usize);
    if !lacks_nothing {
        return Ok(());
    }
    derive_by(compiled, set, marks, found, body)
}

// Looks at the bodies that lack nothing any more now that an atom is derived.
fn follow(
    compiled: &Compiled,
    set: &[bool],
    marks: &mut [bool],
    found: &mut Vec<Var>,
    counts: &mut [i64],
    var: Var,
) -> Result<(), AllocError>
    requires set { length (atoms_of compiled.now) < length set.now }
    requires sound { IsDeriving compiled.now set.now marks.old found.old.items }
    ensures sound { OnOk result (IsDeriving compiled.now set.now marks.new found.new.items) }
    ensures grows { OnOk result (length found.old.items ≤ length found.new.items) }
{
    if var == 0 || var as usize > compiled.atom_count() {
        return Ok(());
    }
    for occurrence in compiled.occurrences(Lit::new(var, true)) {
        follow_one(compiled, set, marks, found, counts, *occurrence)?;
    }
    Ok(())
}

// Follows the atoms that were derived from this place on.
fn propagate(
    compiled: &Compiled,
    set: &[bool],
    marks: &mut [bool],
    found: &mut Vec<Var>,
    counts: &mut [i64],
    from: usize,
) -> Result<(), AllocError>
    requires set { length (atoms_of compiled.now) < length set.now }
    requires sound { IsDeriving compiled.now set.now marks.old found.old.items }
    ensures sound { OnOk result (IsDeriving compiled.now set.now marks.new found.new.items) }
    ensures grows { OnOk result (length found.old.items ≤ length found.new.items) }
{
    for next in from..compiled.atom_count() {
        if next >= found.len() {
            break;
        }
        let var = found[next];
        follow(compiled, set, marks, found, counts, var)?;
    }
    Ok(())
}

// Looks at all bodies.
fn sweep(
    compiled: &Compiled,
    set: &[bool],
    marks: &mut [bool],
    found: &mut Vec<Var>,
) -> Result<(), AllocError>
    requires set { length (atoms_of compiled.now) < length set.now }
    requires sound { IsDeriving compiled.now set.now marks.old found.old.items }
    ensures sound { OnOk result (IsDeriving compiled.now set.now marks.new found.new.items) }
    ensures grows { OnOk result (length found.old.items ≤ length found.new.items) }
    ensures closed { OnOk result (length found.new.items ≡ length found.old.items → AreDerived compiled.now set.now marks.new (length (bodies_of compiled.now))) }
{
    let _program = compiled.program();
    for body in 0..compiled.body_count() {
        derive_by(compiled, set, marks, found, body)?;
    }
    Ok(())
}

// Looks at a body that lacks nothing from the start.
fn begin_one(
    compiled: &Compiled,
    set: &[bool],
    marks: &mut [bool],
    found: &mut Vec<Var>,
    counts: &[i64],
    body: usize,
) -> Result<(), AllocError>
    requires body { body < length (bodies_of compiled.now) }
    requires set { length (atoms_of compiled.now) < length set.now }
    requires sound { IsDeriving compiled.now set.now marks.old found.old.items }
    ensures { OnOk result (IsDeriving compiled.now set.now marks.new found.new.items) }
{
    let _program = compiled.program();
    let lacks = counts.get(body).copied().unwrap_or(0) > 0;
    if lacks {
        return Ok(());
    }
    derive_by(compiled, set, marks, found, body)
}

// Looks at the bodies that lack nothing from the start.
fn begin(
    compiled: &Compiled,
    set: &[bool],
    marks: &mut [bool],
    found: &mut Vec<Var>,
    counts: &[i64],
) -> Result<(), AllocError>
    requires set { length (atoms_of compiled.now) < length set.now }
    requires sound { IsDeriving compiled.now set.now marks.old found.old.items }
    ensures { OnOk result (IsDeriving compiled.now set.now marks.new found.new.items) }
{
    for body in 0..compiled.body_count() {
        begin_one(compiled, set, marks, found, counts, body)?;
    }
    Ok(())
}

// Derives what the counts lead to.
fn follow_counts(
    alloc: Global,
    compiled: &Compiled,
    set: &[bool],
    marks: &mut [bool],
    found: &mut Vec<Var>,
) -> Result<(), AllocError>
    requires set { length (atoms_of compiled.now) < length set.now }
    requires sound { IsDeriving compiled.now set.now marks.old found.old.items }
    ensures { OnOk result (IsDeriving compiled.now set.now marks.new found.new.items) }
{
    let mut counts = counts(alloc, compiled, set)?;
    begin(compiled, set, marks, found, counts.as_slice())?;
    propagate(compiled, set, marks, found, counts.as_mut_slice(), 0)
}

// Looks at a body, if it holds in the set.
fn pass_one(
    compiled: &Compiled,
    set: &[bool],
    marks: &mut [bool],
    found: &mut Vec<Var>,
    body: usize,
) -> Result<(), AllocError>
    requires body { body < length (bodies_of compiled.now) }
    requires set { length (atoms_of compiled.now) < length set.now }
    requires sound { IsDeriving compiled.now set.now marks.old found.old.items }
    ensures { OnOk result (IsDeriving compiled.now set.now marks.new found.new.items) }
{
    let _program = compiled.program();
    if !may_hold(set, compiled.body_lit(body)) {
        return Ok(());
    }
    derive_by(compiled, set, marks, found, body)
}

// Looks once at each body that holds in the set, in the order of the rules.
fn pass(
    compiled: &Compiled,
    set: &[bool],
    marks: &mut [bool],
    found: &mut Vec<Var>,
) -> Result<(), AllocError>
    requires set { length (atoms_of compiled.now) < length set.now }
    requires sound { IsDeriving compiled.now set.now marks.old found.old.items }
    ensures { OnOk result (IsDeriving compiled.now set.now marks.new found.new.items) }
{
    for body in 0..compiled.body_count() {
        pass_one(compiled, set, marks, found, body)?;
    }
    Ok(())
}

// One pass, and the counts where it derives fewer atoms than are wanted.
fn derive_wanted(
    alloc: Global,
    compiled: &Compiled,
    set: &[bool],
    marks: &mut [bool],
    found: &mut Vec<Var>,
    wanted: usize,
) -> Result<(), AllocError>
    requires set { length (atoms_of compiled.now) < length set.now }
    requires sound { IsDeriving compiled.now set.now marks.old found.old.items }
    ensures { OnOk result (IsDeriving compiled.now set.now marks.new found.new.items) }
{
    pass(compiled, set, marks, found)?;
    if found.len() >= wanted {
        return Ok(());
    }
    follow_counts(alloc, compiled, set, marks, found)
}

// The marks of what is derived before any sweep.
fn first_marks(
    alloc: Global,
    compiled: &Compiled,
    set: &[bool],
    found: &mut Vec<Var>,
    wanted: usize,
) -> Result<Vec<bool>, AllocError>
    requires set { length (atoms_of compiled.now) < length set.now }
    requires none { found.old.items ≡ [] }
    ensures { IfOk result (λ marks. IsDeriving compiled.now set.now marks.items found.new.items) }
{
    let mut marks = vec![in alloc; false; set.len()]?;
    derive_wanted(alloc, compiled, set, marks.as_mut_slice(), found, wanted)?;
    Ok(marks)
}

// Sweeps until nothing is left to derive.
fn close(
    compiled: &Compiled,
    set: &[bool],
    marks: &mut [bool],
    found: &mut Vec<Var>,
) -> Result<(), AllocError>
    requires set { length (atoms_of compiled.now) < length set.now }
    requires sound { IsDeriving compiled.now set.now marks.old found.old.items }
    ensures sound { OnOk result (IsDeriving compiled.now set.now marks.new found.new.items) }
    ensures closed { OnOk result (AreDerived compiled.now set.now marks.new (length (bodies_of compiled.now))) }
{
    'rounds: loop {
        let before = found.len();
        sweep(compiled, set, marks, found)?;
        if found.len() == before {
            break;
        }
    }
    Ok(())
}

/// What a set that keeps the rules has beyond the least model of its reduct. Where all of the set is derived, no sweep is
/// made.
pub(crate) fn rest(
    alloc: Global,
    compiled: &Compiled,
    interp: &Interp,
    truths: &[bool],
) -> Result<Vec<Atom>, AllocError>
    requires truths { truths.now ≡ values compiled.now interp.now }
    requires kept { IsTrue (list_all (keeps interp.now) (rules_in_force compiled.now)) }
    ensures { IfOk result (λ others. others.items ≡ rest compiled.now interp.now) }
{
    let _program = compiled.program();
    let wanted = interp.as_slice().len();
    let mut found = Vec::with_capacity(alloc, wanted)?;
    let mut marks = first_marks(alloc, compiled, truths, &mut found, wanted)?;
    let others = underived(alloc, compiled, interp, marks.as_slice())?;
    let is_whole = others.as_slice().is_empty();
    if is_whole {
        return Ok(others);
    }
    close(compiled, truths, marks.as_mut_slice(), &mut found)?;
    underived(alloc, compiled, interp, marks.as_slice())
}
