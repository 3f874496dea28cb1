//! The derivation of the true atoms, over marks and counts in memory that is handed in.
//!
//! For each body that holds and has a head in question is counted what it still lacks: positive literals in question, or
//! weight. An atom that is derived is counted off in the bodies where it stands, and a body that lacks nothing is looked
//! at and derives its heads. The counts decide when a body is looked at, and nothing more.
ghost use Rattle.std.specs.Prelude.{◌≡◌, ℕ, suc, ◌<◌, true, All, IsTrue, ◌⊎◌, length, slice_index};
ghost use Rattle.asp_model.specs.Models.{atoms_of};
ghost use Rattle.asp_vars.specs.Literals.{T, holds_in};
ghost use Rattle.asp_vars.specs.Numbering.{bodies_of, var_count};
ghost use Rattle.asp_found.specs.Marks.{is_marked};
ghost use Rattle.asp_stable.specs.Founding.{AreDerived};

use crate::holding::{holds, is_held};
use asp_found::lacks::count_off;
use asp_vars::assign::Assign;
use asp_vars::compiled::Compiled;
use asp_vars::lit::{Lit, Var};
use asp_vars::occurrence::Occurrence;

/// What the derivation of a set's true atoms goes by.
#[derive(Drop)]
pub(crate) struct Derivation<'a> {
    /// The program.
    pub(crate) compiled: &'a Compiled,
    /// The values of its variables under the set.
    pub(crate) assign: &'a Assign,
    /// By variable, whether the atom needs no derivation.
    pub(crate) flat: &'a [bool],
    /// By body, for how many literals a derivation of it waits.
    pub(crate) needs: &'a [i64],
}

// Whether the variable is true.
fn is_true(assign: &Assign, var: Var) -> bool
    requires { var < length assign.now }
    ensures { result ≡ holds_in assign.now (T var) }
{
    assign.value(var).unwrap_or(false)
}

// Marks a true atom, if it isn't marked yet and there is room to remember it.
fn derive(assign: &Assign, marks: &mut [bool], found: &mut Vec<Var>, var: Var)
    requires assign { var < length assign.now }
    requires marks { var < length marks.old }
    ensures { (v : ℕ) → is_marked marks.new v ≡ true → (is_marked marks.old v ≡ true) ⊎ (v ≡ var) }
{
    if marks[var as usize] || !is_true(assign, var) || found.len() >= found.capacity() {
        return;
    }
    found.push_reserved(var);
    marks[var as usize] = true;
}

fn derive_all(assign: &Assign, marks: &mut [bool], found: &mut Vec<Var>, heads: &[Var])
    requires assign { All (λ v. v < length assign.now) heads.now }
    requires marks { All (λ v. v < length marks.old) heads.now }
    ensures { (v : ℕ) → is_marked marks.new v ≡ true → (is_marked marks.old v ≡ true) ⊎ ((k : ℕ) × (k < length heads.now) × (slice_index heads.now k ≡ v)) }
{
    for var in heads {
        derive(assign, marks, found, *var);
    }
}

// Derives the heads of a body that holds by what is derived.
fn derive_by(
    compiled: &Compiled,
    assign: &Assign,
    marks: &mut [bool],
    found: &mut Vec<Var>,
    body: usize,
)
    requires body { body < length (bodies_of compiled.now) }
    requires assign { length (atoms_of compiled.now) < length assign.now }
    requires marks { length (atoms_of compiled.now) < length marks.old }
    requires derived { AreDerived compiled.now assign.now marks.old }
    ensures { AreDerived compiled.now assign.now marks.new }
{
    let _program = compiled.program();
    let holds = holds(compiled, assign, marks, body);
    if !holds {
        return;
    }
    derive_all(assign, marks, found, compiled.heads(body));
}

// What the literals that need no derivation leave of the bound.
fn unreached(assign: &Assign, flat: &[bool], lits: &[Lit], weights: &[i64], bound: i64) -> i64
    requires assign { All (λ l. l.var < length assign.now) lits.now }
    requires flat { All (λ l. l.var < length flat.now) lits.now }
{
    let mut left = bound;
    for i in 0..lits.len() {
        if is_held(assign, flat, lits[i]) {
            left = left.saturating_sub(weights.get(i).copied().unwrap_or(0));
        }
    }
    left
}

// What a body that holds lacks before anything is derived.
fn missing(by: &Derivation, body: usize) -> i64
    requires body { body < length (bodies_of by.now.compiled.now) }
    requires assign { length (atoms_of by.now.compiled.now) < length by.now.assign.now }
    requires flat { length (atoms_of by.now.compiled.now) < length by.now.flat.now }
{
    match by.compiled.bound(body) {
        Some(bound) => unreached(
            by.assign,
            by.flat,
            by.compiled.literals(body),
            by.compiled.weights(body),
            i64::from(bound),
        ),
        None => by.needs.get(body).copied().unwrap_or(0),
    }
}

fn set_count(counts: &mut [i64], body: usize, count: i64) {
    if let Some(place) = counts.get_mut(body) {
        *place = count;
    }
}

// Counts what a body lacks, and looks at it if it holds and lacks nothing.
fn begin_one(
    by: &Derivation,
    marks: &mut [bool],
    found: &mut Vec<Var>,
    lacks: &mut [i64],
    body: usize,
)
    requires assign { length by.now.assign.now ≡ suc (var_count by.now.compiled.now) }
    requires flat { length (atoms_of by.now.compiled.now) < length by.now.flat.now }
    requires marks { length (atoms_of by.now.compiled.now) < length marks.old }
    requires derived { AreDerived by.now.compiled.now by.now.assign.now marks.old }
    ensures { AreDerived by.now.compiled.now by.now.assign.now marks.new }
{
    if body >= by.compiled.body_count() {
        return;
    }
    if !by.assign.holds(by.compiled.body_lit(body)) {
        set_count(lacks, body, 0);
        return;
    }
    let left = missing(by, body);
    set_count(lacks, body, left);
    if left <= 0 {
        derive_by(by.compiled, by.assign, marks, found, body);
    }
}

/// Looks at the bodies that hold and lack nothing from the start.
pub(crate) fn begin(
    by: &Derivation,
    bodies: &[u32],
    marks: &mut [bool],
    found: &mut Vec<Var>,
    lacks: &mut [i64],
)
    requires assign { length by.now.assign.now ≡ suc (var_count by.now.compiled.now) }
    requires flat { length (atoms_of by.now.compiled.now) < length by.now.flat.now }
    requires marks { length (atoms_of by.now.compiled.now) < length marks.old }
    requires derived { AreDerived by.now.compiled.now by.now.assign.now marks.old }
    ensures { AreDerived by.now.compiled.now by.now.assign.now marks.new }
{
    for body in bodies {
        begin_one(by, marks, found, lacks, *body as usize);
    }
}

// Counts a literal off in a body, and looks at the body if it came to lack nothing.
fn follow_one(
    compiled: &Compiled,
    assign: &Assign,
    marks: &mut [bool],
    found: &mut Vec<Var>,
    lacks: &mut [i64],
    occurrence: Occurrence,
)
    requires assign { length assign.now ≡ suc (var_count compiled.now) }
    requires marks { length (atoms_of compiled.now) < length marks.old }
    requires derived { AreDerived compiled.now assign.now marks.old }
    ensures { AreDerived compiled.now assign.now marks.new }
{
    let body = occurrence.body as usize;
    let lacks_nothing = count_off(compiled, lacks, body, occurrence.place as usize);
    if !lacks_nothing {
        return;
    }
    derive_by(compiled, assign, marks, found, body);
}

// Looks at the bodies that lack nothing any more now that an atom is derived.
fn follow(
    compiled: &Compiled,
    assign: &Assign,
    marks: &mut [bool],
    found: &mut Vec<Var>,
    lacks: &mut [i64],
    var: Var,
)
    requires assign { length assign.now ≡ suc (var_count compiled.now) }
    requires marks { length (atoms_of compiled.now) < length marks.old }
    requires derived { AreDerived compiled.now assign.now marks.old }
    ensures { AreDerived compiled.now assign.now marks.new }
{
    if var == 0 || var as usize > compiled.atom_count() {
        return;
    }
    for occurrence in compiled.occurrences(Lit::new(var, true)) {
        follow_one(compiled, assign, marks, found, lacks, *occurrence);
    }
}

/// Follows the atoms that were derived.
pub(crate) fn propagate(
    compiled: &Compiled,
    assign: &Assign,
    marks: &mut [bool],
    found: &mut Vec<Var>,
    lacks: &mut [i64],
)
    requires assign { length assign.now ≡ suc (var_count compiled.now) }
    requires marks { length (atoms_of compiled.now) < length marks.old }
    requires derived { AreDerived compiled.now assign.now marks.old }
    ensures { AreDerived compiled.now assign.now marks.new }
{
    for next in 0..compiled.atom_count() {
        if next >= found.len() {
            break;
        }
        let var = found[next];
        follow(compiled, assign, marks, found, lacks, var);
    }
}

/// Whether those of these atoms that are true are marked.
pub(crate) fn are_marked(assign: &Assign, marks: &[bool], vars: &[Var]) -> bool
    requires assign { All (λ v. v < length assign.now) vars.now }
    requires marks { All (λ v. v < length marks.now) vars.now }
    ensures { IsTrue result → All (λ v. IsTrue (holds_in assign.now (T v)) → is_marked marks.now v ≡ true) vars.now }
{
    for var in vars {
        if is_true(assign, *var) && !marks[*var as usize] {
            return false;
        }
    }
    true
}
