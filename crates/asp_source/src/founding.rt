//! Candidates that get a source, and what they found in turn.
//!
//! An atom that is a candidate no longer waits until the bodies were looked at in which it stands: they may found their
//! heads now.
ghost use Rattle.std.specs.Prelude.{◌≡◌, ◌+◌, ◌-◌, ◌<◌, true, false, All, IfNone, IfSome, length, count_by};
ghost use Rattle.std.specs.List.{list_any};
ghost use Rattle.asp_model.specs.Models.{atoms_of};
ghost use Rattle.asp_vars.specs.Completion.{supports};
ghost use Rattle.asp_vars.specs.Numbering.{bodies_of, var_count, nth_atom};
ghost use Rattle.asp_vars.specs.Tabled.{IsAtomVar};
ghost use Rattle.asp_source.specs.Marks.{is_marked, shown, is_founded, is_dropped};
ghost use Rattle.asp_source.specs.Founding.{HaveRoom, Founds, IsFoundBy};

use crate::bodies::{is_firm, occurrences};
use crate::inside::{Candidates, Inside};
use crate::queue::Queue;
use crate::ranks::Ranks;
use asp_vars::assign::Assign;
use asp_vars::compiled::Compiled;
use asp_vars::lit::{Lit, Var};

/// A body of a rule for the atom that founds it from outside of a set.
pub fn find_source<I: Inside>(
    compiled: &Compiled,
    values: &Assign,
    set: &I,
    var: Var,
) -> Option<Var>
    requires var { IsAtomVar compiled.now var }
    requires values { length values.now ≡ var_count compiled.now + 1 }
    requires limit { I.limit set.now ≡ length (atoms_of compiled.now) + 1 }
    ensures none { IfNone result (is_founded compiled.now values.now (shown compiled.now (I.has_var set.now)) (nth_atom compiled.now (var - 1)) ≡ false) }
    ensures some { IfSome result (IsFoundBy compiled.now values.now (I.has_var set.now) var) }
{
    let atoms = compiled.atom_count();
    for body in compiled.supports(var) {
        if is_firm(compiled, values, set, *body as usize - atoms - 1) {
            return Some(*body);
        }
    }
    None
}

/// A candidate that a body founds gets it as its source, is a candidate no longer, and waits. Says whether it was one.
pub fn found_one(
    compiled: &Compiled,
    values: &Assign,
    sources: &mut [Var],
    ranks: &mut Ranks,
    loose: &mut [bool],
    waiting: &mut Queue,
    var: Var,
) -> bool
    requires var { IsAtomVar compiled.now var }
    requires room { HaveRoom compiled.now values.now sources.old ranks.old loose.old waiting.old }
    ensures founds { Founds compiled.now values.now sources.old ranks.old loose.old waiting.old sources.new ranks.new loose.new waiting.new }
    ensures founded { result ≡ is_dropped compiled.now values.now loose.old var }
    ensures same { result ≡ false → loose.new ≡ loose.old }
    ensures fewer { result ≡ true → count_by (λ b. b) loose.new < count_by (λ b. b) loose.old }
{
    if !loose[var as usize] {
        return false;
    }
    let candidates = Candidates { loose };
    let Some(body) = find_source(compiled, values, &candidates, var) else {
        return false;
    };
    sources[var as usize] = body;
    ranks.raise(var);
    loose[var as usize] = false;
    waiting.add(var - 1);
    true
}

// Whether one of these atoms is a candidate.
fn is_some_loose(loose: &[bool], vars: &[Var]) -> bool
    requires { All (λ v. v < length loose.now) vars.now }
    ensures { result ≡ list_any (is_marked loose.now) vars.now }
{
    for var in vars {
        if loose[*var as usize] {
            return true;
        }
    }
    false
}

// Those of these atoms get a source that a body founds.
fn found_each(
    compiled: &Compiled,
    values: &Assign,
    sources: &mut [Var],
    ranks: &mut Ranks,
    loose: &mut [bool],
    waiting: &mut Queue,
    vars: &[Var],
)
    requires vars { All (IsAtomVar compiled.now) vars.now }
    requires room { HaveRoom compiled.now values.now sources.old ranks.old loose.old waiting.old }
    ensures { Founds compiled.now values.now sources.old ranks.old loose.old waiting.old sources.new ranks.new loose.new waiting.new }
{
    for var in vars {
        found_one(compiled, values, sources, ranks, loose, waiting, *var);
    }
}

// Whether a body founds a candidate. It only says where to look: no clause speaks of the answer.
fn is_founding(compiled: &Compiled, values: &Assign, loose: &[bool], body: usize) -> bool
    requires body { body < length (bodies_of compiled.now) }
    requires values { length values.now ≡ var_count compiled.now + 1 }
    requires loose { length loose.now ≡ length (atoms_of compiled.now) + 1 }
{
    is_some_loose(loose, compiled.heads(body))
        && is_firm(compiled, values, &Candidates { loose }, body)
}

// The heads of a body get sources if it founds them.
fn found_heads(
    compiled: &Compiled,
    values: &Assign,
    sources: &mut [Var],
    ranks: &mut Ranks,
    loose: &mut [bool],
    waiting: &mut Queue,
    body: usize,
)
    requires body { body < length (bodies_of compiled.now) }
    requires room { HaveRoom compiled.now values.now sources.old ranks.old loose.old waiting.old }
    ensures { Founds compiled.now values.now sources.old ranks.old loose.old waiting.old sources.new ranks.new loose.new waiting.new }
{
    if !is_founding(compiled, values, loose, body) {
        return;
    }
    found_each(
        compiled,
        values,
        sources,
        ranks,
        loose,
        waiting,
        compiled.heads(body),
    );
}

// Looks at the bodies in which an atom stands.
fn spread_from(
    compiled: &Compiled,
    values: &Assign,
    sources: &mut [Var],
    ranks: &mut Ranks,
    loose: &mut [bool],
    waiting: &mut Queue,
    var: Var,
)
    requires var { IsAtomVar compiled.now var }
    requires room { HaveRoom compiled.now values.now sources.old ranks.old loose.old waiting.old }
    ensures { Founds compiled.now values.now sources.old ranks.old loose.old waiting.old sources.new ranks.new loose.new waiting.new }
{
    let _vars = compiled.vars();
    for occurrence in occurrences(compiled, Lit::new(var, true)) {
        found_heads(
            compiled,
            values,
            sources,
            ranks,
            loose,
            waiting,
            occurrence.body as usize,
        );
    }
}

/// Looks at the bodies in which waiting atoms stand, until none waits.
pub fn spread(
    compiled: &Compiled,
    values: &Assign,
    sources: &mut [Var],
    ranks: &mut Ranks,
    loose: &mut [bool],
    waiting: &mut Queue,
)
    requires { HaveRoom compiled.now values.now sources.old ranks.old loose.old waiting.old }
    ensures { Founds compiled.now values.now sources.old ranks.old loose.old waiting.old sources.new ranks.new loose.new waiting.new }
{
    let _vars = compiled.vars();
    while let Some(place) = waiting.pop() {
        spread_from(compiled, values, sources, ranks, loose, waiting, place + 1);
    }
}
