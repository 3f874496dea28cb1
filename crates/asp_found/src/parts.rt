//! The parts of the check.
ghost use Rattle.std.specs.Prelude.{◌≡◌, suc, ◌<◌, ◌≤◌, ◌-◌, slice_index, ◌||◌, not, All, IsTrue, IfOk, MatchOption, length};
ghost use Rattle.std.specs.List.{list_all, list_any, AllByRecursion};
ghost use Rattle.asp_model.specs.Sets.{has};
ghost use Rattle.asp_model.specs.Views.{head_seen};
ghost use Rattle.asp_model.specs.Models.{rules_in_force, atoms_of, head_atoms};
ghost use Rattle.asp_vars.specs.Literals.{is_true};
ghost use Rattle.asp_vars.specs.Numbering.{values, var_count, form_at, IsReadBy, literal_of_body, literal_of_form, nth_rule, nth_atom};
ghost use Rattle.asp_vars.specs.Completion.{atom_nogood};
ghost use Rattle.asp_vars.specs.declared.nogood.Base.TheVariants as base;
ghost use Rattle.asp_vars.specs.Tabled.{IsBodyNumber, IsLiteral};
ghost use Rattle.asp_found.specs.Verdicts.{is_kept, keeps, is_supported, rule_literals, IsBroken};

use asp_model::interp::Interp;
use asp_model::program::Atom;
use asp_model::view::HeadView;
use asp_vars::compiled::Compiled;
use asp_vars::lit::Lit;
use asp_vars::nogood::{Base, Lits, Nogood};
use asp_vars::support::atom_nogood;
use std::alloc::{AllocError, Global};

// Whether the atom's number is its place, counted from 1, as it is where the program's atoms have no gaps.
fn is_numbered(atoms: &[Atom], atom: Atom) -> bool
    ensures { IsTrue result → (0 < atom) × (atom ≤ length atoms.now) × (slice_index atoms.now (atom - 1) ≡ atom) }
{
    atom > 0 && atom as usize <= atoms.len() && atoms[atom as usize - 1] == atom
}

// Whether the atom is in the set. An atom whose number is its variable needs no search.
fn has_atom(compiled: &Compiled, interp: &Interp, truths: &[bool], atom: Atom) -> bool
    requires { truths.now ≡ values compiled.now interp.now }
    ensures { result ≡ has interp.now atom }
{
    if is_numbered(compiled.atoms().as_slice(), atom) {
        truths[atom as usize]
    } else {
        interp.has(atom)
    }
}

fn is_kept(compiled: &Compiled, interp: &Interp, truths: &[bool], head: HeadView<'_>) -> bool
    requires { truths.now ≡ values compiled.now interp.now }
    ensures { result ≡ is_kept interp.now (head_seen head.entry) }
{
    match head {
        HeadView::One(atom) => has_atom(compiled, interp, truths, atom),
        HeadView::Choice(_) => true,
        HeadView::Never => false,
    }
}

/// Whether the literal holds.
pub(crate) fn is_met(truths: &[bool], lit: Lit) -> bool
    requires { lit.var < length truths.now }
    ensures { result ≡ is_true truths.now lit }
{
    truths[lit.var() as usize] == lit.truth()
}

// The literal that says that a rule's body holds.
fn rule_lit(compiled: &Compiled, rule: usize) -> Lit
    requires { rule < length (rules_in_force compiled.now) }
    ensures lit { result ≡ literal_of_body compiled.now (nth_rule compiled.now rule).body }
    ensures literal { IsLiteral compiled.now result }
{
    compiled.body_lit(compiled.rule_body(rule))
}

// Whether a rule is kept. The head is looked at only where the body holds.
fn keeps(compiled: &Compiled, interp: &Interp, truths: &[bool], rule: usize) -> bool
    requires rule { rule < length (rules_in_force compiled.now) }
    requires truths { truths.now ≡ values compiled.now interp.now }
    requires read { IsReadBy compiled.now interp.now }
    ensures { result ≡ keeps interp.now (nth_rule compiled.now rule) }
{
    let holds = is_met(truths, rule_lit(compiled, rule));
    !holds || is_kept(compiled, interp, truths, compiled.rule(rule).head)
}

fn rule_nogood(
    alloc: Global,
    compiled: &Compiled,
    rule: usize,
    head: HeadView<'_>,
) -> Result<Nogood, AllocError>
    requires rule { rule < length (rules_in_force compiled.now) }
    requires stand { AllByRecursion (λ a. IsTrue (has (atoms_of compiled.now) a)) (head_atoms (head_seen head)) }
    ensures { IfOk result (λ n. n ≡ record { lits = rule_literals compiled.now (literal_of_body compiled.now (nth_rule compiled.now rule).body) (head_seen head.entry); base = base.Pure }) }
{
    let mut lits = Lits::new(alloc);
    lits.push(rule_lit(compiled, rule))?;
    if let HeadView::One(atom) = head {
        lits.push(Lit::new(compiled.atom_var(atom), false))?;
    }
    Ok(Nogood {
        lits,
        base: Base::Pure,
    })
}

/// The nogood of a rule whose body holds and whose head doesn't, if there is one.
pub fn broken_rule(
    alloc: Global,
    compiled: &Compiled,
    interp: &Interp,
    truths: &[bool],
) -> Result<Option<Nogood>, AllocError>
    requires truths { truths.now ≡ values compiled.now interp.now }
    requires read { IsReadBy compiled.now interp.now }
    ensures { IfOk result (λ found. MatchOption found (IsTrue (list_all (keeps interp.now) (rules_in_force compiled.now))) (IsBroken compiled.now interp.now)) }
{
    let _program = compiled.program();
    for i in 0..compiled.rule_count() {
        let kept = keeps(compiled, interp, truths, i);
        if !kept {
            let nogood = rule_nogood(alloc, compiled, i, compiled.rule(i).head)?;
            return Ok(Some(nogood));
        }
    }
    Ok(None)
}

// The nogood that an atom is true and all of its supports are false.
fn unsupported(alloc: Global, compiled: &Compiled, atom: usize) -> Result<Nogood, AllocError>
    requires { atom < length (atoms_of compiled.now) }
    ensures { IfOk result (λ n. n ≡ record { lits = atom_nogood compiled.now (nth_atom compiled.now atom); base = base.Pure }) }
{
    let count = compiled.atom_count();
    prove!(atom < count);
    let lits = atom_nogood(alloc, compiled, atom as u32 + 1)?;
    Ok(Nogood {
        lits,
        base: Base::Pure,
    })
}

// Whether one of the bodies with these numbers holds.
fn any_holds(compiled: &Compiled, truths: &[bool], numbers: &[u32]) -> bool
    requires numbers { All (IsBodyNumber compiled.now) numbers.now }
    requires truths { length truths.now ≡ suc (var_count compiled.now) }
    ensures { result ≡ list_any (λ n. is_true truths.now (literal_of_form compiled.now (form_at compiled.now n))) numbers.now }
{
    for number in numbers {
        if is_met(truths, compiled.body_lit(compiled.body_at(*number))) {
            return true;
        }
    }
    false
}

// Whether the atom at a place, if it is in the set, is in the head of a rule whose body holds.
fn is_reasoned(compiled: &Compiled, interp: &Interp, truths: &[bool], place: usize) -> bool
    requires place { place < length (atoms_of compiled.now) }
    requires truths { truths.now ≡ values compiled.now interp.now }
    requires read { IsReadBy compiled.now interp.now }
    ensures { result ≡ (not (has interp.now (nth_atom compiled.now place)) || is_supported compiled.now interp.now (nth_atom compiled.now place)) }
{
    let _atoms = interp.as_slice();
    let count = compiled.atom_count();
    prove!(place < count);
    let stands = truths[place + 1];
    !stands || any_holds(compiled, truths, compiled.supports(place as u32 + 1))
}

/// The nogood of an atom in the set that no rule supports, if there is one.
pub fn unsupported_atom(
    alloc: Global,
    compiled: &Compiled,
    interp: &Interp,
    truths: &[bool],
) -> Result<Option<Nogood>, AllocError>
    requires truths { truths.now ≡ values compiled.now interp.now }
    requires read { IsReadBy compiled.now interp.now }
    ensures { IfOk result (λ found. MatchOption found (IsTrue (list_all (λ a. not (has interp.now a) || is_supported compiled.now interp.now a) (atoms_of compiled.now))) (IsBroken compiled.now interp.now)) }
{
    let _program = compiled.program();
    for i in 0..compiled.atom_count() {
        let reasoned = is_reasoned(compiled, interp, truths, i);
        if !reasoned {
            let nogood = unsupported(alloc, compiled, i)?;
            return Ok(Some(nogood));
        }
    }
    Ok(None)
}
