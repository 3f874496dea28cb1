//! The completion as a list of nogoods, or a part of it after another.
ghost use Rattle.std.specs.Prelude.{◌≡◌, ◌+◌, ◌<◌, ◌^◌, [], ◌∷◌, ◌++◌, IfOk, OnOk, map, length, slice_index_or, ◌≤◌};
ghost use Rattle.asp_model.specs.Models.{atoms_of, rules_in_force};
ghost use Rattle.asp_vars.specs.Literals.{complement, has_literal};
ghost use Rattle.asp_vars.specs.Numbering.{bodies_of, nth_atom, nth_body, nth_rule};
ghost use Rattle.asp_vars.specs.Entailment.{Entailed};
ghost use Rattle.asp_vars.specs.Completion.{atom_nogoods, body_nogoods, completion, rule_nogoods};
ghost use Rattle.asp_complete.specs.Listed.{groups, nogoods_between, nogoods_of_head, nogoods_of_rule, pure, parts, unless_it_has};
ghost use Rattle.std.specs.Prelude.{IsTrue};
ghost use Rattle.std.specs.List.{AllByRecursion};
ghost use Rattle.asp_model.specs.Sets.{has};
ghost use Rattle.asp_model.specs.Models.{head_atoms};
ghost use Rattle.asp_model.specs.Views.{head_seen};

use asp_model::view::HeadView;
use asp_vars::compiled::Compiled;
use asp_vars::lit::{Lit, Var};
use asp_vars::nogood::{Base, Lits, Nogood};
use asp_vars::support::atom_nogood;
use std::alloc::{AllocError, Global};

fn push(nogoods: &mut Vec<Nogood>, lits: Lits) -> Result<(), AllocError>
    ensures { OnOk result (nogoods.new.items ≡ nogoods.old.items ++ pure lits ∷ []) }
{
    nogoods.push(Nogood {
        lits,
        base: Base::Pure,
    })?;
    Ok(())
}

// A literal that is true where these are, and only there.
fn add_parts(
    alloc: Global,
    nogoods: &mut Vec<Nogood>,
    body: Lit,
    literals: &[Lit],
) -> Result<(), AllocError>
    ensures { OnOk result (nogoods.new.items ≡ nogoods.old.items ++ parts body literals.now) }
{
    for literal in literals {
        let other = [literal.complement()];
        push(nogoods, Lits::with_first(alloc, body, other.as_slice())?)?;
    }
    Ok(())
}

fn add_body(
    alloc: Global,
    nogoods: &mut Vec<Nogood>,
    body: Lit,
    literals: &[Lit],
) -> Result<(), AllocError>
    ensures { OnOk result (nogoods.new.items ≡ nogoods.old.items ++ pure (complement body ∷ literals.now) ∷ parts body literals.now) }
{
    push(
        nogoods,
        Lits::with_first(alloc, body.complement(), literals)?,
    )?;
    add_parts(alloc, nogoods, body, literals)
}

// The literals alone: a nogood of a body that a constraint has.
fn add_barred(alloc: Global, nogoods: &mut Vec<Nogood>, literals: &[Lit]) -> Result<(), AllocError>
    ensures { OnOk result (nogoods.new.items ≡ nogoods.old.items ++ pure literals.now ∷ []) }
{
    push(nogoods, Lits::from_slice(alloc, literals)?)
}

fn add_body_at(
    alloc: Global,
    nogoods: &mut Vec<Nogood>,
    compiled: &Compiled,
    body: usize,
) -> Result<(), AllocError>
    requires { body < length (bodies_of compiled.now) }
    ensures { OnOk result (nogoods.new.items ≡ nogoods.old.items ++ map pure (body_nogoods compiled.now (nth_body compiled.now body))) }
{
    if compiled.bound(body).is_some() {
        return Ok(());
    }
    let literals = compiled.literals(body);
    if !compiled.is_wide(body) {
        return Ok(());
    }
    if compiled.is_barred(body) {
        return add_barred(alloc, nogoods, literals);
    }
    add_body(alloc, nogoods, compiled.body_lit(body), literals)?;
    Ok(())
}

fn add_one(alloc: Global, nogoods: &mut Vec<Nogood>, lit: Lit) -> Result<(), AllocError>
    ensures { OnOk result (nogoods.new.items ≡ nogoods.old.items ++ pure (lit ∷ []) ∷ []) }
{
    let mut lits = Lits::new(alloc);
    lits.push(lit)?;
    push(nogoods, lits)
}

// That a head is true where the body is, unless it is the body's name.
fn add_head(
    alloc: Global,
    nogoods: &mut Vec<Nogood>,
    body: Lit,
    head: Var,
) -> Result<(), AllocError>
    requires { head < 2 ^ 31 }
    ensures { OnOk result (nogoods.new.items ≡ nogoods.old.items ++ map pure (nogoods_of_head body head)) }
{
    let other = Lit::new(head, false);
    if body == other.complement() {
        return Ok(());
    }
    let others = [other];
    push(nogoods, Lits::with_first(alloc, body, others.as_slice())?)
}

fn add_rule(
    alloc: Global,
    nogoods: &mut Vec<Nogood>,
    compiled: &Compiled,
    body: Lit,
    head: HeadView<'_>,
) -> Result<(), AllocError>
    requires { AllByRecursion (λ a. IsTrue (has (atoms_of compiled.now) a)) (head_atoms (head_seen head)) }
    ensures { OnOk result (nogoods.new.items ≡ nogoods.old.items ++ map pure (rule_nogoods compiled.now body (head_seen head.entry))) }
{
    match head {
        HeadView::One(atom) => add_head(alloc, nogoods, body, compiled.atom_var(atom)),
        HeadView::Choice(_) => Ok(()),
        HeadView::Never => add_one(alloc, nogoods, body),
    }
}

fn add_rule_at(
    alloc: Global,
    nogoods: &mut Vec<Nogood>,
    compiled: &Compiled,
    rule: usize,
) -> Result<(), AllocError>
    requires { rule < length (rules_in_force compiled.now) }
    ensures { OnOk result (nogoods.new.items ≡ nogoods.old.items ++ map pure (nogoods_of_rule compiled.now (nth_rule compiled.now rule))) }
{
    let body = compiled.body_lit(compiled.rule_body(rule));
    let rule = compiled.rule(rule);
    add_rule(alloc, nogoods, compiled, body, rule.head)
}

// Whether the literal stands in the list.
fn has_literal(lits: &[Lit], wanted: Lit) -> bool
    ensures { result ≡ has_literal lits.now wanted }
{
    lits.iter().any(|lit| *lit == wanted)
}

// Adds the nogood, unless it has the literal.
fn add_unless_it_has(nogoods: &mut Vec<Nogood>, lit: Lit, lits: Lits) -> Result<(), AllocError>
    ensures { OnOk result (nogoods.new.items ≡ nogoods.old.items ++ map pure (unless_it_has lit lits)) }
{
    if has_literal(lits.as_slice(), lit) {
        return Ok(());
    }
    push(nogoods, lits)
}

// That a true atom has a true body, unless it is one of its bodies.
fn add_atom(
    alloc: Global,
    nogoods: &mut Vec<Nogood>,
    compiled: &Compiled,
    atom: usize,
) -> Result<(), AllocError>
    requires { atom < length (atoms_of compiled.now) }
    ensures { OnOk result (nogoods.new.items ≡ nogoods.old.items ++ map pure (atom_nogoods compiled.now (nth_atom compiled.now atom))) }
{
    let _count = compiled.atom_count();
    let var = atom as u32 + 1;
    let lits = atom_nogood(alloc, compiled, var)?;
    add_unless_it_has(nogoods, Lit::new(var, false), lits)
}

// Adds a group's nogoods.
fn add_group(
    alloc: Global,
    nogoods: &mut Vec<Nogood>,
    compiled: &Compiled,
    group: usize,
) -> Result<(), AllocError>
    requires { group < length (groups compiled.now) }
    ensures { OnOk result (nogoods.new.items ≡ nogoods.old.items ++ map pure (slice_index_or (groups compiled.now) group [])) }
{
    let bodies = compiled.body_count();
    if group < bodies {
        return add_body_at(alloc, nogoods, compiled, group);
    }
    let rules = compiled.rule_count();
    let behind = group - bodies;
    if behind < rules {
        return add_rule_at(alloc, nogoods, compiled, behind);
    }
    let _count = compiled.atom_count();
    add_atom(alloc, nogoods, compiled, behind - rules)
}

/// How many groups of nogoods the completion has: one for each body, rule and atom. Where there are too many to be counted, memory
/// is wanting.
pub fn group_count(compiled: &Compiled) -> Result<usize, AllocError>
    ensures { IfOk result (λ count. count ≡ length (groups compiled.now)) }
{
    let vars = compiled.body_count() + compiled.atom_count();
    match vars.checked_add(compiled.rule_count()) {
        Some(count) => Ok(count),
        None => Err(AllocError),
    }
}

/// The nogoods of the groups from one to before another. Each has the base `Pure`.
pub fn completion_part(
    alloc: Global,
    compiled: &Compiled,
    from: usize,
    to: usize,
) -> Result<Vec<Nogood>, AllocError>
    requires from { from ≤ to }
    requires to { to ≤ length (groups compiled.now) }
    ensures { IfOk result (λ nogoods. nogoods.items ≡ map pure (nogoods_between compiled.now from to)) }
{
    let mut nogoods = Vec::new(alloc);
    for group in from..to {
        add_group(alloc, &mut nogoods, compiled, group)?;
    }
    Ok(nogoods)
}

fn listed(alloc: Global, compiled: &Compiled) -> Result<Vec<Nogood>, AllocError>
    ensures { IfOk result (λ nogoods. nogoods.items ≡ map pure (completion compiled.now)) }
{
    let count = group_count(compiled)?;
    let nogoods = completion_part(alloc, compiled, 0, count)?;
    Ok(nogoods)
}

/// The nogoods of the completion, in their order. Each has the base `Pure`, and no stable model hits it.
pub fn completion(alloc: Global, compiled: &Compiled) -> Result<Vec<Nogood>, AllocError>
    ensures list { IfOk result (λ nogoods. nogoods.items ≡ map pure (completion compiled.now)) }
    ensures entailed { IfOk result (λ nogoods. AllByRecursion (λ n. Entailed compiled.now n.lits) nogoods.items) }
{
    let _program = compiled.program();
    let nogoods = listed(alloc, compiled)?;
    Ok(nogoods)
}
