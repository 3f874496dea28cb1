//! The atoms by which bodies are known.
ghost use Rattle.std.specs.Prelude.{◌≡◌, ℕ, ◌+◌, ◌==◌, ◌<◌, ◌≤◌, ◌^◌, ◌++◌, ◌&&◌, ◌||◌, [], false, All, IfOk, IsTrue, length, if◌then◌else◌, slice_index_or};
ghost use Rattle.std.specs.List.{AllByRecursion};
ghost use Rattle.asp_model.specs.Models.{head_atoms};
ghost use Rattle.asp_model.specs.Sets.{IsAscending, has};
ghost use Rattle.asp_model.specs.Views.{head_seen};
ghost use Rattle.asp_compile.specs.Headed.{HeadsStand};
ghost use Rattle.asp_compile.specs.Named.{is_at, is_only, AreHeadedAlone, AreNames};

use asp_model::program::{Atom, Rule};
use asp_model::rules::Rules;
use asp_model::view::HeadView;
use asp_table::table::Table;
use asp_vars::lit::Var;
use asp_vars::place::var_in;
use asp_vars::rules::rule_at;
use std::alloc::{AllocError, Global};

// Marks the rule's head, if it is one atom.
fn mark(marks: &mut Vec<bool>, atoms: &[Atom], head: HeadView<'_>)
    requires up { IsAscending atoms.now }
    requires few { length atoms.now < 2 ^ 31 }
    requires stand { AllByRecursion (λ a. IsTrue (has atoms.now a)) (head_atoms (head_seen head)) }
    requires whole { length marks.old.items ≡ length atoms.now + 1 }
    ensures whole { length marks.new.items ≡ length marks.old.items }
    ensures each { (v : ℕ) → slice_index_or marks.new.items v false ≡ (slice_index_or marks.old.items v false || is_at atoms.now v (head_seen head.entry)) }
{
    if let HeadView::One(atom) = head {
        marks[var_in(atoms, atom) as usize] = true;
    }
}

/// For each variable of an atom whether a rule has the atom as its head.
pub fn headed_alone(
    alloc: Global,
    atoms: &[Atom],
    rules: &Rules,
    opened: &[Rule],
    count: usize,
) -> Result<Vec<bool>, AllocError>
    requires up { IsAscending atoms.now }
    requires few { length atoms.now < 2 ^ 31 }
    requires count { count ≡ length rules.now + length opened.now }
    requires stand { HeadsStand atoms.now (rules.now ++ opened.now) }
    ensures { IfOk result (λ marks. AreHeadedAlone marks.items atoms.now (rules.now ++ opened.now)) }
{
    let mut marks = vec![in alloc; false; atoms.len() + 1]?;
    for i in 0..count {
        let rule = rule_at(rules, opened, i);
        mark(&mut marks, atoms, rule.head);
    }
    Ok(marks)
}

// Gives a variable as the name to the one body that supports its atom, if a rule has the atom as its head and the body has no name yet.
fn name(names: &mut Vec<Var>, first: u32, headed: bool, numbers: &[u32], var: Var)
    requires { All (λ n. (first ≤ n) × (n < first + length names.old.items)) numbers.now }
    ensures whole { length names.new.items ≡ length names.old.items }
    ensures each { (j : ℕ) → j < length names.old.items →
        slice_index_or names.new.items j 0 ≡ (if slice_index_or names.old.items j 0 == 0 && (headed && is_only (first + j) numbers.now) then var else slice_index_or names.old.items j 0) }
{
    if !headed || numbers.len() != 1 {
        return;
    }
    let body = (numbers[0] - first) as usize;
    if names[body] == 0 {
        names[body] = var;
    }
}

/// For each body the variable of the first atom that it defines, and 0 where it defines none. The first body has this number.
pub fn names(
    alloc: Global,
    count: usize,
    first: u32,
    headed: &[bool],
    supports: &Table<u32>,
) -> Result<Vec<Var>, AllocError>
    requires first { 0 < first }
    requires headed { length headed.now ≡ first }
    requires rows { length supports.now ≡ first }
    requires numbers { (v : ℕ) → 0 < v → v < first → All (λ n. (first ≤ n) × (n < first + count)) (slice_index_or supports.now v []) }
    ensures { IfOk result (λ names. AreNames names.items count first headed.now supports.now) }
{
    let mut names = vec![in alloc; 0; count]?;
    for var in 1..first {
        name(
            &mut names,
            first,
            headed[var as usize],
            supports.row(var as usize),
            var,
        );
    }
    Ok(names)
}
