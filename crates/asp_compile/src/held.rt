//! The literals that say of bodies that they hold.
ghost use Rattle.std.specs.Prelude.{◌≡◌, ◌+◌, ◌<◌, ◌≤◌, ◌^◌, [], ◌∷◌, false, All, IfNone, IfOk, IfSome, IsTrue, length, map};
ghost use Rattle.asp_model.specs.declared.program.Body.TheVariants as body;
ghost use Rattle.asp_model.specs.Sets.{IsAscending};
ghost use Rattle.asp_vars.specs.Codes.{code_of};
ghost use Rattle.asp_compile.specs.Forms.{body_of};
ghost use Rattle.asp_compile.specs.Held.{is_unnamed, literal_for, literals_from, next_var, var_behind};
ghost use Rattle.asp_vars.specs.Numbering.{is_wide};
ghost use Rattle.asp_vars.specs.Tabled.{Stands};

use crate::form::Form;
use crate::tables::lit;
use asp_model::program::Atom;
use asp_table::table::Table;
use asp_vars::lit::{Lit, Var};
use std::alloc::{AllocError, Global};

// The only literal of a body.
fn only(form: &Form) -> Option<i32>
    ensures none { IfNone result (IsTrue (is_wide (body_of form.now))) }
    ensures some { IfSome result (λ literal. body_of form.now ≡ body.All (literal ∷ [])) }
{
    let Form::All(literals) = form else {
        return None;
    };
    let literals = literals.as_slice();
    if literals.len() != 1 {
        return None;
    }
    Some(literals[0])
}

// The variable of a body's name, if it is a normal one that has a name.
fn name_of(form: &Form, name: Var) -> Option<Var>
    ensures none { IfNone result (IsTrue (is_unnamed (body_of form.now) name)) }
    ensures some { IfSome result (λ var. var ≡ name) }
    ensures named { IfSome result (λ _. is_unnamed (body_of form.now) name ≡ false) }
{
    match form {
        Form::All(_) if name != 0 => Some(name),
        _ => None,
    }
}

// The literal of a body, and the number of the next variable.
fn held_by(atoms: &[Atom], next: Var, form: &Form, name: Var) -> (Lit, Var)
    requires up { IsAscending atoms.now }
    requires few { length atoms.now < 2 ^ 31 }
    requires next { next < 2 ^ 31 }
    requires name { name < 2 ^ 31 }
    requires stands { Stands atoms.now (body_of form.now) }
    ensures lit { result.0 ≡ literal_for atoms.now next (body_of form.now) name }
    ensures next { result.1 ≡ next_var next (body_of form.now) name }
{
    if let Some(literal) = only(form) {
        return (lit(atoms, literal), next);
    }
    match name_of(form, name) {
        Some(var) => (Lit::new(var, true), next),
        None => (Lit::new(next, true), next + 1),
    }
}

/// The literals of the bodies, where the first variable has this number, and the number behind the last variable. A body's name
/// is the variable of an atom, or 0 where it has none.
pub fn held(
    alloc: Global,
    atoms: &[Atom],
    first: Var,
    forms: &[Form],
    names: &[Var],
) -> Result<(Vec<Lit>, Var), AllocError>
    requires up { IsAscending atoms.now }
    requires atoms { length atoms.now < 2 ^ 31 }
    requires few { first + length forms.now ≤ 2 ^ 31 }
    requires stand { All (λ f. Stands atoms.now (body_of f)) forms.now }
    requires names { length names.now ≡ length forms.now }
    requires small { All (λ n. n < 2 ^ 31) names.now }
    ensures lits { IfOk result (λ r. r.0.items ≡ literals_from atoms.now first (map body_of forms.now) names.now) }
    ensures next { IfOk result (λ r. r.1 ≡ var_behind first (map body_of forms.now) names.now) }
{
    let mut lits = Vec::new(alloc);
    let mut next = first;
    for (i, form) in forms.iter().enumerate() {
        let (lit, behind) = held_by(atoms, next, form, names[i]);
        lits.push(lit)?;
        next = behind;
    }
    Ok((lits, next))
}

/// A row for each literal: its code alone.
pub fn held_codes(alloc: Global, held: &[Lit]) -> Result<Table<u32>, AllocError>
    ensures { IfOk result (λ rows. rows ≡ map (λ l. code_of l ∷ []) held.now) }
{
    let mut rows = Table::new(alloc)?;
    for lit in held {
        let code = [lit.code() as u32];
        rows = rows.with_row(code.as_slice())?;
    }
    Ok(rows)
}
