//! The rows of bodies.
ghost use Rattle.std.specs.Prelude.{◌≡◌, ◌<◌, ◌^◌, [], ◌∷◌, ◌++◌, All, IfOk, OnOk, IsTrue, map, length};
ghost use Rattle.std.specs.List.{AllByRecursion};
ghost use Rattle.asp_model.specs.Sets.{IsAscending, has};
ghost use Rattle.asp_model.specs.Holding.{atom_of};
ghost use Rattle.asp_vars.specs.Codes.{code_of};
ghost use Rattle.asp_vars.specs.Numbering.{literal_in};
ghost use Rattle.asp_vars.specs.Tabled.{bound_of, literals_in, form_weights, Stands};
ghost use Rattle.asp_compile.specs.Forms.{body_of};

use crate::form::Form;
use asp_model::program::Atom;
use asp_table::table::Table;
use asp_vars::lit::Lit;
use asp_vars::place::var_in;
use std::alloc::{AllocError, Global};

/// An atom's literal as a literal of its variable.
pub fn lit(atoms: &[Atom], literal: i32) -> Lit
    requires up { IsAscending atoms.now }
    requires few { length atoms.now < 2 ^ 31 }
    requires stands { IsTrue (has atoms.now (atom_of literal)) }
    ensures { result ≡ literal_in atoms.now literal }
{
    Lit::new(var_in(atoms, literal.unsigned_abs()), 0 <= literal)
}

fn add_literals(row: &mut Vec<Lit>, atoms: &[Atom], literals: &[i32]) -> Result<(), AllocError>
    requires up { IsAscending atoms.now }
    requires few { length atoms.now < 2 ^ 31 }
    requires stand { AllByRecursion (λ l. IsTrue (has atoms.now (atom_of l))) literals.now }
    ensures { OnOk result (row.new.items ≡ row.old.items ++ map (literal_in atoms.now) literals.now) }
{
    for literal in literals {
        row.push(lit(atoms, *literal))?;
    }
    Ok(())
}

fn add_items(row: &mut Vec<Lit>, atoms: &[Atom], items: &[(i32, i64)]) -> Result<(), AllocError>
    requires up { IsAscending atoms.now }
    requires few { length atoms.now < 2 ^ 31 }
    requires stand { AllByRecursion (λ i. IsTrue (has atoms.now (atom_of i.0))) items.now }
    ensures { OnOk result (row.new.items ≡ row.old.items ++ map (λ i. literal_in atoms.now i.0) items.now) }
{
    for (literal, _) in items {
        row.push(lit(atoms, *literal))?;
    }
    Ok(())
}

fn literal_row(alloc: Global, atoms: &[Atom], form: &Form) -> Result<Vec<Lit>, AllocError>
    requires up { IsAscending atoms.now }
    requires few { length atoms.now < 2 ^ 31 }
    requires stands { Stands atoms.now (body_of form.now) }
    ensures { IfOk result (λ row. row.items ≡ literals_in atoms.now (body_of form.now)) }
{
    let mut row = Vec::new(alloc);
    match form {
        Form::All(literals) => add_literals(&mut row, atoms, literals.as_slice())?,
        Form::AtLeast(_, items) => add_items(&mut row, atoms, items.as_slice())?,
    }
    Ok(row)
}

/// The literals of each body, as literals of variables.
pub fn literal_rows(alloc: Global, atoms: &[Atom], forms: &[Form]) -> Result<Table<Lit>, AllocError>
    requires up { IsAscending atoms.now }
    requires few { length atoms.now < 2 ^ 31 }
    requires stand { All (λ f. Stands atoms.now (body_of f)) forms.now }
    ensures { IfOk result (λ rows. rows ≡ map (λ f. literals_in atoms.now (body_of f)) forms.now) }
{
    let mut rows = Table::new(alloc)?;
    for form in forms {
        let row = literal_row(alloc, atoms, form)?;
        rows = rows.with_row(row.as_slice())?;
    }
    Ok(rows)
}

fn weight_row(alloc: Global, items: &[(i32, i64)]) -> Result<Vec<i64>, AllocError>
    ensures { IfOk result (λ row. row.items ≡ map (λ i. i.1) items.now) }
{
    items.iter().map(|(_, weight)| *weight).collect(alloc)
}

fn with_weights(alloc: Global, rows: Table<i64>, form: &Form) -> Result<Table<i64>, AllocError>
    ensures { IfOk result (λ more. more ≡ rows ++ form_weights (body_of form.now) ∷ []) }
{
    match form {
        Form::All(_) => rows.with_row(&[]),
        Form::AtLeast(_, items) => {
            let row = weight_row(alloc, items.as_slice())?;
            rows.with_row(row.as_slice())
        }
    }
}

/// The weights of each body.
pub fn weight_rows(alloc: Global, forms: &[Form]) -> Result<Table<i64>, AllocError>
    ensures { IfOk result (λ rows. rows ≡ map (λ f. form_weights (body_of f)) forms.now) }
{
    let mut rows = Table::new(alloc)?;
    for form in forms {
        rows = with_weights(alloc, rows, form)?;
    }
    Ok(rows)
}

fn bound(form: &Form) -> Option<i32>
    ensures { result ≡ bound_of (body_of form.now) }
{
    match form {
        Form::All(_) => None,
        Form::AtLeast(bound, _) => Some(*bound),
    }
}

/// The bound of each body.
pub fn bounds(alloc: Global, forms: &[Form]) -> Result<Vec<Option<i32>>, AllocError>
    ensures { IfOk result (λ bounds. bounds.items ≡ map (λ f. bound_of (body_of f)) forms.now) }
{
    let mut bounds = Vec::new(alloc);
    for form in forms {
        bounds.push(bound(form))?;
    }
    Ok(bounds)
}

fn code_row(alloc: Global, lits: &[Lit]) -> Result<Vec<u32>, AllocError>
    ensures { IfOk result (λ row. row.items ≡ map code_of lits.now) }
{
    let mut row = Vec::new(alloc);
    for lit in lits {
        row.push(lit.code() as u32)?;
    }
    Ok(row)
}

/// The codes of the literals of each row.
pub fn code_rows(alloc: Global, rows: &Table<Lit>) -> Result<Table<u32>, AllocError>
    ensures { IfOk result (λ codes. codes ≡ map (map code_of) rows.now) }
{
    let mut codes = Table::new(alloc)?;
    for row in 0..rows.len() {
        let row = code_row(alloc, rows.row(row))?;
        codes = codes.with_row(row.as_slice())?;
    }
    Ok(codes)
}
