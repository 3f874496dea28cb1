//! The graph of a program's positive dependencies.
ghost use Rattle.std.specs.Prelude.{◌≡◌, ◌≤◌, ◌<◌, ◌++◌, IfOk, All, map, filter};
ghost use Rattle.asp_model.specs.Models.{atoms_of};
ghost use Rattle.asp_vars.specs.Numbering.{bodies_of, number_count};
ghost use Rattle.asp_vars.specs.Completion.{supports};
ghost use Rattle.asp_scc.specs.Dependencies.{positives, graph_of};

use asp_table::table::Table;
use asp_vars::compiled::Compiled;
use asp_vars::lit::{Lit, Var};
use std::alloc::{AllocError, Global};

// The variables of the literals that are positive.
fn positive_vars(alloc: Global, literals: &[Lit]) -> Result<Vec<Var>, AllocError>
    ensures { IfOk result (λ vars. vars.items ≡ map (λ l. l.var) (filter (λ l. l.truth) literals.now)) }
{
    literals
        .iter()
        .filter(|lit| lit.truth())
        .map(|lit| lit.var())
        .collect(alloc)
}

// The rows, and the bodies of each atom's rules.
fn with_atoms(compiled: &Compiled, rows: Table<Var>) -> Result<Table<Var>, AllocError>
    requires { All (All (λ v. v ≤ number_count compiled.now)) rows }
    ensures rows { IfOk result (λ t. t ≡ rows ++ map (supports compiled.now) (atoms_of compiled.now)) }
    ensures within { IfOk result (All (All (λ v. v ≤ number_count compiled.now))) }
{
    let mut rows = rows;
    for atom in 0..compiled.atom_count() {
        rows = rows.with_row(compiled.supports(atom as u32 + 1))?;
    }
    Ok(rows)
}

// The rows, and the positive literals of each body.
fn with_bodies(
    alloc: Global,
    compiled: &Compiled,
    rows: Table<Var>,
) -> Result<Table<Var>, AllocError>
    requires { All (All (λ v. v ≤ number_count compiled.now)) rows }
    ensures rows { IfOk result (λ t. t ≡ rows ++ map (positives compiled.now) (bodies_of compiled.now)) }
    ensures within { IfOk result (All (All (λ v. v ≤ number_count compiled.now))) }
{
    let mut rows = rows;
    for body in 0..compiled.body_count() {
        let vars = positive_vars(alloc, compiled.literals(body))?;
        rows = rows.with_row(vars.as_slice())?;
    }
    Ok(rows)
}

/// From each atom's variable to those of the bodies of its rules, and from each body's to those of its positive
/// literals.
pub fn dependencies(alloc: Global, compiled: &Compiled) -> Result<Table<Var>, AllocError>
    ensures graph { IfOk result (λ g. g ≡ graph_of compiled.now) }
    ensures within { IfOk result (All (All (λ v. v ≤ number_count compiled.now))) }
{
    let none = Vec::new(alloc);
    let rows = Table::new(alloc)?.with_row(none.as_slice())?;
    let rows = with_atoms(compiled, rows)?;
    with_bodies(alloc, compiled, rows)
}
