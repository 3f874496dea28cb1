//! The tables of a program.
ghost use Rattle.std.specs.Prelude.{◌≡◌, IfOk, map};
ghost use Rattle.asp_model.specs.Sound.{IsSound};
ghost use Rattle.asp_vars.specs.Numbering.{bodies_of, var_count, literal_of_form};
ghost use Rattle.asp_vars.specs.Completion.{is_barred};
ghost use Rattle.asp_vars.specs.Tabled.{bound_of, form_literals, form_weights, heads_of, AreSupports, AreOccurrences, AreShared};

use crate::numbered::Numbered;
use asp_model::program::Program;
use asp_table::columns::Occurrence;
use asp_table::table::Table;
use asp_vars::compiled::Compiled;
use asp_vars::lit::{Lit, Var};
use asp_vars::tables::Tables;
use std::alloc::{AllocError, Global};
use std::mem;

// What stands in each body.
#[derive(Drop)]
struct Rows {
    // the bound of its sum; none where all literals have to hold
    bounds: Vec<Option<i32>>,
    // its literals
    literals: Table<Lit>,
    // a weight body's weights, in the order of its literals
    weights: Table<i64>,
}

// Where bodies and literals stand.
#[derive(Drop)]
struct Places {
    // for each body the literal that says that it holds
    held: Vec<Lit>,
    // how many variables there are
    vars: Var,
    // for each body whether a constraint has it
    barred: Vec<bool>,
    // for each body the atoms in heads of its rules
    heads: Table<Var>,
    // for each variable of an atom the numbers of the bodies whose rules have it in their heads
    supports: Table<u32>,
    // for each literal, by its code, the bodies that have it
    shared: Table<Occurrence>,
    // for each literal, by its code, the bodies that it stands in, and where
    occurrences: Table<Occurrence>,
}

fn rows_of(alloc: Global, numbered: &Numbered) -> Result<Rows, AllocError>
    ensures bounds { IfOk result (λ r. r.bounds.items ≡ map bound_of (bodies_of numbered.now)) }
    ensures literals { IfOk result (λ r. r.literals ≡ map (form_literals numbered.now) (bodies_of numbered.now)) }
    ensures weights { IfOk result (λ r. r.weights ≡ map form_weights (bodies_of numbered.now)) }
{
    let bounds = numbered.bounds(alloc)?;
    let literals = numbered.literals(alloc)?;
    let weights = numbered.weights(alloc)?;
    Ok(Rows {
        bounds,
        literals,
        weights,
    })
}

fn places_of(alloc: Global, numbered: &Numbered, rows: &Rows) -> Result<Places, AllocError>
    requires literals { rows.now.literals ≡ map (form_literals numbered.now) (bodies_of numbered.now) }
    ensures held { IfOk result (λ p. p.held.items ≡ map (literal_of_form numbered.now) (bodies_of numbered.now)) }
    ensures vars { IfOk result (λ p. p.vars ≡ var_count numbered.now) }
    ensures barred { IfOk result (λ p. p.barred.items ≡ map (is_barred numbered.now) (bodies_of numbered.now)) }
    ensures heads { IfOk result (λ p. p.heads ≡ map (heads_of numbered.now) (bodies_of numbered.now)) }
    ensures supports { IfOk result (λ p. AreSupports numbered.now p.supports) }
    ensures shared { IfOk result (λ p. AreShared numbered.now p.shared) }
    ensures occurrences { IfOk result (λ p. AreOccurrences numbered.now p.occurrences) }
{
    let barred = numbered.barred(alloc)?;
    let heads = numbered.heads(alloc)?;
    let supports = numbered.supports(alloc, &heads)?;
    let (held, vars) = numbered.held(alloc, &supports)?;
    let shared = numbered.shared(alloc, held.as_slice(), vars)?;
    let occurrences = numbered.occurrences(alloc, &rows.literals)?;
    Ok(Places {
        held,
        vars,
        barred,
        heads,
        supports,
        shared,
        occurrences,
    })
}

fn together(numbered: Numbered, rows: Rows, places: Places) -> Compiled
    requires bounds { rows.bounds.items ≡ map bound_of (bodies_of numbered) }
    requires literals { rows.literals ≡ map (form_literals numbered) (bodies_of numbered) }
    requires weights { rows.weights ≡ map form_weights (bodies_of numbered) }
    requires held { places.held.items ≡ map (literal_of_form numbered) (bodies_of numbered) }
    requires vars { places.vars ≡ var_count numbered }
    requires barred { places.barred.items ≡ map (is_barred numbered) (bodies_of numbered) }
    requires heads { places.heads ≡ map (heads_of numbered) (bodies_of numbered) }
    requires supports { AreSupports numbered places.supports }
    requires shared { AreShared numbered places.shared }
    requires occurrences { AreOccurrences numbered places.occurrences }
    ensures { result ≡ numbered }
{
    let Numbered {
        program,
        opened,
        atoms,
        bodies: _,
        places: rule_bodies,
    } = numbered;
    let Rows {
        bounds,
        literals,
        weights,
    } = rows;
    let Places {
        held,
        vars,
        barred,
        heads,
        supports,
        shared,
        occurrences,
    } = places;
    Compiled::of(Tables {
        program,
        opened,
        atoms,
        vars,
        rule_bodies,
        held,
        barred,
        bounds,
        literals,
        weights,
        heads,
        supports,
        shared,
        occurrences,
    })
}

/// The program with the tables of its variables. The program is moved, not copied.
///
/// Want of memory is the one error. It is also the answer for a program that has 2147483648 rules, or as many atoms and bodies.
pub fn compile(alloc: Global, program: Program) -> Result<Compiled, AllocError>
    requires { IsSound program }
    ensures { IfOk result (λ compiled. compiled ≡ program) }
{
    let numbered = Numbered::of(alloc, program)?;
    match rows_of(alloc, &numbered) {
        Ok(rows) => match places_of(alloc, &numbered, &rows) {
            Ok(places) => Ok(together(numbered, rows, places)),
            Err(error) => {
                mem::drop(rows);
                mem::drop(numbered);
                Err(error)
            }
        },
        Err(error) => {
            mem::drop(numbered);
            Err(error)
        }
    }
}
