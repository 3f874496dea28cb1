//! Programs whose atoms and bodies have numbers: what compiling starts from.
ghost use Rattle.std.specs.Prelude.{◌≡◌, ◌+◌, ◌*◌, ◌<◌, ◌^◌, ◌++◌, All, IfOk, length, map};
ghost use Rattle.asp_model.specs.Sound.{IsSound, HasFewItems};
ghost use Rattle.asp_model.specs.Models.{rules_in_force, atoms_of};
ghost use Rattle.asp_model.specs.Opening.{opened_rules};
ghost use Rattle.asp_vars.specs.Numbering.{normal, body_eq, distinct, place_of, bodies_of, var_count, number_count, literal_of_form};
ghost use Rattle.asp_vars.specs.Completion.{is_barred};
ghost use Rattle.asp_compile.specs.Named.{name_var};
ghost use Rattle.asp_vars.specs.Tabled.{bound_of, form_literals, form_weights, heads_of, AreSupports, AreOccurrences, AreShared};

use crate::barred::barred_bodies;
use crate::bodies::Bodies;
use crate::heads::{head_rows, support_rows};
use crate::held::{held, held_codes};
use crate::names::{headed_alone, names};
use crate::rules::number;
use crate::tables::{bounds, code_rows, literal_rows, weight_rows};
use asp_model::interp::Interp;
use asp_model::program::{Program, Rule};
use asp_model::rules::Rules;
use asp_table::columns::{Occurrence, columns};
use asp_table::table::Table;
use asp_vars::lit::{Lit, Var};
use std::alloc::{AllocError, Global};
use std::marker::Model;
use std::mem;

/// How many rules there can be, and how many atoms and bodies together.
const LIMIT: usize = 0x8000_0000;

/// A program, its atoms, its distinct bodies, and the place of each rule's body. Contracts see it as the program.
#[derive(Drop)]
pub struct Numbered {
    /// The program as it was read.
    pub(crate) program: Program,
    /// The rules that externals stand for, which are in force behind those of the program.
    pub(crate) opened: Vec<Rule>,
    /// The program's atoms.
    pub(crate) atoms: Interp,
    /// The distinct bodies of the rules in force.
    pub(crate) bodies: Bodies,
    /// For each rule in force the place of its body among them.
    pub(crate) places: Vec<u32>,
}

impl Model for Numbered {
    ghost use Rattle.asp_model.specs.declared.program.Program.{Program};

    ghost Value = { Program };

    ghost use Rattle.asp_compile.specs.Numbers.{IsNumbered};

    ghost view = { λ n. n.program };

    ghost invariant = { IsNumbered };
}

// The distinct bodies and the place of each rule's body, unless there are too many rules, or atoms and bodies.
fn numbers(
    alloc: Global,
    rules: &Rules,
    opened: &[Rule],
    atoms: &Interp,
) -> Result<(Bodies, Vec<u32>), AllocError>
    requires { All HasFewItems (rules.now ++ opened.now) }
    ensures bodies { IfOk result (λ r. r.0 ≡ distinct (map (λ x. normal x.body) (rules.now ++ opened.now))) }
    ensures places { IfOk result (λ r. r.1.items ≡ map (λ x. place_of (body_eq (normal x.body)) r.0) (rules.now ++ opened.now)) }
    ensures few { IfOk result (λ r. length atoms.now + length r.0 < 2 ^ 31) }
{
    let count = rules.len();
    if LIMIT <= count || LIMIT - count <= opened.len() {
        return Err(AllocError);
    }
    let (bodies, places) = number(alloc, rules, opened)?;
    if LIMIT <= atoms.as_slice().len() + bodies.forms().len() {
        return Err(AllocError);
    }
    Ok((bodies, places))
}

// What the numbers of a program are made of.
#[derive(Drop)]
struct Parts {
    // the rules that externals stand for
    opened: Vec<Rule>,
    // its atoms
    atoms: Interp,
    // the distinct bodies of its rules in force
    bodies: Bodies,
    // for each rule in force the place of its body
    places: Vec<u32>,
}

fn parts_of(alloc: Global, program: &Program) -> Result<Parts, AllocError>
    requires { IsSound program.now }
    ensures few { IfOk result (λ _. number_count program.now < 2 ^ 31) }
    ensures opened { IfOk result (λ parts. parts.opened.items ≡ opened_rules program.now) }
    ensures atoms { IfOk result (λ parts. parts.atoms ≡ atoms_of program.now) }
    ensures bodies { IfOk result (λ parts. parts.bodies ≡ bodies_of program.now) }
    ensures places { IfOk result (λ parts. parts.places.items ≡ map (λ r. place_of (body_eq (normal r.body)) (bodies_of program.now)) (rules_in_force program.now)) }
{
    let opened = program.opened_rules(alloc)?;
    let atoms = program.atoms(alloc)?;
    let (bodies, places) = numbers(alloc, &program.rules, opened.as_slice(), &atoms)?;
    Ok(Parts {
        opened,
        atoms,
        bodies,
        places,
    })
}

impl Numbered {
    /// The program with its numbers. Want of memory is also the answer where it has too many rules, or atoms and bodies.
    pub fn of(alloc: Global, program: Program) -> Result<Numbered, AllocError>
        requires { IsSound program }
        ensures { IfOk result (λ n. n ≡ program) }
    {
        match parts_of(alloc, &program) {
            Ok(parts) => {
                let Parts {
                    opened,
                    atoms,
                    bodies,
                    places,
                } = parts;
                Ok(Numbered {
                    program,
                    opened,
                    atoms,
                    bodies,
                    places,
                })
            }
            Err(error) => {
                mem::drop(program);
                Err(error)
            }
        }
    }

    // For each body the variable of its name, by the bodies that support each atom, and 0 where it has none.
    fn names(&self, alloc: Global, supports: &Table<u32>) -> Result<Vec<Var>, AllocError>
        requires { AreSupports self.now supports.now }
        ensures { IfOk result (λ names. names.items ≡ map (name_var self.now) (bodies_of self.now)) }
    {
        let atoms = self.atoms.as_slice();
        let first = atoms.len() as u32 + 1;
        let count = self.bodies.forms().len();
        let rules = &self.program.rules;
        let opened = self.opened.as_slice();
        let places = self.places.as_slice();
        let headed = headed_alone(alloc, atoms, rules, opened, places.len())?;
        let names = names(alloc, count, first, headed.as_slice(), supports)?;
        Ok(names)
    }

    /// The literal of each body, by the bodies that support each atom, and how many variables there are.
    pub fn held(&self, alloc: Global, supports: &Table<u32>) -> Result<(Vec<Lit>, Var), AllocError>
        requires { AreSupports self.now supports.now }
        ensures lits { IfOk result (λ r. r.0.items ≡ map (literal_of_form self.now) (bodies_of self.now)) }
        ensures vars { IfOk result (λ r. r.1 ≡ var_count self.now) }
    {
        let atoms = self.atoms.as_slice();
        let first = atoms.len() as u32 + 1;
        let names = self.names(alloc, supports)?;
        let (lits, next) = held(alloc, atoms, first, self.bodies.forms(), names.as_slice())?;
        Ok((lits, next - 1))
    }

    /// The bodies of which each literal says that they hold, by the literal of each body and the number of variables.
    pub fn shared(
        &self,
        alloc: Global,
        held: &[Lit],
        vars: Var,
    ) -> Result<Table<Occurrence>, AllocError>
        requires held { held.now ≡ map (literal_of_form self.now) (bodies_of self.now) }
        requires vars { vars ≡ var_count self.now }
        ensures { IfOk result (AreShared self.now) }
    {
        let _ = &self.atoms;
        let codes = held_codes(alloc, held)?;
        let rows = columns(alloc, 2 * vars as usize + 2, &codes)?;
        Ok(rows)
    }

    /// For each body whether a constraint has it.
    pub fn barred(&self, alloc: Global) -> Result<Vec<bool>, AllocError>
        ensures { IfOk result (λ list. list.items ≡ map (is_barred self.now) (bodies_of self.now)) }
    {
        let rules = &self.program.rules;
        let opened = self.opened.as_slice();
        let places = self.places.as_slice();
        let count = self.bodies.forms().len();
        let list = barred_bodies(alloc, count, places, rules, opened)?;
        Ok(list)
    }

    /// The bound of each body.
    pub fn bounds(&self, alloc: Global) -> Result<Vec<Option<i32>>, AllocError>
        ensures { IfOk result (λ list. list.items ≡ map bound_of (bodies_of self.now)) }
    {
        let list = bounds(alloc, self.bodies.forms())?;
        Ok(list)
    }

    /// The literals of each body.
    pub fn literals(&self, alloc: Global) -> Result<Table<Lit>, AllocError>
        ensures { IfOk result (λ rows. rows ≡ map (form_literals self.now) (bodies_of self.now)) }
    {
        let rows = literal_rows(alloc, self.atoms.as_slice(), self.bodies.forms())?;
        Ok(rows)
    }

    /// The weights of each body.
    pub fn weights(&self, alloc: Global) -> Result<Table<i64>, AllocError>
        ensures { IfOk result (λ rows. rows ≡ map form_weights (bodies_of self.now)) }
    {
        let rows = weight_rows(alloc, self.bodies.forms())?;
        Ok(rows)
    }

    /// The variables of the head atoms of each body's rules.
    pub fn heads(&self, alloc: Global) -> Result<Table<Var>, AllocError>
        ensures { IfOk result (λ rows. rows ≡ map (heads_of self.now) (bodies_of self.now)) }
    {
        let rules = &self.program.rules;
        let opened = self.opened.as_slice();
        let places = self.places.as_slice();
        let atoms = self.atoms.as_slice();
        let count = self.bodies.forms().len();
        let rows = head_rows(alloc, atoms, count, places, rules, opened)?;
        Ok(rows)
    }

    /// The numbers of the bodies that support each atom, by the heads of each body.
    pub fn supports(&self, alloc: Global, heads: &Table<Var>) -> Result<Table<u32>, AllocError>
        requires { heads.now ≡ map (heads_of self.now) (bodies_of self.now) }
        ensures { IfOk result (AreSupports self.now) }
    {
        let count = self.atoms.as_slice().len();
        let rows = columns(alloc, count + 1, heads)?;
        let supports = support_rows(alloc, count as u32 + 1, &rows)?;
        Ok(supports)
    }

    /// Where each literal stands, by the literals of each body.
    pub fn occurrences(
        &self,
        alloc: Global,
        literals: &Table<Lit>,
    ) -> Result<Table<Occurrence>, AllocError>
        requires { literals.now ≡ map (form_literals self.now) (bodies_of self.now) }
        ensures { IfOk result (AreOccurrences self.now) }
    {
        let codes = code_rows(alloc, literals)?;
        let rows = columns(alloc, 2 * self.atoms.as_slice().len() + 2, &codes)?;
        Ok(rows)
    }
}
