//! Programs with variables for their atoms and bodies.
ghost use Rattle.std.specs.Prelude.{◌≡◌, ◌+◌, ◌-◌, ◌<◌, ◌^◌, All, IsTrue, length};
ghost use Rattle.asp_model.specs.Sound.{IsSound};
ghost use Rattle.asp_model.specs.Models.{rules_in_force, atoms_of};
ghost use Rattle.asp_model.specs.Sets.{has};
ghost use Rattle.asp_model.specs.Views.{rule_seen};
ghost use Rattle.asp_vars.specs.Numbering.{bodies_of, var_count, var_of_atom, literal_of_form, place_of_body, number_of_form, number_count, is_wide, is_apart, form_at, nth_body, nth_rule, nth_atom};
ghost use Rattle.asp_vars.specs.Completion.{is_barred, supports};
ghost use Rattle.asp_vars.specs.Tabled.{bound_of, form_literals, form_weights, heads_of, occurrences_of, find_var, find_atom, IsAtomVar, IsBodyNumber, IsLiteral, bodies_with};
ghost use Rattle.asp_vars.specs.Tables.{IsTabled};

use crate::lit::{Lit, Var};
use crate::occurrence::Occurrence;
use crate::place::place;
use crate::rules::rule_at;
use crate::tables::Tables;
use asp_model::interp::Interp;
use asp_model::program::{Atom, Program};
use asp_model::view::RuleView;
use std::marker::Model;

/// A program with the tables of its variables. Contracts see it as the program, of which each table is a function.
///
/// Its atoms, ascending, are the variables from 1 on; those distinct bodies of its rules in force that aren't one literal and define
/// no atom follow them, in the order of their first occurrence. Bodies and rules are counted from 0.
#[derive(Drop)]
pub struct Compiled {
    /// The program and what it was compiled to.
    tables: Tables,
}

impl Model for Compiled {
    ghost use Rattle.asp_model.specs.declared.program.Program.{Program};

    ghost Value = { Program };

    ghost use Rattle.asp_vars.specs.Tables.{IsTabled};

    ghost view = { λ c. c.tables.program };

    ghost invariant = { λ c. IsTabled c.tables };
}

impl Compiled {
    /// The program that these tables are of.
    pub fn of(tables: Tables) -> Compiled
        requires { IsTabled tables }
        ensures { result ≡ tables.program }
    {
        Compiled { tables }
    }

    /// The program.
    pub fn program(&self) -> &Program
        ensures program { result.now ≡ self.now }
        ensures sound { IsSound self.now }
    {
        &self.tables.program
    }

    /// How many rules are in force: those of the program, and then those of its externals.
    pub fn rule_count(&self) -> usize
        ensures { result ≡ length (rules_in_force self.now) }
    {
        self.tables.rule_bodies.len()
    }

    /// A rule in force.
    pub fn rule(&self, rule: usize) -> RuleView<'_>
        requires { rule < length (rules_in_force self.now) }
        ensures { rule_seen result ≡ nth_rule self.now rule }
    {
        let _ = &self.tables.opened;
        rule_at(
            &self.tables.program.rules,
            self.tables.opened.as_slice(),
            rule,
        )
    }

    /// A rule's body.
    pub fn rule_body(&self, rule: usize) -> usize
        requires { rule < length (rules_in_force self.now) }
        ensures place { result ≡ place_of_body self.now (nth_rule self.now rule).body }
        ensures body { result < length (bodies_of self.now) }
    {
        self.tables.rule_bodies[rule] as usize
    }

    /// The atoms that stand in the program.
    pub fn atoms(&self) -> &Interp
        ensures { result.now ≡ atoms_of self.now }
    {
        &self.tables.atoms
    }

    /// How many atoms stand in the program.
    pub fn atom_count(&self) -> usize
        ensures count { result ≡ length (atoms_of self.now) }
        ensures few { var_count self.now < 2 ^ 31 }
        ensures numbers { number_count self.now < 2 ^ 31 }
    {
        self.tables.atoms.as_slice().len()
    }

    /// How many different bodies the rules in force have.
    pub fn body_count(&self) -> usize
        ensures count { result ≡ length (bodies_of self.now) }
        ensures few { var_count self.now < 2 ^ 31 }
        ensures numbers { number_count self.now < 2 ^ 31 }
    {
        self.tables.bounds.len()
    }

    /// How many variables there are. They are the numbers from 1 to this one.
    pub fn vars(&self) -> Var
        ensures count { result ≡ var_count self.now }
        ensures few { var_count self.now < 2 ^ 31 }
    {
        self.tables.vars
    }

    /// The variable of an atom, if it stands in the program.
    pub fn var(&self, atom: Atom) -> Option<Var>
        ensures { result ≡ find_var self.now atom }
    {
        let _ = &self.tables.opened;
        place(self.tables.atoms.as_slice(), atom)
    }

    /// The variable of an atom that stands in the program.
    pub fn atom_var(&self, atom: Atom) -> Var
        requires { IsTrue (has (atoms_of self.now) atom) }
        ensures var { result ≡ var_of_atom self.now atom }
        ensures atom { IsAtomVar self.now result }
        ensures few { var_count self.now < 2 ^ 31 }
    {
        let _ = &self.tables.opened;
        match self.var(atom) {
            Some(var) => var,
            None => unreachable!(),
        }
    }

    /// The atom of a variable, if it is an atom's.
    pub fn atom(&self, var: Var) -> Option<Atom>
        ensures { result ≡ find_atom self.now var }
    {
        let atoms = self.tables.atoms.as_slice();
        if var == 0 {
            return None;
        }
        atoms.get(var as usize - 1).copied()
    }

    /// The number of a body. The bodies are numbered behind the atoms' variables.
    pub fn body_number(&self, body: usize) -> u32
        requires { body < length (bodies_of self.now) }
        ensures number { result ≡ number_of_form self.now (nth_body self.now body) }
        ensures sum { result ≡ length (atoms_of self.now) + body + 1 }
        ensures body { IsBodyNumber self.now result }
        ensures numbers { number_count self.now < 2 ^ 31 }
    {
        (self.atom_count() + body + 1) as u32
    }

    /// The body with a number.
    pub fn body_at(&self, number: u32) -> usize
        requires { IsBodyNumber self.now number }
        ensures body { result < length (bodies_of self.now) }
        ensures form { nth_body self.now result ≡ form_at self.now number }
    {
        number as usize - self.atom_count() - 1
    }

    /// The literal that says that a body holds: that its variable or its name's is true, or the body's one literal.
    pub fn body_lit(&self, body: usize) -> Lit
        requires { body < length (bodies_of self.now) }
        ensures lit { result ≡ literal_of_form self.now (nth_body self.now body) }
        ensures literal { IsLiteral self.now result }
        ensures few { var_count self.now < 2 ^ 31 }
    {
        self.tables.held[body]
    }

    /// Whether a body isn't one literal.
    pub fn is_wide(&self, body: usize) -> bool
        requires { body < length (bodies_of self.now) }
        ensures { result ≡ is_wide (nth_body self.now body) }
    {
        self.bound(body).is_some() || self.literals(body).len() != 1
    }

    /// Whether a body has a variable of its own: one of a single literal hasn't, nor one that has a name.
    pub fn is_apart(&self, body: usize) -> bool
        requires { body < length (bodies_of self.now) }
        ensures { result ≡ is_apart self.now (nth_body self.now body) }
    {
        self.body_lit(body).var() as usize > self.atom_count()
    }

    /// The bodies of which the literal says that they hold, ascending.
    pub fn bodies_with(&self, lit: Lit) -> &[Occurrence]
        requires { IsLiteral self.now lit }
        ensures { result.now ≡ bodies_with self.now lit }
    {
        self.tables.shared.row(lit.code())
    }

    /// Whether a constraint has the body, which then holds in no stable model.
    pub fn is_barred(&self, body: usize) -> bool
        requires { body < length (bodies_of self.now) }
        ensures { result ≡ is_barred self.now (nth_body self.now body) }
    {
        self.tables.barred[body]
    }

    /// The bound of a weight body, and none of a normal one.
    pub fn bound(&self, body: usize) -> Option<i32>
        requires { body < length (bodies_of self.now) }
        ensures { result ≡ bound_of (nth_body self.now body) }
    {
        self.tables.bounds[body]
    }

    /// The literals of a body. Each stands once.
    pub fn literals(&self, body: usize) -> &[Lit]
        requires { body < length (bodies_of self.now) }
        ensures literals { result.now ≡ form_literals self.now (nth_body self.now body) }
        ensures atoms { All (λ l. IsAtomVar self.now l.var) result.now }
    {
        self.tables.literals.row(body)
    }

    /// The weights of a weight body's literals, at their places; of a normal body none.
    pub fn weights(&self, body: usize) -> &[i64]
        requires { body < length (bodies_of self.now) }
        ensures { result.now ≡ form_weights (nth_body self.now body) }
    {
        self.tables.weights.row(body)
    }

    /// The variables of the head atoms of a body's rules, rule by rule.
    pub fn heads(&self, body: usize) -> &[Var]
        requires { body < length (bodies_of self.now) }
        ensures heads { result.now ≡ heads_of self.now (nth_body self.now body) }
        ensures atoms { All (IsAtomVar self.now) result.now }
    {
        self.tables.heads.row(body)
    }

    /// The numbers, ascending, of the bodies of the rules that have an atom in their heads.
    pub fn supports(&self, var: Var) -> &[u32]
        requires { IsAtomVar self.now var }
        ensures supports { result.now ≡ supports self.now (nth_atom self.now (var - 1)) }
        ensures bodies { All (IsBodyNumber self.now) result.now }
        ensures few { var_count self.now < 2 ^ 31 }
        ensures numbers { number_count self.now < 2 ^ 31 }
    {
        self.tables.supports.row(var as usize)
    }

    /// The bodies, ascending, in which a literal of an atom's variable stands, and where it stands there.
    pub fn occurrences(&self, lit: Lit) -> &[Occurrence]
        requires { IsAtomVar self.now lit.var }
        ensures { result.now ≡ occurrences_of self.now lit }
    {
        self.tables.occurrences.row(lit.code())
    }
}
