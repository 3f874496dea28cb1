//! What a program is compiled to.
use crate::lit::{Lit, Var};
use crate::occurrence::Occurrence;
use asp_model::interp::Interp;
use asp_model::program::{Program, Rule};
use asp_table::table::Table;

/// A program and its tables. `IsTabled` says that they are the program's.
#[derive(Drop)]
pub struct Tables {
    /// The program as it was read.
    pub program: Program,
    /// The rules that externals stand for, which are in force behind those of the program.
    pub opened: Vec<Rule>,
    /// The program's atoms.
    pub atoms: Interp,
    /// How many variables there are.
    pub vars: Var,
    /// The body of each rule.
    pub rule_bodies: Vec<u32>,
    /// For each body the literal that says that it holds.
    pub held: Vec<Lit>,
    /// For each body whether a constraint has it.
    pub barred: Vec<bool>,
    /// For each body the bound of its sum; none where all literals have to hold.
    pub bounds: Vec<Option<i32>>,
    /// Each body's literals.
    pub literals: Table<Lit>,
    /// Each weight body's weights, in the order of its literals.
    pub weights: Table<i64>,
    /// For each body the atoms that stand in heads of its rules.
    pub heads: Table<Var>,
    /// For each variable of an atom the numbers of the bodies whose rules have it in their heads.
    pub supports: Table<u32>,
    /// For each literal, by its code, the bodies of which it says that they hold.
    pub shared: Table<Occurrence>,
    /// For each literal, by its code, the bodies that it stands in, and where.
    pub occurrences: Table<Occurrence>,
}
