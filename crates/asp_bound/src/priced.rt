//! The weights of a program in tables.
use crate::place::{Item, Place};
use asp_model::program::Program;
use asp_table::table::Table;
use asp_vars::lit::Var;
use asp_vars::origin::Origin;

/// A program with the tables of its weights. They stay as they were made.
#[derive(Drop)]
pub struct Priced {
    /// The program, for contracts alone.
    pub origin: Origin<Program>,
    /// By variable, what it adds at which priority. One row more than the variables; 0 is none.
    pub rows: Table<Place>,
    /// By priority, the greatest first: the variables that can add to it, the one that adds most first.
    pub columns: Table<Item>,
    /// The variables that have places, each once.
    pub vars: Vec<Var>,
    /// By priority, the optimistic cost where no variable has a value.
    pub least: Vec<i64>,
}
