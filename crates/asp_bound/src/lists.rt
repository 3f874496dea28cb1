//! What is kept beside the tables, where nothing is told.
ghost use Rattle.std.specs.Prelude.{◌<◌, ◌^◌, IfOk, length};
ghost use Rattle.asp_bound.specs.Lists.{AreLists};

use crate::levels::vars_of;
use crate::place::Place;
use crate::raisers::Raisers;
use asp_table::table::Table;
use asp_vars::lit::Var;
use std::alloc::{AllocError, Global};

/// The variables that have places, and what is kept of them.
#[derive(Drop)]
pub struct Lists {
    /// The variables that have places, each once.
    pub vars: Vec<Var>,
    /// By priority, from where its items are looked at.
    pub starts: Vec<usize>,
    /// The variables whose values raise the cost, with room for all that have places.
    pub raisers: Raisers,
}

/// The lists for these places at so many priorities.
pub fn lists_of(alloc: Global, rows: &Table<Place>, levels: usize) -> Result<Lists, AllocError>
    requires { length rows.now < 2 ^ 32 }
    ensures { IfOk result (λ l. AreLists rows.now levels l.vars.items l.starts.items l.raisers) }
{
    let vars = vars_of(alloc, rows)?;
    let starts = vec![in alloc; 0; levels]?;
    let raisers = Raisers::new(alloc, vars.len())?;
    Ok(Lists {
        vars,
        starts,
        raisers,
    })
}
