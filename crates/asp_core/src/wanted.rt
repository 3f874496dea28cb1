//! The literals that each answer meets.
ghost use Rattle.std.specs.Prelude.{◌≡◌, ◌++◌, map, IfOk};
ghost use Rattle.asp_vars.specs.Numbering.{literal_of};
ghost use Rattle.asp_core.specs.Boards.{IsQuery};

use asp_vars::assumed::add_all;
use asp_vars::compiled::Compiled;
use asp_vars::lit::Lit;
use std::alloc::{AllocError, Global};

/// The assumptions, and then the query, as literals of variables.
pub fn wanted(alloc: Global, compiled: &Compiled, query: &[i32]) -> Result<Vec<Lit>, AllocError>
    requires { IsQuery compiled.now query.now }
    ensures { IfOk result (λ lits. lits.items ≡ map (literal_of compiled.now) (compiled.now.assumptions ++ query.now)) }
{
    let mut lits = Vec::new(alloc);
    add_all(
        &mut lits,
        compiled,
        compiled.program().assumptions.as_slice(),
    )?;
    add_all(&mut lits, compiled, query)?;
    Ok(lits)
}
