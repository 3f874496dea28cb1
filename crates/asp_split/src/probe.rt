//! What follows from a cube by unit propagation.
//!
//! A stable model that hits a cube hits what the nogoods of the completion, of weight bodies and of loops imply under it:
//! none of these excludes a stable model, as long as no bound stands. So a cube under which a nogood is violated has no
//! answers, and the values that follow are those of all answers under it.
ghost use Rattle.std.specs.Prelude.{◌≡◌, IfOk};
ghost use Rattle.asp_state.specs.SearchStates.{AreOf};
ghost use Rattle.asp_split.specs.Dividing.{IsProbed};
ghost use Rattle.asp_split.specs.Following.{literals_of, Follows, IsProber};
ghost use Rattle.asp_split.specs.Parts.{AreStanding};

use crate::leaf::Leaf;
use crate::open::least_open;
use asp_model::seq::Seq;
use asp_propagate::propagator::Propagator;
use asp_state::state::SearchState;
use asp_vars::assumed::add_all;
use asp_vars::compiled::Compiled;
use asp_vars::lit::Lit;
use std::alloc::{AllocError, Global};

// The assumptions and the cube as literals of variables.
fn literals(alloc: Global, compiled: &Compiled, cube: &[i32]) -> Result<Vec<Lit>, AllocError>
    requires { AreStanding compiled.now cube.now }
    ensures { IfOk result (λ lits. lits.items ≡ literals_of compiled.now cube.now) }
{
    let mut lits = Vec::new(alloc);
    add_all(
        &mut lits,
        compiled,
        compiled.program().assumptions.as_slice(),
    )?;
    add_all(&mut lits, compiled, cube)?;
    Ok(lits)
}

// Propagates under the literals. False where they clash, or a nogood is violated.
fn follow<P: Propagator>(
    alloc: Global,
    compiled: &Compiled,
    state: &mut SearchState<P>,
    lits: &[Lit],
) -> Result<bool, AllocError>
    requires of { AreOf state.old.program lits.now }
    requires kept { IsProber compiled.now state.old }
    ensures kept { IsProber compiled.now state.new }
    ensures follows { IfOk result (Follows compiled.now state.new lits.now) }
{
    let _program = compiled.program();
    state.enter(alloc, lits)?;
    if state.is_clashing() {
        return Ok(false);
    }
    let violated = state.propagate()?;
    let _trail = state.trail();
    let _store = state.store();
    Ok(violated.is_none())
}

/// The leaf of a cube; none where propagation shows that there is no answer under it. Want of memory is the one error.
pub(crate) fn probe<P: Propagator>(
    alloc: Global,
    compiled: &Compiled,
    state: &mut SearchState<P>,
    cube: Seq<i32>,
) -> Result<Option<Leaf>, AllocError>
    requires stand { AreStanding compiled.now cube }
    requires kept { IsProber compiled.now state.old }
    ensures kept { IsProber compiled.now state.new }
    ensures probed { IfOk result (IsProbed compiled.now cube) }
{
    let lits = literals(alloc, compiled, cube.as_slice())?;
    if !follow(alloc, compiled, state, lits.as_slice())? {
        return Ok(None);
    }
    let trail = state.trail();
    let next = least_open(compiled, trail);
    let width = (compiled.vars() as usize).saturating_sub(trail.len());
    Ok(Some(Leaf { cube, next, width }))
}
