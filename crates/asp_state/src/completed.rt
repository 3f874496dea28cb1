//! The completion, which is kept forever, and in whose order a search begins.
ghost use Rattle.std.specs.Prelude.{◌≡◌, ◌+◌, ◌≤◌, length, map, fold, OnOk};
ghost use Rattle.std.specs.List.{All};
ghost use Rattle.asp_vars.specs.Numbering.{var_count};
ghost use Rattle.asp_vars.specs.Completion.{completion};
ghost use Rattle.asp_complete.specs.Listed.{groups, nogoods_between, pure};
ghost use Rattle.asp_order.specs.Waiting.{HasVars};
ghost use Rattle.asp_state.specs.SearchStates.{AddsForever, AreOf, with_places};

use crate::begun::begin_all;
use asp_complete::completion::{completion_part, group_count};
use asp_order::order::Order;
use asp_propagate::engine::Engine;
use asp_propagate::propagator::Propagator;
use asp_store::stored_nogood::Kind;
use asp_vars::compiled::Compiled;
use asp_vars::nogood::Nogood;
use std::alloc::{AllocError, Global};

// The completion's nogoods are listed by so many groups at a time.
const PART: usize = 4096;

// Keeps the nogoods forever.
fn keep_all<P: Propagator>(engine: &mut Engine<P>, nogoods: Vec<Nogood>) -> Result<(), AllocError>
    requires { All (λ n. AreOf engine.old.program n.lits) nogoods.items }
    ensures same { engine.new ≡ record engine.old { slots = engine.new.slots } }
    ensures ok { OnOk result (AddsForever nogoods.items engine.old.slots engine.new.slots) }
{
    for nogood in nogoods {
        engine.keep(nogood, Kind::Forever, 0)?;
    }
    Ok(())
}

// Keeps the nogoods of the groups from one to before another forever, with a bump for each place where a variable stands there.
fn keep_part<P: Propagator>(
    alloc: Global,
    compiled: &Compiled,
    engine: &mut Engine<P>,
    order: &mut Order,
    from: usize,
    to: usize,
) -> Result<(), AllocError>
    requires program { engine.old.program ≡ compiled.now }
    requires vars { HasVars (var_count compiled.now) order.old }
    requires from { from ≤ to }
    requires to { to ≤ length (groups compiled.now) }
    ensures same { engine.new ≡ record engine.old { slots = engine.new.slots } }
    ensures adds { OnOk result (AddsForever (map pure (nogoods_between compiled.now from to)) engine.old.slots engine.new.slots) }
    ensures order { OnOk result (order.new ≡ fold with_places order.old (nogoods_between compiled.now from to)) }
{
    let nogoods = completion_part(alloc, compiled, from, to)?;
    begin_all(order, nogoods.as_slice());
    keep_all(engine, nogoods)?;
    Ok(())
}

/// Keeps the completion of the engine's program forever, and gives each variable a bump for each place where it stands there.
pub fn keep_completion<P: Propagator>(
    alloc: Global,
    compiled: &Compiled,
    engine: &mut Engine<P>,
    order: &mut Order,
) -> Result<(), AllocError>
    requires program { engine.old.program ≡ compiled.now }
    requires vars { HasVars (var_count compiled.now) order.old }
    ensures same { engine.new ≡ record engine.old { slots = engine.new.slots } }
    ensures adds { OnOk result (AddsForever (map pure (completion compiled.now)) engine.old.slots engine.new.slots) }
    ensures order { OnOk result (order.new ≡ fold with_places order.old (completion compiled.now)) }
{
    let count = group_count(compiled)?;
    let mut from = 0;
    while from < count {
        let to = from + PART.min(count - from);
        keep_part(alloc, compiled, engine, order, from, to)?;
        from = to;
    }
    Ok(())
}
