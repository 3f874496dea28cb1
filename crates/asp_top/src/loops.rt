//! How many components of a program's positive dependencies have a loop.
ghost use Rattle.std.specs.Prelude.{◌≡◌, ◌<◌, ◌≤◌, IfSome, length};
ghost use Rattle.asp_top.specs.Loops.{HasLoops, is_loop, loops_below};

use asp_scc::components::Components;
use asp_scc::find::components;
use asp_vars::compiled::Compiled;
use std::alloc::Global;

// Whether the component has atoms that reach each other, or one that reaches itself.
fn is_loop(components: &Components, component: u32) -> bool
    requires members { component < length components.now.members }
    requires trivial { component < length components.now.trivial }
    ensures { result ≡ is_loop components.now component }
{
    !components.trivial(component) && !components.members(component).is_empty()
}

// How many of the components below the end have a loop.
fn count_loops(components: &Components, end: u32) -> u64
    requires members { end ≤ length components.now.members }
    requires trivial { end ≤ length components.now.trivial }
    ensures { result ≡ loops_below components.now end }
{
    let mut loops = 0;
    for component in 0..end {
        if is_loop(components, component) {
            loops += 1;
        }
    }
    loops
}

/// How many components have a loop: atoms that each reach the others, or one that reaches itself. None where that isn't
/// wanted, or memory is wanting.
pub fn loops(alloc: Global, compiled: &Compiled, wanted: bool) -> Option<u64>
    ensures { IfSome result (HasLoops compiled.now) }
{
    if !wanted {
        return None;
    }
    let components = components(alloc, compiled).ok()?;
    let count = u32::try_from(components.count()).ok()?;
    Some(count_loops(&components, count))
}
