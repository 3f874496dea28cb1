//! The classes of nodes that lead to each other.
ghost use Rattle.std.specs.Prelude.{◌≡◌, ◌≢◌, ◌<◌, OnOk, length, slice_index, All, fold};
ghost use Rattle.asp_scc.specs.Turned.{AreTurned};
ghost use Rattle.asp_scc.specs.Classes.{AreClasses, KeepsClasses, released};

use crate::search::search;
use asp_table::table::Table;
use std::alloc::AllocError;

// A node without a class, and one that a search has found.
pub(crate) const FREE: u32 = 0;

const FOUND: u32 = 1;

fn release(states: &mut [u32], node: u32)
    requires { node < length states.old }
    ensures { states.new ≡ released states.old node }
{
    if states[node as usize] == FOUND {
        states[node as usize] = FREE;
    }
}

fn release_all(states: &mut [u32], nodes: &[u32])
    requires { All (λ v. v < length states.old) nodes.now }
    ensures { states.new ≡ fold released states.old nodes.now }
{
    for node in nodes {
        release(states, *node);
    }
}

// Gives a free node's class its number. The lists are room for what the searches find: their items before don't matter.
pub(crate) fn settle_class(
    graph: &Table<u32>,
    reverse: &Table<u32>,
    states: &mut [u32],
    node: u32,
    reached: &mut Vec<u32>,
    members: &mut Vec<u32>,
) -> Result<(), AllocError>
    requires turned { AreTurned graph.now reverse.now }
    requires size { length states.old ≡ length graph.now }
    requires node { node < length graph.now }
    requires free { slice_index states.old node ≡ 0 }
    requires classes { AreClasses graph.now states.old }
    ensures classes { OnOk result (AreClasses graph.now states.new) }
    ensures kept { OnOk result (KeepsClasses states.old states.new) }
    ensures settled { OnOk result (slice_index states.new node ≢ 0) }
{
    search(graph, states, node, FREE, FOUND, reached)?;
    search(reverse, states, node, FOUND, node + 2, members)?;
    release_all(states, reached.as_slice());
    Ok(())
}
