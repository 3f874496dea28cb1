//! Search through a graph.
ghost use Rattle.std.specs.Prelude.{◌≡◌, ◌<◌, ◌≢◌, OnOk, length, slice_index, All, fold};
ghost use Rattle.asp_scc.specs.Graphs.{IsGraph};
ghost use Rattle.asp_scc.specs.Searches.{mark, Finds};

use asp_table::table::Table;
use std::alloc::AllocError;

// Takes the node into the new state and the list, if it is in the old state.
fn mark(
    states: &mut [u32],
    found: &mut Vec<u32>,
    node: u32,
    old: u32,
    new: u32,
) -> Result<(), AllocError>
    requires { node < length states.old }
    ensures { OnOk result ((states.new, found.new.items) ≡ mark old new (states.old, found.old.items) node) }
{
    if states[node as usize] == old {
        found.push(node)?;
        states[node as usize] = new;
    }
    Ok(())
}

fn mark_all(
    states: &mut [u32],
    found: &mut Vec<u32>,
    nodes: &[u32],
    old: u32,
    new: u32,
) -> Result<(), AllocError>
    requires { All (λ v. v < length states.old) nodes.now }
    ensures { OnOk result ((states.new, found.new.items) ≡ fold (mark old new) (states.old, found.old.items) nodes.now) }
{
    for node in nodes {
        mark(states, found, *node, old, new)?;
    }
    Ok(())
}

/// Finds the nodes to which nodes in the old state lead from one of them. They come into the new state, and no others do. The
/// list has them afterwards, and nothing that it had before.
pub fn search(
    graph: &Table<u32>,
    states: &mut [u32],
    from: u32,
    old: u32,
    new: u32,
    found: &mut Vec<u32>,
) -> Result<(), AllocError>
    requires graph { IsGraph graph.now }
    requires size { length states.old ≡ length graph.now }
    requires from { from < length graph.now }
    requires begins { slice_index states.old from ≡ old }
    requires differ { old ≢ new }
    ensures { OnOk result (Finds graph.now old new from states.old states.new found.new.items) }
{
    found.clear();
    mark(states, found, from, old, new)?;
    let mut next = 0;
    while next < found.len() {
        let node = found[next];
        mark_all(states, found, graph.row(node as usize), old, new)?;
        next += 1;
    }
    Ok(())
}
