//! Finding the components of a program's positive dependencies.
ghost use Rattle.std.specs.Prelude.{◌≡◌, ◌≢◌, ◌<◌, ◌≤◌, ◌^◌, IfOk, All, length};
ghost use Rattle.std.specs.List.{list_any};
ghost use Rattle.asp_scc.specs.Classes.{AreClasses};
ghost use Rattle.asp_scc.specs.Dependencies.{graph_of};
ghost use Rattle.asp_scc.specs.Numbers.{is_looped, are_trivial};
ghost use Rattle.asp_scc.specs.Components.{AreComponents};

use crate::components::Components;
use crate::graph::dependencies;
use crate::numbers::{members, number};
use crate::two_way::TwoWay;
use asp_table::table::Table;
use asp_vars::compiled::Compiled;
use std::alloc::{AllocError, Global};
use std::mem;

// Whether an edge goes from the node to one of its class.
fn is_looped(graph: &TwoWay, classes: &[u32], node: u32) -> bool
    requires size { length classes.now ≡ length graph.now }
    requires node { node < length graph.now }
    ensures { result ≡ is_looped graph.now classes.now node }
{
    let own = classes[node as usize];
    for next in graph.edges(node) {
        if classes[*next as usize] == own {
            return true;
        }
    }
    false
}

fn is_some_looped(graph: &TwoWay, classes: &[u32], nodes: &[u32]) -> bool
    requires size { length classes.now ≡ length graph.now }
    requires nodes { All (λ v. v < length graph.now) nodes.now }
    ensures { result ≡ list_any (is_looped graph.now classes.now) nodes.now }
{
    for node in nodes {
        if is_looped(graph, classes, *node) {
            return true;
        }
    }
    false
}

// For each row whether no node in it is looped.
fn trivial(
    alloc: Global,
    graph: &TwoWay,
    classes: &[u32],
    members: &Table<u32>,
) -> Result<Vec<bool>, AllocError>
    requires size { length classes.now ≡ length graph.now }
    requires members { All (All (λ v. v < length graph.now)) members.now }
    ensures { IfOk result (λ trivial. trivial.items ≡ are_trivial graph.now classes.now members.now) }
{
    let mut trivial = Vec::with_capacity(alloc, members.len())?;
    for component in 0..members.len() {
        let looped = is_some_looped(graph, classes, members.row(component));
        trivial.push(!looped)?;
    }
    Ok(trivial)
}

// The components by the classes of the dependencies' nodes.
fn by_classes(
    alloc: Global,
    compiled: &Compiled,
    graph: &TwoWay,
    classes: &[u32],
) -> Result<Components, AllocError>
    requires graph { graph.now ≡ graph_of compiled.now }
    requires few { length graph.now ≤ 2 ^ 31 }
    requires classes { AreClasses graph.now classes.now }
    requires size { length classes.now ≡ length graph.now }
    requires settled { All (λ n. n ≢ 0) classes.now }
    ensures { IfOk result (AreComponents compiled.now) }
{
    let atoms = compiled.atom_count();
    let (numbers, count) = number(alloc, classes, atoms)?;
    let members = members(alloc, numbers.as_slice(), count)?;
    let trivial = trivial(alloc, graph, classes, &members)?;
    Ok(Components {
        numbers,
        members,
        trivial,
    })
}

// The components by the graph of the dependencies.
fn by_graph(alloc: Global, compiled: &Compiled, graph: &TwoWay) -> Result<Components, AllocError>
    requires graph { graph.now ≡ graph_of compiled.now }
    requires few { length graph.now ≤ 2 ^ 31 }
    ensures { IfOk result (AreComponents compiled.now) }
{
    let classes = graph.classes(alloc)?;
    let found = by_classes(alloc, compiled, graph, classes.as_slice());
    mem::drop(classes);
    found
}

/// The components of the positive dependencies: two atoms have one component exactly where they are equal or each
/// reaches the other. Takes time and memory linear in the program.
pub fn components(alloc: Global, compiled: &Compiled) -> Result<Components, AllocError>
    ensures { IfOk result (AreComponents compiled.now) }
{
    let _atoms = compiled.atom_count();
    let graph = TwoWay::new(alloc, dependencies(alloc, compiled)?)?;
    let found = by_graph(alloc, compiled, &graph);
    mem::drop(graph);
    found
}
