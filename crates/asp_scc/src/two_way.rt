//! Graphs whose edges can be followed both ways.
ghost use Rattle.std.specs.Prelude.{◌≡◌, ◌≢◌, ℕ, ◌<◌, ◌≤◌, ◌^◌, IfOk, OnOk, All, fold, length, slice_index};
ghost use Rattle.asp_scc.specs.Graphs.{edges, IsGraph, IsReverse};
ghost use Rattle.asp_scc.specs.Classes.{AreClasses, KeepsClasses};
ghost use Rattle.asp_scc.specs.Edges.{with_edge};

use crate::classes::{FREE, settle_class};
use crate::order::finish_order;
use asp_table::buckets::Buckets;
use asp_table::table::Table;
use std::alloc::{AllocError, Global};
use std::marker::Model;

/// A graph, and its edges turned round. Contracts see the graph: at the place of each node the list of the nodes to
/// which its edges go.
#[derive(Drop)]
pub struct TwoWay {
    /// The edges.
    forward: Table<u32>,
    /// The same edges, turned round.
    backward: Table<u32>,
}

impl Model for TwoWay {
    ghost use Rattle.std.specs.Prelude.{List, ℕ};

    ghost Value = { List (List ℕ) };

    ghost use Rattle.asp_scc.specs.Turned.{IsTwoWay};

    ghost view = { λ g. g.forward };

    ghost invariant = { IsTwoWay };
}

// Turns the edges of one node round.
fn turn_row(rows: &mut Buckets<u32>, node: u32, targets: &[u32]) -> Result<(), AllocError>
    requires { All (λ w. w < length rows.old) targets.now }
    ensures { OnOk result (rows.new ≡ fold (with_edge node) rows.old targets.now) }
{
    for target in targets {
        rows.push(*target as usize, node)?;
    }
    Ok(())
}

// The graph with its edges turned round.
fn turned(alloc: Global, graph: &Table<u32>) -> Result<Table<u32>, AllocError>
    requires graph { IsGraph graph.now }
    requires few { length graph.now ≤ 2 ^ 31 }
    ensures graph { IfOk result IsGraph }
    ensures turned { IfOk result (IsReverse graph.now) }
    ensures size { IfOk result (λ t. length t ≡ length graph.now) }
{
    let mut rows = Buckets::new(alloc, graph.len())?;
    for node in 0..graph.len() {
        turn_row(&mut rows, node as u32, graph.row(node))?;
    }
    let table = rows.into_table(alloc)?;
    Ok(table)
}

impl TwoWay {
    /// The graph with these rows.
    pub fn new(alloc: Global, graph: Table<u32>) -> Result<TwoWay, AllocError>
        requires graph { IsGraph graph }
        requires few { length graph ≤ 2 ^ 31 }
        ensures { IfOk result (λ g. g ≡ graph) }
    {
        let backward = turned(alloc, &graph)?;
        Ok(TwoWay {
            forward: graph,
            backward,
        })
    }

    /// How many nodes there are.
    pub fn len(&self) -> usize
        ensures len { result ≡ length self.now }
        ensures few { length self.now ≤ 2 ^ 31 }
    {
        self.forward.len()
    }

    /// The nodes to which a node's edges go.
    pub fn edges(&self, node: u32) -> &[u32]
        requires { node < length self.now }
        ensures edges { result.now ≡ edges self.now node }
        ensures within { All (λ w. w < length self.now) result.now }
    {
        self.forward.row(node as usize)
    }

    // Gives a node's class its number, if it has none.
    fn settle(
        &self,
        states: &mut [u32],
        node: u32,
        reached: &mut Vec<u32>,
        members: &mut Vec<u32>,
    ) -> Result<(), AllocError>
        requires size { length states.old ≡ length self.now }
        requires node { node < length self.now }
        requires classes { AreClasses self.now states.old }
        ensures classes { OnOk result (AreClasses self.now states.new) }
        ensures kept { OnOk result (KeepsClasses states.old states.new) }
        ensures settled { OnOk result (slice_index states.new node ≢ 0) }
    {
        if states[node as usize] == FREE {
            settle_class(
                &self.forward,
                &self.backward,
                states,
                node,
                reached,
                members,
            )?;
        }
        Ok(())
    }

    // The classes of these nodes, in this order.
    fn settle_listed(
        &self,
        states: &mut [u32],
        nodes: &[u32],
        reached: &mut Vec<u32>,
        members: &mut Vec<u32>,
    ) -> Result<(), AllocError>
        requires size { length states.old ≡ length self.now }
        requires classes { AreClasses self.now states.old }
        ensures { OnOk result (AreClasses self.now states.new) }
    {
        for node in nodes {
            if (*node as usize) < self.len() {
                self.settle(states, *node, reached, members)?;
            }
        }
        Ok(())
    }

    // The classes of all nodes.
    fn settle_all(
        &self,
        states: &mut [u32],
        reached: &mut Vec<u32>,
        members: &mut Vec<u32>,
    ) -> Result<(), AllocError>
        requires size { length states.old ≡ length self.now }
        requires classes { AreClasses self.now states.old }
        ensures classes { OnOk result (AreClasses self.now states.new) }
        ensures settled { OnOk result (All (λ n. n ≢ 0) states.new) }
    {
        for node in 0..self.len() {
            self.settle(states, node as u32, reached, members)?;
        }
        Ok(())
    }

    /// For each node a number that is that of another node exactly where each leads to the other. Takes time linear in
    /// the edges.
    pub fn classes(&self, alloc: Global) -> Result<Vec<u32>, AllocError>
        ensures classes { IfOk result (λ states. AreClasses self.now states.items) }
        ensures size { IfOk result (λ states. length states.items ≡ length self.now) }
        ensures settled { IfOk result (λ states. All (λ n. n ≢ 0) states.items) }
    {
        let order = finish_order(alloc, &self.backward)?;
        let mut states = vec![in alloc; FREE; self.len()]?;
        let mut reached = Vec::new(alloc);
        let mut members = Vec::new(alloc);
        self.settle_listed(
            states.as_mut_slice(),
            order.as_slice(),
            &mut reached,
            &mut members,
        )?;
        self.settle_all(states.as_mut_slice(), &mut reached, &mut members)?;
        Ok(states)
    }
}
