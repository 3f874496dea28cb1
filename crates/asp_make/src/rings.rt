//! A program of any size: a ring of nodes in three colours.
ghost use Rattle.std.specs.Prelude.{◌≡◌, ◌≤◌, ◌<◌, ◌++◌, ◌+◌, ◌%◌, ◌^◌, neg_ℤ, pos, IfOk, OnOk, [], ◌∷◌};
ghost use Rattle.asp_model.specs.Sound.{IsSound};
ghost use Rattle.asp_make.specs.Ring.{any_colours, coloured, each_below, edge_rules, first_colours, never, node_rules, not_both, ring, some_of};

use asp_model::outputs::Outputs;
use asp_model::program::{Atom, Body, Head, Minimize, Program, Rule};
use asp_model::rules::Rules;
use asp_model::seq::Seq;
use std::alloc::{AllocError, Global};

// The atom that says that the node has the colour, from 1 to 3.
fn coloured(node: u32, colour: u32) -> Atom
    requires node { node < 2000 }
    requires colour { colour ≤ 3 }
    ensures { result ≡ coloured node colour }
{
    3 * node + colour
}

// The literal that the atom isn't in.
fn without(atom: Atom) -> i32
    requires { atom < 2 ^ 31 }
    ensures { result ≡ neg_ℤ (pos atom) }
{
    -(atom as i32)
}

// The constraint with this body.
fn never(alloc: Global, literals: &[i32]) -> Result<Rule, AllocError>
    ensures { IfOk result (λ rule. rule ≡ never literals.now) }
{
    let literals = Vec::from_slice(alloc, literals)?;
    Ok(Rule {
        head: Head::Never,
        body: Body::All(Seq::from_vec(literals)),
    })
}

// Adds the constraint that not both atoms are in.
fn push_not_both(
    alloc: Global,
    rules: &mut Vec<Rule>,
    first: Atom,
    second: Atom,
) -> Result<(), AllocError>
    requires first { first < 2 ^ 31 }
    requires second { second < 2 ^ 31 }
    ensures { OnOk result (rules.new.items ≡ rules.old.items ++ not_both first second ∷ []) }
{
    let rule = never(alloc, &[first as i32, second as i32])?;
    rules.push(rule)?;
    Ok(())
}

// Adds the constraint that one of the three atoms is in.
fn push_some(
    alloc: Global,
    rules: &mut Vec<Rule>,
    first: Atom,
    second: Atom,
    third: Atom,
) -> Result<(), AllocError>
    requires first { first < 2 ^ 31 }
    requires second { second < 2 ^ 31 }
    requires third { third < 2 ^ 31 }
    ensures { OnOk result (rules.new.items ≡ rules.old.items ++ some_of first second third ∷ []) }
{
    let rule = never(alloc, &[without(first), without(second), without(third)])?;
    rules.push(rule)?;
    Ok(())
}

// Adds the constraints of one node: it has a colour, and no two.
fn push_node(alloc: Global, rules: &mut Vec<Rule>, node: u32) -> Result<(), AllocError>
    requires { node < 2000 }
    ensures { OnOk result (rules.new.items ≡ rules.old.items ++ node_rules node) }
{
    let red = coloured(node, 1);
    let green = coloured(node, 2);
    let blue = coloured(node, 3);
    push_some(alloc, rules, red, green, blue)?;
    push_not_both(alloc, rules, red, green)?;
    push_not_both(alloc, rules, red, blue)?;
    push_not_both(alloc, rules, green, blue)
}

// Adds the constraints of two neighbours: they differ in each colour.
fn push_edge(alloc: Global, rules: &mut Vec<Rule>, node: u32, next: u32) -> Result<(), AllocError>
    requires node { node < 2000 }
    requires next { next < 2000 }
    ensures { OnOk result (rules.new.items ≡ rules.old.items ++ edge_rules node next) }
{
    push_not_both(alloc, rules, coloured(node, 1), coloured(next, 1))?;
    push_not_both(alloc, rules, coloured(node, 2), coloured(next, 2))?;
    push_not_both(alloc, rules, coloured(node, 3), coloured(next, 3))
}

#[tactic(auto, using(crate::proofs::EachBelow::each_below_more))]
fn push_nodes(alloc: Global, rules: &mut Vec<Rule>, nodes: u32) -> Result<(), AllocError>
    requires { nodes ≤ 2000 }
    ensures { OnOk result (rules.new.items ≡ rules.old.items ++ each_below node_rules nodes) }
{
    for node in 0..nodes {
        push_node(alloc, rules, node)?;
    }
    Ok(())
}

#[tactic(auto, using(crate::proofs::EachBelow::each_below_more))]
fn push_edges(alloc: Global, rules: &mut Vec<Rule>, nodes: u32) -> Result<(), AllocError>
    requires { nodes ≤ 2000 }
    ensures { OnOk result (rules.new.items ≡ rules.old.items ++ each_below (λ i. edge_rules i ((i + 1) % nodes)) nodes) }
{
    for node in 0..nodes {
        push_edge(alloc, rules, node, (node + 1) % nodes)?;
    }
    Ok(())
}

// The choice over all colours of all nodes.
#[tactic(auto, using(crate::proofs::EachBelow::each_below_more))]
fn any_colours(alloc: Global, nodes: u32) -> Result<Rule, AllocError>
    requires { nodes ≤ 2000 }
    ensures { IfOk result (λ rule. rule ≡ any_colours nodes) }
{
    let mut atoms = Vec::new(alloc);
    for node in 0..nodes {
        atoms.push(coloured(node, 1))?;
        atoms.push(coloured(node, 2))?;
        atoms.push(coloured(node, 3))?;
    }
    Ok(Rule {
        head: Head::Choice(Seq::from_vec(atoms)),
        body: Body::All(Seq::from_vec(Vec::new(alloc))),
    })
}

// How many nodes have the first colour is to be least.
#[tactic(auto, using(crate::proofs::EachBelow::each_below_more))]
fn first_colours(alloc: Global, nodes: u32) -> Result<Minimize, AllocError>
    requires { nodes ≤ 2000 }
    ensures { IfOk result (λ minimize. minimize ≡ first_colours nodes) }
{
    let mut items = Vec::new(alloc);
    for node in 0..nodes {
        items.push((coloured(node, 1) as i32, 1))?;
    }
    Ok(Minimize {
        priority: 1,
        items: Seq::from_vec(items),
    })
}

fn assembled(alloc: Global, nodes: u32) -> Result<Program, AllocError>
    requires { nodes ≤ 2000 }
    ensures { IfOk result (λ program. program ≡ ring nodes) }
{
    let mut rules = Vec::new(alloc);
    rules.push(any_colours(alloc, nodes)?)?;
    push_nodes(alloc, &mut rules, nodes)?;
    push_edges(alloc, &mut rules, nodes)?;
    let rules = Rules::from_slice(alloc, rules.as_slice())?;
    let outputs = Outputs::new(alloc)?;
    let mut minimize = Vec::new(alloc);
    minimize.push(first_colours(alloc, nodes)?)?;
    Ok(Program {
        rules,
        minimize: Seq::from_vec(minimize),
        outputs,
        externals: Seq::from_vec(Vec::new(alloc)),
        assumptions: Seq::from_vec(Vec::new(alloc)),
    })
}

/// The ring of so many nodes: each has one of three colours, neighbours differ, and the first colour is to be rare.
/// The colour c of the node i is the atom 3 i + c, for nodes from 0 and colours from 1.
pub fn ring(alloc: Global, nodes: u32) -> Result<Program, AllocError>
    requires low { 3 ≤ nodes }
    requires high { nodes ≤ 2000 }
    ensures program { IfOk result (λ program. program ≡ ring nodes) }
    ensures sound { IfOk result IsSound }
{
    let program = assembled(alloc, nodes)?;
    Ok(program)
}
