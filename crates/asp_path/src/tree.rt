//! The tree of guiding paths.
ghost use Rattle.std.specs.Prelude.{◌≡◌, ◌+◌, ◌*◌, ◌^◌, ◌<◌, ◌≤◌, ◌%◌, ◌==◌, if◌then◌else◌, true, ◌↔◌, [], ◌∷◌, length, slice_get, slice_index_or, IfOk, OnOk, OnErr, IsTrue};
ghost use Rattle.std.specs.Option.{IfSome};
ghost use Rattle.std.specs.Vec.{vec_len, vec_capacity};
ghost use Rattle.asp_model.specs.Sets.{IsAscending, has};
ghost use Rattle.asp_vars.specs.Literals.{complement};
ghost use Rattle.asp_path.specs.declared.status.Status.TheVariants as status;
ghost use Rattle.asp_path.specs.Trees.{cube_of, status_of, with_status, root, split, is_open, is_held, is_unclosed, all_closed, open_from, held_count, leaf_count, CoversOnce};
ghost use Rattle.asp_path.specs.Stored.{cubes_from, AreEarlier, relisted};

use crate::fork::Fork;
use crate::status::Status;
use crate::waiting::{enter, leave, push_reserved};
use asp_vars::lit::Lit;
use std::alloc::{AllocError, Global};
use std::marker::Model;

/// A node's number. The root is node 0; a split gives the next two numbers.
pub type Leaf = u32;

/// From this many nodes on a tree splits no more.
pub const NODES: usize = 4_194_304;

/// A tree of paths, which contracts see as the list of its nodes. What hits its root hits exactly one leaf's cube.
#[derive(Drop)]
pub struct Tree {
    /// The root's cube.
    root: Vec<Lit>,
    /// The k-th fork made nodes 2k + 1 and 2k + 2.
    forks: Vec<Fork>,
    /// For each node whether it is open, held, closed or forked.
    statuses: Vec<Status>,
    /// The open leaves, ascending.
    waiting: Vec<u32>,
    /// How many leaves are held.
    held: usize,
}

impl Model for Tree {
    ghost use Rattle.std.specs.Prelude.{List};
    ghost use Rattle.std.specs.Option.{IfSome};
    ghost use Rattle.std.specs.Vec.{vec_capacity};
    ghost use Rattle.asp_path.specs.Trees.{Node};
    ghost use Rattle.asp_path.specs.Stored.{nodes_of, IsStored};

    ghost Value = { List Node };

    ghost view = { λ t. nodes_of t.root.items t.forks.items t.statuses.items };

    ghost invariant = { λ t. IsStored t.root.items t.forks.items t.statuses.items t.waiting.items t.held (vec_capacity t.waiting) };
}

// A node's last literal, by its fork's.
fn literal_to(lit: Lit, node: Leaf) -> Lit
    ensures { result ≡ (if node % 2 == 1 then lit else complement lit) }
{
    if node % 2 == 1 { lit } else { lit.complement() }
}

// The cube of a node, read upwards from fork to fork.
fn walk(alloc: Global, root: &[Lit], forks: &[Fork], node: Leaf) -> Result<Vec<Lit>, AllocError>
    requires earlier { AreEarlier 1 forks.now }
    requires node { node ≤ 2 * length forks.now }
    ensures { IfOk result (λ cube. cube.items ≡ slice_index_or (cubes_from (root.now ∷ []) forks.now) node []) }
{
    let mut way = Vec::new(alloc);
    let mut at = node;
    while at > 0 {
        let fork = forks[(at as usize - 1) / 2];
        let lit = literal_to(fork.lit, at);
        way.push(lit)?;
        at = fork.node;
    }
    way.reverse();
    let mut cube = Vec::from_slice(alloc, root)?;
    cube.extend_from_slice(way.as_slice())?;
    Ok(cube)
}

// Keeps room for a fork, its two nodes, and all leaves that may be open then.
fn reserve(
    forks: &mut Vec<Fork>,
    statuses: &mut Vec<Status>,
    waiting: &mut Vec<u32>,
    held: usize,
) -> Result<(), AllocError>
    requires { held < 2 ^ 32 }
    ensures forks { forks.new.items ≡ forks.old.items }
    ensures statuses { statuses.new.items ≡ statuses.old.items }
    ensures waiting { waiting.new.items ≡ waiting.old.items }
    ensures capacity { vec_capacity waiting.old ≤ vec_capacity waiting.new }
    ensures ok_forks { OnOk result (vec_len forks.new + 1 ≤ vec_capacity forks.new) }
    ensures ok_statuses { OnOk result (vec_len statuses.new + 2 ≤ vec_capacity statuses.new) }
    ensures ok_waiting { OnOk result (vec_len waiting.new + held + 2 ≤ vec_capacity waiting.new) }
{
    forks.reserve(1)?;
    statuses.reserve(2)?;
    waiting.reserve(held + 2)?;
    Ok(())
}

// Lists the leaves that are open after a split.
fn relist(waiting: &mut Vec<u32>, status: Status, leaf: Leaf, first: Leaf)
    requires ascending { IsAscending waiting.old.items }
    requires present { is_open status ≡ true → has waiting.old.items leaf ≡ true }
    requires unclosed { is_unclosed status ≡ true }
    requires first { first < 2 ^ 31 }
    requires room { vec_len waiting.old + 2 ≤ vec_capacity waiting.old }
    ensures items { waiting.new.items ≡ relisted status leaf first waiting.old.items }
    ensures len { vec_len waiting.new ≡ vec_len waiting.old + 1 }
    ensures capacity { vec_capacity waiting.old ≤ vec_capacity waiting.new }
{
    match status {
        Status::Open => {
            leave(waiting, leaf);
            push_reserved(waiting, first);
            push_reserved(waiting, first + 1);
        }
        Status::Held(_) => push_reserved(waiting, first + 1),
        Status::Closed => unreachable!(),
        Status::Forked => unreachable!(),
    }
}

impl Tree {
    /// A tree of one open leaf, node 0, with this cube.
    ///
    /// The only error is want of memory.
    pub fn root(alloc: Global, cube: Vec<Lit>) -> Result<Tree, AllocError>
        ensures { IfOk result (λ tree. tree ≡ root cube.items) }
    {
        let statuses = vec![in alloc; Status::Open]?;
        let waiting = vec![in alloc; 0]?;
        Ok(Tree {
            root: cube,
            forks: Vec::new(alloc),
            statuses,
            waiting,
            held: 0,
        })
    }

    /// How many nodes there are.
    pub fn len(&self) -> usize
        ensures len { result ≡ length self.now }
        ensures few { result ≤ 4194306 }
        ensures covers { CoversOnce self.now }
    {
        self.statuses.len()
    }

    /// Whether the tree may split.
    pub fn room(&self) -> bool
        ensures { IsTrue result ↔ (length self.now < NODES) }
    {
        self.statuses.len() < NODES
    }

    /// Splits a leaf that isn't closed, on a variable that its cube lacks. The first new leaf has the literal and the leaf's
    /// status, the second the complement, and is open.
    ///
    /// For want of memory the tree stays as it was.
    pub fn split(&mut self, leaf: Leaf, lit: Lit) -> Result<(Leaf, Leaf), AllocError>
        requires unclosed { is_unclosed (status_of self.old leaf) ≡ true }
        requires room { length self.old < NODES }
        ensures numbers { IfOk result (λ leaves. leaves ≡ (length self.old, length self.old + 1)) }
        ensures ok { OnOk result (self.new ≡ split self.old leaf lit) }
        ensures err { OnErr result (self.new ≡ self.old) }
    {
        reserve(
            &mut self.forks,
            &mut self.statuses,
            &mut self.waiting,
            self.held,
        )?;
        let first = self.statuses.len() as u32;
        let status = self.statuses[leaf as usize];
        relist(&mut self.waiting, status, leaf, first);
        self.statuses[leaf as usize] = Status::Forked;
        push_reserved(&mut self.statuses, status);
        push_reserved(&mut self.statuses, Status::Open);
        push_reserved(&mut self.forks, Fork { node: leaf, lit });
        Ok((first, first + 1))
    }

    /// Holds an open leaf for a number.
    pub fn hold(&mut self, leaf: Leaf, by: u32)
        requires { is_open (status_of self.old leaf) ≡ true }
        ensures { self.new ≡ with_status self.old leaf (status.Held by) }
    {
        leave(&mut self.waiting, leaf);
        self.held += 1;
        self.statuses[leaf as usize] = Status::Held(by);
    }

    /// Opens a leaf that was held.
    pub fn release(&mut self, leaf: Leaf)
        requires { is_held (status_of self.old leaf) ≡ true }
        ensures { self.new ≡ with_status self.old leaf status.Open }
    {
        enter(&mut self.waiting, leaf);
        self.held -= 1;
        self.statuses[leaf as usize] = Status::Open;
    }

    // Closes a leaf that is open.
    fn close_open(&mut self, leaf: Leaf)
        requires { is_open (status_of self.old leaf) ≡ true }
        ensures { self.new ≡ with_status self.old leaf status.Closed }
    {
        leave(&mut self.waiting, leaf);
        self.statuses[leaf as usize] = Status::Closed;
    }

    // Closes a leaf that is held.
    fn close_held(&mut self, leaf: Leaf)
        requires { is_held (status_of self.old leaf) ≡ true }
        ensures { self.new ≡ with_status self.old leaf status.Closed }
    {
        self.held -= 1;
        self.statuses[leaf as usize] = Status::Closed;
    }

    /// Closes a leaf that isn't closed.
    pub fn mark(&mut self, leaf: Leaf)
        requires { is_unclosed (status_of self.old leaf) ≡ true }
        ensures { self.new ≡ with_status self.old leaf status.Closed }
    {
        if self.is_open(leaf) {
            self.close_open(leaf)
        } else {
            self.close_held(leaf)
        }
    }

    /// Whether the number is an open leaf's. Any number may be asked for.
    pub fn is_open(&self, leaf: Leaf) -> bool
        ensures { result ≡ is_open (status_of self.now leaf) }
    {
        if (leaf as usize) < self.statuses.len() {
            match self.statuses[leaf as usize] {
                Status::Open => true,
                _ => false,
            }
        } else {
            false
        }
    }

    /// The open leaf of least number, if a leaf is open.
    pub fn first_open(&self) -> Option<Leaf>
        ensures least { result ≡ slice_get (open_from 0 self.now) 0 }
        ensures open_leaf { IfSome result (λ leaf. status_of self.now leaf ≡ status.Open) }
    {
        self.waiting.as_slice().first().copied()
    }

    /// How many leaves there are.
    pub fn leaves(&self) -> u32
        ensures { result ≡ leaf_count self.now }
    {
        self.forks.len() as u32 + 1
    }

    /// How many leaves are open.
    pub fn open_leaves(&self) -> usize
        ensures { result ≡ length (open_from 0 self.now) }
    {
        self.waiting.len()
    }

    /// How many leaves are held.
    pub fn held_leaves(&self) -> usize
        ensures { result ≡ held_count self.now }
    {
        self.held
    }

    /// A node's cube: the root's literals, then those of its forks, downwards.
    ///
    /// The only error is want of memory.
    pub fn cube(&self, alloc: Global, node: Leaf) -> Result<Vec<Lit>, AllocError>
        requires { node < length self.now }
        ensures { IfOk result (λ cube. cube.items ≡ cube_of self.now node) }
    {
        walk(alloc, self.root.as_slice(), self.forks.as_slice(), node)
    }

    /// Whether every leaf is closed.
    pub fn all_closed(&self) -> bool
        ensures { result ≡ all_closed self.now }
    {
        self.waiting.is_empty() && self.held == 0
    }
}
