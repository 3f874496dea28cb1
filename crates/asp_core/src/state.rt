//! The state of a board.
ghost use Rattle.std.specs.Prelude.{◌≡◌, ◌+◌, ◌^◌, ◌<◌, ◌≤◌, ◌↔◌, ◌==◌, true, false, [], length, slice_get, None, Some, option_map, option_and_then, IfOk, OnOk, OnErr, IsOk, IsTrue};
ghost use Rattle.std.specs.Option.{IfSome, is_some, option_copied};
ghost use Rattle.asp_model.specs.Costs.{cost, betters};
ghost use Rattle.asp_model.specs.Models.{atoms_of};
ghost use Rattle.asp_model.specs.Sets.{IsAscending};
ghost use Rattle.asp_rows.specs.Bits.{IsAmong};
ghost use Rattle.asp_rows.specs.Listed.{AreRows, IsRowFor, IsRowOf};
ghost use Rattle.asp_path.specs.declared.status.Status.TheVariants as status;
ghost use Rattle.asp_path.specs.Trees.{cube_of, status_of, is_open, all_closed, open_from, held_count, leaf_count};
ghost use Rattle.asp_core.specs.declared.event.Event.TheVariants as event;
ghost use Rattle.asp_core.specs.Units.{out_of};
ghost use Rattle.asp_core.specs.Boards.{common_by, start, known_by, known_of, listed_by, showing_of, sought, wanted, optimises, is_excused, is_enough, IsQuery};
ghost use Rattle.asp_core.specs.Events.{Guard, happens, wants_memory};
ghost use Rattle.asp_core.specs.Invariant.{IsBoard, HasResult};
ghost use Rattle.asp_core.specs.Stored.{Counts};

use crate::asked::{seed, with_answer};
use crate::event::Event;
use crate::goal::Goal;
use crate::prices::prices;
use crate::reason::Reason;
use crate::units::{lease_out, return_out, units_of};
use crate::wanted::wanted;
use asp_model::cost::{Cost, cost_of};
use asp_model::interp::Interp;
use asp_model::program::{Atom, Program};
use asp_model::seq::Seq;
use asp_path::tree::{Leaf, Tree};
use asp_rows::row::Row;
use asp_rows::rows::Rows;
use asp_vars::compiled::Compiled;
use asp_vars::known::Known;
use asp_vars::lit::Lit;
use asp_vars::nogood::Lits;
use asp_vars::origin::Origin;
use asp_vars::snapshot::Snapshot;
use smallvec::SmallVec;
use std::alloc::{AllocError, Global};
use std::collections::BTreeSet;
use std::marker::Model;
use std::mem;

/// The state of a search, which contracts see as its board.
///
/// The program itself isn't kept, but for the statements by which sets are priced.
#[derive(Drop)]
pub struct State {
    /// Where memory comes from.
    alloc: Global,
    /// Whose answers are sought, as a fact without bytes.
    program: Origin<Program>,
    /// What is sought: all answers, one that costs least, or what holds in some or in all.
    goal: Goal,
    /// The units that the search may burn.
    budget: u64,
    /// After so many different answers the search ends; 0 for no limit.
    limit: u64,
    /// Literals that each answer sought has to satisfy.
    query: Seq<i32>,
    /// The program's statements of costs, with no rules.
    prices: Program,
    /// The paths into which the search was split.
    tree: Tree,
    /// The answers delivered, the oldest first, where they are listed; else none.
    answers: Rows,
    /// Where consequences are sought the answers delivered, the oldest first, of which contracts alone know more than their number; else
    /// none.
    told: Vec<Snapshot<Interp>>,
    /// Where consequences are sought, what the answers delivered have in common.
    known: Option<Known>,
    /// Where they are asked for by name the set that shows what isn't asked for: it stands beside the answers, from the first on.
    seed: Option<Interp>,
    /// Where consequences are sought the atoms that stand in the program, ascending; else none.
    atoms: Vec<Atom>,
    /// The rows of the different ones among them, where there is a limit; else empty.
    different: BTreeSet<Row>,
    /// The cheapest answer that was told so far, with its cost.
    best: Option<(Interp, Cost)>,
    /// The units that are not out on lease.
    pool: u64,
    /// For each number that took units, how many it has.
    out: Vec<(u32, u64)>,
    /// How many units were burnt.
    burnt: u64,
    /// Why each closed leaf has no more answers, the first closed first.
    reasons: Vec<Reason>,
}

impl Model for State {
    ghost use Rattle.asp_core.specs.Boards.{Board};

    ghost Value = { Board };

    ghost use Rattle.asp_core.specs.Stored.{board_of, IsState};

    ghost view = { board_of };

    ghost invariant = { IsState };
}

// Puts the row of a set among the different ones.
fn add_row(different: &mut BTreeSet<Row>, atoms: &[Atom], row: Row) -> Result<(), AllocError>
    requires ascending { IsAscending atoms.now }
    requires rows { AreRows atoms.now different.old.keys }
    requires row { IsRowOf atoms.now row }
    ensures ok { OnOk result (Counts atoms.now different.old.keys different.new.keys row.set) }
    ensures err { OnErr result (different.new.keys ≡ different.old.keys) }
{
    let _ = atoms;
    different.insert(row)?;
    Ok(())
}

// The row of a set once more.
fn copied(alloc: Global, row: &Row, set: &Interp) -> Result<Row, AllocError>
    ensures words { IfOk result (λ copy. copy.words.items ≡ row.now.words.items) }
    ensures set { IfOk result (λ copy. copy.set ≡ set.now) }
{
    let words = SmallVec::from_slice(alloc, row.words.as_slice())?;
    Ok(Row {
        words,
        set: Snapshot::of(set),
    })
}

// Puts a set's row among the different ones, where there is a limit to count these for.
fn count_in(
    alloc: Global,
    limit: u64,
    different: &mut BTreeSet<Row>,
    atoms: &[Atom],
    set: &Interp,
) -> Result<(), AllocError>
    requires ascending { IsAscending atoms.now }
    requires rows { 0 < limit → AreRows atoms.now different.old.keys }
    requires among { IsAmong atoms.now set.now }
    ensures ok { OnOk result (0 < limit → Counts atoms.now different.old.keys different.new.keys set.now) }
    ensures err { OnErr result (different.new.keys ≡ different.old.keys) }
{
    if limit == 0 {
        return Ok(());
    }
    let row = Row::of(alloc, atoms, set)?;
    add_row(different, atoms, row)
}

// No answer, where consequences are sought.
fn nothing_known(
    alloc: Global,
    compiled: &Compiled,
    goal: &Goal,
) -> Result<Option<Known>, AllocError>
    ensures { IfOk result (λ known. known ≡ known_by (sought goal.now) compiled.now []) }
{
    match goal {
        Goal::Enum | Goal::Opt | Goal::Ties(_) => Ok(None),
        Goal::Consequences(reasoning, _) => {
            let known = Known::new(alloc, compiled, *reasoning)?;
            Ok(Some(known))
        }
    }
}

// The atoms that stand in the program, where consequences are sought.
fn stated_atoms(alloc: Global, compiled: &Compiled, goal: &Goal) -> Result<Vec<Atom>, AllocError>
    ensures { IfOk result (λ atoms. is_some (sought goal.now) ≡ true → atoms.items ≡ atoms_of compiled.now) }
{
    match goal {
        Goal::Enum | Goal::Opt | Goal::Ties(_) => Ok(Vec::new(alloc)),
        Goal::Consequences(_, _) => Vec::from_slice(alloc, compiled.atoms().as_slice()),
    }
}

// What the answers have in common, where that is sought and there is an answer.
fn common(known: Option<Known>, atoms: Vec<Atom>) -> Option<Interp>
    requires { IfSome known (λ k. atoms.items ≡ atoms_of k.program) }
    ensures { result ≡ option_and_then (λ k. slice_get k.sets 0) known }
{
    match known {
        None => None,
        Some(known) => known.into_set(atoms),
    }
}

impl State {
    /// The start of a search whose answers meet the program's assumptions and these literals.
    ///
    /// The only error is want of memory.
    pub fn start(
        alloc: Global,
        compiled: &Compiled,
        goal: Goal,
        budget: u64,
        limit: u64,
        query: &[i32],
    ) -> Result<State, AllocError>
        requires { IsQuery compiled.now query.now }
        ensures { IfOk result (λ s. s ≡ start (record { program = compiled.now; goal = goal; budget = budget; limit = limit; query = query.now })) }
    {
        let program = compiled.program();
        let root = wanted(alloc, compiled, query)?;
        let query = Vec::from_slice(alloc, query)?;
        let tree = Tree::root(alloc, root)?;
        let known = nothing_known(alloc, compiled, &goal)?;
        let seed = seed(alloc, compiled, &goal)?;
        let atoms = stated_atoms(alloc, compiled, &goal)?;
        let listed = compiled.atoms().copy()?;
        // The prices are a program: they are made last, so that no way out has them to drop.
        let prices = prices(alloc, program)?;
        Ok(State {
            alloc,
            program: Origin::of(program),
            goal,
            budget,
            limit,
            query: Seq::from_vec(query),
            prices,
            tree,
            answers: Rows::new(alloc, listed),
            told: Vec::new(alloc),
            known,
            seed,
            atoms,
            different: BTreeSet::new(alloc),
            best: None,
            pool: budget,
            out: Vec::new(alloc),
            burnt: 0,
            reasons: Vec::new(alloc),
        })
    }

    fn take(&mut self, by: u32, leaf: Leaf) -> Result<(), AllocError>
        requires { Guard self.old (event.Take by leaf) }
        ensures ok { OnOk result (self.new ≡ happens self.old (event.Take by leaf)) }
        ensures err { OnErr result (self.new ≡ self.old) }
    {
        self.reasons.reserve(self.tree.held_leaves() + 1)?;
        self.tree.hold(leaf, by);
        Ok(())
    }

    fn split(&mut self, by: u32, leaf: Leaf, lit: Lit) -> Result<(), AllocError>
        requires { Guard self.old (event.Split by leaf lit) }
        ensures ok { OnOk result (self.new ≡ happens self.old (event.Split by leaf lit)) }
        ensures err { OnErr result (self.new ≡ self.old) }
    {
        let _leaves = self.tree.split(leaf, lit)?;
        Ok(())
    }

    /// Lets an answer be delivered that is listed, by its row among the program's atoms.
    ///
    /// For want of memory the state stays as it was.
    pub fn list(&mut self, by: u32, row: Row, set: Interp) -> Result<(), AllocError>
        requires guard { Guard self.old (event.Deliver by set) }
        requires listed { sought self.old.task.goal ≡ None }
        requires row { IsRowFor (atoms_of self.old.task.program) set row }
        ensures ok { OnOk result (self.new ≡ happens self.old (event.Deliver by set)) }
        ensures err { OnErr result (self.new ≡ self.old) }
    {
        if self.limit == 0 {
            self.answers.push_row(row)?;
            return Ok(());
        }
        let counted = copied(self.alloc, &row, &set)?;
        let len = self.answers.len();
        self.answers.push_row(row)?;
        let added = add_row(
            &mut self.different,
            self.answers.atoms().as_slice(),
            counted,
        );
        match added {
            Ok(()) => Ok(()),
            Err(error) => {
                self.answers.truncate(len);
                Err(error)
            }
        }
    }

    fn deliver(&mut self, by: u32, set: Interp) -> Result<(), AllocError>
        requires { Guard self.old (event.Deliver by set) }
        ensures ok { OnOk result (self.new ≡ happens self.old (event.Deliver by set)) }
        ensures err { OnErr result (self.new ≡ self.old) }
    {
        match &self.known {
            None => {
                let row = Row::of(self.alloc, self.answers.atoms().as_slice(), &set)?;
                self.list(by, row, set)
            }
            Some(known) => {
                let known = with_answer(known, self.seed.as_ref(), &set)?;
                let told = Snapshot::of(&set);
                self.told.reserve(1)?;
                count_in(
                    self.alloc,
                    self.limit,
                    &mut self.different,
                    self.answers.atoms().as_slice(),
                    &set,
                )?;
                self.told.push_reserved(told);
                self.known = Some(known);
                Ok(())
            }
        }
    }

    fn improve(&mut self, by: u32, set: Interp) -> Result<(), AllocError>
        requires { Guard self.old (event.Improve by set) }
        ensures ok { OnOk result (self.new ≡ happens self.old (event.Improve by set)) }
        ensures err { OnErr result (self.new ≡ self.old) }
    {
        let cost = cost_of(self.alloc, &self.prices, &set)?;
        self.best = Some((set, cost));
        Ok(())
    }

    fn close(&mut self, by: u32, leaf: Leaf, nogood: Lits)
        requires { Guard self.old (event.Close by leaf nogood) }
        ensures { self.new ≡ happens self.old (event.Close by leaf nogood) }
    {
        self.reasons.push_reserved(Reason { leaf, nogood });
        self.tree.mark(leaf);
    }

    fn release(&mut self, by: u32, leaf: Leaf)
        requires { Guard self.old (event.Release by leaf) }
        ensures { self.new ≡ happens self.old (event.Release by leaf) }
    {
        self.tree.release(leaf);
    }

    fn lease(&mut self, by: u32, n: u64) -> Result<(), AllocError>
        requires { Guard self.old (event.Lease by n) }
        ensures ok { OnOk result (self.new ≡ happens self.old (event.Lease by n)) }
        ensures err { OnErr result (self.new ≡ self.old) }
    {
        lease_out(&mut self.out, by, n)?;
        self.pool -= n;
        Ok(())
    }

    fn back(&mut self, by: u32, left: u64, burnt: u64)
        requires { Guard self.old (event.Back by left burnt) }
        ensures { self.new ≡ happens self.old (event.Back by left burnt) }
    {
        return_out(&mut self.out, by);
        self.pool += left;
        self.burnt += burnt;
    }

    /// Lets the event happen.
    ///
    /// For want of memory the state stays as it was; a close, a release and a return of units want none.
    pub fn apply(&mut self, event: Event) -> Result<(), AllocError>
        requires { Guard self.old event }
        ensures ok { OnOk result (self.new ≡ happens self.old event) }
        ensures err { OnErr result (self.new ≡ self.old) }
        ensures no_memory { wants_memory event ≡ false → IsOk result }
    {
        match event {
            Event::Take(by, leaf) => self.take(by, leaf),
            Event::Split(by, leaf, lit) => self.split(by, leaf, lit),
            Event::Deliver(by, set) => self.deliver(by, set),
            Event::Improve(by, set) => self.improve(by, set),
            Event::Close(by, leaf, nogood) => {
                self.close(by, leaf, nogood);
                Ok(())
            }
            Event::Release(by, leaf) => {
                self.release(by, leaf);
                Ok(())
            }
            Event::Lease(by, n) => self.lease(by, n),
            Event::Back(by, left, burnt) => {
                self.back(by, left, burnt);
                Ok(())
            }
        }
    }

    /// Whether every leaf is closed. Then the board has the result.
    pub fn finished(&self) -> bool
        ensures closed { result ≡ all_closed self.now.nodes }
        ensures board { IsBoard self.now }
        ensures result { IsTrue result → HasResult self.now.task.goal self.now }
    {
        self.tree.all_closed()
    }

    /// Whether there is a limit, and as many different sets were delivered.
    pub fn enough(&self) -> bool
        ensures { result ≡ is_enough self.now }
    {
        self.limit != 0 && self.limit <= self.different.len() as u64
    }

    /// How many units there were at the start.
    pub fn budget(&self) -> u64
        ensures budget { result ≡ self.now.task.budget }
        ensures fits { result < 2 ^ 64 }
        ensures board { IsBoard self.now }
    {
        let _ = &self.tree;
        self.budget
    }

    /// The units burnt.
    pub fn spent(&self) -> u64
        ensures { result ≡ self.now.burnt }
    {
        self.burnt
    }

    /// The units that may be leased.
    pub fn pool(&self) -> u64
        ensures { result ≡ self.now.pool }
    {
        self.pool
    }

    /// The units that are out for a number.
    pub fn units_out(&self, by: u32) -> u64
        ensures { result ≡ out_of self.now.out by }
    {
        units_of(self.out.as_slice(), by)
    }

    /// The sets delivered, in their order, where they are listed.
    pub fn answers(&self) -> &Rows
        requires { sought self.now.task.goal ≡ None }
        ensures { result.now.sets ≡ self.now.answers }
    {
        &self.answers
    }

    /// What the answers delivered have in common, where that is sought.
    pub fn known(&self) -> Option<&Known>
        ensures { option_map (λ r. r.now) result ≡ known_of self.now }
    {
        self.known.as_ref()
    }

    /// The best answer and its cost, where one was recorded.
    pub fn best(&self) -> Option<&(Interp, Cost)>
        ensures { option_copied result ≡ option_map (λ S. (S, cost self.now.task.program S)) self.now.best }
    {
        self.best.as_ref()
    }

    /// The best cost, where one stands that the set doesn't better. The only error is want of memory.
    pub fn unbettered(&self, set: &Interp) -> Result<Option<Cost>, AllocError>
        requires { IsTrue (optimises self.now.task.goal) }
        ensures none { IfOk result (λ r. r ≡ None → is_excused self.now set.now ≡ false) }
        ensures some { IfOk result (λ r. IfSome r (λ c. (option_map (cost self.now.task.program) self.now.best ≡ Some c) × (betters (cost self.now.task.program set.now) c ≡ false))) }
    {
        let (_, best) = match &self.best {
            Some(best) => best,
            None => return Ok(None),
        };
        let cost = cost_of(self.alloc, &self.prices, set)?;
        if cost < *best {
            return Ok(None);
        }
        Ok(Some(best.copy()?))
    }

    /// The sets delivered, in their order, where they are listed; the best answer with its cost, where one was recorded; and
    /// the consequences of the answers delivered, where these are sought.
    pub fn into_found(self) -> (Rows, Option<(Interp, Cost)>, Option<Interp>)
        ensures answers { result.0.sets ≡ listed_by (sought self.task.goal) self.answers }
        ensures known { result.2 ≡ common_by (sought self.task.goal) self.task.program (showing_of self) }
        ensures best { result.1 ≡ option_map (λ S. (S, cost self.task.program S)) self.best }
    {
        let State {
            alloc: _,
            program: _,
            goal: _,
            budget: _,
            limit: _,
            query: _,
            prices,
            tree,
            answers,
            told,
            known,
            seed,
            atoms,
            different,
            best,
            pool: _,
            out: _,
            burnt: _,
            reasons,
        } = self;
        mem::drop(prices);
        mem::drop(tree);
        mem::drop(told);
        mem::drop(seed);
        mem::drop(different);
        mem::drop(reasons);
        (answers, best, common(known, atoms))
    }

    /// The closed leaves, each with its nogood.
    pub fn reasons(&self) -> &[Reason]
        ensures reasons { result.now ≡ self.now.reasons }
        ensures board { IsBoard self.now }
    {
        self.reasons.as_slice()
    }

    /// How many leaves there are, closed ones too.
    pub fn leaves(&self) -> u32
        ensures { result ≡ leaf_count self.now.nodes }
    {
        self.tree.leaves()
    }

    /// The open leaf of least number.
    pub fn first_open(&self) -> Option<Leaf>
        ensures least { result ≡ slice_get (open_from 0 self.now.nodes) 0 }
        ensures open_leaf { IfSome result (λ leaf. status_of self.now.nodes leaf ≡ status.Open) }
    {
        self.tree.first_open()
    }

    /// Whether the number is an open leaf's.
    pub fn is_open(&self, leaf: Leaf) -> bool
        ensures { result ≡ is_open (status_of self.now.nodes leaf) }
    {
        self.tree.is_open(leaf)
    }

    /// How many nodes there are, forks too.
    pub fn nodes(&self) -> usize
        ensures nodes { result ≡ length self.now.nodes }
        ensures few { result ≤ 4194306 }
    {
        self.tree.len()
    }

    /// How many leaves are open.
    pub fn open_leaves(&self) -> usize
        ensures { result ≡ length (open_from 0 self.now.nodes) }
    {
        self.tree.open_leaves()
    }

    /// How many leaves are held.
    pub fn held_leaves(&self) -> usize
        ensures { result ≡ held_count self.now.nodes }
    {
        self.tree.held_leaves()
    }

    /// Whether a leaf may split.
    pub fn room(&self) -> bool
        ensures { IsTrue result ↔ (length self.now.nodes < 4194304) }
    {
        self.tree.room()
    }

    /// A node's literals.
    ///
    /// The only error is want of memory.
    pub fn cube(&self, leaf: Leaf) -> Result<Vec<Lit>, AllocError>
        requires { leaf < length self.now.nodes }
        ensures { IfOk result (λ cube. cube.items ≡ cube_of self.now.nodes leaf) }
    {
        self.tree.cube(self.alloc, leaf)
    }
}
