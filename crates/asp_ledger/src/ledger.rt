//! The ledger: a board with the journal that led to it, which keeps no answer.
ghost use Rattle.std.specs.Prelude.{◌≡◌, ◌+◌, ◌<◌, ◌≤◌, ◌↔◌, false, [], ◌∷◌, length, map, IfOk, OnOk, OnErr, IsTrue};
ghost use Rattle.asp_vars.specs.Conflicts.{has_all};
ghost use Rattle.asp_vars.specs.Entailment.{HitsOnly};
ghost use Rattle.asp_vars.specs.Numbering.{literal_of};
ghost use Rattle.asp_path.specs.declared.status.Status.TheVariants as status;
ghost use Rattle.asp_path.specs.Trees.{cube_of, is_open, leaf_count, status_of};
ghost use Rattle.asp_core.specs.declared.event.Event.TheVariants as event;
ghost use Rattle.asp_core.specs.Boards.{is_answer, is_excused, lists};
ghost use Rattle.asp_core.specs.Events.{has_var, held_by, IsVariable};
ghost use Rattle.asp_core.specs.Units.{out_of};
ghost use Rattle.asp_book.specs.Books.{board, with_events, IsJournalOf};
ghost use Rattle.asp_book.specs.Replies.{Divides, divided, given_back, leased_out, taken_this};
ghost use Rattle.asp_ledger.specs.Ledgers.{IsListing, ListsAnswers, listing};

use asp_core::entry::Entry;
use asp_core::event::Event;
use asp_core::goal::Goal;
use asp_model::interp::Interp;
use asp_model::program::Program;
use asp_model::seq::Seq;
use asp_path::tree::{Leaf, Tree};
use asp_vars::assumed::add_all;
use asp_vars::compiled::Compiled;
use asp_vars::fuel::Fuel;
use asp_vars::lit::Lit;
use asp_vars::nogood::Lits;
use asp_vars::origin::Origin;
use std::alloc::{AllocError, Global};
use std::marker::Model;

/// The board of a search that lists answers, with the journal that led to it, as contracts see them. All events are number 0's. Its bytes
/// are the tree of paths alone: a delivery has none.
#[derive(Drop)]
pub struct Ledger {
    /// The program whose answers are sought, as a fact without bytes.
    program: Origin<Program>,
    /// Which of its answers are listed, as a fact without bytes.
    goal: Origin<Goal>,
    /// The units that the search may burn.
    budget: u64,
    /// The paths into which the search was split.
    tree: Tree,
    /// What happened, the oldest event first. An entry has no bytes.
    journal: Vec<Entry>,
}

impl Model for Ledger {
    ghost use Rattle.asp_book.specs.Books.{Booked};

    ghost Value = { Booked };

    ghost use Rattle.asp_ledger.specs.Stored.{IsLedger, ledger_of};

    ghost view = { ledger_of };

    ghost invariant = { IsLedger };
}

// The literals that each answer meets.
fn root_of(alloc: Global, compiled: &Compiled) -> Result<Vec<Lit>, AllocError>
    ensures { IfOk result (λ lits. lits.items ≡ map (literal_of compiled.now) compiled.now.assumptions) }
{
    let mut root = Vec::new(alloc);
    add_all(
        &mut root,
        compiled,
        compiled.program().assumptions.as_slice(),
    )?;
    Ok(root)
}

impl Ledger {
    /// The start of a search for all answers that the goal lists, within so many units. The only error is want of memory.
    pub fn start(
        alloc: Global,
        compiled: &Compiled,
        goal: &Goal,
        budget: u64,
    ) -> Result<Ledger, AllocError>
        requires { ListsAnswers goal.now }
        ensures { IfOk result (λ l. l ≡ record { task = listing compiled.now goal.now budget; journal = [] }) }
    {
        let root = root_of(alloc, compiled)?;
        let tree = Tree::root(alloc, root)?;
        Ok(Ledger {
            program: Origin::of(compiled.program()),
            goal: Origin::of(goal),
            budget,
            tree,
            journal: Vec::new(alloc),
        })
    }

    /// What holds of its value: the task is one that lists answers, and each event was lawful where it happened.
    pub fn lawful(&self)
        ensures task { IsListing self.now.task }
        ensures journal { IsJournalOf self.now.task self.now.journal }
    {
        let _ = &self.tree;
    }

    /// Takes the leaf, and answers false exactly where it isn't open. No leaf is held before. For want of memory nothing happens.
    pub fn take(&mut self, leaf: Leaf) -> Result<bool, AllocError>
        requires { held_by 0 (board self.old).nodes ≡ 0 }
        ensures open_leaf { IfOk result (λ r. r ≡ is_open (status_of (board self.old).nodes leaf)) }
        ensures journal { IfOk result (λ r. self.new ≡ with_events self.old (taken_this 0 leaf r)) }
        ensures err { OnErr result (self.new ≡ self.old) }
    {
        if !self.tree.is_open(leaf) {
            return Ok(false);
        }
        self.journal.push(Entry::of(&Event::Take(0, leaf)))?;
        self.tree.hold(leaf, 0);
        Ok(true)
    }

    /// A node's literals. The only error is want of memory.
    pub fn cube(&self, alloc: Global, leaf: Leaf) -> Result<Vec<Lit>, AllocError>
        requires { leaf < length (board self.now).nodes }
        ensures { IfOk result (λ cube. cube.items ≡ cube_of (board self.now).nodes leaf) }
    {
        let _ = &self.journal;
        self.tree.cube(alloc, leaf)
    }

    /// Splits a leaf that is held on a variable that its cube lacks. None comes exactly where there is no room. The first of the two
    /// leaves has the literal, and stays held; the second has the complement, and is open. For want of memory nothing happens.
    pub fn split(&mut self, leaf: Leaf, lit: Lit) -> Result<Option<(Leaf, Leaf)>, AllocError>
        requires held { status_of (board self.old).nodes leaf ≡ status.Held 0 }
        requires variable { IsVariable (board self.old).task.program lit.var }
        requires new { has_var (cube_of (board self.old).nodes leaf) lit.var ≡ false }
        ensures leaves { IfOk result (Divides (board self.old)) }
        ensures journal { IfOk result (λ r. self.new ≡ with_events self.old (divided 0 leaf lit r)) }
        ensures err { OnErr result (self.new ≡ self.old) }
    {
        if !self.tree.room() {
            return Ok(None);
        }
        self.journal.reserve(1)?;
        let leaves = self.tree.split(leaf, lit)?;
        self.journal
            .push_reserved(Entry::of(&Event::Split(0, leaf, lit)));
        Ok(Some(leaves))
    }

    /// Delivers an answer that the goal lists, of which no bytes are kept. For want of memory nothing happens.
    pub fn deliver(&mut self, set: &Interp) -> Result<(), AllocError>
        requires answer { IsTrue (is_answer self.old.task set.now) }
        requires listed { IsTrue (lists self.old.task set.now) }
        ensures ok { OnOk result (self.new ≡ with_events self.old (event.Deliver 0 set.now ∷ [])) }
        ensures err { OnErr result (self.new ≡ self.old) }
    {
        let _ = &self.tree;
        self.journal.push(Entry::listing(0, set))?;
        Ok(())
    }

    /// Closes a leaf that is held, for a nogood within its cube that each stable model hits in vain. For want of memory nothing happens.
    pub fn close(&mut self, leaf: Leaf, nogood: Lits) -> Result<(), AllocError>
        requires held { status_of (board self.old).nodes leaf ≡ status.Held 0 }
        requires within { IsTrue (has_all (cube_of (board self.old).nodes leaf) nogood) }
        requires settled { HitsOnly (board self.old).task.program (is_excused (board self.old)) nogood }
        ensures ok { OnOk result (self.new ≡ with_events self.old (event.Close 0 leaf nogood ∷ [])) }
        ensures err { OnErr result (self.new ≡ self.old) }
    {
        self.journal
            .push(Entry::of(&Event::Close(0, leaf, nogood)))?;
        self.tree.mark(leaf);
        Ok(())
    }

    /// Opens a leaf again that is held. For want of memory nothing happens.
    pub fn release(&mut self, leaf: Leaf) -> Result<(), AllocError>
        requires { status_of (board self.old).nodes leaf ≡ status.Held 0 }
        ensures ok { OnOk result (self.new ≡ with_events self.old (event.Release 0 leaf ∷ [])) }
        ensures err { OnErr result (self.new ≡ self.old) }
    {
        self.journal.push(Entry::of(&Event::Release(0, leaf)))?;
        self.tree.release(leaf);
        Ok(())
    }

    /// The fuel's units are those of the pool that are out from now on. For want of memory nothing happens.
    pub fn lease(&mut self, fuel: &Fuel) -> Result<(), AllocError>
        requires { fuel.now.left ≤ (board self.old).pool }
        ensures ok { OnOk result (self.new ≡ with_events self.old (leased_out 0 fuel.now)) }
        ensures err { OnErr result (self.new ≡ self.old) }
    {
        let _ = &self.tree;
        let units = fuel.left();
        if units == 0 {
            return Ok(());
        }
        self.journal.push(Entry::of(&Event::Lease(0, units)))?;
        Ok(())
    }

    /// All units that are out come back. For want of memory nothing happens.
    pub fn back(&mut self, fuel: &Fuel) -> Result<(), AllocError>
        requires { fuel.now.left + fuel.now.burnt ≡ out_of (board self.old).out 0 }
        ensures ok { OnOk result (self.new ≡ with_events self.old (given_back 0 fuel.now)) }
        ensures err { OnErr result (self.new ≡ self.old) }
    {
        let _ = &self.tree;
        let left = fuel.left();
        let burnt = fuel.burnt();
        if left + burnt == 0 {
            return Ok(());
        }
        self.journal.push(Entry::of(&Event::Back(0, left, burnt)))?;
        Ok(())
    }

    /// What happened, the oldest event first.
    pub fn into_journal(self) -> Seq<Entry>
        ensures { result ≡ self.journal }
    {
        let Ledger {
            program: _,
            goal: _,
            budget: _,
            tree: _,
            journal,
        } = self;
        Seq::from_vec(journal)
    }

    /// Whether a leaf may split.
    pub fn room(&self) -> bool
        ensures { IsTrue result ↔ (length (board self.now).nodes < 4194304) }
    {
        let _ = &self.journal;
        self.tree.room()
    }

    /// How many leaves there are.
    pub fn leaves(&self) -> u32
        ensures { result ≡ leaf_count (board self.now).nodes }
    {
        let _ = &self.journal;
        self.tree.leaves()
    }
}
