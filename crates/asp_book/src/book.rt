//! The book: a board with the journal of the events that led to it.
ghost use Rattle.std.specs.Prelude.{◌≡◌, ◌+◌, ◌<◌, ◌≤◌, ◌↔◌, ◌==◌, if◌then◌else◌, not, min, true, false, List, [], ◌∷◌, length, slice_get, option_map, Some, None, IfOk, OnOk, OnErr, IsTrue};
ghost use Rattle.std.specs.List.{AllByRecursion};
ghost use Rattle.asp_model.specs.Costs.{cost};
ghost use Rattle.asp_model.specs.Models.{atoms_of};
ghost use Rattle.asp_rows.specs.Listed.{IsRowFor};
ghost use Rattle.asp_vars.specs.Conflicts.{has_all};
ghost use Rattle.asp_vars.specs.Entailment.{HitsOnly};
ghost use Rattle.asp_path.specs.declared.status.Status.TheVariants as status;
ghost use Rattle.asp_path.specs.Trees.{cube_of, status_of, is_open, open_from, held_count};
ghost use Rattle.asp_core.specs.declared.event.Event.TheVariants as event;
ghost use Rattle.asp_core.specs.Units.{out_of};
ghost use Rattle.asp_core.specs.Boards.{start, is_answer, known_of, lists, optimises, is_excused, is_enough, sought};
ghost use Rattle.asp_core.specs.Events.{held_by, has_var, IsVariable, Guard};
ghost use Rattle.asp_book.specs.Books.{board, with_events, signed, IsJournalOf};
ghost use Rattle.asp_book.specs.Fuels.{ComesBack, IsOwnFuel};
ghost use Rattle.asp_book.specs.declared.listing.Listing.{Listing as Listed};
ghost use Rattle.asp_book.specs.Replies.{Divides, Improves, IsListing, IsWanted, Lists, taken, taken_this, divided, delivered, deliveries, improved, leased_out, given_back};

use crate::listing::Listing;
use crate::write::{list, make_room, write};
use asp_core::entry::Entry;
use asp_core::event::Event;
use asp_core::state::State;
use asp_model::cost::Cost;
use asp_model::interp::Interp;
use asp_path::tree::Leaf;
use asp_rows::row::Row;
use asp_vars::compiled::Compiled;
use asp_vars::fuel::Fuel;
use asp_vars::known::Known;
use asp_vars::lit::Lit;
use asp_vars::nogood::Lits;
use asp_vault::Kept;
use std::alloc::{AllocError, Global};
use std::marker::Model;

/// A board with the journal that led to it, and the fuel that isn't out.
#[derive(Drop)]
pub struct Book {
    /// Where memory comes from.
    alloc: Global,
    /// The board, whose state the journal leads to. It lies on the heap, since a book changes hands at each call of a seat.
    state: Box<State>,
    /// What happened, the oldest event first.
    journal: Vec<Entry>,
    /// The units that are not out on lease.
    fuel: Fuel,
    /// So many places of the journal are promised to calls that must not want memory: one for each leaf that is held.
    places: usize,
}

impl Model for Book {
    ghost use Rattle.asp_book.specs.Books.{Booked};

    ghost Value = { Booked };

    ghost use Rattle.asp_book.specs.Stored.{booked_of, IsStored};

    ghost view = { booked_of };

    ghost invariant = { IsStored };
}

impl Kept for Book {
    ghost use Rattle.asp_book.specs.Books.{signed, IsJournalOf};

    type About = asp_core::task::Task;

    type Entry = Event;

    ghost about = { λ b. b.task };

    ghost entries = { λ b. b.journal };

    ghost maker = { signed };

    ghost sound = { λ b. IsJournalOf b.task b.journal };

    fn len(&self) -> u64 {
        self.journal.len() as u64
    }
}

impl Book {
    /// A book of this board, at which nothing has happened yet. The only error is want of memory.
    pub fn new(alloc: Global, compiled: &Compiled, state: State) -> Result<Book, AllocError>
        requires program { state.task.program ≡ compiled.now }
        requires start { state ≡ start state.task }
        ensures { IfOk result (λ book. book ≡ record { task = state.task; journal = [] }) }
    {
        let fuel = Fuel::of(compiled, state.pool());
        let state = Box::new(alloc, state)?;
        Ok(Book {
            alloc,
            state,
            journal: Vec::new(alloc),
            fuel,
            places: 0,
        })
    }

    /// The journal replays to the board, and each of its events was lawful where it happened.
    pub fn journal(&self) -> &[Entry]
        ensures journal { result.now ≡ self.now.journal }
        ensures lawful { IsJournalOf self.now.task self.now.journal }
    {
        let _ = &self.state;
        self.journal.as_slice()
    }

    /// The board.
    pub fn state(&self) -> &State
        ensures { result.now ≡ board self.now }
    {
        let _journal = &self.journal;
        &self.state
    }

    // A leaf that is open is held from now on.
    fn hold(&mut self, by: u32, leaf: Leaf) -> Result<(), AllocError>
        requires { Guard (board self.old) (event.Take by leaf) }
        ensures ok { OnOk result (self.new ≡ with_events self.old (event.Take by leaf ∷ [])) }
        ensures err { OnErr result (self.new ≡ self.old) }
    {
        make_room(&mut self.journal, self.places, 2)?;
        write(&mut self.state, &mut self.journal, Event::Take(by, leaf))?;
        self.places += 1;
        Ok(())
    }

    /// Takes the open leaf of least number, if one is open. The number holds none before.
    ///
    /// For want of memory the book stays as it was, at this call and at each that follows.
    pub fn take(&mut self, by: u32) -> Result<Option<Leaf>, AllocError>
        requires { held_by by (board self.old).nodes ≡ 0 }
        ensures leaf { IfOk result (λ r. r ≡ slice_get (open_from 0 (board self.old).nodes) 0) }
        ensures journal { IfOk result (λ r. self.new ≡ with_events self.old (taken by r)) }
        ensures err { OnErr result (self.new ≡ self.old) }
    {
        match self.state.first_open() {
            Some(leaf) => {
                self.hold(by, leaf)?;
                Ok(Some(leaf))
            }
            None => Ok(None),
        }
    }

    /// Takes this leaf, and answers false exactly where it isn't open. The number holds none before.
    pub fn take_this(&mut self, by: u32, leaf: Leaf) -> Result<bool, AllocError>
        requires { held_by by (board self.old).nodes ≡ 0 }
        ensures open_leaf { IfOk result (λ r. r ≡ is_open (status_of (board self.old).nodes leaf)) }
        ensures journal { IfOk result (λ r. self.new ≡ with_events self.old (taken_this by leaf r)) }
        ensures err { OnErr result (self.new ≡ self.old) }
    {
        if !self.state.is_open(leaf) {
            return Ok(false);
        }
        self.hold(by, leaf)?;
        Ok(true)
    }

    /// A node's literals. The only error is want of memory.
    pub fn cube(&self, leaf: Leaf) -> Result<Vec<Lit>, AllocError>
        requires { leaf < length (board self.now).nodes }
        ensures { IfOk result (λ cube. cube.items ≡ cube_of (board self.now).nodes leaf) }
    {
        self.state.cube(leaf)
    }

    /// Splits a leaf that the number holds on a variable that its cube lacks. None comes exactly where there is no room.
    /// The first of the two leaves has the literal, and stays held; the second has the complement, and is open.
    pub fn split(
        &mut self,
        by: u32,
        leaf: Leaf,
        lit: Lit,
    ) -> Result<Option<(Leaf, Leaf)>, AllocError>
        requires held { status_of (board self.old).nodes leaf ≡ status.Held by }
        requires variable { IsVariable (board self.old).task.program lit.var }
        requires new { has_var (cube_of (board self.old).nodes leaf) lit.var ≡ false }
        ensures leaves { IfOk result (Divides (board self.old)) }
        ensures journal { IfOk result (λ r. self.new ≡ with_events self.old (divided by leaf lit r)) }
        ensures err { OnErr result (self.new ≡ self.old) }
    {
        if !self.state.room() {
            return Ok(None);
        }
        let first = self.state.nodes() as u32;
        make_room(&mut self.journal, self.places, 1)?;
        write(
            &mut self.state,
            &mut self.journal,
            Event::Split(by, leaf, lit),
        )?;
        Ok(Some((first, first + 1)))
    }

    /// Delivers an answer that the goal lists. False comes exactly where enough were delivered before.
    pub fn deliver(&mut self, by: u32, set: Interp) -> Result<bool, AllocError>
        requires listed { IsTrue (lists (board self.old).task set) }
        requires answer { IsTrue (is_answer (board self.old).task set) }
        ensures enough { IfOk result (λ r. r ≡ not (is_enough (board self.old))) }
        ensures journal { IfOk result (λ r. self.new ≡ with_events self.old (delivered by set r)) }
        ensures err { OnErr result (self.new ≡ self.old) }
    {
        if self.state.enough() {
            return Ok(false);
        }
        make_room(&mut self.journal, self.places, 1)?;
        write(&mut self.state, &mut self.journal, Event::Deliver(by, set))?;
        Ok(true)
    }

    /// Delivers an answer that the goal lists, by its row among the program's atoms. False comes exactly where enough were
    /// delivered before.
    pub fn list(&mut self, by: u32, row: Row, set: Interp) -> Result<bool, AllocError>
        requires goal { sought (board self.old).task.goal ≡ None }
        requires listed { IsTrue (lists (board self.old).task set) }
        requires answer { IsTrue (is_answer (board self.old).task set) }
        requires row { IsRowFor (atoms_of (board self.old).task.program) set row }
        ensures enough { IfOk result (λ r. r ≡ not (is_enough (board self.old))) }
        ensures journal { IfOk result (λ r. self.new ≡ with_events self.old (delivered by set r)) }
        ensures err { OnErr result (self.new ≡ self.old) }
    {
        if self.enough() {
            return Ok(false);
        }
        make_room(&mut self.journal, self.places, 1)?;
        list(&mut self.state, &mut self.journal, by, row, set)?;
        Ok(true)
    }

    /// Delivers these answers in their order. Where it is enough on the way the reply is false, and the others are left out; for want
    /// of memory those before are delivered.
    pub fn list_all(&mut self, by: u32, found: Vec<Listing>) -> Result<bool, AllocError>
        requires goal { sought (board self.old).task.goal ≡ None }
        requires found { AllByRecursion (IsListing (board self.old).task) found.items }
        ensures { (front : List Listed) × Lists by (board self.old) found.items result front × (self.new ≡ with_events self.old (deliveries by front)) }
    {
        for listing in found {
            let Listing { row, set } = listing;
            if !self.list(by, row, set)? {
                return Ok(false);
            }
        }
        Ok(true)
    }

    /// Records an answer as the best. Where the best costs no more, its cost is answered, and nothing is recorded.
    pub fn improve(&mut self, by: u32, set: Interp) -> Result<Option<Cost>, AllocError>
        requires goal { IsTrue (optimises (board self.old).task.goal) }
        requires answer { IsTrue (is_answer (board self.old).task set) }
        ensures best { IfOk result (Improves (board self.old) set) }
        ensures journal { IfOk result (λ r. self.new ≡ with_events self.old (improved by set r)) }
        ensures err { OnErr result (self.new ≡ self.old) }
    {
        if let Some(best) = self.state.unbettered(&set)? {
            return Ok(Some(best));
        }
        make_room(&mut self.journal, self.places, 1)?;
        write(&mut self.state, &mut self.journal, Event::Improve(by, set))?;
        Ok(None)
    }

    /// Closes a leaf that the number holds, for a nogood within its cube that each stable model hits in vain.
    pub fn close(&mut self, by: u32, leaf: Leaf, nogood: &[Lit]) -> Result<(), AllocError>
        requires held { status_of (board self.old).nodes leaf ≡ status.Held by }
        requires within { IsTrue (has_all (cube_of (board self.old).nodes leaf) nogood.now) }
        requires settled { HitsOnly (board self.old).task.program (is_excused (board self.old)) nogood.now }
        ensures ok { OnOk result (self.new ≡ with_events self.old (event.Close by leaf nogood.now ∷ [])) }
        ensures err { OnErr result (self.new ≡ self.old) }
    {
        let first = Lits::from_slice(self.alloc, nogood)?;
        write(
            &mut self.state,
            &mut self.journal,
            Event::Close(by, leaf, first),
        )?;
        self.places -= 1;
        Ok(())
    }

    /// Opens a leaf again that the number holds. It takes no memory.
    pub fn release(&mut self, by: u32, leaf: Leaf)
        requires { status_of (board self.old).nodes leaf ≡ status.Held by }
        ensures { self.new ≡ with_events self.old (event.Release by leaf ∷ []) }
    {
        let written = write(&mut self.state, &mut self.journal, Event::Release(by, leaf));
        match written {
            Ok(()) => {}
            Err(_) => unreachable!(),
        }
        self.places -= 1;
    }

    /// The best cost, where an answer was recorded. The only error is want of memory.
    pub fn best(&self) -> Result<Option<Cost>, AllocError>
        ensures { IfOk result (λ r. r ≡ option_map (cost (board self.now).task.program) (board self.now).best) }
    {
        match self.state.best() {
            Some((_, cost)) => Ok(Some(cost.copy()?)),
            None => Ok(None),
        }
    }

    /// What the answers delivered have in common, where that is sought. The only error is want of memory.
    pub fn known(&self) -> Result<Option<Known>, AllocError>
        ensures { IfOk result (λ r. r ≡ known_of (board self.now)) }
    {
        match self.state.known() {
            Some(known) => Ok(Some(known.copy()?)),
            None => Ok(None),
        }
    }

    /// How many nodes the tree of paths has, forks too.
    pub fn nodes(&self) -> usize
        ensures nodes { result ≡ length (board self.now).nodes }
        ensures few { result ≤ 4194306 }
    {
        self.state.nodes()
    }

    /// How many leaves are open.
    pub fn open_leaves(&self) -> usize
        ensures { result ≡ length (open_from 0 (board self.now).nodes) }
    {
        self.state.open_leaves()
    }

    /// How many leaves are held.
    pub fn held_leaves(&self) -> usize
        ensures { result ≡ held_count (board self.now).nodes }
    {
        self.state.held_leaves()
    }

    /// Whether a leaf may split.
    pub fn room(&self) -> bool
        ensures { IsTrue result ↔ (length (board self.now).nodes < 4194304) }
    {
        self.state.room()
    }

    /// Whether a split is wanted: no leaf is open, fewer leaves are held than there are workers, and a leaf may split.
    pub fn wanted(&self, workers: u32) -> bool
        ensures { IsTrue result ↔ IsWanted workers (board self.now) }
    {
        self.state.open_leaves() == 0
            && self.state.held_leaves() < workers as usize
            && self.state.room()
    }

    /// Whether there is a limit, and as many different answers were delivered.
    pub fn enough(&self) -> bool
        ensures { result ≡ is_enough (board self.now) }
    {
        self.state.enough()
    }

    /// Gives so many units, or all that the pool has.
    pub fn lease(&mut self, by: u32, n: u64) -> Result<Fuel, AllocError>
        requires { 0 < n }
        ensures fuel { IfOk result (λ u. u ≡ record { program = (board self.old).task.program; left = min n (board self.old).pool; burnt = 0; reasoned = false; known = 0; least = None }) }
        ensures journal { IfOk result (λ u. self.new ≡ with_events self.old (leased_out by u)) }
        ensures err { OnErr result (self.new ≡ self.old) }
    {
        let n = n.min(self.state.pool());
        if n == 0 {
            return Ok(self.fuel.part(0));
        }
        let more = one_if_zero(self.state.units_out(by));
        make_room(&mut self.journal, self.places, 2)?;
        write(&mut self.state, &mut self.journal, Event::Lease(by, n))?;
        self.places += more;
        Ok(self.fuel.part(n))
    }

    /// Takes all of the number's units back, those that are left and those that were burnt. It takes no memory.
    pub fn back(&mut self, by: u32, fuel: Fuel)
        requires { ComesBack (board self.old) (out_of (board self.old).out by) fuel }
        ensures { self.new ≡ with_events self.old (given_back by fuel) }
    {
        let left = fuel.left();
        let burnt = fuel.burnt();
        if left + burnt == 0 {
            return;
        }
        let _budget = self.state.budget();
        let written = write(
            &mut self.state,
            &mut self.journal,
            Event::Back(by, left, burnt),
        );
        match written {
            Ok(()) => {}
            Err(_) => unreachable!(),
        }
        self.fuel.merge(fuel);
        self.places -= 1;
    }

    /// The state, the journal that led to it, and the fuel: what the pool has is left, and the units burnt are burnt.
    pub fn end(self) -> (State, Vec<Entry>, Fuel)
        ensures state { result.0 ≡ board self }
        ensures journal { result.1.items ≡ self.journal }
        ensures lawful { IsJournalOf self.task self.journal }
        ensures fuel { IsOwnFuel (board self) result.2 }
    {
        let Book {
            alloc: _,
            state,
            journal,
            fuel,
            places: _,
        } = self;
        (Box::into_inner(state), journal, fuel)
    }
}

// One where there are no units, and else none.
fn one_if_zero(units: u64) -> usize
    ensures { result ≡ (if units == 0 then 1 else 0) }
{
    if units == 0 { 1 } else { 0 }
}
