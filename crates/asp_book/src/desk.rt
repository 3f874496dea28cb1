//! Each call of the book once more, for the holder of a seat.
//!
//! The book lies in a vault. A call takes it, makes the book's call by the seat's number, and gives it back: the give is the
//! moment of the call. What a call asks of the board, it asks of the board that the events seen by its seat lead to; what
//! other seats did since then ends none of that.
ghost use Rattle.std.specs.Prelude.{◌≡◌, ◌<◌, ◌↔◌, min, true, false, not, List, [], ◌∷◌, length, slice_get, option_map, Some, None, IfOk, OnOk, OnErr, IsTrue};
ghost use Rattle.std.specs.List.{AllByRecursion};
ghost use Rattle.asp_model.specs.Costs.{cost};
ghost use Rattle.asp_model.specs.Models.{atoms_of};
ghost use Rattle.asp_rows.specs.Listed.{IsRowFor};
ghost use Rattle.asp_vars.specs.Conflicts.{has_all};
ghost use Rattle.asp_vars.specs.Entailment.{HitsOnly};
ghost use Rattle.asp_path.specs.declared.status.Status.TheVariants as status;
ghost use Rattle.asp_path.specs.Trees.{cube_of, status_of, is_open, open_from, held_count};
ghost use Rattle.asp_vault.specs.Moments.{Stays};
ghost use Rattle.asp_vault.specs.Rules.{given_back as gave_back};
ghost use Rattle.asp_vault.specs.Seats.{view, IsOf, IsBeside};
ghost use Rattle.asp_core.specs.declared.event.Event.{Event};
ghost use Rattle.asp_core.specs.declared.event.Event.TheVariants as event;
ghost use Rattle.asp_core.specs.Units.{out_of};
ghost use Rattle.asp_core.specs.Boards.{is_answer, lists, optimises, is_excused, is_enough, known_of, sought};
ghost use Rattle.asp_core.specs.Events.{held_by, has_var, IsVariable, replay};
ghost use Rattle.asp_book.specs.Books.{IsJournalOf};
ghost use Rattle.asp_book.specs.Calls.{task_of, seen_board, IsCall, Adds};
ghost use Rattle.asp_book.specs.Fuels.{ComesBack};
ghost use Rattle.asp_book.specs.declared.listing.Listing.{Listing as Listed};
ghost use Rattle.asp_book.specs.Replies.{Divides, Improves, IsListing, IsWanted, Lists, taken, taken_this, divided, delivered, deliveries, improved, leased_out, given_back};

use crate::book::Book;
use crate::listing::Listing;
use asp_model::cost::Cost;
use asp_model::interp::Interp;
use asp_path::tree::Leaf;
use asp_rows::row::Row;
use asp_vars::fuel::Fuel;
use asp_vars::known::Known;
use asp_vars::lit::Lit;
use asp_vault::{Seat, Vault};
use std::alloc::AllocError;
use std::sync::Wait;

// Gives the book back, with events more that are the seat's own.
fn give(vault: &Vault<Book>, seat: &mut Seat<Book>, book: Book)
    requires of { IsOf vault.now seat.old }
    requires holds { (view seat.old).holds ≡ true }
    requires about { Some book.task ≡ (view seat.old).about }
    requires adds { Adds (view seat.old) book.journal }
    ensures of { IsBeside seat.old seat.new }
    ensures view { view seat.new ≡ gave_back book.journal (view seat.old) }
    ensures lawful { IsJournalOf book.task book.journal }
{
    let _lawful = book.journal();
    vault.give(seat, book);
}

/// Takes the open leaf of least number, if one is open. The seat's number holds none before.
pub fn take<R: Wait>(
    rt: &R,
    vault: &Vault<Book>,
    seat: &mut Seat<Book>,
) -> Result<Option<Leaf>, AllocError>
    requires of { IsOf vault.now seat.old }
    requires rests { (view seat.old).holds ≡ false }
    requires free { held_by (view seat.old).number (seen_board (view seat.old)).nodes ≡ 0 }
    ensures of { IsBeside seat.old seat.new }
    ensures stays { Stays (view seat.old) (view seat.new) }
    ensures ok { IfOk result (λ r. (before : List Event) × (r ≡ slice_get (open_from 0 (replay (task_of (view seat.old)) before).nodes) 0) × IsCall (view seat.old) (view seat.new) before (taken (view seat.old).number r)) }
    ensures err { OnErr result ((before : List Event) × IsCall (view seat.old) (view seat.new) before []) }
{
    let mut book = vault.take(rt, seat);
    let reply = book.take(seat.number());
    give(vault, seat, book);
    reply
}

/// Takes this leaf, and answers false exactly where it isn't open. The seat's number holds none before.
pub fn take_this<R: Wait>(
    rt: &R,
    vault: &Vault<Book>,
    seat: &mut Seat<Book>,
    leaf: Leaf,
) -> Result<bool, AllocError>
    requires of { IsOf vault.now seat.old }
    requires rests { (view seat.old).holds ≡ false }
    requires free { held_by (view seat.old).number (seen_board (view seat.old)).nodes ≡ 0 }
    ensures of { IsBeside seat.old seat.new }
    ensures stays { Stays (view seat.old) (view seat.new) }
    ensures ok { IfOk result (λ r. (before : List Event) × (r ≡ is_open (status_of (replay (task_of (view seat.old)) before).nodes leaf)) × IsCall (view seat.old) (view seat.new) before (taken_this (view seat.old).number leaf r)) }
    ensures err { OnErr result ((before : List Event) × IsCall (view seat.old) (view seat.new) before []) }
{
    let mut book = vault.take(rt, seat);
    let reply = book.take_this(seat.number(), leaf);
    give(vault, seat, book);
    reply
}

/// The literals of a leaf that the seat's number holds. The only error is want of memory.
pub fn cube<R: Wait>(
    rt: &R,
    vault: &Vault<Book>,
    seat: &mut Seat<Book>,
    leaf: Leaf,
) -> Result<Vec<Lit>, AllocError>
    requires of { IsOf vault.now seat.old }
    requires rests { (view seat.old).holds ≡ false }
    requires held { status_of (seen_board (view seat.old)).nodes leaf ≡ status.Held (view seat.old).number }
    ensures of { IsBeside seat.old seat.new }
    ensures stays { Stays (view seat.old) (view seat.new) }
    ensures ok { IfOk result (λ cube. cube.items ≡ cube_of (seen_board (view seat.old)).nodes leaf) }
    ensures call { (before : List Event) × IsCall (view seat.old) (view seat.new) before [] }
{
    let book = vault.take(rt, seat);
    let reply = book.cube(leaf);
    give(vault, seat, book);
    reply
}

/// Splits a leaf that the seat's number holds on a variable that its cube lacks. None comes exactly where there is no room.
pub fn split<R: Wait>(
    rt: &R,
    vault: &Vault<Book>,
    seat: &mut Seat<Book>,
    leaf: Leaf,
    lit: Lit,
) -> Result<Option<(Leaf, Leaf)>, AllocError>
    requires of { IsOf vault.now seat.old }
    requires rests { (view seat.old).holds ≡ false }
    requires held { status_of (seen_board (view seat.old)).nodes leaf ≡ status.Held (view seat.old).number }
    requires variable { IsVariable (seen_board (view seat.old)).task.program lit.var }
    requires new { has_var (cube_of (seen_board (view seat.old)).nodes leaf) lit.var ≡ false }
    ensures of { IsBeside seat.old seat.new }
    ensures stays { Stays (view seat.old) (view seat.new) }
    ensures ok { IfOk result (λ r. (before : List Event) × Divides (replay (task_of (view seat.old)) before) r × IsCall (view seat.old) (view seat.new) before (divided (view seat.old).number leaf lit r)) }
    ensures err { OnErr result ((before : List Event) × IsCall (view seat.old) (view seat.new) before []) }
{
    let mut book = vault.take(rt, seat);
    let reply = book.split(seat.number(), leaf, lit);
    give(vault, seat, book);
    reply
}

/// Delivers an answer that the goal lists. False comes exactly where enough were delivered before.
pub fn deliver<R: Wait>(
    rt: &R,
    vault: &Vault<Book>,
    seat: &mut Seat<Book>,
    set: Interp,
) -> Result<bool, AllocError>
    requires of { IsOf vault.now seat.old }
    requires rests { (view seat.old).holds ≡ false }
    requires listed { IsTrue (lists (seen_board (view seat.old)).task set) }
    requires answer { IsTrue (is_answer (seen_board (view seat.old)).task set) }
    ensures of { IsBeside seat.old seat.new }
    ensures stays { Stays (view seat.old) (view seat.new) }
    ensures ok { IfOk result (λ r. (before : List Event) × (r ≡ not (is_enough (replay (task_of (view seat.old)) before))) × IsCall (view seat.old) (view seat.new) before (delivered (view seat.old).number set r)) }
    ensures err { OnErr result ((before : List Event) × IsCall (view seat.old) (view seat.new) before []) }
{
    let mut book = vault.take(rt, seat);
    let reply = book.deliver(seat.number(), set);
    give(vault, seat, book);
    reply
}

/// Delivers an answer that the goal lists, by its row among the program's atoms, which is made before. False comes exactly where
/// enough were delivered before.
pub fn list<R: Wait>(
    rt: &R,
    vault: &Vault<Book>,
    seat: &mut Seat<Book>,
    row: Row,
    set: Interp,
) -> Result<bool, AllocError>
    requires of { IsOf vault.now seat.old }
    requires rests { (view seat.old).holds ≡ false }
    requires goal { sought (seen_board (view seat.old)).task.goal ≡ None }
    requires listed { IsTrue (lists (seen_board (view seat.old)).task set) }
    requires answer { IsTrue (is_answer (seen_board (view seat.old)).task set) }
    requires row { IsRowFor (atoms_of (seen_board (view seat.old)).task.program) set row }
    ensures of { IsBeside seat.old seat.new }
    ensures stays { Stays (view seat.old) (view seat.new) }
    ensures ok { IfOk result (λ r. (before : List Event) × (r ≡ not (is_enough (replay (task_of (view seat.old)) before))) × IsCall (view seat.old) (view seat.new) before (delivered (view seat.old).number set r)) }
    ensures err { OnErr result ((before : List Event) × IsCall (view seat.old) (view seat.new) before []) }
{
    let mut book = vault.take(rt, seat);
    let reply = book.list(seat.number(), row, set);
    give(vault, seat, book);
    reply
}

/// Delivers these answers in their order, in one turn. Where it is enough on the way the reply is false, and the others are left out;
/// for want of memory those before are delivered.
pub fn list_all<R: Wait>(
    rt: &R,
    vault: &Vault<Book>,
    seat: &mut Seat<Book>,
    found: Vec<Listing>,
) -> Result<bool, AllocError>
    requires of { IsOf vault.now seat.old }
    requires rests { (view seat.old).holds ≡ false }
    requires goal { sought (seen_board (view seat.old)).task.goal ≡ None }
    requires found { AllByRecursion (IsListing (seen_board (view seat.old)).task) found.items }
    ensures of { IsBeside seat.old seat.new }
    ensures stays { Stays (view seat.old) (view seat.new) }
    ensures call { (before : List Event) × (front : List Listed) × Lists (view seat.old).number (replay (task_of (view seat.old)) before) found.items result front × IsCall (view seat.old) (view seat.new) before (deliveries (view seat.old).number front) }
{
    let mut book = vault.take(rt, seat);
    let reply = book.list_all(seat.number(), found);
    give(vault, seat, book);
    reply
}

/// Records an answer as the best. Where the best costs no more, its cost is answered, and nothing is recorded.
pub fn improve<R: Wait>(
    rt: &R,
    vault: &Vault<Book>,
    seat: &mut Seat<Book>,
    set: Interp,
) -> Result<Option<Cost>, AllocError>
    requires of { IsOf vault.now seat.old }
    requires rests { (view seat.old).holds ≡ false }
    requires goal { IsTrue (optimises (seen_board (view seat.old)).task.goal) }
    requires answer { IsTrue (is_answer (seen_board (view seat.old)).task set) }
    ensures of { IsBeside seat.old seat.new }
    ensures stays { Stays (view seat.old) (view seat.new) }
    ensures ok { IfOk result (λ r. (before : List Event) × Improves (replay (task_of (view seat.old)) before) set r × IsCall (view seat.old) (view seat.new) before (improved (view seat.old).number set r)) }
    ensures err { OnErr result ((before : List Event) × IsCall (view seat.old) (view seat.new) before []) }
{
    let mut book = vault.take(rt, seat);
    let reply = book.improve(seat.number(), set);
    give(vault, seat, book);
    reply
}

/// Closes a leaf that the seat's number holds, for a nogood within its cube that each stable model hits in vain.
pub fn close<R: Wait>(
    rt: &R,
    vault: &Vault<Book>,
    seat: &mut Seat<Book>,
    leaf: Leaf,
    nogood: &[Lit],
) -> Result<(), AllocError>
    requires of { IsOf vault.now seat.old }
    requires rests { (view seat.old).holds ≡ false }
    requires held { status_of (seen_board (view seat.old)).nodes leaf ≡ status.Held (view seat.old).number }
    requires within { IsTrue (has_all (cube_of (seen_board (view seat.old)).nodes leaf) nogood.now) }
    requires settled { HitsOnly (seen_board (view seat.old)).task.program (is_excused (seen_board (view seat.old))) nogood.now }
    ensures of { IsBeside seat.old seat.new }
    ensures stays { Stays (view seat.old) (view seat.new) }
    ensures ok { OnOk result ((before : List Event) × IsCall (view seat.old) (view seat.new) before (event.Close (view seat.old).number leaf nogood.now ∷ [])) }
    ensures err { OnErr result ((before : List Event) × IsCall (view seat.old) (view seat.new) before []) }
{
    let mut book = vault.take(rt, seat);
    let reply = book.close(seat.number(), leaf, nogood);
    give(vault, seat, book);
    reply
}

/// Opens a leaf again that the seat's number holds. It takes no memory.
pub fn release<R: Wait>(rt: &R, vault: &Vault<Book>, seat: &mut Seat<Book>, leaf: Leaf)
    requires of { IsOf vault.now seat.old }
    requires rests { (view seat.old).holds ≡ false }
    requires held { status_of (seen_board (view seat.old)).nodes leaf ≡ status.Held (view seat.old).number }
    ensures of { IsBeside seat.old seat.new }
    ensures stays { Stays (view seat.old) (view seat.new) }
    ensures call { (before : List Event) × IsCall (view seat.old) (view seat.new) before (event.Release (view seat.old).number leaf ∷ []) }
{
    let mut book = vault.take(rt, seat);
    book.release(seat.number(), leaf);
    give(vault, seat, book);
}

/// The best cost, where an answer was recorded. The only error is want of memory.
pub fn best<R: Wait>(
    rt: &R,
    vault: &Vault<Book>,
    seat: &mut Seat<Book>,
) -> Result<Option<Cost>, AllocError>
    requires of { IsOf vault.now seat.old }
    requires rests { (view seat.old).holds ≡ false }
    ensures of { IsBeside seat.old seat.new }
    ensures stays { Stays (view seat.old) (view seat.new) }
    ensures ok { IfOk result (λ r. (before : List Event) × (r ≡ option_map (cost (replay (task_of (view seat.old)) before).task.program) (replay (task_of (view seat.old)) before).best) × IsCall (view seat.old) (view seat.new) before []) }
    ensures err { OnErr result ((before : List Event) × IsCall (view seat.old) (view seat.new) before []) }
{
    let book = vault.take(rt, seat);
    let reply = book.best();
    give(vault, seat, book);
    reply
}

/// What the answers delivered have in common, where that is sought. The only error is want of memory.
pub fn known<R: Wait>(
    rt: &R,
    vault: &Vault<Book>,
    seat: &mut Seat<Book>,
) -> Result<Option<Known>, AllocError>
    requires of { IsOf vault.now seat.old }
    requires rests { (view seat.old).holds ≡ false }
    ensures of { IsBeside seat.old seat.new }
    ensures stays { Stays (view seat.old) (view seat.new) }
    ensures ok { IfOk result (λ r. (before : List Event) × (r ≡ known_of (replay (task_of (view seat.old)) before)) × IsCall (view seat.old) (view seat.new) before []) }
    ensures err { OnErr result ((before : List Event) × IsCall (view seat.old) (view seat.new) before []) }
{
    let book = vault.take(rt, seat);
    let reply = book.known();
    give(vault, seat, book);
    reply
}

/// How many leaves are open.
pub fn open_leaves<R: Wait>(rt: &R, vault: &Vault<Book>, seat: &mut Seat<Book>) -> usize
    requires of { IsOf vault.now seat.old }
    requires rests { (view seat.old).holds ≡ false }
    ensures of { IsBeside seat.old seat.new }
    ensures stays { Stays (view seat.old) (view seat.new) }
    ensures call { (before : List Event) × (result ≡ length (open_from 0 (replay (task_of (view seat.old)) before).nodes)) × IsCall (view seat.old) (view seat.new) before [] }
{
    let book = vault.take(rt, seat);
    let reply = book.open_leaves();
    give(vault, seat, book);
    reply
}

/// How many leaves are held.
pub fn held_leaves<R: Wait>(rt: &R, vault: &Vault<Book>, seat: &mut Seat<Book>) -> usize
    requires of { IsOf vault.now seat.old }
    requires rests { (view seat.old).holds ≡ false }
    ensures of { IsBeside seat.old seat.new }
    ensures stays { Stays (view seat.old) (view seat.new) }
    ensures call { (before : List Event) × (result ≡ held_count (replay (task_of (view seat.old)) before).nodes) × IsCall (view seat.old) (view seat.new) before [] }
{
    let book = vault.take(rt, seat);
    let reply = book.held_leaves();
    give(vault, seat, book);
    reply
}

/// Whether a leaf may split.
pub fn room<R: Wait>(rt: &R, vault: &Vault<Book>, seat: &mut Seat<Book>) -> bool
    requires of { IsOf vault.now seat.old }
    requires rests { (view seat.old).holds ≡ false }
    ensures of { IsBeside seat.old seat.new }
    ensures stays { Stays (view seat.old) (view seat.new) }
    ensures call { (before : List Event) × (IsTrue result ↔ (length (replay (task_of (view seat.old)) before).nodes < 4194304)) × IsCall (view seat.old) (view seat.new) before [] }
{
    let book = vault.take(rt, seat);
    let reply = book.room();
    give(vault, seat, book);
    reply
}

/// Whether a split is wanted: no leaf is open, fewer leaves are held than there are workers, and a leaf may split.
///
/// All three are asked at one moment.
pub fn wanted<R: Wait>(rt: &R, vault: &Vault<Book>, seat: &mut Seat<Book>, workers: u32) -> bool
    requires of { IsOf vault.now seat.old }
    requires rests { (view seat.old).holds ≡ false }
    ensures of { IsBeside seat.old seat.new }
    ensures stays { Stays (view seat.old) (view seat.new) }
    ensures call { (before : List Event) × (IsTrue result ↔ IsWanted workers (replay (task_of (view seat.old)) before)) × IsCall (view seat.old) (view seat.new) before [] }
{
    let book = vault.take(rt, seat);
    let reply = book.wanted(workers);
    give(vault, seat, book);
    reply
}

/// Whether there is a limit, and as many different answers were delivered.
pub fn enough<R: Wait>(rt: &R, vault: &Vault<Book>, seat: &mut Seat<Book>) -> bool
    requires of { IsOf vault.now seat.old }
    requires rests { (view seat.old).holds ≡ false }
    ensures of { IsBeside seat.old seat.new }
    ensures stays { Stays (view seat.old) (view seat.new) }
    ensures call { (before : List Event) × (result ≡ is_enough (replay (task_of (view seat.old)) before)) × IsCall (view seat.old) (view seat.new) before [] }
{
    let book = vault.take(rt, seat);
    let reply = book.enough();
    give(vault, seat, book);
    reply
}

/// Gives so many units, or all that the pool has.
pub fn lease<R: Wait>(
    rt: &R,
    vault: &Vault<Book>,
    seat: &mut Seat<Book>,
    units: u64,
) -> Result<Fuel, AllocError>
    requires of { IsOf vault.now seat.old }
    requires rests { (view seat.old).holds ≡ false }
    requires some { 0 < units }
    ensures of { IsBeside seat.old seat.new }
    ensures stays { Stays (view seat.old) (view seat.new) }
    ensures ok { IfOk result (λ u. (before : List Event) × (u ≡ record { program = (replay (task_of (view seat.old)) before).task.program; left = min units (replay (task_of (view seat.old)) before).pool; burnt = 0; reasoned = false; known = 0; least = None }) × IsCall (view seat.old) (view seat.new) before (leased_out (view seat.old).number u)) }
    ensures err { OnErr result ((before : List Event) × IsCall (view seat.old) (view seat.new) before []) }
{
    let mut book = vault.take(rt, seat);
    let reply = book.lease(seat.number(), units);
    give(vault, seat, book);
    reply
}

/// Takes all units of the seat's number back, those that are left and those that were burnt. It takes no memory.
pub fn back<R: Wait>(rt: &R, vault: &Vault<Book>, seat: &mut Seat<Book>, fuel: Fuel)
    requires of { IsOf vault.now seat.old }
    requires rests { (view seat.old).holds ≡ false }
    requires fuel { ComesBack (seen_board (view seat.old)) (out_of (seen_board (view seat.old)).out (view seat.old).number) fuel }
    ensures of { IsBeside seat.old seat.new }
    ensures stays { Stays (view seat.old) (view seat.new) }
    ensures call { (before : List Event) × IsCall (view seat.old) (view seat.new) before (given_back (view seat.old).number fuel) }
{
    let mut book = vault.take(rt, seat);
    book.back(seat.number(), fuel);
    give(vault, seat, book);
}
