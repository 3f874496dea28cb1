//! Laws of lows and floors. Each function's contract is a law, and its body is empty.
ghost use Rattle.std.specs.Prelude.{◌≡◌, ◌+◌, ◌<◌, ◌++◌, [], ℕ, Bool, List, Option, None, Some, length, filter, false, IsTrue};
ghost use Rattle.std.specs.List.{list_any};
ghost use mathlib.Core.List.{IsPrefix};
ghost use Rattle.asp_model.specs.declared.program.Program.{Program};
ghost use Rattle.asp_model.specs.Models.{atoms_of};
ghost use Rattle.asp_model.specs.Texts.{answers_from};
ghost use Rattle.asp_model.specs.Sets.{Atoms, IsAscending, IsBefore, has, same_set, with_atom};
ghost use Rattle.asp_vars.specs.Literals.{Literal, T, has_literal, hits};
ghost use Rattle.asp_vars.specs.Numbering.{values, var_of_atom};
ghost use Rattle.asp_path.specs.Trees.{all_closed, cube_of};
ghost use Rattle.asp_core.specs.declared.event.Event.{Event};
ghost use Rattle.asp_core.specs.declared.event.Event.TheVariants as event;
ghost use Rattle.asp_core.specs.Boards.{Board, is_answer, is_excused, lists, sought};
ghost use Rattle.asp_core.specs.Events.{Guard, happens, run, IsLawful};
ghost use Rattle.asp_core.specs.Invariant.{IsBoard};
ghost use Rattle.asp_core.specs.Sorting.{sorted_once};
ghost use Rattle.asp_watermark.specs.Floors.{IsFloor, IsLow, IsNoHigher, is_below, is_between, listed, passed};
ghost use Rattle.asp_watermark.specs.Parts.{IsNext, IsRest};

/// Each answer that comes before a floor is delivered, whatever the leaves are and whoever works on them. So the delivered ones
/// before it, each once and in their order, are all of the program's before it.
pub fn answers_below_a_floor_are_delivered()
    ensures each { (b : Board) (floor : Option Atoms) (S : Atoms) → IsBoard b → sought b.task.goal ≡ None → IsFloor b floor → IsTrue (is_answer b.task S) → IsTrue (lists b.task S) → IsTrue (is_below floor S) → IsTrue (list_any (same_set S) b.answers) }
    ensures all { (b : Board) (floor : Option Atoms) → IsBoard b → sought b.task.goal ≡ None → IsFloor b floor → passed b floor ≡ filter (is_below floor) (listed b.task) }
{}

/// What comes before a floor is a front of the list of all answers: of those delivered, and of the program's. Where every leaf is
/// closed there need be no floor, and the front is the whole list.
pub fn what_is_below_is_a_front()
    ensures front { (b : Board) (floor : Option Atoms) → IsBoard b → sought b.task.goal ≡ None → IsFloor b floor → IsPrefix (passed b floor) (listed b.task) }
    ensures delivered { (sets : List Atoms) (floor : Option Atoms) → IsPrefix (filter (is_below floor) (sorted_once sets)) (sorted_once sets) }
    ensures whole { (b : Board) → IsBoard b → sought b.task.goal ≡ None → IsTrue (all_closed b.nodes) → IsFloor b None × (passed b None ≡ listed b.task) }
    ensures sets { (b : Board) (x : Atoms) → IsTrue (all_closed b.nodes) → IsAscending x → IsFloor b (Some x) }
{}

/// No event takes a floor away, nor a low of a node that is there; and what came before a floor stays as it is.
pub fn floors_stay()
    ensures step { (b : Board) (e : Event) (floor : Option Atoms) → Guard b e → IsFloor b floor → IsFloor (happens b e) floor }
    ensures run { (b : Board) (journal : List Event) (floor : Option Atoms) → IsLawful b journal → IsFloor b floor → IsFloor (run b journal) floor }
    ensures low { (b : Board) (journal : List Event) (leaf : ℕ) (low : Atoms) → IsLawful b journal → leaf < length b.nodes → IsLow b leaf low → IsLow (run b journal) leaf low }
    ensures passed { (b : Board) (journal : List Event) (floor : Option Atoms) → IsBoard b → IsLawful b journal → sought b.task.goal ≡ None → IsFloor b floor → passed (run b journal) floor ≡ passed b floor }
{}

/// A delivery before a floor is a repeat.
pub fn a_delivery_below_a_floor_is_a_repeat()
    ensures { (b : Board) (floor : Option Atoms) (s : ℕ) (S : Atoms) → IsBoard b → sought b.task.goal ≡ None → IsFloor b floor → Guard b (event.Deliver s S) → IsTrue (is_below floor S) → IsTrue (list_any (same_set S) b.answers) }
{}

/// From one floor to a higher one a front goes on by what comes between them, which may be taken from a list that has none of what
/// came before the lower one.
pub fn fronts_go_on()
    ensures front { (b : Board) (low high : Option Atoms) → IsNoHigher low high → passed b high ≡ passed b low ++ filter (is_between low high) (sorted_once b.answers) }
    ensures kept { (sets : List Atoms) (q : Atoms → Bool) → sorted_once (filter q sets) ≡ filter q (sorted_once sets) }
    ensures higher { (x y : Atoms) → IsAscending x → IsAscending y → (IsBefore y x → ⊥) → IsNoHigher (Some x) (Some y) }
    ensures none { (low : Option Atoms) → IsNoHigher low None }
{}

/// Nothing is a low of each leaf, and so is what its cube says to be true; a search adds each atom that it knows to be in all
/// answers still to come there. Both halves of a leaf have its low.
pub fn lows_are_found()
    ensures nothing { (b : Board) (leaf : ℕ) → IsLow b leaf [] }
    ensures start { (b : Board) → IsFloor b (Some []) }
    ensures cube { (b : Board) (leaf a : ℕ) (low : Atoms) → IsLow b leaf low → IsTrue (has (atoms_of b.task.program) a) → IsTrue (has_literal (cube_of b.nodes leaf) (T (var_of_atom b.task.program a))) → IsLow b leaf (with_atom a low) }
    ensures known { (b : Board) (leaf a : ℕ) (low : Atoms) → IsLow b leaf low → ((S : Atoms) → IsTrue (is_answer b.task S) → IsTrue (hits (values b.task.program S) (cube_of b.nodes leaf)) → is_excused b S ≡ false → IsTrue (has S a)) → IsLow b leaf (with_atom a low) }
    ensures first { (b : Board) (s leaf : ℕ) (l : Literal) (low : Atoms) → Guard b (event.Split s leaf l) → IsLow b leaf low → IsLow (happens b (event.Split s leaf l)) (length b.nodes) low }
    ensures second { (b : Board) (s leaf : ℕ) (l : Literal) (low : Atoms) → Guard b (event.Split s leaf l) → IsLow b leaf low → IsLow (happens b (event.Split s leaf l)) (length b.nodes + 1) low }
{}

/// Parts that are taken one after another, each after as many answers as were taken before, are a front of the list of all answers.
/// Whoever takes them compares two numbers, and needs to know of the board at no other moment. Where a search ends early, what is
/// left makes all that was delivered of it, each answer once and in their order.
pub fn parts_follow()
    ensures next { (b : Board) (gone sets : List Atoms) → IsBoard b → sought b.task.goal ≡ None → IsPrefix gone (listed b.task) → IsNext b (length gone) sets → IsPrefix (gone ++ sets) (listed b.task) }
    ensures rest { (b : Board) (gone sets : List Atoms) → IsBoard b → sought b.task.goal ≡ None → IsPrefix gone (listed b.task) → IsRest b (length gone) sets → gone ++ sets ≡ sorted_once b.answers }
{}

/// The text of a front of the answers is a front of their text, and parts have their numbers go on.
pub fn texts_follow()
    ensures front { (p : Program) (xs zs : List Atoms) → IsPrefix xs zs → IsPrefix (answers_from p 1 xs) (answers_from p 1 zs) }
    ensures goes_on { (p : Program) (i : ℕ) (xs ys : List Atoms) → answers_from p i (xs ++ ys) ≡ answers_from p i xs ++ answers_from p (i + length xs) ys }
{}
