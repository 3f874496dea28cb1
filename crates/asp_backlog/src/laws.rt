//! Laws of what was told and what waits. Each function's contract is a law, and its body is empty.
ghost use Rattle.std.specs.Prelude.{◌≡◌, ◌++◌, List, None, Some, false, filter, not};
ghost use mathlib.Core.List.{IsPrefix};
ghost use Rattle.asp_model.specs.Sets.{Atoms};
ghost use Rattle.asp_core.specs.declared.event.Event.{Event};
ghost use Rattle.asp_core.specs.declared.event.Event.TheVariants as event;
ghost use Rattle.asp_core.specs.Boards.{Board, sought};
ghost use Rattle.asp_core.specs.Events.{Guard, happens};
ghost use Rattle.asp_core.specs.Invariant.{IsBoard};
ghost use Rattle.asp_core.specs.Sorting.{sorted_once};
ghost use Rattle.asp_watermark.specs.Floors.{IsFloor, is_below, listed};
ghost use Rattle.asp_backlog.specs.Backlogs.{Pending, with_waiting};
ghost use Rattle.asp_backlog.specs.Telling.{IsTold};

/// What was told and what waits go with the board on, whatever happens to it, and when the floor rises.
pub fn what_is_told_goes_with_the_board()
    ensures other { (b : Board) (e : Event) (heard : List Atoms) (w : Pending) → Guard b e → (happens b e).task ≡ b.task → (happens b e).answers ≡ b.answers → IsTold b heard w → IsTold (happens b e) heard w }
    ensures delivered { (b : Board) (S : Atoms) (heard : List Atoms) (w : Pending) → IsBoard b → sought b.task.goal ≡ None → Guard b (event.Deliver 0 S)
        → IsTold b heard w → IsTold (happens b (event.Deliver 0 S)) heard (record w { sets = with_waiting w.floor S w.sets }) }
    ensures raised { (b : Board) (heard : List Atoms) (w : Pending) (low : Atoms) → IsTold b heard w → IsFloor b (Some low) → is_below (Some w.floor) low ≡ false
        → IsTold b (heard ++ filter (is_below (Some low)) w.sets) (record w { floor = low; sets = filter (λ S. not (is_below (Some low) S)) w.sets }) }
{}

/// What was told is a front of all that the goal lists; with what waits it is all that was delivered, each answer once and in order.
pub fn what_is_told_is_a_front()
    ensures front { (b : Board) (heard : List Atoms) (w : Pending) → IsBoard b → sought b.task.goal ≡ None → IsTold b heard w → IsPrefix heard (listed b.task) }
    ensures all { (b : Board) (heard : List Atoms) (w : Pending) → IsBoard b → sought b.task.goal ≡ None → IsTold b heard w → heard ++ w.sets ≡ sorted_once b.answers }
{}
