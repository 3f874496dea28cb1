//! Laws of cores. Each function's contract is a law, and its body is empty.
ghost use Rattle.std.specs.Prelude.{List, IsTrue};
ghost use Rattle.asp_path.specs.Trees.{all_closed};
ghost use Rattle.asp_core.specs.declared.event.Event.{Event};
ghost use Rattle.asp_core.specs.declared.task.Task.{Task};
ghost use Rattle.asp_core.specs.Boards.{IsQuery, start, wanted};
ghost use Rattle.asp_core.specs.Events.{IsLawful, replay};
ghost use Rattle.asp_unsat.specs.Cores.{HasNothing, IsCore, blamed};

/// Where every leaf is closed and nothing was recorded, the wanted literals that stand in nogoods for which leaves were closed
/// are a core.
pub fn what_is_blamed_is_a_core()
    ensures { (t : Task) (journal : List Event) → IsQuery t.program t.query → IsLawful (start t) journal → IsTrue (all_closed (replay t journal).nodes) → HasNothing (replay t journal)
        → IsCore t.program (wanted t) (blamed (replay t journal)) }
{}
