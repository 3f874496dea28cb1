//! Laws of the board. Each function's contract is a law, and its body is empty.
ghost use Rattle.std.specs.Prelude.{◌≡◌, ◌<◌, ◌++◌, ◌∷◌, [], ℕ, Bool, List, length, IsTrue};
ghost use Rattle.std.specs.List.{AllByRecursion};
ghost use Rattle.std.specs.List.Retain.{IsFiltered, DiffersFromLast};
ghost use Rattle.std.specs.List.Sorted.{IsPermutation, IsSorted};
ghost use Rattle.asp_model.specs.declared.program.Program.{Program};
ghost use Rattle.asp_model.specs.declared.results.Reasoning.{Reasoning};
ghost use Rattle.asp_model.specs.Consequences.{consequences};
ghost use Rattle.asp_model.specs.Models.{is_stable};
ghost use Rattle.asp_model.specs.Sets.{Atoms, same_set, set_cmp};
ghost use Rattle.asp_model.specs.Texts.{shown};
ghost use Rattle.asp_vars.specs.Conflicts.{has_all};
ghost use Rattle.asp_vars.specs.Literals.{F, T, hits};
ghost use Rattle.asp_vars.specs.Numbering.{values};
ghost use Rattle.asp_path.specs.declared.status.Status.TheVariants as status;
ghost use Rattle.asp_path.specs.Trees.{all_closed, cube_of, status_of};
ghost use Rattle.asp_core.specs.declared.event.Event.{Event};
ghost use Rattle.asp_core.specs.declared.event.Event.TheVariants as event;
ghost use Rattle.asp_core.specs.declared.task.Task.{Task};
ghost use Rattle.asp_core.specs.Boards.{Board, start, IsQuery, is_answer, showing_by};
ghost use Rattle.asp_core.specs.Events.{Guard, happens, maker, run, IsLawful, replay};
ghost use Rattle.asp_core.specs.Growth.{Grows, Spares};
ghost use Rattle.asp_core.specs.Invariant.{IsBoard, IsCube, HasResult};
ghost use Rattle.asp_core.specs.Sorting.{sorted_once};
ghost use Rattle.asp_core.specs.Units.{out_of, total_out};

/// Whatever lawful events come, in whatever order and by whatever numbers, the board keeps its invariant; when every
/// leaf is closed it has the result.
pub fn every_lawful_list_keeps_the_board()
    ensures start { (t : Task) → IsQuery t.program t.query → IsBoard (start t) }
    ensures step { (b : Board) (e : Event) → IsBoard b → Guard b e → IsBoard (happens b e) }
    ensures board { (t : Task) (journal : List Event) → IsQuery t.program t.query → IsLawful (start t) journal → IsBoard (replay t journal) }
    ensures finished { (t : Task) (journal : List Event) → IsQuery t.program t.query → IsLawful (start t) journal → IsTrue (all_closed (replay t journal).nodes) → HasResult t.goal (replay t journal) }
{}

/// A journal goes on by one event, where its guard holds after the journal.
pub fn journals_grow()
    ensures board { (b : Board) (journal : List Event) (e : Event) → run b (journal ++ e ∷ []) ≡ happens (run b journal) e }
    ensures lawful { (b : Board) (journal : List Event) (e : Event) → IsLawful b journal → Guard (run b journal) e → IsLawful b (journal ++ e ∷ []) }
{}

/// Nothing that was recorded is taken back.
pub fn records_grow()
    ensures { (b : Board) (journal : List Event) → IsLawful b journal → Grows b (run b journal) }
{}

/// Events of other numbers leave a number's leaves and units alone.
pub fn others_spare_a_number()
    ensures { (b : Board) (journal : List Event) (s : ℕ) → IsLawful b journal → AllByRecursion (λ e. maker e ≡ s → ⊥) journal → Spares s b (run b journal) }
{}

/// A leaf whose cube has a variable both ways is hit by no set, so its holder may close it at once.
pub fn a_cube_with_both_ways_closes()
    ensures { (b : Board) (s leaf v : ℕ) → status_of b.nodes leaf ≡ status.Held s → IsTrue (has_all (cube_of b.nodes leaf) (T v ∷ F v ∷ [])) → Guard b (event.Close s leaf (T v ∷ F v ∷ [])) }
{}

/// Each node's cube begins with the literals that answers meet, and its variables are the program's. So a stable model that
/// hits a cube is an answer.
pub fn cubes_hold_answers()
    ensures cube { (b : Board) (node : ℕ) → IsBoard b → node < length b.nodes → IsCube b.task (cube_of b.nodes node) }
    ensures answer { (b : Board) (node : ℕ) (S : Atoms) → IsBoard b → IsQuery b.task.program b.task.query → node < length b.nodes → IsTrue (is_stable b.task.program S) → IsTrue (hits (values b.task.program S) (cube_of b.nodes node)) → IsTrue (is_answer b.task S) }
{}

/// Where no number has units out, no units are out.
pub fn units_are_home()
    ensures { (b : Board) → IsBoard b → ((s : ℕ) → out_of b.out s ≡ 0) → total_out b.out ≡ 0 }
{}

/// A list of sets that is sorted, and then freed of repeats that follow one another, has each set once in order.
pub fn a_sort_without_repeats_makes_single()
    ensures { (sets sorted single : List Atoms) → IsPermutation sets sorted → IsSorted set_cmp sorted → IsFiltered (DiffersFromLast same_set) [] sorted single → single ≡ sorted_once sets }
{}

/// By name the outputs that are shown are the same, whatever else counts as shown.
pub fn what_is_asked_is_told()
    ensures { (p : Program) (n : Bool) (r : Reasoning) (S : Atoms) (K : List Atoms) → shown p (consequences r p (showing_by n r p (S ∷ K))) ≡ shown p (consequences r p (S ∷ K)) }
{}
