//! Laws of a run's journal. Each function's contract is a law, and its body is empty.
ghost use Rattle.std.specs.Prelude.{◌≡◌, ◌+◌, ◌-◌, ◌<◌, ◌≤◌, max, ◌||◌, ◌++◌, ◌∷◌, ℕ, ℤ, Bool, length, List, [], true, false, Option, Some, None, IsTrue, option_map, Contains, AllPairs};
ghost use Rattle.std.specs.List.{list_any, AllByRecursion};
ghost use Rattle.std.specs.Option.{is_some};
ghost use Rattle.std.specs.List.Sorted.{IsPermutation, IsSorted};
ghost use Rattle.std.specs.List.Retain.{IsFiltered, DiffersFromLast};
ghost use Rattle.asp_model.specs.declared.program.Program.{Program};
ghost use Rattle.asp_model.specs.declared.results.Ask.{Ask};
ghost use Rattle.asp_model.specs.declared.results.Mode.{Mode};
ghost use Rattle.asp_model.specs.declared.results.Mode.TheVariants.{Enum, Opt, Consequences};
ghost use Rattle.asp_model.specs.declared.results.Reasoning.{Reasoning};
ghost use Rattle.asp_model.specs.Asked.{reasoning_of};
ghost use Rattle.asp_model.specs.Consequences.{common_sets, used_up};
ghost use Rattle.asp_model.specs.declared.results.End.TheVariants.{Finished, Limited};
ghost use Rattle.asp_model.specs.Costs.{cost, betters};
ghost use Rattle.asp_model.specs.Models.{answers};
ghost use Rattle.asp_model.specs.Sets.{Atoms, IsBefore, same_set, set_cmp};
ghost use Rattle.asp_vars.specs.Entailment.{HitsOnly, Settled};
ghost use Rattle.asp_vars.specs.Literals.{Literal};
ghost use Rattle.asp_vars.specs.Paid.{Clash, Units, least_of};
ghost use Rattle.asp_path.specs.Trees.{all_closed, held_count};
ghost use Rattle.asp_core.specs.declared.event.Event.{Event};
ghost use Rattle.asp_core.specs.declared.event.Event.TheVariants as event;
ghost use Rattle.asp_core.specs.declared.goal.Goal.TheVariants as goal;
ghost use Rattle.asp_core.specs.declared.task.Task.{Task};
ghost use Rattle.asp_core.specs.Units.{out_of};
ghost use Rattle.asp_core.specs.Boards.{Board, common_by, goal_of, listed_by, showing, showing_of, sought, start, is_excused, IsBoundOf};
ghost use Rattle.asp_core.specs.Events.{Guard, happens, maker, IsLawful, replay};
ghost use Rattle.asp_core.specs.Growth.{Grows, Spares};
ghost use Rattle.asp_book.specs.Books.{IsJournalOf};
ghost use Rattle.asp_book.specs.Fuels.{Fits, ComesBack};
ghost use Rattle.asp_crew_laws.specs.declared.report.Report.{Report};
ghost use Rattle.asp_crew_laws.specs.Agrees.{Agrees, AreApart};
ghost use Rattle.asp_crew_laws.specs.Gone.{IsCrewGone, IsGone, IsShared};
ghost use Rattle.asp_crew_laws.specs.Reports.{board_by, joined, known_in, IsIdle, IsPart, IsPlayed, IsReport, IsToldBy, IsWhole};
ghost use Rattle.asp_crew_laws.specs.Working.{IsAtWork, MayBegin, Works};
ghost use Rattle.asp_crew_laws.specs.Runs.{asks, task_of, ties_of, IsFound, with_cost, Quiet};

/// A lawful journal after which every leaf is closed tells what was to be found.
pub fn a_closed_board_is_found()
    ensures { (p : Program) (ask : Ask) (budget : ℕ) (journal : List Event) (sorted once : List Atoms) → IsLawful (start (task_of p ask budget)) journal → all_closed (replay (task_of p ask budget) journal).nodes ≡ true
        → IsPermutation (listed_by (reasoning_of ask.mode) (replay (task_of p ask budget) journal).answers) sorted → IsSorted set_cmp sorted → IsFiltered (DiffersFromLast same_set) [] sorted once
        → IsFound ask.by_name p ask.mode once (option_map (with_cost p) (replay (task_of p ask budget) journal).best) (common_by (reasoning_of ask.mode) p (showing (goal_of ask.mode ask.by_name) p (replay (task_of p ask budget) journal).answers)) }
{}

/// Where each number found no leaf open at its end, all of them found none at one moment; and where no leaf is held, every leaf is closed.
pub fn quiet_numbers_leave_nothing()
    ensures both { (t : Task) (P Q : ℕ → Bool) (journal : List Event) → Quiet t P journal → Quiet t Q journal → Quiet t (λ n. P n || Q n) journal }
    ensures closed { (t : Task) (by : ℕ → Bool) (journal : List Event) → Quiet t by journal → ((n : ℕ) → by n ≡ true) → held_count (replay t journal).nodes ≡ 0 → all_closed (replay t journal).nodes ≡ true }
{}

/// A first search whose journal leads to what its report says: a finished one has found what was asked, and another a part of
/// it; no conflict that was paid for knew more answers than are reported.
pub fn a_journal_explains_its_report()
    ensures found { (p : Program) (ask : Ask) (units : ℕ) (r : Report) → IsPlayed (task_of p ask units) r → r.results.end ≡ Finished → IsFound ask.by_name p ask.mode r.results.answers r.results.best r.results.known }
    ensures part { (p : Program) (ask : Ask) (units : ℕ) (r : Report) → IsPlayed (task_of p ask units) r → IsPart ask.by_name p ask.mode r.results }
    ensures known { (t : Task) (r : Report) → IsPlayed t r → r.paid.known ≤ length (known_in (sought t.goal) r.results) }
{}

/// A limit is kept: the answers of a report are distinct answers of the program in their order, as many as were asked for where
/// the run ended at its limit, and fewer where it ended otherwise.
pub fn a_limit_is_kept()
    ensures count { (p : Program) (ask : Ask) (units : ℕ) (r : Report) → IsReport p ask units r → r.results.end ≡ Limited → length r.results.answers ≡ ask.models }
    ensures fewer { (p : Program) (ask : Ask) (units : ℕ) (r : Report) → IsReport p ask units r → (r.results.end ≡ Limited → ⊥) → 0 < ask.models → length r.results.answers < ask.models }
    ensures order { (p : Program) (ask : Ask) (units : ℕ) (r : Report) → IsReport p ask units r → AllPairs IsBefore r.results.answers }
    ensures answers { (p : Program) (ask : Ask) (units : ℕ) (r : Report) (S : Atoms) → IsReport p ask units r → Contains r.results.answers S → Contains (answers p) S }
{}

/// A report of a finished first search, and one of a search for all answers that cost no more than its best, are together a
/// report of a run for all optima. A first search alone is such a run where nothing is left to a second one.
pub fn two_searches_find_all_optima()
    ensures joined { (p : Program) (models units : ℕ) (n : Bool) (first ties : Report) (S : Atoms) (c : List ℤ) → IsReport p (asks Opt models n) units first → first.second ≡ None → first.results.end ≡ Finished → first.results.best ≡ Some (S, c)
        → IsJournalOf (ties_of p (asks Opt models n) c first.paid.left) ties.journal → IsToldBy (board_by (ties_of p (asks Opt models n) c first.paid.left) ties) ties
        → IsReport p (record { mode = Opt; models = models; all_optima = true; by_name = n }) units (joined first ties) }
    ensures alone { (p : Program) (ask : Ask) (units : ℕ) (r : Report) → IsReport p (asks ask.mode ask.models ask.by_name) units r → r.second ≡ None → IsWhole ask.all_optima r.results.end r.results.best → IsReport p ask units r }
{}

/// A search at work goes with the board still when the board went on and its number's units are as they were; so it does
/// after events of others.
pub fn a_search_at_work_goes_on()
    ensures begins { (b : Board) (n : ℕ) (mode : Mode) (bound : Option (List ℤ)) (u : Units) → MayBegin mode bound b.task.goal → ComesBack b (out_of b.out n) u → IsAtWork b n mode [] bound u }
    ensures on { (b c : Board) (n : ℕ) (mode : Mode) (known : List Atoms) (bound : Option (List ℤ)) (u : Units) → IsAtWork b n mode known bound u → Grows b c → out_of c.out n ≡ out_of b.out n → IsAtWork c n mode known bound u }
    ensures leaf { (b c : Board) (n leaf : ℕ) (cube : Option (List Literal)) → Works b n leaf cube → Spares n b c → Works c n leaf cube }
{}

/// A search at work goes with the board still after a unit was burnt, after its own answer was recorded, and after a lease.
pub fn a_search_at_work_records()
    ensures burnt { (b : Board) (n : ℕ) (mode : Mode) (known : List Atoms) (bound : Option (List ℤ)) (u : Units) (x : Clash) → IsAtWork b n mode known bound u → 0 < u.left → x.reasoning ≡ reasoning_of mode → x.known ≡ length known → x.bound ≡ bound
        → IsAtWork b n mode known bound (record { program = u.program; left = u.left - 1; burnt = u.burnt + 1; reasoned = u.reasoned || is_some x.reasoning; known = max u.known x.known; least = least_of u.least x.bound }) }
    ensures delivered { (b : Board) (n : ℕ) (S : Atoms) (known : List Atoms) (bound : Option (List ℤ)) (u : Units) → IsAtWork b n Enum known bound u → Guard b (event.Deliver n S) → list_any (same_set S) known ≡ false
        → IsAtWork (happens b (event.Deliver n S)) n Enum (known ++ S ∷ []) bound u }
    ensures told { (b : Board) (n : ℕ) (S : Atoms) (r : Reasoning) (known : List Atoms) (bound : Option (List ℤ)) (u : Units) → IsAtWork b n (Consequences r) known bound u → Guard b (event.Deliver n S)
        → IsAtWork (happens b (event.Deliver n S)) n (Consequences r) (common_sets r b.task.program (known ++ S ∷ [])) bound u }
    ensures adopted { (b : Board) (n : ℕ) (r : Reasoning) (known : List Atoms) (bound : Option (List ℤ)) (u : Units) → IsAtWork b n (Consequences r) known bound u
        → IsAtWork b n (Consequences r) (common_sets r b.task.program (showing_of b)) bound u }
    ensures improved { (b : Board) (n : ℕ) (S : Atoms) (known : List Atoms) (bound : Option (List ℤ)) (u : Units) → IsAtWork b n Opt known bound u → Guard b (event.Improve n S)
        → IsAtWork (happens b (event.Improve n S)) n Opt known (Some (cost b.task.program S)) u }
    ensures unimproved { (b : Board) (n : ℕ) (S B : Atoms) (known : List Atoms) (bound : Option (List ℤ)) (u : Units) → IsAtWork b n Opt known bound u → b.best ≡ Some B → betters (cost b.task.program S) (cost b.task.program B) ≡ false
        → IsAtWork b n Opt known (Some (cost b.task.program S)) u }
    ensures leased { (b : Board) (n k : ℕ) (mode : Mode) (known : List Atoms) (bound : Option (List ℤ)) (u v : Units) → IsAtWork b n mode known bound u → Guard b (event.Lease n k) → v.left + v.burnt ≡ u.left + u.burnt + k → Fits b v
        → IsAtWork (happens b (event.Lease n k)) n mode known bound v }
{}

/// What a number left behind, it still has as others go on, and where another was short of memory.
pub fn others_leave_the_gone_alone()
    ensures later { (t : Task) (n : ℕ) (xs ys : List Event) → IsLawful (start t) (xs ++ ys) → AllByRecursion (λ e. maker e ≡ n → ⊥) ys → (short never : Bool) (begun : List Event) → IsGone t short never n begun xs → IsGone t short never n begun (xs ++ ys) }
    ensures shorter { (t : Task) (n : ℕ) (begun xs : List Event) (s short never : Bool) → (s ≡ true → short ≡ true) → IsGone t s never n begun xs → IsGone t short never n begun xs }
{}

/// When the workers are gone and number 0 holds nothing, the board is idle. Where the main thread then goes on, the run was shared:
/// the workers left nothing to it, and gave nothing back, unless they were cut short or it was enough.
pub fn gone_workers_shared_the_run()
    ensures idle { (t : Task) (workers : ℕ) (short never : Bool) (begun rest : List Event) → IsCrewGone t workers short never begun rest → IsIdle (replay t (begun ++ rest)) }
    ensures shared { (t : Task) (workers : ℕ) (short never : Bool) (begun rest : List Event) → IsCrewGone t workers short never begun rest → 0 < workers → (more : List Event) → IsLawful (start t) ((begun ++ rest) ++ more) → AllByRecursion (λ e. maker e ≡ 0) more
        → IsShared t short never ((begun ++ rest) ++ more) }
{}

/// A search that agrees with the board still does after what others did, and after a delivery.
pub fn a_listing_search_agrees()
    ensures others { (b c : Board) (known : List Atoms) (bound : Option (List ℤ)) → Grows b c → Agrees b known bound → Agrees c known bound }
    ensures delivered { (b : Board) (s : ℕ) (S : Atoms) (known : List Atoms) (bound : Option (List ℤ)) → sought b.task.goal ≡ None → Agrees b known bound → Agrees (happens b (event.Deliver s S)) (known ++ S ∷ []) bound }
    ensures told { (b : Board) (s : ℕ) (S : Atoms) (r : Reasoning) (known : List Atoms) (bound : Option (List ℤ)) → sought b.task.goal ≡ Some r → Agrees b known bound → Agrees (happens b (event.Deliver s S)) (common_sets r b.task.program (known ++ S ∷ [])) bound }
    ensures adopted { (b : Board) (r : Reasoning) (known : List Atoms) (bound : Option (List ℤ)) → sought b.task.goal ≡ Some r → Agrees b known bound → Agrees b (common_sets r b.task.program (showing_of b)) bound }
{}

/// In an optimisation a search agrees with the board by the cost of an answer that is the best, or that a best stands no dearer
/// than; and a bound that isn't smaller may have been the search's as well.
pub fn an_optimising_search_agrees()
    ensures improved { (b : Board) (s : ℕ) (S : Atoms) → b.task.goal ≡ goal.Opt → Agrees (happens b (event.Improve s S)) [] (Some (cost b.task.program S)) }
    ensures unimproved { (b : Board) (S B : Atoms) → b.task.goal ≡ goal.Opt → b.best ≡ Some B → betters (cost b.task.program S) (cost b.task.program B) ≡ false → Agrees b [] (Some (cost b.task.program S)) }
    ensures bound { (b : Board) (c d : List ℤ) → b.task.goal ≡ goal.Opt → IsBoundOf b c → betters d c ≡ false → IsBoundOf b d }
{}

/// What a search that agrees with the board has settled, the board excuses; and where no set stands twice among those that it
/// knows, it knows no more than were delivered.
pub fn an_agreeing_search_may_close()
    ensures settled { (b : Board) (known : List Atoms) (bound : Option (List ℤ)) (nogood : List Literal) → Agrees b known bound → Settled b.task.program (used_up (sought b.task.goal) b.task.program known) bound nogood → HitsOnly b.task.program (is_excused b) nogood }
    ensures known { (known delivered : List Atoms) → AreApart known → AllByRecursion (λ S. IsTrue (list_any (same_set S) delivered)) known → length known ≤ length delivered }
{}
