//! Laws of what a search tells of its leaf while it goes on. Each function's contract is a law, and its body is empty.
ghost use Rattle.std.specs.Prelude.{◌≡◌, Bool, ℕ, ℤ, List, Option, true, false, slice_index_or, IsTrue};
ghost use Rattle.asp_model.specs.declared.program.Program.{Program};
ghost use Rattle.asp_model.specs.declared.results.Mode.TheVariants.{Enum};
ghost use Rattle.asp_model.specs.Consequences.{used_up};
ghost use Rattle.asp_model.specs.Models.{answers, atoms_of, is_stable};
ghost use Rattle.asp_model.specs.Sets.{Atoms, has, with_atom};
ghost use Rattle.asp_vars.specs.Entailment.{is_done};
ghost use Rattle.asp_vars.specs.Literals.{hits};
ghost use Rattle.asp_vars.specs.Numbering.{values, var_of_atom};
ghost use Rattle.asp_path.specs.Trees.{cube_of};
ghost use Rattle.asp_core.specs.Boards.{Board, sought};
ghost use Rattle.asp_watermark.specs.Floors.{IsLow, listed};
ghost use Rattle.asp_crew_laws.specs.Agrees.{Agrees};
ghost use Rattle.asp_crew_laws.specs.Runs.{asks, task_of};

/// An atom that a search has as true without a decision, on the path of a leaf, may be put into the leaf's low.
pub fn what_is_fixed_is_in_a_low()
    ensures { (b : Board) (leaf a : ℕ) (known : List Atoms) (bound : Option (List ℤ)) (low : Atoms) → Agrees b known bound → IsLow b leaf low → IsTrue (has (atoms_of b.task.program) a)
        → ((S : Atoms) → IsTrue (is_stable b.task.program S) → IsTrue (hits (values b.task.program S) (cube_of b.nodes leaf)) → is_done b.task.program (used_up (sought b.task.goal) b.task.program known) bound S ≡ false
        → slice_index_or (values b.task.program S) (var_of_atom b.task.program a) false ≡ true)
        → IsLow b leaf (with_atom a low) }
{}

/// What an enumeration lists are the program's answers.
pub fn an_enumeration_lists_the_answers()
    ensures { (p : Program) (models units : ℕ) (n : Bool) → listed (task_of p (asks Enum models n) units) ≡ answers p }
{}
