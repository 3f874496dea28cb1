//! Laws of programs whose minimise statements are unfolded. Each function's contract is a law, and its body is empty.
ghost use Rattle.std.specs.Prelude.{◌≡◌, ℤ, List, true};
ghost use Rattle.asp_model.specs.declared.program.Program.{Program};
ghost use Rattle.asp_model.specs.declared.results.Reasoning.{Reasoning};
ghost use Rattle.asp_model.specs.Consequences.{consequences_of};
ghost use Rattle.asp_model.specs.Costs.{IsOptimum, cost, optima};
ghost use Rattle.asp_model.specs.Models.{answers, atoms_of, is_stable};
ghost use Rattle.asp_model.specs.Sets.{Atoms};
ghost use Rattle.asp_model.specs.Sound.{IsSound};
ghost use Rattle.asp_unfold.specs.Unfolded.{unfolded};

/// The program is within the limits, and has the atoms, the stable sets and the answers of the one that it was made of. Each
/// stable set costs the same.
pub fn unfolded_answers_are_the_same()
    ensures sound { (p : Program) → IsSound p → IsSound (unfolded p) }
    ensures atoms { (p : Program) → atoms_of (unfolded p) ≡ atoms_of p }
    ensures stable { (p : Program) (S : Atoms) → is_stable (unfolded p) S ≡ is_stable p S }
    ensures answers { (p : Program) → answers (unfolded p) ≡ answers p }
    ensures costs { (p : Program) (S : Atoms) → IsSound p → is_stable p S ≡ true → cost (unfolded p) S ≡ cost p S }
{}

/// So the optima are the same, and what answers have in common.
pub fn unfolded_results_are_the_same()
    ensures optima { (p : Program) → IsSound p → optima (unfolded p) ≡ optima p }
    ensures optimum { (p : Program) (S : Atoms) (c : List ℤ) → IsSound p → IsOptimum (unfolded p) S c → IsOptimum p S c }
    ensures consequences { (w : Reasoning) (p : Program) (sets : List Atoms) → consequences_of w (unfolded p) sets ≡ consequences_of w p sets }
{}
