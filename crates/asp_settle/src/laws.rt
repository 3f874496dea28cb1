//! Laws of what is settled. Each function's contract is a law, and its body is empty.
ghost use Rattle.std.specs.Prelude.{◌≡◌, ℕ, ℤ, List, false, Bool, filter, map, option_map, IsTrue};
ghost use Rattle.asp_model.specs.declared.program.Program.{Program};
ghost use Rattle.asp_model.specs.declared.results.Reasoning.{Reasoning};
ghost use Rattle.asp_model.specs.Consequences.{consequences_of};
ghost use Rattle.asp_model.specs.Costs.{IsOptimum, cost, optima};
ghost use Rattle.asp_model.specs.Models.{answers, atoms_of};
ghost use Rattle.asp_model.specs.Sets.{Atoms, IsAscending, IsSubset, has};
ghost use Rattle.asp_model.specs.Sound.{IsSound};
ghost use Rattle.asp_model.specs.Texts.{shown};
ghost use Rattle.asp_settle.specs.Settled.{facts_of, left_of, united, without};

/// The facts are atoms of the program, ascending, and none of them stands in what is left.
pub fn facts_are_apart()
    ensures ascending { (p : Program) → IsAscending (facts_of p) }
    ensures standing { (p : Program) → IsSubset (facts_of p) (atoms_of p) }
    ensures apart { (p : Program) (a : ℕ) → IsTrue (has (facts_of p) a) → has (atoms_of (left_of p)) a ≡ false }
    ensures sound { (p : Program) → IsSound p → IsSound (left_of p) }
{}

/// The answers of a program are those of what is left, in the same order, each with the facts. Texts and costs are the same.
pub fn settled_answers_are_the_same()
    ensures answers { (p : Program) → IsSound p → answers p ≡ map (united (facts_of p)) (answers (left_of p)) }
    ensures shown { (p : Program) (S : Atoms) → shown p (united (facts_of p) S) ≡ shown (left_of p) S }
    ensures costs { (p : Program) (S : Atoms) → cost p (united (facts_of p) S) ≡ cost (left_of p) S }
{}

/// So are the optima, any of the answers or the optima, and what answers have in common.
pub fn settled_results_are_the_same()
    ensures optima { (p : Program) → IsSound p → optima p ≡ map (united (facts_of p)) (optima (left_of p)) }
    ensures optimum { (p : Program) (S : Atoms) (c : List ℤ) → IsSound p → IsOptimum (left_of p) S c → IsOptimum p (united (facts_of p) S) c }
    ensures some { (p : Program) (chosen : Atoms → Bool) → IsSound p → map (united (facts_of p)) (filter chosen (answers (left_of p))) ≡ filter (λ S. chosen (without (facts_of p) S)) (answers p) }
    ensures some_optima { (p : Program) (chosen : Atoms → Bool) → IsSound p → map (united (facts_of p)) (filter chosen (optima (left_of p))) ≡ filter (λ S. chosen (without (facts_of p) S)) (optima p) }
    ensures consequences { (p : Program) (w : Reasoning) → IsSound p → consequences_of w p (answers p) ≡ option_map (united (facts_of p)) (consequences_of w (left_of p) (answers (left_of p))) }
    ensures some_consequences { (p : Program) (w : Reasoning) (chosen : Atoms → Bool) → IsSound p → consequences_of w p (map (united (facts_of p)) (filter chosen (answers (left_of p)))) ≡ option_map (united (facts_of p)) (consequences_of w (left_of p) (filter chosen (answers (left_of p)))) }
{}
