//! Laws of the program in which equal atoms are one. Each function's contract is a law, and its body is empty.
ghost use Rattle.std.specs.Prelude.{◌≡◌, [], ℤ, List, Bool, filter, map, option_map};
ghost use Rattle.asp_model.specs.declared.program.Program.{Program};
ghost use Rattle.asp_model.specs.declared.results.Reasoning.{Reasoning};
ghost use Rattle.asp_model.specs.Consequences.{consequences_of};
ghost use Rattle.asp_model.specs.Costs.{IsOptimum, cost, optima};
ghost use Rattle.asp_model.specs.Models.{answers};
ghost use Rattle.asp_model.specs.Sets.{Atoms};
ghost use Rattle.asp_model.specs.Sound.{IsSound};
ghost use Rattle.asp_model.specs.Texts.{shown};
ghost use Rattle.asp_equal.specs.Merged.{copies_of, extended, merged_of, staying};
ghost use Rattle.asp_equal.specs.Reduced.{reduced, reduced_set, whole};

/// The answers of a program are those of the merged one, in the same order, each with the atoms that went. Texts and costs are the same.
pub fn merged_answers_are_the_same()
    ensures answers { (p : Program) → IsSound p → answers p ≡ map (extended (copies_of p)) (answers (merged_of p)) }
    ensures shown { (p : Program) (S : Atoms) → shown p (extended (copies_of p) S) ≡ shown (merged_of p) S }
    ensures again { (p : Program) (S : Atoms) → shown (merged_of p) (extended (copies_of p) S) ≡ shown (merged_of p) S }
    ensures costs { (p : Program) (S : Atoms) → cost p (extended (copies_of p) S) ≡ cost (merged_of p) S }
    ensures same { (p : Program) → copies_of p ≡ [] → merged_of p ≡ p }
    ensures sound { (p : Program) → IsSound p → IsSound (merged_of p) }
{}

/// So are the optima, any of the answers or the optima, and what answers have in common.
pub fn merged_results_are_the_same()
    ensures optima { (p : Program) → IsSound p → optima p ≡ map (extended (copies_of p)) (optima (merged_of p)) }
    ensures optimum { (p : Program) (S : Atoms) (c : List ℤ) → IsSound p → IsOptimum (merged_of p) S c → IsOptimum p (extended (copies_of p) S) c }
    ensures some { (p : Program) (chosen : Atoms → Bool) → IsSound p → map (extended (copies_of p)) (filter chosen (answers (merged_of p))) ≡ filter (λ S. chosen (staying p S)) (answers p) }
    ensures some_optima { (p : Program) (chosen : Atoms → Bool) → IsSound p → map (extended (copies_of p)) (filter chosen (optima (merged_of p))) ≡ filter (λ S. chosen (staying p S)) (optima p) }
    ensures consequences { (p : Program) (w : Reasoning) → IsSound p → consequences_of w p (answers p) ≡ option_map (extended (copies_of p)) (consequences_of w (merged_of p) (answers (merged_of p))) }
    ensures some_consequences { (p : Program) (w : Reasoning) (chosen : Atoms → Bool) → IsSound p → consequences_of w p (map (extended (copies_of p)) (filter chosen (answers (merged_of p)))) ≡ option_map (extended (copies_of p)) (consequences_of w (merged_of p) (filter chosen (answers (merged_of p)))) }
{}

/// The facts set aside, and then the copies: what is searched of a program has its answers, each without the facts and the atoms that
/// went, in the same order. Texts and costs are the same.
pub fn reduced_answers_are_the_same()
    ensures answers { (p : Program) → IsSound p → answers p ≡ map (whole p) (answers (reduced p)) }
    ensures shown { (p : Program) (S : Atoms) → shown p (whole p S) ≡ shown (reduced p) S }
    ensures again { (p : Program) (S : Atoms) → shown (reduced p) (whole p S) ≡ shown p (whole p S) }
    ensures costs { (p : Program) (S : Atoms) → cost p (whole p S) ≡ cost (reduced p) S }
    ensures sound { (p : Program) → IsSound p → IsSound (reduced p) }
{}

/// So are the optima, any of the answers or the optima, and what answers have in common.
pub fn reduced_results_are_the_same()
    ensures optima { (p : Program) → IsSound p → optima p ≡ map (whole p) (optima (reduced p)) }
    ensures optimum { (p : Program) (S : Atoms) (c : List ℤ) → IsSound p → IsOptimum (reduced p) S c → IsOptimum p (whole p S) c }
    ensures some { (p : Program) (chosen : Atoms → Bool) → IsSound p → map (whole p) (filter chosen (answers (reduced p))) ≡ filter (λ S. chosen (reduced_set p S)) (answers p) }
    ensures some_optima { (p : Program) (chosen : Atoms → Bool) → IsSound p → map (whole p) (filter chosen (optima (reduced p))) ≡ filter (λ S. chosen (reduced_set p S)) (optima p) }
    ensures consequences { (p : Program) (w : Reasoning) → IsSound p → consequences_of w p (answers p) ≡ option_map (whole p) (consequences_of w (reduced p) (answers (reduced p))) }
    ensures some_consequences { (p : Program) (w : Reasoning) (chosen : Atoms → Bool) → IsSound p → consequences_of w p (map (whole p) (filter chosen (answers (reduced p)))) ≡ option_map (whole p) (consequences_of w (reduced p) (filter chosen (answers (reduced p)))) }
{}
