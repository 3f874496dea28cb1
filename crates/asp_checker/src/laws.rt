//! Laws of the definitions. Each function's contract is a law, and its body is empty.
ghost use Rattle.std.specs.Prelude.{ℤ, int_le, int_lt, ◌<ℤ◌, ◌≤ℤ◌, ◌+ℤ◌, false, slice_index_or, ◌≡◌, ℕ, ◌<◌, ◌≤◌, Bool, List, Option, Some, true, IsTrue, length, slice_set};
ghost use Rattle.std.specs.List.{AllByRecursion, list_all};
ghost use Rattle.asp_model.specs.declared.program.Program.{Program};
ghost use Rattle.asp_model.specs.Sets.{Atoms};
ghost use Rattle.asp_model.specs.Sound.{IsSound};
ghost use Rattle.asp_vars.specs.Literals.{Literal, complement, holds_in};
ghost use Rattle.asp_model.specs.declared.program.Body.TheVariants as body;
ghost use Rattle.asp_vars.specs.Numbering.{var_count, var_of_form, bodies_of, literal_of};
ghost use Rattle.asp_vars.specs.Literals.{T, F};
ghost use Rattle.asp_vars.proofs.StandingLaws.{Among};
ghost use Rattle.asp_loop.proofs.WeightedLaws.{AreItems};
ghost use Rattle.asp_checker.specs.Propagation.{may_hold, weight_by};
ghost use Rattle.asp_vars.specs.Unfounded.{assigned};
ghost use Rattle.asp_vars.specs.Entailment.{HitsOnly, Entailed};
ghost use Rattle.asp_proof.specs.declared.proof.Proof.{Proof};
ghost use Rattle.asp_checker.specs.Propagation.{Known, IsPropagated, LeadsToConflict, reaches_bound};
ghost use Rattle.asp_checker.specs.Lines.{AreOf, IsLoop};
ghost use Rattle.asp_checker.specs.Right.{IsRight, Shows};
ghost use Rattle.asp_checker.specs.Steps.{Follow, Forced, IsKnown, is_unit};
ghost use Rattle.asp_checker.specs.declared.judge.Why.{Why};
ghost use Rattle.asp_checker.specs.Judging.{IsRefused};
ghost use Rattle.asp_checker.specs.Streams.{IsFaultAt, IsWrongAt};
ghost use Rattle.asp_proof.specs.Texts.{text_of};
ghost use Rattle.asp_proof.specs.Grammar.{IsProof};

/// A right proof lists all answers, each once and in order, or in an optimisation one that none betters, and none only
/// where there is none.
pub fn right_proofs_show_what_they_list()
    ensures { (p : Program) (proof : Proof) → IsSound p → IsRight p proof → Shows p proof }
{}

/// A proof that is refused isn't right.
pub fn refused_proofs_are_not_right()
    ensures { (p : Program) (proof : Proof) (w : Why) (number : ℕ) → IsRight p proof → IsRefused p proof w number → ⊥ }
{}

/// A proof of whose text it is told that a line is wrong, or that no proof has it there, isn't right, or is no proof.
pub fn proofs_that_are_told_wrong_are_not_right()
    ensures wrong { (p : Program) (proof : Proof) (w : Why) (number : ℕ) → IsProof proof → IsRight p proof → IsWrongAt p (text_of proof) w number → ⊥ }
    ensures refused { (p : Program) (proof : Proof) (number : ℕ) → IsProof proof → IsFaultAt p (text_of proof) number → ⊥ }
{}

/// Where each nogood that is known hits excused models alone, and so does what costs too much, a line from which a conflict
/// follows does so too. The nogood of a loop's line hits none.
pub fn confirmed_lines_hit_excused_models_alone()
    ensures lines { (p : Program) (excuse : Atoms → Bool) (k : Known) (n : List Literal) → AllByRecursion (HitsOnly p excuse) k.nogoods →
        ((S : Atoms) → reaches_bound p k.bound (assigned p S) ≡ true → excuse S ≡ true) → AreOf p n → LeadsToConflict p k n → HitsOnly p excuse n }
    ensures loops { (p : Program) (U : Atoms) (n : List Literal) → IsSound p → IsLoop p U n → Entailed p n }
{}

/// Steps by which a conflict is found: what a nogood forces follows, and where all literals of one hold there is a conflict.
/// Propagated values show that there is none.
pub fn steps_follow()
    ensures unit { (p : Program) (k : Known) (x : List (Option Bool)) (n : List Literal) (l : Literal) → IsKnown k n → 0 < l.var → l.var ≤ var_count p →
        IsTrue (is_unit x n l) → Forced p k x (complement l) }
    ensures more { (p : Program) (k : Known) (n : List Literal) (x : List (Option Bool)) (l : Literal) → l.var < length x →
        Follow p k n x → Forced p k x l → Follow p k n (slice_set x l.var (Some l.truth)) }
    ensures violated { (p : Program) (k : Known) (x : List (Option Bool)) (n m : List Literal) → IsKnown k m → Follow p k n x →
        IsTrue (list_all (holds_in x) m) → LeadsToConflict p k n }
    ensures propagated { (p : Program) (k : Known) (n : List Literal) (x : List (Option Bool)) → IsPropagated p k x → IsTrue (list_all (holds_in x) n) → LeadsToConflict p k n → ⊥ }
{}

/// What a weight body forces, by the weights of its literals that hold and of those that may.
pub fn weight_bodies_force()
    ensures reached { (p : Program) (k : Known) (x : List (Option Bool)) (c : ℤ) (items : List (ℤ × ℤ)) → Among (bodies_of p) (body.AtLeast c items) → AreItems items →
        IsTrue (int_le c (weight_by (holds_in x) p items)) → Forced p k x (T (var_of_form p (body.AtLeast c items))) }
    ensures missed { (p : Program) (k : Known) (x : List (Option Bool)) (c : ℤ) (items : List (ℤ × ℤ)) → Among (bodies_of p) (body.AtLeast c items) → AreItems items →
        IsTrue (int_lt (weight_by (may_hold x) p items) c) → Forced p k x (F (var_of_form p (body.AtLeast c items))) }
    ensures needed { (p : Program) (k : Known) (x : List (Option Bool)) (c : ℤ) (items : List (ℤ × ℤ)) (j : ℕ) (d : ℤ × ℤ) →
        Among (bodies_of p) (body.AtLeast c items) → AreItems items → j < length items →
        (literal_of p (slice_index_or items j d).0).var ≤ var_count p → IsTrue (holds_in x (T (var_of_form p (body.AtLeast c items)))) →
        IsTrue (may_hold x (literal_of p (slice_index_or items j d).0)) → weight_by (may_hold x) p items <ℤ (c +ℤ (slice_index_or items j d).1) →
        Forced p k x (literal_of p (slice_index_or items j d).0) }
    ensures barred { (p : Program) (k : Known) (x : List (Option Bool)) (c : ℤ) (items : List (ℤ × ℤ)) (j : ℕ) (d : ℤ × ℤ) →
        Among (bodies_of p) (body.AtLeast c items) → AreItems items → j < length items →
        (literal_of p (slice_index_or items j d).0).var ≤ var_count p → IsTrue (holds_in x (F (var_of_form p (body.AtLeast c items)))) →
        holds_in x (literal_of p (slice_index_or items j d).0) ≡ false → c ≤ℤ (weight_by (holds_in x) p items +ℤ (slice_index_or items j d).1) →
        Forced p k x (complement (literal_of p (slice_index_or items j d).0)) }
{}
