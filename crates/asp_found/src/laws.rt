//! Laws of the definitions. Each function's contract is a law, and its body is empty.
ghost use Rattle.std.specs.Prelude.{◌≡◌, [], false, IsTrue};
ghost use Rattle.std.specs.List.{list_any};
ghost use Rattle.asp_model.specs.declared.program.Program.{Program};
ghost use Rattle.asp_model.specs.Sets.{Atoms, IsAscending, IsSubset};
ghost use Rattle.asp_model.specs.Models.{is_stable, least_model};
ghost use Rattle.asp_model.specs.Sound.{IsSound};
ghost use Rattle.asp_vars.specs.Literals.{hits};
ghost use Rattle.asp_vars.specs.Numbering.{values, IsReadBy};
ghost use Rattle.asp_vars.specs.Completion.{completion};
ghost use Rattle.asp_vars.specs.Unfounded.{assigned, is_unfounded};
ghost use Rattle.asp_found.specs.Rests.{rest};
ghost use Rattle.std.specs.Prelude.{ℕ};
ghost use Rattle.asp_model.specs.Sets.{has};
ghost use Rattle.asp_model.specs.Models.{atoms_of, rules_in_force};
ghost use Rattle.asp_vars.specs.Completion.{atom_nogood};
ghost use Rattle.asp_vars.specs.declared.nogood.Base.TheVariants as base;
ghost use Rattle.asp_vars.proofs.StandingLaws.{Among};
ghost use Rattle.asp_found.specs.Verdicts.{IsBroken, is_supported, keeps};
ghost use Rattle.std.specs.Prelude.{not, ◌||◌};
ghost use Rattle.std.specs.List.{list_all};
ghost use Rattle.std.specs.Prelude.{Bool, List, Some, map};
ghost use Rattle.asp_found.specs.Valuations.{IsValuation, KeepsWeights, true_atoms};

/// A set that hits no nogood of the completion contains the least model of its reduct. It is stable where it has
/// nothing beyond that, and else what it has is unfounded.
pub fn completion_and_rest_decide()
    ensures within { (p : Program) (S : Atoms) → IsSound p → list_any (hits (values p S)) (completion p) ≡ false → IsSubset (least_model p S) S }
    ensures stable { (p : Program) (S : Atoms) → IsSound p → IsAscending S → list_any (hits (values p S)) (completion p) ≡ false →
        rest p S ≡ [] → IsTrue (is_stable p S) }
    ensures unfounded { (p : Program) (S : Atoms) → IsSound p → IsAscending S → list_any (hits (values p S)) (completion p) ≡ false →
        is_stable p S ≡ false → IsTrue (is_unfounded p (assigned p S) (rest p S)) }
    ensures subset { (p : Program) (S : Atoms) → IsSubset (rest p S) S }
{}

/// An atom that no rule supports breaks a nogood of the completion, where names say of the set which bodies hold.
pub fn completion_is_broken()
    ensures { (p : Program) (S : Atoms) (a : ℕ) → IsSound p → IsReadBy p S → Among (atoms_of p) a → IsTrue (has (atoms_of p) a) → IsTrue (has S a) →
        is_supported p S a ≡ false → IsBroken p S (record { lits = atom_nogood p a; base = base.Pure }) }
{}

/// Where each rule is kept and each atom of the set supported, the set hits no nogood of the completion.
pub fn kept_and_supported_break_nothing()
    ensures { (p : Program) (S : Atoms) → IsTrue (list_all (keeps S) (rules_in_force p)) →
        IsTrue (list_all (λ a. not (has S a) || is_supported p S a) (atoms_of p)) → list_any (hits (values p S)) (completion p) ≡ false }
{}

/// A set that hits no nogood of the completion and has no unfounded subset is stable. A weight body's variable is whether
/// the body holds, so that each set keeps the definitions of the weight bodies.
pub fn no_unfounded_subset_makes_stable()
    ensures { (p : Program) (S : Atoms) → IsSound p → IsAscending S → list_any (hits (values p S)) (completion p) ≡ false →
        ((U : Atoms) → IsSubset U S → is_unfounded p (assigned p S) U ≡ false) → IsTrue (is_stable p S) }
{}

/// Values for all variables that hit no nogood of the completion, where each weight body's variable says whether the
/// body holds, are those of their true atoms; and where no set of these is unfounded, they are a stable model.
pub fn full_values_are_stable()
    ensures same { (p : Program) (v : List Bool) → IsValuation p v → list_any (hits v) (completion p) ≡ false → KeepsWeights p v →
        v ≡ values p (true_atoms p v) }
    ensures stable { (p : Program) (v : List Bool) → IsSound p → IsValuation p v → list_any (hits v) (completion p) ≡ false → KeepsWeights p v →
        ((U : Atoms) → IsSubset U (true_atoms p v) → is_unfounded p (map (λ b. Some b) v) U ≡ false) → IsTrue (is_stable p (true_atoms p v)) }
{}
