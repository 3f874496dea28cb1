//! Laws of the definitions. Each function's contract is a law, and its body is empty.
ghost use Rattle.std.specs.Prelude.{◌≡◌, ◌++◌, ◌∷◌, [], ℕ, List, Option, Some, None, ℤ, IsTrue, length};
ghost use Rattle.std.specs.List.{All};
ghost use Rattle.asp_model.specs.declared.program.Program.{Program};
ghost use Rattle.asp_model.specs.Sets.{Atoms, has, IsSubset};
ghost use Rattle.asp_model.specs.Sound.{IsSound};
ghost use Rattle.asp_vars.specs.Literals.{Literal, value_of};
ghost use Rattle.asp_vars.specs.Numbering.{var_count};
ghost use Rattle.asp_vars.specs.Unfounded.{assigned, is_unfounded};
ghost use Rattle.asp_vars.specs.declared.nogood.Nogood.{Nogood};
ghost use Rattle.asp_trail.specs.declared.trail.Entry.{Entry};
ghost use Rattle.asp_trail.specs.Entries.{assignment, cut};
ghost use Rattle.asp_trail.specs.Reasons.{IsReason};
ghost use Rattle.asp_trail.specs.Trails.{IsOrdered};
ghost use Rattle.asp_analyze.specs.Learning.{Used, AreContained, IsJump, IsReached};
ghost use Rattle.asp_found.specs.Verdicts.{IsBroken};
ghost use Rattle.asp_loop.specs.LoopNogoods.{IsLoopNogood};
ghost use Rattle.asp_trail_laws.specs.Whole.{IsWhole, atoms_on};
ghost use Rattle.asp_propagate.specs.Useful.{IsUseful};
ghost use Rattle.asp_search_laws.specs.Axioms.{IsDerived};
ghost use Rattle.asp_search_laws.specs.Faults.{IsFault};
ghost use Rattle.asp_search_laws.specs.Steps.{IsBeside};

use asp_propagate::propagator::Propagator;

/// What is reached by resolution from nogoods that count for a search counts for it.
pub fn learnt_nogoods_count()
    ensures { (p : Program) (known : List Atoms) (bound : Option (List ℤ)) (vars : ℕ) (entries : List Entry) (from to : Nogood) (used : List Used) →
        IsOrdered vars entries → IsReached entries from used to → IsUseful p known bound from → All (λ u. IsUseful p known bound u.nogood) used → IsUseful p known bound to }
{}

/// What is derived from nogoods that count for a search counts for it, whatever answers it knows: an axiom does, and so
/// does what is reached by resolution.
pub fn derived_nogoods_count<P: Propagator>()
    ensures { (p : Program) (known : List Atoms) (bound : Option (List ℤ)) (kept : ℕ → Option Nogood) (n : Nogood) → IsSound p →
        ((id : ℕ) (m : Nogood) → kept id ≡ Some m → IsUseful p known bound m) → IsDerived p (P.gives p bound) bound kept n → IsUseful p known bound n }
{}

/// After the jump back the literal has no value, and follows by the learnt nogood, whose other literals hold.
pub fn jumps_imply()
    ensures none { (vars : ℕ) (entries : List Entry) (from n : List Literal) (to : ℕ) (lit : Literal) → IsOrdered vars entries → AreContained vars entries n → IsJump entries from n to lit →
        value_of (assignment vars (cut to entries)) lit.var ≡ None }
    ensures reason { (vars : ℕ) (entries : List Entry) (from n : List Literal) (to : ℕ) (lit : Literal) → IsOrdered vars entries → AreContained vars entries n → IsJump entries from n to lit →
        (e : Entry) → IsReason (cut to entries ++ e ∷ []) (length (cut to entries)) lit n }
    ensures beside { (vars : ℕ) (entries : List Entry) (from n : List Literal) (to : ℕ) (lit : Literal) → IsOrdered vars entries → AreContained vars entries n → IsJump entries from n to lit →
        All (IsBeside (assignment vars (cut to entries)) lit) n }
{}

/// The set of a whole trail hits what the trail violates: where it isn't stable, a nogood of the completion, or a loop
/// nogood of atoms of the set.
pub fn unstable_sets_are_violated()
    ensures unfounded { (p : Program) (entries : List Entry) → IsWhole p (var_count p) entries → (U : Atoms) →
        IsTrue (is_unfounded p (assigned p (atoms_on p (var_count p) entries)) U) → IsTrue (is_unfounded p (assignment (var_count p) entries) U) }
    ensures broken { (p : Program) (entries : List Entry) → IsWhole p (var_count p) entries → (n : Nogood) → IsBroken p (atoms_on p (var_count p) entries) n →
        IsFault p (λ m. ⊥) (var_count p) entries n }
    ensures loops { (p : Program) (entries : List Entry) → IsWhole p (var_count p) entries → (U : Atoms) (a : ℕ) (n : Nogood) → IsSubset U (atoms_on p (var_count p) entries) → IsTrue (has U a) →
        IsLoopNogood p (assignment (var_count p) entries) U a n → IsFault p (λ m. ⊥) (var_count p) entries n }
{}
