//! What a trail shows of a program's stable models. Each function's contract is a law, and its body is empty.
ghost use Rattle.std.specs.Prelude.{◌≡◌, ◌<◌, ◌≤◌, ◌++◌, ◌∷◌, [], ℕ, Bool, false, List, Option, Some, None, ℤ, IsTrue, IsSome, length, take, slice_index_or};
ghost use Rattle.std.specs.List.{All, AllByRecursion, list_any};
ghost use Rattle.asp_model.specs.declared.program.Program.{Program};
ghost use Rattle.asp_model.specs.Sets.{Atoms, same_set};
ghost use Rattle.asp_model.specs.Models.{is_stable};
ghost use Rattle.asp_vars.specs.Literals.{Literal, complement, has_literal, holds_in, is_true, hits, value_of};
ghost use Rattle.asp_vars.specs.Numbering.{values, var_count};
ghost use Rattle.asp_vars.specs.Completion.{completion};
ghost use Rattle.asp_vars.specs.Conflicts.{IsConflict};
ghost use Rattle.asp_vars.specs.Entailment.{HitsOnly, Settled, is_done};
ghost use Rattle.asp_vars.specs.Resolution.{IsWithin};
ghost use Rattle.asp_vars.specs.declared.nogood.Nogood.{Nogood};
ghost use Rattle.asp_trail.specs.declared.trail.Entry.{Entry};
ghost use Rattle.asp_trail.specs.Entries.{assignment, level_in, reason_in};
ghost use Rattle.asp_trail.specs.Fixpoint.{is_at_fixpoint, is_violated};
ghost use Rattle.asp_trail.specs.Trails.{IsOrdered, IsVar};
ghost use Rattle.asp_found.specs.Valuations.{IsValuation};
ghost use Rattle.asp_trail_laws.specs.Fixpoint.{WereAtFixpoint};
ghost use Rattle.asp_trail_laws.specs.Settling.{AreSettled};
ghost use Rattle.asp_trail_laws.specs.Starts.{AreStarts};
ghost use Rattle.asp_trail_laws.specs.Whole.{AreBlocked, AreVars, IsWhole, atoms_on, truths};

/// A stable model that hits the cube and the first k decisions, and isn't done, hits each entry of the levels up to k.
pub fn settled_trails_hit()
    ensures { (p : Program) (known : List Atoms) (bound : Option (List ℤ)) (vars : ℕ) (cube decisions : List Literal) (entries : List Entry) (k : ℕ) (S : Atoms) →
        IsOrdered vars entries → AreSettled p known bound entries → AreStarts cube decisions entries →
        IsTrue (is_stable p S) → is_done p known bound S ≡ false → IsTrue (hits (values p S) (cube ++ take k decisions)) →
        (i : ℕ) (d : Entry) → i < length entries → (slice_index_or entries i d).level ≤ k → IsTrue (is_true (values p S) (slice_index_or entries i d).lit) }
{}

/// A violated nogood that is settled settles the cube with the decisions up to the nogood's greatest level. One of
/// level 0 settles the cube alone, and lies in it where none of its literals was implied. No set hits a cube with a literal
/// and its complement.
pub fn violated_nogoods_settle()
    ensures way { (p : Program) (known : List Atoms) (bound : Option (List ℤ)) (vars : ℕ) (cube decisions : List Literal) (entries : List Entry) (k : ℕ) (n : List Literal) →
        IsOrdered vars entries → AreSettled p known bound entries → AreStarts cube decisions entries →
        Settled p known bound n → IsTrue (is_violated (assignment vars entries) n) → All (λ l. level_in entries l.var ≤ k) n →
        Settled p known bound (cube ++ take k decisions) }
    ensures cube { (p : Program) (known : List Atoms) (bound : Option (List ℤ)) (vars : ℕ) (cube decisions : List Literal) (entries : List Entry) (n : List Literal) →
        IsOrdered vars entries → AreSettled p known bound entries → AreStarts cube decisions entries →
        Settled p known bound n → IsTrue (is_violated (assignment vars entries) n) → All (λ l. level_in entries l.var ≡ 0) n →
        Settled p known bound cube }
    ensures within { (vars : ℕ) (cube decisions : List Literal) (entries : List Entry) (n : List Literal) → IsOrdered vars entries → AreStarts cube decisions entries →
        All (λ l. IsTrue (holds_in (assignment vars entries) l)) n → All (λ l. level_in entries l.var ≡ 0) n → All (λ l. level_in entries l.var ≡ 0 → reason_in entries l.var ≡ None) n →
        IsWithin n cube }
    ensures clash { (p : Program) (excuse : Atoms → Bool) (cube : List Literal) (l : Literal) → IsTrue (has_literal cube l) → IsTrue (has_literal cube (complement l)) →
        HitsOnly p excuse cube }
{}

/// Where no nogood of the completion was unit or violated before each decision, a nogood with a literal of level k shows
/// a conflict of the cube and the first k decisions, if these and the nogood are settled.
pub fn conflicts_are_shown()
    ensures { (p : Program) (known : List Atoms) (bound : Option (List ℤ)) (vars : ℕ) (cube decisions : List Literal) (entries : List Entry) (nogood : List Literal) (l : Literal) (k : ℕ) →
        IsOrdered vars entries → AreStarts cube decisions entries → WereAtFixpoint vars (completion p) entries →
        0 < k → IsTrue (has_literal nogood l) → level_in entries l.var ≡ k → Settled p known bound (cube ++ take k decisions) → Settled p known bound nogood →
        IsConflict p known bound cube (take k decisions) nogood }
{}

/// All literals of the completion are of the program's variables.
pub fn completion_has_variables()
    ensures { (p : Program) → AllByRecursion (AreVars (var_count p)) (completion p) }
{}

/// The values on a trail are one for each variable; where a variable has a value there, it is that.
pub fn trails_have_values()
    ensures valuation { (p : Program) (vars : ℕ) (entries : List Entry) → vars ≡ var_count p → IsOrdered vars entries → IsValuation p (truths (assignment vars entries)) }
    ensures values { (a : List (Option Bool)) (v : ℕ) → IsSome (value_of a v) → value_of a v ≡ Some (slice_index_or (truths a) v false) }
{}

/// The values of a whole trail are those of the set of its true atoms. So this set hits the cube and the decisions, and
/// hits a nogood exactly where it is violated on the trail.
pub fn whole_trails_are_values()
    ensures same { (p : Program) (vars : ℕ) (entries : List Entry) → IsWhole p vars entries →
        truths (assignment vars entries) ≡ values p (atoms_on p vars entries) }
    ensures literals { (p : Program) (vars : ℕ) (entries : List Entry) (l : Literal) → IsWhole p vars entries → IsVar vars l.var →
        holds_in (assignment vars entries) l ≡ is_true (values p (atoms_on p vars entries)) l }
    ensures nogoods { (p : Program) (vars : ℕ) (entries : List Entry) (n : List Literal) → IsWhole p vars entries → AreVars vars n →
        is_violated (assignment vars entries) n ≡ hits (values p (atoms_on p vars entries)) n }
    ensures way { (p : Program) (vars : ℕ) (cube decisions : List Literal) (entries : List Entry) → IsWhole p vars entries → AreStarts cube decisions entries →
        IsTrue (hits (values p (atoms_on p vars entries)) (cube ++ decisions)) }
{}

/// Where each answer known hits a kept nogood, and none of these is violated, the set of a whole trail is another.
/// It is the only one under the cube and the decisions that isn't done, so that they are settled once it is known.
pub fn answers_are_new()
    ensures new { (p : Program) (known : List Atoms) (vars : ℕ) (kept : ℕ → Option Nogood) (entries : List Entry) → IsWhole p vars entries → AreBlocked p kept known →
        ((id : ℕ) (n : Nogood) → kept id ≡ Some n → AreVars vars n.lits) →
        ((id : ℕ) (n : Nogood) → kept id ≡ Some n → IsTrue (is_at_fixpoint (assignment vars entries) n.lits)) →
        list_any (same_set (atoms_on p vars entries)) known ≡ false }
    ensures settled { (p : Program) (known : List Atoms) (bound : Option (List ℤ)) (vars : ℕ) (cube decisions : List Literal) (entries : List Entry) →
        IsWhole p vars entries → AreSettled p known bound entries → AreStarts cube decisions entries →
        Settled p (known ++ atoms_on p vars entries ∷ []) bound (cube ++ decisions) }
{}
