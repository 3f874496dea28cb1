//! Laws of the definitions. Each function's contract is a law, and its body is empty.
ghost use Rattle.std.specs.Prelude.{◌≡◌, ◌<◌, ◌≤◌, ◌≤ℤ◌, ℕ, ℤ, Bool, List, Option, Some, true, false, slice_index_or};
ghost use Rattle.asp_model.specs.declared.program.Program.{Program};
ghost use Rattle.asp_model.specs.Sets.{Atoms};
ghost use Rattle.asp_model.specs.Costs.{cost, cost_at};
ghost use Rattle.asp_vars.specs.Entailment.{Below};
ghost use Rattle.asp_vars.specs.Literals.{Literal, value_of};
ghost use Rattle.asp_vars.specs.Numbering.{var_count, values};
ghost use Rattle.asp_bound.specs.Bounded.{IsSmaller};
ghost use Rattle.asp_bound.specs.Definition.{ExcludesBelow, cost_of};
ghost use Rattle.asp_bound.specs.Optimism.{optimistic_at};
ghost use Rattle.asp_bound.specs.Silence.{is_silent};

/// A set that agrees with the values costs no less than their optimistic cost, at each priority.
pub fn sets_cost_no_less()
    ensures { (p : Program) (a : List (Option Bool)) (S : Atoms) (q : ℤ) →
        ((v : ℕ) (b : Bool) → 0 < v → v ≤ var_count p → value_of a v ≡ Some b → slice_index_or (values p S) v false ≡ b) →
        optimistic_at p a q ≤ℤ cost_at S p.minimize q }
{}

/// A set costs what the values of the variables in it cost.
pub fn sets_cost_as_values()
    ensures { (p : Program) (S : Atoms) → cost_of p (values p S) ≡ cost p S }
{}

/// A nogood that excludes what is below a cost is entailed below it.
pub fn exclusion_is_below()
    ensures { (p : Program) (c : List ℤ) (n : List Literal) → ExcludesBelow p c n → Below p c n }
{}

/// Where all variables have the values of a set, and the bound is silent, the set costs less than it.
pub fn silent_sets_cost_less()
    ensures { (p : Program) (bound : Option (List ℤ)) (a : List (Option Bool)) (S : Atoms) →
        ((v : ℕ) → 0 < v → v ≤ var_count p → value_of a v ≡ Some (slice_index_or (values p S) v false)) →
        is_silent p bound a ≡ true → IsSmaller (cost p S) bound }
{}
