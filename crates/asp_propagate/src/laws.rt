//! Laws of the definitions. Each function's contract is a law, and its body is empty.
ghost use Rattle.std.specs.Prelude.{◌++◌, ◌∷◌, [], List, Option, Some, ℤ};
ghost use Rattle.asp_model.specs.declared.program.Program.{Program};
ghost use Rattle.asp_model.specs.Sets.{Atoms};
ghost use Rattle.asp_vars.specs.declared.nogood.Nogood.{Nogood};
ghost use Rattle.asp_vars.specs.Entailment.{Settled};
ghost use Rattle.asp_propagate.specs.Useful.{IsUseful, IsSmaller};

/// A nogood that counts for a search is settled by what the search knows.
pub fn useful_nogoods_settle()
    ensures { (p : Program) (known : List Atoms) (bound : Option (List ℤ)) (n : Nogood) → IsUseful p known bound n → Settled p known bound n.lits }
{}

/// A nogood that counts still does when an answer is added, or the bound falls.
pub fn useful_nogoods_stay()
    ensures answers { (p : Program) (known : List Atoms) (S : Atoms) (bound : Option (List ℤ)) (n : Nogood) →
        IsUseful p known bound n → IsUseful p (known ++ S ∷ []) bound n }
    ensures bound { (p : Program) (known : List Atoms) (bound : Option (List ℤ)) (c : List ℤ) (n : Nogood) → IsSmaller c bound →
        IsUseful p known bound n → IsUseful p known (Some c) n }
{}
