//! Laws of the definitions. Each function's contract is a law, and its body is empty.
ghost use Rattle.std.specs.Prelude.{ℕ, List, Option, ℤ};
ghost use Rattle.std.specs.List.{All};
ghost use Rattle.asp_model.specs.declared.program.Program.{Program};
ghost use Rattle.asp_model.specs.Sets.{Atoms};
ghost use Rattle.asp_vars.specs.Entailment.{IsGood};
ghost use Rattle.asp_vars.specs.declared.nogood.Nogood.{Nogood};
ghost use Rattle.asp_trail.specs.declared.trail.Entry.{Entry};
ghost use Rattle.asp_trail.specs.Trails.{IsOrdered};
ghost use Rattle.asp_analyze.specs.Learning.{Used, IsReached, CanJoinAll};

/// Where the nogood and the reasons used are good, so is the nogood that is reached from it by these reasons.
pub fn learning_keeps_what_all_say()
    ensures good { (p : Program) (known : List Atoms) (bound : Option (List ℤ)) (vars : ℕ) (entries : List Entry) (from to : Nogood) (used : List Used) →
        IsOrdered vars entries → IsReached entries from used to → CanJoinAll bound from.base used →
        IsGood p known bound from → All (λ u. IsGood p known bound u.nogood) used → IsGood p known bound to }
{}
