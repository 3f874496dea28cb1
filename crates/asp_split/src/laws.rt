//! Laws of the definitions. Each function's contract is a law, and its body is empty.
ghost use Rattle.std.specs.Prelude.{◌≡◌, false, List, Contains, Option, ℤ};
ghost use Rattle.std.specs.List.{All};
ghost use Rattle.asp_model.specs.declared.program.Program.{Program};
ghost use Rattle.asp_model.specs.Sets.{Atoms};
ghost use Rattle.asp_model.specs.Models.{answers};
ghost use Rattle.asp_split.specs.Bests.{AreBests, IsBest, is_better};
ghost use Rattle.asp_split.specs.Parts.{answers_of_parts};

/// Of the bests of all parts, one that none of the others betters is a best of the whole; where no part has one, the
/// whole has no answer.
pub fn a_best_of_the_bests_is_best()
    ensures best { (p : Program) (cubes : List (List ℤ)) (bests : List (Option (Atoms × List ℤ))) (best : Option (Atoms × List ℤ)) →
        answers_of_parts p cubes ≡ answers p → AreBests p cubes bests → Contains bests best →
        All (λ other. is_better other best ≡ false) bests → IsBest p best }
{}
