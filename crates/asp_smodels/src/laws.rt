//! Laws of the definitions. Each function's contract is a law, and its body is empty.
ghost use Rattle.std.specs.Prelude.{◌≡◌, ℕ, List, Ok};
ghost use Rattle.asp_model.specs.declared.program.Program.{Program};
ghost use Rattle.asp_model.specs.Sound.{IsSound};
ghost use Rattle.asp_smodels.specs.Outcome.{smodels_outcome};

/// The program of a text is within the ranges and limits that the meaning of programs asks for.
pub fn programs_of_texts_are_sound()
    ensures { (text : List ℕ) (p : Program) → smodels_outcome text ≡ Ok p → IsSound p }
{}
