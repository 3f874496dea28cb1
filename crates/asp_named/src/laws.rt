//! Laws of programs whose outputs have atoms. Each function's contract is a law, and its body is empty.
ghost use Rattle.std.specs.Prelude.{◌≡◌, [], map, true};
ghost use Rattle.asp_model.specs.declared.program.Program.{Program};
ghost use Rattle.asp_model.specs.declared.results.Reasoning.{Reasoning};
ghost use Rattle.asp_model.specs.Consequences.{consequences};
ghost use Rattle.asp_model.specs.Models.{answers};
ghost use Rattle.asp_model.specs.Sound.{IsSound};
ghost use Rattle.asp_model.specs.Texts.{shown};
ghost use Rattle.asp_named.specs.Named.{extended, has_numbers, named};
ghost use Rattle.asp_named.specs.Told.{told_texts};

/// The program is within the limits, and its answers are those of the program in the same order, each with the atoms of the outputs
/// whose conditions hold in it.
pub fn named_answers_are_extended()
    ensures sound { (p : Program) → IsSound p → has_numbers p ≡ true → IsSound (named p) }
    ensures answers { (p : Program) → IsSound p → has_numbers p ≡ true → answers (named p) ≡ map (extended p) (answers p) }
{}

/// What its consequences show are the texts of the outputs that some answer of the program shows, or every one.
pub fn named_consequences_are_told()
    ensures { (p : Program) (w : Reasoning) → IsSound p → has_numbers p ≡ true → ¬ (answers p ≡ []) → shown (named p) (consequences w (named p) (answers (named p))) ≡ told_texts w p }
{}
