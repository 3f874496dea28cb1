//! Laws of reading and of canonical texts. Each function's contract is a law, and its body is empty.
ghost use Rattle.std.specs.Prelude.{◌≡◌, ℕ, ◌+◌, ◌≤◌, ◌++◌, List, length, Ok, ℤ};
ghost use Rattle.asp_model.specs.declared.program.Program.{Program};
ghost use Rattle.asp_read.specs.Outcome.{outcome, most_bytes};
ghost use Rattle.asp_make.specs.Texts.{text_of};
ghost use Rattle.asp_roundtrip.specs.Parts.{IsPartOf, ended, part_text};
ghost use Rattle.asp_roundtrip.specs.Readable.{IsReadable};
ghost use Rattle.asp_roundtrip.specs.Rewritten.{rewritten};

/// A program that was read is read again from its canonical text, unless that is longer than a text may be. It is at most
/// one byte longer than the text that was read, the line feed that may be missing there at the end.
pub fn canonical_text_reads_as_its_program()
    ensures same { (text : List ℕ) (program : Program) → outcome text ≡ Ok program → length (text_of program) ≤ most_bytes → outcome (text_of program) ≡ Ok program }
    ensures short { (text : List ℕ) (program : Program) → outcome text ≡ Ok program → length (text_of program) ≤ length text + 1 }
{}

/// A program that was read is readable, and every readable program is read from its canonical text.
pub fn readable_programs_are_those_that_are_read()
    ensures read { (text : List ℕ) (program : Program) → outcome text ≡ Ok program → IsReadable program }
    ensures written { (program : Program) → IsReadable program → length (text_of program) ≤ most_bytes → outcome (text_of program) ≡ Ok program }
{}

/// A canonical text is its own canonical text.
pub fn rewriting_again_changes_nothing()
    ensures { (text canonical : List ℕ) → rewritten text ≡ Ok canonical → length canonical ≤ most_bytes → rewritten canonical ≡ Ok canonical }
{}

/// A text that ends in the line 0, with a line of a cube's assumptions before that line, reads as its program with these
/// assumptions behind its own, where the cube's atoms stand in the program and there is room for the line.
pub fn a_part_reads_as_the_program_under_its_cube()
    ensures { (front : List ℕ) (program : Program) (cube : List ℤ) → outcome (ended front) ≡ Ok program → IsPartOf front program cube →
        outcome (part_text front cube) ≡ Ok (record program { assumptions = program.assumptions ++ cube }) }
{}
