//! Laws of what an outlet writes. Each function's contract is a law, and its body is empty.
ghost use Rattle.std.specs.Prelude.{◌≡◌, ◌+◌, ◌++◌, [], List, ℤ, false, length};
ghost use mathlib.Core.List.{IsPrefix};
ghost use Rattle.asp_io.specs.Causes.{AppendsFront};
ghost use Rattle.asp_model.specs.declared.program.Program.{Program};
ghost use Rattle.asp_model.specs.declared.results.End.{End};
ghost use Rattle.asp_model.specs.Sets.{Atoms};
ghost use Rattle.asp_model.specs.Texts.{answers_from};
ghost use Rattle.asp_outlet.specs.Outlets.{Hears, IsAfter, Moment, last_text, next_text, optima_closing, optima_text, whole_text};

/// What is heard one after another is heard together, and it may be nothing.
pub fn moments_follow()
    ensures begins { (p : Program) (a : Moment) → Hears p a a [] }
    ensures goes_on { (p : Program) (a b c : Moment) (x y : List Atoms) → Hears p a b x → Hears p b c y → Hears p a c (x ++ y) }
{}

/// The lines of what was heard, of the rest and after the last are the text of the results, of optima too. At each moment a sink that began
/// with nothing heard holds beside what it held then a front of the lines of a list, where those heard are a front of it.
pub fn texts_join()
    ensures whole { (p : Program) (end : End) (heard rest : List Atoms) → next_text p [] heard ++ last_text p heard end rest ≡ whole_text p end (heard ++ rest) }
    ensures optima { (p : Program) (end : End) (cost : List ℤ) (heard rest : List Atoms)
        → next_text p [] heard ++ (next_text p heard rest ++ optima_closing end cost (length heard + length rest)) ≡ optima_text p end cost (heard ++ rest) }
    ensures front { (p : Program) (all : List Atoms) (a b : Moment) → a.heard ≡ [] → a.failed ≡ false → IsAfter p a b → IsPrefix b.heard all → AppendsFront a.held b.held (answers_from p 1 all) }
{}
