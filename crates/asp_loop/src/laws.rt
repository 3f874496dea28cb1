//! Laws of the definitions. Each function's contract is a law, and its body is empty.
ghost use Rattle.std.specs.Prelude.{ℕ, ◌∷◌, List, IsTrue};
ghost use Rattle.asp_model.specs.declared.program.Body.{Body};
ghost use Rattle.asp_model.specs.declared.program.Program.{Program};
ghost use Rattle.asp_model.specs.Sets.{Atoms, has};
ghost use Rattle.asp_model.specs.Models.{atoms_of};
ghost use Rattle.asp_model.specs.Sound.{IsSound};
ghost use Rattle.asp_vars.specs.Literals.{Literal, T};
ghost use Rattle.asp_vars.specs.Numbering.{var_of_atom};
ghost use Rattle.asp_vars.specs.Entailment.{Entailed};
ghost use Rattle.asp_loop.specs.LoopNogoods.{AreSupports, AreParts};

/// No stable model hits a loop nogood, whatever the assignment from which it was read.
pub fn loop_nogoods_are_entailed()
    ensures { (p : Program) (U : Atoms) (a : ℕ) (bodies : List Body) (rest : List Literal) → IsSound p → IsTrue (has U a) →
        IsTrue (has (atoms_of p) a) → AreSupports p U bodies → AreParts p U bodies rest → Entailed p (T (var_of_atom p a) ∷ rest) }
{}
