//! Laws of the definitions. Each function's contract is a law, and its body is empty.
ghost use Rattle.std.specs.Prelude.{◌≡◌, List, ℤ, IsTrue};
ghost use Rattle.std.specs.List.{AllByRecursion, list_any};
ghost use Rattle.asp_model.specs.declared.program.Body.{Body};
ghost use Rattle.asp_model.specs.declared.program.Program.{Program};
ghost use Rattle.asp_model.specs.Sets.{Atoms, has};
ghost use Rattle.asp_model.specs.Holding.{atom_of, holds, body_holds};
ghost use Rattle.asp_model.specs.Models.{atoms_of};
ghost use Rattle.asp_model.specs.Sound.{IsSound};
ghost use Rattle.asp_vars.specs.Literals.{hits, is_true};
ghost use Rattle.asp_model.specs.declared.program.Body.TheVariants as body;
ghost use Rattle.asp_model.specs.Models.{is_stable};
ghost use Rattle.asp_vars.specs.Numbering.{normal, body_eq, bodies_of, literal_of, literal_of_form, values, IsReadBy};
ghost use Rattle.asp_vars.specs.Entailment.{Entailed};
ghost use Rattle.asp_vars.specs.Completion.{completion};
ghost use Rattle.std.specs.Prelude.{Option, ◌++◌};
ghost use Rattle.asp_vars.specs.Literals.{Literal};
ghost use Rattle.asp_vars.specs.Entailment.{Settled, HitsOnly, excuse};
ghost use Rattle.asp_vars.specs.Resolution.{IsWithin, resolvent, joined, CanJoin};
ghost use Rattle.asp_vars.specs.declared.nogood.Base.{Base};
ghost use Rattle.std.specs.Prelude.{Bool, false, Some, None, ◌∷◌, []};
ghost use Rattle.asp_model.specs.Costs.{betters};
ghost use Rattle.asp_vars.specs.Conflicts.{IsConflict, Shows};

/// A literal of an atom's variable holds where the atom's literal does. A body's literal holds where the body does, in each set that
/// hits no nogood of the completion, as no stable model does; a weight body's does so in each set.
pub fn variables_stand_for_atoms_and_bodies()
    ensures literals { (p : Program) (S : Atoms) (l : ℤ) → IsTrue (has (atoms_of p) (atom_of l)) →
        is_true (values p S) (literal_of p l) ≡ holds S l }
    ensures bodies { (p : Program) (S : Atoms) → list_any (hits (values p S)) (completion p) ≡ false → IsReadBy p S }
    ensures stable { (p : Program) (S : Atoms) → IsSound p → IsTrue (is_stable p S) → IsReadBy p S }
    ensures weighted { (p : Program) (S : Atoms) (bound : ℤ) (items : List (ℤ × ℤ)) → IsTrue (list_any (body_eq (body.AtLeast bound items)) (bodies_of p)) →
        is_true (values p S) (literal_of_form p (body.AtLeast bound items)) ≡ body_holds S (body.AtLeast bound items) }
    ensures normal { (S : Atoms) (b : Body) → body_holds S (normal b) ≡ body_holds S b }
{}

/// No stable model hits a nogood of the completion.
pub fn completion_is_entailed()
    ensures { (p : Program) → IsSound p → AllByRecursion (Entailed p) (completion p) }
{}

/// A set that is closed under the completion shows a conflict: no least one has to be found.
pub fn closed_set_shows_a_conflict()
    ensures { (p : Program) (known : List Atoms) (bound : Option (List ℤ)) (cube decisions nogood Z : List Literal) →
        Shows p cube decisions nogood Z → Settled p known bound (cube ++ decisions) → Settled p known bound nogood → IsConflict p known bound cube decisions nogood }
{}

/// What a nogood says goes over to one with more literals; a settled one stays so when an answer is added or the
/// bound falls.
pub fn nogoods_keep_what_they_say()
    ensures literals { (p : Program) (excuse : Atoms → Bool) (n m : List Literal) → IsWithin n m → HitsOnly p excuse n → HitsOnly p excuse m }
    ensures answers { (p : Program) (known : List Atoms) (S : Atoms) (bound : Option (List ℤ)) (n : List Literal) →
        Settled p known bound n → Settled p (known ++ S ∷ []) bound n }
    ensures bound { (p : Program) (known : List Atoms) (c d : List ℤ) (n : List Literal) → betters c d ≡ false →
        Settled p known (Some c) n → Settled p known (Some d) n }
    ensures first_bound { (p : Program) (known : List Atoms) (c : List ℤ) (n : List Literal) →
        Settled p known None n → Settled p known (Some c) n }
{}

/// Resolution keeps what both nogoods say; where they say different things, the result has the joined base.
pub fn resolution_keeps_what_both_say()
    ensures same { (p : Program) (excuse : Atoms → Bool) (n m : List Literal) (l : Literal) →
        HitsOnly p excuse n → HitsOnly p excuse m → HitsOnly p excuse (resolvent n m l) }
    ensures joined { (p : Program) (known : List Atoms) (bound : Option (List ℤ)) (first second : Base) (n m : List Literal) (l : Literal) →
        CanJoin bound first second → HitsOnly p (excuse p known bound first) n → HitsOnly p (excuse p known bound second) m →
        HitsOnly p (excuse p known bound (joined first second)) (resolvent n m l) }
{}
