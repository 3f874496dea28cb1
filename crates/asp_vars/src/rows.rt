//! What small programs and nogoods have, by the definitions.
ghost use Rattle.std.specs.Prelude.{◌≡◌, [], ◌∷◌, true, false, pos, negsuc};
ghost use Rattle.asp_model.specs.declared.program.Body.TheVariants as body;
ghost use Rattle.asp_model.specs.Rows.{positive_loop, two_priorities};
ghost use Rattle.asp_vars.specs.Literals.{T, F};
ghost use Rattle.asp_vars.specs.Rows.{conjunction};
ghost use Rattle.asp_vars.specs.Numbering.{normal, var_count, literal_of_body, values};
ghost use Rattle.asp_vars.specs.declared.nogood.Base.TheVariants as base;
ghost use Rattle.asp_vars.specs.Resolution.{resolvent, joined};
ghost use Rattle.asp_vars.specs.Completion.{completion};
ghost use Rattle.asp_vars.specs.Unfounded.{is_unfounded, assigned};
ghost use Rattle.std.specs.Prelude.{IsTrue};
ghost use Rattle.asp_model.specs.Rows.{weight_loop};

/// The bodies of one literal are these atoms.
pub fn bodies_of_one_literal_are_it()
    ensures count { var_count positive_loop ≡ 2 }
    ensures first { literal_of_body positive_loop (body.All (pos 2 ∷ [])) ≡ T 2 }
    ensures second { literal_of_body positive_loop (body.All (pos 1 ∷ [])) ≡ T 1 }
    ensures values { values positive_loop (2 ∷ []) ≡ false ∷ false ∷ true ∷ [] }
{}

pub fn resolvent_has_the_other_literals()
    ensures literals { resolvent (T 1 ∷ F 2 ∷ []) (T 2 ∷ F 3 ∷ []) (F 2) ≡ T 1 ∷ F 3 ∷ [] }
    ensures base { joined base.Pure (base.Below (pos 5 ∷ [])) ≡ base.Below (pos 5 ∷ []) }
    ensures least { joined (base.Below (pos 7 ∷ [])) (base.Below (pos 5 ∷ [])) ≡ base.Below (pos 5 ∷ []) }
    ensures local { joined base.Local (base.Below (pos 5 ∷ [])) ≡ base.Local }
{}

/// Literals that stand twice count once in a normal body, and add up in a weight body. A weight of 0 is left out.
pub fn normal_forms_join_equal_literals()
    ensures literals { normal (body.All (pos 3 ∷ negsuc 1 ∷ pos 3 ∷ [])) ≡ body.All (negsuc 1 ∷ pos 3 ∷ []) }
    ensures weights { normal (body.AtLeast (pos 2) ((pos 3, pos 1) ∷ (negsuc 1, pos 3) ∷ (pos 3, pos 1) ∷ (pos 4, pos 0) ∷ [])) ≡
        body.AtLeast (pos 2) ((negsuc 1, pos 3) ∷ (pos 3, pos 2) ∷ []) }
{}

pub fn completion_of_a_positive_loop()
    ensures { completion positive_loop ≡ (T 2 ∷ F 1 ∷ []) ∷ (T 1 ∷ F 2 ∷ []) ∷ (T 1 ∷ F 2 ∷ []) ∷ (T 2 ∷ F 1 ∷ []) ∷ [] }
{}

/// A body that defines an atom is that atom: it has no variable, and of the rule and the atom nothing is listed. That of a choice is variable 4.
pub fn completion_of_a_name()
    ensures count { var_count conjunction ≡ 4 }
    ensures literal { literal_of_body conjunction (body.All (pos 2 ∷ pos 3 ∷ [])) ≡ T 1 }
    ensures completion { completion conjunction ≡ (F 1 ∷ T 2 ∷ T 3 ∷ []) ∷ (T 1 ∷ F 2 ∷ []) ∷ (T 1 ∷ F 3 ∷ []) ∷ (F 4 ∷ []) ∷ (T 2 ∷ F 4 ∷ []) ∷ (T 3 ∷ F 4 ∷ []) ∷ [] }
{}

/// The body of a constraint, variable 4, is false; its literals can't both hold.
pub fn completion_of_a_constraint()
    ensures { completion two_priorities ≡ (F 3 ∷ []) ∷ (F 2 ∷ F 1 ∷ []) ∷ (T 4 ∷ []) ∷ (T 1 ∷ F 3 ∷ []) ∷ (T 2 ∷ F 3 ∷ []) ∷ [] }
{}

/// Atoms that support each other alone are unfounded, one of them without the other isn't.
pub fn positive_loop_is_unfounded()
    ensures both { IsTrue (is_unfounded positive_loop (assigned positive_loop (1 ∷ 2 ∷ [])) (1 ∷ 2 ∷ [])) }
    ensures one { is_unfounded positive_loop (assigned positive_loop (1 ∷ 2 ∷ [])) (1 ∷ []) ≡ false }
    ensures weight { IsTrue (is_unfounded weight_loop (assigned weight_loop (1 ∷ 2 ∷ [])) (1 ∷ [])) }
{}
