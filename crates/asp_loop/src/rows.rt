//! What unfounded sets of small programs are, and what bodies add to their nogoods, by the definitions.
ghost use Rattle.std.specs.Prelude.{◌≡◌, [], ◌∷◌, true, false, pos, IsTrue};
ghost use Rattle.asp_model.specs.declared.program.Body.TheVariants as body;
ghost use Rattle.asp_model.specs.Rows.{weight_loop};
ghost use Rattle.asp_vars.specs.Literals.{F};
ghost use Rattle.asp_vars.specs.Unfounded.{is_unfounded};
ghost use Rattle.asp_loop.specs.LoopNogoods.{IsPart};
ghost use Rattle.asp_loop.specs.Rows.{supported_loop, with_support};

/// Two atoms that support each other are unfounded where the support from outside is false, and not where it is true.
/// The body from outside adds that it is false, the two others add nothing.
pub fn loop_needs_its_support()
    ensures without { IsTrue (is_unfounded supported_loop (with_support false) (1 ∷ 2 ∷ [])) }
    ensures with { is_unfounded supported_loop (with_support true) (1 ∷ 2 ∷ []) ≡ false }
    ensures first { IsPart supported_loop (1 ∷ 2 ∷ []) (body.All (pos 2 ∷ [])) [] }
    ensures second { IsPart supported_loop (1 ∷ 2 ∷ []) (body.All (pos 1 ∷ [])) [] }
    ensures outside { IsPart supported_loop (1 ∷ 2 ∷ []) (body.All (pos 3 ∷ [])) (F 3 ∷ []) }
{}

/// A weight body that reaches its bound by its own head alone adds nothing.
pub fn own_weight_founds_nothing()
    ensures { IsPart weight_loop (1 ∷ []) (body.AtLeast (pos 2) ((pos 1, pos 2) ∷ (pos 2, pos 1) ∷ [])) [] }
{}
