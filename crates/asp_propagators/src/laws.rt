//! Laws of the definitions. Each function's contract is a law, and its body is empty.
ghost use Rattle.std.specs.Prelude.{◌≡◌, None};
ghost use Rattle.asp_model.specs.declared.program.Program.{Program};
ghost use Rattle.asp_vars.specs.declared.nogood.Base.TheVariants as base;
ghost use Rattle.asp_vars.specs.declared.nogood.Nogood.{Nogood};
ghost use Rattle.asp_vars.specs.Entailment.{Entailed};
ghost use Rattle.asp_propagators.specs.Saying.{gives};

/// Where no bound stands, what may be given is pure and entailed, so it excludes no stable model.
pub fn unbounded_gives_are_entailed()
    ensures { (p : Program) (n : Nogood) → gives p None n → (n.base ≡ base.Pure) × Entailed p n.lits }
{}
