//! What a trail leaves open.
ghost use Rattle.std.specs.Prelude.{◌≡◌, ◌<◌, ◌≤◌, ℕ, IfSome, IsSome};
ghost use Rattle.asp_vars.specs.Literals.{value_of};
ghost use Rattle.asp_vars.specs.Numbering.{var_count};
ghost use Rattle.asp_trail.specs.Entries.{assignment};
ghost use Rattle.asp_split.specs.Following.{IsLeastOpen};

use asp_model::program::Atom;
use asp_trail::trail::Trail;
use asp_vars::compiled::Compiled;
use asp_vars::lit::Var;

// The least of the variables 1 to `most` that has no value.
fn first_open(trail: &Trail, most: Var) -> Option<Var>
    requires { most ≤ trail.now.vars }
    ensures within { IfSome result (λ v. (0 < v) × (v ≤ most)) }
    ensures decided { IfSome result (λ v. (w : ℕ) → 0 < w → w < v → IsSome (value_of (assignment trail.now.vars trail.now.entries) w)) }
{
    for var in 1..=most {
        if trail.value(var).is_none() {
            return Some(var);
        }
    }
    None
}

/// The least atom that has no value on the trail.
pub(crate) fn least_open(compiled: &Compiled, trail: &Trail) -> Option<Atom>
    requires { trail.now.vars ≡ var_count compiled.now }
    ensures { IfSome result (IsLeastOpen compiled.now (assignment trail.now.vars trail.now.entries)) }
{
    let _program = compiled.program();
    match first_open(trail, compiled.atom_count() as u32) {
        None => None,
        Some(var) => compiled.atom(var),
    }
}
