//! Levels and reasons of literals that hold.
ghost use Rattle.std.specs.Prelude.{◌≡◌, ◌≤◌, ◌<◌, IsTrue};
ghost use Rattle.std.specs.List.{All};
ghost use Rattle.asp_vars.specs.Literals.{Literal, has_literal};
ghost use Rattle.asp_trail.specs.Entries.{level_in, reason_in};
ghost use Rattle.asp_analyze.specs.Way.{IsOn, level_unless};

use asp_trail::reasons::NogoodId;
use asp_trail::trail::Trail;
use asp_vars::lit::Lit;

/// The level of a literal that holds.
pub fn level_of(lit: Lit, trail: &Trail) -> usize
    requires { IsOn trail.now.entries lit }
    ensures { result ≡ level_in trail.now.entries lit.var }
{
    let _len = trail.len();
    trail.level_of(lit.var())
}

/// The reason of a literal that holds, if it was implied.
pub fn reason_of(lit: Lit, trail: &Trail) -> Option<NogoodId>
    requires { IsOn trail.now.entries lit }
    ensures { result ≡ reason_in trail.now.entries lit.var }
{
    let _len = trail.len();
    trail.reason_of(lit.var())
}

/// The greatest level of the literals, 0 where there are none.
pub fn greatest_level(lits: &[Lit], trail: &Trail) -> usize
    requires { All (λ k. IsOn trail.now.entries k) lits.now }
    ensures below { All (λ k. level_in trail.now.entries k.var ≤ result) lits.now }
    ensures attained { 0 < result → (k : Literal) × IsTrue (has_literal lits.now k) × (level_in trail.now.entries k.var ≡ result) }
{
    let mut level = 0;
    for k in lits {
        if level_of(*k, trail) > level {
            level = level_of(*k, trail);
        }
    }
    level
}

// The level of a literal, 0 for the one that is left out.
#[tactic(auto, unfolding(crate::specs::Way::level_unless))]
fn level_unless(lit: Lit, out: Lit, trail: &Trail) -> usize
    requires { IsOn trail.now.entries lit }
    ensures { result ≡ level_unless trail.now.entries out lit }
{
    if lit == out { 0 } else { level_of(lit, trail) }
}

/// The greatest level of the other literals, 0 where there are none.
pub fn level_beside(lits: &[Lit], lit: Lit, trail: &Trail) -> usize
    requires { All (λ k. IsOn trail.now.entries k) lits.now }
    ensures below { All (λ k. level_unless trail.now.entries lit k ≤ result) lits.now }
    ensures attained { 0 < result → (k : Literal) × IsTrue (has_literal lits.now k) × (level_unless trail.now.entries lit k ≡ result) }
{
    let mut level = 0;
    for k in lits {
        let other = level_unless(*k, lit, trail);
        if other > level {
            level = other;
        }
    }
    level
}
