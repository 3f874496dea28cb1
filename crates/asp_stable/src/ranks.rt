//! The test of ranks, by which atoms are founded with no derivation.
//!
//! Where each body's heads have ranks above those of its positive literals, a true atom with a rank is founded: a body
//! supports it, and what that needs has lower ranks. However the ranks were found, this test shows that they are right.
ghost use Rattle.std.specs.Prelude.{◌≡◌, ◌<◌, ◌≤◌, true, All, MatchOption, IsTrue, length, slice_index};
ghost use Rattle.asp_model.specs.Models.{atoms_of};
ghost use Rattle.asp_vars.specs.Numbering.{bodies_of};
ghost use Rattle.asp_stable.specs.Ranks.{AreUpTo, IsRanked, AreRanks};

use asp_vars::compiled::Compiled;
use asp_vars::lit::{Lit, Var};

// The top with a literal's rank in it, and none where it is positive and has no rank.
fn raise(ranks: &[u32], top: u32, lit: Lit) -> Option<u32>
    requires { lit.var < length ranks.now }
    ensures { MatchOption result (Unit {0}) (λ new. (top ≤ new) × (lit.truth ≡ true → (0 < slice_index ranks.now lit.var) × (slice_index ranks.now lit.var ≤ new))) }
{
    if !lit.truth() {
        return Some(top);
    }
    let rank = ranks[lit.var() as usize];
    if rank == 0 {
        return None;
    }
    Some(top.max(rank))
}

// The greatest rank of the positive literals, and none where one has no rank.
fn highest(ranks: &[u32], lits: &[Lit]) -> Option<u32>
    requires { All (λ l. l.var < length ranks.now) lits.now }
    ensures { MatchOption result (Unit {0}) (λ top. AreUpTo ranks.now top lits.now) }
{
    let mut top = 0;
    for lit in lits {
        top = raise(ranks, top, *lit)?;
    }
    Some(top)
}

// Whether no head has a rank.
fn none_ranked(ranks: &[u32], heads: &[Var]) -> bool
    requires { All (λ v. v < length ranks.now) heads.now }
    ensures { IsTrue result → All (λ v. slice_index ranks.now v ≡ 0) heads.now }
{
    for var in heads {
        if ranks[*var as usize] != 0 {
            return false;
        }
    }
    true
}

// Whether all heads that have a rank have one above the top.
fn all_above(ranks: &[u32], heads: &[Var], top: u32) -> bool
    requires { All (λ v. v < length ranks.now) heads.now }
    ensures { IsTrue result → All (λ v. 0 < slice_index ranks.now v → top < slice_index ranks.now v) heads.now }
{
    for var in heads {
        let rank = ranks[*var as usize];
        if rank > 0 && rank <= top {
            return false;
        }
    }
    true
}

fn is_ranked(compiled: &Compiled, ranks: &[u32], body: usize) -> bool
    requires body { body < length (bodies_of compiled.now) }
    requires ranks { length (atoms_of compiled.now) < length ranks.now }
    ensures { IsTrue result → IsRanked compiled.now ranks.now body }
{
    let heads = compiled.heads(body);
    match highest(ranks, compiled.literals(body)) {
        Some(top) => all_above(ranks, heads, top),
        None => none_ranked(ranks, heads),
    }
}

/// Whether in each body the heads that have a rank, which isn't 0, have one above those of all positive literals.
pub(crate) fn are_ranks(compiled: &Compiled, ranks: &[u32]) -> bool
    requires { length (atoms_of compiled.now) < length ranks.now }
    ensures { IsTrue result → AreRanks compiled.now ranks.now }
{
    for body in 0..compiled.body_count() {
        if !is_ranked(compiled, ranks, body) {
            return false;
        }
    }
    true
}
