//! Minimisation: a literal that follows from others that stay is resolved too (Sörensson, Biere 2009).
ghost use Rattle.std.specs.Prelude.{◌≡◌, ◌≢◌, ◌<◌, length, false, true, OnOk, IfSome, IsTrue};
ghost use Rattle.std.specs.List.{All};
ghost use Rattle.asp_vars.specs.Literals.{has_literal};
ghost use Rattle.asp_vars.specs.declared.nogood.Nogood.{Nogood};
ghost use Rattle.asp_trail.specs.Reasons.{AreAsked, AreReasons};
ghost use Rattle.asp_analyze.specs.Marks.{mark_of, is_clean};
ghost use Rattle.asp_analyze.specs.Way.{IsOn, IsOnTheWay, Goes, CanGo, IsOther};

use crate::levels::{level_of, reason_of};
use crate::marks::{Mark, Marks};
use crate::open::open;
use asp_trail::reasons::Reasons;
use asp_trail::trail::Trail;
use asp_vars::lit::{Lit, Var};
use asp_vars::nogood::Base;
use std::alloc::AllocError;

// So many looks at most are made for one literal. Few come near: a variable comes on the path once at most for a conflict.
const LOOKS: usize = 100_000;

/// A literal whose reason is looked at, and from which place of the reason on.
#[derive(Clone, Copy)]
pub struct Look {
    /// The literal.
    lit: Lit,
    /// The place in its reason from which on the literals weren't looked at yet.
    next: usize,
}

// A 1 at the place of the level, by which levels are told apart as far as 64 places can.
fn bit(level: usize) -> u64 {
    1 << (level % 64)
}

/// The places of the levels of these literals. It has no clause, since it only saves looks.
pub fn levels(trail: &Trail, lits: &[Lit]) -> u64
    requires { All (λ l. IsOn trail.now.entries l) lits.now }
{
    let mut levels = 0;
    for lit in lits {
        levels |= bit(level_of(*lit, trail));
    }
    levels
}

// Whether the reason of this variable has the literal besides, above level 0 and not met.
fn is_other(marks: &Marks, trail: &Trail, lit: Lit, var: Var) -> bool
    requires small { lit.var < length marks.now.marks }
    requires on { lit.var ≢ var → IsOn trail.now.entries lit }
    ensures { result ≡ true → IsOther trail.now.entries lit var }
{
    lit.var() != var && !marks.get(lit.var()).is_met() && level_of(lit, trail) > 0
}

// The first such literal from a place on, and the place after it.
fn find_other(marks: &Marks, trail: &Trail, lits: &[Lit], from: usize, var: Var) -> Option<Look>
    requires small { All (λ l. l.var < length marks.now.marks) lits.now }
    requires on { All (λ l. l.var ≢ var → IsOn trail.now.entries l) lits.now }
    ensures { IfSome result (λ look. IsTrue (has_literal lits.now look.lit) × IsOther trail.now.entries look.lit var) }
{
    for i in from..lits.len() {
        if is_other(marks, trail, lits[i], var) {
            return Some(Look {
                lit: lits[i],
                next: i + 1,
            });
        }
    }
    None
}

// Whether a literal may follow: it wasn't looked at, and its level is one of these.
fn may_follow(marks: &Marks, trail: &Trail, levels: u64, lit: Lit) -> bool
    requires small { lit.var < length marks.now.marks }
    requires on { IsOn trail.now.entries lit }
    ensures { result ≡ true → is_clean (mark_of marks.now.marks lit.var) ≡ true }
{
    match marks.get(lit.var()) {
        Mark::Clean => levels & bit(level_of(lit, trail)) != 0,
        _ => false,
    }
}

// Looks at the path's last literal. It is resolved where all others of its reason are met; else the path goes on with one of those, or
// ends where that one can't follow.
fn visit<R: Reasons>(
    marks: &mut Marks,
    base: &mut Base,
    path: &mut Vec<Look>,
    trail: &Trail,
    reasons: &R,
    top: usize,
    levels: u64,
) -> Result<(), AllocError>
    requires asked { AreAsked (R.asks reasons.now) trail.now.entries }
    requires reasons { AreReasons (R.says reasons.now) trail.now.entries }
    requires way { (from : Nogood) × IsOnTheWay trail.now.entries (R.says reasons.now) from top marks.old base.old }
    requires path { All (λ f. CanGo trail.now.entries top marks.old f.lit) path.old.items }
    ensures way { (from : Nogood) → IsOnTheWay trail.now.entries (R.says reasons.now) from top marks.old base.old →
        OnOk result (IsOnTheWay trail.now.entries (R.says reasons.now) from top marks.new base.new) }
    ensures path { OnOk result (All (λ f. CanGo trail.now.entries top marks.new f.lit) path.new.items) }
    ensures goes { OnOk result (Goes trail.now.entries marks.old marks.new) }
    ensures size { length marks.new.marks ≡ length marks.old.marks }
{
    let Some(last) = path.pop() else {
        return Ok(());
    };
    let Some(id) = reason_of(last.lit, trail) else {
        path.clear();
        return Ok(());
    };
    // What isn't written is passed over.
    let Some(reason) = reasons.kept(last.lit, id) else {
        path.clear();
        return Ok(());
    };
    match find_other(
        marks,
        trail,
        reason.lits.as_slice(),
        last.next,
        last.lit.var(),
    ) {
        None => open(marks, base, trail, reasons, top, last.lit, id),
        Some(other) => {
            if may_follow(marks, trail, levels, other.lit) {
                path.push(Look {
                    lit: last.lit,
                    next: other.next,
                })?;
                path.push(Look {
                    lit: other.lit,
                    next: 0,
                })?;
                marks.add(other.lit, Mark::Needed);
            } else {
                path.clear();
            }
            Ok(())
        }
    }
}

/// Resolves a literal that stays, and what it follows by, where it follows from others that stay and from level 0.
pub fn minimise<R: Reasons>(
    marks: &mut Marks,
    base: &mut Base,
    path: &mut Vec<Look>,
    trail: &Trail,
    reasons: &R,
    top: usize,
    levels: u64,
    lit: Lit,
) -> Result<(), AllocError>
    requires asked { AreAsked (R.asks reasons.now) trail.now.entries }
    requires reasons { AreReasons (R.says reasons.now) trail.now.entries }
    requires way { (from : Nogood) × IsOnTheWay trail.now.entries (R.says reasons.now) from top marks.old base.old }
    requires lit { CanGo trail.now.entries top marks.old lit }
    ensures way { (from : Nogood) → IsOnTheWay trail.now.entries (R.says reasons.now) from top marks.old base.old →
        OnOk result (IsOnTheWay trail.now.entries (R.says reasons.now) from top marks.new base.new) }
    ensures goes { OnOk result (Goes trail.now.entries marks.old marks.new) }
    ensures size { length marks.new.marks ≡ length marks.old.marks }
{
    path.clear();
    path.push(Look { lit, next: 0 })?;
    'looks: for _ in 0..LOOKS {
        if path.is_empty() {
            return Ok(());
        }
        visit(marks, base, path, trail, reasons, top, levels)?;
    }
    Ok(())
}
