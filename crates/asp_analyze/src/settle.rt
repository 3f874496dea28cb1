//! What the resolution at the conflict's level leaves is settled: literals of level 0 that were implied are resolved, and those that
//! follow from others are.
ghost use Rattle.std.specs.Prelude.{◌≡◌, ◌<◌, ◌+◌, length, OnOk, IsTrue};
ghost use Rattle.asp_vars.specs.declared.nogood.Nogood.{Nogood};
ghost use Rattle.asp_trail.specs.Reasons.{AreAsked, AreReasons};
ghost use Rattle.asp_analyze.specs.Marks.{mark_of, is_settled};
ghost use Rattle.asp_analyze.specs.Way.{IsOn, IsOnTheWay, AreSettled, Goes};

use crate::levels::{level_of, reason_of};
use crate::marks::{Mark, Marks};
use crate::minimise::{Look, levels, minimise};
use crate::open::open;
use asp_trail::reasons::Reasons;
use asp_trail::trail::Trail;
use asp_vars::lit::Lit;
use asp_vars::nogood::Base;
use std::alloc::AllocError;

// Settles a literal of level 0.
fn settle_zero<R: Reasons>(
    marks: &mut Marks,
    base: &mut Base,
    trail: &Trail,
    reasons: &R,
    top: usize,
    lit: Lit,
) -> Result<(), AllocError>
    requires asked { AreAsked (R.asks reasons.now) trail.now.entries }
    requires reasons { AreReasons (R.says reasons.now) trail.now.entries }
    requires way { (from : Nogood) × IsOnTheWay trail.now.entries (R.says reasons.now) from top marks.old base.old }
    requires on { IsOn trail.now.entries lit }
    requires zero { mark_of marks.old.marks lit.var ≡ Mark.Zero }
    ensures way { (from : Nogood) → IsOnTheWay trail.now.entries (R.says reasons.now) from top marks.old base.old →
        OnOk result (IsOnTheWay trail.now.entries (R.says reasons.now) from top marks.new base.new) }
    ensures goes { OnOk result (Goes trail.now.entries marks.old marks.new) }
    ensures settled { OnOk result (IsTrue (is_settled (mark_of marks.new.marks lit.var))) }
    ensures size { length marks.new.marks ≡ length marks.old.marks }
{
    match reason_of(lit, trail) {
        None => {
            marks.change(lit.var(), Mark::Kept);
            Ok(())
        }
        Some(id) => open(marks, base, trail, reasons, top, lit, id),
    }
}

// Settles one of the marked literals.
fn settle_at<R: Reasons>(
    marks: &mut Marks,
    base: &mut Base,
    path: &mut Vec<Look>,
    trail: &Trail,
    reasons: &R,
    top: usize,
    levels: u64,
    i: usize,
) -> Result<(), AllocError>
    requires i { i < length marks.old.lits }
    requires asked { AreAsked (R.asks reasons.now) trail.now.entries }
    requires reasons { AreReasons (R.says reasons.now) trail.now.entries }
    requires way { (from : Nogood) × IsOnTheWay trail.now.entries (R.says reasons.now) from top marks.old base.old }
    ensures way { (from : Nogood) → IsOnTheWay trail.now.entries (R.says reasons.now) from top marks.old base.old →
        OnOk result (IsOnTheWay trail.now.entries (R.says reasons.now) from top marks.new base.new) }
    ensures goes { OnOk result (Goes trail.now.entries marks.old marks.new) }
    ensures settled { AreSettled i marks.old → OnOk result (AreSettled (i + 1) marks.new) }
    ensures size { length marks.new.marks ≡ length marks.old.marks }
{
    let lit = marks.lits()[i];
    match marks.get(lit.var()) {
        Mark::Zero => settle_zero(marks, base, trail, reasons, top, lit),
        Mark::Kept => {
            if level_of(lit, trail) > 0 {
                minimise(marks, base, path, trail, reasons, top, levels, lit)
            } else {
                Ok(())
            }
        }
        _ => Ok(()),
    }
}

/// Settles all marked literals, those that are met on the way too.
pub fn settle<R: Reasons>(
    marks: &mut Marks,
    base: &mut Base,
    path: &mut Vec<Look>,
    trail: &Trail,
    reasons: &R,
    top: usize,
) -> Result<(), AllocError>
    requires asked { AreAsked (R.asks reasons.now) trail.now.entries }
    requires reasons { AreReasons (R.says reasons.now) trail.now.entries }
    requires way { (from : Nogood) × IsOnTheWay trail.now.entries (R.says reasons.now) from top marks.old base.old }
    ensures way { (from : Nogood) → IsOnTheWay trail.now.entries (R.says reasons.now) from top marks.old base.old →
        OnOk result (IsOnTheWay trail.now.entries (R.says reasons.now) from top marks.new base.new) }
    ensures goes { OnOk result (Goes trail.now.entries marks.old marks.new) }
    ensures settled { OnOk result (AreSettled (length marks.new.lits) marks.new) }
    ensures size { length marks.new.marks ≡ length marks.old.marks }
{
    let levels = levels(trail, marks.lits());
    let mut i = 0;
    while i < marks.len() {
        settle_at(marks, base, path, trail, reasons, top, levels, i)?;
        i += 1;
    }
    Ok(())
}
