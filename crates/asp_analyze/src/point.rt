//! The first unique implication point: the newest literal through which all that led to the conflict at its level goes.
ghost use Rattle.std.specs.Prelude.{◌≡◌, ◌<◌, ◌+◌, length, OnOk, IfOk, IfSome, IfNone};
ghost use Rattle.asp_vars.specs.declared.nogood.Nogood.{Nogood};
ghost use Rattle.asp_trail.specs.Reasons.{AreAsked, AreReasons};
ghost use Rattle.asp_analyze.specs.Way.{IsOnTheWay, IsDown, IsPoint};

use crate::levels::reason_of;
use crate::marks::{Mark, Marks};
use crate::open::open;
use asp_trail::reasons::Reasons;
use asp_trail::trail::Trail;
use asp_vars::lit::Lit;
use asp_vars::nogood::Base;
use std::alloc::AllocError;

// Looks at an entry: it is the point where no other is pending, and else is resolved if it is pending.
fn step<R: Reasons>(
    marks: &mut Marks,
    base: &mut Base,
    trail: &Trail,
    reasons: &R,
    top: usize,
    i: usize,
) -> Result<Option<Lit>, AllocError>
    requires i { i < length trail.now.entries }
    requires asked { AreAsked (R.asks reasons.now) trail.now.entries }
    requires reasons { AreReasons (R.says reasons.now) trail.now.entries }
    requires way { (from : Nogood) × IsOnTheWay trail.now.entries (R.says reasons.now) from top marks.old base.old }
    requires down { IsDown trail.now.entries (i + 1) marks.old.marks }
    ensures way { (from : Nogood) → IsOnTheWay trail.now.entries (R.says reasons.now) from top marks.old base.old →
        OnOk result (IsOnTheWay trail.now.entries (R.says reasons.now) from top marks.new base.new) }
    ensures found { IfOk result (λ point. IfSome point (IsPoint trail.now.entries marks.new.marks)) }
    ensures down { IfOk result (λ point. IfNone point (IsDown trail.now.entries i marks.new.marks)) }
    ensures size { length marks.new.marks ≡ length marks.old.marks }
{
    let _len = trail.len();
    let lit = trail.lit(i);
    match marks.get(lit.var()) {
        Mark::Pending => {}
        _ => return Ok(None),
    }
    if marks.pending() == 1 {
        return Ok(Some(lit));
    }
    match reason_of(lit, trail) {
        // The level's first entry: no other is pending.
        None => Ok(Some(lit)),
        Some(id) => {
            open(marks, base, trail, reasons, top, lit, id)?;
            Ok(None)
        }
    }
}

/// Resolves what is pending, the newest first, until one is left, which is the answer. There is none at level 0.
pub fn find_point<R: Reasons>(
    marks: &mut Marks,
    base: &mut Base,
    trail: &Trail,
    reasons: &R,
    top: usize,
) -> Result<Option<Lit>, AllocError>
    requires asked { AreAsked (R.asks reasons.now) trail.now.entries }
    requires reasons { AreReasons (R.says reasons.now) trail.now.entries }
    requires way { (from : Nogood) × IsOnTheWay trail.now.entries (R.says reasons.now) from top marks.old base.old }
    requires down { 0 < top → IsDown trail.now.entries (length trail.now.entries) marks.old.marks }
    ensures way { (from : Nogood) → IsOnTheWay trail.now.entries (R.says reasons.now) from top marks.old base.old →
        OnOk result (IsOnTheWay trail.now.entries (R.says reasons.now) from top marks.new base.new) }
    ensures found { IfOk result (λ point. IfSome point (IsPoint trail.now.entries marks.new.marks)) }
    ensures none { IfOk result (λ point. IfNone point (top ≡ 0)) }
    ensures size { length marks.new.marks ≡ length marks.old.marks }
{
    if top == 0 {
        return Ok(None);
    }
    for back in 0..trail.len() {
        let place = trail.len() - 1 - back;
        let found = step(marks, base, trail, reasons, top, place)?;
        match found {
            Some(_) => return Ok(found),
            None => {}
        }
    }
    Ok(None)
}
