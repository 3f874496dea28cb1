//! A literal is resolved with its reason.
ghost use Rattle.std.specs.Prelude.{◌≡◌, ◌≤◌, Some, false, OnOk, OnErr, IfOk, length};
ghost use Rattle.std.specs.Option.{unwrap_or};
ghost use Rattle.asp_vars.specs.Resolution.{joined};
ghost use Rattle.asp_vars.specs.declared.nogood.Nogood.{Nogood};
ghost use Rattle.asp_trail.specs.Entries.{level_in, reason_in};
ghost use Rattle.asp_trail.specs.Reasons.{AreAsked, AreReasons};
ghost use Rattle.asp_analyze.specs.Marks.{mark_of, is_clean};
ghost use Rattle.asp_analyze.specs.Way.{IsOn, Opened, IsOnTheWay};

use crate::marks::{Mark, Marks};
use crate::note::note_all;
use asp_trail::reasons::{NogoodId, Reasons};
use asp_trail::trail::Trail;
use asp_vars::lit::Lit;
use asp_vars::nogood::{Base, Nogood};
use std::alloc::AllocError;

// The joined base, where it isn't the first one.
fn joined(first: &Base, second: &Base) -> Result<Option<Base>, AllocError>
    ensures { IfOk result (λ base. unwrap_or base first.now ≡ joined first.now second.now) }
{
    match (first, second) {
        (Base::Local, _) => Ok(None),
        (_, Base::Pure) => Ok(None),
        (_, Base::Local) => Ok(Some(Base::Local)),
        (Base::Pure, Base::Below(_)) => Ok(Some(second.copy()?)),
        (Base::Below(c), Base::Below(d)) => {
            if d < c {
                Ok(Some(second.copy()?))
            } else {
                Ok(None)
            }
        }
    }
}

// Makes the base that of what it gives with the other one.
fn join(base: &mut Base, other: &Base) -> Result<(), AllocError>
    ensures ok { OnOk result (base.new ≡ joined base.old other.now) }
    ensures err { OnErr result (base.new ≡ base.old) }
{
    if let Base::Pure = other {
        return Ok(());
    }
    if let Some(both) = joined(base, other)? {
        *base = both;
    }
    Ok(())
}

// Resolves a marked literal with a reason that is said to have implied it.
fn resolve<R: Reasons>(
    marks: &mut Marks,
    base: &mut Base,
    trail: &Trail,
    reasons: &R,
    top: usize,
    lit: Lit,
    id: NogoodId,
    reason: &Nogood,
) -> Result<(), AllocError>
    requires on { IsOn trail.now.entries lit }
    requires level { level_in trail.now.entries lit.var ≤ top }
    requires reason { reason_in trail.now.entries lit.var ≡ Some id }
    requires said { R.says reasons.now lit id reason.now }
    requires reasons { AreReasons (R.says reasons.now) trail.now.entries }
    requires marked { is_clean (mark_of marks.old.marks lit.var) ≡ false }
    requires way { (from : Nogood) × IsOnTheWay trail.now.entries (R.says reasons.now) from top marks.old base.old }
    ensures way { (from : Nogood) → IsOnTheWay trail.now.entries (R.says reasons.now) from top marks.old base.old →
        OnOk result (IsOnTheWay trail.now.entries (R.says reasons.now) from top marks.new base.new) }
    ensures opened { OnOk result (Opened trail.now.entries lit marks.old marks.new) }
    ensures size { length marks.new.marks ≡ length marks.old.marks }
{
    let _ = reasons;
    let _ = id;
    join(base, &reason.base)?;
    marks.change(lit.var(), Mark::Resolved);
    note_all(marks, trail, top, reason.lits.as_slice());
    Ok(())
}

/// Resolves a marked literal with the reason that implied it. After want of memory the marks are as before.
pub fn open<R: Reasons>(
    marks: &mut Marks,
    base: &mut Base,
    trail: &Trail,
    reasons: &R,
    top: usize,
    lit: Lit,
    id: NogoodId,
) -> Result<(), AllocError>
    requires on { IsOn trail.now.entries lit }
    requires level { level_in trail.now.entries lit.var ≤ top }
    requires reason { reason_in trail.now.entries lit.var ≡ Some id }
    requires asked { AreAsked (R.asks reasons.now) trail.now.entries }
    requires reasons { AreReasons (R.says reasons.now) trail.now.entries }
    requires marked { is_clean (mark_of marks.old.marks lit.var) ≡ false }
    requires way { (from : Nogood) × IsOnTheWay trail.now.entries (R.says reasons.now) from top marks.old base.old }
    ensures way { (from : Nogood) → IsOnTheWay trail.now.entries (R.says reasons.now) from top marks.old base.old →
        OnOk result (IsOnTheWay trail.now.entries (R.says reasons.now) from top marks.new base.new) }
    ensures opened { OnOk result (Opened trail.now.entries lit marks.old marks.new) }
    ensures size { length marks.new.marks ≡ length marks.old.marks }
{
    match reasons.kept(lit, id) {
        Some(reason) => resolve(marks, base, trail, reasons, top, lit, id, reason),
        None => {
            let reason = reasons.write(lit, id)?;
            resolve(marks, base, trail, reasons, top, lit, id, &reason)
        }
    }
}
