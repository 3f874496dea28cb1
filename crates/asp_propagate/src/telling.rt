//! How a propagator is told of the entries of a trail, and told back.
ghost use Rattle.std.specs.Prelude.{◌≡◌, ◌<◌, ◌≤◌, ◌+◌, ◌-◌, ℕ, length, slice_index_or};
ghost use Rattle.asp_trail.specs.declared.trail.Entry.{Entry};
ghost use Rattle.asp_propagate.specs.Propagating.{WasTold};

use crate::propagator::Propagator;
use asp_trail::trail::Trail;

// Tells of one entry.
fn tell_at<P: Propagator>(propagator: &mut P, trail: &Trail, i: usize)
    requires told { WasTold (P.told propagator.old) trail.now i }
    requires within { i < length trail.now.entries }
    ensures told { WasTold (P.told propagator.new) trail.now (i + 1) }
    ensures program { (P.told propagator.new).program ≡ (P.told propagator.old).program }
    ensures bound { P.bound propagator.new ≡ P.bound propagator.old }
{
    let _len = trail.len();
    propagator.assign(trail.lit(i));
}

/// Tells of all entries, of which it was told of the first.
pub fn tell<P: Propagator>(propagator: &mut P, trail: &Trail, told: usize)
    requires { WasTold (P.told propagator.old) trail.now told }
    ensures told { WasTold (P.told propagator.new) trail.now (length trail.now.entries) }
    ensures program { (P.told propagator.new).program ≡ (P.told propagator.old).program }
    ensures bound { P.bound propagator.new ≡ P.bound propagator.old }
{
    for i in told..trail.len() {
        tell_at(propagator, trail, i);
    }
}

// Takes back the newest entry of which it was told.
fn untell_at<P: Propagator>(propagator: &mut P, trail: &Trail, i: usize)
    requires { WasTold (P.told propagator.old) trail.now (i + 1) }
    ensures told { WasTold (P.told propagator.new) trail.now i }
    ensures program { (P.told propagator.new).program ≡ (P.told propagator.old).program }
    ensures bound { P.bound propagator.new ≡ P.bound propagator.old }
{
    let _len = trail.len();
    propagator.undo(trail.lit(i));
}

/// Takes back the entries of which it was told that are above a level. Gives how many are left.
pub fn untell_above<P: Propagator>(
    propagator: &mut P,
    trail: &Trail,
    told: usize,
    level: usize,
) -> usize
    requires { WasTold (P.told propagator.old) trail.now told }
    ensures told { WasTold (P.told propagator.new) trail.now result }
    ensures program { (P.told propagator.new).program ≡ (P.told propagator.old).program }
    ensures bound { P.bound propagator.new ≡ P.bound propagator.old }
    ensures low { (d : Entry) → 0 < result → (slice_index_or trail.now.entries (result - 1) d).level ≤ level }
    ensures kept { (i : ℕ) (d : Entry) → result ≤ i → i < told → level < (slice_index_or trail.now.entries i d).level }
{
    let mut left = told;
    while left > 0 && trail.level_at(left - 1) > level {
        left -= 1;
        untell_at(propagator, trail, left);
    }
    left
}

/// Takes back all entries of which it was told.
pub fn untell<P: Propagator>(propagator: &mut P, trail: &Trail, told: usize)
    requires { WasTold (P.told propagator.old) trail.now told }
    ensures told { WasTold (P.told propagator.new) trail.now 0 }
    ensures program { (P.told propagator.new).program ≡ (P.told propagator.old).program }
    ensures bound { P.bound propagator.new ≡ P.bound propagator.old }
{
    let mut left = told;
    while left > 0 {
        left -= 1;
        untell_at(propagator, trail, left);
    }
}
