//! What the holder of a seat can do to the log.
ghost use Rattle.std.specs.Prelude.{◌≡◌, ◌^◌, ◌<◌, ◌≤◌, ◌∷◌, [], false, drop, length, All, List, IfOk, IfErr, OnErr};
ghost use Rattle.std.specs.Option.{IfSome};
ghost use Rattle.asp_vars.specs.declared.nogood.Nogood.{Nogood};
ghost use Rattle.asp_vault.specs.Moments.{Moment, Stays};
ghost use Rattle.asp_vault.specs.Seats.{view, IsOf, IsBeside};
ghost use Rattle.asp_log.specs.declared.log.AppendError.TheVariants as error;
ghost use Rattle.asp_log.specs.Entries.{IsEntry, IsLogOf, unsigned};

use crate::log::{AppendError, Log};
use crate::shown::View;
use asp_vars::nogood::Nogood;
use asp_vault::{Seat, Vault};
use std::alloc::AllocError;
use std::sync::Wait;

/// Adds a nogood that every search of the log's program can use, and answers the position at which it stands from then on.
///
/// `Full` comes exactly where the log, as the seat has then seen it, has as many entries as it may have. At every refusal
/// the nogood comes back, and nothing is added.
pub fn append<R: Wait>(
    rt: &R,
    vault: &Vault<Log>,
    seat: &mut Seat<Log>,
    nogood: Nogood,
) -> Result<u32, (AppendError, Nogood)>
    requires of { IsOf vault.now seat.old }
    requires rests { (view seat.old).holds ≡ false }
    requires entry { IfSome (view seat.old).about (λ scope. IsEntry scope.program nogood) }
    ensures of { IsBeside seat.old seat.new }
    ensures stays { Stays (view seat.old) (view seat.new) }
    ensures ok { IfOk result (λ at. (before : List Nogood) × (at ≡ length before) × Moment unsigned (IsLogOf (view seat.old).about) (view seat.old) (view seat.new) before (nogood ∷ [])) }
    ensures err { OnErr result ((before : List Nogood) × Moment unsigned (IsLogOf (view seat.old).about) (view seat.old) (view seat.new) before []) }
    ensures back { IfErr result (λ e. e.1 ≡ nogood) }
    ensures full { IfErr result (λ e. (e.0 ≡ error.Full → IfSome (view seat.old).about (λ scope. length (view seat.new).seen ≡ scope.limit)) × (e.0 ≡ error.Memory → IfSome (view seat.old).about (λ scope. length (view seat.new).seen < scope.limit))) }
{
    let mut log = vault.take(rt, seat);
    let added = log.add(nogood);
    vault.give(seat, log);
    added
}

/// Takes the entries from a position on, up to those that are there at that moment.
///
/// The position is at most a length that the seat has seen. The only error is want of memory.
pub fn glance<R: Wait>(
    rt: &R,
    vault: &Vault<Log>,
    seat: &mut Seat<Log>,
    from: u32,
) -> Result<View, AllocError>
    requires of { IsOf vault.now seat.old }
    requires rests { (view seat.old).holds ≡ false }
    requires from { from ≤ length (view seat.old).seen }
    ensures of { IsBeside seat.old seat.new }
    ensures stays { Stays (view seat.old) (view seat.new) }
    ensures ok { IfOk result (λ shown. shown ≡ drop from (view seat.new).seen) }
    ensures entries { IfOk result (λ shown. IfSome (view seat.old).about (λ scope. All (IsEntry scope.program) shown)) }
    ensures few { length (view seat.new).seen < 2 ^ 32 }
    ensures moment { (before : List Nogood) × Moment unsigned (IsLogOf (view seat.old).about) (view seat.old) (view seat.new) before [] }
{
    let log = vault.take(rt, seat);
    let shown = log.shown(from);
    vault.give(seat, log);
    shown
}
