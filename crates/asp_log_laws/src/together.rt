//! Two threads add to one log, and the closed log has all that each added, in its order.
ghost use Rattle.std.specs.Prelude.{◌≡◌, ◌<◌, ◌^◌, ◌++◌, ◌∷◌, [], false, map, take, slice_index, EachIndex, IfOk, OnErr};
ghost use Rattle.asp_vault.specs.Moments.{Stays};
ghost use Rattle.asp_vault.specs.Seats.{view, IsOf, IsBeside};
ghost use Rattle.asp_log.specs.Entries.{IsLogFor};
ghost use Rattle.asp_core.specs.Events.{IsVariable};
ghost use Rattle.asp_log_laws.specs.Together.{clash, added, HasVar, StandInOrder};

use asp_log::{AppendError, Log, append};
use asp_model::program::Program;
use asp_vars::lit::Lit;
use asp_vars::nogood::{Base, Lits, Nogood};
use asp_vault::{Seat, Vault};
use std::alloc::{AllocError, Global};
use std::sync::Wait;
use std::thread::{Threads, join};

/// A nogood that nothing hits.
pub fn clashing(alloc: Global, var: u32) -> Result<Nogood, AllocError>
    requires { var < 2 ^ 31 }
    ensures { IfOk result (λ n. n ≡ clash var) }
{
    let lits = Lits::from_slice(alloc, &[Lit::new(var, true), Lit::new(var, false)])?;
    Ok(Nogood {
        lits,
        base: Base::Pure,
    })
}

/// Adds such a nogood to the log.
pub fn append_clash<R: Wait>(
    rt: &R,
    alloc: Global,
    vault: &Vault<Log>,
    seat: &mut Seat<Log>,
    var: u32,
) -> Result<u32, AppendError>
    requires of { IsOf vault.now seat.old }
    requires rests { (view seat.old).holds ≡ false }
    requires var { var < 2 ^ 31 }
    requires named { HasVar (view seat.old).about var }
    ensures of { IsBeside seat.old seat.new }
    ensures stays { Stays (view seat.old) (view seat.new) }
    ensures ok { IfOk result (λ at. added (view seat.new).own ≡ added (view seat.old).own ++ clash var ∷ []) }
    ensures err { OnErr result (added (view seat.new).own ≡ added (view seat.old).own) }
{
    let nogood = match clashing(alloc, var) {
        Ok(nogood) => nogood,
        Err(_) => return Err(AppendError::Memory),
    };
    match append(rt, vault, seat, nogood) {
        Ok(at) => Ok(at),
        Err((error, _)) => Err(error),
    }
}

/// Adds one for each variable until an append is refused, and answers how many it added.
fn append_all<R: Wait>(
    rt: &R,
    alloc: Global,
    vault: &Vault<Log>,
    mut seat: Seat<Log>,
    vars: &[u32],
) -> (Seat<Log>, usize)
    requires of { IsOf vault.now seat }
    requires rests { (view seat).holds ≡ false }
    requires fresh { (view seat).own ≡ [] }
    requires vars { EachIndex vars.now (λ k. slice_index vars.now k < 2 ^ 31) }
    requires named { EachIndex vars.now (λ k. HasVar (view seat).about (slice_index vars.now k)) }
    ensures of { IsBeside seat result.0 }
    ensures stays { Stays (view seat) (view result.0) }
    ensures own { added (view result.0).own ≡ map clash (take result.1 vars.now) }
{
    let mut done = 0;
    while done < vars.len() {
        if append_clash(rt, alloc, vault, &mut seat, vars[done]).is_err() {
            break;
        }
        done += 1;
    }
    (seat, done)
}

/// Two threads add to the log. All that each added stands in it, in its order.
pub fn both<R: Threads + Wait + Sync>(
    rt: &R,
    alloc: Global,
    log: Log,
    first: &[u32],
    second: &[u32],
) -> Result<(Log, usize, usize), AllocError>
    requires keeps { IsLogFor log.scope log.entries }
    requires first { EachIndex first.now (λ k. slice_index first.now k < 2 ^ 31) }
    requires second { EachIndex second.now (λ k. slice_index second.now k < 2 ^ 31) }
    requires first_named { EachIndex first.now (λ k. IsVariable log.scope.program (slice_index first.now k)) }
    requires second_named { EachIndex second.now (λ k. IsVariable log.scope.program (slice_index second.now k)) }
    ensures first { IfOk result (λ r. StandInOrder (map clash (take r.1 first.now)) r.0.entries) }
    ensures second { IfOk result (λ r. StandInOrder (map clash (take r.2 second.now)) r.0.entries) }
{
    let (vault, mut one) = Vault::make(alloc, log)?;
    let two = vault.split(&mut one);
    let shared = &vault;
    let ((mut one, a), (two, b)) = join(
        rt,
        move || -> (Seat<Log>, usize)
            requires of { IsOf shared.now one }
            requires rests { (view one).holds ≡ false }
            requires fresh { (view one).own ≡ [] }
            requires vars { EachIndex first.now (λ k. slice_index first.now k < 2 ^ 31) }
            requires named { EachIndex first.now (λ k. HasVar (view one).about (slice_index first.now k)) }
            ensures of { IsBeside one result.0 }
            ensures stays { Stays (view one) (view result.0) }
            ensures own { added (view result.0).own ≡ map clash (take result.1 first.entry.now) }
        { append_all(rt, alloc, shared, one, first) },
        move || -> (Seat<Log>, usize)
            requires of { IsOf shared.now two }
            requires rests { (view two).holds ≡ false }
            requires fresh { (view two).own ≡ [] }
            requires vars { EachIndex second.now (λ k. slice_index second.now k < 2 ^ 31) }
            requires named { EachIndex second.now (λ k. HasVar (view two).about (slice_index second.now k)) }
            ensures of { IsBeside two result.0 }
            ensures stays { Stays (view two) (view result.0) }
            ensures own { added (view result.0).own ≡ map clash (take result.1 second.entry.now) }
        { append_all(rt, alloc, shared, two, second) },
    );
    vault.join(&mut one, two);
    Ok((vault.close(one), a, b))
}
