//! A log of blocks in its vault, as one kind of log.
ghost use Rattle.std.specs.Prelude.{◌≡◌, ◌+◌, ◌^◌, ◌<◌, ◌≤◌, ◌∷◌, [], length, drop, true, false, All, List, IfOk};
ghost use Rattle.asp_vars.specs.declared.nogood.Nogood.{Nogood};
ghost use Rattle.asp_vault.specs.Moments.{Moment, Stays};
ghost use Rattle.asp_vault.specs.Rules.{opened, parted, fresh, merged};
ghost use Rattle.asp_vault.specs.Seats.{view, IsOf, IsBeside};
ghost use Rattle.asp_log.specs.Entries.{IsEntry, IsLogOf, unsigned};
ghost use Rattle.asp_slots.specs.Shelves.{IsReader};

use asp_log::{Log, View, append, glance};
use asp_model::program::Program;
use asp_vars::compiled::Compiled;
use asp_vars::nogood::Nogood;
use asp_vars::origin::Origin;
use asp_vault::{Seat, Vault};
use std::alloc::{AllocError, Global};
use std::sync::Wait;

/// A log of blocks.
#[derive(Drop)]
pub struct BlockLog {
    /// The log, of which one at a time has hold.
    vault: Vault<Log>,
    /// Whose entries it has, as a fact without bytes.
    program: Origin<Program>,
    /// How many entries it may have.
    limit: u32,
}

impl BlockLog {
    /// An empty log that may have so many entries, and the first seat.
    pub fn make(
        alloc: Global,
        compiled: &Compiled,
        limit: u32,
    ) -> Result<(BlockLog, Seat<Log>), AllocError>
        ensures program { IfOk result (λ r. (r.0.program.value ≡ compiled.now) × (r.0.limit ≡ limit)) }
        ensures of { IfOk result (λ r. IsOf r.0.vault r.1) }
        ensures view { IfOk result (λ r. view r.1 ≡ opened (record { program = compiled.now; limit = limit }) []) }
    {
        let (vault, seat) = Vault::make(alloc, Log::new(alloc, compiled, limit))?;
        let log = BlockLog {
            vault,
            program: Origin::of(compiled.program()),
            limit,
        };
        Ok((log, seat))
    }

    /// How many entries it may have.
    pub fn limit(&self) -> u32
        ensures { result ≡ self.now.limit }
    {
        self.limit
    }

    /// How many entries there are, whoever has hold of the log.
    pub fn count(&self, seat: &mut Seat<Log>) -> u64
        requires of { IsOf self.now.vault seat.old }
        requires reader { IsReader self.now.program.value self.now.limit (view seat.old) }
        ensures of { IsBeside seat.old seat.new }
        ensures stays { Stays (view seat.old) (view seat.new) }
        ensures count { result ≡ length (view seat.new).seen }
    {
        self.vault.look(seat)
    }

    /// Adds a nogood at the end. False where there was no room or no memory for it.
    pub fn append<R: Wait>(&self, rt: &R, seat: &mut Seat<Log>, nogood: Nogood) -> bool
        requires of { IsOf self.now.vault seat.old }
        requires reader { IsReader self.now.program.value self.now.limit (view seat.old) }
        requires entry { IsEntry self.now.program.value nogood }
        ensures of { IsBeside seat.old seat.new }
        ensures stays { Stays (view seat.old) (view seat.new) }
        ensures adds { result ≡ true → (before : List Nogood) × Moment unsigned (IsLogOf (view seat.old).about) (view seat.old) (view seat.new) before (nogood ∷ []) }
        ensures refuses { result ≡ false → (before : List Nogood) × Moment unsigned (IsLogOf (view seat.old).about) (view seat.old) (view seat.new) before [] }
    {
        append(rt, &self.vault, seat, nogood).is_ok()
    }

    /// The entries from a position on.
    pub fn glance<R: Wait>(
        &self,
        rt: &R,
        seat: &mut Seat<Log>,
        from: u32,
    ) -> Result<View, AllocError>
        requires of { IsOf self.now.vault seat.old }
        requires reader { IsReader self.now.program.value self.now.limit (view seat.old) }
        requires from { from ≤ length (view seat.old).seen }
        ensures of { IsBeside seat.old seat.new }
        ensures stays { Stays (view seat.old) (view seat.new) }
        ensures few { length (view seat.new).seen < 2 ^ 32 }
        ensures count { IfOk result (λ shown. from + length shown ≡ length (view seat.new).seen) }
        ensures good { IfOk result (All (IsEntry self.now.program.value)) }
        ensures exact { IfOk result (λ shown. shown ≡ drop from (view seat.new).seen) }
    {
        glance(rt, &self.vault, seat, from)
    }

    /// A second seat, which has seen as much.
    pub fn split(&self, seat: &mut Seat<Log>) -> Seat<Log>
        requires of { IsOf self.now.vault seat.old }
        requires first { (view seat.old).number ≡ 0 }
        requires room { (view seat.old).splits + 1 < 2 ^ 32 }
        ensures of { IsBeside seat.old seat.new × IsBeside seat.old result }
        ensures old { view seat.new ≡ parted (view seat.old) }
        ensures new { view result ≡ fresh (view seat.old) }
    {
        self.vault.split(seat)
    }

    /// The first seat takes in what another has seen.
    pub fn join(&self, seat: &mut Seat<Log>, other: Seat<Log>)
        requires of { IsOf self.now.vault seat.old × IsOf self.now.vault other }
        requires first { (view seat.old).number ≡ 0 }
        requires rests { (view other).holds ≡ false }
        ensures of { IsBeside seat.old seat.new }
        ensures view { view seat.new ≡ merged (view seat.old) (view other) }
        ensures seen { (length (view seat.old).seen ≤ length (view seat.new).seen) × (length (view other).seen ≤ length (view seat.new).seen) }
    {
        self.vault.join(seat, other);
    }

    /// How many entries there are at the end, once every seat that was split off was joined.
    pub fn close(self, seat: Seat<Log>) -> u32
        requires of { IsOf self.vault seat }
        requires reader { IsReader self.program.value self.limit (view seat) }
        requires first { (view seat).number ≡ 0 }
        requires all { (view seat).splits ≡ (view seat).joins }
        ensures few { result ≤ self.limit }
        ensures seen { length (view seat).seen ≤ result }
    {
        let BlockLog {
            vault,
            program: _,
            limit: _,
        } = self;
        vault.close(seat).count()
    }
}
