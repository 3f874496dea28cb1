//! The log itself, which one thread at a time has.
ghost use Rattle.std.specs.Prelude.{◌≡◌, ◌+◌, ◌^◌, ◌<◌, ◌≤◌, ◌++◌, ◌∷◌, [], drop, length, IfOk, IfErr, OnErr};
ghost use Rattle.asp_log.specs.declared.log.AppendError.TheVariants as error;
ghost use Rattle.asp_vault.specs.Makers.{Unnamed};
ghost use Rattle.asp_log.specs.Entries.{IsEntry, IsLogFor, unsigned};

use crate::block::{BLOCK, Block};
use crate::scope::Scope;
use crate::shown::View;
use crate::storing::store;
use asp_model::program::Program;
use asp_vars::compiled::Compiled;
use asp_vars::nogood::Nogood;
use asp_vars::origin::Origin;
use asp_vault::Kept;
use std::alloc::{AllocError, Global};
use std::marker::Model;
use std::sync::Arc;

/// Why an append was refused.
#[derive(Clone, Copy, Debug, PartialEq, Eq)]
pub enum AppendError {
    /// There was no memory.
    Memory,
    /// The log has as many entries as it may have.
    Full,
}

/// Nogoods that hold for every search of one program, in the order in which they were added.
#[derive(Drop)]
pub struct Log {
    /// Where memory comes from.
    alloc: Global,
    /// Whose nogoods these are, as a fact without bytes.
    program: Origin<Program>,
    /// The most entries.
    limit: u32,
    /// The entries in full blocks, the oldest first; views share them.
    blocks: Vec<Arc<Block, Global>>,
    /// The entries behind the last full block, fewer than a block has.
    tail: Vec<Nogood>,
}

impl Model for Log {
    ghost use Rattle.asp_log.specs.Entries.{Contents};

    ghost Value = { Contents };

    ghost use Rattle.asp_log.specs.Stored.{contents_of, IsStored};

    ghost view = { contents_of };

    ghost invariant = { IsStored };
}

impl Kept for Log {
    ghost use Rattle.asp_log.specs.Entries.{IsLogFor, unsigned};

    type About = Scope;

    type Entry = Nogood;

    ghost about = { λ l. l.scope };

    ghost entries = { λ l. l.entries };

    ghost maker = { unsigned };

    ghost sound = { λ l. IsLogFor l.scope l.entries };

    fn len(&self) -> u64 {
        let _ = &self.tail;
        u64::from(self.count())
    }
}

impl Log {
    /// A log with no entries, which may have so many.
    pub fn new(alloc: Global, compiled: &Compiled, limit: u32) -> Log
        ensures new { result ≡ record { scope = record { program = compiled.now; limit = limit }; entries = [] } }
        ensures keeps { IsLogFor result.scope result.entries }
        ensures unnamed { Unnamed unsigned result.entries }
    {
        Log::of(alloc, compiled.program(), limit)
    }

    // A log of that program.
    pub(crate) fn of(alloc: Global, program: &Program, limit: u32) -> Log
        ensures new { result ≡ record { scope = record { program = program.now; limit = limit }; entries = [] } }
        ensures keeps { IsLogFor result.scope result.entries }
    {
        Log {
            alloc,
            program: Origin::of(program),
            limit,
            blocks: Vec::new(alloc),
            tail: Vec::new(alloc),
        }
    }

    /// How many entries there are.
    pub fn count(&self) -> u32
        ensures count { result ≡ length self.now.entries }
        ensures keeps { IsLogFor self.now.scope self.now.entries }
    {
        (self.blocks.len() * BLOCK + self.tail.len()) as u32
    }

    /// Adds a nogood behind the others, and answers its position.
    pub fn add(&mut self, entry: Nogood) -> Result<u32, (AppendError, Nogood)>
        requires { IsEntry self.old.scope.program entry }
        ensures scope { self.new.scope ≡ self.old.scope }
        ensures ok { IfOk result (λ at. (at ≡ length self.old.entries) × (self.new.entries ≡ self.old.entries ++ entry ∷ [])) }
        ensures room { IfOk result (λ at. at < self.old.scope.limit) }
        ensures err { OnErr result (self.new.entries ≡ self.old.entries) }
        ensures back { IfErr result (λ e. e.1 ≡ entry) }
        ensures full { IfErr result (λ e. (e.0 ≡ error.Full → length self.old.entries ≡ self.old.scope.limit) × (e.0 ≡ error.Memory → length self.old.entries < self.old.scope.limit)) }
        ensures keeps { IsLogFor self.new.scope self.new.entries }
    {
        let at = self.count();
        if at == self.limit {
            return Err((AppendError::Full, entry));
        }
        match store(self.alloc, &mut self.blocks, &mut self.tail, entry) {
            Ok(()) => Ok(at),
            Err(entry) => Err((AppendError::Memory, entry)),
        }
    }

    /// The entries from a position on, of which the blocks are shared and the tail is copied.
    pub fn shown(&self, from: u32) -> Result<View, AllocError>
        requires { from ≤ length self.now.entries }
        ensures shown { IfOk result (λ v. v ≡ drop from self.now.entries) }
        ensures few { length self.now.entries < 2 ^ 32 }
        ensures keeps { IsLogFor self.now.scope self.now.entries }
    {
        View::of(
            self.alloc,
            self.blocks.as_slice(),
            self.tail.as_slice(),
            from as usize,
        )
    }
}
