//! Entries as a reader has them, outside the lock.
ghost use Rattle.std.specs.Prelude.{◌≡◌, ◌+◌, ◌*◌, ◌^◌, ◌<◌, ◌≤◌, ◌==◌, drop, length, map, slice_get, Some, IfOk};
ghost use Rattle.std.specs.Arc.{arc_value};
ghost use Rattle.asp_log.specs.Blocks.{stored};

use crate::block::{BLOCK, Block};
use asp_vars::nogood::Nogood;
use std::alloc::{AllocError, Global};
use std::marker::Model;
use std::sync::Arc;

/// Entries of a log from a position on, which contracts see as their list. No later append changes them.
#[derive(Drop)]
pub struct View {
    /// The log's full blocks from the one on that holds the position.
    blocks: Vec<Arc<Block, Global>>,
    /// Copies of the entries behind them.
    tail: Vec<Nogood>,
    /// So many entries of the first block stand before the position.
    skipped: usize,
}

impl Model for View {
    ghost use Rattle.std.specs.Prelude.{List};
    ghost use Rattle.asp_vars.specs.declared.nogood.Nogood.{Nogood};

    ghost Value = { List Nogood };

    ghost use Rattle.asp_log.specs.Shown.{shown_by, IsShown};

    ghost view = { shown_by };

    ghost invariant = { IsShown };
}

// More owners of the same blocks.
fn shared(
    alloc: Global,
    blocks: &[Arc<Block, Global>],
) -> Result<Vec<Arc<Block, Global>>, AllocError>
    ensures { IfOk result (λ more. map arc_value more.items ≡ map arc_value blocks.now) }
{
    let mut more = Vec::new(alloc);
    for block in blocks {
        more.push(Arc::try_clone(block)?)?;
    }
    Ok(more)
}

fn copied(alloc: Global, entries: &[Nogood]) -> Result<Vec<Nogood>, AllocError>
    ensures { IfOk result (λ copies. copies.items ≡ entries.now) }
{
    let mut copies = Vec::new(alloc);
    for entry in entries {
        copies.push(entry.copy()?)?;
    }
    Ok(copies)
}

impl View {
    /// The entries of these blocks and this tail, from a position on.
    pub(crate) fn of(
        alloc: Global,
        blocks: &[Arc<Block, Global>],
        tail: &[Nogood],
        from: usize,
    ) -> Result<View, AllocError>
        requires from { from ≤ length (stored blocks.now tail.now) }
        requires few { length (stored blocks.now tail.now) < 2 ^ 32 }
        requires tail { length tail.now < 64 }
        ensures { IfOk result (λ v. v ≡ drop from (stored blocks.now tail.now)) }
    {
        let blocks = shared(alloc, &blocks[from / BLOCK..])?;
        let tail = copied(alloc, tail)?;
        Ok(View {
            blocks,
            tail,
            skipped: from % BLOCK,
        })
    }

    /// How many entries there are.
    pub fn len(&self) -> u32
        ensures { result ≡ length self.now }
    {
        (self.blocks.len() * BLOCK + self.tail.len() - self.skipped) as u32
    }

    /// Whether there is none.
    pub fn is_empty(&self) -> bool
        ensures { result ≡ (length self.now == 0) }
    {
        self.len() == 0
    }

    /// The entry at a place, counted from 0.
    pub fn entry(&self, i: u32) -> &Nogood
        requires { i < length self.now }
        ensures { slice_get self.now i ≡ Some result.now }
    {
        let at = self.skipped + i as usize;
        if at / BLOCK < self.blocks.len() {
            let block: &Block = &self.blocks[at / BLOCK];
            &block.items[at % BLOCK]
        } else {
            &self.tail[at - self.blocks.len() * BLOCK]
        }
    }
}
