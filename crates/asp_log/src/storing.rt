//! How entries are added: to the tail, which becomes a block when it is full.
ghost use Rattle.std.specs.Prelude.{◌≡◌, ◌+◌, ◌<◌, ◌++◌, ◌∷◌, [], OnOk, IfErr, OnErr};
ghost use Rattle.std.specs.Vec.{vec_len};
ghost use Rattle.asp_log.specs.Blocks.{stored};

use crate::block::{BLOCK, Block};
use asp_vars::nogood::Nogood;
use std::alloc::Global;
use std::mem;
use std::sync::Arc;

// Pushes an entry, which comes back for want of memory.
fn push(tail: &mut Vec<Nogood>, entry: Nogood) -> Result<(), Nogood>
    ensures ok { OnOk result (tail.new.items ≡ tail.old.items ++ entry ∷ []) }
    ensures err { OnErr result (tail.new.items ≡ tail.old.items) }
    ensures back { IfErr result (λ n. n ≡ entry) }
{
    match tail.push(entry) {
        Ok(()) => Ok(()),
        Err(refused) => Err(refused.value),
    }
}

// Puts an entry behind the tail, which is then a block of its own. The nogood comes back for want of memory.
fn fill_block(
    alloc: Global,
    blocks: &mut Vec<Arc<Block, Global>>,
    tail: &mut Vec<Nogood>,
    entry: Nogood,
) -> Result<(), Nogood>
    requires { vec_len tail.old + 1 ≡ 64 }
    ensures few { vec_len tail.new < 64 }
    ensures ok { OnOk result (stored blocks.new.items tail.new.items ≡ stored blocks.old.items tail.old.items ++ entry ∷ []) }
    ensures err { OnErr result (stored blocks.new.items tail.new.items ≡ stored blocks.old.items tail.old.items) }
    ensures back { IfErr result (λ n. n ≡ entry) }
{
    if blocks.reserve(1).is_err() {
        return Err(entry);
    }
    push(tail, entry)?;
    let items = mem::replace(tail, Vec::new(alloc));
    match Arc::new(alloc, Block { items }) {
        Ok(block) => {
            blocks.push_reserved(block);
            Ok(())
        }
        Err(refused) => {
            let Block { items } = refused.value;
            *tail = items;
            match tail.pop() {
                Some(entry) => Err(entry),
                None => unreachable!(),
            }
        }
    }
}

/// Puts an entry behind the others. The nogood comes back for want of memory, and then the others stay.
pub fn store(
    alloc: Global,
    blocks: &mut Vec<Arc<Block, Global>>,
    tail: &mut Vec<Nogood>,
    entry: Nogood,
) -> Result<(), Nogood>
    requires { vec_len tail.old < 64 }
    ensures few { vec_len tail.new < 64 }
    ensures ok { OnOk result (stored blocks.new.items tail.new.items ≡ stored blocks.old.items tail.old.items ++ entry ∷ []) }
    ensures err { OnErr result (stored blocks.new.items tail.new.items ≡ stored blocks.old.items tail.old.items) }
    ensures back { IfErr result (λ n. n ≡ entry) }
{
    if tail.len() + 1 < BLOCK {
        return push(tail, entry);
    }
    fill_block(alloc, blocks, tail, entry)
}
