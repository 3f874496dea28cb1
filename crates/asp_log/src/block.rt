//! Blocks of entries that never change.
ghost use Rattle.std.specs.Prelude.{◌≡◌};
ghost use Rattle.std.specs.Vec.{vec_len};

use asp_vars::nogood::Nogood;

/// How many entries a block has.
pub const BLOCK: usize = 64;

/// A full block of entries.
#[derive(Drop)]
pub struct Block {
    /// The entries, which are shared from then on.
    pub items: Vec<Nogood>,
    pub ghost full: { vec_len items ≡ 64 },
}
