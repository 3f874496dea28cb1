//! What comes of asking a propagator.
use asp_vars::lit::Lit;
use asp_vars::nogood::Nogood;

/// A literal without a value that follows. Its reason is written when it is asked for.
#[derive(Clone, Copy)]
pub struct Implied {
    /// The literal.
    pub lit: Lit,
    /// By what it follows, as the propagator calls it.
    pub name: u32,
}

/// What a propagator has to say.
#[derive(Drop)]
pub enum Said {
    /// A nogood that is unit or violated.
    Nogood(Nogood),
    /// A literal that follows.
    Implied(Implied),
}
