//! What a walk goes by.
use asp_trail::reasons::NogoodId;
use asp_vars::lit::Lit;

/// A literal that holds and whose list is walked, and its level.
#[derive(Clone, Copy)]
pub struct Front {
    /// The literal.
    pub lit: Lit,
    /// The literal's level, from 0.
    pub level: usize,
}

/// What a visit to a place found.
#[derive(Clone, Copy)]
pub enum Step {
    /// The place stays, and the next one comes.
    Stays,
    /// The place is gone, and another one may have its number.
    Goes,
    /// All literals of this nogood hold.
    Violated(NogoodId),
}
