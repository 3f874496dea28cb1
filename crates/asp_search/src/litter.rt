//! When what propagators gave is to go.

// Fewer are never much.
const LEAST: usize = 256;

/// How much was kept since what propagators gave was dropped last.
///
/// A nogood that a propagator gave stands in the lists that propagation walks, and seldom implies again.
#[derive(Clone, Copy)]
pub struct Litter {
    // the fewest nogoods not kept forever that were counted since the last dropping
    left: usize,
    // more than so many above these are much
    room: usize,
}

impl Litter {
    /// Nothing was kept so far, over so many variables.
    pub fn new(vars: u32) -> Litter {
        Litter {
            left: 0,
            room: (vars as usize / 4).max(LEAST),
        }
    }

    /// Whether much was kept since, where so many nogoods aren't kept forever now.
    pub fn is_much(&mut self, extra: usize) -> bool {
        self.left = self.left.min(extra);
        extra.saturating_sub(self.left) > self.room
    }

    /// What propagators gave was dropped, and so many nogoods that aren't kept forever are left.
    pub fn dropped(&mut self, extra: usize) {
        self.left = extra;
    }
}
