//! When a leaf is looked at, and when it is split. No contract speaks of this: whatever it says, the answers are told in their order.

/// The fewest answers that may wait in a leaf before it is looked at.
const FEWEST: usize = 64;

/// The most answers that may wait in a leaf before it is looked at.
const MOST: usize = 65_536;

/// How many words of rows may wait in a leaf before it is looked at: 32 MiB.
const WORDS: usize = 4_194_304;

/// So many words more does a row that waits take than its own, in the set that keeps the rows in their order.
const MORE: usize = 10;

/// By how much a leaf's limit is raised at most, where splits shed few answers.
const MOST_FACTOR: usize = 16;

/// How far a stream is, and when it is to look again at what it knows of its leaf.
#[derive(Clone, Copy)]
pub(crate) struct Pace {
    /// So many answers were told.
    told: usize,
    /// The limit is no greater, since a row has so many words.
    most: usize,
    /// So many of the answers that wait lie in later leaves.
    later: usize,
    /// By so much this leaf's limit is raised.
    factor: usize,
    /// Where more answers wait, the leaf is looked at.
    due: usize,
}

impl Pace {
    /// Nothing was told, of sets among so many atoms.
    pub fn new(atoms: usize) -> Pace {
        Pace {
            told: 0,
            most: (WORDS / (atoms / 64 + 1 + MORE)).max(1),
            later: 0,
            factor: 1,
            due: FEWEST,
        }
    }

    // How many answers may wait in the leaf.
    fn limit(&self) -> usize {
        (self.told / 4)
            .clamp(FEWEST, MOST)
            .saturating_mul(self.factor)
            .min(self.most)
    }

    /// A leaf is begun, in which so many of the answers lie that wait.
    pub fn begin(&mut self, waiting: usize, own: usize, factor: usize) {
        self.later = waiting.saturating_sub(own);
        self.factor = factor;
        self.due = self.later.saturating_add(self.limit());
    }

    /// Whether the leaf is to be looked at, where so many answers wait.
    pub fn is_due(&self, waiting: usize) -> bool {
        waiting > self.due
    }

    /// So many answers more were told.
    pub fn tell(&mut self, count: usize) {
        self.told = self.told.saturating_add(count);
    }

    /// How many of the answers that wait lie in this leaf.
    pub fn own(&self, waiting: usize) -> usize {
        waiting.saturating_sub(self.later)
    }

    /// Whether the leaf is to be split, where so many answers wait.
    pub fn is_crowded(&self, waiting: usize) -> bool {
        self.own(waiting) > self.limit()
    }

    /// The leaf is worked on, where so many answers wait.
    pub fn go_on(&mut self, waiting: usize) {
        self.due = if self.is_crowded(waiting) {
            waiting.saturating_add(self.limit())
        } else {
            self.later.saturating_add(self.limit())
        };
    }

    /// By how much the limits of the halves are raised, of which the second has so many of these answers.
    pub fn factor_after(&self, own: usize, second: usize) -> usize {
        if second < own / 8 && self.factor < MOST_FACTOR {
            2 * self.factor
        } else {
            self.factor
        }
    }
}
