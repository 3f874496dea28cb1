//! How much a search does for a part before that is divided, and how many parts a worker gets. No contract speaks of this: whatever it says,
//! the answers are told in their order.
ghost use Rattle.std.specs.Prelude.{◌<◌};

/// For how many words of rows a worker has room: 4 MiB.
const WORDS: usize = 524_288;

/// So many words more does a row that waits take than its own.
const MORE: usize = 3;

/// For so many answers a worker has room in the first round.
const FEWEST: usize = 2_048;

/// So many conflicts may a worker meet in the first rounds.
const PATIENCE: u64 = 8_000;

/// So many parts for each worker are begun in a round.
const SHARE: usize = 16;

/// So many times a worker's room may wait before no later part is begun.
const WAITING: usize = 8;

/// Where others wait for the next round, one ends that has done so many times less than it may.
const EARLY: u64 = 8;

/// Into so many parts the program is divided for each worker.
const FIRST: usize = 16;

/// Into so many parts at most one is divided that was given up.
const PIECES: usize = 8;

/// So many times fewer answers are sought of a part where the ones before had too many.
const FALLING: usize = 16;

/// A program has at most so many variables: each part costs a propagation of them.
const MOST_VARIABLES: u32 = 16_384;

/// So many conflicts may the first search meet that tries the program.
pub(crate) const TRIED_UNITS: u64 = 512;

/// For so many answers the first search has room that tries the program.
pub(crate) const TRIED_ROOM: usize = 512;

/// So many answers have to be found then at least.
const TRIED_ANSWERS: u64 = 3;

/// How often a part's patience is doubled at most.
const DOUBLED: u32 = 30;

/// What a search does at most.
#[derive(Clone, Copy)]
pub(crate) struct Allowance {
    /// How many answers it finds of a part.
    pub room: usize,
    /// How many conflicts it meets of a part.
    pub units: u64,
    /// How many answers it finds in a round.
    pub rows: usize,
    /// How many conflicts it meets in a round.
    pub all: u64,
    /// How many answers wait at most before no later part is begun.
    pub waiting: usize,
    /// How many parts are taken in a round.
    pub parts: u64,
}

impl Allowance {
    /// Whether so many answers and conflicts are enough for a round. Where others wait for the next one a part of it is.
    pub fn is_spent(&self, answers: u64, conflicts: u64, others_wait: bool) -> bool {
        let share = if others_wait { EARLY } else { 1 };
        answers >= self.rows as u64 / share || conflicts >= self.all / share
    }
}

/// How wide a part is at most that is searched before it is divided.
#[derive(Clone, Copy)]
pub(crate) struct Limit {
    width: usize,
    /// By so much less wide are the next parts where one has too many answers.
    step: usize,
    /// By so much wider are they where one takes little.
    rise: usize,
}

impl Limit {
    /// Parts of any width are searched.
    pub fn new() -> Limit {
        Limit {
            width: usize::MAX,
            step: 1,
            rise: 1,
        }
    }

    /// A part that is so wide was given up. Where too many answers were found of one after another, the limit falls faster each time.
    pub fn lose(&mut self, width: usize, crowded: bool) {
        self.rise = 1;
        let step = if crowded { self.step } else { 1 };
        self.width = self.width.min(width.saturating_sub(step));
        if crowded {
            self.step = self.step.saturating_mul(2);
        }
    }

    /// A part was searched to its end, with so many answers and conflicts. Where it took little, wider ones are searched, and the more
    /// of them did the wider.
    pub fn find(&mut self, allowance: Allowance, answers: u64, conflicts: u64) {
        self.step = 1;
        let little = answers < allowance.room as u64 / 32 && conflicts < allowance.units / 32;
        if little {
            self.width = self.width.saturating_add(self.rise);
            self.rise = self.rise.saturating_mul(2);
        } else {
            self.rise = 1;
        }
    }

    /// How many answers are sought of a part. Where one after another had too many, fewer show that the next has, too.
    pub fn room(&self, allowance: Allowance) -> usize {
        if self.step > 1 {
            (allowance.room / FALLING).max(1)
        } else {
            allowance.room
        }
    }

    /// Whether a part that is so wide is divided at once.
    pub fn is_wide(&self, width: usize) -> bool {
        width > self.width
    }

    /// Into how many parts one that is so wide is divided: no more than it takes, as each division halves one.
    pub fn pieces(&self, width: usize) -> usize
        ensures { 0 < result }
    {
        match width.saturating_sub(self.width) {
            1 => 2,
            2 => 4,
            _ => PIECES,
        }
    }
}

/// How far a stream is.
#[derive(Clone, Copy)]
pub(crate) struct Pace {
    /// So many answers were told.
    told: usize,
    /// For so many answers at most a worker has room, since a row has so many words.
    most: usize,
    /// So many conflicts were met.
    conflicts: u64,
}

impl Pace {
    /// Nothing was told, of sets among so many atoms.
    pub fn new(atoms: usize) -> Pace {
        Pace {
            told: 0,
            most: (WORDS / (atoms / 64 + MORE)).max(1),
            conflicts: 0,
        }
    }

    /// So many answers were told until now.
    pub fn tell(&mut self, told: usize) {
        self.told = told;
    }

    /// So many conflicts were met until now.
    pub fn see(&mut self, conflicts: u64) {
        self.conflicts = conflicts;
    }

    /// What a search does at most in the next round: the more was told and met, the more.
    pub fn allowance(&self) -> Allowance {
        let rows = (self.told / 2).max(FEWEST).min(self.most);
        let all = (self.conflicts / 8).max(PATIENCE);
        Allowance {
            room: (rows / 2).max(1),
            units: all / 2,
            rows,
            all,
            waiting: rows.saturating_mul(WAITING),
            parts: 0,
        }
    }
}

/// How many parts are begun in a round by so many workers.
pub(crate) fn share_of(workers: usize) -> usize {
    workers.saturating_mul(SHARE)
}

/// Into how many parts the program is divided for so many workers.
pub(crate) fn first_pieces(workers: u32) -> usize
    ensures { 0 < result }
{
    (workers as usize).saturating_mul(FIRST).max(1)
}

/// Into how many parts one is divided that was given up.
pub(crate) fn all_pieces() -> usize
    ensures { 0 < result }
{
    PIECES
}

/// How many conflicts a part may meet that was given up so often and can't be divided.
pub(crate) fn units_of(allowance: Allowance, tries: u32) -> u64 {
    let mut units = allowance.units;
    for _ in 0..tries.min(DOUBLED) {
        units = units.saturating_mul(2);
    }
    units
}

/// Whether answers come fast enough for several searches, which share no nogoods: so many were found by the first search that tried.
pub(crate) fn is_rich(answers: u64) -> bool {
    answers >= TRIED_ANSWERS
}

/// Whether a program has few enough variables for several searches.
pub(crate) fn is_small(variables: u32) -> bool {
    variables <= MOST_VARIABLES
}
