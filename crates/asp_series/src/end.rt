//! How a series of queries ended.

/// How a series of queries ended.
#[derive(Clone, Copy)]
pub enum SeriesEnd {
    /// Every query was finished, and one has a model.
    All,
    /// Every query was finished, and none has a model.
    NoModel,
    /// The units were spent before the last query that was begun was finished, and one has a model.
    Partial,
    /// The same, and none has a model.
    Unknown,
    /// Out of memory.
    Memory,
    /// The sink failed. With true it says that nobody reads any more.
    WriteFault(bool),
}
