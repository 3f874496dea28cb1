//! How a run ended.
ghost use Rattle.std.specs.Prelude.{◌≡◌};
ghost use Rattle.asp_top.specs.Codes.{code_of};

use asp_crew::report::Report;
use asp_read::fault::Fault;

/// How a run ended.
#[derive(Clone, Copy)]
pub enum Status {
    /// Finished with a model: all answers or an optimum were written.
    All,
    /// Finished without a model.
    NoModel,
    /// The budget was spent with a model recorded, which was written.
    Partial,
    /// The budget was spent with no model recorded.
    Unknown,
    /// As many answers as asked for were found, and written.
    Enough,
    /// Help or the version was asked for and written.
    Help,
    /// Memory ran out, and nothing was written to the sink; or of a list or a proof that is written while it is found, a front of it.
    Memory,
    /// The words of the command line are faulty.
    Usage,
    /// The text's first fault, and the number of its line.
    Refused(Fault, u32),
    /// The source failed.
    ReadFault,
    /// The text is longer than a text may be.
    TooLong,
    /// Consequences can't be told by name: the program leaves too few numbers for atoms of its outputs.
    Unnamed,
    /// The sink failed. A front of what was to be written is out. With true the sink says that nobody reads any more, as behind
    /// a pipe that was closed, and no line tells of it.
    WriteFault(bool),
    /// The program's parts were asked for and written.
    Parts,
}

impl Status {
    /// The exit status of the program.
    pub fn code(self) -> u8
        ensures { result ≡ code_of self }
    {
        match self {
            Status::All => 30,
            Status::NoModel => 20,
            Status::Partial => 10,
            Status::Unknown => 1,
            Status::Enough => 11,
            Status::Help => 0,
            Status::Memory => 33,
            Status::Usage => 64,
            Status::Refused(_, _) => 65,
            Status::ReadFault => 66,
            Status::TooLong => 67,
            Status::Unnamed => 65,
            Status::WriteFault(_) => 74,
            Status::Parts => 0,
        }
    }
}

/// How a run ended, and its report where the search ended: with the statuses All, NoModel, Partial, Unknown and Enough,
/// and where the results could not be written. Of a list that was written while it was found it has only the answers that were left at
/// the end.
#[derive(Drop)]
pub struct Outcome {
    /// The run's status, which gives the exit code.
    pub status: Status,
    /// What the search found and what it took, where it ended.
    pub report: Option<Report>,
}
