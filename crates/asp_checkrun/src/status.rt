//! How a run ends.
ghost use Rattle.std.specs.Prelude.{◌≡◌};
ghost use Rattle.asp_checkrun.specs.Statuses.{status_code};

use asp_checker::run::CheckStatus;

/// How a run ended.
#[derive(Clone, Copy)]
pub enum Status {
    /// A proof was sought in the input.
    Checked(CheckStatus),
    /// Help or the version was written.
    Told,
    /// Memory ran out before the arguments were known.
    Memory,
    /// The arguments are faulty.
    Usage,
    /// Help or the version wasn't written.
    WriteFault,
}

impl Status {
    /// The status with which the program exits.
    pub fn code(self) -> u8
        ensures { result ≡ status_code self }
    {
        match self {
            Status::Checked(status) => status.code(),
            Status::Told => 0,
            Status::Memory => 33,
            Status::Usage => 64,
            Status::WriteFault => 74,
        }
    }
}
