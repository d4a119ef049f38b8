ghost use Rattle.std.specs.Prelude.{◌≡◌};
ghost use Rattle.fvm_run.specs.Statuses.{number};

use crate::refusal::Refusal;

/// How the program ends.
#[derive(Debug, Drop)]
pub enum Status {
    /// The whole output was written.
    Done,

    /// The command line is faulty.
    Usage(UsageFault),

    /// The input is refused.
    Refused(Refusal),

    /// The source failed.
    ReadFault,

    /// The sink failed, after it took a front of the output or nothing.
    WriteFault,

    /// There was no memory.
    NoMemory,
}

/// What is wrong with a command line.
#[derive(Clone, Copy, Debug, PartialEq, Eq)]
pub enum UsageFault {
    /// The words name no command.
    Words,
}

/// The exit status of the process: 0, and from 2 on in the order of [`Status`].
pub fn status_number(status: &Status) -> u8
    ensures { result ≡ number status.now }
{
    match status {
        Status::Done => 0,
        Status::Usage(_) => 2,
        Status::Refused(_) => 3,
        Status::ReadFault => 4,
        Status::WriteFault => 5,
        Status::NoMemory => 6,
    }
}
