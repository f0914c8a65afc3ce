//! Failures that end a command early, and their statuses.
ghost use Rattle.std.specs.Prelude.{◌≡◌};
ghost use Rattle.swt_status.specs.Troubles.{trouble_status};

use crate::refusal::Refusal;
use crate::status::Status;

/// A failure that ended a command.
#[derive(Clone, Copy, PartialEq, Eq, Debug)]
pub enum CommandFailure {
    /// The file could not be read.
    Unread,
    /// The script was refused.
    Refused(Refusal),
    /// This line violates the trace grammar. It can be the line that is missing at the end.
    BadLine(u64),
    /// The event of this line is not a step of the script's code.
    NotARun(u64),
    /// This line of the trace names a different end than the run has.
    WrongEnd(u64),
    /// No engine, no worker, or more than 64 of both together.
    BadCount,
    /// A thread could not be started.
    NoThread,
    /// The counts of the threads differ from those of the board.
    Stranger,
    /// An allocation failed.
    Memory,
    /// The output could not be written.
    Unprinted,
    /// The trace of a run could not be written.
    Untraced,
}

impl CommandFailure {
    /// Returns the status with which the failure ends a command.
    pub fn status(self) -> Status
        ensures { result ≡ trouble_status self }
    {
        match self {
            CommandFailure::Unread => Status::Failed,
            CommandFailure::Refused(_) => Status::Refused,
            CommandFailure::BadLine(_) => Status::Failed,
            CommandFailure::NotARun(_) => Status::Failed,
            CommandFailure::WrongEnd(_) => Status::Failed,
            CommandFailure::BadCount => Status::Usage,
            CommandFailure::NoThread => Status::Failed,
            CommandFailure::Stranger => Status::Failed,
            CommandFailure::Memory => Status::Memory,
            CommandFailure::Unprinted => Status::Failed,
            CommandFailure::Untraced => Status::Failed,
        }
    }
}
