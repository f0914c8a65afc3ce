//! Statuses of commands and their exit codes.
ghost use Rattle.std.specs.Prelude.{◌≡◌};
ghost use Rattle.swt_status.specs.Statuses.{number_of, report_status};

use board_runs::report::{End, Report};

/// The status with which a command ended.
#[derive(Clone, Copy, PartialEq, Eq, Debug, Drop)]
pub enum Status {
    /// The run was quiet with nothing blocked, or the script was accepted.
    Done,
    /// A script was refused.
    Refused,
    /// The arguments were not a command, or requested no engine, no worker, or more than 64 of both together.
    Usage,
    /// The run had a fault.
    Fault,
    /// The run was quiet, with blocked statements.
    Blocked,
    /// The run was cut off at its limit.
    Limit,
    /// An allocation failed.
    Memory,
    /// A file, a trace or a write failed, a thread could not be started, or the counts of threads differ from the
    /// board.
    Failed,
}

impl Status {
    /// Returns the exit code of the process.
    pub fn number(self) -> u8
        ensures { result ≡ number_of self }
    {
        match self {
            Status::Done => 0,
            Status::Refused => 1,
            Status::Usage => 2,
            Status::Fault => 3,
            Status::Blocked => 4,
            Status::Limit => 5,
            Status::Memory => 6,
            Status::Failed => 7,
        }
    }
}

/// Returns the status for the end of a run.
pub fn status_of(report: &Report) -> Status
    ensures { result ≡ report_status report.now }
{
    match report.end {
        End::Fault(_) => Status::Fault,
        End::Quiet => {
            if report.blocked.is_empty() {
                Status::Done
            } else {
                Status::Blocked
            }
        }
        End::Limit => Status::Limit,
    }
}
