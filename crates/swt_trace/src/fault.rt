//! Errors of reading, replaying and writing traces and reports.
use board::Board;
use std::alloc::{AllocError, AllocFailed};
use task_code::event::Event;
use thiserror::Error;
use values::sink::SinkFault;

/// The reason why a trace could not be read.
#[derive(Clone, Copy, PartialEq, Eq, Debug, Drop, Error)]
pub enum TraceError {
    /// The number, counted from 1, of the first line that violates the trace grammar.
    #[error("T1 BadLine {0}")]
    BadLine(u64),
    /// An allocation failed.
    #[error("no memory")]
    Memory,
}

impl From<AllocError> for TraceError {
    ghost use Rattle.std.specs.Prelude.{◌≡◌};
    ghost use Rattle.swt_trace.specs.declared.fault.TraceError.TheVariants.{Memory};

    ghost from_gives = { λ _ fault. fault ≡ Memory };

    fn from(_refused: AllocError) -> TraceError {
        TraceError::Memory
    }
}

impl<T: Drop> From<AllocFailed<T>> for TraceError {
    ghost use Rattle.std.specs.Prelude.{◌≡◌};
    ghost use Rattle.swt_trace.specs.declared.fault.TraceError.TheVariants.{Memory};

    ghost from_gives = { λ _ fault. fault ≡ Memory };

    fn from(_refused: AllocFailed<T>) -> TraceError {
        TraceError::Memory
    }
}

/// The reason why a trace could not be replayed.
#[derive(Clone, Copy, PartialEq, Eq, Debug, Drop, Error)]
pub enum ReplayFault {
    /// The number, counted from 1, of the first line that violates the trace grammar.
    #[error("T1 BadLine {0}")]
    BadLine(u64),
    /// The number of the first line whose event is not a step.
    #[error("T2 NotARun {0}")]
    NotARun(u64),
    /// The number of the last line, which names a different end than the run has.
    #[error("T3 WrongEnd {0}")]
    WrongEnd(u64),
    /// An allocation failed.
    #[error("no memory")]
    Memory,
}

impl From<AllocError> for ReplayFault {
    ghost use Rattle.std.specs.Prelude.{◌≡◌};
    ghost use Rattle.swt_trace.specs.declared.fault.ReplayFault.TheVariants.{Memory};

    ghost from_gives = { λ _ fault. fault ≡ Memory };

    fn from(_refused: AllocError) -> ReplayFault {
        ReplayFault::Memory
    }
}

impl From<TraceError> for ReplayFault {
    ghost use Rattle.std.specs.Prelude.{◌≡◌};
    ghost use Rattle.swt_trace.specs.Faults.{replay_fault};

    ghost from_gives = { λ fault answer. answer ≡ replay_fault fault };

    fn from(fault: TraceError) -> ReplayFault {
        match fault {
            TraceError::BadLine(line) => ReplayFault::BadLine(line),
            TraceError::Memory => ReplayFault::Memory,
        }
    }
}

/// A replay that was refused: the fault, the board at that point if it was kept, and the event that is not a step.
pub struct RefusedReplay {
    pub fault: ReplayFault,
    pub board: Option<Board>,
    pub event: Option<Event>,
}

// Written out, so that the owner drops the value by one call.
impl Drop for RefusedReplay {
    fn drop(self) {
        let RefusedReplay {
            fault: _,
            board: _,
            event: _,
        } = self;
    }
}

impl RefusedReplay {
    ghost use Rattle.std.specs.Prelude.{◌≡◌, None};

    /// Returns the fault, the board and the event.
    pub fn into_parts(self) -> (ReplayFault, Option<Board>, Option<Event>)
        ensures fault { result.0 ≡ self.fault }
        ensures board { result.1 ≡ self.board }
        ensures event { result.2 ≡ self.event }
    {
        let RefusedReplay {
            fault,
            board,
            event,
        } = self;
        (fault, board, event)
    }

    /// Creates the refusal of a replay of which no board is left.
    pub(crate) fn alone(fault: ReplayFault) -> RefusedReplay
        ensures fault { result.fault ≡ fault }
        ensures board { result.board ≡ None }
    {
        RefusedReplay {
            fault,
            board: None,
            event: None,
        }
    }
}

impl From<AllocError> for RefusedReplay {
    ghost use Rattle.std.specs.Prelude.{◌≡◌, None};
    ghost use Rattle.swt_trace.specs.declared.fault.ReplayFault.TheVariants.{Memory};

    ghost from_gives = { λ _ refused. (refused.fault ≡ Memory) × (refused.board ≡ None) };

    fn from(refused: AllocError) -> RefusedReplay {
        RefusedReplay::alone(ReplayFault::from(refused))
    }
}

impl From<TraceError> for RefusedReplay {
    ghost use Rattle.std.specs.Prelude.{◌≡◌, None};
    ghost use Rattle.swt_trace.specs.Faults.{replay_fault};

    ghost from_gives = { λ fault refused. (refused.fault ≡ replay_fault fault) × (refused.board ≡ None) };

    fn from(fault: TraceError) -> RefusedReplay {
        RefusedReplay::alone(ReplayFault::from(fault))
    }
}

/// The reason why a report or its trace could not be written.
#[derive(Clone, Copy, PartialEq, Eq, Debug, Drop, Error)]
pub enum WriteError {
    /// A write failed.
    #[error("W1 Write")]
    Write,
}

impl From<SinkFault> for WriteError {
    ghost use Rattle.std.specs.Prelude.{◌≡◌};
    ghost use Rattle.swt_trace.specs.declared.fault.WriteError.TheVariants.{Write};

    ghost from_gives = { λ _ fault. fault ≡ Write };

    fn from(_refused: SinkFault) -> WriteError {
        WriteError::Write
    }
}
