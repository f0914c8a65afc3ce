//! Faults of a run on threads.

use std::alloc::AllocError;
use thiserror::Error;

/// A fault that ends a run on threads without a report.
#[derive(Clone, Copy, PartialEq, Eq, Debug, Drop, Error)]
pub enum RunFault {
    /// There is no engine or no worker, or there are more than `MAX_THREADS` in total.
    #[error("R1 BadCount")]
    BadCount,
    /// The counts of the threads differ from those of the board, or the board refused an item's own work.
    #[error("R2 Stranger")]
    Stranger,
    /// A thread could not be started.
    #[error("R3 Spawn")]
    Spawn,
    /// An allocation failed.
    #[error("no memory")]
    Memory,
}

impl From<AllocError> for RunFault {
    ghost use Rattle.std.specs.Prelude.{◌≡◌};
    ghost use Rattle.workers.specs.declared.fault.RunFault.TheVariants.{Memory};

    ghost from_gives = { λ _ r. r ≡ Memory };

    fn from(_error: AllocError) -> RunFault {
        RunFault::Memory
    }
}
