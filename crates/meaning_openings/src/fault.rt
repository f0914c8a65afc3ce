//! Errors of the evaluation of a script's meaning.

ghost use Rattle.std.specs.Prelude.{◌≡◌};
ghost use Rattle.meaning_openings.specs.declared.fault.MeaningError.TheVariants.{Memory};

use std::alloc::{AllocError, AllocFailed};

/// The reason why the meaning of a script could not be computed.
#[derive(Clone, Copy, PartialEq, Eq, Debug)]
pub enum MeaningError {
    /// An allocation failure.
    Memory,
    /// More live turns or statements than the limit allows.
    TooLarge,
}

impl From<AllocError> for MeaningError {
    ghost from_gives = { λ _ fault. fault ≡ Memory };

    fn from(_refused: AllocError) -> MeaningError {
        MeaningError::Memory
    }
}

impl<T: Drop> From<AllocFailed<T>> for MeaningError {
    ghost from_gives = { λ _ fault. fault ≡ Memory };

    fn from(_refused: AllocFailed<T>) -> MeaningError {
        MeaningError::Memory
    }
}
