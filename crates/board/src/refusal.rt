//! Reasons for which a board refuses a call.

use thiserror::Error;

/// The reason for which a board refused a call.
#[derive(Clone, Copy, PartialEq, Eq, Debug, Drop, Error)]
pub enum BoardRefusal {
    /// The item is not enabled, is already running, or does not exist.
    #[error("B1 NotReady")]
    NotReady,
    /// A fault stands, or the event limit is reached.
    #[error("B2 Ended")]
    Ended,
    /// The item is not running on that worker.
    #[error("B3 NotYours")]
    NotYours,
    /// The submitted work is not that of the item: its entry or its answers differ.
    #[error("B4 Stranger")]
    Stranger,
    /// An allocation failed.
    #[error("no memory")]
    Memory,
}
