//! Refusals of the store.

use thiserror::Error;

/// The reason why the store refused a call.
#[derive(Clone, Copy, PartialEq, Eq, Debug, Drop, Error)]
pub enum StoreRefusal {
    /// The scalar already has a value.
    #[error("D1 AlreadySet")]
    AlreadySet,
    /// The array already has an element under this key.
    #[error("D2 ElementTwice")]
    ElementTwice,
    /// The array is closed: no hold for writing is left.
    #[error("D3 Closed")]
    Closed,
    /// An allocation failed.
    #[error("no memory")]
    Memory,
}
