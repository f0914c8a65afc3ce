//! The kinds of data.

/// The kind of a datum.
#[derive(Clone, Copy, PartialEq, Eq, Debug, Drop)]
pub enum DatumKind {
    /// A scalar, which is written once.
    Single,
    /// An array, of which each element is written once.
    Keyed,
}
