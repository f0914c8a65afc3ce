//! Events of a run.

/// An event of a run: a worker begins an item, ends it, or gives it back.
#[derive(Clone, Copy, PartialEq, Eq, Debug, Drop)]
pub enum Event {
    Begin { worker: u8, item: u64 },
    End { worker: u8, item: u64 },
    Back { worker: u8, item: u64 },
}
