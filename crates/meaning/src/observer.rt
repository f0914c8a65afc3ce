//! Progress reports of the round evaluation.

/// The progress of the round evaluation.
#[derive(Clone, Copy, PartialEq, Eq, Debug)]
pub struct RoundProgress {
    /// Number of completed rounds.
    pub done: u32,
    /// Number of live statements found so far. A declaration with its value counts twice.
    pub live: usize,
}

/// An observer of the progress. It does not affect the result of the rounds.
pub trait RoundObserver {
    /// Receives the progress, before each round.
    fn learn(&self, _rounds: RoundProgress) {}
}

/// An observer that ignores all reports.
#[derive(Clone, Copy, Debug)]
pub struct NoObserver;

impl RoundObserver for NoObserver {}
