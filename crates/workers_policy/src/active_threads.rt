//! The active threads, and what parked threads see of the lock.

use crate::wake_signal::WakeSignal;

/// The active threads, and the lock epoch that parked threads observe.
#[derive(Clone, Copy, Drop)]
pub struct ActiveThreads {
    /// Number of threads that hold items.
    busy_threads: usize,
    /// Number of published releases of the lock, modulo 2^64.
    epoch: u64,
    /// Whether the signal currently announces a ready item.
    published_ready: bool,
}

impl ActiveThreads {
    /// Creates the state of a run with no active thread.
    pub fn new() -> ActiveThreads {
        ActiveThreads {
            busy_threads: 0,
            epoch: 0,
            published_ready: false,
        }
    }

    /// Returns true if a thread other than the caller is active. `had`: whether the caller is counted as active.
    pub fn has_others(&self, had: bool) -> bool {
        self.busy_threads > had as usize
    }

    /// Updates the count for a thread whose activity changes from `had` to `has`.
    pub fn update_busy(&mut self, had: bool, has: bool) {
        if had && !has {
            self.busy_threads = self.busy_threads.saturating_sub(1);
        }
        if has && !had {
            self.busy_threads = self.busy_threads.saturating_add(1);
        }
    }

    /// Announces to parked threads that the lock is held. Does nothing unless a ready item was announced.
    pub fn publish_locked(&self, signal: &WakeSignal) {
        if self.published_ready {
            signal.set_locked(self.epoch);
        }
    }

    /// Advances the epoch, and announces that the lock is free and whether an item is ready. Announces nothing if no
    /// item is ready and none was announced.
    pub fn publish_unlocked(&mut self, signal: &WakeSignal, ready: bool) {
        self.epoch = self.epoch.wrapping_add(1);
        if ready || self.published_ready {
            signal.set_unlocked(self.epoch, ready);
        }
        self.published_ready = ready;
    }
}
