//! Gates: one that holds what workers run until other items have begun, and one that keeps what it learns.
use board_work::work::{Done, Work};
use std::alloc::AllocError;
use std::sync::atomic::{AtomicBool, AtomicU64, Ordering};
use std::thread;
use std::time::Duration;
use workers::gate::{Gate, Progress};

/// Maximum number of milliseconds for which an item is held. Once one was held that long, no further item is held.
const TURNS: u32 = 10_000;

/// Holds each leaf item until these numbers of leaf items and of control items have begun.
#[derive(Drop)]
pub(crate) struct BarrierGate<'a> {
    clock: &'a HostRuntime,
    engines: u8,
    wanted_leaves: u64,
    wanted_controls: u64,
    leaves: AtomicU64,
    controls: AtomicU64,
    ran_out: AtomicBool,
}

impl BarrierGate<'_> {
    pub(crate) fn new(
        clock: &HostRuntime,
        engines: u8,
        wanted_leaves: u64,
        wanted_controls: u64,
    ) -> BarrierGate<'_> {
        BarrierGate {
            clock,
            engines,
            wanted_leaves,
            wanted_controls,
            leaves: AtomicU64::new(0),
            controls: AtomicU64::new(0),
            ran_out: AtomicBool::new(false),
        }
    }

    /// Returns true if some item was held until the last millisecond.
    pub(crate) fn ran_out(&self) -> bool {
        self.ran_out.load(Ordering::SeqCst)
    }

    fn is_open(&self) -> bool {
        self.leaves.load(Ordering::SeqCst) >= self.wanted_leaves
            && self.controls.load(Ordering::SeqCst) >= self.wanted_controls
    }

    fn hold(&self) {
        for _ in 0..TURNS {
            if self.is_open() || self.ran_out() {
                return;
            }
            thread::sleep(self.clock, Duration::from_millis(1));
        }
        self.ran_out.store(true, Ordering::SeqCst);
    }
}

impl Gate for BarrierGate<'_> {
    fn pass(&self, worker: u8, work: Work) -> Result<Done, (Work, AllocError)> {
        if worker < self.engines {
            self.controls.fetch_add(1, Ordering::SeqCst);
        } else {
            self.leaves.fetch_add(1, Ordering::SeqCst);
            self.hold();
        }
        work.compute()
    }
}

/// Keeps how far the run was at its last event.
#[derive(Drop)]
pub(crate) struct ProgressGate {
    events: AtomicU64,
    lines: AtomicU64,
    active: AtomicU64,
}

impl ProgressGate {
    pub(crate) fn new() -> ProgressGate {
        ProgressGate {
            events: AtomicU64::new(0),
            lines: AtomicU64::new(0),
            active: AtomicU64::new(0),
        }
    }

    /// At the last event: how many events and lines there were, and how many items that could begin, ran or waited.
    pub(crate) fn last(&self) -> (u64, u64, u64) {
        (
            self.events.load(Ordering::SeqCst),
            self.lines.load(Ordering::SeqCst),
            self.active.load(Ordering::SeqCst),
        )
    }
}

impl Gate for ProgressGate {
    fn pass(&self, _worker: u8, work: Work) -> Result<Done, (Work, AllocError)> {
        work.compute()
    }

    fn note(&self, progress: Progress) {
        let before = self
            .events
            .fetch_max(progress.events as u64, Ordering::SeqCst);
        if before <= progress.events as u64 {
            let active = progress
                .ready
                .saturating_add(progress.running)
                .saturating_add(progress.waiting);
            self.lines.store(progress.lines as u64, Ordering::SeqCst);
            self.active.store(active, Ordering::SeqCst);
        }
    }
}
