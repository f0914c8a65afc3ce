//! Progress of a run or of the rounds of a meaning, reported once a second.

use board_work::work::{Done, Work};
use explain_faults::limits::LimitCounts;
use meaning::observer::{RoundObserver, RoundProgress};
use std::alloc::AllocError;
use std::sync::atomic::{AtomicU64, Ordering};
use std::time::Instant;
use workers::gate::{Gate, Progress};

/// A gate and round observer that computes each item at once. If requested, it reports the progress once a second on
/// standard error. It also keeps the number of items left at the limit.
#[derive(Drop)]
pub struct ProgressReporter<'a> {
    rt: &'a HostRuntime,
    /// Start time, if progress is reported.
    start: Option<Instant>,
    /// The last second since the start in which progress was reported.
    told: AtomicU64,
    /// Maximum number of events of the run.
    limit: usize,
    /// A lower bound on the number of noted events, more than half of them.
    events: AtomicU64,
    /// Numbers of enabled items and of running items at the limit.
    ready: AtomicU64,
    running: AtomicU64,
}

impl ProgressReporter<'_> {
    /// Creates a reporter. It reports progress if this is requested and the system has a clock.
    pub fn new(rt: &HostRuntime, wanted: bool, limit: u32) -> ProgressReporter<'_> {
        let start = if wanted { Instant::now(rt).ok() } else { None };
        ProgressReporter {
            rt,
            start,
            told: AtomicU64::new(0),
            limit: limit as usize,
            events: AtomicU64::new(0),
            ready: AtomicU64::new(0),
            running: AtomicU64::new(0),
        }
    }

    /// Returns a lower bound on the number of events of the run, more than half of them.
    pub fn events(&self) -> usize {
        self.events.load(Ordering::SeqCst) as usize
    }

    /// Returns the numbers of items left at the limit, if the run met it.
    pub fn left(&self) -> LimitCounts {
        LimitCounts {
            events: self.limit,
            ready: self.ready.load(Ordering::SeqCst) as usize,
            running: self.running.load(Ordering::SeqCst) as usize,
        }
    }

    /// Returns the current second and marks it as reported, if progress is requested and has not been reported in this
    /// second.
    fn next_second(&self) -> Option<u64> {
        let start = self.start.as_ref()?;
        let second = start.elapsed(self.rt).ok()?.as_secs();
        let told = self.told.load(Ordering::SeqCst);
        let is_new = second > told
            && self
                .told
                .compare_exchange(told, second, Ordering::SeqCst, Ordering::SeqCst)
                .is_ok();
        if is_new { Some(second) } else { None }
    }

    /// Reports the progress of a run in this second.
    fn tell(&self, second: u64, progress: Progress) {
        let Progress {
            events,
            ready,
            running,
            waiting,
            lines,
        } = progress;
        // If this cannot be written, the run continues.
        let _ = eprintln!(self.rt;
            "swt: {second} s: {events} events, {lines} lines; items: {ready} ready, {running} running, {waiting} waiting"
        );
    }
}

impl Gate for ProgressReporter<'_> {
    fn pass(&self, _worker: u8, work: Work) -> Result<Done, (Work, AllocError)> {
        work.compute()
    }

    fn note(&self, progress: Progress) {
        let events = progress.events as u64;
        // The count is stored only when it doubles, since all threads read it.
        if events / 2 >= self.events.load(Ordering::SeqCst) {
            self.events.store(events, Ordering::SeqCst);
        }
        // After the last allowed event all notes are equal.
        if progress.events >= self.limit {
            self.ready.store(progress.ready, Ordering::SeqCst);
            self.running.store(progress.running, Ordering::SeqCst);
        }
        if let Some(second) = self.next_second() {
            self.tell(second, progress);
        }
    }
}

impl RoundObserver for ProgressReporter<'_> {
    fn learn(&self, rounds: RoundProgress) {
        if let Some(second) = self.next_second() {
            let RoundProgress { done, live } = rounds;
            // If this cannot be written, the rounds continue.
            let _ = eprintln!(self.rt; "swt: {second} s: {done} rounds, {live} statements live");
        }
    }
}
