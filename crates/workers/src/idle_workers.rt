//! The idle workers: two LIFO stacks of worker states that no thread holds.
//!
//! A worker state belongs to an engine or worker number, not to a thread. Any thread that finds a ready item takes an
//! idle worker state of that kind.

use crate::gate::RunParams;
use crate::worker_state::WorkerState;
use std::alloc::{AllocError, Global};
use std::sync::ledger::Ledger;
use task_code::entry::Kind;

/// The states of the idle engines and workers. The state released last is taken first.
#[derive(Drop)]
pub struct IdleWorkers<J: RunParams, E: Ledger, N: Ledger> {
    engines: Vec<Box<WorkerState<J, E, N>>>,
    workers: Vec<Box<WorkerState<J, E, N>>>,
}

impl<J: RunParams, E: Ledger, N: Ledger> IdleWorkers<J, E, N> {
    /// Creates empty stacks with capacity for `count` states of each kind.
    ///
    /// # Errors
    ///
    /// Returns `AllocError` if an allocation fails.
    pub fn new(alloc: Global, count: usize) -> Result<IdleWorkers<J, E, N>, AllocError> {
        Ok(IdleWorkers {
            engines: Vec::with_capacity(alloc, count)?,
            workers: Vec::with_capacity(alloc, count)?,
        })
    }

    /// Returns true if no worker of this kind is idle.
    pub fn has_none(&self, kind: Kind) -> bool {
        match kind {
            Kind::Control => self.engines.is_empty(),
            Kind::Leaf => self.workers.is_empty(),
        }
    }

    /// Removes and returns the state of an idle worker of this kind, or `None` if there is none.
    pub fn take(&mut self, kind: Kind) -> Option<Box<WorkerState<J, E, N>>> {
        match kind {
            Kind::Control => self.engines.pop(),
            Kind::Leaf => self.workers.pop(),
        }
    }

    /// Removes and returns the state of any idle engine or worker, or `None` if there is none.
    pub fn pop_any(&mut self) -> Option<Box<WorkerState<J, E, N>>> {
        match self.engines.pop() {
            Some(worker_state) => Some(worker_state),
            None => self.workers.pop(),
        }
    }

    /// Releases a worker state. The stacks have capacity for all states of a run; a state without capacity is dropped,
    /// and is then missing when the totals are collected.
    pub fn push(&mut self, worker_state: Box<WorkerState<J, E, N>>) {
        let _laid = match worker_state.kind {
            Kind::Control => self.engines.push(worker_state),
            Kind::Leaf => self.workers.push(worker_state),
        };
    }
}
