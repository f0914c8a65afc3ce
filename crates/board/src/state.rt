//! The mutable state of a board, and its transitions at Begin and Back.
ghost use Rattle.std.specs.Prelude.{◌≡◌, ◌≢◌, ℕ, [], IfOk, IfNone, IfSome, None, Some};
ghost use Rattle.board_history.specs.Fields.{Does, Job as PureJob, Over, Status, row_of};
ghost use Rattle.task_code.specs.Code.{Code};
ghost use Rattle.board_instances.specs.View.{job_view, rows_view, status_view};
ghost use Rattle.board.specs.Inside.{Stand};
ghost use Rattle.board.specs.Marked.{HasBegun, HasReturned};
ghost use Rattle.board.specs.Rows.{IsReady, RunsOn};

use crate::remains::LeftItem;
use board_changes::data_state::DataState;
use board_data::inputs::Environment;
use board_instances::item::{ItemStatus, ItemTask, item_of};
use board_items::items::{Items, order_of};
use board_program::program::Program;
use paths::Fault;
use std::alloc::{AllocError, Global};
use values::value::Scalar;

/// The state of the machine: instances and data, items, printed lines and the fault. No event visits all items, data or
/// instances.
pub struct BoardState {
    pub data_state: DataState,
    pub items: Items,
    pub lines: Vec<Scalar>,
    pub fault: Option<Fault>,
    pub alloc: Global,
}

// Written out, so that an owner of a value drops it by one call.
impl Drop for BoardState {
    fn drop(self) {
        let BoardState {
            data_state: _,
            items: _,
            lines: _,
            fault: _,
            alloc: _,
        } = self;
    }
}

impl BoardState {
    /// Creates the state before any event: item 1, which opens the script, is the only item, and it is ready.
    #[tactic(auto, using(crate::proofs::First::first_core))]
    pub fn new(alloc: Global) -> Result<BoardState, AllocError>
        ensures stand { IfOk result (λ core. (C : Code) → Stand C [] core) }
        ensures running { IfOk result (λ core. core.items.running ≡ 0) }
        ensures newly { IfOk result (λ core. core.items.newly.items ≡ []) }
        ensures fault { IfOk result (λ core. core.fault ≡ None) }
    {
        Ok(BoardState {
            data_state: DataState::new(alloc),
            items: Items::new(alloc)?,
            lines: Vec::new(alloc),
            fault: None,
            alloc,
        })
    }

    /// Consumes the state and returns its printed lines.
    pub fn into_lines(self) -> Vec<Scalar>
        ensures { result ≡ self.lines }
    {
        let BoardState {
            data_state: _,
            items: _,
            lines,
            fault: _,
            alloc: _,
        } = self;
        lines
    }

    /// Returns the environment of the instance with key `at`.
    pub fn view<'a>(&'a self, program: &'a Program, at: usize) -> Environment<'a>
        ensures program { result.program.now ≡ program.now }
        ensures instances { result.instances.now ≡ self.now.data_state.instances }
        ensures store { result.store.now ≡ self.now.data_state.store }
        ensures at { result.at ≡ at }
    {
        Environment {
            program,
            instances: &self.data_state.instances,
            store: &self.data_state.store,
            at,
        }
    }

    /// Returns the item of an entry with this number, or `None` if there is none, it has ended, or it opens the script.
    pub fn live_item(&self, number: u64) -> Option<LeftItem>
        ensures some { IfSome result (λ left. row_of (rows_view self.now.items.rows.items) number
            ≡ Some (record { job = Does left.instance left.entry left.chunk; status = status_view left.status })) }
        ensures live { IfSome result (λ left. left.status ≢ ItemStatus.Over) }
        ensures none { IfNone result ((k e c : ℕ) (m : Status) → row_of (rows_view self.now.items.rows.items) number ≡ Some (record { job = Does k e c; status = m }) → m ≡ Over) }
    {
        match item_of(self.items.rows.as_slice(), number) {
            Some(found) if found.status() != ItemStatus::Over => match found.job() {
                ItemTask::Does {
                    entry,
                    instance,
                    chunk,
                } => Some(LeftItem {
                    entry,
                    instance,
                    chunk,
                    status: found.status(),
                }),
                ItemTask::Script => None,
            },
            _ => None,
        }
    }

    /// Returns the task of the item with this number if the item is ready, otherwise `None`.
    pub fn ready_job(&self, number: u64) -> Option<ItemTask>
        ensures some { IfSome result (λ job. IsReady (rows_view self.now.items.rows.items) number (job_view job)) }
        ensures none { IfNone result ((j : PureJob) → ¬ IsReady (rows_view self.now.items.rows.items) number j) }
    {
        match item_of(self.items.rows.as_slice(), number) {
            Some(found) if found.status() == ItemStatus::Ready => Some(found.job()),
            _ => None,
        }
    }

    /// Returns the task of the item with this number if it runs on `worker`, otherwise `None`.
    pub fn running_job(&self, worker: u8, number: u64) -> Option<ItemTask>
        ensures some { IfSome result (λ job. RunsOn (rows_view self.now.items.rows.items) worker number (job_view job)) }
        ensures none { IfNone result ((j : PureJob) → ¬ RunsOn (rows_view self.now.items.rows.items) worker number j) }
    {
        match item_of(self.items.rows.as_slice(), number) {
            Some(found) if found.status() == ItemStatus::Running(worker) => Some(found.job()),
            _ => None,
        }
    }

    /// Marks a ready item, which has the task `job`, as running on `worker`. Allocates no memory.
    #[inline(always)]
    pub fn begin(&mut self, program: &Program, worker: u8, number: u64, job: ItemTask)
        ensures { HasBegun program.now worker number (job_view job) self.old self.new }
    {
        self.items.begin(worker, number, order_of(program, job));
    }

    /// Marks a running item, which has the task `job`, as ready again. Allocates no memory.
    pub fn back(&mut self, program: &Program, number: u64, job: ItemTask)
        ensures { HasReturned program.now number (job_view job) self.old self.new }
    {
        self.items.back(number, order_of(program, job));
    }
}
