//! The items of a board by status: the row table, the index of waiting items, and the queue of ready items.
ghost use Rattle.std.specs.Prelude.{◌≡◌, ◌<◌, ◌≤◌, ◌+◌, ◌-◌, ◌++◌, ◌∷◌, ◌^◌, [], ℕ, List, Contains, IsOk, IfOk, IsTrue, None, ◌↔◌, OnOk, length, vec_len, vec_capacity};
ghost use Rattle.work_queue.specs.Entries.{first_number};
ghost use Rattle.board_history.specs.Ending.{job_kind, job_priority};
ghost use Rattle.board_history.specs.Fields.{Ready as ready_status, Running as running_status};
ghost use Rattle.board_history.specs.Fields.{Waiter, Want};
ghost use Rattle.board_history.specs.Marking.{with_status};
ghost use Rattle.rules.specs.Waiting.{GivesRoomBack};
ghost use Rattle.work_queue.specs.Both.{of, with_changed};
ghost use Rattle.work_queue.specs.Waiting.{with_put, without};
ghost use Rattle.board_data.specs.View.{want_view};
ghost use Rattle.board_instances.specs.View.{job_view, rows_view};
ghost use Rattle.board_items.specs.Learnt.{HaveLearnt};
ghost use Rattle.board_items.specs.Room.{IsRoomy, IsRoomyFor};
ghost use Rattle.task_code.specs.Code.{Code};
ghost use Rattle.board_items.specs.Settled.{AreFirst, one_more, IsTold, StaysButRoom, one_less, StaysButOrder, StaysButWaits};

use board_instances::item::{ItemStatus, ItemTask, PackedItem, set_item_status};
use board_instances::pending::MissingInputs;
use board_program::program::Program;
use rules::input::Input;
use rules::rules_table::Rules;
use std::alloc::{AllocError, Global};
use work_queue::entry::Kind;
use work_queue::queue::Queue;

/// Item counts by kind.
#[derive(Clone, Copy, PartialEq, Eq, Debug, Drop)]
pub struct Counts {
    pub controls: usize,
    pub leaves: usize,
}

/// The items of a board. No call on it visits all items.
#[derive(Drop)]
pub struct Items {
    pub rows: Vec<PackedItem>,
    pub rules: Rules,
    pub queue: Queue,
    /// The items that the last event enabled, by ascending number.
    pub newly: Vec<u64>,
    /// The waiting items whose last missing input has just become known.
    pub woken: Vec<u64>,
    /// Number of items that wait or run, by kind. The queue has room for that many more.
    pub apart: Counts,
    pub running: usize,
}

impl Counts {
    /// Increments the count of a kind.
    pub fn add(&mut self, kind: Kind)
        ensures { self.new ≡ one_more kind self.old }
    {
        match kind {
            Kind::Control => self.controls = self.controls.saturating_add(1),
            Kind::Leaf => self.leaves = self.leaves.saturating_add(1),
        }
    }

    /// Decrements the count of a kind.
    pub fn take(&mut self, kind: Kind)
        ensures { self.new ≡ one_less kind self.old }
    {
        match kind {
            Kind::Control => self.controls = self.controls.saturating_sub(1),
            Kind::Leaf => self.leaves = self.leaves.saturating_sub(1),
        }
    }
}

/// Returns the kind and the priority of a task.
pub fn order_of(program: &Program, job: ItemTask) -> (Kind, i32)
    ensures kind { result.0 ≡ job_kind program.now (job_view job) }
    ensures priority { result.1 ≡ job_priority program.now (job_view job) }
{
    match job {
        ItemTask::Script => (Kind::Control, 0),
        ItemTask::Does {
            instance: _,
            entry,
            chunk: _,
        } => match program.entry(entry) {
            Some(table) => (table.kind, table.priority),
            None => (Kind::Leaf, 0),
        },
    }
}

impl Items {
    /// Creates the items before any event: item 1 alone, which is ready.
    ///
    /// # Errors
    ///
    /// Returns `AllocError` if an allocation fails.
    pub fn new(alloc: Global) -> Result<Items, AllocError>
        ensures { IfOk result AreFirst }
    {
        let mut items = Items {
            rows: Vec::new(alloc),
            rules: Rules::new(alloc),
            queue: Queue::new(alloc),
            newly: Vec::new(alloc),
            woken: Vec::new(alloc),
            apart: Counts {
                controls: 0,
                leaves: 0,
            },
            running: 0,
        };
        items.rows.push(PackedItem::script(ItemStatus::Ready))?;
        items.queue.put(Kind::Control, 0, 1)?;
        items.newly.reserve(1)?;
        Ok(items)
    }

    /// Returns true if no item is running or ready.
    pub fn is_quiescent(&self) -> bool
        ensures { IsTrue result ↔ ((self.now.running ≡ 0) × (first_number self.now.queue.control.entries ≡ None)
            × (first_number self.now.queue.leaf.entries ≡ None)) }
    {
        self.running == 0
            && self.queue.first(Kind::Control).is_none()
            && self.queue.first(Kind::Leaf).is_none()
    }

    /// Marks a ready item as running on the worker, and clears the newly enabled items. `order` is its kind and
    /// priority. Allocates no memory.
    pub fn begin(&mut self, worker: u8, number: u64, order: (Kind, i32))
        ensures stays { StaysButOrder self.old self.new }
        ensures rows { rows_view self.new.rows.items ≡ with_status (rows_view self.old.rows.items) number (running_status worker) }
        ensures queue { Contains (of order.0 self.old.queue).entries (record { priority = order.1; no = number })
            → self.new.queue ≡ with_changed order.0 (without (record { priority = order.1; no = number })) self.old.queue }
        ensures running { self.old.running + 1 < 2 ^ 64 → self.new.running ≡ self.old.running + 1 }
        ensures newly { self.new.newly.items ≡ [] }
        ensures capacity { vec_capacity self.new.newly ≡ vec_capacity self.old.newly }
        ensures apart { self.new.apart ≡ one_more order.0 self.old.apart }
    {
        let (kind, priority) = order;
        self.newly.clear();
        let _there = self.queue.remove(kind, priority, number);
        self.apart.add(kind);
        set_item_status(
            self.rows.as_mut_slice(),
            number,
            ItemStatus::Running(worker),
        );
        self.running = self.running.saturating_add(1);
    }

    /// Marks a running item as ready again. `order` is its kind and priority. Allocates no memory.
    pub fn back(&mut self, number: u64, order: (Kind, i32))
        ensures stays { StaysButOrder self.old self.new }
        ensures rows { rows_view self.new.rows.items ≡ with_status (rows_view self.old.rows.items) number ready_status }
        ensures queue { 0 < (of order.0 self.old.queue).room
            → self.new.queue ≡ with_changed order.0 (with_put (record { priority = order.1; no = number })) self.old.queue }
        ensures running { self.new.running ≡ self.old.running - 1 }
        ensures newly { 0 < vec_capacity self.old.newly → self.new.newly.items ≡ number ∷ [] }
        ensures apart { self.new.apart ≡ one_less order.0 self.old.apart }
        ensures capacity { vec_capacity self.old.newly ≤ vec_capacity self.new.newly }
    {
        self.newly.clear();
        self.running = self.running.saturating_sub(1);
        self.make_ready(number, order);
    }

    /// Marks an item as ready, and adds it to the queue and to the newly enabled items. The caller has reserved room
    /// for it.
    #[inline(always)]
    pub(crate) fn make_ready(&mut self, number: u64, order: (Kind, i32))
        ensures apart { self.new.apart ≡ one_less order.0 self.old.apart }
        ensures len { vec_len self.new.rows ≡ vec_len self.old.rows }
        ensures stays { StaysButOrder self.old self.new }
        ensures rows { rows_view self.new.rows.items ≡ with_status (rows_view self.old.rows.items) number ready_status }
        ensures queue { 0 < (of order.0 self.old.queue).room
            → self.new.queue ≡ with_changed order.0 (with_put (record { priority = order.1; no = number })) self.old.queue }
        ensures running { self.new.running ≡ self.old.running }
        ensures newly { vec_len self.old.newly < vec_capacity self.old.newly → self.new.newly.items ≡ self.old.newly.items ++ number ∷ [] }
        ensures capacity { vec_capacity self.old.newly ≤ vec_capacity self.new.newly }
    {
        let (kind, priority) = order;
        self.apart.take(kind);
        set_item_status(self.rows.as_mut_slice(), number, ItemStatus::Ready);
        let _put = self.queue.put(kind, priority, number);
        let _noted = self.newly.push(number);
    }

    /// Marks an input as known. Each item that now misses nothing more moves from the index to `woken`. The caller has
    /// reserved room in `woken` for all waiting items; without it, nothing changes.
    pub fn tell(&mut self, input: &Input)
        ensures stays { StaysButWaits self.old self.new }
        ensures told { length self.old.rules.waiting + vec_len self.old.woken ≤ vec_capacity self.old.woken → IsTold input.now self.old self.new }
        ensures learnt { length self.old.rules.waiting + vec_len self.old.woken ≤ vec_capacity self.old.woken → (known : List (Want ℕ)) (start : List Waiter)
            → HaveLearnt known start self.old.rules.waiting self.old.woken.items
            → HaveLearnt (known ++ want_view input.now ∷ []) start self.new.rules.waiting self.new.woken.items }
        ensures woken_capacity { vec_capacity self.new.woken ≡ vec_capacity self.old.woken }
        ensures count { length self.new.rules.waiting + vec_len self.new.woken ≡ length self.old.rules.waiting + vec_len self.old.woken }
    {
        let all = self.rules.waiting().saturating_add(self.woken.len());
        if all <= self.woken.capacity() {
            self.rules.known(input, &mut self.woken);
        }
    }

    /// Reserves memory for the items that an End may enable: all waiting items and `more` further ones. Nothing but
    /// capacity changes.
    ///
    /// # Errors
    ///
    /// Returns `AllocError` if an allocation fails.
    pub fn reserve_to_wake(&mut self, more: usize) -> Result<(), AllocError>
        ensures stays { StaysButRoom self.old self.new }
        ensures room { self.new.rules ≡ self.old.rules }
        ensures woken { OnOk result (vec_len self.new.woken + length self.new.rules.waiting ≤ vec_capacity self.new.woken) }
        ensures newly { OnOk result (vec_len self.new.newly + (length self.new.rules.waiting + more) ≤ vec_capacity self.new.newly) }
        ensures queue { self.new.queue ≡ self.old.queue }
        ensures apart { self.new.apart ≡ self.old.apart }
        ensures capacity { vec_capacity self.old.newly ≤ vec_capacity self.new.newly }
    {
        let waiting = self.rules.waiting();
        // A count that overflows is more than memory can hold.
        let Some(all) = waiting.checked_add(more) else {
            return Err(AllocError);
        };
        self.woken.reserve(waiting)?;
        self.newly.reserve(all)
    }

    /// Reserves memory for new items, and adds them to the counts in `apart`. Nothing else changes.
    ///
    /// # Errors
    ///
    /// Returns `AllocError` if an allocation fails. Some of the memory may have been reserved.
    pub fn reserve_new(&mut self, added: Counts) -> Result<(), AllocError>
        ensures stays { StaysButRoom self.old self.new }
        ensures roomy { OnOk result ((code : Code) → IsRoomy code self.old → IsRoomyFor code added.controls added.leaves self.new) }
        ensures kept { (code : Code) → IsRoomy code self.old → IsRoomy code self.new }
        ensures rows { OnOk result (vec_len self.new.rows + (added.controls + added.leaves) ≤ vec_capacity self.new.rows) }
        ensures rules { OnOk result (added.controls + added.leaves ≤ self.new.rules.room) }
    {
        // A count that overflows is more than memory can hold.
        let Some(controls) = self.apart.controls.checked_add(added.controls) else {
            return Err(AllocError);
        };
        let Some(leaves) = self.apart.leaves.checked_add(added.leaves) else {
            return Err(AllocError);
        };
        let Some(all) = added.controls.checked_add(added.leaves) else {
            return Err(AllocError);
        };
        self.rows.reserve(all)?;
        self.rules.reserve(all)?;
        self.queue.reserve(Kind::Control, controls)?;
        self.queue.reserve(Kind::Leaf, leaves)?;
        self.apart = Counts { controls, leaves };
        Ok(())
    }

    /// Reserves index memory for the new items that may wait for more than two inputs; `spare` holds their preallocated
    /// lists. It is called after `reserve_new`. Nothing but capacity changes.
    ///
    /// # Errors
    ///
    /// Returns `AllocError` if an allocation fails.
    pub fn reserve_to_wait(&mut self, spare: &[MissingInputs]) -> Result<(), AllocError>
        ensures { self.new ≡ self.old }
    {
        if spare.is_empty() {
            return Ok(());
        }
        self.rules.reserve_inputs(inputs_in(spare))
    }
}

// Returns the total capacity of the lists, in inputs.
fn inputs_in(spare: &[MissingInputs]) -> usize {
    let mut inputs = 0_usize;
    for list in spare {
        inputs = inputs.saturating_add(list.capacity());
    }
    inputs
}
