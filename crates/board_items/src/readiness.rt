//! Settling of items: a new or woken item waits for the inputs that it misses, or becomes ready.
//!
//! New items are checked once against all their needs. Woken items are checked again only if they wait for an array
//! element, whose index may have become known first.
ghost use Rattle.std.specs.Bool.{OnTrue};
ghost use Rattle.std.specs.List.{flat_map};
ghost use Rattle.board_data.specs.Wanted.{is_nil, wanted_missed};
ghost use Rattle.board_instances.specs.Names.{led_slot};
ghost use Rattle.std.specs.Prelude.{◌≡◌, ◌⊎◌, ◌<◌, ◌≤◌, ◌+◌, ◌-◌, ◌++◌, ◌∷◌, [], ℕ, ℤ, List, Some, drop, length, map, reverse, true, false, IfOk, IsOk, MatchOption, IsTrue, OnErr, OnOk, vec_len, vec_capacity};
ghost use Rattle.smallvec.specs.SmallVec.{HasRoomFor};
ghost use Rattle.board_history.specs.Ending.{job_kind, job_priority};
ghost use Rattle.board_history.specs.Fields.{Job as AJob, Over as over_status, Row, Waiter, Want, row_of};
ghost use Rattle.board_data.specs.View.{cells_view, want_view};
ghost use Rattle.board_data.specs.Wanted.{FewSlots};
ghost use Rattle.board_instances.specs.View.{frames_view, job_view, rows_view};
ghost use Rattle.board_items.specs.Ended.{AreSettled, AreShort, AreToSettle, IsSeen, IsShort, first_needs, is_plain_job, misses, misses_first, needs_of, numbers_behind};
ghost use Rattle.board_items.specs.Progress.{AreOld, CanFinish, Progress, all_to_settle, jobs_behind};
ghost use Rattle.board_items.specs.Room.{AreListsFor, AreSpare, IsRoomy};
ghost use Rattle.board_items.specs.View.{queue_view, waiters_view};
ghost use Rattle.board_history.specs.Marking.{with_status};
ghost use Rattle.std.specs.List.Sorted.{IsSorted};
ghost use Rattle.std.specs.Ordering.{nat_cmp};
ghost use Rattle.task_code.specs.Code.{Kind as AKind};
ghost use Rattle.board_items.specs.Settled.{Settles, one_less};

use crate::items::{Items, order_of};
use board_data::inputs::Environment;
use board_instances::instance::Instance;
use board_instances::item::{ItemStatus, ItemTask, item_of, set_item_status};
use board_instances::pending::MissingInputs;
use board_program::program::{Program, ResolvedNeed};
use data_store::store::Store;
use rules::input::Input;
use slab::Slab;
use smallvec::SmallVec;
use std::alloc::{AllocError, Global};
use work_queue::entry::Kind;

/// The parts of a board that decide whether an item is ready.
#[derive(Clone, Copy)]
pub struct BoardView<'a> {
    pub alloc: Global,
    pub program: &'a Program,
    pub instances: &'a Slab<Instance>,
    pub store: &'a Store,
}

/// Returns true if no input of these needs is missing.
#[tactic(auto, using(crate::proofs::Jobs::any_none, crate::proofs::Jobs::any_some))]
#[inline(always)]
fn is_complete(view: Environment<'_>, needs: &[ResolvedNeed]) -> bool
    ensures { result ≡ is_nil (flat_map (wanted_missed view.entry.program.now (cells_view view.entry.store.now.cells)
        (led_slot (frames_view view.entry.instances.now.slots) view.entry.at)) needs.now) }
{
    for wanted in needs {
        if view.is_missing_any(wanted) {
            return false;
        }
    }
    true
}

impl<'a> BoardView<'a> {
    /// Appends the missing inputs of an item with this task.
    #[inline(always)]
    fn list_missing(self, job: ItemTask, inputs: &mut MissingInputs) -> Result<(), AllocError>
        ensures listed { OnOk result (FewSlots (frames_view self.entry.instances.now.slots)
            → IsSeen self.entry.program.now (frames_view self.entry.instances.now.slots) (job_view job) →
            map want_view inputs.new.items ≡ map want_view inputs.old.items
            ++ misses self.entry.program.now (frames_view self.entry.instances.now.slots) (cells_view self.entry.store.now.cells) (job_view job)) }
        ensures succeeds { HasRoomFor inputs.old (needs_of self.entry.program.now (job_view job)) → IsOk result }
    {
        let ItemTask::Does {
            instance,
            entry,
            chunk: _,
        } = job
        else {
            return Ok(());
        };
        let Some(table) = self.program.entry(entry) else {
            return Ok(());
        };
        let view = Environment {
            program: self.program,
            instances: self.instances,
            store: self.store,
            at: instance,
        };
        view.list_missing(table.needs.as_slice(), inputs)
    }

    /// Returns true if an item with this task misses no input.
    #[inline(always)]
    fn has_inputs(self, job: ItemTask) -> bool
        ensures none { FewSlots (frames_view self.entry.instances.now.slots)
            → IsSeen self.entry.program.now (frames_view self.entry.instances.now.slots) (job_view job) →
            OnTrue result (misses self.entry.program.now (frames_view self.entry.instances.now.slots)
            (cells_view self.entry.store.now.cells) (job_view job) ≡ []) }
        ensures some { FewSlots (frames_view self.entry.instances.now.slots)
            → IsSeen self.entry.program.now (frames_view self.entry.instances.now.slots) (job_view job) →
            misses self.entry.program.now (frames_view self.entry.instances.now.slots) (cells_view self.entry.store.now.cells)
            (job_view job) ≡ [] → IsTrue result }
    {
        let ItemTask::Does {
            instance,
            entry,
            chunk: _,
        } = job
        else {
            return true;
        };
        let Some(table) = self.program.entry(entry) else {
            return true;
        };
        let view = Environment {
            program: self.program,
            instances: self.instances,
            store: self.store,
            at: instance,
        };
        is_complete(view, table.needs.as_slice())
    }

    /// Returns true if an item with this task needs only scalars and closed arrays.
    fn is_plain(self, job: ItemTask) -> bool
        ensures { OnTrue result (is_plain_job self.entry.program.now (job_view job) ≡ true) }
    {
        let ItemTask::Does {
            instance: _,
            entry,
            chunk: _,
        } = job
        else {
            return true;
        };
        match self.program.entry(entry) {
            Some(table) => table.plain,
            None => false,
        }
    }

    /// Returns true if a woken item misses no input. An item that needs no element has just received all its inputs, so
    /// its needs are not read again.
    fn is_ready_after(self, job: ItemTask) -> bool
        ensures none { IsShort self.entry.program.now (frames_view self.entry.instances.now.slots) (cells_view self.entry.store.now.cells) (job_view job)
            → FewSlots (frames_view self.entry.instances.now.slots)
            → IsSeen self.entry.program.now (frames_view self.entry.instances.now.slots) (job_view job) →
            OnTrue result (misses self.entry.program.now (frames_view self.entry.instances.now.slots)
            (cells_view self.entry.store.now.cells) (job_view job) ≡ []) }
        ensures some { FewSlots (frames_view self.entry.instances.now.slots)
            → IsSeen self.entry.program.now (frames_view self.entry.instances.now.slots) (job_view job) →
            misses self.entry.program.now (frames_view self.entry.instances.now.slots) (cells_view self.entry.store.now.cells)
            (job_view job) ≡ [] → IsTrue result }
    {
        self.is_plain(job) || self.has_inputs(job)
    }

    /// Returns the inputs that a woken item misses next.
    ///
    /// # Errors
    ///
    /// Returns `AllocError` if the item may wait for more than two inputs and an allocation fails.
    fn next_missing(self, job: ItemTask) -> Result<MissingInputs, AllocError>
        ensures listed { FewSlots (frames_view self.entry.instances.now.slots)
            → IsSeen self.entry.program.now (frames_view self.entry.instances.now.slots) (job_view job) →
            IfOk result (λ inputs. map want_view inputs.items
            ≡ misses self.entry.program.now (frames_view self.entry.instances.now.slots) (cells_view self.entry.store.now.cells) (job_view job)) }
        ensures succeeds { needs_of self.entry.program.now (job_view job) ≤ 2 → IsOk result }
    {
        let mut inputs = SmallVec::new(self.alloc);
        self.list_missing(job, &mut inputs)?;
        Ok(inputs)
    }

    /// Returns the kind and priority of a new item, its instance, and its needs. The item for the rest of a loop has no
    /// needs.
    #[inline(always)]
    fn inspect(self, job: ItemTask) -> ((Kind, i32), usize, &'a [ResolvedNeed])
        ensures kind { result.0.0 ≡ job_kind self.entry.program.now (job_view job) }
        ensures priority { result.0.1 ≡ job_priority self.entry.program.now (job_view job) }
        ensures count { length result.2.now ≡ first_needs self.entry.program.now (job_view job) }
        ensures listed { FewSlots (frames_view self.entry.instances.now.slots)
            → IsSeen self.entry.program.now (frames_view self.entry.instances.now.slots) (job_view job) →
            flat_map (wanted_missed self.entry.program.now (cells_view self.entry.store.now.cells)
            (led_slot (frames_view self.entry.instances.now.slots) result.1)) result.2.now
            ≡ misses_first self.entry.program.now (frames_view self.entry.instances.now.slots) (cells_view self.entry.store.now.cells) (job_view job) }
    {
        let ItemTask::Does {
            instance,
            entry,
            chunk,
        } = job
        else {
            return ((Kind::Control, 0), 0, &[]);
        };
        let Some(table) = self.program.entry(entry) else {
            return ((Kind::Leaf, 0), instance, &[]);
        };
        let order = (table.kind, table.priority);
        if chunk > 0 {
            return (order, instance, &[]);
        }
        (order, instance, table.needs.as_slice())
    }

    /// Returns the index of the first need that is missing in the instance, with the missing input.
    #[inline(always)]
    fn first_missing(self, at: usize, needs: &[ResolvedNeed]) -> Option<(usize, Input)>
        ensures { MatchOption result (flat_map (wanted_missed self.entry.program.now (cells_view self.entry.store.now.cells)
            (led_slot (frames_view self.entry.instances.now.slots) at)) needs.now ≡ [])
            (λ first. (first.0 < length needs.now) × (flat_map
            (wanted_missed self.entry.program.now (cells_view self.entry.store.now.cells) (led_slot (frames_view self.entry.instances.now.slots) at)) needs.now
            ≡ want_view first.1 ∷ flat_map (wanted_missed self.entry.program.now (cells_view self.entry.store.now.cells)
            (led_slot (frames_view self.entry.instances.now.slots) at)) (drop (first.0 + 1) needs.now))) }
    {
        let view = Environment {
            program: self.program,
            instances: self.instances,
            store: self.store,
            at,
        };
        for place in 0..needs.len() {
            if let Some(input) = view.missing(&needs[place]) {
                return Some((place, input));
            }
        }
        None
    }

    /// Appends the missing inputs of these needs in the instance.
    #[inline(always)]
    fn list(
        self,
        at: usize,
        needs: &[ResolvedNeed],
        inputs: &mut MissingInputs,
    ) -> Result<(), AllocError>
        ensures listed { OnOk result (map want_view inputs.new.items
            ≡ map want_view inputs.old.items ++ flat_map
            (wanted_missed self.entry.program.now (cells_view self.entry.store.now.cells)
            (led_slot (frames_view self.entry.instances.now.slots) at)) needs.now) }
        ensures succeeds { HasRoomFor inputs.old (length needs.now) → IsOk result }
    {
        let view = Environment {
            program: self.program,
            instances: self.instances,
            store: self.store,
            at,
        };
        view.list_missing(needs, inputs)
    }
}

/// Returns an empty list for the missing inputs of a new item with `needs` needs. If there are more than two, the last
/// spare list is used.
fn list_for(alloc: Global, needs: usize, spare: &mut Vec<MissingInputs>) -> MissingInputs
    ensures empty { result.items ≡ [] }
    ensures room { (rest : List ℕ) → AreListsFor (needs ∷ rest) (reverse spare.old.items) → needs ≤ result.capacity }
    ensures rest { (rest : List ℕ) → AreListsFor (needs ∷ rest) (reverse spare.old.items) → AreListsFor rest (reverse spare.new.items) }
{
    if needs > 2 {
        if let Some(mut inputs) = spare.pop() {
            inputs.clear();
            return inputs;
        }
    }
    SmallVec::new(alloc)
}

impl Items {
    /// Makes the item wait for these inputs, or makes it ready if there are none.
    #[inline(always)]
    fn place_with(
        &mut self,
        number: u64,
        order: (Kind, i32),
        inputs: MissingInputs,
    ) -> Result<(), AllocError>
        ensures settles { (missing : List (Want ℕ)) → map want_view inputs.items ≡ missing
            → OnOk result (Settles number missing order.0 order.1 self.old self.new) }
        ensures err { OnErr result (self.new ≡ self.old) }
        ensures woken { self.new.woken ≡ self.old.woken }
        ensures running { self.new.running ≡ self.old.running }
        ensures len { vec_len self.new.rows ≡ vec_len self.old.rows }
        ensures succeeds { 0 < self.old.rules.room → IsOk result }
    {
        if self.rules.add(inputs, number)? {
            self.make_ready(number, order);
        }
        Ok(())
    }

    /// Makes an item ready that misses no input.
    #[inline(always)]
    fn place_ready(&mut self, number: u64, order: (Kind, i32))
        ensures settles { Settles number [] order.0 order.1 self.old self.new }
        ensures woken { self.new.woken ≡ self.old.woken }
        ensures running { self.new.running ≡ self.old.running }
        ensures len { vec_len self.new.rows ≡ vec_len self.old.rows }
    {
        self.make_ready(number, order);
    }

    /// Makes a woken item wait for the inputs that it misses next, or makes it ready.
    fn wake_one(&mut self, board_view: BoardView<'_>, number: u64) -> Result<(), AllocError>
        ensures settles { OnOk result ((r : Row) → row_of (rows_view self.old.rows.items) number ≡ Some r
            → FewSlots (frames_view board_view.entry.instances.now.slots) → IsSeen board_view.entry.program.now (frames_view board_view.entry.instances.now.slots) r.job
            → IsShort board_view.entry.program.now (frames_view board_view.entry.instances.now.slots) (cells_view board_view.entry.store.now.cells) r.job →
            Settles number (misses board_view.entry.program.now (frames_view board_view.entry.instances.now.slots) (cells_view board_view.entry.store.now.cells) r.job)
            (job_kind board_view.entry.program.now r.job) (job_priority board_view.entry.program.now r.job) self.old self.new) }
        ensures woken { self.new.woken ≡ self.old.woken }
        ensures running { self.new.running ≡ self.old.running }
        ensures len { vec_len self.new.rows ≡ vec_len self.old.rows }
        ensures succeeds { (r : Row) → row_of (rows_view self.old.rows.items) number ≡ Some r → FewSlots (frames_view board_view.entry.instances.now.slots)
            → IsSeen board_view.entry.program.now (frames_view board_view.entry.instances.now.slots) r.job →
            IsShort board_view.entry.program.now (frames_view board_view.entry.instances.now.slots) (cells_view board_view.entry.store.now.cells) r.job
            → 0 < self.old.rules.room → IsOk result }
    {
        let Some(item) = item_of(self.rows.as_slice(), number) else {
            return Ok(());
        };
        let job = item.job();
        let order = order_of(board_view.program, job);
        if board_view.is_ready_after(job) {
            self.place_ready(number, order);
            return Ok(());
        }
        let inputs = board_view.next_missing(job)?;
        self.place_with(number, order, inputs)
    }

    /// Makes a new item wait for `input` and for the missing inputs of the remaining needs.
    ///
    /// # Errors
    ///
    /// Returns `AllocError` if an allocation fails. Nothing is allocated if at most one need remains and there is room
    /// for a waiting item.
    #[inline(always)]
    fn place_from(
        &mut self,
        board_view: BoardView<'_>,
        at: usize,
        input: Input,
        rest: &[ResolvedNeed],
        number: u64,
        order: (Kind, i32),
    ) -> Result<(), AllocError>
        ensures settles { OnOk result (Settles number
            (want_view input ∷ flat_map (wanted_missed board_view.entry.program.now (cells_view board_view.entry.store.now.cells)
            (led_slot (frames_view board_view.entry.instances.now.slots) at)) rest.now) order.0 order.1 self.old self.new) }
        ensures woken { self.new.woken ≡ self.old.woken }
        ensures running { self.new.running ≡ self.old.running }
        ensures len { vec_len self.new.rows ≡ vec_len self.old.rows }
        ensures succeeds { length rest.now ≤ 1 → 0 < self.old.rules.room → IsOk result }
    {
        let mut inputs = SmallVec::new(board_view.alloc);
        inputs.push(input)?;
        board_view.list(at, rest, &mut inputs)?;
        self.place_with(number, order, inputs)
    }

    /// Makes a new item wait for the missing inputs of these needs, or makes it ready if there are none.
    ///
    /// # Errors
    ///
    /// Returns `AllocError` if an allocation fails. Nothing is allocated if there are at most two needs and room for a
    /// waiting item.
    #[inline(always)]
    fn place_few(
        &mut self,
        board_view: BoardView<'_>,
        at: usize,
        needs: &[ResolvedNeed],
        number: u64,
        order: (Kind, i32),
    ) -> Result<(), AllocError>
        ensures settles { OnOk result (Settles number
            (flat_map (wanted_missed board_view.entry.program.now (cells_view board_view.entry.store.now.cells)
            (led_slot (frames_view board_view.entry.instances.now.slots) at)) needs.now) order.0 order.1 self.old self.new) }
        ensures woken { self.new.woken ≡ self.old.woken }
        ensures running { self.new.running ≡ self.old.running }
        ensures len { vec_len self.new.rows ≡ vec_len self.old.rows }
        ensures succeeds { length needs.now ≤ 2 → 0 < self.old.rules.room → IsOk result }
    {
        let Some((place, input)) = board_view.first_missing(at, needs) else {
            self.place_ready(number, order);
            return Ok(());
        };
        self.place_from(board_view, at, input, &needs[place + 1..], number, order)
    }

    /// Makes a new item with more than two needs wait for its missing inputs, or makes it ready if there are none. The
    /// inputs are collected in the last spare list.
    #[inline(never)]
    fn place_long(
        &mut self,
        board_view: BoardView<'_>,
        at: usize,
        needs: &[ResolvedNeed],
        number: u64,
        order: (Kind, i32),
        spare: &mut Vec<MissingInputs>,
    ) -> Result<(), AllocError>
        ensures settles { OnOk result (Settles number
            (flat_map (wanted_missed board_view.entry.program.now (cells_view board_view.entry.store.now.cells)
            (led_slot (frames_view board_view.entry.instances.now.slots) at)) needs.now) order.0 order.1 self.old self.new) }
        ensures woken { self.new.woken ≡ self.old.woken }
        ensures running { self.new.running ≡ self.old.running }
        ensures len { vec_len self.new.rows ≡ vec_len self.old.rows }
        ensures rest { (rest : List ℕ) → AreListsFor (length needs.now ∷ rest) (reverse spare.old.items) → AreListsFor rest (reverse spare.new.items) }
        ensures succeeds { (rest : List ℕ) → AreListsFor (length needs.now ∷ rest) (reverse spare.old.items) → 0 < self.old.rules.room → IsOk result }
    {
        let mut inputs = list_for(board_view.alloc, needs.len(), spare);
        board_view.list(at, needs, &mut inputs)?;
        self.place_with(number, order, inputs)
    }

    /// Makes the new item at this row wait for its first missing inputs, or makes it ready.
    fn place_one(
        &mut self,
        board_view: BoardView<'_>,
        place: usize,
        spare: &mut Vec<MissingInputs>,
    ) -> Result<(), AllocError>
        requires { place < vec_len self.old.rows }
        ensures settles { OnOk result ((r : Row) → row_of (rows_view self.old.rows.items) (place + 1) ≡ Some r
            → FewSlots (frames_view board_view.entry.instances.now.slots)
            → IsSeen board_view.entry.program.now (frames_view board_view.entry.instances.now.slots) r.job →
            Settles (place + 1) (misses_first board_view.entry.program.now (frames_view board_view.entry.instances.now.slots)
            (cells_view board_view.entry.store.now.cells) r.job) (job_kind board_view.entry.program.now r.job)
            (job_priority board_view.entry.program.now r.job) self.old self.new) }
        ensures woken { self.new.woken ≡ self.old.woken }
        ensures running { self.new.running ≡ self.old.running }
        ensures len { vec_len self.new.rows ≡ vec_len self.old.rows }
        ensures rest { (r : Row) (jobs : List AJob) → row_of (rows_view self.old.rows.items) (place + 1) ≡ Some r
            → AreSpare board_view.entry.program.now (r.job ∷ jobs) (reverse spare.old.items) → AreSpare board_view.entry.program.now jobs (reverse spare.new.items) }
        ensures succeeds { (r : Row) (jobs : List AJob) → row_of (rows_view self.old.rows.items) (place + 1) ≡ Some r
            → AreSpare board_view.entry.program.now (r.job ∷ jobs) (reverse spare.old.items) → 0 < self.old.rules.room → IsOk result }
    {
        let job = self.rows[place].item().job();
        let number = place as u64 + 1;
        let (order, at, needs) = board_view.inspect(job);
        if needs.len() > 2 {
            return self.place_long(board_view, at, needs, number, order, spare);
        }
        self.place_few(board_view, at, needs, number, order)
    }

    /// Settles each woken item: it waits for the inputs that it misses next, or becomes ready.
    fn wake(&mut self, board_view: BoardView<'_>) -> Result<(), AllocError>
        ensures progress { OnOk result ((rows : List Row) (first number : ℕ) (before : List Waiter) (queued : AKind → ℤ → List ℕ) (left : ℕ) →
            FewSlots (frames_view board_view.entry.instances.now.slots)
            → AreToSettle board_view.entry.program.now (frames_view board_view.entry.instances.now.slots) (cells_view board_view.entry.store.now.cells) rows first number
            self.old.woken.items → AreOld first self.old.woken.items →
            Progress board_view.entry.program.now (frames_view board_view.entry.instances.now.slots) (cells_view board_view.entry.store.now.cells) rows first number
            before queued [] (length self.old.woken.items + left) self.old →
            AreShort board_view.entry.program.now (frames_view board_view.entry.instances.now.slots) (cells_view board_view.entry.store.now.cells) rows
            first self.old.woken.items →
            Progress board_view.entry.program.now (frames_view board_view.entry.instances.now.slots) (cells_view board_view.entry.store.now.cells) rows first number
            before queued self.old.woken.items left self.new) }
        ensures len { vec_len self.new.rows ≡ vec_len self.old.rows }
        ensures running { self.new.running ≡ self.old.running }
        ensures woken { OnOk result (self.new.woken.items ≡ []) }
        ensures succeeds { (rows : List Row) (first number : ℕ) (before : List Waiter) (queued : AKind → ℤ → List ℕ) (left : ℕ) →
            FewSlots (frames_view board_view.entry.instances.now.slots)
            → AreToSettle board_view.entry.program.now (frames_view board_view.entry.instances.now.slots) (cells_view board_view.entry.store.now.cells) rows first number
            self.old.woken.items → AreOld first self.old.woken.items →
            Progress board_view.entry.program.now (frames_view board_view.entry.instances.now.slots) (cells_view board_view.entry.store.now.cells) rows first number
            before queued [] (length self.old.woken.items + left) self.old →
            AreShort board_view.entry.program.now (frames_view board_view.entry.instances.now.slots) (cells_view board_view.entry.store.now.cells) rows first
            self.old.woken.items → IsOk result }
    {
        for at in 0..self.woken.len() {
            let number = self.woken[at];
            self.wake_one(board_view, number)?;
        }
        self.woken.clear();
        Ok(())
    }

    /// Settles each new item: those in rows from `first` on. The last of the spare lists is for the first item that may
    /// wait for more than two inputs.
    fn place_new(
        &mut self,
        board_view: BoardView<'_>,
        first: usize,
        spare: &mut Vec<MissingInputs>,
    ) -> Result<(), AllocError>
        ensures progress { OnOk result ((rows : List Row) (number : ℕ) (before : List Waiter) (queued : AKind → ℤ → List ℕ) (start : List ℕ) (left : ℕ) →
            FewSlots (frames_view board_view.entry.instances.now.slots)
            → AreToSettle board_view.entry.program.now (frames_view board_view.entry.instances.now.slots) (cells_view board_view.entry.store.now.cells) rows first number
            (numbers_behind first (vec_len self.old.rows - first)) → AreOld first start →
            Progress board_view.entry.program.now (frames_view board_view.entry.instances.now.slots) (cells_view board_view.entry.store.now.cells) rows first number
            before queued start ((vec_len self.old.rows - first) + left) self.old →
            Progress board_view.entry.program.now (frames_view board_view.entry.instances.now.slots) (cells_view board_view.entry.store.now.cells) rows first number
            before queued (start ++ numbers_behind first (vec_len self.old.rows - first)) left self.new) }
        ensures woken { self.new.woken ≡ self.old.woken }
        ensures running { self.new.running ≡ self.old.running }
        ensures succeeds { (rows : List Row) (number : ℕ) (before : List Waiter) (queued : AKind → ℤ → List ℕ) (start : List ℕ) (left : ℕ) →
            FewSlots (frames_view board_view.entry.instances.now.slots)
            → AreToSettle board_view.entry.program.now (frames_view board_view.entry.instances.now.slots) (cells_view board_view.entry.store.now.cells) rows first number
            (numbers_behind first (vec_len self.old.rows - first)) → AreOld first start →
            Progress board_view.entry.program.now (frames_view board_view.entry.instances.now.slots) (cells_view board_view.entry.store.now.cells) rows first number
            before queued start ((vec_len self.old.rows - first) + left) self.old →
            AreSpare board_view.entry.program.now (jobs_behind first rows) (reverse spare.old.items) → IsOk result }
    {
        for at in first..self.rows.len() {
            self.place_one(board_view, at, spare)?;
        }
        Ok(())
    }

    /// Marks a running item as over.
    fn close(&mut self, number: u64, kind: Kind)
        ensures rows { rows_view self.new.rows.items ≡ with_status (rows_view self.old.rows.items) number over_status }
        ensures len { vec_len self.new.rows ≡ vec_len self.old.rows }
        ensures rules { self.new.rules ≡ self.old.rules }
        ensures queue { self.new.queue ≡ self.old.queue }
        ensures woken { self.new.woken ≡ self.old.woken }
        ensures newly { self.new.newly.items ≡ [] }
        ensures capacity { vec_capacity self.new.newly ≡ vec_capacity self.old.newly }
        ensures apart { self.new.apart ≡ one_less kind self.old.apart }
        ensures running { self.new.running ≡ self.old.running - 1 }
    {
        self.newly.clear();
        self.apart.take(kind);
        self.running = self.running.saturating_sub(1);
        set_item_status(self.rows.as_mut_slice(), number, ItemStatus::Over);
    }

    /// Ends a running item with this task: marks it as over, and settles the woken items and the new ones, in rows from
    /// `first` on. The spare lists are for those new items that may wait for more than two inputs, in order.
    ///
    /// # Errors
    ///
    /// Returns `AllocError` if there is no room.
    pub fn finish(
        &mut self,
        board_view: BoardView<'_>,
        number: u64,
        job: ItemTask,
        first: usize,
        spare: Vec<MissingInputs>,
    ) -> Result<(), AllocError>
        ensures settled { CanFinish board_view.entry.program.now (frames_view board_view.entry.instances.now.slots) (cells_view board_view.entry.store.now.cells) number
            (job_view job) first self.old →
            AreShort board_view.entry.program.now (frames_view board_view.entry.instances.now.slots) (cells_view board_view.entry.store.now.cells)
            (rows_view self.old.rows.items) first self.old.woken.items →
            OnOk result (AreSettled board_view.entry.program.now (frames_view board_view.entry.instances.now.slots) (cells_view board_view.entry.store.now.cells)
            (rows_view self.old.rows.items) first number (waiters_view self.old.rules.waiting) (queue_view self.old.queue) (all_to_settle first self.old)
            (rows_view self.new.rows.items) (waiters_view self.new.rules.waiting) (queue_view self.new.queue) self.new.newly.items) }
        ensures roomy { CanFinish board_view.entry.program.now (frames_view board_view.entry.instances.now.slots) (cells_view board_view.entry.store.now.cells) number
            (job_view job) first self.old →
            AreShort board_view.entry.program.now (frames_view board_view.entry.instances.now.slots) (cells_view board_view.entry.store.now.cells)
            (rows_view self.old.rows.items) first self.old.woken.items →
            OnOk result (IsRoomy board_view.entry.program.now self.new) }
        ensures running { OnOk result (self.new.running ≡ self.old.running - 1) }
        ensures woken { OnOk result (self.new.woken.items ≡ []) }
        ensures rising { OnOk result (IsSorted nat_cmp self.new.newly.items) }
        ensures succeeds { CanFinish board_view.entry.program.now (frames_view board_view.entry.instances.now.slots) (cells_view board_view.entry.store.now.cells) number
            (job_view job) first self.old →
            AreShort board_view.entry.program.now (frames_view board_view.entry.instances.now.slots) (cells_view board_view.entry.store.now.cells)
            (rows_view self.old.rows.items) first self.old.woken.items →
            AreSpare board_view.entry.program.now (jobs_behind first (rows_view self.old.rows.items)) spare.items → IsOk result }
    {
        let mut spare = spare;
        spare.reverse();
        let (kind, _) = order_of(board_view.program, job);
        self.close(number, kind);
        self.wake(board_view)?;
        self.place_new(board_view, first, &mut spare)?;
        self.newly.sort_unstable();
        Ok(())
    }
}
