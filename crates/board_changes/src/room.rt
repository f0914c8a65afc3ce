//! Reservation of the memory that the end of an item uses, before anything changes.
ghost use Rattle.std.specs.Prelude.{◌≡◌, ◌+◌, ◌≤◌, vec_len, vec_capacity, OnErr, OnOk};
ghost use Rattle.board_data.specs.Data.{AreRising};
ghost use Rattle.board_data.specs.View.{cells_view};
ghost use Rattle.board_instances.specs.View.{job_view};
ghost use Rattle.std.specs.Bool.{OnTrue};
ghost use Rattle.board_changes.specs.Opened.{IsShort};
ghost use Rattle.board_changes.specs.Room.{HasPlaces, OnlyRoom, OpensWell, TakesMore};
ghost use Rattle.board_changes.specs.World.{CanOpen, HasRoomToEnd, closes_of, goes_on, holds_of, told_by};
ghost use Rattle.board_changes.specs.declared.data_state.Change.TheVariants.{Opens as OpensAll};

use crate::data_state::{Change, DataState, writes_of};
use crate::opening::{entries_of, local_variables};
use board_data::data;
use board_instances::item::{ItemTask, PackedItem};
use board_instances::pending::PendingInstances;
use board_program::program::Program;
use data_store::store::Store;
use rules::input::Input;
use std::alloc::AllocError;
use values::map::Element;

/// Number of data or instances that 32-bit numbers can distinguish. More are reported as an allocation failure.
const NUMBERS_OF_32_BITS: usize = 4_294_967_296;

impl Change {
    /// Returns the number of stored values that become known.
    fn told(&self) -> usize
        ensures { result ≡ told_by self.now }
    {
        match self {
            Change::Nothing => 0,
            Change::Value(_, _) => 1,
            Change::Element(_, _, _) => 1,
            Change::Elements(_, elements) => elements.len(),
            Change::Opens(_) => 0,
        }
    }
}

/// Returns the number of data that the item of a task may write, and may close when it ends.
fn writable_count(program: &Program, job: ItemTask) -> usize
    ensures { result ≡ holds_of program.now (job_view job) }
{
    match job {
        ItemTask::Script => 0,
        ItemTask::Does {
            instance: _,
            entry,
            chunk: _,
        } => writes_of(program, entry).len(),
    }
}

/// Returns true if the item for the rest of a loop, if there is one, fits in 32-bit numbers.
fn is_short(job: ItemTask, goes_on: bool) -> bool
    ensures { OnTrue result (IsShort (job_view job) goes_on) }
{
    match job {
        ItemTask::Script => true,
        ItemTask::Does {
            instance,
            entry: _,
            chunk,
        } => !goes_on || instance < NUMBERS_OF_32_BITS && chunk < NUMBERS_OF_32_BITS - 1,
    }
}

/// Returns the maximum number of arrays that an item with this change closes.
fn closed_count(program: &Program, job: ItemTask, change: &Change) -> usize
    ensures { result ≡ closes_of program.now (job_view job) (goes_on change.now) }
{
    if change.goes_on() {
        0
    } else {
        writable_count(program, job)
    }
}

/// Reserves memory for elements in an array, under keys of their kinds.
fn reserve_elements(
    store: &mut Store,
    d: Option<usize>,
    elements: &[Element],
) -> Result<(), AllocError>
    ensures places { OnOk result (HasPlaces d elements.now store.new) }
    ensures cells { cells_view store.new.cells ≡ cells_view store.old.cells }
    ensures rising { AreRising store.old → AreRising store.new }
{
    for one in elements {
        data::reserve(store, d, one.key.as_ref(), elements.len())?;
    }
    Ok(())
}

impl DataState {
    /// Reserves memory for opened instances, with their data and items.
    fn reserve_to_open(
        &mut self,
        rows: &mut Vec<PackedItem>,
        program: &Program,
        job: ItemTask,
        openings: &PendingInstances,
    ) -> Result<(), AllocError>
        ensures room { OnOk result (OpensWell program.now (job_view job) (OpensAll openings.now)
            → CanOpen program.now (job_view job) (OpensAll openings.now) self.new.instances self.new.store rows.new) }
        ensures only { OnlyRoom self.old self.new }
        ensures closed { self.new.closed ≡ self.old.closed }
        ensures rows { rows.new.items ≡ rows.old.items }
    {
        let count = openings.list.len();
        let data = count
            .checked_mul(local_variables(program, openings.body).len())
            .ok_or(AllocError)?;
        let items = count
            .checked_mul(entries_of(program, openings.body).len())
            .ok_or(AllocError)?;
        let more = items.checked_add(1).ok_or(AllocError)?;
        self.store.reserve_cells(data)?;
        self.instances.reserve(count)?;
        if self.store.bound() > NUMBERS_OF_32_BITS
            || self.instances.capacity() > NUMBERS_OF_32_BITS
        {
            return Err(AllocError);
        }
        if !is_short(job, openings.goes_on) {
            return Err(AllocError);
        }
        rows.reserve(more)
    }

    /// Reserves memory for elements in an array, or for opened instances.
    fn reserve_to_change(
        &mut self,
        rows: &mut Vec<PackedItem>,
        program: &Program,
        job: ItemTask,
        change: &Change,
    ) -> Result<(), AllocError>
        ensures room { OnOk result (OpensWell program.now (job_view job) change.now
            → CanOpen program.now (job_view job) change.now self.new.instances self.new.store rows.new) }
        ensures takes { OnOk result (TakesMore change.now self.new.store) }
        ensures only { OnlyRoom self.old self.new }
        ensures closed { self.new.closed ≡ self.old.closed }
        ensures rows { rows.new.items ≡ rows.old.items }
    {
        match change {
            Change::Nothing => Ok(()),
            Change::Value(_, _) => Ok(()),
            Change::Element(d, key, _) => data::reserve(&mut self.store, *d, key.as_ref(), 1),
            Change::Elements(d, elements) => {
                reserve_elements(&mut self.store, *d, elements.as_slice())
            }
            Change::Opens(openings) => self.reserve_to_open(rows, program, job, openings),
        }
    }

    /// Reserves memory for the arrays that are closed and for the inputs that become known.
    fn reserve_to_notify(
        &mut self,
        known: &mut Vec<Input>,
        program: &Program,
        job: ItemTask,
        change: &Change,
    ) -> Result<(), AllocError>
        ensures closed { OnOk result (closes_of program.now (job_view job) (goes_on change.now) ≤ vec_capacity self.new.closed) }
        ensures told { OnOk result (vec_len known.new + told_by change.now + closes_of program.now (job_view job) (goes_on change.now) ≤
            vec_capacity known.new) }
        ensures instances { self.new.instances ≡ self.old.instances }
        ensures store { self.new.store ≡ self.old.store }
        ensures known { known.new.items ≡ known.old.items }
    {
        let closes = closed_count(program, job, change);
        let told = change.told().checked_add(closes).ok_or(AllocError)?;
        self.closed.clear();
        self.closed.reserve(closes)?;
        known.reserve(told)
    }

    /// Reserves the memory for the end of an item with this task and change. Nothing but capacity changes.
    ///
    /// # Errors
    ///
    /// Returns `AllocError` if an allocation fails.
    pub fn make_room(
        &mut self,
        rows: &mut Vec<PackedItem>,
        known: &mut Vec<Input>,
        program: &Program,
        job: ItemTask,
        change: &Change,
    ) -> Result<(), AllocError>
        ensures room { OnOk result (OpensWell program.now (job_view job) change.now
            → HasRoomToEnd program.now (job_view job) change.now self.new rows.new known.new) }
        ensures takes { OnOk result (TakesMore change.now self.new.store) }
        ensures only { OnlyRoom self.old self.new }
        ensures rows { rows.new.items ≡ rows.old.items }
        ensures known { known.new.items ≡ known.old.items }
    {
        self.reserve_to_notify(known, program, job, change)?;
        self.reserve_to_change(rows, program, job, change)
    }
}
