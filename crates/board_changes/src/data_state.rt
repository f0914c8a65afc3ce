//! The instances and data of a board, and their update at the end of an item.
ghost use Rattle.std.specs.Prelude.{◌≡◌, ◌+◌, ◌*◌, ◌≤◌, ◌<◌, ◌++◌, ◌∷◌, [], ℕ, List, Option, None, Some, length, map, vec_len, vec_capacity, IsOk, OnOk, IfOk, false};
ghost use Rattle.std.specs.Prelude.{IsSome};
ghost use Rattle.dataflow.specs.System.{In};
ghost use Rattle.slab.specs.Slab.{HasRoomFor};
ghost use Rattle.board_history.specs.Ending.{TakenOff, home};
ghost use Rattle.board_history.specs.Fields.{Want, Whole, slot_at};
ghost use Rattle.task_code.specs.Code.{body as body_at};
ghost use Rattle.task_code.specs.Compute.{pairs};
ghost use Rattle.task_code.specs.Effects.{only};
ghost use Rattle.values.specs.Maps.{element};
ghost use Rattle.board_data.specs.Data.{AreRising};
ghost use Rattle.board_data.specs.Holds.{Closes, GivesUp};
ghost use Rattle.board_data.specs.Stored.{IsScalarTarget, StoresIn, Takes};
ghost use Rattle.board_data.specs.View.{want_view};
ghost use Rattle.board_program.specs.Tables.{body_of, led_times, spots_in};
ghost use Rattle.board_instances.specs.Names.{spot_slot};
ghost use Rattle.board_instances.specs.Nested.{IsNested};
ghost use Rattle.task_code.specs.Code.{entry};
ghost use Rattle.board_changes.specs.World.{CanOpen, HasRoom, HasRoomToEnd, holds_of, spare_of, spots_number, told_by};
ghost use Rattle.board_instances.specs.View.{frames_view, job_view, rows_view};
ghost use Rattle.board_instances.specs.declared.pending.PendingInstance.{PendingInstance as AnOpening};
ghost use Rattle.board_changes.specs.Filled.{HasSlots};
ghost use Rattle.board_changes.specs.Opened.{own_of};
ghost use Rattle.board_changes.specs.World.{CanStore, Changed, Goes, LetsGo, Opens, WorldEnds, elements_of, goes_on, reads_of, target_of, told_of, values_of, whole_of, writes_of};

use crate::opening::{open_all, push_continuation};
use board_data::{holds, storing};
use board_instances::instance::{Instance, leave};
use board_instances::item::{ItemTask, PackedItem};
use board_instances::pending::{MissingInputs, PendingInstances};
use board_program::lexical_address::LexicalAddress;
use board_program::program::Program;
use data_store::store::Store;
use rules::input::Input;
use slab::Slab;
use std::alloc::{AllocError, Global};
use std::mem::replace;
use values::key::Key;
use values::map::Element;
use values::value::Scalar;

/// The instances and data of a board.
#[derive(Drop)]
pub struct DataState {
    pub instances: Slab<Instance>,
    pub store: Store,
    /// Buffer for the arrays that an item closes, until they are reported as known inputs.
    pub closed: Vec<usize>,
}

/// The change that an item makes at its end, apart from giving up its holds.
#[derive(Drop)]
pub enum Change {
    Nothing,
    Value(Option<usize>, Scalar),
    Element(Option<usize>, Key, Scalar),
    Elements(Option<usize>, Vec<Element>),
    Opens(PendingInstances),
}

impl Change {
    /// Returns true if the change creates an item for the rest of a loop.
    pub(crate) fn goes_on(&self) -> bool
        ensures { result ≡ goes_on self.now }
    {
        match self {
            Change::Opens(openings) => openings.goes_on,
            _ => false,
        }
    }
}

/// Appends the input that a scalar has its value, or that an array is closed, if there is a target.
fn notify_whole(known: &mut Vec<Input>, target: Option<usize>) -> Result<(), AllocError>
    ensures told { OnOk result (map want_view known.new.items ≡ map want_view known.old.items ++ whole_of target) }
    ensures len { OnOk result (vec_len known.new ≤ vec_len known.old + 1) }
    ensures capacity { vec_capacity known.old ≤ vec_capacity known.new }
    ensures succeeds { vec_len known.old + 1 ≤ vec_capacity known.old → IsOk result }
{
    if let Some(d) = target {
        known.push(Input::Whole(d as u64))?;
    }
    Ok(())
}

/// Appends one input for each of these elements of an array, if there is a target.
fn notify_elements(
    known: &mut Vec<Input>,
    target: Option<usize>,
    elements: &[Element],
) -> Result<(), AllocError>
    ensures told { OnOk result (map want_view known.new.items ≡ map want_view known.old.items ++ elements_of target elements.now) }
    ensures len { OnOk result (vec_len known.new ≤ vec_len known.old + length elements.now) }
    ensures capacity { vec_capacity known.old ≤ vec_capacity known.new }
    ensures succeeds { vec_len known.old + length elements.now ≤ vec_capacity known.old → IsOk result }
{
    if let Some(d) = target {
        for one in elements {
            known.push(Input::Element(d as u64, one.key.hash_code()))?;
        }
    }
    Ok(())
}

/// Appends one input for each of these closed arrays.
fn notify_closed(known: &mut Vec<Input>, closed: &[usize]) -> Result<(), AllocError>
    ensures told { OnOk result (map want_view known.new.items ≡ map want_view known.old.items ++ map Whole closed.now) }
    ensures succeeds { vec_len known.old + length closed.now ≤ vec_capacity known.old → IsOk result }
{
    for d in closed {
        known.push(Input::Whole(*d as u64))?;
    }
    Ok(())
}

/// Returns the addresses of the data that an entry may read.
fn reads_of(program: &Program, number: u32) -> &[LexicalAddress]
    ensures { result.now ≡ spots_in program.now (body_of program.now number) (entry program.now number).reads }
{
    match program.entry(number) {
        Some(table) => table.reads.as_slice(),
        None => &[],
    }
}

/// Returns the addresses of the data that an entry may write.
pub(crate) fn writes_of(program: &Program, number: u32) -> &[LexicalAddress]
    ensures { result.now ≡ spots_in program.now (body_of program.now number) (entry program.now number).writes }
{
    match program.entry(number) {
        Some(table) => table.writes.as_slice(),
        None => &[],
    }
}

impl DataState {
    /// Creates a state without instances and data.
    pub fn new(alloc: Global) -> DataState
        ensures instances { result.instances.slots ≡ [] }
        ensures store { result.store.cells ≡ [] }
    {
        DataState {
            instances: Slab::new(alloc),
            store: Store::new(alloc),
            closed: Vec::new(alloc),
        }
    }

    /// Stores a scalar, and appends it to the known inputs.
    fn store_value(
        &mut self,
        known: &mut Vec<Input>,
        target: Option<usize>,
        value: Scalar,
    ) -> Result<(), AllocError>
        ensures stores { OnOk result (IsScalarTarget target self.old.store → StoresIn target ((only, value) ∷ []) self.old.store self.new.store) }
        ensures told { OnOk result (map want_view known.new.items ≡ map want_view known.old.items ++ whole_of target) }
        ensures instances { self.new.instances ≡ self.old.instances }
        ensures len { OnOk result (vec_len known.new ≤ vec_len known.old + 1) }
        ensures capacity { vec_capacity known.old ≤ vec_capacity known.new }
        ensures closed { self.new.closed ≡ self.old.closed }
        ensures rising { OnOk result (AreRising self.old.store → AreRising self.new.store) }
        ensures succeeds { vec_len known.old + 1 ≤ vec_capacity known.old → IsOk result }
    {
        notify_whole(known, target)?;
        storing::store_value(&mut self.store, target, value);
        Ok(())
    }

    /// Stores an element, and appends it to the known inputs.
    fn store_element(
        &mut self,
        known: &mut Vec<Input>,
        target: Option<usize>,
        key: Key,
        value: Scalar,
    ) -> Result<(), AllocError>
        ensures stores { OnOk result (((n : ℕ) → target ≡ Some n → Takes n (element key value ∷ []) self.old.store)
            → StoresIn target ((key, value) ∷ []) self.old.store self.new.store) }
        ensures told { OnOk result (map want_view known.new.items ≡ map want_view known.old.items ++ elements_of target (element key value ∷ [])) }
        ensures instances { self.new.instances ≡ self.old.instances }
        ensures len { OnOk result (vec_len known.new ≤ vec_len known.old + 1) }
        ensures capacity { vec_capacity known.old ≤ vec_capacity known.new }
        ensures closed { self.new.closed ≡ self.old.closed }
        ensures rising { OnOk result (AreRising self.old.store → AreRising self.new.store) }
        ensures succeeds { vec_len known.old + 1 ≤ vec_capacity known.old → IsOk result }
    {
        if let Some(d) = target {
            known.push(Input::Element(d as u64, key.hash_code()))?;
        }
        storing::store_element(&mut self.store, target, key, value);
        Ok(())
    }

    /// Stores elements, and appends them to the known inputs.
    fn store_all(
        &mut self,
        known: &mut Vec<Input>,
        target: Option<usize>,
        elements: Vec<Element>,
    ) -> Result<(), AllocError>
        ensures stores { OnOk result (((n : ℕ) → target ≡ Some n → Takes n elements.items self.old.store)
            → StoresIn target (pairs elements.items) self.old.store self.new.store) }
        ensures told { OnOk result (map want_view known.new.items ≡ map want_view known.old.items ++ elements_of target elements.items) }
        ensures instances { self.new.instances ≡ self.old.instances }
        ensures len { OnOk result (vec_len known.new ≤ vec_len known.old + vec_len elements) }
        ensures capacity { vec_capacity known.old ≤ vec_capacity known.new }
        ensures closed { self.new.closed ≡ self.old.closed }
        ensures rising { OnOk result (AreRising self.old.store → AreRising self.new.store) }
        ensures succeeds { vec_len known.old + vec_len elements ≤ vec_capacity known.old → IsOk result }
    {
        notify_elements(known, target, elements.as_slice())?;
        storing::store_all(&mut self.store, target, elements);
        Ok(())
    }

    /// Opens instances, and creates the item for the rest of a loop if there is one. Returns the spare lists for the
    /// missing inputs of the new items.
    fn open(
        &mut self,
        alloc: Global,
        rows: &mut Vec<PackedItem>,
        program: &Program,
        job: ItemTask,
        openings: PendingInstances,
    ) -> Result<Vec<MissingInputs>, AllocError>
        ensures opens { OnOk result (Opens program.now (job_view job) openings (frames_view self.old.instances.slots) (frames_view self.new.instances.slots)
            (rows_view rows.old.items) (rows_view rows.new.items) self.old.store self.new.store) }
        ensures spare { IfOk result (λ spare. spare.items ≡ openings.spare.items) }
        ensures closed { self.new.closed ≡ self.old.closed }
        ensures rising { OnOk result (AreRising self.old.store → AreRising self.new.store) }
        ensures succeeds { HasRoom program.now (job_view job) openings self.old.instances self.old.store rows.old → IsOk result }
    {
        let mut openings = openings;
        let goes_on = openings.goes_on;
        let spare = replace(&mut openings.spare, Vec::new(alloc));
        open_all(
            &mut self.instances,
            &mut self.store,
            rows,
            program,
            job,
            openings,
        )?;
        push_continuation(rows, job, goes_on)?;
        Ok(spare)
    }

    /// Removes the holds of an entry, with its names resolved from its instance. The arrays that it was the last to
    /// write are closed, and appended to the known inputs.
    fn give_up(
        &mut self,
        known: &mut Vec<Input>,
        program: &Program,
        number: u32,
        at: usize,
    ) -> Result<(), AllocError>
        ensures gives { OnOk result ((closed : List ℕ)
            × GivesUp (λ d. led_times (spot_slot (frames_view self.old.instances.slots) at) d
            (spots_in program.now (body_of program.now number) (entry program.now number).reads))
            (λ d. led_times (spot_slot (frames_view self.old.instances.slots) at) d
            (spots_in program.now (body_of program.now number) (entry program.now number).writes)) self.old.store self.new.store
            × Closes (λ d. led_times (spot_slot (frames_view self.old.instances.slots) at) d
            (spots_in program.now (body_of program.now number) (entry program.now number).writes)) self.old.store closed
            × (map want_view known.new.items ≡ map want_view known.old.items ++ map Whole closed)) }
        ensures instances { self.new.instances ≡ self.old.instances }
        ensures rising { OnOk result (AreRising self.old.store → AreRising self.new.store) }
        ensures succeeds { spots_number program.now number ≤ vec_capacity self.old.closed
            → vec_len known.old + spots_number program.now number ≤ vec_capacity known.old → IsOk result }
    {
        let writes = writes_of(program, number);
        self.closed.clear();
        self.closed.reserve(writes.len())?;
        holds::give_up(
            &mut self.store,
            &mut self.closed,
            &self.instances,
            at,
            reads_of(program, number),
            writes,
        );
        notify_closed(known, self.closed.as_slice())
    }

    /// Removes the holds of the item, and removes the item from the live count of its instance.
    fn release_item(
        &mut self,
        known: &mut Vec<Input>,
        program: &Program,
        job: ItemTask,
    ) -> Result<(), AllocError>
        ensures goes { OnOk result ((closed : List ℕ)
            × LetsGo program.now (job_view job) (frames_view self.old.instances.slots) (frames_view self.new.instances.slots) self.old.store self.new.store
            closed × (map want_view known.new.items ≡ map want_view known.old.items ++ map Whole closed)) }
        ensures rising { OnOk result (AreRising self.old.store → AreRising self.new.store) }
        ensures succeeds { holds_of program.now (job_view job) ≤ vec_capacity self.old.closed
            → vec_len known.old + holds_of program.now (job_view job) ≤ vec_capacity known.old → IsOk result }
    {
        match job {
            ItemTask::Script => {}
            ItemTask::Does {
                instance,
                entry,
                chunk: _,
            } => {
                self.give_up(known, program, entry, instance)?;
                leave(&mut self.instances, instance);
            }
        }
        Ok(())
    }

    /// Makes the change of an item that ends. Returns the spare lists for the missing inputs of the new items.
    fn make(
        &mut self,
        alloc: Global,
        rows: &mut Vec<PackedItem>,
        known: &mut Vec<Input>,
        program: &Program,
        job: ItemTask,
        change: Change,
    ) -> Result<Vec<MissingInputs>, AllocError>
        ensures changed { OnOk result (Changed program.now (job_view job) change (frames_view self.old.instances.slots) (frames_view self.new.instances.slots)
            (rows_view rows.old.items) (rows_view rows.new.items) self.old.store self.new.store) }
        ensures told { OnOk result (map want_view known.new.items ≡ map want_view known.old.items ++ told_of change) }
        ensures spare { IfOk result (λ spare. spare.items ≡ spare_of change) }
        ensures rising { OnOk result (AreRising self.old.store → AreRising self.new.store) }
        ensures len { OnOk result (vec_len known.new ≤ vec_len known.old + told_by change) }
        ensures capacity { vec_capacity known.old ≤ vec_capacity known.new }
        ensures closed { self.new.closed ≡ self.old.closed }
        ensures succeeds { CanOpen program.now (job_view job) change self.old.instances self.old.store rows.old
            → vec_len known.old + told_by change ≤ vec_capacity known.old → IsOk result }
    {
        match change {
            Change::Nothing => {}
            Change::Value(d, value) => self.store_value(known, d, value)?,
            Change::Element(d, key, value) => self.store_element(known, d, key, value)?,
            Change::Elements(d, elements) => self.store_all(known, d, elements)?,
            Change::Opens(openings) => return self.open(alloc, rows, program, job, openings),
        }
        Ok(Vec::new(alloc))
    }

    /// Ends the item of a task. It makes its change, gives up its holds and leaves its instance. An item whose loop is
    /// continued by another item only makes its change.
    ///
    /// The inputs that become known are appended to `known`. Returns the spare lists for the missing inputs of the new
    /// items.
    ///
    /// # Errors
    ///
    /// Returns `AllocError` if an allocation fails. A part of the change may have been made then. With room for all of
    /// it, no allocation is made.
    pub fn end(
        &mut self,
        alloc: Global,
        rows: &mut Vec<PackedItem>,
        known: &mut Vec<Input>,
        program: &Program,
        job: ItemTask,
        change: Change,
    ) -> Result<Vec<MissingInputs>, AllocError>
        ensures ends { OnOk result ((news : List (Want ℕ)) × (map want_view known.new.items ≡ map want_view known.old.items ++ news)
            × WorldEnds program.now (job_view job) change (frames_view self.old.instances.slots) (frames_view self.new.instances.slots)
            (rows_view rows.old.items) (rows_view rows.new.items) self.old.store self.new.store news) }
        ensures spare { IfOk result (λ spare. spare.items ≡ spare_of change) }
        ensures rising { OnOk result (AreRising self.old.store → AreRising self.new.store) }
        ensures succeeds { HasRoomToEnd program.now (job_view job) change self.old rows.old known.old → IsOk result }
    {
        let goes_on = change.goes_on();
        let spare = self.make(alloc, rows, known, program, job, change)?;
        if !goes_on {
            self.release_item(known, program, job)?;
        }
        Ok(spare)
    }
}
