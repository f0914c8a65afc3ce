//! Placement of the instances that an End opens, with their data, items and holds.
ghost use Rattle.std.specs.Prelude.{◌≡◌, ◌+◌, ◌*◌, ◌≤◌, ◌<◌, ◌++◌, ◌^◌, [], ℕ, List, Option, None, Some, length, map, vec_len, vec_capacity, IsOk, OnOk};
ghost use Rattle.slab.specs.Slab.{HasRoomFor};
ghost use Rattle.dataflow.specs.System.{In};
ghost use Rattle.board_history.specs.Ending.{home, new_row};
ghost use Rattle.board_history.specs.Static.{outer_holds};
ghost use Rattle.task_code.specs.Code.{body as body_at};
ghost use Rattle.board_program.specs.Tables.{at_name, hold_times};
ghost use Rattle.board_history.specs.Ending.{held_times};
ghost use Rattle.board_program.specs.declared.lexical_address.LexicalAddress.{LexicalAddress as ASpot};
ghost use Rattle.board_history.specs.Fields.{Slot as ASlot};
ghost use Rattle.board_data.specs.Data.{AreRising};
ghost use Rattle.board_instances.specs.View.{frames_view, job_view, rows_view};
ghost use Rattle.board_instances.specs.declared.pending.PendingInstance.{PendingInstance as AnOpening};
ghost use Rattle.board_changes.specs.Filled.{HasSlots};
ghost use Rattle.board_changes.specs.Opened.{AddsOuter, AreOpened, CanGoOn, IsShort, going, more_of, own_of};

use crate::instance_data::{TurnSlots, fill_all};
use board_data::holds::hold_outer;
use board_instances::instance::Instance;
use board_instances::item::{ItemTask, PackedItem};
use board_instances::pending::PendingInstances;
use board_instances::placing::{place_all, push_rest_of_loop};
use board_program::program::{Hold, LocalVariable, Program};
use data_store::store::Store;
use slab::Slab;
use std::alloc::AllocError;

/// Returns the entries of a body.
pub(crate) fn entries_of(program: &Program, number: u32) -> &[u32]
    ensures { result.now ≡ (body_at program.now number).entries }
{
    match program.code().body(number) {
        Some(body) => body.entries.as_slice(),
        None => &[],
    }
}

/// Returns the variables that each instance of a body creates data for.
pub(crate) fn local_variables(program: &Program, number: u32) -> &[LocalVariable]
    ensures { result.now ≡ own_of program.now number }
{
    match program.body(number) {
        Some(table) => table.own.as_slice(),
        None => &[],
    }
}

/// Returns the holds of a body on data outside it.
fn outer_holds(program: &Program, number: u32) -> &[Hold]
    ensures reads { (f : ASpot → ASlot) (d : ℕ) → hold_times f (λ h. h.reads) d result.now
        ≡ held_times (at_name program.now number f) d (outer_holds program.now (λ e. e.reads) number) }
    ensures writes { (f : ASpot → ASlot) (d : ℕ) → hold_times f (λ h. h.writes) d result.now
        ≡ held_times (at_name program.now number f) d (outer_holds program.now (λ e. e.writes) number) }
{
    match program.body(number) {
        Some(table) => table.outer.as_slice(),
        None => &[],
    }
}

/// Returns the instance of a task, or `None` for the script.
pub fn instance_of(job: ItemTask) -> Option<usize>
    ensures { result ≡ home (job_view job) }
{
    match job {
        ItemTask::Script => None,
        ItemTask::Does {
            instance,
            entry: _,
            chunk: _,
        } => Some(instance),
    }
}

/// Adds the holds of `count` new instances on data outside them. Addresses are resolved from the last instance.
fn hold_all(
    store: &mut Store,
    instances: &Slab<Instance>,
    program: &Program,
    number: u32,
    last: Option<usize>,
    count: usize,
)
    ensures added { AddsOuter program.now (frames_view instances.now.slots) number count last store.old store.new }
    ensures rising { AreRising store.old → AreRising store.new }
{
    if let Some(at) = last {
        hold_outer(
            store,
            instances,
            outer_holds(program, number),
            at,
            count as u64,
        );
    }
}

/// Creates all instances, with their data and items, and adds their holds on data outside them. Allocates no memory if
/// room was reserved.
///
/// # Errors
///
/// Returns `AllocError` if an allocation fails. Some of the instances may have been created.
pub fn open_all(
    instances: &mut Slab<Instance>,
    store: &mut Store,
    rows: &mut Vec<PackedItem>,
    program: &Program,
    job: ItemTask,
    openings: PendingInstances,
) -> Result<(), AllocError>
    ensures opened { OnOk result (AreOpened program.now (job_view job) openings (frames_view instances.old.slots) (frames_view instances.new.slots)
        (rows_view rows.old.items) (rows_view rows.new.items) store.old store.new) }
    ensures rising { OnOk result (AreRising store.old → AreRising store.new) }
    ensures len { OnOk result (vec_len rows.new ≡ vec_len rows.old + vec_len openings.list * length (body_at program.now openings.body).entries) }
    ensures capacity { vec_capacity rows.old ≤ vec_capacity rows.new }
    ensures succeeds { ((o : AnOpening) → In o openings.list.items → HasSlots (length (own_of program.now openings.body)) o) →
        vec_len openings.list * length (own_of program.now openings.body) ≤ store.old.room →
        store.old.bound ≤ 2 ^ 32 →
        HasRoomFor instances.old (vec_len openings.list) → instances.old.capacity ≤ 2 ^ 32 →
        vec_len rows.old + vec_len openings.list * length (body_at program.now openings.body).entries ≤ vec_capacity rows.old → IsOk result }
{
    let PendingInstances {
        body: number,
        mut list,
        value,
        turn,
        spare: _,
        goes_on: _,
    } = openings;
    let count = list.len();
    fill_all(
        store,
        local_variables(program, number),
        &mut list,
        TurnSlots { value, turn },
    )?;
    let last = place_all(
        instances,
        rows,
        instance_of(job),
        entries_of(program, number),
        list,
    )?;
    hold_all(store, instances, program, number, last, count);
    Ok(())
}

/// Appends the item for the rest of a loop, if `goes_on` is true. Allocates no memory if room was reserved.
///
/// # Errors
///
/// Returns `AllocError` if an allocation fails or the chunk number overflows.
pub fn push_continuation(
    rows: &mut Vec<PackedItem>,
    job: ItemTask,
    goes_on: bool,
) -> Result<(), AllocError>
    ensures rows { OnOk result (rows_view rows.new.items ≡ rows_view rows.old.items ++ map new_row (going (job_view job) goes_on)) }
    ensures succeeds { CanGoOn (job_view job) goes_on → IsShort (job_view job) goes_on
        → vec_len rows.old + more_of goes_on ≤ vec_capacity rows.old → IsOk result }
{
    if let ItemTask::Does {
        instance,
        entry,
        chunk,
    } = job
    {
        if goes_on {
            if chunk == usize::MAX {
                return Err(AllocError);
            }
            push_rest_of_loop(rows, instance, entry, chunk)?;
        }
    }
    Ok(())
}
