//! The instances that an End opens, created before the board changes.
//!
//! A pending instance has its slots, parent and step, but not yet its own data. It is placed in the slab by `placing`.
ghost use Rattle.std.specs.Prelude.{◌≡◌, ◌⊎◌, ◌≤◌, ◌+◌, ◌++◌, [], Option, None, length, map, replicate, option_map, IfNone, IfOk, IfSome, OnOk};
ghost use Rattle.board_history.specs.Fields.{Absent as AbsentSlot, slot_at as slot_of};
ghost use Rattle.task_code.specs.View.{body_view};
ghost use Rattle.board_instances.specs.Openings.{IsInner, passed_from, passed_slot, steps_in, unfilled};
ghost use Rattle.board_instances.specs.View.{frame_view, frames_view, slot_view, step_view};

use crate::instance::{INLINE_SLOTS, Instance, Slot, Slots, slot_at};
use crate::packed::PackedSlot;
use crate::parent_key::{LastStep, ParentKey};
use board_program::program::{PassedArgument, Program};
use rules::input::Input;
use slab::Slab;
use smallvec::SmallVec;
use std::alloc::{AllocError, Global};
use task_code::code::Body;
use values::value::Scalar;

/// The missing inputs of an item.
pub type MissingInputs = SmallVec<Input, 2>;

/// The enclosing instance of a new one, together with the code and the slab of instances.
#[derive(Clone, Copy)]
pub struct ParentContext<'a> {
    pub program: &'a Program,
    pub instances: &'a Slab<Instance>,
    pub at: usize,
}

/// An instance whose own data are not yet made, with the initial values of a turn's variables.
#[derive(Drop)]
pub struct PendingInstance {
    pub instance: Instance,
    pub value: Option<Scalar>,
    pub turn: Option<Scalar>,
}

/// All instances that an End opens; they have the same body.
#[derive(Drop)]
pub struct PendingInstances {
    pub body: u32,
    /// Whether another item is created for the rest of the loop.
    pub goes_on: bool,
    pub list: Vec<PendingInstance>,
    /// The slot of the turn's value variable, if there is one. `turn` is that of its key variable.
    pub value: Option<usize>,
    pub turn: Option<usize>,
    /// Preallocated lists for the missing inputs of new items that may wait for more than two inputs.
    pub spare: Vec<MissingInputs>,
}

/// Returns the slot of one argument of a call.
fn argument_slot(around: ParentContext<'_>, call: u32, place: usize, passed: PassedArgument) -> Slot
    ensures { slot_view result ≡ passed_slot (frames_view around.entry.instances.now.slots) around.entry.at call place passed }
{
    match passed {
        PassedArgument::Fixed => Slot::Literal(call, place),
        PassedArgument::Named(None) => Slot::Absent,
        PassedArgument::Named(Some(spot)) => slot_at(around.instances, around.at, spot),
    }
}

/// Appends the slots of the arguments of a call.
fn push_parameters(
    slots: &mut Slots,
    around: ParentContext<'_>,
    call: u32,
    arguments: &[PassedArgument],
) -> Result<(), AllocError>
    ensures { OnOk result (map slot_view slots.new.items
        ≡ map slot_view slots.old.items ++ passed_from (frames_view around.entry.instances.now.slots) around.entry.at call 0 arguments.now) }
{
    for place in 0..arguments.len() {
        let slot = argument_slot(around, call, place, arguments[place]);
        slots.push(PackedSlot::of(slot)?)?;
    }
    Ok(())
}

/// Creates `own` absent slots, for data that are not yet made, with room for `more` further slots.
#[inline(always)]
fn empty_slots(alloc: Global, own: usize, more: usize) -> Result<Slots, AllocError>
    ensures { IfOk result (λ slots. map slot_view slots.items ≡ replicate own AbsentSlot) }
{
    let all = own.saturating_add(more);
    let mut slots = SmallVec::new(alloc);
    if all > INLINE_SLOTS {
        slots.reserve_exact(all)?;
    }
    for place in 0..own {
        slots.push(PackedSlot::absent())?;
    }
    Ok(slots)
}

/// Creates the script's own instance. Its data are not yet made.
///
/// # Errors
///
/// Returns `AllocError` if an allocation fails.
pub fn outermost(alloc: Global, body: &Body) -> Result<Instance, AllocError>
    ensures { IfOk result (λ instance. frame_view instance ≡ unfilled None 0 0 None 0 (body_view body.now) []) }
{
    Ok(Instance {
        parent: ParentKey::none(),
        level: 0,
        depth: 0,
        body: 0,
        way: LastStep::none(),
        live: body.entries.len(),
        slots: empty_slots(alloc, body.makes.len(), 0)?,
    })
}

/// Returns `count + 1`. So deep a nesting that this overflows is more than memory can hold, and is reported as an
/// allocation failure.
fn checked_successor(count: u32) -> Result<u32, AllocError>
    ensures { IfOk result (λ more. more ≡ count + 1) }
{
    match count.checked_add(1) {
        Some(more) => Ok(more),
        None => Err(AllocError),
    }
}

/// Returns the number of steps of a path extended by this step, if there is one.
fn depth_of(depth: u32, way: &LastStep) -> Result<u32, AllocError>
    ensures { IfOk result (λ more. more ≡ depth + steps_in (option_map step_view way.now)) }
{
    if way.is_step() {
        checked_successor(depth)
    } else {
        Ok(depth)
    }
}

/// Creates an instance of the body inside the parent of the context. `way` is the step that leads to it; the content of
/// a `wait` has none. The arguments of a call are in its slots; its own data are not yet made. `None` if the body or
/// the parent does not exist.
///
/// # Errors
///
/// Returns `AllocError` if an allocation fails.
pub fn child_instance(
    alloc: Global,
    around: ParentContext<'_>,
    number: u32,
    way: LastStep,
    arguments: (u32, &[PassedArgument]),
) -> Result<Option<Instance>, AllocError>
    ensures some { IfOk result (λ found. IfSome found
        (λ instance. IsInner around.entry.program.now (frames_view around.entry.instances.now.slots) around.entry.at number (option_map step_view way)
        (passed_from (frames_view around.entry.instances.now.slots) around.entry.at arguments.entry.0 0 arguments.entry.1.now) (frame_view instance))) }
    ensures none { IfOk result (λ found. IfNone found
        ((length around.entry.program.now.bodies ≤ number) ⊎ (slot_of (frames_view around.entry.instances.now.slots) around.entry.at ≡ None))) }
{
    let Some(body) = around.program.code().body(number) else {
        return Ok(None);
    };
    let Some(outer) = around.instances.get(around.at) else {
        return Ok(None);
    };
    let (call, passed) = arguments;
    let mut slots = empty_slots(alloc, body.makes.len(), passed.len())?;
    push_parameters(&mut slots, around, call, passed)?;
    let depth = depth_of(outer.depth, &way)?;
    Ok(Some(Instance {
        parent: ParentKey::of(around.at)?,
        level: checked_successor(outer.level)?,
        depth,
        body: number,
        way,
        live: body.entries.len(),
        slots,
    }))
}
