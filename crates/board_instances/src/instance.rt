//! Block instances: their slots, their paths and their live counts.
ghost use Rattle.std.specs.Prelude.{◌≡◌, ◌<◌, ◌≤◌, ◌+◌, ◌++◌, ◌^◌, ℕ, suc, List, Option, Some, None, map, reverse, option_copied, option_map, IfOk, IfSome, IsSome, OnSome};
ghost use Rattle.slab.specs.Slab.{get, slab_len};
ghost use Rattle.board_history.specs.Ending.{Sets, TakenOff, with_live};
ghost use Rattle.board_history.specs.Fields.{Frame, frame_up, level_of, path_from, path_of, slot_at as slot_of};
ghost use Rattle.board_instances.specs.Names.{datum_of, led_slot, slot_in, spot_slot};
ghost use Rattle.board_instances.specs.Nested.{IsNested};
ghost use Rattle.board_instances.specs.View.{frame_view, frames_view, slot_view, step_view};

use crate::packed::PackedSlot;
use crate::parent_key::{LastStep, ParentKey};
use board_program::lexical_address::LexicalAddress;
use paths::Step;
use slab::Slab;
use smallvec::SmallVec;
use std::alloc::{AllocError, Global};

/// The value of a name in an instance: nothing, a datum of the store, or a literal argument of a call.
#[derive(Clone, Copy, PartialEq, Eq, Debug, Drop)]
pub enum Slot {
    Absent,
    Datum(usize),
    /// A literal argument of a call: the call's entry, and the index among its arguments.
    Literal(u32, usize),
}

/// Number of slots that are stored inside an instance, without a separate allocation.
pub(crate) const INLINE_SLOTS: usize = 6;

/// The slots of an instance: first the variables of its block, then the parameters of its function.
pub type Slots = SmallVec<PackedSlot, INLINE_SLOTS>;

/// An instance of a block.
#[derive(Drop)]
pub struct Instance {
    /// The key of the enclosing instance.
    pub parent: ParentKey,
    /// Number of enclosing instances.
    pub level: u32,
    /// Number of steps in its path.
    pub depth: u32,
    pub body: u32,
    /// The last step of its path; the content of a `wait` adds none.
    pub way: LastStep,
    /// Number of live children: items that have not ended, and instances directly inside.
    pub live: usize,
    pub slots: Slots,
}

/// Returns the instance `levels` levels further out, or `None` if there is none.
#[tactic(auto, using(crate::proofs::Frames::up_none, crate::proofs::Frames::up_here, crate::proofs::Frames::up_outer, crate::proofs::Frames::up_next))]
fn ancestor(instances: &Slab<Instance>, at: usize, levels: usize) -> Option<&Instance>
    ensures { option_map frame_view (option_copied result) ≡ frame_up (frames_view instances.now.slots) levels at }
{
    let mut key = at;
    for step in 0..levels {
        match instances.get(key) {
            None => return None,
            Some(instance) => match instance.parent.key() {
                None => return None,
                Some(outer) => key = outer,
            },
        }
    }
    instances.get(key)
}

/// Returns a slot of an instance; an index past the end is `Absent`.
#[tactic(auto, using(crate::proofs::Frames::nth_there, crate::proofs::Frames::nth_past))]
fn slot_in(instance: &Instance, slot: usize) -> Slot
    ensures { slot_view result ≡ slot_in (Some (frame_view instance.now)) slot }
{
    let slots = instance.slots.as_slice();
    if slot < slots.len() {
        slots[slot].slot()
    } else {
        Slot::Absent
    }
}

/// Returns the slot at this lexical address, as seen from the instance with key `at`.
pub fn slot_at(instances: &Slab<Instance>, at: usize, spot: LexicalAddress) -> Slot
    ensures { slot_view result ≡ spot_slot (frames_view instances.now.slots) at spot }
{
    match ancestor(instances, at, spot.levels) {
        Some(instance) => slot_in(instance, spot.slot),
        None => Slot::Absent,
    }
}

/// Returns the datum at this lexical address, or `None` if its slot holds none.
pub fn datum_at(
    instances: &Slab<Instance>,
    at: usize,
    spot: Option<LexicalAddress>,
) -> Option<usize>
    ensures { result ≡ datum_of (led_slot (frames_view instances.now.slots) at spot) }
{
    match slot_at(instances, at, spot?) {
        Slot::Datum(d) => Some(d),
        Slot::Absent | Slot::Literal(_, _) => None,
    }
}

/// Returns the number of instances that enclose this one, or 0 if there is no instance with this key.
#[tactic(auto, using(crate::proofs::Frames::frame_there))]
fn level_of(instances: &Slab<Instance>, at: usize) -> u32
    ensures { result ≡ level_of (slot_of (frames_view instances.now.slots) at) }
{
    match instances.get(at) {
        Some(instance) => instance.level,
        None => 0,
    }
}

/// Appends the last step of an instance's path, if the instance adds one. Returns the key of the enclosing instance.
fn push_step(
    steps: &mut Vec<Step>,
    instances: &Slab<Instance>,
    at: usize,
) -> Result<Option<usize>, AllocError>
    ensures { IfOk result (λ outer. (n : ℕ) → map step_view steps.new.items ++ path_from (frames_view instances.now.slots) n outer
        ≡ map step_view steps.old.items ++ path_from (frames_view instances.now.slots) (suc n) (Some at)) }
{
    let Some(instance) = instances.get(at) else {
        return Ok(None);
    };
    let way = instance.way.step()?;
    if let Some(step) = way {
        steps.push(step)?;
    }
    Ok(instance.parent.key())
}

/// Returns the steps of an instance's path, innermost first.
fn steps_back(alloc: Global, instances: &Slab<Instance>, at: usize) -> Result<Vec<Step>, AllocError>
    ensures { IfOk result (λ steps. map step_view steps.items ≡ path_of (frames_view instances.now.slots) at) }
{
    let mut steps = Vec::new(alloc);
    let mut next = push_step(&mut steps, instances, at)?;
    for step in 0..level_of(instances, at) {
        let Some(key) = next else {
            return Ok(steps);
        };
        next = push_step(&mut steps, instances, key)?;
    }
    Ok(steps)
}

/// Returns the path of an instance, outermost step first.
///
/// # Errors
///
/// Returns `AllocError` if an allocation fails.
pub fn path_of(
    alloc: Global,
    instances: &Slab<Instance>,
    at: usize,
) -> Result<Vec<Step>, AllocError>
    ensures { IfOk result (λ steps. map step_view steps.items ≡ reverse (path_of (frames_view instances.now.slots) at)) }
{
    let mut steps = steps_back(alloc, instances, at)?;
    steps.reverse();
    Ok(steps)
}

/// The live count of an instance whose last child is about to leave.
const LAST: usize = 1;

/// Removes one child from the live count of an instance. If it was the last child, the instance is removed, and the key
/// of the enclosing instance is returned.
fn drop_instance(instances: &mut Slab<Instance>, at: usize) -> Option<usize>
    ensures goes { IfSome result (λ outer. (f : Frame) × (slot_of (frames_view instances.old.slots) at ≡ Some f) × (f.parent ≡ Some outer)
        × Sets (frames_view instances.old.slots) at None (frames_view instances.new.slots)) }
    ensures fewer { OnSome result (slab_len instances.new + 1 ≡ slab_len instances.old) }
    ensures len { slab_len instances.new ≤ slab_len instances.old }
    ensures leaves { (f : Frame) → slot_of (frames_view instances.old.slots) at ≡ Some f → 0 < f.live →
        (gs : List (Option Frame)) → TakenOff gs (frames_view instances.new.slots) result → TakenOff gs (frames_view instances.old.slots) (Some at) }
{
    let instance = instances.get_mut(at)?;
    if instance.live > LAST {
        instance.live -= 1;
        return None;
    }
    let gone = instances.try_remove(at)?;
    gone.parent.key()
}

/// Removes one child from the live count of an instance. An instance without children is removed, which repeats
/// outwards.
pub fn leave(instances: &mut Slab<Instance>, at: usize)
    ensures { IsNested (frames_view instances.old.slots) → IsSome (slot_of (frames_view instances.old.slots) at)
        → TakenOff (frames_view instances.new.slots) (frames_view instances.old.slots) (Some at) }
{
    let mut next = Some(at);
    while let Some(key) = next {
        next = drop_instance(instances, key);
    }
}

/// Adds `count` to the live count of an instance. Does nothing if there is no instance with this key.
#[tactic(auto, using(crate::proofs::Slots::view_there))]
pub fn add_child(instances: &mut Slab<Instance>, at: usize, count: usize)
    ensures there { (f : Frame) → slot_of (frames_view instances.old.slots) at ≡ Some f → f.live + count < 2 ^ 64
        → Sets (frames_view instances.old.slots) at (Some (with_live (f.live + count) f)) (frames_view instances.new.slots) }
    ensures absent { slot_of (frames_view instances.old.slots) at ≡ None → instances.new ≡ instances.old }
    ensures len { slab_len instances.new ≡ slab_len instances.old }
    ensures capacity { instances.new.capacity ≡ instances.old.capacity }
{
    if let Some(instance) = instances.get_mut(at) {
        instance.live = instance.live.saturating_add(count);
    }
}
