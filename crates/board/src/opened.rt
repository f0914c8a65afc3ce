//! Slot counts of the instances that an item opens.

ghost use Rattle.std.specs.Prelude.{◌≡◌, ◌<◌, ◌^◌, length, slice_get, Some};
ghost use Rattle.board_instances.specs.declared.pending.PendingInstance.{PendingInstance as OneOpening};

use board_instances::pending::PendingInstances;

/// Returns the number of slots of the first instance, or 0 if there is none. All instances of one list have the same
/// body.
pub fn slot_count(openings: &PendingInstances) -> usize
    ensures first { (one : OneOpening) → slice_get openings.now.list.items 0 ≡ Some one → result ≡ length one.instance.slots.items }
    ensures few { result < 2 ^ 64 }
{
    match openings.list.as_slice().get(0) {
        Some(one) => one.instance.slots.len(),
        None => 0,
    }
}
