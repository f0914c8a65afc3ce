//! Placement of new instances and their items.
//!
//! Each instance is inserted into the slab under a fresh key, and one waiting item is appended for each entry of its
//! body.
ghost use Rattle.std.specs.Prelude.{◌≡◌, ◌≤◌, ◌<◌, ◌+◌, ◌*◌, ◌++◌, ◌^◌, ◌∷◌, [], List, None, Some, Option, length, map, IfOk, IsOk, OnOk, vec_len, vec_capacity};
ghost use Rattle.slab.specs.Slab.{HasRoomFor, slab_len};
ghost use Rattle.board_history.specs.Ending.{Sets, new_row};
ghost use Rattle.board_history.specs.Fields.{Does, Frame, slot_at as slot_of};
ghost use Rattle.board_instances.specs.Openings.{ArePlaced, WithMore};
ghost use Rattle.board_instances.specs.View.{frame_view, frames_view, new_item, opening_frame, rows_view};

use crate::instance::{Instance, add_child};
use crate::item::PackedItem;
use crate::pending::PendingInstance;
use slab::Slab;
use std::alloc::AllocError;

/// Appends a waiting item for each entry.
fn push_items(
    items: &mut Vec<PackedItem>,
    instance: usize,
    entries: &[u32],
) -> Result<(), AllocError>
    ensures items { OnOk result (items.new.items ≡ items.old.items ++ map (new_item instance) entries.now) }
    ensures len { OnOk result (vec_len items.new ≡ vec_len items.old + length entries.now) }
    ensures capacity { vec_capacity items.old ≤ vec_capacity items.new }
    ensures succeeds { instance < 2 ^ 32 → vec_len items.old + length entries.now ≤ vec_capacity items.old → IsOk result }
{
    for entry in entries {
        items.push(PackedItem::waiting(*entry, instance, 0)?)?;
    }
    Ok(())
}

/// Inserts an instance into the slab and appends its items. Returns the key of the instance.
fn place(
    instances: &mut Slab<Instance>,
    items: &mut Vec<PackedItem>,
    entries: &[u32],
    instance: Instance,
) -> Result<usize, AllocError>
    ensures fresh { IfOk result (λ key. slot_of (frames_view instances.old.slots) key ≡ None) }
    ensures sets { IfOk result (λ key. Sets (frames_view instances.old.slots) key (Some (frame_view instance)) (frames_view instances.new.slots)) }
    ensures items { IfOk result (λ key. items.new.items ≡ items.old.items ++ map (new_item key) entries.now) }
    ensures len { OnOk result (slab_len instances.new ≡ slab_len instances.old + 1) }
    ensures lens { OnOk result (vec_len items.new ≡ vec_len items.old + length entries.now) }
    ensures capacity { (instances.old.capacity ≤ instances.new.capacity) × (vec_capacity items.old ≤ vec_capacity items.new) }
    ensures room_kept { HasRoomFor instances.old 1 → instances.new.capacity ≡ instances.old.capacity }
    ensures succeeds { HasRoomFor instances.old 1 → instances.old.capacity ≤ 2 ^ 32
        → vec_len items.old + length entries.now ≤ vec_capacity items.old → IsOk result }
{
    let key = instances.insert(instance)?;
    push_items(items, key, entries)?;
    Ok(key)
}

/// Inserts a pending instance, whose data are made, and appends its items. Returns the key of the instance.
fn place_opening(
    instances: &mut Slab<Instance>,
    items: &mut Vec<PackedItem>,
    entries: &[u32],
    opening: PendingInstance,
) -> Result<usize, AllocError>
    ensures fresh { IfOk result (λ key. slot_of (frames_view instances.old.slots) key ≡ None) }
    ensures sets { IfOk result (λ key. Sets (frames_view instances.old.slots) key (Some (opening_frame opening)) (frames_view instances.new.slots)) }
    ensures items { IfOk result (λ key. items.new.items ≡ items.old.items ++ map (new_item key) entries.now) }
    ensures len { OnOk result (slab_len instances.new ≡ slab_len instances.old + 1) }
    ensures lens { OnOk result (vec_len items.new ≡ vec_len items.old + length entries.now) }
    ensures capacity { (instances.old.capacity ≤ instances.new.capacity) × (vec_capacity items.old ≤ vec_capacity items.new) }
    ensures room_kept { HasRoomFor instances.old 1 → instances.new.capacity ≡ instances.old.capacity }
    ensures succeeds { HasRoomFor instances.old 1 → instances.old.capacity ≤ 2 ^ 32
        → vec_len items.old + length entries.now ≤ vec_capacity items.old → IsOk result }
{
    place(instances, items, entries, opening.instance)
}

/// Inserts these instances and appends their items. Returns the key of the last instance.
fn place_each(
    instances: &mut Slab<Instance>,
    items: &mut Vec<PackedItem>,
    entries: &[u32],
    list: Vec<PendingInstance>,
) -> Result<Option<usize>, AllocError>
    ensures placed { IfOk result (λ last. ArePlaced (map opening_frame list.items) entries.now (frames_view instances.old.slots)
        (frames_view instances.new.slots) (rows_view items.old.items) (rows_view items.new.items) last) }
    ensures capacity { vec_capacity items.old ≤ vec_capacity items.new }
    ensures succeeds { HasRoomFor instances.old (vec_len list) → instances.old.capacity ≤ 2 ^ 32
        → vec_len items.old + vec_len list * length entries.now ≤ vec_capacity items.old → IsOk result }
{
    let mut last = None;
    for opening in list {
        last = Some(place_opening(instances, items, entries, opening)?);
    }
    Ok(last)
}

/// Inserts these instances inside the one with key `around`, and appends an item for each of the entries. Returns the
/// key of the last instance. Allocates no memory if instances and items were reserved.
///
/// # Errors
///
/// Returns `AllocError` if an allocation fails. Some of the instances may have been placed.
pub fn place_all(
    instances: &mut Slab<Instance>,
    items: &mut Vec<PackedItem>,
    around: Option<usize>,
    entries: &[u32],
    list: Vec<PendingInstance>,
) -> Result<Option<usize>, AllocError>
    ensures placed { IfOk result (λ last. (middle : List (Option Frame)) × WithMore (frames_view instances.old.slots) around (vec_len list) middle
        × ArePlaced (map opening_frame list.items) entries.now middle (frames_view instances.new.slots) (rows_view items.old.items)
        (rows_view items.new.items) last) }
    ensures capacity { vec_capacity items.old ≤ vec_capacity items.new }
    ensures succeeds { HasRoomFor instances.old (vec_len list) → instances.old.capacity ≤ 2 ^ 32
        → vec_len items.old + vec_len list * length entries.now ≤ vec_capacity items.old → IsOk result }
{
    if let Some(outer) = around {
        add_child(instances, outer, list.len());
    }
    place_each(instances, items, entries, list)
}

/// Appends an item that continues a loop from the next chunk on. Allocates no memory if one item was reserved.
///
/// # Errors
///
/// Returns `AllocError` if an allocation fails.
pub fn push_rest_of_loop(
    items: &mut Vec<PackedItem>,
    instance: usize,
    entry: u32,
    chunk: usize,
) -> Result<(), AllocError>
    ensures rows { chunk + 1 < 2 ^ 64 → OnOk result (rows_view items.new.items ≡ rows_view items.old.items ++ new_row (Does instance entry (chunk + 1)) ∷ []) }
    ensures succeeds { instance < 2 ^ 32 → chunk + 1 < 2 ^ 32 → vec_len items.old < vec_capacity items.old → IsOk result }
{
    let next = PackedItem::waiting(entry, instance, chunk.saturating_add(1))?;
    items.push(next)?;
    Ok(())
}
