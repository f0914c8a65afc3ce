//! Updates of waiting items, slot by slot: inputs that become known, and items that are removed.
ghost use Rattle.std.specs.Prelude.{◌≡◌, ◌⊎◌, ℕ, ◌+◌, ◌≤◌, ◌++◌, Contains, slice_set, vec_len, vec_capacity};
ghost use Rattle.slab.specs.Slab.{get, slab_len};
ghost use Rattle.rules.specs.Slots.{after_slot, unless_item, told, present, IsSettled, Shrinks, Learnt};
ghost use Rattle.rules.specs.Waiting.{without_item};
ghost use Rattle.rules.specs.Places.{address, IsAt, IsNoted};

use crate::input::Input;
use crate::subscribers::Subscribers;
use crate::waiter::Waiter;
use slab::Slab;

/// Removes the inputs that `input` covers from the item of a slot, if there is one. An item with no missing input left
/// is removed, and its number is appended to `out`.
#[inline(always)]
pub fn visit(waiters: &mut Slab<Waiter>, slot: usize, input: &Input, out: &mut Vec<u64>)
    requires { slab_len waiters.old + vec_len out.old ≤ vec_capacity out.old }
    ensures slots { waiters.new.slots ≡ slice_set waiters.old.slots slot (after_slot input.now (get waiters.old slot)) }
    ensures told { out.new.items ≡ out.old.items ++ told input.now (get waiters.old slot) }
    ensures balance { slab_len waiters.new + vec_len out.new ≡ slab_len waiters.old + vec_len out.old }
    ensures capacity { waiters.new.capacity ≡ waiters.old.capacity }
    ensures out_capacity { vec_capacity out.new ≡ vec_capacity out.old }
{
    let Some(waiter) = waiters.get_mut(slot) else {
        return;
    };
    waiter.learn(input);
    if waiter.is_ready() {
        if let Some(ready) = waiters.try_remove(slot) {
            out.push_reserved(ready.item());
        }
    }
}

/// Visits each of these slots.
pub fn visit_listed(waiters: &mut Slab<Waiter>, slots: &[usize], input: &Input, out: &mut Vec<u64>)
    requires { slab_len waiters.old + vec_len out.old ≤ vec_capacity out.old }
    ensures learnt { Learnt input.now waiters.old.slots waiters.new.slots out.old.items out.new.items }
    ensures settled { (k : ℕ) → Contains slots.now k ⊎ IsSettled (after_slot input.now) waiters.old.slots k
        → IsSettled (after_slot input.now) waiters.new.slots k }
    ensures shrinks { Shrinks (after_slot input.now) waiters.old.slots waiters.new.slots }
    ensures balance { slab_len waiters.new + vec_len out.new ≡ slab_len waiters.old + vec_len out.old }
    ensures capacity { waiters.new.capacity ≡ waiters.old.capacity }
    ensures out_capacity { vec_capacity out.new ≡ vec_capacity out.old }
{
    for slot in slots {
        visit(waiters, *slot, input, out);
    }
}

/// Visits each slot noted at the address of the input, and unlinks the notes on the way that are no longer needed.
/// Returns the number of notes of other addresses that were passed.
pub fn visit_noted(
    waiters: &mut Slab<Waiter>,
    places: &mut Subscribers,
    input: &Input,
    out: &mut Vec<u64>,
) -> usize
    requires room { slab_len waiters.old + vec_len out.old ≤ vec_capacity out.old }
    requires noted { IsNoted places.old waiters.old.slots }
    ensures learnt { Learnt input.now waiters.old.slots waiters.new.slots out.old.items out.new.items }
    ensures settled { (k : ℕ) → IsAt places.old.notes (address input.now) k ⊎ IsSettled (after_slot input.now) waiters.old.slots k
        → IsSettled (after_slot input.now) waiters.new.slots k }
    ensures shrinks { Shrinks (after_slot input.now) waiters.old.slots waiters.new.slots }
    ensures balance { slab_len waiters.new + vec_len out.new ≡ slab_len waiters.old + vec_len out.old }
    ensures capacity { waiters.new.capacity ≡ waiters.old.capacity }
    ensures out_capacity { vec_capacity out.new ≡ vec_capacity out.old }
    ensures noted { IsNoted places.new waiters.new.slots }
    ensures strays { places.new.strays ≡ places.old.strays }
    ensures place { places.new.place ≡ places.old.place }
{
    let address = input.address();
    let mut passed = 0_usize;
    let mut holder = 0;
    let mut next = places.last(address);
    while next > 0 {
        let number = next - 1;
        let note = places.note(number);
        next = note.earlier as usize;
        if note.address != address {
            passed = passed.saturating_add(1);
            holder = places.tidy(waiters, holder, number);
            continue;
        }
        visit(waiters, note.slot as usize, input, out);
        holder = places.tidy(waiters, holder, number);
    }
    passed
}

/// Removes the item of a slot, if it has this number.
pub fn leave(waiters: &mut Slab<Waiter>, slot: usize, item: u64)
    ensures slots { waiters.new.slots ≡ slice_set waiters.old.slots slot (unless_item item (get waiters.old slot)) }
    ensures fewer { slab_len waiters.new ≤ slab_len waiters.old }
    ensures capacity { waiters.new.capacity ≡ waiters.old.capacity }
{
    let Some(waiter) = waiters.get(slot) else {
        return;
    };
    if waiter.item() == item {
        let _left = waiters.try_remove(slot);
    }
}

/// Removes the item with this number from each slot that holds it.
pub fn leave_all(waiters: &mut Slab<Waiter>, item: u64)
    ensures others { without_item item (present waiters.new.slots) ≡ without_item item (present waiters.old.slots) }
    ensures settled { (k : ℕ) → IsSettled (unless_item item) waiters.new.slots k }
    ensures shrinks { Shrinks (unless_item item) waiters.old.slots waiters.new.slots }
    ensures fewer { slab_len waiters.new ≤ slab_len waiters.old }
    ensures capacity { waiters.new.capacity ≡ waiters.old.capacity }
{
    for slot in 0..waiters.capacity() {
        leave(waiters, slot, item);
    }
}
