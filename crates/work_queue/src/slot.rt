//! Slots of a sorted run: entries in strictly ascending order, each queued or removed.
ghost use Rattle.std.specs.Prelude.{◌≡◌, ◌++◌, false, true, map, MatchOption, OnOk};
ghost use Rattle.std.specs.Bool.{OnTrue, OnFalse};
ghost use Rattle.work_queue.specs.Entries.{inserted, erased, holds, listed};
ghost use Rattle.work_queue.specs.Slots.{entry_in, waiting, IsAhead, IsBehind, IsRising, IsRun, IsAt};

use crate::entry::{Kind, QueueEntry};
use std::alloc::AllocError;
use std::collections::VecDeque;

/// An entry, and whether it is queued.
#[derive(Clone, Copy)]
pub struct EntrySlot {
    pub no: u64,
    pub priority: i32,
    pub waits: bool,
}

impl EntrySlot {
    /// Creates a slot in which the entry is queued.
    pub fn of(entry: QueueEntry) -> EntrySlot
        ensures entry { entry_in result ≡ entry }
        ensures waits { result.waits ≡ true }
    {
        EntrySlot {
            no: entry.no,
            priority: entry.priority,
            waits: true,
        }
    }

    pub fn entry(&self) -> QueueEntry
        ensures { result ≡ entry_in self.now }
    {
        QueueEntry {
            priority: self.priority,
            no: self.no,
        }
    }
}

/// Returns true if the entry is taken after the entries of all slots.
pub fn comes_last(slots: &VecDeque<EntrySlot>, entry: &QueueEntry) -> bool
    requires { IsRising slots.now.items }
    ensures { OnTrue result (IsBehind entry.now slots.now.items) }
{
    match slots.back() {
        None => true,
        Some(slot) => slot.entry().precedes(entry),
    }
}

/// Returns true if the entry is taken before the entries of all slots.
pub fn comes_first(slots: &VecDeque<EntrySlot>, entry: &QueueEntry) -> bool
    requires { IsRising slots.now.items }
    ensures { OnTrue result (IsAhead entry.now slots.now.items) }
{
    match slots.front() {
        None => true,
        Some(slot) => entry.precedes(&slot.entry()),
    }
}

// Returns the index of the slot of an entry, by binary search.
fn search(slots: &VecDeque<EntrySlot>, entry: &QueueEntry) -> Option<usize>
    requires { IsRising slots.now.items }
    ensures { MatchOption result (holds entry.now (waiting slots.now.items) ≡ false) (λ k. IsAt entry.now slots.now.items k) }
{
    match slots.binary_search_by_key(entry, |slot| slot.entry()) {
        Ok(place) => Some(place),
        Err(_) => None,
    }
}

/// Returns the index of the slot of an entry. It first tries the index that is right if the numbers are consecutive,
/// then a binary search.
pub fn find(slots: &VecDeque<EntrySlot>, entry: &QueueEntry) -> Option<usize>
    requires { IsRising slots.now.items }
    ensures { MatchOption result (holds entry.now (waiting slots.now.items) ≡ false) (λ k. IsAt entry.now slots.now.items k) }
{
    let first = slots.front()?;
    let guess = entry.no.wrapping_sub(first.no) as usize;
    if guess < slots.len() && slots[guess].entry() == *entry {
        return Some(guess);
    }
    search(slots, entry)
}

/// Queues the entry again in its slot, and returns true, if it has a slot from which it was removed.
pub fn wake(slots: &mut VecDeque<EntrySlot>, entry: &QueueEntry) -> bool
    requires { IsRun slots.old.items }
    ensures run { IsRun slots.new.items }
    ensures woken { OnTrue result (waiting slots.new.items ≡ inserted entry.now (waiting slots.old.items)) }
    ensures left { OnFalse result (slots.new.items ≡ slots.old.items) }
{
    let Some(place) = find(slots, entry) else {
        return false;
    };
    let slot = slots[place];
    if slot.waits {
        return false;
    }
    slots[place].waits = true;
    true
}

/// Marks the slot of an entry as removed, and returns true, if the entry is queued.
pub fn rest(slots: &mut VecDeque<EntrySlot>, entry: &QueueEntry) -> bool
    requires { IsRising slots.old.items }
    ensures rising { IsRising slots.new.items }
    ensures found { result ≡ holds entry.now (waiting slots.old.items) }
    ensures rested { waiting slots.new.items ≡ erased entry.now (waiting slots.old.items) }
    ensures left { OnFalse result (slots.new.items ≡ slots.old.items) }
{
    let Some(place) = find(slots, entry) else {
        return false;
    };
    let slot = slots[place];
    if !slot.waits {
        return false;
    }
    slots[place].waits = false;
    true
}

/// Appends a slot at the end, and returns true, if there is capacity.
pub fn add_last(slots: &mut VecDeque<EntrySlot>, entry: QueueEntry) -> bool
    requires run { IsRun slots.old.items }
    requires behind { IsBehind entry slots.old.items }
    ensures run { IsRun slots.new.items }
    ensures added { OnTrue result (waiting slots.new.items ≡ inserted entry (waiting slots.old.items)) }
    ensures left { OnFalse result (slots.new.items ≡ slots.old.items) }
{
    if slots.len() == slots.capacity() {
        return false;
    }
    slots.push_back_reserved(EntrySlot::of(entry));
    true
}

/// Prepends a slot at the front, and returns true, if there is capacity.
pub fn add_first(slots: &mut VecDeque<EntrySlot>, entry: QueueEntry) -> bool
    requires run { IsRun slots.old.items }
    requires ahead { IsAhead entry slots.old.items }
    ensures run { IsRun slots.new.items }
    ensures added { OnTrue result (waiting slots.new.items ≡ inserted entry (waiting slots.old.items)) }
    ensures left { OnFalse result (slots.new.items ≡ slots.old.items) }
{
    if slots.len() == slots.capacity() {
        return false;
    }
    slots.push_front_reserved(EntrySlot::of(entry));
    true
}

/// Adds an entry at the end, at the front, or in its own slot from which it was removed. Returns false if none of these
/// is possible.
#[inline(always)]
pub fn put(slots: &mut VecDeque<EntrySlot>, entry: &QueueEntry) -> bool
    requires { IsRun slots.old.items }
    ensures run { IsRun slots.new.items }
    ensures added { OnTrue result (waiting slots.new.items ≡ inserted entry.now (waiting slots.old.items)) }
    ensures left { OnFalse result (slots.new.items ≡ slots.old.items) }
{
    if comes_last(slots, entry) {
        add_last(slots, *entry)
    } else if comes_first(slots, entry) {
        add_first(slots, *entry)
    } else {
        wake(slots, entry)
    }
}

/// Drops the slots at the front whose entries were removed.
pub fn trim(slots: &mut VecDeque<EntrySlot>)
    requires { IsRising slots.old.items }
    ensures run { IsRun slots.new.items }
    ensures same { waiting slots.new.items ≡ waiting slots.old.items }
{
    'front: while !slots.is_empty() && !slots[0].waits {
        slots.pop_front();
    }
}

/// Drops all slots of removed entries, if the capacity is used up and at most half of the slots are queued. `used`: the
/// number of queued entries.
pub fn tidy(slots: &mut VecDeque<EntrySlot>, used: usize)
    requires { IsRun slots.old.items }
    ensures run { IsRun slots.new.items }
    ensures same { waiting slots.new.items ≡ waiting slots.old.items }
{
    if slots.len() == slots.capacity() && used <= slots.len() / 2 {
        slots.retain(|slot| slot.waits);
    }
}

/// Appends the queued entries to the list, in order.
pub fn append_to(
    slots: &VecDeque<EntrySlot>,
    kind: Kind,
    list: &mut Vec<(Kind, i32, u64)>,
) -> Result<(), AllocError>
    ensures { OnOk result (list.new.items ≡ list.old.items ++ map (listed kind) (waiting slots.now.items)) }
{
    for slot in slots.iter() {
        if slot.waits {
            list.push((kind, slot.priority, slot.no))?;
        }
    }
    Ok(())
}
