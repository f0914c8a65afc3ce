//! Sorted runs: entries that mostly arrive at one end of the order, or return to a slot that they left.
ghost use Rattle.std.specs.Prelude.{◌≡◌, ◌∷◌, ◌++◌, [], length, map, MatchOption, OnOk};
ghost use Rattle.std.specs.Bool.{OnTrue, OnFalse};
ghost use Rattle.work_queue.specs.Entries.{first_of, inserted, erased, holds, listed};

use crate::entry::{Kind, QueueEntry};
use crate::slot::{self, EntrySlot, rest, tidy, trim};
use std::alloc::{AllocError, Global};
use std::collections::VecDeque;
use std::marker::Model;

/// A sorted run of queued entries, and slots of some that were removed, which they can enter again.
#[derive(Drop)]
pub struct SortedRun {
    slots: VecDeque<EntrySlot>,
    len: usize,
}

impl Model for SortedRun {
    ghost use Rattle.std.specs.Prelude.{◌≡◌, List, length};
    ghost use Rattle.work_queue.specs.declared.entry.QueueEntry.{QueueEntry};
    ghost use Rattle.work_queue.specs.Slots.{waiting, IsRun};

    ghost Value = { List QueueEntry };

    ghost view = { λ a. waiting a.slots.items };

    ghost invariant = { λ a. IsRun a.slots.items × (a.len ≡ length (waiting a.slots.items)) };
}

impl SortedRun {
    pub fn new(alloc: Global) -> SortedRun
        ensures { result ≡ [] }
    {
        SortedRun {
            slots: VecDeque::new(alloc),
            len: 0,
        }
    }

    pub fn len(&self) -> usize
        ensures { result ≡ length self.now }
    {
        self.len
    }

    /// Reserves capacity for `count` entries, and for as many slots of removed entries. If that is missing, it reserves
    /// twice that capacity. A `VecDeque` that does not start at the front of its block is moved whole each time it
    /// grows.
    pub fn reserve(&mut self, count: usize) -> Result<(), AllocError>
        ensures { self.new ≡ self.old }
    {
        let wanted = count.saturating_mul(2);
        if wanted <= self.slots.capacity() {
            return Ok(());
        }
        let twice = wanted.saturating_mul(2);
        self.slots.reserve(twice.saturating_sub(self.slots.len()))
    }

    /// Adds an entry, and returns true, if the run has a slot for it.
    #[inline(always)]
    pub fn put(&mut self, entry: &QueueEntry) -> bool
        ensures added { OnTrue result (self.new ≡ inserted entry.now self.old) }
        ensures left { OnFalse result (self.new ≡ self.old) }
    {
        tidy(&mut self.slots, self.len);
        let added = slot::put(&mut self.slots, entry);
        if added {
            let places = self.slots.len();
            prove!(self.len < places);
            self.len += 1;
        }
        added
    }

    /// Returns the entry that is taken first, or `None` if there is none.
    pub fn first(&self) -> Option<QueueEntry>
        ensures { result ≡ first_of self.now }
    {
        Some(self.slots.front()?.entry())
    }

    /// Removes and returns the first entry.
    pub fn take(&mut self) -> Option<QueueEntry>
        ensures { MatchOption result ((self.old ≡ []) × (self.new ≡ [])) (λ e. self.old ≡ e ∷ self.new) }
    {
        let slot = self.slots.pop_front()?;
        self.len -= 1;
        trim(&mut self.slots);
        Some(slot.entry())
    }

    /// Removes an entry, and returns true, if it is in the run.
    #[inline(always)]
    pub fn remove(&mut self, entry: &QueueEntry) -> bool
        ensures found { result ≡ holds entry.now self.old }
        ensures entries { self.new ≡ erased entry.now self.old }
    {
        if self.first() == Some(*entry) {
            return self.take().is_some();
        }
        if !rest(&mut self.slots, entry) {
            return false;
        }
        self.len -= 1;
        trim(&mut self.slots);
        true
    }

    /// Appends all entries to the list, in order.
    pub fn append_to(&self, kind: Kind, list: &mut Vec<(Kind, i32, u64)>) -> Result<(), AllocError>
        ensures { OnOk result (list.new.items ≡ list.old.items ++ map (listed kind) self.now) }
    {
        slot::append_to(&self.slots, kind, list)
    }
}
