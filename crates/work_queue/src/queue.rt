//! The queue of ready items, one priority queue for each kind.
ghost use Rattle.std.specs.Prelude.{◌≡◌, ◌<◌, ◌≤◌, ◌↔◌, ◌++◌, map, OnOk, OnErr, IfOk, IfSome, IsOk, IsTrue, Contains, IsPermutation};
ghost use Rattle.std.specs.Bool.{OnTrue, OnFalse};
ghost use Rattle.work_queue.specs.Entries.{IsForemost, IsTakenFirst, IsListedInOrder, first_number, first_of, listed};
ghost use Rattle.work_queue.specs.Waiting.{with_put, with_room, without_first, without};
ghost use Rattle.work_queue.specs.Both.{of, with_changed, empty};

use crate::entry::{Kind, QueueEntry};
use crate::kind_queue::KindQueue;
use std::alloc::{AllocError, Global};
use std::marker::Model;

/// The ready items of each kind, by priority and number. The priority is that of the `@prio` annotation of a call: the
/// greater is taken first.
///
/// Contracts see, for each kind, the entries in the order in which they are taken, and the `room`. It is the number of
/// further calls of `put` that do not allocate. `take` and `remove` each give back room for one. Only `put`, `reserve`
/// and `list` allocate, and a call that fails changes nothing.
#[derive(Drop)]
pub struct Queue {
    control: KindQueue,
    leaf: KindQueue,
}

impl Model for Queue {
    ghost use Rattle.work_queue.specs.Both.{Both};

    ghost Value = { Both };

    ghost view = { λ a. record { control = a.control; leaf = a.leaf } };
}

impl Queue {
    /// Creates an empty queue. Does not allocate.
    pub fn new(alloc: Global) -> Queue
        ensures { result ≡ empty }
    {
        Queue {
            control: KindQueue::new(alloc),
            leaf: KindQueue::new(alloc),
        }
    }

    /// Adds an item. An item that is already queued is then queued twice.
    ///
    /// # Errors
    ///
    /// Returns `AllocError` if there was no room and an allocation fails.
    #[inline(always)]
    pub fn put(&mut self, kind: Kind, priority: i32, no: u64) -> Result<(), AllocError>
        ensures ok { OnOk result (self.new ≡ with_changed kind (with_put (record { priority = priority; no = no })) self.old) }
        ensures succeeds { 0 < (of kind self.old).room → IsOk result }
        ensures err { OnErr result (self.new ≡ self.old) }
    {
        let entry = QueueEntry { priority, no };
        match kind {
            Kind::Control => self.control.put(entry),
            Kind::Leaf => self.leaf.put(entry),
        }
    }

    /// Returns the entry that `take` would remove. Does not allocate.
    pub fn first_entry(&self, kind: Kind) -> Option<QueueEntry>
        ensures first { result ≡ first_of (of kind self.now).entries }
        ensures foremost { IfSome result (λ e. IsForemost e (of kind self.now).entries) }
    {
        match kind {
            Kind::Control => self.control.first(),
            Kind::Leaf => self.leaf.first(),
        }
    }

    /// Returns the number that `take` would return. Does not allocate.
    pub fn first(&self, kind: Kind) -> Option<u64>
        ensures first { result ≡ first_number (of kind self.now).entries }
        ensures foremost { IfSome result (λ no. IsTakenFirst no (of kind self.now).entries) }
    {
        Some(self.first_entry(kind)?.no)
    }

    /// Removes the item with the greatest priority, and among those the smallest number, and returns its number. Does
    /// not allocate.
    pub fn take(&mut self, kind: Kind) -> Option<u64>
        ensures first { result ≡ first_number (of kind self.old).entries }
        ensures foremost { IfSome result (λ no. IsTakenFirst no (of kind self.old).entries) }
        ensures rest { self.new ≡ with_changed kind without_first self.old }
    {
        let entry = match kind {
            Kind::Control => self.control.take(),
            Kind::Leaf => self.leaf.take(),
        };
        Some(entry?.no)
    }

    /// Removes an item, and returns true, if it is queued. Does not allocate.
    pub fn remove(&mut self, kind: Kind, priority: i32, no: u64) -> bool
        ensures found { IsTrue result ↔ Contains (of kind self.old).entries (record { priority = priority; no = no }) }
        ensures removed { OnTrue result (self.new ≡ with_changed kind (without (record { priority = priority; no = no })) self.old) }
        ensures absent { OnFalse result (self.new ≡ self.old) }
    {
        let entry = QueueEntry { priority, no };
        match kind {
            Kind::Control => self.control.remove(entry),
            Kind::Leaf => self.leaf.remove(entry),
        }
    }

    /// Makes room for `n` items, so that the next `n` calls of `put` for this kind succeed.
    ///
    /// # Errors
    ///
    /// Returns `AllocError` if there was less room and an allocation fails.
    pub fn reserve(&mut self, kind: Kind, n: usize) -> Result<(), AllocError>
        ensures ok { OnOk result (self.new ≡ with_changed kind (with_room n) self.old) }
        ensures succeeds { n ≤ (of kind self.old).room → IsOk result }
        ensures err { OnErr result (self.new ≡ self.old) }
    {
        match kind {
            Kind::Control => self.control.reserve(n),
            Kind::Leaf => self.leaf.reserve(n),
        }
    }

    /// Returns all items of both kinds, by greatest priority and then by smallest number.
    ///
    /// # Errors
    ///
    /// Returns `AllocError` if an allocation fails.
    pub fn list(&self) -> Result<Vec<(Kind, i32, u64)>, AllocError>
        ensures all { IfOk result (λ v. IsPermutation
            (map (listed Kind.Control) self.now.control.entries ++ map (listed Kind.Leaf) self.now.leaf.entries) v.items) }
        ensures in_order { IfOk result (λ v. IsListedInOrder v.items) }
    {
        let mut list = self.control.list(Kind::Control)?;
        self.leaf.append_to(Kind::Leaf, &mut list)?;
        list.sort_by_key(|&(_, priority, no)| QueueEntry { priority, no })?;
        Ok(list)
    }
}
