//! The priority queue of one kind: a sorted run with an overflow tree, and preallocated tree nodes.
ghost use Rattle.std.specs.Prelude.{◌≡◌, ◌+◌, ◌-◌, ◌<◌, ◌≤◌, ◌++◌, ◌↔◌, map, length, Contains, IsPermutation, OnOk, OnErr, IfSome, IsSomeAnd, IfOk, IsOk, IsTrue, false};
ghost use Rattle.std.specs.Bool.{OnTrue, OnFalse};
ghost use Rattle.work_queue.specs.Entries.{IsForemost, first_of, listed};
ghost use Rattle.work_queue.specs.Order.{precedes};
ghost use Rattle.work_queue.specs.Waiting.{none, with_put, with_room, without_first, without};

use crate::entry::{Kind, QueueEntry};
use crate::sorted_run::SortedRun;
use crate::tree::{Node, Tree};
use std::alloc::{AllocError, Global};
use std::marker::Model;

// The content of a spare node, which has no meaning.
const NOTHING: QueueEntry = QueueEntry { priority: 0, no: 0 };

// Maximum length of a run that is cleared for an entry that does not fit in it.
const SHORT: usize = 2;

/// The queued entries of one kind, in the run if they fit there and otherwise in the tree, with spare nodes.
///
/// Each entry of the run has a spare node, so it could be moved to the tree. Each spare node beyond those is room for
/// one more entry without allocation.
#[derive(Drop)]
pub struct KindQueue {
    run: SortedRun,
    tree: Tree,
    // Number of entries in the tree.
    len: usize,
    // Spare nodes. The capacity suffices for all nodes, so a node can be returned without allocation.
    spare: Vec<Box<Node>>,
}

impl Model for KindQueue {
    ghost use Rattle.std.specs.Prelude.{vec_len, length, ◌-◌};
    ghost use Rattle.std.specs.Vec.{vec_capacity};
    ghost use Rattle.work_queue.specs.Waiting.{Waiting};
    ghost use Rattle.work_queue.specs.Merged.{merged, IsShared};

    ghost Value = { Waiting };

    ghost view = { λ a. record { entries = merged a.tree a.run; room = vec_len a.spare - length a.run } };

    ghost invariant = { λ a. IsShared a.tree a.run a.len (vec_len a.spare) (vec_capacity a.spare) };
}

impl KindQueue {
    pub fn new(alloc: Global) -> KindQueue
        ensures { result ≡ none }
    {
        KindQueue {
            run: SortedRun::new(alloc),
            tree: Tree::new(),
            len: 0,
            spare: Vec::new(alloc),
        }
    }

    // Returns the number of further entries that need no allocation.
    fn room(&self) -> usize
        ensures { result ≡ self.now.room }
    {
        self.spare.len() - self.run.len()
    }

    /// Allocates one more spare node.
    fn stock_node(&mut self) -> Result<(), AllocError>
        ensures ok { OnOk result (self.new ≡ record self.old { room = self.old.room + 1 }) }
        ensures err { OnErr result (self.new ≡ self.old) }
    {
        self.spare.reserve(self.len + 1)?;
        self.run.reserve(self.len + self.spare.len() + 1)?;
        let node = Box::new(*self.spare.allocator(), Node::single(NOTHING))?;
        self.spare.push_reserved(node);
        Ok(())
    }

    // Frees spare nodes until there is room for this number of entries.
    fn give_back(&mut self, room: usize)
        requires { room ≤ self.old.room }
        ensures { self.new ≡ record self.old { room = room } }
    {
        self.spare.truncate(self.run.len() + room);
    }

    /// Makes room for `n` further entries.
    #[inline(always)]
    pub fn reserve(&mut self, n: usize) -> Result<(), AllocError>
        ensures ok { OnOk result (self.new ≡ with_room n self.old) }
        ensures succeeds { n ≤ self.old.room → IsOk result }
        ensures err { OnErr result (self.new ≡ self.old) }
    {
        let before = self.room();
        for _laid in before..n {
            if let Err(refused) = self.stock_node() {
                self.give_back(before);
                return Err(refused);
            }
        }
        Ok(())
    }

    // Adds an entry to the tree, in a spare node.
    fn put_in_tree(&mut self, entry: QueueEntry)
        requires { 0 < self.old.room }
        ensures { self.new ≡ with_put entry self.old }
    {
        let node = self.spare.take_last();
        self.tree.put(entry, node);
        self.len += 1;
    }

    // Moves all entries of the run to the tree.
    fn clear_run(&mut self)
        ensures { self.new ≡ self.old }
    {
        for _cleared in 0..self.run.len() {
            if let Some(entry) = self.run.take() {
                self.put_in_tree(entry);
            }
        }
    }

    // Adds an entry that does not fit in the run: to the tree or, if the run is short, to a new run. So one entry that
    // is queued for long does not keep others out of the run.
    fn put_aside(&mut self, entry: QueueEntry)
        requires { 0 < self.old.room }
        ensures { self.new ≡ with_put entry self.old }
    {
        if self.run.len() <= SHORT {
            self.clear_run();
            if self.run.put(&entry) {
                return;
            }
        }
        self.put_in_tree(entry);
    }

    #[inline(always)]
    pub fn put(&mut self, entry: QueueEntry) -> Result<(), AllocError>
        ensures ok { OnOk result (self.new ≡ with_put entry self.old) }
        ensures succeeds { 0 < self.old.room → IsOk result }
        ensures err { OnErr result (self.new ≡ self.old) }
    {
        if self.room() == 0 {
            self.reserve(1)?;
        }
        if !self.run.put(&entry) {
            self.put_aside(entry);
        }
        Ok(())
    }

    pub fn first(&self) -> Option<QueueEntry>
        ensures first { result ≡ first_of self.now.entries }
        ensures foremost { IfSome result (λ e. IsForemost e self.now.entries) }
    {
        if self.len == 0 {
            return self.run.first();
        }
        let (of_tree, of_run) = (self.tree.first(), self.run.first());
        if leads(&of_tree, &of_run) {
            of_tree
        } else {
            of_run
        }
    }

    /// Appends all entries to the list.
    pub fn append_to(&self, kind: Kind, list: &mut Vec<(Kind, i32, u64)>) -> Result<(), AllocError>
        ensures { OnOk result (IsPermutation (list.old.items ++ map (listed kind) self.now.entries) list.new.items) }
    {
        self.tree.append_to(kind, list)?;
        self.run.append_to(kind, list)
    }

    /// Returns a list of all entries.
    pub fn list(&self, kind: Kind) -> Result<Vec<(Kind, i32, u64)>, AllocError>
        ensures { IfOk result (λ list. IsPermutation (map (listed kind) self.now.entries) list.items) }
    {
        let mut list = Vec::new(*self.spare.allocator());
        self.append_to(kind, &mut list)?;
        Ok(list)
    }

    pub fn take(&mut self) -> Option<QueueEntry>
        ensures first { result ≡ first_of self.old.entries }
        ensures foremost { IfSome result (λ e. IsForemost e self.old.entries) }
        ensures rest { self.new ≡ without_first self.old }
    {
        let (of_tree, of_run) = (first_in(&self.tree, self.len), self.run.first());
        if !leads(&of_tree, &of_run) {
            return self.run.take();
        }
        let node = self.tree.take_first()?;
        let entry = node.entry;
        self.len -= 1;
        self.spare.push_reserved(node);
        Some(entry)
    }

    #[inline(always)]
    pub fn remove(&mut self, entry: QueueEntry) -> bool
        ensures found { IsTrue result ↔ Contains self.old.entries entry }
        ensures removed { OnTrue result (self.new ≡ without entry self.old) }
        ensures absent { OnFalse result (self.new ≡ self.old) }
    {
        if self.run.remove(&entry) {
            return true;
        }
        match self.tree.remove(entry) {
            None => false,
            Some(node) => {
                self.len -= 1;
                self.spare.push_reserved(node);
                true
            }
        }
    }
}

// Returns the first entry of a tree with this number of entries, which is mostly empty.
fn first_in(tree: &Tree, len: usize) -> Option<QueueEntry>
    requires { len ≡ length tree.now }
    ensures { result ≡ first_of tree.now }
{
    if len == 0 {
        return None;
    }
    tree.first()
}

// Returns true if there is an entry and it is taken before the other, or there is no other.
fn leads(entry: &Option<QueueEntry>, other: &Option<QueueEntry>) -> bool
    ensures ahead { OnTrue result (IsSomeAnd entry.now (λ x. IfSome other.now (λ y. precedes y x ≡ false))) }
    ensures behind { OnFalse result (IfSome entry.now (λ x. IsSomeAnd other.now (λ y. precedes x y ≡ false))) }
{
    match (entry, other) {
        (None, _) => false,
        (Some(_), None) => true,
        (Some(entry), Some(other)) => entry.precedes(other),
    }
}
