//! A balanced binary search tree of entries, rebalanced by rotations as an AVL tree.
//!
//! Its view is the list of its entries in order.
ghost use Rattle.std.specs.Prelude.{◌≡◌, ◌+◌, ◌<◌, ◌≤◌, [], ◌∷◌, ◌++◌, MatchOption, is_some, map, OnOk};
ghost use Rattle.work_queue.specs.Entries.{IsInOrder, inserted, erased, holds, first_of, listed};
ghost use Rattle.work_queue.specs.Node.{of_node, of_top};

use crate::entry::{Kind, QueueEntry};
use std::alloc::AllocError;
use std::cmp::Ordering;
use std::marker::Model;
use std::mem;

#[cycle(tree)]
#[derive(Drop)]
pub struct Tree {
    top: Top,
}

#[cycle(tree)]
#[derive(Drop)]
pub enum Top {
    Leaf,
    Fork(Box<Node>),
}

#[cycle(tree)]
#[derive(Drop)]
pub struct Node {
    pub entry: QueueEntry,
    left: Tree,
    right: Tree,
    // The heights are stored here, so that a child is read only if it changes.
    left_height: u8,
    right_height: u8,
}

impl Model for Tree {
    ghost use Rattle.std.specs.Prelude.{ℕ, List, length};
    ghost use Rattle.work_queue.specs.declared.entry.QueueEntry.{QueueEntry};

    ghost Value = { List QueueEntry };

    ghost use Rattle.work_queue.specs.Node.{of_top};

    ghost view = { λ a. of_top a.top };

    ghost size = { length };

    ghost use Rattle.std.proofs.Common.{arith, length-append};

    ghost size_decreases = { λ a h. Prim.grind (arith, length-append) };
}

impl Tree {
    pub fn new() -> Tree
        ensures { result ≡ [] }
    {
        Tree { top: Top::Leaf }
    }

    fn of(node: Box<Node>) -> Tree
        ensures { result ≡ of_node node.value }
    {
        Tree {
            top: Top::Fork(node),
        }
    }

    /// Removes and returns the whole tree.
    fn take(&mut self) -> Top
        ensures top { of_top result ≡ self.old }
        ensures rest { self.new ≡ [] }
    {
        mem::replace(&mut self.top, Top::Leaf)
    }

    /// Returns the entry that is taken first, or `None` if the tree is empty.
    pub fn first(&self) -> Option<QueueEntry>
        ensures { result ≡ first_of self.now }
    {
        match &self.top {
            Top::Leaf => None,
            Top::Fork(node) => match node.left.first() {
                None => Some(node.entry),
                found => found,
            },
        }
    }

    /// Appends all entries to the list, in order.
    pub fn append_to(&self, kind: Kind, list: &mut Vec<(Kind, i32, u64)>) -> Result<(), AllocError>
        ensures { OnOk result (list.new.items ≡ list.old.items ++ map (listed kind) self.now) }
    {
        match &self.top {
            Top::Leaf => Ok(()),
            Top::Fork(node) => {
                node.left.append_to(kind, list)?;
                list.push((kind, node.entry.priority, node.entry.no))?;
                node.right.append_to(kind, list)
            }
        }
    }

    /// Inserts an entry in order, in the node `spare`.
    pub fn put(&mut self, entry: QueueEntry, mut spare: Box<Node>)
        requires { IsInOrder self.old }
        ensures { self.new ≡ inserted entry self.old }
    {
        match self.take() {
            Top::Leaf => {
                *spare = Node::single(entry);
                *self = Tree::of(spare);
            }
            Top::Fork(mut node) => {
                if entry.precedes(&node.entry) {
                    node.left.put(entry, spare);
                    node.left_height = node.left.height();
                } else {
                    node.right.put(entry, spare);
                    node.right_height = node.right.height();
                }
                *self = Tree::of(balanced(node));
            }
        }
    }

    /// Removes and returns the node of the first entry.
    pub fn take_first(&mut self) -> Option<Box<Node>>
        ensures { MatchOption result ((self.old ≡ []) × (self.new ≡ [])) (λ node. self.old ≡ node.value.entry ∷ self.new) }
    {
        match self.take() {
            Top::Leaf => None,
            Top::Fork(mut node) => match node.left.take_first() {
                None => {
                    *self = mem::replace(&mut node.right, Tree::new());
                    Some(node)
                }
                Some(first) => {
                    node.left_height = node.left.height();
                    *self = Tree::of(balanced(node));
                    Some(first)
                }
            },
        }
    }

    /// Removes and returns the node of an entry, or `None` if the entry is not in the tree.
    pub fn remove(&mut self, entry: QueueEntry) -> Option<Box<Node>>
        requires { IsInOrder self.old }
        ensures found { is_some result ≡ holds entry self.old }
        ensures entries { self.new ≡ erased entry self.old }
    {
        match self.take() {
            Top::Leaf => None,
            Top::Fork(mut node) => match entry.cmp(&node.entry) {
                Ordering::Less => {
                    let found = node.left.remove(entry);
                    node.left_height = node.left.height();
                    *self = Tree::of(balanced(node));
                    found
                }
                Ordering::Greater => {
                    let found = node.right.remove(entry);
                    node.right_height = node.right.height();
                    *self = Tree::of(balanced(node));
                    found
                }
                Ordering::Equal => {
                    let left = mem::replace(&mut node.left, Tree::new());
                    let right = mem::replace(&mut node.right, Tree::new());
                    *self = joined(left, right);
                    Some(node)
                }
            },
        }
    }

    fn height(&self) -> u8 {
        match &self.top {
            Top::Leaf => 0,
            Top::Fork(node) => node.height(),
        }
    }
}

impl Node {
    /// Creates a node without children.
    pub fn single(entry: QueueEntry) -> Node
        ensures { of_node result ≡ entry ∷ [] }
    {
        Node {
            entry,
            left: Tree::new(),
            right: Tree::new(),
            left_height: 0,
            right_height: 0,
        }
    }

    fn height(&self) -> u8 {
        self.left_height.max(self.right_height).saturating_add(1)
    }
}

// Rotates right: the left child becomes the root.
fn turned_right(mut node: Box<Node>) -> Box<Node>
    ensures { of_node result.value ≡ of_node node.value }
{
    match node.left.take() {
        Top::Leaf => node,
        Top::Fork(mut top) => {
            node.left = mem::replace(&mut top.right, Tree::new());
            node.left_height = top.right_height;
            top.right_height = node.height();
            top.right = Tree::of(node);
            top
        }
    }
}

// Rotates left: the right child becomes the root.
fn turned_left(mut node: Box<Node>) -> Box<Node>
    ensures { of_node result.value ≡ of_node node.value }
{
    match node.right.take() {
        Top::Leaf => node,
        Top::Fork(mut top) => {
            node.right = mem::replace(&mut top.left, Tree::new());
            node.right_height = top.left_height;
            top.left_height = node.height();
            top.left = Tree::of(node);
            top
        }
    }
}

// Rebalances a node whose left side is two higher than the right one.
fn mended_left(mut node: Box<Node>) -> Box<Node>
    ensures { of_node result.value ≡ of_node node.value }
{
    match node.left.take() {
        Top::Leaf => node,
        Top::Fork(side) => {
            let is_bent = side.left_height < side.right_height;
            node.left = Tree::of(if is_bent { turned_left(side) } else { side });
            turned_right(node)
        }
    }
}

// Rebalances a node whose right side is two higher than the left one.
fn mended_right(mut node: Box<Node>) -> Box<Node>
    ensures { of_node result.value ≡ of_node node.value }
{
    match node.right.take() {
        Top::Leaf => node,
        Top::Fork(side) => {
            let is_bent = side.right_height < side.left_height;
            node.right = Tree::of(if is_bent { turned_right(side) } else { side });
            turned_left(node)
        }
    }
}

// Rebalances a node whose sides differ in height by at most two, so that they differ by at most one.
fn balanced(node: Box<Node>) -> Box<Node>
    ensures { of_node result.value ≡ of_node node.value }
{
    if node.right_height.saturating_add(1) < node.left_height {
        mended_left(node)
    } else if node.left_height.saturating_add(1) < node.right_height {
        mended_right(node)
    } else {
        node
    }
}

// Joins two trees, where all entries of the left one come before those of the right one.
fn joined(left: Tree, mut right: Tree) -> Tree
    ensures { result ≡ left ++ right }
{
    match right.take_first() {
        None => left,
        Some(mut top) => {
            top.left_height = left.height();
            top.left = left;
            top.right_height = right.height();
            top.right = right;
            Tree::of(balanced(top))
        }
    }
}
