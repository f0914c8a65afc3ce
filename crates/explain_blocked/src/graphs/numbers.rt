//! A table with one number for each node of a graph.

use std::alloc::{AllocError, Global};

/// The value that stands for a missing number.
pub const NONE: usize = usize::MAX;

/// A table of node numbers, at first all `NONE`.
#[derive(Drop)]
pub struct NodeNumbers {
    all: Vec<usize>,
}

impl NodeNumbers {
    pub fn new(alloc: Global, count: usize) -> Result<NodeNumbers, AllocError> {
        let mut all = Vec::with_capacity(alloc, count)?;
        for _ in 0..count {
            all.push(NONE)?;
        }
        Ok(NodeNumbers { all })
    }

    /// Returns the number of a node, or `NONE` if it has none.
    pub fn at(&self, node: usize) -> usize {
        match self.all.get(node) {
            Some(number) => *number,
            None => NONE,
        }
    }

    /// Sets the number of a node. Does nothing if the node is out of range.
    pub fn put(&mut self, node: usize, number: usize) {
        if let Some(place) = self.all.get_mut(node) {
            *place = number;
        }
    }

    /// Lowers the number of a node to this number. Does nothing if the present number is not greater.
    pub fn set_min(&mut self, node: usize, number: usize) {
        if number < self.at(node) {
            self.put(node, number);
        }
    }
}
