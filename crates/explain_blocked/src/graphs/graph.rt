//! Directed graphs with strongly connected components and shortest cycles.

use crate::graphs::components::ComponentSearch;
use crate::graphs::numbers::{NONE, NodeNumbers};
use std::alloc::{AllocError, Global};

/// A directed graph, as adjacency lists. Nodes are numbered in the order in which they are added.
pub struct Graph {
    alloc: Global,
    edges: Vec<Vec<usize>>,
    /// Number of edges.
    count: usize,
}

// Implemented by hand, so that an owner drops the value with one call.
impl Drop for Graph {
    fn drop(self) {
        let Graph {
            alloc: _,
            edges: _,
            count: _,
        } = self;
    }
}

/// The strongly connected components of a graph.
pub struct Components {
    /// The component number of each node. An edge to another component leads to a lower number.
    pub part: NodeNumbers,
    /// All nodes, sorted by component number.
    pub order: Vec<usize>,
}

// Implemented by hand, so that an owner drops the value with one call.
impl Drop for Components {
    fn drop(self) {
        let Components { part: _, order: _ } = self;
    }
}

impl Graph {
    pub fn new(alloc: Global) -> Graph {
        Graph {
            alloc,
            edges: Vec::new(alloc),
            count: 0,
        }
    }

    /// Adds a node and returns its number.
    pub fn add(&mut self) -> Result<usize, AllocError> {
        let node = self.edges.len();
        self.edges.push(Vec::new(self.alloc))?;
        Ok(node)
    }

    /// Adds an edge. Does nothing if there is no node `from`.
    pub fn add_edge(&mut self, from: usize, to: usize) -> Result<(), AllocError> {
        if let Some(ends) = self.edges.get_mut(from) {
            ends.push(to)?;
            self.count = self.count.saturating_add(1);
        }
        Ok(())
    }

    pub fn len(&self) -> usize {
        self.edges.len()
    }

    /// Returns the nodes to which a node has an edge.
    pub fn successors(&self, node: usize) -> &[usize] {
        match self.edges.get(node) {
            Some(ends) => ends.as_slice(),
            None => &[],
        }
    }

    /// Returns the number of nodes and edges.
    pub fn size(&self) -> usize {
        self.edges.len().saturating_add(self.count)
    }

    /// Returns the strongly connected components.
    pub fn parts(&self) -> Result<Components, AllocError> {
        let mut search = ComponentSearch::new(self.alloc, self)?;
        search.run()?;
        Ok(search.into_parts())
    }

    /// Returns the nodes of a shortest cycle through a node, found by breadth-first search.
    ///
    /// The list starts with a successor of `from` and ends with `from`. It is empty if there is no such cycle.
    pub fn shortest_cycle(&self, from: usize) -> Result<Vec<usize>, AllocError> {
        let mut before = NodeNumbers::new(self.alloc, self.len())?;
        let mut queue = Vec::new(self.alloc);
        queue.push(from)?;
        for place in 0..self.len() {
            match queue.get(place).copied() {
                Some(node) if before.at(from) == NONE => self.visit_successors(
                    node,
                    &mut before,
                    &mut queue,
                )?,
                _ => break,
            }
        }
        self.cycle_path(from, &before)
    }

    /// Appends to the queue the successors of a node that have no predecessor yet, and records the node as their
    /// predecessor.
    fn visit_successors(
        &self,
        node: usize,
        before: &mut NodeNumbers,
        queue: &mut Vec<usize>,
    ) -> Result<(), AllocError> {
        for to in self.successors(node) {
            if before.at(*to) == NONE {
                before.put(*to, node);
                queue.push(*to)?;
            }
        }
        Ok(())
    }

    /// Returns the path from a node to itself, given the predecessor of each node.
    fn cycle_path(&self, from: usize, before: &NodeNumbers) -> Result<Vec<usize>, AllocError> {
        let mut way = Vec::new(self.alloc);
        let mut node = from;
        for _ in 0..self.len() {
            let next = before.at(node);
            if next == NONE {
                break;
            }
            way.push(node)?;
            node = next;
            if node == from {
                break;
            }
        }
        way.reverse();
        Ok(way)
    }
}
