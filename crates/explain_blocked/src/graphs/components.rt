//! Search for the strongly connected components of a graph.
//!
//! The search is an iterative form of Tarjan's algorithm. A component is closed when the search leaves the node at
//! which it was entered.

use crate::graphs::graph::{Components, Graph};
use crate::graphs::numbers::{NONE, NodeNumbers};
use std::alloc::{AllocError, Global};

/// The state of a depth-first search.
#[derive(Drop)]
pub struct ComponentSearch<'g> {
    graph: &'g Graph,
    /// The discovery time of each node.
    met: NodeNumbers,
    /// The low-link of each node: the earliest discovery time found so far among nodes of open components that it
    /// leads to.
    low: NodeNumbers,
    /// Number of edges of each node that were followed.
    followed: NodeNumbers,
    part: NodeNumbers,
    order: Vec<usize>,
    /// The discovered nodes whose component is not closed, in order of discovery.
    open: Vec<usize>,
    /// The current search path, from the root to the current node.
    way: Vec<usize>,
    time: usize,
    parts: usize,
}

impl<'g> ComponentSearch<'g> {
    /// Creates a search that has discovered no node.
    pub fn new(alloc: Global, graph: &'g Graph) -> Result<ComponentSearch<'g>, AllocError> {
        let count = graph.len();
        Ok(ComponentSearch {
            graph,
            met: NodeNumbers::new(alloc, count)?,
            low: NodeNumbers::new(alloc, count)?,
            followed: NodeNumbers::new(alloc, count)?,
            part: NodeNumbers::new(alloc, count)?,
            order: Vec::new(alloc),
            open: Vec::new(alloc),
            way: Vec::new(alloc),
            time: 0,
            parts: 0,
        })
    }

    /// Searches from each node that is not yet discovered.
    pub fn run(&mut self) -> Result<(), AllocError> {
        for root in 0..self.graph.len() {
            if self.met.at(root) == NONE {
                self.enter_node(root)?;
                self.walk()?;
            }
        }
        Ok(())
    }

    /// Returns the components that were found.
    pub fn into_parts(self) -> Components {
        let ComponentSearch { part, order, .. } = self;
        Components { part, order }
    }

    /// Continues the search until its path is empty. Each step follows an edge or leaves a node.
    fn walk(&mut self) -> Result<(), AllocError> {
        for _ in 0..self.graph.size() {
            match self.way.last().copied() {
                Some(node) => self.step(node)?,
                None => break,
            }
        }
        Ok(())
    }

    fn step(&mut self, node: usize) -> Result<(), AllocError> {
        let place = self.followed.at(node);
        match self.graph.successors(node).get(place).copied() {
            Some(to) => {
                self.followed.put(node, place.saturating_add(1));
                self.follow_edge(node, to)
            }
            None => self.leave_node(node),
        }
    }

    fn follow_edge(&mut self, node: usize, to: usize) -> Result<(), AllocError> {
        if self.met.at(to) == NONE {
            return self.enter_node(to);
        }
        if self.part.at(to) == NONE {
            self.low.set_min(node, self.met.at(to));
        }
        Ok(())
    }

    fn enter_node(&mut self, node: usize) -> Result<(), AllocError> {
        self.met.put(node, self.time);
        self.low.put(node, self.time);
        self.followed.put(node, 0);
        self.time = self.time.saturating_add(1);
        self.open.push(node)?;
        self.way.push(node)?;
        Ok(())
    }

    fn leave_node(&mut self, node: usize) -> Result<(), AllocError> {
        let low = self.low.at(node);
        let _ = self.way.pop();
        if let Some(outer) = self.way.last().copied() {
            self.low.set_min(outer, low);
        }
        if low == self.met.at(node) {
            self.close(node)?;
        }
        Ok(())
    }

    /// Closes the component that was entered at a node, and assigns its number to the nodes of the component.
    fn close(&mut self, node: usize) -> Result<(), AllocError> {
        for _ in 0..self.open.len() {
            let Some(last) = self.open.pop() else {
                break;
            };
            self.part.put(last, self.parts);
            self.order.push(last)?;
            if last == node {
                break;
            }
        }
        self.parts = self.parts.saturating_add(1);
        Ok(())
    }
}
