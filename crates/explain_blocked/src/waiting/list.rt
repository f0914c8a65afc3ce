//! The blocked statements of a listing, with their wait graph.

use crate::context::{ExplainContext, StatementLocation, location_of};
use crate::index::CellSite;
use crate::waiting::wait_graph::WaitGraph;
use explain_inputs::blocked_statement::BlockedStatement;
use std::alloc::Allocator;

/// Blocked statements in the order of the printed lines, with their missing inputs, their wait graph and the name of
/// the script's file.
#[derive(Drop)]
pub struct BlockedList<'l, 't, 'a, A: Allocator> {
    pub context: &'l ExplainContext<'t, 'a, A>,
    pub file: &'l str,
    pub listed: &'l [BlockedStatement<'t, 'a, A>],
    pub waits: &'l WaitGraph,
}

impl<'l, 't, 'a, A: Allocator> BlockedList<'l, 't, 'a, A> {
    /// Returns the location of a statement of the list.
    pub fn location(&self, number: usize) -> StatementLocation {
        match self.listed.get(number) {
            Some(waiting) => location_of(waiting),
            None => StatementLocation {
                at: 0,
                function: None,
                instance: 0,
            },
        }
    }

    /// Returns the offset of a statement of the list.
    pub fn at(&self, number: usize) -> usize {
        self.location(number).at
    }

    /// Returns the argument cell that a node of the wait graph stands for, or `None` if the node is not an argument.
    pub fn argument(&self, node: usize) -> Option<&CellSite<'a, A>> {
        let target = self.waits.target(node)?;
        self.context.index.cell(target.place.node)
    }
}
