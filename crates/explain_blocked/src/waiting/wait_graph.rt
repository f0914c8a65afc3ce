//! The wait graph of blocked statements, and its root causes.

use crate::context::ExplainContext;
use crate::graphs::graph::{Components, Graph};
use crate::graphs::numbers::{NONE, NodeNumbers};
use crate::reasons::inputs::{is_own_cell, missing_in_cell, target_of};
use crate::writers::WriteTarget;
use explain_inputs::blocked_statement::BlockedStatement;
use explain_inputs::input::StatementInput;
use std::alloc::{AllocError, Allocator, Global};
use std::collections::HashMap;

/// The wait graph of blocked statements.
///
/// A statement has an edge to each target that it waits for. A target has an edge to each blocked statement that
/// would write it. A target that is an argument also has an edge to each target that the argument waits for. The
/// first nodes are the statements, in the order of the listing.
pub struct WaitGraph {
    pub graph: Graph,
    statements: usize,
    /// The targets that are waited for, and the node of each.
    targets: Vec<WriteTarget>,
    nodes: HashMap<WriteTarget, usize>,
}

// Implemented by hand, so that an owner drops the value with one call.
impl Drop for WaitGraph {
    fn drop(self) {
        let WaitGraph {
            graph: _,
            statements: _,
            targets: _,
            nodes: _,
        } = self;
    }
}

impl WaitGraph {
    pub fn of<'t, 'a, A: Allocator>(
        context: &ExplainContext<'t, 'a, A>,
        listed: &[BlockedStatement<'t, 'a, A>],
    ) -> Result<WaitGraph, AllocError> {
        let mut waits = WaitGraph {
            graph: Graph::new(context.alloc),
            statements: listed.len(),
            targets: Vec::new(context.alloc),
            nodes: HashMap::new(context.alloc),
        };
        waits.note_all(context, listed)?;
        Ok(waits)
    }

    fn note_all<'t, 'a, A: Allocator>(
        &mut self,
        context: &ExplainContext<'t, 'a, A>,
        listed: &[BlockedStatement<'t, 'a, A>],
    ) -> Result<(), AllocError> {
        for _ in listed {
            self.graph.add()?;
        }
        for i in 0..listed.len() {
            let waiting = &listed[i];
            self.note_inputs(context, i, waiting.instance, waiting.missing.as_slice())?;
        }
        let numbers = numbers_of(context, listed)?;
        self.note_targets(context, &numbers)
    }

    /// Returns true if a node is a statement.
    pub fn is_statement(&self, node: usize) -> bool {
        node < self.statements
    }

    /// Returns the target of a node, or `None` if the node is a statement.
    pub fn target(&self, node: usize) -> Option<WriteTarget> {
        let number = node.checked_sub(self.statements)?;
        self.targets.get(number).copied()
    }

    /// Adds edges from a node to the targets of these inputs in an instance. A statement's own cells are left out.
    fn note_inputs<'t, 'a, A: Allocator>(
        &mut self,
        context: &ExplainContext<'t, 'a, A>,
        from: usize,
        instance: usize,
        inputs: &[StatementInput],
    ) -> Result<(), AllocError> {
        for input in inputs {
            if !is_own_cell(context, *input) {
                let to = self.node_of(target_of(context, instance, *input))?;
                self.graph.add_edge(from, to)?;
            }
        }
        Ok(())
    }

    /// Returns the node of a target. Adds the node if the target has none.
    fn node_of(&mut self, target: WriteTarget) -> Result<usize, AllocError> {
        if let Some(node) = self.nodes.get(&target) {
            return Ok(*node);
        }
        let node = self.graph.add()?;
        self.nodes.insert(target, node)?;
        self.targets.push(target)?;
        Ok(node)
    }

    /// Adds the outgoing edges of each target, including targets that are added meanwhile.
    fn note_targets<'t, 'a, A: Allocator>(
        &mut self,
        context: &ExplainContext<'t, 'a, A>,
        numbers: &NodeNumbers,
    ) -> Result<(), AllocError> {
        for number in 0..usize::MAX {
            match self.targets.get(number).copied() {
                Some(target) => self.note_target(context, numbers, target)?,
                None => break,
            }
        }
        Ok(())
    }

    fn note_target<'t, 'a, A: Allocator>(
        &mut self,
        context: &ExplainContext<'t, 'a, A>,
        numbers: &NodeNumbers,
        target: WriteTarget,
    ) -> Result<(), AllocError> {
        let node = self.node_of(target)?;
        let place = target.place;
        if let Some(spot) = context.index.cell(place.node) {
            let missing = missing_in_cell(context, place.instance, spot.cell)?;
            self.note_inputs(context, node, place.instance, missing.as_slice())?;
        }
        for writer in context.writers.blocked_at(target) {
            let statement = numbers.at(*writer);
            if statement != NONE {
                self.graph.add_edge(node, statement)?;
            }
        }
        Ok(())
    }

    /// Returns for each statement whether it is a root cause: no other component that contains a statement is
    /// reachable from its own.
    ///
    /// A root cause thus waits for other blocked statements only if they wait for it in turn.
    pub fn causes(&self, alloc: Global, parts: &Components) -> Result<Vec<bool>, AllocError> {
        let mut holds = NodeNumbers::new(alloc, self.graph.len())?;
        let mut leaves = NodeNumbers::new(alloc, self.graph.len())?;
        for node in &parts.order {
            let part = parts.part.at(*node);
            if self.leaves(parts, &holds, *node) {
                leaves.put(part, 1);
                holds.put(part, 1);
            }
            if self.is_statement(*node) {
                holds.put(part, 1);
            }
        }
        let mut causes = Vec::new(alloc);
        for number in 0..self.statements {
            causes.push(leaves.at(parts.part.at(number)) == NONE)?;
        }
        Ok(causes)
    }

    /// Returns true if a node has an edge to another component from which a statement is reachable. `holds` marks
    /// these components.
    fn leaves(&self, parts: &Components, holds: &NodeNumbers, node: usize) -> bool {
        let own = parts.part.at(node);
        for to in self.graph.successors(node) {
            let part = parts.part.at(*to);
            if part != own && holds.at(part) != NONE {
                return true;
            }
        }
        false
    }
}

/// Returns the input whose target in an instance is `wanted`. A statement's own cells are left out.
pub fn input_at<'t, 'a, A: Allocator>(
    context: &ExplainContext<'t, 'a, A>,
    instance: usize,
    inputs: &[StatementInput],
    wanted: WriteTarget,
) -> Option<StatementInput> {
    for input in inputs {
        if !is_own_cell(context, *input) && target_of(context, instance, *input) == wanted {
            return Some(*input);
        }
    }
    None
}

/// Returns the position in the listing of each blocked statement of the known facts.
fn numbers_of<'t, 'a, A: Allocator>(
    context: &ExplainContext<'t, 'a, A>,
    listed: &[BlockedStatement<'t, 'a, A>],
) -> Result<NodeNumbers, AllocError> {
    let places = places_of(context.alloc, listed)?;
    let stuck = context.known.stuck.as_slice();
    let mut numbers = NodeNumbers::new(context.alloc, stuck.len())?;
    for number in 0..stuck.len() {
        if let Some(i) = places.get(&(stuck[number].instance, stuck[number].at)) {
            numbers.put(number, *i);
        }
    }
    Ok(numbers)
}

/// Returns the positions of the listed statements, by instance and offset.
fn places_of<'t, 'a, A: Allocator>(
    alloc: Global,
    listed: &[BlockedStatement<'t, 'a, A>],
) -> Result<HashMap<(usize, usize), usize>, AllocError> {
    let mut places = HashMap::new(alloc);
    for i in 0..listed.len() {
        places.insert((listed[i].instance, listed[i].site.at()), i)?;
    }
    Ok(places)
}
