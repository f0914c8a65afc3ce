//! The order of functions by their calls, so that a function is drawn below those that call it.
//!
//! A depth-first search from the script follows the calls. In the order in which it leaves the functions, each function
//! comes before those that call it, except for calls that close a cycle.

use crate::analysis::scene::{CallUse, Scene};
use crate::analysis::traffic::{empty_lists, list_at};
use std::alloc::{AllocError, Allocator, Global};

/// The state of a node in the search.
#[derive(Clone, Copy, PartialEq, Eq, Debug, Drop)]
enum Mark {
    New,
    /// It is on the path of the search, with this number of calls followed.
    Open(usize),
    /// The search has left it, as the last of this number of nodes.
    Left(usize),
}

/// The callers of the script's functions in the order of a search. Node 0 is the script, node `f` + 1 the function `f`.
#[derive(Drop)]
pub struct CallOrder {
    callees: Vec<Vec<usize>>,
    marks: Vec<Mark>,
    path: Vec<usize>,
    left: usize,
}

impl CallOrder {
    /// Searches the calls of a scene.
    ///
    /// # Errors
    ///
    /// Returns `AllocError` if an allocation fails.
    pub fn of<'a, A: Allocator>(
        alloc: Global,
        scene: &Scene<'a, A>,
    ) -> Result<CallOrder, AllocError> {
        let count = scene.functions.len().saturating_add(1);
        let mut marks = Vec::new(alloc);
        for _ in 0..count {
            marks.push(Mark::New)?;
        }
        let mut order = CallOrder {
            callees: callees_of(alloc, scene, count)?,
            marks,
            path: Vec::new(alloc),
            left: 0,
        };
        let steps = scene.calls.len().saturating_add(count);
        for root in 0..count {
            order.search(root, steps)?;
        }
        Ok(order)
    }

    /// Returns true if a call leads down: the search left the callee before the caller.
    pub fn leads_down(&self, caller: Option<usize>, callee: usize) -> bool {
        match (self.mark(node_of(caller)), self.mark(node_of(Some(callee)))) {
            (Mark::Left(upper), Mark::Left(lower)) => lower < upper,
            _ => false,
        }
    }

    /// Searches from a node, if it is new, for at most this number of calls and nodes.
    fn search(&mut self, root: usize, steps: usize) -> Result<(), AllocError> {
        self.enter(root)?;
        for _ in 0..steps {
            let Some(node) = self.path.last().copied() else {
                break;
            };
            self.step(node)?;
        }
        Ok(())
    }

    /// Follows the next call of the node at the end of the path, or leaves the node.
    fn step(&mut self, node: usize) -> Result<(), AllocError> {
        let Mark::Open(followed) = self.mark(node) else {
            return Ok(());
        };
        let next = list_at(&self.callees, node).get(followed).copied();
        match next {
            Some(callee) => {
                self.set(node, Mark::Open(followed.saturating_add(1)));
                self.enter(callee)
            }
            None => {
                let _ = self.path.pop();
                self.set(node, Mark::Left(self.left));
                self.left = self.left.saturating_add(1);
                Ok(())
            }
        }
    }

    /// Adds a new node to the path.
    fn enter(&mut self, node: usize) -> Result<(), AllocError> {
        if self.mark(node) == Mark::New {
            self.set(node, Mark::Open(0));
            self.path.push(node)?;
        }
        Ok(())
    }

    fn mark(&self, node: usize) -> Mark {
        match self.marks.get(node) {
            Some(mark) => *mark,
            None => Mark::Left(0),
        }
    }

    fn set(&mut self, node: usize, mark: Mark) {
        if let Some(stored) = self.marks.get_mut(node) {
            *stored = mark;
        }
    }
}

/// Returns the node of a function, or of the script.
fn node_of(function: Option<usize>) -> usize {
    match function {
        Some(function) => function.saturating_add(1),
        None => 0,
    }
}

/// Returns the nodes that each node calls.
fn callees_of<'a, A: Allocator>(
    alloc: Global,
    scene: &Scene<'a, A>,
    count: usize,
) -> Result<Vec<Vec<usize>>, AllocError> {
    let mut callees = empty_lists(alloc, count)?;
    for call in &scene.calls {
        if let Some(caller) = scene.boxes.get(call.statement) {
            if let Some(list) = callees.get_mut(node_of(caller.place.function)) {
                list.push(node_of(Some(call.function)))?;
            }
        }
    }
    Ok(callees)
}

/// Returns the calls of a scene, each once for each statement, in the order of the statements.
///
/// # Errors
///
/// Returns `AllocError` if an allocation fails.
pub fn calls_once<'a, A: Allocator>(
    alloc: Global,
    scene: &Scene<'a, A>,
) -> Result<Vec<CallUse>, AllocError> {
    let mut calls = Vec::from_slice(alloc, scene.calls.as_slice())?;
    calls.sort_by(|a, b| {
        a.statement
            .cmp(&b.statement)
            .then(a.function.cmp(&b.function))
    })?;
    calls.dedup();
    Ok(calls)
}
