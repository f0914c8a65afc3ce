//! Search for the innermost `if` that assigns a variable on some control paths only.

use crate::control_paths;
use lexer::token::Span;
use std::alloc::Allocator;
use syntax_trees::tree::{Block, Stmt, StmtKind};

/// Maximum number of nested `if` statements that are entered.
const MAX_NESTED_IFS: usize = 64;

/// The span of the first token of an `if`, and its branches.
#[derive(Drop)]
pub struct IfBranches<'a, A: Allocator> {
    pub at: Span,
    pub then: &'a Block<A>,
    pub other: &'a Option<Box<Block<A>, A>>,
}

/// Returns the innermost `if` that assigns a name on some control path but not on every one.
///
/// The search starts with `outer` and enters an `if` that stands directly in a branch. Returns `outer` if there is
/// none.
pub fn innermost_partial<'a, A: Allocator>(
    name: &[u8],
    outer: IfBranches<'a, A>,
) -> IfBranches<'a, A> {
    let mut found = outer;
    for _ in 0..MAX_NESTED_IFS {
        match partial_inside(name, &found) {
            Some(inside) => found = inside,
            None => break,
        }
    }
    found
}

/// Returns an `if` directly in a branch of another one that assigns a name on some control path but not on every one.
fn partial_inside<'a, A: Allocator>(
    name: &[u8],
    outer: &IfBranches<'a, A>,
) -> Option<IfBranches<'a, A>> {
    if let Some(found) = partial_in(name, outer.then) {
        return Some(found);
    }
    match outer.other {
        None => None,
        Some(other) => partial_in(name, other),
    }
}

fn partial_in<'a, A: Allocator>(name: &[u8], block: &'a Block<A>) -> Option<IfBranches<'a, A>> {
    for statement in &block.statements {
        if let Some(branches) = branches_of(statement) {
            if is_partial(name, &branches) {
                return Some(branches);
            }
        }
    }
    None
}

fn branches_of<'a, A: Allocator>(statement: &'a Stmt<A>) -> Option<IfBranches<'a, A>> {
    match &statement.kind {
        StmtKind::If(_, then, other) => Some(IfBranches {
            at: statement.first,
            then,
            other,
        }),
        StmtKind::Declare(_, _)
        | StmtKind::Assign(_, _)
        | StmtKind::Write(_, _, _)
        | StmtKind::AssignAll(_, _)
        | StmtKind::Call(_, _)
        | StmtKind::Foreach(_, _)
        | StmtKind::Wait(_, _) => None,
    }
}

/// Returns true if an `if` assigns a name on some control path but not on every one.
fn is_partial<A: Allocator>(name: &[u8], branches: &IfBranches<'_, A>) -> bool {
    let each = control_paths::in_block(true, name, branches.then)
        && control_paths::in_branch(true, name, branches.other);
    let some = control_paths::in_block(false, name, branches.then)
        || control_paths::in_branch(false, name, branches.other);
    some && !each
}
