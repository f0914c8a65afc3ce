//! Search for a variable that the branches of an `if` assign differently.

use crate::control_paths;
use crate::innermost_if::{IfBranches, innermost_partial};
use crate::lookup::{LookupKind, bytes_at, last_before};
use crate::occurrence::{Occurrence, OccurrenceKind};
use crate::occurrences::block_mentions;
use lexer::token::Span;
use std::alloc::{AllocError, Allocator, Global};
use syntax_trees::tree::{Block, Item, Script, Stmt, StmtKind};

/// The search for the `if` whose first token has the span `at`.
#[derive(Clone, Copy)]
struct IfSearch<'a> {
    alloc: Global,
    text: &'a [u8],
    at: Span,
}

/// A variable that the branches of an `if` assign differently.
#[derive(Clone, Copy, Debug, PartialEq, Eq)]
pub struct PartialAssignment {
    /// The first occurrence that assigns it.
    pub occurrence: Occurrence,
    /// The span of the innermost `if` that omits it on some control path, and whether that `if` has an `else`.
    pub inner: Span,
    pub has_else: bool,
}

/// Returns the first variable from outside of an `if` that its branches assign differently. `at` is the span of the
/// first token of the `if`.
///
/// The branches differ if one of them assigns the variable on every control path, or on some, and the other does not.
pub fn partly_assigned<A: Allocator>(
    alloc: Global,
    text: &[u8],
    script: &Script<A>,
    at: Span,
) -> Result<Option<PartialAssignment>, AllocError> {
    let search = IfSearch { alloc, text, at };
    let mut found = None;
    for item in &script.items {
        match item {
            Item::Import(_) => {}
            Item::Function(function) => in_block(&search, &function.body, &mut found)?,
            Item::Statement(stmt) => in_statement(&search, stmt, &mut found)?,
        }
    }
    Ok(found)
}

/// Searches a statement.
#[cycle(stmt)]
fn in_statement<A: Allocator>(
    search: &IfSearch,
    stmt: &Stmt<A>,
    found: &mut Option<PartialAssignment>,
) -> Result<(), AllocError> {
    in_command(search, stmt.first == search.at, &stmt.kind, found)
}

/// Searches a form of statement. `is_it` is true if the statement is the wanted one.
#[cycle(stmt)]
fn in_command<A: Allocator>(
    search: &IfSearch,
    is_it: bool,
    kind: &StmtKind<A>,
    found: &mut Option<PartialAssignment>,
) -> Result<(), AllocError> {
    match kind {
        StmtKind::If(_, then, other) => {
            if is_it {
                *found = differing(search, then, other)?;
            }
            in_block(search, then, found)?;
            match other {
                None => Ok(()),
                Some(other) => in_block(search, other, found),
            }
        }
        StmtKind::Foreach(_, body) | StmtKind::Wait(_, body) => { in_block(search, body, found) }
        StmtKind::Declare(_, _)
        | StmtKind::Assign(_, _)
        | StmtKind::Write(_, _, _)
        | StmtKind::AssignAll(_, _)
        | StmtKind::Call(_, _) => Ok(()),
    }
}

/// Searches a block.
#[cycle(stmt)]
fn in_block<A: Allocator>(
    search: &IfSearch,
    block: &Block<A>,
    found: &mut Option<PartialAssignment>,
) -> Result<(), AllocError> {
    in_each(search, &block.statements, found)
}

/// Searches consecutive statements.
#[cycle(stmt)]
fn in_each<A: Allocator>(
    search: &IfSearch,
    statements: &Vec<Stmt<A>, A>,
    found: &mut Option<PartialAssignment>,
) -> Result<(), AllocError> {
    for stmt in statements {
        in_statement(search, stmt, found)?;
    }
    Ok(())
}

/// Returns the first occurrence in two branches that assigns a variable which they assign differently.
fn differing<A: Allocator>(
    search: &IfSearch,
    then: &Block<A>,
    other: &Option<Box<Block<A>, A>>,
) -> Result<Option<PartialAssignment>, AllocError> {
    let mut occurrences = Vec::new(search.alloc);
    block_mentions(then, &mut occurrences)?;
    if let Some(other) = other {
        block_mentions(other, &mut occurrences)?;
    }
    match first_differing(search.text, occurrences.as_slice(), then, other) {
        None => Ok(None),
        Some(occurrence) => {
            let outer = IfBranches {
                at: search.at,
                then,
                other,
            };
            let inner = innermost_partial(bytes_at(search.text, occurrence.at), outer);
            Ok(Some(PartialAssignment {
                occurrence,
                inner: inner.at,
                has_else: inner.other.is_some(),
            }))
        }
    }
}

fn first_differing<A: Allocator>(
    text: &[u8],
    occurrences: &[Occurrence],
    then: &Block<A>,
    other: &Option<Box<Block<A>, A>>,
) -> Option<Occurrence> {
    for occurrence in occurrences {
        let name = bytes_at(text, occurrence.at);
        if occurrence.kind == OccurrenceKind::Assigned
            && is_from_outside(text, occurrences, name)
            && differs(name, then, other)
        {
            return Some(*occurrence);
        }
    }
    None
}

/// Returns true if a name is not declared at these occurrences.
fn is_from_outside(text: &[u8], occurrences: &[Occurrence], name: &[u8]) -> bool {
    last_before(text, occurrences, LookupKind::Declaration, name, text.len()).is_none()
}

/// Returns true if one branch assigns a name on every control path, or on some, and the other does not.
fn differs<A: Allocator>(name: &[u8], then: &Block<A>, other: &Option<Box<Block<A>, A>>) -> bool {
    control_paths::in_block(true, name, then) != control_paths::in_branch(true, name, other)
        || control_paths::in_block(false, name, then)
            != control_paths::in_branch(false, name, other)
}
