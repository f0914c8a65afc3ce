//! Static analysis of variables that never close, whatever branch is chosen: those that their block assigns as scalars.
ghost use Rattle.std.specs.Prelude.{◌≡◌, ℕ, ◌&&◌, ◌||◌, nat_eq, IfOk, OnOk};
ghost use Rattle.std.specs.HashSet.{contains};
ghost use Rattle.flow.specs.View.{action_view, block_view, name_view};
ghost use Rattle.language.specs.Core.{local};
ghost use Rattle.meaning_cells.specs.Targeted.{same_owned};
ghost use Rattle.meaning_invariants.specs.Never.{never_by, never_in};
ghost use Rattle.meaning_round.specs.Made.{is_sought, no_calls};

use flow::name::{Name, NameBinding};
use flow::statement::{Action, Block};
use std::alloc::{AllocError, Allocator, Global};
use std::collections::HashSet;

/// The set of variables, by their nodes, that a search is restricted to.
#[derive(Clone, Copy)]
pub(crate) enum TargetNodes<'a> {
    All,
    Among(&'a HashSet<u32>),
}

/// Returns the nodes of the variables that never close in a block. Bodies of called functions are not searched.
pub(crate) fn never_closed_nodes<A: Allocator>(
    alloc: Global,
    block: &Block<A>,
) -> Result<HashSet<u32>, AllocError>
    ensures { IfOk result (λ never_closed. (n : ℕ) → contains nat_eq never_closed n ≡ never_in no_calls (local n) (block_view block.now)) }
{
    let mut never_closed = HashSet::new(alloc);
    add_never_closed(alloc, TargetNodes::All, block, &mut never_closed)?;
    Ok(never_closed)
}

/// Adds the sought variables that never close in a block.
#[cycle(never)]
fn add_never_closed<A: Allocator>(
    alloc: Global,
    sought: TargetNodes<'_>,
    block: &Block<A>,
    never_closed: &mut HashSet<u32>,
) -> Result<(), AllocError>
    ensures { OnOk result ((n : ℕ) → contains nat_eq never_closed.new n
        ≡ contains nat_eq never_closed.old n || (is_sought sought.entry n && never_in no_calls (local n) (block_view block.now))) }
{
    for statement in &block.statements {
        add_never(alloc, sought, &statement.action, never_closed)?;
    }
    Ok(())
}

/// Adds the sought variables that never close because of a statement.
#[cycle(never)]
fn add_never<A: Allocator>(
    alloc: Global,
    sought: TargetNodes<'_>,
    action: &Action<A>,
    never_closed: &mut HashSet<u32>,
) -> Result<(), AllocError>
    ensures { OnOk result ((n : ℕ) → contains nat_eq never_closed.new n
        ≡ contains nat_eq never_closed.old n || (is_sought sought.entry n && never_by no_calls (local n) (action_view action.now))) }
{
    match action {
        Action::Assign { target, .. } => add_target(sought, *target, never_closed),
        Action::Choose { then, other, .. } => {
            let mut nodes = HashSet::new(alloc);
            add_never_closed(alloc, sought, then, &mut nodes)?;
            add_never_closed(alloc, TargetNodes::Among(&nodes), other, never_closed)
        }
        Action::Wait { content, .. } => add_never_closed(alloc, sought, content, never_closed),
        Action::Declare(_) => Ok(()),
        Action::Call { .. } => Ok(()),
        Action::Fill { .. } => Ok(()),
        Action::Insert { .. } => Ok(()),
        Action::Print { .. } => Ok(()),
        Action::Assert { .. } => Ok(()),
        Action::When { .. } => Ok(()),
        Action::Range { .. } => Ok(()),
        Action::Each { .. } => Ok(()),
    }
}

/// Adds the target of an assignment, if it is sought and a block declares it.
fn add_target(
    sought: TargetNodes<'_>,
    target: Name,
    never_closed: &mut HashSet<u32>,
) -> Result<(), AllocError>
    ensures { OnOk result ((n : ℕ) → contains nat_eq never_closed.new n
        ≡ contains nat_eq never_closed.old n || (is_sought sought.entry n && same_owned (name_view target).what (local n))) }
{
    if let NameBinding::Local(node) = target.what {
        if is_sought(sought, node) {
            never_closed.insert(node)?;
        }
    }
    Ok(())
}

/// Returns true if the search covers a variable.
fn is_sought(sought: TargetNodes<'_>, node: u32) -> bool
    ensures { result ≡ is_sought sought.entry node }
{
    match sought {
        TargetNodes::All => true,
        TargetNodes::Among(nodes) => nodes.contains(&node),
    }
}
