//! Cycles of plain statements of one list, of which each waits for the variable that the next one assigns.
//!
//! The first 64 assignments of a list are examined, each by one row of bits, so that the time stays linear.
ghost use Rattle.std.specs.Prelude.{◌≡◌, ◌≤◌, ◌++◌, ℕ, [], Some, OnOk, IfOk, length, map, option_map, slice_get};
ghost use Rattle.syntax_trees.specs.View.{word_of, right_of, statement_view, command_view, part_of, tree_of};
ghost use Rattle.language.specs.Tree.{statements_of};
ghost use Rattle.explain_warnings.specs.Cycles as specs;
ghost use Rattle.explain_warnings.specs.Ways.{in_rows, bit_is_set};
ghost use Rattle.explain_warnings.specs.View.{statements_in};

use crate::mistakes::needs::right_needs;
use crate::mistakes::rows::{close, meets_first, with_bit};
use crate::name_use::{NameUse, NameUseKind};
use crate::occurrences::reads::add;
use std::alloc::{AllocError, Allocator, Global};
use syntax_trees::tree::{Item, Name, Right, Script, Stmt, StmtKind};

/// Maximum number of statements that are examined, less one.
const MAX_EARLIER_STATEMENTS: usize = 63;

/// Returns a declared name if it has a right side.
fn valued<'e, A: Allocator>(name: &'e Name<A>, right: &Option<Right<A>>) -> Option<&'e Name<A>>
    ensures { option_map (λ n. word_of n.now) result ≡ specs.valued (word_of name.now) (option_map right_of right.now) }
{
    match right {
        None => None,
        Some(_) => Some(name),
    }
}

/// Returns the variable that a statement of this form assigns, if it is an assignment or a declaration with a value.
fn command_target<A: Allocator>(kind: &StmtKind<A>) -> Option<&Name<A>>
    ensures { option_map (λ n. word_of n.now) result ≡ specs.command_target (command_view kind.now) }
{
    match kind {
        StmtKind::Declare(decl, right) => valued(&decl.name, right),
        StmtKind::Assign(name, _) => Some(name),
        StmtKind::Write(_, _, _) | StmtKind::AssignAll(_, _) | StmtKind::Call(_, _) => None,
        StmtKind::If(_, _, _) | StmtKind::Foreach(_, _) | StmtKind::Wait(_, _) => None,
    }
}

/// Returns the variable that a statement assigns, if it is an assignment or a declaration with a value.
fn target<A: Allocator>(stmt: &Stmt<A>) -> Option<&Name<A>>
    ensures { option_map (λ n. word_of n.now) result ≡ specs.target (statement_view stmt.now) }
{
    command_target(&stmt.kind)
}

/// Keeps a statement that assigns a variable, unless there are 64 such statements.
fn keep<'e, A: Allocator>(
    before: &mut Vec<&'e Stmt<A>>,
    stmt: &'e Stmt<A>,
) -> Result<(), AllocError>
    ensures { OnOk result (statements_in before.new.items
        ≡ specs.kept (statements_in before.old.items) (statement_view stmt.now)) }
{
    if before.len() <= MAX_EARLIER_STATEMENTS && target(stmt).is_some() {
        before.push(stmt)?;
    }
    Ok(())
}

/// Collects the first 64 statements of a list that assign a variable.
fn plain<'e, A: Allocator>(
    alloc: Global,
    statements: &'e Vec<Stmt<A>, A>,
) -> Result<Vec<&'e Stmt<A>>, AllocError>
    ensures { IfOk result (λ before. statements_in before.items
        ≡ specs.plain [] (statements_of (map statement_view statements.now.items))) }
{
    let mut before = Vec::new(alloc);
    for stmt in statements {
        keep(&mut before, stmt)?;
    }
    Ok(before)
}

fn part_keep<'e, A: Allocator>(
    before: &mut Vec<&'e Stmt<A>>,
    item: &'e Item<A>,
) -> Result<(), AllocError>
    ensures { OnOk result (statements_in before.new.items
        ≡ specs.part_kept (statements_in before.old.items) (part_of item.now)) }
{
    match item {
        Item::Import(_) | Item::Function(_) => Ok(()),
        Item::Statement(one) => keep(before, one),
    }
}

/// Collects the first 64 statements outside of all functions that assign a variable.
fn tree_plain<'e, A: Allocator>(
    alloc: Global,
    script: &'e Script<A>,
) -> Result<Vec<&'e Stmt<A>>, AllocError>
    ensures { IfOk result (λ before. statements_in before.items ≡ specs.tree_plain [] (tree_of script.now)) }
{
    let mut before = Vec::new(alloc);
    for item in &script.items {
        part_keep(&mut before, item)?;
    }
    Ok(before)
}

fn initial_needs<A: Allocator>(name: &[u8], right: &Option<Right<A>>) -> bool
    ensures { result ≡ specs.initial_needs name.now (option_map right_of right.now) }
{
    match right {
        None => false,
        Some(right) => right_needs(right, name),
    }
}

/// Returns true if the right side of a statement of this form needs the variable of this name.
fn command_needs<A: Allocator>(name: &[u8], kind: &StmtKind<A>) -> bool
    ensures { result ≡ specs.command_needs name.now (command_view kind.now) }
{
    match kind {
        StmtKind::Declare(_, right) => initial_needs(name, right),
        StmtKind::Assign(_, right) => right_needs(right, name),
        StmtKind::Write(_, _, _) | StmtKind::AssignAll(_, _) | StmtKind::Call(_, _) => false,
        StmtKind::If(_, _, _) | StmtKind::Foreach(_, _) | StmtKind::Wait(_, _) => false,
    }
}

/// Returns true if a statement waits for the variable that another one assigns.
fn waits_for<A: Allocator>(stmt: &Stmt<A>, other: &Stmt<A>) -> bool
    ensures { result ≡ specs.needs_target (statement_view stmt.now) (specs.target (statement_view other.now)) }
{
    match target(other) {
        None => false,
        Some(name) => command_needs(name.text.as_slice(), &stmt.kind),
    }
}

/// Returns the row of a statement: a bit for each statement for whose variable it waits.
fn row_of<A: Allocator>(stmt: &Stmt<A>, before: &[&Stmt<A>]) -> u64
    requires { length before.now ≤ 64 }
    ensures { (k : ℕ) → bit_is_set result k
        ≡ specs.both_wait (Some (statement_view stmt.now)) (slice_get (statements_in before.now) k) }
{
    let mut row = 0;
    for k in 0..before.len() {
        row = with_bit(row, k, waits_for(stmt, before[k]));
    }
    row
}

/// Returns the rows of the statements.
fn rows_of<A: Allocator>(alloc: Global, before: &[&Stmt<A>]) -> Result<Vec<u64>, AllocError>
    requires { length before.now ≤ 64 }
    ensures { IfOk result (λ rows. in_rows rows.items ≡ specs.awaits (statements_in before.now)
        × (length rows.items ≡ length before.now)) }
{
    let mut rows = Vec::new(alloc);
    for stmt in before {
        rows.push(row_of(stmt, before))?;
    }
    Ok(rows)
}

/// Appends an occurrence of the variable that a statement assigns if the statement is the first one of a cycle.
fn cycle_at<A: Allocator>(
    opens: bool,
    stmt: &Stmt<A>,
    name_uses: &mut Vec<NameUse>,
) -> Result<(), AllocError>
    ensures { OnOk result (name_uses.new.items ≡ name_uses.old.items ++ specs.cycle_at opens (statement_view stmt.now)) }
{
    if opens {
        match target(stmt) {
            None => Ok(()),
            Some(name) => add(NameUseKind::CircularWait, name, name_uses),
        }
    } else {
        Ok(())
    }
}

/// Appends the occurrences at the statements that are the first ones of cycles.
fn cycles<A: Allocator>(
    alloc: Global,
    before: &[&Stmt<A>],
    name_uses: &mut Vec<NameUse>,
) -> Result<(), AllocError>
    requires { length before.now ≤ 64 }
    ensures { OnOk result (name_uses.new.items ≡ name_uses.old.items ++ specs.cycles (statements_in before.now)) }
{
    let mut rows = rows_of(alloc, before)?;
    close(&mut rows);
    for i in 0..before.len() {
        cycle_at(meets_first(rows.as_slice(), i), before[i], name_uses)?;
    }
    Ok(())
}

/// Appends the occurrences at the first statements of the cycles of a list.
pub fn list_cycles<A: Allocator>(
    alloc: Global,
    statements: &Vec<Stmt<A>, A>,
    name_uses: &mut Vec<NameUse>,
) -> Result<(), AllocError>
    ensures { OnOk result (name_uses.new.items ≡ name_uses.old.items
        ++ specs.cycles (specs.plain [] (statements_of (map statement_view statements.now.items)))) }
{
    let before = plain(alloc, statements)?;
    cycles(alloc, before.as_slice(), name_uses)
}

/// Appends the same of the statements outside of all functions.
pub fn tree_cycles<A: Allocator>(
    alloc: Global,
    script: &Script<A>,
    name_uses: &mut Vec<NameUse>,
) -> Result<(), AllocError>
    ensures { OnOk result (name_uses.new.items ≡ name_uses.old.items
        ++ specs.cycles (specs.tree_plain [] (tree_of script.now))) }
{
    let before = tree_plain(alloc, script)?;
    cycles(alloc, before.as_slice(), name_uses)
}
