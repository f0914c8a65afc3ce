//! Writes of one key of an array by two statements of one list, each under a literal.
//!
//! The first 64 such writes of a list are compared with the later ones, so that the time stays linear.
ghost use Rattle.std.specs.Prelude.{◌≡◌, ◌++◌, [], OnOk, IfOk, map};
ghost use Rattle.syntax_trees.specs.View.{word_of, expression_view, form_view, statement_view, command_view, part_of, tree_of};
ghost use Rattle.language.specs.Tree.{statements_of};
ghost use Rattle.explain_warnings.specs.Repeats as specs;
ghost use Rattle.explain_warnings.specs.View.{statements_in};

use crate::mistakes::forms::same_text;
use crate::name_use::{NameUse, NameUseKind};
use crate::occurrences::reads::add;
use std::alloc::{AllocError, Allocator, Global};
use syntax_trees::tree::{Expr, ExprKind, Item, Name, Script, Stmt, StmtKind};

/// Maximum number of statements that are compared with later ones, less one.
const MAX_EARLIER_WRITES: usize = 63;

/// Returns true for a number literal or a string literal.
fn is_literal<A: Allocator>(kind: &ExprKind<A>) -> bool
    ensures { result ≡ specs.is_literal (form_view kind.now) }
{
    match kind {
        ExprKind::Number(_) | ExprKind::Text(_) => true,
        ExprKind::Truth(_) | ExprKind::Variable(_) => false,
        ExprKind::Element(_, _) | ExprKind::Call(_, _) => false,
        ExprKind::Prefixed(_, _) | ExprKind::Chain(_, _) => false,
    }
}

fn is_number<A: Allocator>(key: i64, kind: &ExprKind<A>) -> bool
    ensures { result ≡ specs.is_number key (form_view kind.now) }
{
    match kind {
        ExprKind::Number(number) => *number == key,
        ExprKind::Text(_) | ExprKind::Truth(_) | ExprKind::Variable(_) => false,
        ExprKind::Element(_, _) | ExprKind::Call(_, _) => false,
        ExprKind::Prefixed(_, _) | ExprKind::Chain(_, _) => false,
    }
}

fn is_text<A: Allocator>(key: &[u8], kind: &ExprKind<A>) -> bool
    ensures { result ≡ specs.is_text key.now (form_view kind.now) }
{
    match kind {
        ExprKind::Text(bytes) => same_text(bytes.as_slice(), key),
        ExprKind::Number(_) | ExprKind::Truth(_) | ExprKind::Variable(_) => false,
        ExprKind::Element(_, _) | ExprKind::Call(_, _) => false,
        ExprKind::Prefixed(_, _) | ExprKind::Chain(_, _) => false,
    }
}

/// Returns true for two literals that are one key.
fn same_key<A: Allocator>(key: &ExprKind<A>, other: &ExprKind<A>) -> bool
    ensures { result ≡ specs.same_key (form_view key.now) (form_view other.now) }
{
    match key {
        ExprKind::Number(number) => is_number(*number, other),
        ExprKind::Text(bytes) => is_text(bytes.as_slice(), other),
        ExprKind::Truth(_) | ExprKind::Variable(_) => false,
        ExprKind::Element(_, _) | ExprKind::Call(_, _) => false,
        ExprKind::Prefixed(_, _) | ExprKind::Chain(_, _) => false,
    }
}

fn key_is<A: Allocator>(key: &ExprKind<A>, index: &Expr<A>) -> bool
    ensures { result ≡ specs.same_key (form_view key.now) (specs.form_of (expression_view index.now)) }
{
    same_key(key, &index.kind)
}

/// Returns true if a statement of this form writes this key of the array of this name.
fn command_writes<A: Allocator>(name: &[u8], key: &ExprKind<A>, kind: &StmtKind<A>) -> bool
    ensures { result ≡ specs.command_writes name.now (form_view key.now) (command_view kind.now) }
{
    match kind {
        StmtKind::Write(array, index, _) => {
            same_text(array.text.as_slice(), name) && key_is(key, index)
        }
        StmtKind::Declare(_, _) | StmtKind::Assign(_, _) | StmtKind::AssignAll(_, _) => false,
        StmtKind::Call(_, _) | StmtKind::If(_, _, _) => false,
        StmtKind::Foreach(_, _) | StmtKind::Wait(_, _) => false,
    }
}

/// Returns true if a statement writes this key of the array of this name.
fn writes_key<A: Allocator>(name: &[u8], key: &ExprKind<A>, stmt: &Stmt<A>) -> bool
    ensures { result ≡ specs.writes_key name.now (form_view key.now) (statement_view stmt.now) }
{
    command_writes(name, key, &stmt.kind)
}

/// Returns true if one of the statements writes this key of the array of this name.
fn some_writes<A: Allocator>(name: &[u8], key: &ExprKind<A>, before: &[&Stmt<A>]) -> bool
    ensures { result ≡ specs.some_writes name.now (form_view key.now) (statements_in before.now) }
{
    for stmt in before {
        if writes_key(name, key, stmt) {
            return true;
        }
    }
    false
}

/// Appends an occurrence of the array of a write if one of the statements writes this key of it.
fn write_again<A: Allocator>(
    before: &[&Stmt<A>],
    name: &Name<A>,
    index: &Expr<A>,
    name_uses: &mut Vec<NameUse>,
) -> Result<(), AllocError>
    ensures { OnOk result (name_uses.new.items ≡ name_uses.old.items
        ++ specs.write_again (statements_in before.now) (word_of name.now) (expression_view index.now)) }
{
    if some_writes(name.text.as_slice(), &index.kind, before) {
        add(NameUseKind::KeyTwice, name, name_uses)?;
    }
    Ok(())
}

/// Appends the occurrence at a statement that writes a key that one of the other statements writes.
fn again<A: Allocator>(
    before: &[&Stmt<A>],
    stmt: &Stmt<A>,
    name_uses: &mut Vec<NameUse>,
) -> Result<(), AllocError>
    ensures { OnOk result (name_uses.new.items ≡ name_uses.old.items
        ++ specs.again (statements_in before.now) (statement_view stmt.now)) }
{
    command_again(before, &stmt.kind, name_uses)
}

fn command_again<A: Allocator>(
    before: &[&Stmt<A>],
    kind: &StmtKind<A>,
    name_uses: &mut Vec<NameUse>,
) -> Result<(), AllocError>
    ensures { OnOk result (name_uses.new.items ≡ name_uses.old.items
        ++ specs.command_again (statements_in before.now) (command_view kind.now)) }
{
    match kind {
        StmtKind::Write(name, index, _) => write_again(before, name, index, name_uses),
        StmtKind::Declare(_, _) | StmtKind::Assign(_, _) | StmtKind::AssignAll(_, _) => Ok(()),
        StmtKind::Call(_, _) | StmtKind::If(_, _, _) => Ok(()),
        StmtKind::Foreach(_, _) | StmtKind::Wait(_, _) => Ok(()),
    }
}

fn index_is_literal<A: Allocator>(index: &Expr<A>) -> bool
    ensures { result ≡ specs.is_literal (specs.form_of (expression_view index.now)) }
{
    is_literal(&index.kind)
}

fn command_is_plain<A: Allocator>(kind: &StmtKind<A>) -> bool
    ensures { result ≡ specs.command_is_plain (command_view kind.now) }
{
    match kind {
        StmtKind::Write(_, index, _) => index_is_literal(index),
        StmtKind::Declare(_, _) | StmtKind::Assign(_, _) | StmtKind::AssignAll(_, _) => false,
        StmtKind::Call(_, _) | StmtKind::If(_, _, _) => false,
        StmtKind::Foreach(_, _) | StmtKind::Wait(_, _) => false,
    }
}

/// Returns true for a statement that writes an element under a literal.
fn is_plain<A: Allocator>(stmt: &Stmt<A>) -> bool
    ensures { result ≡ specs.is_plain (statement_view stmt.now) }
{
    command_is_plain(&stmt.kind)
}

/// Keeps a statement that writes an element under a literal, unless there are 64 such statements.
fn keep<'e, A: Allocator>(
    before: &mut Vec<&'e Stmt<A>>,
    stmt: &'e Stmt<A>,
) -> Result<(), AllocError>
    ensures { OnOk result (statements_in before.new.items
        ≡ specs.kept (statements_in before.old.items) (statement_view stmt.now)) }
{
    if before.len() <= MAX_EARLIER_WRITES && is_plain(stmt) {
        before.push(stmt)?;
    }
    Ok(())
}

/// Appends the occurrences in a list of statements.
pub fn list_repeats<A: Allocator>(
    alloc: Global,
    statements: &Vec<Stmt<A>, A>,
    name_uses: &mut Vec<NameUse>,
) -> Result<(), AllocError>
    ensures { OnOk result (name_uses.new.items ≡ name_uses.old.items
        ++ specs.repeats [] (statements_of (map statement_view statements.now.items))) }
{
    let mut before = Vec::new(alloc);
    for stmt in statements {
        again(before.as_slice(), stmt, name_uses)?;
        keep(&mut before, stmt)?;
    }
    Ok(())
}

fn part_again<A: Allocator>(
    before: &[&Stmt<A>],
    item: &Item<A>,
    name_uses: &mut Vec<NameUse>,
) -> Result<(), AllocError>
    ensures { OnOk result (name_uses.new.items ≡ name_uses.old.items
        ++ specs.part_again (statements_in before.now) (part_of item.now)) }
{
    match item {
        Item::Import(_) | Item::Function(_) => Ok(()),
        Item::Statement(one) => again(before, one, name_uses),
    }
}

fn part_keep<'e, A: Allocator>(
    before: &mut Vec<&'e Stmt<A>>,
    item: &'e Item<A>,
) -> Result<(), AllocError>
    ensures { OnOk result (statements_in before.new.items
        ≡ specs.part_kept (statements_in before.old.items) (part_of item.now)) }
{
    match item {
        Item::Import(_) | Item::Function(_) => Ok(()),
        Item::Statement(one) => keep(before, one),
    }
}

/// Collects the occurrences in the statements outside of all functions.
pub fn tree_repeats<A: Allocator>(
    alloc: Global,
    script: &Script<A>,
) -> Result<Vec<NameUse>, AllocError>
    ensures { IfOk result (λ name_uses. name_uses.items ≡ specs.tree_repeats [] (tree_of script.now)) }
{
    let mut name_uses = Vec::new(alloc);
    let mut before = Vec::new(alloc);
    for item in &script.items {
        part_again(before.as_slice(), item, &mut name_uses)?;
        part_keep(&mut before, item)?;
    }
    Ok(name_uses)
}
