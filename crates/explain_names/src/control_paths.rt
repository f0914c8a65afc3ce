//! Tests whether the control paths through a block assign a variable, by its name.
//!
//! With `each`, the tests are for every control path, otherwise for some control path. A loop assigns nothing here.
ghost use Rattle.std.specs.Prelude.{◌≡◌, map, option_map};
ghost use Rattle.syntax_trees.specs.View.{body_view, command_view, declaration_of, right_of, statement_view, words_view};
ghost use Rattle.language.specs.Tree as trees;
ghost use Rattle.explain_names.specs.Ways as specs;

use std::alloc::Allocator;
use syntax_trees::tree::{Block, Decl, Name, Right, Stmt, StmtKind};

/// Returns true if every control path through a branch (with `each`) or some control path assigns a name. A missing
/// branch assigns nothing.
pub fn in_branch<A: Allocator>(each: bool, name: &[u8], branch: &Option<Box<Block<A>, A>>) -> bool
    ensures { result ≡ specs.branch_assigns each name.now (option_map (λ b. body_view b.value) branch.now) }
{
    match branch {
        None => false,
        Some(block) => in_block(each, name, block),
    }
}

fn in_declaration<A: Allocator>(name: &[u8], decl: &Decl<A>, right: &Option<Right<A>>) -> bool
    ensures { result ≡ specs.declaration_assigns name.now (declaration_of decl.now) (option_map right_of right.now) }
{
    match right {
        None => false,
        Some(_) => decl.name.text.as_slice() == name,
    }
}

/// Returns true if a name is among the assigned names.
fn is_among<A: Allocator>(name: &[u8], targets: &Vec<Name<A>, A>) -> bool
    ensures { result ≡ specs.is_among name.now (words_view targets.now) }
{
    for target in targets {
        if target.text.as_slice() == name {
            return true;
        }
    }
    false
}

/// Combines the results of two branches: both of them with `each`, otherwise at least one.
fn both_or_one(each: bool, one: bool, other: bool) -> bool
    ensures { result ≡ specs.both_or_one each one other }
{
    if each { one && other } else { one || other }
}

/// Returns true if every control path through a statement (with `each`) or some control path assigns a name.
#[cycle(stmt)]
fn in_statement<A: Allocator>(each: bool, name: &[u8], stmt: &Stmt<A>) -> bool
    ensures { result ≡ specs.assigns_in each name.now (statement_view stmt.now) }
{
    in_command(each, name, &stmt.kind)
}

/// Returns true if every control path through a form of statement (with `each`) or some control path assigns a name.
#[cycle(stmt)]
fn in_command<A: Allocator>(each: bool, name: &[u8], kind: &StmtKind<A>) -> bool
    ensures { result ≡ specs.command_assigns each name.now (command_view kind.now) }
{
    match kind {
        StmtKind::Declare(decl, right) => in_declaration(name, decl, right),
        StmtKind::Assign(target, _) => target.text.as_slice() == name,
        StmtKind::Write(_, _, _) => false,
        StmtKind::AssignAll(targets, _) => is_among(name, targets),
        StmtKind::Call(_, _) => false,
        StmtKind::If(_, then, other) => {
            let one = in_block(each, name, then);
            match other {
                None => both_or_one(each, one, false),
                Some(other) => both_or_one(each, one, in_block(each, name, other)),
            }
        }
        StmtKind::Foreach(_, _) => false,
        StmtKind::Wait(_, body) => in_block(each, name, body),
    }
}

/// Returns true if every control path through a block (with `each`) or some control path assigns a name.
#[cycle(stmt)]
pub fn in_block<A: Allocator>(each: bool, name: &[u8], block: &Block<A>) -> bool
    ensures { result ≡ specs.body_assigns each name.now (body_view block.now) }
{
    in_any(each, name, &block.statements)
}

/// Returns true if one of these consecutive statements assigns a name on every control path (with `each`) or on some.
#[cycle(stmt)]
fn in_any<A: Allocator>(each: bool, name: &[u8], statements: &Vec<Stmt<A>, A>) -> bool
    ensures { result ≡ specs.any_assigns each name.now (trees.statements_of (map statement_view statements.now.items)) }
{
    for stmt in statements {
        if in_statement(each, name, stmt) {
            return true;
        }
    }
    false
}
