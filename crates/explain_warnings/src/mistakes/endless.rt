//! Calls by which each call of a function calls the function again, so that no call ends.
ghost use Rattle.std.specs.Prelude.{◌≡◌, ◌++◌, OnOk, IfOk, map};
ghost use Rattle.syntax_trees.specs.View.{statement_view, command_view, body_view};
ghost use Rattle.language.specs.Tree.{statements_of};
ghost use Rattle.types.specs.Typed.{table_of};
ghost use Rattle.explain_warnings.specs.Endless as specs;

use crate::name_use::NameUse;
use crate::occurrences::name_uses::{assignment, call, declaration, several, source, write};
use crate::occurrences::reads::read;
use crate::sets::calls::{called_function, is_number};
use lexer::token::Span;
use std::alloc::{AllocError, Allocator, Global};
use syntax_trees::tree::{Block, Stmt, StmtKind};
use types::typed::Typed;

/// Appends the occurrences in what each call of a function computes of a statement in it.
#[cycle(certain)]
fn certain<A: Allocator>(stmt: &Stmt<A>, name_uses: &mut Vec<NameUse>) -> Result<(), AllocError>
    ensures { OnOk result (name_uses.new.items ≡ name_uses.old.items ++ specs.certain (statement_view stmt.now)) }
{
    command_certain(&stmt.kind, name_uses)
}

#[cycle(certain)]
fn command_certain<A: Allocator>(
    kind: &StmtKind<A>,
    name_uses: &mut Vec<NameUse>,
) -> Result<(), AllocError>
    ensures { OnOk result (name_uses.new.items ≡ name_uses.old.items ++ specs.command_certain (command_view kind.now)) }
{
    match kind {
        StmtKind::Declare(decl, right) => declaration(decl, right, name_uses),
        StmtKind::Assign(name, right) => assignment(name, right, name_uses),
        StmtKind::Write(name, index, value) => write(name, index, value, name_uses),
        StmtKind::AssignAll(names, call) => several(names, call, name_uses),
        StmtKind::Call(_, one) => call(one, name_uses),
        StmtKind::If(test, _, _) => read(test, name_uses),
        StmtKind::Foreach(header, _) => source(&header.source, name_uses),
        StmtKind::Wait(_, body) => block_certain(body, name_uses),
    }
}

/// Appends the occurrences in what each call of a function computes of a block in it.
#[cycle(certain)]
fn block_certain<A: Allocator>(
    body: &Block<A>,
    name_uses: &mut Vec<NameUse>,
) -> Result<(), AllocError>
    ensures { OnOk result (name_uses.new.items ≡ name_uses.old.items ++ specs.body_certain (body_view body.now)) }
{
    each_certain(&body.statements, name_uses)
}

#[cycle(certain)]
fn each_certain<A: Allocator>(
    statements: &Vec<Stmt<A>, A>,
    name_uses: &mut Vec<NameUse>,
) -> Result<(), AllocError>
    ensures { OnOk result (name_uses.new.items ≡ name_uses.old.items ++ specs.all_certain (statements_of (map statement_view statements.now.items))) }
{
    for stmt in statements {
        certain(stmt, name_uses)?;
    }
    Ok(())
}

/// Returns the place of the first of the occurrences that calls the function at a position, or `None`.
fn first_call(typed: &Typed, position: usize, name_uses: &[NameUse]) -> Option<Span>
    ensures { result ≡ specs.first_call (table_of typed.now) position name_uses.now }
{
    for name_use in name_uses {
        if is_number(position, called_function(typed, *name_use)) {
            return Some(name_use.at);
        }
    }
    None
}

/// Returns the place of the first call by which each call of a function calls it again, or `None`. `position`: the
/// number of functions before it.
pub fn own_call<A: Allocator>(
    alloc: Global,
    typed: &Typed,
    position: usize,
    body: &Block<A>,
) -> Result<Option<Span>, AllocError>
    ensures { IfOk result (λ at. at ≡ specs.own_call (table_of typed.now) position (body_view body.now)) }
{
    let mut name_uses = Vec::new(alloc);
    block_certain(body, &mut name_uses)?;
    Ok(first_call(typed, position, name_uses.as_slice()))
}
