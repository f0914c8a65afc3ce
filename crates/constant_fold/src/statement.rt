//! Folding of statements and nested blocks.
ghost use Rattle.std.specs.Prelude.{◌≡◌, OnOk, map, option_map};
ghost use Rattle.syntax_trees.specs.View.{body_view, calling_of, command_view, over_of, right_of, statement_view};
ghost use Rattle.constant_fold.specs.Folded.{folded_body, folded_calling, folded_command, folded_over, folded_right, folded_statement};

use crate::expression::{each, expression};
use std::alloc::{AllocError, Allocator, Global};
use syntax_trees::tree::{Block, Call, Right, Source, Stmt, StmtKind};

/// Folds a right side.
fn right<A: Allocator + Clone>(
    machine: Global,
    alloc: &A,
    right: &mut Right<A>,
) -> Result<(), AllocError>
    ensures { OnOk result (right_of right.new ≡ folded_right (right_of right.old)) }
{
    match right {
        Right::Value(value) => {
            expression(machine, alloc, value)?;
            Ok(())
        }
        Right::List(list) => {
            each(machine, alloc, &mut list.elements)?;
            Ok(())
        }
    }
}

/// Folds the arguments of a call.
fn arguments<A: Allocator + Clone>(
    machine: Global,
    alloc: &A,
    call: &mut Call<A>,
) -> Result<(), AllocError>
    ensures { OnOk result (calling_of call.new ≡ folded_calling (calling_of call.old)) }
{
    each(machine, alloc, &mut call.arguments)?;
    Ok(())
}

/// Folds the bounds and the step of a loop's range. An array stays as it is.
fn source<A: Allocator + Clone>(
    machine: Global,
    alloc: &A,
    source: &mut Source<A>,
) -> Result<(), AllocError>
    ensures { OnOk result (over_of source.new ≡ folded_over (over_of source.old)) }
{
    match source {
        Source::Array(_) => Ok(()),
        Source::Range(range) => {
            expression(machine, alloc, &mut range.low)?;
            expression(machine, alloc, &mut range.high)?;
            if let Some(step) = &mut range.step {
                expression(machine, alloc, step)?;
            }
            Ok(())
        }
    }
}

/// Folds the statements of a block.
#[cycle(folded)]
pub fn block<A: Allocator + Clone>(
    machine: Global,
    alloc: &A,
    block: &mut Block<A>,
) -> Result<(), AllocError>
    ensures { OnOk result (body_view block.new ≡ folded_body (body_view block.old)) }
{
    statements(machine, alloc, &mut block.statements)?;
    Ok(())
}

/// Folds statements.
#[cycle(folded)]
fn statements<A: Allocator + Clone>(
    machine: Global,
    alloc: &A,
    statements: &mut Vec<Stmt<A>, A>,
) -> Result<(), AllocError>
    ensures { OnOk result (map statement_view statements.new.items ≡ map folded_statement (map statement_view statements.old.items)) }
{
    for i in 0..statements.len() {
        let one = &mut statements[i];
        command(machine, alloc, &mut one.kind)?;
    }
    Ok(())
}

/// Folds a statement.
pub fn statement<A: Allocator + Clone>(
    machine: Global,
    alloc: &A,
    statement: &mut Stmt<A>,
) -> Result<(), AllocError>
    ensures { OnOk result (statement_view statement.new ≡ folded_statement (statement_view statement.old)) }
{
    command(machine, alloc, &mut statement.kind)?;
    Ok(())
}

/// Folds the expressions and nested blocks of a form of statement.
#[cycle(folded)]
fn command<A: Allocator + Clone>(
    machine: Global,
    alloc: &A,
    kind: &mut StmtKind<A>,
) -> Result<(), AllocError>
    ensures { OnOk result (command_view kind.new ≡ folded_command (command_view kind.old)) }
{
    match kind {
        StmtKind::Declare(_, None) => Ok(()),
        StmtKind::Declare(_, Some(value)) => right(machine, alloc, value),
        StmtKind::Assign(_, value) => right(machine, alloc, value),
        StmtKind::Write(_, index, value) => {
            expression(machine, alloc, index)?;
            expression(machine, alloc, value)
        }
        StmtKind::AssignAll(_, call) => arguments(machine, alloc, call),
        StmtKind::Call(_, call) => arguments(machine, alloc, call),
        StmtKind::If(condition, then, other) => {
            expression(machine, alloc, condition)?;
            block(machine, alloc, then)?;
            match other {
                None => Ok(()),
                Some(other) => block(machine, alloc, other),
            }
        }
        StmtKind::Foreach(header, body) => {
            source(machine, alloc, &mut header.source)?;
            block(machine, alloc, body)
        }
        StmtKind::Wait(_, body) => block(machine, alloc, body),
    }
}
