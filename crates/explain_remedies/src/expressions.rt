//! Values of expressions over the known facts of a script.

use flow::cell::CellForm;
use flow::expression::{Expr, Operation};
use flow::name::Name;
use meaning_facts::evaluation::CellResult;
use meaning_facts::fact_base::FactBase;
use std::alloc::{AllocError, Allocator, Global};

/// Returns the value or the fault of an expression in an instance, or `None` if neither is known.
///
/// # Errors
///
/// Returns `AllocError` if an allocation fails.
pub fn value_of<A: Allocator>(
    fact_base: &FactBase,
    alloc: Global,
    instance: usize,
    expr: &Expr<A>,
) -> Result<Option<CellResult>, AllocError> {
    let form = CellForm::Compute(copied(alloc, expr, 0)?);
    fact_base.outcome(alloc, instance, &form)
}

/// Returns the value or the fault of an expression in a block that is nested `depth` levels inside of the block of an
/// instance and need not be open.
///
/// Returns `None` if neither is known, or if the expression refers to a variable or a cell of the nested blocks.
///
/// # Errors
///
/// Returns `AllocError` if an allocation fails.
pub fn value_within<A: Allocator>(
    fact_base: &FactBase,
    alloc: Global,
    instance: usize,
    depth: usize,
    expr: &Expr<A>,
) -> Result<Option<CellResult>, AllocError> {
    if !is_from_outside(expr, depth) {
        return Ok(None);
    }
    let form = CellForm::Compute(copied(alloc, expr, depth)?);
    fact_base.outcome(alloc, instance, &form)
}

/// Returns true if all names of an expression refer to blocks at least `depth` levels further out.
#[cycle(outside)]
fn is_from_outside<A: Allocator>(expr: &Expr<A>, depth: usize) -> bool {
    match expr {
        Expr::Number(_) | Expr::Text(_) | Expr::Truth(_) => true,
        Expr::Name(name) => name.up >= depth,
        Expr::Whole(name) => name.up >= depth,
        Expr::Operation(_, operands) => are_from_outside(operands, depth),
    }
}

#[cycle(outside)]
fn are_from_outside<A: Allocator>(exprs: &Vec<Expr<A>, A>, depth: usize) -> bool {
    for expr in exprs {
        if !is_from_outside(expr, depth) {
            return false;
        }
    }
    true
}

/// Returns a name as a block `depth` levels further out refers to it.
fn seen_from(name: Name, depth: usize) -> Name {
    Name {
        up: name.up.saturating_sub(depth),
        what: name.what,
        shape: name.shape,
    }
}

/// Returns a copy of an expression in the memory of `alloc`, with its names as a block `depth` levels further out refers
/// to them.
#[cycle(copy)]
fn copied<A: Allocator>(
    alloc: Global,
    expr: &Expr<A>,
    depth: usize,
) -> Result<Expr<Global>, AllocError> {
    match expr {
        Expr::Number(number) => Ok(Expr::Number(*number)),
        Expr::Text(bytes) => Ok(Expr::Text(Vec::from_slice(alloc, bytes.as_slice())?)),
        Expr::Truth(truth) => Ok(Expr::Truth(*truth)),
        Expr::Name(name) => Ok(Expr::Name(seen_from(*name, depth))),
        Expr::Whole(name) => Ok(Expr::Whole(seen_from(*name, depth))),
        Expr::Operation(operation, operands) => {
            let operation = same_operation(alloc, operation)?;
            let mut copies = Vec::new(alloc);
            add_copies(alloc, &mut copies, operands, depth)?;
            Ok(Expr::Operation(operation, copies))
        }
    }
}

#[cycle(copy)]
fn add_copies<A: Allocator>(
    alloc: Global,
    copies: &mut Vec<Expr<Global>>,
    exprs: &Vec<Expr<A>, A>,
    depth: usize,
) -> Result<(), AllocError> {
    for expr in exprs {
        copies.push(copied(alloc, expr, depth)?)?;
    }
    Ok(())
}

fn same_operation<A: Allocator>(
    alloc: Global,
    operation: &Operation<A>,
) -> Result<Operation<Global>, AllocError> {
    match operation {
        Operation::Sum(signs) => Ok(Operation::Sum(Vec::from_slice(alloc, signs.as_slice())?)),
        Operation::Product(factors) => {
            Ok(Operation::Product(Vec::from_slice(alloc, factors.as_slice())?))
        }
        Operation::Compare(order) => Ok(Operation::Compare(*order)),
        Operation::Equal => Ok(Operation::Equal),
        Operation::Unequal => Ok(Operation::Unequal),
        Operation::And => Ok(Operation::And),
        Operation::Or => Ok(Operation::Or),
        Operation::Not => Ok(Operation::Not),
        Operation::Negate => Ok(Operation::Negate),
        Operation::Join => Ok(Operation::Join),
        Operation::FromInt => Ok(Operation::FromInt),
        Operation::ToInt => Ok(Operation::ToInt),
        Operation::Size => Ok(Operation::Size),
        Operation::Printf(format) => {
            Ok(Operation::Printf(Vec::from_slice(alloc, format.as_slice())?))
        }
        Operation::Assert => Ok(Operation::Assert),
        Operation::Literal => Ok(Operation::Literal),
    }
}
