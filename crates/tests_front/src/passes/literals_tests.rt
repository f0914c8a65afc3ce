//! Literals, and the values of operations on them.

use constant_fold::literal_values::{outcome, scalar};
use lexer::token::Span;
use std::alloc::{AllocError, Global};
use syntax_trees::expr;
use syntax_trees::tree::{Expr, ExprKind};
use values::fault::OpFault;
use values::op::{Op, Sign};
use values::value::{Scalar, Value};

/// A number.
fn number(value: i64) -> Expr<Global> {
    expr(Span { from: 0, to: 1 }, 1, ExprKind::Number(value))
}

/// Two numbers as operands.
fn two(alloc: Global, one: i64, other: i64) -> Result<Vec<Result<Value, OpFault>>, AllocError> {
    let mut operands = Vec::with_capacity(alloc, 2)?;
    operands.push(Ok(Value::One(Scalar::Number(one))))?;
    operands.push(Ok(Value::One(Scalar::Number(other))))?;
    Ok(operands)
}

#[test]
fn a_number_is_its_scalar(rt: HostRuntime) {
    let found = scalar(rt.alloc(), &number(4)).expect(&rt, "memory");
    assert!(rt; matches!(found, Some(Scalar::Number(4))));
}

#[test]
fn a_sum_of_literals_is_a_literal(rt: HostRuntime) {
    let alloc = rt.alloc();
    let operands = two(alloc, 2, 3).expect(&rt, "memory");
    let found = outcome(alloc, &alloc, Op::Sum(&[Sign::Plus]), operands).expect(&rt, "memory");
    assert!(rt; matches!(found, Some(ExprKind::Number(5))));
}
