//! Evaluation of expressions over the answers to an entry's needs.
//!
//! Operands are evaluated in reading order, and the first fault is the fault of the expression: every operator is
//! strict. See the Swift/T Guide, on expressions.
ghost use Rattle.std.specs.Prelude.{◌≡◌, ◌≢◌, Ok, Err, IfOk, IfErr, OnOk};
ghost use Rattle.values.specs.Op.{operation_of};
ghost use Rattle.values.specs.Operators.{all_values, evaluated, literal};
ghost use Rattle.task_code.specs.Compute.{eval, evals};
ghost use Rattle.task_code.specs.View.{expr_view, exprs_view};
ghost use Rattle.board_work.specs.View.{answers_view};
ghost use Rattle.board_work.specs.Outcome.{in_front};

use crate::answer::{Answer, value_at};
use crate::numbers::value_of_numbers;
use std::alloc::{AllocError, Global};
use task_code::expr::Expr;
use values::fault::OpFault;
use values::op::Op;
use values::value::Value;

/// Returns the value of an expression, or its first fault in reading order.
///
/// # Errors
///
/// Returns `AllocError` if an allocation fails.
pub fn evaluate(
    alloc: Global,
    expr: &Expr,
    answers: &[Answer],
) -> Result<Result<Value, OpFault>, AllocError>
    ensures { IfOk result (λ outcome. outcome ≡ eval (answers_view answers.now) (expr_view expr.now)) }
{
    if let Some(value) = value_of_numbers(expr, answers) {
        return Ok(Ok(value));
    }
    apart_from_memory(value_of(alloc, expr, answers))
}

/// Returns the array of the values of these expressions, under the keys from 0 on, or their first fault.
///
/// # Errors
///
/// Returns `AllocError` if an allocation fails.
pub fn evaluate_literal(
    alloc: Global,
    exprs: &Vec<Expr>,
    answers: &[Answer],
) -> Result<Result<Value, OpFault>, AllocError>
    ensures { IfOk result (λ outcome. outcome ≡ evaluated literal (evals (answers_view answers.now) (exprs_view exprs.now.items))) }
{
    apart_from_memory(operate(alloc, &Op::Literal, exprs, answers))
}

/// Separates an allocation failure from the faults of a script.
fn apart_from_memory(outcome: Result<Value, OpFault>) -> Result<Result<Value, OpFault>, AllocError>
    ensures ok { IfOk result (λ same. (same ≡ outcome) × (outcome ≢ Err OpFault.Memory)) }
{
    match outcome {
        Ok(value) => Ok(Ok(value)),
        Err(OpFault::Memory) => Err(AllocError),
        Err(OpFault::Overflow) => Ok(Err(OpFault::Overflow)),
        Err(OpFault::DivideByZero) => Ok(Err(OpFault::DivideByZero)),
        Err(OpFault::BadStep) => Ok(Err(OpFault::BadStep)),
        Err(OpFault::NotANumber) => Ok(Err(OpFault::NotANumber)),
        Err(OpFault::AssertFailed) => Ok(Err(OpFault::AssertFailed)),
    }
}

/// Returns the value of an expression, or its first fault. The fault `Memory` reports an allocation failure.
#[cycle(value)]
fn value_of(alloc: Global, expr: &Expr, answers: &[Answer]) -> Result<Value, OpFault>
    ensures value { IfOk result (λ value. eval (answers_view answers.now) (expr_view expr.now) ≡ Ok value) }
    ensures fault { IfErr result (λ fault. fault ≢ OpFault.Memory → eval (answers_view answers.now) (expr_view expr.now) ≡ Err fault) }
{
    match expr {
        Expr::Constant(scalar) => Ok(Value::One(scalar.share()?)),
        Expr::Need(place) => Ok(value_at(answers, *place)?),
        Expr::Operation(operator, operands) => {
            operate(alloc, &operator.to_op(), operands, answers)
        }
    }
}

/// Returns the result of an operator for its operands. The values of one or two operands are kept without allocation.
#[cycle(value)]
fn operate(
    alloc: Global,
    op: &Op<'_>,
    operands: &Vec<Expr>,
    answers: &[Answer],
) -> Result<Value, OpFault>
    ensures value { IfOk result (λ value. evaluated (operation_of op.now) (evals (answers_view answers.now) (exprs_view operands.now.items)) ≡ Ok value) }
    ensures fault { IfErr result (λ fault. fault ≢ OpFault.Memory
        → evaluated (operation_of op.now) (evals (answers_view answers.now) (exprs_view operands.now.items)) ≡ Err fault) }
{
    match operands.as_slice() {
        [one] => {
            let one = value_of(alloc, one, answers)?;
            op.apply(alloc, &[one])
        }
        [one, other] => {
            let one = value_of(alloc, one, answers)?;
            let other = value_of(alloc, other, answers)?;
            op.apply(alloc, &[one, other])
        }
        _ => {
            let mut values = Vec::with_capacity(alloc, operands.len())?;
            append_values(alloc, &mut values, operands, answers)?;
            op.apply(alloc, &values)
        }
    }
}

/// Appends the values of expressions, up to the first fault.
#[cycle(value)]
fn append_values(
    alloc: Global,
    values: &mut Vec<Value>,
    exprs: &Vec<Expr>,
    answers: &[Answer],
) -> Result<(), OpFault>
    ensures value { OnOk result (in_front values.old.items (all_values (evals (answers_view answers.now) (exprs_view exprs.now.items))) ≡ Ok values.new.items) }
    ensures fault { IfErr result (λ fault. fault ≢ OpFault.Memory
        → in_front values.old.items (all_values (evals (answers_view answers.now) (exprs_view exprs.now.items))) ≡ Err fault) }
{
    for expr in exprs {
        values.push(value_of(alloc, expr, answers)?)?;
    }
    Ok(())
}
