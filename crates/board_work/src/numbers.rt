//! Evaluation of integer expressions without intermediate values.
//!
//! Sums, products and comparisons of numbers are computed in one walk. Any other expression, and any fault, yields
//! `None`; the general evaluation then starts again.
ghost use Rattle.std.specs.Prelude.{◌≡◌, ◌∷◌, [], Ok, IfSome, Some};
ghost use Rattle.dataflow.specs.System.{Found};
ghost use Rattle.task_code.specs.Compute.{answer_at, eval, evals};
ghost use Rattle.task_code.specs.View.{expr_view, exprs_view, operation_view};
ghost use Rattle.values.specs.Operators.{added, all_values, applied, evaluated, scaled};
ghost use Rattle.values.specs.declared.value.Scalar.TheVariants.{Number};
ghost use Rattle.values.specs.declared.value.Value.TheVariants.{One};
ghost use Rattle.board_work.specs.Chains.{chain_from};
ghost use Rattle.board_work.specs.View.{answers_view};

use crate::answer::{Answer, answer_to};
use task_code::expr::{Expr, Operator};
use values::op::{Factor, Sign};
use values::value::{Scalar, Value};

/// Returns the number that answers the need at this index, or `None` if the answer is not a number.
fn number_at(answers: &[Answer], place: u32) -> Option<i64>
    ensures { IfSome result (λ n. answer_at (answers_view answers.now) place ≡ Some (Found (Number n))) }
{
    match answer_to(answers, place) {
        Some(Answer::Found(Scalar::Number(number))) => Some(*number),
        _ => None,
    }
}

/// Returns the number of an expression made of numbers, sums and products. Returns `None` for any other expression, and
/// on a fault.
#[cycle(number)]
fn number_of(expr: &Expr, answers: &[Answer]) -> Option<i64>
    ensures { IfSome result (λ n. eval (answers_view answers.now) (expr_view expr.now) ≡ Ok (One (Number n))) }
{
    match expr {
        Expr::Constant(Scalar::Number(number)) => Some(*number),
        Expr::Constant(_) => None,
        Expr::Need(place) => number_at(answers, *place),
        Expr::Operation(operator, operands) => match operands.as_slice() {
            [first, rest @ ..] => match operator {
                Operator::Sum(signs) => {
                    let start = number_of(first, answers)?;
                    sum_from(start, signs.as_slice(), rest, answers)
                }
                Operator::Product(factors) => {
                    let start = number_of(first, answers)?;
                    product_from(start, factors.as_slice(), rest, answers)
                }
                _ => None,
            },
            [] => None,
        },
    }
}

/// Returns the sum of `start` and the remaining operands. Returns `None` if an operand is not a number, on a fault, or
/// if signs are missing.
#[cycle(number)]
fn sum_from(start: i64, signs: &[Sign], rest: &[Expr], answers: &[Answer]) -> Option<i64>
    ensures { IfSome result (λ n. chain_from added start signs.now (all_values (evals (answers_view answers.now) (exprs_view rest.now))) ≡ Ok n) }
{
    if rest.len() > signs.len() {
        return None;
    }
    let mut total = start;
    for place in 0..rest.len() {
        let next = number_of(&rest[place], answers)?;
        total = signs[place].applied_to(total, next).ok()?;
    }
    Some(total)
}

/// Returns the product of `start` and the remaining operands. Returns `None` if an operand is not a number, on a fault,
/// or if factors are missing.
#[cycle(number)]
fn product_from(start: i64, factors: &[Factor], rest: &[Expr], answers: &[Answer]) -> Option<i64>
    ensures { IfSome result (λ n. chain_from scaled start factors.now (all_values (evals (answers_view answers.now) (exprs_view rest.now))) ≡ Ok n) }
{
    if rest.len() > factors.len() {
        return None;
    }
    let mut total = start;
    for place in 0..rest.len() {
        let next = number_of(&rest[place], answers)?;
        total = factors[place].applied_to(total, next).ok()?;
    }
    Some(total)
}

/// Returns the result of a comparison of two numbers, or `None` if the operator is not a comparison.
fn compared(operator: &Operator, x: i64, y: i64) -> Option<Value>
    ensures { IfSome result (λ v. applied (operation_view operator.now) (One (Number x) ∷ One (Number y) ∷ []) ≡ Ok v) }
{
    match operator {
        Operator::Compare(order) => Some(Value::from_truth(order.holds(x, y))),
        Operator::Equal => Some(Value::from_truth(x == y)),
        Operator::Unequal => Some(Value::from_truth(x != y)),
        _ => None,
    }
}

/// Returns the value of a comparison of two expressions that evaluate to numbers. Returns `None` for any other operator
/// or operands, and on a fault.
fn value_of_comparison(operator: &Operator, operands: &[Expr], answers: &[Answer]) -> Option<Value>
    ensures { IfSome result (λ v. evaluated (operation_view operator.now) (evals (answers_view answers.now) (exprs_view operands.now)) ≡ Ok v) }
{
    match operands {
        [one, other] => {
            let x = number_of(one, answers)?;
            let y = number_of(other, answers)?;
            compared(operator, x, y)
        }
        _ => None,
    }
}

/// Returns the value of a numeric expression of sums and products, or of a comparison of two such expressions. Returns
/// `None` for any other expression, and on a fault.
#[inline(always)]
pub(crate) fn value_of_numbers(expr: &Expr, answers: &[Answer]) -> Option<Value>
    ensures { IfSome result (λ v. eval (answers_view answers.now) (expr_view expr.now) ≡ Ok v) }
{
    match expr {
        Expr::Operation(operator, operands) => match operator {
            Operator::Sum(_) => Some(Value::from_number(number_of(expr, answers)?)),
            Operator::Product(_) => Some(Value::from_number(number_of(expr, answers)?)),
            _ => value_of_comparison(operator, operands.as_slice(), answers),
        },
        _ => Some(Value::from_number(number_of(expr, answers)?)),
    }
}
