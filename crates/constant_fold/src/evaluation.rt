//! Evaluation of operations on literals.
ghost use Rattle.std.specs.Prelude.{◌≡◌, ◌∷◌, [], IfOk, map, option_map};
ghost use Rattle.values.specs.Op.{operation_of};
ghost use Rattle.language.specs.Resolved as rules;
ghost use Rattle.language.specs.Tree.{Form, expressions_of};
ghost use Rattle.syntax_trees.specs.View.{expression_view, form_view};
ghost use Rattle.values.specs.Operators.{evaluated, product_of, sum_of};
ghost use Rattle.constant_fold.specs.Folded.{collapsed, scalars_of, called, called_operation};
ghost use Rattle.constant_fold.specs.Literals.{literal_of, literal_or, scalar_of, in_place};
ghost use Rattle.constant_fold.specs.Made.{operands};

use crate::literal_values::{outcome, scalar};
use std::alloc::{AllocError, Allocator, Global};
use syntax_trees::tree::{Expr, ExprKind, Operator, Prefix};
use values::fault::OpFault;
use values::op::{Factor, Op, Order, Sign};
use values::text::Text;
use values::value::{Scalar, Value};

/// Returns the scalars of the expressions as operands, or `None` if one of them is not a literal.
fn scalars<A: Allocator>(
    machine: Global,
    exprs: &[Expr<A>],
) -> Result<Option<Vec<Result<Value, OpFault>>>, AllocError>
    ensures { IfOk result (λ found. option_map (λ v. v.items) found ≡ option_map operands (scalars_of (expressions_of (map expression_view exprs.now)))) }
{
    let mut found = Vec::with_capacity(machine, exprs.len())?;
    for expr in exprs {
        match scalar(machine, expr)? {
            None => return Ok(None),
            Some(value) => found.push(Ok(Value::One(value)))?,
        }
    }
    Ok(Some(found))
}

/// Returns the literal result of an operation. Returns `None` if an operand is not a literal, or if the operation has a
/// fault or no scalar result.
fn worked_out<A: Allocator + Clone>(
    machine: Global,
    alloc: &A,
    op: Op<'_>,
    exprs: &[Expr<A>],
) -> Result<Option<ExprKind<A>>, AllocError>
    ensures { IfOk result (λ found. (f : Form) → in_place f found
        ≡ collapsed (operation_of op.entry) (scalars_of (expressions_of (map expression_view exprs.now))) f) }
{
    match scalars(machine, exprs)? {
        None => Ok(None),
        Some(operands) => outcome(machine, alloc, op, operands),
    }
}

/// Converts an operator of a sum into its sign.
fn sign_of(operator: Operator) -> Sign
    ensures { rules.signs (operator ∷ []) ≡ result ∷ [] }
{
    match operator {
        Operator::Minus => Sign::Minus,
        _ => Sign::Plus,
    }
}

/// Converts an operator of a product into its factor.
fn factor_of(operator: Operator) -> Factor
    ensures { rules.factors (operator ∷ []) ≡ result ∷ [] }
{
    match operator {
        Operator::Quotient => Factor::Divide,
        Operator::Remainder => Factor::Remainder,
        _ => Factor::Times,
    }
}

/// Converts the operators of a sum into signs.
fn signs(machine: Global, operators: &[Operator]) -> Result<Vec<Sign>, AllocError>
    ensures { IfOk result (λ found. found.items ≡ rules.signs operators.now) }
{
    let mut found = Vec::with_capacity(machine, operators.len())?;
    for operator in operators {
        found.push(sign_of(*operator))?;
    }
    Ok(found)
}

/// Converts the operators of a product into factors.
fn factors(machine: Global, operators: &[Operator]) -> Result<Vec<Factor>, AllocError>
    ensures { IfOk result (λ found. found.items ≡ rules.factors operators.now) }
{
    let mut found = Vec::with_capacity(machine, operators.len())?;
    for operator in operators {
        found.push(factor_of(*operator))?;
    }
    Ok(found)
}

/// Returns the literal result of a sum, or `None` if an operand is not a literal or the sum has a fault.
fn sum<A: Allocator + Clone>(
    machine: Global,
    alloc: &A,
    operators: &[Operator],
    exprs: &[Expr<A>],
) -> Result<Option<ExprKind<A>>, AllocError>
    ensures { IfOk result (λ found. (f : Form) → in_place f found
        ≡ collapsed (sum_of (rules.signs operators.now)) (scalars_of (expressions_of (map expression_view exprs.now))) f) }
{
    let found = signs(machine, operators)?;
    worked_out(machine, alloc, Op::Sum(found.as_slice()), exprs)
}

/// Returns the literal result of a product, or `None` if an operand is not a literal or the product has a fault.
fn product<A: Allocator + Clone>(
    machine: Global,
    alloc: &A,
    operators: &[Operator],
    exprs: &[Expr<A>],
) -> Result<Option<ExprKind<A>>, AllocError>
    ensures { IfOk result (λ found. (f : Form) → in_place f found
        ≡ collapsed (product_of (rules.factors operators.now)) (scalars_of (expressions_of (map expression_view exprs.now))) f) }
{
    let found = factors(machine, operators)?;
    worked_out(machine, alloc, Op::Product(found.as_slice()), exprs)
}

/// Returns the literal result of a chain, or `None` if an operand is not a literal or the chain has a fault.
pub fn chain<A: Allocator + Clone>(
    machine: Global,
    alloc: &A,
    operators: &[Operator],
    exprs: &[Expr<A>],
) -> Result<Option<ExprKind<A>>, AllocError>
    ensures { IfOk result (λ found. (f : Form) → in_place f found
        ≡ collapsed (rules.chain_operation operators.now) (scalars_of (expressions_of (map expression_view exprs.now))) f) }
{
    if operators.is_empty() {
        return sum(machine, alloc, operators, exprs);
    }
    match operators[0] {
        Operator::Or => worked_out(machine, alloc, Op::Or, exprs),
        Operator::And => worked_out(machine, alloc, Op::And, exprs),
        Operator::Equal => worked_out(machine, alloc, Op::Equal, exprs),
        Operator::NotEqual => worked_out(machine, alloc, Op::Unequal, exprs),
        Operator::Less => worked_out(machine, alloc, Op::Compare(Order::Less), exprs),
        Operator::AtMost => worked_out(machine, alloc, Op::Compare(Order::LessOrEqual), exprs),
        Operator::Greater => worked_out(machine, alloc, Op::Compare(Order::Greater), exprs),
        Operator::AtLeast => worked_out(machine, alloc, Op::Compare(Order::GreaterOrEqual), exprs),
        Operator::Plus | Operator::Minus => sum(machine, alloc, operators, exprs),
        Operator::Times | Operator::Quotient | Operator::Remainder => {
            product(machine, alloc, operators, exprs)
        }
    }
}

/// Returns the literal result of a prefix, or `None` if its operand is not a literal or the operation has a fault.
pub fn prefixed<A: Allocator + Clone>(
    machine: Global,
    alloc: &A,
    prefix: Prefix,
    expr: &Expr<A>,
) -> Result<Option<ExprKind<A>>, AllocError>
    ensures { IfOk result (λ found. (f : Form) → in_place f found
        ≡ collapsed (rules.prefix_operation prefix) (scalars_of (expressions_of (expression_view expr.now ∷ []))) f) }
{
    let op = match prefix {
        Prefix::Not => Op::Not,
        Prefix::Negative => Op::Negate,
    };
    match scalar(machine, expr)? {
        None => Ok(None),
        Some(value) => {
            let mut operands = Vec::with_capacity(machine, 1)?;
            operands.push(Ok(Value::One(value)))?;
            outcome(machine, alloc, op, operands)
        }
    }
}

/// Returns the literal result of a call of `strcat`, `fromint` or `toint`. Returns `None` for other functions, and if
/// an argument is not a literal or the call has a fault.
pub fn call<A: Allocator + Clone>(
    machine: Global,
    alloc: &A,
    name: &[u8],
    exprs: &[Expr<A>],
) -> Result<Option<ExprKind<A>>, AllocError>
    ensures { IfOk result (λ found. (f : Form) → in_place f found
        ≡ called (called_operation name.now) (scalars_of (expressions_of (map expression_view exprs.now))) f) }
{
    if name == b"strcat".as_slice() {
        worked_out(machine, alloc, Op::Join, exprs)
    } else if name == b"fromint".as_slice() {
        worked_out(machine, alloc, Op::FromInt, exprs)
    } else if name == b"toint".as_slice() {
        worked_out(machine, alloc, Op::ToInt, exprs)
    } else {
        Ok(None)
    }
}
