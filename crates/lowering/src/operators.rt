//! The operations of operator chains, prefixes and built-in functions.
ghost use Rattle.std.specs.Prelude.{◌≡◌, IfOk, map};
ghost use Rattle.language.specs.Resolved as rules;
ghost use Rattle.language.specs.Tree.{expressions_of};
ghost use Rattle.syntax_trees.specs.View.{expression_view};
ghost use Rattle.types.specs.Typed.{builtin_name};
ghost use Rattle.flow.specs.View.{operation_view};
ghost use Rattle.lowering.specs.View.{sign_of, factor_of, format_read};

use flow::expression::Operation;
use std::alloc::{AllocError, Allocator};
use syntax_trees::tree::{Expr, ExprKind, Operator, Prefix};
use types::typed::Builtin;
use values::op::{Factor, Order, Sign};

/// Returns the operation of a prefix.
pub fn of_prefix<A: Allocator>(prefix: Prefix) -> Operation<A>
    ensures { operation_view result ≡ rules.prefix_operation prefix }
{
    match prefix {
        Prefix::Not => Operation::Not,
        Prefix::Negative => Operation::Negate,
    }
}

/// Returns the operation of a chain, whose operators are all of the level of the first. A chain without operators is a
/// sum of one operand.
pub fn of_chain<A: Allocator + Clone>(
    alloc: &A,
    operators: &[Operator],
) -> Result<Operation<A>, AllocError>
    ensures { IfOk result (λ operation. operation_view operation ≡ rules.chain_operation operators.now) }
{
    if operators.is_empty() {
        return Ok(Operation::Sum(Vec::new(alloc.clone()?)));
    }
    match operators[0] {
        Operator::Or => Ok(Operation::Or),
        Operator::And => Ok(Operation::And),
        Operator::Equal => Ok(Operation::Equal),
        Operator::NotEqual => Ok(Operation::Unequal),
        Operator::Less => Ok(Operation::Compare(Order::Less)),
        Operator::AtMost => Ok(Operation::Compare(Order::LessOrEqual)),
        Operator::Greater => Ok(Operation::Compare(Order::Greater)),
        Operator::AtLeast => Ok(Operation::Compare(Order::GreaterOrEqual)),
        Operator::Plus | Operator::Minus => Ok(Operation::Sum(signs(alloc, operators)?)),
        Operator::Times | Operator::Quotient | Operator::Remainder => {
            Ok(Operation::Product(factors(alloc, operators)?))
        }
    }
}

/// Converts an operator of a sum into its sign.
fn sign_of(operator: Operator) -> Sign
    ensures { result ≡ sign_of operator }
{
    match operator {
        Operator::Minus => Sign::Minus,
        _ => Sign::Plus,
    }
}

/// Converts an operator of a product into its factor.
fn factor_of(operator: Operator) -> Factor
    ensures { result ≡ factor_of operator }
{
    match operator {
        Operator::Quotient => Factor::Divide,
        Operator::Remainder => Factor::Remainder,
        _ => Factor::Times,
    }
}

/// Converts the operators of a sum into signs.
fn signs<A: Allocator + Clone>(
    alloc: &A,
    operators: &[Operator],
) -> Result<Vec<Sign, A>, AllocError>
    ensures { IfOk result (λ found. found.items ≡ rules.signs operators.now) }
{
    let mut found = Vec::new(alloc.clone()?);
    for operator in operators {
        found.push(sign_of(*operator))?;
    }
    Ok(found)
}

/// Converts the operators of a product into factors.
fn factors<A: Allocator + Clone>(
    alloc: &A,
    operators: &[Operator],
) -> Result<Vec<Factor, A>, AllocError>
    ensures { IfOk result (λ found. found.items ≡ rules.factors operators.now) }
{
    let mut found = Vec::new(alloc.clone()?);
    for operator in operators {
        found.push(factor_of(*operator))?;
    }
    Ok(found)
}

/// Returns the operation of a built-in function. The arguments supply the format of a `printf`.
pub fn of_builtin<A: Allocator + Clone>(
    alloc: &A,
    builtin: Builtin,
    arguments: &Vec<Expr<A>, A>,
) -> Result<Operation<A>, AllocError>
    ensures { IfOk result (λ operation. operation_view operation
        ≡ rules.builtin_operation (builtin_name builtin) (expressions_of (map expression_view arguments.now.items))) }
{
    match builtin {
        Builtin::Strcat => Ok(Operation::Join),
        Builtin::FromInt => Ok(Operation::FromInt),
        Builtin::ToInt => Ok(Operation::ToInt),
        Builtin::Size => Ok(Operation::Size),
        Builtin::Printf => Ok(Operation::Printf(format_bytes(alloc, arguments)?)),
        Builtin::Assert => Ok(Operation::Assert),
    }
}

/// Returns the bytes of the first argument if it is a text literal, otherwise no bytes.
pub fn format_bytes<A: Allocator + Clone>(
    alloc: &A,
    arguments: &Vec<Expr<A>, A>,
) -> Result<Vec<u8, A>, AllocError>
    ensures { IfOk result (λ bytes. format_read bytes.items ≡ rules.format_of (expressions_of (map expression_view arguments.now.items))) }
{
    if arguments.is_empty() {
        return Ok(Vec::new(alloc.clone()?));
    }
    match &arguments[0].kind {
        ExprKind::Text(bytes) => Ok(Vec::from_slice(alloc.clone()?, bytes.as_slice())?),
        _ => Ok(Vec::new(alloc.clone()?)),
    }
}
