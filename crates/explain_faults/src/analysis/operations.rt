//! The operation that has a fault, with the values of its operands, and the messages of failed assertions.

use crate::analysis::parts::faulty_part;
use explain_blocked::context::ExplainContext;
use explain_blocked::index::CellSite;
use explain_blocked::value_text::write_scalar;
use explain_remedies::expressions::value_of;
use explain_text::words::{write_bytes, write_str};
use flow::cell::CellForm;
use flow::expression::{Expr, Operation};
use paths::FaultKind;
use std::alloc::{AllocError, Allocator};
use values::op::{Factor, Sign};
use values::value::Value;

/// Maximum number of bytes of a message that are shown.
const LONGEST_MESSAGE: usize = 200;

/// Appends the operation of a cell that has the fault, and what is wrong with it. Returns true if anything was
/// appended.
pub fn write_operation<'t, 'a, A: Allocator>(
    context: &ExplainContext<'t, 'a, A>,
    out: &mut Vec<u8>,
    instance: usize,
    spot: &CellSite<'a, A>,
    kind: FaultKind,
) -> Result<bool, AllocError> {
    let CellForm::Compute(expr) = &spot.cell.form else {
        return Ok(false);
    };
    let fact_base = &context.known.fact_base;
    let Some(Expr::Operation(operation, operands)) = faulty_part(
        fact_base,
        context.alloc,
        instance,
        expr,
    )?
    else {
        return Ok(false);
    };
    write_str(out, before(operation))?;
    write_operands(context, out, instance, operation, operands)?;
    write_str(out, behind(operation))?;
    write_str(out, wrong_of(kind))?;
    Ok(true)
}

fn write_operands<'t, 'a, A: Allocator>(
    context: &ExplainContext<'t, 'a, A>,
    out: &mut Vec<u8>,
    instance: usize,
    operation: &Operation<A>,
    operands: &Vec<Expr<A>, A>,
) -> Result<(), AllocError> {
    let mut sign = "";
    for (i, operand) in operands.iter().enumerate() {
        write_str(out, sign)?;
        sign = between(operation, i);
        write_operand(context, out, instance, operand)?;
    }
    Ok(())
}

fn write_operand<'t, 'a, A: Allocator>(
    context: &ExplainContext<'t, 'a, A>,
    out: &mut Vec<u8>,
    instance: usize,
    operand: &Expr<A>,
) -> Result<(), AllocError> {
    match value_of(&context.known.fact_base, context.alloc, instance, operand)? {
        Some(Ok(Value::One(scalar))) => write_scalar(out, &scalar),
        _ => Ok(()),
    }
}

fn before<A: Allocator>(operation: &Operation<A>) -> &'static str {
    match operation {
        Operation::Negate => "- ",
        Operation::ToInt => "toint(",
        _ => "",
    }
}

/// Returns the operator after an operand.
fn between<A: Allocator>(operation: &Operation<A>, i: usize) -> &'static str {
    match operation {
        Operation::Sum(signs) => match signs.as_slice().get(i) {
            Some(Sign::Minus) => " - ",
            _ => " + ",
        },
        Operation::Product(factors) => match factors.as_slice().get(i) {
            Some(Factor::Divide) => " %/ ",
            Some(Factor::Remainder) => " %% ",
            _ => " * ",
        },
        _ => ", ",
    }
}

fn behind<A: Allocator>(operation: &Operation<A>) -> &'static str {
    match operation {
        Operation::ToInt => ")",
        _ => "",
    }
}

fn wrong_of(kind: FaultKind) -> &'static str {
    match kind {
        FaultKind::Overflow => {
            " leaves the whole numbers from -9223372036854775808 to 9223372036854775807"
        }
        FaultKind::DivideByZero => " divides by 0",
        FaultKind::NotANumber => ": the text is no whole number",
        _ => " has no value",
    }
}

/// Appends the message of a failed assertion. Returns true if anything was appended.
pub fn write_message<'t, 'a, A: Allocator>(
    context: &ExplainContext<'t, 'a, A>,
    out: &mut Vec<u8>,
    instance: usize,
    spot: &CellSite<'a, A>,
) -> Result<bool, AllocError> {
    let CellForm::Compute(Expr::Operation(Operation::Assert, operands)) = &spot.cell.form else {
        return Ok(false);
    };
    let Some(message) = operands.as_slice().get(1) else {
        return Ok(false);
    };
    match value_of(&context.known.fact_base, context.alloc, instance, message)? {
        Some(Ok(value)) => {
            write_str(out, "not true: ")?;
            write_bytes(out, value.text(), LONGEST_MESSAGE)?;
            Ok(true)
        }
        _ => Ok(false),
    }
}
