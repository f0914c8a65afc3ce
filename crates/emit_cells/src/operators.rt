//! Conversion of operators, formats and literals.
ghost use Rattle.std.specs.Prelude.{◌≡◌, IfOk};
ghost use Rattle.flow.specs.View.{operation_view};
ghost use Rattle.values.specs.Operators as op;
ghost use Rattle.values.specs.declared.value.Scalar.TheVariants as Scalar;
ghost use Rattle.language.specs.Resolved.{pieces_or_none};
ghost use Rattle.std.specs.Prelude.{[], false};
ghost use Rattle.values.specs.Formats.{pieces};
ghost use Rattle.task_code.specs.View as code_view;

use flow::expression::Operation;
use std::alloc::{AllocError, Allocator, Global};
use task_code::expr::Operator;
use values::format::{Format, FormatError};
use values::text::Text;
use values::value::Scalar;

/// Converts an operation into an operator of code.
pub fn operator<A: Allocator>(
    alloc: Global,
    operation: &Operation<A>,
) -> Result<Operator, AllocError>
    ensures { IfOk result (λ o. code_view.operation_view o ≡ operation_view operation.now) }
{
    match operation {
        Operation::Sum(signs) => Ok(Operator::Sum(Vec::from_slice(alloc, signs.as_slice())?)),
        Operation::Product(factors) => {
            Ok(Operator::Product(Vec::from_slice(alloc, factors.as_slice())?))
        }
        Operation::Compare(order) => Ok(Operator::Compare(*order)),
        Operation::Equal => Ok(Operator::Equal),
        Operation::Unequal => Ok(Operator::Unequal),
        Operation::And => Ok(Operator::And),
        Operation::Or => Ok(Operator::Or),
        Operation::Not => Ok(Operator::Not),
        Operation::Negate => Ok(Operator::Negate),
        Operation::Join => Ok(Operator::Join),
        Operation::FromInt => Ok(Operator::FromInt),
        Operation::ToInt => Ok(Operator::ToInt),
        Operation::Size => Ok(Operator::Size),
        Operation::Printf(bytes) => Ok(Operator::Printf(format(alloc, bytes.as_slice())?)),
        Operation::Assert => Ok(Operator::Assert),
        Operation::Literal => Ok(Operator::Literal),
    }
}

/// Parses a format string. An unreadable one becomes the format that prints nothing.
fn format(alloc: Global, bytes: &[u8]) -> Result<Format, AllocError>
    ensures { IfOk result (λ f. f ≡ pieces_or_none (pieces false bytes.now)) }
{
    match Format::read(alloc, bytes) {
        Ok(format) => Ok(format),
        Err(FormatError::Unreadable) => empty_format(alloc),
        Err(FormatError::Memory) => Err(AllocError),
    }
}

/// Creates the format that prints nothing.
fn empty_format(alloc: Global) -> Result<Format, AllocError>
    ensures { IfOk result (λ f. f ≡ pieces_or_none (pieces false [])) }
{
    match Format::read(alloc, &[]) {
        Ok(format) => Ok(format),
        Err(_) => Err(AllocError),
    }
}

/// Creates a text scalar from these bytes.
pub fn text<A: Allocator>(alloc: Global, bytes: &Vec<u8, A>) -> Result<Scalar, AllocError>
    ensures { IfOk result (λ v. v ≡ Scalar.Text bytes.now.items) }
{
    Ok(Scalar::Text(Text::from_slice(alloc, bytes.as_slice())?))
}
