//! Hints for texts that are not numbers.

use crate::analysis::parts::faulty_part;
use explain_blocked::context::ExplainContext;
use explain_remedies::expressions::value_of;
use explain_text::words::write_str;
use flow::cell::CellForm;
use flow::expression::Expr;
use meaning_facts::facts::FaultFact;
use std::alloc::{AllocError, Allocator};
use values::value::{Scalar, Value};

const TOO_LARGE: &str =
    "hint: an int is from -9223372036854775808 to 9223372036854775807: keep a longer number as a string\n";

const DIGITS: &str =
    "hint: toint takes digits alone, with a - before them if need be: without blanks, a point or a +\n";

/// Appends a hint for the text that is not a number. Returns true if it was appended.
pub fn write_number_hint<'t, 'a, A: Allocator>(
    context: &ExplainContext<'t, 'a, A>,
    out: &mut Vec<u8>,
    fact: FaultFact,
) -> Result<bool, AllocError> {
    let Some(spot) = context.index.cell(fact.place.node) else {
        return Ok(false);
    };
    let CellForm::Compute(expr) = &spot.cell.form else {
        return Ok(false);
    };
    let facts = &context.known.fact_base;
    let instance = fact.place.instance;
    let Some(Expr::Operation(_, operands)) = faulty_part(facts, context.alloc, instance, expr)?
    else {
        return Ok(false);
    };
    let Some(operand) = operands.as_slice().first() else {
        return Ok(false);
    };
    match value_of(facts, context.alloc, instance, operand)? {
        Some(Ok(Value::One(Scalar::Text(text)))) => write_str(out, hint_for(text.as_bytes()))?,
        _ => return Ok(false),
    }
    Ok(true)
}

/// Returns the hint for a text that is not a number.
fn hint_for(text: &[u8]) -> &'static str {
    let digits = match text {
        [b'-', digits @ ..] => digits,
        _ => text,
    };
    if !digits.is_empty() && are_digits(digits) {
        TOO_LARGE
    } else {
        DIGITS
    }
}

fn are_digits(bytes: &[u8]) -> bool {
    for byte in bytes {
        if !matches!(*byte, b'0'..=b'9') {
            return false;
        }
    }
    true
}
