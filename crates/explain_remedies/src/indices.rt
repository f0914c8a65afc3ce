//! Indices that are a variable, or a variable and a number.

use flow::cell::CellForm;
use flow::expression::{Expr, Operation};
use flow::name::Name;
use std::alloc::Allocator;
use values::op::Sign;

/// An index such as `i`, `i + 1` or `i - 1`: the variable, and the number that is added to it.
#[derive(Clone, Copy)]
pub struct ShiftedIndex {
    pub name: Name,
    pub distance: i64,
}

/// Returns the form of an index, or `None` if it has another one.
pub fn shifted_index<A: Allocator>(form: &CellForm<A>) -> Option<ShiftedIndex> {
    match form {
        CellForm::Compute(Expr::Name(name)) => Some(ShiftedIndex {
            name: *name,
            distance: 0,
        }),
        CellForm::Compute(Expr::Operation(Operation::Sum(signs), operands)) => {
            shifted_sum(signs.as_slice(), operands.as_slice())
        }
        _ => None,
    }
}

/// Returns the form of a sum of two operands, which are a variable and a number.
fn shifted_sum<A: Allocator>(signs: &[Sign], operands: &[Expr<A>]) -> Option<ShiftedIndex> {
    if operands.len() != 2 {
        return None;
    }
    let Some(Expr::Name(name)) = operands.first() else {
        return None;
    };
    let Some(Expr::Number(number)) = operands.get(1) else {
        return None;
    };
    let distance = match signs.first() {
        Some(Sign::Minus) => number.checked_neg()?,
        _ => *number,
    };
    Some(ShiftedIndex {
        name: *name,
        distance,
    })
}
