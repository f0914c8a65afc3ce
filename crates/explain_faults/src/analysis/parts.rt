//! Evaluation of expressions part by part, to find the innermost faulty part.

use explain_remedies::expressions::value_of;
use flow::expression::Expr;
use meaning_facts::fact_base::FactBase;
use std::alloc::{AllocError, Allocator, Global};

/// Returns the innermost faulty part of an expression, the first in reading order, or `None` if the expression has no
/// known fault.
#[cycle(search)]
pub fn faulty_part<'e, A: Allocator>(
    fact_base: &FactBase,
    alloc: Global,
    instance: usize,
    expr: &'e Expr<A>,
) -> Result<Option<&'e Expr<A>>, AllocError> {
    match value_of(fact_base, alloc, instance, expr)? {
        Some(Err(_)) => {}
        _ => return Ok(None),
    }
    let inside = match expr {
        Expr::Operation(_, operands) => faulty_in(fact_base, alloc, instance, operands)?,
        _ => None,
    };
    match inside {
        Some(found) => Ok(Some(found)),
        None => Ok(Some(expr)),
    }
}

#[cycle(search)]
fn faulty_in<'e, A: Allocator>(
    fact_base: &FactBase,
    alloc: Global,
    instance: usize,
    exprs: &'e Vec<Expr<A>, A>,
) -> Result<Option<&'e Expr<A>>, AllocError> {
    for expr in exprs {
        if let Some(found) = faulty_part(fact_base, alloc, instance, expr)? {
            return Ok(Some(found));
        }
    }
    Ok(None)
}
