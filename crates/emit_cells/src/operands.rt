//! Conversion of expressions into expressions over the needs of their entry.
ghost use Rattle.std.specs.Prelude.{◌≡◌, map, IfOk};
ghost use Rattle.flow.specs.View.{expr_view, exprs_view};
ghost use Rattle.task_code.specs.View as code_view;
ghost use Rattle.code_rules.specs.CodeNames.{over, all_over};
ghost use Rattle.code_rules.specs.Room.{ExprRoom, ExprsRoom};
ghost use Rattle.emit_cells.specs.PlainNeeds.{need_of, IsReady};

use crate::names::named;
use crate::needs::{PlainNeed, place_of};
use crate::operators::{operator, text};
use flow::expression::Expr;
use indexmap::IndexSet;
use std::alloc::{AllocError, Allocator, Global};
use task_code::expr;
use values::value::Scalar;

/// Converts an expression into an expression over these needs.
#[cycle(placed)]
pub fn placed<A: Allocator>(
    alloc: Global,
    needs: &IndexSet<PlainNeed>,
    inputs: usize,
    expr: &Expr<A>,
) -> Result<expr::Expr, AllocError>
    ensures { IfOk result (λ e. IsReady needs.now.keys → ExprRoom inputs (expr_view expr.now)
        → code_view.expr_view e ≡ over inputs (map need_of needs.now.keys) (expr_view expr.now)) }
{
    match expr {
        Expr::Number(n) => Ok(expr::Expr::Constant(Scalar::Number(*n))),
        Expr::Text(bytes) => Ok(expr::Expr::Constant(text(alloc, bytes)?)),
        Expr::Truth(b) => Ok(expr::Expr::Constant(Scalar::Truth(*b))),
        Expr::Name(name) => Ok(expr::Expr::Need(place_of(needs, named(inputs, *name, false)))),
        Expr::Whole(name) => Ok(expr::Expr::Need(place_of(needs, named(inputs, *name, true)))),
        Expr::Operation(operation, operands) => Ok(expr::Expr::Operation(
            operator(alloc, operation)?,
            all_placed(alloc, needs, inputs, operands)?,
        )),
    }
}

/// Converts expressions into expressions over these needs.
#[cycle(placed)]
pub fn all_placed<A: Allocator>(
    alloc: Global,
    needs: &IndexSet<PlainNeed>,
    inputs: usize,
    exprs: &Vec<Expr<A>, A>,
) -> Result<Vec<expr::Expr>, AllocError>
    ensures { IfOk result (λ es. IsReady needs.now.keys → ExprsRoom inputs (exprs_view exprs.now.items)
        → code_view.exprs_view es.items ≡ all_over inputs (map need_of needs.now.keys) (exprs_view exprs.now.items)) }
{
    let mut found = Vec::with_capacity(alloc, exprs.len())?;
    for expr in exprs {
        found.push(placed(alloc, needs, inputs, expr)?)?;
    }
    Ok(found)
}
