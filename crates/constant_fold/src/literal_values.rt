//! Conversion between literals and scalars, and evaluation of an operation to a literal.

ghost use Rattle.std.specs.Prelude.{◌≡◌, IfOk};
ghost use Rattle.values.specs.Op.{operation_of};
ghost use Rattle.values.specs.Operators.{evaluated};
ghost use Rattle.language.specs.Tree.{Form};
ghost use Rattle.syntax_trees.specs.View.{expression_view, form_view};
ghost use Rattle.constant_fold.specs.Literals.{in_place, literal_of, literal_or, scalar_of};

use std::alloc::{AllocError, Allocator, Global};
use syntax_trees::tree::{Expr, ExprKind};
use values::fault::OpFault;
use values::op::Op;
use values::text::Text;
use values::value::{Scalar, Value};

/// Returns the scalar of an expression, or `None` if the expression is not a literal.
pub fn scalar<A: Allocator>(machine: Global, expr: &Expr<A>) -> Result<Option<Scalar>, AllocError>
    ensures { IfOk result (λ found. found ≡ scalar_of (expression_view expr.now)) }
{
    match &expr.kind {
        ExprKind::Number(n) => Ok(Some(Scalar::Number(*n))),
        ExprKind::Text(bytes) => Ok(Some(Scalar::Text(Text::from_slice(
            machine,
            bytes.as_slice(),
        )?))),
        ExprKind::Truth(b) => Ok(Some(Scalar::Truth(*b))),
        _ => Ok(None),
    }
}

/// Creates the literal of a scalar.
fn literal<A: Allocator + Clone>(alloc: &A, scalar: Scalar) -> Result<ExprKind<A>, AllocError>
    ensures { IfOk result (λ kind. form_view kind ≡ literal_of scalar) }
{
    match scalar {
        Scalar::Number(n) => Ok(ExprKind::Number(n)),
        Scalar::Truth(b) => Ok(ExprKind::Truth(b)),
        Scalar::Text(text) => Ok(ExprKind::Text(Vec::from_slice(alloc.clone()?, text.as_bytes())?)),
    }
}

/// Returns the literal result of an operation, or `None` if the operation has a fault or its result is not a scalar.
pub fn outcome<A: Allocator + Clone>(
    machine: Global,
    alloc: &A,
    op: Op<'_>,
    operands: Vec<Result<Value, OpFault>>,
) -> Result<Option<ExprKind<A>>, AllocError>
    ensures { IfOk result (λ found. (f : Form) → in_place f found ≡ literal_or f (evaluated (operation_of op.entry) operands.items)) }
{
    match op.evaluate(machine, operands) {
        Ok(Value::One(scalar)) => Ok(Some(literal(alloc, scalar)?)),
        Ok(Value::Many(_)) => Ok(None),
        Err(OpFault::Memory) => Err(AllocError),
        Err(_) => Ok(None),
    }
}
