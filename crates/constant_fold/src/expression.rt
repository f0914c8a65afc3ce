//! Folding of expressions, bottom up and in place.
ghost use Rattle.std.specs.Prelude.{◌≡◌, IfOk, OnOk, map};
ghost use Rattle.language.specs.Tree.{Form};
ghost use Rattle.syntax_trees.specs.View.{expression_view, form_view};
ghost use Rattle.constant_fold.specs.Folded.{folded, folded_form};
ghost use Rattle.constant_fold.specs.Made.{settled, with_folded_parts};
ghost use Rattle.constant_fold.specs.Literals.{in_place};

use crate::evaluation::{call, chain, prefixed};
use std::alloc::{AllocError, Allocator, Global};
use syntax_trees::tree::{Expr, ExprKind};

/// Replaces a form by a literal, if there is one.
fn put<A: Allocator>(kind: &mut ExprKind<A>, found: Option<ExprKind<A>>)
    ensures { form_view kind.new ≡ in_place (form_view kind.old) found }
{
    match found {
        None => {}
        Some(literal) => *kind = literal,
    }
}

/// Folds an expression.
#[cycle(folded)]
pub fn expression<A: Allocator + Clone>(
    machine: Global,
    alloc: &A,
    expr: &mut Expr<A>,
) -> Result<(), AllocError>
    ensures { OnOk result (expression_view expr.new ≡ folded (expression_view expr.old)) }
{
    form(machine, alloc, &mut expr.kind)?;
    Ok(())
}

/// Folds expressions.
#[cycle(folded)]
pub fn each<A: Allocator + Clone>(
    machine: Global,
    alloc: &A,
    exprs: &mut Vec<Expr<A>, A>,
) -> Result<(), AllocError>
    ensures { OnOk result (map expression_view exprs.new.items ≡ map folded (map expression_view exprs.old.items)) }
{
    for i in 0..exprs.len() {
        let expr = &mut exprs[i];
        expression(machine, alloc, expr)?;
    }
    Ok(())
}

/// Folds the form of an expression: first its parts, then the form itself.
#[cycle(folded)]
fn form<A: Allocator + Clone>(
    machine: Global,
    alloc: &A,
    kind: &mut ExprKind<A>,
) -> Result<(), AllocError>
    ensures { OnOk result (form_view kind.new ≡ folded_form (form_view kind.old)) }
{
    let old = std::mem::replace(kind, ExprKind::Truth(false));
    let new = parts(machine, alloc, old)?;
    *kind = new;
    let found = settle(machine, alloc, kind)?;
    put(kind, found);
    Ok(())
}

/// Returns the form with its nested expressions folded.
#[cycle(folded)]
fn parts<A: Allocator + Clone>(
    machine: Global,
    alloc: &A,
    kind: ExprKind<A>,
) -> Result<ExprKind<A>, AllocError>
    ensures { IfOk result (λ new. form_view new ≡ with_folded_parts (form_view kind)) }
{
    match kind {
        ExprKind::Number(n) => Ok(ExprKind::Number(n)),
        ExprKind::Text(bytes) => Ok(ExprKind::Text(bytes)),
        ExprKind::Truth(b) => Ok(ExprKind::Truth(b)),
        ExprKind::Variable(name) => Ok(ExprKind::Variable(name)),
        ExprKind::Element(name, mut index) => {
            expression(machine, alloc, &mut index)?;
            Ok(ExprKind::Element(name, index))
        }
        ExprKind::Call(name, mut arguments) => {
            each(machine, alloc, &mut arguments)?;
            Ok(ExprKind::Call(name, arguments))
        }
        ExprKind::Prefixed(prefix, mut operand) => {
            expression(machine, alloc, &mut operand)?;
            Ok(ExprKind::Prefixed(prefix, operand))
        }
        ExprKind::Chain(operators, mut operands) => {
            each(machine, alloc, &mut operands)?;
            Ok(ExprKind::Chain(operators, operands))
        }
    }
}

/// Returns the literal result of a form whose parts are folded, if there is one.
fn settle<A: Allocator + Clone>(
    machine: Global,
    alloc: &A,
    kind: &ExprKind<A>,
) -> Result<Option<ExprKind<A>>, AllocError>
    ensures { IfOk result (λ found. in_place (form_view kind.now) found ≡ settled (form_view kind.now)) }
{
    match kind {
        ExprKind::Call(name, arguments) => {
            let found = call(machine, alloc, name.text.as_slice(), arguments.as_slice())?;
            Ok(found)
        }
        ExprKind::Prefixed(prefix, operand) => prefixed(machine, alloc, *prefix, operand),
        ExprKind::Chain(operators, operands) => {
            let found = chain(machine, alloc, operators.as_slice(), operands.as_slice())?;
            Ok(found)
        }
        ExprKind::Number(_)
        | ExprKind::Text(_)
        | ExprKind::Truth(_)
        | ExprKind::Variable(_)
        | ExprKind::Element(_, _) => Ok(None),
    }
}
