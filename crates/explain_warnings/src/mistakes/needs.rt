//! Tests if an expression waits for a variable.
ghost use Rattle.std.specs.Prelude.{◌≡◌, map};
ghost use Rattle.syntax_trees.specs.View.{expression_view, form_view, right_of};
ghost use Rattle.language.specs.Tree.{expressions_of};
ghost use Rattle.explain_warnings.specs.Forms as specs;

use crate::mistakes::forms::same_text;
use std::alloc::Allocator;
use syntax_trees::tree::{Expr, ExprKind, Right};

/// Returns true for the name of a built-in function with a value, which waits for its arguments.
fn is_operator(function: &[u8]) -> bool
    ensures { result ≡ specs.is_operator function.now }
{
    same_text(function, b"strcat".as_slice())
        || same_text(function, b"fromint".as_slice())
        || same_text(function, b"toint".as_slice())
        || same_text(function, b"size".as_slice())
}

/// Returns true if an expression needs the variable of this name, or an element of it.
#[cycle(need)]
fn needs<A: Allocator>(expr: &Expr<A>, name: &[u8]) -> bool
    ensures { result ≡ specs.needs name.now (expression_view expr.now) }
{
    form_needs(&expr.kind, name)
}

#[cycle(need)]
fn form_needs<A: Allocator>(kind: &ExprKind<A>, name: &[u8]) -> bool
    ensures { result ≡ specs.form_needs name.now (form_view kind.now) }
{
    match kind {
        ExprKind::Number(_) | ExprKind::Text(_) | ExprKind::Truth(_) => false,
        ExprKind::Variable(variable) => same_text(variable.text.as_slice(), name),
        ExprKind::Element(array, index) => {
            same_text(array.text.as_slice(), name) || needs(index, name)
        }
        ExprKind::Call(function, arguments) => {
            is_operator(function.text.as_slice()) && some_needs(arguments, name)
        }
        ExprKind::Prefixed(_, operand) => needs(operand, name),
        ExprKind::Chain(_, operands) => some_needs(operands, name),
    }
}

/// Returns true if one of the expressions needs the variable of this name.
#[cycle(need)]
fn some_needs<A: Allocator>(exprs: &Vec<Expr<A>, A>, name: &[u8]) -> bool
    ensures { result ≡ specs.some_needs name.now (expressions_of (map expression_view exprs.now.items)) }
{
    for expr in exprs {
        if needs(expr, name) {
            return true;
        }
    }
    false
}

/// Returns true if a right side needs the variable of this name.
pub fn right_needs<A: Allocator>(right: &Right<A>, name: &[u8]) -> bool
    ensures { result ≡ specs.right_needs name.now (right_of right.now) }
{
    match right {
        Right::Value(value) => needs(value, name),
        Right::List(list) => some_needs(&list.elements, name),
    }
}
