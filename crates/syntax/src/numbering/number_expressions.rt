//! Numbering of names and expressions. Each function receives the first unused number and returns the next one.

ghost use Rattle.std.specs.Prelude.{◌≡◌, ◌+◌, ◌^◌, ◌<◌, map, sum_by};
ghost use Rattle.syntax_trees.specs.View.{word_of, expression_view, form_view};
ghost use Rattle.language.specs.Numbered.{word_size, expression_size, form_size, numbered_each, numbered_word, numbered_expression, numbered_form};

use std::alloc::Allocator;
use syntax_trees::tree::{Expr, ExprKind, Name};

/// Numbers a name.
pub fn name<A: Allocator>(name: &mut Name<A>, from: u32) -> u32
    requires { from + 1 < 2 ^ 32 }
    ensures numbered { word_of name.new ≡ numbered_word from (word_of name.old) }
    ensures next { result ≡ from + 1 }
{
    name.number = from;
    from + 1
}

/// Numbers names in their order.
pub fn names<A: Allocator>(names: &mut Vec<Name<A>, A>, from: u32) -> u32
    requires { from + sum_by word_size (map word_of names.old.items) < 2 ^ 32 }
    ensures numbered { map word_of names.new.items ≡ numbered_each numbered_word word_size from (map word_of names.old.items) }
    ensures next { result ≡ from + sum_by word_size (map word_of names.old.items) }
{
    let mut next = from;
    for i in 0..names.len() {
        let one = &mut names[i];
        next = name(one, next);
    }
    next
}

/// Numbers an expression: its node, then its parts.
#[cycle(numbered)]
pub fn expression<A: Allocator>(expr: &mut Expr<A>, from: u32) -> u32
    requires { from + expression_size (expression_view expr.old) < 2 ^ 32 }
    ensures numbered { expression_view expr.new ≡ numbered_expression from (expression_view expr.old) }
    ensures next { result ≡ from + expression_size (expression_view expr.old) }
{
    expr.number = from;
    form(&mut expr.kind, from + 1)
}

/// Numbers the parts of an expression.
#[cycle(numbered)]
fn form<A: Allocator>(kind: &mut ExprKind<A>, from: u32) -> u32
    requires { from + form_size (form_view kind.old) < 2 ^ 32 }
    ensures numbered { form_view kind.new ≡ numbered_form from (form_view kind.old) }
    ensures next { result ≡ from + form_size (form_view kind.old) }
{
    match kind {
        ExprKind::Number(_) | ExprKind::Text(_) | ExprKind::Truth(_) => from,
        ExprKind::Variable(variable) => name(variable, from),
        ExprKind::Element(array, index) => {
            let next = name(array, from);
            expression(index, next)
        }
        ExprKind::Call(function, arguments) => {
            let next = name(function, from);
            expressions(arguments, next)
        }
        ExprKind::Prefixed(_, operand) => expression(operand, from),
        ExprKind::Chain(_operators, operands) => expressions(operands, from),
    }
}

/// Numbers expressions in their order.
#[cycle(numbered)]
pub fn expressions<A: Allocator>(exprs: &mut Vec<Expr<A>, A>, from: u32) -> u32
    requires { from + sum_by expression_size (map expression_view exprs.old.items) < 2 ^ 32 }
    ensures numbered { map expression_view exprs.new.items ≡ numbered_each numbered_expression expression_size from (map expression_view exprs.old.items) }
    ensures next { result ≡ from + sum_by expression_size (map expression_view exprs.old.items) }
{
    let mut next = from;
    for i in 0..exprs.len() {
        let one = &mut exprs[i];
        next = expression(one, next);
    }
    next
}
