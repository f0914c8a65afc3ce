//! Expressions of a syntax tree, a line a node.

use crate::text::words::{operator_word, prefix_word, truth_word};
use crate::tree_lines::tree_page::TreePage;
use std::alloc::Allocator;
use syntax_trees::tree::{Call, Expr, ExprKind, Range, Right, Source};

/// Adds an expression and its parts. `role` is what it is to the node above it, as `key: `, or nothing.
#[cycle(expression)]
pub fn add_expression<A: Allocator>(
    out: &mut TreePage<'_, '_, '_>,
    depth: usize,
    role: &str,
    expr: &Expr<A>,
) {
    out.page.begin(expr.first.from, depth);
    out.page.add(role);
    add_head(out, &expr.kind);
    out.add_expression_type(expr);
    out.page.end();
    add_parts(out, depth.saturating_add(1), &expr.kind);
}

/// Adds the parts of an expression.
#[cycle(expression)]
fn add_parts<A: Allocator>(out: &mut TreePage<'_, '_, '_>, depth: usize, kind: &ExprKind<A>) {
    match kind {
        ExprKind::Number(_) | ExprKind::Text(_) | ExprKind::Truth(_) => {}
        ExprKind::Variable(_) => {}
        ExprKind::Element(_, index) => add_expression(out, depth, "key: ", index),
        ExprKind::Call(_, arguments) => add_expressions(out, depth, arguments),
        ExprKind::Prefixed(_, operand) => add_expression(out, depth, "", operand),
        ExprKind::Chain(_, operands) => add_expressions(out, depth, operands),
    }
}

/// Adds expressions in order.
#[cycle(expression)]
pub fn add_expressions<A: Allocator>(
    out: &mut TreePage<'_, '_, '_>,
    depth: usize,
    exprs: &Vec<Expr<A>, A>,
) {
    for expr in exprs {
        add_expression(out, depth, "", expr);
    }
}

/// Appends the words of an expression, without its parts.
fn add_head<A: Allocator>(out: &mut TreePage<'_, '_, '_>, kind: &ExprKind<A>) {
    let page = &mut out.page;
    match kind {
        ExprKind::Number(number) => {
            page.add("number ");
            page.add_number(*number);
        }
        ExprKind::Text(bytes) => {
            page.add("text ");
            page.add_text(bytes.as_slice());
        }
        ExprKind::Truth(truth) => {
            page.add("truth ");
            page.add(truth_word(*truth));
        }
        ExprKind::Variable(name) => {
            page.add("variable ");
            page.add_bytes(name.text.as_slice());
        }
        ExprKind::Element(name, _) => {
            page.add("element of ");
            page.add_bytes(name.text.as_slice());
        }
        ExprKind::Call(name, _) => {
            page.add("call ");
            page.add_bytes(name.text.as_slice());
        }
        ExprKind::Prefixed(prefix, _) => {
            page.add("prefix ");
            page.add(prefix_word(*prefix));
        }
        ExprKind::Chain(operators, _) => {
            page.add("chain");
            for operator in operators {
                page.add(" ");
                page.add(operator_word(*operator));
            }
        }
    }
}

/// Adds the right side of a declaration or an assignment.
pub fn add_right<A: Allocator>(out: &mut TreePage<'_, '_, '_>, depth: usize, right: &Right<A>) {
    match right {
        Right::Value(value) => add_expression(out, depth, "", value),
        Right::List(list) => {
            out.page.begin(list.first.from, depth);
            out.page.add("array");
            out.page.end();
            add_expressions(out, depth.saturating_add(1), &list.elements);
        }
    }
}

/// Adds a call whose outputs are assigned.
pub fn add_call<A: Allocator>(out: &mut TreePage<'_, '_, '_>, depth: usize, call: &Call<A>) {
    out.page.begin(call.first.from, depth);
    out.page.add("call ");
    out.page.add_bytes(call.name.text.as_slice());
    out.add_callee(&call.name);
    out.page.end();
    add_expressions(out, depth.saturating_add(1), &call.arguments);
}

/// Adds the source of a loop.
pub fn add_source<A: Allocator>(out: &mut TreePage<'_, '_, '_>, depth: usize, source: &Source<A>) {
    match source {
        Source::Array(name) => {
            out.page.begin(name.span.from, depth);
            out.page.add("over ");
            out.add_variable(name);
            out.page.end();
        }
        Source::Range(range) => add_range(out, depth, range),
    }
}

/// Adds the bounds and the step of a range.
fn add_range<A: Allocator>(out: &mut TreePage<'_, '_, '_>, depth: usize, range: &Range<A>) {
    add_expression(out, depth, "from: ", &range.low);
    add_expression(out, depth, "to: ", &range.high);
    if let Some(step) = &range.step {
        add_expression(out, depth, "step: ", step);
    }
}
