//! Cells and calls of a flow: a line for each, with its expression.

use crate::flow_lines::flow_page::FlowPage;
use crate::text::words::{factor_word, order_word, sign_word, truth_word};
use flow::cell::{Call, Cell, CellForm, CellPart, OuterCell};
use flow::expression::{Expr, Operation};
use std::alloc::Allocator;
use values::op::{Factor, Sign};

/// Adds an outermost cell: the cells and calls nested in it, then the cell itself. `role` is what it is to its
/// statement, as `key: `, or nothing.
pub fn add_outer<A: Allocator>(
    out: &mut FlowPage<'_, '_, A>,
    depth: usize,
    role: &str,
    outer: &OuterCell<A>,
) {
    add_parts(out, depth, &outer.parts);
    add_cell(out, depth, role, &outer.cell);
}

/// Adds nested cells and calls in order.
pub fn add_parts<A: Allocator>(
    out: &mut FlowPage<'_, '_, A>,
    depth: usize,
    parts: &Vec<CellPart<A>, A>,
) {
    for part in parts {
        match part {
            CellPart::Inner(cell) => add_cell(out, depth, "", cell),
            CellPart::Calls(call) => add_call(out, depth, call),
        }
    }
}

/// Adds a cell.
fn add_cell<A: Allocator>(out: &mut FlowPage<'_, '_, A>, depth: usize, role: &str, cell: &Cell<A>) {
    out.page.begin(cell.at, depth);
    out.page.add(role);
    out.page.add_counted("#", cell.node as usize);
    out.page.add(" = ");
    match &cell.form {
        CellForm::Compute(expression) => add_expression(out, expression, false),
        CellForm::Read { array, index } => {
            out.add_name(array);
            out.page.add_counted("[#", *index as usize);
            out.page.add("]");
        }
    }
    out.page.end();
}

/// Adds a call of a function of the script.
pub fn add_call<A: Allocator>(out: &mut FlowPage<'_, '_, A>, depth: usize, call: &Call<A>) {
    out.page.begin(call.at, depth);
    if !call.outputs.is_empty() {
        out.add_names(&call.outputs);
        out.page.add(" = ");
    }
    if let Some(name) = out.names.function_name(call.function) {
        out.page.add_bytes(name);
    }
    out.page.add("(");
    out.add_names(&call.inputs);
    out.page.add(")");
    out.page.end();
}

/// Appends an expression, in parentheses if it is an operand that has operators of its own.
#[cycle(expression)]
fn add_expression<A: Allocator>(
    out: &mut FlowPage<'_, '_, A>,
    expression: &Expr<A>,
    is_operand: bool,
) {
    match expression {
        Expr::Number(number) => out.page.add_number(*number),
        Expr::Text(bytes) => out.page.add_text(bytes.as_slice()),
        Expr::Truth(truth) => out.page.add(truth_word(*truth)),
        Expr::Name(name) | Expr::Whole(name) => out.add_name(name),
        Expr::Operation(operation, operands) => {
            let is_enclosed = is_operand && is_infix(operation);
            out.page.add(if is_enclosed { "(" } else { "" });
            add_opening(out, operation);
            add_operands(out, operation, operands);
            out.page.add(closing(operation));
            out.page.add(if is_enclosed { ")" } else { "" });
        }
    }
}

/// Appends the operands of an operation.
#[cycle(expression)]
fn add_operands<A: Allocator>(
    out: &mut FlowPage<'_, '_, A>,
    operation: &Operation<A>,
    operands: &Vec<Expr<A>, A>,
) {
    let mut place = 0usize;
    for operand in operands {
        out.page.add(separator(operation, place));
        add_expression(out, operand, true);
        place = place.saturating_add(1);
    }
}

/// Returns true for an operation that is written between its operands.
fn is_infix<A: Allocator>(operation: &Operation<A>) -> bool {
    match operation {
        Operation::Sum(_) | Operation::Product(_) | Operation::Compare(_) => true,
        Operation::Equal | Operation::Unequal | Operation::And | Operation::Or => true,
        Operation::Not | Operation::Negate | Operation::Join | Operation::FromInt => false,
        Operation::ToInt | Operation::Size | Operation::Printf(_) => false,
        Operation::Assert | Operation::Literal => false,
    }
}

/// Appends what precedes the operands of an operation.
fn add_opening<A: Allocator>(out: &mut FlowPage<'_, '_, A>, operation: &Operation<A>) {
    out.page.add(opening(operation));
    if let Operation::Printf(format) = operation {
        out.page.add_text(format.as_slice());
    }
}

/// Returns the words that precede the operands of an operation.
fn opening<A: Allocator>(operation: &Operation<A>) -> &'static str {
    match operation {
        Operation::Sum(_) | Operation::Product(_) | Operation::Compare(_) => "",
        Operation::Equal | Operation::Unequal | Operation::And | Operation::Or => "",
        Operation::Not => "!",
        Operation::Negate => "-",
        Operation::Join => "strcat(",
        Operation::FromInt => "fromint(",
        Operation::ToInt => "toint(",
        Operation::Size => "size(",
        Operation::Printf(_) => "printf(",
        Operation::Assert => "assert(",
        Operation::Literal => "[",
    }
}

/// Returns what follows the operands of an operation.
fn closing<A: Allocator>(operation: &Operation<A>) -> &'static str {
    match operation {
        Operation::Sum(_) | Operation::Product(_) | Operation::Compare(_) => "",
        Operation::Equal | Operation::Unequal | Operation::And | Operation::Or => "",
        Operation::Not | Operation::Negate => "",
        Operation::Join | Operation::FromInt | Operation::ToInt | Operation::Size => ")",
        Operation::Printf(_) | Operation::Assert => ")",
        Operation::Literal => "]",
    }
}

/// Returns what precedes the operand at a place. The operands of a `printf` follow its format.
fn separator<A: Allocator>(operation: &Operation<A>, place: usize) -> &'static str {
    if place == 0 {
        return match operation {
            Operation::Printf(_) => ", ",
            _ => "",
        };
    }
    let before = place.saturating_sub(1);
    match operation {
        Operation::Sum(signs) => sign_word(signs.get(before).copied().unwrap_or(Sign::Plus)),
        Operation::Product(factors) => {
            factor_word(factors.get(before).copied().unwrap_or(Factor::Times))
        }
        Operation::Compare(order) => order_word(*order),
        Operation::Equal => " == ",
        Operation::Unequal => " != ",
        Operation::And => " && ",
        Operation::Or => " || ",
        Operation::Not | Operation::Negate => " ",
        Operation::Join | Operation::FromInt | Operation::ToInt | Operation::Size => ", ",
        Operation::Printf(_) | Operation::Assert | Operation::Literal => ", ",
    }
}
