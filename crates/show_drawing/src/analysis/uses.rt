//! Uses of a statement: the names that its expressions read, and the functions that they call.

use crate::analysis::scene::Scene;
use flow::cell::{Call, Cell, CellForm, CellPart, OuterCell};
use flow::expression::{Expr, Operation};
use flow::name::Name;
use std::alloc::Allocator;

/// Records the uses of an outermost cell and of the parts nested in it.
pub fn add_outer<'a, A: Allocator>(
    scene: &mut Scene<'a, A>,
    statement: usize,
    outer: &OuterCell<A>,
) {
    add_parts(scene, statement, &outer.parts);
    add_cell(scene, statement, &outer.cell);
}

/// Records the uses of cells and calls nested in an expression.
pub fn add_parts<'a, A: Allocator>(
    scene: &mut Scene<'a, A>,
    statement: usize,
    parts: &Vec<CellPart<A>, A>,
) {
    for part in parts {
        match part {
            CellPart::Inner(cell) => add_cell(scene, statement, cell),
            CellPart::Calls(call) => add_call(scene, statement, call),
        }
    }
}

/// Records a call and its arguments.
pub fn add_call<'a, A: Allocator>(scene: &mut Scene<'a, A>, statement: usize, call: &Call<A>) {
    scene.call(statement, call.function);
    add_names(scene, statement, &call.inputs);
}

/// Records that a statement reads these names.
pub fn add_names<'a, A: Allocator>(
    scene: &mut Scene<'a, A>,
    statement: usize,
    names: &Vec<Name, A>,
) {
    for name in names {
        scene.read(statement, name);
    }
}

/// Returns true if an outermost cell is a literal: a number, a text or a truth value, or a negative number.
pub fn is_literal<A: Allocator>(outer: &OuterCell<A>) -> bool {
    match &outer.cell.form {
        CellForm::Compute(Expr::Operation(Operation::Negate, operands)) => match operands.get(0) {
            Some(operand) => is_constant(operand),
            None => false,
        },
        CellForm::Compute(expression) => is_constant(expression),
        CellForm::Read { .. } => false,
    }
}

/// Returns true if an expression is a number, a text or a truth value.
fn is_constant<A: Allocator>(expression: &Expr<A>) -> bool {
    match expression {
        Expr::Number(_) | Expr::Text(_) | Expr::Truth(_) => true,
        Expr::Name(_) | Expr::Whole(_) | Expr::Operation(_, _) => false,
    }
}

/// Records the uses of a cell. The index of an element is a cell of its own.
fn add_cell<'a, A: Allocator>(scene: &mut Scene<'a, A>, statement: usize, cell: &Cell<A>) {
    match &cell.form {
        CellForm::Compute(expression) => add_expression(scene, statement, expression),
        CellForm::Read { array, .. } => scene.read(statement, array),
    }
}

/// Records the names in an expression.
#[cycle(expression)]
fn add_expression<'a, A: Allocator>(
    scene: &mut Scene<'a, A>,
    statement: usize,
    expression: &Expr<A>,
) {
    match expression {
        Expr::Number(_) | Expr::Text(_) | Expr::Truth(_) => {}
        Expr::Name(name) | Expr::Whole(name) => scene.read(statement, name),
        Expr::Operation(_, operands) => add_expressions(scene, statement, operands),
    }
}

/// Records the names in expressions.
#[cycle(expression)]
fn add_expressions<'a, A: Allocator>(
    scene: &mut Scene<'a, A>,
    statement: usize,
    expressions: &Vec<Expr<A>, A>,
) {
    for expression in expressions {
        add_expression(scene, statement, expression);
    }
}
