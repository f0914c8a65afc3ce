//! Inputs of statements: the scalars, arrays and elements that a statement reads.
ghost use Rattle.std.specs.Prelude.{◌≡◌, ◌++◌, ◌∷◌, [], map, IfOk, OnOk};
ghost use Rattle.language.specs.Parts.{outers};
ghost use Rattle.flow.specs.View.{action_view, awaited_view, expr_view, exprs_view, form_view, outer_view, part_view, parts_view};
ghost use Rattle.meaning_cells.specs.Listed.{outers_listed};
ghost use Rattle.explain_inputs.specs.Inputs.{awaited_input, expr_inputs, exprs_inputs, form_inputs, input_view, inputs_of, inputs_view, outer_inputs, outers_inputs, part_inputs, parts_inputs};

use flow::cell::{CellForm, CellPart, OuterCell};
use flow::expression::Expr;
use flow::name::Name;
use flow::statement::Action;
use language::tree::Shape;
use meaning_cells::parts::outers_of;
use std::alloc::{AllocError, Allocator, Global};

/// An input of a statement.
#[derive(Clone, Copy, PartialEq, Eq, Debug)]
pub enum StatementInput {
    /// The scalar of a variable or of a cell, or the result of a call.
    Scalar(Name),
    /// A whole array.
    Array(Name),
    /// An element of an array. The index is the value of the cell with node `index`.
    Element { array: Name, index: u32 },
}

/// Returns the inputs of a statement that can be blocked, in the order of its cells. The statement's own cells are
/// included.
///
/// A loop over an array reads that array, and a `wait` reads the names that it waits for.
///
/// # Errors
///
/// Returns `AllocError` if an allocation fails.
pub fn inputs_of<A: Allocator>(
    alloc: Global,
    action: &Action<A>,
) -> Result<Vec<StatementInput>, AllocError>
    ensures { IfOk result (λ all. inputs_view all.items ≡ inputs_of (action_view action.now)) }
{
    match action {
        Action::Each { array, .. } => {
            let mut inputs = Vec::new(alloc);
            inputs.push(StatementInput::Array(*array))?;
            Ok(inputs)
        }
        Action::Wait { names, .. } => inputs_of_wait(alloc, names.as_slice()),
        Action::Declare(_) => inputs_of_cells(alloc, action),
        Action::Call { .. } => inputs_of_cells(alloc, action),
        Action::Assign { .. } => inputs_of_cells(alloc, action),
        Action::Fill { .. } => inputs_of_cells(alloc, action),
        Action::Insert { .. } => inputs_of_cells(alloc, action),
        Action::Print { .. } => inputs_of_cells(alloc, action),
        Action::Assert { .. } => inputs_of_cells(alloc, action),
        Action::When { .. } => inputs_of_cells(alloc, action),
        Action::Choose { .. } => inputs_of_cells(alloc, action),
        Action::Range { .. } => inputs_of_cells(alloc, action),
    }
}

/// Returns the inputs of a `wait`: the names that it waits for.
///
/// # Errors
///
/// Returns `AllocError` if an allocation fails.
pub fn inputs_of_wait(alloc: Global, names: &[Name]) -> Result<Vec<StatementInput>, AllocError>
    ensures { IfOk result (λ all. inputs_view all.items ≡ map awaited_input (map awaited_view names.now)) }
{
    let mut inputs = Vec::new(alloc);
    for name in names {
        inputs.push(awaited(*name))?;
    }
    Ok(inputs)
}

fn awaited(name: Name) -> StatementInput
    ensures { input_view result ≡ awaited_input (awaited_view name) }
{
    match name.shape {
        Shape::Array(_) => StatementInput::Array(name),
        Shape::Scalar => StatementInput::Scalar(name),
    }
}

/// Returns the inputs of the outermost cells of a statement and of the cells inside them.
fn inputs_of_cells<A: Allocator>(
    alloc: Global,
    action: &Action<A>,
) -> Result<Vec<StatementInput>, AllocError>
    ensures { IfOk result (λ all. inputs_view all.items ≡ outers_inputs (outers (action_view action.now))) }
{
    let outers = outers_of(alloc, action)?;
    let mut inputs = Vec::new(alloc);
    add_outers(&mut inputs, outers.as_slice())?;
    Ok(inputs)
}

fn add_outers<A: Allocator>(
    inputs: &mut Vec<StatementInput>,
    outers: &[&OuterCell<A>],
) -> Result<(), AllocError>
    ensures { OnOk result (inputs_view inputs.new.items ≡ inputs_view inputs.old.items ++ outers_inputs (outers_listed outers.now)) }
{
    for outer in outers {
        add_outer(inputs, outer)?;
    }
    Ok(())
}

fn add_outer<A: Allocator>(
    inputs: &mut Vec<StatementInput>,
    outer: &OuterCell<A>,
) -> Result<(), AllocError>
    ensures { OnOk result (inputs_view inputs.new.items ≡ inputs_view inputs.old.items ++ outer_inputs (outer_view outer.now)) }
{
    add_parts(inputs, outer.parts.as_slice())?;
    add_form(inputs, &outer.cell.form)
}

fn add_parts<A: Allocator>(
    inputs: &mut Vec<StatementInput>,
    parts: &[CellPart<A>],
) -> Result<(), AllocError>
    ensures { OnOk result (inputs_view inputs.new.items ≡ inputs_view inputs.old.items ++ parts_inputs (parts_view parts.now)) }
{
    for part in parts {
        add_part(inputs, part)?;
    }
    Ok(())
}

fn add_part<A: Allocator>(
    inputs: &mut Vec<StatementInput>,
    part: &CellPart<A>,
) -> Result<(), AllocError>
    ensures { OnOk result (inputs_view inputs.new.items ≡ inputs_view inputs.old.items ++ part_inputs (part_view part.now)) }
{
    match part {
        CellPart::Inner(cell) => add_form(inputs, &cell.form),
        CellPart::Calls(_) => Ok(()),
    }
}

/// Appends the inputs of a cell.
///
/// # Errors
///
/// Returns `AllocError` if an allocation fails.
pub fn add_form<A: Allocator>(
    inputs: &mut Vec<StatementInput>,
    form: &CellForm<A>,
) -> Result<(), AllocError>
    ensures { OnOk result (inputs_view inputs.new.items ≡ inputs_view inputs.old.items ++ form_inputs (form_view form.now)) }
{
    match form {
        CellForm::Compute(expr) => add_expr(inputs, expr),
        CellForm::Read { array, index } => {
            inputs.push(StatementInput::Element {
                array: *array,
                index: *index,
            })?;
            Ok(())
        }
    }
}

#[cycle(add)]
fn add_expr<A: Allocator>(
    inputs: &mut Vec<StatementInput>,
    expr: &Expr<A>,
) -> Result<(), AllocError>
    ensures { OnOk result (inputs_view inputs.new.items ≡ inputs_view inputs.old.items ++ expr_inputs (expr_view expr.now)) }
{
    match expr {
        Expr::Number(_) | Expr::Text(_) | Expr::Truth(_) => Ok(()),
        Expr::Name(name) => {
            inputs.push(StatementInput::Scalar(*name))?;
            Ok(())
        }
        Expr::Whole(name) => {
            inputs.push(StatementInput::Array(*name))?;
            Ok(())
        }
        Expr::Operation(_, operands) => add_exprs(inputs, operands),
    }
}

#[cycle(add)]
fn add_exprs<A: Allocator>(
    inputs: &mut Vec<StatementInput>,
    exprs: &Vec<Expr<A>, A>,
) -> Result<(), AllocError>
    ensures { OnOk result (inputs_view inputs.new.items ≡ inputs_view inputs.old.items ++ exprs_inputs (exprs_view exprs.now.items)) }
{
    for expr in exprs {
        add_expr(inputs, expr)?;
    }
    Ok(())
}
