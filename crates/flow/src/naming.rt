//! Checks that the names used by a statement are declared and that the functions it calls exist.
ghost use Rattle.std.specs.Prelude.{◌≡◌, ◌∷◌, ◌++◌, [], option_map, option_to_list};
ghost use Rattle.flow.specs.View.{action_view, call_view, cell_view, expr_view, exprs_view, form_view, name_view, names_view, outer_view, part_view, parts_view};
ghost use Rattle.language.specs.Core.{calls, here};
ghost use Rattle.language.specs.Parts.{outer_parts};
ghost use Rattle.flow.specs.Names.{expr_names, exprs_names, form_names};
ghost use Rattle.flow.specs.Tests.{are_declared, is_fit, part_fits, parts_fit};
ghost use Rattle.flow.specs.Viewed.{owners_of};

use crate::cell::{Call, CellForm, CellPart, OuterCell};
use crate::expression::Expr;
use crate::name::{Name, NameBinding};
use crate::scopes::{Scopes, is_declared};
use crate::statement::{Action, Range};
use language::tree::Shape;
use std::alloc::Allocator;

/// Returns true if all names that a statement uses outside its nested blocks are declared and all functions that it
/// calls exist.
pub(crate) fn is_fit<'a, A: Allocator>(
    scopes: &Scopes<'a, A>,
    functions: usize,
    action: &Action<A>,
) -> bool
    ensures { result ≡ is_fit (owners_of scopes.now) functions (action_view action.now) }
{
    match action {
        Action::Declare(_) => true,
        Action::Call { parts, call, .. } => is_call_alone_fit(scopes, functions, parts, call),
        Action::Assign { target, right } => is_declared(scopes, *target)
            && is_outer_fit(scopes, functions, right),
        Action::Fill { array, right } => is_declared(scopes, *array)
            && is_outer_fit(scopes, functions, right),
        Action::Insert {
            array,
            index,
            right,
        } => is_declared(scopes, *array) && are_two_fit(scopes, functions, index, right),
        Action::Print { line, .. } => is_outer_fit(scopes, functions, line),
        Action::Assert { check, .. } => is_outer_fit(scopes, functions, check),
        Action::When { condition, .. } => is_outer_fit(scopes, functions, condition),
        Action::Choose { condition, .. } => is_outer_fit(scopes, functions, condition),
        Action::Range { range, .. } => is_range_fit(scopes, functions, range),
        Action::Each { array, .. } => is_declared(scopes, *array),
        Action::Wait { names, .. } => are_names_fit(scopes, names),
    }
}

/// Returns true if all names and functions in a call statement and in the parts before it exist.
fn is_call_alone_fit<'a, A: Allocator>(
    scopes: &Scopes<'a, A>,
    functions: usize,
    parts: &Vec<CellPart<A>, A>,
    call: &Call<A>,
) -> bool
    ensures { result ≡ parts_fit (owners_of scopes.now) functions (parts_view parts.now.items ++ calls (call_view call.now) ∷ []) }
{
    are_parts_fit(scopes, functions, parts) && is_call_fit(scopes, functions, call)
}

/// Returns true if all names and functions in two outermost cells exist.
fn are_two_fit<'a, A: Allocator>(
    scopes: &Scopes<'a, A>,
    functions: usize,
    one: &OuterCell<A>,
    other: &OuterCell<A>,
) -> bool
    ensures { result ≡ parts_fit (owners_of scopes.now) functions (outer_parts (outer_view one.now ∷ outer_view other.now ∷ [])) }
{
    is_outer_fit(scopes, functions, one) && is_outer_fit(scopes, functions, other)
}

/// Returns true if all names and functions in the bounds and the step of a range exist.
fn is_range_fit<'a, A: Allocator>(
    scopes: &Scopes<'a, A>,
    functions: usize,
    range: &Range<A>,
) -> bool
    ensures { result ≡ parts_fit (owners_of scopes.now) functions
        (outer_parts (outer_view range.now.low ∷ outer_view range.now.high ∷ option_to_list (option_map outer_view range.now.step))) }
{
    is_outer_fit(scopes, functions, &range.low)
        && is_outer_fit(scopes, functions, &range.high)
        && is_step_fit(scopes, functions, &range.step)
}

fn is_step_fit<'a, A: Allocator>(
    scopes: &Scopes<'a, A>,
    functions: usize,
    step: &Option<OuterCell<A>>,
) -> bool
    ensures { result ≡ parts_fit (owners_of scopes.now) functions (outer_parts (option_to_list (option_map outer_view step.now))) }
{
    match step {
        Some(outer) => is_outer_fit(scopes, functions, outer),
        None => true,
    }
}

/// Returns true if all names and functions in an outermost cell and its nested parts exist.
fn is_outer_fit<'a, A: Allocator>(
    scopes: &Scopes<'a, A>,
    functions: usize,
    outer: &OuterCell<A>,
) -> bool
    ensures { result ≡ parts_fit (owners_of scopes.now) functions (outer_parts (outer_view outer.now ∷ [])) }
{
    are_parts_fit(scopes, functions, &outer.parts) && is_form_fit(scopes, &outer.cell.form)
}

/// Returns true if all names and functions in the cells and calls of an expression exist.
fn are_parts_fit<'a, A: Allocator>(
    scopes: &Scopes<'a, A>,
    functions: usize,
    parts: &Vec<CellPart<A>, A>,
) -> bool
    ensures { result ≡ parts_fit (owners_of scopes.now) functions (parts_view parts.now.items) }
{
    for part in parts {
        if !is_part_fit(scopes, functions, part) {
            return false;
        }
    }
    true
}

fn is_part_fit<'a, A: Allocator>(
    scopes: &Scopes<'a, A>,
    functions: usize,
    part: &CellPart<A>,
) -> bool
    ensures { result ≡ part_fits (owners_of scopes.now) functions (part_view part.now) }
{
    match part {
        CellPart::Inner(cell) => is_form_fit(scopes, &cell.form),
        CellPart::Calls(call) => is_call_fit(scopes, functions, call),
    }
}

fn is_call_fit<'a, A: Allocator>(scopes: &Scopes<'a, A>, functions: usize, call: &Call<A>) -> bool
    ensures { result ≡ part_fits (owners_of scopes.now) functions (calls (call_view call.now)) }
{
    are_names_fit(scopes, &call.inputs)
        && are_names_fit(scopes, &call.outputs)
        && call.function < functions
}

/// Returns true if the names in a cell are declared.
fn is_form_fit<'a, A: Allocator>(scopes: &Scopes<'a, A>, form: &CellForm<A>) -> bool
    ensures { result ≡ are_declared (owners_of scopes.now) (form_names (form_view form.now)) }
{
    match form {
        CellForm::Compute(expression) => is_expression_fit(scopes, expression),
        CellForm::Read { array, index } => is_declared(scopes, *array)
            && is_index_fit(scopes, *index),
    }
}

/// Returns true if the cell of an index is declared in the block that uses it.
fn is_index_fit<'a, A: Allocator>(scopes: &Scopes<'a, A>, index: u32) -> bool
    ensures { result ≡ are_declared (owners_of scopes.now) (here index ∷ []) }
{
    let cell = Name {
        up: 0,
        what: NameBinding::Local(index),
        shape: Shape::Scalar,
    };
    is_declared(scopes, cell)
}

/// Returns true if the names in an expression are declared.
#[cycle(expression)]
fn is_expression_fit<'a, A: Allocator>(scopes: &Scopes<'a, A>, expression: &Expr<A>) -> bool
    ensures { result ≡ are_declared (owners_of scopes.now) (expr_names (expr_view expression.now)) }
{
    match expression {
        Expr::Number(_) | Expr::Text(_) | Expr::Truth(_) => true,
        Expr::Name(name) => is_declared(scopes, *name),
        Expr::Whole(name) => is_declared(scopes, *name),
        Expr::Operation(_, operands) => are_expressions_fit(scopes, operands),
    }
}

#[cycle(expression)]
fn are_expressions_fit<'a, A: Allocator>(
    scopes: &Scopes<'a, A>,
    expressions: &Vec<Expr<A>, A>,
) -> bool
    ensures { result ≡ are_declared (owners_of scopes.now) (exprs_names (exprs_view expressions.now.items)) }
{
    for expression in expressions {
        if !is_expression_fit(scopes, expression) {
            return false;
        }
    }
    true
}

/// Returns true if all the names are declared.
pub(crate) fn are_names_fit<'a, A: Allocator>(scopes: &Scopes<'a, A>, names: &Vec<Name, A>) -> bool
    ensures { result ≡ are_declared (owners_of scopes.now) (names_view names.now.items) }
{
    for name in names {
        if !is_declared(scopes, *name) {
            return false;
        }
    }
    true
}
