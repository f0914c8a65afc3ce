//! Plain cells: tests for cells that have no datum of their own.
ghost use Rattle.std.specs.Prelude.{◌≡◌, ◌≤◌, Some, None, not, length};
ghost use Rattle.language.specs.Core as core;
ghost use Rattle.flow.specs.View.{expr_view, form_view, name_view, names_view, part_view, parts_view};
ghost use Rattle.code_rules.specs.Laying.{local_node, same_node, plain_after, gives as pure_gives};
ghost use Rattle.emit_cells.specs.Before.{last_of, before, gives_node, is_among};

use flow::cell::{CellForm, CellPart, OuterCell};
use flow::expression::Expr;
use flow::name::{Name, NameBinding};
use std::alloc::Allocator;

/// Returns the node of a variable or cell that belongs to the block where it is named.
pub fn local_node(name: Name) -> Option<u32>
    ensures { result ≡ local_node (name_view name) }
{
    if name.up != 0 {
        return None;
    }
    match name.what {
        NameBinding::Local(node) => Some(node),
        _ => None,
    }
}

/// Returns true if the name refers to the variable or cell of this node in its own block.
fn is_node(name: Name, node: u32) -> bool
    ensures { result ≡ same_node (Some node) (local_node (name_view name)) }
{
    match local_node(name) {
        None => false,
        Some(found) => node == found,
    }
}

/// Returns true if one of these names refers to the variable of this node in its own block.
fn has_node<A: Allocator>(names: &Vec<Name, A>, node: u32) -> bool
    ensures { result ≡ is_among node (names_view names.now.items) }
{
    for name in names {
        if is_node(*name, node) {
            return true;
        }
    }
    false
}

/// Returns true if the part is a call with the scalar of this node as an output.
fn gives<A: Allocator>(part: &CellPart<A>, node: u32) -> bool
    ensures { result ≡ gives_node (Some (part_view part.now)) node }
{
    match part {
        CellPart::Inner(_) => false,
        CellPart::Calls(call) => has_node(&call.outputs, node),
    }
}

/// Returns true if the part directly before index `at` is a call with the scalar of this node as an output.
fn given_before<A: Allocator>(parts: &Vec<CellPart<A>, A>, at: usize, node: u32) -> bool
    ensures { at ≤ length parts.now.items → result ≡ gives_node (before (parts_view parts.now.items) at) node }
{
    if at == 0 || at > parts.len() {
        return false;
    }
    gives(&parts[at - 1], node)
}

/// Returns true unless the part directly before index `at` is a call with this name as an output.
fn is_free<A: Allocator>(parts: &Vec<CellPart<A>, A>, at: usize, name: Name) -> bool
    ensures { at ≤ length parts.now.items → result ≡ not (pure_gives (before (parts_view parts.now.items) at) (name_view name)) }
{
    match local_node(name) {
        None => true,
        Some(node) => !given_before(parts, at, node),
    }
}

/// Returns true if a cell of this form has no datum at index `at` of the parts. It is then a literal, or the name of a
/// scalar that is not an output of a call directly before.
pub fn is_plain<A: Allocator>(parts: &Vec<CellPart<A>, A>, at: usize, form: &CellForm<A>) -> bool
    ensures { at ≤ length parts.now.items → result ≡ plain_after (before (parts_view parts.now.items) at) (form_view form.now) }
{
    match form {
        CellForm::Compute(expr) => is_plain_expr(parts, at, expr),
        CellForm::Read { .. } => false,
    }
}

fn is_plain_expr<A: Allocator>(parts: &Vec<CellPart<A>, A>, at: usize, expr: &Expr<A>) -> bool
    ensures { at ≤ length parts.now.items → result ≡ plain_after (before (parts_view parts.now.items) at) (core.compute (expr_view expr.now)) }
{
    match expr {
        Expr::Number(_) | Expr::Text(_) | Expr::Truth(_) => true,
        Expr::Name(name) => is_free(parts, at, *name),
        Expr::Whole(_) => false,
        Expr::Operation(_, _) => false,
    }
}

/// Returns true if the cell of an outermost cell is plain.
pub fn is_outer_plain<A: Allocator>(outer: &OuterCell<A>) -> bool
    ensures { result ≡ plain_after (last_of None (parts_view outer.now.parts.items)) (form_view outer.now.cell.form) }
{
    is_plain(&outer.parts, outer.parts.len(), &outer.cell.form)
}
