//! Lowering of right sides and of calls that are statements.
ghost use Rattle.std.specs.Prelude.{◌≡◌, ◌∷◌, [], IfOk, map, drop, pos};
ghost use Rattle.language.specs.Core as core;
ghost use Rattle.language.specs.Table as table;
ghost use Rattle.language.specs.Tree.{expressions_of, value};
ghost use Rattle.lowering.specs.Nodes.{all_nodes, calling_nodes, expression_nodes, right_nodes};
ghost use Rattle.language.specs.Resolved as rules;
ghost use Rattle.syntax_trees.specs.View.{word_of, words_view, expression_view, right_of, calling_of};
ghost use Rattle.types.specs.Typed.{table_of, builtin_name};
ghost use Rattle.flow.specs.Cells.{AreAmong, action_anchors, outer_anchors};
ghost use Rattle.flow.specs.Listed.{action_listed, other};
ghost use Rattle.flow.specs.Shapes.{action_declared};
ghost use Rattle.flow.specs.View as seen;
ghost use Rattle.flow.specs.View.{action_view, outer_view, name_view, names_view, operation_view};

use crate::expression::{built_in, call_of, form, operation_on, single};
use crate::names::{all, here, refer};
use crate::operators::format_bytes;
use flow::cell::{Cell, CellForm, OuterCell};
use flow::expression::{Expr, Operation};
use flow::name::Name;
use flow::statement::Action;
use std::alloc::{AllocError, Allocator};
use syntax_trees::tree::{self, Call, ExprKind, Right, Shape};
use types::typed::{Builtin, Callee, Typed};

/// Converts an expression into an outermost cell.
pub fn outer<A: Allocator + Clone>(
    alloc: &A,
    typed: &Typed,
    expr: &tree::Expr<A>,
) -> Result<OuterCell<A>, AllocError>
    ensures outer { IfOk result (λ o. outer_view o ≡ rules.outer (table_of typed.now) (expression_view expr.now)) }
    ensures cells { IfOk result (λ o. AreAmong (outer_anchors o) (expression_nodes (expression_view expr.now))) }
{
    let mut parts = Vec::new(alloc.clone()?);
    let form = form(alloc, typed, &mut parts, expr)?;
    let cell = Cell {
        node: expr.number,
        at: expr.first.from,
        form,
    };
    Ok(OuterCell { parts, cell })
}

/// Converts an expression into a boxed outermost cell.
pub fn boxed_outer<A: Allocator + Clone>(
    alloc: &A,
    typed: &Typed,
    expr: &tree::Expr<A>,
) -> Result<Box<OuterCell<A>, A>, AllocError>
    ensures outer { IfOk result (λ o. outer_view o.value ≡ rules.outer (table_of typed.now) (expression_view expr.now)) }
    ensures cells { IfOk result (λ o. AreAmong (outer_anchors o.value) (expression_nodes (expression_view expr.now))) }
{
    Ok(Box::new(alloc.clone()?, outer(alloc, typed, expr)?)?)
}

/// The node and the offset of a cell.
#[derive(Clone, Copy, Drop)]
pub struct Anchor {
    pub node: u32,
    pub at: usize,
}

/// Creates an outermost cell that applies an operation to the expressions from index `from` on.
fn outer_operation<A: Allocator + Clone>(
    alloc: &A,
    typed: &Typed,
    place: Anchor,
    operation: Operation<A>,
    exprs: &Vec<tree::Expr<A>, A>,
    from: usize,
) -> Result<Box<OuterCell<A>, A>, AllocError>
    ensures outer { IfOk result (λ o. outer_view o.value ≡ rules.outer_of place.node
        (rules.computes (operation_view operation) (rules.operands_of (table_of typed.now)
        (expressions_of (map expression_view (drop from exprs.now.items)))))) }
    ensures cells { IfOk result (λ o. AreAmong (outer_anchors o.value)
        (record { node = place.node; at = place.at } ∷ all_nodes (map expression_view exprs.now.items))) }
{
    let mut parts = Vec::new(alloc.clone()?);
    let form = operation_on(alloc, typed, &mut parts, operation, exprs, from)?;
    let cell = Cell {
        node: place.node,
        at: place.at,
        form,
    };
    Ok(Box::new(alloc.clone()?, OuterCell { parts, cell })?)
}

// RIGHT SIDES

/// Returns the action that assigns a right side to a variable.
pub fn assignment<A: Allocator + Clone>(
    alloc: &A,
    typed: &Typed,
    target: Name,
    right: &Right<A>,
) -> Result<Action<A>, AllocError>
    ensures core { IfOk result (λ a. action_view a ≡ rules.right_of (table_of typed.now) (name_view target) target.shape (right_of right.now)) }
    ensures declared { IfOk result (λ a. action_declared a ≡ []) }
    ensures listed { IfOk result (λ a. action_listed a ≡ other []) }
    ensures cells { IfOk result (λ a. AreAmong (action_anchors a) (right_nodes (right_of right.now))) }
{
    match right {
        Right::Value(expr) => of_value(alloc, typed, target, expr),
        Right::List(list) => {
            let place = Anchor {
                node: list.number,
                at: list.first.from,
            };
            Ok(Action::Fill {
                array: target,
                right: outer_operation(alloc, typed, place, Operation::Literal, &list.elements, 0)?,
            })
        }
    }
}

/// Returns the action that assigns an expression to a variable. A composite call becomes a call action with the
/// variable as its output.
fn of_value<A: Allocator + Clone>(
    alloc: &A,
    typed: &Typed,
    target: Name,
    expr: &tree::Expr<A>,
) -> Result<Action<A>, AllocError>
    ensures core { IfOk result (λ a. action_view a ≡ rules.right_of (table_of typed.now) (name_view target) target.shape (value (expression_view expr.now))) }
    ensures declared { IfOk result (λ a. action_declared a ≡ []) }
    ensures listed { IfOk result (λ a. action_listed a ≡ other []) }
    ensures cells { IfOk result (λ a. AreAmong (action_anchors a) (expression_nodes (expression_view expr.now))) }
{
    match &expr.kind {
        ExprKind::Call(name, arguments) => match typed.callee(name.number) {
            Callee::Function(function) => {
                let outputs = single(alloc, target)?;
                call_alone(alloc, typed, 0, name, function, arguments, outputs)
            }
            Callee::BuiltIn(_) => assign(alloc, typed, target, expr),
        },
        ExprKind::Variable(name) => match target.shape {
            Shape::Array(_) => filled(
                alloc,
                target,
                expr.number,
                expr.first.from,
                refer(typed, name),
            ),
            Shape::Scalar => assign(alloc, typed, target, expr),
        },
        _ => assign(alloc, typed, target, expr),
    }
}

/// Returns the action that assigns the value of an expression to a scalar.
fn assign<A: Allocator + Clone>(
    alloc: &A,
    typed: &Typed,
    target: Name,
    expr: &tree::Expr<A>,
) -> Result<Action<A>, AllocError>
    ensures core { IfOk result (λ a. action_view a ≡ core.assign (name_view target) (rules.outer (table_of typed.now) (expression_view expr.now))) }
    ensures declared { IfOk result (λ a. action_declared a ≡ []) }
    ensures listed { IfOk result (λ a. action_listed a ≡ other []) }
    ensures cells { IfOk result (λ a. AreAmong (action_anchors a) (expression_nodes (expression_view expr.now))) }
{
    Ok(Action::Assign {
        target,
        right: boxed_outer(alloc, typed, expr)?,
    })
}

/// Returns the action that assigns the elements of another array to an array.
fn filled<A: Allocator + Clone>(
    alloc: &A,
    array: Name,
    node: u32,
    at: usize,
    elements: Name,
) -> Result<Action<A>, AllocError>
    ensures core { IfOk result (λ a. action_view a ≡ core.fill (name_view array) (rules.outer_of node ([], core.compute (core.whole (name_view elements))))) }
    ensures declared { IfOk result (λ a. action_declared a ≡ []) }
    ensures listed { IfOk result (λ a. action_listed a ≡ other []) }
    ensures cells { IfOk result (λ a. action_anchors a ≡ record { node = node; at = at } ∷ []) }
{
    let right = boxed_whole(alloc, node, at, elements)?;
    Ok(Action::Fill { array, right })
}

/// Creates an outermost cell of a whole array.
fn boxed_whole<A: Allocator + Clone>(
    alloc: &A,
    node: u32,
    at: usize,
    elements: Name,
) -> Result<Box<OuterCell<A>, A>, AllocError>
    ensures outer { IfOk result (λ o. outer_view o.value ≡ rules.outer_of node ([], core.compute (core.whole (name_view elements)))) }
    ensures cells { IfOk result (λ o. outer_anchors o.value ≡ record { node = node; at = at } ∷ []) }
{
    let cell = Cell {
        node,
        at,
        form: CellForm::Compute(Expr::Whole(elements)),
    };
    let parts = Vec::new(alloc.clone()?);
    Ok(Box::new(alloc.clone()?, OuterCell { parts, cell })?)
}

// CALLS THAT ARE STATEMENTS

/// Returns the action that calls a composite function with its outputs bound to these names.
fn call_alone<A: Allocator + Clone>(
    alloc: &A,
    typed: &Typed,
    priority: i32,
    name: &tree::Name<A>,
    function: usize,
    arguments: &Vec<tree::Expr<A>, A>,
    outputs: Vec<Name, A>,
) -> Result<Action<A>, AllocError>
    ensures core { IfOk result (λ a. action_view a ≡ rules.composite_call priority (word_of name.now) function
        (rules.arguments_of (table_of typed.now) (expressions_of (map expression_view arguments.now.items))) (names_view outputs.items)) }
    ensures declared { IfOk result (λ a. action_declared a ≡ []) }
    ensures listed { IfOk result (λ a. action_listed a ≡ other []) }
    ensures cells { IfOk result (λ a. AreAmong (action_anchors a) (all_nodes (map expression_view arguments.now.items))) }
{
    let mut parts = Vec::new(alloc.clone()?);
    let call = call_of(alloc, typed, &mut parts, name, function, arguments, outputs)?;
    Ok(Action::Call {
        priority,
        parts,
        call: Box::new(alloc.clone()?, call)?,
    })
}

/// Returns the action of a call statement: a composite function without outputs, `printf` or `assert`.
pub fn statement_call<A: Allocator + Clone>(
    alloc: &A,
    typed: &Typed,
    priority: i32,
    call: &Call<A>,
) -> Result<Action<A>, AllocError>
    ensures core { IfOk result (λ a. let t = table_of typed.now in let c = calling_of call.now in
        action_view a ≡ rules.call_action t priority c.node.number c.name (expressions_of c.arguments) (t.callee_of c.name.number)) }
    ensures declared { IfOk result (λ a. action_declared a ≡ []) }
    ensures listed { IfOk result (λ a. action_listed a ≡ other []) }
    ensures cells { IfOk result (λ a. AreAmong (action_anchors a) (calling_nodes (calling_of call.now))) }
{
    let place = Anchor {
        node: call.number,
        at: call.first.from,
    };
    match typed.callee(call.name.number) {
        Callee::Function(function) => {
            let outputs = Vec::new(alloc.clone()?);
            call_alone(
                alloc,
                typed,
                priority,
                &call.name,
                function,
                &call.arguments,
                outputs,
            )
        }
        Callee::BuiltIn(Builtin::Printf) => {
            let operation = Operation::Printf(format_bytes(alloc, &call.arguments)?);
            let line = outer_operation(alloc, typed, place, operation, &call.arguments, 1)?;
            Ok(Action::Print { priority, line })
        }
        Callee::BuiltIn(_) => {
            let operation = Operation::Assert;
            let check = outer_operation(alloc, typed, place, operation, &call.arguments, 0)?;
            Ok(Action::Assert { priority, check })
        }
    }
}

/// Returns the action that assigns the outputs of a call to several names. The result of a built-in function is
/// assigned to the first name.
pub fn several<A: Allocator + Clone>(
    alloc: &A,
    typed: &Typed,
    names: &Vec<tree::Name<A>, A>,
    call: &Call<A>,
) -> Result<Action<A>, AllocError>
    ensures core { IfOk result (λ a. let t = table_of typed.now in let c = calling_of call.now in
        action_view a ≡ rules.several t c.node.number c.name (expressions_of c.arguments) (map (rules.refers t) (words_view names.now))
        (t.callee_of c.name.number)) }
    ensures declared { IfOk result (λ a. action_declared a ≡ []) }
    ensures listed { IfOk result (λ a. action_listed a ≡ other []) }
    ensures cells { IfOk result (λ a. AreAmong (action_anchors a) (calling_nodes (calling_of call.now))) }
{
    match typed.callee(call.name.number) {
        Callee::Function(function) => {
            let outputs = all(alloc, typed, names)?;
            call_alone(
                alloc,
                typed,
                0,
                &call.name,
                function,
                &call.arguments,
                outputs,
            )
        }
        Callee::BuiltIn(builtin) => {
            let target = first(typed, names);
            built_in_assigned(alloc, typed, target, builtin, call)
        }
    }
}

/// Returns the resolved first name, or a name of node 0 if there is none.
fn first<A: Allocator>(typed: &Typed, names: &Vec<tree::Name<A>, A>) -> Name
    ensures { name_view result ≡ rules.first_name (map (rules.refers (table_of typed.now)) (words_view names.now)) }
{
    if names.is_empty() {
        return here(0);
    }
    refer(typed, &names[0])
}

/// Returns the action that assigns the result of a built-in function to a name.
fn built_in_assigned<A: Allocator + Clone>(
    alloc: &A,
    typed: &Typed,
    target: Name,
    builtin: Builtin,
    call: &Call<A>,
) -> Result<Action<A>, AllocError>
    ensures core { IfOk result (λ a. let t = table_of typed.now in let c = calling_of call.now in let es = expressions_of c.arguments in
        action_view a ≡ core.assign (name_view target)
        (rules.outer_of c.node.number (rules.call_form t c.name (table.built_in (builtin_name builtin)) es ([], []) (rules.operands_of t es)))) }
    ensures declared { IfOk result (λ a. action_declared a ≡ []) }
    ensures listed { IfOk result (λ a. action_listed a ≡ other []) }
    ensures cells { IfOk result (λ a. AreAmong (action_anchors a) (calling_nodes (calling_of call.now))) }
{
    let right = boxed_built_in(alloc, typed, builtin, call)?;
    Ok(Action::Assign { target, right })
}

/// Creates an outermost cell of a call of a built-in function.
fn boxed_built_in<A: Allocator + Clone>(
    alloc: &A,
    typed: &Typed,
    builtin: Builtin,
    call: &Call<A>,
) -> Result<Box<OuterCell<A>, A>, AllocError>
    ensures outer { IfOk result (λ o. let t = table_of typed.now in let c = calling_of call.now in let es = expressions_of c.arguments in
        outer_view o.value ≡ rules.outer_of c.node.number
        (rules.call_form t c.name (table.built_in (builtin_name builtin)) es ([], []) (rules.operands_of t es))) }
    ensures cells { IfOk result (λ o. AreAmong (outer_anchors o.value) (calling_nodes (calling_of call.now))) }
{
    let mut parts = Vec::new(alloc.clone()?);
    let form = built_in(alloc, typed, &mut parts, builtin, &call.arguments)?;
    let cell = Cell {
        node: call.number,
        at: call.first.from,
        form,
    };
    Ok(Box::new(alloc.clone()?, OuterCell { parts, cell })?)
}
