//! Lowering of expressions: appends nested cells and calls to `parts` and returns the remaining expression.
ghost use Rattle.std.specs.Prelude.{◌≡◌, ◌++◌, ◌∷◌, [], IfOk, OnOk, map, drop, option_map};
ghost use Rattle.language.specs.Core as core;
ghost use Rattle.language.specs.Tree as pure;
ghost use Rattle.language.specs.Tree.{expressions_of};
ghost use Rattle.language.specs.Table.{built_in};
ghost use Rattle.language.specs.Resolved as rules;
ghost use Rattle.syntax_trees.specs.View.{word_of, expression_view, form_view};
ghost use Rattle.types.specs.Typed.{table_of, builtin_name};
ghost use Rattle.flow.specs.View as seen;
ghost use Rattle.flow.specs.View.{parts_view, names_view};
ghost use Rattle.lowering.specs.Nodes.{PartsStand, all_nodes, expression_nodes, form_nodes};
ghost use Rattle.lowering.specs.View.{Leaves, calling, array_named, variable_named};

use crate::names::{here, refer};
use crate::operators::{of_builtin, of_chain, of_prefix};
use flow::cell::{Call, Cell, CellForm, CellPart};
use flow::expression::{Expr, Operation};
use flow::name::Name;
use std::alloc::{AllocError, Allocator};
use syntax_trees::tree::{self, ExprKind, Shape};
use types::typed::{Builtin, Callee, Typed};

/// Returns the form of the cell of an expression. Appends its nested cells and calls to `parts`.
#[cycle(expression)]
pub fn form<A: Allocator + Clone>(
    alloc: &A,
    typed: &Typed,
    parts: &mut Vec<CellPart<A>, A>,
    expr: &tree::Expr<A>,
) -> Result<CellForm<A>, AllocError>
    ensures leaves { IfOk result (λ f. Leaves parts.old.items parts.new.items (seen.form_view f) (rules.form_of (table_of typed.now) (expression_view expr.now))) }
    ensures cells { OnOk result (PartsStand parts.old.items parts.new.items (expression_nodes (expression_view expr.now))) }
{
    kind_form(alloc, typed, parts, &expr.kind)
}

#[cycle(expression)]
#[tactic(auto, using(crate::proofs::Anchors::stays))]
fn kind_form<A: Allocator + Clone>(
    alloc: &A,
    typed: &Typed,
    parts: &mut Vec<CellPart<A>, A>,
    kind: &ExprKind<A>,
) -> Result<CellForm<A>, AllocError>
    ensures leaves { IfOk result (λ f. Leaves parts.old.items parts.new.items (seen.form_view f) (rules.form_in (table_of typed.now) (form_view kind.now))) }
    ensures cells { OnOk result (PartsStand parts.old.items parts.new.items (form_nodes (form_view kind.now))) }
{
    match kind {
        ExprKind::Number(n) => Ok(CellForm::Compute(Expr::Number(*n))),
        ExprKind::Text(bytes) => Ok(CellForm::Compute(Expr::Text(Vec::from_slice(
            alloc.clone()?,
            bytes.as_slice(),
        )?))),
        ExprKind::Truth(b) => Ok(CellForm::Compute(Expr::Truth(*b))),
        ExprKind::Variable(name) => Ok(CellForm::Compute(Expr::Name(refer(typed, name)))),
        ExprKind::Element(name, index) => {
            inner_cell(alloc, typed, parts, index)?;
            Ok(CellForm::Read {
                array: refer(typed, name),
                index: index.number,
            })
        }
        ExprKind::Call(name, arguments) => called(alloc, typed, parts, name, arguments),
        ExprKind::Prefixed(prefix, expr) => {
            let one = operand(alloc, typed, parts, expr)?;
            let operands = single(alloc, one)?;
            Ok(CellForm::Compute(Expr::Operation(of_prefix(*prefix), operands)))
        }
        ExprKind::Chain(operators, exprs) => {
            let operation = of_chain(alloc, operators.as_slice())?;
            operation_on(alloc, typed, parts, operation, exprs, 0)
        }
    }
}

/// Appends the cell of an expression, after its nested cells and calls.
#[cycle(expression)]
fn inner_cell<A: Allocator + Clone>(
    alloc: &A,
    typed: &Typed,
    parts: &mut Vec<CellPart<A>, A>,
    expr: &tree::Expr<A>,
) -> Result<(), AllocError>
    ensures leaves { OnOk result (let e = expression_view expr.now in parts_view parts.new.items
        ≡ parts_view parts.old.items ++ rules.as_cell (rules.number_of e) (rules.form_of (table_of typed.now) e)) }
    ensures cells { OnOk result (PartsStand parts.old.items parts.new.items (expression_nodes (expression_view expr.now))) }
{
    let found = form(alloc, typed, parts, expr)?;
    add_cell(parts, expr.number, expr.first.from, found)
}

/// Appends a cell.
fn add_cell<A: Allocator>(
    parts: &mut Vec<CellPart<A>, A>,
    node: u32,
    at: usize,
    form: CellForm<A>,
) -> Result<(), AllocError>
    ensures part { OnOk result (parts_view parts.new.items ≡ parts_view parts.old.items ++ core.inner (record { node = node; form = seen.form_view form }) ∷ []) }
    ensures cells { OnOk result (PartsStand parts.old.items parts.new.items (record { node = node; at = at } ∷ [])) }
{
    parts.push(CellPart::Inner(Cell { node, at, form }))?;
    Ok(())
}

/// Returns an expression as an operand. An array element becomes a cell of its own, to which the operand refers.
#[cycle(expression)]
fn operand<A: Allocator + Clone>(
    alloc: &A,
    typed: &Typed,
    parts: &mut Vec<CellPart<A>, A>,
    expr: &tree::Expr<A>,
) -> Result<Expr<A>, AllocError>
    ensures leaves { IfOk result (λ one. let e = expression_view expr.now in Leaves parts.old.items parts.new.items (seen.expr_view one)
        (rules.as_operand (rules.number_of e) (rules.form_of (table_of typed.now) e))) }
    ensures cells { OnOk result (PartsStand parts.old.items parts.new.items (expression_nodes (expression_view expr.now))) }
{
    let found = form(alloc, typed, parts, expr)?;
    match found {
        CellForm::Compute(one) => Ok(one),
        CellForm::Read { array, index } => {
            let read = CellForm::Read { array, index };
            add_cell(parts, expr.number, expr.first.from, read)?;
            Ok(Expr::Name(here(expr.number)))
        }
    }
}

/// Returns the form that applies an operation to the expressions from index `from` on.
#[cycle(expression)]
pub fn operation_on<A: Allocator + Clone>(
    alloc: &A,
    typed: &Typed,
    parts: &mut Vec<CellPart<A>, A>,
    operation: Operation<A>,
    exprs: &Vec<tree::Expr<A>, A>,
    from: usize,
) -> Result<CellForm<A>, AllocError>
    ensures leaves { IfOk result (λ f. Leaves parts.old.items parts.new.items (seen.form_view f)
        (rules.computes (seen.operation_view operation)
        (rules.operands_of (table_of typed.now) (expressions_of (map expression_view (drop from exprs.now.items)))))) }
    ensures cells { OnOk result (PartsStand parts.old.items parts.new.items (all_nodes (map expression_view exprs.now.items))) }
{
    let found = operands(alloc, typed, parts, exprs, from)?;
    Ok(CellForm::Compute(Expr::Operation(operation, found)))
}

/// Returns the expressions from index `from` on as operands.
#[cycle(expression)]
#[tactic(auto, using(crate::proofs::Anchors::stays))]
fn operands<A: Allocator + Clone>(
    alloc: &A,
    typed: &Typed,
    parts: &mut Vec<CellPart<A>, A>,
    exprs: &Vec<tree::Expr<A>, A>,
    from: usize,
) -> Result<Vec<Expr<A>, A>, AllocError>
    ensures leaves { IfOk result (λ v. Leaves parts.old.items parts.new.items (seen.exprs_view v.items)
        (rules.operands_of (table_of typed.now) (expressions_of (map expression_view (drop from exprs.now.items))))) }
    ensures cells { OnOk result (PartsStand parts.old.items parts.new.items (all_nodes (map expression_view exprs.now.items))) }
{
    let mut found = Vec::new(alloc.clone()?);
    for i in from..exprs.len() {
        found.push(operand(alloc, typed, parts, &exprs[i])?)?;
    }
    Ok(found)
}

// CALLS

/// Returns the form of a call in an expression. A composite call is appended to `parts`, and the form refers to its
/// output.
#[cycle(expression)]
fn called<A: Allocator + Clone>(
    alloc: &A,
    typed: &Typed,
    parts: &mut Vec<CellPart<A>, A>,
    name: &tree::Name<A>,
    arguments: &Vec<tree::Expr<A>, A>,
) -> Result<CellForm<A>, AllocError>
    ensures leaves { IfOk result (λ f. let t = table_of typed.now in let es = expressions_of (map expression_view arguments.now.items) in
        Leaves parts.old.items parts.new.items (seen.form_view f)
        (rules.call_form t (word_of name.now) (t.callee_of name.now.number) es (rules.arguments_of t es) (rules.operands_of t es))) }
    ensures cells { OnOk result (PartsStand parts.old.items parts.new.items (all_nodes (map expression_view arguments.now.items))) }
{
    match typed.callee(name.number) {
        Callee::Function(function) => {
            let outputs = single(alloc, here(name.number))?;
            let call = call_of(alloc, typed, parts, name, function, arguments, outputs)?;
            parts.push(CellPart::Calls(call))?;
            Ok(CellForm::Compute(Expr::Name(here(name.number))))
        }
        Callee::BuiltIn(builtin) => built_in(alloc, typed, parts, builtin, arguments),
    }
}

/// Returns the form of a call of a built-in function.
#[cycle(expression)]
#[tactic(auto, using(crate::proofs::Anchors::stays))]
pub fn built_in<A: Allocator + Clone>(
    alloc: &A,
    typed: &Typed,
    parts: &mut Vec<CellPart<A>, A>,
    builtin: Builtin,
    arguments: &Vec<tree::Expr<A>, A>,
) -> Result<CellForm<A>, AllocError>
    ensures leaves { IfOk result (λ f. (w : pure.Word) (passed : rules.Arguments)
        → let t = table_of typed.now in let es = expressions_of (map expression_view arguments.now.items) in
        Leaves parts.old.items parts.new.items (seen.form_view f) (rules.call_form t w (built_in (builtin_name builtin)) es passed (rules.operands_of t es))) }
    ensures cells { OnOk result (PartsStand parts.old.items parts.new.items (all_nodes (map expression_view arguments.now.items))) }
{
    match builtin {
        Builtin::Size => {
            let array = sized(alloc, typed, arguments)?;
            Ok(CellForm::Compute(Expr::Operation(Operation::Size, array)))
        }
        _ => {
            let operation = of_builtin(alloc, builtin, arguments)?;
            operation_on(alloc, typed, parts, operation, arguments, 0)
        }
    }
}

/// Returns the array argument of `size`, or no operand if the first argument is not a variable.
fn sized<A: Allocator + Clone>(
    alloc: &A,
    typed: &Typed,
    arguments: &Vec<tree::Expr<A>, A>,
) -> Result<Vec<Expr<A>, A>, AllocError>
    ensures { IfOk result (λ v. seen.exprs_view v.items ≡ rules.sized (table_of typed.now) (expressions_of (map expression_view arguments.now.items))) }
{
    if arguments.is_empty() {
        return Ok(Vec::new(alloc.clone()?));
    }
    match variable_named(typed, &arguments[0].kind) {
        Some(array) => single(alloc, Expr::Whole(array)),
        None => Ok(Vec::new(alloc.clone()?)),
    }
}

/// Returns a call of a composite function with its outputs bound to these names.
#[cycle(expression)]
pub fn call_of<A: Allocator + Clone>(
    alloc: &A,
    typed: &Typed,
    parts: &mut Vec<CellPart<A>, A>,
    name: &tree::Name<A>,
    function: usize,
    arguments: &Vec<tree::Expr<A>, A>,
    outputs: Vec<Name, A>,
) -> Result<Call<A>, AllocError>
    ensures leaves { IfOk result (λ c. let passed = rules.arguments_of (table_of typed.now) (expressions_of (map expression_view arguments.now.items)) in
        Leaves parts.old.items parts.new.items (seen.call_view c) (calling passed (word_of name.now) function (names_view outputs.items))) }
    ensures cells { OnOk result (PartsStand parts.old.items parts.new.items (all_nodes (map expression_view arguments.now.items))) }
{
    let inputs = inputs(alloc, typed, parts, arguments)?;
    Ok(Call {
        at: name.span.from,
        function,
        inputs,
        outputs,
    })
}

/// Returns the names to which the inputs of a call are bound.
#[cycle(expression)]
#[tactic(auto, using(crate::proofs::Anchors::stays))]
fn inputs<A: Allocator + Clone>(
    alloc: &A,
    typed: &Typed,
    parts: &mut Vec<CellPart<A>, A>,
    exprs: &Vec<tree::Expr<A>, A>,
) -> Result<Vec<Name, A>, AllocError>
    ensures leaves { IfOk result (λ v. Leaves parts.old.items parts.new.items (names_view v.items)
        (rules.arguments_of (table_of typed.now) (expressions_of (map expression_view exprs.now.items)))) }
    ensures cells { OnOk result (PartsStand parts.old.items parts.new.items (all_nodes (map expression_view exprs.now.items))) }
{
    let mut found = Vec::new(alloc.clone()?);
    for expr in exprs {
        found.push(argument(alloc, typed, parts, expr)?)?;
    }
    Ok(found)
}

/// Returns the name of an argument of a composite call: an array, or a new cell of the expression.
#[cycle(expression)]
#[tactic(auto, using(crate::proofs::Anchors::stays))]
fn argument<A: Allocator + Clone>(
    alloc: &A,
    typed: &Typed,
    parts: &mut Vec<CellPart<A>, A>,
    expr: &tree::Expr<A>,
) -> Result<Name, AllocError>
    ensures leaves { IfOk result (λ x. let t = table_of typed.now
        in let e = expression_view expr.now in Leaves parts.old.items parts.new.items (seen.name_view x) (rules.as_argument t e (rules.form_of t e))) }
    ensures cells { OnOk result (PartsStand parts.old.items parts.new.items (expression_nodes (expression_view expr.now))) }
{
    match array_named(typed, &expr.kind) {
        Some(array) => Ok(array),
        None => {
            inner_cell(alloc, typed, parts, expr)?;
            Ok(here(expr.number))
        }
    }
}

/// Returns the array that an expression names, or `None` if the expression is not the name of an array.
pub fn array_named<A: Allocator>(typed: &Typed, kind: &ExprKind<A>) -> Option<Name>
    ensures { option_map seen.name_view result ≡ array_named (table_of typed.now) (form_view kind.now) }
{
    let ExprKind::Variable(name) = kind else {
        return None;
    };
    match typed.shape(name.number) {
        Shape::Array(_) => Some(refer(typed, name)),
        Shape::Scalar => None,
    }
}

/// Returns the variable that an expression names, or `None` if the expression is not a variable.
pub fn variable_named<A: Allocator>(typed: &Typed, kind: &ExprKind<A>) -> Option<Name>
    ensures { option_map seen.name_view result ≡ variable_named (table_of typed.now) (form_view kind.now) }
{
    match kind {
        ExprKind::Variable(name) => Some(refer(typed, name)),
        _ => None,
    }
}

/// Creates a vector of one element.
pub fn single<T: Drop, A: Allocator + Clone>(alloc: &A, one: T) -> Result<Vec<T, A>, AllocError>
    ensures { IfOk result (λ v. v.items ≡ one ∷ []) }
{
    let mut found = Vec::new(alloc.clone()?);
    found.push(one)?;
    Ok(found)
}
